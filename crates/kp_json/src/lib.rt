//! JSON texts as trees, and positions in them from which fields are read by name. A refused field
//! is told by its kind of fault and its path from the root.
#![tactic(auto)]

mod elements;
mod fault;
mod members;
mod path;
mod quote;
mod spot;
mod tree;

pub use elements::Elements;
pub use fault::{BadField, FieldFault, JsonFault, Why};
pub use members::Members;
pub use path::PathText;
pub use quote::quoted_text;
pub use spot::Spot;
pub use tree::{Tree, read_tree};
