//! The full table of the objects: what each port contributes in each family of the node, joined in
//! order of the ports between the family's fixed rules, unless two chains that are needed in a
//! family have one name.
#![tactic(auto)]

mod fault;
mod full;
mod keys;
mod names;
mod part;
mod rows;

pub use fault::TableFault;
pub use full::rebuild;
pub use kp_types::{Clash, PortInfo};
pub use names::check_names;
pub use part::{Part, part_of_port};
