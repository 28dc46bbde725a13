//! The objects of the cluster, after events.
#![tactic(auto)]

mod bucket;
mod changes;
mod further;
mod hashed;
mod index;
mod indexed;
mod key_set;
mod loose_keys;
mod named;
mod numbers;
mod objects;
mod selecting;
mod selections;
mod tags;
mod touched;
mod touching;
mod wanted;
mod without;

pub use indexed::{Indexed, Tagged};
pub use key_set::KeySet;
pub use objects::Objects;
pub use touched::Touched;
pub use wanted::wanted_of;
