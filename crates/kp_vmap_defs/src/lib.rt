//! Verdict maps: which doors stand at a destination, what is known of their ports, and the decision
//! that picks an endpoint by a remainder. Beside the types of doors and of destinations, there are
//! only definitions here, in `specs/`, and their laws.
#![tactic(auto)]

mod door;
pub mod laws;
pub mod worked;

pub use door::{Destination, MapDoor};
