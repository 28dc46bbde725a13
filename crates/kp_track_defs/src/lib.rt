//! Connection tracking: which flow belongs to which connection, and what it is answered. Beside the
//! types of flows and of what is kept, there are only definitions here, in `specs/`, and their laws.
#![tactic(auto)]

mod flow;
pub mod laws;
pub mod worked;

pub use flow::{Connection, Entry, Flow, Owned};
