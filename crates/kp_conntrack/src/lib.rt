//! The connections of a stateful node: which flow belongs to which, in constant time, and without
//! memory once they are made.
#![tactic(auto)]

mod buckets;
mod connections;
mod index;
mod marks;
mod rows;
mod sought;
mod standing;

pub use connections::Connections;
pub use kp_track_defs::{Connection, Entry, Flow, Owned};
