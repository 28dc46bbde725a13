//! The form of a mode: where the program answers otherwise than a replay, or adds to it; and what
//! those modes call that answer as a replay.
#![tactic(auto)]

mod mode;
mod packets;

pub use mode::{Mode, Replaying};
pub use packets::{answered, explained, snapshot_of};
