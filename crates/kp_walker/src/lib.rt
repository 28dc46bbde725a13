//! The walk of a packet through the rules of a table.
#![tactic(auto)]

mod chains;
mod flow;
mod header;
mod held;
mod hook;
mod hooks;
mod journey;
mod local;
mod matching;
mod next;
mod progress;
mod recorder;
mod sound;
mod tried;
mod walking;

pub use kp_types::{Answer, Origin, Packet, Pass, Trail, Verdict};
pub use sound::can_walk;
pub use walking::{verdict_of, walk};
