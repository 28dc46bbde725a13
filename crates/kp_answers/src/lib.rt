//! What the line of a packet is answered from a table: its draws, its verdict or its walk, and the
//! text. It knows no object: a replay, streams of threads and workers answer alike.
#![tactic(auto)]

mod draws;
pub mod laws;
mod snapshot;

pub use draws::draw_at;
pub use kp_text_defs::{Draws, PacketLine};
pub use kp_walker::can_walk;
pub use snapshot::Snapshot;
