//! What is held of the syncs: what they cover, the table after them, and the batch of the last.
#![tactic(auto)]

mod history;
mod stale;

pub use history::History;
pub use stale::Stale;
