//! The event queue: many feeders push events into one queue, and one taker takes them out. Each
//! feeder's events are taken in its order, each once, whatever the threads do.
#![tactic(auto)]

mod feeder;
pub mod laws;
mod queue;
mod rule;
mod taker;

pub use feeder::FeedPass;
pub use kp_history_defs::Fed;
pub use queue::{Feed, feed_queue};
pub use taker::TakePass;
