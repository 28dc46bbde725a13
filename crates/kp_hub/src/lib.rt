//! The state that threads share: streams feed events into a queue, one at a time takes them and
//! syncs under a lock, and each reads the table that was published last without it.
#![tactic(auto)]

mod finished;
mod hub;
mod intake;
pub mod laws;
mod next;
mod notes;
mod opening;
mod outlet;
mod pass;
mod sharing;
mod state;
mod workers;

pub use finished::Finished;
pub use hub::Hub;
pub use kp_feed::{Fed, FeedPass};
pub use kp_full_table::TableFault;
pub use kp_publish::{Reader, View};
pub use notes::{Origin, RecordNote, Refusal, Stop, Synced};
pub use opening::Opening;
pub use pass::WorkerPass;
pub use sharing::Sharing;
