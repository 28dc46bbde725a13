//! Tables that are published beside readers: two copies, of which readers take one without a lock
//! while the publisher changes the other. What a reader sees is the table after a list of records
//! that goes on from all that it saw before or learned of.
#![tactic(auto)]

mod asking;
mod copies;
mod entry;
mod fault;
mod front;
mod history;
pub mod laws;
mod publisher;
mod reader;
mod shown;
mod start;

pub use entry::Entry;
pub use fault::PublishFault;
pub use front::Front;
pub use history::{Opened, Publication};
pub use kp_types::SyncRecord;
pub use publisher::Publisher;
pub use reader::{Reader, View};
pub use start::publication;
