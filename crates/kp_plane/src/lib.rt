//! One order of events: events are accepted, syncs bring the table up to them, and packets are
//! answered by the last sync.
#![tactic(auto)]

mod collected;
pub mod laws;
mod next;
mod note;
mod per_family;
mod place;
mod plane;
mod ports_at;
mod question;
mod refresh;
mod slices_at;
mod sync;

pub use kp_events::{Journal, JournalFault};
pub use kp_full_table::TableFault;
pub use kp_history_defs::DirtyPort;
pub use kp_rules::Table;
pub use kp_store::{Objects, Touched};
pub use kp_types::{Batch, Decision, SyncRecord};
pub use note::SyncNote;
pub use plane::Plane;
pub use question::Question;
pub use sync::OfBatch;
