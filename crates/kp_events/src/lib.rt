//! Events are read from JSON, and the journal of the events that were accepted.
#![tactic(auto)]

mod event;
mod fault;
mod journal;
mod kind;
mod object;

pub use event::event_of;
pub use fault::EventFault;
pub use journal::{Journal, JournalFault};
pub use kp_types::{Event, Kind, Object};
