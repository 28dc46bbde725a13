//! What histories of syncs and interleaved runs mean: the inputs of a Service port, the ports that
//! an event affects or of which something else is known, sync records, and the steps of feeding,
//! taking, syncing, publishing and reading. But for the events that were fed and for ports of which
//! something else is known, there are only definitions here, in `specs/`.
#![tactic(auto)]

mod dirty;
mod fed;

pub use dirty::{DirtyPort, same_info};
pub use fed::Fed;
