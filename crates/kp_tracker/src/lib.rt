//! What is kept of each key: the value that was published last, and the newest one. It tells which
//! keys differ, as kube-proxy's trackers of changes do, but compares with what was published: a
//! value that goes and comes back before the next publishing is no change.
#![tactic(auto)]

mod kinds;
mod tracker;
mod worked;

pub use kinds::{Key, Told};
pub use tracker::Tracker;
pub use worked::worked_pending;
