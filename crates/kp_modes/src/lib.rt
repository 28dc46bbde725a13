//! The modes beside a replay.
#![tactic(auto)]

mod changing;
mod dirty_names;
mod flow_lines;
mod healthy;
mod mapping;
mod pathing;
mod summing;
mod totals;
mod tracking;

pub use changing::Changing;
pub use healthy::Healthy;
pub use kp_mode::{Mode, Replaying};
pub use mapping::Mapping;
pub use pathing::Pathing;
pub use summing::Summing;
pub use tracking::Tracking;
