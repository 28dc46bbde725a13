//! Where a replay of lines stands, and the lines that it takes to the plane: in any mode, or in groups
//! that workers answer beside each other, while the next lines are read.
#![tactic(auto)]

mod ahead;
mod answering;
mod group;
mod modes;
mod reads;
mod replay;
mod shown;
mod syncs;
mod together;

pub use group::{Group, group_of};
pub use reads::Reads;
pub use replay::Replay;
