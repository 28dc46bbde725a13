//! The rules of ports in the shared chains, kept by port, so that a shared chain can be joined
//! without a look at what the ports are made of.
#![tactic(auto)]

mod blocks;
mod changes;
mod fixed;
mod laws;
mod worked;

pub use blocks::Blocks;
pub use changes::{enough_by_blocks, joined_chains_stay};
pub use laws::joined_chains_are_the_tables;
pub use worked::worked_joined_chains;
