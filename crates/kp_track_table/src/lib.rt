//! Connections of a node whose rules stand in a table.
#![tactic(auto)]

mod passing;

pub use kp_conntrack::{Connection, Connections, Flow, Owned};
pub use passing::{Seen, pass};
