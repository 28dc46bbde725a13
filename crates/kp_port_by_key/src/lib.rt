//! What the proxy knows of one Service port, which is found by its name.
#![tactic(auto)]

mod info;

pub use info::{info_at, port_named};
