//! Rules as `iptables-restore` takes them: one line for each (iptables(8),
//! iptables-extensions(8)).
#![tactic(auto)]

pub mod laws;
mod matches;
mod print;
mod read;
mod split;
mod target;
mod word;

pub use print::push_rule;
pub use read::read_rule;
