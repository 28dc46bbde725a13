//! Which endpoints stand: laws without code.
#![tactic(auto)]

pub mod laws;
