//! Paths, their chances, sources and endpoints: laws without code.
#![tactic(auto)]

pub mod laws;
