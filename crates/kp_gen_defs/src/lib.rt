//! The script of the generator: a small cluster, and packets to its Services. Beside the types of
//! a script's parts, there are only definitions here, in `specs/`.
#![tactic(auto)]

mod plan;

pub use plan::{ScriptPart, ScriptPlan};
