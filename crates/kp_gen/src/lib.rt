//! The script of the generator, one line at a time: each line is added to a text that is used
//! again, so that the script is never held whole.
#![tactic(auto)]

mod objects;
mod operations;
mod pieces;
mod pods;
mod script;

pub use kp_gen_defs::{ScriptPart, ScriptPlan};
pub use script::{lines_in, push_line, script_parts};
