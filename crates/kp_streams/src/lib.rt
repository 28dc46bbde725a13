//! Lines of a live run: the input is read to its end before anything is run, and each line becomes
//! work of its stream or is refused.
#![tactic(auto)]

mod input;
mod lines;
mod names;

pub use input::{InputFault, read_input};
pub use kp_run_defs::{RefusedLine, StreamLine, Work};
pub use lines::StreamLines;
