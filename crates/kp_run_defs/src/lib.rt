//! What the program writes: the text of a replay, line by line, and that of a live run, with the
//! conditions that a run meets, over the definitions of the other crates. Beside the lines of a live
//! run there are only definitions here, in `specs/`, a law of live runs, and worked examples.
#![tactic(auto)]

pub mod laws;
mod live;
pub mod worked;

pub use live::{RefusedLine, StreamLine, Work};
