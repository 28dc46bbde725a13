//! The words of the command line: the mode that the program runs in, with its numbers.
#![tactic(auto)]

mod command;
mod mode;
mod number;

pub use mode::{Mode, read_words};
