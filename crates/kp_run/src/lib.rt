//! The program as a library: its words choose what is done over any source and sink. It replays
//! lines, runs their streams beside each other, counts a generated script, or writes the usage
//! line.
#![tactic(auto)]

mod beside;
mod ending;
mod generated;
pub mod laws;
mod lines;
mod many;
mod program;
mod status;
mod streams;

pub use ending::usage;
pub use generated::generate;
pub use lines::{replay_in, replay_one};
pub use many::replay_many;
pub use program::{run, run_alone};
pub use status::Status;
