//! The lines behind the explanation of a packet: every path that it may take, with its chance, the
//! other endpoints of the port that answers it and why they are none, and whom its destination
//! serves.
#![tactic(auto)]

mod among;
mod asides;
mod chances;
mod paths;
mod push;
mod routes;
mod source_bounds;
mod source_counts;
mod source_ends;
mod source_kinds;
mod source_text;
mod sources;
mod words;

pub use push::push_paths;
