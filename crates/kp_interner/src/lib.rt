//! Texts that many objects have, in memory once.
#![tactic(auto)]

mod events;
mod interner;
mod slices;

pub use interner::Interner;
