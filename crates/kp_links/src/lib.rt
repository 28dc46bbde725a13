//! Lists threaded through a fixed number of rows: a row is in at most one of them, and leaves it in
//! constant time.
#![tactic(auto)]

mod links;

pub use links::{Links, Test};
