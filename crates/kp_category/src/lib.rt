//! The endpoints of a Service port in each family, each address and port once, and the lists that it
//! may send to.
#![tactic(auto)]

mod entries;
mod policies;
mod reach;
mod topology;

pub use entries::{candidates, candidates_of, of_family};
pub use kp_types::{Candidate, Lists};
pub use policies::categorise;
