//! Names of the chains of Services, and clashes of names.
#![tactic(auto)]

mod base32;
mod clash;
mod fault;
pub mod laws;
mod namer;
mod namesakes;
mod text;

pub use fault::NameFault;
pub use kp_types::{ChainKey, Clash, PortChain};
pub use namer::Namer;
