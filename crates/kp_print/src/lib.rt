//! Printed pieces that several crates print alike: addresses and endpoints as texts of a fixed
//! room, and what is added to a text that is used again.
#![tactic(auto)]

mod address;
mod groups;
mod pieces;

pub use address::{AddressText, address_text, endpoint_text};
pub use pieces::{push, push_address, push_endpoint, push_labelled, push_number};
