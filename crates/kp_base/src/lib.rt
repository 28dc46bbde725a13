//! Values that every crate of the proxy speaks of: text, lists, addresses, ranges, keys and the
//! configuration of a node.
//!
//! Types that own much have a `drop` of their own, so that letting one go is a call: a derived one
//! is written out at each way out of each function that owns such a value, and proved there.
#![tactic(auto)]

mod address;
mod config;
mod dotted;
mod grammar;
mod items;
mod kept;
mod key;
mod memory;
mod number;
mod port;
mod range;
mod shared;
mod six;
mod split;
mod steps;
mod text;
mod wide;

pub use address::{Address, BadAddress, Family};
pub use config::Config;
pub use dotted::printed_addresses_are_read;
pub use grammar::{is_label_value, is_name, is_port_name};
pub use items::{Items, fits_memory};
pub use kept::Kept;
pub use key::{Endpoint, ObjectKey, Pair, PortKey};
pub use memory::{Copied, NoMemory, handed_back};
pub use port::{PortNo, Proto};
pub use range::{BadCidr, Cidr};
pub use shared::Shared;
pub use six::printed_groups_are_read;
pub use split::split_once;
pub use steps::Steps;
pub use text::Text;
