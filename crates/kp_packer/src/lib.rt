//! How the EndpointSlice controller packs the endpoints that a Service wants into its slices.
#![tactic(auto)]

mod entry;
mod fill;
mod groups;
mod keep;
mod left;
mod names;
mod order;
mod packing;
mod place;
mod ports;

pub use kp_types::{Packed, Slice, SliceEndpoint, SlicePort, Wanted};
pub use packing::pack;
