//! The EndpointSlices: as events change them at once, and as the EndpointSlice controller makes
//! them at a sync.
#![tactic(auto)]

mod leftovers;
mod managed;
mod near;
mod replaced;
mod services;
mod slice_map;
mod step;
mod touching;

pub use slice_map::SliceMap;
pub use step::control;
