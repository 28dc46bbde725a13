//! The endpoints that the EndpointSlice controller wants for a Service.
#![tactic(auto)]

mod order;
mod ports;
mod selection;
mod wanted;
mod zones;

pub use selection::selects;
pub use wanted::{desired_endpoint, desired_endpoints, has_family};
