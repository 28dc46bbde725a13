//! What the proxy knows of one Service port in a family, by its Service and the endpoints that it
//! may send to (Kubernetes documents on Services).
#![tactic(auto)]

mod destinations;
mod info;
mod once;

pub use destinations::{balancer_of, external_of};
pub use info::{cluster_address, info_at, port_info, port_key_of};
pub use kp_types::PortInfo;
