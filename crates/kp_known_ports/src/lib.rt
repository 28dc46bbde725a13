//! What the proxy knows of Service ports, from the objects of the cluster (Kubernetes documents on
//! Services).
#![tactic(auto)]

mod infos;
mod ports;
mod sources;

pub use infos::{infos_of_services, port_infos};
pub use kp_types::PortInfo;
pub use ports::info_of;
pub use sources::{Sources, sources_of};
