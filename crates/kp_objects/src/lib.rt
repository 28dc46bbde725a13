//! Services, EndpointSlices, Pods and Nodes are read from JSON.
#![tactic(auto)]

mod family;
mod node;
mod pod;
mod service;
mod slice;

pub use kp_types::{
    AddressType, ClusterAddress, ContainerPort, Node, Pod, Policy, Service, ServiceKind,
    ServicePort, Six, Slice, SliceEndpoint, SlicePort, TargetPort,
};
pub use node::node_of;
pub use pod::pod_of;
pub use service::service_of;
pub use slice::slice_of;
