//! What the proxy knows of Services and their ports.
ghost use Rattle.std.specs.Prelude.{◌≡◌, IfOk};

use crate::lists::Lists;
use crate::service::{Policy, Service};
use crate::slice::{Slice, Wanted};
use kp_base::{Address, Cidr, Copied, Items, NoMemory, PortKey, PortNo};
use std::alloc::Global;

/// A Service and what its endpoints are taken from: the endpoints that the controller wants for it,
/// and slices.
#[derive(Drop)]
pub struct ServiceSources {
    pub service: Service,
    pub wanted: Items<Wanted>,
    pub slices: Items<Slice>,
}

/// One Service port in one address family, as kube-proxy's service port info: its destinations, its
/// policies and its endpoints.
pub struct PortInfo {
    pub key: PortKey,
    /// The port of the cluster address, the external and the load-balancer addresses.
    pub number: PortNo,
    /// The cluster address.
    pub address: Address,
    /// The external addresses, each once.
    pub external: Items<Address>,
    /// The load-balancer addresses that count, each once.
    pub balancer: Items<Address>,
    /// The node port, where it counts.
    pub node_port: Option<PortNo>,
    /// The source ranges of the load balancer, each once, where there is a restriction.
    pub ranges: Option<Items<Cidr>>,
    /// The timeout of session affinity by client address, in seconds, where it is on.
    pub affinity: Option<u32>,
    /// The internal traffic policy.
    pub internal: Policy,
    /// The external traffic policy.
    pub outer: Policy,
    pub lists: Lists,
}

impl Drop for PortInfo {
    fn drop(self) {
        let PortInfo {
            key,
            number,
            address,
            external,
            balancer,
            node_port,
            ranges,
            affinity,
            internal,
            outer,
            lists,
        } = self;
    }
}

impl Copied for ServiceSources {
    fn copy(&self, alloc: Global) -> Result<ServiceSources, NoMemory> {
        let wanted = self.wanted.copy(alloc)?;
        let slices = self.slices.copy(alloc)?;
        let service = self.service.copy(alloc)?;
        Ok(ServiceSources {
            service,
            wanted,
            slices,
        })
    }
}

impl Copied for PortInfo {
    fn copy(&self, alloc: Global) -> Result<PortInfo, NoMemory> {
        let external = self.external.copy(alloc)?;
        let balancer = self.balancer.copy(alloc)?;
        let ranges = self.ranges.copy(alloc)?;
        let lists = self.lists.copy(alloc)?;
        let key = self.key.copy(alloc)?;
        Ok(PortInfo {
            key,
            number: self.number,
            address: self.address,
            external,
            balancer,
            node_port: self.node_port,
            ranges,
            affinity: self.affinity,
            internal: self.internal,
            outer: self.outer,
            lists,
        })
    }
}
