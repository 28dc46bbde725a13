//! Services (Kubernetes API, Service v1).
ghost use Rattle.std.specs.Prelude.{◌≡◌, IfOk, true};
ghost use Rattle.kp_types.specs.Ports.{distinct_ports};

use kp_base::{
    Address, Cidr, Copied, Family, Items, NoMemory, ObjectKey, Pair, PortNo, Proto, Text,
};
use std::alloc::Global;

/// `spec.type`.
#[derive(Clone, Copy, Debug, PartialEq, Eq)]
pub enum ServiceKind {
    ClusterIp,
    NodePort,
    LoadBalancer,
    ExternalName,
}

/// A traffic policy: endpoints of the whole cluster, or those of this node.
#[derive(Clone, Copy, Debug, PartialEq, Eq)]
pub enum Policy {
    Cluster,
    Local,
}

/// The IPv4 cluster address of a Service: absent, `None`, or an address.
#[derive(Clone, Copy, Debug, PartialEq, Eq)]
pub enum ClusterAddress {
    Absent,
    Headless,
    At(Address),
}

/// `spec.ports[i].targetPort`: a number, or the name of a container port.
#[derive(PartialEq, Eq)]
pub enum TargetPort {
    Number(PortNo),
    Named(Text),
}

impl Drop for TargetPort {
    fn drop(self) {
        match self {
            TargetPort::Number(_) => {}
            TargetPort::Named(_) => {}
        }
    }
}

/// One entry of `spec.ports`.
#[derive(PartialEq, Eq)]
pub struct ServicePort {
    pub name: Text,
    pub proto: Proto,
    pub port: PortNo,
    pub target: TargetPort,
    pub node_port: Option<PortNo>,
}

impl Drop for ServicePort {
    fn drop(self) {
        let ServicePort {
            name,
            proto,
            port,
            target,
            node_port,
        } = self;
    }
}

/// What a Service has of the family IPv6.
#[derive(PartialEq, Eq)]
pub struct Six {
    pub cluster: Option<Address>,
    pub external: Items<Address>,
    pub balancer: Items<Address>,
    pub ranges: Items<Cidr>,
}

impl Drop for Six {
    fn drop(self) {
        let Six {
            cluster,
            external,
            balancer,
            ranges,
        } = self;
    }
}

/// A Service. No two of its ports have the same name and protocol.
#[derive(PartialEq, Eq)]
pub struct Service {
    pub key: ObjectKey,
    pub kind: ServiceKind,
    /// `None`, the IPv4 cluster address, or neither.
    pub cluster: ClusterAddress,
    /// The families of the Service, none of them twice.
    pub families: Items<Family>,
    pub ports: Items<ServicePort>,
    /// The pairs of `spec.selector`, in byte order of the keys.
    pub selector: Items<Pair>,
    /// The IPv4 addresses of `spec.externalIPs`.
    pub external: Items<Address>,
    /// The timeout of session affinity by client address, in seconds, where it is on.
    pub affinity: Option<u32>,
    /// `spec.internalTrafficPolicy`.
    pub internal: Policy,
    /// `spec.externalTrafficPolicy`.
    pub outer: Policy,
    /// `spec.publishNotReadyAddresses`.
    pub publish_not_ready: bool,
    /// The IPv4 ranges of `spec.loadBalancerSourceRanges`, where the list isn't empty.
    pub ranges: Option<Items<Cidr>>,
    /// `spec.trafficDistribution` is `PreferClose`.
    pub same_zone: bool,
    /// `spec.healthCheckNodePort`.
    pub health: Option<PortNo>,
    /// The IPv4 addresses of `status.loadBalancer.ingress`.
    pub balancer: Items<Address>,
    /// Its IPv6 addresses and ranges.
    pub six: Six,
    pub ghost distinct: { distinct_ports ports ≡ true },
}

impl Drop for Service {
    fn drop(self) {
        let Service {
            key,
            kind,
            cluster,
            families,
            ports,
            selector,
            external,
            affinity,
            internal,
            outer,
            publish_not_ready,
            ranges,
            same_zone,
            health,
            balancer,
            six,
        } = self;
    }
}

impl Copied for TargetPort {
    fn copy(&self, alloc: Global) -> Result<TargetPort, NoMemory> {
        match self {
            TargetPort::Number(port) => Ok(TargetPort::Number(*port)),
            TargetPort::Named(name) => Ok(TargetPort::Named(name.copy(alloc)?)),
        }
    }
}

impl Copied for ServicePort {
    fn copy(&self, alloc: Global) -> Result<ServicePort, NoMemory> {
        Ok(ServicePort {
            name: self.name.copy(alloc)?,
            proto: self.proto,
            port: self.port,
            target: self.target.copy(alloc)?,
            node_port: self.node_port,
        })
    }
}

impl Copied for Six {
    fn copy(&self, alloc: Global) -> Result<Six, NoMemory> {
        let external = self.external.copy(alloc)?;
        let balancer = self.balancer.copy(alloc)?;
        let ranges = self.ranges.copy(alloc)?;
        Ok(Six {
            cluster: self.cluster,
            external,
            balancer,
            ranges,
        })
    }
}

/// Copies of the lists of families and ports, and of the selector.
fn copied_lists(
    alloc: Global,
    service: &Service,
) -> Result<(Items<Family>, Items<ServicePort>, Items<Pair>), NoMemory>
    ensures { IfOk result (λ c.
        c ≡ (service.now.families, service.now.ports, service.now.selector)) }
{
    let families = service.families.copy(alloc)?;
    let ports = service.ports.copy(alloc)?;
    Ok((families, ports, service.selector.copy(alloc)?))
}

/// Copies of the external addresses, those of the load balancer, and its source ranges.
fn copied_addresses(
    alloc: Global,
    service: &Service,
) -> Result<(Items<Address>, Items<Address>, Option<Items<Cidr>>), NoMemory>
    ensures { IfOk result (λ c.
        c ≡ (service.now.external, service.now.balancer, service.now.ranges)) }
{
    let external = service.external.copy(alloc)?;
    let balancer = service.balancer.copy(alloc)?;
    Ok((external, balancer, service.ranges.copy(alloc)?))
}

impl Copied for Service {
    fn copy(&self, alloc: Global) -> Result<Service, NoMemory> {
        let (external, balancer, ranges) = copied_addresses(alloc, self)?;
        let (families, ports, selector) = copied_lists(alloc, self)?;
        let six = self.six.copy(alloc)?;
        let key = self.key.copy(alloc)?;
        Ok(Service {
            key,
            kind: self.kind,
            cluster: self.cluster,
            families,
            ports,
            selector,
            external,
            affinity: self.affinity,
            internal: self.internal,
            outer: self.outer,
            publish_not_ready: self.publish_not_ready,
            ranges,
            same_zone: self.same_zone,
            health: self.health,
            balancer,
            six,
        })
    }
}
