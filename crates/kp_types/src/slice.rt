//! EndpointSlices (Kubernetes API, EndpointSlice discovery.k8s.io/v1).
ghost use Rattle.std.specs.Prelude.{◌≡◌, IfOk};

use kp_base::{Address, Copied, Items, NoMemory, ObjectKey, PortNo, Proto, Text};
use std::alloc::Global;

/// `addressType`.
#[derive(Clone, Copy, Debug, PartialEq, Eq)]
pub enum AddressType {
    Ipv4,
    Ipv6,
    Fqdn,
}

/// One entry of a slice's `ports`.
#[derive(PartialEq, Eq, Hash, Drop)]
pub struct SlicePort {
    pub name: Text,
    pub proto: Proto,
    pub port: Option<PortNo>,
}

/// One entry of a slice's `endpoints`, with the defaults of its conditions filled in.
pub struct SliceEndpoint {
    pub address: Option<Address>,
    pub ready: bool,
    pub serving: bool,
    pub terminating: bool,
    pub node: Option<Text>,
    pub zone: Option<Text>,
    /// The zones of `hints.forZones`.
    pub hints: Items<Text>,
    pub pod: Option<ObjectKey>,
}

impl Drop for SliceEndpoint {
    fn drop(self) {
        let SliceEndpoint {
            address,
            ready,
            serving,
            terminating,
            node,
            zone,
            hints,
            pod,
        } = self;
    }
}

/// An EndpointSlice.
pub struct Slice {
    pub key: ObjectKey,
    /// The Service that the label `kubernetes.io/service-name` names.
    pub service: Option<Text>,
    /// Whether the EndpointSlice controller manages it.
    pub managed: bool,
    pub family: AddressType,
    pub ports: Items<SlicePort>,
    pub endpoints: Items<SliceEndpoint>,
}

impl Drop for Slice {
    fn drop(self) {
        let Slice {
            key,
            service,
            managed,
            family,
            ports,
            endpoints,
        } = self;
    }
}

/// An endpoint that the controller wants in the slices of a Service: its pod, its resolved ports
/// and its entry.
#[derive(Drop)]
pub struct Wanted {
    pub pod: ObjectKey,
    pub ports: Items<SlicePort>,
    pub entry: SliceEndpoint,
}

/// A Service's slices after packing, in order of their names, and the names of the slices that are
/// new, that were there and differ, and that are gone.
#[derive(Drop)]
pub struct Packed {
    pub slices: Items<Slice>,
    pub created: Items<Text>,
    pub updated: Items<Text>,
    pub deleted: Items<Text>,
}

impl Copied for SlicePort {
    fn copy(&self, alloc: Global) -> Result<SlicePort, NoMemory> {
        Ok(SlicePort {
            name: self.name.copy(alloc)?,
            proto: self.proto,
            port: self.port,
        })
    }
}

impl Copied for SliceEndpoint {
    fn copy(&self, alloc: Global) -> Result<SliceEndpoint, NoMemory> {
        let hints = self.hints.copy(alloc)?;
        let node = self.node.copy(alloc)?;
        let zone = self.zone.copy(alloc)?;
        let pod = self.pod.copy(alloc)?;
        Ok(SliceEndpoint {
            address: self.address,
            ready: self.ready,
            serving: self.serving,
            terminating: self.terminating,
            node,
            zone,
            hints,
            pod,
        })
    }
}

impl Copied for Slice {
    fn copy(&self, alloc: Global) -> Result<Slice, NoMemory> {
        let ports = self.ports.copy(alloc)?;
        let endpoints = self.endpoints.copy(alloc)?;
        let service = self.service.copy(alloc)?;
        let key = self.key.copy(alloc)?;
        Ok(Slice {
            key,
            service,
            managed: self.managed,
            family: self.family,
            ports,
            endpoints,
        })
    }
}

impl Copied for Wanted {
    fn copy(&self, alloc: Global) -> Result<Wanted, NoMemory> {
        let ports = self.ports.copy(alloc)?;
        let pod = self.pod.copy(alloc)?;
        let entry = self.entry.copy(alloc)?;
        Ok(Wanted { pod, ports, entry })
    }
}

impl Copied for Packed {
    fn copy(&self, alloc: Global) -> Result<Packed, NoMemory> {
        Ok(Packed {
            slices: self.slices.copy(alloc)?,
            created: self.created.copy(alloc)?,
            updated: self.updated.copy(alloc)?,
            deleted: self.deleted.copy(alloc)?,
        })
    }
}
