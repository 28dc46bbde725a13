//! Pods and Nodes (Kubernetes API, Pod v1 and Node v1).
ghost use Rattle.std.specs.Prelude.{◌≡◌, IfOk};

use kp_base::{Address, Copied, Items, NoMemory, ObjectKey, Pair, PortNo, Proto, Text};
use std::alloc::Global;

/// One entry of a container's `ports`.
#[derive(PartialEq, Eq, Drop)]
pub struct ContainerPort {
    pub name: Text,
    pub proto: Proto,
    pub port: PortNo,
}

/// A Pod.
#[derive(PartialEq, Eq)]
pub struct Pod {
    pub key: ObjectKey,
    /// The labels, in byte order of the keys.
    pub labels: Items<Pair>,
    /// Whether `metadata.deletionTimestamp` is set.
    pub deleting: bool,
    pub node: Option<Text>,
    /// The ports of all containers, in their order.
    pub ports: Items<ContainerPort>,
    /// Whether the phase is Succeeded or Failed.
    pub finished: bool,
    /// Its IPv4 address.
    pub address: Option<Address>,
    /// Its IPv6 address.
    pub address6: Option<Address>,
    /// Whether the first condition of type Ready is True.
    pub ready: bool,
}

impl Drop for Pod {
    fn drop(self) {
        let Pod {
            key,
            labels,
            deleting,
            node,
            ports,
            finished,
            address,
            address6,
            ready,
        } = self;
    }
}

/// A Node.
#[derive(PartialEq, Eq)]
pub struct Node {
    pub name: Text,
    pub zone: Option<Text>,
}

impl Drop for Node {
    fn drop(self) {
        let Node { name, zone } = self;
    }
}

impl Copied for ContainerPort {
    fn copy(&self, alloc: Global) -> Result<ContainerPort, NoMemory> {
        Ok(ContainerPort {
            name: self.name.copy(alloc)?,
            proto: self.proto,
            port: self.port,
        })
    }
}

impl Copied for Pod {
    fn copy(&self, alloc: Global) -> Result<Pod, NoMemory> {
        let labels = self.labels.copy(alloc)?;
        let ports = self.ports.copy(alloc)?;
        let node = self.node.copy(alloc)?;
        let key = self.key.copy(alloc)?;
        Ok(Pod {
            key,
            labels,
            deleting: self.deleting,
            node,
            ports,
            finished: self.finished,
            address: self.address,
            address6: self.address6,
            ready: self.ready,
        })
    }
}

impl Copied for Node {
    fn copy(&self, alloc: Global) -> Result<Node, NoMemory> {
        Ok(Node {
            name: self.name.copy(alloc)?,
            zone: self.zone.copy(alloc)?,
        })
    }
}
