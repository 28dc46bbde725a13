//! Names of objects, of Service ports and of endpoints.
ghost use Rattle.std.specs.Prelude.{◌≡◌, IfOk};

use crate::address::Address;
use crate::memory::{Copied, NoMemory};
use crate::port::{PortNo, Proto};
use crate::text::Text;
use std::alloc::Global;

/// A label, or a term of a selector.
#[derive(PartialEq, Eq, Drop)]
pub struct Pair {
    pub key: Text,
    pub value: Text,
}

/// The namespace and name of an object. A Node's namespace is the empty text.
#[derive(PartialEq, Eq, PartialOrd, Ord, Hash, Drop)]
pub struct ObjectKey {
    pub namespace: Text,
    pub name: Text,
}

/// A Service port, as kube-proxy names it: the Service, the port's name and its protocol.
#[derive(PartialEq, Eq, PartialOrd, Ord, Hash, Drop)]
pub struct PortKey {
    pub object: ObjectKey,
    pub port_name: Text,
    pub proto: Proto,
}

/// The address and port of an endpoint.
#[derive(Clone, Copy, Debug, PartialEq, Eq, PartialOrd, Ord, Hash)]
pub struct Endpoint {
    pub address: Address,
    pub port: PortNo,
}

impl Copied for Pair {
    fn copy(&self, alloc: Global) -> Result<Pair, NoMemory> {
        Ok(Pair {
            key: self.key.copy(alloc)?,
            value: self.value.copy(alloc)?,
        })
    }
}

impl Copied for ObjectKey {
    fn copy(&self, alloc: Global) -> Result<ObjectKey, NoMemory> {
        Ok(ObjectKey {
            namespace: self.namespace.copy(alloc)?,
            name: self.name.copy(alloc)?,
        })
    }
}

impl Copied for PortKey {
    fn copy(&self, alloc: Global) -> Result<PortKey, NoMemory> {
        Ok(PortKey {
            object: self.object.copy(alloc)?,
            port_name: self.port_name.copy(alloc)?,
            proto: self.proto,
        })
    }
}

impl Copied for Endpoint {
    fn copy(&self, _alloc: Global) -> Result<Endpoint, NoMemory> {
        Ok(*self)
    }
}
