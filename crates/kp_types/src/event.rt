//! Changes of objects.
ghost use Rattle.std.specs.Prelude.{◌≡◌, IfOk};

use crate::pod::{Node, Pod};
use crate::service::Service;
use crate::slice::Slice;
use kp_base::{Copied, Kept, NoMemory, ObjectKey};
use std::alloc::Global;

/// The kinds of objects that the proxy reads.
#[derive(Clone, Copy, Debug, PartialEq, Eq)]
pub enum Kind {
    Service,
    EndpointSlice,
    Pod,
    Node,
}

/// An object of the cluster, with several owners: who keeps what an event brings copies nothing.
pub enum Object {
    Service(Kept<Service>),
    EndpointSlice(Kept<Slice>),
    Pod(Kept<Pod>),
    Node(Kept<Node>),
}

impl Drop for Object {
    fn drop(self) {
        match self {
            Object::Service(_) => {}
            Object::EndpointSlice(_) => {}
            Object::Pod(_) => {}
            Object::Node(_) => {}
        }
    }
}

/// A change: an object is put in place of the old one, or is deleted.
pub enum Event {
    Apply(Object),
    Delete { kind: Kind, key: ObjectKey },
}

impl Drop for Event {
    fn drop(self) {
        match self {
            Event::Apply(_) => {}
            Event::Delete { kind: _, key: _ } => {}
        }
    }
}

impl Copied for Object {
    fn copy(&self, alloc: Global) -> Result<Object, NoMemory> {
        match self {
            Object::Service(service) => Ok(Object::Service(service.copy(alloc)?)),
            Object::EndpointSlice(slice) => Ok(Object::EndpointSlice(slice.copy(alloc)?)),
            Object::Pod(pod) => Ok(Object::Pod(pod.copy(alloc)?)),
            Object::Node(node) => Ok(Object::Node(node.copy(alloc)?)),
        }
    }
}

impl Copied for Event {
    fn copy(&self, alloc: Global) -> Result<Event, NoMemory> {
        match self {
            Event::Apply(object) => Ok(Event::Apply(object.copy(alloc)?)),
            Event::Delete { kind, key } => Ok(Event::Delete {
                kind: *kind,
                key: key.copy(alloc)?,
            }),
        }
    }
}
