//! Whether an event changes the objects.
ghost use Rattle.std.specs.Prelude.{◌≡◌, ◌&&◌, ◌↔◌, Some, IsFalse, IsTrue, bytes_eq, option_copied};
ghost use Rattle.std.specs.Cmp.Lexicographic.{pointwise};
ghost use Rattle.kp_object_defs.specs.Objects.{objects_step};
ghost use Rattle.kp_object_defs.specs.Packing as packing;
ghost use Rattle.kp_object_defs.specs.Packing.{same_flag, same_object, same_option};
ghost use Rattle.kp_store.specs.SameSlice as spec;
ghost use Rattle.kp_store.specs.Unchanged as unchanged;

use crate::objects::Objects;
use kp_base::ObjectKey;
use kp_types::{Event, Kind, Node, Object, Pod, Service, Slice, SliceEndpoint};

impl Objects {
    /// Whether an event changes any object: not where it brings an object that is equal to the
    /// stored one, and not where it deletes one that isn't there. One object is compared.
    pub fn changes(&self, event: &Event) -> bool
        ensures { IsFalse result ↔ (objects_step self.now event.now ≡ self.now) }
    {
        match event {
            Event::Apply(object) => !is_stored(self, object),
            Event::Delete { kind, key } => is_there(self, *kind, key),
        }
    }
}

/// Whether an object is stored as it is.
fn is_stored(objects: &Objects, object: &Object) -> bool
    ensures { IsTrue result ↔ unchanged.IsStored objects.now object.now }
{
    match object {
        Object::Service(kept) => {
            let service = kept.get();
            is_one(objects.service(&service.key), service)
        }
        Object::EndpointSlice(kept) => {
            let slice = kept.get();
            is_one(objects.slice(&slice.key), slice)
        }
        Object::Pod(kept) => {
            let pod = kept.get();
            is_one(objects.pod(&pod.key), pod)
        }
        Object::Node(kept) => {
            let node = kept.get();
            is_one(objects.node(&node.name), node)
        }
    }
}

/// Whether there is an object of a kind and key.
fn is_there(objects: &Objects, kind: Kind, key: &ObjectKey) -> bool
    ensures { result ≡ unchanged.is_there objects.now kind key.now }
{
    match kind {
        Kind::Service => objects.service(key).is_some(),
        Kind::EndpointSlice => objects.slice(key).is_some(),
        Kind::Pod => objects.pod(key).is_some(),
        Kind::Node => objects.node_at(key).is_some(),
    }
}

/// Whether there is an object, and it is this one.
fn is_one<X: Compared>(stored: Option<&X>, object: &X) -> bool
    ensures { IsTrue result ↔ (option_copied stored.entry ≡ Some object.now) }
{
    match stored {
        Some(stored) => stored.is_same(object),
        None => false,
    }
}

/// An object that is compared whole.
trait Compared {
    /// Whether two objects are one value.
    fn is_same(&self, other: &Self) -> bool
        ensures { IsTrue result ↔ (self.now ≡ other.now) };
}

impl Compared for Service {
    fn is_same(&self, other: &Service) -> bool {
        *self == *other
    }
}

impl Compared for Pod {
    fn is_same(&self, other: &Pod) -> bool {
        *self == *other
    }
}

impl Compared for Node {
    fn is_same(&self, other: &Node) -> bool {
        *self == *other
    }
}

impl Compared for Slice {
    fn is_same(&self, other: &Slice) -> bool {
        is_same_slice(self, other)
    }
}

/// Whether two slices are one value.
fn is_same_slice(a: &Slice, b: &Slice) -> bool
    ensures { result ≡ spec.same_slice a.now b.now }
{
    is_same_head(a, b)
        && (a.ports == b.ports && are_same(a.endpoints.as_slice(), b.endpoints.as_slice()))
}

/// Whether two slices have the same key, Service, manager and address type.
fn is_same_head(a: &Slice, b: &Slice) -> bool
    ensures { result ≡ spec.same_head a.now b.now }
{
    a.key == b.key && (a.service == b.service && (a.managed == b.managed && a.family == b.family))
}

/// Whether endpoints are the same, one by one.
fn are_same(a: &[SliceEndpoint], b: &[SliceEndpoint]) -> bool
    ensures { result ≡ pointwise packing.same_entry a.now b.now }
{
    if a.len() != b.len() {
        return false;
    }
    for place in 0..a.len() {
        if !is_same_endpoint(&a[place], &b[place]) {
            return false;
        }
    }
    true
}

/// Whether two endpoints are one value.
fn is_same_endpoint(a: &SliceEndpoint, b: &SliceEndpoint) -> bool
    ensures { result ≡ packing.same_entry a.now b.now }
{
    a.address == b.address && has_same_conditions(a, b) && has_same_place(a, b)
}

/// Whether two endpoints have the same conditions.
fn has_same_conditions(a: &SliceEndpoint, b: &SliceEndpoint) -> bool
    ensures { result ≡ (same_flag a.now.ready b.now.ready
        && (same_flag a.now.serving b.now.serving
        && same_flag a.now.terminating b.now.terminating)) }
{
    a.ready == b.ready && (a.serving == b.serving && a.terminating == b.terminating)
}

/// Whether two endpoints have the same node, zone, hints and pod.
fn has_same_place(a: &SliceEndpoint, b: &SliceEndpoint) -> bool
    ensures { result ≡ (same_option bytes_eq a.now.node b.now.node
        && (same_option bytes_eq a.now.zone b.now.zone
        && (pointwise bytes_eq a.now.hints b.now.hints
        && same_option same_object a.now.pod b.now.pod))) }
{
    a.node == b.node
        && (a.zone == b.zone && (a.hints.as_slice() == b.hints.as_slice() && a.pod == b.pod))
}
