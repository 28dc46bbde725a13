//! Ports of which something else is known than before.
ghost use Rattle.std.specs.Prelude.{◌≡◌};
ghost use Rattle.kp_history_defs.specs.DirtyPorts as spec;

use kp_base::{Copied, NoMemory, PortKey};
use kp_types::{Lists, PortInfo};
use std::alloc::Global;

/// A port of which something else is known than before, and what was known of it, if anything was.
#[derive(Drop)]
pub struct DirtyPort {
    pub key: PortKey,
    pub before: Option<PortInfo>,
}

impl Copied for DirtyPort {
    fn copy(&self, alloc: Global) -> Result<DirtyPort, NoMemory> {
        Ok(DirtyPort {
            key: self.key.copy(alloc)?,
            before: self.before.copy(alloc)?,
        })
    }
}

/// Whether the same is known of two ports.
pub fn same_info(a: &PortInfo, b: &PortInfo) -> bool
    ensures { result ≡ spec.same_info a.now b.now }
{
    same_destinations(a, b) && same_policies(a, b) && same_lists(&a.lists, &b.lists)
}

/// Whether two ports have one name and the same destinations.
fn same_destinations(a: &PortInfo, b: &PortInfo) -> bool
    ensures { result ≡ spec.same_destinations a.now b.now }
{
    a.key == b.key
        && a.number == b.number
        && a.address == b.address
        && a.external == b.external
        && a.balancer == b.balancer
        && a.node_port == b.node_port
}

/// Whether two ports let in and choose alike.
fn same_policies(a: &PortInfo, b: &PortInfo) -> bool
    ensures { result ≡ spec.same_policies a.now b.now }
{
    a.ranges == b.ranges
        && a.affinity == b.affinity
        && a.internal == b.internal
        && a.outer == b.outer
}

/// Whether two ports have the same endpoints.
fn same_lists(a: &Lists, b: &Lists) -> bool
    ensures { result ≡ spec.same_lists a.now b.now }
{
    a.cluster == b.cluster && a.local == b.local && a.has_any == b.has_any
}
