//! Lists of ports in order, and the groups that they make.
ghost use Rattle.std.specs.Prelude.{◌≡◌, List, [], IfOk, OnOk, map};
ghost use Rattle.kp_types.specs.declared.slice.SlicePort.{SlicePort as Port};
ghost use Rattle.kp_object_defs.specs.Packing as spec;

use indexmap::IndexSet;
use kp_base::{Copied, Items, NoMemory};
use kp_types::{Slice, SlicePort, Wanted};
use std::alloc::Global;
use std::cmp::Ordering;

/// A value that has a list of ports.
pub trait HasPorts {
    ghost ports_of: { Self → List Port };

    /// The ports.
    fn ports(&self) -> &Items<SlicePort>
        ensures { result.now ≡ ports_of self.now };
}

impl HasPorts for Slice {
    ghost ports_of = { λ s. s.ports };

    fn ports(&self) -> &Items<SlicePort> {
        &self.ports
    }
}

impl HasPorts for Wanted {
    ghost ports_of = { λ w. w.ports };

    fn ports(&self) -> &Items<SlicePort> {
        &self.ports
    }
}

/// Ports by name and protocol, equal ones as they were written.
pub fn sorted_ports(alloc: Global, ports: &Items<SlicePort>) -> Result<Vec<SlicePort>, NoMemory>
    ensures { IfOk result (λ sorted. sorted.items ≡ spec.sorted_ports ports.now) }
{
    let mut sorted = ports.copy(alloc)?.into_vec();
    sorted.sort_by(|a, b| port_order(a, b))?;
    Ok(sorted)
}

/// The order of two ports: by name, and then by protocol.
fn port_order(a: &SlicePort, b: &SlicePort) -> Ordering
    ensures { result ≡ spec.port_cmp a.now b.now }
{
    a.name.cmp(&b.name).then(a.proto.cmp(&b.proto))
}

/// The groups of wanted endpoints, each by its ports in order.
pub fn groups_of(alloc: Global, wanted: &[Wanted]) -> Result<IndexSet<Vec<SlicePort>>, NoMemory>
    ensures { IfOk result (λ groups. map (λ g. g.items) groups.keys ≡ spec.groups_of wanted.now) }
{
    let mut groups = IndexSet::new(alloc);
    add_groups(alloc, wanted, &mut groups)?;
    Ok(groups)
}

/// Adds the groups of wanted endpoints where there is none.
fn add_groups(
    alloc: Global,
    wanted: &[Wanted],
    groups: &mut IndexSet<Vec<SlicePort>>,
) -> Result<(), NoMemory>
    requires none { groups.old.keys ≡ [] }
    ensures { OnOk result (map (λ g. g.items) groups.new.keys ≡ spec.groups_of wanted.now) }
{
    for endpoint in wanted {
        groups.insert(sorted_ports(alloc, &endpoint.ports)?)?;
    }
    Ok(())
}
