//! The ports at destinations as they will be, beside those that are kept.
ghost use Rattle.std.specs.Prelude.{◌≡◌, ◌+◌, ◌≤◌, false, length, IfOk, None, OnOk};
ghost use Rattle.std.specs.FinMap as finite;
ghost use Rattle.std.specs.Option.{option_copied, unwrap_or};
ghost use Rattle.std.specs.Ordering.{eq_by_cmp};
ghost use Rattle.kp_vmap_defs.specs.VerdictMap.{destination_cmp, port_doors};
ghost use Rattle.kp_vmap_defs.specs.VerdictMap as map;
ghost use Rattle.kp_vmap_defs.specs.declared.door.Destination.{Destination as Place};
ghost use Rattle.kp_vmap.specs.Places as spec;

use crate::doors::doors_known;
use crate::known::Known;
use crate::ports::Ports;
use indexmap::IndexMap;
use kp_base::{Copied, Kept, NoMemory, PortKey, Steps};
use kp_types::PortInfo;
use kp_vmap_defs::{Destination, MapDoor};
use std::alloc::Global;
use std::collections::BTreeMap;
use std::sync::ledger::Ledger;

/// A port is what is known of it now, or is gone, at the destinations of its doors before and now.
/// A step is taken for each of these doors.
pub(crate) fn stage_port<L: Ledger>(
    alloc: Global,
    kept: &IndexMap<Destination, Ports>,
    staged: &mut BTreeMap<Destination, Ports>,
    key: &PortKey,
    before: Option<&Kept<Known>>,
    known: &Option<Kept<Known>>,
    steps: &mut Steps<L>,
) -> Result<(), NoMemory>
    requires before { (d : Place) → finite.get
        (spec.staged_at kept.now.entries staged.old.entries d) key.now
        ≡ spec.if_at d (option_copied before) }
    requires key { spec.IsNamed key.now (option_copied before) }
    requires key_now { spec.IsNamed key.now known.now }
    ensures places { OnOk result ((d : Place) → spec.Answers key.now
        (spec.if_at d known.now)
        (spec.staged_at kept.now.entries staged.old.entries d)
        (spec.staged_at kept.now.entries staged.new.entries d)) }
    ensures bound { steps.new ≤ steps.old + (spec.door_count (option_copied before.entry)
        + spec.door_count known.now) }
{
    take_known(alloc, kept, staged, key, before, steps)?;
    put_known(alloc, kept, staged, key, known, steps)
}

/// Takes a port that was known out of where its doors stand. A step is taken for each of them.
fn take_known<L: Ledger>(
    alloc: Global,
    kept: &IndexMap<Destination, Ports>,
    staged: &mut BTreeMap<Destination, Ports>,
    key: &PortKey,
    before: Option<&Kept<Known>>,
    steps: &mut Steps<L>,
) -> Result<(), NoMemory>
    requires before { (d : Place) → finite.get
        (spec.staged_at kept.now.entries staged.old.entries d) key.now
        ≡ spec.if_at d (option_copied before) }
    requires key { spec.IsNamed key.now (option_copied before) }
    ensures places { OnOk result ((d : Place) → spec.Answers key.now None
        (spec.staged_at kept.now.entries staged.old.entries d)
        (spec.staged_at kept.now.entries staged.new.entries d)) }
    ensures bound { steps.new ≤ steps.old + spec.door_count (option_copied before.entry) }
{
    match before {
        Some(port) => take_out(alloc, kept, staged, port.get().info(), steps),
        None => Ok(()),
    }
}

/// Puts a port that is known where its doors stand. A step is taken for each of them.
fn put_known<L: Ledger>(
    alloc: Global,
    kept: &IndexMap<Destination, Ports>,
    staged: &mut BTreeMap<Destination, Ports>,
    key: &PortKey,
    known: &Option<Kept<Known>>,
    steps: &mut Steps<L>,
) -> Result<(), NoMemory>
    requires { spec.IsNamed key.now known.now }
    ensures places { (start : Place → spec.PortMap) → ((d : Place) → spec.Answers key.now None
        (start d) (spec.staged_at kept.now.entries staged.old.entries d)) →
        OnOk result ((d : Place) → spec.Answers key.now (spec.if_at d known.now)
        (start d) (spec.staged_at kept.now.entries staged.new.entries d)) }
    ensures bound { steps.new ≤ steps.old + spec.door_count known.now }
{
    match known {
        Some(port) => put_in(alloc, kept, staged, port, steps),
        None => Ok(()),
    }
}

/// Takes a port out of where its doors stand. A step is taken for each of them.
fn take_out<L: Ledger>(
    alloc: Global,
    kept: &IndexMap<Destination, Ports>,
    staged: &mut BTreeMap<Destination, Ports>,
    port: &PortInfo,
    steps: &mut Steps<L>,
) -> Result<(), NoMemory>
    ensures places { OnOk result ((d : Place) →
        spec.staged_at kept.now.entries staged.new.entries d
        ≡ spec.taken_at (spec.stands_at d port.now) port.now.key
        (spec.staged_at kept.now.entries staged.old.entries d)) }
    ensures steps { OnOk result (steps.new ≡ steps.old + length (port_doors port.now)) }
    ensures bound { steps.new ≤ steps.old + length (port_doors port.now) }
{
    let doors = doors_known(alloc, port, steps)?;
    take_from_all(alloc, kept, staged, doors.as_slice(), &port.key)
}

/// Takes a port out of where these doors stand.
fn take_from_all(
    alloc: Global,
    kept: &IndexMap<Destination, Ports>,
    staged: &mut BTreeMap<Destination, Ports>,
    doors: &[MapDoor],
    key: &PortKey,
) -> Result<(), NoMemory>
    ensures { OnOk result ((d : Place) →
        spec.staged_at kept.now.entries staged.new.entries d
        ≡ spec.taken_at (spec.is_one_at doors.now d) key.now
        (spec.staged_at kept.now.entries staged.old.entries d)) }
{
    for door in doors {
        let at = destination_of(door);
        let mut ports = ports_at(alloc, kept, staged, &at)?;
        ports.take(key);
        staged.insert(at, ports)?;
    }
    Ok(())
}

/// Puts a port where its doors stand. A step is taken for each of them.
fn put_in<L: Ledger>(
    alloc: Global,
    kept: &IndexMap<Destination, Ports>,
    staged: &mut BTreeMap<Destination, Ports>,
    port: &Kept<Known>,
    steps: &mut Steps<L>,
) -> Result<(), NoMemory>
    ensures places { OnOk result ((d : Place) →
        spec.staged_at kept.now.entries staged.new.entries d
        ≡ spec.put_at (spec.stands_at d port.now) port.now
        (spec.staged_at kept.now.entries staged.old.entries d)) }
    ensures bound { steps.new ≤ steps.old + length (port_doors port.now) }
{
    let doors = doors_known(alloc, port.get().info(), steps)?;
    put_into_all(alloc, kept, staged, doors.as_slice(), port)
}

/// Puts a port where these doors stand.
fn put_into_all(
    alloc: Global,
    kept: &IndexMap<Destination, Ports>,
    staged: &mut BTreeMap<Destination, Ports>,
    doors: &[MapDoor],
    port: &Kept<Known>,
) -> Result<(), NoMemory>
    ensures { OnOk result ((d : Place) →
        spec.staged_at kept.now.entries staged.new.entries d
        ≡ spec.put_at (spec.is_one_at doors.now d) port.now
        (spec.staged_at kept.now.entries staged.old.entries d)) }
{
    for door in doors {
        let at = destination_of(door);
        let mut ports = ports_at(alloc, kept, staged, &at)?;
        ports.put(port.copy(alloc)?)?;
        staged.insert(at, ports)?;
    }
    Ok(())
}

/// Where a door stands.
fn destination_of(door: &MapDoor) -> Destination
    ensures { result ≡ map.destination_of door.now }
{
    Destination {
        target: door.target,
        proto: door.proto,
        port: door.port,
    }
}

/// The ports at a destination as they are staged, which are taken out, or else as they are kept.
fn ports_at(
    alloc: Global,
    kept: &IndexMap<Destination, Ports>,
    staged: &mut BTreeMap<Destination, Ports>,
    at: &Destination,
) -> Result<Ports, NoMemory>
    ensures ports { IfOk result (λ ports. ports
        ≡ spec.staged_at kept.now.entries staged.old.entries at.now) }
    ensures others { OnOk result ((d : Place) → eq_by_cmp destination_cmp d at.now ≡ false →
        spec.staged_at kept.now.entries staged.new.entries d
        ≡ spec.staged_at kept.now.entries staged.old.entries d) }
{
    match staged.remove(at) {
        Some(ports) => Ok(ports),
        None => copy_of(alloc, kept.get(at)),
    }
}

/// The same ports, or none where none are found.
fn copy_of(alloc: Global, found: Option<&Ports>) -> Result<Ports, NoMemory>
    ensures { IfOk result (λ ports. ports
        ≡ unwrap_or (option_copied found.entry) finite.empty) }
{
    match found {
        Some(ports) => ports.copy(alloc),
        None => Ok(Ports::new(alloc)),
    }
}
