//! The doors of a port.
ghost use Rattle.std.specs.Prelude.{◌≡◌, ◌+◌, ◌≤◌, ◌++◌, ◌∷◌, [], length, map, OnOk, IfOk};
ghost use Rattle.kp_door_defs.specs.Doors.{door_at, node_door};
ghost use Rattle.kp_vmap_defs.specs.VerdictMap as spec;
ghost use Rattle.kp_vmap.specs.Places.{doors_if};

use kp_base::{Address, Config, Copied, Family, Items, NoMemory, Steps};
use kp_port_info::port_info;
use kp_types::{DoorKind, Lists, PortInfo, Service, ServicePort};
use kp_vmap_defs::MapDoor;
use std::alloc::Global;
use std::sync::ledger::Ledger;

/// The doors of a port of a Service in a family, in order: none without a cluster address there,
/// and an address that is repeated in one list once. A step is taken for each door. Whether the
/// node has tables of the family isn't asked.
pub fn doors_of<L: Ledger>(
    alloc: Global,
    service: &Service,
    port: &ServicePort,
    family: Family,
    _config: &Config,
    steps: &mut Steps<L>,
) -> Result<Items<MapDoor>, NoMemory>
    ensures doors { IfOk result (λ ds. ds ≡ spec.doors_of_service family service.now port.now) }
    ensures steps { OnOk result (steps.new
        ≡ steps.old + length (spec.doors_of_service family service.now port.now)) }
    ensures bound { steps.new
        ≤ steps.old + length (spec.doors_of_service family service.now port.now) }
{
    let info = bare_info(alloc, service, port, family)?;
    doors_if_known(alloc, &info, steps)
}

/// What is known of a port of a Service but its endpoints, if it has a cluster address.
fn bare_info(
    alloc: Global,
    service: &Service,
    port: &ServicePort,
    family: Family,
) -> Result<Option<PortInfo>, NoMemory>
    ensures { IfOk result (λ info. doors_if info
        ≡ spec.doors_of_service family service.now port.now) }
{
    let lists = Lists {
        cluster: Items::new(alloc),
        local: Items::new(alloc),
        has_any: false,
    };
    port_info(alloc, family, service, port, lists)
}

/// The doors of a port, if it is known. A step is taken for each of them.
fn doors_if_known<L: Ledger>(
    alloc: Global,
    info: &Option<PortInfo>,
    steps: &mut Steps<L>,
) -> Result<Items<MapDoor>, NoMemory>
    ensures doors { IfOk result (λ ds. ds ≡ doors_if info.now) }
    ensures steps { OnOk result (steps.new ≡ steps.old + length (doors_if info.now)) }
    ensures bound { steps.new ≤ steps.old + length (doors_if info.now) }
{
    match info {
        Some(info) => doors_known(alloc, info, steps),
        None => Ok(Items::new(alloc)),
    }
}

/// The doors of a port of which this is known, in order. A step is taken for each door.
pub(crate) fn doors_known<L: Ledger>(
    alloc: Global,
    info: &PortInfo,
    steps: &mut Steps<L>,
) -> Result<Items<MapDoor>, NoMemory>
    ensures doors { IfOk result (λ ds. ds ≡ spec.port_doors info.now) }
    ensures steps { OnOk result (steps.new ≡ steps.old + length (spec.port_doors info.now)) }
    ensures bound { steps.new ≤ steps.old + length (spec.port_doors info.now) }
{
    let mut doors = Vec::new(alloc);
    add_door(
        alloc,
        &mut doors,
        info,
        DoorKind::Cluster,
        &info.address,
        steps,
    )?;
    add_doors(
        alloc,
        &mut doors,
        info,
        DoorKind::External,
        info.external.as_slice(),
        steps,
    )?;
    add_doors(
        alloc,
        &mut doors,
        info,
        DoorKind::Balancer,
        info.balancer.as_slice(),
        steps,
    )?;
    add_node_door(alloc, &mut doors, info, steps)?;
    Ok(Items::from_vec(doors))
}

/// Adds the doors of a port at some addresses. A step is taken for each.
fn add_doors<L: Ledger>(
    alloc: Global,
    doors: &mut Vec<MapDoor>,
    info: &PortInfo,
    kind: DoorKind,
    addresses: &[Address],
    steps: &mut Steps<L>,
) -> Result<(), NoMemory>
    ensures doors { OnOk result (doors.new.items ≡ doors.old.items
        ++ map spec.map_door (map (door_at kind info.now) addresses.now)) }
    ensures steps { OnOk result (steps.new ≡ steps.old + length addresses.now) }
    ensures bound { steps.new ≤ steps.old + length addresses.now }
{
    for address in addresses {
        add_door(alloc, doors, info, kind, address, steps)?;
    }
    Ok(())
}

/// Adds the door of a port at an address. A step is taken for it.
fn add_door<L: Ledger>(
    alloc: Global,
    doors: &mut Vec<MapDoor>,
    info: &PortInfo,
    kind: DoorKind,
    address: &Address,
    steps: &mut Steps<L>,
) -> Result<(), NoMemory>
    ensures doors { OnOk result (doors.new.items
        ≡ doors.old.items ++ spec.map_door (door_at kind info.now address.now) ∷ []) }
    ensures steps { steps.new ≡ steps.old + 1 }
{
    steps.tick();
    doors.push(MapDoor {
        kind,
        target: Some(*address),
        proto: info.key.proto,
        port: info.number,
        owner: info.key.copy(alloc)?,
    })?;
    Ok(())
}

/// Adds the door of a port's node port, if it has one. A step is taken for it.
fn add_node_door<L: Ledger>(
    alloc: Global,
    doors: &mut Vec<MapDoor>,
    info: &PortInfo,
    steps: &mut Steps<L>,
) -> Result<(), NoMemory>
    ensures doors { OnOk result (doors.new.items ≡ doors.old.items
        ++ map spec.map_door (node_door info.now info.now.node_port)) }
    ensures steps { steps.new ≡ steps.old + length (node_door info.now info.now.node_port) }
{
    let Some(number) = info.node_port else {
        return Ok(());
    };
    steps.tick();
    doors.push(MapDoor {
        kind: DoorKind::Node,
        target: None,
        proto: info.key.proto,
        port: number,
        owner: info.key.copy(alloc)?,
    })?;
    Ok(())
}
