//! The doors at a destination, which are found among the ports of the Services there.
ghost use Rattle.std.specs.Prelude.{◌≡◌, ◌++◌, map, IfOk, OnOk};
ghost use Rattle.std.specs.List.{flat_map};
ghost use Rattle.std.specs.Option.{option_to_list};
ghost use Rattle.kp_types.specs.Setting.{config_for};
ghost use Rattle.kp_object_defs.specs.OwnKeys.{AreUnderOwnKeys};
ghost use Rattle.kp_door_defs.specs.Doors.{doors_of};
ghost use Rattle.kp_changes.specs.After.{crowd_at};
ghost use Rattle.kp_changes.specs.Beside as beside;
ghost use Rattle.kp_changes.specs.Neighbours as spec;

use crate::after::After;
use crate::infos::bare_info_at;
use crate::names::distinct_names;
use crate::neighbour::{Destination, Neighbour};
use kp_base::{Address, Config, Copied, Family, Items, NoMemory, PortKey};
use kp_decide::{Door, add_address_doors, add_node_doors};
use kp_port_info::port_key_of;
use kp_store::Objects;
use kp_types::{PortInfo, Service, ServicePort};
use std::alloc::Global;

/// The destination of a door of a family.
pub fn destination_of(family: Family, door: &Door<'_>) -> Destination
    ensures { result ≡ spec.destination_of family door.now }
{
    Destination {
        family,
        proto: door.info.key.proto,
        address: door.address,
        number: door.number,
    }
}

/// The doors at the destination of a door of a family, by the names of the ports that may have one
/// there.
pub fn crowd_of(
    alloc: Global,
    family: Family,
    after: &After<'_>,
    door: &Door<'_>,
    names: &[PortKey],
) -> Result<Items<Neighbour>, NoMemory>
    requires own_keys { AreUnderOwnKeys after.now.synced.objects }
    requires names { names.now ≡ beside.names_at after.now.synced.objects door.now }
    ensures { IfOk result (λ crowd.
        crowd ≡ crowd_at (spec.destination_of family door.now) after.now.synced) }
{
    let distinct = distinct_names(alloc, names)?;
    doors_there(alloc, family, after, door, distinct.as_slice())
}

/// The doors of the ports of some names at the destination of a door of a family.
pub fn doors_there(
    alloc: Global,
    family: Family,
    after: &After<'_>,
    door: &Door<'_>,
    names: &[&PortKey],
) -> Result<Items<Neighbour>, NoMemory>
    ensures { IfOk result (λ found. found ≡ spec.neighbours_at
        (spec.destination_of family door.now)
        (doors_of (flat_map
        (beside.bare_infos_at family (config_for family after.now.synced.config) after.now.synced.objects)
        (map (λ k. k.now) names.now)))) }
{
    let infos = bare_infos(alloc, family, after.config(), after.objects(), names)?;
    let mut doors = Vec::new(alloc);
    add_address_doors(&mut doors, infos.as_slice())?;
    add_node_doors(&mut doors, infos.as_slice())?;
    neighbours_at(alloc, &destination_of(family, door), doors.as_slice())
}

/// Those of some doors that are at a destination.
fn neighbours_at(
    alloc: Global,
    at: &Destination,
    doors: &[Door<'_>],
) -> Result<Items<Neighbour>, NoMemory>
    ensures { IfOk result (λ found. found ≡ spec.neighbours_at at.now doors.now) }
{
    let mut found = Vec::new(alloc);
    for door in doors {
        if is_at(at, door) {
            found.push(neighbour_of(alloc, door)?)?;
        }
    }
    Ok(Items::from_vec(found))
}

/// Whether a door of the family is at a destination.
fn is_at(at: &Destination, door: &Door<'_>) -> bool
    ensures { result ≡ spec.is_at at.now door.now }
{
    at.proto == door.info.key.proto && at.address == door.address && at.number == door.number
}

/// A door by its port and its kind.
fn neighbour_of(alloc: Global, door: &Door<'_>) -> Result<Neighbour, NoMemory>
    ensures { IfOk result (λ found. found ≡ spec.neighbour_of door.now) }
{
    Ok(Neighbour {
        key: door.info.key.copy(alloc)?,
        kind: door.kind,
    })
}

/// What a family knows, but for lists of endpoints, of the ports of some names.
fn bare_infos(
    alloc: Global,
    family: Family,
    config: &Config,
    objects: &Objects,
    names: &[&PortKey],
) -> Result<Vec<PortInfo>, NoMemory>
    ensures { IfOk result (λ infos. infos.items ≡ flat_map
        (beside.bare_infos_at family (config_for family config.now) objects.now)
        (map (λ k. k.now) names.now)) }
{
    let mut infos = Vec::new(alloc);
    for name in names {
        add_some(
            &mut infos,
            bare_info_at(alloc, family, config, objects, *name)?,
        )?;
    }
    Ok(infos)
}

/// Adds what is known of a port, if anything is.
fn add_some(infos: &mut Vec<PortInfo>, info: Option<PortInfo>) -> Result<(), NoMemory>
    ensures { OnOk result (infos.new.items ≡ infos.old.items ++ option_to_list info) }
{
    if let Some(info) = info {
        infos.push(info)?;
    }
    Ok(())
}

/// The names of the ports that may have a door at the destination of this one: those of the
/// Services found there that have its protocol and its number.
pub fn names_at(alloc: Global, objects: &Objects, door: &Door<'_>) -> Result<Vec<PortKey>, NoMemory>
    ensures names { IfOk result (λ names. names.items ≡ beside.names_at objects.now door.now) }
    ensures own_keys { AreUnderOwnKeys objects.now }
{
    let target = target_of(door);
    let proto = door.info.key.proto;
    let services = objects.services_at(alloc, proto, &target, door.number)?;
    let mut names = Vec::new(alloc);
    for service in services.as_slice() {
        add_names(alloc, &mut names, door, *service)?;
    }
    Ok(names)
}

/// The address that Services are looked up by: any, where a door is at the node's own.
fn target_of(door: &Door<'_>) -> Address
    ensures { result ≡ beside.target_of door.now }
{
    match door.address {
        Some(address) => address,
        None => door.info.address,
    }
}

/// Adds the names of the ports of a Service that have a door's protocol and its number.
fn add_names(
    alloc: Global,
    names: &mut Vec<PortKey>,
    door: &Door<'_>,
    service: &Service,
) -> Result<(), NoMemory>
    ensures { OnOk result (names.new.items
        ≡ names.old.items ++ beside.names_in door.now service.now) }
{
    for port in service.ports.as_slice() {
        if may_be_at(door, port) {
            names.push(port_key_of(alloc, service, port)?)?;
        }
    }
    Ok(())
}

/// Whether a port has a door's protocol, and its number as its own or as its node port.
fn may_be_at(door: &Door<'_>, port: &ServicePort) -> bool
    ensures { result ≡ beside.may_be_at door.now port.now }
{
    port.proto == door.info.key.proto
        && (port.port == door.number || port.node_port == Some(door.number))
}
