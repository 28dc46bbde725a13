//! Doors: the destinations that Service ports answer on, and which of them takes a packet.
ghost use Rattle.std.specs.Prelude.{◌≡◌, ◌++◌, ◌&&◌, ◌==◌, List, map, option_map, slice_get, Some};
ghost use Rattle.std.specs.Prelude.{IfSome, OnErr, OnOk};
ghost use Rattle.std.specs.List.{find, flat_map, list_any};
ghost use Rattle.kp_base.specs.Net.{AddressParts, same_address};
ghost use Rattle.kp_base.specs.declared.address.Family.{Family};
ghost use Rattle.kp_types.specs.Ports.{same_proto};
ghost use Rattle.kp_types.specs.Setting.{config_for};
ghost use Rattle.kp_door_defs.specs.Doors as spec;
ghost use Rattle.kp_decide.specs.Listed.{group_doors, if_offers, offers};

use crate::local::{is_among, is_local, is_loopback};
use crate::offers::offer_of;
use crate::sources::PortRow;
use kp_base::{Address, Config, Family, NoMemory, PortNo};
use kp_types::{DoorKind, Packet, PortInfo};
use std::alloc::Global;
use std::marker::Model;

/// A door of a Service port: an address that it answers on, or any of the node's own but loopback,
/// and its number there.
#[derive(Drop)]
pub struct Door<'a> {
    pub kind: DoorKind,
    pub info: &'a PortInfo,
    pub address: Option<Address>,
    pub number: PortNo,
}

impl<'a> Model for Door<'a> {
    ghost use Rattle.kp_door_defs.specs.Doors as spec;
    ghost use Rattle.kp_decide.specs.Stored.{door_code};

    ghost Value = { spec.Door };

    ghost coded = { door_code };

    ghost view = { λ d. record {
      kind = d.kind;
      info = d.info.now;
      address = d.address;
      number = d.number;
    } };
}

/// The doors of a port at addresses, or at its node port.
#[derive(Clone, Copy)]
pub enum Group {
    AtAddresses,
    AtNodePorts,
}

/// A door that takes a packet, and the place of its port in its row.
#[derive(Drop)]
pub struct Taking<'a> {
    pub port: usize,
    pub door: Door<'a>,
}

/// The first door that takes a packet: at an address, or else at a node port.
pub fn taking_door<'a, R: PortRow>(
    family: Family,
    config: &Config,
    ports: &'a R,
    packet: &Packet,
) -> Option<Taking<'a>>
    ensures door { option_map (λ t. t.door) result
        ≡ spec.taking_door (config_for family config.now) (R.infos ports.now) packet.entry.now }
    ensures port { IfSome result
        (λ t. slice_get (R.infos ports.now) t.port ≡ Some t.door.info) }
{
    match first_taking(Group::AtAddresses, family, config, ports, packet) {
        Some(taking) => Some(taking),
        None => first_taking(Group::AtNodePorts, family, config, ports, packet),
    }
}

/// The first door of a group that takes a packet, port by port.
fn first_taking<'a, R: PortRow>(
    group: Group,
    family: Family,
    config: &Config,
    ports: &'a R,
    packet: &Packet,
) -> Option<Taking<'a>>
    ensures door { option_map (λ t. t.door) result
        ≡ find (spec.takes (config_for family config.now) packet.entry.now)
        (flat_map (group_doors group) (R.infos ports.now)) }
    ensures port { IfSome result
        (λ t. slice_get (R.infos ports.now) t.port ≡ Some t.door.info) }
{
    for port in 0..ports.count() {
        match taking_in(group, family, config, ports.info(port), packet) {
            Some(door) => return Some(Taking { port, door }),
            None => {}
        }
    }
    None
}

/// The first door of a group of a port that takes a packet.
fn taking_in<'a>(
    group: Group,
    family: Family,
    config: &Config,
    info: &'a PortInfo,
    packet: &Packet,
) -> Option<Door<'a>>
    ensures { result ≡ find (spec.takes (config_for family config.now) packet.entry.now)
        (group_doors group info.now) }
{
    match group {
        Group::AtAddresses => taking_address(family, config, info, packet),
        Group::AtNodePorts => offering(family, config, packet, fitting_node(config, info, packet)),
    }
}

/// The first door of a port at its addresses that takes a packet.
fn taking_address<'a>(
    family: Family,
    config: &Config,
    info: &'a PortInfo,
    packet: &Packet,
) -> Option<Door<'a>>
    ensures { result ≡ find (spec.takes (config_for family config.now) packet.entry.now)
        (spec.address_doors info.now) }
{
    let cluster = door_at(DoorKind::Cluster, info, info.address);
    if takes(family, config, packet, &cluster) {
        return Some(cluster);
    }
    let external = fitting_at(DoorKind::External, info, info.external.as_slice(), packet);
    match offering(family, config, packet, external) {
        Some(door) => Some(door),
        None => {
            let balancer = fitting_at(DoorKind::Balancer, info, info.balancer.as_slice(), packet);
            offering(family, config, packet, balancer)
        }
    }
}

/// A door that fits a packet, where it offers an endpoint.
fn offering<'a>(
    family: Family,
    config: &Config,
    packet: &Packet,
    door: Option<Door<'a>>,
) -> Option<Door<'a>>
    ensures { result ≡ if_offers (config_for family config.now) packet.entry.now door.entry }
{
    match door {
        Some(door) if has_offer(family, config, packet, &door) => Some(door),
        _ => None,
    }
}

/// The first door of a port at some addresses that a packet fits, which no node's address changes.
pub fn fitting_at<'a>(
    kind: DoorKind,
    info: &'a PortInfo,
    addresses: &[Address],
    packet: &Packet,
) -> Option<Door<'a>>
    ensures { (own : List AddressParts) → result
        ≡ find (spec.fits own packet.entry.now) (map (spec.door_at kind info.now) addresses.now) }
{
    if is_for(info, addresses, packet) {
        Some(door_at(kind, info, packet.target))
    } else {
        None
    }
}

/// The door of a node port, if there is one and a packet fits it.
pub fn fitting_node<'a>(config: &Config, info: &'a PortInfo, packet: &Packet) -> Option<Door<'a>>
    ensures { result ≡ find (spec.fits config.now.addresses packet.entry.now)
        (spec.node_door info.now info.now.node_port) }
{
    let door = Door {
        kind: DoorKind::Node,
        info,
        address: None,
        number: info.node_port?,
    };
    if fits(config, packet, &door) {
        Some(door)
    } else {
        None
    }
}

/// Whether a packet is for a port at one of some addresses: its protocol, its port and its
/// destination.
fn is_for(info: &PortInfo, addresses: &[Address], packet: &Packet) -> bool
    ensures { result ≡ (same_proto info.now.key.proto packet.entry.now.proto
        && (info.now.number == packet.entry.now.port)
        && list_any (λ a. same_address a packet.entry.now.target) addresses.now) }
{
    info.key.proto == packet.proto
        && info.number == packet.port
        && is_among(addresses, &packet.target)
}

/// Adds the doors of ports at addresses, port by port. Without memory some of them may be added.
pub fn add_address_doors<'a>(
    doors: &mut Vec<Door<'a>>,
    infos: &'a [PortInfo],
) -> Result<(), NoMemory>
    ensures added { OnOk result (doors.new.items
        ≡ doors.old.items ++ flat_map spec.address_doors infos.now) }
    ensures front { OnErr result
        ((some : List spec.Door) × (doors.new.items ≡ doors.old.items ++ some)) }
{
    for info in infos {
        add_doors_of(doors, info)?;
    }
    Ok(())
}

/// Adds the doors of a port at addresses. Without memory some of them may be added.
pub fn add_doors_of<'a>(doors: &mut Vec<Door<'a>>, info: &'a PortInfo) -> Result<(), NoMemory>
    ensures added { OnOk result
        (doors.new.items ≡ doors.old.items ++ spec.address_doors info.now) }
    ensures front { OnErr result
        ((some : List spec.Door) × (doors.new.items ≡ doors.old.items ++ some)) }
{
    doors.push(door_at(DoorKind::Cluster, info, info.address))?;
    add_doors_at(doors, DoorKind::External, info, info.external.as_slice())?;
    add_doors_at(doors, DoorKind::Balancer, info, info.balancer.as_slice())
}

/// Adds the doors of a port at some addresses. Without memory some of them may be added.
pub fn add_doors_at<'a>(
    doors: &mut Vec<Door<'a>>,
    kind: DoorKind,
    info: &'a PortInfo,
    addresses: &[Address],
) -> Result<(), NoMemory>
    ensures added { OnOk result (doors.new.items
        ≡ doors.old.items ++ map (spec.door_at kind info.now) addresses.now) }
    ensures front { OnErr result
        ((some : List spec.Door) × (doors.new.items ≡ doors.old.items ++ some)) }
{
    for address in addresses {
        doors.push(door_at(kind, info, *address))?;
    }
    Ok(())
}

/// The door of a port at an address.
pub fn door_at<'a>(kind: DoorKind, info: &'a PortInfo, address: Address) -> Door<'a>
    ensures { result ≡ spec.door_at kind info.now address }
{
    Door {
        kind,
        info,
        address: Some(address),
        number: info.number,
    }
}

/// Adds the doors of node ports. Without memory some of them may be added.
pub fn add_node_doors<'a>(doors: &mut Vec<Door<'a>>, infos: &'a [PortInfo]) -> Result<(), NoMemory>
    ensures added { OnOk result (doors.new.items
        ≡ doors.old.items ++ flat_map (λ i. spec.node_door i i.node_port) infos.now) }
    ensures front { OnErr result
        ((some : List spec.Door) × (doors.new.items ≡ doors.old.items ++ some)) }
{
    for info in infos {
        add_node_door(doors, info)?;
    }
    Ok(())
}

/// Adds the door of a node port, if there is one. Without memory the doors stay.
pub fn add_node_door<'a>(doors: &mut Vec<Door<'a>>, info: &'a PortInfo) -> Result<(), NoMemory>
    ensures added { OnOk result (doors.new.items
        ≡ doors.old.items ++ spec.node_door info.now info.now.node_port) }
    ensures kept { OnErr result (doors.new.items ≡ doors.old.items) }
{
    match info.node_port {
        Some(number) => {
            doors.push(Door {
                kind: DoorKind::Node,
                info,
                address: None,
                number,
            })?;
            Ok(())
        }
        None => Ok(()),
    }
}

/// Whether a door takes a packet: it fits, and offers an endpoint.
fn takes(family: Family, config: &Config, packet: &Packet, door: &Door<'_>) -> bool
    ensures { result ≡ spec.takes (config_for family config.now) packet.entry.now door.now }
{
    fits(config, packet, door) && has_offer(family, config, packet, door)
}

/// Whether a door offers an endpoint to a packet.
fn has_offer(family: Family, config: &Config, packet: &Packet, door: &Door<'_>) -> bool
    ensures { result ≡ offers (config_for family config.now) packet.entry.now door.now }
{
    !offer_of(family, config, packet, door).endpoints.is_empty()
}

/// Whether a packet is for a door: its protocol, its destination and its port.
pub fn fits(config: &Config, packet: &Packet, door: &Door<'_>) -> bool
    ensures { result ≡ spec.fits config.now.addresses packet.entry.now door.now }
{
    door.info.key.proto == packet.proto
        && door.number == packet.port
        && is_at(config, door, &packet.target)
}

/// Whether a destination is that of a door.
fn is_at(config: &Config, door: &Door<'_>, target: &Address) -> bool
    ensures { result ≡ spec.is_at door.now.info.address.family config.now.addresses
        door.now.address target.now }
{
    match door.address {
        Some(address) => address == *target,
        None => { is_local(config, target) && !is_loopback(door.info.address.family(), target) }
    }
}
