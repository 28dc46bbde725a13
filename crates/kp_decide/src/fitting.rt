//! The doors that a packet fits, in order.
ghost use Rattle.std.specs.Prelude.{◌≡◌, ◌++◌, [], ◌∷◌, List, map, IfOk, OnOk};
ghost use Rattle.std.specs.List.{filter, flat_map};
ghost use Rattle.kp_base.specs.declared.address.Family.{Family};
ghost use Rattle.kp_types.specs.Setting.{config_for};
ghost use Rattle.kp_door_defs.specs.Doors as spec;
ghost use Rattle.kp_decide.specs.Findings as findings;
ghost use Rattle.kp_decide.specs.Listed.{group_doors};

use crate::doors::{Door, Group, door_at, fits};
use crate::sources::PortRow;
use kp_base::{Address, Config, NoMemory};
use kp_types::{DoorKind, Packet, PortInfo};
use std::alloc::Global;

/// The doors of some ports that a packet fits, in order: those at addresses, port by port, and then
/// those of node ports. No decision needs them; whoever tells of all may ask for them.
pub fn fitting_doors<'a, R: PortRow>(
    alloc: Global,
    config: &Config,
    ports: &'a R,
    packet: &Packet,
) -> Result<Vec<Door<'a>>, NoMemory>
    ensures { (family : Family) → IfOk result (λ ds. ds.items
        ≡ findings.fitting_doors (config_for family config.now) (R.infos ports.now)
        packet.entry.now) }
{
    let mut doors = Vec::new(alloc);
    add_fitting(&mut doors, Group::AtAddresses, config, ports, packet)?;
    add_fitting(&mut doors, Group::AtNodePorts, config, ports, packet)?;
    Ok(doors)
}

/// Adds the doors of a group that a packet fits, port by port.
fn add_fitting<'a, R: PortRow>(
    doors: &mut Vec<Door<'a>>,
    group: Group,
    config: &Config,
    ports: &'a R,
    packet: &Packet,
) -> Result<(), NoMemory>
    ensures { OnOk result (doors.new.items
        ≡ doors.old.items ++ filter (spec.fits config.now.addresses packet.entry.now)
        (flat_map (group_doors group) (R.infos ports.now))) }
{
    for port in 0..ports.count() {
        add_fitting_of(doors, group, config, ports.info(port), packet)?;
    }
    Ok(())
}

/// Adds the doors of a group of a port that a packet fits.
fn add_fitting_of<'a>(
    doors: &mut Vec<Door<'a>>,
    group: Group,
    config: &Config,
    info: &'a PortInfo,
    packet: &Packet,
) -> Result<(), NoMemory>
    ensures { OnOk result (doors.new.items
        ≡ doors.old.items ++ filter (spec.fits config.now.addresses packet.entry.now)
        (group_doors group info.now)) }
{
    match group {
        Group::AtAddresses => {
            let cluster = door_at(DoorKind::Cluster, info, info.address);
            add_if_fits(doors, config, packet, cluster)?;
            let external = info.external.as_slice();
            add_fitting_at(doors, DoorKind::External, config, info, external, packet)?;
            let balancer = info.balancer.as_slice();
            add_fitting_at(doors, DoorKind::Balancer, config, info, balancer, packet)
        }
        Group::AtNodePorts => match info.node_port {
            Some(number) => {
                let door = Door {
                    kind: DoorKind::Node,
                    info,
                    address: None,
                    number,
                };
                add_if_fits(doors, config, packet, door)
            }
            None => Ok(()),
        },
    }
}

/// Adds the doors of a port at some addresses that a packet fits.
fn add_fitting_at<'a>(
    doors: &mut Vec<Door<'a>>,
    kind: DoorKind,
    config: &Config,
    info: &'a PortInfo,
    addresses: &[Address],
    packet: &Packet,
) -> Result<(), NoMemory>
    ensures { OnOk result (doors.new.items
        ≡ doors.old.items ++ filter (spec.fits config.now.addresses packet.entry.now)
        (map (spec.door_at kind info.now) addresses.now)) }
{
    for address in addresses {
        add_if_fits(doors, config, packet, door_at(kind, info, *address))?;
    }
    Ok(())
}

/// Adds a door, if a packet fits it.
fn add_if_fits<'a>(
    doors: &mut Vec<Door<'a>>,
    config: &Config,
    packet: &Packet,
    door: Door<'a>,
) -> Result<(), NoMemory>
    ensures { OnOk result (doors.new.items
        ≡ doors.old.items ++ filter (spec.fits config.now.addresses packet.entry.now)
        (door.entry ∷ [])) }
{
    if fits(config, packet, &door) {
        doors.push(door)?;
    }
    Ok(())
}
