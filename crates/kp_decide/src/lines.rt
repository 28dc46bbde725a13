//! The lines of the filter, chain by chain and port by port.
ghost use Rattle.std.specs.Prelude.{◌≡◌, ◌++◌, map, option_map};
ghost use Rattle.std.specs.List.{find, flat_map};
ghost use Rattle.kp_types.specs.declared.decision.DoorKind.TheVariants as kind;
ghost use Rattle.kp_door_defs.specs.Doors.{door_at, fits, node_door};
ghost use Rattle.kp_door_defs.specs.Filter as spec;
ghost use Rattle.kp_decide.specs.Listed.{chain_lines};
ghost use Rattle.kp_decide.specs.Shown.{shown_refusal};

use crate::doors::{Door, door_at, fits, fitting_at, fitting_node};
use crate::offers::offer_by_policy;
use crate::sources::PortRow;
use kp_base::Config;
use kp_types::{DoorKind, Packet, PortInfo};
use std::marker::Model;

/// What a line of the filter does with a packet.
#[derive(Clone, Copy)]
pub enum Refusal {
    /// Its port has no endpoint at all.
    Rejects,
    /// Its source isn't admitted.
    DropsClosed,
    /// Its port has endpoints, but none on this node.
    DropsNoLocal,
}

/// A line of the filter: a door, and what happens to its packets.
#[derive(Drop)]
pub struct Line<'a> {
    pub door: Door<'a>,
    pub refusal: Refusal,
}

impl<'a> Model for Line<'a> {
    ghost use Rattle.kp_door_defs.specs.Filter as spec;
    ghost use Rattle.kp_decide.specs.Shown.{shown_refusal};
    ghost use Rattle.kp_decide.specs.Stored.{line_code};

    ghost Value = { spec.Line };

    ghost coded = { line_code };

    ghost view = { λ l. record { door = l.door; refusal = shown_refusal l.refusal } };
}

/// The chains of the filter.
#[derive(Clone, Copy)]
pub enum Chain {
    /// Load balancers that are closed to sources outside their ranges.
    Firewall,
    /// Doors that are reached from outside, without endpoints.
    External,
    /// Cluster addresses without endpoints.
    Services,
}

/// The first line of a chain that a packet fits, port by port.
pub fn first_line<'a, R: PortRow>(
    chain: Chain,
    config: &Config,
    ports: &'a R,
    packet: &Packet,
) -> Option<Line<'a>>
    ensures { result ≡ find (λ l. fits config.now.addresses packet.entry.now l.door)
        (flat_map (chain_lines chain) (R.infos ports.now)) }
{
    for port in 0..ports.count() {
        match line_in(chain, config, ports.info(port), packet) {
            Some(line) => return Some(line),
            None => {}
        }
    }
    None
}

/// The first line of a chain for a port that a packet fits.
fn line_in<'a>(
    chain: Chain,
    config: &Config,
    info: &'a PortInfo,
    packet: &Packet,
) -> Option<Line<'a>>
    ensures { result ≡ find (λ l. fits config.now.addresses packet.entry.now l.door)
        (chain_lines chain info.now) }
{
    match chain {
        Chain::Firewall => firewall_line(config, info, packet),
        Chain::External => external_line(config, info, packet),
        Chain::Services => service_line(config, info, packet),
    }
}

/// The line of one of a port's load-balancer addresses, where there are source ranges and endpoints.
fn firewall_line<'a>(config: &Config, info: &'a PortInfo, packet: &Packet) -> Option<Line<'a>>
    ensures { result ≡ find (λ l. fits config.now.addresses packet.entry.now l.door)
        (spec.firewall_lines info.now) }
{
    if info.ranges.is_some() && info.lists.has_any {
        let balancer = fitting_at(DoorKind::Balancer, info, info.balancer.as_slice(), packet);
        line_of(balancer, Refusal::DropsClosed)
    } else {
        None
    }
}

/// The line of one of a port's doors that are reached from outside, where the external policy has
/// no endpoint.
fn external_line<'a>(config: &Config, info: &'a PortInfo, packet: &Packet) -> Option<Line<'a>>
    ensures { result ≡ find (λ l. fits config.now.addresses packet.entry.now l.door)
        (spec.external_lines info.now) }
{
    if offer_by_policy(info, info.outer).endpoints.is_empty() {
        line_of(
            outer_door(config, info, packet),
            refusal_by(info.lists.has_any),
        )
    } else {
        None
    }
}

/// The first of a port's doors that are reached from outside that a packet fits.
fn outer_door<'a>(config: &Config, info: &'a PortInfo, packet: &Packet) -> Option<Door<'a>>
    ensures { result ≡ find (fits config.now.addresses packet.entry.now)
        (map (door_at kind.External info.now) info.now.external
        ++ map (door_at kind.Balancer info.now) info.now.balancer
        ++ node_door info.now info.now.node_port) }
{
    match fitting_at(DoorKind::External, info, info.external.as_slice(), packet) {
        Some(door) => Some(door),
        None => match fitting_at(DoorKind::Balancer, info, info.balancer.as_slice(), packet) {
            Some(door) => Some(door),
            None => fitting_node(config, info, packet),
        },
    }
}

/// The line of a port's cluster address, where the internal policy has no endpoint.
fn service_line<'a>(config: &Config, info: &'a PortInfo, packet: &Packet) -> Option<Line<'a>>
    ensures { result ≡ find (λ l. fits config.now.addresses packet.entry.now l.door)
        (spec.service_lines info.now) }
{
    let door = door_at(DoorKind::Cluster, info, info.address);
    if offer_by_policy(info, info.internal).endpoints.is_empty() && fits(config, packet, &door) {
        line_of(Some(door), refusal_by(info.lists.has_any))
    } else {
        None
    }
}

/// The line of a door, if there is one.
fn line_of<'a>(door: Option<Door<'a>>, refusal: Refusal) -> Option<Line<'a>>
    ensures { result ≡ option_map (spec.line_of (shown_refusal refusal)) door.entry }
{
    Some(Line {
        door: door?,
        refusal,
    })
}

/// The refusal of a door without endpoints, by whether its port has any.
fn refusal_by(has_any: bool) -> Refusal
    ensures { shown_refusal result ≡ spec.refusal_by has_any }
{
    if has_any {
        Refusal::DropsNoLocal
    } else {
        Refusal::Rejects
    }
}
