//! The ports at a packet's destination, which a map lends.
ghost use Rattle.std.specs.Prelude.{◌≡◌, ◌==◌, ◌<◌, ◌≤◌, ◌^◌, ◌||◌, ◌∷◌, true, filter, length};
ghost use Rattle.std.specs.Prelude.{slice_get, Some};
ghost use Rattle.kp_vmap.specs.Here.{is_here};
ghost use Rattle.kp_vmap.specs.Merged.{merged};
ghost use Rattle.kp_vmap_defs.specs.Remainder.{known_in};

use crate::known::Known;
use crate::vmap::Vmap;
use kp_base::{Address, Config, Endpoint, Family, Kept, NoMemory};
use kp_decide::{PortRow, PortSource};
use kp_types::{ChainName, ListKind, Packet, PortInfo};
use kp_vmap_defs::Destination;
use std::alloc::Global;
use std::cmp::Ordering;

/// A map as a source of ports. It makes none, and takes no memory.
#[derive(Drop)]
pub struct MapPorts<'a> {
    pub(crate) map: &'a Vmap,
}

impl<'a> PortSource for MapPorts<'a> {
    ghost use Rattle.std.specs.Prelude.{false};
    ghost use Rattle.kp_vmap_defs.specs.Remainder.{known_in};

    type Row = PortsHere<'a>;

    ghost infos = { λ s. known_in s.map.now };

    ghost config = { λ s. s.map.now.config };

    ghost refuses = { false };

    fn config(&self) -> &Config {
        self.map.config()
    }

    fn ports_at(
        &self,
        _alloc: Global,
        family: Family,
        packet: &Packet,
    ) -> Result<PortsHere<'a>, NoMemory> {
        Ok(ports_here(self.map, family, packet))
    }
}

/// The ports with a door at the address of a packet, and those with a node port of its number, each
/// in order of their names.
#[derive(Drop)]
pub struct PortsHere<'a> {
    name_length: u8,
    at_address: &'a [Kept<Known>],
    at_node: &'a [Kept<Known>],
    ghost short: { name_length ≤ 16 },
    ghost few: { length (merged at_address.now at_node.now) < 2 ^ 64 },
}

/// The ports at a packet's destination.
fn ports_here<'a>(map: &'a Vmap, family: Family, packet: &Packet) -> PortsHere<'a>
    ensures ports { merged result.at_address.now result.at_node.now
        ≡ filter (is_here packet.entry.now) (known_in map.now family) }
    ensures names { result.name_length ≡ map.now.config.name_length }
{
    let known = map.ports_of(family);
    known.are_counted();
    PortsHere {
        name_length: map.config().name_length,
        at_address: known.at(&destination(Some(packet.target), packet)),
        at_node: known.at(&destination(None, packet)),
    }
}

impl<'a> PortRow for PortsHere<'a> {
    ghost infos = { λ r. merged r.at_address.now r.at_node.now };

    ghost name_length = { λ r. r.name_length };

    fn count(&self) -> usize {
        count(self.at_address, self.at_node)
    }

    fn info(&self, port: usize) -> &PortInfo {
        port_at(self.at_address, self.at_node, port).get().info()
    }

    fn name(
        &self,
        port: usize,
        _info: &PortInfo,
        list: ListKind,
        place: usize,
        endpoint: &Endpoint,
    ) -> ChainName {
        port_at(self.at_address, self.at_node, port)
            .get()
            .name(self.name_length, list, place, endpoint)
    }
}

/// Where a packet goes, at an address or at a node port.
fn destination(target: Option<Address>, packet: &Packet) -> Destination
    ensures { result ≡ record {
      target = target;
      proto = packet.entry.now.proto;
      port = packet.entry.now.port;
    } }
{
    Destination {
        target,
        proto: packet.proto,
        port: packet.port,
    }
}

/// How many ports two lists have together, where one that is in both counts once.
fn count<'a>(mut some: &'a [Kept<Known>], mut others: &'a [Kept<Known>]) -> usize
    requires { length (merged some.now others.now) < 2 ^ 64 }
    ensures { result ≡ length (merged some.entry.now others.entry.now) }
{
    let mut count = 0;
    while !some.is_empty() && !others.is_empty() {
        let (_, left, rest) = first_of(some, others);
        some = left;
        others = rest;
        count += 1;
    }
    count + left_of(some, others).len()
}

/// The port at a place of two lists, which stand in one order.
fn port_at<'a>(
    mut some: &'a [Kept<Known>],
    mut others: &'a [Kept<Known>],
    mut place: usize,
) -> &'a Kept<Known>
    requires { place < length (merged some.now others.now) }
    ensures { slice_get (merged some.entry.now others.entry.now) place ≡ Some result.now }
{
    while !some.is_empty() && !others.is_empty() {
        let (first, left, rest) = first_of(some, others);
        if place == 0 {
            return first;
        }
        some = left;
        others = rest;
        place -= 1;
    }
    &left_of(some, others)[place]
}

/// What is left of two lists of which one is at its end.
fn left_of<'a>(some: &'a [Kept<Known>], others: &'a [Kept<Known>]) -> &'a [Kept<Known>]
    requires { (length some.now == 0) || (length others.now == 0) ≡ true }
    ensures { result.now ≡ merged some.now others.now }
{
    if some.is_empty() { others } else { some }
}

/// The first port of two lists, and what is left of each.
fn first_of<'a>(
    some: &'a [Kept<Known>],
    others: &'a [Kept<Known>],
) -> (&'a Kept<Known>, &'a [Kept<Known>], &'a [Kept<Known>])
    requires some { 0 < length some.now }
    requires others { 0 < length others.now }
    ensures { merged some.now others.now ≡ result.0.now ∷ merged result.1.now result.2.now }
{
    let (port, left) = (&some[0], &some[1..]);
    let (other, rest) = (&others[0], &others[1..]);
    match port.get().info().key.cmp(&other.get().info().key) {
        Ordering::Less => (port, left, others),
        Ordering::Equal => (port, left, rest),
        Ordering::Greater => (other, some, rest),
    }
}
