//! Destinations that rules ask for.
ghost use Rattle.std.specs.Prelude.{◌≡◌, ◌==◌};
ghost use Rattle.kp_base.specs.Net.{width};
ghost use Rattle.kp_rules.specs.Destinations as Destinations;

use kp_base::{Address, Cidr, Family, PortNo, Proto};
use kp_types::{Match, Rule};

/// Where a packet goes: an address, and a port of a protocol.
#[derive(Clone, Copy, Debug, PartialEq, Eq, PartialOrd, Ord)]
pub struct Destination {
    pub address: Address,
    pub proto: Proto,
    pub port: PortNo,
}

/// The destination that a rule asks for, where its first two matches are one address and a port
/// (`-d address -p proto --dport port`).
pub(crate) fn destination_of(rule: &Rule) -> Option<Destination>
    ensures { result ≡ Destinations.destination_of rule.now }
{
    destination_asked(rule.matches.as_slice())
}

/// The destination that the first two of these matches ask for.
fn destination_asked(matches: &[Match]) -> Option<Destination>
    ensures { result ≡ Destinations.destination_asked matches.now }
{
    let (first, others) = matches.split_first()?;
    let (second, _) = others.split_first()?;
    let address = address_asked(first)?;
    let (proto, port) = port_asked(second)?;
    Some(Destination {
        address,
        proto,
        port,
    })
}

/// The one address that a match asks of the destination.
fn address_asked(matched: &Match) -> Option<Address>
    ensures { result ≡ Destinations.address_asked matched.now }
{
    match matched {
        Match::Dst { range, not } if !*not && is_single(range) => Some(range.base()),
        _ => None,
    }
}

/// The protocol and port that a match asks.
fn port_asked(matched: &Match) -> Option<(Proto, PortNo)>
    ensures { result ≡ Destinations.port_asked matched.now }
{
    match matched {
        Match::Port { proto, port } => Some((*proto, *port)),
        _ => None,
    }
}

/// Whether a range has one address.
fn is_single(range: &Cidr) -> bool
    ensures { result ≡ (range.now.bits == width range.now.base.family) }
{
    match range.base().family() {
        Family::V4 => range.bits() == 32,
        Family::V6 => range.bits() == 128,
    }
}
