//! The endpoints that a door offers to a source.
ghost use Rattle.std.specs.Prelude.{◌≡◌};
ghost use Rattle.std.specs.List.{list_any};
ghost use Rattle.kp_base.specs.Net.{range_contains};
ghost use Rattle.kp_types.specs.Setting.{config_for};
ghost use Rattle.kp_door_defs.specs.Doors as spec;

use crate::doors::Door;
use crate::local::{is_in_cluster, is_local};
use kp_base::{Address, Cidr, Config, Endpoint, Family, Items};
use kp_types::{DoorKind, ListKind, Packet, Policy, PortInfo};
use std::marker::Model;

/// What a door offers to a source: a list of endpoints, and which one.
#[derive(Drop)]
pub struct Offer<'a> {
    pub kind: ListKind,
    pub endpoints: &'a [Endpoint],
}

impl<'a> Model for Offer<'a> {
    ghost use Rattle.kp_door_defs.specs.Doors as spec;
    ghost use Rattle.kp_decide.specs.Stored.{offer_code};

    ghost Value = { spec.Offer };

    ghost coded = { offer_code };

    ghost view = { λ o. record { kind = o.kind; endpoints = o.endpoints.now } };
}

/// What a door offers to a packet.
pub fn offer_of<'a>(family: Family, config: &Config, packet: &Packet, door: &Door<'a>) -> Offer<'a>
    ensures { result ≡ spec.offer_of (config_for family config.now) packet.entry.now door.now }
{
    let info = door.info;
    match door.kind {
        DoorKind::Cluster => offer_by_policy(info, info.internal),
        DoorKind::External | DoorKind::Node => outer_offer(family, config, info, &packet.source),
        DoorKind::Balancer => balancer_offer(family, config, info, &packet.source),
    }
}

/// What a load-balancer address offers: nothing to a source outside the ranges.
fn balancer_offer<'a>(
    family: Family,
    config: &Config,
    info: &'a PortInfo,
    source: &Address,
) -> Offer<'a>
    ensures { result ≡ spec.offer_if (spec.is_admitted info.now.ranges source.now)
        (spec.outer_offer (config_for family config.now) info.now info.now.outer source.now) }
{
    let offer = outer_offer(family, config, info, source);
    if is_admitted(&info.ranges, source) {
        offer
    } else {
        Offer {
            kind: offer.kind,
            endpoints: &[],
        }
    }
}

/// What the external traffic policy offers.
fn outer_offer<'a>(
    family: Family,
    config: &Config,
    info: &'a PortInfo,
    source: &Address,
) -> Offer<'a>
    ensures { result
        ≡ spec.outer_offer (config_for family config.now) info.now info.now.outer source.now }
{
    match info.outer {
        Policy::Local if !is_in_cluster(family, config, source) && !is_local(config, source) => {
            offer_by_policy(info, Policy::Local)
        }
        _ => offer_by_policy(info, Policy::Cluster),
    }
}

/// The list of a policy.
pub fn offer_by_policy(info: &PortInfo, policy: Policy) -> Offer<'_>
    ensures { result ≡ spec.offer_by_policy info.now policy }
{
    match policy {
        Policy::Cluster => Offer {
            kind: ListKind::Cluster,
            endpoints: info.lists.cluster.as_slice(),
        },
        Policy::Local => Offer {
            kind: ListKind::Local,
            endpoints: info.lists.local.as_slice(),
        },
    }
}

/// Whether a source is in the ranges, if there are any.
pub fn is_admitted(ranges: &Option<Items<Cidr>>, source: &Address) -> bool
    ensures { result ≡ spec.is_admitted ranges.now source.now }
{
    match ranges {
        Some(ranges) => is_in_some(ranges.as_slice(), source),
        None => true,
    }
}

/// Whether a source is in one of some ranges.
fn is_in_some(ranges: &[Cidr], source: &Address) -> bool
    ensures { result ≡ list_any (λ r. range_contains r source.now) ranges.now }
{
    ranges.iter().any(|range| range.contains(source))
}
