//! Which packets are masqueraded.
ghost use Rattle.std.specs.Prelude.{◌≡◌, ◌||◌, not};
ghost use Rattle.kp_base.specs.Net.{is_local_address};
ghost use Rattle.kp_types.specs.Setting.{config_for};
ghost use Rattle.kp_door_defs.specs.Marks as spec;

use crate::doors::Door;
use crate::local::{is_in_cluster, is_local};
use kp_base::{Address, Config, Endpoint, Family};
use kp_types::{DoorKind, Origin, Packet, Policy, cluster_range};

/// Whether the source of a packet is masqueraded, which goes through a door to an endpoint.
pub fn is_masqueraded(
    family: Family,
    config: &Config,
    packet: &Packet,
    door: &Door<'_>,
    endpoint: &Endpoint,
) -> bool
    ensures { result ≡ spec.is_masqueraded (config_for family config.now) door.now.kind
        door.now.info packet.entry.now endpoint.now }
{
    is_marked(family, config, door, &packet.source, endpoint)
        && leaves_node(config, packet, &endpoint.address)
}

/// Whether a packet is marked: one to its own source always is.
fn is_marked(
    family: Family,
    config: &Config,
    door: &Door<'_>,
    source: &Address,
    endpoint: &Endpoint,
) -> bool
    ensures { result ≡ spec.is_marked (config_for family config.now) door.now.kind door.now.info
        source.now endpoint.now }
{
    endpoint.address == *source || marked_at(family, config, door, source)
}

/// Whether packets of a source are marked at a door, whatever the endpoint.
fn marked_at(family: Family, config: &Config, door: &Door<'_>, source: &Address) -> bool
    ensures { result
        ≡ spec.marked_at (config_for family config.now) door.now.kind door.now.info source.now }
{
    match door.kind {
        DoorKind::Cluster => marked_inside(family, config, source),
        DoorKind::External | DoorKind::Balancer | DoorKind::Node => {
            marked_outside(family, config, door.info.outer, source)
        }
    }
}

/// Whether packets of a source are marked at a cluster address.
fn marked_inside(family: Family, config: &Config, source: &Address) -> bool
    ensures { result ≡ spec.marked_inside (config_for family config.now) source.now }
{
    config.masquerade_all
        || cluster_range(config, family).is_some() && !is_in_cluster(family, config, source)
}

/// Whether packets of a source are marked at a door that is reached from outside.
fn marked_outside(family: Family, config: &Config, policy: Policy, source: &Address) -> bool
    ensures { result ≡ spec.marked_outside (config_for family config.now) policy source.now }
{
    match policy {
        Policy::Cluster => true,
        Policy::Local => is_local(config, source) && !is_in_cluster(family, config, source),
    }
}

/// Whether a packet passes POSTROUTING: it comes from this node, or goes elsewhere.
fn leaves_node(config: &Config, packet: &Packet, target: &Address) -> bool
    ensures { result ≡ (spec.is_from_node packet.entry.now.from
        || not (is_local_address config.now.addresses target.now)) }
{
    packet.from == Origin::Node || !is_local(config, target)
}
