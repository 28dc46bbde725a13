//! How many endpoints a kind of source may use.
ghost use Rattle.std.specs.Prelude.{◌≡◌, ◌++◌, Bool, false, IfOk, OnErr, OnOk, count_by, not};
ghost use Rattle.std.specs.Prelude.{string_bytes};
ghost use Rattle.std.specs.List.{filter};
ghost use Rattle.kp_base.specs.Net.{same_address};
ghost use Rattle.kp_base.specs.declared.key.Endpoint as key;
ghost use Rattle.kp_types.specs.Setting.{config_for};
ghost use Rattle.kp_door_defs.specs.Marks as marks;
ghost use Rattle.kp_print.specs.Fronts.{HasFront};
ghost use Rattle.kp_path_defs.specs.PathText.{counts_text};
ghost use Rattle.kp_path_defs.specs.Sources as spec;

use crate::source_text::push_number_of;
use kp_base::{Address, Config, Endpoint, Family, NoMemory};
use kp_decide::{Door, PortSource, filtered, is_local, is_masqueraded, sent_to};
use kp_print::push_labelled;
use kp_types::{Origin, Packet};
use std::alloc::Global;

/// Adds the counts of a list of endpoints: how many a kind of source may use, by a packet from it,
/// at how many of those it is masqueraded, and at how many the filter refuses it.
pub fn push_counts<S: PortSource>(
    alloc: Global,
    family: Family,
    source: &S,
    packet: &Packet,
    door: &Door<'_>,
    endpoints: &[Endpoint],
    text: &mut String,
) -> Result<(), NoMemory>
    ensures added { OnOk result (string_bytes text.new ≡ string_bytes text.old
        ++ counts_text (spec.counts_of (config_for family (S.config source.now))
        (S.infos source.now family) packet.entry.now door.now endpoints.now)) }
    ensures front { OnErr result (HasFront text.new text.old) }
{
    let served = served_of(alloc, family, source, packet, endpoints)?;
    let masked = masked_among(family, source.config(), packet, door, served.as_slice());
    let refused = refused_among(endpoints, served.as_slice());
    push_numbers(text, served.len(), masked, refused)
}

/// Adds the counts of a list.
fn push_numbers(
    text: &mut String,
    served: usize,
    masked: usize,
    refused: usize,
) -> Result<(), NoMemory>
    ensures added { OnOk result (string_bytes text.new ≡ string_bytes text.old
        ++ counts_text (record { served = served; masked = masked; refused = refused })) }
    ensures front { OnErr result (HasFront text.new text.old) }
{
    push_labelled(text, "open ", served as u64)?;
    push_number_of(text, "masked", masked as u64)?;
    push_number_of(text, "refused", refused as u64)
}

/// How many of some endpoints refuse, where the others serve.
fn refused_among(endpoints: &[Endpoint], served: &[Endpoint]) -> usize
    ensures { (refuses : key.Endpoint → Bool) →
        served.now ≡ filter (λ e. not (refuses e)) endpoints.now →
        result ≡ count_by refuses endpoints.now }
{
    endpoints.len().saturating_sub(served.len())
}

/// Those of some endpoints at which the filter lets a packet pass.
fn served_of<S: PortSource>(
    alloc: Global,
    family: Family,
    source: &S,
    packet: &Packet,
    endpoints: &[Endpoint],
) -> Result<Vec<Endpoint>, NoMemory>
    ensures { IfOk result (λ served. served.items ≡ filter (λ e. not (spec.is_refused_at
        (config_for family (S.config source.now)) (S.infos source.now family)
        packet.entry.now e)) endpoints.now) }
{
    let mut served = Vec::new(alloc);
    for endpoint in endpoints {
        if !is_refused_at(alloc, family, source, packet, endpoint)? {
            served.push(*endpoint)?;
        }
    }
    Ok(served)
}

/// Whether the filter refuses a packet at an endpoint.
fn is_refused_at<S: PortSource>(
    alloc: Global,
    family: Family,
    source: &S,
    packet: &Packet,
    endpoint: &Endpoint,
) -> Result<bool, NoMemory>
    ensures { IfOk result (λ refused. refused ≡ spec.is_refused_at
        (config_for family (S.config source.now)) (S.infos source.now family)
        packet.entry.now endpoint.now) }
{
    let sent = sent_to(packet, endpoint);
    let ports = source.ports_at(alloc, family, &sent)?;
    Ok(filtered(source.config(), &ports, &sent).is_some())
}

/// At how many of some endpoints a packet is masqueraded, whatever its own address.
fn masked_among(
    family: Family,
    config: &Config,
    packet: &Packet,
    door: &Door<'_>,
    endpoints: &[Endpoint],
) -> usize
    ensures { result ≡ count_by (spec.is_masked_at (config_for family config.now) door.now
        packet.entry.now) endpoints.now }
{
    let marked = is_marked_at(family, config, packet, door);
    endpoints
        .iter()
        .filter(|endpoint| marked && leaves_node(family, config, packet, &endpoint.address))
        .count()
}

/// Whether a packet is marked at a door, whatever the endpoint: a packet of the node would be
/// masqueraded at an endpoint of the other family, which is never its own source.
fn is_marked_at(family: Family, config: &Config, packet: &Packet, door: &Door<'_>) -> bool
    ensures { result ≡ marks.marked_at (config_for family config.now) door.now.kind
        door.now.info packet.entry.now.source }
{
    let mut packet = *packet;
    packet.from = Origin::Node;
    let other = Endpoint {
        address: other_address(&packet.source),
        port: packet.port,
    };
    is_masqueraded(family, config, &packet, door, &other)
}

/// An address of the other family.
fn other_address(address: &Address) -> Address
    ensures { same_address result address.now ≡ false }
{
    match address.family() {
        Family::V4 => Address::v6(0),
        Family::V6 => Address::v4(0),
    }
}

/// Whether a packet leaves the node for an address.
fn leaves_node(family: Family, config: &Config, packet: &Packet, target: &Address) -> bool
    ensures { result
        ≡ marks.leaves_node (config_for family config.now) packet.entry.now target.now }
{
    packet.from == Origin::Node || !is_local(config, target)
}
