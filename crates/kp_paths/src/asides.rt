//! The endpoints of a port that a packet isn't sent to, and why.
ghost use Rattle.std.specs.Prelude.{◌≡◌, ◌++◌, IfOk, OnErr, OnOk, option_map, string_bytes};
ghost use Rattle.std.specs.List.{flat_map};
ghost use Rattle.kp_types.specs.Setting.{config_for};
ghost use Rattle.kp_door_defs.specs.Doors as doors;
ghost use Rattle.kp_path_defs.specs.Asides as asides;
ghost use Rattle.kp_path_defs.specs.PathText as texts;
ghost use Rattle.kp_print.specs.Fronts.{HasFront};
ghost use Rattle.kp_paths.specs.Beside as spec;

use crate::among::Among;
use kp_base::{Address, Config, Endpoint, Family, Items, NoMemory, PortKey};
use kp_category::candidates_of;
use kp_decide::{
    ChosenBy, Door, DoorKind, ListKind, Offer, Translation, is_admitted, is_in_cluster, is_local,
    offer_by_policy,
};
use kp_known_ports::sources_of;
use kp_print::{push, push_endpoint, push_labelled};
use kp_report::push_port;
use kp_store::Objects;
use kp_types::{Candidate, Packet, Policy, PortInfo};
use std::alloc::Global;
use std::slice::from_ref;

/// Adds the endpoints of the port of the door that answers a packet, that the packet isn't sent to.
pub(crate) fn push_asides(
    alloc: Global,
    family: Family,
    objects: &Objects,
    config: &Config,
    number: u64,
    packet: &Packet,
    translation: Option<&Translation<'_>>,
    door: &Door<'_>,
    text: &mut String,
) -> Result<(), NoMemory>
    ensures added { OnOk result (string_bytes text.new ≡ string_bytes text.old
        ++ spec.asides_text number (config_for family config.now) door.now packet.entry.now.source
        (option_map (λ t. t.now) translation.entry)
        (asides.entries_of_port family (config_for family config.now) objects.now
        door.now.info.key)) }
    ensures front { OnErr result (HasFront text.new text.old) }
{
    let entries = entries_of_port(alloc, family, objects, config, &door.info.key)?;
    let offer = list_at(family, config, door, &packet.source);
    let reached = Among::of(alloc, reached(translation))?;
    let listed = Listed {
        kind: offer.kind,
        endpoints: Among::of(alloc, offer.endpoints)?,
        admitted: admits(door, &packet.source),
    };
    push_each(
        number,
        &door.info.key,
        &reached,
        &listed,
        entries.as_slice(),
        text,
    )
}

/// The list of a door for a source, and whether that is admitted.
#[derive(Drop)]
struct Listed<'a> {
    kind: ListKind,
    endpoints: Among<'a>,
    admitted: bool,
}

/// The endpoints of a port.
fn entries_of_port(
    alloc: Global,
    family: Family,
    objects: &Objects,
    config: &Config,
    key: &PortKey,
) -> Result<Items<Candidate>, NoMemory>
    ensures { IfOk result (λ cs. cs ≡ asides.entries_of_port family (config_for family config.now)
        objects.now key.now) }
{
    match objects.service(&key.object) {
        Some(service) => {
            let sources = sources_of(alloc, family, objects, config, service)?;
            let slices = sources.slices.as_slice();
            candidates_of(alloc, family, key, &sources.wanted, slices, &config.node)
        }
        None => Ok(Items::new(alloc)),
    }
}

/// The list of a door for a source, whoever is admitted.
fn list_at<'a>(family: Family, config: &Config, door: &Door<'a>, source: &Address) -> Offer<'a>
    ensures { result ≡ asides.list_at (config_for family config.now) door.now.kind door.now.info
        source.now }
{
    match door.kind {
        DoorKind::Cluster => offer_by_policy(door.info, door.info.internal),
        DoorKind::External | DoorKind::Balancer | DoorKind::Node => {
            outer_offer(family, config, door.info, source)
        }
    }
}

/// What the external traffic policy offers.
fn outer_offer<'a>(
    family: Family,
    config: &Config,
    info: &'a PortInfo,
    source: &Address,
) -> Offer<'a>
    ensures { result
        ≡ doors.outer_offer (config_for family config.now) info.now info.now.outer source.now }
{
    match info.outer {
        Policy::Local if !is_in_cluster(family, config, source) && !is_local(config, source) => {
            offer_by_policy(info, Policy::Local)
        }
        _ => offer_by_policy(info, Policy::Cluster),
    }
}

/// Whether a door admits a source: only load balancers ask.
pub(crate) fn admits(door: &Door<'_>, source: &Address) -> bool
    ensures { result ≡ asides.admits door.now.kind door.now.info source.now }
{
    match door.kind {
        DoorKind::Balancer => is_admitted(&door.info.ranges, source),
        DoorKind::Cluster | DoorKind::External | DoorKind::Node => true,
    }
}

/// The endpoints that a packet may be sent to.
fn reached<'a>(translation: Option<&'a Translation<'_>>) -> &'a [Endpoint]
    ensures { result.now ≡ spec.reached_told (option_map (λ t. t.now) translation.entry) }
{
    match translation {
        Some(translation) => match translation.choice.by {
            ChosenBy::Affinity => from_ref(&translation.choice.endpoint),
            ChosenBy::Draws => translation.offer.endpoints,
        },
        None => &[],
    }
}

/// Adds the endpoints of a port that a packet isn't sent to.
fn push_each(
    number: u64,
    port: &PortKey,
    reached: &Among<'_>,
    listed: &Listed<'_>,
    entries: &[Candidate],
    text: &mut String,
) -> Result<(), NoMemory>
    ensures added { OnOk result (string_bytes text.new ≡ string_bytes text.old
        ++ flat_map (spec.aside_words number port.now reached.now
        (record { kind = listed.now.kind; endpoints = listed.now.endpoints }) listed.now.admitted)
        entries.now) }
    ensures front { OnErr result (HasFront text.new text.old) }
{
    for entry in entries {
        push_unless_reached(number, port, reached, listed, entry, text)?;
    }
    Ok(())
}

/// Adds an endpoint, unless the packet may be sent to it.
fn push_unless_reached(
    number: u64,
    port: &PortKey,
    reached: &Among<'_>,
    listed: &Listed<'_>,
    entry: &Candidate,
    text: &mut String,
) -> Result<(), NoMemory>
    ensures added { OnOk result (string_bytes text.new ≡ string_bytes text.old
        ++ spec.aside_words number port.now reached.now
        (record { kind = listed.now.kind; endpoints = listed.now.endpoints }) listed.now.admitted
        entry.now) }
    ensures front { OnErr result (HasFront text.new text.old) }
{
    if reached.has(&entry.endpoint) {
        return Ok(());
    }
    push_aside(text, number, port, &entry.endpoint, why_word(listed, entry))
}

/// Why a packet isn't sent to an endpoint.
fn why_word(listed: &Listed<'_>, entry: &Candidate) -> &'static str
    ensures { result.now ≡ texts.why_text (spec.why_by
        (record { kind = listed.now.kind; endpoints = listed.now.endpoints }) listed.now.admitted
        entry.now) }
{
    if !(entry.ready || entry.serving && entry.terminating) {
        "not ready"
    } else if !listed.endpoints.has(&entry.endpoint) {
        left_out_word(listed.kind, entry)
    } else if listed.admitted {
        "kept elsewhere"
    } else {
        "not admitted"
    }
}

/// Why a list leaves out an endpoint that may be used.
fn left_out_word(kind: ListKind, entry: &Candidate) -> &'static str
    ensures { result.now ≡ texts.why_text (asides.why_left_out kind entry.now) }
{
    match (kind, entry.local) {
        (ListKind::Local, false) => "other node",
        _ if entry.ready => "other zone",
        _ => "terminating",
    }
}

/// Adds the line of an endpoint that a packet isn't sent to.
fn push_aside(
    text: &mut String,
    number: u64,
    port: &PortKey,
    endpoint: &Endpoint,
    why: &str,
) -> Result<(), NoMemory>
    ensures added { OnOk result (string_bytes text.new ≡ string_bytes text.old
        ++ spec.aside_line number port.now endpoint.now why.now) }
    ensures front { OnErr result (HasFront text.new text.old) }
{
    push_head(text, number, port)?;
    push_endpoint(text, endpoint)?;
    push(text, " ")?;
    push(text, why)?;
    push(text, "\n")
}

/// Adds the head of such a line.
fn push_head(text: &mut String, number: u64, port: &PortKey) -> Result<(), NoMemory>
    ensures added { OnOk result (string_bytes text.new ≡ string_bytes text.old
        ++ spec.aside_head number port.now) }
    ensures front { OnErr result (HasFront text.new text.old) }
{
    push_labelled(text, "aside ", number)?;
    push(text, " ")?;
    push_port(text, port)?;
    push(text, ": ")
}
