//! Whom the destination of a packet serves: each kind of source, by its least address.
ghost use Rattle.std.specs.Prelude.{◌≡◌, ◌++◌, IfOk, OnErr, OnOk, option_map, slice_get};
ghost use Rattle.std.specs.Prelude.{string_bytes};
ghost use Rattle.std.specs.List.{flat_map};
ghost use Rattle.kp_types.specs.Setting.{config_for};
ghost use Rattle.kp_door_defs.specs.Filter.{filtered as filtered_by};
ghost use Rattle.kp_print.specs.Fronts.{HasFront};
ghost use Rattle.kp_decide.specs.Enough.{AreEnough};
ghost use Rattle.kp_decide.specs.Findings as findings;
ghost use Rattle.kp_decide.specs.Shown.{shown_refusal};
ghost use Rattle.kp_path_defs.specs.PathText.{source_text};
ghost use Rattle.kp_path_defs.specs.Sources as spec;
ghost use Rattle.kp_paths.specs.SourceWords as words;

use crate::source_counts::push_counts;
use crate::source_kinds::{Restricted, kinds_of, restricted_of};
use crate::source_text::{push_closed, push_head, push_offered, verdict_word};
use kp_base::{Address, Config, Family, NoMemory};
use kp_decide::{
    Door, PortRow, PortSource, Refusal, filtered, fitting_doors, is_local, offer_of, taking_door,
};
use kp_print::push;
use kp_types::{Origin, Packet};
use std::alloc::Global;

/// Adds the lines of the kinds of sources of a packet's destination, by a row that has the ports
/// at it. Only memory can be refused; then a front of the lines may stand.
pub(crate) fn push_sources<S: PortSource>(
    alloc: Global,
    family: Family,
    source: &S,
    ports: &S::Row,
    number: u64,
    packet: &Packet,
    text: &mut String,
) -> Result<(), NoMemory>
    requires enough { AreEnough (config_for family (S.config source.now)) packet.now
        (S.Row.infos ports.now) (S.infos source.now family) }
    ensures text { OnOk result (string_bytes text.new ≡ string_bytes text.old
        ++ flat_map (source_text number) (spec.sources_of family
        (config_for family (S.config source.now)) (S.infos source.now family)
        packet.entry.now)) }
    ensures front { OnErr result (HasFront text.new text.old) }
{
    let doors = doors_at(alloc, family, source, ports, packet)?;
    let restricted = restricted_of(alloc, family, doors.as_slice())?;
    let kinds = kinds_of(alloc, family, source.config(), restricted.as_slice())?;
    let other = source.ports_at(alloc, family, &from_elsewhere(packet))?;
    let (doors, restricted) = (doors.as_slice(), restricted.as_slice());
    let rows = rows_of(packet.from, ports, &other);
    push_kinds(
        alloc,
        family,
        source,
        &rows,
        doors,
        restricted,
        number,
        packet,
        kinds.as_slice(),
        text,
    )
}

/// The ports at a destination that are enough for packets from the wire, and for those of the
/// node.
#[derive(Drop)]
pub struct Rows<'a, R> {
    pub wire: &'a R,
    pub node: &'a R,
}

/// Both, of which one is for packets that come from here.
fn rows_of<'a, R: PortRow>(from: Origin, own: &'a R, other: &'a R) -> Rows<'a, R>
    ensures wire { R.infos result.wire.now
        ≡ words.by_origin from (R.infos own.now) (R.infos other.now) }
    ensures node { R.infos result.node.now
        ≡ words.by_origin from (R.infos other.now) (R.infos own.now) }
{
    match from {
        Origin::Wire => Rows {
            wire: own,
            node: other,
        },
        Origin::Node => Rows {
            wire: other,
            node: own,
        },
    }
}

/// The ports for packets that come from here.
fn row_of<'a, R: PortRow>(rows: &Rows<'a, R>, from: Origin) -> &'a R
    ensures { R.infos result.now
        ≡ words.by_origin from (R.infos rows.now.wire.now) (R.infos rows.now.node.now) }
{
    match from {
        Origin::Wire => rows.wire,
        Origin::Node => rows.node,
    }
}

/// The packet as it would come from the node in place of the wire, or from the wire.
fn from_elsewhere(packet: &Packet) -> Packet
    ensures { result ≡ words.from_elsewhere packet.entry.now }
{
    let mut other = *packet;
    other.from = match packet.from {
        Origin::Wire => Origin::Node,
        Origin::Node => Origin::Wire,
    };
    other
}

/// The doors that a packet fits, by a row that has the ports at its destination.
fn doors_at<'a, S: PortSource>(
    alloc: Global,
    family: Family,
    source: &S,
    ports: &'a S::Row,
    packet: &Packet,
) -> Result<Vec<Door<'a>>, NoMemory>
    requires enough { AreEnough (config_for family (S.config source.now)) packet.now
        (S.Row.infos ports.now) (S.infos source.now family) }
    ensures { IfOk result (λ doors. doors.items
        ≡ findings.fitting_doors (config_for family (S.config source.now))
        (S.infos source.now family) packet.entry.now) }
{
    fitting_doors(alloc, source.config(), ports, packet)
}

/// Adds the lines of some kinds of sources.
fn push_kinds<S: PortSource>(
    alloc: Global,
    family: Family,
    source: &S,
    rows: &Rows<'_, S::Row>,
    doors: &[Door<'_>],
    restricted: &[Restricted<'_>],
    number: u64,
    packet: &Packet,
    kinds: &[Address],
    text: &mut String,
) -> Result<(), NoMemory>
    requires rows { words.AreEnoughOfBoth (config_for family (S.config source.now)) packet.now
        (S.Row.infos rows.now.wire.now) (S.Row.infos rows.now.node.now)
        (S.infos source.now family) }
    requires doors { doors.now ≡ findings.fitting_doors (config_for family (S.config source.now))
        (S.infos source.now family) packet.now }
    ensures text { OnOk result (string_bytes text.new ≡ string_bytes text.old
        ++ flat_map (source_text number) (flat_map (spec.source_at
        (config_for family (S.config source.now)) (S.infos source.now family)
        packet.entry.now restricted.now) kinds.now)) }
    ensures front { OnErr result (HasFront text.new text.old) }
{
    for kind in kinds {
        push_kind(
            alloc, family, source, rows, doors, restricted, number, packet, kind, text,
        )?;
    }
    Ok(())
}

/// Adds the line of a kind of source, where a door fits.
fn push_kind<S: PortSource>(
    alloc: Global,
    family: Family,
    source: &S,
    rows: &Rows<'_, S::Row>,
    doors: &[Door<'_>],
    restricted: &[Restricted<'_>],
    number: u64,
    packet: &Packet,
    address: &Address,
    text: &mut String,
) -> Result<(), NoMemory>
    requires rows { words.AreEnoughOfBoth (config_for family (S.config source.now)) packet.now
        (S.Row.infos rows.now.wire.now) (S.Row.infos rows.now.node.now)
        (S.infos source.now family) }
    requires doors { doors.now ≡ findings.fitting_doors (config_for family (S.config source.now))
        (S.infos source.now family) packet.now }
    ensures text { OnOk result (string_bytes text.new ≡ string_bytes text.old
        ++ flat_map (source_text number) (spec.source_at
        (config_for family (S.config source.now)) (S.infos source.now family)
        packet.entry.now restricted.now address.now)) }
    ensures front { OnErr result (HasFront text.new text.old) }
{
    let asked = asked_from(family, source.config(), packet, address);
    let ports = row_of(rows, asked.from);
    push_asked(
        alloc, family, source, ports, doors, restricted, number, &asked, text,
    )
}

/// The packet from another address.
fn asked_from(family: Family, config: &Config, packet: &Packet, address: &Address) -> Packet
    ensures { result
        ≡ spec.asked_from (config_for family config.now) packet.entry.now address.now }
{
    let mut asked = *packet;
    asked.from = origin_of(is_local(config, address));
    asked.source = *address;
    asked
}

/// Where packets of an address come from, by whether it is the node's own.
fn origin_of(node: bool) -> Origin
    ensures { result ≡ spec.origin_by node }
{
    if node { Origin::Node } else { Origin::Wire }
}

/// Adds the line of a kind of source, by a packet from it, where a door fits.
fn push_asked<S: PortSource>(
    alloc: Global,
    family: Family,
    source: &S,
    ports: &S::Row,
    doors: &[Door<'_>],
    restricted: &[Restricted<'_>],
    number: u64,
    asked: &Packet,
    text: &mut String,
) -> Result<(), NoMemory>
    requires enough { AreEnough (config_for family (S.config source.now)) asked.now
        (S.Row.infos ports.now) (S.infos source.now family) }
    requires doors { doors.now ≡ findings.fitting_doors (config_for family (S.config source.now))
        (S.infos source.now family) asked.now }
    ensures text { OnOk result (string_bytes text.new ≡ string_bytes text.old
        ++ flat_map (source_text number) (words.sources_by
        (config_for family (S.config source.now)) restricted.now asked.entry.now.source
        (spec.served_of (config_for family (S.config source.now)) (S.infos source.now family)
        asked.entry.now))) }
    ensures front { OnErr result (HasFront text.new text.old) }
{
    let config = source.config();
    match taking_door(family, config, ports, asked) {
        Some(taking) => {
            let door = &taking.door;
            push_opening(alloc, family, source, restricted, number, asked, door, text)
        }
        None => push_untaken(
            family, config, ports, doors, restricted, number, asked, text,
        ),
    }
}

/// Adds the line of a kind of source that a door takes.
fn push_opening<S: PortSource>(
    alloc: Global,
    family: Family,
    source: &S,
    restricted: &[Restricted<'_>],
    number: u64,
    asked: &Packet,
    door: &Door<'_>,
    text: &mut String,
) -> Result<(), NoMemory>
    ensures text { OnOk result (string_bytes text.new ≡ string_bytes text.old
        ++ source_text number (words.source_by
        (config_for family (S.config source.now)) restricted.now asked.entry.now.source
        (words.opens_at (config_for family (S.config source.now)) (S.infos source.now family)
        asked.entry.now door.now))) }
    ensures front { OnErr result (HasFront text.new text.old) }
{
    let config = source.config();
    let offer = offer_of(family, config, asked, door);
    push_head(text, family, config, restricted, number, &asked.source)?;
    push_counts(alloc, family, source, asked, door, offer.endpoints, text)?;
    push_offered(text, door, offer.kind)
}

/// Adds the line of a kind of source that no door takes, where a door fits.
fn push_untaken<R: PortRow>(
    family: Family,
    config: &Config,
    ports: &R,
    doors: &[Door<'_>],
    restricted: &[Restricted<'_>],
    number: u64,
    asked: &Packet,
    text: &mut String,
) -> Result<(), NoMemory>
    ensures text { OnOk result (string_bytes text.new ≡ string_bytes text.old
        ++ flat_map (source_text number) (words.sources_by (config_for family config.now)
        restricted.now asked.entry.now.source (words.closes_by asked.entry.now
        (filtered_by (config_for family config.now) (R.infos ports.now) asked.entry.now)
        (slice_get doors.now 0)))) }
    ensures front { OnErr result (HasFront text.new text.old) }
{
    let address = &asked.source;
    match filtered(config, ports, asked) {
        Some(line) => {
            let refusal = Some(line.refusal);
            push_closing(
                family, config, restricted, number, address, refusal, &line.door, text,
            )
        }
        None => match doors.first() {
            Some(door) => {
                push_closing(
                    family, config, restricted, number, address, None, door, text,
                )
            }
            None => Ok(()),
        },
    }
}

/// Adds the line of a kind of source that no door takes, by the door that answers it.
fn push_closing(
    family: Family,
    config: &Config,
    restricted: &[Restricted<'_>],
    number: u64,
    address: &Address,
    refusal: Option<Refusal>,
    door: &Door<'_>,
    text: &mut String,
) -> Result<(), NoMemory>
    ensures text { OnOk result (string_bytes text.new ≡ string_bytes text.old
        ++ source_text number (words.source_by (config_for family config.now) restricted.now
        address.now (spec.Closes (words.verdict_if (option_map shown_refusal refusal))
        (spec.cause_at door.now address.now) door.now))) }
    ensures front { OnErr result (HasFront text.new text.old) }
{
    push_head(text, family, config, restricted, number, address)?;
    push(text, verdict_word(refusal))?;
    push_closed(text, door, address)
}
