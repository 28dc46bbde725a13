//! The lines behind the explanation of a packet.
ghost use Rattle.std.specs.Prelude.{◌≡◌, ◌++◌, false, Some, None, OnErr, OnOk, option_map, string_bytes};
ghost use Rattle.std.specs.List.{find};
ghost use Rattle.kp_types.specs.Setting as setting;
ghost use Rattle.kp_types.specs.Setting.{config_for};
ghost use Rattle.kp_choice_defs.specs.Settings.{setting_of, settings_of};
ghost use Rattle.kp_door_defs.specs.Doors.{doors_of, fits};
ghost use Rattle.kp_decide.specs.Enough.{AreEnough as AreEnoughFor};
ghost use Rattle.kp_path_defs.specs.Asides.{entries_of_port};
ghost use Rattle.kp_path_defs.specs.PathText as texts;
ghost use Rattle.kp_print.specs.Fronts.{HasFront};
ghost use Rattle.kp_paths.specs.Lines as spec;
ghost use Rattle.kp_paths.specs.Words.{decided_words, path_words};

use crate::asides::push_asides;
use crate::chances::WHOLE;
use crate::paths::{FirstPlace, push_routes};
use crate::routes::{Stand, push_path};
use crate::sources::push_sources;
use kp_base::{Config, Family, NoMemory};
use kp_decide::{
    Door, Line, ObjectPorts, OnlyRead, PortSource, Translation, filtered, fitting_doors,
    translation_of,
};
use kp_recent::RecentLists;
use kp_store::Objects;
use kp_types::{Packet, table_families};
use std::alloc::Global;

/// Adds the lines behind the explanation of the packet of the line of this number: each path with
/// its chance, the other endpoints of the answering door's port and why, and whom the destination
/// serves. Nothing is remembered. Only memory can be refused; then a front of the lines may stand.
pub fn push_paths(
    alloc: Global,
    objects: &Objects,
    config: &Config,
    number: u64,
    packet: &Packet,
    lists: &RecentLists,
    text: &mut String,
) -> Result<(), NoMemory>
    ensures text { OnOk result (string_bytes text.new ≡ string_bytes text.old
        ++ texts.lines_of (settings_of config.now) objects.now number packet.entry.now lists.now) }
    ensures front { OnErr result (HasFront text.new text.old) }
{
    let family = packet.target.family();
    if !has_tables_of(family, config) {
        return push_only(text, number, &None);
    }
    let source = ObjectPorts { objects, config };
    push_lines(alloc, family, &source, objects, number, packet, lists, text)
}

/// Whether the node has tables of a family.
fn has_tables_of(family: Family, config: &Config) -> bool
    ensures { result ≡ setting.has_tables_of family (settings_of config.now) }
{
    table_families(config).contains(&family)
}

/// The stand of the only path of a packet.
fn only(number: u64) -> Stand
    ensures { result ≡ spec.only number }
{
    Stand {
        number,
        place: 1,
        count: 1,
        chance: WHOLE,
    }
}

/// Adds the only path of a packet that isn't translated.
fn push_only(text: &mut String, number: u64, line: &Option<Line<'_>>) -> Result<(), NoMemory>
    ensures added { OnOk result (string_bytes text.new ≡ string_bytes text.old
        ++ path_words (spec.only number) (decided_words line.now None false)) }
    ensures front { OnErr result (HasFront text.new text.old) }
{
    push_path(text, only(number), line.as_ref(), None, false)
}

/// Adds the lines by what a family knows of the ports.
fn push_lines<S: PortSource>(
    alloc: Global,
    family: Family,
    source: &S,
    objects: &Objects,
    number: u64,
    packet: &Packet,
    lists: &RecentLists,
    text: &mut String,
) -> Result<(), NoMemory>
    ensures text { OnOk result (string_bytes text.new ≡ string_bytes text.old
        ++ texts.lines_in (setting_of family (S.config source.now)) (S.infos source.now family)
        (entries_of_port family (config_for family (S.config source.now)) objects.now)
        number packet.entry.now lists.now) }
    ensures front { OnErr result (HasFront text.new text.old) }
{
    let config = source.config();
    let ports = source.ports_at(alloc, family, packet)?;
    let mut looks = OnlyRead { lists };
    match translation_of(
        family,
        config,
        &ports,
        number,
        packet,
        &FirstPlace,
        &mut looks,
    ) {
        Some(placed) => push_translated(
            alloc,
            family,
            source,
            &ports,
            objects,
            number,
            packet,
            &placed.translation,
            text,
        ),
        None => push_untranslated(alloc, family, source, &ports, objects, number, packet, text),
    }
}

/// Adds the lines of a packet that is translated.
fn push_translated<S: PortSource>(
    alloc: Global,
    family: Family,
    source: &S,
    ports: &S::Row,
    objects: &Objects,
    number: u64,
    packet: &Packet,
    translation: &Translation<'_>,
    text: &mut String,
) -> Result<(), NoMemory>
    requires enough { AreEnoughFor (config_for family (S.config source.now)) packet.now
        (S.Row.infos ports.now) (S.infos source.now family) }
    ensures text { OnOk result (string_bytes text.new ≡ string_bytes text.old
        ++ spec.lines_told (config_for family (S.config source.now)) family
        (S.infos source.now family)
        (entries_of_port family (config_for family (S.config source.now)) objects.now)
        number packet.entry.now (Some translation.now)) }
    ensures front { OnErr result (HasFront text.new text.old) }
{
    push_routes(alloc, family, source, number, packet, translation, text)?;
    push_behind(
        alloc,
        family,
        source,
        ports,
        objects,
        number,
        packet,
        Some(translation),
        Some(&translation.door),
        text,
    )
}

/// Adds the lines of a packet that isn't translated.
fn push_untranslated<S: PortSource>(
    alloc: Global,
    family: Family,
    source: &S,
    ports: &S::Row,
    objects: &Objects,
    number: u64,
    packet: &Packet,
    text: &mut String,
) -> Result<(), NoMemory>
    requires enough { AreEnoughFor (config_for family (S.config source.now)) packet.now
        (S.Row.infos ports.now) (S.infos source.now family) }
    ensures text { OnOk result (string_bytes text.new ≡ string_bytes text.old
        ++ spec.lines_told (config_for family (S.config source.now)) family
        (S.infos source.now family)
        (entries_of_port family (config_for family (S.config source.now)) objects.now)
        number packet.entry.now None) }
    ensures front { OnErr result (HasFront text.new text.old) }
{
    let config = source.config();
    let line = filtered(config, ports, packet);
    push_only(text, number, &line)?;
    match line {
        Some(line) => push_behind(
            alloc,
            family,
            source,
            ports,
            objects,
            number,
            packet,
            None,
            Some(&line.door),
            text,
        ),
        None => push_fitting(alloc, family, source, ports, objects, number, packet, text),
    }
}

/// Adds what stands behind the path of a packet that no door takes and no line of the filter
/// refuses.
fn push_fitting<S: PortSource>(
    alloc: Global,
    family: Family,
    source: &S,
    ports: &S::Row,
    objects: &Objects,
    number: u64,
    packet: &Packet,
    text: &mut String,
) -> Result<(), NoMemory>
    requires enough { AreEnoughFor (config_for family (S.config source.now)) packet.now
        (S.Row.infos ports.now) (S.infos source.now family) }
    ensures text { OnOk result (string_bytes text.new ≡ string_bytes text.old
        ++ spec.behind_told (config_for family (S.config source.now)) family
        (S.infos source.now family)
        (entries_of_port family (config_for family (S.config source.now)) objects.now)
        number packet.entry.now None
        (find (fits (S.config source.now).addresses packet.entry.now)
        (doors_of (S.infos source.now family)))) }
    ensures front { OnErr result (HasFront text.new text.old) }
{
    let doors = fitting_doors(alloc, source.config(), ports, packet)?;
    push_behind(
        alloc,
        family,
        source,
        ports,
        objects,
        number,
        packet,
        None,
        doors.as_slice().first(),
        text,
    )
}

/// Adds what stands behind the paths of a packet that some door answers.
fn push_behind<S: PortSource>(
    alloc: Global,
    family: Family,
    source: &S,
    ports: &S::Row,
    objects: &Objects,
    number: u64,
    packet: &Packet,
    translation: Option<&Translation<'_>>,
    door: Option<&Door<'_>>,
    text: &mut String,
) -> Result<(), NoMemory>
    requires enough { AreEnoughFor (config_for family (S.config source.now)) packet.now
        (S.Row.infos ports.now) (S.infos source.now family) }
    ensures text { OnOk result (string_bytes text.new ≡ string_bytes text.old
        ++ spec.behind_told (config_for family (S.config source.now)) family
        (S.infos source.now family)
        (entries_of_port family (config_for family (S.config source.now)) objects.now)
        number packet.entry.now (option_map (λ t. t.now) translation.entry)
        (option_map (λ d. d.now) door.entry)) }
    ensures front { OnErr result (HasFront text.new text.old) }
{
    match door {
        Some(door) => {
            let config = source.config();
            push_asides(
                alloc,
                family,
                objects,
                config,
                number,
                packet,
                translation,
                door,
                text,
            )?;
            push_sources(alloc, family, source, ports, number, packet, text)
        }
        None => Ok(()),
    }
}
