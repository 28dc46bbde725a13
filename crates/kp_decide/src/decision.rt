//! The decision on a packet: the filter's refusal, or its translation, or neither.
ghost use Rattle.std.specs.Prelude.{◌≡◌, ◌⊎◌, ℕ, true, false, List, cond, IfOk, OnErr, OnOk};
ghost use Rattle.std.specs.Prelude.{None, Some};
ghost use Rattle.kp_choice_defs.specs.Draws.{IsStated, AreDraws};
ghost use Rattle.kp_choice_defs.specs.Names.{endpoint_chain_name};
ghost use Rattle.kp_choice_defs.specs.Recent.{RecentParts};
ghost use Rattle.kp_choice_defs.specs.Settings.{setting_of, settings_of};
ghost use Rattle.kp_types.specs.Packets.{family_of_packet};
ghost use Rattle.kp_types.specs.Setting as setting;
ghost use Rattle.kp_types.specs.Setting.{config_for};
ghost use Rattle.kp_door_defs.specs.Decision as spec;
ghost use Rattle.kp_types.specs.declared.info.PortInfo.{PortInfo};
ghost use Rattle.kp_decide.specs.Enough.{AreEnough};
ghost use Rattle.kp_decide.specs.Findings.{fitting_doors, found_among, found_by, found_from};
ghost use Rattle.kp_decide.specs.Looked.{IsBeforeSet, IsLooked, IsPlaced, IsNewAt, IsNewSource};
ghost use Rattle.kp_decide.specs.Looked.{looked_among, set_if};
ghost use Rattle.kp_decide.specs.Picks.{all_with_pick, with_pick};
ghost use Rattle.kp_decide.specs.Told.{told, translation_told};

use crate::filter::filtered;
use crate::looks::{Looks, OnlyRead};
use crate::made::ObjectPorts;
use crate::masquerade::is_masqueraded;
use crate::picks::Picker;
use crate::sources::{PortRow, PortSource};
use crate::tellers::{AsDecision, Found, Teller};
use crate::translation::{Placed, Translation, remember, translation_of};
use kp_base::{Config, Endpoint, Family, NoMemory};
use kp_draws::DrawSource;
use kp_recent::RecentLists;
use kp_store::Objects;
use kp_types::{Decision, Packet, table_families};
use std::alloc::Global;

/// The decision on a packet by the objects alone, with its reason (Kubernetes documents on virtual
/// IPs and service proxies). The number is the packet's for its draws. The recent lists stay as
/// they are. Only memory can be refused.
pub fn decide<F: Fn(u64, u32) -> u32>(
    alloc: Global,
    objects: &Objects,
    config: &Config,
    number: u64,
    packet: &Packet,
    draws: &DrawSource<F>,
    lists: &RecentLists,
) -> Result<Decision, NoMemory>
    requires { IsStated (F.pre draws.now) (F.post draws.now) }
    ensures { (drawn : ℕ → ℕ) → AreDraws (F.post draws.now) number drawn → IfOk result (λ d. d
        ≡ told (spec.decision_of (settings_of config.now) objects.now packet.entry.now drawn
        lists.now)) }
{
    decide_by(alloc, objects, config, number, packet, draws, lists)
}

/// The same, with an endpoint picked in another way.
pub fn decide_by<P: Picker>(
    alloc: Global,
    objects: &Objects,
    config: &Config,
    number: u64,
    packet: &Packet,
    picker: &P,
    lists: &RecentLists,
) -> Result<Decision, NoMemory>
    requires { P.is_stated picker.now }
    ensures { (drawn : ℕ → ℕ) → P.are_draws picker.now number drawn → IfOk result (λ d. d
        ≡ told (spec.decision_of (all_with_pick P.pick (settings_of config.now)) objects.now
        packet.entry.now drawn lists.now)) }
{
    let source = ObjectPorts { objects, config };
    let mut lists = OnlyRead { lists };
    decide_among(
        alloc,
        &source,
        number,
        packet,
        picker,
        &mut lists,
        &AsDecision,
    )
}

/// What is told of what is found for a packet, and of the decision on it, by the ports of a source.
/// Recent lists that are changed are left as the decision leaves them. Where memory is refused they
/// stand as they were looked at, and no source is set; or as before, where the source has no memory
/// for the ports at the packet's destination. Where neither the source nor the teller refuses, what
/// was refused is the set of a source that its list lacks.
pub fn decide_among<S: PortSource, P: Picker, L: Looks, W: Teller<S::Row>>(
    alloc: Global,
    source: &S,
    number: u64,
    packet: &Packet,
    picker: &P,
    lists: &mut L,
    teller: &W,
) -> Result<W::Told, NoMemory>
    requires { P.is_stated picker.now }
    ensures told { (drawn : ℕ → ℕ) → P.are_draws picker.now number drawn → IfOk result (λ d. d
        ≡ W.told (found_among (all_with_pick P.pick (settings_of (S.config source.now)))
        (S.infos source.now) packet.entry.now drawn (L.lists lists.old))
        (spec.decision_among (all_with_pick P.pick (settings_of (S.config source.now)))
        (S.infos source.now) packet.entry.now drawn (L.lists lists.old))) }
    ensures lists { (drawn : ℕ → ℕ) → P.are_draws picker.now number drawn → OnOk result
        (L.lists lists.new ≡ cond L.changes (spec.decision_among
        (all_with_pick P.pick (settings_of (S.config source.now)))
        (S.infos source.now) packet.entry.now drawn (L.lists lists.old)).lists
        (L.lists lists.old)) }
    ensures refused { OnErr result (IsBeforeSet S.refuses L.changes
        (settings_of (S.config source.now)) (S.infos source.now) packet.entry.now
        (L.lists lists.old) (L.lists lists.new)) }
    ensures set { (drawn : ℕ → ℕ) → P.are_draws picker.now number drawn → S.refuses ≡ false →
        W.refuses ≡ false → OnErr result (IsNewSource L.changes
        (with_pick P.pick (setting_of (family_of_packet packet.entry.now) (S.config source.now)))
        (S.infos source.now (family_of_packet packet.entry.now)) packet.entry.now drawn
        (L.lists lists.old)) }
{
    let family = packet.target.family();
    let config = source.config();
    if !has_tables_of(family, config) {
        let found = Found {
            ports: None,
            translation: None,
            masked: false,
            line: None,
        };
        return teller.tell(alloc, family, config, packet, &found);
    }
    decide_in(alloc, family, source, number, packet, picker, lists, teller)
}

/// Whether the node has tables of a family.
fn has_tables_of(family: Family, config: &Config) -> bool
    ensures { result ≡ setting.has_tables_of family (settings_of config.now) }
{
    table_families(config).contains(&family)
}

/// What is told of a packet by what a family knows of the ports.
fn decide_in<S: PortSource, P: Picker, L: Looks, W: Teller<S::Row>>(
    alloc: Global,
    family: Family,
    source: &S,
    number: u64,
    packet: &Packet,
    picker: &P,
    lists: &mut L,
    teller: &W,
) -> Result<W::Told, NoMemory>
    requires { P.is_stated picker.now }
    ensures told { (drawn : ℕ → ℕ) → P.are_draws picker.now number drawn → IfOk result (λ d. d
        ≡ W.told (found_from (with_pick P.pick (setting_of family (S.config source.now)))
        (S.infos source.now family) packet.entry.now drawn (L.lists lists.old))
        (spec.decision_from (with_pick P.pick (setting_of family (S.config source.now)))
        (S.infos source.now family) packet.entry.now drawn (L.lists lists.old))) }
    ensures lists { (drawn : ℕ → ℕ) → P.are_draws picker.now number drawn → OnOk result
        (L.lists lists.new ≡ cond L.changes (spec.decision_from
        (with_pick P.pick (setting_of family (S.config source.now)))
        (S.infos source.now family) packet.entry.now drawn (L.lists lists.old)).lists
        (L.lists lists.old)) }
    ensures refused { OnErr result (IsLooked S.refuses (L.lists lists.old) (cond L.changes
        (looked_among (setting_of family (S.config source.now)) (S.infos source.now family)
        packet.entry.now (L.lists lists.old)) (L.lists lists.old)) (L.lists lists.new)) }
    ensures set { (drawn : ℕ → ℕ) → P.are_draws picker.now number drawn → S.refuses ≡ false →
        W.refuses ≡ false → OnErr result (IsNewSource L.changes
        (with_pick P.pick (setting_of family (S.config source.now)))
        (S.infos source.now family) packet.entry.now drawn (L.lists lists.old)) }
{
    let config = source.config();
    let ports = source.ports_at(alloc, family, packet)?;
    match translation_of(family, config, &ports, number, packet, picker, lists) {
        Some(placed) => tell_then_remember(
            alloc, family, source, &ports, packet, &placed, lists, teller,
        ),
        None => tell_untranslated(alloc, family, config, &ports, packet, teller),
    }
}

/// What is told of a packet that is translated, whose source is then set. Without memory nothing
/// changes.
fn tell_then_remember<S: PortSource, L: Looks, W: Teller<S::Row>>(
    alloc: Global,
    family: Family,
    source: &S,
    ports: &S::Row,
    packet: &Packet,
    placed: &Placed<'_>,
    lists: &mut L,
    teller: &W,
) -> Result<W::Told, NoMemory>
    requires { IsPlaced (S.Row.infos ports.now) placed.now.port placed.now.translation }
    ensures told { (t : spec.Translation) (before : RecentParts) →
        fitting_doors (config_for family (S.config source.now)) (S.Row.infos ports.now)
        packet.entry.now ≡ fitting_doors (config_for family (S.config source.now))
        (S.infos source.now family) packet.entry.now →
        placed.now.translation ≡ translation_told t → IfOk result (λ d. d
        ≡ W.told (found_by (config_for family (S.config source.now))
        (S.infos source.now family) packet.entry.now (Some t))
        (spec.decision_by (config_for family (S.config source.now))
        (S.infos source.now family) packet.entry.now before (Some t))) }
    ensures ok { OnOk result (L.lists lists.new ≡ cond L.changes
        (set_if placed.now.translation.door.info.affinity
        (endpoint_chain_name (S.Row.name_length ports.now)
        placed.now.translation.door.info.key placed.now.translation.choice.endpoint)
        packet.entry.now.source packet.entry.now.now (L.lists lists.old)) (L.lists lists.old)) }
    ensures err { OnErr result (L.lists lists.new ≡ L.lists lists.old) }
    ensures set { S.refuses ≡ false → W.refuses ≡ false → OnErr result (IsNewAt L.changes
        (S.Row.name_length ports.now) placed.now.translation packet.entry.now.source
        (L.lists lists.old)) }
{
    let told = tell_translated(
        alloc,
        family,
        source,
        ports,
        packet,
        &placed.translation,
        teller,
    )?;
    remember(ports, packet, placed, lists)?;
    Ok(told)
}

/// What is told of a packet that is translated.
fn tell_translated<S: PortSource, W: Teller<S::Row>>(
    alloc: Global,
    family: Family,
    source: &S,
    ports: &S::Row,
    packet: &Packet,
    translation: &Translation<'_>,
    teller: &W,
) -> Result<W::Told, NoMemory>
    ensures told { (t : spec.Translation) (lists : RecentParts) →
        fitting_doors (config_for family (S.config source.now)) (S.Row.infos ports.now)
        packet.entry.now ≡ fitting_doors (config_for family (S.config source.now))
        (S.infos source.now family) packet.entry.now →
        translation.now ≡ translation_told t → IfOk result (λ d. d
        ≡ W.told (found_by (config_for family (S.config source.now))
        (S.infos source.now family) packet.entry.now (Some t))
        (spec.decision_by (config_for family (S.config source.now))
        (S.infos source.now family) packet.entry.now lists (Some t))) }
    ensures refused { OnErr result ((S.refuses ≡ true) ⊎ (W.refuses ≡ true)) }
{
    let config = source.config();
    let endpoint = &translation.choice.endpoint;
    let sent = sent_to(packet, endpoint);
    let answering = source.ports_at(alloc, family, &sent)?;
    let found = Found {
        ports: Some(ports),
        translation: Some(translation),
        masked: is_masqueraded(family, config, packet, &translation.door, endpoint),
        line: filtered(config, &answering, &sent),
    };
    teller.tell(alloc, family, config, packet, &found)
}

/// What is told of a packet that isn't translated, by the ports that it may be for.
fn tell_untranslated<R: PortRow, W: Teller<R>>(
    alloc: Global,
    family: Family,
    config: &Config,
    ports: &R,
    packet: &Packet,
    teller: &W,
) -> Result<W::Told, NoMemory>
    ensures told { (lists : RecentParts) (all : List PortInfo) →
        AreEnough (config_for family config.now) packet.entry.now (R.infos ports.now) all →
        IfOk result (λ d. d ≡ W.told
        (found_by (config_for family config.now) all packet.entry.now None)
        (spec.decision_by (config_for family config.now) all packet.entry.now lists None)) }
    ensures refused { OnErr result (W.refuses ≡ true) }
{
    let found = Found {
        ports: Some(ports),
        translation: None,
        masked: false,
        line: filtered(config, ports, packet),
    };
    teller.tell(alloc, family, config, packet, &found)
}

/// A packet with the destination of an endpoint.
pub fn sent_to(packet: &Packet, endpoint: &Endpoint) -> Packet
    ensures { result ≡ spec.sent_to packet.entry.now endpoint.now }
{
    Packet {
        from: packet.from,
        source: packet.source,
        target: endpoint.address,
        proto: packet.proto,
        port: endpoint.port,
        now: packet.now,
    }
}
