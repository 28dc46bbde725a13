//! What the writers of a node's families know of the ports of touched Services, brought up to the
//! objects.
ghost use Rattle.std.specs.Prelude.{◌≡◌, ◌+◌, ◌*◌, ◌≤◌, ◌∷◌, [], List, length, map, is_some};
ghost use Rattle.std.specs.Prelude.{false, None, IfOk, IfSome, OnOk};
ghost use Rattle.std.specs.FinMap as finite;
ghost use Rattle.std.specs.List.{filter_map, sum_by};
ghost use Rattle.std.specs.Option.{option_to_list};
ghost use Rattle.kp_base.specs.declared.address.Family.{Family as OneFamily};
ghost use Rattle.kp_base.specs.declared.address.Family.TheVariants.{V6};
ghost use Rattle.kp_base.specs.declared.config.Config.{Config as OneConfig};
ghost use Rattle.kp_base.specs.declared.key.ObjectKey.{ObjectKey as Key};
ghost use Rattle.kp_base.specs.declared.key.PortKey.{PortKey as Port};
ghost use Rattle.kp_types.specs.Setting.{config_for};
ghost use Rattle.kp_object_defs.specs.Objects.{Objects as SomeObjects};
ghost use Rattle.kp_object_defs.specs.OwnKeys.{AreUnderOwnKeys};
ghost use Rattle.kp_object_defs.specs.PortByKey.{info_at};
ghost use Rattle.kp_writer.specs.Known.{ArePortsOf, port_keys_at};
ghost use Rattle.kp_writer.specs.Refresh.{OthersStay};
ghost use Rattle.kp_writer.specs.Written.{setting_in, with_newest};
ghost use Rattle.kp_store.specs.Touched.{is_touched};
ghost use Rattle.kp_plane.specs.Families.{Both, HasDirty, IsNewest, IsWritten, KnowsRest, listed};
ghost use Rattle.kp_plane.specs.Families.{rules_by, rules_in};
ghost use Rattle.kp_plane.specs.Known as spec;

use crate::per_family::PerFamily;
use kp_base::{Config, Copied, Family, NoMemory, ObjectKey, PortKey, Steps};
use kp_known_ports::infos_of_services;
use kp_store::{KeySet, Objects, Touched};
use kp_types::PortInfo;
use kp_writer::Writer;
use std::alloc::Global;
use std::sync::ledger::Ledger;

/// Brings what each family's writer knows of the ports of touched Services up to the objects, in
/// IPv4 and then in IPv6. It takes at most a step for each rule that a family's dirty ports have in
/// its shared chains, and one of the other count for each port that the objects are asked about in
/// each family. Where memory is out, of a port of another Service nothing else is known.
pub(crate) fn refresh_both<L: Ledger, A: Ledger>(
    alloc: Global,
    objects: &Objects,
    touched: &Touched,
    writers: &mut PerFamily<Writer>,
    steps: &mut Steps<L>,
    asked: &mut Steps<A>,
) -> Result<(), NoMemory>
    requires own_keys { AreUnderOwnKeys objects.now }
    requires untouched { Both (KnowsRest objects.now (is_touched touched.now)) writers.old }
    ensures dual { is_some writers.new.six ≡ is_some writers.old.six }
    ensures written { (config : OneConfig) (o : SomeObjects)
        → Both (IsWritten config o) writers.old → Both (IsWritten config o) writers.new }
    ensures untouched { Both (KnowsRest objects.now (is_touched touched.now)) writers.new }
    ensures ok { OnOk result (Both (IsNewest objects.now) writers.new) }
    ensures more { steps.old ≤ steps.new }
    ensures steps { (dirty : OneFamily → List Port)
        → Both (HasDirty objects.now dirty) writers.old
        → steps.new ≤ steps.old + rules_in objects.now dirty writers.old }
    ensures asked { asked.new ≤ asked.old
        + length (listed writers.old) * spec.touched_count objects.now (is_touched touched.now) }
{
    refresh(alloc, objects, touched, &mut writers.four, steps, asked)?;
    refresh_six(alloc, objects, touched, &mut writers.six, steps, asked)
}

/// The same in IPv6, where the node has tables of it.
fn refresh_six<L: Ledger, A: Ledger>(
    alloc: Global,
    objects: &Objects,
    touched: &Touched,
    writer: &mut Option<Writer>,
    steps: &mut Steps<L>,
    asked: &mut Steps<A>,
) -> Result<(), NoMemory>
    requires own_keys { AreUnderOwnKeys objects.now }
    requires untouched { IfSome writer.old (KnowsRest objects.now (is_touched touched.now) V6) }
    ensures dual { is_some writer.new ≡ is_some writer.old }
    ensures written { (config : OneConfig) (o : SomeObjects)
        → IfSome writer.old (IsWritten config o V6) → IfSome writer.new (IsWritten config o V6) }
    ensures untouched { IfSome writer.new (KnowsRest objects.now (is_touched touched.now) V6) }
    ensures ok { OnOk result (IfSome writer.new (IsNewest objects.now V6)) }
    ensures more { steps.old ≤ steps.new }
    ensures steps { (dirty : OneFamily → List Port)
        → IfSome writer.old (HasDirty objects.now dirty V6)
        → steps.new ≤ steps.old
        + sum_by (rules_by objects.now dirty) (option_to_list writer.old) }
    ensures asked { asked.new ≤ asked.old
        + length (option_to_list writer.old)
        * spec.touched_count objects.now (is_touched touched.now) }
{
    match writer {
        Some(writer) => refresh(alloc, objects, touched, writer, steps, asked),
        None => Ok(()),
    }
}

/// Brings what a writer knows of the ports of touched Services up to the objects: of all Services
/// where all were touched. It takes at most a step for each rule that dirty ports have in the
/// shared chains, and one of the other count for each port that the objects are asked about. Where
/// memory is out, of a port of another Service nothing else is known.
fn refresh<L: Ledger, A: Ledger>(
    alloc: Global,
    objects: &Objects,
    touched: &Touched,
    writer: &mut Writer,
    steps: &mut Steps<L>,
    asked: &mut Steps<A>,
) -> Result<(), NoMemory>
    requires own_keys { AreUnderOwnKeys objects.now }
    requires untouched { spec.KnowsOthers (setting_in writer.old) objects.now
        (is_touched touched.now) writer.old.newest }
    ensures written { (config : OneConfig) (o : SomeObjects) (family : OneFamily)
        → IsWritten config o family writer.old → IsWritten config o family writer.new }
    ensures untouched { spec.KnowsOthers (setting_in writer.new) objects.now
        (is_touched touched.now) writer.new.newest }
    ensures ok { OnOk result
        (ArePortsOf (setting_in writer.new) objects.now writer.new.newest) }
    ensures more { steps.old ≤ steps.new }
    ensures steps { (dirty : List Port)
        → spec.AreDirty (setting_in writer.old) writer.old.written objects.now dirty
        → steps.new ≤ steps.old + spec.rules_of (setting_in writer.old) objects.now dirty }
    ensures asked { asked.new ≤ asked.old
        + spec.touched_count objects.now (is_touched touched.now) }
{
    if touched.all {
        let all = all_services(alloc, objects, writer)?;
        refresh_keys(alloc, objects, &all, writer, steps, asked)
    } else {
        refresh_keys(alloc, objects, &touched.keys, writer, steps, asked)
    }
}

/// Brings what a writer knows of the ports of the Services of some keys up to the objects.
fn refresh_keys<L: Ledger, A: Ledger>(
    alloc: Global,
    objects: &Objects,
    keys: &KeySet,
    writer: &mut Writer,
    steps: &mut Steps<L>,
    asked: &mut Steps<A>,
) -> Result<(), NoMemory>
    requires own_keys { AreUnderOwnKeys objects.now }
    requires others { spec.KnowsOthers (setting_in writer.old) objects.now
        (finite.contains_key keys.now) writer.old.newest }
    ensures value { writer.new ≡ with_newest writer.old writer.new.newest }
    ensures others { spec.KnowsOthers (setting_in writer.new) objects.now
        (finite.contains_key keys.now) writer.new.newest }
    ensures ok { OnOk result
        (ArePortsOf (setting_in writer.new) objects.now writer.new.newest) }
    ensures more { steps.old ≤ steps.new }
    ensures steps { (dirty : List Port)
        → spec.AreDirty (setting_in writer.old) writer.old.written objects.now dirty
        → steps.new ≤ steps.old + spec.rules_of (setting_in writer.old) objects.now dirty }
    ensures asked { asked.new ≤ asked.old
        + spec.asked_count objects.now (finite.keys keys.now) }
{
    kp_object_laws::ports_by_key();
    let mut services = keys.keys(alloc)?;
    while let Some(service) = services.pop() {
        refresh_one(alloc, objects, service, writer, steps, asked)?;
    }
    Ok(())
}

/// Brings what a writer knows of the ports of a Service up to the objects.
fn refresh_one<L: Ledger, A: Ledger>(
    alloc: Global,
    objects: &Objects,
    service: &ObjectKey,
    writer: &mut Writer,
    steps: &mut Steps<L>,
    asked: &mut Steps<A>,
) -> Result<(), NoMemory>
    requires { AreUnderOwnKeys objects.now }
    ensures value { writer.new ≡ with_newest writer.old writer.new.newest }
    ensures others { OthersStay service.now writer.old.newest writer.new.newest }
    ensures ok { OnOk result (spec.KnowsService (setting_in writer.old)
        objects.now service.now writer.new.newest) }
    ensures more { steps.old ≤ steps.new }
    ensures steps { steps.new ≤ steps.old
        + spec.made_count (setting_in writer.old) writer.old.written
        objects.now (service.now ∷ []) }
    ensures asked { asked.new ≤ asked.old + spec.asked_count objects.now (service.now ∷ []) }
{
    kp_writer::known_of_service();
    let infos = infos_of(
        alloc,
        writer.family(),
        writer.config(),
        objects,
        service,
        asked,
    )?;
    writer.refresh(alloc, service, infos, steps)
}

/// The Services of the objects, and those of whose ports a writer knows something.
fn all_services(alloc: Global, objects: &Objects, writer: &Writer) -> Result<KeySet, NoMemory>
    ensures ports { IfOk result (λ all. (port : Port)
        → finite.contains_key all port.object ≡ false
        → finite.get writer.now.newest port ≡ None) }
    ensures services { IfOk result (λ all. (key : Key) → finite.contains_key all key ≡ false
        → finite.get objects.now.services key ≡ None) }
{
    let mut all = KeySet::new(alloc);
    let ports = writer.ports(alloc)?;
    let known = objects_of(alloc, &ports)?;
    all.put_all(alloc, &known)?;
    let services = objects.services(alloc)?;
    let stored = each_of(alloc, services.as_slice())?;
    all.put_all(alloc, &stored)?;
    Ok(all)
}

/// The Services of ports.
fn objects_of<'a>(alloc: Global, ports: &[&'a PortKey]) -> Result<Vec<&'a ObjectKey>, NoMemory>
    ensures { IfOk result (λ keys. map (λ k. k.now) keys.items
        ≡ map (λ p. p.now.object) ports.now) }
{
    let mut keys = Vec::new(alloc);
    for port in ports {
        keys.push(&port.object)?;
    }
    Ok(keys)
}

/// Each of some keys.
fn each_of(alloc: Global, keys: &[ObjectKey]) -> Result<Vec<&ObjectKey>, NoMemory>
    ensures { IfOk result (λ each. map (λ k. k.now) each.items ≡ keys.now) }
{
    let mut each = Vec::new(alloc);
    for key in keys {
        each.push(key)?;
    }
    Ok(each)
}

/// What the objects tell a family of the ports of a Service, in order: nothing where it isn't
/// there.
fn infos_of<A: Ledger>(
    alloc: Global,
    family: Family,
    config: &Config,
    objects: &Objects,
    service: &ObjectKey,
    asked: &mut Steps<A>,
) -> Result<Vec<PortInfo>, NoMemory>
    requires { AreUnderOwnKeys objects.now }
    ensures infos { IfOk result (λ infos. infos.items
        ≡ filter_map (info_at family (config_for family config.now) objects.now)
        (port_keys_at objects.now service.now)) }
    ensures asked { asked.new ≤ asked.old + spec.asked_count objects.now (service.now ∷ []) }
{
    match objects.service(service) {
        Some(service) => { infos_of_services(alloc, family, objects, config, &[service], asked) }
        None => Ok(Vec::new(alloc)),
    }
}
