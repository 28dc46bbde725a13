//! The lines of all ports that a sync changed.
ghost use Rattle.std.specs.Prelude.{◌≡◌, ◌++◌, map, OnErr, OnOk, option_copied, string_bytes};
ghost use Rattle.std.specs.FinMap.{find};
ghost use Rattle.std.specs.Map.Iter.{deref_pair};
ghost use Rattle.kp_base.specs.Keys.{port_key_cmp};
ghost use Rattle.kp_base.specs.declared.address.Family.TheVariants.{V4, V6};
ghost use Rattle.kp_choice_defs.specs.Settings.{settings_of};
ghost use Rattle.kp_object_defs.specs.Objects as cluster;
ghost use Rattle.kp_object_defs.specs.OwnKeys.{AreUnderOwnKeys};
ghost use Rattle.kp_object_defs.specs.PortInfo.{infos_by_family};
ghost use Rattle.kp_print.specs.Fronts.{HasFront};
ghost use Rattle.kp_change_defs.specs.ChangeText.{change_text};
ghost use Rattle.kp_changes.specs.Lines as spec;

use crate::after::After;
use crate::names::{by_name, dirty_named, distinct_names, names_of_both};
use crate::port::push_port_lines;
use kp_base::{Config, Family, NoMemory, PortKey};
use kp_history_defs::DirtyPort;
use kp_port_by_key::info_at;
use kp_store::Objects;
use std::alloc::Global;
use std::collections::BTreeMap;

/// Adds what a sync changed for those who connect: a line for each door that differs from before,
/// by the ports of which each family knows something else than before.
pub fn push_changes(
    alloc: Global,
    config: &Config,
    objects: &Objects,
    four: &[DirtyPort],
    six: &[DirtyPort],
    text: &mut String,
) -> Result<(), NoMemory>
    ensures added { (before : cluster.Objects) → AreUnderOwnKeys before
        → AreUnderOwnKeys objects.now
        → four.now ≡ spec.dirty_in config.now before objects.now V4
        → six.now ≡ spec.dirty_in config.now before objects.now V6
        → OnOk result (string_bytes text.new ≡ string_bytes text.old
        ++ change_text (settings_of config.now) (infos_by_family (settings_of config.now) before)
        (infos_by_family (settings_of config.now) objects.now)) }
    ensures front { OnErr result (HasFront text.new text.old) }
{
    kp_history_laws::infos_by_name();
    let mut now = After::new(alloc, config, objects);
    push_dirty(alloc, &mut now, four, six, text)
}

/// Adds the lines of dirty ports of both families, port by port.
fn push_dirty(
    alloc: Global,
    now: &mut After<'_>,
    four: &[DirtyPort],
    six: &[DirtyPort],
    text: &mut String,
) -> Result<(), NoMemory>
    ensures added { OnOk result (string_bytes text.new ≡ string_bytes text.old
        ++ spec.dirty_text now.old.synced.config now.old.synced.objects four.now six.now) }
    ensures front { OnErr result (HasFront text.new text.old) }
    ensures same { now.new.synced ≡ now.old.synced }
{
    let names = names_of_both(alloc, four, six)?;
    let distinct = distinct_names(alloc, names.as_slice())?;
    let four = by_name(alloc, four)?;
    let six = by_name(alloc, six)?;
    for name in distinct.as_slice() {
        push_named(alloc, now, &four, &six, *name, text)?;
    }
    Ok(())
}

/// Adds the lines of a port in both families, where it is dirty there.
fn push_named<'a>(
    alloc: Global,
    now: &mut After<'_>,
    four: &BTreeMap<&'a PortKey, &'a DirtyPort>,
    six: &BTreeMap<&'a PortKey, &'a DirtyPort>,
    name: &'a PortKey,
    text: &mut String,
) -> Result<(), NoMemory>
    ensures added { OnOk result (string_bytes text.new ≡ string_bytes text.old
        ++ (spec.dirty_lines V4 now.old.synced.config now.old.synced.objects
        (find port_key_cmp name.now (map deref_pair four.now.entries))
        ++ spec.dirty_lines V6 now.old.synced.config now.old.synced.objects
        (find port_key_cmp name.now (map deref_pair six.now.entries)))) }
    ensures front { OnErr result (HasFront text.new text.old) }
    ensures same { now.new.synced ≡ now.old.synced }
{
    let (four, six) = (dirty_named(four, name), dirty_named(six, name));
    push_dirty_port(alloc, text, Family::V4, now, four)?;
    push_dirty_port(alloc, text, Family::V6, now, six)
}

/// Adds the lines of a port in a family, where it is dirty there.
fn push_dirty_port(
    alloc: Global,
    text: &mut String,
    family: Family,
    now: &mut After<'_>,
    dirty: Option<&DirtyPort>,
) -> Result<(), NoMemory>
    ensures added { OnOk result (string_bytes text.new ≡ string_bytes text.old
        ++ spec.dirty_lines family now.old.synced.config now.old.synced.objects (option_copied dirty.entry)) }
    ensures front { OnErr result (HasFront text.new text.old) }
    ensures same { now.new.synced ≡ now.old.synced }
{
    let Some(port) = dirty else {
        return Ok(());
    };
    let after = info_at(alloc, family, now.config(), now.objects(), &port.key)?;
    push_port_lines(
        alloc,
        text,
        family,
        now,
        port.before.as_ref(),
        after.as_ref(),
    )
}
