//! The lines of a port in a family.
ghost use Rattle.std.specs.Prelude.{◌≡◌, ◌++◌, OnErr, OnOk, option_copied, string_bytes};
ghost use Rattle.std.specs.List.{flat_map};
ghost use Rattle.kp_print.specs.Fronts.{HasFront};
ghost use Rattle.kp_change_defs.specs.DoorChanges as doors;
ghost use Rattle.kp_changes.specs.Lines as spec;

use crate::after::After;
use crate::change::{DoorChange, change_from, change_to, differs, doors_of_port, has_door};
use crate::line::push_line;
use kp_base::{Family, NoMemory};
use kp_decide::Door;
use kp_types::PortInfo;
use std::alloc::Global;

/// Adds the lines of a port in a family, by what was known of it and what is known now.
pub fn push_port_lines<'a>(
    alloc: Global,
    text: &mut String,
    family: Family,
    now: &mut After<'_>,
    before: Option<&'a PortInfo>,
    after: Option<&'a PortInfo>,
) -> Result<(), NoMemory>
    ensures added { OnOk result (string_bytes text.new ≡ string_bytes text.old
        ++ spec.lines_of family now.old.synced.config now.old.synced.objects
        (doors.door_changes (option_copied before.entry) (option_copied after.entry))) }
    ensures front { OnErr result (HasFront text.new text.old) }
    ensures same { now.new.synced ≡ now.old.synced }
{
    let before = doors_of_port(alloc, before)?;
    let after = doors_of_port(alloc, after)?;
    let (before, after) = (before.as_slice(), after.as_slice());
    push_there(alloc, text, family, now, before, after)?;
    push_gone(alloc, text, family, now, before, after)
}

/// Adds the lines of the doors that are there after.
fn push_there<'a>(
    alloc: Global,
    text: &mut String,
    family: Family,
    now: &mut After<'_>,
    before: &[Door<'a>],
    after: &[Door<'a>],
) -> Result<(), NoMemory>
    ensures added { OnOk result (string_bytes text.new ≡ string_bytes text.old
        ++ flat_map (λ d. spec.line_if family now.old.synced.config now.old.synced.objects
        (doors.change_to before.now d)) after.now) }
    ensures front { OnErr result (HasFront text.new text.old) }
    ensures same { now.new.synced ≡ now.old.synced }
{
    for door in after {
        let change = change_to(before, door);
        push_if_differs(alloc, text, family, now, &change)?;
    }
    Ok(())
}

/// Adds the lines of the doors that went.
fn push_gone<'a>(
    alloc: Global,
    text: &mut String,
    family: Family,
    now: &mut After<'_>,
    before: &[Door<'a>],
    after: &[Door<'a>],
) -> Result<(), NoMemory>
    ensures added { OnOk result (string_bytes text.new ≡ string_bytes text.old
        ++ flat_map (spec.line_if_gone family now.old.synced.config now.old.synced.objects after.now) before.now) }
    ensures front { OnErr result (HasFront text.new text.old) }
    ensures same { now.new.synced ≡ now.old.synced }
{
    for door in before {
        push_if_gone(alloc, text, family, now, after, door)?;
    }
    Ok(())
}

/// Adds the line of a door, where it went.
fn push_if_gone(
    alloc: Global,
    text: &mut String,
    family: Family,
    now: &mut After<'_>,
    after: &[Door<'_>],
    door: &Door<'_>,
) -> Result<(), NoMemory>
    ensures added { OnOk result (string_bytes text.new ≡ string_bytes text.old
        ++ spec.line_if_gone family now.old.synced.config now.old.synced.objects after.now door.now) }
    ensures front { OnErr result (HasFront text.new text.old) }
    ensures same { now.new.synced ≡ now.old.synced }
{
    if has_door(after, door) {
        return Ok(());
    }
    let change = change_from(door);
    push_if_differs(alloc, text, family, now, &change)
}

/// Adds the line of a door, where it differs.
fn push_if_differs(
    alloc: Global,
    text: &mut String,
    family: Family,
    now: &mut After<'_>,
    change: &DoorChange<'_>,
) -> Result<(), NoMemory>
    ensures added { OnOk result (string_bytes text.new ≡ string_bytes text.old
        ++ spec.line_if family now.old.synced.config now.old.synced.objects change.now) }
    ensures front { OnErr result (HasFront text.new text.old) }
    ensures same { now.new.synced ≡ now.old.synced }
{
    if !differs(change) {
        return Ok(());
    }
    push_line(alloc, text, family, now, change)
}
