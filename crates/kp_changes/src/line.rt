//! The line of a door.
ghost use Rattle.std.specs.Prelude.{◌≡◌, ◌++◌, OnErr, OnOk, string_bytes};
ghost use Rattle.kp_choice_defs.specs.Names.{chain_name};
ghost use Rattle.kp_print.specs.Fronts.{HasFront};
ghost use Rattle.kp_change_defs.specs.ChangeText as spec;
ghost use Rattle.kp_changes.specs.After.{infos_in};

use crate::after::After;
use crate::beside::push_besides;
use crate::change::DoorChange;
use crate::head::push_head;
use crate::value_text::{comes, goes, push_inside, push_list, push_states, push_values};
use crate::values::DoorValues;
use kp_base::{Family, NoMemory};
use kp_change_defs::DoorState;
use kp_print::push;
use std::alloc::Global;

/// Adds the line of a door that differs, among the ports of its family.
pub fn push_line(
    alloc: Global,
    text: &mut String,
    family: Family,
    after: &mut After<'_>,
    change: &DoorChange<'_>,
) -> Result<(), NoMemory>
    ensures added { OnOk result (string_bytes text.new ≡ string_bytes text.old
        ++ spec.change_line (chain_name after.old.synced.config.name_length)
        (infos_in family after.old.synced) change.now) }
    ensures front { OnErr result (HasFront text.new text.old) }
    ensures same { after.new.synced ≡ after.old.synced }
{
    push_head(text, after.config(), &change.door)?;
    push(text, ": ")?;
    push_states(text, &change.before, &change.after)?;
    push_list(alloc, text, &change.before, &change.after)?;
    push_kept(alloc, text, change)?;
    push_turned(alloc, text, family, after, change)?;
    push(text, "\n")
}

/// Adds what stands in a line of a door that is there after.
fn push_kept(alloc: Global, text: &mut String, change: &DoorChange<'_>) -> Result<(), NoMemory>
    ensures added { OnOk result (string_bytes text.new
        ≡ string_bytes text.old ++ spec.kept_text change.now) }
    ensures front { OnErr result (HasFront text.new text.old) }
{
    if goes(change) {
        return Ok(());
    }
    push_values(text, change)?;
    push_inside(alloc, text, change)
}

/// Adds the doors beside a door that turns.
fn push_turned(
    alloc: Global,
    text: &mut String,
    family: Family,
    after: &mut After<'_>,
    change: &DoorChange<'_>,
) -> Result<(), NoMemory>
    ensures added { OnOk result (string_bytes text.new ≡ string_bytes text.old
        ++ spec.turned_text (infos_in family after.old.synced) change.now) }
    ensures front { OnErr result (HasFront text.new text.old) }
    ensures same { after.new.synced ≡ after.old.synced }
{
    if !turns(change) {
        return Ok(());
    }
    push_besides(alloc, text, family, after, &change.door)
}

/// Whether a door comes or goes, opens or shuts.
fn turns(change: &DoorChange<'_>) -> bool
    ensures { result ≡ spec.turns change.now }
{
    comes(change) || goes(change) || is_open(&change.before) != is_open(&change.after)
}

/// Whether a door is open.
fn is_open(values: &DoorValues<'_>) -> bool
    ensures { result ≡ spec.is_open values.now }
{
    values.state == DoorState::Open
}
