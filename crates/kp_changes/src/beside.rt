//! The doors beside a door: those at its destination, of other ports and of its own.
ghost use Rattle.std.specs.Prelude.{◌≡◌, ◌++◌, true, map, length, nat_lt, IfOk, IsSome, OnErr, OnOk, string_bytes};
ghost use Rattle.std.specs.List.{filter, flat_map};
ghost use Rattle.kp_object_defs.specs.OwnKeys.{AreUnderOwnKeys};
ghost use Rattle.kp_print.specs.Fronts.{HasFront};
ghost use Rattle.kp_change_defs.specs.ChangeText as spec;
ghost use Rattle.kp_changes.specs.After.{AreThere, crowd_at, infos_in, kept_at};
ghost use Rattle.kp_changes.specs.Beside as beside;
ghost use Rattle.kp_changes.specs.Neighbours as neighbours;

use crate::after::After;
use crate::crowd::{crowd_of, destination_of, doors_there, names_at};
use crate::neighbour::Neighbour;
use kp_base::{Family, NoMemory};
use kp_decide::Door;
use kp_print::{push, push_labelled};
use kp_report::{door_word, push_port};
use std::alloc::Global;

/// How many of the doors beside a door its line names.
const NAMED: usize = 3;

/// Adds the first doors beside a door of a family, and how many more there are. Doors at a
/// destination where many ports may have one are found once.
pub fn push_besides(
    alloc: Global,
    text: &mut String,
    family: Family,
    after: &mut After<'_>,
    door: &Door<'_>,
) -> Result<(), NoMemory>
    ensures added { OnOk result (string_bytes text.new ≡ string_bytes text.old
        ++ spec.besides_text (infos_in family after.old.synced) door.now) }
    ensures front { OnErr result (HasFront text.new text.old) }
    ensures same { after.new.synced ≡ after.old.synced }
{
    if let Some(crowd) = after.crowd(&destination_of(family, door)) {
        return push_crowd(alloc, text, family, after, door, crowd);
    }
    push_found(alloc, text, family, after, door)
}

/// Adds them where the doors at the destination have to be found. They are kept where there are
/// more ports to look at than a line names.
fn push_found(
    alloc: Global,
    text: &mut String,
    family: Family,
    after: &mut After<'_>,
    door: &Door<'_>,
) -> Result<(), NoMemory>
    ensures added { OnOk result (string_bytes text.new ≡ string_bytes text.old
        ++ spec.besides_text (infos_in family after.old.synced) door.now) }
    ensures front { OnErr result (HasFront text.new text.old) }
    ensures same { after.new.synced ≡ after.old.synced }
    ensures kept { OnOk result (
        nat_lt 3 (length (beside.names_at after.old.synced.objects door.now)) ≡ true
        → IsSome (kept_at (neighbours.destination_of family door.now) after.new.crowds)) }
{
    let names = names_at(alloc, after.objects(), door)?;
    let crowd = crowd_of(alloc, family, after, door, names.as_slice())?;
    push_crowd(alloc, text, family, after, door, crowd.as_slice())?;
    if names.len() <= NAMED {
        return Ok(());
    }
    after.keep(destination_of(family, door), crowd)
}

/// Adds the first doors beside a door, of those at its destination, and how many more there are.
fn push_crowd(
    alloc: Global,
    text: &mut String,
    family: Family,
    after: &After<'_>,
    door: &Door<'_>,
    crowd: &[Neighbour],
) -> Result<(), NoMemory>
    requires there { AreThere after.now.synced (neighbours.destination_of family door.now) crowd.now }
    ensures added { OnOk result (string_bytes text.new ≡ string_bytes text.old
        ++ spec.besides_text (infos_in family after.now.synced) door.now) }
    ensures front { OnErr result (HasFront text.new text.old) }
{
    let more = more_others(alloc, family, after, door, crowd)?;
    let first = first_others(alloc, door, crowd)?;
    push_first(text, first.as_slice())?;
    push_more(text, more)
}

/// The first doors that are others than a door, of those at its destination.
fn first_others<'a>(
    alloc: Global,
    door: &Door<'_>,
    crowd: &'a [Neighbour],
) -> Result<Vec<&'a Neighbour>, NoMemory>
    ensures { IfOk result (λ first. map (λ n. n.now) first.items
        ≡ neighbours.first_others door.now crowd.now) }
{
    Ok(
        crowd
            .iter()
            .filter(|other| !is_same(door, *other))
            .take(NAMED)
            .collect(alloc)?,
    )
}

/// How many more others there are: all at the destination but those named and the door itself.
fn more_others(
    alloc: Global,
    family: Family,
    after: &After<'_>,
    door: &Door<'_>,
    crowd: &[Neighbour],
) -> Result<usize, NoMemory>
    requires there { AreThere after.now.synced (neighbours.destination_of family door.now) crowd.now }
    ensures { IfOk result (λ more. more ≡ neighbours.more_others door.now crowd.now) }
{
    if crowd.len() <= NAMED {
        return Ok(0);
    }
    let own = own_doors(alloc, family, after, door)?;
    Ok(crowd.len().saturating_sub(own).saturating_sub(NAMED))
}

/// How often the door itself is at its destination: not at all where it went. It is looked for
/// among the doors of its own port.
fn own_doors(
    alloc: Global,
    family: Family,
    after: &After<'_>,
    door: &Door<'_>,
) -> Result<usize, NoMemory>
    requires own_keys { AreUnderOwnKeys after.now.synced.objects }
    ensures { IfOk result (λ own. own ≡ length (filter (neighbours.is_same door.now)
        (crowd_at (neighbours.destination_of family door.now) after.now.synced))) }
{
    let name = [&door.info.key];
    let there = doors_there(alloc, family, after, door, &name[..])?;
    Ok(
        there
            .as_slice()
            .iter()
            .filter(|other| is_same(door, *other))
            .count(),
    )
}

/// Whether a door at the destination of another one is the same.
fn is_same(door: &Door<'_>, other: &Neighbour) -> bool
    ensures { result ≡ neighbours.is_same door.now other.now }
{
    door.info.key == other.key && door.kind == other.kind
}

/// Adds doors beside another one.
fn push_first(text: &mut String, first: &[&Neighbour]) -> Result<(), NoMemory>
    ensures added { OnOk result (string_bytes text.new ≡ string_bytes text.old
        ++ flat_map neighbours.neighbour_text (map (λ n. n.now) first.now)) }
    ensures front { OnErr result (HasFront text.new text.old) }
{
    for neighbour in first {
        push_neighbour(text, *neighbour)?;
    }
    Ok(())
}

/// Adds a door beside another one.
fn push_neighbour(text: &mut String, neighbour: &Neighbour) -> Result<(), NoMemory>
    ensures added { OnOk result (string_bytes text.new
        ≡ string_bytes text.old ++ neighbours.neighbour_text neighbour.now) }
    ensures front { OnErr result (HasFront text.new text.old) }
{
    push(text, "; beside ")?;
    push_port(text, &neighbour.key)?;
    push(text, " ")?;
    push(text, door_word(neighbour.kind))
}

/// Adds how many more there are, where there are any.
fn push_more(text: &mut String, more: usize) -> Result<(), NoMemory>
    ensures added { OnOk result (string_bytes text.new
        ≡ string_bytes text.old ++ spec.more_text more) }
    ensures front { OnErr result (HasFront text.new text.old) }
{
    if more == 0 {
        return Ok(());
    }
    push_labelled(text, "; ", more as u64)?;
    push(text, " more beside")
}
