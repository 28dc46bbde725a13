//! What changed at a door.
ghost use Rattle.std.specs.Prelude.{◌≡◌, IfOk, option_copied};
ghost use Rattle.std.specs.List.{find, list_any};
ghost use Rattle.kp_change_defs.specs.DoorChanges as spec;

use crate::values::{DoorValues, absent, same_values, values_of};
use kp_base::NoMemory;
use kp_decide::{Door, add_doors_of, add_node_door};
use kp_types::PortInfo;
use std::alloc::Global;
use std::marker::Model;

/// A door, as it is after or, where it goes, as it was, with its values before and after.
#[derive(Drop)]
pub struct DoorChange<'a> {
    pub door: Door<'a>,
    pub before: DoorValues<'a>,
    pub after: DoorValues<'a>,
}

impl<'a> Model for DoorChange<'a> {
    ghost use Rattle.kp_change_defs.specs.DoorChanges as spec;
    ghost use Rattle.kp_changes.specs.Stored.{change_code};

    ghost Value = { spec.DoorChange };

    ghost coded = { change_code };

    ghost view = { λ c. record { door = c.door; before = c.before; after = c.after } };
}

/// The doors of a port, where something is known of it.
pub fn doors_of_port<'a>(
    alloc: Global,
    info: Option<&'a PortInfo>,
) -> Result<Vec<Door<'a>>, NoMemory>
    ensures { IfOk result (λ doors.
        doors.items ≡ spec.doors_of_port (option_copied info.entry)) }
{
    let mut doors = Vec::new(alloc);
    match info {
        Some(info) => {
            add_doors_of(&mut doors, info)?;
            add_node_door(&mut doors, info)?;
            Ok(doors)
        }
        None => Ok(doors),
    }
}

/// The change of a door that is there after, by the port's doors before.
pub fn change_to<'a>(before: &[Door<'a>], door: &Door<'a>) -> DoorChange<'a>
    ensures { result ≡ spec.change_to before.now door.now }
{
    DoorChange {
        door: same(door),
        before: values_or_absent(door_among(before, door)),
        after: values_of(door),
    }
}

/// The change of a door that goes.
pub fn change_from<'a>(door: &Door<'a>) -> DoorChange<'a>
    ensures { result ≡ spec.change_from door.now }
{
    DoorChange {
        door: same(door),
        before: values_of(door),
        after: absent(),
    }
}

/// The same door.
fn same<'a>(door: &Door<'a>) -> Door<'a>
    ensures { result ≡ door.now }
{
    Door {
        kind: door.kind,
        info: door.info,
        address: door.address,
        number: door.number,
    }
}

/// The door of some that is the same as another one.
fn door_among<'d, 'a>(doors: &'d [Door<'a>], door: &Door<'_>) -> Option<&'d Door<'a>>
    ensures { option_copied result ≡ find (spec.same_door door.now) doors.now }
{
    doors.iter().find(|other| same_door(door, other))
}

/// The values of a door, or of none.
fn values_or_absent<'a>(door: Option<&Door<'a>>) -> DoorValues<'a>
    ensures { result ≡ spec.values_or_absent (option_copied door.entry) }
{
    match door {
        Some(door) => values_of(door),
        None => absent(),
    }
}

/// Whether a door is among others of its port and family.
pub fn has_door(doors: &[Door<'_>], door: &Door<'_>) -> bool
    ensures { result ≡ list_any (spec.same_door door.now) doors.now }
{
    doors.iter().any(|other| same_door(door, other))
}

/// Whether two doors of one port and family are one.
pub fn same_door(a: &Door<'_>, b: &Door<'_>) -> bool
    ensures { result ≡ spec.same_door a.now b.now }
{
    a.kind == b.kind && same_destination(a, b)
}

/// Whether two doors have one destination.
pub fn same_destination(a: &Door<'_>, b: &Door<'_>) -> bool
    ensures { result ≡ spec.same_destination a.now b.now }
{
    a.address == b.address && a.number == b.number
}

/// Whether a door has other values than before.
pub fn differs(change: &DoorChange<'_>) -> bool
    ensures { result ≡ spec.differs change.now }
{
    !same_values(&change.before, &change.after)
}
