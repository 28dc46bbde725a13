//! The first step: what may stay where it is.
ghost use Rattle.std.specs.Prelude.{◌≡◌, IfOk, OnOk};
ghost use Rattle.kp_object_defs.specs.Packing as spec;
ghost use Rattle.kp_packer.specs.Views.{shown, left_in, keeping_of, progress_of, AtOwnPlaces};

use crate::entry::same_entry;
use crate::fill::Fill;
use crate::left::Left;
use kp_base::NoMemory;
use kp_types::{Slice, SliceEndpoint};
use std::alloc::Global;

/// What the slices of a group keep, visited in their order.
pub fn keep_all<'a>(
    alloc: Global,
    most: usize,
    slices: &[&'a Slice],
    left: &mut Left<'a>,
) -> Result<Vec<Fill<'a>>, NoMemory>
    requires own { AtOwnPlaces left.old.by_pod.entries left.old.places.items }
    ensures { IfOk result (λ fills. progress_of fills.items (left_in left.new.places.items)
        ≡ spec.keep_all most (shown slices.now) (left_in left.old.places.items)) }
{
    let mut fills = Vec::new(alloc);
    for slice in slices {
        fills.push(keep_slice(alloc, most, *slice, left)?)?;
    }
    Ok(fills)
}

/// What a slice keeps.
fn keep_slice<'a>(
    alloc: Global,
    most: usize,
    slice: &'a Slice,
    left: &mut Left<'a>,
) -> Result<Fill<'a>, NoMemory>
    requires own { AtOwnPlaces left.old.by_pod.entries left.old.places.items }
    ensures kept { IfOk result (λ fill. keeping_of fill left.new.places.items
        ≡ spec.keep_slice most (left_in left.old.places.items) slice.now) }
    ensures own { OnOk result (AtOwnPlaces left.new.by_pod.entries left.new.places.items) }
{
    let mut fill = Fill {
        slice,
        endpoints: Vec::new(alloc),
        is_changed: false,
    };
    for entry in slice.endpoints.as_slice() {
        keep_entry(most, entry, &mut fill, left)?;
    }
    Ok(fill)
}

/// An entry stays where it is wanted and its slice has room.
fn keep_entry<'a>(
    most: usize,
    entry: &SliceEndpoint,
    fill: &mut Fill<'a>,
    left: &mut Left<'a>,
) -> Result<(), NoMemory>
    requires own { AtOwnPlaces left.old.by_pod.entries left.old.places.items }
    ensures kept { OnOk result (keeping_of fill.new left.new.places.items
        ≡ spec.keep_entry most (keeping_of fill.old left.old.places.items) entry.now) }
    ensures own { OnOk result (AtOwnPlaces left.new.by_pod.entries left.new.places.items) }
{
    if fill.endpoints.len() >= most {
        fill.is_changed = true;
        return Ok(());
    }
    match left.take(entry) {
        None => fill.is_changed = true,
        Some(wanted) => {
            fill.is_changed = fill.is_changed || !same_entry(entry, &wanted.entry);
            fill.endpoints.push(&wanted.entry)?;
        }
    }
    Ok(())
}
