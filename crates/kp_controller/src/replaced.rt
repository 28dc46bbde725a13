//! Slices in place of others.
ghost use Rattle.std.specs.Prelude.{◌≡◌, IfOk, OnOk};
ghost use Rattle.kp_controller.specs.Replaced.{AreGone, with_slices, without_keys};

use crate::slice_map::SliceMap;
use kp_base::{Copied, Items, Kept, NoMemory, ObjectKey};
use kp_types::Slice;
use std::alloc::Global;

/// The keys of slices that go where others come: of keys that no other slice has, exactly theirs.
/// A slice that is put in place of one of its key keeps its place in the map, which stays in order
/// so. Both lists mostly stand in one order, so that only the next of the others is looked at.
pub fn keys_gone(
    alloc: Global,
    before: &[Slice],
    after: &[Slice],
) -> Result<Items<ObjectKey>, NoMemory>
    ensures { IfOk result (AreGone before.now after.now) }
{
    let mut gone = Vec::new(alloc);
    let mut rest = after;
    for slice in before {
        match rest.split_first() {
            Some((next, others)) if next.key == slice.key => rest = others,
            _ => gone.push(slice.key.copy(alloc)?)?,
        }
    }
    Ok(Items::from_vec(gone))
}

/// Takes out the slices of some keys.
pub fn take_all(alloc: Global, keys: &[ObjectKey], slices: &mut SliceMap) -> Result<(), NoMemory>
    ensures { OnOk result (slices.new ≡ without_keys keys.now slices.old) }
{
    for key in keys {
        slices.take(alloc, key)?;
    }
    Ok(())
}

/// Puts in slices, of which the first of a key counts.
pub fn put_all(alloc: Global, packed: Items<Slice>, slices: &mut SliceMap) -> Result<(), NoMemory>
    ensures { OnOk result (slices.new ≡ with_slices packed slices.old) }
{
    let mut left = packed.into_vec();
    while let Some(slice) = left.pop() {
        slices.put(alloc, Kept::of(alloc, slice)?)?;
    }
    Ok(())
}
