//! Which Services a slice touches.
ghost use Rattle.std.specs.Prelude.{◌≡◌, OnOk, option_copied};
ghost use Rattle.kp_object_defs.specs.Entries.{is_of_service};
ghost use Rattle.kp_store.specs.Touched.{AddsTo};
ghost use Rattle.kp_touch_defs.specs.Touches.{names_service, slice_touches};

use kp_base::{Copied, NoMemory, ObjectKey};
use kp_store::Touched;
use kp_types::Slice;
use std::alloc::Global;

/// Adds the Services that a slice names before and after.
pub fn add_named(
    alloc: Global,
    before: Option<&Slice>,
    after: Option<&Slice>,
    touched: &mut Touched,
) -> Result<(), NoMemory>
    ensures { OnOk result (AddsTo
        (slice_touches (option_copied before.entry) (option_copied after.entry))
        touched.old touched.new) }
{
    add_owner(alloc, before, touched)?;
    add_owner(alloc, after, touched)
}

/// Adds the Service that a slice names, if there is a slice and it names one.
fn add_owner(alloc: Global, slice: Option<&Slice>, touched: &mut Touched) -> Result<(), NoMemory>
    ensures { OnOk result (AddsTo (names_service (option_copied slice.entry))
        touched.old touched.new) }
{
    match slice {
        Some(slice) => add_label(alloc, slice, touched),
        None => Ok(()),
    }
}

/// Adds the Service that the label of a slice names, if it has one.
fn add_label(alloc: Global, slice: &Slice, touched: &mut Touched) -> Result<(), NoMemory>
    ensures { OnOk result (AddsTo (λ k. is_of_service k slice.now) touched.old touched.new) }
{
    match &slice.service {
        Some(name) => touched.add(ObjectKey {
            namespace: slice.key.namespace.copy(alloc)?,
            name: name.copy(alloc)?,
        }),
        None => Ok(()),
    }
}
