//! Objects of the four kinds, and their keys.
ghost use Rattle.std.specs.Prelude.{◌≡◌, None};
ghost use Rattle.kp_json.specs.Answers.{Gives};
ghost use Rattle.kp_json.specs.Views.{place_of};
ghost use Rattle.kp_event_defs.specs.EventText.{object_at, deleted_row, deleted_key};
ghost use Rattle.kp_row_defs.specs.Reads.{Reads};
ghost use Rattle.kp_row_defs.specs.Rows.{row_fault};

use kp_base::{Kept, ObjectKey};
use kp_fields::{copied_text, key_field, name_field};
use kp_json::{FieldFault, Spot};
use kp_objects::{node_of, pod_of, service_of, slice_of};
use kp_types::{Kind, Object};
use std::alloc::Global;

/// The object of this kind.
pub(crate) fn object_of<'a>(
    alloc: Global,
    spot: &'a Spot<'a>,
    kind: Kind,
) -> Result<Object, FieldFault>
    ensures { Gives (λ o. o) result (object_at kind (place_of spot.now)) }
{
    match kind {
        Kind::Service => Ok(Object::Service(kept(alloc, service_of(alloc, spot)?)?)),
        Kind::EndpointSlice => Ok(Object::EndpointSlice(kept(alloc, slice_of(alloc, spot)?)?)),
        Kind::Pod => Ok(Object::Pod(kept(alloc, pod_of(alloc, spot)?)?)),
        Kind::Node => Ok(Object::Node(kept(alloc, node_of(alloc, spot)?)?)),
    }
}

/// The same object, with several owners.
fn kept<X: Drop>(alloc: Global, object: X) -> Result<Kept<X>, FieldFault>
    ensures { Reads (λ k. k) result None object }
{
    Ok(Kept::of(alloc, object)?)
}

/// The key of an object of this kind, of which nothing else is read. A Node's namespace is empty.
pub(crate) fn deleted_key<'a>(
    alloc: Global,
    spot: &'a Spot<'a>,
    kind: Kind,
) -> Result<ObjectKey, FieldFault>
    ensures { Reads (λ k. k) result (row_fault (deleted_row kind) (place_of spot.now))
        (deleted_key kind (place_of spot.now)) }
{
    match kind {
        Kind::Service | Kind::EndpointSlice | Kind::Pod => key_field(alloc, spot),
        Kind::Node => node_key(alloc, spot),
    }
}

fn node_key<'a>(alloc: Global, spot: &'a Spot<'a>) -> Result<ObjectKey, FieldFault>
    ensures { Reads (λ k. k) result (row_fault (deleted_row Kind.Node) (place_of spot.now))
        (deleted_key Kind.Node (place_of spot.now)) }
{
    let name = name_field(alloc, spot)?;
    let namespace = copied_text(alloc, "")?;
    Ok(ObjectKey { namespace, name })
}
