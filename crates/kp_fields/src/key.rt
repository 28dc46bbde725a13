//! Keys of objects.
ghost use Rattle.std.specs.Prelude.{◌≡◌, codes, None, [], option_map, unwrap_or};
ghost use Rattle.kp_json.specs.Views.{place_of};
ghost use Rattle.kp_row_defs.specs.Fields.{inner, key_in, key_from, text_in};
ghost use Rattle.kp_row_defs.specs.Metadata.{key_row, only_name_row, name_row, namespace_row};
ghost use Rattle.kp_row_defs.specs.Reads.{Reads};
ghost use Rattle.kp_row_defs.specs.Rows.{done, ◌▸◌, row_fault, rows_fault};

use crate::text::{TextForm, copied_text, needed_text, text_field};
use kp_base::{ObjectKey, Text};
use kp_json::{FieldFault, Spot};
use std::alloc::Global;

/// The key of an object, of which nothing else is read.
pub fn key_field<'a>(alloc: Global, spot: &'a Spot<'a>) -> Result<ObjectKey, FieldFault>
    ensures { Reads (λ k. k) result (row_fault key_row (place_of spot.now))
        (key_in (place_of spot.now)) }
{
    let metadata = spot.needed(alloc, "metadata")?;
    key_here(alloc, &metadata)
}

fn key_here<'a>(alloc: Global, metadata: &'a Spot<'a>) -> Result<ObjectKey, FieldFault>
    ensures { Reads (λ k. k) result
        (rows_fault (name_row ▸ namespace_row ▸ done) (place_of metadata.now))
        (key_from (place_of metadata.now)) }
{
    let name = needed_text(alloc, metadata, "name", TextForm::Name)?;
    let namespace = text_field(alloc, metadata, "namespace", TextForm::Name)?;
    copied_key(alloc, namespace, name)
}

/// The key with this name in this namespace, which is `default` where none is given.
pub fn copied_key(
    alloc: Global,
    namespace: Option<&str>,
    name: &str,
) -> Result<ObjectKey, FieldFault>
    ensures { Reads (λ k. k) result None
        (record {
          namespace = unwrap_or (option_map (λ t. t.now) namespace.entry) (codes "default");
          name = name.now;
        }) }
{
    Ok(ObjectKey {
        namespace: copied_text(alloc, namespace.unwrap_or("default"))?,
        name: copied_text(alloc, name)?,
    })
}

/// The name of an object without a namespace, of which nothing else is read.
pub fn name_field<'a>(alloc: Global, spot: &'a Spot<'a>) -> Result<Text, FieldFault>
    ensures { Reads (λ t. t) result (row_fault only_name_row (place_of spot.now))
        (unwrap_or (text_in (codes "name") (inner (codes "metadata") (place_of spot.now))) []) }
{
    let metadata = spot.needed(alloc, "metadata")?;
    let name = needed_text(alloc, &metadata, "name", TextForm::Name)?;
    copied_text(alloc, name)
}
