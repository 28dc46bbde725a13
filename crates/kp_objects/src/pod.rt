//! Pods.
ghost use Rattle.std.specs.Prelude.{◌≡◌};
ghost use Rattle.kp_json.specs.Answers.{Gives};
ghost use Rattle.kp_json.specs.Views.{place_of};
ghost use Rattle.kp_row_defs.specs.Reads.{Reads};
ghost use Rattle.kp_row_defs.specs.Rows.{row_fault, rows_fault};
ghost use Rattle.kp_event_defs.specs.PodText.{pod_metadata_row, pod_metadata_rows, read_pod};
ghost use Rattle.kp_objects.specs.PodParts.{metadata_from};
ghost use Rattle.kp_row_defs.specs.Fields.{inner};
ghost use Rattle.std.specs.Prelude.{codes};

mod spec;
mod status;

use crate::pod::spec::spec_field;
use crate::pod::status::status_field;
use kp_base::{Items, ObjectKey, Pair};
use kp_fields::{TextForm, copied_key, needed_text, pairs_field, text_field};
use kp_json::{FieldFault, Spot};
use kp_types::Pod;
use std::alloc::Global;

/// The Pod here, or the first fault of its rows.
pub fn pod_of<'a>(alloc: Global, spot: &'a Spot<'a>) -> Result<Pod, FieldFault>
    ensures { Gives (λ p. p) result (read_pod (place_of spot.now)) }
{
    let metadata = metadata_field(alloc, spot)?;
    let spec = spec_field(alloc, spot)?;
    let status = status_field(alloc, spot)?;
    Ok(Pod {
        key: metadata.key,
        labels: metadata.labels,
        deleting: metadata.deleting,
        node: spec.node,
        ports: spec.ports,
        finished: status.finished,
        address: status.address,
        address6: status.address6,
        ready: status.ready,
    })
}

/// What is read of a Pod's metadata.
#[derive(Drop)]
pub(crate) struct Metadata {
    key: ObjectKey,
    labels: Items<Pair>,
    deleting: bool,
}

fn metadata_field<'a>(alloc: Global, spot: &'a Spot<'a>) -> Result<Metadata, FieldFault>
    ensures { Reads (λ m. m) result (row_fault pod_metadata_row (place_of spot.now))
        (metadata_from (inner (codes "metadata") (place_of spot.now))) }
{
    let metadata = spot.needed(alloc, "metadata")?;
    metadata_here(alloc, &metadata)
}

fn metadata_here<'a>(alloc: Global, metadata: &'a Spot<'a>) -> Result<Metadata, FieldFault>
    ensures { Reads (λ m. m) result (rows_fault pod_metadata_rows (place_of metadata.now))
        (metadata_from (place_of metadata.now)) }
{
    let name = needed_text(alloc, metadata, "name", TextForm::Name)?;
    let namespace = text_field(alloc, metadata, "namespace", TextForm::Name)?;
    let labels = pairs_field(alloc, metadata, "labels")?;
    let deleted_at = text_field(alloc, metadata, "deletionTimestamp", TextForm::Any)?;
    Ok(Metadata {
        key: copied_key(alloc, namespace, name)?,
        labels,
        deleting: deleted_at.is_some(),
    })
}
