//! The metadata of a slice.
ghost use Rattle.std.specs.Prelude.{◌≡◌, codes};
ghost use Rattle.kp_json.specs.Views.{place_of};
ghost use Rattle.kp_row_defs.specs.Fields.{inner};
ghost use Rattle.kp_row_defs.specs.Reads.{Reads};
ghost use Rattle.kp_row_defs.specs.Rows.{row_fault, rows_fault};
ghost use Rattle.kp_event_defs.specs.SliceText.{metadata_row, metadata_rows, label_rows, labels_row};
ghost use Rattle.kp_objects.specs.SliceMetadata.{metadata_at, metadata_from, labels_from};

use kp_base::{Items, ObjectKey, Text};
use kp_fields::{
    TextForm, check_texts, copied_key, copied_option, is_text, needed_text, text_field,
};
use kp_json::{FieldFault, Spot};
use kp_types::{AddressType, Slice, SliceEndpoint, SlicePort};
use std::alloc::Global;

/// What is read of a slice's metadata.
pub(crate) struct Metadata {
    pub(crate) key: ObjectKey,
    /// The Service that a label names.
    service: Option<Text>,
    /// Whether a label says that the controller manages the slice.
    managed: bool,
}

impl Drop for Metadata {
    fn drop(self) {
        let Metadata {
            key,
            service,
            managed,
        } = self;
    }
}

impl Metadata {
    /// The slice with this metadata.
    pub(crate) fn into_slice(
        self,
        family: AddressType,
        endpoints: Items<SliceEndpoint>,
        ports: Items<SlicePort>,
    ) -> Slice
        ensures { result ≡ record {
          key = self.key;
          service = self.service;
          managed = self.managed;
          family = family;
          ports = ports;
          endpoints = endpoints;
        } }
    {
        let Metadata {
            key,
            service,
            managed,
        } = self;
        Slice {
            key,
            service,
            managed,
            family,
            ports,
            endpoints,
        }
    }
}

/// The labels of a slice that count.
#[derive(Drop)]
pub(crate) struct Labels {
    pub(crate) service: Option<Text>,
    pub(crate) managed: bool,
}

pub(crate) fn metadata_field<'a>(alloc: Global, spot: &'a Spot<'a>) -> Result<Metadata, FieldFault>
    ensures { Reads (λ m. m) result (row_fault metadata_row (place_of spot.now))
        (metadata_at (place_of spot.now)) }
{
    let metadata = spot.needed(alloc, "metadata")?;
    metadata_here(alloc, &metadata)
}

fn metadata_here<'a>(alloc: Global, metadata: &'a Spot<'a>) -> Result<Metadata, FieldFault>
    ensures { Reads (λ m. m) result (rows_fault metadata_rows (place_of metadata.now))
        (metadata_from (place_of metadata.now)) }
{
    let name = needed_text(alloc, metadata, "name", TextForm::Name)?;
    let namespace = text_field(alloc, metadata, "namespace", TextForm::Name)?;
    check_texts(alloc, metadata, "labels")?;
    let labels = labels_field(alloc, metadata)?;
    let key = copied_key(alloc, namespace, name)?;
    Ok(Metadata {
        key,
        service: labels.service,
        managed: labels.managed,
    })
}

fn labels_field<'a>(alloc: Global, metadata: &'a Spot<'a>) -> Result<Labels, FieldFault>
    ensures { Reads (λ l. l) result (row_fault labels_row (place_of metadata.now))
        (labels_from (inner (codes "labels") (place_of metadata.now))) }
{
    match metadata.field(alloc, "labels")? {
        None => Ok(Labels {
            service: None,
            managed: false,
        }),
        Some(labels) => labels_here(alloc, &labels),
    }
}

fn labels_here<'a>(alloc: Global, labels: &'a Spot<'a>) -> Result<Labels, FieldFault>
    ensures { Reads (λ l. l) result (rows_fault label_rows (place_of labels.now))
        (labels_from (place_of labels.now)) }
{
    let service = text_field(alloc, labels, "kubernetes.io/service-name", TextForm::Name)?;
    let managed_by = text_field(
        alloc,
        labels,
        "endpointslice.kubernetes.io/managed-by",
        TextForm::Any,
    )?;
    Ok(Labels {
        service: copied_option(alloc, service)?,
        managed: is_text(managed_by, "endpointslice-controller.k8s.io"),
    })
}
