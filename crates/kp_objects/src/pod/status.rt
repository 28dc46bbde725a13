//! The status of a Pod.
ghost use Rattle.std.specs.Prelude.{◌≡◌, codes, find, option_map};
ghost use Rattle.std.specs.List.{filter_map};
ghost use Rattle.kp_json.specs.Places.{elements_of};
ghost use Rattle.kp_json.specs.Views.{place_of};
ghost use Rattle.kp_row_defs.specs.Fields.{inner, items_in, text_in, address_in};
ghost use Rattle.kp_row_defs.specs.Reads.{Reads};
ghost use Rattle.kp_row_defs.specs.Rows.{each, list_fault, row_fault, rows_fault};
ghost use Rattle.kp_event_defs.specs.PodText.{addresses_or, pod_address_rows, pod_status_row, pod_status_rows, condition_rows, is_readiness, holds, is_finished};
ghost use Rattle.kp_event_defs.specs.FamilyParts as spec;
ghost use Rattle.kp_objects.specs.PodParts.{status_from, readiness_of};

use crate::family::first_address;
use kp_base::{Address, Family, Items};
use kp_fields::{TextForm, address_field, is_text, text_field};
use kp_json::{FieldFault, Spot};
use std::alloc::Global;

/// What is read of a Pod's status.
#[derive(Clone, Copy)]
pub(crate) struct PodStatus {
    pub(crate) finished: bool,
    pub(crate) address: Option<Address>,
    pub(crate) address6: Option<Address>,
    pub(crate) ready: bool,
}

pub(crate) fn status_field<'a>(alloc: Global, spot: &'a Spot<'a>) -> Result<PodStatus, FieldFault>
    ensures { Reads (λ s. s) result (row_fault pod_status_row (place_of spot.now))
        (status_from (inner (codes "status") (place_of spot.now))) }
{
    match spot.field(alloc, "status")? {
        None => Ok(PodStatus {
            finished: false,
            address: None,
            address6: None,
            ready: false,
        }),
        Some(status) => status_here(alloc, &status),
    }
}

fn status_here<'a>(alloc: Global, status: &'a Spot<'a>) -> Result<PodStatus, FieldFault>
    ensures { Reads (λ s. s) result (rows_fault pod_status_rows (place_of status.now))
        (status_from (place_of status.now)) }
{
    let phase = text_field(alloc, status, "phase", TextForm::Any)?;
    let single = address_field(alloc, status, "podIP")?;
    let listed = addresses_field(alloc, status)?;
    let ready = conditions_field(alloc, status)?;
    let address = address_in(listed.as_slice(), &single, Family::V4);
    let address6 = address_in(listed.as_slice(), &single, Family::V6);
    Ok(PodStatus {
        finished: is_finished(phase),
        address,
        address6,
        ready,
    })
}

fn is_finished(phase: Option<&str>) -> bool
    ensures { result ≡ is_finished (option_map (λ t. t.now) phase.entry) }
{
    matches!(phase, Some("Succeeded" | "Failed"))
}

/// The addresses of the list.
fn addresses_field<'a>(alloc: Global, status: &'a Spot<'a>) -> Result<Items<Address>, FieldFault>
    ensures { Reads (λ v. v) result
        (row_fault (each (codes "podIPs") pod_address_rows) (place_of status.now))
        (filter_map (address_in (codes "ip")) (items_in (codes "podIPs") (place_of status.now))) }
{
    match status.field(alloc, "podIPs")? {
        None => Ok(Items::new(alloc)),
        Some(list) => addresses_here(alloc, &list),
    }
}

fn addresses_here<'a>(alloc: Global, list: &'a Spot<'a>) -> Result<Items<Address>, FieldFault>
    ensures { Reads (λ v. v) result (list_fault (rows_fault pod_address_rows) (place_of list.now))
        (filter_map (address_in (codes "ip")) (elements_of (place_of list.now))) }
{
    let mut addresses = Vec::new(alloc);
    for element in list.elements(alloc)? {
        if let Some(address) = address_field(alloc, &element, "ip")? {
            addresses.push(address)?;
        }
    }
    Ok(Items::from_vec(addresses))
}

/// The address of a family: the first of the list, or the single one where the list gives none.
fn address_in(listed: &[Address], single: &Option<Address>, family: Family) -> Option<Address>
    ensures { result ≡ spec.first_address family (addresses_or listed.now single.now) }
{
    match single {
        Some(address) if listed.is_empty() => first_address(&[*address], family),
        _ => first_address(listed, family),
    }
}

/// Whether the first condition of type Ready holds.
fn conditions_field<'a>(alloc: Global, status: &'a Spot<'a>) -> Result<bool, FieldFault>
    ensures { Reads (λ b. b) result
        (row_fault (each (codes "conditions") condition_rows) (place_of status.now))
        (holds (find is_readiness (items_in (codes "conditions") (place_of status.now)))) }
{
    match status.field(alloc, "conditions")? {
        None => Ok(false),
        Some(list) => conditions_here(alloc, &list),
    }
}

fn conditions_here<'a>(alloc: Global, list: &'a Spot<'a>) -> Result<bool, FieldFault>
    ensures { Reads (λ b. b) result (list_fault (rows_fault condition_rows) (place_of list.now))
        (holds (find is_readiness (elements_of (place_of list.now)))) }
{
    let mut ready = None;
    for element in list.elements(alloc)? {
        ready = ready.or(readiness_of(alloc, &element)?);
    }
    Ok(ready.unwrap_or(false))
}

/// Whether a condition holds, if it is about readiness.
fn readiness_of<'a>(alloc: Global, spot: &'a Spot<'a>) -> Result<Option<bool>, FieldFault>
    ensures { Reads (λ o. o) result (rows_fault condition_rows (place_of spot.now))
        (readiness_of (place_of spot.now)) }
{
    let kind = text_field(alloc, spot, "type", TextForm::Any)?;
    let status = text_field(alloc, spot, "status", TextForm::Any)?;
    Ok(is_text(kind, "Ready").then_some(is_text(status, "True")))
}
