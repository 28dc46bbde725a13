//! The endpoints of a slice.
ghost use Rattle.std.specs.Prelude.{◌≡◌, codes, map, unwrap_or, []};
ghost use Rattle.kp_json.specs.Places.{elements_at, elements_of};
ghost use Rattle.kp_json.specs.Views.{place_of};
ghost use Rattle.kp_row_defs.specs.Fields.{inner, items_in, text_in};
ghost use Rattle.kp_row_defs.specs.Reads.{Reads};
ghost use Rattle.kp_row_defs.specs.Rows.{first_item, form_fault, head_fault, list_fault, on_ok, row_fault, rows_fault};
ghost use Rattle.kp_event_defs.specs.SliceText.{address_form, address_of_type, first_of_type, endpoint_rows, endpoint_from, conditions_row, condition_rows, hints_row, hint_list_rows, hint_rows, hint_from, target_row, target_rows, pod_rows, target_pod, named_pod};
ghost use Rattle.kp_objects.specs.SliceParts.{conditions_from};

use kp_base::{Address, Items, ObjectKey, Text};
use kp_fields::{
    TextForm, address_here, copied_option, copied_text, flag_field, needed_text, text_field,
};
use kp_json::{FieldFault, Spot};
use kp_types::{AddressType, SliceEndpoint};
use std::alloc::Global;

/// The endpoints of a list.
pub(crate) fn endpoints_here<'a>(
    alloc: Global,
    list: &'a Spot<'a>,
    family: AddressType,
    namespace: &Text,
) -> Result<Items<SliceEndpoint>, FieldFault>
    ensures { Reads (λ v. v) result
        (list_fault (rows_fault (endpoint_rows family)) (place_of list.now))
        (map (endpoint_from family namespace.now) (elements_of (place_of list.now))) }
{
    let mut endpoints = Vec::new(alloc);
    for element in list.elements(alloc)? {
        endpoints.push(endpoint_of(alloc, &element, family, namespace)?)?;
    }
    Ok(Items::from_vec(endpoints))
}

fn endpoint_of<'a>(
    alloc: Global,
    spot: &'a Spot<'a>,
    family: AddressType,
    namespace: &Text,
) -> Result<SliceEndpoint, FieldFault>
    ensures { Reads (λ e. e) result (rows_fault (endpoint_rows family) (place_of spot.now))
        (endpoint_from family namespace.now (place_of spot.now)) }
{
    let address = address_field(alloc, spot, family)?;
    let conditions = conditions_field(alloc, spot)?;
    let node = text_field(alloc, spot, "nodeName", TextForm::Name)?;
    let zone = text_field(alloc, spot, "zone", TextForm::Label)?;
    let hints = hints_field(alloc, spot)?;
    let pod = target_field(alloc, spot, namespace)?;
    let node = copied_option(alloc, node)?;
    let zone = copied_option(alloc, zone)?;
    Ok(SliceEndpoint {
        address,
        ready: conditions.ready,
        serving: conditions.serving,
        terminating: conditions.terminating,
        node,
        zone,
        hints,
        pod,
    })
}

/// The first address, which is the only one that is read.
fn address_field<'a>(
    alloc: Global,
    spot: &'a Spot<'a>,
    family: AddressType,
) -> Result<Option<Address>, FieldFault>
    ensures { Reads (λ a. a) result
        (row_fault (first_item (codes "addresses") (address_form family)) (place_of spot.now))
        (first_of_type family (items_in (codes "addresses") (place_of spot.now))) }
{
    let list = spot.needed(alloc, "addresses")?;
    first_address(alloc, &list, family)
}

fn first_address<'a>(
    alloc: Global,
    list: &'a Spot<'a>,
    family: AddressType,
) -> Result<Option<Address>, FieldFault>
    ensures { Reads (λ a. a) result
        (on_ok (elements_at (place_of list.now))
        (head_fault (address_form family) (place_of list.now)))
        (first_of_type family (elements_of (place_of list.now))) }
{
    let mut elements = list.elements(alloc)?;
    match elements.next() {
        None => Err(list.missing_item(alloc, 0)),
        Some(first) => address_of(alloc, &first, family),
    }
}

fn address_of(
    alloc: Global,
    spot: &Spot<'_>,
    family: AddressType,
) -> Result<Option<Address>, FieldFault>
    ensures { Reads (λ a. a) result (form_fault (address_form family) (place_of spot.now))
        (address_of_type family (place_of spot.now)) }
{
    match family {
        AddressType::Ipv4 | AddressType::Ipv6 => Ok(Some(address_here(alloc, spot)?)),
        AddressType::Fqdn => {
            spot.str_at(alloc)?;
            Ok(None)
        }
    }
}

/// The conditions of an endpoint, with their defaults.
#[derive(Clone, Copy)]
pub(crate) struct Conditions {
    pub(crate) ready: bool,
    pub(crate) serving: bool,
    pub(crate) terminating: bool,
}

fn conditions_field<'a>(alloc: Global, spot: &'a Spot<'a>) -> Result<Conditions, FieldFault>
    ensures { Reads (λ c. c) result (row_fault conditions_row (place_of spot.now))
        (conditions_from (inner (codes "conditions") (place_of spot.now))) }
{
    match spot.field(alloc, "conditions")? {
        None => Ok(Conditions {
            ready: true,
            serving: true,
            terminating: false,
        }),
        Some(conditions) => conditions_here(alloc, &conditions),
    }
}

fn conditions_here<'a>(alloc: Global, spot: &'a Spot<'a>) -> Result<Conditions, FieldFault>
    ensures { Reads (λ c. c) result (rows_fault condition_rows (place_of spot.now))
        (conditions_from (place_of spot.now)) }
{
    let ready = flag_field(alloc, spot, "ready")?.unwrap_or(true);
    let serving = flag_field(alloc, spot, "serving")?.unwrap_or(ready);
    let terminating = flag_field(alloc, spot, "terminating")?.unwrap_or(false);
    Ok(Conditions {
        ready,
        serving,
        terminating,
    })
}

/// The zones of the topology hints.
fn hints_field<'a>(alloc: Global, spot: &'a Spot<'a>) -> Result<Items<Text>, FieldFault>
    ensures { Reads (λ v. v) result (row_fault hints_row (place_of spot.now))
        (map hint_from (items_in (codes "forZones") (inner (codes "hints") (place_of spot.now)))) }
{
    match spot.field(alloc, "hints")? {
        None => Ok(Items::new(alloc)),
        Some(hints) => zones_field(alloc, &hints),
    }
}

fn zones_field<'a>(alloc: Global, hints: &'a Spot<'a>) -> Result<Items<Text>, FieldFault>
    ensures { Reads (λ v. v) result (rows_fault hint_list_rows (place_of hints.now))
        (map hint_from (items_in (codes "forZones") (place_of hints.now))) }
{
    match hints.field(alloc, "forZones")? {
        None => Ok(Items::new(alloc)),
        Some(list) => zones_here(alloc, &list),
    }
}

fn zones_here<'a>(alloc: Global, list: &'a Spot<'a>) -> Result<Items<Text>, FieldFault>
    ensures { Reads (λ v. v) result (list_fault (rows_fault hint_rows) (place_of list.now))
        (map hint_from (elements_of (place_of list.now))) }
{
    let mut zones = Vec::new(alloc);
    for element in list.elements(alloc)? {
        zones.push(zone_of(alloc, &element)?)?;
    }
    Ok(Items::from_vec(zones))
}

fn zone_of<'a>(alloc: Global, spot: &'a Spot<'a>) -> Result<Text, FieldFault>
    ensures { Reads (λ t. t) result (rows_fault hint_rows (place_of spot.now))
        (hint_from (place_of spot.now)) }
{
    let name = needed_text(alloc, spot, "name", TextForm::Label)?;
    copied_text(alloc, name)
}

/// The pod that an endpoint stands for.
fn target_field<'a>(
    alloc: Global,
    spot: &'a Spot<'a>,
    namespace: &Text,
) -> Result<Option<ObjectKey>, FieldFault>
    ensures { Reads (λ o. o) result (row_fault target_row (place_of spot.now))
        (target_pod namespace.now (inner (codes "targetRef") (place_of spot.now))) }
{
    match spot.field(alloc, "targetRef")? {
        None => Ok(None),
        Some(target) => target_here(alloc, &target, namespace),
    }
}

fn target_here<'a>(
    alloc: Global,
    target: &'a Spot<'a>,
    namespace: &Text,
) -> Result<Option<ObjectKey>, FieldFault>
    ensures { Reads (λ o. o) result (rows_fault target_rows (place_of target.now))
        (target_pod namespace.now (place_of target.now)) }
{
    match text_field(alloc, target, "kind", TextForm::Any)? {
        Some("Pod") => named_pod(alloc, target, namespace),
        _ => Ok(None),
    }
}

fn named_pod<'a>(
    alloc: Global,
    target: &'a Spot<'a>,
    namespace: &Text,
) -> Result<Option<ObjectKey>, FieldFault>
    ensures { Reads (λ o. o) result (rows_fault pod_rows (place_of target.now))
        (named_pod namespace.now (place_of target.now)) }
{
    let own = text_field(alloc, target, "namespace", TextForm::Name)?;
    let name = text_field(alloc, target, "name", TextForm::Name)?;
    match name {
        None => Ok(None),
        Some(name) => Ok(Some(ObjectKey {
            namespace: copied_text(alloc, own.unwrap_or(namespace.as_str()))?,
            name: copied_text(alloc, name)?,
        })),
    }
}
