//! The cluster addresses and the address families that a Service writes.
ghost use Rattle.std.specs.Prelude.{◌≡◌, Some, codes, map, option_map};
ghost use Rattle.std.specs.List.{filter_map};
ghost use Rattle.kp_base.specs.Six.{any_address_of};
ghost use Rattle.kp_json.specs.Places.{elements_of};
ghost use Rattle.kp_json.specs.Views.{place_of};
ghost use Rattle.kp_row_defs.specs.Fields.{address_at, items_in, text_in, texts_of};
ghost use Rattle.kp_row_defs.specs.Reads.{Reads};
ghost use Rattle.kp_row_defs.specs.Rows.{optional, choice, cluster_address_text, field_fault, form_fault, list_fault, row_fault, rows_fault};
ghost use Rattle.kp_event_defs.specs.ServiceText.{address_families, cluster_list_row, cluster_rows, families_row, family_at, family_rows, listed_families};

use kp_base::{Address, Family, Items};
use kp_fields::address_here;
use kp_json::{FieldFault, Spot, Why};
use std::alloc::Global;

/// The single cluster address, if there is one: an address, or nothing for `None`.
pub(crate) fn cluster_field<'a>(
    alloc: Global,
    spec: &'a Spot<'a>,
) -> Result<Option<Option<Address>>, FieldFault>
    ensures { Reads (λ c. c) result
        (field_fault (codes "clusterIP") optional cluster_address_text (place_of spec.now))
        (option_map any_address_of (text_in (codes "clusterIP") (place_of spec.now))) }
{
    match spec.field(alloc, "clusterIP")? {
        None => Ok(None),
        Some(member) => match member.as_text() {
            Some(text) if text.is_empty() => Ok(None),
            _ => Ok(Some(cluster_here(alloc, &member)?)),
        },
    }
}

/// The cluster addresses of a list, with nothing in the place of `None`.
pub(crate) fn clusters_field<'a>(
    alloc: Global,
    spec: &'a Spot<'a>,
) -> Result<Items<Option<Address>>, FieldFault>
    ensures { Reads (λ v. v) result (row_fault cluster_list_row (place_of spec.now))
        (map address_at (items_in (codes "clusterIPs") (place_of spec.now))) }
{
    match spec.field(alloc, "clusterIPs")? {
        None => Ok(Items::new(alloc)),
        Some(list) => clusters_here(alloc, &list),
    }
}

fn clusters_here<'a>(
    alloc: Global,
    list: &'a Spot<'a>,
) -> Result<Items<Option<Address>>, FieldFault>
    ensures { Reads (λ v. v) result (list_fault (rows_fault cluster_rows) (place_of list.now))
        (map address_at (elements_of (place_of list.now))) }
{
    let mut clusters = Vec::new(alloc);
    for element in list.elements(alloc)? {
        clusters.push(cluster_here(alloc, &element)?)?;
    }
    Ok(Items::from_vec(clusters))
}

/// The cluster address here, or nothing for `None`.
fn cluster_here(alloc: Global, spot: &Spot<'_>) -> Result<Option<Address>, FieldFault>
    ensures { Reads (λ c. c) result (form_fault cluster_address_text (place_of spot.now))
        (address_at (place_of spot.now)) }
{
    if spot.str_at(alloc)? == "None" {
        return Ok(None);
    }
    Ok(Some(address_here(alloc, spot)?))
}

/// The families that are listed.
pub(crate) fn families_field<'a>(
    alloc: Global,
    spec: &'a Spot<'a>,
) -> Result<Items<Family>, FieldFault>
    ensures { Reads (λ v. v) result (row_fault families_row (place_of spec.now))
        (listed_families (place_of spec.now)) }
{
    match spec.field(alloc, "ipFamilies")? {
        None => Ok(Items::new(alloc)),
        Some(list) => families_here(alloc, &list),
    }
}

fn families_here<'a>(alloc: Global, list: &'a Spot<'a>) -> Result<Items<Family>, FieldFault>
    ensures { Reads (λ v. v) result (list_fault (rows_fault family_rows) (place_of list.now))
        (filter_map family_at (elements_of (place_of list.now))) }
{
    let mut families = Vec::new(alloc);
    for element in list.elements(alloc)? {
        families.push(family_here(alloc, &element)?)?;
    }
    Ok(Items::from_vec(families))
}

fn family_here(alloc: Global, spot: &Spot<'_>) -> Result<Family, FieldFault>
    ensures { Reads Some result
        (form_fault (choice (texts_of address_families)) (place_of spot.now))
        (family_at (place_of spot.now)) }
{
    match spot.str_at(alloc)? {
        "IPv4" => Ok(Family::V4),
        "IPv6" => Ok(Family::V6),
        _ => Err(spot.bad(alloc, Why::OutOfRange)),
    }
}
