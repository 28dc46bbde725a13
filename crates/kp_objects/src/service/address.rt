//! The load balancer of a Service: its addresses and source ranges, of both families.
ghost use Rattle.std.specs.Prelude.{◌≡◌, codes};
ghost use Rattle.std.specs.List.{filter_map};
ghost use Rattle.kp_json.specs.Places.{elements_of};
ghost use Rattle.kp_json.specs.Views.{place_of};
ghost use Rattle.kp_row_defs.specs.Fields.{inner, items_in, range_at};
ghost use Rattle.kp_row_defs.specs.Reads.{Reads};
ghost use Rattle.kp_row_defs.specs.Rows.{list_fault, row_fault, rows_fault};
ghost use Rattle.kp_event_defs.specs.ServiceText.{balancer_addresses, ranges_row, range_rows, source_ranges, ingress_rows, ingress_list_rows, load_balancer_rows, status_row, ingress_address};

use kp_base::{Address, Cidr, Items};
use kp_fields::{TextForm, address_field, range_here, text_field};
use kp_json::{FieldFault, Spot};
use std::alloc::Global;

/// The source ranges, where there is a restriction.
pub(crate) fn ranges_field<'a>(
    alloc: Global,
    spec: &'a Spot<'a>,
) -> Result<Option<Items<Cidr>>, FieldFault>
    ensures { Reads (λ v. v) result (row_fault ranges_row (place_of spec.now))
        (source_ranges (place_of spec.now)) }
{
    match spec.field(alloc, "loadBalancerSourceRanges")? {
        None => Ok(None),
        Some(list) => {
            if list.list_len(alloc)? == 0 {
                return Ok(None);
            }
            Ok(Some(ranges_here(alloc, &list)?))
        }
    }
}

fn ranges_here<'a>(alloc: Global, list: &'a Spot<'a>) -> Result<Items<Cidr>, FieldFault>
    ensures { Reads (λ v. v) result (list_fault (rows_fault range_rows) (place_of list.now))
        (filter_map range_at (elements_of (place_of list.now))) }
{
    let mut ranges = Vec::new(alloc);
    for element in list.elements(alloc)? {
        ranges.push(range_here(alloc, &element)?)?;
    }
    Ok(Items::from_vec(ranges))
}

/// The addresses that a load balancer gave.
pub(crate) fn balancer_field<'a>(
    alloc: Global,
    spot: &'a Spot<'a>,
) -> Result<Items<Address>, FieldFault>
    ensures { Reads (λ v. v) result (row_fault status_row (place_of spot.now))
        (balancer_addresses (place_of spot.now)) }
{
    match spot.field(alloc, "status")? {
        None => Ok(Items::new(alloc)),
        Some(status) => load_balancer_addresses(alloc, &status),
    }
}

fn load_balancer_addresses<'a>(
    alloc: Global,
    status: &'a Spot<'a>,
) -> Result<Items<Address>, FieldFault>
    ensures { Reads (λ v. v) result (rows_fault load_balancer_rows (place_of status.now))
        (filter_map ingress_address (items_in (codes "ingress")
        (inner (codes "loadBalancer") (place_of status.now)))) }
{
    match status.field(alloc, "loadBalancer")? {
        None => Ok(Items::new(alloc)),
        Some(load_balancer) => ingress_addresses(alloc, &load_balancer),
    }
}

fn ingress_addresses<'a>(
    alloc: Global,
    load_balancer: &'a Spot<'a>,
) -> Result<Items<Address>, FieldFault>
    ensures { Reads (λ v. v) result (rows_fault ingress_list_rows (place_of load_balancer.now))
        (filter_map ingress_address (items_in (codes "ingress") (place_of load_balancer.now))) }
{
    match load_balancer.field(alloc, "ingress")? {
        None => Ok(Items::new(alloc)),
        Some(list) => ingress_here(alloc, &list),
    }
}

fn ingress_here<'a>(alloc: Global, list: &'a Spot<'a>) -> Result<Items<Address>, FieldFault>
    ensures { Reads (λ v. v) result (list_fault (rows_fault ingress_rows) (place_of list.now))
        (filter_map ingress_address (elements_of (place_of list.now))) }
{
    let mut addresses = Vec::new(alloc);
    for element in list.elements(alloc)? {
        if let Some(address) = ingress_of(alloc, &element)? {
            addresses.push(address)?;
        }
    }
    Ok(Items::from_vec(addresses))
}

fn ingress_of<'a>(alloc: Global, spot: &'a Spot<'a>) -> Result<Option<Address>, FieldFault>
    ensures { Reads (λ a. a) result (rows_fault ingress_rows (place_of spot.now))
        (ingress_address (place_of spot.now)) }
{
    let address = address_field(alloc, spot, "ip")?;
    match text_field(alloc, spot, "ipMode", TextForm::Any)? {
        Some("Proxy") => Ok(None),
        _ => Ok(address),
    }
}
