//! Addresses and ranges of both families.
ghost use Rattle.std.specs.Prelude.{◌≡◌, Some};
ghost use Rattle.std.specs.List.{filter_map};
ghost use Rattle.kp_json.specs.Places.{elements_of};
ghost use Rattle.kp_json.specs.Views.{place_of};
ghost use Rattle.kp_row_defs.specs.Fields.{address_at, address_in, items_in, range_at};
ghost use Rattle.kp_row_defs.specs.Reads.{Reads};
ghost use Rattle.kp_row_defs.specs.Rows.{needed, optional, address_rows, address_text, each, range_text, field_fault, form_fault, list_fault, row_fault, rows_fault};

use kp_base::{Address, Cidr, Items};
use kp_json::{FieldFault, Spot, Why};
use std::alloc::Global;

/// The address here.
pub fn address_here(alloc: Global, spot: &Spot<'_>) -> Result<Address, FieldFault>
    ensures { Reads Some result (form_fault address_text (place_of spot.now))
        (address_at (place_of spot.now)) }
{
    match Address::parse_any(spot.str_at(alloc)?.as_bytes()) {
        Ok(address) => Ok(address),
        Err(_) => Err(spot.bad(alloc, Why::BadAddress)),
    }
}

/// The address of a member that may be absent.
pub fn address_field<'a>(
    alloc: Global,
    spot: &'a Spot<'a>,
    name: &'a str,
) -> Result<Option<Address>, FieldFault>
    ensures { Reads (λ a. a) result
        (field_fault name.now optional address_text (place_of spot.now))
        (address_in name.now (place_of spot.now)) }
{
    match spot.field(alloc, name)? {
        None => Ok(None),
        Some(member) => match member.as_text() {
            Some(text) if text.is_empty() => Ok(None),
            _ => Ok(Some(address_here(alloc, &member)?)),
        },
    }
}

/// The address of a member that has to be there.
#[tactic(auto, using(crate::proofs::EmptyText::address_of_text))]
pub fn needed_address<'a>(
    alloc: Global,
    spot: &'a Spot<'a>,
    name: &'a str,
) -> Result<Address, FieldFault>
    ensures { Reads Some result (field_fault name.now needed address_text (place_of spot.now))
        (address_in name.now (place_of spot.now)) }
{
    let member = spot.needed(alloc, name)?;
    address_here(alloc, &member)
}

/// The addresses of a list that may be absent.
pub fn addresses_field<'a>(
    alloc: Global,
    spot: &'a Spot<'a>,
    name: &'a str,
) -> Result<Items<Address>, FieldFault>
    ensures { Reads (λ v. v) result (row_fault (each name.now address_rows) (place_of spot.now))
        (filter_map address_at (items_in name.now (place_of spot.now))) }
{
    match spot.field(alloc, name)? {
        None => Ok(Items::new(alloc)),
        Some(list) => addresses_here(alloc, &list),
    }
}

fn addresses_here<'a>(alloc: Global, list: &'a Spot<'a>) -> Result<Items<Address>, FieldFault>
    ensures { Reads (λ v. v) result (list_fault (rows_fault address_rows) (place_of list.now))
        (filter_map address_at (elements_of (place_of list.now))) }
{
    let mut addresses = Vec::new(alloc);
    for element in list.elements(alloc)? {
        addresses.push(address_here(alloc, &element)?)?;
    }
    Ok(Items::from_vec(addresses))
}

/// The range here.
pub fn range_here(alloc: Global, spot: &Spot<'_>) -> Result<Cidr, FieldFault>
    ensures { Reads Some result (form_fault range_text (place_of spot.now))
        (range_at (place_of spot.now)) }
{
    match Cidr::parse_any(spot.str_at(alloc)?.as_bytes()) {
        Ok(range) => Ok(range),
        Err(_) => Err(spot.bad(alloc, Why::BadCidr)),
    }
}
