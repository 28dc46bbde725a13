//! Of addresses and ranges of both families those of one.
ghost use Rattle.std.specs.Prelude.{◌≡◌, None, option_map};
ghost use Rattle.kp_base.specs.declared.address.Family.TheVariants.{V4};
ghost use Rattle.kp_row_defs.specs.Reads.{Reads};
ghost use Rattle.kp_event_defs.specs.FamilyParts as spec;

use kp_base::{Address, Cidr, Family, Items};
use kp_json::FieldFault;
use std::alloc::Global;

/// The first address of a family.
pub(crate) fn first_address(addresses: &[Address], family: Family) -> Option<Address>
    ensures { result ≡ spec.first_address family addresses.now }
{
    addresses
        .iter()
        .copied()
        .find(|address| address.family() == family)
}

/// The addresses of a family.
pub(crate) fn addresses_of(
    alloc: Global,
    addresses: &[Address],
    family: Family,
) -> Result<Items<Address>, FieldFault>
    ensures { Reads (λ v. v) result None (spec.addresses_of family addresses.now) }
{
    let found: Vec<Address> = addresses
        .iter()
        .copied()
        .filter(|address| address.family() == family)
        .collect(alloc)?;
    Ok(Items::from_vec(found))
}

/// The ranges of a family.
pub(crate) fn ranges_in(
    alloc: Global,
    ranges: &[Cidr],
    family: Family,
) -> Result<Items<Cidr>, FieldFault>
    ensures { Reads (λ v. v) result None (spec.ranges_in family ranges.now) }
{
    let found: Vec<Cidr> = ranges
        .iter()
        .copied()
        .filter(|range| range.base().family() == family)
        .collect(alloc)?;
    Ok(Items::from_vec(found))
}

/// The IPv4 ranges, where there is a restriction.
pub(crate) fn v4_restriction(
    alloc: Global,
    ranges: &Option<Items<Cidr>>,
) -> Result<Option<Items<Cidr>>, FieldFault>
    ensures { Reads (λ v. v) result None (option_map (spec.ranges_in V4) ranges.now) }
{
    match ranges {
        None => Ok(None),
        Some(ranges) => Ok(Some(ranges_in(alloc, ranges.as_slice(), Family::V4)?)),
    }
}
