//! The kinds of sources: of the addresses that no decision tells apart, the least.
ghost use Rattle.std.specs.Prelude.{◌≡◌, ◌++◌, [], IfOk, OnOk};
ghost use Rattle.std.specs.List.{list_all, list_any};
ghost use Rattle.kp_base.specs.Net.{range_contains};
ghost use Rattle.kp_types.specs.Setting.{config_for};
ghost use Rattle.kp_path_defs.specs.Sources as spec;
ghost use Rattle.kp_paths.specs.SourceWords as words;

use crate::source_bounds::{is_number_of, rising_bounds};
use crate::source_ends::{count_to, firsts_in, in_order, pasts_in};
use kp_base::{Address, Cidr, Config, Family, Items, NoMemory, PortKey};
use kp_decide::{Door, is_in_cluster, is_local};
use kp_types::DoorKind;
use std::alloc::Global;
use std::marker::Model;

/// The port of a load balancer with source ranges, whose ends are kept in order: a list of a
/// thousand ranges gives two thousand addresses to look for.
#[derive(Drop)]
pub struct Restricted<'a> {
    pub port: &'a PortKey,
    pub ranges: &'a Items<Cidr>,
    family: Family,
    firsts: Vec<u128>,
    pasts: Vec<u128>,
}

impl<'a> Model for Restricted<'a> {
    ghost use Rattle.kp_path_defs.specs.Sources as spec;
    ghost use Rattle.kp_paths.specs.SourceCodes.{restricted_code};
    ghost use Rattle.kp_paths.specs.SourceEnds.{AreEnds};

    ghost Value = { spec.Restricted };

    ghost coded = { restricted_code };

    ghost view = { λ r. record { port = r.port.now; ranges = r.ranges.now } };

    ghost invariant = { λ r. AreEnds r.family r.ranges.now r.firsts.items r.pasts.items };
}

/// The ports of load balancers with source ranges, door by door.
pub fn restricted_of<'a>(
    alloc: Global,
    family: Family,
    doors: &[Door<'a>],
) -> Result<Vec<Restricted<'a>>, NoMemory>
    ensures { IfOk result (λ rs. rs.items ≡ spec.restricted doors.now) }
{
    let mut restricted = Vec::new(alloc);
    for door in doors {
        add_restricted(alloc, &mut restricted, family, door)?;
    }
    Ok(restricted)
}

/// Adds the port of a door, if that is a load balancer's and has source ranges.
fn add_restricted<'a>(
    alloc: Global,
    restricted: &mut Vec<Restricted<'a>>,
    family: Family,
    door: &Door<'a>,
) -> Result<(), NoMemory>
    ensures { OnOk result (restricted.new.items ≡ restricted.old.items
        ++ spec.restricted_if door.now.info.key (spec.ranges_at door.now.kind door.now.info)) }
{
    let info = door.info;
    match (door.kind, &info.ranges) {
        (DoorKind::Balancer, Some(ranges)) => {
            restricted.push(restricted_by(alloc, family, &info.key, ranges)?)?;
            Ok(())
        }
        _ => Ok(()),
    }
}

/// The port of a load balancer with these source ranges.
fn restricted_by<'a>(
    alloc: Global,
    family: Family,
    port: &'a PortKey,
    ranges: &'a Items<Cidr>,
) -> Result<Restricted<'a>, NoMemory>
    ensures { IfOk result (λ r. r ≡ record { port = port.now; ranges = ranges.now }) }
{
    let firsts = in_order(firsts_in(alloc, family, ranges.as_slice())?);
    let pasts = in_order(pasts_in(alloc, family, ranges.as_slice())?);
    Ok(Restricted {
        port,
        ranges,
        family,
        firsts,
        pasts,
    })
}

/// The least address of each kind that a family has, in order.
pub fn kinds_of(
    alloc: Global,
    family: Family,
    config: &Config,
    restricted: &[Restricted<'_>],
) -> Result<Vec<Address>, NoMemory>
    ensures { IfOk result (λ kinds. kinds.items
        ≡ spec.kinds_of family (config_for family config.now) restricted.now) }
{
    let bounds = rising_bounds(alloc, family, config, restricted)?;
    let addresses = addresses_of(alloc, family, bounds.as_slice())?;
    first_of_kinds(alloc, family, config, restricted, addresses.as_slice())
}

/// The addresses of a family with these numbers.
fn addresses_of(alloc: Global, family: Family, numbers: &[u128]) -> Result<Vec<Address>, NoMemory>
    ensures { IfOk result (λ found. found.items ≡ words.addresses_of family numbers.now) }
{
    let mut addresses = Vec::new(alloc);
    for number in numbers {
        addresses.push(address_of(family, *number)?)?;
    }
    Ok(addresses)
}

/// The address of a family with this number. No bound of a range of the family has another one.
fn address_of(family: Family, number: u128) -> Result<Address, NoMemory>
    ensures { IfOk result (λ a. a ≡ record { family = family; number = number }) }
{
    if !is_number_of(family, number) {
        return Err(NoMemory::beyond_counts());
    }
    match family {
        Family::V4 => Ok(Address::v4(number as u32)),
        Family::V6 => Ok(Address::v6(number)),
    }
}

/// Those of some addresses of which none before is of the same kind.
fn first_of_kinds(
    alloc: Global,
    family: Family,
    config: &Config,
    restricted: &[Restricted<'_>],
    addresses: &[Address],
) -> Result<Vec<Address>, NoMemory>
    ensures { IfOk result (λ kinds. kinds.items ≡ spec.first_of_kinds
        (spec.same_kind (config_for family config.now) restricted.now) [] addresses.now) }
{
    let mut kinds = Vec::new(alloc);
    for address in addresses {
        add_if_new(&mut kinds, family, config, restricted, address)?;
    }
    Ok(kinds)
}

/// Adds an address, if it is of another kind than all.
fn add_if_new(
    kinds: &mut Vec<Address>,
    family: Family,
    config: &Config,
    restricted: &[Restricted<'_>],
    address: &Address,
) -> Result<(), NoMemory>
    ensures { OnOk result (kinds.new.items ≡ words.with_new
        (spec.same_kind (config_for family config.now) restricted.now) address.now
        kinds.old.items) }
{
    if !is_known(family, config, restricted, kinds.as_slice(), address) {
        kinds.push(*address)?;
    }
    Ok(())
}

/// Whether an address is of the kind of one of some.
fn is_known(
    family: Family,
    config: &Config,
    restricted: &[Restricted<'_>],
    kinds: &[Address],
    address: &Address,
) -> bool
    ensures { result ≡ list_any (spec.same_kind (config_for family config.now) restricted.now
        address.now) kinds.now }
{
    kinds.iter().any(|kind| is_same_kind(family, config, restricted, address, kind))
}

/// Whether two addresses are of one kind.
fn is_same_kind(
    family: Family,
    config: &Config,
    restricted: &[Restricted<'_>],
    a: &Address,
    b: &Address,
) -> bool
    ensures { result
        ≡ spec.same_kind (config_for family config.now) restricted.now a.now b.now }
{
    is_same(
        is_in_cluster(family, config, a),
        is_in_cluster(family, config, b),
    ) && is_same(is_local(config, a), is_local(config, b))
        && are_within_alike(restricted, a, b)
}

/// Whether two addresses are in ranges of the same load balancers.
fn are_within_alike(restricted: &[Restricted<'_>], a: &Address, b: &Address) -> bool
    ensures { result ≡ list_all
        (λ r. spec.same_bool (spec.is_within a.now r) (spec.is_within b.now r)) restricted.now }
{
    restricted
        .iter()
        .all(|one| is_same(is_within(a, one), is_within(b, one)))
}

/// Whether two truth values are one.
fn is_same(a: bool, b: bool) -> bool
    ensures { result ≡ spec.same_bool a b }
{
    if a { b } else { !b }
}

/// Whether an address is in one of the ranges of a load balancer. One of another family is looked
/// for range by range.
pub fn is_within(address: &Address, restricted: &Restricted<'_>) -> bool
    ensures { result ≡ spec.is_within address.now restricted.now }
{
    let number = address.number();
    if address.family() == restricted.family && is_number_of(restricted.family, number) {
        count_to(restricted.firsts.as_slice(), number)
            != count_to(restricted.pasts.as_slice(), number)
    } else {
        is_in_some(restricted.ranges.as_slice(), address)
    }
}

/// Whether an address is in one of some ranges.
fn is_in_some(ranges: &[Cidr], address: &Address) -> bool
    ensures { result ≡ list_any (λ r. range_contains r address.now) ranges.now }
{
    ranges.iter().any(|range| range.contains(address))
}
