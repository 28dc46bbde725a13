//! The numbers at which a kind of source may begin.
ghost use Rattle.std.specs.Prelude.{◌≡◌, ◌≤◌, ◌+◌, ◌-◌, ◌^◌, ◌++◌, ◌∷◌, [], map, nat_lt};
ghost use Rattle.std.specs.Prelude.{IfNone, IfOk, IfSome, OnOk};
ghost use Rattle.std.specs.List.{filter, flat_map};
ghost use Rattle.std.specs.Option.{option_to_list};
ghost use Rattle.kp_base.specs.Net as net;
ghost use Rattle.kp_base.specs.Net.{loopback_range, same_family, single_range};
ghost use Rattle.kp_types.specs.Setting as setting;
ghost use Rattle.kp_types.specs.Setting.{config_for};
ghost use Rattle.kp_path_defs.specs.Sources as spec;
ghost use Rattle.kp_paths.specs.SourceWords as words;
ghost use Rattle.kp_paths.specs.SourceWords.{bounds_of_range};

use crate::source_kinds::Restricted;
use kp_base::{Address, Cidr, Config, Family, NoMemory};
use kp_types::cluster_range;
use std::alloc::Global;
use std::collections::BTreeSet;

/// The numbers at which a kind may begin, in rising order and each once.
pub fn rising_bounds(
    alloc: Global,
    family: Family,
    config: &Config,
    restricted: &[Restricted<'_>],
) -> Result<Vec<u128>, NoMemory>
    ensures { IfOk result (λ ns. ns.items ≡ spec.rising (spec.bounds
        (spec.asked_ranges family (config_for family config.now) restricted.now))) }
{
    let bounds = bounds_of(alloc, family, config, restricted)?;
    let rising = rising(alloc, bounds.as_slice())?;
    Ok(rising.into_iter().collect(alloc)?)
}

/// Numbers in rising order, each once. The last is put first.
fn rising(alloc: Global, numbers: &[u128]) -> Result<BTreeSet<u128>, NoMemory>
    ensures { IfOk result (λ set. set.keys ≡ spec.rising numbers.now) }
{
    let mut rising = BTreeSet::new(alloc);
    for i in (0..numbers.len()).rev() {
        rising.insert(numbers[i])?;
    }
    Ok(rising)
}

/// The numbers at which a kind may begin: the least one, and those of each range that is asked.
fn bounds_of(
    alloc: Global,
    family: Family,
    config: &Config,
    restricted: &[Restricted<'_>],
) -> Result<Vec<u128>, NoMemory>
    ensures { IfOk result (λ ns. ns.items ≡ spec.bounds
        (spec.asked_ranges family (config_for family config.now) restricted.now)) }
{
    let mut bounds = Vec::new(alloc);
    bounds.push(0)?;
    add_cluster(&mut bounds, family, config)?;
    add_loopback(&mut bounds, family)?;
    add_addresses(&mut bounds, family, config.addresses.as_slice())?;
    add_restricted(&mut bounds, restricted)?;
    Ok(bounds)
}

/// Adds those of the cluster's range of a family, where there is one.
fn add_cluster(bounds: &mut Vec<u128>, family: Family, config: &Config) -> Result<(), NoMemory>
    ensures { OnOk result (bounds.new.items ≡ bounds.old.items
        ++ flat_map bounds_of_range (option_to_list (setting.cluster_range family config.now))) }
{
    match cluster_range(config, family) {
        Some(range) => add_range(bounds, &range),
        None => Ok(()),
    }
}

/// Adds those of the loopback range of a family.
fn add_loopback(bounds: &mut Vec<u128>, family: Family) -> Result<(), NoMemory>
    ensures { OnOk result (bounds.new.items
        ≡ bounds.old.items ++ bounds_of_range (loopback_range family)) }
{
    let (first, past) = match family {
        Family::V4 => (127 << 24, 128 << 24),
        Family::V6 => (1, 2),
    };
    bounds.push(first)?;
    bounds.push(past)?;
    Ok(())
}

/// Adds those of each address of a family.
fn add_addresses(
    bounds: &mut Vec<u128>,
    family: Family,
    addresses: &[Address],
) -> Result<(), NoMemory>
    ensures { OnOk result (bounds.new.items ≡ bounds.old.items
        ++ flat_map bounds_of_range (map single_range
        (filter (λ a. same_family a.family family) addresses.now))) }
{
    for address in addresses {
        add_address(bounds, family, address)?;
    }
    Ok(())
}

/// Adds those of an address, if it is of a family.
fn add_address(bounds: &mut Vec<u128>, family: Family, address: &Address) -> Result<(), NoMemory>
    ensures { OnOk result (bounds.new.items ≡ bounds.old.items
        ++ flat_map bounds_of_range (map single_range
        (filter (λ a. same_family a.family family) (address.now ∷ [])))) }
{
    if address.family() == family {
        add_range(bounds, &Cidr::single(*address))?;
    }
    Ok(())
}

/// Adds those of the source ranges of some load balancers.
fn add_restricted(bounds: &mut Vec<u128>, restricted: &[Restricted<'_>]) -> Result<(), NoMemory>
    ensures { OnOk result (bounds.new.items ≡ bounds.old.items
        ++ flat_map bounds_of_range (flat_map (λ r. r.ranges) restricted.now)) }
{
    for one in restricted {
        add_ranges(bounds, one.ranges.as_slice())?;
    }
    Ok(())
}

/// Adds those of some ranges.
fn add_ranges(bounds: &mut Vec<u128>, ranges: &[Cidr]) -> Result<(), NoMemory>
    ensures { OnOk result (bounds.new.items
        ≡ bounds.old.items ++ flat_map bounds_of_range ranges.now) }
{
    for range in ranges {
        add_range(bounds, range)?;
    }
    Ok(())
}

/// Adds the number of the first address of a range, and that of the first one past it, where the
/// family has that.
fn add_range(bounds: &mut Vec<u128>, range: &Cidr) -> Result<(), NoMemory>
    ensures { OnOk result (bounds.new.items ≡ bounds.old.items ++ bounds_of_range range.now) }
{
    let first = first_in(range);
    bounds.push(first)?;
    if let Some(past) = past(range, first) {
        bounds.push(past)?;
    }
    Ok(())
}

/// The number of the first address of a range.
pub fn first_in(range: &Cidr) -> u128
    ensures { result ≡ spec.first_in range.now }
{
    let number = range.base().number();
    match size_of(range) {
        Some(size) => number / size * size,
        None => 0,
    }
}

/// The number of the first address past a range, where the family has that.
pub fn past(range: &Cidr, first: u128) -> Option<u128>
    requires { first ≡ spec.first_in range.now }
    ensures { option_to_list result ≡ spec.past range.now }
{
    match next_after(range, first) {
        Some(next) if is_number_of(range.base().family(), next) => Some(next),
        _ => None,
    }
}

/// The number past those of a range from a first one on, where that is below 2^128.
fn next_after(range: &Cidr, first: u128) -> Option<u128>
    ensures some { IfSome result (λ next. next ≡ first + words.size_of range.now) }
    ensures none { IfNone result (2 ^ 128 ≤ first + words.size_of range.now) }
{
    match size_of(range) {
        Some(size) => first.checked_add(size),
        None => None,
    }
}

/// Whether an address of a family may have a number.
pub fn is_number_of(family: Family, number: u128) -> bool
    ensures { result ≡ nat_lt number (2 ^ net.width family) }
{
    match family {
        Family::V4 => number < 1 << 32,
        Family::V6 => true,
    }
}

/// How many addresses a range has, where that is below 2^128.
fn size_of(range: &Cidr) -> Option<u128>
    ensures some { IfSome result (λ size. size ≡ words.size_of range.now) }
    ensures positive { IfSome result (λ size. 1 ≤ size) }
    ensures none { IfNone result (words.size_of range.now ≡ 2 ^ 128) }
{
    match free_bits(range) {
        128 => None,
        free => Some(1 << free),
    }
}

/// How many bits the addresses of a range don't share.
fn free_bits(range: &Cidr) -> u8
    ensures free { result ≡ net.width range.now.base.family - range.now.bits }
    ensures bound { result ≤ 128 }
{
    let width: u8 = match range.base().family() {
        Family::V4 => 32,
        Family::V6 => 128,
    };
    width.saturating_sub(range.bits())
}
