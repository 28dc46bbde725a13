//! The ends of ranges in order.
ghost use Rattle.std.specs.Prelude.{◌≡◌, ◌++◌, ◌∷◌, [], ℕ, Bool, IfOk, OnOk, count_by, map};
ghost use Rattle.std.specs.List.{filter, flat_map};
ghost use Rattle.std.specs.List.Sorted.{IsNonDecreasing};
ghost use Rattle.kp_base.specs.Net.{same_family};
ghost use Rattle.kp_path_defs.specs.Sources as spec;
ghost use Rattle.kp_paths.specs.SourceEnds as ends;

use crate::source_bounds::{first_in, past};
use kp_base::{Cidr, Family, NoMemory};
use std::alloc::Global;

/// The numbers of the first addresses of the ranges of a family.
pub fn firsts_in(alloc: Global, family: Family, ranges: &[Cidr]) -> Result<Vec<u128>, NoMemory>
    ensures { IfOk result (λ ns. ns.items ≡ ends.firsts_in family ranges.now) }
{
    let mut firsts = Vec::new(alloc);
    for range in ranges {
        add_first(&mut firsts, family, range)?;
    }
    Ok(firsts)
}

/// Adds that of a range, if it is of a family.
fn add_first(firsts: &mut Vec<u128>, family: Family, range: &Cidr) -> Result<(), NoMemory>
    ensures { OnOk result (firsts.new.items ≡ firsts.old.items
        ++ map spec.first_in (filter (λ r. same_family r.base.family family) (range.now ∷ []))) }
{
    if range.base().family() == family {
        firsts.push(first_in(range))?;
    }
    Ok(())
}

/// The numbers of the first addresses past the ranges of a family.
pub fn pasts_in(alloc: Global, family: Family, ranges: &[Cidr]) -> Result<Vec<u128>, NoMemory>
    ensures { IfOk result (λ ns. ns.items ≡ ends.pasts_in family ranges.now) }
{
    let mut pasts = Vec::new(alloc);
    for range in ranges {
        add_past(&mut pasts, family, range)?;
    }
    Ok(pasts)
}

/// Adds that of a range, if it is of a family and there is one.
fn add_past(pasts: &mut Vec<u128>, family: Family, range: &Cidr) -> Result<(), NoMemory>
    ensures { OnOk result (pasts.new.items ≡ pasts.old.items
        ++ flat_map spec.past (filter (λ r. same_family r.base.family family) (range.now ∷ []))) }
{
    if range.base().family() != family {
        return Ok(());
    }
    if let Some(past) = past(range, first_in(range)) {
        pasts.push(past)?;
    }
    Ok(())
}

/// Numbers in order.
pub fn in_order(mut numbers: Vec<u128>) -> Vec<u128>
    ensures rises { IsNonDecreasing result.items }
    ensures same { (test : ℕ → Bool) → count_by test result.items ≡ count_by test numbers.items }
{
    numbers.sort_unstable();
    numbers
}

/// How many of some numbers in order are at most this one.
pub fn count_to(numbers: &[u128], number: u128) -> usize
    requires { IsNonDecreasing numbers.now }
    ensures { result ≡ ends.count_to number numbers.now }
{
    numbers.partition_point(|one| *one <= number)
}
