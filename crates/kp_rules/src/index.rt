//! The places of a chain's rules by what they ask for.
ghost use Rattle.std.specs.Prelude.{◌≡◌, true, List, Some, slice_get, IfOk};
ghost use Rattle.std.specs.Option.{option_copied};
ghost use Rattle.kp_types.specs.declared.rule.Rule.{Rule};
ghost use Rattle.kp_rules.specs.Destinations.{next_place};
ghost use Rattle.kp_rules.specs.Index as Index;

use crate::destination::{Destination, destination_of};
use kp_base::NoMemory;
use kp_types::Rule;
use std::alloc::Global;

/// The place of a rule, from 0, and the destination that it asks for.
#[derive(Clone, Copy, Debug, PartialEq, Eq, PartialOrd, Ord)]
pub struct KeyedPlace {
    pub to: Destination,
    pub place: u64,
}

impl KeyedPlace {
    /// Whether this stands before another.
    fn is_before(&self, other: &KeyedPlace) -> bool
        ensures { result ≡ Index.stands_before self.now other.now }
    {
        self.cmp(other).is_lt()
    }
}

/// The places of the keyed rules, in order of destinations and then of places.
pub(crate) fn keyed_places(alloc: Global, rules: &[Rule]) -> Result<Vec<KeyedPlace>, NoMemory>
    ensures { IfOk result (λ keyed. Index.AreKeyed rules.now keyed.items) }
{
    let mut keyed = unsorted_places(alloc, rules)?;
    keyed.sort_unstable();
    Ok(keyed)
}

/// The places of the keyed rules.
fn unsorted_places(alloc: Global, rules: &[Rule]) -> Result<Vec<KeyedPlace>, NoMemory>
    ensures { IfOk result (λ keyed. keyed.items ≡ Index.keyed_places rules.now) }
{
    Ok(
        rules
            .iter()
            .enumerate()
            .filter_map(|(place, rule)| keyed_place(place as u64, rule))
            .collect(alloc)?,
    )
}

/// A rule's place with the destination that it asks for.
fn keyed_place(place: u64, rule: &Rule) -> Option<KeyedPlace>
    ensures { result ≡ Index.keyed_place (place, rule.now) }
{
    let to = destination_of(rule)?;
    Some(KeyedPlace { to, place })
}

/// The places of the rules that aren't keyed.
pub(crate) fn other_places(alloc: Global, rules: &[Rule]) -> Result<Vec<u64>, NoMemory>
    ensures { IfOk result (λ others. others.items ≡ Index.other_places rules.now) }
{
    Ok(
        rules
            .iter()
            .enumerate()
            .filter_map(|(place, rule)| other_place(place as u64, rule))
            .collect(alloc)?,
    )
}

/// A rule's place, where it isn't keyed.
fn other_place(place: u64, rule: &Rule) -> Option<u64>
    ensures { result ≡ Index.other_place (place, rule.now) }
{
    match destination_of(rule) {
        None => Some(place),
        Some(_) => None,
    }
}

/// The earlier of two places, where there is one.
pub(crate) fn earlier(one: Option<u64>, other: Option<u64>) -> Option<u64>
    ensures { result ≡ Index.earlier one other }
{
    match (one, other) {
        (None, place) => place,
        (place, None) => place,
        (Some(one), Some(other)) => Some(one.min(other)),
    }
}

/// The least place at or after `from`, among these of a chain's rules, of one that asks for this
/// destination. Most chains have no such rules.
pub(crate) fn next_keyed(keyed: &[KeyedPlace], from: u64, to: &Destination) -> Option<u64>
    ensures { (rules : List Rule) → Index.AreKeyed rules keyed.now
        → result ≡ next_place (Index.asks to.now) rules from }
{
    if keyed.is_empty() {
        None
    } else {
        search_keyed(keyed, from, to)
    }
}

/// The same, among all of these places.
fn search_keyed(keyed: &[KeyedPlace], from: u64, to: &Destination) -> Option<u64>
    ensures { (rules : List Rule) → Index.AreKeyed rules keyed.now
        → result ≡ next_place (Index.asks to.now) rules from }
{
    let first = KeyedPlace {
        to: *to,
        place: from,
    };
    let at = keyed.partition_point(|one| one.is_before(&first));
    match element(keyed, at) {
        None => None,
        Some(found) => {
            if found.to == *to {
                Some(found.place)
            } else {
                None
            }
        }
    }
}

/// The least place at or after `from`, among these of a chain's rules, of one that isn't keyed.
/// Where all rules before it are such too, it stands at its own index.
pub(crate) fn next_other(others: &[u64], from: u64) -> Option<u64>
    ensures { (rules : List Rule) → others.now ≡ Index.other_places rules
        → result ≡ next_place Index.is_other rules from }
{
    if stands_at_itself(others, from) {
        Some(from)
    } else {
        search_other(others, from)
    }
}

/// Whether a place stands at its own index.
fn stands_at_itself(places: &[u64], place: u64) -> bool
    ensures { result ≡ true → Some place ≡ slice_get places.now place }
{
    match element(places, place as usize) {
        None => false,
        Some(found) => *found == place,
    }
}

/// The least place at or after `from`, among all of these places.
fn search_other(others: &[u64], from: u64) -> Option<u64>
    ensures { (rules : List Rule) → others.now ≡ Index.other_places rules
        → result ≡ next_place Index.is_other rules from }
{
    let at = others.partition_point(|place| *place < from);
    element(others, at).copied()
}

/// The element at an index.
pub(crate) fn element<T>(items: &[T], i: usize) -> Option<&T>
    ensures { option_copied result ≡ slice_get items.now i }
{
    items.get(i)
}
