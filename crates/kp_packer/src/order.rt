//! Slices and names in order.
ghost use Rattle.std.specs.Prelude.{◌≡◌, [], IfOk, OnOk, map};
ghost use Rattle.std.specs.Map.Iter.{deref_pair};
ghost use Rattle.kp_base.specs.Keys.{text_cmp};
ghost use Rattle.kp_object_defs.specs.Order.{by_key, in_order};
ghost use Rattle.kp_object_defs.specs.Packing as spec;
ghost use Rattle.kp_packer.specs.Views.{shown};

use kp_base::{Copied, Items, NoMemory, Text};
use kp_types::Slice;
use std::alloc::Global;
use std::collections::BTreeMap;

/// References to slices in order of their names.
pub fn slices_in_order<'a>(alloc: Global, slices: &'a [Slice]) -> Result<Vec<&'a Slice>, NoMemory>
    ensures { IfOk result (λ sorted. shown sorted.items ≡ spec.in_slice_order slices.now) }
{
    let mut by_name = BTreeMap::new(alloc);
    for slice in slices {
        by_name.insert(&slice.key.name, slice)?;
    }
    values(alloc, by_name)
}

/// Slices in order of their names.
pub fn sorted_slices(alloc: Global, slices: Vec<Slice>) -> Result<Items<Slice>, NoMemory>
    ensures { IfOk result (λ sorted. sorted ≡ spec.in_slice_order slices.items) }
{
    let mut by_name = BTreeMap::new(alloc);
    add_slices(alloc, slices, &mut by_name)?;
    Ok(Items::from_vec(values(alloc, by_name)?))
}

/// Adds slices by their names to a map without one.
fn add_slices(
    alloc: Global,
    slices: Vec<Slice>,
    by_name: &mut BTreeMap<Text, Slice>,
) -> Result<(), NoMemory>
    requires none { by_name.old.entries ≡ [] }
    ensures { OnOk result (by_name.new.entries ≡ by_key text_cmp (λ s. s.key.name) slices.items) }
{
    for slice in slices {
        by_name.insert(slice.key.name.copy(alloc)?, slice)?;
    }
    Ok(())
}

/// The values of a map, in the order of their keys.
fn values<K: Ord + Drop, V: Drop>(alloc: Global, by_key: BTreeMap<K, V>) -> Result<Vec<V>, NoMemory>
    ensures { IfOk result (λ values. values.items ≡ map (λ e. e.1) by_key.entries) }
{
    Ok(by_key.into_values().collect(alloc)?)
}

/// The keys of a map, in their order.
fn keys<K: Ord + Drop, V: Drop>(alloc: Global, by_key: BTreeMap<K, V>) -> Result<Vec<K>, NoMemory>
    ensures { IfOk result (λ keys. keys.items ≡ map (λ e. e.0) by_key.entries) }
{
    Ok(by_key.into_keys().collect(alloc)?)
}

/// The names of slices, in order.
pub fn names_in_order(alloc: Global, slices: &[&Slice]) -> Result<Items<Text>, NoMemory>
    ensures { IfOk result (λ names. names ≡ spec.slice_names (shown slices.now)) }
{
    let mut names = Vec::new(alloc);
    for name in keys(alloc, set_of_names(alloc, slices)?)?.as_slice() {
        names.push(name.copy(alloc)?)?;
    }
    Ok(Items::from_vec(names))
}

/// The names of slices, each under itself.
fn set_of_names<'a>(
    alloc: Global,
    slices: &[&'a Slice],
) -> Result<BTreeMap<&'a Text, &'a Text>, NoMemory>
    ensures { IfOk result (λ names. map deref_pair names.entries
        ≡ in_order text_cmp (map (λ k. (k, k)) (map (λ s. s.key.name) (shown slices.now)))) }
{
    let mut names = BTreeMap::new(alloc);
    for place in (0..slices.len()).rev() {
        let name = &slices[place].key.name;
        names.insert(name, name)?;
    }
    Ok(names)
}
