//! Slices and wanted endpoints by the group that they belong to.
ghost use Rattle.std.specs.Prelude.{◌≡◌, [], replicate, IfOk, OnOk, IfSome, ◌<◌, length, map, not, true};
ghost use Rattle.std.specs.List.{list_any, filter, position};
ghost use Rattle.kp_object_defs.specs.Packing as spec;
ghost use Rattle.kp_object_defs.specs.Packing.{is_in_group, same_ports};
ghost use Rattle.kp_object_defs.specs.PackingLaws.{are_distinct};
ghost use Rattle.kp_packer.specs.Views.{shown, added_at};

use crate::ports::{HasPorts, sorted_ports};
use indexmap::IndexSet;
use kp_base::{Items, NoMemory};
use kp_types::{Slice, SlicePort};
use std::alloc::Global;

/// The values with the ports of each group, in their order.
pub fn grouped<'a, T: HasPorts>(
    alloc: Global,
    groups: &IndexSet<Vec<SlicePort>>,
    all: &[&'a T],
) -> Result<Vec<Vec<&'a T>>, NoMemory>
    requires distinct { are_distinct same_ports (map (λ g. g.items) groups.now.keys) ≡ true }
    ensures { IfOk result (λ lists. map (λ v. shown v.items) lists.items
        ≡ map (λ g. filter (λ x. is_in_group g.items (T.ports_of x)) (shown all.now))
        groups.now.keys) }
{
    let mut lists = empty_lists(alloc, groups.len())?;
    for value in all {
        add_at(group_of(alloc, groups, value.ports())?, *value, &mut lists)?;
    }
    Ok(lists)
}

/// Adds a value to the list at a place, if there is one.
fn add_at<'a, T>(
    place: Option<usize>,
    value: &'a T,
    lists: &mut Vec<Vec<&'a T>>,
) -> Result<(), NoMemory>
    requires within { IfSome place (λ i. i < length lists.old.items) }
    ensures { OnOk result (map (λ v. shown v.items) lists.new.items
        ≡ added_at place value.now (map (λ v. shown v.items) lists.old.items)) }
{
    if let Some(place) = place {
        lists[place].push(value)?;
    }
    Ok(())
}

/// The group that a list of ports belongs to, by its place.
fn group_of(
    alloc: Global,
    groups: &IndexSet<Vec<SlicePort>>,
    ports: &Items<SlicePort>,
) -> Result<Option<usize>, NoMemory>
    ensures found { IfOk result (λ group. group
        ≡ position (λ g. is_in_group g.items ports.now) groups.now.keys) }
    ensures within { IfOk result (λ group. IfSome group (λ i. i < length groups.now.keys)) }
{
    let sorted = sorted_ports(alloc, ports)?;
    Ok(groups.get_index_of(&sorted))
}

/// Whether a list of ports belongs to a group.
fn has_group(
    alloc: Global,
    groups: &IndexSet<Vec<SlicePort>>,
    ports: &Items<SlicePort>,
) -> Result<bool, NoMemory>
    ensures { IfOk result (λ has. has
        ≡ list_any (λ g. is_in_group g.items ports.now) groups.now.keys) }
{
    let sorted = sorted_ports(alloc, ports)?;
    Ok(groups.contains(&sorted))
}

/// So many empty lists.
fn empty_lists<'a, T>(alloc: Global, count: usize) -> Result<Vec<Vec<&'a T>>, NoMemory>
    ensures { IfOk result (λ lists. map (λ v. shown v.items) lists.items ≡ replicate count []) }
{
    let mut lists = Vec::new(alloc);
    for _ in 0..count {
        lists.push(Vec::new(alloc))?;
    }
    Ok(lists)
}

/// The slices of no group.
pub fn left_over<'a>(
    alloc: Global,
    groups: &IndexSet<Vec<SlicePort>>,
    slices: &'a [Slice],
) -> Result<Vec<&'a Slice>, NoMemory>
    ensures { IfOk result (λ over. shown over.items
        ≡ filter (λ s. not (list_any (λ g. is_in_group g.items s.ports) groups.now.keys))
        slices.now) }
{
    let mut over = Vec::new(alloc);
    for slice in slices {
        if !has_group(alloc, groups, &slice.ports)? {
            over.push(slice)?;
        }
    }
    Ok(over)
}
