//! Packing: all groups, each by itself.
ghost use Rattle.std.specs.Prelude.{◌≡◌, ◌++◌, ◌≤◌, true, IfOk, OnOk, map, not, length};
ghost use Rattle.std.specs.List.{filter, list_all, flat_map};
ghost use Rattle.kp_object_defs.specs.Packing as spec;
ghost use Rattle.kp_object_defs.specs.Packing.{packed_slices};
ghost use Rattle.kp_object_defs.specs.PackingLaws.{are_managed_for, have_own_names, have_own_pods, are_taken, IsPackingOf, CanGoOn};
ghost use Rattle.kp_packer.specs.Views.{shown, filling_of, placed_of, new_slice_of, packings_of};

use crate::entry::same_entries;
use crate::fill::{Fill, fill_changed};
use crate::groups::{grouped, left_over};
use crate::keep::keep_all;
use crate::left::Left;
use crate::names::{NewSlice, new_slices};
use crate::order::{names_in_order, slices_in_order, sorted_slices};
use crate::place::{Placed, place_left};
use crate::ports::groups_of;
use indexmap::IndexSet;
use kp_base::{Copied, Family, Items, NoMemory, ObjectKey, Text, fits_memory};
use kp_pack_laws::{packing_goes_on, packing_places_each};
use kp_types::{Packed, Slice, SliceEndpoint, SlicePort, Wanted};
use std::alloc::Global;

/// The slices of all groups by now, and the new ones to come.
struct Packing<'a, 'g> {
    fills: Vec<Fill<'a>>,
    made: Vec<NewSlice<'a, 'g>>,
}

impl Drop for Packing<'_, '_> {
    fn drop(self) {
        let Packing { fills, made } = self;
    }
}

/// Packs the endpoints that a Service wants into its managed slices of a family, with at most
/// so many endpoints each (KEP-752). Packing can go on from the slices after it.
pub fn pack<'a>(
    alloc: Global,
    service: &ObjectKey,
    family: Family,
    before: &'a Items<Slice>,
    wanted: &'a Items<Wanted>,
    most: u32,
    taken: &Items<Text>,
) -> Result<Packed, NoMemory>
    requires some { 1 ≤ most }
    requires room { most ≤ 1000 }
    requires managed { are_managed_for family service.now before.now ≡ true }
    requires names { have_own_names before.now ≡ true }
    requires pods { have_own_pods wanted.now ≡ true }
    requires taken { are_taken taken.now before.now ≡ true }
    ensures exact { IfOk result (λ p. p
        ≡ packed_slices family service.now before.now wanted.now most taken.now) }
    ensures packing { IfOk result (λ p. IsPackingOf most wanted.now p.slices) }
    ensures next { IfOk result (λ p. CanGoOn family service.now wanted.now taken.now p) }
{
    packing_places_each();
    packing_goes_on();
    fits_memory(wanted.as_slice());
    fits_memory(taken.as_slice());
    packed(alloc, service, family, before, wanted, most, taken)
}

/// The slices after packing.
fn packed<'a>(
    alloc: Global,
    service: &ObjectKey,
    family: Family,
    before: &'a Items<Slice>,
    wanted: &'a Items<Wanted>,
    most: u32,
    taken: &Items<Text>,
) -> Result<Packed, NoMemory>
    requires some { 1 ≤ most }
    requires pods { have_own_pods wanted.now ≡ true }
    ensures exact { IfOk result (λ p. p
        ≡ packed_slices family service.now before.now wanted.now most taken.now) }
{
    let before = before.as_slice();
    let wanted = wanted.as_slice();
    let groups = groups_of(alloc, wanted)?;
    let packing = pack_all(alloc, most as usize, &groups, before, wanted)?;
    let made = new_slices(alloc, service, family, taken.as_slice(), &packing.made)?;
    let left_over = left_over(alloc, &groups, before)?;
    packed_by(alloc, left_over, &packing.fills, made)
}

/// Packs the slices and the wanted endpoints of all groups, each group by itself.
fn pack_all<'a, 'g>(
    alloc: Global,
    most: usize,
    groups: &'g IndexSet<Vec<SlicePort>>,
    before: &'a [Slice],
    wanted: &'a [Wanted],
) -> Result<Packing<'a, 'g>, NoMemory>
    requires some { 1 ≤ most }
    requires groups { map (λ g. g.items) groups.now.keys ≡ spec.groups_of wanted.now }
    requires pods { have_own_pods wanted.now ≡ true }
    ensures fills { IfOk result (λ p. map filling_of p.fills.items ≡ flat_map (λ g. g.fillings)
        (spec.pack_groups most (spec.in_slice_order before.now) wanted.now)) }
    ensures made { IfOk result (λ p. map new_slice_of p.made.items ≡ flat_map (λ g. g.made)
        (spec.pack_groups most (spec.in_slice_order before.now) wanted.now)) }
{
    let sorted = slices_in_order(alloc, before)?;
    let slices = grouped(alloc, groups, &sorted)?;
    let endpoints = grouped(alloc, groups, &references(alloc, wanted)?)?;
    pack_groups(alloc, most, groups.as_slice(), &slices, &endpoints)
}

/// References to values.
fn references<'a, T>(alloc: Global, values: &'a [T]) -> Result<Vec<&'a T>, NoMemory>
    ensures { IfOk result (λ refs. shown refs.items ≡ values.now) }
{
    Ok(values.iter().collect(alloc)?)
}

/// Packs all groups, each by itself.
fn pack_groups<'a, 'g>(
    alloc: Global,
    most: usize,
    groups: &'g [Vec<SlicePort>],
    slices: &[Vec<&'a Slice>],
    wanted: &[Vec<&'a Wanted>],
) -> Result<Packing<'a, 'g>, NoMemory>
    requires some { 1 ≤ most }
    requires slices { length slices.now ≡ length groups.now }
    requires wanted { length wanted.now ≡ length groups.now }
    requires pods { list_all (λ v. have_own_pods (shown v.items)) wanted.now ≡ true }
    ensures fills { IfOk result (λ p. map filling_of p.fills.items ≡ flat_map (λ g. g.fillings)
        (packings_of most (map (λ g. g.items) groups.now) (map (λ v. shown v.items) slices.now)
        (map (λ v. shown v.items) wanted.now))) }
    ensures made { IfOk result (λ p. map new_slice_of p.made.items ≡ flat_map (λ g. g.made)
        (packings_of most (map (λ g. g.items) groups.now) (map (λ v. shown v.items) slices.now)
        (map (λ v. shown v.items) wanted.now))) }
{
    let mut packing = Packing {
        fills: Vec::new(alloc),
        made: Vec::new(alloc),
    };
    for group in 0..groups.len() {
        let placed = pack_group(alloc, most, &slices[group], &wanted[group])?;
        add_group(&groups[group], placed, &mut packing)?;
    }
    Ok(packing)
}

/// Adds what a group became.
fn add_group<'a, 'g>(
    ports: &'g Vec<SlicePort>,
    placed: Placed<'a>,
    packing: &mut Packing<'a, 'g>,
) -> Result<(), NoMemory>
    ensures fills { OnOk result (map filling_of packing.new.fills.items
        ≡ map filling_of packing.old.fills.items ++ (placed_of placed.entry).fillings) }
    ensures made { OnOk result (map new_slice_of packing.new.made.items
        ≡ map new_slice_of packing.old.made.items
        ++ map (λ more. record { ports = ports.now.items; wanted = more })
        (placed_of placed.entry).made) }
{
    let Placed { fills, made } = placed;
    let mut fills = fills;
    packing.fills.append(&mut fills)?;
    add_made(ports, made, &mut packing.made)
}

/// Adds the new slices of a group.
fn add_made<'a, 'g>(
    ports: &'g Vec<SlicePort>,
    made: Vec<Vec<&'a Wanted>>,
    slices: &mut Vec<NewSlice<'a, 'g>>,
) -> Result<(), NoMemory>
    ensures { OnOk result (map new_slice_of slices.new.items ≡ map new_slice_of slices.old.items
        ++ map (λ more. record { ports = ports.now.items; wanted = more })
        (map (λ v. shown v.items) made.entry.items)) }
{
    for wanted in made {
        slices.push(NewSlice { ports, wanted })?;
    }
    Ok(())
}

/// Packs a group: keeps what may stay, fills what is changed, and places what is left.
fn pack_group<'a>(
    alloc: Global,
    most: usize,
    slices: &[&'a Slice],
    wanted: &[&'a Wanted],
) -> Result<Placed<'a>, NoMemory>
    requires some { 1 ≤ most }
    requires pods { have_own_pods (shown wanted.now) ≡ true }
    ensures { IfOk result (λ p. placed_of p
        ≡ spec.packed_group most (shown slices.now) (shown wanted.now)) }
{
    let mut left = Left::of(alloc, wanted)?;
    let mut fills = keep_all(alloc, most, slices, &mut left)?;
    let rest = left.rest(alloc)?;
    let used = fill_changed(most, &mut fills, &rest)?;
    let (_, rest) = rest.split_at(used);
    place_left(alloc, most, fills, rest)
}

/// The slices after packing, and the names of those that are new, that stay and differ, and that
/// are gone.
fn packed_by(
    alloc: Global,
    left_over: Vec<&Slice>,
    fills: &[Fill],
    made: Vec<Slice>,
) -> Result<Packed, NoMemory>
    ensures { IfOk result (λ p. p
        ≡ spec.packed_by (shown left_over.entry.items) (map filling_of fills.now) made.items) }
{
    let created = names_in_order(alloc, &references(alloc, &made)?)?;
    let updated = names_in_order(alloc, &updated_slices(alloc, fills)?)?;
    let deleted = names_in_order(alloc, &deleted_slices(left_over, fills)?)?;
    let slices = sorted_slices(alloc, all_slices(alloc, fills, made)?)?;
    Ok(Packed {
        slices,
        created,
        updated,
        deleted,
    })
}

/// The slices that stay and differ.
fn updated_slices<'a>(alloc: Global, fills: &[Fill<'a>]) -> Result<Vec<&'a Slice>, NoMemory>
    ensures { IfOk result (λ updated. shown updated.items
        ≡ map (λ f. f.slice) (filter spec.is_updated (map filling_of fills.now))) }
{
    let mut updated = Vec::new(alloc);
    for fill in fills {
        if is_updated(fill) {
            updated.push(fill.slice)?;
        }
    }
    Ok(updated)
}

/// Whether a slice stays, and its endpoints aren't what they were.
fn is_updated(fill: &Fill) -> bool
    ensures { result ≡ spec.is_updated (filling_of fill.now) }
{
    stays(fill) && !same_entries(fill.slice.endpoints.as_slice(), &fill.endpoints)
}

/// Whether a slice stays, since it isn't empty.
fn stays(fill: &Fill) -> bool
    ensures { result ≡ spec.stays (filling_of fill.now) }
{
    !fill.endpoints.is_empty()
}

/// The slices of no group, and those that were emptied.
fn deleted_slices<'a>(
    left_over: Vec<&'a Slice>,
    fills: &[Fill<'a>],
) -> Result<Vec<&'a Slice>, NoMemory>
    ensures { IfOk result (λ deleted. shown deleted.items ≡ shown left_over.entry.items
        ++ map (λ f. f.slice) (filter (λ f. not (spec.stays f)) (map filling_of fills.now))) }
{
    let mut deleted = left_over;
    for fill in fills {
        if !stays(fill) {
            deleted.push(fill.slice)?;
        }
    }
    Ok(deleted)
}

/// The slices that stay, as they became, and the new ones.
fn all_slices(alloc: Global, fills: &[Fill], made: Vec<Slice>) -> Result<Vec<Slice>, NoMemory>
    ensures { IfOk result (λ all. all.items
        ≡ map spec.filled_slice (filter spec.stays (map filling_of fills.now)) ++ made.items) }
{
    let mut made = made;
    let mut all = Vec::new(alloc);
    for fill in fills {
        if stays(fill) {
            all.push(filled_slice(alloc, fill)?)?;
        }
    }
    all.append(&mut made)?;
    Ok(all)
}

/// A slice as it became.
fn filled_slice(alloc: Global, fill: &Fill) -> Result<Slice, NoMemory>
    ensures { IfOk result (λ s. s ≡ spec.filled_slice (filling_of fill.now)) }
{
    Ok(Slice {
        key: fill.slice.key.copy(alloc)?,
        service: fill.slice.service.copy(alloc)?,
        managed: fill.slice.managed,
        family: fill.slice.family,
        ports: fill.slice.ports.copy(alloc)?,
        endpoints: entries(alloc, &fill.endpoints)?,
    })
}

/// Copies of entries.
fn entries(alloc: Global, entries: &[&SliceEndpoint]) -> Result<Items<SliceEndpoint>, NoMemory>
    ensures { IfOk result (λ copies. copies ≡ shown entries.now) }
{
    let mut copies = Vec::new(alloc);
    for entry in entries {
        copies.push(entry.copy(alloc)?)?;
    }
    Ok(Items::from_vec(copies))
}
