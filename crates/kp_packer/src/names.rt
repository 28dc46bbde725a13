//! New slices and their names.
ghost use Rattle.std.specs.Prelude.{◌≡◌, ℕ, List, [], ◌∷◌, ◌++◌, IfOk, OnOk, map, not, take, bytes_eq};
ghost use Rattle.std.specs.List.{list_any, filter};
ghost use Rattle.kp_object_defs.specs.Packing as spec;
ghost use Rattle.kp_packer.specs.Views.{shown, new_slice_of};

use indexmap::IndexSet;
use itoa::Buffer;
use kp_base::{Copied, Family, Items, NoMemory, ObjectKey, Text};
use kp_types::{AddressType, Slice, SliceEndpoint, SlicePort, Wanted};
use std::alloc::Global;

/// A new slice to come: its ports in order, and its endpoints.
#[derive(Drop)]
pub struct NewSlice<'a, 'g> {
    pub ports: &'g Vec<SlicePort>,
    pub wanted: Vec<&'a Wanted>,
}

/// New slices with the free names, the least first.
pub fn new_slices(
    alloc: Global,
    service: &ObjectKey,
    family: Family,
    taken: &[Text],
    made: &[NewSlice],
) -> Result<Vec<Slice>, NoMemory>
    ensures { IfOk result (λ slices. slices.items
        ≡ spec.new_slices family service.now taken.now (map new_slice_of made.now)) }
{
    let names = free_names(alloc, service, taken, made.len())?;
    let mut slices = Vec::new(alloc);
    for place in 0..names.len().min(made.len()) {
        slices.push(new_slice(alloc, service, family, &names[place], &made[place])?)?;
    }
    Ok(slices)
}

/// A new slice with its name.
fn new_slice(
    alloc: Global,
    service: &ObjectKey,
    family: Family,
    name: &Text,
    new: &NewSlice,
) -> Result<Slice, NoMemory>
    ensures { IfOk result (λ s. s
        ≡ spec.new_slice family service.now (name.now, new_slice_of new.now)) }
{
    Ok(Slice {
        key: ObjectKey {
            namespace: service.namespace.copy(alloc)?,
            name: name.copy(alloc)?,
        },
        service: Some(service.name.copy(alloc)?),
        managed: true,
        family: type_of(family),
        ports: copies(alloc, new.ports)?,
        endpoints: entries_of(alloc, &new.wanted)?,
    })
}

/// The address type of slices of a family.
fn type_of(family: Family) -> AddressType
    ensures { result ≡ spec.type_of family }
{
    match family {
        Family::V4 => AddressType::Ipv4,
        Family::V6 => AddressType::Ipv6,
    }
}

/// Copies of values.
pub fn copies<T: Copied>(alloc: Global, values: &[T]) -> Result<Items<T>, NoMemory>
    ensures { IfOk result (λ copies. copies ≡ values.now) }
{
    let mut copies = Vec::new(alloc);
    for value in values {
        copies.push(value.copy(alloc)?)?;
    }
    Ok(Items::from_vec(copies))
}

/// The entries of wanted endpoints.
fn entries_of(alloc: Global, wanted: &[&Wanted]) -> Result<Items<SliceEndpoint>, NoMemory>
    ensures { IfOk result (λ entries. entries ≡ map (λ w. w.entry) (shown wanted.now)) }
{
    let mut entries = Vec::new(alloc);
    for endpoint in wanted {
        entries.push(endpoint.entry.copy(alloc)?)?;
    }
    Ok(Items::from_vec(entries))
}

/// The first names that are free, up to so many.
fn free_names(
    alloc: Global,
    service: &ObjectKey,
    taken: &[Text],
    count: usize,
) -> Result<Vec<Text>, NoMemory>
    ensures { IfOk result (λ names. names.items
        ≡ take count (spec.free_names service.now taken.now count)) }
{
    let taken_names = set_of(alloc, taken)?;
    let mut names = Vec::new(alloc);
    for number in 0..taken.len() as u128 + count as u128 {
        if names.len() < count {
            add_free(alloc, service, number + 1, &taken_names, &mut names)?;
        }
    }
    Ok(names)
}

/// Adds the name with this number, if it isn't taken.
fn add_free(
    alloc: Global,
    service: &ObjectKey,
    number: u128,
    taken: &IndexSet<Text>,
    names: &mut Vec<Text>,
) -> Result<(), NoMemory>
    ensures { OnOk result (names.new.items ≡ names.old.items
        ++ filter (λ n. not (list_any (bytes_eq n) taken.now.keys))
        (spec.slice_name service.now number ∷ [])) }
{
    let name = slice_name(alloc, service, number)?;
    if !taken.contains(&name) {
        names.push(name)?;
    }
    Ok(())
}

/// The set of names.
fn set_of(alloc: Global, names: &[Text]) -> Result<IndexSet<Text>, NoMemory>
    ensures { IfOk result (λ set. (name : List ℕ)
        → list_any (bytes_eq name) set.keys ≡ list_any (bytes_eq name) names.now) }
{
    let mut set = IndexSet::new(alloc);
    add_names(alloc, names, &mut set)?;
    Ok(set)
}

/// Adds names to a set without one.
fn add_names(alloc: Global, names: &[Text], set: &mut IndexSet<Text>) -> Result<(), NoMemory>
    requires none { set.old.keys ≡ [] }
    ensures { OnOk result ((name : List ℕ)
        → list_any (bytes_eq name) set.new.keys ≡ list_any (bytes_eq name) names.now) }
{
    for name in names {
        set.insert(name.copy(alloc)?)?;
    }
    Ok(())
}

/// A name of a Service's slices by its number.
fn slice_name(alloc: Global, service: &ObjectKey, number: u128) -> Result<Text, NoMemory>
    ensures { IfOk result (λ name. name ≡ spec.slice_name service.now number) }
{
    let mut name = String::from_str(alloc, service.name.as_str())?;
    name.push_str("-kp")?;
    name.push_str(Buffer::new().format(number))?;
    Text::from_string(name)
}
