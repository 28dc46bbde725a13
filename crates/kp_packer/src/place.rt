//! The third step: what is left goes into new slices, or into the fullest slice that has room for
//! it.
ghost use Rattle.std.specs.Prelude.{◌≡◌, ◌+◌, ◌<◌, ◌≤◌, ◌++◌, ◌∷◌, [], map, take, drop, length, cond};
ghost use Rattle.std.specs.Prelude.{None, Some, IfOk, OnOk};
ghost use Rattle.std.specs.List.{list_any, position};
ghost use Rattle.kp_object_defs.specs.Packing as spec;
ghost use Rattle.kp_packer.specs.Views.{shown, filling_of, progress_of, placed_of, with_made, IsChunked};

use crate::fill::Fill;
use kp_base::NoMemory;
use kp_types::Wanted;
use std::alloc::Global;

/// The slices of a group, and the endpoints of each new one.
#[derive(Drop)]
pub struct Placed<'a> {
    pub fills: Vec<Fill<'a>>,
    pub made: Vec<Vec<&'a Wanted>>,
}

/// New slices that are full, and how many endpoints they have in all.
#[derive(Drop)]
struct Chunks<'a> {
    made: Vec<Vec<&'a Wanted>>,
    used: usize,
}

/// Places what is left.
pub fn place_left<'a>(
    alloc: Global,
    most: usize,
    fills: Vec<Fill<'a>>,
    left: &[&'a Wanted],
) -> Result<Placed<'a>, NoMemory>
    requires some { 1 ≤ most }
    ensures { IfOk result (λ p. placed_of p
        ≡ spec.placed_from most (progress_of fills.entry.items (shown left.now))) }
{
    let Chunks { made, used } = full_chunks(alloc, most, left)?;
    let (_, rest) = left.split_at(used);
    let mut placed = Placed { fills, made };
    place_rest(alloc, most, rest, &mut placed)?;
    Ok(placed)
}

/// Places what fills no new slice: in the fullest slice that has room for it, or else in a new one.
fn place_rest<'a>(
    alloc: Global,
    most: usize,
    rest: &[&'a Wanted],
    placed: &mut Placed<'a>,
) -> Result<(), NoMemory>
    requires few { length rest.now < most }
    ensures { OnOk result (placed_of placed.new ≡ with_made (placed_of placed.old).made
        (spec.place_left (length (shown rest.now)) most (placed_of placed.old).fillings
        (shown rest.now))) }
{
    if rest.is_empty() {
        return Ok(());
    }
    match fullest(most, rest.len(), &placed.fills) {
        Some(size) => fill_first(most, size, rest, &mut placed.fills)?,
        None => placed.made.push(Vec::from_slice(alloc, rest)?)?,
    }
    Ok(())
}

/// The full new slices that are made of the first endpoints that are left.
fn full_chunks<'a>(alloc: Global, most: usize, left: &[&'a Wanted]) -> Result<Chunks<'a>, NoMemory>
    requires some { 1 ≤ most }
    ensures used { IfOk result (λ c. c.used ≤ length left.now) }
    ensures rest { IfOk result (λ c. length left.now < c.used + most) }
    ensures made { IfOk result (λ c. IsChunked most (shown left.now)
        (map (λ v. shown v.items) c.made.items) (shown (drop c.used left.now))) }
{
    let mut made = Vec::new(alloc);
    let mut used = 0;
    while left.len() - used >= most {
        let (_, rest) = left.split_at(used);
        add_chunk(alloc, most, rest, &mut made)?;
        used += most;
    }
    Ok(Chunks { made, used })
}

/// Adds a full new slice of the first endpoints that are left.
fn add_chunk<'a>(
    alloc: Global,
    most: usize,
    left: &[&'a Wanted],
    made: &mut Vec<Vec<&'a Wanted>>,
) -> Result<(), NoMemory>
    requires many { most ≤ length left.now }
    ensures { OnOk result (map (λ v. shown v.items) made.new.items
        ≡ map (λ v. shown v.items) made.old.items ++ shown (take most left.now) ∷ []) }
{
    let (chunk, _) = left.split_at(most);
    made.push(Vec::from_slice(alloc, chunk)?)?;
    Ok(())
}

/// How many endpoints the fullest unchanged slice with room for so many more has, if there is one.
fn fullest(most: usize, more: usize, fills: &[Fill]) -> Option<usize>
    ensures { result ≡ cond (list_any (spec.has_room most more) (map filling_of fills.now))
        (Some (spec.fullest most more (map filling_of fills.now))) None }
{
    let mut fullest = None;
    for fill in fills {
        if has_room(most, more, fill) {
            fullest = Some(fullest.unwrap_or(0).max(fill.endpoints.len()));
        }
    }
    fullest
}

/// Whether an unchanged slice has room for so many more.
fn has_room(most: usize, more: usize, fill: &Fill) -> bool
    ensures { result ≡ spec.has_room most more (filling_of fill.now) }
{
    !fill.is_changed && fill.endpoints.len() <= most && more <= most - fill.endpoints.len()
}

/// The first slice with room for these endpoints that has so many takes them.
fn fill_first<'a>(
    most: usize,
    size: usize,
    more: &[&'a Wanted],
    fills: &mut Vec<Fill<'a>>,
) -> Result<(), NoMemory>
    ensures { OnOk result (map filling_of fills.new.items
        ≡ spec.give_first (spec.is_as_full most (length more.now) size) (shown more.now)
        (map filling_of fills.old.items)) }
{
    if let Some(place) = first_as_full(most, more.len(), size, fills) {
        fills[place].take_more(more)?;
    }
    Ok(())
}

/// The place of the first slice with room for so many more that has so many endpoints.
fn first_as_full(most: usize, more: usize, size: usize, fills: &[Fill]) -> Option<usize>
    ensures { result ≡ position (λ f. spec.is_as_full most more size (filling_of f)) fills.now }
{
    fills
        .iter()
        .position(|fill| is_as_full(most, more, size, fill))
}

/// Whether a slice with room for so many more has so many endpoints.
fn is_as_full(most: usize, more: usize, size: usize, fill: &Fill) -> bool
    ensures { result ≡ spec.is_as_full most more size (filling_of fill.now) }
{
    has_room(most, more, fill) && fill.endpoints.len() == size
}
