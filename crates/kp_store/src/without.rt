//! Tags that aren't among others.
ghost use Rattle.std.specs.Prelude.{◌≡◌, ◌++◌, ◌∷◌, [], cond, not, IfOk, OnOk, is_some};
ghost use Rattle.std.specs.List.{filter};
ghost use Rattle.std.specs.Map.{lookup};
ghost use Rattle.kp_store.specs.Indexes.{is_among};

use indexmap::IndexMap;
use kp_base::{Copied, Items, NoMemory};
use std::alloc::Global;
use std::hash::Hash;

/// The tags that aren't among others. A tag is looked for by its hash, so that many cost no more each
/// than few.
pub fn without<T: Eq + Hash + Copied>(
    alloc: Global,
    tags: &[T],
    others: &[T],
) -> Result<Items<T>, NoMemory>
    ensures { IfOk result (λ ts. ts ≡ filter (λ t. not (is_among T.eq others.now t)) tags.now) }
{
    let mut rest = Vec::new(alloc);
    if tags.is_empty() {
        return Ok(Items::from_vec(rest));
    }
    let known = known_tags(alloc, others)?;
    for tag in tags {
        add_unless(alloc, &mut rest, known.contains_key(tag), tag)?;
    }
    Ok(Items::from_vec(rest))
}

/// Adds a copy of a tag that isn't known.
fn add_unless<T: Copied>(
    alloc: Global,
    rest: &mut Vec<T>,
    is_known: bool,
    tag: &T,
) -> Result<(), NoMemory>
    ensures { OnOk result (rest.new.items ≡ rest.old.items ++ cond (not is_known) (tag.now ∷ []) []) }
{
    if !is_known {
        rest.push(tag.copy(alloc)?)?;
    }
    Ok(())
}

/// Tags, to be found by their hashes.
fn known_tags<T: Eq + Hash + Copied>(alloc: Global, tags: &[T]) -> Result<IndexMap<T, ()>, NoMemory>
    ensures { IfOk result (λ known. (t : T) → is_some (lookup (T.eq t) known.entries)
        ≡ is_among T.eq tags.now t) }
{
    let mut known = IndexMap::new(alloc);
    for tag in tags {
        known.insert(tag.copy(alloc)?, ())?;
    }
    Ok(known)
}
