//! Elements that count once.
ghost use Rattle.std.specs.Prelude.{◌≡◌, ◌++◌, ◌∷◌, [], cond, true, IfOk, OnOk};
ghost use Rattle.std.specs.BTreeSet.{contains};
ghost use Rattle.std.specs.Ordering.{eq_by_cmp};
ghost use Rattle.kp_object_defs.specs.Order.{first_places};

use kp_base::NoMemory;
use std::alloc::Global;
use std::cmp::Ord;
use std::collections::BTreeSet;

/// The elements, each at its first place. A set has those that were found, so that long lists cost
/// little more than their length.
pub fn once<T: Copy + Ord + Drop>(alloc: Global, items: &[T]) -> Result<Vec<T>, NoMemory>
    ensures { IfOk result (λ found. found.items ≡ first_places (eq_by_cmp T.cmp) items.now) }
{
    let mut found = Vec::new(alloc);
    let mut seen = BTreeSet::new(alloc);
    for item in items {
        push_new(&mut found, &mut seen, *item)?;
    }
    Ok(found)
}

/// Adds an element, unless it was seen before.
fn push_new<T: Copy + Ord + Drop>(
    found: &mut Vec<T>,
    seen: &mut BTreeSet<T>,
    item: T,
) -> Result<(), NoMemory>
    ensures found { OnOk result (found.new.items
        ≡ cond (contains T.cmp seen.old item) found.old.items (found.old.items ++ item ∷ [])) }
    ensures seen { OnOk result ((x : T) → contains T.cmp seen.new x
        ≡ cond (eq_by_cmp T.cmp item x) true (contains T.cmp seen.old x)) }
{
    if seen.insert(item)? {
        found.push(item)?;
    }
    Ok(())
}
