//! The places of a table's chains while edits are made. Those that are written are put in before,
//! which takes memory, and those without a chain are taken out afterwards, which takes none.
ghost use Rattle.std.specs.Prelude.{◌≡◌, IfOk, OnOk};
ghost use Rattle.kp_rules.specs.Placed as Placed;
ghost use Rattle.kp_rules.specs.Placed.{ArePlaces, AreStaged, HaveWritten};
ghost use Rattle.kp_table_defs.specs.Rebuild.{Chains};

use crate::chain_map::ChainMap;
use kp_base::NoMemory;
use kp_types::{ChainAt, Edit};
use std::alloc::Global;
use std::collections::BTreeSet;

/// Puts in the places that these edits write. Without memory some of them may be there. Edits stand
/// mostly in the order of their places, and a tree's nodes are searched from their first key on, so
/// that the last is put in first.
pub fn add_written(places: &mut BTreeSet<ChainAt>, edits: &[Edit]) -> Result<(), NoMemory>
    ensures staged { (chains : Chains) → ArePlaces places.old chains
        → AreStaged places.new chains edits.now }
    ensures written { OnOk result (HaveWritten places.new edits.now) }
{
    for i in (0..edits.len()).rev() {
        if let Edit::Write { at, .. } = &edits[i] {
            places.insert(at.same())?;
        }
    }
    Ok(())
}

/// Takes out the places of these edits that have no chain.
pub fn remove_empty(places: &mut BTreeSet<ChainAt>, edits: &[Edit], chains: &ChainMap)
    requires { AreStaged places.old chains.now.chains edits.now }
    ensures { ArePlaces places.new chains.now.chains }
{
    for edit in edits {
        let at = place_of(edit);
        if chains.get(at).is_none() {
            places.remove(at);
        }
    }
}

/// The same places once more.
#[tactic(auto, using(crate::proofs::Placing::copy_is))]
pub fn copied(alloc: Global, places: &BTreeSet<ChainAt>) -> Result<BTreeSet<ChainAt>, NoMemory>
    ensures { IfOk result (λ copy. copy.keys ≡ places.now.keys) }
{
    let mut copy = BTreeSet::new(alloc);
    for at in places {
        copy.insert(at.same())?;
    }
    Ok(copy)
}

/// The place of an edit.
fn place_of(edit: &Edit) -> &ChainAt
    ensures { result.now ≡ Placed.place_of edit.now }
{
    match edit {
        Edit::Write { at, .. } => at,
        Edit::Remove { at } => at,
    }
}
