//! Clashes of names.
ghost use Rattle.std.specs.Prelude.{◌≡◌, ◌<◌, None, Some, OnOk, IfOk, IfErr, IfSome, length, slice_get, option_and_then};
ghost use Rattle.kp_choice_defs.specs.Names as spec;
ghost use Rattle.kp_choice_defs.specs.Names.{first_clash};
ghost use Rattle.kp_names.specs.Places.{clash_at, other_of, IsWithin, TellsClash};

use crate::fault::NameFault;
use crate::namer::Namer;
use crate::namesakes::Namesakes;
use indexmap::IndexMap;
use kp_base::{Copied, Items, NoMemory};
use kp_types::{ChainKey, Clash};
use std::alloc::Global;

impl Namer {
    /// Checks that no two different keys have one name. Otherwise the fault has the clash whose
    /// first key stands first, and of those the one whose second key does.
    pub fn check_names(&self, alloc: Global, keys: &Items<ChainKey>) -> Result<(), NameFault>
        ensures ok { OnOk result (first_clash (spec.chain_name self.now) keys.now ≡ None) }
        ensures clash { IfErr result (TellsClash
            (first_clash (spec.chain_name self.now) keys.now)) }
    {
        let keys = keys.as_slice();
        match first_places(*self, alloc, keys)? {
            None => Ok(()),
            Some((first, second)) => Err(NameFault::ChainClash(Clash {
                name: self.chain_name(&keys[first]),
                first: keys[first].copy(alloc)?,
                second: keys[second].copy(alloc)?,
            })),
        }
    }
}

/// The places of the first clash.
fn first_places(
    namer: Namer,
    alloc: Global,
    keys: &[ChainKey],
) -> Result<Option<(usize, usize)>, NoMemory>
    ensures ok { IfOk result (λ places.
        option_and_then (clash_at (spec.chain_name namer) keys.now) places
        ≡ first_clash (spec.chain_name namer) keys.now) }
    ensures within { IfOk result (λ places.
        IfSome places (λ p. (p.0 < length keys.now) × (p.1 < length keys.now))) }
{
    let mut clash = None;
    let mut seen = IndexMap::new(alloc);
    for place in (0..keys.len()).rev() {
        let name = namer.chain_name(&keys[place]);
        let other = first_other(keys, place, seen.get(&name).copied());
        seen.insert(
            name,
            Namesakes {
                first: place,
                other,
            },
        )?;
        if let Some(second) = other {
            clash = Some((place, second));
        }
    }
    Ok(clash)
}

/// The place of the first key behind this one with the same name that is another key, where these
/// are the places of those with the name.
fn first_other(keys: &[ChainKey], place: usize, namesakes: Option<Namesakes>) -> Option<usize>
    requires place { place < length keys.now }
    requires within { IfSome namesakes (IsWithin (length keys.now)) }
    ensures value { (k : _) → slice_get keys.now place ≡ Some k
        → result ≡ other_of keys.now namesakes k }
    ensures within { IfSome result (λ i. i < length keys.now) }
{
    let namesakes = namesakes?;
    if keys[place] == keys[namesakes.first] {
        namesakes.other
    } else {
        Some(namesakes.first)
    }
}
