//! Numbers of pairs, by which Services are found by their selectors.
ghost use Rattle.std.specs.Prelude.{◌≡◌, IfOk};
ghost use Rattle.kp_store.specs.Numbers as spec;

use kp_base::{NoMemory, Pair, Text};
use std::alloc::Global;
use std::collections::BTreeMap;
use std::hash::{FoldHasher, Hash, Hasher};

/// The number of a namespace, with which each path begins.
pub fn start_of(namespace: &Text) -> u64
    ensures { result ≡ spec.start_of namespace.now }
{
    let mut hasher = FoldHasher::default();
    namespace.hash(&mut hasher);
    hasher.finish()
}

/// The number of a pair.
fn number_of(pair: &Pair) -> u64
    ensures { result ≡ spec.number_of pair.now }
{
    let mut hasher = FoldHasher::default();
    pair.key.hash(&mut hasher);
    pair.value.hash(&mut hasher);
    hasher.finish()
}

/// The number of a path that goes on with a number.
#[tactic(auto, unfolding(crate::specs::Numbers::joined))]
pub fn joined(at: u64, number: u64) -> u64
    ensures { result ≡ spec.joined at number }
{
    at.wrapping_mul(0x9e37_79b9_7f4a_7c15).wrapping_add(number)
}

/// The numbers of pairs, each once and in their order.
pub fn numbers_of(alloc: Global, pairs: &[Pair]) -> Result<Vec<u64>, NoMemory>
    ensures { IfOk result (λ ns. ns.items ≡ spec.numbers_of pairs.now) }
{
    let mut numbers = BTreeMap::new(alloc);
    for pair in pairs {
        numbers.insert(number_of(pair), ())?;
    }
    Ok(numbers.keys().copied().collect(alloc)?)
}
