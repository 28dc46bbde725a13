//! The keys of the objects with one tag.
ghost use Rattle.std.specs.Prelude.{◌≡◌, ◌&&◌, ◌||◌, ◌↔◌, not, false, map, IfOk, OnOk, OnErr, IsTrue};
ghost use Rattle.std.specs.List.{list_any};
ghost use Rattle.std.specs.FinMap as finite;
ghost use Rattle.std.specs.Ordering.{eq_by_cmp};
ghost use Rattle.kp_base.specs.Keys.{key_cmp};
ghost use Rattle.kp_base.specs.declared.key.ObjectKey.{ObjectKey};
ghost use Rattle.kp_base.specs.contracts.key.ObjectKeyPartialEq.TheImpl as key_eq;
ghost use Rattle.kp_store.specs.Indexes.{is_among};

use crate::further::FurtherKeys;
use crate::key_set::KeySet;
use kp_base::{Copied, NoMemory, ObjectKey};
use std::alloc::Global;
use std::marker::Model;

/// How many keys a bucket keeps in its list.
const FEW: usize = 8;

/// Keys, each once, which contracts see as a map to nothing. Most tags have few objects: the first
/// keys stand in a list, where one is added without a look at the others, and further ones are found
/// by their hashes.
pub struct Bucket {
    few: Vec<ObjectKey>,
    many: FurtherKeys,
}

impl Drop for Bucket {
    fn drop(self) {
        let Bucket { few, many } = self;
    }
}

impl Model for Bucket {
    ghost use base.Stored.{coded_unit};
    ghost use Rattle.std.specs.Prelude.{◌≡◌, ◌≤◌, length, true};
    ghost use Rattle.kp_store.specs.Indexes.{Keys, are_once, with_keys};
    ghost use Rattle.kp_store.specs.declared.bucket.TheConstants.{FEW};
    ghost use Rattle.kp_store.specs.Stored.{keyed_code};

    ghost Value = { Keys };

    ghost coded = { keyed_code coded_unit };

    ghost view = { λ b. with_keys b.few.items b.many };

    ghost invariant = { λ b. (length b.few.items ≤ FEW) × (are_once b.few.items b.many ≡ true) };
}

impl Bucket {
    /// One key.
    pub fn of(alloc: Global, key: &ObjectKey) -> Result<Bucket, NoMemory>
        ensures { IfOk result (λ b. (k : ObjectKey) → finite.contains_key b k
            ≡ eq_by_cmp key_cmp k key.now) }
    {
        let mut few = Vec::with_capacity(alloc, 1)?;
        few.push(key.copy(alloc)?)?;
        Ok(Bucket {
            few,
            many: FurtherKeys::none(),
        })
    }

    /// Whether no key is there.
    pub fn is_empty(&self) -> bool
        ensures { IsTrue result ↔ (self.now ≡ finite.empty) }
    {
        self.few.as_slice().is_empty() && self.many.is_empty()
    }

    /// How many keys there are.
    pub fn size(&self) -> usize
        ensures { result ≡ finite.len self.now }
    {
        self.few.len() + self.many.len()
    }

    /// Whether a key is there.
    pub fn has(&self, key: &ObjectKey) -> bool
        ensures { result ≡ finite.contains_key self.now key.now }
    {
        is_listed(key, self.few.as_slice()) || self.many.has(key)
    }

    /// Adds a key that isn't there. Where memory is out, all stays.
    pub fn add(&mut self, alloc: Global, key: &ObjectKey) -> Result<(), NoMemory>
        requires absent { finite.contains_key self.old key.now ≡ false }
        ensures ok { OnOk result ((k : ObjectKey) → finite.contains_key self.new k
            ≡ eq_by_cmp key_cmp k key.now || finite.contains_key self.old k) }
        ensures err { OnErr result (self.new ≡ self.old) }
    {
        let key = key.copy(alloc)?;
        if self.few.len() < FEW {
            self.few.push(key)?;
            Ok(())
        } else {
            self.many.put(alloc, key)
        }
    }

    /// Takes out a key, if it is there.
    pub fn take(&mut self, key: &ObjectKey)
        ensures { (k : ObjectKey) → finite.contains_key self.new k
            ≡ not (eq_by_cmp key_cmp k key.now) && finite.contains_key self.old k }
    {
        self.few.retain(|other| *other != *key);
        self.many.take(key);
    }

    /// The keys, in no order.
    pub fn keys(&self, alloc: Global) -> Result<Vec<&ObjectKey>, NoMemory>
        ensures { IfOk result (λ ks. (k : ObjectKey) → list_any (eq_by_cmp key_cmp k)
            (map (λ q. q.now) ks.items) ≡ finite.contains_key self.now k) }
    {
        let mut keys: Vec<&ObjectKey> = self.few.iter().collect(alloc)?;
        let mut many = self.many.keys(alloc)?;
        keys.append(&mut many)?;
        Ok(keys)
    }

    /// Puts the keys beside others.
    pub fn put_into(&self, alloc: Global, keys: &mut KeySet) -> Result<(), NoMemory>
        ensures { OnOk result ((k : ObjectKey) → finite.contains_key keys.new k
            ≡ finite.contains_key self.now k || finite.contains_key keys.old k) }
    {
        let few: Vec<&ObjectKey> = self.few.iter().collect(alloc)?;
        keys.put_all(alloc, few.as_slice())?;
        let many = self.many.keys(alloc)?;
        keys.put_all(alloc, many.as_slice())
    }
}

/// Whether a key is among keys.
fn is_listed(key: &ObjectKey, keys: &[ObjectKey]) -> bool
    ensures { result ≡ is_among key_eq.ghosts.eq keys.now key.now }
{
    keys.iter().any(|other| *key == *other)
}
