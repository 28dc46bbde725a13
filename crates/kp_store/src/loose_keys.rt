//! Keys of objects, in no order.
ghost use Rattle.std.specs.Prelude.{◌≡◌, ◌<◌, ◌^◌, ◌↔◌, map, IfOk, OnOk, OnErr, IsTrue};
ghost use Rattle.std.specs.List.{list_any};
ghost use Rattle.std.specs.Ordering.{eq_by_cmp};
ghost use Rattle.kp_base.specs.Keys.{key_cmp};
ghost use Rattle.kp_base.specs.declared.key.ObjectKey.{ObjectKey};
ghost use Rattle.std.specs.FinMap as finite;

use indexmap::IndexMap;
use kp_base::{NoMemory, ObjectKey};
use std::alloc::Global;
use std::marker::Model;

/// Keys, which contracts see as a finite map to nothing. They are found by their hashes: to put one
/// costs the same however many there are, and in whatever order they come.
pub struct LooseKeys {
    entries: IndexMap<ObjectKey, ()>,
}

impl Drop for LooseKeys {
    fn drop(self) {
        let LooseKeys { entries } = self;
    }
}

impl Model for LooseKeys {
    ghost use base.Stored.{coded_unit};
    ghost use Rattle.std.specs.FinMap as finite;
    ghost use Rattle.kp_base.specs.Keys.{key_cmp};
    ghost use Rattle.kp_store.specs.Indexes.{Keys};
    ghost use Rattle.kp_store.specs.Stored.{keyed_code};

    ghost Value = { Keys };

    ghost coded = { keyed_code coded_unit };

    ghost view = { λ k. finite.from_entries {R = key_cmp} k.entries.entries };
}

impl LooseKeys {
    /// No keys.
    pub fn new(alloc: Global) -> LooseKeys
        ensures { result ≡ finite.empty }
    {
        LooseKeys {
            entries: IndexMap::new(alloc),
        }
    }

    /// The keys.
    pub fn keys(&self, alloc: Global) -> Result<Vec<&ObjectKey>, NoMemory>
        ensures { IfOk result (λ ks. (k : ObjectKey) → list_any (eq_by_cmp key_cmp k)
            (map (λ q. q.now) ks.items) ≡ finite.contains_key self.now k) }
    {
        Ok(self.entries.keys().collect(alloc)?)
    }

    /// Whether there are no keys.
    pub fn is_empty(&self) -> bool
        ensures { IsTrue result ↔ (self.now ≡ finite.empty) }
    {
        self.entries.is_empty()
    }

    /// Whether a key is there.
    pub fn has(&self, key: &ObjectKey) -> bool
        ensures { result ≡ finite.contains_key self.now key.now }
    {
        self.entries.contains_key(key)
    }

    /// How many keys there are.
    pub fn len(&self) -> usize
        ensures len { result ≡ finite.len self.now }
        ensures small { result < 2 ^ 63 }
    {
        self.entries.len()
    }

    /// Puts a key. Where memory is out, all stays.
    pub fn put(&mut self, key: ObjectKey) -> Result<(), NoMemory>
        ensures ok { OnOk result (self.new ≡ finite.insert self.old key tt) }
        ensures err { OnErr result (self.new ≡ self.old) }
    {
        self.entries.insert(key, ())?;
        Ok(())
    }

    /// Takes out a key, if it is there.
    pub fn take(&mut self, key: &ObjectKey)
        ensures { self.new ≡ finite.remove self.old key.now }
    {
        self.entries.swap_remove(key);
    }
}
