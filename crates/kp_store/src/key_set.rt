//! Keys of objects, in order.
ghost use Rattle.std.specs.Prelude.{◌≡◌, ◌||◌, true, map, IfOk, OnOk, OnErr};
ghost use Rattle.std.specs.List.{list_any};
ghost use Rattle.std.specs.Ordering.{eq_by_cmp};
ghost use Rattle.kp_base.specs.Keys.{key_cmp};
ghost use Rattle.kp_base.specs.declared.key.ObjectKey.{ObjectKey};
ghost use Rattle.std.specs.FinMap as finite;

use crate::named::Name;
use kp_base::{NoMemory, ObjectKey};
use std::alloc::Global;
use std::collections::BTreeMap;
use std::marker::Model;

/// Keys, which contracts see as a finite map to nothing.
pub struct KeySet {
    entries: BTreeMap<ObjectKey, ()>,
}

impl Drop for KeySet {
    fn drop(self) {
        let KeySet { entries } = self;
    }
}

impl Model for KeySet {
    ghost use base.Stored.{coded_unit};
    ghost use Rattle.std.specs.FinMap as finite;
    ghost use Rattle.kp_base.specs.Keys.{key_cmp};
    ghost use Rattle.kp_store.specs.Indexes.{Keys};
    ghost use Rattle.kp_store.specs.Stored.{keyed_code};

    ghost Value = { Keys };

    ghost coded = { keyed_code coded_unit };

    ghost view = { λ k. finite.from_entries {R = key_cmp} k.entries.entries };
}

impl KeySet {
    /// No keys.
    pub fn new(alloc: Global) -> KeySet
        ensures { result ≡ finite.empty }
    {
        KeySet {
            entries: BTreeMap::new(alloc),
        }
    }

    /// The keys, in order.
    pub fn keys(&self, alloc: Global) -> Result<Vec<&ObjectKey>, NoMemory>
        ensures { IfOk result (λ ks. map (λ k. k.now) ks.items ≡ finite.keys self.now) }
    {
        Ok(self.entries.keys().collect(alloc)?)
    }

    /// Puts a key. Where memory is out, all stays.
    pub fn put(&mut self, key: ObjectKey) -> Result<(), NoMemory>
        ensures ok { OnOk result (self.new ≡ finite.insert self.old key tt) }
        ensures err { OnErr result (self.new ≡ self.old) }
    {
        self.entries.insert(key, ())?;
        Ok(())
    }

    /// Puts the keys of names. Where memory is out, some of them may be there, and none is lost. Names
    /// stand mostly in order, and a tree's nodes are searched from their first key on, so that the
    /// last is put first.
    pub fn put_all<K: Name>(&mut self, alloc: Global, names: &[&K]) -> Result<(), NoMemory>
        ensures all { OnOk result ((k : ObjectKey) → finite.contains_key self.new k
            ≡ list_any (λ q. eq_by_cmp key_cmp k (K.key_of q.now)) names.now
            || finite.contains_key self.old k) }
        ensures kept { OnErr result ((k : ObjectKey) → finite.contains_key self.old k ≡ true
            → finite.contains_key self.new k ≡ true) }
    {
        for i in (0..names.len()).rev() {
            self.put(names[i].key(alloc)?)?;
        }
        Ok(())
    }
}
