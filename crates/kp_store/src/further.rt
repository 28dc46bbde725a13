//! The further keys of a bucket.
ghost use Rattle.std.specs.Prelude.{◌≡◌, ◌<◌, ◌^◌, ◌↔◌, map, IfOk, OnOk, OnErr, IsTrue};
ghost use Rattle.std.specs.List.{list_any};
ghost use Rattle.std.specs.Ordering.{eq_by_cmp};
ghost use Rattle.kp_base.specs.Keys.{key_cmp};
ghost use Rattle.kp_base.specs.declared.key.ObjectKey.{ObjectKey};
ghost use Rattle.std.specs.FinMap as finite;

use crate::loose_keys::LooseKeys;
use kp_base::{NoMemory, ObjectKey};
use std::alloc::Global;
use std::marker::Model;

/// Keys in no order, which contracts see as a finite map to nothing. They stand behind a pointer,
/// since most buckets have none.
pub struct FurtherKeys {
    keys: Option<Box<LooseKeys>>,
}

impl Drop for FurtherKeys {
    fn drop(self) {
        let FurtherKeys { keys } = self;
    }
}

impl Model for FurtherKeys {
    ghost use base.Stored.{coded_unit};
    ghost use Rattle.std.specs.Option.{option_map, unwrap_or};
    ghost use Rattle.std.specs.FinMap as finite;
    ghost use Rattle.kp_store.specs.Indexes.{Keys};
    ghost use Rattle.kp_store.specs.Stored.{keyed_code};

    ghost Value = { Keys };

    ghost coded = { keyed_code coded_unit };

    ghost view = { λ f. unwrap_or (option_map (λ b. b.value) f.keys) finite.empty };
}

impl FurtherKeys {
    /// No keys.
    pub fn none() -> FurtherKeys
        ensures { result ≡ finite.empty }
    {
        FurtherKeys { keys: None }
    }

    /// The keys.
    pub fn keys(&self, alloc: Global) -> Result<Vec<&ObjectKey>, NoMemory>
        ensures { IfOk result (λ ks. (k : ObjectKey) → list_any (eq_by_cmp key_cmp k)
            (map (λ q. q.now) ks.items) ≡ finite.contains_key self.now k) }
    {
        match &self.keys {
            None => Ok(Vec::new(alloc)),
            Some(keys) => keys.keys(alloc),
        }
    }

    /// Whether there are no keys.
    pub fn is_empty(&self) -> bool
        ensures { IsTrue result ↔ (self.now ≡ finite.empty) }
    {
        match &self.keys {
            None => true,
            Some(keys) => keys.is_empty(),
        }
    }

    /// Whether a key is there.
    pub fn has(&self, key: &ObjectKey) -> bool
        ensures { result ≡ finite.contains_key self.now key.now }
    {
        match &self.keys {
            None => false,
            Some(keys) => keys.has(key),
        }
    }

    /// How many keys there are.
    pub fn len(&self) -> usize
        ensures len { result ≡ finite.len self.now }
        ensures small { result < 2 ^ 63 }
    {
        match &self.keys {
            None => 0,
            Some(keys) => keys.len(),
        }
    }

    /// Puts a key. Where memory is out, all stays.
    pub fn put(&mut self, alloc: Global, key: ObjectKey) -> Result<(), NoMemory>
        ensures ok { OnOk result (self.new ≡ finite.insert self.old key tt) }
        ensures err { OnErr result (self.new ≡ self.old) }
    {
        match &mut self.keys {
            Some(keys) => keys.put(key),
            None => {
                self.keys = Some(one_key(alloc, key)?);
                Ok(())
            }
        }
    }

    /// Takes out a key, if it is there.
    pub fn take(&mut self, key: &ObjectKey)
        ensures { self.new ≡ finite.remove self.old key.now }
    {
        match &mut self.keys {
            Some(keys) => keys.take(key),
            None => {}
        }
    }
}

/// A key alone.
fn one_key(alloc: Global, key: ObjectKey) -> Result<Box<LooseKeys>, NoMemory>
    ensures { IfOk result (λ keys. keys.value ≡ finite.insert finite.empty key tt) }
{
    let mut keys = LooseKeys::new(alloc);
    keys.put(key)?;
    Ok(Box::new(alloc, keys)?)
}
