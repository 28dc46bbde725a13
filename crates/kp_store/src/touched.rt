//! The Services that events touched.
ghost use Rattle.std.specs.Prelude.{◌≡◌, false, true, OnOk, OnErr};

use crate::key_set::KeySet;
use kp_base::{Copied, NoMemory, ObjectKey};
use std::alloc::Global;

/// Services that events touched: all of them, or those of some keys. A key may be that of a Service
/// that isn't there any more.
pub struct Touched {
    pub all: bool,
    pub keys: KeySet,
}

impl Drop for Touched {
    fn drop(self) {
        let Touched { all, keys } = self;
    }
}

impl Touched {
    ghost use Rattle.std.specs.List.{list_any};
    ghost use Rattle.std.specs.Ordering.{eq_by_cmp};
    ghost use Rattle.kp_base.specs.Keys.{key_cmp};
    ghost use Rattle.kp_base.specs.declared.key.ObjectKey.{ObjectKey};
    ghost use Rattle.kp_store.specs.Touched.{AddsTo, StaysIn, is_touched};
    ghost use Rattle.kp_touch_defs.specs.Touches.{is_key};

    /// No Services.
    pub fn new(alloc: Global) -> Touched
        ensures { (k : ObjectKey) → is_touched result k ≡ false }
    {
        Touched {
            all: false,
            keys: KeySet::new(alloc),
        }
    }

    /// Adds all Services.
    pub fn add_all(&mut self)
        ensures { AddsTo (λ k. true) self.old self.new }
    {
        self.all = true;
    }

    /// Adds the Service of a key. Where memory is out, all stays.
    pub fn add(&mut self, key: ObjectKey) -> Result<(), NoMemory>
        ensures ok { OnOk result (AddsTo (is_key key) self.old self.new) }
        ensures err { OnErr result (self.new ≡ self.old) }
    {
        self.keys.put(key)
    }

    /// Adds the Services of keys. Where memory is out, some may be added, and all that were touched
    /// still are.
    pub fn add_each(&mut self, alloc: Global, keys: &[ObjectKey]) -> Result<(), NoMemory>
        ensures ok { OnOk result (AddsTo (λ k. list_any (eq_by_cmp key_cmp k) keys.now)
            self.old self.new) }
        ensures err { OnErr result (StaysIn self.old self.new) }
    {
        for key in keys {
            self.add(key.copy(alloc)?)?;
        }
        Ok(())
    }

    /// Adds others. Where memory is out, some may be added, and all that were touched still are.
    pub fn join(&mut self, alloc: Global, others: &Touched) -> Result<(), NoMemory>
        ensures ok { OnOk result (AddsTo (is_touched others.now) self.old self.new) }
        ensures err { OnErr result (StaysIn self.old self.new) }
    {
        let keys = others.keys.keys(alloc)?;
        self.keys.put_all(alloc, keys.as_slice())?;
        self.all |= others.all;
        Ok(())
    }
}
