//! Published and newest values.
ghost use Rattle.std.specs.Prelude.{◌≡◌, ◌+◌, ◌<◌, ◌≤◌, [], length, map, IfOk, OnOk, OnErr};
ghost use Rattle.std.specs.BTreeMap.{keys};
ghost use Rattle.std.specs.FinMap as finite;
ghost use Rattle.std.specs.List.{filter};
ghost use Rattle.std.specs.List.Sorted.{IsStrictlySortedBy};
ghost use Rattle.std.specs.Option.{option_copied, option_eq};
ghost use Rattle.indexmap.specs.IndexMap.{spare};
ghost use Rattle.kp_tracker.specs.Tracked as spec;

use crate::kinds::{Key, Told};
use indexmap::IndexMap;
use kp_base::NoMemory;
use std::alloc::Global;
use std::collections::BTreeMap;
use std::marker::Model;

/// The published value of each key, and the newest one. Contracts see two finite maps, `published`
/// and `newest`. It costs what was updated since it was settled: no call but `pending` and `settle`
/// looks at more than one key, and these look at the keys that were updated.
pub struct Tracker<K: Key, V> {
    published: IndexMap<K, V>,
    updated: BTreeMap<K, Option<V>>,
}

impl<K: Key, V: Drop> Drop for Tracker<K, V> {
    fn drop(self) {
        let Tracker { published, updated } = self;
    }
}

/// There is room for all that settling adds.
impl<K: Key, V> Model for Tracker<K, V> {
    ghost use Rattle.std.specs.Prelude.{◌≤◌, length};
    ghost use Rattle.indexmap.specs.IndexMap.{spare};
    ghost use Rattle.kp_tracker.specs.Tracked.{Tracked, tracked_code};

    ghost Value = { Tracked K V };

    ghost coded = { tracked_code K.code V.code };

    ghost view = { λ t. record {
      entries = t.published.entries;
      updates = t.updated.entries;
    } };

    ghost invariant = { λ t. length t.updated.entries ≤ spare t.published };
}

impl<K: Key, V: Drop> Tracker<K, V> {
    /// No values.
    pub fn new(alloc: Global) -> Tracker<K, V>
        ensures published { spec.published K.order result ≡ finite.empty }
        ensures newest { spec.newest K.order result ≡ finite.empty }
    {
        Tracker {
            published: IndexMap::new(alloc),
            updated: BTreeMap::new(alloc),
        }
    }

    /// The value of a key that was published last, if there was one.
    pub fn published(&self, key: &K) -> Option<&V>
        ensures { option_copied result ≡ finite.get (spec.published K.order self.now) key.now }
    {
        self.published.get(key)
    }

    /// The newest value of a key, if there is one.
    pub fn newest(&self, key: &K) -> Option<&V>
        ensures { option_copied result ≡ finite.get (spec.newest K.order self.now) key.now }
    {
        match self.updated.get(key) {
            None => self.published(key),
            Some(value) => value.as_ref(),
        }
    }

    /// Takes over the newest value of a key, or that it has none. Where memory is out, all stays.
    pub fn update(&mut self, key: K, value: Option<V>) -> Result<(), NoMemory>
        ensures published { spec.published K.order self.new ≡ spec.published K.order self.old }
        ensures newest { OnOk result (spec.newest K.order self.new
            ≡ spec.with_value K.order (spec.newest K.order self.old) key value) }
        ensures err { OnErr result (spec.newest K.order self.new ≡ spec.newest K.order self.old) }
    {
        self.published.reserve(self.updated.len() + 1)?;
        self.updated.insert(key, value)?;
        Ok(())
    }

    /// Publishes the newest values. It takes no memory.
    pub fn settle(&mut self)
        ensures published { spec.published K.order self.new ≡ spec.newest K.order self.old }
        ensures newest { spec.newest K.order self.new ≡ spec.newest K.order self.old }
    {
        publish_all(&mut self.published, &mut self.updated);
    }
}

impl<K: Key, V: Told> Tracker<K, V> {
    /// The keys whose newest value differs from the published one, in order.
    pub fn pending(&self, alloc: Global) -> Result<Vec<&K>, NoMemory>
        ensures { IfOk result (λ keys. spec.IsPending K.order V.same self.now
            (map (λ k. k.now) keys.items)) }
    {
        changed_keys(alloc, &self.published, &self.updated)
    }
}

/// Publishes updates, for which there is room.
fn publish_all<K: Key, V: Drop>(
    published: &mut IndexMap<K, V>,
    updated: &mut BTreeMap<K, Option<V>>,
)
    requires { length updated.old.entries ≤ spare published.old }
    ensures values { finite.from_entries {R = K.order} published.new.entries
        ≡ spec.updated K.order (finite.from_entries published.old.entries) updated.old.entries }
    ensures none { updated.new.entries ≡ [] }
{
    while let Some((key, value)) = updated.pop_last() {
        publish(published, key, value);
    }
}

/// Publishes a value of a key, or that it has none. There is room for it.
fn publish<K: Key, V: Drop>(published: &mut IndexMap<K, V>, key: K, value: Option<V>)
    requires { 0 < spare published.old }
    ensures value { finite.from_entries {R = K.order} published.new.entries
        ≡ spec.with_value K.order (finite.from_entries published.old.entries) key value }
    ensures room { spare published.old ≤ spare published.new + 1 }
{
    match value {
        None => {
            published.swap_remove(&key);
        }
        Some(value) => {
            let _ = published.insert(key, value);
        }
    }
}

/// The keys of updates that give another value than the published one. They are in order.
fn changed_keys<'a, K: Key, V: Told>(
    alloc: Global,
    published: &IndexMap<K, V>,
    updated: &'a BTreeMap<K, Option<V>>,
) -> Result<Vec<&'a K>, NoMemory>
    ensures keys { IfOk result (λ found. map (λ k. k.now) found.items
        ≡ map (λ e. e.0) (filter (spec.is_other K.order V.same published.now.entries)
        updated.now.entries)) }
    ensures in_order { IsStrictlySortedBy K.cmp (keys updated.now) }
{
    let mut found = Vec::new(alloc);
    for (key, value) in updated.iter() {
        if !is_same(published.get(key), value) {
            found.push(key)?;
        }
    }
    Ok(found)
}

/// Whether a key's values are alike, or it has neither.
fn is_same<V: Told>(published: Option<&V>, newest: &Option<V>) -> bool
    ensures { result ≡ option_eq V.same (option_copied published.entry) newest.now }
{
    match (published, newest) {
        (None, None) => true,
        (Some(a), Some(b)) => a.is_same(b),
        _ => false,
    }
}
