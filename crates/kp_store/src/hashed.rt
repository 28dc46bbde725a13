//! Objects of one kind, found by the hashes of their keys, or of names that stand for these.
ghost use Rattle.std.specs.Prelude.{◌≡◌, ◌++◌, map, IfOk, OnOk, OnErr, option_copied};
ghost use Rattle.std.specs.List.{filter_map};
ghost use Rattle.std.specs.Option.{option_to_list};
ghost use Rattle.kp_base.specs.Keys.{key_cmp};
ghost use Rattle.kp_base.specs.declared.key.ObjectKey.{ObjectKey};
ghost use Rattle.kp_store.specs.Named.{keyed};
ghost use Rattle.std.specs.FinMap as finite;

use crate::key_set::KeySet;
use crate::named::Name;
use crate::selections::copies;
use indexmap::IndexMap;
use kp_base::{Items, Kept, NoMemory, ObjectKey};
use std::alloc::Global;
use std::marker::Model;

/// Objects of one kind, which contracts see as a finite map from their keys. A look-up compares one
/// name, however many there are; they have no order but one that is made when it is asked for.
pub struct Hashed<K: Name, X> {
    entries: IndexMap<K, Kept<X>>,
}

impl<K: Name, X: Drop> Drop for Hashed<K, X> {
    fn drop(self) {
        let Hashed { entries } = self;
    }
}

impl<K: Name, X> Model for Hashed<K, X> {
    ghost use Rattle.std.specs.FinMap as finite;
    ghost use Rattle.kp_base.specs.Keys.{key_cmp};
    ghost use Rattle.kp_store.specs.Named.{keyed};
    ghost use Rattle.kp_store.specs.Stored.{keyed_code};

    ghost Value = { finite.FinMap key_cmp X };

    ghost coded = { keyed_code X.code };

    ghost view = { λ h. finite.from_entries {R = key_cmp} (keyed K.key_of h.entries.entries) };
}

impl<K: Name, X: Drop> Hashed<K, X> {
    /// No objects.
    pub fn new(alloc: Global) -> Hashed<K, X>
        ensures { result ≡ finite.empty }
    {
        Hashed {
            entries: IndexMap::new(alloc),
        }
    }

    /// The object of a name, if there is one.
    pub fn get(&self, name: &K) -> Option<&X>
        ensures { option_copied result ≡ finite.get self.now (K.key_of name.now) }
    {
        named(&self.entries, name)
    }

    /// The object of a key, if there is one.
    pub fn at(&self, key: &ObjectKey) -> Option<&X>
        ensures { option_copied result ≡ finite.get self.now key.now }
    {
        match K::of(key) {
            None => None,
            Some(name) => named(&self.entries, name),
        }
    }

    /// The objects, in order of their keys.
    pub fn values(&self, alloc: Global) -> Result<Vec<&X>, NoMemory>
        ensures { IfOk result (λ xs. map (λ x. x.now) xs.items ≡ finite.values self.now) }
    {
        let order = self.in_order(alloc)?;
        self.found(alloc, &order)
    }

    /// The keys, in order.
    pub fn keys(&self, alloc: Global) -> Result<Items<ObjectKey>, NoMemory>
        ensures { IfOk result (λ ks. ks ≡ finite.keys self.now) }
    {
        let order = self.in_order(alloc)?;
        let keys = order.keys(alloc)?;
        copies(alloc, keys.as_slice())
    }

    /// The keys, as a set that has them in their order.
    fn in_order(&self, alloc: Global) -> Result<KeySet, NoMemory>
        ensures { IfOk result (λ ks. (k : ObjectKey) → finite.contains_key ks k
            ≡ finite.contains_key self.now k) }
    {
        let names: Vec<&K> = self.entries.keys().collect(alloc)?;
        let mut order = KeySet::new(alloc);
        order.put_all(alloc, names.as_slice())?;
        Ok(order)
    }

    /// The objects of keys, where they are there, in order of the keys.
    pub fn found(&self, alloc: Global, keys: &KeySet) -> Result<Vec<&X>, NoMemory>
        ensures { IfOk result (λ xs. map (λ x. x.now) xs.items
            ≡ filter_map (finite.get self.now) (finite.keys keys.now)) }
    {
        let keys = keys.keys(alloc)?;
        let mut found = Vec::new(alloc);
        for key in keys.as_slice() {
            add_found(&mut found, self.at(*key))?;
        }
        Ok(found)
    }

    /// Puts an object in place of the one of its name. Where memory is out, all stays.
    pub fn put(&mut self, name: K, object: Kept<X>) -> Result<(), NoMemory>
        ensures ok { OnOk result (self.new ≡ finite.insert self.old (K.key_of name) object) }
        ensures err { OnErr result (self.new ≡ self.old) }
    {
        self.entries.insert(name, object)?;
        Ok(())
    }

    /// Takes out the object of a key, if there is one.
    pub fn take(&mut self, key: &ObjectKey)
        ensures { self.new ≡ finite.remove self.old key.now }
    {
        match K::of(key) {
            Some(name) => forget(&mut self.entries, name),
            None => {}
        }
    }
}

/// The object of a name, if there is one.
fn named<'a, K: Name, X: Drop>(entries: &'a IndexMap<K, Kept<X>>, name: &K) -> Option<&'a X>
    ensures { option_copied result
        ≡ finite.get (finite.from_entries {R = key_cmp} (keyed K.key_of entries.now.entries))
        (K.key_of name.now) }
{
    match entries.get(name) {
        None => None,
        Some(object) => Some(object.get()),
    }
}

/// Takes out the object of a name, if there is one.
fn forget<K: Name, X: Drop>(entries: &mut IndexMap<K, Kept<X>>, name: &K)
    ensures { finite.from_entries {R = key_cmp} (keyed K.key_of entries.new.entries)
        ≡ finite.remove (finite.from_entries (keyed K.key_of entries.old.entries))
        (K.key_of name.now) }
{
    entries.swap_remove(name);
}

/// Adds an object, if there is one.
fn add_found<'a, X>(found: &mut Vec<&'a X>, object: Option<&'a X>) -> Result<(), NoMemory>
    ensures { OnOk result (map (λ x. x.now) found.new.items
        ≡ map (λ x. x.now) found.old.items ++ option_to_list (option_copied object.entry)) }
{
    if let Some(object) = object {
        found.push(object)?;
    }
    Ok(())
}
