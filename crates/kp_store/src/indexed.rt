//! Objects of one kind by their keys, with an index of what they are found by.
ghost use Rattle.std.specs.Prelude.{◌≡◌, List, false, length, map, IfOk, IsFalse, IsOk, OnOk, OnErr, option_copied};
ghost use Rattle.std.specs.List.{filter, filter_map, list_any};
ghost use Rattle.std.specs.Ordering.{eq_by_cmp};
ghost use Rattle.std.specs.FinMap as finite;
ghost use Rattle.kp_base.specs.Keys.{key_cmp};
ghost use Rattle.kp_base.specs.declared.key.ObjectKey.{ObjectKey};
ghost use Rattle.kp_store.specs.Indexes.{is_among, is_tagged};

use crate::hashed::Hashed;
use crate::index::Index;
use crate::key_set::KeySet;
use crate::without::without;
use kp_base::{Copied, Items, Kept, NoMemory, ObjectKey};
use std::alloc::Global;
use std::hash::Hash;
use std::marker::Model;

/// An object that is found by tags.
pub trait Tagged<T: Eq>: Copied {
    ghost tags: { Self → List T };

    /// The tags of the object.
    fn tags(&self, alloc: Global) -> Result<Items<T>, NoMemory>
        ensures { IfOk result (λ ts. ts ≡ tags self.now) };
}

/// Objects of one kind, which contracts see as a finite map from their keys. The index has in the
/// bucket of each tag the keys of the objects with this tag.
pub struct Indexed<X: Tagged<T>, T: Eq + Hash + Copied> {
    objects: Hashed<ObjectKey, X>,
    index: Index<T>,
}

impl<X: Tagged<T>, T: Eq + Hash + Copied> Drop for Indexed<X, T> {
    fn drop(self) {
        let Indexed { objects, index } = self;
    }
}

impl<X: Tagged<T>, T: Eq + Hash + Copied> Model for Indexed<X, T> {
    ghost use Rattle.std.specs.FinMap as finite;
    ghost use Rattle.kp_base.specs.Keys.{key_cmp};
    ghost use Rattle.kp_store.specs.Indexes.{IsIndexOf};
    ghost use Rattle.kp_store.specs.Stored.{keyed_code};

    ghost Value = { finite.FinMap key_cmp X };

    ghost coded = { keyed_code X.code };

    ghost view = { λ s. s.objects };

    ghost invariant = { λ s. IsIndexOf T.eq X.tags s.objects s.index };
}

impl<X: Tagged<T>, T: Eq + Hash + Copied> Indexed<X, T> {
    /// No objects.
    pub fn new(alloc: Global) -> Indexed<X, T>
        ensures { result ≡ finite.empty }
    {
        Indexed {
            objects: Hashed::new(alloc),
            index: Index::new(alloc),
        }
    }

    /// The object of a key, if there is one.
    pub fn get(&self, key: &ObjectKey) -> Option<&X>
        ensures { option_copied result ≡ finite.get self.now key.now }
    {
        self.objects.get(key)
    }

    /// The objects, in order of their keys.
    pub fn values(&self, alloc: Global) -> Result<Vec<&X>, NoMemory>
        ensures { IfOk result (λ xs. map (λ x. x.now) xs.items ≡ finite.values self.now) }
    {
        self.objects.values(alloc)
    }

    /// The keys, in order.
    pub fn keys(&self, alloc: Global) -> Result<Items<ObjectKey>, NoMemory>
        ensures { IfOk result (λ ks. ks ≡ finite.keys self.now) }
    {
        self.objects.keys(alloc)
    }

    /// How many objects have a tag.
    pub fn size(&self, tag: &T) -> usize
        ensures { result ≡ length
            (filter (λ x. is_among T.eq (X.tags x) tag.now) (finite.values self.now)) }
    {
        self.index.size(tag)
    }

    /// The objects with a tag, in order of their keys.
    pub fn found(&self, alloc: Global, tag: &T) -> Result<Vec<&X>, NoMemory>
        ensures { IfOk result (λ xs. map (λ x. x.now) xs.items
            ≡ filter (λ x. is_among T.eq (X.tags x) tag.now) (finite.values self.now)) }
    {
        let bucket = self.index.keys(alloc, tag)?;
        self.objects.found(alloc, &bucket)
    }

    /// The keys of the objects with a tag, in no order.
    pub fn tagged(&self, alloc: Global, tag: &T) -> Result<Vec<&ObjectKey>, NoMemory>
        ensures { IfOk result (λ ks. (k : ObjectKey) → list_any (eq_by_cmp key_cmp k)
            (map (λ q. q.now) ks.items) ≡ is_tagged T.eq X.tags tag.now (finite.get self.now k)) }
    {
        self.index.kept(alloc, tag)
    }

    /// Whether an object may have a tag: where this says no, none has it.
    pub fn is_used(&self, tag: &T) -> bool
        ensures { IsFalse result → (k : ObjectKey)
            → is_tagged T.eq X.tags tag.now (finite.get self.now k) ≡ false }
    {
        self.index.is_used(tag)
    }

    /// The objects of keys, where they are there, in order of the keys.
    pub fn found_at(&self, alloc: Global, keys: &KeySet) -> Result<Vec<&X>, NoMemory>
        ensures { IfOk result (λ xs. map (λ x. x.now) xs.items
            ≡ filter_map (finite.get self.now) (finite.keys keys.now)) }
    {
        self.objects.found(alloc, keys)
    }

    /// The objects with any of some tags, in order of their keys.
    pub fn found_any(&self, alloc: Global, tags: &[T]) -> Result<Vec<&X>, NoMemory>
        ensures { IfOk result (λ xs. map (λ x. x.now) xs.items
            ≡ filter (λ x. list_any (is_among T.eq (X.tags x)) tags.now)
            (finite.values self.now)) }
    {
        let union = self.index.keys_of_any(alloc, tags)?;
        self.objects.found(alloc, &union)
    }

    /// Puts an object in place of the one of its key. Where memory is out, all stays.
    pub fn put(&mut self, alloc: Global, key: &ObjectKey, object: Kept<X>) -> Result<(), NoMemory>
        ensures ok { OnOk result (self.new ≡ finite.insert self.old key.now object) }
        ensures err { OnErr result (self.new ≡ self.old) }
    {
        let new = object.get().tags(alloc)?;
        let old = tags_at(alloc, &self.objects, key)?;
        let gained = without(alloc, new.as_slice(), old.as_slice())?;
        let lost = without(alloc, old.as_slice(), new.as_slice())?;
        let copy = key.copy(alloc)?;
        self.index.add_all(alloc, gained.as_slice(), key)?;
        match self.objects.put(copy, object) {
            Ok(()) => {
                self.index.trim(lost.as_slice(), key);
                Ok(())
            }
            Err(refused) => {
                self.index.trim(gained.as_slice(), key);
                Err(refused)
            }
        }
    }

    /// Takes out the object of a key, if there is one. Where memory is out, all stays. A key without
    /// an object takes no memory.
    pub fn take(&mut self, alloc: Global, key: &ObjectKey) -> Result<(), NoMemory>
        ensures ok { OnOk result (self.new ≡ finite.remove self.old key.now) }
        ensures absent { finite.contains_key self.old key.now ≡ false → IsOk result }
        ensures err { OnErr result (self.new ≡ self.old) }
    {
        let old = tags_at(alloc, &self.objects, key)?;
        self.index.trim(old.as_slice(), key);
        self.objects.take(key);
        Ok(())
    }
}

/// The tags of the object of a key: none where there is no object.
fn tags_at<X: Tagged<T>, T: Eq + Hash + Copied>(
    alloc: Global,
    objects: &Hashed<ObjectKey, X>,
    key: &ObjectKey,
) -> Result<Items<T>, NoMemory>
    ensures tags { IfOk result (λ ts. (t : T) → is_among T.eq ts t
        ≡ is_tagged T.eq X.tags t (finite.get objects.now key.now)) }
    ensures absent { finite.contains_key objects.now key.now ≡ false → IsOk result }
{
    match objects.get(key) {
        Some(object) => object.tags(alloc),
        None => Ok(Items::new(alloc)),
    }
}
