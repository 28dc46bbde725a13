//! Keys of objects by what the objects are found by.
ghost use Rattle.std.specs.Prelude.{◌≡◌, ◌&&◌, ◌||◌, not, true, false, [], map, None, IfOk, IsFalse, OnOk, OnErr};
ghost use Rattle.std.specs.FinMap as finite;
ghost use Rattle.std.specs.List.{list_any};
ghost use Rattle.std.specs.Map.{lookup};
ghost use Rattle.std.specs.Ordering.{eq_by_cmp};
ghost use Rattle.kp_base.specs.Keys.{key_cmp};
ghost use Rattle.kp_base.specs.declared.key.ObjectKey.{ObjectKey};
ghost use Rattle.kp_store.specs.Indexes.{bucket, has, is_among, is_pair, is_tag_of};
ghost use Rattle.kp_store.specs.Indexes.{AreFilled, AreFilledBut, IsPartly};

use crate::bucket::Bucket;
use crate::key_set::KeySet;
use indexmap::IndexMap;
use kp_base::{Copied, NoMemory, ObjectKey};
use std::alloc::Global;
use std::hash::Hash;
use std::marker::Model;

/// A bucket of keys for each tag, found by the tag's hash. Contracts see the buckets, in no order.
/// No bucket is empty: a tag that no object has takes no room.
pub struct Index<T: Eq + Hash> {
    buckets: IndexMap<T, Bucket>,
}

impl<T: Eq + Hash + Drop> Drop for Index<T> {
    fn drop(self) {
        let Index { buckets } = self;
    }
}

impl<T: Eq + Hash> Model for Index<T> {
    ghost use Rattle.std.specs.Prelude.{List};
    ghost use Rattle.kp_store.specs.Indexes.{AreFilled, Keys};
    ghost use Rattle.kp_store.specs.Stored.{buckets_code};

    ghost Value = { List (T × Keys) };

    ghost coded = { buckets_code T.code };

    ghost view = { λ i. i.buckets.entries };

    ghost invariant = { λ i. AreFilled T.eq i.buckets.entries };
}

impl<T: Eq + Hash + Drop> Index<T> {
    /// No keys.
    pub fn new(alloc: Global) -> Index<T>
        ensures { result ≡ [] }
    {
        Index {
            buckets: IndexMap::new(alloc),
        }
    }

    /// The keys of a tag.
    pub fn keys(&self, alloc: Global, tag: &T) -> Result<KeySet, NoMemory>
        ensures { IfOk result (λ ks. (k : ObjectKey) → finite.contains_key ks k
            ≡ has T.eq self.now tag.now k) }
    {
        let mut bucket = KeySet::new(alloc);
        self.put_into(alloc, tag, &mut bucket)?;
        Ok(bucket)
    }

    /// The keys of a tag as they are kept, in no order.
    pub fn kept(&self, alloc: Global, tag: &T) -> Result<Vec<&ObjectKey>, NoMemory>
        ensures { IfOk result (λ ks. (k : ObjectKey) → list_any (eq_by_cmp key_cmp k)
            (map (λ q. q.now) ks.items) ≡ has T.eq self.now tag.now k) }
    {
        match self.buckets.get(tag) {
            Some(bucket) => bucket.keys(alloc),
            None => Ok(Vec::new(alloc)),
        }
    }

    /// How many keys a tag has.
    pub fn size(&self, tag: &T) -> usize
        ensures { result ≡ finite.len (bucket T.eq self.now tag.now) }
    {
        match self.buckets.get(tag) {
            Some(bucket) => bucket.size(),
            None => 0,
        }
    }

    /// The keys of any of some tags.
    pub fn keys_of_any(&self, alloc: Global, tags: &[T]) -> Result<KeySet, NoMemory>
        ensures { IfOk result (λ ks. (k : ObjectKey) → finite.contains_key ks k
            ≡ list_any (λ t. has T.eq self.now t k) tags.now) }
    {
        let mut keys = KeySet::new(alloc);
        for tag in tags {
            self.put_into(alloc, tag, &mut keys)?;
        }
        Ok(keys)
    }

    /// Puts the keys of a tag beside others.
    fn put_into(&self, alloc: Global, tag: &T, keys: &mut KeySet) -> Result<(), NoMemory>
        ensures { OnOk result ((k : ObjectKey) → finite.contains_key keys.new k
            ≡ has T.eq self.now tag.now k || finite.contains_key keys.old k) }
    {
        match self.buckets.get(tag) {
            Some(bucket) => bucket.put_into(alloc, keys),
            None => Ok(()),
        }
    }

    /// Whether a key stands in the bucket of a tag.
    fn holds(&self, tag: &T, key: &ObjectKey) -> bool
        ensures { result ≡ has T.eq self.now tag.now key.now }
    {
        match self.buckets.get(tag) {
            Some(bucket) => bucket.has(key),
            None => false,
        }
    }

    /// Whether a tag may have keys: where it has no bucket it has none.
    pub fn is_used(&self, tag: &T) -> bool
        ensures { IsFalse result → (k : ObjectKey) → has T.eq self.now tag.now k ≡ false }
    {
        self.buckets.contains_key(tag)
    }

    /// Removes a key from the bucket of a tag.
    fn remove(&mut self, tag: &T, key: &ObjectKey)
        ensures { (t : T) (k : ObjectKey) → has T.eq self.new t k
            ≡ not (is_pair T.eq tag.now key.now t k) && has T.eq self.old t k }
    {
        remove_key(&mut self.buckets, tag, key);
    }

    /// Removes a key from the buckets of tags.
    pub fn trim(&mut self, tags: &[T], key: &ObjectKey)
        ensures { (t : T) (k : ObjectKey) → has T.eq self.new t k
            ≡ not (is_tag_of T.eq tags.now key.now t k) && has T.eq self.old t k }
    {
        for tag in tags {
            self.remove(tag, key);
        }
    }
}

impl<T: Eq + Hash + Copied> Index<T> {
    /// Adds a key to the bucket of a tag, where it isn't. Where memory is out, all stays.
    fn add(&mut self, alloc: Global, tag: &T, key: &ObjectKey) -> Result<(), NoMemory>
        requires absent { has T.eq self.old tag.now key.now ≡ false }
        ensures ok { OnOk result ((t : T) (k : ObjectKey) → has T.eq self.new t k
            ≡ is_pair T.eq tag.now key.now t k || has T.eq self.old t k) }
        ensures err { OnErr result ((t : T) (k : ObjectKey) → has T.eq self.new t k
            ≡ has T.eq self.old t k) }
    {
        match self.buckets.get_mut(tag) {
            Some(bucket) => bucket.add(alloc, key),
            None => add_bucket(alloc, &mut self.buckets, tag, key),
        }
    }

    /// Adds a key to the bucket of a tag, unless it stands there. Where memory is out, all stays.
    fn put(&mut self, alloc: Global, tag: &T, key: &ObjectKey) -> Result<(), NoMemory>
        ensures ok { OnOk result ((t : T) (k : ObjectKey) → has T.eq self.new t k
            ≡ is_pair T.eq tag.now key.now t k || has T.eq self.old t k) }
        ensures err { OnErr result ((t : T) (k : ObjectKey) → has T.eq self.new t k
            ≡ has T.eq self.old t k) }
    {
        if self.holds(tag, key) {
            Ok(())
        } else {
            self.add(alloc, tag, key)
        }
    }

    /// Adds a key to the buckets of its tags. Where memory is out, it may stand in some of them.
    fn add_each(&mut self, alloc: Global, tags: &[T], key: &ObjectKey) -> Result<(), NoMemory>
        ensures ok { OnOk result ((t : T) (k : ObjectKey) → has T.eq self.new t k
            ≡ is_tag_of T.eq tags.now key.now t k || has T.eq self.old t k) }
        ensures err { OnErr result (IsPartly T.eq tags.now key.now self.old self.new) }
    {
        for tag in tags {
            self.put(alloc, tag, key)?;
        }
        Ok(())
    }

    /// Adds a key to the buckets of its tags, where it is in none of them. Where memory is out, all
    /// stays.
    pub fn add_all(&mut self, alloc: Global, tags: &[T], key: &ObjectKey) -> Result<(), NoMemory>
        requires { (t : T) → is_among T.eq tags.now t ≡ true → has T.eq self.old t key.now ≡ false }
        ensures ok { OnOk result ((t : T) (k : ObjectKey) → has T.eq self.new t k
            ≡ is_tag_of T.eq tags.now key.now t k || has T.eq self.old t k) }
        ensures err { OnErr result ((t : T) (k : ObjectKey) → has T.eq self.new t k
            ≡ has T.eq self.old t k) }
    {
        match self.add_each(alloc, tags, key) {
            Ok(()) => Ok(()),
            Err(refused) => {
                self.trim(tags, key);
                Err(refused)
            }
        }
    }
}

/// Adds a bucket of one key, where there is none of its tag.
fn add_bucket<T: Eq + Hash + Copied>(
    alloc: Global,
    buckets: &mut IndexMap<T, Bucket>,
    tag: &T,
    key: &ObjectKey,
) -> Result<(), NoMemory>
    requires { lookup (T.eq tag.now) buckets.old.entries ≡ None }
    ensures ok { OnOk result ((t : T) (k : ObjectKey) → has T.eq buckets.new.entries t k
        ≡ is_pair T.eq tag.now key.now t k || has T.eq buckets.old.entries t k) }
    ensures err { OnErr result (buckets.new.entries ≡ buckets.old.entries) }
    ensures filled { AreFilled T.eq buckets.old.entries → AreFilled T.eq buckets.new.entries }
{
    let bucket = Bucket::of(alloc, key)?;
    buckets.insert(tag.copy(alloc)?, bucket)?;
    Ok(())
}

/// Removes a key from the bucket of a tag, and the bucket with its last key.
fn remove_key<T: Eq + Hash + Drop>(buckets: &mut IndexMap<T, Bucket>, tag: &T, key: &ObjectKey)
    ensures keys { (t : T) (k : ObjectKey) → has T.eq buckets.new.entries t k
        ≡ not (is_pair T.eq tag.now key.now t k) && has T.eq buckets.old.entries t k }
    ensures filled { AreFilled T.eq buckets.old.entries → AreFilled T.eq buckets.new.entries }
{
    take_key(buckets, tag, key);
    forget_empty(buckets, tag);
}

/// Takes a key out of the bucket of a tag, which may be empty then.
fn take_key<T: Eq + Hash + Drop>(buckets: &mut IndexMap<T, Bucket>, tag: &T, key: &ObjectKey)
    ensures keys { (t : T) (k : ObjectKey) → has T.eq buckets.new.entries t k
        ≡ not (is_pair T.eq tag.now key.now t k) && has T.eq buckets.old.entries t k }
    ensures others { AreFilled T.eq buckets.old.entries →
        AreFilledBut T.eq tag.now buckets.new.entries }
{
    match buckets.get_mut(tag) {
        Some(bucket) => {
            bucket.take(key);
        }
        None => return,
    }
}

/// Forgets the bucket of a tag, if it is empty.
fn forget_empty<T: Eq + Hash + Drop>(buckets: &mut IndexMap<T, Bucket>, tag: &T)
    ensures keys { (t : T) (k : ObjectKey) → has T.eq buckets.new.entries t k
        ≡ has T.eq buckets.old.entries t k }
    ensures filled { AreFilledBut T.eq tag.now buckets.old.entries →
        AreFilled T.eq buckets.new.entries }
{
    match buckets.get(tag) {
        Some(bucket) => {
            if bucket.is_empty() {
                buckets.swap_remove(tag);
            }
        }
        None => return,
    }
}
