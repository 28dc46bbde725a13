//! Lists that contracts see as lists.
ghost use Rattle.std.specs.Prelude.{◌≡◌, ◌<◌, ◌^◌, [], ◌∷◌, ◌++◌, length, OnOk, OnErr, IfErr};
ghost use Rattle.std.specs.Cmp.Lexicographic.{pointwise, lists_per, lists_equiv};

use crate::memory::{Copied, NoMemory, handed_back};
use std::alloc::Global;
use std::marker::Model;

/// A list that grows at its end.
pub struct Items<T> {
    inner: Vec<T>,
}

impl<T: Drop> Drop for Items<T> {
    fn drop(self) {
        let Items { inner } = self;
    }
}

impl<T> Model for Items<T> {
    ghost use Rattle.std.specs.Prelude.{List};

    ghost Value = { List T };

    ghost view = { λ v. v.inner.items };
}

impl<T> Items<T> {
    /// The empty list.
    pub fn new(alloc: Global) -> Items<T>
        ensures { result ≡ [] }
    {
        Items {
            inner: Vec::new(alloc),
        }
    }

    /// The elements.
    pub fn as_slice(&self) -> &[T]
        ensures { result.now ≡ self.now }
    {
        self.inner.as_slice()
    }

    /// Adds an element at the end, or hands it back where memory is out.
    pub fn push(&mut self, item: T) -> Result<(), (NoMemory, T)>
        ensures ok { OnOk result (self.new ≡ self.old ++ item ∷ []) }
        ensures err { OnErr result (self.new ≡ self.old) }
        ensures back { IfErr result (λ e. e.1 ≡ item) }
    {
        match self.inner.push(item) {
            Ok(()) => Ok(()),
            Err(refused) => Err(handed_back(refused)),
        }
    }

    /// The list of a vector's elements.
    pub fn from_vec(items: Vec<T>) -> Items<T>
        ensures { result ≡ items.items }
    {
        Items { inner: items }
    }

    /// The vector of the elements.
    pub fn into_vec(self) -> Vec<T>
        ensures { result.items ≡ self }
    {
        let Items { inner } = self;
        inner
    }
}

/// Lists are equal element by element.
impl<T: PartialEq> PartialEq for Items<T> {
    ghost eq = { pointwise T.eq };

    ghost laws = { lists_per T.PartialEq.laws };

    fn eq(&self, other: &Items<T>) -> bool {
        self.as_slice() == other.as_slice()
    }
}

impl<T: Eq> Eq for Items<T> {
    ghost laws = { lists_equiv T.Eq.laws };
}

impl<T: Copied> Copied for Items<T> {
    fn copy(&self, alloc: Global) -> Result<Items<T>, NoMemory> {
        let mut copies = Vec::with_capacity(alloc, self.as_slice().len())?;
        for item in self.as_slice() {
            copies.push(item.copy(alloc)?)?;
        }
        Ok(Items::from_vec(copies))
    }
}

/// A list in memory has less than 2^64 elements: what a law asks of a list that a call has at hand.
pub fn fits_memory<T>(items: &[T])
    ensures { length items.now < 2 ^ 64 }
{
    items.len();
}
