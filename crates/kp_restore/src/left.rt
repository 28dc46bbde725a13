//! Lists that are taken from the front.
ghost use Rattle.std.specs.Prelude.{◌≡◌, [], ◌∷◌, ◌++◌, IfOk, OnOk, IfSome, None};
ghost use Rattle.kp_object_defs.specs.Desired as list;

use kp_base::{Items, NoMemory};
use std::alloc::Global;
use std::marker::Model;

/// Items that are taken from the front. Contracts see those that are left.
#[derive(Drop)]
pub(crate) struct Left<T> {
    backwards: Vec<T>,
}

impl<T> Model for Left<T> {
    ghost use Rattle.std.specs.Prelude.{List, reverse};

    ghost Value = { List T };

    ghost view = { λ l. reverse l.backwards.items };
}

impl<T: Drop> Left<T> {
    /// None.
    pub fn none(alloc: Global) -> Left<T>
        ensures { result ≡ [] }
    {
        Left {
            backwards: Vec::new(alloc),
        }
    }

    /// All of these.
    pub fn of(alloc: Global, items: Items<T>) -> Result<Left<T>, NoMemory>
        ensures { IfOk result (λ left. left ≡ items) }
    {
        let (_, left) = Left::none(alloc).rewound(items)?;
        Ok(left)
    }

    /// Whether none is left.
    pub fn is_empty(&self) -> bool
        ensures { result ≡ list.is_empty self.now }
    {
        self.backwards.is_empty()
    }

    /// Takes the first one.
    pub fn pop(&mut self) -> Option<T>
        ensures some { IfSome result (λ item. self.old ≡ item ∷ self.new) }
        ensures none { result ≡ None → self.old ≡ [] }
        ensures over { result ≡ None → self.new ≡ [] }
    {
        self.backwards.pop()
    }

    /// Puts one before all others.
    pub fn put(&mut self, item: T) -> Result<(), NoMemory>
        ensures { OnOk result (self.new ≡ item ∷ self.old) }
    {
        self.backwards.push(item)?;
        Ok(())
    }

    /// All of them with those that were passed before them, and no passed ones.
    pub fn rewound(self, passed: Items<T>) -> Result<(Items<T>, Left<T>), NoMemory>
        ensures passed { IfOk result (λ parts. parts.0 ≡ []) }
        ensures left { IfOk result (λ parts. parts.1 ≡ passed ++ self) }
    {
        let mut all = self;
        let mut passed = passed.into_vec();
        while let Some(item) = passed.pop() {
            all.put(item)?;
        }
        Ok((Items::from_vec(passed), all))
    }
}
