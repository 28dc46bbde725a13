//! Values with several owners.
ghost use Rattle.std.specs.Prelude.{◌≡◌, IfOk};

use crate::memory::{Copied, NoMemory};
use std::alloc::Global;
use std::marker::Model;
use std::sync::Arc;

/// A value that no longer changes, with several owners, in any threads: a copy takes no memory.
/// Contracts see the value.
pub struct Kept<T> {
    value: Arc<T>,
}

impl<T: Drop> Drop for Kept<T> {
    fn drop(self) {
        let Kept { value } = self;
    }
}

impl<T> Model for Kept<T> {
    ghost use Rattle.std.specs.Arc.{arc_value};

    ghost Value = { T };

    ghost view = { λ k. arc_value k.value };
}

impl<T: Drop> Kept<T> {
    /// The same value, which this is the first owner of.
    pub fn of(alloc: Global, value: T) -> Result<Kept<T>, NoMemory>
        ensures { IfOk result (λ k. k ≡ value) }
    {
        Ok(Kept {
            value: Arc::new(alloc, value)?,
        })
    }

    /// The value.
    pub fn get(&self) -> &T
        ensures { result.now ≡ self.now }
    {
        &self.value
    }
}

impl<T: Drop> Copied for Kept<T> {
    fn copy(&self, _alloc: Global) -> Result<Kept<T>, NoMemory> {
        Ok(Kept {
            value: Arc::try_clone(&self.value)?,
        })
    }
}
