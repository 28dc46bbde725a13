//! Lists with several owners.
ghost use Rattle.std.specs.Prelude.{◌≡◌, IfOk};

use crate::items::Items;
use crate::memory::{Copied, NoMemory};
use std::alloc::Global;
use std::marker::Model;
use std::sync::Arc;

/// A list that no longer changes, with several owners, in any threads: a copy takes no memory.
pub struct Shared<T> {
    items: Arc<Items<T>>,
}

impl<T: Drop> Drop for Shared<T> {
    fn drop(self) {
        let Shared { items } = self;
    }
}

impl<T> Model for Shared<T> {
    ghost use Rattle.std.specs.Prelude.{List};
    ghost use Rattle.std.specs.Arc.{arc_value};

    ghost Value = { List T };

    ghost view = { λ s. arc_value s.items };
}

impl<T: Drop> Shared<T> {
    /// The same list, which takes no more room than it needs.
    pub fn of(alloc: Global, items: Items<T>) -> Result<Shared<T>, NoMemory>
        ensures { IfOk result (λ s. s ≡ items) }
    {
        let mut items = items.into_vec();
        items.shrink_to_fit();
        let items = Arc::new(alloc, Items::from_vec(items))?;
        Ok(Shared { items })
    }

    /// The elements.
    pub fn as_slice(&self) -> &[T]
        ensures { result.now ≡ self.now }
    {
        self.items.as_slice()
    }
}

impl<T: Drop> Copied for Shared<T> {
    fn copy(&self, _alloc: Global) -> Result<Shared<T>, NoMemory> {
        Ok(Shared {
            items: Arc::try_clone(&self.items)?,
        })
    }
}
