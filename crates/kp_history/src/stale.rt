//! What nobody reads any more, let go little by little.
ghost use Rattle.std.specs.Prelude.{◌≡◌, ◌+◌, ◌-◌, length, OnOk, OnErr};
ghost use Rattle.kp_history.specs.Few.{few};

use kp_base::{Items, NoMemory};
use std::alloc::Global;
use std::marker::Model;

/// How many a sync lets go that makes none itself.
const FEW: usize = 4;

/// What syncs before the last made, and nobody reads any more. A first sync makes as much as there
/// is, and to let all of it go at once would take the next sync a hundred times what it changes. So
/// a sync lets go of as many as it makes itself, and of a few more. Contracts see how much is held:
/// each of them, and one more for each list of them.
pub struct Stale<T> {
    lists: Vec<Vec<T>>,
}

impl<T: Drop> Drop for Stale<T> {
    fn drop(self) {
        let Stale { lists } = self;
    }
}

impl<T> Model for Stale<T> {
    ghost use Rattle.std.specs.Prelude.{ℕ, ◌+◌, length};
    ghost use Rattle.std.specs.Coded.{coded_ℕ};
    ghost use Rattle.std.specs.List.{sum_by};

    ghost Value = { ℕ };

    ghost coded = { coded_ℕ };

    ghost view = { λ s. sum_by (λ list. length list.items + 1) s.lists.items };
}

impl<T: Drop> Stale<T> {
    /// Nothing.
    pub fn new(alloc: Global) -> Stale<T>
        ensures { result ≡ 0 }
    {
        Stale {
            lists: Vec::new(alloc),
        }
    }

    /// Takes in what the sync before made, where the last one makes so many: as many go of what was
    /// held, and a few more. Where memory is out, what comes goes at once.
    pub fn take_in(&mut self, made: usize, before: Items<T>) -> Result<(), NoMemory>
        ensures ok { OnOk result (self.new
            ≡ self.old - (made + few) + (length before + 1)) }
        ensures err { OnErr result (self.new ≡ self.old - (made + few)) }
    {
        self.let_go(FEW);
        self.let_go(made);
        self.lists.push(before.into_vec())?;
        Ok(())
    }

    /// Lets go of so many.
    fn let_go(&mut self, count: usize)
        ensures { self.new ≡ self.old - count }
    {
        for _ in 0..count {
            self.let_one_go();
        }
    }

    /// Lets go of the last one, or of the list that had it.
    fn let_one_go(&mut self)
        ensures { self.new ≡ self.old - 1 }
    {
        let Some(mut list) = self.lists.pop() else {
            return;
        };
        if list.pop().is_some() {
            self.lists.push_reserved(list);
        }
    }
}
