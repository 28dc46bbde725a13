//! The value that readers take, and the records that it takes in.
ghost use Rattle.std.specs.Prelude.{◌≡◌};
ghost use Rattle.kp_publish.specs.Entries.{table_of, Adds, StandsFor};

use crate::entry::Entry;
use crate::front::Front;
use crate::history::Publication;
use kp_rules::Table;
use kp_types::SyncRecord;
use left_right::Absorb;
use std::alloc::AllocError;
use std::marker::Model;

/// A record, and the history before and after it. Contracts see it as those two.
#[derive(Drop)]
pub struct Addition<J: Publication> {
    next: SyncRecord,
    before: Front<J>,
    after: Front<J>,
}

impl<J: Publication> Model for Addition<J> {
    ghost use Rattle.std.specs.Prelude.{List};
    ghost use Rattle.kp_publish.specs.declared.entry.Entry.{Entry};
    ghost use Rattle.kp_publish.specs.Entries.{Adds};

    ghost Value = { List Entry × List Entry };

    ghost view = { λ a. (a.before, a.after) };

    ghost invariant = { λ a. Adds J.start a.before a.next a.after };
}

impl<J: Publication> Addition<J> {
    /// The record, after one history and before the other.
    pub(crate) fn new(next: SyncRecord, before: Front<J>, after: Front<J>) -> Addition<J>
        requires { Adds J.start before next after }
        ensures { result ≡ (before, after) }
    {
        Addition {
            next,
            before,
            after,
        }
    }
}

/// A table as readers see it. Contracts see it as the history that it stands for.
#[derive(Drop)]
pub struct Shown<J: Publication> {
    table: Table,
    front: Front<J>,
}

impl<J: Publication> Model for Shown<J> {
    ghost use Rattle.std.specs.Prelude.{List};
    ghost use Rattle.kp_publish.specs.declared.entry.Entry.{Entry};
    ghost use Rattle.kp_publish.specs.Entries.{StandsFor};

    ghost Value = { List Entry };

    ghost view = { λ s. s.front };

    ghost invariant = { λ s. StandsFor J.start s.table s.front };
}

impl<J: Publication> Shown<J> {
    /// A table that stands for a history.
    pub(crate) fn new(table: Table, front: Front<J>) -> Shown<J>
        requires { StandsFor J.start table front }
        ensures { result ≡ front }
    {
        Shown { table, front }
    }

    /// The table.
    pub(crate) fn table(&self) -> &Table
        ensures { StandsFor J.start result.now self.now }
    {
        &self.table
    }

    /// The table, for good.
    pub(crate) fn into_table(self) -> Table
        ensures { result ≡ table_of J.start self }
    {
        self.table
    }

    /// The history that it stands for.
    pub(crate) fn front(&self) -> &Front<J>
        ensures { result.now ≡ self.now }
    {
        &self.front
    }
}

impl<J: Publication> Absorb<Addition<J>> for Shown<J> {
    // A clause reads an array as a list, of any length.
    type State = [Entry; 0];

    ghost use Rattle.kp_publish.specs.Pending.{after};

    ghost state = { λ s. s };

    ghost applied = { after };

    fn absorb_first(
        &mut self,
        addition: &Addition<J>,
        _other: &Shown<J>,
    ) -> Result<(), AllocError> {
        // Additions come in order, but the trait doesn't say it: others change nothing.
        if !self.front.is_same(&addition.before) {
            return Ok(());
        }
        match self.table.apply(&addition.next.batch) {
            Ok(()) => {
                self.front = addition.after.again();
                Ok(())
            }
            // The trait has this error for a growth that is refused.
            Err(_) => Err(AllocError),
        }
    }
}
