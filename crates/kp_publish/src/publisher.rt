//! The publisher.
ghost use Rattle.std.specs.Prelude.{◌≡◌, ◌+◌, ◌≤◌, ◌++◌, ◌∷◌, [], false, length};
ghost use Rattle.std.specs.Prelude.{OnOk, OnErr, IfOk, IfErr};
ghost use Rattle.kp_history_defs.specs.History.{table_from};
ghost use Rattle.kp_io.specs.Faults.{Rose};
ghost use Rattle.kp_publish.specs.Entries.{records_of, is_ended, table_of, IsReady};
ghost use Rattle.kp_publish.specs.Faults.{IsKeptOrBack};
ghost use Rattle.kp_publish.specs.declared.entry.Entry.TheVariants.{Record, End};

use crate::copies::Copies;
use crate::fault::PublishFault;
use crate::front::Front;
use crate::history::Publication;
use crate::shown::{Addition, Shown};
use kp_base::NoMemory;
use kp_rules::Table;
use kp_types::SyncRecord;
use std::marker::Model;
use std::sync::Wait;

/// The one that publishes. Contracts see the history that is published, that with the records which
/// it keeps for the next publishing, and how often it was without memory. Once it is closed both
/// histories are ended.
pub struct Publisher<J: Publication> {
    copies: Copies<J, Shown<J>, Addition<J>>,
}

impl<J: Publication> Model for Publisher<J> {
    ghost use Rattle.kp_publish.specs.Pending.{Keeps, keeps_code};

    ghost Value = { Keeps };

    ghost coded = { keeps_code };

    ghost view = { λ p. p.copies };
}

impl<J: Publication> Publisher<J> {
    /// The publisher over these copies.
    pub(crate) fn new(copies: Copies<J, Shown<J>, Addition<J>>) -> Publisher<J>
        ensures { result ≡ copies }
    {
        Publisher { copies }
    }

    /// How many records are published.
    pub fn count(&self) -> u64
        ensures { result ≡ length (records_of self.now.published) }
    {
        self.copies.published().count()
    }

    /// The front of what is published. It takes no memory.
    pub fn tell(&self) -> Front<J>
        ensures { result ≡ self.now.published }
    {
        self.copies.published().again()
    }

    /// Publishes a record, after those that it keeps, and answers its number. It waits for readers
    /// of the copy that it changes. It is refused only where memory was out in this call.
    #[tactic(auto, using(crate::proofs::Asked::rose_after))]
    pub fn push_and_publish<R: Wait>(
        &mut self,
        rt: &R,
        next: SyncRecord,
    ) -> Result<u64, PublishFault>
        requires open { is_ended self.old.newest ≡ false }
        requires number { next.sync ≡ length (records_of self.old.newest) + 1 }
        requires ready { IsReady (table_from J.start (records_of self.old.newest ++ next ∷ [])) }
        ensures number { IfOk result (λ n. n ≡ next.sync) }
        ensures ok { OnOk result (self.new.newest ≡ self.old.newest ++ Record next ∷ []) }
        ensures published { OnOk result (self.new.published ≡ self.new.newest) }
        ensures err { OnErr result (self.new.published ≡ self.old.published) }
        ensures record { IfErr result (λ fault. IsKeptOrBack fault next self.old self.new) }
        ensures later { self.old.refusals ≤ self.new.refusals }
        ensures cause { OnErr result (Rose self.old.refusals self.new.refusals) }
    {
        let number = next.sync;
        match self.copies.take_in(rt, next) {
            Ok(()) => match self.copies.publish(rt) {
                Ok(()) => Ok(number),
                Err(refused) => Err(PublishFault::NoMemoryPending(refused)),
            },
            Err((refused, next)) => Err(PublishFault::NoMemoryBack(next, refused)),
        }
    }

    /// Publishes what it keeps, and closes it. A history without room for its end counts as want
    /// of memory.
    pub(crate) fn close<R: Wait>(&mut self, rt: &R) -> Result<(), NoMemory>
        requires open { is_ended self.old.newest ≡ false }
        ensures ok { OnOk result (self.new.newest ≡ self.old.newest ++ End ∷ []) }
        ensures published { OnOk result (self.new.published ≡ self.new.newest) }
        ensures err { OnErr result (self.new.published ≡ self.old.published) }
        ensures pending { OnErr result (self.new.newest ≡ self.old.newest) }
    {
        if self.copies.newest().count() == u64::MAX {
            // There is no number for the end.
            return Err(NoMemory::beyond_counts());
        }
        self.copies.publish(rt)?;
        self.copies.end(rt);
        Ok(())
    }

    /// The table that was published last, once no reader is inside any more. A reader that enters
    /// afterwards waits without end.
    pub fn into_table<R: Wait>(self, rt: &R) -> Table
        ensures { result ≡ table_of J.start self.published }
    {
        let Publisher { copies } = self;
        copies.into_table(rt)
    }
}
