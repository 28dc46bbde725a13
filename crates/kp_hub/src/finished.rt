//! What a hub that ended hands out.
ghost use Rattle.std.specs.Prelude.{◌≡◌, ◌<◌, true, None, length};
ghost use Rattle.std.specs.List.{AllByRecursion};
ghost use Rattle.kp_publish.specs.Entries.{is_ended, records_of};
ghost use Rattle.kp_hub.specs.Finishing.{records_told};
ghost use Rattle.kp_hub.specs.Known.{known};

use crate::notes::{RecordNote, Refusal};
use crate::pass::WorkerPass;
use crate::sharing::Sharing;
use crate::workers::know_fewer;
use kp_base::Items;
use kp_feed::Fed;
use kp_plane::Table;
use kp_publish::{Front, Publisher};
use kp_types::Clash;
use std::sync::Wait;
use std::sync::ledger::Ledger;

/// What a hub that ended hands out: the journal with who fed each event, a note of each record, the
/// refused syncs, the clash of the last sync, if it was refused, and the table after all records.
/// It keeps the closed publisher, and is ended by `end`.
pub struct Finished<J: Sharing> {
    pub journal: Items<Fed>,
    pub notes: Items<RecordNote>,
    pub refusals: Items<Refusal>,
    pub clash: Option<Clash>,
    pub table: Table,
    pub(crate) publisher: Publisher<J>,
    ghost closed: { is_ended publisher.published ≡ true },
    ghost records: { records_of publisher.published ≡ records_told J.config journal notes },
}

impl<J: Sharing> Finished<J> {
    /// The front of all records. Nothing is published behind it.
    pub(crate) fn tell(&self) -> Front<J>
        ensures ended { is_ended result ≡ true }
        ensures records { records_of result
            ≡ records_told J.config self.now.journal self.now.notes }
    {
        self.publisher.tell()
    }

    /// Waits until each of these passes knows of fewer records than there are, unless the last sync
    /// was refused. They do at once, since no pass was told of that sync. No type says so.
    pub(crate) fn is_newer<A: Ledger, C: Ledger, R: Wait>(
        &self,
        rt: &R,
        workers: &[WorkerPass<J, A, C>],
    )
        ensures { self.now.clash ≡ None
            → AllByRecursion (λ w. known w < length self.now.notes) workers.now }
    {
        match &self.clash {
            None => know_fewer(rt, workers, self.notes.as_slice().len() as u64),
            Some(_) => {}
        }
    }

    /// Ends it, once no reader is inside any more.
    pub fn end<R: Wait>(self, rt: &R) {
        let Finished {
            journal: _journal,
            notes: _notes,
            refusals: _refusals,
            clash: _clash,
            table: _table,
            publisher,
        } = self;
        publisher.into_table(rt);
    }
}
