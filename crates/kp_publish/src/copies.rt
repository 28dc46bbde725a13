//! The two copies of a table, and what readers don't see yet.
ghost use Rattle.std.specs.Prelude.{◌≡◌, ◌+◌, ◌-◌, ◌^◌, ◌<◌, ◌≤◌, ◌++◌, ◌∷◌, [], drop, length};
ghost use Rattle.std.specs.Prelude.{false, OnOk, OnErr, IfErr};
ghost use Rattle.kp_io.specs.Faults.{Rose};
ghost use Rattle.kp_history_defs.specs.History.{table_from};
ghost use Rattle.kp_publish.specs.Entries.{records_of, is_ended, table_of, IsReady};
ghost use Rattle.kp_publish.specs.Pending.{after};
ghost use Rattle.kp_publish.specs.declared.entry.Entry.TheVariants.{Record, End};

use crate::asking::Refusals;
use crate::entry::Entry;
use crate::front::Front;
use crate::history::{Head, Publication};
use crate::shown::{Addition, Shown};
use crossbeam_utils::rule::Unruled;
use kp_base::NoMemory;
use kp_rules::Table;
use kp_types::SyncRecord;
use left_right::Absorb;
use left_right::writer::Writer;
use std::marker::Model;
use std::sync::Wait;

/// The copy that readers take, the other one, and the records that are pending. Contracts see the
/// history that is published, and that with what is pending.
///
/// The bound is the parameters' own, since one on `Shown` itself is proved twice, and not to the
/// same value.
pub struct Copies<J: Publication, T: Absorb<O, State = [Entry; 0]> + Drop, O: Drop> {
    head: Head<J>,
    writer: Writer<T, O, (), Unruled>,
    published: Front<J>,
    newest: Front<J>,
    // The last record, where the writer had no room for it.
    held: Option<O>,
    refusals: Refusals,
}

impl<J: Publication, T: Absorb<O, State = [Entry; 0]> + Drop, O: Drop> Model for Copies<J, T, O> {
    ghost use Rattle.std.specs.Prelude.{drop};
    ghost use Rattle.kp_publish.specs.Pending.{Fits, Keeps, keeps_code, newest_of};

    ghost Value = { Keeps };

    ghost coded = { keeps_code };

    ghost view = { λ c. record {
      published = c.published;
      newest = c.newest;
      pair = c.writer.desk.place.table_id;
      refusals = c.refusals;
    } };

    ghost invariant = { λ c. Fits c.published c.newest (T.state c.writer.desk.shown.value)
        (newest_of T.applied (T.state c.writer.desk.shown.value)
        (drop c.writer.behind c.writer.log.items) c.held) };
}

impl<J: Publication> Copies<J, Shown<J>, Addition<J>> {
    /// Copies that readers take at a history, with nothing pending.
    pub(crate) fn new(
        head: Head<J>,
        writer: Writer<Shown<J>, Addition<J>, (), Unruled>,
        front: Front<J>,
    ) -> Copies<J, Shown<J>, Addition<J>>
        requires shown { writer.desk.shown.value ≡ front }
        requires pending { drop writer.behind writer.log.items ≡ [] }
        ensures { result ≡ record {
          published = front;
          newest = front;
          pair = writer.desk.place.table_id;
          refusals = 0;
        } }
    {
        Copies {
            head,
            writer,
            published: front.again(),
            newest: front,
            held: None,
            refusals: Refusals::none(),
        }
    }

    /// The front of what is published.
    pub(crate) fn published(&self) -> &Front<J>
        ensures { result.now ≡ self.now.published }
    {
        &self.published
    }

    /// The front of what is published and of what is pending.
    pub(crate) fn newest(&self) -> &Front<J>
        ensures { result.now ≡ self.now.newest }
    {
        &self.newest
    }

    /// Takes in a record, behind those that are pending. It comes back where there is no room.
    pub(crate) fn take_in<R: Wait>(
        &mut self,
        rt: &R,
        next: SyncRecord,
    ) -> Result<(), (NoMemory, SyncRecord)>
        requires open { is_ended self.old.newest ≡ false }
        requires number { next.sync ≡ length (records_of self.old.newest) + 1 }
        requires ready { IsReady (table_from J.start (records_of self.old.newest ++ next ∷ [])) }
        ensures published { self.new.published ≡ self.old.published }
        ensures ok { OnOk result (self.new.newest ≡ self.old.newest ++ Record next ∷ []) }
        ensures err { OnErr result (self.new
            ≡ record self.old { refusals = self.new.refusals }) }
        ensures back { IfErr result (λ e. e.1 ≡ next) }
        ensures later { self.old.refusals ≤ self.new.refusals }
        ensures cause { OnErr result (Rose self.old.refusals self.new.refusals) }
    {
        match self.refusals.settle(&mut self.writer, &mut self.held) {
            Ok(()) => {}
            Err(refused) => return Err((refused, next)),
        }
        let after = self.newest.with_record(rt, &self.head, &next);
        let addition = Addition::new(next, self.newest.again(), after.again());
        self.newest = after;
        self.held = Some(addition);
        // Where there is no room for it now, the next call asks again.
        let _ = self.refusals.settle(&mut self.writer, &mut self.held);
        Ok(())
    }

    /// Publishes what is pending.
    #[tactic(auto, using(crate::proofs::Asked::rose_after))]
    pub(crate) fn publish<R: Wait>(&mut self, rt: &R) -> Result<(), NoMemory>
        requires open { is_ended self.old.newest ≡ false }
        ensures newest { self.new.newest ≡ self.old.newest }
        ensures ok { OnOk result (self.new.published ≡ self.new.newest) }
        ensures err { OnErr result (self.new.published ≡ self.old.published) }
        ensures later { self.old.refusals ≤ self.new.refusals }
        ensures cause { OnErr result (Rose self.old.refusals self.new.refusals) }
    {
        self.refusals.settle(&mut self.writer, &mut self.held)?;
        self.refusals.show(rt, &mut self.writer)?;
        self.published = self.newest.again();
        Ok(())
    }

    /// Ends the history, of which nothing is pending.
    pub(crate) fn end<R: Wait>(&mut self, rt: &R)
        requires open { is_ended self.old.newest ≡ false }
        requires whole { self.old.published ≡ self.old.newest }
        requires room { length (records_of self.old.newest) < 2 ^ 64 - 1 }
        ensures newest { self.new.newest ≡ self.old.newest ++ End ∷ [] }
        ensures published { self.new.published ≡ self.new.newest }
    {
        let end = self.newest.with_end(rt, &self.head);
        self.published = end.again();
        self.newest = end;
    }

    /// The table that readers take, once none is inside any more.
    pub(crate) fn into_table<R: Wait>(self, rt: &R) -> Table
        ensures { result ≡ table_of J.start self.published }
    {
        let Copies {
            head: _head,
            writer,
            published: _published,
            newest: _newest,
            held: _held,
            refusals: _refusals,
        } = self;
        let shown = writer.take(rt);
        Box::into_inner(shown).into_table()
    }
}
