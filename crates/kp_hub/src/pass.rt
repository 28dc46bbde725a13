//! The pass of a worker.
ghost use Rattle.std.specs.Prelude.{◌≡◌, ◌+◌, ◌≤◌, ◌<◌, ◌++◌, [], length};
ghost use Rattle.std.specs.Prelude.{IfOk, OnOk, OnErr, string_bytes};
ghost use mathlib.Core.List.{IsPrefix};
ghost use Rattle.kp_print.specs.Fronts.{HasFront};
ghost use Rattle.kp_publish.specs.Entries.{records_of, StandsFor};
ghost use Rattle.kp_hub.specs.Known.{known, new_worker};
ghost use Rattle.kp_hub.specs.Reading.{answer_after, HasWalked, OnTheWay, Reads, walk_after};

use crate::sharing::Sharing;
use kp_answers::{PacketLine, Snapshot};
use kp_base::{Address, Items, NoMemory};
use kp_publish::{Front, Reader, View};
use kp_recent::RecentLists;
use kp_types::Verdict;
use std::marker::Model;
use std::mem::replace;
use std::sync::Wait;
use std::sync::ledger::{Book, Ledger, Share};

/// What a worker reads tables by, and how many of its syncs were accepted and refused. It leads to
/// no lock.
#[derive(Drop)]
pub struct WorkerPass<J: Sharing, A: Ledger, C: Ledger> {
    /// There is one, but for the time that it is inside.
    reader: Option<Reader<J>>,
    learned: Front<J>,
    node: Items<Address>,
    accepted: Share<A>,
    refused: Share<C>,
}

impl<J: Sharing, A: Ledger, C: Ledger> Model for WorkerPass<J, A, C> {
    ghost use Rattle.std.specs.Prelude.{◌≡◌, ◌<◌};
    ghost use Rattle.kp_hub.specs.Known.{IsOutside, Worker, worker_code, worker_of};

    ghost Value = { Worker };

    ghost coded = { worker_code };

    ghost view = { λ w. worker_of w.reader w.learned w.accepted.amount w.refused.amount };

    ghost invariant = { λ w. IsOutside w.reader w.learned × (w.node ≡ J.config.addresses)
        × (0 < w.accepted.parts) × (0 < w.refused.parts) };
}

impl<J: Sharing, A: Ledger, C: Ledger> WorkerPass<J, A, C> {
    /// A pass that has seen nothing and synced nothing.
    pub(crate) fn new(
        reader: Reader<J>,
        nothing: Front<J>,
        node: Items<Address>,
        accepted: Share<A>,
        refused: Share<C>,
    ) -> WorkerPass<J, A, C>
        requires reader { (reader.seen ≡ []) × (reader.told ≡ []) }
        requires nothing { nothing ≡ [] }
        requires node { node ≡ J.config.addresses }
        requires accepted { (0 < accepted.parts) × (accepted.amount ≡ 0) }
        requires refused { (0 < refused.parts) × (refused.amount ≡ 0) }
        ensures { result ≡ new_worker }
    {
        WorkerPass {
            reader: Some(reader),
            learned: nothing,
            node,
            accepted,
            refused,
        }
    }

    /// Its reader, which goes on from all that the pass saw or learned of. It may stay inside for
    /// more than one look. What the pass counted counts for nobody.
    pub fn into_reader(self) -> Reader<J>
        ensures seen { result.seen ≡ self.seen }
        ensures told { result.told ≡ self.told }
    {
        let WorkerPass {
            reader,
            learned: _learned,
            node: _node,
            accepted: _accepted,
            refused: _refused,
        } = self;
        match reader {
            Some(reader) => reader,
            None => unreachable!(),
        }
    }

    /// What becomes of the packet of the line of this number, by a published table, and the number
    /// of that table's sync.
    pub(crate) fn verdict_of<R: Wait>(
        &mut self,
        rt: &R,
        number: u64,
        line: &PacketLine,
        lists: &mut RecentLists,
    ) -> Result<(u64, Verdict), NoMemory>
        ensures reads { Reads self.old self.new }
        ensures sync { IfOk result (λ (sync, _). sync ≡ length (records_of self.new.seen)) }
        ensures verdict { IfOk result (λ (_, verdict). verdict
            ≡ (walk_after J.start J.config self.new.seen number line.now lists.old).verdict) }
        ensures lists { OnOk result (lists.new
            ≡ (walk_after J.start J.config self.new.seen number line.now lists.old).lists) }
        ensures refused { OnErr result (OnTheWay J.start J.config self.new.seen number line.now
            lists.old lists.new) }
    {
        let Some(reader) = self.reader.take() else {
            unreachable!()
        };
        let view = reader.enter(rt);
        let sync = view.count();
        let verdict = snapshot(&view, &self.node).verdict_of(number, line, lists);
        self.reader = Some(view.leave());
        Ok((sync, verdict?))
    }

    /// Adds what the line of this number is answered by a published table, and gives the number of
    /// that table's sync.
    pub(crate) fn answer<R: Wait>(
        &mut self,
        rt: &R,
        number: u64,
        line: &PacketLine,
        lists: &mut RecentLists,
        text: &mut String,
    ) -> Result<u64, NoMemory>
        ensures reads { Reads self.old self.new }
        ensures sync { IfOk result (λ sync. sync ≡ length (records_of self.new.seen)) }
        ensures text { OnOk result (string_bytes text.new ≡ string_bytes text.old
            ++ answer_after J.start J.config self.new.seen number line.now lists.old) }
        ensures lists { OnOk result (lists.new
            ≡ (walk_after J.start J.config self.new.seen number line.now lists.old).lists) }
        ensures refused { OnErr result (HasWalked J.start J.config self.new.seen number line.now
            lists.old lists.new) }
        ensures front { OnErr result (HasFront text.new text.old) }
    {
        let Some(reader) = self.reader.take() else {
            unreachable!()
        };
        let view = reader.enter(rt);
        let sync = view.count();
        let answered = snapshot(&view, &self.node).answer(number, line, lists, text);
        self.reader = Some(view.leave());
        answered?;
        Ok(sync)
    }

    /// Reads a published table.
    pub(crate) fn look<R: Wait>(&mut self, rt: &R)
        ensures { Reads self.old self.new }
    {
        let Some(reader) = self.reader.take() else {
            unreachable!()
        };
        self.reader = Some(reader.enter(rt).leave());
    }

    /// The front that it learned last begins the longest that it learned.
    pub(crate) fn knows_its_front(&self)
        ensures { IsPrefix self.now.learned self.now.told }
    {
        let _reader = &self.reader;
    }

    /// How many records it knows of.
    fn known(&self) -> u64
        ensures { result ≡ known self.now }
    {
        match &self.reader {
            Some(reader) => reader.known(),
            None => 0,
        }
    }

    /// Waits until it knows of fewer records than these. It does at once where the last of them was
    /// published behind all that passes knew. No type says so.
    pub(crate) fn knows_fewer<R: Wait>(&self, rt: &R, records: u64)
        ensures { known self.now < records }
    {
        for _ in rt.forever() {
            if self.known() < records {
                return;
            }
        }
        unreachable!()
    }

    /// Gives its counts to these shares.
    pub(crate) fn give_counts(&mut self, accepted: &mut Share<A>, refused: &mut Share<C>)
        requires { (0 < accepted.old.parts) × (0 < refused.old.parts) }
        ensures accepted { accepted.new.amount ≡ accepted.old.amount + self.old.accepted }
        ensures refused { refused.new.amount ≡ refused.old.amount + self.old.refused }
        ensures parts { (0 < accepted.new.parts) × (0 < refused.new.parts) }
        ensures stays { self.new ≡ record self.old { accepted = 0; refused = 0 } }
    {
        let none = accepted.empty();
        accepted.merge(replace(&mut self.accepted, none));
        accepted.give(&mut self.accepted, 1, 0);
        let none = refused.empty();
        refused.merge(replace(&mut self.refused, none));
        refused.give(&mut self.refused, 1, 0);
    }

    /// Takes in a front. Whatever is seen from now on goes on from it too.
    pub(crate) fn learn(&mut self, front: Front<J>)
        ensures learned { self.new.learned ≡ front }
        ensures told { IsPrefix self.old.told self.new.told }
        ensures front { IsPrefix front self.new.told }
        ensures seen { self.new.seen ≡ self.old.seen }
        ensures accepted { self.new.accepted ≡ self.old.accepted }
        ensures refused { self.new.refused ≡ self.old.refused }
    {
        if let Some(reader) = &mut self.reader {
            reader.learn(front.again());
        }
        self.learned = front;
    }

    /// Counts an accepted sync, in the book too.
    pub(crate) fn count_accepted(&mut self, book: &mut Book<A>)
        ensures total { book.new.total ≡ book.old.total + 1 }
        ensures bound { self.new.accepted ≤ book.new.total }
        ensures one { self.new ≡ record self.old { accepted = self.old.accepted + 1 } }
    {
        book.add(&mut self.accepted, 1);
        book.audit(&mut self.accepted);
    }

    /// Counts a refused sync, in the book too.
    pub(crate) fn count_refused(&mut self, book: &mut Book<C>)
        ensures total { book.new.total ≡ book.old.total + 1 }
        ensures one { self.new ≡ record self.old { refused = self.old.refused + 1 } }
    {
        book.add(&mut self.refused, 1);
    }
}

/// What a reader inside answers packets from, on the node with these addresses.
fn snapshot<'a, J: Sharing>(view: &'a View<J>, node: &'a Items<Address>) -> Snapshot<'a>
    ensures table { StandsFor J.start result.table.now view.now.seen }
    ensures node { result.node.now ≡ node.now }
    ensures sync { result.sync ≡ length (records_of view.now.seen) }
{
    Snapshot {
        table: view.table(),
        node,
        sync: view.count(),
    }
}
