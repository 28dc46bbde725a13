//! The hub.
ghost use Rattle.std.specs.Prelude.{◌≡◌, ◌-◌, ◌+◌, ◌<◌, ◌≤◌, ◌^◌, ◌++◌, [], ℕ, List, suc, length};
ghost use Rattle.std.specs.Prelude.{None, filter, map, replicate, sum};
ghost use Rattle.std.specs.Prelude.{IfOk, IfErr, OnOk, OnErr, string_bytes};
ghost use Rattle.std.specs.List.{AllByRecursion};
ghost use Rattle.kp_feed.specs.Calls as calls;
ghost use Rattle.kp_feed.specs.Feeding.{Delivers};
ghost use Rattle.kp_history_defs.specs.declared.fed.Fed.{Fed};
ghost use Rattle.kp_history_defs.specs.Runs.{is_of_stream};
ghost use Rattle.kp_print.specs.Fronts.{HasFront};
ghost use Rattle.kp_publish.specs.Entries.{records_of};
ghost use Rattle.kp_run_defs.specs.LegalRuns.{last_syncs};
ghost use Rattle.kp_hub.specs.Finishing.{IsEnd};
ghost use Rattle.kp_hub.specs.Known.{known, new_worker, uncounted};
ghost use Rattle.kp_hub.specs.Reading.{answer_after, HasWalked, OnTheWay, Reads, walk_after};
ghost use Rattle.kp_hub.specs.State.{first_table};
ghost use Rattle.kp_hub.specs.Syncs.{IsClashOfSome, IsDenied, IsTold};

use crate::finished::Finished;
use crate::intake::Intake;
use crate::laws::Held;
use crate::opening::Opening;
use crate::pass::WorkerPass;
use crate::sharing::Sharing;
use crate::workers::outlet_of;
use kp_answers::PacketLine;
use kp_base::{Items, NoMemory};
use kp_feed::{Feed, FeedPass};
use kp_full_table::TableFault;
use kp_recent::RecentLists;
use kp_types::{Event, Verdict};
use std::alloc::Global;
use std::sync::ledger::Ledger;
use std::sync::{Mutex, MutexGuard, Wait};

/// What threads share. Events are fed beside each other, one sync is made at a time, and tables
/// are read without it. It is ended by `finish`.
pub struct Hub<J: Sharing, A: Ledger, C: Ledger> {
    feed: Feed,
    held: Mutex<Held<J, A, C>>,
    ghost queue_is: { feed ≡ J.queue },
}

impl<J: Sharing, A: Ledger, C: Ledger> Hub<J, A, C> {
    /// A hub, and a pass of each stream for its events, numbered from 0, and for the rest.
    pub fn new<R: Wait>(
        rt: &R,
        alloc: Global,
        opening: Opening,
    ) -> Result<(Hub<J, A, C>, Items<FeedPass>, Items<WorkerPass<J, A, C>>), NoMemory>
        requires config { opening.config ≡ J.config }
        requires book { opening.book ≡ J.book }
        requires queue { opening.queue ≡ J.queue }
        requires streams { opening.streams ≡ J.streams }
        requires start { J.start ≡ first_table J.config }
        requires accepted { opening.accepted ≡ (A.name, A.parts) }
        requires refused { opening.refused ≡ (C.name, C.parts) }
        ensures feeders { IfOk result
            (λ (_, feeders, _). feeders ≡ calls.new_feeders J.queue opening.streams) }
        ensures workers { IfOk result
            (λ (_, _, workers). workers ≡ replicate opening.streams new_worker) }
    {
        let Opening {
            plane,
            history,
            feed,
            feeders,
            taker,
            accepted,
            refused,
            streams,
        } = opening;
        let (accepted, mut all_accepted) = accepted.open::<A>();
        let (refused, mut all_refused) = refused.open::<C>();
        match outlet_of(
            rt,
            alloc,
            history,
            &plane,
            streams,
            &mut all_accepted,
            &mut all_refused,
        ) {
            Ok((publisher, workers)) => {
                let held = Held::new(
                    alloc,
                    Intake::new(alloc, plane, taker),
                    publisher,
                    (accepted, all_accepted),
                    (refused, all_refused),
                );
                let hub = Hub {
                    feed,
                    held: Mutex::new(held),
                };
                Ok((hub, feeders, workers))
            }
            Err(refused) => {
                feed.finish(rt, feeders, taker);
                Err(refused)
            }
        }
    }

    /// What becomes of the packet of the line of this number, by a published table, and the number
    /// of that table's sync. The table goes on from all that the pass saw before or learned of. It
    /// takes no lock.
    pub fn verdict_of<R: Wait>(
        rt: &R,
        pass: &mut WorkerPass<J, A, C>,
        number: u64,
        line: &PacketLine,
        lists: &mut RecentLists,
    ) -> Result<(u64, Verdict), NoMemory>
        ensures reads { Reads pass.old pass.new }
        ensures sync { IfOk result (λ (sync, _). sync ≡ length (records_of pass.new.seen)) }
        ensures verdict { IfOk result (λ (_, verdict). verdict
            ≡ (walk_after J.start J.config pass.new.seen number line.now lists.old).verdict) }
        ensures lists { OnOk result (lists.new
            ≡ (walk_after J.start J.config pass.new.seen number line.now lists.old).lists) }
        ensures refused { OnErr result (OnTheWay J.start J.config pass.new.seen number line.now
            lists.old lists.new) }
    {
        pass.verdict_of(rt, number, line, lists)
    }

    /// Adds what the line of this number is answered by a published table, with its trail where the
    /// line asks for it, and gives the number of that table's sync. The table goes on from all that
    /// the pass saw before or learned of. It takes no lock. Without memory what was in the text
    /// stands.
    pub fn walk<R: Wait>(
        rt: &R,
        pass: &mut WorkerPass<J, A, C>,
        number: u64,
        line: &PacketLine,
        lists: &mut RecentLists,
        text: &mut String,
    ) -> Result<u64, NoMemory>
        ensures reads { Reads pass.old pass.new }
        ensures sync { IfOk result (λ sync. sync ≡ length (records_of pass.new.seen)) }
        ensures text { OnOk result (string_bytes text.new ≡ string_bytes text.old
            ++ answer_after J.start J.config pass.new.seen number line.now lists.old) }
        ensures lists { OnOk result (lists.new
            ≡ (walk_after J.start J.config pass.new.seen number line.now lists.old).lists) }
        ensures refused { OnErr result (HasWalked J.start J.config pass.new.seen number line.now
            lists.old lists.new) }
        ensures front { OnErr result (HasFront text.new text.old) }
    {
        pass.answer(rt, number, line, lists, text)
    }

    /// Feeds an event as the next of a stream, and answers its number. Where memory is out it hands
    /// the event back.
    pub fn feed<R: Wait>(
        &self,
        rt: &R,
        pass: &mut FeedPass,
        event: Event,
    ) -> Result<u64, (NoMemory, Event)>
        requires queue { pass.old.queue ≡ J.queue }
        requires room { length pass.old.fed < 2 ^ 64 - 1 }
        ensures number { IfOk result (λ number. number ≡ suc (length pass.old.fed)) }
        ensures fed { IfOk result (λ number. pass.new ≡ calls.with_fed pass.old event) }
        ensures back { IfErr result (λ e. e.1 ≡ event) }
        ensures kept { IfErr result (λ e. pass.new ≡ pass.old) }
    {
        self.feed.feed(rt, pass, event)
    }

    /// Makes a sync under the lock, of what was taken by then, and answers its record's number.
    /// The pass knew of none that is as new, and knows that record now, so whatever it reads from
    /// now on is as new. Where two different chains have one name the sync is refused.
    pub fn sync<R: Wait>(
        &self,
        rt: &R,
        alloc: Global,
        pass: &mut WorkerPass<J, A, C>,
    ) -> Result<u64, TableFault>
        ensures told { IfOk result (λ sync. IsTold sync pass.old pass.new) }
        ensures denied { IfErr result (λ fault. IsDenied fault pass.old pass.new) }
        ensures clash { IfErr result (IsClashOfSome J.config) }
    {
        let mut held = self.held.lock(rt);
        let synced = held.sync(rt, alloc, &self.feed, pass);
        MutexGuard::unlock(held);
        Ok(synced?.sync)
    }

    /// Ends the hub: ends these streams, and syncs until all that they fed is covered or the
    /// journal is full. The passes of workers stay passes of its history, and count no more syncs.
    /// Where memory is out it is given up.
    pub fn finish<R: Wait>(
        self,
        rt: &R,
        alloc: Global,
        passes: Items<FeedPass>,
        workers: &mut [WorkerPass<J, A, C>],
    ) -> Result<Finished<J>, NoMemory>
        requires passes { AllByRecursion (λ p. p.queue ≡ J.queue) passes }
        ensures end { IfOk result (λ done. IsEnd J.config done.journal done.notes done.refusals
            done.clash done.table) }

        // The journal has each stream's events in their order, and all of them where it isn't full.
        ensures order { IfOk result (λ done. (left : List Fed)
            × AllByRecursion (λ p. Delivers (done.journal ++ left) p.feeder p.fed) passes) }
        ensures whole { IfOk result (λ done. length done.journal < J.config.max_events
            → AllByRecursion (λ p. Delivers done.journal p.feeder p.fed) passes) }
        ensures made { IfOk result (λ done. (p : ℕ) → J.streams ≤ p
            → filter (is_of_stream p) done.journal ≡ []) }

        // No pass knows of the last sync, unless it was refused. There are as many syncs as passes
        // were told of, and that one more.
        ensures last { IfOk result (λ done. done.clash ≡ None
            → AllByRecursion (λ w. known w < length done.notes) workers.old) }
        ensures accepted { IfOk result (λ done. sum (map (λ w. w.accepted) workers.old)
            + last_syncs done.clash ≤ length done.notes) }
        ensures refused { IfOk result (λ done. sum (map (λ w. w.refused) workers.old)
            ≤ length done.refusals) }
        ensures workers { workers.new ≡ map uncounted workers.old }
    {
        let Hub { feed, held } = self;
        let mut held = held.into_inner();
        held.take_counts(workers);
        held.end_feeders(&feed, passes);
        let done = held.finish(rt, alloc, feed)?;
        done.is_newer(rt, workers);
        Ok(done)
    }
}
