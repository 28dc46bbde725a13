//! What the hub's lock keeps.
ghost use Rattle.std.specs.Prelude.{◌≡◌, ◌+◌, ◌<◌, ◌≤◌, ◌++◌, ◌∷◌, [], length};
ghost use Rattle.std.specs.Prelude.{Some, None, IfOk, IsTrue, IfErr, OnOk, OnErr, List, map, sum};
ghost use Rattle.std.specs.List.{AllByRecursion};
ghost use Rattle.kp_feed.specs.Feeding.{AreWhole};
ghost use Rattle.kp_full_table.specs.Faults.{TellsClash};
ghost use Rattle.kp_history_defs.specs.declared.fed.Fed.{Fed};
ghost use Rattle.kp_io.specs.Faults.{Rose};
ghost use Rattle.kp_publish.specs.Entries.{records_of};
ghost use Rattle.kp_publish.specs.Pending.{Keeps};
ghost use Rattle.kp_run_defs.specs.LegalRuns.{last_syncs};
ghost use Rattle.kp_hub.specs.Finishing.{CoversAll, IsEnd, IsUntold, KeepsBooks, with_ended};
ghost use Rattle.kp_hub.specs.Growing.{IsDone, IsSameBut, StopsAt, TakesMore};
ghost use Rattle.kp_hub.specs.Known.{uncounted};
ghost use Rattle.kp_hub.specs.State.{first_table};
ghost use Rattle.kp_hub.specs.Syncs.{Accepts, CountsAccepted, CountsFault, Fails, IsDenied, IsTold};
ghost use Rattle.kp_hub.specs.Syncs.{IsUncounted, clash_after, with_refusal};
ghost use Rattle.kp_hub.specs.Taken.{records_at, with_sync};

use crate::finished::Finished;
use crate::intake::Intake;
use crate::notes::{Refusal, Stop, Synced};
use crate::outlet::{publish_all, put};
use crate::pass::WorkerPass;
use crate::sharing::Sharing;
use crate::workers::gather;
use kp_base::{Copied, Items, NoMemory};
use kp_feed::{Feed, FeedPass};
use kp_full_table::TableFault;
use kp_publish::laws::close;
use kp_publish::{Publisher, SyncRecord};
use kp_types::Clash;
use std::alloc::Global;
use std::collections::VecDeque;
use std::marker::Model;
use std::sync::Wait;
use std::sync::ledger::{Book, Ledger, Share};

/// What the hub's lock keeps: what was taken, the publisher and the records that wait for it, the
/// refused syncs, and the books of the syncs that passes were told of.
pub struct Held<J: Sharing, A: Ledger, C: Ledger> {
    intake: Intake<J>,
    publisher: Publisher<J>,
    waiting: VecDeque<SyncRecord>,
    refusals: Vec<Refusal>,
    accepted: Book<A>,
    refused: Book<C>,
    // A part of each ledger, which counts what passes that end had counted.
    all_accepted: Share<A>,
    all_refused: Share<C>,
}

impl<J: Sharing, A: Ledger, C: Ledger> Model for Held<J, A, C> {
    ghost use Rattle.std.specs.Prelude.{◌<◌};
    ghost use Rattle.kp_hub.specs.State.{HubState, IsHubState, state_code, state_in};

    ghost Value = { HubState };

    ghost coded = { state_code };

    ghost view = { λ s. state_in s.intake s.publisher s.refusals.items s.accepted.total
        s.refused.total };

    ghost invariant = { λ s. (0 < s.all_accepted.parts) × (0 < s.all_refused.parts)
        × IsHubState J.config J.streams J.start
        (state_in s.intake s.publisher s.refusals.items s.accepted.total s.refused.total)
        s.waiting.items };
}

impl<J: Sharing, A: Ledger, C: Ledger> Held<J, A, C> {
    /// Nothing was taken or published yet.
    pub(crate) fn new(
        alloc: Global,
        intake: Intake<J>,
        publisher: Publisher<J>,
        accepted: (Book<A>, Share<A>),
        refused: (Book<C>, Share<C>),
    ) -> Held<J, A, C>
        requires start { J.start ≡ first_table J.config }
        requires feeders { intake.feeders ≡ J.streams }
        requires counts { intake.counts ≡ [] }
        requires published { publisher.newest ≡ [] }
        requires accepted { (accepted.0.total ≡ 0) × (0 < accepted.1.parts) }
        requires refused { (refused.0.total ≡ 0) × (0 < refused.1.parts) }
        ensures { result ≡ record {
          taken = intake;
          outlet = publisher;
          refusals = [];
          accepted = 0;
          refused = 0;
        } }
    {
        Held {
            intake,
            publisher,
            waiting: VecDeque::new(alloc),
            refusals: Vec::new(alloc),
            accepted: accepted.0,
            refused: refused.0,
            all_accepted: accepted.1,
            all_refused: refused.1,
        }
    }

    /// Takes events until one of the stops, and then makes a record of them all and publishes it,
    /// with those that wait before it. It is refused exactly where two different chains that the
    /// objects need have one name; then nothing is published, and the clash is kept. After want of
    /// memory records that waited may have been published, and where the record was made, it is the
    /// publisher that had none.
    pub fn sync<R: Wait>(
        &mut self,
        rt: &R,
        alloc: Global,
        feed: &Feed,
        pass: &mut WorkerPass<J, A, C>,
    ) -> Result<Synced, TableFault>
        requires queue { feed.now ≡ J.queue }
        ensures more { TakesMore self.old.taken self.new.taken }
        ensures ok { IfOk result (λ s. Accepts J.config s.sync self.old self.new) }
        ensures stop { IfOk result (λ s. StopsAt J.config s.stop self.old.taken self.new.taken) }
        ensures none_waits { OnOk result (self.new.taken.waits ≡ None) }
        ensures told { IfOk result (λ s. IsTold s.sync pass.old pass.new) }
        ensures accepted { OnOk result (CountsAccepted self.old self.new) }
        ensures err { IfErr result (λ fault. Fails J.config fault self.old self.new) }
        ensures counts { IfErr result (λ fault. CountsFault fault self.old self.new) }
        ensures denied { IfErr result (λ fault. IsDenied fault pass.old pass.new) }
    {
        let stop = self.take_all(rt, feed)?;
        match self.record(rt, alloc) {
            Ok(sync) => {
                self.tell_accepted(rt, pass);
                Ok(Synced { sync, stop })
            }
            Err(TableFault::ChainClash(clash)) => {
                self.tell_refused(pass);
                Err(TableFault::ChainClash(clash))
            }
            Err(TableFault::NoMemory(refused)) => Err(TableFault::NoMemory(refused)),
        }
    }

    /// Ends feeders.
    pub(crate) fn end_feeders(&mut self, feed: &Feed, passes: Items<FeedPass>)
        requires queue { feed.now ≡ J.queue }
        requires passes { AllByRecursion (λ p. p.queue ≡ J.queue) passes }
        ensures { self.new ≡ record self.old {
          taken = with_ended self.old.taken passes;
        } }
    {
        self.intake.end_feeders(feed, passes);
    }

    /// Syncs until nothing is left to be taken, and answers the clash of the last sync, if it was
    /// refused.
    pub(crate) fn sync_all<R: Wait>(
        &mut self,
        rt: &R,
        alloc: Global,
        feed: &Feed,
    ) -> Result<Option<Clash>, NoMemory>
        requires queue { feed.now ≡ J.queue }
        ensures more { TakesMore self.old.taken self.new.taken }
        ensures done { OnOk result (IsDone J.config self.new.taken) }
        ensures clash { IfOk result (λ clash. clash
            ≡ clash_after J.config self.new.taken.journal) }
        ensures covers { IfOk result (λ clash. clash ≡ None → CoversAll self.new.taken) }
        ensures untold { IfOk result (IsUntold self.new) }
        ensures books { KeepsBooks self.old self.new }
    {
        for _ in rt.forever() {
            let clash = self.sync_last(rt, alloc, feed)?;
            if self.is_done(rt, feed) {
                return Ok(clash);
            }
        }
        unreachable!()
    }

    /// Counts what passes that end had counted.
    pub(crate) fn take_counts(&mut self, workers: &mut [WorkerPass<J, A, C>])
        ensures accepted { sum (map (λ w. w.accepted) workers.old) ≤ self.new.accepted }
        ensures refused { sum (map (λ w. w.refused) workers.old) ≤ self.new.refused }
        ensures workers { workers.new ≡ map uncounted workers.old }
        ensures stays { self.new ≡ self.old }
    {
        gather(workers, &mut self.all_accepted, &mut self.all_refused);
        self.accepted.audit(&mut self.all_accepted);
        self.refused.audit(&mut self.all_refused);
    }

    /// Syncs all that is left, closes the publisher and hands out what there is. Where memory is
    /// out it is given up.
    pub(crate) fn finish<R: Wait>(
        self,
        rt: &R,
        alloc: Global,
        feed: Feed,
    ) -> Result<Finished<J>, NoMemory>
        requires queue { feed ≡ J.queue }
        ensures end { IfOk result (λ done. IsEnd J.config done.journal done.notes done.refusals
            done.clash done.table) }
        ensures whole { IfOk result (λ done. length done.journal < J.config.max_events
            → AreWhole done.journal self.taken.ended J.streams) }
        ensures order { IfOk result (λ done. (left : List Fed)
            × AreWhole (done.journal ++ left) self.taken.ended J.streams) }
        ensures accepted { IfOk result
            (λ done. self.accepted + last_syncs done.clash ≤ length done.notes) }
        ensures refused { IfOk result (λ done. self.refused ≤ length done.refusals) }
    {
        let mut held = self;
        match held.sync_and_publish(rt, alloc, &feed) {
            Ok(clash) => held.into_finished(rt, alloc, feed, clash),
            Err(refused) => {
                held.give_up(rt, alloc, feed);
                Err(refused)
            }
        }
    }

    /// Syncs all that is left, and has the publisher take in the records that wait.
    fn sync_and_publish<R: Wait>(
        &mut self,
        rt: &R,
        alloc: Global,
        feed: &Feed,
    ) -> Result<Option<Clash>, NoMemory>
        requires queue { feed.now ≡ J.queue }
        ensures more { TakesMore self.old.taken self.new.taken }
        ensures done { OnOk result (IsDone J.config self.new.taken) }
        ensures clash { IfOk result (λ clash. clash
            ≡ clash_after J.config self.new.taken.journal) }
        ensures covers { IfOk result (λ clash. clash ≡ None → CoversAll self.new.taken) }
        ensures untold { IfOk result (IsUntold self.new) }
        ensures records { OnOk result (records_of self.new.outlet.newest
            ≡ records_at J.config self.new.taken) }
        ensures books { KeepsBooks self.old self.new }
    {
        let clash = self.sync_all(rt, alloc, feed)?;
        self.intake.are_ready();
        publish_all(rt, &mut self.publisher, &mut self.waiting)?;
        Ok(clash)
    }

    /// Closes the publisher, which has taken in all records, and hands out what there is.
    fn into_finished<R: Wait>(
        self,
        rt: &R,
        alloc: Global,
        feed: Feed,
        clash: Option<Clash>,
    ) -> Result<Finished<J>, NoMemory>
        requires queue { feed ≡ J.queue }
        requires done { IsDone J.config self.taken }
        requires records { records_of self.outlet.newest ≡ records_at J.config self.taken }
        requires clash { clash ≡ clash_after J.config self.taken.journal }
        requires covers { clash ≡ None → CoversAll self.taken }
        requires untold { IsUntold self clash }
        ensures end { IfOk result (λ done. IsEnd J.config done.journal done.notes done.refusals
            done.clash done.table) }
        ensures whole { IfOk result (λ done. length done.journal < J.config.max_events
            → AreWhole done.journal self.taken.ended J.streams) }
        ensures order { IfOk result (λ done. (left : List Fed)
            × AreWhole (done.journal ++ left) self.taken.ended J.streams) }
        ensures accepted { IfOk result
            (λ done. self.accepted + last_syncs done.clash ≤ length done.notes) }
        ensures refused { IfOk result (λ done. self.refused ≤ length done.refusals) }
    {
        let Held {
            intake,
            mut publisher,
            waiting: _waiting,
            refusals,
            accepted: _accepted,
            refused: _refused,
            all_accepted: _all_accepted,
            all_refused: _all_refused,
        } = self;
        let closed = close(&mut publisher, rt);
        let (taker, parts) = intake.into_parts(alloc);
        feed.finish(rt, Items::new(alloc), taker);
        let refused = match (closed, parts) {
            (Ok(()), Ok((journal, notes, table))) => {
                return Ok(Finished {
                    journal,
                    notes,
                    refusals: Items::from_vec(refusals),
                    clash,
                    table,
                    publisher,
                });
            }
            (Err(refused), _) => refused,
            (_, Err(refused)) => refused,
        };
        publisher.into_table(rt);
        Err(refused)
    }

    /// Ends the publisher and the queue.
    fn give_up<R: Wait>(self, rt: &R, alloc: Global, feed: Feed)
        requires queue { feed ≡ J.queue }
    {
        let Held {
            intake,
            publisher,
            waiting: _waiting,
            refusals: _refusals,
            accepted: _accepted,
            refused: _refused,
            all_accepted: _all_accepted,
            all_refused: _all_refused,
        } = self;
        let (taker, _) = intake.into_parts(alloc);
        publisher.into_table(rt);
        feed.finish(rt, Items::new(alloc), taker);
    }

    /// A sync that no pass is told of.
    fn sync_last<R: Wait>(
        &mut self,
        rt: &R,
        alloc: Global,
        feed: &Feed,
    ) -> Result<Option<Clash>, NoMemory>
        requires queue { feed.now ≡ J.queue }
        ensures more { TakesMore self.old.taken self.new.taken }
        ensures clash { IfOk result (λ clash. clash
            ≡ clash_after J.config self.new.taken.journal) }
        ensures covers { IfOk result (λ clash. clash ≡ None → CoversAll self.new.taken) }
        ensures untold { IfOk result (IsUntold self.new) }
        ensures books { KeepsBooks self.old self.new }
    {
        self.counts_few();
        self.take_all(rt, feed)?;
        match self.record(rt, alloc) {
            Ok(_) => Ok(None),
            Err(TableFault::ChainClash(clash)) => Ok(Some(clash)),
            Err(TableFault::NoMemory(refused)) => Err(refused),
        }
    }

    /// Whether nothing is left to be taken. Else the queue's front waits.
    fn is_done<R: Wait>(&mut self, rt: &R, feed: &Feed) -> bool
        requires queue { feed.now ≡ J.queue }
        ensures more { TakesMore self.old.taken self.new.taken }
        ensures taken { self.new.taken
            ≡ record self.old.taken { waits = self.new.taken.waits } }
        ensures stays { self.new ≡ record self.old { taken = self.new.taken } }
        ensures done { IsTrue result → IsDone J.config self.new.taken }
    {
        self.intake.is_done(rt, feed)
    }

    /// Takes events until one of the stops.
    fn take_all<R: Wait>(&mut self, rt: &R, feed: &Feed) -> Result<Stop, NoMemory>
        requires queue { feed.now ≡ J.queue }
        ensures more { TakesMore self.old.taken self.new.taken }
        ensures stays { self.new ≡ record self.old { taken = self.new.taken } }
        ensures counts { self.new.taken.counts ≡ self.old.taken.counts }
        ensures stop { IfOk result (λ s. StopsAt J.config s self.old.taken self.new.taken) }
        ensures none_waits { OnOk result (self.new.taken.waits ≡ None) }
    {
        self.intake.take_all(rt, feed)
    }

    /// No more syncs were told to passes than there are.
    fn counts_few(&self)
        ensures { self.now.accepted ≤ length self.now.taken.counts }
    {
        let _ = &self.intake;
    }

    /// Makes a record of the whole journal and publishes it, or keeps why that is refused.
    fn record<R: Wait>(&mut self, rt: &R, alloc: Global) -> Result<u64, TableFault>
        ensures ok { IfOk result (λ n. Accepts J.config n self.old self.new) }
        ensures err { IfErr result (λ fault. Fails J.config fault self.old self.new) }
        ensures taken { IsSameBut self.old.taken self.new.taken }
        ensures accepted { self.new.accepted ≡ self.old.accepted }
        ensures refused { self.new.refused ≡ self.old.refused }
        ensures covers { OnOk result (CoversAll self.new.taken) }
        ensures untold { OnOk result (self.new.accepted < length self.new.taken.counts) }
        ensures uncounted { IfErr result (λ fault. IsUncounted fault self.new) }
    {
        match self.make(alloc) {
            Ok(()) => Ok(self.publish(rt)?),
            Err(TableFault::ChainClash(clash)) => {
                self.refuse(alloc, &clash)?;
                Err(TableFault::ChainClash(clash))
            }
            Err(TableFault::NoMemory(refused)) => Err(TableFault::NoMemory(refused)),
        }
    }

    /// Makes a record of the whole journal, which waits. Where that is refused all stays.
    fn make(&mut self, alloc: Global) -> Result<(), TableFault>
        ensures ok { OnOk result (self.new ≡ record self.old {
          taken = with_sync J.config self.old.taken;
        }) }
        ensures no_clash { OnOk result (clash_after J.config self.old.taken.journal ≡ None) }
        ensures waits { OnOk result (length (records_of self.new.outlet.newest)
            < length self.new.taken.counts) }
        ensures covers { OnOk result (CoversAll self.new.taken) }
        ensures untold { OnOk result (self.new.accepted < length self.new.taken.counts) }
        ensures clash { IfErr result (TellsClash (clash_after J.config self.old.taken.journal)) }
        ensures err { OnErr result (self.new ≡ self.old) }
    {
        // The room for the record, should it have to wait, is taken before it is made.
        if let Err(refused) = self.waiting.reserve(1) {
            return Err(TableFault::NoMemory(NoMemory::from(refused)));
        }
        let record = self.intake.record(alloc)?;
        put(&mut self.waiting, record);
        Ok(())
    }

    /// Publishes all records that wait, of which there is one, and answers how many there are.
    fn publish<R: Wait>(&mut self, rt: &R) -> Result<u64, NoMemory>
        requires { length (records_of self.old.outlet.newest) < length self.old.taken.counts }
        ensures number { IfOk result (λ n. n ≡ length self.old.taken.counts) }
        ensures published { OnOk result (self.new.outlet.published ≡ self.new.outlet.newest) }
        ensures records { OnOk result (records_of self.new.outlet.published
            ≡ records_at J.config self.new.taken) }
        ensures cause { OnErr result (Rose self.old.outlet.refusals self.new.outlet.refusals) }
        ensures stays { self.new ≡ record self.old { outlet = self.new.outlet } }
    {
        self.intake.are_ready();
        publish_all(rt, &mut self.publisher, &mut self.waiting)?;
        Ok(self.publisher.count())
    }

    /// Keeps that a sync of the whole journal was refused. Where memory is out all stays.
    fn refuse(&mut self, alloc: Global, clash: &Clash) -> Result<(), NoMemory>
        requires { clash_after J.config self.old.taken.journal ≡ Some clash.now }
        ensures ok { OnOk result (self.new ≡ with_refusal self.old clash.now) }
        ensures uncounted { OnOk result (self.new.refused < length self.new.refusals) }
        ensures err { OnErr result (self.new ≡ self.old) }
    {
        let refusal = Refusal {
            events: self.intake.len(),
            clash: clash.copy(alloc)?,
        };
        Ok(self.refusals.push(refusal)?)
    }

    /// Lets a pass know all that is published, of which the last record is new to it, and count an
    /// accepted sync.
    fn tell_accepted<R: Wait>(&mut self, rt: &R, pass: &mut WorkerPass<J, A, C>)
        requires published { self.old.outlet.published ≡ self.old.outlet.newest }
        requires records { records_of self.old.outlet.published
            ≡ records_at J.config self.old.taken }
        requires fewer { self.old.accepted < length self.old.taken.counts }
        ensures told { IsTold (length self.old.taken.counts) pass.old pass.new }
        ensures counts { self.new ≡ record self.old { accepted = self.old.accepted + 1 } }
    {
        pass.knows_fewer(rt, self.publisher.count());
        pass.learn(self.publisher.tell());
        pass.count_accepted(&mut self.accepted);
    }

    /// Lets a pass count a refused sync.
    fn tell_refused(&mut self, pass: &mut WorkerPass<J, A, C>)
        requires { self.old.refused < length self.old.refusals }
        ensures told { pass.new ≡ record pass.old { refused = pass.old.refused + 1 } }
        ensures counts { self.new ≡ record self.old { refused = self.old.refused + 1 } }
    {
        pass.count_refused(&mut self.refused);
    }
}
