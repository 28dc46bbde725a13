//! What one stream does with its lines.
ghost use Rattle.std.specs.Prelude.{◌≡◌, ◌++◌, ◌∷◌, [], List, None, IfOk, OnOk, map};
ghost use Rattle.kp_run_defs.specs.ReplayText.{no_sources};
ghost use Rattle.kp_run_defs.specs.declared.live.StreamLine.{StreamLine};
ghost use Rattle.kp_live.specs.Streams.{PacketTold, RunsOn, StandsBehind, SyncTold};
ghost use Rattle.kp_live.specs.Told.{Told, Holds};

use crate::answers::Answers;
use kp_base::{Config, Copied, NoMemory};
use kp_feed::FeedPass;
use kp_gate::Gate;
use kp_hub::{Hub, Sharing, TableFault, WorkerPass};
use kp_recent::RecentLists;
use kp_script::PacketLine;
use kp_streams::{StreamLine, Work};
use kp_types::Event;
use std::alloc::Global;
use std::marker::Model;
use std::sync::Wait;
use std::sync::ledger::Ledger;

/// Where a stream stands: its passes, its recent lists, how many calls of the hub it has made, and
/// what its lines were answered so far.
#[derive(Drop)]
pub(crate) struct Standing<J: Sharing, A: Ledger, C: Ledger> {
    place: u32,
    calls: u64,
    feeder: FeedPass,
    worker: WorkerPass<J, A, C>,
    lists: RecentLists,
    answers: Answers,
}

impl<J: Sharing, A: Ledger, C: Ledger> Model for Standing<J, A, C> {
    ghost use Rattle.kp_live.specs.Stands.{Stand, stand_code};

    ghost Value = { Stand };

    ghost coded = { stand_code };

    ghost view = { λ s. record {
      feeder = s.feeder;
      worker = s.worker;
      lists = s.lists;
      answers = s.answers;
    } };
}

impl<J: Sharing, A: Ledger, C: Ledger> Standing<J, A, C> {
    /// Where a stream stands before its first line.
    pub(crate) fn new(
        alloc: Global,
        config: &Config,
        place: u32,
        feeder: FeedPass,
        worker: WorkerPass<J, A, C>,
    ) -> Result<Standing<J, A, C>, NoMemory>
        ensures feeder { IfOk result (λ s. s.feeder ≡ feeder) }
        ensures worker { IfOk result (λ s. s.worker ≡ worker) }
        ensures lists { IfOk result (λ s. s.lists ≡ no_sources config.now.recent_size) }
        ensures answers { IfOk result (λ s. Holds s.answers []) }
    {
        Ok(Standing {
            place,
            calls: 0,
            feeder,
            worker,
            lists: RecentLists::new(alloc, config.recent_size)?,
            answers: Answers::new(alloc),
        })
    }

    /// Does what a line asks for. Without memory the stream is of no more use.
    fn take<R: Wait, G: Gate<R>>(
        &mut self,
        rt: &R,
        alloc: Global,
        hub: &Hub<J, A, C>,
        gate: &G,
        line: &StreamLine,
    ) -> Result<(), NoMemory>
        requires queue { self.old.feeder.queue ≡ J.queue }
        ensures queue { self.new.feeder.queue ≡ self.old.feeder.queue }
        ensures feeder { self.new.feeder.feeder ≡ self.old.feeder.feeder }
        ensures behind { OnOk result ((lines : List StreamLine)
            → StandsBehind J.start J.config lines self.old
            → StandsBehind J.start J.config (lines ++ line.now ∷ []) self.new) }
    {
        match &line.work {
            Work::Feeds(events) => self.feed_all(rt, alloc, hub, gate, events.as_slice()),
            Work::Syncs => self.sync(rt, alloc, hub, gate, line.number),
            Work::Sends(packet) => self.answer(rt, gate, line.number, packet),
        }
    }

    /// Feeds events, one by one.
    fn feed_all<R: Wait, G: Gate<R>>(
        &mut self,
        rt: &R,
        alloc: Global,
        hub: &Hub<J, A, C>,
        gate: &G,
        events: &[Event],
    ) -> Result<(), NoMemory>
        requires queue { self.old.feeder.queue ≡ J.queue }
        ensures queue { self.new.feeder.queue ≡ self.old.feeder.queue }
        ensures feeder { self.new.feeder.feeder ≡ self.old.feeder.feeder }
        ensures fed { OnOk result (self.new.feeder.fed ≡ self.old.feeder.fed ++ events.now) }
        ensures worker { self.new.worker ≡ self.old.worker }
        ensures lists { self.new.lists ≡ self.old.lists }
        ensures answers { self.new.answers ≡ self.old.answers }
    {
        for event in events {
            self.feed(rt, hub, gate, event.copy(alloc)?)?;
        }
        Ok(())
    }

    /// Feeds an event.
    fn feed<R: Wait, G: Gate<R>>(
        &mut self,
        rt: &R,
        hub: &Hub<J, A, C>,
        gate: &G,
        event: Event,
    ) -> Result<(), NoMemory>
        requires queue { self.old.feeder.queue ≡ J.queue }
        ensures queue { self.new.feeder.queue ≡ self.old.feeder.queue }
        ensures feeder { self.new.feeder.feeder ≡ self.old.feeder.feeder }
        ensures fed { OnOk result (self.new.feeder.fed ≡ self.old.feeder.fed ++ event ∷ []) }
        ensures worker { self.new.worker ≡ self.old.worker }
        ensures lists { self.new.lists ≡ self.old.lists }
        ensures answers { self.new.answers ≡ self.old.answers }
    {
        if self.feeder.count() == u64::MAX {
            // There is no number for one more.
            return Err(NoMemory::beyond_counts());
        }
        self.begin(rt, gate);
        let fed = hub.feed(rt, &mut self.feeder, event);
        self.end(rt, gate);
        match fed {
            Ok(_) => Ok(()),
            Err((refused, _)) => Err(refused),
        }
    }

    /// Makes a sync, which the line of this number asks for.
    fn sync<R: Wait, G: Gate<R>>(
        &mut self,
        rt: &R,
        alloc: Global,
        hub: &Hub<J, A, C>,
        gate: &G,
        number: u64,
    ) -> Result<(), NoMemory>
        ensures feeder { self.new.feeder ≡ self.old.feeder }
        ensures lists { self.new.lists ≡ self.old.lists }
        ensures told { OnOk result ((told : List Told) → Holds self.old.answers told
            → (next : Told) × SyncTold number self.old.worker self.new.worker next
            × Holds self.new.answers (told ++ next ∷ [])) }
    {
        self.begin(rt, gate);
        let synced = hub.sync(rt, alloc, &mut self.worker);
        self.end(rt, gate);
        match synced {
            Ok(sync) => self.answers.add_sync(number, sync),
            Err(TableFault::ChainClash(clash)) => self.answers.add_refusal(clash),
            Err(TableFault::NoMemory(refused)) => Err(refused),
        }
    }

    /// Answers the packet of the line of this number.
    fn answer<R: Wait, G: Gate<R>>(
        &mut self,
        rt: &R,
        gate: &G,
        number: u64,
        line: &PacketLine,
    ) -> Result<(), NoMemory>
        ensures feeder { self.new.feeder ≡ self.old.feeder }
        ensures told { OnOk result ((told : List Told) → Holds self.old.answers told
            → (next : Told) × PacketTold J.start J.config number line.now
            self.old.worker self.new.worker self.old.lists self.new.lists next
            × Holds self.new.answers (told ++ next ∷ [])) }
    {
        self.begin(rt, gate);
        let answered = self
            .answers
            .add_packet(rt, &mut self.worker, number, line, &mut self.lists);
        self.end(rt, gate);
        answered
    }

    /// Makes room for the answers of these lines.
    fn make_room(&mut self, lines: &[&StreamLine]) -> Result<(), NoMemory>
        ensures queue { self.new.feeder.queue ≡ self.old.feeder.queue }
        ensures feeder { self.new.feeder.feeder ≡ self.old.feeder.feeder }
        ensures behind { (lines : List StreamLine) → StandsBehind J.start J.config lines self.old
            → StandsBehind J.start J.config lines self.new }
    {
        self.answers.make_room(lines)
    }

    /// Its passes, and what its lines were answered.
    pub(crate) fn into_parts(self) -> (FeedPass, WorkerPass<J, A, C>, Answers)
        ensures feeder { result.0 ≡ self.feeder }
        ensures worker { result.1 ≡ self.worker }
        ensures answers { result.2 ≡ self.answers }
    {
        let Standing {
            place: _place,
            calls: _calls,
            feeder,
            worker,
            lists: _lists,
            answers,
        } = self;
        (feeder, worker, answers)
    }

    /// A call of the hub is about to begin.
    fn begin<R, G: Gate<R>>(&mut self, rt: &R, gate: &G)
        ensures { self.new ≡ self.old }
    {
        self.calls = self.calls.saturating_add(1);
        gate.arrive(rt, self.place, self.calls);
    }

    /// The call has ended.
    fn end<R, G: Gate<R>>(&self, rt: &R, gate: &G) {
        gate.leave(rt, self.place, self.calls);
    }
}

/// A stream: its lines, where it stands, and why it stopped where memory ran out.
#[derive(Drop)]
pub(crate) struct Stream<'a, J: Sharing, A: Ledger, C: Ledger> {
    pub(crate) lines: Vec<&'a StreamLine>,
    pub(crate) standing: Standing<J, A, C>,
    pub(crate) refused: Option<NoMemory>,
}

impl<'a, J: Sharing, A: Ledger, C: Ledger> Stream<'a, J, A, C> {
    /// One more line.
    pub(crate) fn add(&mut self, line: &'a StreamLine) -> Result<(), NoMemory>
        ensures standing { self.new.standing ≡ self.old.standing }
        ensures lines { OnOk result (map (λ l. l.now) self.new.lines.items
            ≡ map (λ l. l.now) self.old.lines.items ++ line.now ∷ []) }
    {
        self.lines.push(line)?;
        Ok(())
    }

    /// Does what its lines ask for, one after the other, until memory runs out.
    pub(crate) fn run<R: Wait, G: Gate<R>>(
        &mut self,
        rt: &R,
        alloc: Global,
        hub: &Hub<J, A, C>,
        gate: &G,
    )
        requires queue { self.old.standing.feeder.queue ≡ J.queue }
        ensures { self.new.refused ≡ None → RunsOn J.start J.config
            (map (λ l. l.now) self.old.lines.items) self.old.standing self.new.standing }
    {
        let taken = take_all(
            rt,
            alloc,
            hub,
            gate,
            self.lines.as_slice(),
            &mut self.standing,
        );
        self.refused = match taken {
            Ok(()) => None,
            Err(refused) => Some(refused),
        };
    }
}

/// Does what lines ask for, one after the other.
fn take_all<J: Sharing, A: Ledger, C: Ledger, R: Wait, G: Gate<R>>(
    rt: &R,
    alloc: Global,
    hub: &Hub<J, A, C>,
    gate: &G,
    lines: &[&StreamLine],
    standing: &mut Standing<J, A, C>,
) -> Result<(), NoMemory>
    requires queue { standing.old.feeder.queue ≡ J.queue }
    ensures { OnOk result (RunsOn J.start J.config (map (λ l. l.now) lines.now)
        standing.old standing.new) }
{
    standing.make_room(lines)?;
    for line in lines {
        standing.take(rt, alloc, hub, gate, line)?;
    }
    Ok(())
}
