//! What was taken from the queue, and the syncs that cover it.
ghost use Rattle.std.specs.Prelude.{◌≡◌, ◌+◌, ◌<◌, ◌≤◌, ◌++◌, ◌∷◌, [], true, false, length, map};
ghost use Rattle.std.specs.Prelude.{None, IfOk, IfErr, IsTrue, ◌↔◌, OnOk, OnErr};
ghost use Rattle.kp_choice_defs.specs.Settings.{settings_of};
ghost use Rattle.std.specs.List.{AllByRecursion};
ghost use Rattle.kp_feed.specs.Calls as calls;
ghost use Rattle.kp_feed.specs.Feeding.{AreWhole};
ghost use Rattle.kp_full_table.specs.Faults.{TellsClash};
ghost use Rattle.kp_object_defs.specs.Objects.{objects_after};
ghost use Rattle.kp_table_defs.specs.Rebuild.{clash_of};
ghost use Rattle.kp_history_defs.specs.Runs.{events_of};
ghost use Rattle.kp_plane.specs.Parts as parts;
ghost use Rattle.kp_hub.specs.Finishing.{CoversAll};
ghost use Rattle.kp_hub.specs.Growing.{IsDone, IsFull, StopsAt, TakesMore};
ghost use Rattle.kp_hub.specs.Ready.{AreReady};
ghost use Rattle.kp_hub.specs.State.{first_table};
ghost use Rattle.kp_hub.specs.Taken.{fed_of, note_of, plane_of, records_at, taker_of, with_sync};

use crate::next::{accept, next};
use crate::notes::{Origin, RecordNote, Stop};
use crate::sharing::Sharing;
use kp_base::{Items, NoMemory, Steps};
use kp_feed::{Fed, Feed, FeedPass, TakePass};
use kp_plane::{Plane, Table, TableFault};
use kp_types::{Batch, Event, SyncRecord};
use std::alloc::Global;
use std::marker::{Brand, Model, PhantomData};
use std::sync::Wait;
use std::sync::ledger::{Blank, Ledger};

/// The most events that one sync takes.
const BUDGET: u64 = 65_536;

/// The plane, who fed each event of its journal, the event that waits since memory ran out, and a
/// note of each sync.
pub(crate) struct Intake<J: Sharing> {
    plane: Plane,
    origins: Vec<Origin>,
    waits: Option<Fed>,
    taker: TakePass,
    notes: Vec<RecordNote>,
    of: PhantomData<J>,
}

impl<J: Sharing> Drop for Intake<J> {
    fn drop(self) {
        let Intake {
            plane,
            origins,
            waits,
            taker,
            notes,
            of,
        } = self;
    }
}

impl<J: Sharing> Model for Intake<J> {
    ghost use Rattle.std.specs.Prelude.{◌≡◌, length};
    ghost use Rattle.kp_hub.specs.Taken.{IsTaken, Taken, taken_code, taken_in};

    ghost Value = { Taken };

    ghost coded = { taken_code };

    ghost view = { λ s. taken_in s.origins.items s.waits s.plane s.taker };

    ghost invariant = { λ s. (length s.origins.items ≡ length s.plane.events)
        × IsTaken J.config J.queue (taken_in s.origins.items s.waits s.plane s.taker)
        s.plane s.taker s.notes.items };
}

impl<J: Sharing> Intake<J> {
    /// Nothing was taken, and there is no sync.
    pub(crate) fn new(alloc: Global, plane: Plane, taker: TakePass) -> Intake<J>
        requires plane { plane ≡ record { config = J.config; events = []; counts = [] } }
        requires queue { taker.queue ≡ J.queue }
        requires taken { taker.taken ≡ [] }
        ensures { result ≡ record {
          journal = [];
          waits = None;
          counts = [];
          feeders = taker.feeders;
          ended = taker.ended;
        } }
    {
        Intake {
            plane,
            origins: Vec::new(alloc),
            waits: None,
            taker,
            notes: Vec::new(alloc),
            of: PhantomData,
        }
    }

    /// Whether the journal holds as many events as it may.
    fn is_full(&self) -> bool
        ensures full { IsTrue result → IsFull J.config self.now }
        ensures room { result ≡ false → length self.now.journal < J.config.max_events }
        ensures none_waits { IsTrue result → self.now.waits ≡ None }
    {
        self.plane.journal().events().len() as u64 >= self.plane.config().max_events
    }

    /// Takes one event, unless there is none. One that isn't accepted for want of memory waits.
    fn take_one<R: Wait>(&mut self, rt: &R, feed: &Feed) -> Result<bool, NoMemory>
        requires queue { feed.now ≡ J.queue }
        requires room { length self.old.journal < J.config.max_events }
        ensures more { TakesMore self.old self.new }
        ensures counts { self.new.counts ≡ self.old.counts }
        ensures records { records_at J.config self.new ≡ records_at J.config self.old }
        ensures one { IfOk result (λ took. took ≡ true
            → (length self.new.journal ≡ length self.old.journal + 1) × (self.new.waits ≡ None)) }
        ensures none { IfOk result (λ took. took ≡ false
            → (self.new ≡ self.old) × (self.old.waits ≡ None)
            × AreWhole self.old.journal self.old.ended self.old.feeders) }
        ensures err { OnErr result (self.new.journal ≡ self.old.journal) }
    {
        kp_history_laws::sync_records();
        let Some(fed) = next(rt, feed, &mut self.taker, &mut self.waits) else {
            return Ok(false);
        };
        match accept(&mut self.plane, &mut self.origins, fed) {
            Ok(()) => Ok(true),
            Err((refused, back)) => {
                self.waits = Some(back);
                Err(refused)
            }
        }
    }

    /// Takes events until one of the stops, and tells which. The journal is asked first, before
    /// anything is taken and also behind the last event of the budget.
    pub(crate) fn take_all<R: Wait>(&mut self, rt: &R, feed: &Feed) -> Result<Stop, NoMemory>
        requires queue { feed.now ≡ J.queue }
        ensures more { TakesMore self.old self.new }
        ensures counts { self.new.counts ≡ self.old.counts }
        ensures records { records_at J.config self.new ≡ records_at J.config self.old }
        ensures stop { IfOk result (λ stop. StopsAt J.config stop self.old self.new) }
        ensures none_waits { OnOk result (self.new.waits ≡ None) }
    {
        for taken in 0..BUDGET {
            if self.is_full() {
                return Ok(Stop::JournalFull);
            }
            if !self.take_one(rt, feed)? {
                return Ok(Stop::QueueEmpty);
            }
        }
        if self.is_full() {
            Ok(Stop::JournalFull)
        } else {
            Ok(Stop::Budget)
        }
    }

    /// Makes the record of a sync of the whole journal, and keeps its note. It is refused exactly
    /// where two different chains that the objects need have one name. After a refusal all stays.
    pub(crate) fn record(&mut self, alloc: Global) -> Result<SyncRecord, TableFault>
        ensures ok { OnOk result (self.new ≡ with_sync J.config self.old) }
        ensures record { IfOk result (λ r. records_at J.config self.new
            ≡ records_at J.config self.old ++ r ∷ []) }
        ensures covers { OnOk result (CoversAll self.new) }
        ensures no_clash { OnOk result (clash_of (settings_of J.config)
            (objects_after (events_of self.old.journal)) ≡ None) }
        ensures clash { IfErr result (TellsClash (clash_of (settings_of J.config)
            (objects_after (events_of self.old.journal)))) }
        ensures err { OnErr result (self.new ≡ self.old) }
    {
        if let Err(refused) = self.notes.reserve(1) {
            return Err(TableFault::NoMemory(NoMemory::from(refused)));
        }
        let (note, record) = sync_for_nobody(alloc, &mut self.plane)?;
        self.notes.push_reserved(note);
        Ok(record)
    }

    /// Ends feeders.
    pub(crate) fn end_feeders(&mut self, feed: &Feed, passes: Items<FeedPass>)
        requires queue { feed.now ≡ J.queue }
        requires passes { AllByRecursion (λ p. p.queue ≡ J.queue) passes }
        ensures { self.new ≡ record self.old {
          ended = self.old.ended ++ map calls.ended_of passes;
        } }
    {
        feed.end(&mut self.taker, passes);
    }

    /// Whether nothing is left to be taken: the journal is full, or no event waits and the queue is
    /// empty. Else the queue's front waits.
    pub(crate) fn is_done<R: Wait>(&mut self, rt: &R, feed: &Feed) -> bool
        requires queue { feed.now ≡ J.queue }
        ensures more { TakesMore self.old self.new }
        ensures stays { self.new ≡ record self.old { waits = self.new.waits } }
        ensures done { IsTrue result → IsDone J.config self.new }
    {
        if self.is_full() {
            return true;
        }
        match next(rt, feed, &mut self.taker, &mut self.waits) {
            Some(fed) => {
                self.waits = Some(fed);
                false
            }
            None => true,
        }
    }

    /// The journal with who fed each event, the notes, the plane's table, and the taker.
    pub(crate) fn into_parts(
        self,
        alloc: Global,
    ) -> (
        TakePass,
        Result<(Items<Fed>, Items<RecordNote>, Table), NoMemory>,
    )
        ensures taker { result.0 ≡ taker_of J.queue self }
        ensures journal { IfOk result.1 (λ (journal, _, _). journal ≡ self.journal) }
        ensures notes { IfOk result.1
            (λ (_, notes, _). notes ≡ map note_of (records_at J.config self)) }
        ensures table { IfOk result.1
            (λ (_, _, table). table ≡ parts.table_in (plane_of J.config self)) }
        ensures exact { parts.HasExactHistory (plane_of J.config self) }
        ensures few { length self.journal ≤ J.config.max_events }
    {
        let Intake {
            plane,
            origins,
            waits: _waits,
            taker,
            notes,
            of: _,
        } = self;
        let _ = plane.table();
        let (events, _counts, table) = plane.into_parts();
        match joined(alloc, origins.as_slice(), events) {
            Ok(journal) => (taker, Ok((journal, Items::from_vec(notes), table))),
            Err(refused) => (taker, Err(refused)),
        }
    }

    /// How many events the journal holds.
    pub(crate) fn len(&self) -> u64
        ensures { result ≡ length self.now.journal }
    {
        self.origins.len() as u64
    }

    /// The records may be published, one after the other.
    pub(crate) fn are_ready(&self)
        requires { J.start ≡ first_table J.config }
        ensures { AreReady J.start (records_at J.config self.now) }
    {
        kp_history_laws::exact_tables();
        kp_walk_laws::full_table_ranked_objects();
        kp_walk_laws::hashed_prefixed();
        let _ = self.plane.table();
    }
}

/// Events, with who fed each.
fn joined(alloc: Global, origins: &[Origin], events: Items<Event>) -> Result<Items<Fed>, NoMemory>
    requires { length origins.now ≡ length events }
    ensures { IfOk result (λ journal. journal ≡ fed_of origins.now events) }
{
    let mut journal = Vec::new(alloc);
    let mut at = 0;
    for event in events.into_vec() {
        let Origin { feeder, number } = origins[at];
        journal.push(Fed {
            feeder,
            number,
            event,
        })?;
        at += 1;
    }
    Ok(Items::from_vec(journal))
}

/// A sync whose steps nobody counts: what is kept of it, and its record.
fn sync_for_nobody(alloc: Global, plane: &mut Plane) -> Result<(RecordNote, SyncRecord), TableFault>
    ensures note { IfOk result (λ (note, r). note ≡ note_of r) }
    ensures record { IfOk result (λ (_, r). parts.IsNextRecord plane.old r) }
    ensures added { IfOk result (λ (_, r). parts.records_in plane.new
        ≡ parts.records_in plane.old ++ r ∷ []) }
    ensures ok { OnOk result (plane.new ≡ parts.synced plane.old) }
    ensures clash { IfErr result (TellsClash (clash_of (parts.settings_in plane.old)
        (objects_after plane.old.events))) }
    ensures err { OnErr result (plane.new ≡ plane.old) }
{
    sync_counted::<Brand, Brand>(alloc, plane, Blank::new(1), Blank::new(1))
}

/// A sync whose steps these ledgers count, which are new.
fn sync_counted<L: Ledger, A: Ledger>(
    alloc: Global,
    plane: &mut Plane,
    rules: Blank,
    ports: Blank,
) -> Result<(RecordNote, SyncRecord), TableFault>
    requires rules_name { rules.name ≡ L.name }
    requires rules_parts { rules.parts ≡ L.parts }
    requires some_rules { 0 < rules.parts }
    requires ports_name { ports.name ≡ A.name }
    requires ports_parts { ports.parts ≡ A.parts }
    requires some_ports { 0 < ports.parts }
    ensures note { IfOk result (λ (note, r). note ≡ note_of r) }
    ensures record { IfOk result (λ (_, r). parts.IsNextRecord plane.old r) }
    ensures added { IfOk result (λ (_, r). parts.records_in plane.new
        ≡ parts.records_in plane.old ++ r ∷ []) }
    ensures ok { OnOk result (plane.new ≡ parts.synced plane.old) }
    ensures clash { IfErr result (TellsClash (clash_of (parts.settings_in plane.old)
        (objects_after plane.old.events))) }
    ensures err { OnErr result (plane.new ≡ plane.old) }
{
    let mut steps = Steps::<L>::new(rules);
    let mut asked = Steps::<A>::new(ports);
    let (note, batch) = plane.sync_as::<Batch, L, A>(alloc, &mut steps, &mut asked)?;
    let kept = RecordNote {
        events: note.events,
        written: note.written,
        removed: note.removed,
    };
    let record = SyncRecord {
        sync: note.sync,
        events: note.events,
        batch,
    };
    Ok((kept, record))
}
