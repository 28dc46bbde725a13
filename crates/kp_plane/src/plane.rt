//! The plane.
ghost use Rattle.std.specs.Prelude.{◌≡◌, ◌+◌, ◌≤◌, ℕ, [], ◌∷◌, ◌++◌, length, sum, true};
ghost use Rattle.std.specs.Prelude.{None, IfOk, IfErr, OnOk, OnErr};
ghost use Rattle.std.specs.Option.{option_copied};
ghost use Rattle.kp_base.specs.declared.address.Family.{Family as OneFamily};
ghost use Rattle.kp_choice_defs.specs.Draws.{IsStated, AreDraws};
ghost use Rattle.kp_choice_defs.specs.Recent.{RecentParts};
ghost use Rattle.kp_events.specs.JournalContents.{HasRoom, Refuses};
ghost use Rattle.kp_full_table.specs.Faults.{TellsClash};
ghost use Rattle.kp_object_defs.specs.Objects.{objects_after};
ghost use Rattle.kp_types.specs.Setting.{has_tables_of};
ghost use Rattle.kp_types.specs.declared.packet.Packet.{Packet};
ghost use Rattle.kp_plane.specs.Counts.{IsCounted};
ghost use Rattle.kp_plane.specs.Notes.{last_note, note_of};
ghost use Rattle.kp_plane.specs.Parts as parts;
ghost use Rattle.kp_plane.specs.Parts.{HasExactHistory, IsNextRecord, settings_in};
ghost use Rattle.kp_plane.specs.Parts.{decided_in, explained_in, walked_in};
ghost use Rattle.kp_plane.specs.Past.{LeadPastOthers};
ghost use Rattle.kp_store.specs.Touched.{is_touched};
ghost use Rattle.kp_table_defs.specs.Ranks.{is_ranked, has_chains_of};
ghost use Rattle.kp_table_defs.specs.Rebuild.{clash_of};
ghost use Rattle.kp_walk_laws.specs.Laws.{Agree};
ghost use Rattle.kp_writer.specs.Batch.{own_rules_written};

use crate::laws::walk_decides;
use crate::note::SyncNote;
use crate::place::ObjectsAt;
use crate::ports_at::PortsAt;
use crate::question::{Deciding, Question};
use crate::slices_at::SlicesAt;
use crate::sync::{OfBatch, sync_as};
use kp_base::{Config, Family, Items, NoMemory, Steps};
use kp_draws::DrawSource;
use kp_events::{Journal, JournalFault};
use kp_full_table::TableFault;
use kp_history::History;
use kp_history_defs::DirtyPort;
use kp_recent::RecentLists;
use kp_rules::Table;
use kp_store::{Objects, Touched};
use kp_types::{Batch, Decision, Event, Packet, Slice, SyncRecord};
use kp_writer::told;
use std::alloc::Global;
use std::marker::Model;
use std::mem::replace;
use std::sync::ledger::Ledger;

/// One order of events: those that were accepted, and the syncs that cover the first of them.
pub struct Plane {
    config: Config,
    journal: Journal,
    history: History,
    /// What is known of ports at the latest sync, which may have been refused.
    ports: PortsAt,
    /// The objects of the last accepted sync, where a refused one has led the others on.
    explained: ObjectsAt,
    /// The slices, where they were last asked for.
    slices: SlicesAt,
}

/// One call on each way out of what owns a plane.
impl Drop for Plane {
    fn drop(self) {
        let Plane {
            config,
            journal,
            history,
            ports,
            explained,
            slices,
        } = self;
    }
}

impl Model for Plane {
    ghost use Rattle.kp_plane.specs.Invariant.{IsPlane, parts_of};
    ghost use Rattle.kp_plane.specs.Parts.{PlaneParts, parts_code};

    ghost Value = { PlaneParts };

    ghost coded = { parts_code };

    ghost view = { λ s. parts_of s.config s.journal s.history };

    ghost invariant = { λ s. IsPlane (parts_of s.config s.journal s.history) s.journal.most
        s.history s.ports s.explained s.slices };
}

impl Plane {
    /// No event and no sync.
    pub fn new(alloc: Global, config: Config) -> Result<Plane, NoMemory>
        ensures { IfOk result (λ p. p ≡ record { config = config; events = []; counts = [] }) }
    {
        let history = History::new(alloc, &config)?;
        let ports = PortsAt::start(alloc, &config)?;
        let journal = Journal::new(alloc, config.max_events);
        Ok(Plane {
            config,
            journal,
            history,
            ports,
            explained: ObjectsAt::start(alloc),
            slices: SlicesAt::start(alloc),
        })
    }

    /// The configuration.
    pub fn config(&self) -> &Config
        ensures { result.now ≡ self.now.config }
    {
        &self.config
    }

    /// The journal of the accepted events.
    pub fn journal(&self) -> &Journal
        ensures { result.now ≡ parts.journal_in self.now }
    {
        &self.journal
    }

    /// How many events the last sync covers.
    pub fn covered(&self) -> u64
        ensures count { result ≡ sum self.now.counts }
        ensures within { result ≤ length self.now.events }
    {
        self.history.covered
    }

    /// How many syncs were accepted. They cover events that there are.
    pub fn syncs(&self) -> u64
        ensures count { result ≡ parts.syncs_in self.now }
        ensures within { sum self.now.counts ≤ length self.now.events }
    {
        self.history.counts.len() as u64
    }

    /// The table: the full one of the objects that the last sync covers, with a count of the
    /// syncs. The syncs are an exact history. It can be walked, has the built-in chains of each
    /// family that the node has tables of, and sends each packet where the objects say.
    pub fn table(&self) -> &Table
        ensures table { result.now ≡ parts.table_in self.now }
        ensures exact { HasExactHistory self.now }
        ensures ranked { is_ranked result.now.chains ≡ true }
        ensures built_in { (family : OneFamily) → has_tables_of family (settings_in self.now) ≡ true
            → has_chains_of family result.now.chains ≡ true }
        ensures agree { (packet : Packet) (drawn : ℕ → ℕ) (lists : RecentParts)
            → Agree (walked_in self.now packet drawn lists)
            (decided_in self.now packet drawn lists) }
    {
        self.decides();
        &self.history.table
    }

    /// The batch of the last sync. There is none exactly before the first.
    pub fn last_batch(&self) -> Option<&Batch>
        ensures { option_copied result ≡ parts.last_batch_in self.now }
    {
        self.history.last.as_ref()
    }

    /// Accepts all of these events, or none and gives them back.
    pub fn accept(&mut self, events: Items<Event>) -> Result<(), (JournalFault, Items<Event>)>
        ensures ok { OnOk result (self.new ≡ parts.with_events self.old events) }
        ensures fits { OnOk result (HasRoom (parts.journal_in self.old) (length events)) }

        // On a refusal nothing is accepted, and the caller gets the events back.
        ensures cause { IfErr result (λ (fault, _).
            Refuses (parts.journal_in self.old) (length events) fault) }
        ensures back { IfErr result (λ (_, returned). returned ≡ events) }
        ensures err { OnErr result (self.new ≡ self.old) }
    {
        kp_history_laws::exact_histories();
        kp_history_laws::sync_records();
        self.journal.push(events)
    }

    /// Accepts an event, or gives it back.
    pub fn accept_one(&mut self, event: Event) -> Result<(), (JournalFault, Event)>
        ensures ok { OnOk result (self.new ≡ parts.with_events self.old (event ∷ [])) }
        ensures fits { OnOk result (HasRoom (parts.journal_in self.old) 1) }

        // On a refusal nothing is accepted, and the caller gets the event back.
        ensures cause { IfErr result (λ (fault, _).
            Refuses (parts.journal_in self.old) 1 fault) }
        ensures back { IfErr result (λ (_, returned). returned ≡ event) }
        ensures err { OnErr result (self.new ≡ self.old) }
    {
        kp_history_laws::exact_histories();
        kp_history_laws::sync_records();
        self.journal.push_one(event)
    }

    /// Brings the table up to all events, and answers the record of that. It is refused exactly
    /// where two different chains that the objects need in one family have one name. After a
    /// refusal all stays, and no event is lost.
    pub fn sync<L: Ledger, A: Ledger>(
        &mut self,
        alloc: Global,
        steps: &mut Steps<L>,
        asked: &mut Steps<A>,
    ) -> Result<SyncRecord, TableFault>
        ensures record { IfOk result (IsNextRecord self.old) }
        ensures added { IfOk result (λ r. parts.records_in self.new
            ≡ parts.records_in self.old ++ r ∷ []) }
        ensures ok { OnOk result (self.new ≡ parts.synced self.old) }
        ensures clash { IfErr result (TellsClash
            (clash_of (settings_in self.old) (objects_after self.old.events))) }
        ensures err { OnErr result (self.new ≡ self.old) }

        // It costs what changed: at most a step for each rule that the dirty ports of each family
        // have after it, in their own chains and in the shared ones, and at least one for each rule
        // of a port's own chains that is written. Dirty are the ports of which a family knows
        // something else than at the last sync, also where others were refused since. Of the other
        // count it takes one for each port that the objects are asked about: these are ports of
        // Services that events touch which no sync covers yet, each once at most in each family, so
        // none where no event came. Where it is refused it may have taken some of them, and takes
        // them again at the next sync.
        ensures bound { steps.new ≤ steps.old + parts.most_steps self.old }
        ensures made { IfOk result (λ r.
            steps.old + own_rules_written r.batch.edits ≤ steps.new) }
        ensures asked { asked.new ≤ asked.old + parts.most_asked self.old }
        ensures unchanged { parts.uncovered_in self.old ≡ 0 → steps.new ≡ steps.old }
        ensures unasked { parts.uncovered_in self.old ≡ 0 → asked.new ≡ asked.old }
    {
        let (note, batch) = self.sync_as::<Batch, L, A>(alloc, steps, asked)?;
        Ok(SyncRecord {
            sync: note.sync,
            events: note.events,
            batch,
        })
    }

    /// Does what `sync` does, and answers its record's counts alone: no edit is copied.
    pub fn sync_noted<L: Ledger, A: Ledger>(
        &mut self,
        alloc: Global,
        steps: &mut Steps<L>,
        asked: &mut Steps<A>,
    ) -> Result<SyncNote, TableFault>
        ensures note { IfOk result (λ n. n
            ≡ last_note (parts.uncovered_in self.old) self.new) }
        ensures no_clash { OnOk result (
            clash_of (settings_in self.old) (objects_after self.old.events) ≡ None) }
        ensures ok { OnOk result (self.new ≡ parts.synced self.old) }
        ensures clash { IfErr result (TellsClash
            (clash_of (settings_in self.old) (objects_after self.old.events))) }
        ensures err { OnErr result (self.new ≡ self.old) }

        // It costs what `sync` does.
        ensures bound { steps.new ≤ steps.old + parts.most_steps self.old }
        ensures asked { asked.new ≤ asked.old + parts.most_asked self.old }
        ensures unchanged { parts.uncovered_in self.old ≡ 0 → steps.new ≡ steps.old }
        ensures unasked { parts.uncovered_in self.old ≡ 0 → asked.new ≡ asked.old }
    {
        let (note, ()) = self.sync_as::<(), L, A>(alloc, steps, asked)?;
        Ok(note)
    }

    /// Does what `sync` does, and answers its record's note with what is made of its batch. Nothing
    /// is kept where this can't be made for want of memory.
    pub fn sync_as<T: OfBatch, L: Ledger, A: Ledger>(
        &mut self,
        alloc: Global,
        steps: &mut Steps<L>,
        asked: &mut Steps<A>,
    ) -> Result<(SyncNote, T), TableFault>
        ensures note { IfOk result (λ (note, _). note ≡ note_of (parts.next_record self.old)) }
        ensures last { IfOk result (λ (note, _). note
            ≡ last_note (parts.uncovered_in self.old) self.new) }
        ensures told { IfOk result (λ (_, made). T.told (parts.next_edits self.old) made) }
        ensures record { OnOk result (IsNextRecord self.old (parts.next_record self.old)) }
        ensures added { OnOk result (parts.records_in self.new
            ≡ parts.records_in self.old ++ parts.next_record self.old ∷ []) }
        ensures ok { OnOk result (self.new ≡ parts.synced self.old) }
        ensures clash { IfErr result (TellsClash
            (clash_of (settings_in self.old) (objects_after self.old.events))) }
        ensures err { OnErr result (self.new ≡ self.old) }

        // It costs what `sync` does.
        ensures steps { IsCounted (parts.uncovered_in self.old) (parts.most_steps self.old)
            steps.old steps.new }
        ensures asked { IsCounted (parts.uncovered_in self.old) (parts.most_asked self.old)
            asked.old asked.new }
        ensures made { OnOk result (
            steps.old + own_rules_written (parts.next_edits self.old) ≤ steps.new) }
    {
        self.records_grow();
        let events = self.uncovered();
        let (written, removed, made) = sync_as::<T, L, A>(
            alloc,
            &self.config,
            &self.journal,
            &mut self.history,
            &mut self.ports,
            steps,
            asked,
        )?;
        let note = SyncNote {
            sync: self.syncs(),
            events,
            written,
            removed,
        };
        Ok((note, made))
    }

    /// The decision on a packet by the objects that the last sync covers, with its reason. The
    /// recent lists stay as they are.
    pub fn explain<F: Fn(u64, u32) -> u32>(
        &mut self,
        alloc: Global,
        number: u64,
        packet: &Packet,
        draws: &DrawSource<F>,
        lists: &RecentLists,
    ) -> Result<Decision, NoMemory>
        requires stated { IsStated (F.pre draws.now) (F.post draws.now) }
        ensures decided { (drawn : ℕ → ℕ) → AreDraws (F.post draws.now) number drawn
            → IfOk result (λ d. d
            ≡ explained_in self.old packet.entry.now drawn lists.now) }
        ensures stays { self.new ≡ self.old }
    {
        let question = Deciding {
            number,
            packet,
            draws,
            lists,
        };
        self.ask(alloc, &question)
    }

    /// The answer to a question by the objects that the last sync covers.
    pub fn ask<Q: Question>(&mut self, alloc: Global, question: &Q) -> Result<Q::Answer, NoMemory>
        requires { Q.may_ask question.now }
        ensures right { IfOk result
            (Q.is_right question.now self.old.config (parts.objects_in self.old)) }
        ensures stays { self.new ≡ self.old }
    {
        let covered = self.history.covered as usize;
        if self.ports.latest.at == covered {
            return question.answer(alloc, &self.config, &self.ports.latest.objects);
        }
        self.explained
            .advance(alloc, self.journal.events(), covered)?;
        question.answer(alloc, &self.config, &self.explained.objects)
    }

    /// The slices by now, in order of their keys: as they were fed, and as the controller made
    /// them at each sync.
    pub fn slices(&mut self, alloc: Global) -> Result<Items<Slice>, NoMemory>
        ensures slices { IfOk result (λ ss. ss ≡ parts.slices_in self.old) }
        ensures stays { self.new ≡ self.old }
    {
        // Where memory is out on the way, they are made from the start once more.
        let slices = replace(&mut self.slices, SlicesAt::start(alloc));
        self.slices = slices.caught_up(
            alloc,
            &self.config,
            self.journal.events(),
            self.history.counts.as_slice(),
        )?;
        self.slices.slices.copies(alloc)
    }

    /// The ports of which a family knows something else after the last sync than before it, in
    /// order of their names, each with what was known of it. Before the first sync there is none,
    /// and none in a family that the node has no tables of.
    pub fn dirty(&self, alloc: Global, family: Family) -> Result<Items<DirtyPort>, NoMemory>
        ensures { IfOk result (λ ports. ports ≡ parts.dirty_in family self.now) }
    {
        match self.ports.dirty_of(family) {
            Some(dirty) => told(alloc, dirty.as_slice()),
            None => Ok(Items::new(alloc)),
        }
    }

    /// The objects that the last sync covers, where no event came after it.
    pub fn objects(&self) -> &Objects
        requires { parts.uncovered_in self.now ≡ 0 }
        ensures { result.now ≡ parts.objects_in self.now }
    {
        &self.ports.latest.objects
    }

    /// The Services that events touched between the last sync and the one before it: past each
    /// other one events lead from the objects of the one to those of the other.
    pub fn touched(&self) -> &Touched
        ensures { LeadPastOthers (settings_in self.now) (parts.objects_before self.now)
            (parts.objects_in self.now) (is_touched result.now) }
    {
        &self.ports.last
    }

    /// What a plane that ends holds: its events, how many of them each sync covers more than the
    /// one before it, and its table.
    pub fn into_parts(self) -> (Items<Event>, Items<u64>, Table)
        ensures events { result.0 ≡ self.events }
        ensures counts { result.1 ≡ self.counts }
        ensures table { result.2 ≡ parts.table_in self }
    {
        let Plane {
            config,
            journal,
            history,
            ports,
            explained,
            slices,
        } = self;
        let (counts, table) = history.into_parts();
        (journal.into_events(), Items::from_vec(counts), table)
    }

    /// What walking the table rests on: its jumps go to chains of greater ranks, it has the
    /// built-in chains of each family that the node has tables of, and it sends each packet where
    /// the objects say.
    fn decides(&self)
        ensures ranked { is_ranked (parts.chains_in self.now) ≡ true }
        ensures built_in { (family : OneFamily) → has_tables_of family (settings_in self.now) ≡ true
            → has_chains_of family (parts.chains_in self.now) ≡ true }
        ensures agree { (packet : Packet) (drawn : ℕ → ℕ) (lists : RecentParts)
            → Agree (walked_in self.now packet drawn lists)
            (decided_in self.now packet drawn lists) }
    {
        let _ = &self.history;
        kp_walk_laws::full_table_ranked_objects();
        kp_walk_laws::hashed_prefixed();
        walk_decides();
    }

    /// How many events no sync covers yet.
    fn uncovered(&self) -> u64
        ensures { result ≡ parts.uncovered_in self.now }
    {
        self.journal.events().len() as u64 - self.history.covered
    }

    /// The records of the syncs so far, and then that of one more.
    fn records_grow(&self)
        ensures { parts.records_in (parts.synced self.now)
            ≡ parts.records_in self.now ++ parts.next_record self.now ∷ [] }
    {
        let _ = &self.history;
        kp_history_laws::sync_records();
    }
}
