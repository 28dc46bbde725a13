//! What is known of ports at a place of the journal.
ghost use Rattle.std.specs.Prelude.{◌≡◌, ◌+◌, ◌*◌, ◌≤◌, ℕ, [], List, length, IfOk, OnOk};
ghost use Rattle.std.specs.Option.{option_copied};
ghost use Rattle.kp_base.specs.declared.address.Family.{Family as OneFamily};
ghost use Rattle.kp_base.specs.declared.key.PortKey.{PortKey as Port};
ghost use Rattle.kp_types.specs.declared.event.Event.{Event as OneEvent};
ghost use Rattle.kp_choice_defs.specs.Settings.{settings_of};
ghost use Rattle.kp_object_defs.specs.Objects.{objects_after};
ghost use Rattle.kp_plane.specs.Collected.{is_collected};
ghost use Rattle.kp_writer.specs.Written.{all_written, new_writer};
ghost use Rattle.kp_plane.specs.Families.{Both, HasDirty, KnowsRest, listed, map_both, of_family};
ghost use Rattle.kp_plane.specs.Families.{per_family, rules_in};
ghost use Rattle.kp_plane.specs.Known.{touched_count};
ghost use Rattle.kp_plane.specs.Invariant.{AreTouchedBetween, IsAtPlace, IsBroughtOn, IsPortsAt};
ghost use Rattle.kp_plane.specs.Invariant.{IsSettled, IsUpToDate, touched_between};

use crate::collected::Collected;
use crate::per_family::PerFamily;
use crate::place::ObjectsAt;
use crate::refresh::refresh_both;
use kp_base::{Config, Family, Items, NoMemory, Steps};
use kp_history::Stale;
use kp_store::Touched;
use kp_types::Event;
use kp_writer::{Pending, Writer};
use std::alloc::Global;
use std::mem::{replace, swap};
use std::sync::ledger::Ledger;

/// The objects after the first events of a journal, and what is known of ports by them.
pub(crate) struct PortsAt {
    /// The objects of the latest sync, which may have been refused.
    pub(crate) latest: ObjectsAt,
    /// The Services of whose ports a writer may know something else than these objects tell.
    pub(crate) touched: Collected,
    /// The others that events touched since the last accepted sync.
    pub(crate) since: Touched,
    /// Those that events touched between this sync and the one before it.
    pub(crate) last: Touched,
    /// What was written of each port at the last sync, and what is known of it now: by the writer
    /// of each family that the node has tables of.
    pub(crate) writers: PerFamily<Writer>,
    /// The ports of which each of these families knows something else after the last sync than
    /// before it.
    pub(crate) dirty: PerFamily<Items<Pending>>,
    /// Such ports of the syncs before it.
    pub(crate) stale: Stale<Pending>,
}

impl Drop for PortsAt {
    fn drop(self) {
        let PortsAt {
            latest,
            touched,
            since,
            last,
            writers,
            dirty,
            stale,
        } = self;
    }
}

impl PortsAt {
    /// Before the first event.
    pub(crate) fn start(alloc: Global, config: &Config) -> Result<PortsAt, NoMemory>
        ensures { IfOk result (λ s. (events : List OneEvent)
            → IsPortsAt (record { config = config.now; events = events; counts = [] }) s) }
    {
        kp_history_laws::dirty_ports();
        let latest = ObjectsAt::start(alloc);
        let touched = Collected::new(alloc);
        let since = Touched::new(alloc);
        let last = Touched::new(alloc);
        let writers = new_writers(alloc, config)?;
        let dirty = none_dirty(alloc, config);
        let stale = Stale::new(alloc);
        Ok(PortsAt {
            latest,
            touched,
            since,
            last,
            writers,
            dirty,
            stale,
        })
    }

    /// Goes on to the journal's end, and brings what each family knows of the ports of touched
    /// Services up to it. It takes at most a step for each rule that a family's dirty ports have in
    /// its shared chains. Of the other count it takes one for each port that the objects are asked
    /// about: in each family at most one for each port of a Service that an event touches since
    /// those that were touched before were counted. Where memory is out, it stands on the way
    /// there.
    pub(crate) fn bring_on<L: Ledger, A: Ledger>(
        &mut self,
        alloc: Global,
        config: &Config,
        events: &[Event],
        steps: &mut Steps<L>,
        asked: &mut Steps<A>,
    ) -> Result<(), NoMemory>
        requires config { Both (λ family w. w.config ≡ config.now) self.old.writers }
        requires place { IsAtPlace events.now self.old.latest }
        requires untouched { Both (KnowsRest self.old.latest.objects
            (is_collected self.old.touched)) self.old.writers }
        ensures goes_on { IsBroughtOn config.now events.now self.old self.new }
        ensures ok { OnOk result (IsUpToDate events.now self.new) }
        ensures more { steps.old ≤ steps.new }
        ensures steps { (dirty : OneFamily → List Port)
            → Both (HasDirty (objects_after events.now) dirty) self.old.writers
            → steps.new ≤ steps.old
            + rules_in (objects_after events.now) dirty self.old.writers }
        ensures asked { (from : ℕ) → AreTouchedBetween (settings_of config.now) events.now from
            self.old.latest.at self.old.touched
            → asked.new ≤ asked.old + length (listed self.old.writers)
            * touched_count (objects_after events.now)
            (touched_between (settings_of config.now) events.now from (length events.now)) }
    {
        kp_object_laws::own_keys();
        self.latest
            .advance_touching(alloc, config, events, &mut self.touched)?;
        self.since.join(alloc, &self.touched.joined)?;
        refresh_both(
            alloc,
            &self.latest.objects,
            &self.touched.joined,
            &mut self.writers,
            steps,
            asked,
        )?;
        self.touched = Collected::new(alloc);
        Ok(())
    }

    /// The ports of which a family knows something else after the last sync than before it, where
    /// the node has tables of the family.
    pub(crate) fn dirty_of(&self, family: Family) -> Option<&Items<Pending>>
        ensures { option_copied result ≡ of_family family self.now.dirty }
    {
        self.dirty.get(family)
    }

    /// Takes over which ports were dirty at a sync, which Services were touched before it and,
    /// where it covers new events, that what is known now is written. It is never refused.
    pub(crate) fn settle(&mut self, alloc: Global, is_new: bool, dirty: PerFamily<Items<Pending>>)
        ensures { IsSettled is_new dirty self.old self.new }
    {
        swap(&mut self.last, &mut self.since);
        self.since = Touched::new(alloc);
        take_over(&mut self.dirty, &mut self.stale, dirty);
        if is_new {
            keep_both(alloc, &mut self.writers);
        }
    }
}

/// A writer of each family that the node has tables of, which has written nothing and knows of no
/// port.
fn new_writers(alloc: Global, config: &Config) -> Result<PerFamily<Writer>, NoMemory>
    ensures { IfOk result (λ writers. writers
        ≡ per_family config.now (λ family. new_writer family config.now)) }
{
    let four = Writer::new(alloc, Family::V4, config)?;
    if config.dual {
        let six = Writer::new(alloc, Family::V6, config)?;
        Ok(PerFamily {
            four,
            six: Some(six),
        })
    } else {
        Ok(PerFamily { four, six: None })
    }
}

/// No dirty port in any family that the node has tables of.
pub(crate) fn none_dirty(alloc: Global, config: &Config) -> PerFamily<Items<Pending>>
    ensures { result ≡ per_family config.now (λ family. []) }
{
    PerFamily {
        four: Items::new(alloc),
        six: if config.dual {
            Some(Items::new(alloc))
        } else {
            None
        },
    }
}

/// Takes over that what writers know now is written.
fn keep_both(alloc: Global, writers: &mut PerFamily<Writer>)
    ensures { writers.new ≡ map_both all_written writers.old }
{
    writers.four.keep(alloc);
    if let Some(six) = &mut writers.six {
        six.keep(alloc);
    }
}

/// Takes over which ports were dirty at a sync. Those of the one before are let go little by little;
/// where memory is out, they go at once.
fn take_over(
    dirty: &mut PerFamily<Items<Pending>>,
    stale: &mut Stale<Pending>,
    next: PerFamily<Items<Pending>>,
)
    ensures { dirty.new ≡ next }
{
    let made = count(&next);
    let PerFamily { four, six } = replace(dirty, next);
    let _ = stale.take_in(made, four);
    if let Some(six) = six {
        let _ = stale.take_in(made, six);
    }
}

/// How many ports both families have.
fn count(dirty: &PerFamily<Items<Pending>>) -> usize {
    let four = dirty.four.as_slice().len();
    match &dirty.six {
        None => four,
        Some(six) => four.saturating_add(six.as_slice().len()),
    }
}
