//! The slices at a place of the journal.
use crate::place::ObjectsAt;
use kp_base::{Config, NoMemory, fits_memory};
use kp_controller::{SliceMap, control};
use kp_store::Touched;
use kp_types::Event;
use std::alloc::Global;
use std::mem::replace;

/// The slices after the first events of a journal, and after the first syncs.
pub(crate) struct SlicesAt {
    pub(crate) slices: SliceMap,
    /// The objects after these events.
    pub(crate) place: ObjectsAt,
    /// The Services that these events touched since the controller acted.
    pub(crate) touched: Touched,
    pub(crate) syncs: usize,
    /// How many events these syncs cover.
    pub(crate) covered: usize,
}

impl Drop for SlicesAt {
    fn drop(self) {
        let SlicesAt {
            slices,
            place,
            touched,
            syncs,
            covered,
        } = self;
    }
}

impl SlicesAt {
    ghost use Rattle.std.specs.Prelude.{◌≡◌, ◌≤◌, ◌<◌, ◌+◌, ℕ, List};
    ghost use Rattle.std.specs.Prelude.{length, sum, IfOk, OnOk};
    ghost use Rattle.kp_base.specs.declared.config.Config.{Config};
    ghost use Rattle.kp_types.specs.declared.event.Event.{Event};
    ghost use Rattle.kp_types.specs.Setting.{both_families};
    ghost use Rattle.kp_object_defs.specs.SlicesNow.{slices_now};
    ghost use Rattle.kp_plane.specs.Invariant.{IsAtPlace, IsControlled, IsFed, IsSlicesAt};

    /// Before the first event and the first sync.
    pub(crate) fn start(alloc: Global) -> SlicesAt
        ensures { (config : Config) (events : List Event) (counts : List ℕ)
            → IsSlicesAt config events counts result }
    {
        kp_object_laws::slices_now();
        kp_settle_laws::controlled_between_syncs();
        let slices = SliceMap::new(alloc);
        let place = ObjectsAt::start(alloc);
        let touched = Touched::new(alloc);
        SlicesAt {
            slices,
            place,
            touched,
            syncs: 0,
            covered: 0,
        }
    }

    /// Goes on over all syncs, each of which covers so many events more than the one before it, and
    /// over all events.
    pub(crate) fn caught_up(
        self,
        alloc: Global,
        config: &Config,
        events: &[Event],
        counts: &[u64],
    ) -> Result<SlicesAt, NoMemory>
        requires at { IsSlicesAt config.now events.now counts.now self }
        requires within { sum counts.now ≤ length events.now }
        ensures at { IfOk result (IsSlicesAt config.now events.now counts.now) }
        ensures slices { IfOk result (λ s. s.slices
            ≡ slices_now both_families config.now events.now counts.now) }
    {
        let mut slices = self;
        while slices.syncs < counts.len() {
            slices = slices.after_sync(alloc, config, events, counts)?;
        }
        slices.with_events(alloc, config, events, events.len())
    }

    /// Goes on over the next sync.
    fn after_sync(
        self,
        alloc: Global,
        config: &Config,
        events: &[Event],
        counts: &[u64],
    ) -> Result<SlicesAt, NoMemory>
        requires at { IsSlicesAt config.now events.now counts.now self }
        requires some { self.syncs < length counts.now }
        requires within { sum counts.now ≤ length events.now }
        ensures at { IfOk result (IsSlicesAt config.now events.now counts.now) }
        ensures next { IfOk result (λ s. s.syncs ≡ self.syncs + 1) }
    {
        kp_object_laws::slices_now();
        kp_object_laws::own_keys();
        kp_settle_laws::controlled_between_syncs();
        let covered = self.covered + counts[self.syncs] as usize;
        let mut fed = self.with_events(alloc, config, events, covered)?;
        let held = replace(&mut fed.slices, SliceMap::new(alloc));
        let slices = control(alloc, config, &fed.place.objects, &fed.touched, held)?;
        fed.slices = slices;
        fed.touched = Touched::new(alloc);
        fed.covered = covered;
        fed.syncs += 1;
        Ok(fed)
    }

    /// Goes on to a later place of the journal, over no sync.
    fn with_events(
        self,
        alloc: Global,
        config: &Config,
        events: &[Event],
        to: usize,
    ) -> Result<SlicesAt, NoMemory>
        requires place { IsAtPlace events.now self.place }
        requires controlled { IsControlled config.now self }
        requires later { self.place.at ≤ to }
        requires within { to ≤ length events.now }
        ensures { IfOk result (IsFed config.now events.now to self) }
    {
        let mut slices = self;
        while slices.place.at < to {
            slices.after_event(alloc, config, events)?;
        }
        Ok(slices)
    }

    /// Goes on over the next event. Where memory is out, it stands on the way there.
    fn after_event(
        &mut self,
        alloc: Global,
        config: &Config,
        events: &[Event],
    ) -> Result<(), NoMemory>
        requires place { IsAtPlace events.now self.old.place }
        requires controlled { IsControlled config.now self.old }
        requires some { self.old.place.at < length events.now }
        ensures { OnOk result (IsFed config.now events.now (self.old.place.at + 1) self.old
            self.new) }
    {
        kp_object_laws::slices_now();
        kp_object_laws::own_keys();
        kp_settle_laws::controlled_between_syncs();
        fits_memory(events);
        self.slices.own_keys();
        let at = self.place.at;
        let event = &events[at];
        self.place
            .objects
            .apply_touching(alloc, config, event, &mut self.touched)?;
        self.slices.apply_touching(alloc, event, &mut self.touched)?;
        self.place.at = at + 1;
        Ok(())
    }
}
