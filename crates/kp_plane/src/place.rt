//! The objects at a place of the journal.
use crate::collected::Collected;
use kp_base::{Config, NoMemory};
use kp_store::Objects;
use kp_types::Event;
use std::alloc::Global;

/// The objects after the first events of a journal, and how many of them these are.
pub(crate) struct ObjectsAt {
    pub(crate) objects: Objects,
    pub(crate) at: usize,
}

impl Drop for ObjectsAt {
    fn drop(self) {
        let ObjectsAt { objects, at } = self;
    }
}

impl ObjectsAt {
    ghost use Rattle.std.specs.Prelude.{◌≡◌, ◌≤◌, List, length, OnOk};
    ghost use Rattle.kp_types.specs.declared.event.Event.{Event};
    ghost use Rattle.kp_base.specs.declared.address.Family.{Family};
    ghost use Rattle.kp_choice_defs.specs.Settings.{setting_of, settings_of};
    ghost use Rattle.kp_plane.specs.Collected.{AreJoined, is_collected};
    ghost use Rattle.kp_plane.specs.Invariant.{GoesOnTouching, IsAtPlace};
    ghost use Rattle.kp_plane.specs.Known.{LeavesUntouched};
    ghost use Rattle.kp_plane.specs.Past.{GoesOnPast};

    /// Before the first event.
    pub(crate) fn start(alloc: Global) -> ObjectsAt
        ensures start { result.at ≡ 0 }
        ensures place { (events : List Event) → IsAtPlace events result }
    {
        ObjectsAt {
            objects: Objects::new(alloc),
            at: 0,
        }
    }

    /// Goes on to a later place of the journal. Where memory is out, it stands on the way there.
    pub(crate) fn advance(
        &mut self,
        alloc: Global,
        events: &[Event],
        to: usize,
    ) -> Result<(), NoMemory>
        requires place { IsAtPlace events.now self.old }
        requires later { self.old.at ≤ to }
        requires within { to ≤ length events.now }
        ensures place { IsAtPlace events.now self.new }
        ensures from { self.old.at ≤ self.new.at }
        ensures to { self.new.at ≤ to }
        ensures ok { OnOk result (self.new.at ≡ to) }
    {
        for at in self.at..to {
            self.objects.apply(alloc, &events[at])?;
            self.at = at + 1;
        }
        Ok(())
    }

    /// Goes on to the journal's end, and collects the Services that the events on the way touch.
    /// Where memory is out, it stands on the way there, and what the events up to there touch is
    /// collected, and no more.
    pub(crate) fn advance_touching(
        &mut self,
        alloc: Global,
        config: &Config,
        events: &[Event],
        touched: &mut Collected,
    ) -> Result<(), NoMemory>
        requires { IsAtPlace events.now self.old }
        ensures place { IsAtPlace events.now self.new }
        ensures untouched { (family : Family) → LeavesUntouched (setting_of family config.now)
            self.old.objects (is_collected touched.old)
            self.new.objects (is_collected touched.new) }
        ensures since { GoesOnTouching (settings_of config.now) events.now
            self.old.at touched.old self.new.at touched.new }
        ensures past { GoesOnPast (settings_of config.now) self.old.objects
            (is_collected touched.old) self.new.objects (is_collected touched.new) }
        ensures ok { OnOk result (self.new.at ≡ length events.now) }
        ensures joined { OnOk result (AreJoined touched.new) }
    {
        kp_object_laws::own_keys();
        kp_touch_laws::untouched_ports();
        for at in self.at..events.len() {
            touched.apply_touching(alloc, config, &mut self.objects, &events[at])?;
            self.at = at + 1;
        }
        touched.join(alloc)
    }
}
