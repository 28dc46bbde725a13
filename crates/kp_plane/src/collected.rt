//! The Services that events touched, collected so that no want of memory loses or adds one.
ghost use Rattle.std.specs.Prelude.{◌≡◌, ◌||◌, ◌↔◌, map, IfOk, IsFalse, OnErr, OnOk};
ghost use Rattle.std.specs.List.{list_any};
ghost use Rattle.std.specs.Ordering.{eq_by_cmp};
ghost use Rattle.kp_base.specs.Keys.{key_cmp};
ghost use Rattle.kp_base.specs.declared.key.ObjectKey.{ObjectKey as Key};
ghost use Rattle.kp_object_defs.specs.Objects.{objects_step};
ghost use Rattle.kp_store.specs.Touched.{AddsTo, is_touched};

use kp_base::{Config, Copied, NoMemory, ObjectKey};
use kp_store::{Objects, Touched};
use kp_types::Event;
use std::alloc::Global;

/// The Services that events touched. Those of the latest event stand apart until they are joined to
/// the others.
pub(crate) struct Collected {
    pub(crate) joined: Touched,
    pub(crate) last: Touched,
}

impl Drop for Collected {
    fn drop(self) {
        let Collected { joined, last } = self;
    }
}

impl Collected {
    ghost use Rattle.std.specs.Prelude.{◌&&◌, true, false, IsTrue};
    ghost use Rattle.kp_touch_laws.specs.TouchLaws.{touches_in};
    ghost use Rattle.kp_plane.specs.Collected.{AreJoined, Collects, CollectsSame, is_collected};
    ghost use Rattle.kp_choice_defs.specs.Settings.{settings_of};

    /// No Services.
    pub(crate) fn new(alloc: Global) -> Collected
        ensures { (k : Key) → is_collected result k ≡ false }
    {
        Collected {
            joined: Touched::new(alloc),
            last: Touched::new(alloc),
        }
    }

    /// Applies one more event to the objects, and collects the Services that it touches. Tells
    /// whether any object changed. Where memory is out, the objects stay, and the same Services are
    /// collected. Once all Services are, no more is looked for.
    pub(crate) fn apply_touching(
        &mut self,
        alloc: Global,
        config: &Config,
        objects: &mut Objects,
        event: &Event,
    ) -> Result<bool, NoMemory>
        ensures changed { IfOk result (λ changed.
            IsFalse changed ↔ (objects_step objects.old event.now ≡ objects.old)) }
        ensures ok { OnOk result (objects.new ≡ objects_step objects.old event.now) }
        ensures adds { IfOk result (λ changed. Collects (λ k. changed
            && touches_in (settings_of config.now) objects.old event.now k)
            self.old self.new) }
        ensures err { OnErr result (objects.new ≡ objects.old) }
        ensures same { OnErr result (CollectsSame self.old self.new) }
    {
        if self.has_all() {
            return apply_changing(alloc, objects, event);
        }
        self.join(alloc)?;
        let mut last = Touched::new(alloc);
        let changed = objects.apply_touching(alloc, config, event, &mut last)?;
        self.last = last;
        Ok(changed)
    }

    /// Whether all Services were touched, so that there are no others to look for.
    fn has_all(&self) -> bool
        ensures { IsTrue result → (k : Key) → is_collected self.now k ≡ true }
    {
        self.joined.all || self.last.all
    }

    /// Joins the Services of the latest event to the others. The same are collected, also where
    /// memory is out.
    pub(crate) fn join(&mut self, alloc: Global) -> Result<(), NoMemory>
        ensures ok { OnOk result (AreJoined self.new) }
        ensures same { CollectsSame self.old self.new }
    {
        add_touched(alloc, &self.last, &mut self.joined)?;
        self.last = Touched::new(alloc);
        Ok(())
    }
}

/// Applies one more event to the objects where it changes any, and tells whether it does.
fn apply_changing(alloc: Global, objects: &mut Objects, event: &Event) -> Result<bool, NoMemory>
    ensures changed { IfOk result (λ changed.
        IsFalse changed ↔ (objects_step objects.old event.now ≡ objects.old)) }
    ensures ok { OnOk result (objects.new ≡ objects_step objects.old event.now) }
    ensures err { OnErr result (objects.new ≡ objects.old) }
{
    if objects.changes(event) {
        objects.apply(alloc, event)?;
        Ok(true)
    } else {
        Ok(false)
    }
}

/// Adds the Services that others are. Where memory is out, some of them may be added, and no more.
fn add_touched(alloc: Global, others: &Touched, touched: &mut Touched) -> Result<(), NoMemory>
    ensures ok { OnOk result (AddsTo (is_touched others.now) touched.old touched.new) }
    ensures few { (k : Key) → (is_touched others.now k || is_touched touched.new k)
        ≡ (is_touched others.now k || is_touched touched.old k) }
{
    if others.all {
        touched.add_all();
        Ok(())
    } else {
        let keys = others.keys.keys(alloc)?;
        add_keys(alloc, &keys, touched)
    }
}

/// Adds the Services of keys. Where memory is out, some of them may be added, and no more.
fn add_keys(alloc: Global, keys: &[&ObjectKey], touched: &mut Touched) -> Result<(), NoMemory>
    ensures ok { OnOk result (AddsTo (λ k. list_any (eq_by_cmp key_cmp k)
        (map (λ q. q.now) keys.now)) touched.old touched.new) }
    ensures few { (k : Key) → (list_any (eq_by_cmp key_cmp k) (map (λ q. q.now) keys.now)
        || is_touched touched.new k) ≡ (list_any (eq_by_cmp key_cmp k)
        (map (λ q. q.now) keys.now) || is_touched touched.old k) }
{
    for key in keys {
        touched.add(key.copy(alloc)?)?;
    }
    Ok(())
}
