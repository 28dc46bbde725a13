//! Slices by their keys.
use crate::near::Near;
use crate::touching::add_named;
use kp_base::{Copied, Items, Kept, NoMemory, ObjectKey};
use kp_store::{Indexed, Touched};
use kp_types::{Event, Kind, Object, Slice};
use std::alloc::Global;
use std::marker::Model;

/// Slices by namespace and name, each under its own key and shared with the event that brought it,
/// and found by the Services that they are near to. Contracts see a finite map.
pub struct SliceMap {
    slices: Indexed<Slice, Near>,
}

impl Drop for SliceMap {
    fn drop(self) {
        let SliceMap { slices } = self;
    }
}

impl Model for SliceMap {
    ghost use Rattle.kp_object_defs.specs.OwnKeys.{IsUnderOwnKeys};
    ghost use Rattle.kp_object_defs.specs.SlicesNow.{Slices};
    ghost use Rattle.kp_controller.specs.Stored.{slices_code};

    ghost Value = { Slices };

    ghost coded = { slices_code };

    ghost view = { λ m. m.slices };

    ghost invariant = { λ m. IsUnderOwnKeys (λ s. s.key) m.slices };
}

impl SliceMap {
    ghost use Rattle.std.specs.Prelude.{◌≡◌, map, IfOk, OnOk, OnErr};
    ghost use Rattle.std.specs.FinMap as finite;
    ghost use Rattle.std.specs.List.{filter};
    ghost use Rattle.kp_object_defs.specs.OwnKeys.{IsUnderOwnKeys};
    ghost use Rattle.kp_object_defs.specs.SlicesNow.{slices_step};
    ghost use Rattle.kp_base.specs.declared.key.ObjectKey.{ObjectKey};
    ghost use Rattle.kp_settle_laws.specs.Settled.{touches_slices};
    ghost use Rattle.kp_store.specs.Touched.{AddsTo, StaysIn, is_touched};
    ghost use Rattle.kp_controller.specs.Clashing.{may_clash};

    /// No slices.
    pub fn new(alloc: Global) -> SliceMap
        ensures { result ≡ finite.empty }
    {
        SliceMap {
            slices: Indexed::new(alloc),
        }
    }

    /// All slices, in order of their keys.
    pub fn all(&self, alloc: Global) -> Result<Vec<&Slice>, NoMemory>
        ensures found { IfOk result (λ ss. map (λ s. s.now) ss.items ≡ finite.values self.now) }
        ensures own_keys { IsUnderOwnKeys (λ s. s.key) self.now }
    {
        self.slices.values(alloc)
    }

    /// Each slice stands under its own key.
    pub fn own_keys(&self)
        ensures { IsUnderOwnKeys (λ s. s.key) self.now }
    {
        let _ = &self.slices;
    }

    /// The slices that are near to a Service, in order of their keys.
    pub(crate) fn near(&self, alloc: Global, service: &ObjectKey) -> Result<Vec<&Slice>, NoMemory>
        ensures found { IfOk result (λ ss. map (λ s. s.now) ss.items
            ≡ filter (may_clash service.now) (finite.values self.now)) }
        ensures own_keys { IfOk result (λ _. IsUnderOwnKeys (λ s. s.key) self.now) }
    {
        let tag = Near {
            service: service.copy(alloc)?,
        };
        self.slices.found(alloc, &tag)
    }

    /// Applies an event, which changes the slices at once where it is about one, and adds the
    /// Services that it touches among these slices. Where memory is out, the slices stay, and all
    /// that were touched still are.
    pub fn apply_touching(
        &mut self,
        alloc: Global,
        event: &Event,
        touched: &mut Touched,
    ) -> Result<(), NoMemory>
        ensures ok { OnOk result (self.new ≡ slices_step self.old event.now) }
        ensures adds { OnOk result (AddsTo (touches_slices self.old event.now)
            touched.old touched.new) }
        ensures err { OnErr result (self.new ≡ self.old) }
        ensures stay { OnErr result (StaysIn touched.old touched.new) }
    {
        let new = self.touched_by(alloc, event)?;
        touched.join(alloc, &new)?;
        self.apply(alloc, event)
    }

    /// Applies an event. Where memory is out, all stays.
    fn apply(&mut self, alloc: Global, event: &Event) -> Result<(), NoMemory>
        ensures ok { OnOk result (self.new ≡ slices_step self.old event.now) }
        ensures err { OnErr result (self.new ≡ self.old) }
    {
        match event {
            Event::Apply(Object::EndpointSlice(slice)) => self.put(alloc, slice.copy(alloc)?),
            Event::Delete {
                kind: Kind::EndpointSlice,
                key,
            } => self.take(alloc, key),
            _ => Ok(()),
        }
    }

    /// The Services that an event touches among these slices.
    fn touched_by(&self, alloc: Global, event: &Event) -> Result<Touched, NoMemory>
        ensures { IfOk result (λ t. (k : ObjectKey)
            → is_touched t k ≡ touches_slices self.now event.now k) }
    {
        let mut touched = Touched::new(alloc);
        self.add_touched(alloc, event, &mut touched)?;
        Ok(touched)
    }

    /// Adds the Services that an event touches among these slices.
    fn add_touched(
        &self,
        alloc: Global,
        event: &Event,
        touched: &mut Touched,
    ) -> Result<(), NoMemory>
        ensures { OnOk result (AddsTo (touches_slices self.now event.now)
            touched.old touched.new) }
    {
        match event {
            Event::Apply(Object::EndpointSlice(kept)) => {
                let slice = kept.get();
                add_named(alloc, self.slices.get(&slice.key), Some(slice), touched)
            }
            Event::Delete {
                kind: Kind::EndpointSlice,
                key,
            } => add_named(alloc, self.slices.get(key), None, touched),
            _ => Ok(()),
        }
    }

    /// Copies of all slices, in order of their keys.
    pub fn copies(&self, alloc: Global) -> Result<Items<Slice>, NoMemory>
        ensures { IfOk result (λ ss. ss ≡ finite.values self.now) }
    {
        let all = self.all(alloc)?;
        let mut copies = Vec::new(alloc);
        for slice in all.as_slice() {
            copies.push(slice.copy(alloc)?)?;
        }
        Ok(Items::from_vec(copies))
    }

    /// Puts a slice in place of the one of its key. Where memory is out, all stays.
    pub(crate) fn put(&mut self, alloc: Global, slice: Kept<Slice>) -> Result<(), NoMemory>
        ensures ok { OnOk result (self.new ≡ finite.insert self.old slice.key slice) }
        ensures err { OnErr result (self.new ≡ self.old) }
    {
        let key = slice.get().key.copy(alloc)?;
        self.slices.put(alloc, &key, slice)
    }

    /// Takes out the slice of a key, if there is one. Where memory is out, all stays.
    pub(crate) fn take(&mut self, alloc: Global, key: &ObjectKey) -> Result<(), NoMemory>
        ensures ok { OnOk result (self.new ≡ finite.remove self.old key.now) }
        ensures err { OnErr result (self.new ≡ self.old) }
    {
        self.slices.take(alloc, key)
    }
}
