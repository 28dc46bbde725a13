//! The map of one family.
ghost use Rattle.std.specs.Prelude.{◌≡◌, ◌+◌, ◌<◌, ◌≤◌, ◌^◌, ◌++◌, ◌∷◌, [], length, option_copied, true, IfOk, OnOk};
ghost use Rattle.std.specs.FinMap as finite;
ghost use Rattle.std.specs.List.{sum_by};
ghost use Rattle.kp_base.specs.Keys.{port_key_cmp};
ghost use Rattle.kp_types.specs.Setting.{config_for};
ghost use Rattle.kp_object_defs.specs.Order.{rises};
ghost use Rattle.kp_object_defs.specs.OwnKeys.{AreUnderOwnKeys};
ghost use Rattle.kp_object_defs.specs.PortByKey.{info_at};
ghost use Rattle.kp_tracker.specs.Tracked.{updated};
ghost use Rattle.kp_vmap_defs.specs.declared.door.Destination.{Destination as Place};
ghost use Rattle.kp_vmap.specs.Family as spec;
ghost use Rattle.kp_vmap.specs.Places as places;

use crate::keep::{keep_places, keep_ports};
use crate::known::Known;
use crate::next::stage_port;
use crate::ports::Ports;
use indexmap::IndexMap;
use kp_base::{Config, Copied, Family, Kept, NoMemory, PortKey, Steps};
use kp_port_by_key::info_at;
use kp_store::Objects;
use kp_vmap_defs::Destination;
use std::alloc::Global;
use std::collections::BTreeMap;
use std::sync::ledger::Ledger;

/// What is known of the ports of a family, and the ports at each destination where one has a door.
pub struct FamilyPorts {
    ports: IndexMap<PortKey, Kept<Known>>,
    places: IndexMap<Destination, Ports>,
}

/// What the dirty ports of a family will be, and the ports at their destinations.
#[derive(Drop)]
pub struct Next {
    ports: Vec<(PortKey, Option<Kept<Known>>)>,
    places: BTreeMap<Destination, Ports>,
}

impl Drop for FamilyPorts {
    fn drop(self) {
        let FamilyPorts { ports, places } = self;
    }
}

impl FamilyPorts {
    /// No ports.
    pub(crate) fn new(alloc: Global) -> FamilyPorts
        ensures ports { spec.known_in result ≡ finite.empty }
        ensures places { spec.IsPlaced result }
    {
        FamilyPorts {
            ports: IndexMap::new(alloc),
            places: IndexMap::new(alloc),
        }
    }

    /// The ports at a destination, in order.
    pub(crate) fn at(&self, at: &Destination) -> &[Kept<Known>]
        ensures { result.now ≡ finite.values (places.at_place self.now.places.entries at.now) }
    {
        match self.places.get(at) {
            Some(ports) => ports.as_slice(),
            None => &[],
        }
    }

    /// What is known of a port, if it is known.
    fn known(&self, key: &PortKey) -> Option<&Kept<Known>>
        ensures { option_copied result ≡ finite.get (spec.known_in self.now) key.now }
    {
        self.ports.get(key)
    }

    /// Fewer ports are known than a count holds: what a law asks of them.
    pub(crate) fn are_counted(&self)
        ensures { length (finite.values (spec.known_in self.now)) < 2 ^ 64 }
    {
        self.ports.len();
    }

    /// What the dirty ports will be by the objects, and the ports at their destinations. It takes a
    /// step for each of their doors, before and after.
    pub(crate) fn staged<L: Ledger>(
        &self,
        alloc: Global,
        family: Family,
        config: &Config,
        objects: &Objects,
        dirty: &[PortKey],
        steps: &mut Steps<L>,
    ) -> Result<Next, NoMemory>
        requires own_keys { AreUnderOwnKeys objects.now }
        requires in_order { rises port_key_cmp dirty.now ≡ true }
        requires placed { spec.IsPlaced self.now }
        ensures next { IfOk result (spec.IsNext family (config_for family config.now)
            objects.now dirty.now self.now.places.entries) }
        ensures bound { steps.new ≤ steps.old + sum_by
            (spec.dirty_doors family (config_for family config.now) objects.now
            (spec.known_in self.now)) dirty.now }
    {
        let mut next = Next {
            ports: Vec::with_capacity(alloc, dirty.len())?,
            places: BTreeMap::new(alloc),
        };
        for key in dirty {
            self.stage(alloc, family, config, objects, key, &mut next, steps)?;
        }
        Ok(next)
    }

    /// One dirty port more is as the objects tell.
    fn stage<L: Ledger>(
        &self,
        alloc: Global,
        family: Family,
        config: &Config,
        objects: &Objects,
        key: &PortKey,
        next: &mut Next,
        steps: &mut Steps<L>,
    ) -> Result<(), NoMemory>
        requires own_keys { AreUnderOwnKeys objects.now }
        requires own { spec.IsPlaced self.now }
        requires untouched { (d : Place) → finite.get
            (places.staged_at self.now.places.entries next.old.places.entries d) key.now
            ≡ places.if_at d (finite.get (spec.known_in self.now) key.now) }
        ensures ports { OnOk result (next.new.ports.items ≡ next.old.ports.items
            ++ (key.now, info_at family (config_for family config.now) objects.now key.now) ∷ []) }
        ensures places { OnOk result ((d : Place) → places.Answers key.now
            (places.if_at d (info_at family (config_for family config.now) objects.now key.now))
            (places.staged_at self.now.places.entries next.old.places.entries d)
            (places.staged_at self.now.places.entries next.new.places.entries d)) }
        ensures bound { steps.new ≤ steps.old + spec.dirty_doors family
            (config_for family config.now) objects.now (spec.known_in self.now) key.now }
    {
        let known = known_at(alloc, family, config, objects, key)?;
        let before = self.known(key);
        stage_port(
            alloc,
            &self.places,
            &mut next.places,
            key,
            before,
            &known,
            steps,
        )?;
        next.ports.push((key.copy(alloc)?, known))?;
        Ok(())
    }

    /// Takes room for what will be kept.
    pub(crate) fn reserve(&mut self, next: &Next) -> Result<(), NoMemory>
        ensures ports { self.new.ports.entries ≡ self.old.ports.entries }
        ensures places { self.new.places.entries ≡ self.old.places.entries }
        ensures room { OnOk result (spec.HasRoom next.now self.new) }
    {
        self.ports.reserve(next.ports.len())?;
        self.places.reserve(next.places.len())?;
        Ok(())
    }

    /// Keeps what was staged. There is room for it.
    pub(crate) fn keep(&mut self, next: Next)
        requires { spec.HasRoom next self.old }
        ensures ports { spec.known_in self.new
            ≡ updated port_key_cmp (spec.known_in self.old) next.ports.items }
        ensures places { (d : Place) → places.at_place self.new.places.entries d
            ≡ places.staged_at self.old.places.entries next.places.entries d }
    {
        let Next { ports, places } = next;
        keep_ports(&mut self.ports, ports);
        keep_places(&mut self.places, places);
    }
}

/// What is known of a port by the objects, if it takes part.
fn known_at(
    alloc: Global,
    family: Family,
    config: &Config,
    objects: &Objects,
    key: &PortKey,
) -> Result<Option<Kept<Known>>, NoMemory>
    ensures { IfOk result (λ known. known
        ≡ info_at family (config_for family config.now) objects.now key.now) }
{
    match info_at(alloc, family, config, objects, key)? {
        Some(info) => {
            let known = Known::of(alloc, config.name_length, info)?;
            Ok(Some(Kept::of(alloc, known)?))
        }
        None => Ok(None),
    }
}
