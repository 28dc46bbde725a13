//! What a sync led to, with the doors at destinations where many ports may have one: these are
//! found once, however many lines ask for them.
ghost use Rattle.std.specs.Prelude.{◌≡◌, [], IfSome, OnErr, OnOk, option_map};
ghost use Rattle.kp_changes.specs.After as spec;

use crate::neighbour::{Destination, Neighbour};
use indexmap::IndexMap;
use kp_base::{Config, Items, NoMemory};
use kp_store::Objects;
use std::alloc::Global;
use std::marker::Model;

/// What a sync led to: a setting and objects. Beside them are kept the doors at destinations that
/// were found so far.
#[derive(Drop)]
pub struct After<'a> {
    config: &'a Config,
    objects: &'a Objects,
    crowds: IndexMap<Destination, Items<Neighbour>>,
}

impl<'a> Model for After<'a> {
    ghost use Rattle.kp_changes.specs.After as spec;

    ghost Value = { spec.After };

    ghost coded = { spec.after_code };

    ghost view = { λ a. record {
      synced = record { config = a.config.now; objects = a.objects.now };
      crowds = a.crowds.entries;
    } };

    ghost invariant = { λ a. spec.AreRight
        (record { config = a.config.now; objects = a.objects.now }) a.crowds.entries };
}

impl<'a> After<'a> {
    /// What a sync led to, before a door was found.
    pub fn new(alloc: Global, config: &'a Config, objects: &'a Objects) -> After<'a>
        ensures { result ≡ record {
          synced = record { config = config.now; objects = objects.now };
          crowds = [];
        } }
    {
        After {
            config,
            objects,
            crowds: IndexMap::new(alloc),
        }
    }

    /// The setting.
    pub fn config(&self) -> &'a Config
        ensures { result.now ≡ self.now.synced.config }
    {
        self.config
    }

    /// The objects.
    pub fn objects(&self) -> &'a Objects
        ensures { result.now ≡ self.now.synced.objects }
    {
        self.objects
    }

    /// The doors at a destination, where they are kept.
    pub fn crowd(&self, at: &Destination) -> Option<&[Neighbour]>
        ensures kept { option_map (λ crowd. crowd.now) result
            ≡ spec.kept_at at.now self.now.crowds }
        ensures there { IfSome result (λ crowd. spec.AreThere self.now.synced at.now crowd.now) }
    {
        match self.crowds.get(at) {
            Some(crowd) => Some(crowd.as_slice()),
            None => None,
        }
    }

    /// Keeps the doors at a destination. Without memory all stays.
    pub fn keep(&mut self, at: Destination, crowd: Items<Neighbour>) -> Result<(), NoMemory>
        requires there { spec.AreThere self.old.synced at crowd }
        ensures kept { OnOk result (self.new ≡ spec.keeping at crowd self.old) }
        ensures err { OnErr result (self.new ≡ self.old) }
    {
        self.crowds.insert(at, crowd)?;
        Ok(())
    }
}
