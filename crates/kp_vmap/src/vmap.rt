//! The map of verdicts of some objects.
ghost use Rattle.std.specs.Prelude.{◌≡◌, ◌+◌, ◌≤◌, ℕ, true, [], cond, IfOk, OnErr, OnOk};
ghost use Rattle.std.specs.FinMap as finite;
ghost use Rattle.kp_base.specs.Keys.{port_key_cmp};
ghost use Rattle.kp_choice_defs.specs.Draws.{AreDraws, IsStated};
ghost use Rattle.kp_choice_defs.specs.Settings.{setting_of, settings_of};
ghost use Rattle.kp_object_defs.specs.Objects.{no_objects};
ghost use Rattle.kp_object_defs.specs.Order.{rises};
ghost use Rattle.kp_object_defs.specs.OwnKeys.{AreUnderOwnKeys};
ghost use Rattle.kp_decide.specs.Looked.{IsNewSource, looked_for};
ghost use Rattle.kp_decide.specs.Picks.{pick_by_remainder, with_pick};
ghost use Rattle.kp_decide.specs.Told.{told};
ghost use Rattle.kp_vmap.specs.Family.{IsPlaced, known_in as known_ports};
ghost use Rattle.kp_vmap.specs.Replaced.{HoldsChanges, most_steps};
ghost use Rattle.kp_types.specs.Packets.{family_of_packet};
ghost use Rattle.kp_vmap_defs.specs.Remainder.{known_in, map_decision};
ghost use Rattle.kp_vmap_defs.specs.VerdictMap as spec;

use crate::family::FamilyPorts;
use crate::source::MapPorts;
use kp_base::{Config, Copied, Family, NoMemory, PortKey, Steps};
use kp_decide::{AsDecision, AsVerdict, OnlyRead, Remainder, decide_among};
use kp_draws::DrawSource;
use kp_recent::RecentLists;
use kp_store::Objects;
use kp_types::{Decision, Packet, Verdict};
use std::alloc::Global;
use std::marker::Model;
use std::sync::ledger::Ledger;

/// The doors of some objects by where they stand, and what is known of their ports, in each family
/// of the node. Contracts see the map of what is known, in which ports have their doors. It is
/// edited at the destinations of the ports that changed.
pub struct Vmap {
    alloc: Global,
    config: Config,
    four: FamilyPorts,
    six: FamilyPorts,
}

impl Drop for Vmap {
    fn drop(self) {
        let Vmap {
            alloc: _,
            config,
            four,
            six,
        } = self;
    }
}

impl Model for Vmap {
    ghost use Rattle.kp_vmap.specs.Kept.{IsKept, map_code, map_kept};
    ghost use Rattle.kp_vmap_defs.specs.VerdictMap.{VerdictMap};

    ghost Value = { VerdictMap };

    ghost coded = { map_code };

    ghost view = { λ v. map_kept v.config v.four v.six };

    ghost invariant = { λ v. IsKept v.config v.four v.six };
}

impl Vmap {
    /// The map of no objects, under a configuration.
    pub fn new(alloc: Global, config: &Config) -> Result<Vmap, NoMemory>
        ensures { IfOk result (λ m. m ≡ spec.map_of config.now no_objects) }
    {
        Ok(Vmap {
            alloc,
            config: config.copy(alloc)?,
            four: FamilyPorts::new(alloc),
            six: FamilyPorts::new(alloc),
        })
    }

    /// Becomes the map of the objects, where the ports are told of which it knows something else:
    /// they are given in order and once each, and others may be among them. It takes at most a step
    /// for each of their doors, before and after. Where memory is out, all stays.
    pub fn replace<L: Ledger>(
        &mut self,
        alloc: Global,
        objects: &Objects,
        dirty: &[PortKey],
        steps: &mut Steps<L>,
    ) -> Result<(), NoMemory>
        requires own_keys { AreUnderOwnKeys objects.now }
        requires in_order { rises port_key_cmp dirty.now ≡ true }
        ensures ok { HoldsChanges self.old objects.now dirty.now →
            OnOk result (self.new ≡ spec.map_of self.old.config objects.now) }
        ensures err { OnErr result (self.new ≡ self.old) }
        ensures bound { steps.new ≤ steps.old + most_steps self.old objects.now dirty.now }
    {
        kp_history_laws::infos_by_name();
        let config = &self.config;
        let four = self
            .four
            .staged(alloc, Family::V4, config, objects, dirty, steps)?;
        let dirty = if_dual(config, dirty);
        let six = self
            .six
            .staged(alloc, Family::V6, config, objects, dirty, steps)?;
        self.four.reserve(&four)?;
        self.six.reserve(&six)?;
        self.four.keep(four);
        self.six.keep(six);
        Ok(())
    }

    /// The verdict on a packet, whose endpoint is picked by the remainder of its first draw. The
    /// number is the packet's for its draws. The recent lists are left as the decision leaves them:
    /// where it gets no memory for a source that its list lacks, without that source.
    pub fn look<F: Fn(u64, u32) -> u32>(
        &self,
        number: u64,
        packet: &Packet,
        draws: &DrawSource<F>,
        lists: &mut RecentLists,
    ) -> Result<Verdict, NoMemory>
        requires { IsStated (F.pre draws.now) (F.post draws.now) }
        ensures verdict { (drawn : ℕ → ℕ) → AreDraws (F.post draws.now) number drawn →
            IfOk result (λ v. v
            ≡ (map_decision self.now packet.entry.now drawn lists.old).verdict) }
        ensures lists { (drawn : ℕ → ℕ) → AreDraws (F.post draws.now) number drawn →
            OnOk result (lists.new
            ≡ (map_decision self.now packet.entry.now drawn lists.old).lists) }
        ensures stand { OnErr result (lists.new ≡ looked_for (settings_of self.now.config)
            (known_in self.now) packet.entry.now lists.old) }
        ensures lacks { (drawn : ℕ → ℕ) → AreDraws (F.post draws.now) number drawn →
            OnErr result (IsNewSource true (with_pick pick_by_remainder
            (setting_of (family_of_packet packet.entry.now) self.now.config))
            (known_in self.now (family_of_packet packet.entry.now)) packet.entry.now drawn
            lists.old) }
    {
        let source = MapPorts { map: self };
        let picker = Remainder { draws };
        let verdict = decide_among(
            self.alloc, &source, number, packet, &picker, lists, &AsVerdict,
        );
        let Remainder { draws: _ } = picker;
        verdict
    }

    /// The verdict on a packet and the reason of it. The recent lists stay.
    pub fn explain<F: Fn(u64, u32) -> u32>(
        &self,
        alloc: Global,
        number: u64,
        packet: &Packet,
        draws: &DrawSource<F>,
        lists: &RecentLists,
    ) -> Result<Decision, NoMemory>
        requires { IsStated (F.pre draws.now) (F.post draws.now) }
        ensures { (drawn : ℕ → ℕ) → AreDraws (F.post draws.now) number drawn →
            IfOk result (λ d. d ≡ told (map_decision self.now packet.entry.now drawn lists.now)) }
    {
        let source = MapPorts { map: self };
        let picker = Remainder { draws };
        let mut lists = OnlyRead { lists };
        let decision = decide_among(
            alloc,
            &source,
            number,
            packet,
            &picker,
            &mut lists,
            &AsDecision,
        );
        let Remainder { draws: _ } = picker;
        decision
    }

    /// The configuration under which it is the map of objects.
    pub(crate) fn config(&self) -> &Config
        ensures { result.now ≡ self.now.config }
    {
        &self.config
    }

    /// What is kept of a family.
    pub(crate) fn ports_of(&self, family: Family) -> &FamilyPorts
        ensures known { finite.values (known_ports result.now) ≡ known_in self.now family }
        ensures placed { IsPlaced result.now }
    {
        match family {
            Family::V4 => &self.four,
            Family::V6 => &self.six,
        }
    }
}

/// The dirty ports, where the node has tables of both families, or else none.
fn if_dual<'a>(config: &Config, dirty: &'a [PortKey]) -> &'a [PortKey]
    ensures { result.now ≡ cond config.now.dual dirty.now [] }
{
    if config.dual { dirty } else { &[] }
}
