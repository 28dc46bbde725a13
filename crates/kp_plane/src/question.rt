//! Questions about the objects that the last sync covers.
ghost use Rattle.std.specs.Prelude.{IfOk};
ghost use Rattle.kp_base.specs.declared.config.Config as config_row;
ghost use Rattle.kp_object_defs.specs.Objects as objects_row;

use kp_base::{Config, NoMemory};
use kp_decide::decide;
use kp_draws::DrawSource;
use kp_recent::RecentLists;
use kp_store::Objects;
use kp_types::{Decision, Packet};
use std::alloc::Global;

/// A question about objects.
pub trait Question {
    /// What is answered.
    type Answer: Drop;

    /// The question may be asked.
    ghost may_ask: { Self → Type 0 };

    /// An answer is right, under a configuration and with these objects.
    ghost is_right: { Self → config_row.Config → objects_row.Objects → Self.Answer → Type 0 };

    /// Answers it. Only memory can be refused.
    fn answer(
        &self,
        alloc: Global,
        config: &Config,
        objects: &Objects,
    ) -> Result<Self::Answer, NoMemory>
        requires { may_ask self.now }
        ensures { IfOk result (is_right self.now config.now objects.now) };
}

/// Where a packet goes, and why. The number is the packet's for its draws.
#[derive(Drop)]
pub(crate) struct Deciding<'a, F> {
    pub(crate) number: u64,
    pub(crate) packet: &'a Packet,
    pub(crate) draws: &'a DrawSource<F>,
    pub(crate) lists: &'a RecentLists,
}

impl<'a, F: Fn(u64, u32) -> u32> Question for Deciding<'a, F> {
    ghost use Rattle.std.specs.Prelude.{◌≡◌, ℕ};
    ghost use Rattle.kp_choice_defs.specs.Draws.{AreDraws, IsStated};
    ghost use Rattle.kp_choice_defs.specs.Settings.{settings_of};
    ghost use Rattle.kp_decide.specs.Told.{told};
    ghost use Rattle.kp_door_defs.specs.Decision.{decision_of};

    type Answer = Decision;

    ghost may_ask = { λ q. IsStated (F.pre q.draws.now) (F.post q.draws.now) };

    ghost is_right = { λ q config objects d. (drawn : ℕ → ℕ)
        → AreDraws (F.post q.draws.now) q.number drawn → d
        ≡ told (decision_of (settings_of config) objects q.packet.now drawn q.lists.now) };

    fn answer(
        &self,
        alloc: Global,
        config: &Config,
        objects: &Objects,
    ) -> Result<Decision, NoMemory> {
        decide(
            alloc,
            objects,
            config,
            self.number,
            self.packet,
            self.draws,
            self.lists,
        )
    }
}
