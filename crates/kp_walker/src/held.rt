//! The rules of a chain whose matches hold.
ghost use Rattle.std.specs.Prelude.{◌≡◌, ℕ, drop, OnErr, IfOk};
ghost use Rattle.kp_choice_defs.specs.Draws.{IsStated, AreDraws};
ghost use Rattle.kp_walker.specs.Flow.{jump_of, sets_of};
ghost use Rattle.kp_walker.specs.Held.{FindsHeld, IsPlaced};
ghost use Rattle.kp_walker.specs.Progress.{state_of};
ghost use Rattle.kp_walker.specs.Sets.{RulesSet};
ghost use Rattle.kp_walker.specs.Surroundings.{surroundings_of};

use crate::hook::Hook;
use crate::next::{NextRule, next_rule};
use crate::progress::Progress;
use crate::tried::TriedRun;
use kp_base::NoMemory;
use kp_recent::RecentLists;
use kp_rules::{Chain, Destination};

impl<F: Fn(u64, u32) -> u32> Hook<'_, F> {
    /// The first rule at or after a place whose matches hold. Those before it are tried in one
    /// loop, and those that only draw or look in a smaller one, since long lists of endpoints are
    /// rules that fail.
    pub(crate) fn next_held<'a>(
        &self,
        chain: &'a Chain,
        from: u64,
        to: &Destination,
        progress: &mut Progress,
        lists: &mut RecentLists,
    ) -> Result<Option<NextRule<'a>>, NoMemory>
        requires stated { IsStated (F.pre self.now.around.now.draws.now)
            (F.post self.now.around.now.draws.now) }
        requires heading { to.now ≡ record {
          address = self.now.header.target;
          proto = self.now.around.now.packet.now.proto;
          port = self.now.header.port;
        } }
        ensures met { IfOk result (λ next. (draws : _) (depth : ℕ)
            → AreDraws (F.post self.now.around.now.draws.now) self.now.around.now.number draws
            → FindsHeld self.now draws depth chain.now from
            (state_of self.now.header progress.old lists.old)
            (state_of self.now.header progress.new lists.new) next) }
        ensures placed { IfOk result (λ next. IsPlaced chain.now from next) }
        ensures refused { OnErr result ((draws : _) (depth : ℕ)
            → AreDraws (F.post self.now.around.now.draws.now) self.now.around.now.number draws
            → RulesSet (surroundings_of self.now.around.now draws) (jump_of self.now draws depth)
            (sets_of self.now draws depth) (drop from chain.now)
            (state_of self.now.header progress.old lists.old) lists.new) }
        ensures size { lists.new.size ≡ lists.old.size }
    {
        let mut place = from;
        loop {
            let after = match self.try_run(chain, place, progress, lists) {
                TriedRun::Matched(next) => return Ok(Some(next)),
                TriedRun::Over(after) => after,
            };
            let Some(next) = next_rule(chain, after, to) else {
                return Ok(None);
            };
            if self.try_rule(next.rule, progress, lists)? {
                return Ok(Some(next));
            }
            place = next.place + 1;
        }
    }
}
