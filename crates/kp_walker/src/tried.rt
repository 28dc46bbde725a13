//! Runs of rules whose only match is a draw or a look at a recent list, as a Service's chain has
//! them for its endpoints.
ghost use Rattle.std.specs.Prelude.{◌≡◌, ◌+◌, ◌^◌, ◌<◌, ℕ, nat_lt, length, slice_get};
ghost use Rattle.std.specs.Prelude.{None, IfSome};
ghost use Rattle.std.specs.Option.{option_and_then, option_copied};
ghost use Rattle.kp_choice_defs.specs.Draws.{IsStated, AreDraws, draw_at};
ghost use Rattle.kp_table_defs.specs.Matching as walk;
ghost use Rattle.kp_walker.specs.Progress.{state_of, tried_of};
ghost use Rattle.kp_walker.specs.Surroundings.{surroundings_of};
ghost use Rattle.kp_walker.specs.Tried.{TriedAt, RunTriedTo, RunEndsAt};
ghost use Rattle.kp_walker.specs.declared.progress.Progress.{Progress};

use crate::hook::Hook;
use crate::next::NextRule;
use crate::progress::Progress;
use kp_recent::RecentLists;
use kp_rules::Chain;
use kp_types::{Match, Rule};

/// How a run of rules ended that were tried.
#[derive(Drop)]
pub(crate) enum TriedRun<'a> {
    /// The only match of this rule holds.
    Matched(NextRule<'a>),
    /// None holds. The rule at this place, if there is one, has other matches.
    Over(u64),
}

impl<F: Fn(u64, u32) -> u32> Hook<'_, F> {
    /// Tries the rules from a place on whose only match is a draw or a look at a recent list, up to
    /// the first that matches. It needs no memory.
    pub(crate) fn try_run<'a>(
        &self,
        chain: &'a Chain,
        from: u64,
        progress: &mut Progress,
        lists: &mut RecentLists,
    ) -> TriedRun<'a>
        requires { IsStated (F.pre self.now.around.now.draws.now)
            (F.post self.now.around.now.draws.now) }
        ensures tried { (draws : _) (depth : ℕ)
            → AreDraws (F.post self.now.around.now.draws.now) self.now.around.now.number draws
            → RunTriedTo self.now draws depth chain.now from
            (state_of self.now.header progress.old lists.old)
            (state_of self.now.header progress.new lists.new) result }
        ensures placed { RunEndsAt chain.now from result }
        ensures size { lists.new.size ≡ lists.old.size }
    {
        let mut place = from;
        while let Some(holds) = self.try_place(chain, place, progress, lists) {
            if holds {
                return TriedRun::Matched(NextRule::at(chain, place));
            }
            place += 1;
        }
        TriedRun::Over(place)
    }

    /// Tries the rule at a place, if its only match is a draw or a look. Of a rule that draws only
    /// the limit is read.
    fn try_place(
        &self,
        chain: &Chain,
        place: u64,
        progress: &mut Progress,
        lists: &mut RecentLists,
    ) -> Option<bool>
        requires { IsStated (F.pre self.now.around.now.draws.now)
            (F.post self.now.around.now.draws.now) }
        ensures tried { (draws : _)
            → AreDraws (F.post self.now.around.now.draws.now) self.now.around.now.number draws
            → TriedAt (surroundings_of self.now.around.now draws) chain.now place
            (state_of self.now.header progress.old lists.old)
            (state_of self.now.header progress.new lists.new) result }
        ensures within { IfSome result (λ holds. place < length chain.now) }
        ensures fits { IfSome result (λ holds. place + 1 < 2 ^ 64) }
        ensures size { lists.new.size ≡ lists.old.size }
    {
        match limit_at(chain.limits(), place) {
            Some(limit) => Some(self.try_limit(limit, progress)),
            None => self.try_look(rule_at(chain, place)?, lists),
        }
    }

    /// Compares the next draw with a limit.
    fn try_limit(&self, limit: u32, progress: &mut Progress) -> bool
        requires { IsStated (F.pre self.now.around.now.draws.now)
            (F.post self.now.around.now.draws.now) }
        ensures { (draws lists : _)
            → AreDraws (F.post self.now.around.now.draws.now) self.now.around.now.number draws
            → tried_of self.now.header result progress.new lists
            ≡ walk.tried_as (walk.with_draw (state_of self.now.header progress.old lists))
            (nat_lt (draw_at draws progress.old.used) limit) }
    {
        let draw = self.around.draws.draw(self.around.number, progress.used);
        progress.use_draw();
        draw < limit
    }

    /// Looks whether the source is in a list, if that is a rule's only match.
    fn try_look(&self, rule: &Rule, lists: &mut RecentLists) -> Option<bool>
        ensures tried { IfSome result (λ holds. (draws : _) (progress : Progress)
            → tried_of self.now.header holds progress lists.new
            ≡ walk.try_all (surroundings_of self.now.around.now draws) rule.now.matches.items
            (state_of self.now.header progress lists.old)) }
        ensures none { result ≡ None → lists.new ≡ lists.old }
        ensures size { lists.new.size ≡ lists.old.size }
    {
        match rule.matches.as_slice() {
            [Match::Seen { list, seconds }] => Some(self.look_up(list, *seconds, lists)),
            _ => None,
        }
    }
}

/// The limit at a place, if there is one.
fn limit_at(limits: &[Option<u32>], place: u64) -> Option<u32>
    ensures limit { result ≡ option_and_then (λ limit. limit) (slice_get limits.now place) }
    ensures within { IfSome result (λ limit. place < length limits.now) }
    ensures fits { IfSome result (λ limit. place + 1 < 2 ^ 64) }
{
    match limits.get(place as usize) {
        None => None,
        Some(limit) => *limit,
    }
}

/// The rule at a place, if there is one.
fn rule_at(chain: &Chain, place: u64) -> Option<&Rule>
    ensures rule { option_copied result ≡ slice_get chain.now place }
    ensures within { IfSome result (λ rule. place < length chain.now) }
    ensures fits { IfSome result (λ rule. place + 1 < 2 ^ 64) }
{
    chain.rules().get(place as usize)
}
