//! The matches of a rule.
ghost use Rattle.std.specs.Prelude.{◌≡◌, OnOk, OnErr, IfOk};
ghost use Rattle.kp_choice_defs.specs.Draws.{IsStated, AreDraws, draw_matches};
ghost use Rattle.kp_choice_defs.specs.Recent as recent;
ghost use Rattle.kp_table_defs.specs.Matching as walk;
ghost use Rattle.kp_walker.specs.Progress.{state_of, tried_of};
ghost use Rattle.kp_walker.specs.Sets.{MatchSets, MatchesSet};
ghost use Rattle.kp_walker.specs.Surroundings.{surroundings_of};

use crate::hook::Hook;
use crate::local::is_local;
use crate::progress::Progress;
use kp_base::NoMemory;
use kp_recent::RecentLists;
use kp_types::{ChainName, Match, Rule};

impl<F: Fn(u64, u32) -> u32> Hook<'_, F> {
    /// Tries the matches of a rule.
    pub(crate) fn try_rule(
        &self,
        rule: &Rule,
        progress: &mut Progress,
        lists: &mut RecentLists,
    ) -> Result<bool, NoMemory>
        requires stated { IsStated (F.pre self.now.around.now.draws.now)
            (F.post self.now.around.now.draws.now) }
        ensures ok { IfOk result (λ holds. (draws : _)
            → AreDraws (F.post self.now.around.now.draws.now) self.now.around.now.number draws
            → tried_of self.now.header holds progress.new lists.new
            ≡ walk.try_all (surroundings_of self.now.around.now draws) rule.now.matches.items
            (state_of self.now.header progress.old lists.old)) }
        ensures err { OnErr result ((draws : _)
            → AreDraws (F.post self.now.around.now.draws.now) self.now.around.now.number draws
            → MatchesSet (surroundings_of self.now.around.now draws) rule.now.matches.items
            (state_of self.now.header progress.old lists.old) lists.new) }
        ensures size { lists.new.size ≡ lists.old.size }
    {
        self.try_all(rule.matches.as_slice(), progress, lists)
    }

    /// Tries matches from the left, up to the first that fails.
    fn try_all(
        &self,
        matches: &[Match],
        progress: &mut Progress,
        lists: &mut RecentLists,
    ) -> Result<bool, NoMemory>
        requires { IsStated (F.pre self.now.around.now.draws.now)
            (F.post self.now.around.now.draws.now) }
        ensures ok { IfOk result (λ holds. (draws : _)
            → AreDraws (F.post self.now.around.now.draws.now) self.now.around.now.number draws
            → tried_of self.now.header holds progress.new lists.new
            ≡ walk.try_all (surroundings_of self.now.around.now draws) matches.now
            (state_of self.now.header progress.old lists.old)) }
        ensures err { OnErr result ((draws : _)
            → AreDraws (F.post self.now.around.now.draws.now) self.now.around.now.number draws
            → MatchesSet (surroundings_of self.now.around.now draws) matches.now
            (state_of self.now.header progress.old lists.old) lists.new) }
        ensures size { lists.new.size ≡ lists.old.size }
    {
        for matched in matches {
            if !self.try_match(matched, progress, lists)? {
                return Ok(false);
            }
        }
        Ok(true)
    }

    /// Tries one match. A draw counts as used whether or not the test holds. Only a set of a source
    /// that its list lacks needs memory.
    #[tactic(auto, using(crate::proofs::SetSteps::with_sized))]
    fn try_match(
        &self,
        matched: &Match,
        progress: &mut Progress,
        lists: &mut RecentLists,
    ) -> Result<bool, NoMemory>
        requires { IsStated (F.pre self.now.around.now.draws.now)
            (F.post self.now.around.now.draws.now) }
        ensures ok { IfOk result (λ holds. (draws : _)
            → AreDraws (F.post self.now.around.now.draws.now) self.now.around.now.number draws
            → tried_of self.now.header holds progress.new lists.new
            ≡ walk.try_match (surroundings_of self.now.around.now draws) matched.now
            (state_of self.now.header progress.old lists.old)) }
        ensures err { OnErr result
            (MatchSets matched.now (state_of self.now.header progress.old lists.old) lists.new) }
        ensures size { lists.new.size ≡ lists.old.size }
    {
        match matched {
            Match::Statistic { p } => Ok(self.try_draw(*p, progress)),
            Match::Seen { list, seconds } => Ok(self.look_up(list, *seconds, lists)),
            Match::SetSeen { list } => {
                lists.set(list, &self.header.source, self.around.packet.now)?;
                Ok(true)
            }
            Match::Src { range, not } => Ok(range.contains(&self.header.source) != *not),
            Match::Dst { range, not } => Ok(range.contains(&self.header.target) != *not),
            Match::Proto { proto } => Ok(*proto == self.around.packet.proto),
            Match::Port { proto, port } => {
                Ok(*proto == self.around.packet.proto && *port == self.header.port)
            }
            Match::SrcLocal => Ok(is_local(self.around.node, &self.header.source)),
            Match::DstLocal => Ok(is_local(self.around.node, &self.header.target)),
            Match::Marked { not } => Ok(progress.marked != *not),
        }
    }

    /// Tries a statistic match by the next draw.
    fn try_draw(&self, p: u64, progress: &mut Progress) -> bool
        requires { IsStated (F.pre self.now.around.now.draws.now)
            (F.post self.now.around.now.draws.now) }
        ensures { (draws lists : _)
            → AreDraws (F.post self.now.around.now.draws.now) self.now.around.now.number draws
            → tried_of self.now.header result progress.new lists
            ≡ walk.try_match (surroundings_of self.now.around.now draws) (Match.Statistic p)
            (state_of self.now.header progress.old lists) }
    {
        let draw = self.around.draws.draw(self.around.number, progress.used);
        progress.use_draw();
        is_drawn(p, draw)
    }

    /// Whether the source is in the list within the timeout. What is past it is dropped.
    #[tactic(auto, using(crate::proofs::SetSteps::with_sized))]
    pub(crate) fn look_up(&self, list: &ChainName, seconds: u32, lists: &mut RecentLists) -> bool
        ensures live { result ≡ recent.is_live lists.old list.now self.now.header.source
            self.now.around.now.packet.now.now seconds }
        ensures lists { lists.new ≡ recent.reaped lists.old list.now self.now.header.source
            self.now.around.now.packet.now.now seconds }
        ensures size { lists.new.size ≡ lists.old.size }
    {
        lists.look(list, &self.header.source, self.around.packet.now, seconds)
    }
}

/// Whether a rule of this probability matches at this draw. The draw is compared with the threshold
/// (2^32 p + 10^10) / (2 * 10^10) without a division, and without the factor 2^10 of both sides.
fn is_drawn(p: u64, draw: u32) -> bool
    ensures { result ≡ draw_matches p draw }
{
    let scaled = (draw as u64 + 1) * 19_531_250;
    scaled as u128 <= p as u128 * 4_194_304 + 9_765_625
}
