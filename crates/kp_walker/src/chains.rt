//! Chains and their rules.
ghost use Rattle.std.specs.Prelude.{◌≡◌, ◌≤◌, ◌<◌, [], OnOk, OnErr, IfOk};
ghost use Rattle.std.specs.Option.{option_copied};
ghost use Rattle.kp_choice_defs.specs.Draws.{IsStated, AreDraws};
ghost use Rattle.kp_table_defs.specs.Walk.{rules_outcome, target_outcome};
ghost use Rattle.kp_walker.specs.Flow.{jump_of, sets_of, outcome_of, IsThrough};
ghost use Rattle.kp_walker.specs.Progress.{state_of};
ghost use Rattle.kp_walker.specs.Sets.{RulesSet, TargetSets};
ghost use Rattle.kp_walker.specs.Shorn.{shorn};
ghost use Rattle.kp_walker.specs.Surroundings.{surroundings_of, chains_of};

use crate::flow::Flow;
use crate::hook::Hook;
use crate::next::NextRule;
use crate::progress::Progress;
use crate::recorder::Recorder;
use kp_base::NoMemory;
use kp_recent::RecentLists;
use kp_rules::Chain;
use kp_types::{ChainName, Ending, Target};

impl<F: Fn(u64, u32) -> u32> Hook<'_, F> {
    /// Walks the chain that was found under a name, with at most `depth` chains on the way. Where a
    /// rule ends the traversal, the recorder is told the chains on the way to it.
    #[cycle(walk)]
    pub(crate) fn run_chain<R: Recorder>(
        &self,
        found: Option<&Chain>,
        chain: &ChainName,
        depth: usize,
        progress: &mut Progress,
        lists: &mut RecentLists,
        recorder: &mut R,
    ) -> Result<Flow, NoMemory>
        requires stated { IsStated (F.pre self.now.around.now.draws.now)
            (F.post self.now.around.now.draws.now) }
        requires found { option_copied found ≡ chains_of self.now.around.now
            (record { table = self.now.table; chain = chain.now }) }
        requires new { R.way recorder.old ≡ [] }
        requires room { depth ≤ 8 }
        ensures outcome { IfOk result (λ flow. (draws : _)
            → AreDraws (F.post self.now.around.now.draws.now) self.now.around.now.number draws
            → outcome_of self.now.header flow progress.new (R.way recorder.new) lists.new
            ≡ shorn R.keeps
            (jump_of self.now draws depth chain.now
            (state_of self.now.header progress.old lists.old))) }
        ensures way { IfOk result (λ flow. IsThrough flow depth (R.way recorder.new)) }
        ensures refused { OnErr result ((draws : _)
            → AreDraws (F.post self.now.around.now.draws.now) self.now.around.now.number draws
            → sets_of self.now draws depth chain.now
            (state_of self.now.header progress.old lists.old) lists.new) }
        ensures trail { R.trail recorder.new ≡ R.trail recorder.old }
        ensures size { lists.new.size ≡ lists.old.size }
    {
        if depth == 0 {
            return Ok(Flow::Stuck);
        }
        match found {
            None => Ok(Flow::Stuck),
            Some(found) => {
                // Some of the chains that a packet meets may have no rules.
                if found.rules().is_empty() {
                    return Ok(Flow::Next);
                }
                let flow = self.run_rules(found, depth - 1, progress, lists, recorder)?;
                Ok(flow.returned_from(chain, recorder))
            }
        }
    }

    /// Walks the rules that match the packet, in order, up to the first that ends the walk of the
    /// chain.
    #[cycle(walk)]
    fn run_rules<R: Recorder>(
        &self,
        chain: &Chain,
        depth: usize,
        progress: &mut Progress,
        lists: &mut RecentLists,
        recorder: &mut R,
    ) -> Result<Flow, NoMemory>
        requires stated { IsStated (F.pre self.now.around.now.draws.now)
            (F.post self.now.around.now.draws.now) }
        requires new { R.way recorder.old ≡ [] }
        requires room { depth < 8 }
        ensures outcome { IfOk result (λ flow. (draws : _)
            → AreDraws (F.post self.now.around.now.draws.now) self.now.around.now.number draws
            → outcome_of self.now.header flow progress.new (R.way recorder.new) lists.new
            ≡ shorn R.keeps
            (rules_outcome (surroundings_of self.now.around.now draws)
            (jump_of self.now draws depth) chain.now
            (state_of self.now.header progress.old lists.old))) }
        ensures way { IfOk result (λ flow. IsThrough flow depth (R.way recorder.new)) }
        ensures refused { OnErr result ((draws : _)
            → AreDraws (F.post self.now.around.now.draws.now) self.now.around.now.number draws
            → RulesSet (surroundings_of self.now.around.now draws) (jump_of self.now draws depth)
            (sets_of self.now draws depth) chain.now
            (state_of self.now.header progress.old lists.old) lists.new) }
        ensures trail { R.trail recorder.new ≡ R.trail recorder.old }
        ensures size { lists.new.size ≡ lists.old.size }
    {
        let to = self.destination();
        let mut from = 0;
        while let Some(next) = self.next_held(chain, from, &to, progress, lists)? {
            let flow = self.run_target(&next, depth, progress, lists, recorder)?;
            match flow {
                Flow::Next => from = next.place + 1,
                _ => return Ok(flow),
            }
        }
        Ok(Flow::Next)
    }

    /// Does what a rule's target says.
    #[cycle(walk)]
    fn run_target<R: Recorder>(
        &self,
        next: &NextRule<'_>,
        depth: usize,
        progress: &mut Progress,
        lists: &mut RecentLists,
        recorder: &mut R,
    ) -> Result<Flow, NoMemory>
        requires stated { IsStated (F.pre self.now.around.now.draws.now)
            (F.post self.now.around.now.draws.now) }
        requires new { R.way recorder.old ≡ [] }
        requires room { depth < 8 }
        ensures outcome { IfOk result (λ flow. (draws : _)
            → AreDraws (F.post self.now.around.now.draws.now) self.now.around.now.number draws
            → outcome_of self.now.header flow progress.new (R.way recorder.new) lists.new
            ≡ shorn R.keeps
            (target_outcome (jump_of self.now draws depth) next.now.rule.now.target
            (state_of self.now.header progress.old lists.old))) }
        ensures way { IfOk result (λ flow. IsThrough flow depth (R.way recorder.new)) }
        ensures refused { OnErr result ((draws : _)
            → AreDraws (F.post self.now.around.now.draws.now) self.now.around.now.number draws
            → TargetSets (sets_of self.now draws depth) next.now.rule.now.target
            (state_of self.now.header progress.old lists.old) lists.new) }
        ensures trail { R.trail recorder.new ≡ R.trail recorder.old }
        ensures size { lists.new.size ≡ lists.old.size }
    {
        match &next.rule.target {
            Target::Jump(chain) => {
                let found = self.jumped(next, chain);
                self.run_chain(found, chain, depth, progress, lists, recorder)
            }
            Target::Return => Ok(Flow::Left),
            Target::SetMark => {
                progress.marked = true;
                Ok(Flow::Next)
            }
            Target::FlipMark => {
                progress.marked = !progress.marked;
                Ok(Flow::Next)
            }
            Target::Accept => {
                progress.ending = Ending::Accept;
                Ok(Flow::Ended)
            }
            Target::Drop => {
                progress.ending = Ending::Drop;
                Ok(Flow::Ended)
            }
            Target::Reject => {
                progress.ending = Ending::Reject;
                Ok(Flow::Ended)
            }
            Target::Dnat(endpoint) => {
                progress.ending = Ending::Dnat(*endpoint);
                Ok(Flow::Ended)
            }
            Target::Masquerade => {
                progress.ending = Ending::Masquerade;
                Ok(Flow::Ended)
            }
        }
    }

    /// The chain of this name, to which a rule jumps.
    fn jumped(&self, next: &NextRule<'_>, chain: &ChainName) -> Option<&Chain>
        ensures { option_copied result ≡ chains_of self.now.around.now
            (record { table = self.now.table; chain = chain.now }) }
    {
        let chains = self.around.chains;
        chains.jumped(next.chain, next.place, self.table, chain)
    }
}
