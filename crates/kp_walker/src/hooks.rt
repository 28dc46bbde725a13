//! The hooks that a packet meets.
ghost use Rattle.std.specs.Prelude.{◌≡◌, ◌+◌, ◌<◌, ◌≤◌, true, [], length, OnOk, OnErr};
ghost use Rattle.kp_base.specs.Net.{is_local_address};
ghost use Rattle.kp_choice_defs.specs.Draws.{IsStated, AreDraws};
ghost use Rattle.kp_types.specs.Packets.{family_of_packet};
ghost use Rattle.kp_types.specs.Places.{table_in};
ghost use Rattle.kp_table_defs.specs.Ranks.{is_built_in, is_ranked};
ghost use Rattle.kp_table_defs.specs.Walk as walk;
ghost use Rattle.kp_walker.specs.Journeys.{stage_of, table_of, journey_of, MovesAs, StopsAs};
ghost use Rattle.kp_walker.specs.Sets as sets;
ghost use Rattle.kp_walker.specs.Surroundings.{surroundings_of, lookup_of};

use crate::hook::{Hook, Surroundings};
use crate::journey::{Journey, Stage};
use crate::local::is_local;
use crate::recorder::Recorder;
use kp_base::NoMemory;
use kp_recent::RecentLists;
use kp_rules::laws::ranked_walks_end;
use kp_types::{ChainAt, ChainName, Origin, TableName, Verdict};

/// The most chains on a way.
const MOST_CHAINS: usize = 8;

impl<F: Fn(u64, u32) -> u32> Surroundings<'_, F> {
    /// The first hook, where the packet may be translated.
    pub(crate) fn enter<R: Recorder>(
        &self,
        journey: &mut Journey<R>,
        lists: &mut RecentLists,
    ) -> Result<(), NoMemory>
        requires stated { IsStated (F.pre self.now.draws.now) (F.post self.now.draws.now) }
        requires ranked { is_ranked self.now.chains.now.chains ≡ true }
        requires way { R.way journey.old.recorder ≡ [] }
        requires room { length (R.trail journey.old.recorder) < 4 }
        ensures hook { OnOk result ((draws : _)
            → AreDraws (F.post self.now.draws.now) self.now.number draws
            → MovesAs R.keeps (journey_of R.trail journey.old lists.old)
            (journey_of R.trail journey.new lists.new)
            (walk.through (surroundings_of self.now draws) (lookup_of self.now) walk.Translating
            TableName.Nat (walk.first_hook self.now.packet.now.from))) }
        ensures refused { OnErr result ((draws : _)
            → AreDraws (F.post self.now.draws.now) self.now.number draws
            → StopsAs R.keeps (journey_of R.trail journey.old lists.old) lists.new
            (sets.HookSets (surroundings_of self.now draws) (lookup_of self.now)
            TableName.Nat (walk.first_hook self.now.packet.now.from))) }
        ensures way { OnOk result (R.way journey.new.recorder ≡ []) }
        ensures room { length (R.trail journey.new.recorder)
            ≤ length (R.trail journey.old.recorder) + 1 }
        ensures size { lists.new.size ≡ lists.old.size }
    {
        let hook = first_hook(self.packet.from);
        self.through(Stage::Translating, &hook, journey, lists)
    }

    /// The way after the first hook: through the filter, and out of the node.
    pub(crate) fn onward<R: Recorder>(
        &self,
        journey: &mut Journey<R>,
        lists: &mut RecentLists,
    ) -> Result<(), NoMemory>
        requires stated { IsStated (F.pre self.now.draws.now) (F.post self.now.draws.now) }
        requires ranked { is_ranked self.now.chains.now.chains ≡ true }
        requires way { R.way journey.old.recorder ≡ [] }
        requires room { length (R.trail journey.old.recorder) < 2 }
        ensures way_on { OnOk result ((draws : _)
            → AreDraws (F.post self.now.draws.now) self.now.number draws
            → MovesAs R.keeps (journey_of R.trail journey.old lists.old)
            (journey_of R.trail journey.new lists.new)
            (walk.onward (surroundings_of self.now draws) (lookup_of self.now))) }
        ensures refused { OnErr result ((draws : _)
            → AreDraws (F.post self.now.draws.now) self.now.number draws
            → StopsAs R.keeps (journey_of R.trail journey.old lists.old) lists.new
            (sets.OnwardSets (surroundings_of self.now draws) (lookup_of self.now))) }
        ensures size { lists.new.size ≡ lists.old.size }
    {
        let from = self.packet.from;
        let for_node = is_local(self.node, &journey.header.target);
        self.filter(from, for_node, journey, lists)?;
        self.leave(is_leaving(from, for_node), journey, lists)
    }

    /// The last hook, where the packet leaves the node and may be masqueraded.
    fn leave<R: Recorder>(
        &self,
        leaving: bool,
        journey: &mut Journey<R>,
        lists: &mut RecentLists,
    ) -> Result<(), NoMemory>
        requires stated { IsStated (F.pre self.now.draws.now) (F.post self.now.draws.now) }
        requires ranked { is_ranked self.now.chains.now.chains ≡ true }
        requires way { R.way journey.old.recorder ≡ [] }
        requires room { length (R.trail journey.old.recorder) < 4 }
        ensures hook { OnOk result ((draws : _)
            → AreDraws (F.post self.now.draws.now) self.now.number draws
            → MovesAs R.keeps (journey_of R.trail journey.old lists.old)
            (journey_of R.trail journey.new lists.new)
            (walk.postrouting_if leaving (surroundings_of self.now draws) (lookup_of self.now))) }
        ensures refused { OnErr result ((draws : _)
            → AreDraws (F.post self.now.draws.now) self.now.number draws
            → StopsAs R.keeps (journey_of R.trail journey.old lists.old) lists.new
            (sets.PostroutingSets leaving (surroundings_of self.now draws) (lookup_of self.now))) }
        ensures size { lists.new.size ≡ lists.old.size }
    {
        if leaving {
            let hook = ChainName::new("POSTROUTING");
            self.through(Stage::Masquerading, &hook, journey, lists)
        } else {
            Ok(())
        }
    }

    /// The hooks of the filter table.
    fn filter<R: Recorder>(
        &self,
        from: Origin,
        for_node: bool,
        journey: &mut Journey<R>,
        lists: &mut RecentLists,
    ) -> Result<(), NoMemory>
        requires stated { IsStated (F.pre self.now.draws.now) (F.post self.now.draws.now) }
        requires ranked { is_ranked self.now.chains.now.chains ≡ true }
        requires way { R.way journey.old.recorder ≡ [] }
        requires room { length (R.trail journey.old.recorder) < 2 }
        requires for_node { for_node
            ≡ is_local_address self.now.node.now journey.old.header.target }
        ensures hooks { OnOk result ((draws : _)
            → AreDraws (F.post self.now.draws.now) self.now.number draws
            → MovesAs R.keeps (journey_of R.trail journey.old lists.old)
            (journey_of R.trail journey.new lists.new)
            (walk.filter_hooks from (surroundings_of self.now draws) (lookup_of self.now))) }
        ensures refused { OnErr result ((draws : _)
            → AreDraws (F.post self.now.draws.now) self.now.number draws
            → StopsAs R.keeps (journey_of R.trail journey.old lists.old) lists.new
            (sets.FilterSets from (surroundings_of self.now draws) (lookup_of self.now))) }
        ensures way { OnOk result (R.way journey.new.recorder ≡ []) }
        ensures room { length (R.trail journey.new.recorder) < 4 }
        ensures size { lists.new.size ≡ lists.old.size }
    {
        match from {
            Origin::Wire => {
                let hook = routed_hook(for_node);
                self.through(Stage::Filtering, &hook, journey, lists)
            }
            Origin::Node => {
                let hook = ChainName::new("OUTPUT");
                self.through(Stage::Filtering, &hook, journey, lists)?;
                self.come_in(for_node, journey, lists)
            }
        }
    }

    /// INPUT, where a packet of the node stays in it.
    fn come_in<R: Recorder>(
        &self,
        for_node: bool,
        journey: &mut Journey<R>,
        lists: &mut RecentLists,
    ) -> Result<(), NoMemory>
        requires stated { IsStated (F.pre self.now.draws.now) (F.post self.now.draws.now) }
        requires ranked { is_ranked self.now.chains.now.chains ≡ true }
        requires way { R.way journey.old.recorder ≡ [] }
        requires room { length (R.trail journey.old.recorder) < 4 }
        ensures hook { OnOk result ((draws : _)
            → AreDraws (F.post self.now.draws.now) self.now.number draws
            → MovesAs R.keeps (journey_of R.trail journey.old lists.old)
            (journey_of R.trail journey.new lists.new)
            (walk.input_if for_node (surroundings_of self.now draws) (lookup_of self.now))) }
        ensures refused { OnErr result ((draws : _)
            → AreDraws (F.post self.now.draws.now) self.now.number draws
            → StopsAs R.keeps (journey_of R.trail journey.old lists.old) lists.new
            (sets.InputSets for_node (surroundings_of self.now draws) (lookup_of self.now))) }
        ensures way { OnOk result (R.way journey.new.recorder ≡ []) }
        ensures room { length (R.trail journey.new.recorder)
            ≤ length (R.trail journey.old.recorder) + 1 }
        ensures size { lists.new.size ≡ lists.old.size }
    {
        if for_node {
            let hook = ChainName::new("INPUT");
            self.through(Stage::Filtering, &hook, journey, lists)
        } else {
            Ok(())
        }
    }

    /// A hook, unless something stopped the packet before. One whose chain isn't there leaves the
    /// packet alone.
    fn through<R: Recorder>(
        &self,
        stage: Stage,
        chain: &ChainName,
        journey: &mut Journey<R>,
        lists: &mut RecentLists,
    ) -> Result<(), NoMemory>
        requires stated { IsStated (F.pre self.now.draws.now) (F.post self.now.draws.now) }
        requires ranked { is_ranked self.now.chains.now.chains ≡ true }
        requires built_in { is_built_in (table_of stage) chain.now ≡ true }
        requires way { R.way journey.old.recorder ≡ [] }
        requires room { length (R.trail journey.old.recorder) < 4 }
        ensures hook { OnOk result ((draws : _)
            → AreDraws (F.post self.now.draws.now) self.now.number draws
            → MovesAs R.keeps (journey_of R.trail journey.old lists.old)
            (journey_of R.trail journey.new lists.new)
            (walk.through (surroundings_of self.now draws) (lookup_of self.now) (stage_of stage)
            (table_of stage) chain.now)) }
        ensures refused { OnErr result ((draws : _)
            → AreDraws (F.post self.now.draws.now) self.now.number draws
            → StopsAs R.keeps (journey_of R.trail journey.old lists.old) lists.new
            (sets.HookSets (surroundings_of self.now draws) (lookup_of self.now)
            (table_of stage) chain.now)) }
        ensures way { OnOk result (R.way journey.new.recorder ≡ []) }
        ensures room { length (R.trail journey.new.recorder)
            ≤ length (R.trail journey.old.recorder) + 1 }
        ensures size { lists.new.size ≡ lists.old.size }
    {
        ranked_walks_end();
        if journey.stopped.is_some() {
            return Ok(());
        }
        let at = ChainAt {
            table: self.table(stage),
            chain: chain.same(),
        };
        let found = self.chains.walked(&at);
        if found.is_none() {
            journey.stopped = Some(Verdict::LeftAlone);
            return Ok(());
        }
        let hook = Hook {
            around: self,
            table: at.table,
            header: journey.header,
        };
        let (mut progress, recorder) = (journey.progress, &mut journey.recorder);
        let flow = hook.run_chain(found, chain, MOST_CHAINS, &mut progress, lists, recorder)?;
        journey.after_hook(stage, flow, progress);
        Ok(())
    }
}

impl<F> Surroundings<'_, F> {
    /// The table of a stage's hooks, among those of the packet's family as it came.
    fn table(&self, stage: Stage) -> TableName
        ensures { result ≡ table_in (family_of_packet self.now.packet.now) (table_of stage) }
    {
        let family = self.packet.target.family();
        match stage {
            Stage::Translating | Stage::Masquerading => TableName::nat_of(family),
            Stage::Filtering => TableName::filter_of(family),
        }
    }
}

/// The hook that a packet meets first.
fn first_hook(from: Origin) -> ChainName
    ensures { result ≡ walk.first_hook from }
{
    match from {
        Origin::Wire => ChainName::new("PREROUTING"),
        Origin::Node => ChainName::new("OUTPUT"),
    }
}

/// The filter's hook of a packet from the network.
fn routed_hook(for_node: bool) -> ChainName
    ensures { result ≡ walk.routed_hook for_node }
{
    if for_node {
        ChainName::new("INPUT")
    } else {
        ChainName::new("FORWARD")
    }
}

/// Whether a packet leaves the node.
fn is_leaving(from: Origin, for_node: bool) -> bool
    ensures { result ≡ walk.is_leaving from for_node }
{
    match from {
        Origin::Wire => !for_node,
        Origin::Node => true,
    }
}
