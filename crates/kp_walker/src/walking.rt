//! The walk of a packet.
ghost use Rattle.std.specs.Prelude.{◌≡◌, true, OnOk, OnErr, IfOk};
ghost use Rattle.std.specs.FinMap.{get};
ghost use Rattle.kp_choice_defs.specs.Draws.{IsStated, AreDraws};
ghost use Rattle.kp_table_defs.specs.Ranks.{is_ranked};
ghost use Rattle.kp_table_defs.specs.Walk.{walk_of};
ghost use Rattle.kp_walker.specs.Answers.{answered};
ghost use Rattle.kp_walker.specs.Sets.{ComesToSet};

use crate::hook::Surroundings;
use crate::journey::Journey;
use crate::recorder::{NoRecorder, Recorder, TrailRecorder};
use kp_base::{Address, Items, NoMemory};
use kp_draws::DrawSource;
use kp_recent::RecentLists;
use kp_rules::Table;
use kp_types::{Answer, Packet, Verdict};

/// Walks a packet of this number through the rules that a table has for its address family, on the
/// node with these addresses: what becomes of it, and on which way. Where the table has none, the
/// packet is left alone. Only a set of a source that its recent list lacks needs memory, and where it
/// gets none the lists stay as they are by then.
pub fn walk<F: Fn(u64, u32) -> u32>(
    table: &Table,
    node: &Items<Address>,
    number: u64,
    packet: &Packet,
    draws: &DrawSource<F>,
    lists: &mut RecentLists,
) -> Result<Answer, NoMemory>
    requires ranked { is_ranked table.now.chains ≡ true }
    requires stated { IsStated (F.pre draws.now) (F.post draws.now) }
    ensures walk { IfOk result (λ answer. (drawn : _) → AreDraws (F.post draws.now) number drawn
        → answered answer lists.new
        ≡ walk_of (get table.now.chains) node.now packet.entry.now drawn lists.old) }
    ensures refused { OnErr result ((drawn : _) → AreDraws (F.post draws.now) number drawn
        → ComesToSet (get table.now.chains) node.now packet.entry.now drawn lists.old lists.new) }
    ensures size { lists.new.size ≡ lists.old.size }
{
    let around = Surroundings {
        chains: table,
        node: node.as_slice(),
        packet,
        number,
        draws,
    };
    let journey = around.go(TrailRecorder::new(), lists)?;
    Ok(Answer {
        verdict: journey.verdict(),
        trail: journey.recorder.trail(),
    })
}

/// What becomes of a packet: the same walk, of which no trail is kept.
pub fn verdict_of<F: Fn(u64, u32) -> u32>(
    table: &Table,
    node: &Items<Address>,
    number: u64,
    packet: &Packet,
    draws: &DrawSource<F>,
    lists: &mut RecentLists,
) -> Result<Verdict, NoMemory>
    requires ranked { is_ranked table.now.chains ≡ true }
    requires stated { IsStated (F.pre draws.now) (F.post draws.now) }
    ensures verdict { IfOk result (λ verdict. (drawn : _) → AreDraws (F.post draws.now) number drawn
        → verdict
        ≡ (walk_of (get table.now.chains) node.now packet.entry.now drawn lists.old).verdict) }
    ensures lists { OnOk result ((drawn : _) → AreDraws (F.post draws.now) number drawn
        → lists.new
        ≡ (walk_of (get table.now.chains) node.now packet.entry.now drawn lists.old).lists) }
    ensures refused { OnErr result ((drawn : _) → AreDraws (F.post draws.now) number drawn
        → ComesToSet (get table.now.chains) node.now packet.entry.now drawn lists.old lists.new) }
    ensures size { lists.new.size ≡ lists.old.size }
{
    let around = Surroundings {
        chains: table,
        node: node.as_slice(),
        packet,
        number,
        draws,
    };
    let journey = around.go(NoRecorder, lists)?;
    Ok(journey.verdict())
}

impl<F: Fn(u64, u32) -> u32> Surroundings<'_, F> {
    ghost use Rattle.std.specs.Prelude.{[]};
    ghost use Rattle.kp_table_defs.specs.Walk as walk;
    ghost use Rattle.kp_walker.specs.Journeys.{journey_of};
    ghost use Rattle.kp_walker.specs.Shorn.{told};
    ghost use Rattle.kp_walker.specs.Surroundings.{surroundings_of, chains_of, lookup_of};

    /// The whole way of the packet.
    fn go<R: Recorder>(&self, recorder: R, lists: &mut RecentLists) -> Result<Journey<R>, NoMemory>
        requires stated { IsStated (F.pre self.now.draws.now) (F.post self.now.draws.now) }
        requires ranked { is_ranked self.now.chains.now.chains ≡ true }
        requires trail { R.trail recorder ≡ [] }
        requires way { R.way recorder ≡ [] }
        ensures way_on { IfOk result (λ j. (drawn : _)
            → AreDraws (F.post self.now.draws.now) self.now.number drawn
            → journey_of R.trail j lists.new ≡ told R.keeps
            (walk.journey_of (surroundings_of self.now drawn) (lookup_of self.now)
            (walk.initial_state self.now.packet.now lists.old))) }
        ensures refused { OnErr result ((drawn : _)
            → AreDraws (F.post self.now.draws.now) self.now.number drawn
            → ComesToSet (chains_of self.now) self.now.node.now self.now.packet.now drawn
            lists.old lists.new) }
        ensures size { lists.new.size ≡ lists.old.size }
    {
        let mut journey = Journey::new(self.packet, recorder);
        self.enter(&mut journey, lists)?;
        self.onward(&mut journey, lists)?;
        Ok(journey)
    }
}
