//! Flows that are answered by connections, and else by a table.
ghost use Rattle.std.specs.Prelude.{◌≡◌, true, None, IfOk, OnErr};
ghost use Rattle.std.specs.FinMap.{get};
ghost use Rattle.kp_choice_defs.specs.Draws.{IsStated, AreDraws};
ghost use Rattle.kp_table_defs.specs.Ranks.{is_ranked};
ghost use Rattle.kp_table_defs.specs.Walk.{walk_of};
ghost use Rattle.kp_track_defs.specs.Kept.{at_flow, kept_owned};
ghost use Rattle.kp_track_table.specs.Passing.{flow_passed, passed};
ghost use Rattle.kp_walker.specs.Sets.{ComesToSet};

use kp_base::{Address, Endpoint, Items, NoMemory};
use kp_conntrack::{Connections, Flow, Owned};
use kp_draws::DrawSource;
use kp_recent::RecentLists;
use kp_rules::Table;
use kp_types::Answer;
use kp_walker::walk;

/// What a flow comes to.
#[derive(Drop)]
pub enum Seen {
    /// The first flow of a connection goes where the table sends it. Where it is kept, later flows and
    /// replies follow it.
    First { answer: Answer, kept: bool },
    /// A later flow goes where the first went.
    Later { endpoint: Endpoint, masked: bool },
    /// A reply has the door as its source, to which the first flow was sent.
    Reply { door: Endpoint },
}

/// Passes a flow of this number through a node with these addresses: an open connection answers it,
/// and else the table, by a walk of its packet. Only that walk needs memory. Without it no connection
/// is kept or renewed: those are forgotten that have ended by the moment of the flow.
pub fn pass<F: Fn(u64, u32) -> u32>(
    connections: &mut Connections,
    table: &Table,
    node: &Items<Address>,
    number: u64,
    flow: &Flow,
    draws: &DrawSource<F>,
    lists: &mut RecentLists,
) -> Result<Seen, NoMemory>
    requires ranked { is_ranked table.now.chains ≡ true }
    requires stated { IsStated (F.pre draws.now) (F.post draws.now) }
    ensures passed { IfOk result (λ seen. (drawn : _) → AreDraws (F.post draws.now) number drawn
        → passed seen connections.new lists.new ≡ flow_passed connections.old flow.entry.now lists.old
        (walk_of (get table.now.chains) node.now flow.entry.now.packet drawn lists.old)) }
    ensures unowned { OnErr result (kept_owned connections.old flow.now ≡ None) }
    ensures refused { OnErr result ((drawn : _) → AreDraws (F.post draws.now) number drawn
        → ComesToSet (get table.now.chains) node.now flow.entry.now.packet drawn
        lists.old lists.new) }
    ensures ended { OnErr result (connections.new ≡ at_flow connections.old flow.now) }
    ensures size { lists.new.size ≡ lists.old.size }
{
    match connections.owned(flow) {
        Some(Owned::Later { endpoint, masked }) => Ok(Seen::Later { endpoint, masked }),
        Some(Owned::Reply { door }) => Ok(Seen::Reply { door }),
        None => {
            let answer = walk(table, node, number, &flow.packet, draws, lists)?;
            let kept = connections.opened(flow, &answer.verdict);
            Ok(Seen::First { answer, kept })
        }
    }
}
