//! Records that write their own number into a chain.
ghost use Rattle.std.specs.Prelude.{◌≡◌, ◌++◌, ◌∷◌, [], false, OnOk};
ghost use Rattle.kp_publish.specs.Entries.{is_ended, StandsFor};
ghost use Rattle.kp_publish.specs.declared.entry.Entry.TheVariants.{Record};

use crate::lines::Stuck;
use arrayvec::ArrayVec;
use kp_base::{Items, NoMemory, Shared};
use kp_publish::{Publication, Publisher, SyncRecord};
use kp_rules::Table;
use kp_types::{Batch, ChainAt, ChainName, Edit, Match, Rule, TableName, Target};
use kp_walker::can_walk;
use std::alloc::Global;
use std::sync::Wait;

/// The chain that each record writes.
fn place() -> ChainAt {
    ChainAt {
        table: TableName::Nat,
        chain: ChainName::new("KUBE-SVC-A"),
    }
}

/// The edit that writes a number into the chain.
fn batch_of(alloc: Global, number: u64) -> Result<Batch, NoMemory> {
    let mut matches = ArrayVec::new();
    matches.push(Match::Statistic { p: number });
    let rules = vec![in alloc; Rule::of(matches, Target::Accept)]?;
    let rules = Shared::of(alloc, Items::from_vec(rules))?;
    let edits = Items::from_vec(vec![in alloc; Edit::Write { at: place(), rules }]?);
    Ok(Batch { edits })
}

/// The number that was written last, or 0.
pub fn number_in(table: &Table) -> u64 {
    let Some(rules) = table.chain(&place()) else {
        return 0;
    };
    let Some(rule) = rules.as_slice().first() else {
        return 0;
    };
    match rule.matches.as_slice().first() {
        Some(Match::Statistic { p }) => *p,
        _ => 0,
    }
}

/// Publishes one record more, and answers its number. `own` is the table that readers then take.
#[tactic(auto, using(crate::proofs::Pushes::stands_after))]
pub fn push<J: Publication, R: Wait>(
    rt: &R,
    alloc: Global,
    publisher: &mut Publisher<J>,
    own: &mut Table,
) -> Result<u64, Stuck>
    requires { StandsFor J.start own.old publisher.old.newest }
    ensures { OnOk result (StandsFor J.start own.new publisher.new.newest) }
{
    let Some(sync) = own.syncs().checked_add(1) else {
        return Err(Stuck);
    };
    let batch = batch_of(alloc, sync)?;
    own.apply(&batch)?;
    if !can_walk(own) {
        return Err(Stuck);
    }
    let next = SyncRecord {
        sync,
        events: 1,
        batch,
    };
    publish(rt, publisher, own, next)
}

/// Publishes a record. `own` is the table after it.
#[tactic(auto, using(crate::proofs::Pushes::number_after))]
fn publish<J: Publication, R: Wait>(
    rt: &R,
    publisher: &mut Publisher<J>,
    own: &Table,
    next: SyncRecord,
) -> Result<u64, Stuck>
    requires open { is_ended publisher.old.newest ≡ false }
    requires number { next.sync ≡ own.now.syncs }
    requires stands { StandsFor J.start own.now (publisher.old.newest ++ Record next ∷ []) }
    ensures { OnOk result (StandsFor J.start own.now publisher.new.newest) }
{
    match publisher.push_and_publish(rt, next) {
        Ok(number) => Ok(number),
        Err(_) => Err(Stuck),
    }
}
