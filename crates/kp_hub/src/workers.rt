//! The publisher of a hub, and the passes of its workers.
ghost use Rattle.std.specs.Prelude.{◌≡◌, ◌+◌, ◌<◌, [], length, map, replicate, sum, IfOk, OnOk};
ghost use Rattle.std.specs.List.{AllByRecursion};
ghost use Rattle.kp_hub.specs.Known.{known, new_worker, uncounted};
ghost use Rattle.kp_hub.specs.State.{first_table};

use crate::pass::WorkerPass;
use crate::sharing::Sharing;
use kp_base::{Address, Copied, Items, NoMemory};
use kp_plane::Plane;
use kp_publish::{Opened, Publisher, Reader, publication};
use std::alloc::Global;
use std::sync::Wait;
use std::sync::ledger::{Ledger, Share};

/// A publisher of the tables of a plane that has no sync yet, and a pass for each worker, with one
/// part of each ledger. Parts are left.
#[tactic(auto, using(crate::proofs::NewPasses::first_table_is, crate::proofs::NewPasses::new_readers, crate::proofs::NewPasses::as_many_readers))]
pub(crate) fn outlet_of<J: Sharing, A: Ledger, C: Ledger, R: Wait>(
    rt: &R,
    alloc: Global,
    history: Opened,
    plane: &Plane,
    workers: u32,
    accepted: &mut Share<A>,
    refused: &mut Share<C>,
) -> Result<(Publisher<J>, Items<WorkerPass<J, A, C>>), NoMemory>
    requires book { history ≡ J.book }
    requires plane { plane.now ≡ record { config = J.config; events = []; counts = [] } }
    requires start { J.start ≡ first_table J.config }
    requires some { 0 < workers }
    requires accepted { (workers < accepted.old.parts) × (accepted.old.amount ≡ 0) }
    requires refused { (workers < refused.old.parts) × (refused.old.amount ≡ 0) }
    ensures published { IfOk result (λ (publisher, _). publisher.published ≡ []) }
    ensures newest { IfOk result (λ (publisher, _). publisher.newest ≡ []) }
    ensures workers { IfOk result (λ (_, passes). passes ≡ replicate workers new_worker) }
    ensures parts { OnOk result ((0 < accepted.new.parts) × (0 < refused.new.parts)) }
{
    let (publisher, readers) = publication::<J, R>(rt, alloc, history, plane.table(), workers)?;
    let node = &plane.config().addresses;
    match workers_of(alloc, &publisher, readers, node, accepted, refused) {
        Ok(passes) => Ok((publisher, passes)),
        Err(refused) => {
            publisher.into_table(rt);
            Err(refused)
        }
    }
}

/// A pass for each reader.
#[tactic(auto, using(crate::proofs::Counting::made_all))]
fn workers_of<J: Sharing, A: Ledger, C: Ledger>(
    alloc: Global,
    publisher: &Publisher<J>,
    readers: Items<Reader<J>>,
    node: &Items<Address>,
    accepted: &mut Share<A>,
    refused: &mut Share<C>,
) -> Result<Items<WorkerPass<J, A, C>>, NoMemory>
    requires new { AllByRecursion (λ r. (r.seen ≡ []) × (r.told ≡ [])) readers }
    requires published { publisher.now.published ≡ [] }
    requires node { node.now ≡ J.config.addresses }
    requires accepted { (length readers < accepted.old.parts) × (accepted.old.amount ≡ 0) }
    requires refused { (length readers < refused.old.parts) × (refused.old.amount ≡ 0) }
    ensures passes { IfOk result (λ passes. passes ≡ replicate (length readers) new_worker) }
    ensures parts { OnOk result ((0 < accepted.new.parts) × (0 < refused.new.parts)) }
{
    let mut passes = Items::new(alloc);
    for reader in readers.into_vec() {
        let pass = worker_of(alloc, publisher, reader, node, accepted, refused)?;
        match passes.push(pass) {
            Ok(()) => {}
            Err((refused, _)) => return Err(refused),
        }
    }
    Ok(passes)
}

/// A pass, with a part of each ledger.
fn worker_of<J: Sharing, A: Ledger, C: Ledger>(
    alloc: Global,
    publisher: &Publisher<J>,
    reader: Reader<J>,
    node: &Items<Address>,
    accepted: &mut Share<A>,
    refused: &mut Share<C>,
) -> Result<WorkerPass<J, A, C>, NoMemory>
    requires new { (reader.seen ≡ []) × (reader.told ≡ []) }
    requires published { publisher.now.published ≡ [] }
    requires node { node.now ≡ J.config.addresses }
    requires accepted { (0 < accepted.old.parts) × (accepted.old.amount ≡ 0) }
    requires refused { (0 < refused.old.parts) × (refused.old.amount ≡ 0) }
    ensures new { IfOk result (λ pass. pass ≡ new_worker) }
    ensures accepted { accepted.new.parts + 1 ≡ accepted.old.parts }
    ensures refused { refused.new.parts + 1 ≡ refused.old.parts }
    ensures none { (accepted.new.amount ≡ 0) × (refused.new.amount ≡ 0) }
{
    let accepted = accepted.split_off(1, 0);
    let refused = refused.split_off(1, 0);
    let node = node.copy(alloc)?;
    Ok(WorkerPass::new(reader, publisher.tell(), node, accepted, refused))
}

/// Waits until each of these passes knows of fewer records than these.
pub(crate) fn know_fewer<J: Sharing, A: Ledger, C: Ledger, R: Wait>(
    rt: &R,
    workers: &[WorkerPass<J, A, C>],
    records: u64,
)
    ensures { AllByRecursion (λ w. known w < records) workers.now }
{
    for worker in workers {
        worker.knows_fewer(rt, records);
    }
}

/// Gives to these shares what passes have counted.
pub(crate) fn gather<J: Sharing, A: Ledger, C: Ledger>(
    workers: &mut [WorkerPass<J, A, C>],
    accepted: &mut Share<A>,
    refused: &mut Share<C>,
)
    requires parts { (0 < accepted.old.parts) × (0 < refused.old.parts) }
    ensures accepted { accepted.new.amount
        ≡ accepted.old.amount + sum (map (λ w. w.accepted) workers.old) }
    ensures refused { refused.new.amount
        ≡ refused.old.amount + sum (map (λ w. w.refused) workers.old) }
    ensures parts { (0 < accepted.new.parts) × (0 < refused.new.parts) }
    ensures workers { workers.new ≡ map uncounted workers.old }
{
    for worker in workers.iter_mut() {
        worker.give_counts(accepted, refused);
    }
}
