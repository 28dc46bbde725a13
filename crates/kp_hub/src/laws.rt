//! What a hub's lock keeps, what of a hub threads are given, that all passes of a hub saw one
//! history, and that what it does is steps of interleaved runs.
ghost use Rattle.std.specs.Prelude.{◌≡◌};
ghost use Rattle.kp_publish.specs.Entries.{records_of};
ghost use Rattle.kp_hub.specs.Finishing.{Begins, records_told};
ghost use Rattle.kp_hub.specs.Interleaved.{FeedsAreSteps, NewHubsStandAtTheStart};
ghost use Rattle.kp_hub.specs.Interleaved.{RefusalsAreSteps, SyncsAreSteps, WalksAreReads};

use crate::finished::Finished;
use crate::hub::Hub;
use crate::pass::WorkerPass;
use crate::sharing::Sharing;
pub use crate::state::Held;
use std::sync::Wait;
use std::sync::ledger::Ledger;

/// A pass of a hub that ended learns all of its records, and reads once. Whatever it had seen or
/// learned before begins these records.
pub fn same_hub<J: Sharing, A: Ledger, C: Ledger, R: Wait>(
    rt: &R,
    pass: &mut WorkerPass<J, A, C>,
    done: &Finished<J>,
)
    ensures seen { Begins pass.old.seen
        (records_told J.config done.now.journal done.now.notes) }
    ensures told { Begins pass.old.told
        (records_told J.config done.now.journal done.now.notes) }
    ensures learned { Begins pass.old.learned
        (records_told J.config done.now.journal done.now.notes) }
    ensures all { records_of pass.new.seen
        ≡ records_told J.config done.now.journal done.now.notes }
{
    pass.knows_its_front();
    pass.learn(done.tell());
    pass.look(rt);
}

/// What a hub does is steps of an interleaved run, so that what holds in every interleaving, as
/// `kp_history_laws::interleavings` says, holds of it. A run goes on from where the hub stands: by
/// each event that is fed, by an accepted sync and by a refused one, where its queue had what they
/// take. A walk is answered as a worker reads where the records that the pass sees are published.
pub fn interleavings()
    ensures first { NewHubsStandAtTheStart }
    ensures feeds { FeedsAreSteps }
    ensures accepted { SyncsAreSteps }
    ensures refused { RefusalsAreSteps }
    ensures walks { WalksAreReads }
{
    kp_history_laws::interleavings();
    kp_history_laws::sync_records();
    kp_history_laws::joined_runs();
}

/// Threads may share a hub, and a worker's pass may be sent to one.
pub fn hubs_cross_threads<
    J: Sharing + Send + Sync,
    A: Ledger + Send + Sync,
    C: Ledger + Send + Sync,
>() {
    is_shared::<Hub<J, A, C>>();
    is_sent::<WorkerPass<J, A, C>>();
}

/// Takes a type whose values may be shared.
fn is_shared<T: Sync>() {}

/// Takes a type whose values may be sent.
fn is_sent<T: Send>() {}
