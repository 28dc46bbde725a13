//! Records that wait, and their publishing.
ghost use Rattle.std.specs.Prelude.{◌≡◌, ◌+◌, ◌<◌, ◌≤◌, ◌++◌, ◌∷◌, []};
ghost use Rattle.std.specs.Prelude.{false, length, OnOk, OnErr, IfErr};
ghost use Rattle.std.specs.VecDeque.{deque_len, deque_capacity};
ghost use Rattle.kp_io.specs.Faults.{Rose};
ghost use mathlib.Core.List.{IsPrefix};
ghost use Rattle.kp_publish.specs.Entries.{is_ended, records_of};
ghost use Rattle.kp_hub.specs.Ready.{AreReady};

use kp_base::NoMemory;
use kp_publish::{Publication, PublishFault, Publisher, SyncRecord};
use std::collections::VecDeque;
use std::sync::Wait;

/// Puts a record behind those that wait. There is room for it.
pub(crate) fn put(waiting: &mut VecDeque<SyncRecord>, next: SyncRecord)
    requires { deque_len waiting.old < deque_capacity waiting.old }
    ensures { waiting.new.items ≡ waiting.old.items ++ next ∷ [] }
{
    if waiting.push_back(next).is_err() {
        unreachable!()
    }
}

/// Publishes the first record that waits. Where memory is out it still waits, or the publisher
/// keeps it.
fn publish_first<J: Publication, R: Wait>(
    rt: &R,
    publisher: &mut Publisher<J>,
    waiting: &mut VecDeque<SyncRecord>,
) -> Result<(), NoMemory>
    requires open { is_ended publisher.old.newest ≡ false }
    requires ready { AreReady J.start (records_of publisher.old.newest ++ waiting.old.items) }
    requires some { 0 < length waiting.old.items }
    ensures open { is_ended publisher.new.newest ≡ false }
    ensures records { records_of publisher.new.newest ++ waiting.new.items
        ≡ records_of publisher.old.newest ++ waiting.old.items }
    ensures one { OnOk result (length waiting.new.items + 1 ≡ length waiting.old.items) }
    ensures published { OnOk result (publisher.new.published ≡ publisher.new.newest) }
    ensures kept { OnErr result (publisher.new.published ≡ publisher.old.published) }
    ensures later { publisher.old.refusals ≤ publisher.new.refusals }
    ensures cause { OnErr result (Rose publisher.old.refusals publisher.new.refusals) }
{
    let Some(next) = waiting.pop_front() else {
        return Ok(());
    };
    match publisher.push_and_publish(rt, next) {
        Ok(_) => Ok(()),
        Err(PublishFault::NoMemoryPending(refused)) => Err(refused),
        Err(PublishFault::NoMemoryBack(next, refused)) => {
            let _ = waiting.push_front(next);
            Err(refused)
        }
    }
}

/// Publishes the records that wait, in order. Where memory is out those that are left still wait,
/// or the publisher keeps them. It is out only where it was for the publisher.
pub(crate) fn publish_all<J: Publication, R: Wait>(
    rt: &R,
    publisher: &mut Publisher<J>,
    waiting: &mut VecDeque<SyncRecord>,
) -> Result<(), NoMemory>
    requires open { is_ended publisher.old.newest ≡ false }
    requires ready { AreReady J.start (records_of publisher.old.newest ++ waiting.old.items) }
    ensures open { is_ended publisher.new.newest ≡ false }
    ensures records { records_of publisher.new.newest ++ waiting.new.items
        ≡ records_of publisher.old.newest ++ waiting.old.items }
    ensures all { OnOk result (waiting.new.items ≡ []) }
    ensures published { OnOk result (0 < length waiting.old.items
        → publisher.new.published ≡ publisher.new.newest) }
    ensures later { publisher.old.refusals ≤ publisher.new.refusals }
    ensures cause { OnErr result (Rose publisher.old.refusals publisher.new.refusals) }
{
    for turn in 0..waiting.len() {
        publish_first(rt, publisher, waiting)?;
    }
    Ok(())
}
