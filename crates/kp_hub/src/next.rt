//! One event, from the queue into the journal.
ghost use Rattle.std.specs.Prelude.{◌≡◌, ◌<◌, ◌++◌, ◌∷◌, [], List, None, length};
ghost use Rattle.std.specs.Prelude.{IfNone, IfSome, IfErr, OnOk, OnErr};
ghost use Rattle.std.specs.Option.{option_to_list};
ghost use mathlib.Core.List.{IsPrefix};
ghost use Rattle.kp_feed.specs.Feeding.{AreWhole};
ghost use Rattle.kp_history_defs.specs.declared.fed.Fed.{Fed};
ghost use Rattle.kp_plane.specs.Parts.{with_events};
ghost use Rattle.kp_hub.specs.Taken.{fed_of};

use crate::notes::Origin;
use kp_base::NoMemory;
use kp_feed::{Fed, Feed, TakePass};
use kp_plane::{JournalFault, Plane};
use std::sync::Wait;

/// The event that waits, or else the front of the queue. Where there is none, all was taken.
pub(crate) fn next<R: Wait>(
    rt: &R,
    feed: &Feed,
    taker: &mut TakePass,
    waits: &mut Option<Fed>,
) -> Option<Fed>
    requires queue { taker.old.queue ≡ feed.now }
    ensures next { IfSome result (λ f. (journal : List Fed)
        → taker.old.taken ≡ journal ++ option_to_list waits.old
        → taker.new ≡ record taker.old { taken = journal ++ f ∷ [] }) }
    ensures grows { IsPrefix taker.old.taken taker.new.taken }
    ensures none { IfNone result (taker.new ≡ taker.old) }
    ensures waited { IfNone result (waits.old ≡ None) }
    ensures whole { IfNone result (AreWhole taker.old.taken taker.old.ended taker.old.feeders) }
    ensures waits { waits.new ≡ None }
{
    match waits.take() {
        Some(fed) => Some(fed),
        None => feed.take(rt, taker),
    }
}

/// Accepts an event, for which the journal has room, and keeps who fed it. Where memory is out it
/// comes back, and all stays.
pub(crate) fn accept(
    plane: &mut Plane,
    origins: &mut Vec<Origin>,
    fed: Fed,
) -> Result<(), (NoMemory, Fed)>
    requires origins { length origins.old.items ≡ length plane.old.events }
    requires room { length plane.old.events < plane.old.config.max_events }
    ensures plane { OnOk result (plane.new ≡ with_events plane.old (fed.event ∷ [])) }
    ensures journal { OnOk result (fed_of origins.new.items plane.new.events
        ≡ fed_of origins.old.items plane.old.events ++ fed ∷ []) }
    ensures stays { OnErr result (plane.new ≡ plane.old) }
    ensures kept { OnErr result (origins.new.items ≡ origins.old.items) }
    ensures back { IfErr result (λ e. e.1 ≡ fed) }
    ensures as_many { length origins.new.items ≡ length plane.new.events }
{
    if let Err(refused) = origins.reserve(1) {
        return Err((NoMemory::from(refused), fed));
    }
    let Fed {
        feeder,
        number,
        event,
    } = fed;
    match plane.accept_one(event) {
        Ok(()) => {
            origins.push_reserved(Origin { feeder, number });
            Ok(())
        }
        Err((JournalFault::JournalFull { count: _ }, _)) => unreachable!(),
        Err((JournalFault::NoMemory(refused), event)) => {
            let back = Fed {
                feeder,
                number,
                event,
            };
            Err((refused, back))
        }
    }
}
