//! Events.
ghost use Rattle.std.specs.Prelude.{◌≡◌, [], ◌∷◌, Ok};
ghost use Rattle.kp_json.specs.Views.{place_of};
ghost use Rattle.kp_event_defs.specs.EventText.{apply_at, delete_at, watched, kinded, list_events, read_events};
ghost use Rattle.kp_events.specs.Answers.{GivesEvents, applied_at};

use crate::fault::EventFault;
use crate::kind::{kind_of, kind_text};
use crate::object::{deleted_key, object_of};
use kp_base::Items;
use kp_json::Spot;
use kp_types::Event;
use std::alloc::Global;

/// The events here: an object, which is applied; a watch event; or a List of objects.
pub fn event_of<'a>(alloc: Global, spot: &'a Spot<'a>) -> Result<Items<Event>, EventFault>
    ensures { GivesEvents (λ events. events) result (read_events (place_of spot.now)) }
{
    if !spot.is_object() {
        return Err(EventFault::NotEvent);
    }
    match spot.get("type") {
        None => kinded(alloc, spot),
        Some(kind_of_change) => match spot.get("object") {
            None => kinded(alloc, spot),
            Some(object) => watched(alloc, &kind_of_change, &object),
        },
    }
}

/// The events of a watch event.
fn watched<'a>(
    alloc: Global,
    kind_of_change: &'a Spot<'a>,
    object: &'a Spot<'a>,
) -> Result<Items<Event>, EventFault>
    ensures { GivesEvents (λ events. events) result
        (watched (place_of kind_of_change.now) (place_of object.now)) }
{
    let text = kind_of_change.str_at(alloc)?;
    match text {
        "ADDED" | "MODIFIED" => one(alloc, apply_of(alloc, object)?),
        "DELETED" => one(alloc, delete_of(alloc, object)?),
        "BOOKMARK" => Ok(Items::new(alloc)),
        _ => Err(EventFault::NotEvent),
    }
}

/// The events of an object that has a kind.
fn kinded<'a>(alloc: Global, spot: &'a Spot<'a>) -> Result<Items<Event>, EventFault>
    ensures { GivesEvents (λ events. events) result (kinded (place_of spot.now)) }
{
    let text = kind_text(alloc, spot)?;
    if text == "List" {
        listed(alloc, spot)
    } else {
        one(alloc, apply_of(alloc, spot)?)
    }
}

/// The events of a List.
fn listed<'a>(alloc: Global, spot: &'a Spot<'a>) -> Result<Items<Event>, EventFault>
    ensures { GivesEvents (λ events. events) result (list_events (place_of spot.now)) }
{
    let items = spot.needed(alloc, "items")?;
    apply_each(alloc, &items)
}

fn apply_each<'a>(alloc: Global, list: &'a Spot<'a>) -> Result<Items<Event>, EventFault>
    ensures { GivesEvents (λ events. events) result (applied_at (place_of list.now)) }
{
    let mut events = Vec::new(alloc);
    for element in list.elements(alloc)? {
        events.push(apply_of(alloc, &element)?)?;
    }
    Ok(Items::from_vec(events))
}

fn apply_of<'a>(alloc: Global, spot: &'a Spot<'a>) -> Result<Event, EventFault>
    ensures { GivesEvents (λ event. event) result (apply_at (place_of spot.now)) }
{
    let kind = kind_of(alloc, spot)?;
    let object = object_of(alloc, spot, kind)?;
    Ok(Event::Apply(object))
}

fn delete_of<'a>(alloc: Global, spot: &'a Spot<'a>) -> Result<Event, EventFault>
    ensures { GivesEvents (λ event. event) result (delete_at (place_of spot.now)) }
{
    let kind = kind_of(alloc, spot)?;
    let key = deleted_key(alloc, spot, kind)?;
    Ok(Event::Delete { kind, key })
}

fn one(alloc: Global, event: Event) -> Result<Items<Event>, EventFault>
    ensures { GivesEvents (λ events. events) result (Ok (event ∷ [])) }
{
    let mut events = Vec::new(alloc);
    events.push(event)?;
    Ok(Items::from_vec(events))
}
