//! The kind of an object.
ghost use Rattle.std.specs.Prelude.{◌≡◌, bytes_eq, option_map, Err};
ghost use Rattle.std.specs.Map.{lookup};
ghost use Rattle.kp_json.specs.Views.{place_of};
ghost use Rattle.kp_event_defs.specs.EventText.{kind_text, kinds, kind_at, unsupported, with_version};
ghost use Rattle.kp_types.specs.declared.event.Kind.{Kind as SpecKind};
ghost use Rattle.kp_events.specs.Answers.{GivesEvents, Told};

use crate::fault::EventFault;
use kp_base::Text;
use kp_json::Spot;
use kp_types::Kind;
use std::alloc::Global;

/// The text of an object's kind.
pub(crate) fn kind_text<'a>(alloc: Global, spot: &'a Spot<'a>) -> Result<&'a str, EventFault>
    ensures { GivesEvents (λ t. t.now) result (kind_text (place_of spot.now)) }
{
    match spot.field(alloc, "kind")? {
        None => Err(EventFault::NotEvent),
        Some(kind) => Ok(kind.str_at(alloc)?),
    }
}

/// The kind of an object whose kind and version are read.
pub(crate) fn kind_of<'a>(alloc: Global, spot: &'a Spot<'a>) -> Result<Kind, EventFault>
    ensures { GivesEvents (λ k. k) result (kind_at (place_of spot.now)) }
{
    let text = kind_text(alloc, spot)?;
    match known_kind(text) {
        None => Err(unsupported(alloc, text)),
        Some((kind, version)) => kind_with_version(alloc, spot, text, kind, version),
    }
}

fn known_kind(text: &str) -> Option<(Kind, &'static str)>
    ensures { option_map (λ row. (row.0, row.1.now)) result ≡ lookup (bytes_eq text.now) kinds }
{
    match text {
        "Service" => Some((Kind::Service, "v1")),
        "Pod" => Some((Kind::Pod, "v1")),
        "Node" => Some((Kind::Node, "v1")),
        "EndpointSlice" => Some((Kind::EndpointSlice, "discovery.k8s.io/v1")),
        _ => None,
    }
}

/// The kind, if the object's version is this one or absent.
fn kind_with_version<'a>(
    alloc: Global,
    spot: &'a Spot<'a>,
    text: &str,
    kind: Kind,
    version: &str,
) -> Result<Kind, EventFault>
    ensures { GivesEvents (λ k. k) result
        (with_version (place_of spot.now) text.now (kind, version.now)) }
{
    match spot.field(alloc, "apiVersion")? {
        None => Ok(kind),
        Some(found) => {
            if found.str_at(alloc)? == version {
                Ok(kind)
            } else {
                Err(unsupported(alloc, text))
            }
        }
    }
}

fn unsupported(alloc: Global, text: &str) -> EventFault
    ensures { Told {Y = SpecKind} result (Err (unsupported text.now)) }
{
    match Text::of(alloc, text) {
        Ok(kind) => EventFault::UnsupportedKind { kind },
        Err(refused) => EventFault::NoMemory(refused),
    }
}
