//! One path: where a packet is sent by a translation, and what the filter says there.
ghost use Rattle.std.specs.Prelude.{◌≡◌, ◌<◌, ◌-◌, ◌^◌, ◌++◌, OnErr, OnOk, option_map, string_bytes};
ghost use Rattle.kp_types.specs.Setting.{config_for};
ghost use Rattle.kp_print.specs.Fronts.{HasFront};
ghost use Rattle.kp_paths.specs.Words as words;
ghost use Rattle.kp_paths.specs.Places as spec;

use crate::words::push_decided;
use kp_base::{Endpoint, Family, NoMemory};
use kp_decide::{
    Choice, ChosenBy, Door, Line, Offer, PortSource, Translation, filtered, is_masqueraded, sent_to,
};
use kp_draws::probability_text;
use kp_print::{push, push_labelled};
use kp_types::Packet;
use std::alloc::Global;

/// Where a path stands: the line of its packet, its place from 1, how many paths there are, and its
/// chance.
#[derive(Clone, Copy)]
pub(crate) struct Stand {
    pub number: u64,
    pub place: u64,
    pub count: u64,
    pub chance: u64,
}

/// Adds the path by a translation.
pub(crate) fn push_route<S: PortSource>(
    alloc: Global,
    family: Family,
    source: &S,
    stand: Stand,
    packet: &Packet,
    translation: &Translation<'_>,
    text: &mut String,
) -> Result<(), NoMemory>
    ensures added { OnOk result (string_bytes text.new ≡ string_bytes text.old
        ++ words.path_words stand (words.route_words (config_for family (S.config source.now))
        (S.infos source.now family) packet.entry.now translation.now)) }
    ensures front { OnErr result (HasFront text.new text.old) }
{
    let config = source.config();
    let endpoint = &translation.choice.endpoint;
    let sent = sent_to(packet, endpoint);
    let ports = source.ports_at(alloc, family, &sent)?;
    let line = filtered(config, &ports, &sent);
    let masked = is_masqueraded(family, config, packet, &translation.door, endpoint);
    push_path(text, stand, line.as_ref(), Some(translation), masked)
}

/// Adds the line of a path.
pub(crate) fn push_path(
    text: &mut String,
    stand: Stand,
    line: Option<&Line<'_>>,
    translation: Option<&Translation<'_>>,
    masked: bool,
) -> Result<(), NoMemory>
    ensures added { OnOk result (string_bytes text.new ≡ string_bytes text.old
        ++ words.path_words stand (words.decided_words (option_map (λ l. l.now) line.entry)
        (option_map (λ t. t.now) translation.entry) masked)) }
    ensures front { OnErr result (HasFront text.new text.old) }
{
    push_stand(text, stand)?;
    push_decided(text, line, translation, masked)?;
    push(text, "\n")
}

/// Adds the head of a path's line.
fn push_stand(text: &mut String, stand: Stand) -> Result<(), NoMemory>
    ensures added { OnOk result (string_bytes text.new
        ≡ string_bytes text.old ++ words.stand_words stand) }
    ensures front { OnErr result (HasFront text.new text.old) }
{
    push_place(text, stand)?;
    push(text, " chance ")?;
    push(text, probability_text(stand.chance).as_str())?;
    push(text, ": ")
}

/// Adds the place of a path among all paths of its packet.
fn push_place(text: &mut String, stand: Stand) -> Result<(), NoMemory>
    ensures added { OnOk result (string_bytes text.new
        ≡ string_bytes text.old ++ words.place_words stand) }
    ensures front { OnErr result (HasFront text.new text.old) }
{
    push_labelled(text, "path ", stand.number)?;
    push_labelled(text, " ", stand.place)?;
    push_labelled(text, " of ", stand.count)
}

/// A translation with the endpoint at another place of its list, from 0, picked by draws.
pub(crate) fn picked<'a>(
    translation: &Translation<'a>,
    place: usize,
    endpoint: Endpoint,
) -> Translation<'a>
    requires { place < 2 ^ 64 - 1 }
    ensures { result ≡ spec.picked translation.now place endpoint }
{
    let Translation {
        door,
        offer,
        choice: _,
    } = translation;
    Translation {
        door: Door {
            kind: door.kind,
            info: door.info,
            address: door.address,
            number: door.number,
        },
        offer: Offer {
            kind: offer.kind,
            endpoints: offer.endpoints,
        },
        choice: Choice {
            endpoint,
            place: place as u64 + 1,
            by: ChosenBy::Draws,
        },
    }
}
