//! All paths of a packet: one for each place of the list that draws pick from.
ghost use Rattle.std.specs.Prelude.{◌≡◌, ◌<◌, ◌-◌, ◌^◌, ◌++◌, OnErr, OnOk, string_bytes};
ghost use Rattle.kp_types.specs.Setting.{config_for};
ghost use Rattle.kp_path_defs.specs.Chances.{whole};
ghost use Rattle.kp_print.specs.Fronts.{HasFront};
ghost use Rattle.kp_paths.specs.Places as spec;

use crate::chances::{WHOLE, chance_at};
use crate::routes::{Stand, picked, push_route};
use kp_base::{Endpoint, Family, NoMemory};
use kp_decide::{ChosenBy, Picker, PortSource, Translation};
use kp_types::Packet;
use std::alloc::Global;

/// The first place is picked, whatever the draws.
pub(crate) struct FirstPlace;

impl Picker for FirstPlace {
    ghost use Rattle.std.specs.Prelude.{⊤};
    ghost use Rattle.kp_path_defs.specs.Paths.{pick_place};

    ghost pick = { pick_place 0 };

    ghost is_stated = { λ _. ⊤ };

    ghost are_draws = { λ _ _ _. ⊤ };

    fn place(&self, _number: u64, _n: u64) -> u64 {
        0
    }
}

/// Adds the paths of a packet that is translated, by the translation at the first place.
pub(crate) fn push_routes<S: PortSource>(
    alloc: Global,
    family: Family,
    source: &S,
    number: u64,
    packet: &Packet,
    translation: &Translation<'_>,
    text: &mut String,
) -> Result<(), NoMemory>
    ensures added { OnOk result (string_bytes text.new ≡ string_bytes text.old
        ++ spec.routes_text (config_for family (S.config source.now)) (S.infos source.now family)
        number packet.entry.now translation.now) }
    ensures front { OnErr result (HasFront text.new text.old) }
{
    match translation.choice.by {
        ChosenBy::Affinity => {
            let stand = Stand {
                number,
                place: 1,
                count: 1,
                chance: WHOLE,
            };
            push_route(alloc, family, source, stand, packet, translation, text)
        }
        ChosenBy::Draws => push_places(
            alloc,
            family,
            source,
            number,
            packet,
            translation,
            translation.offer.endpoints,
            text,
        ),
    }
}

/// Adds the path of each place of a list of endpoints.
fn push_places<S: PortSource>(
    alloc: Global,
    family: Family,
    source: &S,
    number: u64,
    packet: &Packet,
    translation: &Translation<'_>,
    endpoints: &[Endpoint],
    text: &mut String,
) -> Result<(), NoMemory>
    ensures added { OnOk result (string_bytes text.new ≡ string_bytes text.old
        ++ spec.places_from (spec.place_text (config_for family (S.config source.now))
        (S.infos source.now family) number packet.entry.now translation.now) whole 0
        endpoints.now) }
    ensures front { OnErr result (HasFront text.new text.old) }
{
    let count = endpoints.len();
    let mut left = WHOLE;
    for place in 0..count {
        let chance = chance_at(left, (count - place) as u64);
        let endpoint = endpoints[place];
        push_place(
            alloc,
            family,
            source,
            number,
            packet,
            translation,
            chance,
            place,
            endpoint,
            text,
        )?;
        left = left.saturating_sub(chance);
    }
    Ok(())
}

/// Adds the path of a place of a list, from 0, by its chance.
fn push_place<S: PortSource>(
    alloc: Global,
    family: Family,
    source: &S,
    number: u64,
    packet: &Packet,
    translation: &Translation<'_>,
    chance: u64,
    place: usize,
    endpoint: Endpoint,
    text: &mut String,
) -> Result<(), NoMemory>
    requires { place < 2 ^ 64 - 1 }
    ensures added { OnOk result (string_bytes text.new ≡ string_bytes text.old
        ++ spec.place_text (config_for family (S.config source.now)) (S.infos source.now family)
        number packet.entry.now translation.now chance place endpoint) }
    ensures front { OnErr result (HasFront text.new text.old) }
{
    let stand = Stand {
        number,
        place: place as u64 + 1,
        count: translation.offer.endpoints.len() as u64,
        chance,
    };
    let route = picked(translation, place, endpoint);
    push_route(alloc, family, source, stand, packet, &route, text)
}
