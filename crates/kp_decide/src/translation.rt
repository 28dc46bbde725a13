//! The translation of a packet: its door, what that offers, and the endpoint that is chosen.
ghost use Rattle.std.specs.Prelude.{◌≡◌, ℕ, true, cond, option_map, slice_get, Some};
ghost use Rattle.std.specs.Prelude.{IfNone, IfSome, OnErr, OnOk};
ghost use Rattle.kp_choice_defs.specs.Names.{endpoint_chain_name};
ghost use Rattle.kp_choice_defs.specs.Settings.{setting_of};
ghost use Rattle.kp_door_defs.specs.Decision as spec;
ghost use Rattle.kp_decide.specs.Looked.{IsPlaced, IsNewAt, looked_among, looked_at, set_if};
ghost use Rattle.kp_decide.specs.Picks.{with_pick};
ghost use Rattle.kp_decide.specs.Told.{translation_told};

use crate::choice::{Choice, chosen_endpoint};
use crate::doors::{Door, Taking, taking_door};
use crate::looks::Looks;
use crate::offers::{Offer, offer_of};
use crate::picks::Picker;
use crate::sources::PortRow;
use kp_base::{Config, Family, NoMemory};
use kp_types::Packet;

/// The translation of a packet: its door, what that offers, and the endpoint that is chosen.
#[derive(Drop)]
pub struct Translation<'a> {
    pub door: Door<'a>,
    pub offer: Offer<'a>,
    pub choice: Choice,
}

/// A translation, and the place of its port in its row.
#[derive(Drop)]
pub struct Placed<'a> {
    pub port: usize,
    pub translation: Translation<'a>,
}

/// The translation of a packet by the first door that takes it. The recent lists are looked at, and
/// no source is set yet.
pub fn translation_of<'a, R: PortRow, P: Picker, L: Looks>(
    family: Family,
    config: &Config,
    ports: &'a R,
    number: u64,
    packet: &Packet,
    picker: &P,
    lists: &mut L,
) -> Option<Placed<'a>>
    requires stated { P.is_stated picker.now }
    requires names { R.name_length ports.now ≡ config.now.name_length }
    ensures translation { (drawn : ℕ → ℕ) → P.are_draws picker.now number drawn →
        option_map (λ p. p.translation) result ≡ option_map translation_told (spec.translation_of
        (with_pick P.pick (setting_of family config.now)) (R.infos ports.now)
        packet.entry.now drawn (L.lists lists.old)) }
    ensures placed { IfSome result
        (λ p. IsPlaced (R.infos ports.now) p.port p.translation) }
    ensures none { IfNone result (L.lists lists.new ≡ L.lists lists.old) }
    ensures lists { L.lists lists.new ≡ cond L.changes
        (looked_among (setting_of family config.now) (R.infos ports.now) packet.entry.now
        (L.lists lists.old)) (L.lists lists.old) }
{
    match taking_door(family, config, ports, packet) {
        Some(Taking { port, door }) => {
            translation_at(
                family, config, ports, number, packet, picker, lists, port, door,
            )
        }
        None => None,
    }
}

/// The translation at a door.
fn translation_at<'a, R: PortRow, P: Picker, L: Looks>(
    family: Family,
    config: &Config,
    ports: &R,
    number: u64,
    packet: &Packet,
    picker: &P,
    lists: &mut L,
    port: usize,
    door: Door<'a>,
) -> Option<Placed<'a>>
    requires stated { P.is_stated picker.now }
    requires names { R.name_length ports.now ≡ config.now.name_length }
    requires port { slice_get (R.infos ports.now) port ≡ Some door.info }
    ensures translation { (drawn : ℕ → ℕ) → P.are_draws picker.now number drawn →
        option_map (λ p. p.translation) result ≡ option_map translation_told (spec.translation_at
        (with_pick P.pick (setting_of family config.now))
        packet.entry.now drawn (L.lists lists.old) door.entry) }
    ensures placed { IfSome result
        (λ p. IsPlaced (R.infos ports.now) p.port p.translation) }
    ensures none { IfNone result (L.lists lists.new ≡ L.lists lists.old) }
    ensures lists { L.lists lists.new ≡ cond L.changes
        (looked_at (setting_of family config.now) packet.entry.now (L.lists lists.old)
        (Some door.entry)) (L.lists lists.old) }
{
    let offer = offer_of(family, config, packet, &door);
    match chosen_endpoint(
        ports,
        port,
        door.info,
        offer.kind,
        offer.endpoints,
        number,
        packet,
        picker,
        lists,
    ) {
        Some(choice) => Some(Placed {
            port,
            translation: Translation {
                door,
                offer,
                choice,
            },
        }),
        None => None,
    }
}

/// Sets a packet's source in the recent list of the endpoint that it goes to, where its port has
/// affinity and lists are changed. Without memory nothing changes, and the list lacks the source.
pub fn remember<R: PortRow, L: Looks>(
    ports: &R,
    packet: &Packet,
    placed: &Placed<'_>,
    lists: &mut L,
) -> Result<(), NoMemory>
    requires { IsPlaced (R.infos ports.now) placed.now.port placed.now.translation }
    ensures ok { OnOk result (L.lists lists.new ≡ cond L.changes
        (set_if placed.now.translation.door.info.affinity
        (endpoint_chain_name (R.name_length ports.now) placed.now.translation.door.info.key
        placed.now.translation.choice.endpoint)
        packet.entry.now.source packet.entry.now.now (L.lists lists.old)) (L.lists lists.old)) }
    ensures err { OnErr result (L.lists lists.new ≡ L.lists lists.old) }
    ensures set { OnErr result (IsNewAt L.changes (R.name_length ports.now)
        placed.now.translation packet.entry.now.source (L.lists lists.old)) }
{
    let Translation {
        door,
        offer,
        choice,
    } = &placed.translation;
    if !lists.are_changed() || door.info.affinity.is_none() {
        return Ok(());
    }
    let name = ports.name(
        placed.port,
        door.info,
        offer.kind,
        choice.place.saturating_sub(1) as usize,
        &choice.endpoint,
    );
    lists.set(&name, &packet.source, packet.now)
}
