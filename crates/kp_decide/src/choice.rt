//! The choice of an endpoint: by session affinity, or else by draws.
ghost use Rattle.std.specs.Prelude.{◌≡◌, ℕ, ◌-◌, length, cond, slice_get, option_map, [], Some};
ghost use Rattle.std.specs.Prelude.{IfNone, IfSome};
ghost use Rattle.kp_base.specs.declared.address.Family.{Family};
ghost use Rattle.kp_base.specs.declared.config.Config.{Config};
ghost use Rattle.kp_choice_defs.specs.Names.{endpoint_chain_name};
ghost use Rattle.kp_choice_defs.specs.Recent as recent;
ghost use Rattle.kp_choice_defs.specs.Settings.{setting_of};
ghost use Rattle.kp_door_defs.specs.Choice as spec;
ghost use Rattle.kp_decide.specs.Looked.{IsOf, looked};
ghost use Rattle.kp_decide.specs.Picks.{with_pick};
ghost use Rattle.kp_decide.specs.Told.{choice_of};

use crate::looks::Looks;
use crate::picks::Picker;
use crate::sources::PortRow;
use kp_base::Endpoint;
use kp_types::{ChosenBy, ListKind, Packet, PortInfo};

/// An endpoint of a list at its place, from 1, and how it was chosen.
#[derive(Clone, Copy)]
pub struct Choice {
    pub endpoint: Endpoint,
    pub place: u64,
    pub by: ChosenBy,
}

/// The endpoint of a list of the port at a place that a packet goes to, which no family's setting
/// changes.
pub fn chosen_endpoint<R: PortRow, P: Picker, L: Looks>(
    ports: &R,
    port: usize,
    info: &PortInfo,
    list: ListKind,
    endpoints: &[Endpoint],
    number: u64,
    packet: &Packet,
    picker: &P,
    lists: &mut L,
) -> Option<Choice>
    requires stated { P.is_stated picker.now }
    requires port { slice_get (R.infos ports.now) port ≡ Some info.now }
    requires offer { IsOf info.now (record { kind = list; endpoints = endpoints.now }) }
    ensures choice { (family : Family) (config : Config) (drawn : ℕ → ℕ) →
        R.name_length ports.now ≡ config.name_length → P.are_draws picker.now number drawn →
        result ≡ option_map choice_of (spec.chosen_endpoint
        (with_pick P.pick (setting_of family config)) info.now.key info.now.affinity
        packet.entry.now.source packet.entry.now.now drawn endpoints.now
        (L.lists lists.old)) }
    ensures placed { IfSome result
        (λ c. slice_get endpoints.now (c.place - 1) ≡ Some c.endpoint) }
    ensures none { IfNone result (L.lists lists.new ≡ L.lists lists.old) }
    ensures lists { L.lists lists.new ≡ cond L.changes
        (looked (endpoint_chain_name (R.name_length ports.now) info.now.key) info.now.affinity
        packet.entry.now.source packet.entry.now.now endpoints.now (L.lists lists.old))
        (L.lists lists.old) }
{
    match info.affinity {
        Some(seconds) => match live_endpoint(
            ports, port, info, list, endpoints, packet, seconds, lists,
        ) {
            Some((endpoint, place)) => Some(Choice {
                endpoint,
                place: place as u64 + 1,
                by: ChosenBy::Affinity,
            }),
            None => picked(number, picker, endpoints),
        },
        None => picked(number, picker, endpoints),
    }
}

/// The first endpoint, and its place, whose recent list has the packet's source within the timeout.
fn live_endpoint<R: PortRow, L: Looks>(
    ports: &R,
    port: usize,
    info: &PortInfo,
    list: ListKind,
    endpoints: &[Endpoint],
    packet: &Packet,
    seconds: u32,
    lists: &mut L,
) -> Option<(Endpoint, usize)>
    requires port { slice_get (R.infos ports.now) port ≡ Some info.now }
    requires offer { IsOf info.now (record { kind = list; endpoints = endpoints.now }) }
    ensures found { result ≡ (spec.live_endpoint
        (endpoint_chain_name (R.name_length ports.now) info.now.key)
        packet.entry.now.source packet.entry.now.now seconds 0 endpoints.now
        (L.lists lists.old)).found }
    ensures placed { IfSome result
        (λ found. slice_get endpoints.now found.1 ≡ Some found.0) }
    ensures lists { L.lists lists.new ≡ cond L.changes
        (spec.live_endpoint (endpoint_chain_name (R.name_length ports.now) info.now.key)
        packet.entry.now.source packet.entry.now.now seconds 0 endpoints.now
        (L.lists lists.old)).lists (L.lists lists.old) }
{
    for place in 0..endpoints.len() {
        let endpoint = endpoints[place];
        let name = ports.name(port, info, list, place, &endpoint);
        if lists.look(&name, &packet.source, packet.now, seconds) {
            return Some((endpoint, place));
        }
    }
    None
}

/// The endpoint of a list that is picked by draws, if it has any.
fn picked<P: Picker>(number: u64, picker: &P, endpoints: &[Endpoint]) -> Option<Choice>
    requires { P.is_stated picker.now }
    ensures choice { (drawn : ℕ → ℕ) → P.are_draws picker.now number drawn →
        (lists : recent.RecentParts) → result ≡ option_map choice_of
        (spec.drawn_at endpoints.now (P.pick drawn (length endpoints.now)) lists) }
    ensures placed { IfSome result
        (λ c. slice_get endpoints.now (c.place - 1) ≡ Some c.endpoint) }
    ensures none { IfNone result (endpoints.now ≡ []) }
{
    if endpoints.is_empty() {
        return None;
    }
    let place = picker.place(number, endpoints.len() as u64) as usize;
    Some(Choice {
        endpoint: endpoints[place],
        place: place as u64 + 1,
        by: ChosenBy::Draws,
    })
}
