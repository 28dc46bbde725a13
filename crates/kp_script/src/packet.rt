//! Lines that send or explain a packet.
ghost use Rattle.std.specs.Prelude.{◌≡◌, ◌<◌, ◌^◌, codes, option_map, unwrap_or, IfOk, IfSome, Some};
ghost use Rattle.kp_json.specs.Views.{place_of};
ghost use Rattle.kp_row_defs.specs.Fields.{address_in, chosen, text_in, texts_of, whole_in};
ghost use Rattle.kp_row_defs.specs.Reads.{Reads};
ghost use Rattle.kp_row_defs.specs.Rows.{address_like, address_text, choice, each_up_to, field_fault, list_fault, needed, optional, row_fault, rows_fault, whole};
ghost use Rattle.kp_text_defs.specs.ListedDraws.{AreLow, listed};
ghost use Rattle.kp_text_defs.specs.PacketText.{draw_from, draw_list, draw_rows, draws_of, listed_in, origins, packet_line_from, packet_rows};

use crate::config::flag_or;
use kp_base::{Address, Items};
use kp_fields::{
    address_here, choice_field, needed_address, needed_port, proto_field, whole_field,
};
use kp_json::{FieldFault, Spot, Why};
use kp_text_defs::{Draws, PacketLine};
use kp_types::{Origin, Packet};
use std::alloc::Global;

/// The most draws that a line lists.
const MAX_DRAWS: u64 = 1000;

/// A packet and what stands beside it.
pub(crate) fn packet_of<'a>(alloc: Global, spot: &'a Spot<'a>) -> Result<PacketLine, FieldFault>
    ensures { Reads (λ p. p) result (rows_fault packet_rows (place_of spot.now))
        (packet_line_from (place_of spot.now)) }
{
    let from = origin_field(alloc, spot)?;
    let source = needed_address(alloc, spot, "src")?;
    let target = target_field(alloc, spot, source)?;
    let proto = proto_field(alloc, spot, "proto")?;
    let source_port = source_port_field(alloc, spot)?;
    let port = needed_port(alloc, spot, "dport")?;
    let now = now_field(alloc, spot)?;
    let list = draws_field(alloc, spot)?;
    let seed = whole_field(alloc, spot, "seed", 0, u64::MAX)?;
    let trail = flag_or(alloc, spot, "trail", false)?;
    let draws = draws_of(alloc, list, seed);
    Ok(PacketLine {
        packet: Packet {
            from,
            source,
            target,
            proto,
            port,
            now,
        },
        source_port,
        draws,
        trail,
    })
}

/// The moment of a packet, which is 0 where none is given.
fn now_field<'a>(alloc: Global, spot: &'a Spot<'a>) -> Result<u64, FieldFault>
    ensures { Reads (λ n. n) result
        (field_fault (codes "now") optional (whole 0 18446744073709551615) (place_of spot.now))
        (unwrap_or (whole_in (codes "now") (place_of spot.now)) 0) }
{
    let now = whole_field(alloc, spot, "now", 0, u64::MAX)?;
    Ok(now.unwrap_or(0))
}

fn origin_field<'a>(alloc: Global, spot: &'a Spot<'a>) -> Result<Origin, FieldFault>
    ensures { Reads (λ o. o) result
        (field_fault (codes "from") optional (choice (texts_of origins)) (place_of spot.now))
        (chosen origins Origin.Wire (text_in (codes "from") (place_of spot.now))) }
{
    let text = choice_field(alloc, spot, "from", &["wire", "node"])?;
    Ok(origin_of(text))
}

fn origin_of(text: Option<&str>) -> Origin
    ensures { result ≡ chosen origins Origin.Wire (option_map (λ t. t.now) text.entry) }
{
    match text {
        Some("node") => Origin::Node,
        _ => Origin::Wire,
    }
}

/// The destination's address, which is of the family of the source's.
fn target_field<'a>(
    alloc: Global,
    spot: &'a Spot<'a>,
    source: Address,
) -> Result<Address, FieldFault>
    requires { address_in (codes "src") (place_of spot.now) ≡ Some source }
    ensures { Reads Some result
        (row_fault (address_like (codes "dst") (codes "src")) (place_of spot.now))
        (address_in (codes "dst") (place_of spot.now)) }
{
    let member = spot.needed(alloc, "dst")?;
    let target = address_here(alloc, &member)?;
    if target.family() != source.family() {
        return Err(member.bad(alloc, Why::BadAddress));
    }
    Ok(target)
}

/// The source's port, which is 0 where none is given.
fn source_port_field<'a>(alloc: Global, spot: &'a Spot<'a>) -> Result<u16, FieldFault>
    ensures { Reads (λ n. n) result
        (field_fault (codes "sport") optional (whole 0 65535) (place_of spot.now))
        (unwrap_or (whole_in (codes "sport") (place_of spot.now)) 0) }
{
    match whole_field(alloc, spot, "sport", 0, 65535)? {
        None => Ok(0),
        Some(port) => Ok(port as u16),
    }
}

/// The list of draws, if there is one.
fn draws_field<'a>(alloc: Global, spot: &'a Spot<'a>) -> Result<Option<Items<u32>>, FieldFault>
    ensures draws { Reads (λ d. d) result
        (row_fault (each_up_to 1000 (codes "draws") draw_rows) (place_of spot.now))
        (listed_in (place_of spot.now)) }
    ensures low { IfOk result (λ list. IfSome list (λ draws. AreLow draws)) }
{
    match spot.field(alloc, "draws")? {
        None => Ok(None),
        Some(list) => {
            let count = list.list_len(alloc)?;
            if count > MAX_DRAWS {
                return Err(list.too_many(alloc, count));
            }
            Ok(Some(draws_here(alloc, &list)?))
        }
    }
}

fn draws_here<'a>(alloc: Global, list: &'a Spot<'a>) -> Result<Items<u32>, FieldFault>
    ensures draws { Reads (λ d. d) result
        (list_fault (rows_fault draw_rows) (place_of list.now))
        (draw_list (place_of list.now)) }
    ensures low { IfOk result (λ draws. AreLow draws) }
{
    let mut draws = Vec::new(alloc);
    for element in list.elements(alloc)? {
        draws.push(draw_of(alloc, &element)?)?;
    }
    Ok(Items::from_vec(draws))
}

fn draw_of(alloc: Global, spot: &Spot<'_>) -> Result<u32, FieldFault>
    ensures draw { Reads (λ d. d) result (rows_fault draw_rows (place_of spot.now))
        (draw_from (place_of spot.now)) }
    ensures low { IfOk result (λ draw. draw < 2 ^ 31) }
{
    let number = spot.whole_at(alloc, 0, 2147483647)?;
    Ok(number as u32)
}

/// The listed draws, or else those of the seed, or else none.
fn draws_of(alloc: Global, list: Option<Items<u32>>, seed: Option<u64>) -> Draws
    ensures draws { result ≡ draws_of list seed }
    ensures low { IfSome list (λ draws. AreLow draws) → AreLow (listed result) }
{
    match list {
        Some(list) => Draws::List(list),
        None => match seed {
            Some(seed) => Draws::Seed(seed),
            None => Draws::List(Items::new(alloc)),
        },
    }
}
