//! The members of a packet's line.
ghost use Rattle.std.specs.Prelude.{◌≡◌, ◌≤◌, false, codes, is_some, option_map, unwrap_or, IfErr, IfOk, IfSome, Some};
ghost use Rattle.serde_json.specs.Data.{string};
ghost use Rattle.serde_json.specs.Find.{get_member};
ghost use Rattle.kp_base.specs.Six.{any_address_of};
ghost use Rattle.kp_row_defs.specs.Fields.{address_in, chosen, flag_in, protocols, text_in, texts_of, whole_in};
ghost use Rattle.kp_row_defs.specs.Rows.{address_like, address_text, choice, field_fault, is_address_like, needed, optional, row_fault, truth_value, whole};
ghost use Rattle.kp_text_defs.specs.PacketText.{origins};
ghost use Rattle.kp_packet_lines.specs.Plain.{members_in};
ghost use Rattle.kp_packet_lines.specs.Taken.{Takes, place_of};
ghost use Rattle.kp_packet_lines.specs.declared.untaken.Untaken.TheVariants.{Unread};

use crate::object::{Plain, PlainObject};
use crate::untaken::{Untaken, refused};
use kp_base::{Address, PortNo, Proto};
use kp_json::Why;
use kp_types::Origin;
use std::alloc::Global;

/// A text that isn't empty, or nothing where no member has the name.
pub(crate) fn text_field<'a>(
    object: &PlainObject<'a>,
    name: &str,
) -> Result<Option<&'a str>, Untaken>
    ensures member { IfOk result (λ t. get_member name.now (members_in object.now)
        ≡ option_map (λ s. string s.now) t) }
    ensures text { IfOk result (λ t. text_in name.now (place_of object.now)
        ≡ option_map (λ s. s.now) t) }
    ensures unread { IfErr result (λ why. why ≡ Unread) }
{
    match object.member(name) {
        None => Ok(None),
        Some(Plain::Text(text)) if !text.is_empty() => Ok(Some(*text)),
        Some(_) => Err(Untaken::Unread),
    }
}

/// A whole number within bounds, or nothing where no member has the name.
fn whole_field(
    object: &PlainObject<'_>,
    name: &str,
    least: u64,
    most: u64,
) -> Result<Option<u64>, Untaken>
    ensures number { Takes (λ n. n) result
        (field_fault name.now optional (whole least most) (place_of object.now))
        (whole_in name.now (place_of object.now)) }
    ensures bounds { IfOk result (λ o. IfSome o (λ n. (least ≤ n) × (n ≤ most))) }
    ensures unread { IfErr result (λ why. why ≡ Unread) }
{
    match object.member(name) {
        None => Ok(None),
        Some(Plain::Whole(number)) if least <= *number && *number <= most => Ok(Some(*number)),
        Some(_) => Err(Untaken::Unread),
    }
}

/// The source's port, which is 0 where none is given.
pub(crate) fn source_port(object: &PlainObject<'_>) -> Result<u16, Untaken>
    ensures { Takes (λ n. n) result
        (field_fault (codes "sport") optional (whole 0 65535) (place_of object.now))
        (unwrap_or (whole_in (codes "sport") (place_of object.now)) 0) }
{
    match whole_field(object, "sport", 0, 65535)? {
        None => Ok(0),
        Some(port) => Ok(port as u16),
    }
}

/// The seed of the draws. A fault of it is not told, since draws stand before it.
pub(crate) fn seed(object: &PlainObject<'_>) -> Result<Option<u64>, Untaken>
    ensures seed { Takes (λ n. n) result
        (field_fault (codes "seed") optional (whole 0 18446744073709551615)
        (place_of object.now)) (whole_in (codes "seed") (place_of object.now)) }
    ensures unread { IfErr result (λ why. why ≡ Unread) }
{
    whole_field(object, "seed", 0, u64::MAX)
}

/// The moment, which is 0 where none is given.
pub(crate) fn moment(object: &PlainObject<'_>) -> Result<u64, Untaken>
    ensures { Takes (λ n. n) result
        (field_fault (codes "now") optional (whole 0 18446744073709551615)
        (place_of object.now)) (unwrap_or (whole_in (codes "now") (place_of object.now)) 0) }
{
    let now = whole_field(object, "now", 0, u64::MAX)?;
    Ok(now.unwrap_or(0))
}

/// The destination port.
pub(crate) fn target_port(alloc: Global, object: &PlainObject<'_>) -> Result<PortNo, Untaken>
    ensures { Takes (λ n. n) result
        (field_fault (codes "dport") needed (whole 1 65535) (place_of object.now))
        (unwrap_or (whole_in (codes "dport") (place_of object.now)) 0) }
{
    match object.member("dport") {
        None => Err(refused(alloc, Why::Missing, "dport")),
        Some(Plain::Whole(number)) => match PortNo::new(*number) {
            Some(port) => Ok(port),
            None => Err(refused(alloc, Why::OutOfRange, "dport")),
        },
        Some(_) => Err(Untaken::Unread),
    }
}

pub(crate) fn origin(object: &PlainObject<'_>) -> Result<Origin, Untaken>
    ensures { Takes (λ o. o) result
        (field_fault (codes "from") optional (choice (texts_of origins)) (place_of object.now))
        (chosen origins Origin.Wire (text_in (codes "from") (place_of object.now))) }
{
    match text_field(object, "from")? {
        None | Some("wire") => Ok(Origin::Wire),
        Some("node") => Ok(Origin::Node),
        Some(_) => Err(Untaken::Unread),
    }
}

pub(crate) fn proto(object: &PlainObject<'_>) -> Result<Proto, Untaken>
    ensures { Takes (λ p. p) result
        (field_fault (codes "proto") optional (choice (texts_of protocols))
        (place_of object.now))
        (chosen protocols Proto.Tcp (text_in (codes "proto") (place_of object.now))) }
{
    match text_field(object, "proto")? {
        None | Some("TCP") => Ok(Proto::Tcp),
        Some("UDP") => Ok(Proto::Udp),
        Some("SCTP") => Ok(Proto::Sctp),
        Some(_) => Err(Untaken::Unread),
    }
}

/// An address of either family. One of IPv4 is read first, so that it costs no more.
fn address(alloc: Global, object: &PlainObject<'_>, name: &str) -> Result<Address, Untaken>
    ensures { Takes Some result (field_fault name.now needed address_text (place_of object.now))
        (address_in name.now (place_of object.now)) }
{
    match text_field(object, name)? {
        None => Err(refused(alloc, Why::Missing, name)),
        Some(text) => match Address::parse_any(text.as_bytes()) {
            Ok(address) => Ok(address),
            Err(_) => Err(refused(alloc, Why::BadAddress, name)),
        },
    }
}

/// The source's address.
pub(crate) fn source_address(alloc: Global, object: &PlainObject<'_>) -> Result<Address, Untaken>
    ensures { Takes Some result
        (field_fault (codes "src") needed address_text (place_of object.now))
        (address_in (codes "src") (place_of object.now)) }
{
    address(alloc, object, "src")
}

/// The destination's address, which is of the family of the source's.
pub(crate) fn target_address(
    alloc: Global,
    object: &PlainObject<'_>,
    source: Address,
) -> Result<Address, Untaken>
    requires { address_in (codes "src") (place_of object.now) ≡ Some source }
    ensures { Takes Some result
        (row_fault (address_like (codes "dst") (codes "src")) (place_of object.now))
        (address_in (codes "dst") (place_of object.now)) }
{
    match text_field(object, "dst")? {
        None => Err(refused(alloc, Why::Missing, "dst")),
        Some(text) => match like(text.as_bytes(), source) {
            Some(target) => Ok(target),
            None => Err(refused(alloc, Why::BadAddress, "dst")),
        },
    }
}

/// The address that a text writes, if it is of the family of another one.
fn like(text: &[u8], other: Address) -> Option<Address>
    ensures some { IfSome result (λ a. any_address_of text.now ≡ Some a) }
    ensures like { is_some result ≡ is_address_like (Some other) text.now }
{
    let address = Address::parse_any(text).ok()?;
    if address.family() == other.family() {
        Some(address)
    } else {
        None
    }
}

/// Whether the trail is asked for. A fault of it is not told, since draws stand before it.
pub(crate) fn trail(object: &PlainObject<'_>) -> Result<bool, Untaken>
    ensures trail { Takes (λ b. b) result
        (field_fault (codes "trail") optional truth_value (place_of object.now))
        (unwrap_or (flag_in (codes "trail") (place_of object.now)) false) }
    ensures unread { IfErr result (λ why. why ≡ Unread) }
{
    match object.member("trail") {
        None => Ok(false),
        Some(Plain::Flag(flag)) => Ok(*flag),
        Some(_) => Err(Untaken::Unread),
    }
}
