//! Addresses and endpoints as texts of a fixed room, which take no memory.
ghost use Rattle.std.specs.Prelude.{◌≡◌, ◌≤◌, ◌<◌, ◌+◌, ◌++◌, decimal};
ghost use Rattle.arrayvec.specs.ArrayString.{array_string_len};
ghost use Rattle.kp_base.specs.declared.address.Family.TheVariants as family;
ghost use Rattle.kp_choice_defs.specs.AddressText as spec;

use crate::groups::push_groups_of;
use arrayvec::ArrayString;
use itoa::Buffer;
use kp_base::{Address, Endpoint, Family};

/// A text with room for every address and every endpoint, of IPv6 too.
pub type AddressText = ArrayString<48>;

/// The text of an address (RFC 6943, 3.1.1; RFC 5952, 4).
pub fn address_text(address: &Address) -> AddressText
    ensures text { result.bytes ≡ spec.address_text address.now }
    ensures short { array_string_len result ≤ 40 }
{
    let mut text = ArrayString::new();
    push_address(&mut text, address);
    text
}

/// The text of an endpoint: its address, an IPv6 one in brackets (RFC 5952, 6), a colon and its
/// port.
pub fn endpoint_text(endpoint: &Endpoint) -> AddressText
    ensures { result.bytes ≡ spec.endpoint_text endpoint.now }
{
    let mut text = ArrayString::new();
    push_host(&mut text, &endpoint.address);
    text.push_str(":");
    push_decimal(&mut text, endpoint.port.get());
    text
}

/// Adds an address as it stands before a port.
fn push_host(text: &mut AddressText, address: &Address)
    requires { array_string_len text.old ≤ 0 }
    ensures text { text.new.bytes ≡ text.old.bytes
        ++ spec.host_text address.now.family (spec.address_text address.now) }
    ensures short { array_string_len text.new ≤ 42 }
{
    match address.family() {
        Family::V4 => push_address(text, address),
        Family::V6 => {
            text.push_str("[");
            push_address(text, address);
            text.push_str("]");
        }
    }
}

/// Adds an address.
fn push_address(text: &mut AddressText, address: &Address)
    requires { array_string_len text.old ≤ 1 }
    ensures text { text.new.bytes ≡ text.old.bytes ++ spec.address_text address.now }
    ensures short { array_string_len text.new ≤ array_string_len text.old + 40 }
{
    match address.family() {
        Family::V4 => push_dotted(text, address.number()),
        Family::V6 => push_groups_of(text, address.number()),
    }
}

/// Adds the IPv4 address with this number.
fn push_dotted(text: &mut AddressText, number: u128)
    requires { array_string_len text.old ≤ 1 }
    ensures text { text.new.bytes ≡ text.old.bytes ++ spec.number_text family.V4 number }
    ensures short { array_string_len text.new ≤ array_string_len text.old + 15 }
{
    push_octet(text, octet(number, 3));
    text.push_str(".");
    push_octet(text, octet(number, 2));
    text.push_str(".");
    push_octet(text, octet(number, 1));
    text.push_str(".");
    push_octet(text, octet(number, 0));
}

/// The byte of a number at a place from its lowest.
fn octet(number: u128, place: u32) -> u8
    requires { place < 4 }
    ensures { result ≡ spec.octet_at number place }
{
    (number / (1 << (8 * place)) % 256) as u8
}

/// Adds the decimal digits of a byte.
fn push_octet(text: &mut AddressText, number: u8)
    requires { array_string_len text.old ≤ 45 }
    ensures text { text.new.bytes ≡ text.old.bytes ++ decimal number }
    ensures short { array_string_len text.new ≤ array_string_len text.old + 3 }
{
    let mut buffer = Buffer::new();
    text.push_str(buffer.format(number));
}

/// Adds the decimal digits of a port's number.
fn push_decimal(text: &mut AddressText, number: u16)
    requires { array_string_len text.old ≤ 43 }
    ensures text { text.new.bytes ≡ text.old.bytes ++ decimal number }
{
    let mut buffer = Buffer::new();
    text.push_str(buffer.format(number));
}
