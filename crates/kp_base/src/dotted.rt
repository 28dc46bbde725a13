//! Addresses as four decimal numbers with dots between them.
ghost use Rattle.std.specs.Prelude.{◌≡◌, ◌+◌, ◌*◌, Some, option_map};
ghost use Rattle.std.specs.Net.Text.{dotted_text};
ghost use Rattle.kp_base.specs.Net.{v4_address};
ghost use Rattle.kp_base.specs.Dotted.{address_of};
ghost use Rattle.kp_base.specs.Dotted as spec;

use crate::number::decimal_up_to;
use crate::split::split_once;

/// The number of the IPv4 address that the text writes.
pub fn v4_number(text: &[u8]) -> Option<u32>
    ensures { option_map v4_address result ≡ address_of text.now }
{
    let (a, rest) = number_before_dot(text)?;
    let (b, rest) = number_before_dot(rest)?;
    let (c, rest) = number_before_dot(rest)?;
    let d = decimal_up_to(255, rest)?;
    Some(((a as u32 * 256 + b as u32) * 256 + c as u32) * 256 + d as u32)
}

/// The number before the first dot, and what stands behind the dot.
fn number_before_dot(text: &[u8]) -> Option<(u8, &[u8])>
    ensures { option_map (λ p. (p.0, p.1.now)) result ≡ spec.number_before_dot text.now }
{
    let (number, rest) = split_once(text, b'.')?;
    let number = decimal_up_to(255, number)?;
    Some((number, rest))
}

/// Whatever std prints of an IPv4 address is read as that address.
pub fn printed_addresses_are_read(a: u8, b: u8, c: u8, d: u8)
    ensures { address_of (dotted_text a b c d)
        ≡ Some (v4_address (((a * 256 + b) * 256 + c) * 256 + d)) }
{}
