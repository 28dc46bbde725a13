//! IPv6 addresses as groups of hexadecimal digits with colons between them.
ghost use Rattle.std.specs.Prelude.{◌≡◌, Some, option_map};
ghost use Rattle.std.specs.Net.Text.{hex_groups_text};
ghost use Rattle.kp_base.specs.Net.{v6_address};
ghost use Rattle.kp_base.specs.Six.{six_of, groups_number, groups_of};

use std::net::Ipv6Addr;

/// How many numbers a group of sixteen bits holds.
const GROUPS: u128 = 1 << 16;

/// The number of the IPv6 address that the text writes (RFC 4291, 2.2); a zone is refused.
pub fn v6_number(text: &[u8]) -> Option<u128>
    ensures { option_map v6_address result ≡ six_of text.now }
{
    match Ipv6Addr::parse_ascii(text) {
        Ok(address) => Some(number_of(address.segments())),
        Err(_) => None,
    }
}

/// The number of eight groups, the first the highest.
fn number_of(groups: [u16; 8]) -> u128
    ensures { result ≡ groups_number groups }
{
    let [a, b, c, d, e, f, g, h] = groups;
    let high = ((a as u128 * GROUPS + b as u128) * GROUPS + c as u128) * GROUPS + d as u128;
    (((high * GROUPS + e as u128) * GROUPS + f as u128) * GROUPS + g as u128) * GROUPS + h as u128
}

/// An IPv6 address that is printed in groups alone is read as that address.
pub fn printed_groups_are_read(number: u128)
    ensures { six_of (hex_groups_text (groups_of number)) ≡ Some (v6_address number) }
{}
