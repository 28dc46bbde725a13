//! IPv6 addresses in groups of hexadecimal digits (RFC 5952, 4).
ghost use Rattle.std.specs.Prelude.{◌≡◌, [], ◌∷◌, ◌++◌, ◌+◌, ◌*◌, ◌<◌, ◌≤◌, ◌/◌, ◌%◌, ◌^◌, length};
ghost use Rattle.std.specs.Net.Text as Text;
ghost use Rattle.std.specs.Char.{digit_char};
ghost use Rattle.arrayvec.specs.ArrayString.{array_string_len};
ghost use Rattle.kp_base.specs.declared.address.Family.TheVariants as family;
ghost use Rattle.kp_base.specs.Six.{groups_of};
ghost use Rattle.kp_choice_defs.specs.AddressText as spec;

use crate::address::AddressText;

/// Adds the IPv6 address with this number.
pub(crate) fn push_groups_of(text: &mut AddressText, number: u128)
    requires { array_string_len text.old ≤ 1 }
    ensures text { text.new.bytes ≡ text.old.bytes ++ spec.number_text family.V6 number }
    ensures short { array_string_len text.new ≤ array_string_len text.old + 40 }
{
    push_compressed(text, &segments(number));
}

/// The groups of an IPv6 address, the highest first.
fn segments(number: u128) -> [u16; 8]
    ensures { result ≡ groups_of number }
{
    [
        segment(number, 7),
        segment(number, 6),
        segment(number, 5),
        segment(number, 4),
        segment(number, 3),
        segment(number, 2),
        segment(number, 1),
        segment(number, 0),
    ]
}

/// The sixteen bits of a number at a place from its lowest.
fn segment(number: u128, place: u32) -> u16
    requires { place < 8 }
    ensures { result ≡ number / 2 ^ (16 * place) % 2 ^ 16 }
{
    (number / (1 << (16 * place)) % 65536) as u16
}

/// Adds eight groups, with `::` in place of the longest run of zeros that has two or more.
#[tactic(auto, unfolding(std::specs::Net::Text::hex_groups_text))]
fn push_compressed(text: &mut AddressText, groups: &[u16])
    requires room { array_string_len text.old ≤ 1 }
    requires eight { length groups.now ≡ 8 }
    ensures text { text.new.bytes ≡ text.old.bytes ++ Text.hex_groups_text groups.now }
    ensures short { array_string_len text.new ≤ array_string_len text.old + 40 }
{
    let (start, count) = longest_zero_run(groups);
    if count < 2 {
        push_groups(text, groups);
        return;
    }
    push_groups(text, &groups[..start]);
    text.push_str("::");
    push_groups(text, &groups[start + count..]);
}

/// The place and the length of the longest run of zeros, of runs as long the first.
fn longest_zero_run(groups: &[u16]) -> (usize, usize)
    ensures value { result ≡ Text.longest_zero_run groups.now }
    ensures within { result.0 + result.1 ≤ length groups.now }
{
    let mut longest = (groups.len(), 0);
    let mut run = 0;
    for place in (0..groups.len()).rev() {
        run = if groups[place] == 0 { run + 1 } else { 0 };
        if run >= longest.1 {
            longest = (place, run);
        }
    }
    longest
}

/// Adds groups with colons between them.
fn push_groups(text: &mut AddressText, groups: &[u16])
    requires { array_string_len text.old + 5 * length groups.now ≤ 48 }
    ensures text { text.new.bytes ≡ text.old.bytes ++ Text.groups_text groups.now }
    ensures short { array_string_len text.new ≤ array_string_len text.old + 5 * length groups.now }
{
    if let Some((first, rest)) = groups.split_first() {
        push_hex(text, *first);
        for group in rest {
            text.push_str(":");
            push_hex(text, *group);
        }
    }
}

/// Adds a group in lower-case hexadecimal digits without leading zeros.
#[tactic(auto, unfolding(std::specs::Net::Text::hex))]
fn push_hex(text: &mut AddressText, group: u16)
    requires { array_string_len text.old + 4 ≤ 48 }
    ensures text { text.new.bytes ≡ text.old.bytes ++ Text.hex group }
    ensures short { array_string_len text.new ≤ array_string_len text.old + 4 }
{
    if group >= 0x1000 {
        text.push(hex_digit(group / 0x1000));
    }
    if group >= 0x100 {
        text.push(hex_digit(group / 0x100 % 16));
    }
    if group >= 0x10 {
        text.push(hex_digit(group / 0x10 % 16));
    }
    text.push(hex_digit(group % 16));
}

/// A hexadecimal digit.
fn hex_digit(digit: u16) -> char
    requires { digit < 16 }
    ensures { result ≡ digit_char digit }
{
    if digit < 10 {
        (b'0' + digit as u8) as char
    } else {
        (b'a' + (digit - 10) as u8) as char
    }
}
