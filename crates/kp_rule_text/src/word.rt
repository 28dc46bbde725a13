//! Words that stand for values. A word that the value's text differs from is none.
ghost use Rattle.std.specs.Prelude.{◌≡◌, ◌≤◌, ◌∷◌, ◌++◌, ◌^◌, bytes_eq, decimal, option_map};
ghost use Rattle.kp_choice_defs.specs.AddressText.{number_text, address_text};
ghost use Rattle.kp_choice_defs.specs.Draws.{probability_text_of};
ghost use Rattle.kp_restore_defs.specs.RuleText.{range_text};
ghost use Rattle.kp_rule_text.specs.WordReading as spec;

use crate::split::strip;
use itoa::Buffer;
use kp_base::{Address, Cidr, Endpoint, Family, PortNo, split_once};
use kp_draws::probability_text;
use kp_print::address_text;
use kp_types::ChainName;

/// The probability of a certain match, in parts of 10^10.
const CERTAIN: u64 = 10_000_000_000;

/// The number of these digits, up to a greatest one. There may be zeros before it.
fn digits_up_to(most: u64, text: &[u8]) -> Option<u64>
    requires { most ≤ 10 ^ 10 }
    ensures { result ≡ spec.digits_up_to most text.now }
{
    let mut number = 0u64;
    for byte in text {
        if !byte.is_ascii_digit() {
            return None;
        }
        number = number * 10 + (*byte - b'0') as u64;
        if number > most {
            return None;
        }
    }
    Some(number)
}

/// The number up to a greatest one that a word is the text of.
fn number_word(most: u64, word: &[u8]) -> Option<u64>
    requires { most ≤ 10 ^ 10 }
    ensures { result ≡ spec.number_word most word.now }
{
    let number = digits_up_to(most, word)?;
    if is_decimal(word, number) {
        Some(number)
    } else {
        None
    }
}

/// Whether a word is the text of a number.
fn is_decimal(word: &[u8], number: u64) -> bool
    ensures { result ≡ bytes_eq (decimal number) word.now }
{
    let mut buffer = Buffer::new();
    buffer.format(number).as_bytes() == word
}

/// A number of 32 bits.
pub(crate) fn seconds_word(word: &[u8]) -> Option<u32>
    ensures { result ≡ spec.number_word 4294967295 word.now }
{
    let number = number_word(4_294_967_295, word)?;
    Some(number as u32)
}

/// A port.
pub(crate) fn port_word(word: &[u8]) -> Option<PortNo>
    ensures { result ≡ spec.port_word word.now }
{
    let number = number_word(65_535, word)?;
    PortNo::new(number)
}

/// An address of a family, in any of its texts.
fn address_read(family: Family, word: &[u8]) -> Option<Address>
    ensures { result ≡ spec.address_read family word.now }
{
    let address = Address::parse_any(word).ok()?;
    if address.family() == family {
        Some(address)
    } else {
        None
    }
}

/// An address of a family.
fn address_word(family: Family, word: &[u8]) -> Option<Address>
    ensures { result ≡ spec.address_word family word.now }
{
    let address = address_read(family, word)?;
    if address_text(&address).as_str().as_bytes() == word {
        Some(address)
    } else {
        None
    }
}

/// A range of addresses of a family, in any of its texts.
fn range_read(family: Family, word: &[u8]) -> Option<Cidr>
    ensures { result ≡ spec.range_read family word.now }
{
    let range = Cidr::parse_any(word).ok()?;
    if range.base().family() == family {
        Some(range)
    } else {
        None
    }
}

/// A range of addresses of a family: an address, a slash and the prefix length, with no bit past
/// it.
pub(crate) fn range_word(family: Family, word: &[u8]) -> Option<Cidr>
    ensures { result ≡ spec.range_word family word.now }
{
    let range = range_read(family, word)?;
    if is_range(word, &range) {
        Some(range)
    } else {
        None
    }
}

/// Whether a word is the text of a range.
fn is_range(word: &[u8], range: &Cidr) -> bool
    ensures { result ≡ bytes_eq (range_text range.now) word.now }
{
    let mut text = address_text(&range.base());
    let mut buffer = Buffer::new();
    text.push_str("/");
    text.push_str(buffer.format(range.bits()));
    text.as_str().as_bytes() == word
}

/// The address and the port of an endpoint's text. An IPv6 address stands in brackets (RFC 5952,
/// 6).
fn host_and_port(family: Family, word: &[u8]) -> Option<(&[u8], &[u8])>
    ensures { option_map (λ p. (p.0.now, p.1.now)) result ≡ spec.host_and_port family word.now }
{
    match family {
        Family::V4 => split_once(word, b':'),
        Family::V6 => bracketed(strip(word, b"[")?),
    }
}

/// What stands before a closing bracket and a colon, and behind them.
fn bracketed(text: &[u8]) -> Option<(&[u8], &[u8])>
    ensures { option_map (λ p. (p.0.now, p.1.now)) result ≡ spec.bracketed text.now }
{
    let (host, rest) = split_once(text, b']')?;
    Some((host, strip(rest, b":")?))
}

/// An address of a family, a colon and a port.
pub(crate) fn endpoint_word(family: Family, word: &[u8]) -> Option<Endpoint>
    ensures { result ≡ spec.endpoint_word family word.now }
{
    let (host, port) = host_and_port(family, word)?;
    let address = address_word(family, host)?;
    let port = port_word(port)?;
    Some(Endpoint { address, port })
}

/// A probability, in parts of 10^10, with ten decimals.
pub(crate) fn probability_word(word: &[u8]) -> Option<u64>
    ensures { result ≡ spec.probability_word word.now }
{
    let p = probability_read(word)?;
    if probability_text(p).as_str().as_bytes() == word {
        Some(p)
    } else {
        None
    }
}

/// The probability of a whole part and decimals, if it is at most 1.
fn probability_read(word: &[u8]) -> Option<u64>
    ensures { result ≡ spec.probability_read word.now }
{
    let (whole, decimals) = split_once(word, b'.')?;
    let whole = digits_up_to(1, whole)?;
    let decimals = digits_up_to(CERTAIN - 1, decimals)?;
    let p = whole * CERTAIN + decimals;
    if p <= CERTAIN { Some(p) } else { None }
}

/// A name of a chain or of a list.
pub(crate) fn name_word(word: &[u8]) -> Option<ChainName>
    ensures { result ≡ spec.name_word word.now }
{
    ChainName::of(word)
}
