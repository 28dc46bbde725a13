//! Ranges of addresses.
ghost use Rattle.std.specs.Prelude.{◌≡◌, ◌≤◌, ok_or};
ghost use Rattle.kp_base.specs.Net.{range_contains, single_range};
ghost use Rattle.kp_base.specs.Dotted.{range_of, range_from};
ghost use Rattle.kp_base.specs.Six.{any_range_of};
ghost use Rattle.kp_base.specs.Net as spec;

use crate::address::{Address, Family};
use crate::dotted::v4_number;
use crate::memory::{Copied, NoMemory};
use crate::number::decimal_up_to;
use crate::split::split_once;
use std::alloc::Global;
use std::marker::Model;

/// The text is no range.
#[derive(Clone, Copy, Debug, PartialEq, Eq)]
pub struct BadCidr;

/// A range of addresses: its first address, whose bits past the length are clear, and the length.
#[derive(Clone, Copy, Debug, PartialEq, Eq, PartialOrd, Ord, Hash)]
pub struct Cidr {
    base: Address,
    bits: u8,
}

impl Model for Cidr {
    ghost use Rattle.std.specs.Prelude.{◌≡◌, ◌≤◌, ◌%◌};
    ghost use Rattle.kp_base.specs.Net.{RangeParts, width, range_size};

    ghost Value = { RangeParts };

    ghost view = { λ r. record { base = r.base; bits = r.bits } };

    ghost invariant = { λ r.
        (r.bits ≤ width r.base.family) × (r.base.number % range_size r.base.family r.bits ≡ 0) };

    ghost inverse = { λ r. record { base = r.base; bits = r.bits } };
}

impl Cidr {
    /// The IPv4 range that the text writes: an address, a slash and a length from 0 to 32 with no
    /// leading zero. The bits past the length are cleared.
    pub fn parse(text: &[u8]) -> Result<Cidr, BadCidr>
        ensures { result ≡ ok_or (range_of text.now) (record {}) }
    {
        range_in(text).ok_or(BadCidr)
    }

    /// The range that the text writes: an address of either family, a slash and a length of at most
    /// 32 or 128 with no leading zero. The bits past the length are cleared.
    pub fn parse_any(text: &[u8]) -> Result<Cidr, BadCidr>
        ensures { result ≡ ok_or (any_range_of text.now) (record {}) }
    {
        any_range_in(text).ok_or(BadCidr)
    }

    /// The range of one address.
    pub fn single(a: Address) -> Cidr
        ensures { result ≡ single_range a }
    {
        Cidr {
            base: a,
            bits: width(a.family()),
        }
    }

    pub fn base(&self) -> Address
        ensures { result ≡ self.now.base }
    {
        self.base
    }

    /// The length, in bits.
    pub fn bits(&self) -> u8
        ensures { result ≡ self.now.bits }
    {
        self.bits
    }

    /// Whether the address is in the range.
    pub fn contains(&self, a: &Address) -> bool
        ensures { result ≡ range_contains self.now a.now }
    {
        if self.base.family() != a.family() {
            return false;
        }
        let (number, base) = (a.number(), self.base.number());
        let shift = width(a.family()) as u32 - self.bits as u32;
        if shift == 128 {
            return true;
        }
        number >> shift == base >> shift
    }
}

/// The IPv4 range that the text writes.
fn range_in(text: &[u8]) -> Option<Cidr>
    ensures { result ≡ range_of text.now }
{
    let (base, bits) = split_once(text, b'/')?;
    let number = v4_number(base)?;
    let bits = decimal_up_to(32, bits)?;
    Some(cleared(Address::v4(number), bits))
}

/// The range of either family that the text writes.
fn any_range_in(text: &[u8]) -> Option<Cidr>
    ensures { result ≡ any_range_of text.now }
{
    let (base, bits) = split_once(text, b'/')?;
    let base = Address::read_any(base)?;
    let bits = decimal_up_to(width(base.family()), bits)?;
    Some(cleared(base, bits))
}

/// The bits of an address.
fn width(family: Family) -> u8
    ensures { result ≡ spec.width family }
{
    match family {
        Family::V4 => 32,
        Family::V6 => 128,
    }
}

/// The range of this length that holds the address.
fn cleared(a: Address, bits: u8) -> Cidr
    requires { bits ≤ spec.width a.family }
    ensures { result ≡ range_from a bits }
{
    let base = a.without_low_bits(width(a.family()) - bits);
    Cidr { base, bits }
}

impl Copied for Cidr {
    fn copy(&self, _alloc: Global) -> Result<Cidr, NoMemory> {
        Ok(*self)
    }
}
