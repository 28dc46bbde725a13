//! Addresses of IPv4 and IPv6.
ghost use Rattle.std.specs.Prelude.{◌≡◌, ◌≤◌, ◌-◌, ◌%◌, ◌^◌, ok_or};
ghost use Rattle.kp_base.specs.Net.{v4_address, v6_address, width};
ghost use Rattle.kp_base.specs.Dotted.{address_of};
ghost use Rattle.kp_base.specs.Six.{any_address_of};

use crate::dotted::v4_number;
use crate::memory::{Copied, NoMemory};
use crate::six::v6_number;
use crate::wide::Wide;
use std::alloc::Global;
use std::marker::Model;

/// An address family.
#[derive(Clone, Copy, Debug, PartialEq, Eq, PartialOrd, Ord, Hash)]
pub enum Family {
    V4,
    V6,
}

/// The text is no address.
#[derive(Clone, Copy, Debug, PartialEq, Eq)]
pub struct BadAddress;

/// An address: a family, and a number below 2^32 or 2^128.
#[derive(Clone, Copy, Debug, PartialEq, Eq, PartialOrd, Ord, Hash)]
pub struct Address {
    family: Family,
    number: Wide,
}

impl Model for Address {
    ghost use Rattle.std.specs.Prelude.{◌≡◌, ◌<◌, ◌^◌};
    ghost use Rattle.kp_base.specs.Net.{AddressParts};
    ghost use Rattle.kp_base.specs.declared.address.Family.TheVariants.{V4};

    ghost Value = { AddressParts };

    ghost view = { λ a. record { family = a.family; number = a.number } };

    ghost invariant = { λ a. a.family ≡ V4 → a.number < 2 ^ 32 };

    ghost inverse = { λ a. record { family = a.family; number = a.number } };
}

impl Address {
    /// The IPv4 address that the text writes: four decimal numbers below 256, with no leading
    /// zeros and dots between them.
    pub fn parse(text: &[u8]) -> Result<Address, BadAddress>
        ensures { result ≡ ok_or (address_of text.now) (record {}) }
    {
        match v4_number(text) {
            Some(number) => Ok(Address::v4(number)),
            None => Err(BadAddress),
        }
    }

    /// The address that the text writes: an IPv4 address as `parse` reads it, or an IPv6 address
    /// (RFC 4291, 2.2) without a zone.
    pub fn parse_any(text: &[u8]) -> Result<Address, BadAddress>
        ensures { result ≡ ok_or (any_address_of text.now) (record {}) }
    {
        Address::read_any(text).ok_or(BadAddress)
    }

    /// The address of either family that the text writes.
    pub(crate) fn read_any(text: &[u8]) -> Option<Address>
        ensures { result ≡ any_address_of text.now }
    {
        match v4_number(text) {
            Some(number) => Some(Address::v4(number)),
            None => v6_number(text).map(Address::v6),
        }
    }

    /// The IPv4 address with this number.
    pub fn v4(number: u32) -> Address
        ensures { result ≡ v4_address number }
    {
        Address {
            family: Family::V4,
            number: Wide::of(number as u128),
        }
    }

    /// The IPv6 address with this number.
    pub fn v6(number: u128) -> Address
        ensures { result ≡ v6_address number }
    {
        Address {
            family: Family::V6,
            number: Wide::of(number),
        }
    }

    pub fn family(&self) -> Family
        ensures { result ≡ self.now.family }
    {
        self.family
    }

    pub fn number(&self) -> u128
        ensures { result ≡ self.now.number }
    {
        self.number.number()
    }
}

impl Address {
    /// The address with this many of its lowest bits cleared.
    pub(crate) fn without_low_bits(self, free: u8) -> Address
        requires { free ≤ width self.family }
        ensures { result ≡ record {
          family = self.family;
          number = self.number - self.number % 2 ^ free;
        } }
    {
        let number = self.number();
        let past = match free {
            128 => number,
            _ => number % (1 << free),
        };
        Address {
            family: self.family,
            number: Wide::of(number - past),
        }
    }
}

impl Copied for Family {
    fn copy(&self, _alloc: Global) -> Result<Family, NoMemory> {
        Ok(*self)
    }
}

impl Copied for Address {
    fn copy(&self, _alloc: Global) -> Result<Address, NoMemory> {
        Ok(*self)
    }
}
