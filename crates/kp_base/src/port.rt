//! Protocols and port numbers.
ghost use Rattle.std.specs.Prelude.{◌≡◌, ◌≤◌, ◌<◌, ◌↔◌, IsSome, IfSome};

use crate::memory::{Copied, NoMemory};
use std::alloc::Global;
use std::marker::Model;

/// A transport protocol, in the order of the names.
#[derive(Clone, Copy, Debug, PartialEq, Eq, PartialOrd, Ord, Hash)]
pub enum Proto {
    Sctp,
    Tcp,
    Udp,
}

/// A port number, from 1 to 65535.
#[derive(Clone, Copy, Debug, PartialEq, Eq, PartialOrd, Ord, Hash)]
pub struct PortNo {
    number: u16,
}

impl Model for PortNo {
    ghost use Rattle.std.specs.Prelude.{ℕ, ◌<◌};

    ghost Value = { ℕ };

    ghost view = { λ p. p.number };

    ghost invariant = { λ p. 0 < p.number };

    ghost inverse = { λ n. record { number = n } };
}

impl PortNo {
    /// The port with this number, where it is one.
    pub fn new(n: u64) -> Option<PortNo>
        ensures valid { IsSome result ↔ ((0 < n) × (n ≤ 65535)) }
        ensures value { IfSome result (λ p. p ≡ n) }
    {
        if n == 0 || n > 65535 {
            return None;
        }
        Some(PortNo { number: n as u16 })
    }

    /// The number.
    pub fn get(&self) -> u16
        ensures number { result ≡ self.now }
        ensures positive { 0 < result }
    {
        self.number
    }
}

impl Copied for PortNo {
    fn copy(&self, _alloc: Global) -> Result<PortNo, NoMemory> {
        Ok(*self)
    }
}

impl Copied for Proto {
    fn copy(&self, _alloc: Global) -> Result<Proto, NoMemory> {
        Ok(*self)
    }
}
