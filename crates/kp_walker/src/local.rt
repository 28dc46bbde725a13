//! The node's own addresses.
ghost use Rattle.std.specs.Prelude.{◌≡◌, ◌==◌};
ghost use Rattle.std.specs.List.{list_any};
ghost use Rattle.kp_base.specs.Net.{same_address, loopback_range, range_contains, is_local_address};

use kp_base::{Address, Family};

/// Whether the address is the node's own: one of its interfaces, or loopback.
pub(crate) fn is_local(node: &[Address], address: &Address) -> bool
    ensures { result ≡ is_local_address node.now address.now }
{
    is_among(node, address) || is_loopback(address)
}

fn is_among(addresses: &[Address], address: &Address) -> bool
    ensures { result ≡ list_any (λ one. same_address one address.now) addresses.now }
{
    addresses.iter().any(|one: &Address| one == address)
}

fn is_loopback(address: &Address) -> bool
    ensures { result ≡ range_contains (loopback_range address.now.family) address.now }
{
    match address.family() {
        Family::V4 => address.number() >> 24 == 127,
        Family::V6 => address.number() == 1,
    }
}
