//! The node's own addresses, and the cluster's ranges.
ghost use Rattle.std.specs.Prelude.{◌≡◌};
ghost use Rattle.std.specs.List.{list_any};
ghost use Rattle.kp_base.specs.Net.{same_address, loopback_range, range_contains};
ghost use Rattle.kp_base.specs.Net.{is_local_address};
ghost use Rattle.kp_types.specs.Setting.{config_for};
ghost use Rattle.kp_door_defs.specs.Doors as spec;

use kp_base::{Address, Config, Family};
use kp_types::cluster_range;

/// Whether an address is the node's own: one of its interfaces, or loopback.
pub fn is_local(config: &Config, address: &Address) -> bool
    ensures { result ≡ is_local_address config.now.addresses address.now }
{
    is_among(config.addresses.as_slice(), address) || is_loopback(address.family(), address)
}

/// Whether an address is among some.
pub fn is_among(addresses: &[Address], address: &Address) -> bool
    ensures { result ≡ list_any (λ one. same_address one address.now) addresses.now }
{
    addresses.iter().any(|one| *one == *address)
}

/// Whether an address is in the loopback range of a family.
pub fn is_loopback(family: Family, address: &Address) -> bool
    ensures { result ≡ range_contains (loopback_range family) address.now }
{
    match (family, address.family()) {
        (Family::V4, Family::V4) => address.number() >> 24 == 127,
        (Family::V6, Family::V6) => address.number() == 1,
        _ => false,
    }
}

/// Whether a source is in the cluster's range of a family, where there is one.
pub fn is_in_cluster(family: Family, config: &Config, source: &Address) -> bool
    ensures { result ≡ spec.is_in_cluster (config_for family config.now) source.now }
{
    match cluster_range(config, family) {
        Some(range) => range.contains(source),
        None => false,
    }
}
