//! The address families of a node, and what each sees of its configuration.
ghost use Rattle.std.specs.Prelude.{◌≡◌};
ghost use Rattle.kp_types.specs.Setting as spec;

use kp_base::{Cidr, Config, Family};

/// The families that the node has tables of, in the order of their tables.
pub fn table_families(config: &Config) -> &'static [Family]
    ensures { result.now ≡ spec.table_families config.now }
{
    if config.dual {
        &[Family::V4, Family::V6]
    } else {
        &[Family::V4]
    }
}

/// The range of the cluster's pods in a family, if there is one.
pub fn cluster_range(config: &Config, family: Family) -> Option<Cidr>
    ensures { result ≡ spec.cluster_range family config.now }
{
    let range = match family {
        Family::V4 => config.cluster,
        Family::V6 => config.cluster6,
    };
    match range {
        Some(range) if range.base().family() == family => Some(range),
        _ => None,
    }
}
