//! Lists of endpoints that are asked which endpoints they have.
ghost use Rattle.std.specs.Prelude.{◌≡◌, IfOk};
ghost use Rattle.kp_base.specs.declared.key.Endpoint.{Endpoint as One};
ghost use Rattle.kp_chains.specs.Named.{has};
ghost use Rattle.kp_path_defs.specs.Asides.{has_endpoint};

use kp_base::{Endpoint, NoMemory};
use std::alloc::Global;
use std::collections::BTreeSet;
use std::marker::Model;

/// The most endpoints of a list that is looked through.
const FEW: usize = 16;

/// A list of endpoints, and where it is long their set. Contracts see the list.
#[derive(Drop)]
pub(crate) struct Among<'a> {
    endpoints: &'a [Endpoint],
    set: Option<BTreeSet<Endpoint>>,
}

impl<'a> Model for Among<'a> {
    ghost use Rattle.std.specs.Prelude.{List};
    ghost use Rattle.std.specs.Coded.{coded_list};
    ghost use Rattle.kp_base.specs.contracts.key.Endpoint as endpoint_row;
    ghost use Rattle.kp_base.specs.declared.key.Endpoint.{Endpoint as One};
    ghost use Rattle.kp_paths.specs.Sets.{IsSetOf};

    ghost Value = { List One };

    ghost coded = { coded_list endpoint_row.the_row.coded };

    ghost view = { λ a. a.endpoints.now };

    ghost invariant = { λ a. IsSetOf a.set a.endpoints.now };
}

impl<'a> Among<'a> {
    /// A list that may be asked.
    pub(crate) fn of(alloc: Global, endpoints: &'a [Endpoint]) -> Result<Among<'a>, NoMemory>
        ensures { IfOk result (λ a. a ≡ endpoints.now) }
    {
        if endpoints.len() <= FEW {
            return Ok(Among {
                endpoints,
                set: None,
            });
        }
        Ok(Among {
            endpoints,
            set: Some(set_of(alloc, endpoints)?),
        })
    }

    /// Whether it has an endpoint.
    pub(crate) fn has(&self, endpoint: &Endpoint) -> bool
        ensures { result ≡ has_endpoint self.now endpoint.now }
    {
        match &self.set {
            Some(set) => set.contains(endpoint),
            None => is_one_of(self.endpoints, endpoint),
        }
    }
}

/// Whether an endpoint is one of some.
fn is_one_of(endpoints: &[Endpoint], endpoint: &Endpoint) -> bool
    ensures { result ≡ has_endpoint endpoints.now endpoint.now }
{
    endpoints.iter().any(|other| *endpoint == *other)
}

/// The set of endpoints.
fn set_of(alloc: Global, endpoints: &[Endpoint]) -> Result<BTreeSet<Endpoint>, NoMemory>
    ensures { IfOk result (λ s. (e : One) → has s e ≡ has_endpoint endpoints.now e) }
{
    let mut set = BTreeSet::new(alloc);
    for endpoint in endpoints {
        set.insert(*endpoint)?;
    }
    Ok(set)
}
