//! What a map keeps of a port.
ghost use Rattle.std.specs.Prelude.{◌≡◌, ◌≤◌, map, slice_get, IfOk, IfSome, Some};
ghost use Rattle.kp_base.specs.declared.key.Endpoint.{Endpoint as OneEndpoint};
ghost use Rattle.kp_choice_defs.specs.Names.{endpoint_chain_name};
ghost use Rattle.kp_decide.specs.Listed.{listed};
ghost use Rattle.kp_vmap.specs.KeptNames.{AreNamesOf};

use kp_base::{Endpoint, NoMemory, PortKey};
use kp_names::Namer;
use kp_types::{ChainName, ListKind, PortInfo};
use std::alloc::Global;
use std::marker::Model;

/// What is known of a port, and the names of its endpoints' chains where it has affinity. Contracts
/// see what is known.
pub struct Known {
    info: PortInfo,
    names: Option<EndpointNames>,
}

/// The names of the chains of a port's endpoints, list by list, each at its endpoint's place.
pub struct EndpointNames {
    length: u8,
    cluster: Vec<ChainName>,
    local: Vec<ChainName>,
}

impl Drop for EndpointNames {
    fn drop(self) {
        let EndpointNames {
            length: _,
            cluster,
            local,
        } = self;
    }
}

impl Drop for Known {
    fn drop(self) {
        let Known { info, names } = self;
    }
}

impl Model for Known {
    ghost use Rattle.std.specs.Prelude.{IfSome};
    ghost use Rattle.kp_types.specs.contracts.info.PortInfo as info_row;
    ghost use Rattle.kp_types.specs.declared.info.PortInfo.{PortInfo};
    ghost use Rattle.kp_vmap.specs.KeptNames.{AreNamesOf};

    ghost Value = { PortInfo };

    ghost coded = { info_row.the_row.coded };

    ghost view = { λ k. k.info };

    ghost invariant = { λ k. IfSome k.names (AreNamesOf k.info) };
}

impl Known {
    /// What is known of a port, where chains are named with so many characters of a hash.
    pub fn of(alloc: Global, length: u8, info: PortInfo) -> Result<Known, NoMemory>
        requires { length ≤ 16 }
        ensures { IfOk result (λ k. k ≡ info) }
    {
        let names = match info.affinity {
            Some(_) => Some(names_of(alloc, length, &info)?),
            None => None,
        };
        Ok(Known { info, names })
    }

    /// It.
    pub fn info(&self) -> &PortInfo
        ensures { result.now ≡ self.now }
    {
        &self.info
    }

    /// The name of the chain of the endpoint at a place of a list, where names have this length:
    /// the one that is kept, or else it is made.
    pub fn name(&self, length: u8, list: ListKind, place: usize, endpoint: &Endpoint) -> ChainName
        requires length { length ≤ 16 }
        requires place { slice_get (listed list self.now) place ≡ Some endpoint.now }
        ensures { result ≡ endpoint_chain_name length self.now.key endpoint.now }
    {
        match self.kept_name(length, list, place) {
            Some(name) => name.same(),
            None => Namer::new(length).endpoint_chain_name(&self.info.key, endpoint),
        }
    }

    /// The name that is kept of the endpoint at a place of a list, if names of this length are.
    fn kept_name(&self, length: u8, list: ListKind, place: usize) -> Option<&ChainName>
        ensures { IfSome result (λ name. (e : OneEndpoint) →
            slice_get (listed list self.now) place ≡ Some e →
            name.now ≡ endpoint_chain_name length self.now.key e) }
    {
        let names = self.names.as_ref()?;
        if names.length != length {
            return None;
        }
        match list {
            ListKind::Cluster => names.cluster.get(place),
            ListKind::Local => names.local.get(place),
        }
    }
}

/// The names of the chains of a port's endpoints.
fn names_of(alloc: Global, length: u8, info: &PortInfo) -> Result<EndpointNames, NoMemory>
    requires { length ≤ 16 }
    ensures { IfOk result (AreNamesOf info.now) }
{
    let namer = Namer::new(length);
    Ok(EndpointNames {
        length,
        cluster: names_in(alloc, &namer, &info.key, info.lists.cluster.as_slice())?,
        local: names_in(alloc, &namer, &info.key, info.lists.local.as_slice())?,
    })
}

/// The names of the chains of a list's endpoints, in order.
fn names_in(
    alloc: Global,
    namer: &Namer,
    key: &PortKey,
    endpoints: &[Endpoint],
) -> Result<Vec<ChainName>, NoMemory>
    ensures { IfOk result (λ names. names.items
        ≡ map (endpoint_chain_name namer.now key.now) endpoints.now) }
{
    let mut names = Vec::with_capacity(alloc, endpoints.len())?;
    for endpoint in endpoints {
        names.push(namer.endpoint_chain_name(key, endpoint))?;
    }
    Ok(names)
}
