//! Endpoints with the names of their chains.
ghost use Rattle.std.specs.Prelude.{◌≡◌, map, IfOk};
ghost use Rattle.kp_chains.specs.Named.{name_of_endpoint, named_by};

use kp_base::{Config, Endpoint, NoMemory};
use kp_names::Namer;
use kp_types::{ChainName, PortInfo};
use std::alloc::Global;

/// An endpoint, and the name of its chain.
#[derive(Drop)]
pub struct NamedEndpoint {
    pub endpoint: Endpoint,
    pub chain: ChainName,
}

/// Endpoints of a port with the names of their chains, each hashed once.
pub fn named(
    alloc: Global,
    config: &Config,
    info: &PortInfo,
    endpoints: &[Endpoint],
) -> Result<Vec<NamedEndpoint>, NoMemory>
    ensures { IfOk result (λ named. named.items
        ≡ map (named_by (name_of_endpoint config.now info.now)) endpoints.now) }
{
    let namer = Namer::new(config.name_length);
    Ok(
        endpoints
            .iter()
            .map(|endpoint| NamedEndpoint {
                endpoint: *endpoint,
                chain: namer.endpoint_chain_name(&info.key, endpoint),
            })
            .collect(alloc)?,
    )
}
