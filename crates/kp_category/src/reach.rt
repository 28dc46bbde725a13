//! Whether a Service port may be reached from outside the cluster.
ghost use Rattle.std.specs.Prelude.{◌≡◌, not, is_some};
ghost use Rattle.std.specs.List.{list_any};
ghost use Rattle.kp_base.specs.Net.{same_family};
ghost use Rattle.kp_object_defs.specs.Desired.{is_empty};
ghost use Rattle.kp_object_defs.specs.PortInfo as spec;
ghost use Rattle.kp_object_defs.specs.PortInfo.{external_in, balancer_in};
ghost use Rattle.kp_object_defs.specs.PortInfo.{node_port_of, is_reachable_in};

use kp_base::{Address, Family, PortNo};
use kp_port_info::{balancer_of, external_of};
use kp_types::{Service, ServiceKind, ServicePort};

/// Whether a port has an external address, a load-balancer address or a node port.
pub fn is_reachable(family: Family, service: &Service, port: &ServicePort) -> bool
    ensures { result ≡ is_reachable_in family service.now port.now }
{
    let external = has_external(family, service);
    let balancer = has_balancer(family, service);
    let node_port = has_node_port(service, port);
    external || balancer || node_port
}

fn has_external(family: Family, service: &Service) -> bool
    ensures { result ≡ not (is_empty (external_in family service.now)) }
{
    has_address_in(family, external_of(family, service))
}

fn has_balancer(family: Family, service: &Service) -> bool
    ensures { result ≡ not (is_empty (balancer_in family service.now)) }
{
    match service.kind {
        ServiceKind::LoadBalancer => has_address_in(family, balancer_of(family, service)),
        _ => false,
    }
}

fn has_node_port(service: &Service, port: &ServicePort) -> bool
    ensures { result ≡ is_some (node_port_of service.now port.now) }
{
    match service.kind {
        ServiceKind::NodePort | ServiceKind::LoadBalancer => port.node_port.is_some(),
        _ => false,
    }
}

fn has_address_in(family: Family, addresses: &[Address]) -> bool
    ensures { result ≡ list_any (λ a. same_family a.family family) addresses.now }
{
    addresses.iter().any(|address| address.family() == family)
}
