//! The specification of a Service.
ghost use Rattle.std.specs.Prelude.{◌≡◌, true, IfOk};
ghost use Rattle.kp_json.specs.Views.{place_of};
ghost use Rattle.kp_row_defs.specs.Reads.{Reads};
ghost use Rattle.kp_row_defs.specs.Rows.{rows_fault};
ghost use Rattle.kp_event_defs.specs.ServiceText.{service_spec_rows};
ghost use Rattle.kp_types.specs.Ports.{distinct_ports};
ghost use Rattle.kp_objects.specs.ServiceParts.{spec_from};

use crate::service::address::ranges_field;
use crate::service::affinity::{affinity_of, timeout_field};
use crate::service::choices::{affinity_field, kind_field, policy_field, same_zone_field};
use crate::service::cluster::{cluster_field, clusters_field, families_field};
use crate::service::port::{node_port_field, ports_field};
use kp_base::{Address, Cidr, Family, Items, Pair, PortNo};
use kp_fields::{addresses_field, flag_field, pairs_field};
use kp_json::{FieldFault, Spot};
use kp_types::{Policy, ServiceKind, ServicePort};
use std::alloc::Global;

/// What is read of a Service's specification. Its addresses and ranges are those of both families.
#[derive(Drop)]
pub(crate) struct ServiceSpec {
    pub(crate) kind: ServiceKind,
    /// The single cluster address, if there is one, and those of the list; nothing stands in the
    /// place of `None`.
    pub(crate) cluster: Option<Option<Address>>,
    pub(crate) clusters: Items<Option<Address>>,
    /// The families that are listed.
    pub(crate) families: Items<Family>,
    pub(crate) ports: Items<ServicePort>,
    pub(crate) selector: Items<Pair>,
    pub(crate) external: Items<Address>,
    pub(crate) affinity: Option<u32>,
    pub(crate) internal: Policy,
    pub(crate) outer: Policy,
    pub(crate) publish_not_ready: bool,
    pub(crate) ranges: Option<Items<Cidr>>,
    pub(crate) same_zone: bool,
    pub(crate) health: Option<PortNo>,
}

/// The specification here.
pub(crate) fn spec_here<'a>(alloc: Global, spec: &'a Spot<'a>) -> Result<ServiceSpec, FieldFault>
    ensures spec { Reads (λ s. s) result (rows_fault service_spec_rows (place_of spec.now))
        (spec_from (place_of spec.now)) }
    ensures distinct { IfOk result (λ s. distinct_ports s.ports ≡ true) }
{
    let kind = kind_field(alloc, spec)?;
    let cluster = cluster_field(alloc, spec)?;
    let clusters = clusters_field(alloc, spec)?;
    let families = families_field(alloc, spec)?;
    let ports = ports_field(alloc, spec)?;
    let selector = pairs_field(alloc, spec, "selector")?;
    let external = addresses_field(alloc, spec, "externalIPs")?;
    let is_sticky = affinity_field(alloc, spec)?;
    let timeout = timeout_field(alloc, spec)?;
    let internal = policy_field(alloc, spec, "internalTrafficPolicy")?;
    let outer = policy_field(alloc, spec, "externalTrafficPolicy")?;
    let publish_not_ready = flag_field(alloc, spec, "publishNotReadyAddresses")?;
    let ranges = ranges_field(alloc, spec)?;
    let same_zone = same_zone_field(alloc, spec)?;
    let health = node_port_field(alloc, spec, "healthCheckNodePort")?;
    Ok(ServiceSpec {
        kind,
        cluster,
        clusters,
        families,
        ports,
        selector,
        external,
        affinity: affinity_of(is_sticky, timeout),
        internal,
        outer,
        publish_not_ready: publish_not_ready.unwrap_or(false),
        ranges,
        same_zone,
        health,
    })
}
