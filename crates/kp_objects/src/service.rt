//! Services.
ghost use Rattle.std.specs.Prelude.{◌≡◌, None, true};
ghost use Rattle.kp_json.specs.Answers.{Gives};
ghost use Rattle.kp_json.specs.Views.{place_of};
ghost use Rattle.kp_row_defs.specs.Reads.{Reads};
ghost use Rattle.kp_event_defs.specs.ServiceText.{read_service};
ghost use Rattle.kp_types.specs.Ports.{distinct_ports};
ghost use Rattle.kp_objects.specs.ServiceParts.{made_of};

mod address;
mod affinity;
mod choices;
mod cluster;
mod families;
mod port;
mod seen;
mod spec;

use crate::family::{addresses_of, v4_restriction};
use crate::service::address::balancer_field;
use crate::service::families::{
    cluster_addresses, cluster_of, families_of, listed_or, six_of_parts,
};
use crate::service::spec::{ServiceSpec, spec_here};
use kp_base::{Address, Family, Items, ObjectKey};
use kp_fields::key_field;
use kp_json::{FieldFault, Spot};
use kp_types::Service;
use std::alloc::Global;

/// The Service here, or the first fault of its rows.
pub fn service_of<'a>(alloc: Global, spot: &'a Spot<'a>) -> Result<Service, FieldFault>
    ensures { Gives (λ s. s) result (read_service (place_of spot.now)) }
{
    let key = key_field(alloc, spot)?;
    let spec = spot.needed(alloc, "spec")?;
    let spec = spec_here(alloc, &spec)?;
    let balancer = balancer_field(alloc, spot)?;
    service_made(alloc, key, spec, balancer)
}

/// The Service of what was read, in which what it has of each family stands apart.
fn service_made(
    alloc: Global,
    key: ObjectKey,
    spec: ServiceSpec,
    balancer: Items<Address>,
) -> Result<Service, FieldFault>
    requires { distinct_ports spec.ports ≡ true }
    ensures { (differ : distinct_ports spec.ports ≡ true) →
        Reads (λ s. s) result None (made_of (key, spec, balancer) differ) }
{
    let written = listed_or(alloc, spec.clusters, spec.cluster)?;
    let clusters = cluster_addresses(alloc, written.as_slice())?;
    let families = families_of(alloc, spec.families.as_slice(), clusters.as_slice())?;
    let six = six_of_parts(
        alloc,
        clusters.as_slice(),
        spec.external.as_slice(),
        balancer.as_slice(),
        &spec.ranges,
    )?;
    let ranges = v4_restriction(alloc, &spec.ranges)?;
    let external = addresses_of(alloc, spec.external.as_slice(), Family::V4)?;
    let balancer = addresses_of(alloc, balancer.as_slice(), Family::V4)?;
    Ok(Service {
        key,
        kind: spec.kind,
        cluster: cluster_of(written.as_slice(), clusters.as_slice()),
        families,
        ports: spec.ports,
        selector: spec.selector,
        external,
        affinity: spec.affinity,
        internal: spec.internal,
        outer: spec.outer,
        publish_not_ready: spec.publish_not_ready,
        ranges,
        same_zone: spec.same_zone,
        health: spec.health,
        balancer,
        six,
    })
}
