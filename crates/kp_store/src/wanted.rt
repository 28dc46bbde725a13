//! What is wanted of the pods that a Service selects.
ghost use Rattle.std.specs.Prelude.{◌≡◌, ◌++◌, map, IfOk, OnOk, option_and_then, option_copied};
ghost use Rattle.std.specs.List.{filter_map};
ghost use Rattle.std.specs.Option.{option_to_list};
ghost use Rattle.kp_object_defs.specs.Desired as desired;
ghost use Rattle.kp_object_defs.specs.Objects.{zone_of};

use crate::objects::Objects;
use kp_base::{Family, Items, NoMemory, Text};
use kp_desired::{desired_endpoint, has_family};
use kp_types::{Pod, Service, Wanted};
use std::alloc::Global;

/// The endpoints that the controller wants for a Service in a family of the pods that it
/// selects, in order of their names (Kubernetes documents on EndpointSlices and on IPv4/IPv6
/// dual-stack). No pod is looked at where the family isn't the Service's, and of the nodes only
/// those of these pods are.
pub fn wanted_of(
    alloc: Global,
    objects: &Objects,
    service: &Service,
    family: Family,
) -> Result<Items<Wanted>, NoMemory>
    ensures { IfOk result (λ ws. ws ≡ desired.desired_endpoints_of family objects.now service.now) }
{
    if !has_family(service, family) {
        return Ok(Items::new(alloc));
    }
    let pods = objects.pods_selected(alloc, service)?;
    wanted_of_pods(alloc, objects, service, family, pods.as_slice())
}

/// The endpoints that a Service wants of pods that it selects, in their order.
fn wanted_of_pods<'a>(
    alloc: Global,
    objects: &Objects,
    service: &Service,
    family: Family,
    pods: &[&'a Pod],
) -> Result<Items<Wanted>, NoMemory>
    ensures { IfOk result (λ ws. ws ≡ filter_map
        (desired.desired_of family (zone_of objects.now) service.now) (map (λ p. p.now) pods.now)) }
{
    let mut wanted = Vec::new(alloc);
    for pod in pods {
        add_wanted(alloc, &mut wanted, objects, service, family, *pod)?;
    }
    Ok(Items::from_vec(wanted))
}

/// Adds the endpoint that a Service wants of a pod, if it wants one.
fn add_wanted(
    alloc: Global,
    wanted: &mut Vec<Wanted>,
    objects: &Objects,
    service: &Service,
    family: Family,
    pod: &Pod,
) -> Result<(), NoMemory>
    ensures { OnOk result (wanted.new.items ≡ wanted.old.items ++ option_to_list
        (desired.desired_of family (zone_of objects.now) service.now pod.now)) }
{
    let zone = zone_of_pod(objects, pod);
    if let Some(endpoint) = desired_endpoint(alloc, service, family, pod, zone)? {
        wanted.push(endpoint)?;
    }
    Ok(())
}

/// The zone of a pod's node, if it has both.
fn zone_of_pod<'a>(objects: &'a Objects, pod: &Pod) -> Option<&'a Text>
    ensures { option_copied result ≡ option_and_then (zone_of objects.now) pod.now.node }
{
    match &pod.node {
        Some(name) => objects.zone_of(name),
        None => None,
    }
}
