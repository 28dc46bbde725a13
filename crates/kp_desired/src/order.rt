//! Pods in order of their names.
ghost use Rattle.std.specs.Prelude.{◌≡◌, cond, map, IfOk, OnOk};
ghost use Rattle.std.specs.FinMap.{put};
ghost use Rattle.std.specs.List.{filter};
ghost use Rattle.kp_object_defs.specs.Desired as Desired;
ghost use Rattle.kp_object_defs.specs.Desired.{in_name_order};
ghost use Rattle.kp_base.specs.Keys.{key_cmp};
ghost use Rattle.kp_object_defs.specs.Order.{by_key};
ghost use Rattle.kp_desired.specs.ByName.{shown};

use crate::selection::selects;
use kp_base::{NoMemory, ObjectKey};
use kp_types::{Pod, Service};
use std::alloc::Global;
use std::collections::BTreeMap;

/// The pods that a Service selects, in order of their names.
pub fn selected_pods<'a>(
    alloc: Global,
    service: &Service,
    pods: &'a [Pod],
) -> Result<Vec<&'a Pod>, NoMemory>
    ensures { IfOk result (λ ps. map (λ p. p.now) ps.items
        ≡ in_name_order (filter (Desired.selects service.now) pods.now)) }
{
    let by_name = pods_by_name(alloc, service, pods)?;
    Ok(by_name.into_values().collect(alloc)?)
}

/// The pods that a Service selects, by their names.
fn pods_by_name<'a>(
    alloc: Global,
    service: &Service,
    pods: &'a [Pod],
) -> Result<BTreeMap<&'a ObjectKey, &'a Pod>, NoMemory>
    ensures { IfOk result (λ by_name. shown by_name.entries
        ≡ by_key key_cmp (λ p. p.key) (filter (Desired.selects service.now) pods.now)) }
{
    let mut by_name = BTreeMap::new(alloc);
    for pod in pods {
        add_pod(&mut by_name, service, pod)?;
    }
    Ok(by_name)
}

/// Puts a pod in its place, where the Service selects it.
fn add_pod<'a>(
    by_name: &mut BTreeMap<&'a ObjectKey, &'a Pod>,
    service: &Service,
    pod: &'a Pod,
) -> Result<(), NoMemory>
    ensures { OnOk result (shown by_name.new.entries ≡ cond (Desired.selects service.now pod.now)
        (put key_cmp pod.now.key pod.now (shown by_name.old.entries))
        (shown by_name.old.entries)) }
{
    if selects(service, pod) {
        by_name.insert(&pod.key, pod)?;
    }
    Ok(())
}
