//! The Services that select a pod.
ghost use Rattle.std.specs.Prelude.{◌≡◌, ◌&&◌, ◌||◌, IfOk, OnOk, option_copied};
ghost use Rattle.std.specs.List.{list_any};
ghost use Rattle.std.specs.Ordering.{eq_by_cmp};
ghost use Rattle.std.specs.FinMap as finite;
ghost use Rattle.kp_base.specs.Keys.{key_cmp};
ghost use Rattle.kp_base.specs.declared.key.ObjectKey.{ObjectKey as Key};
ghost use Rattle.kp_store.specs.Indexes.{is_tagged};
ghost use Rattle.kp_store.specs.LookUps.{selects_if};
ghost use Rattle.kp_store.specs.Paths.{IsComplete, IsSound};
ghost use Rattle.kp_store.specs.Tags.{tags_of};
ghost use Rattle.kp_store.specs.contracts.tags.ServiceTagPartialEq.TheImpl as tag_eq;

use crate::indexed::Indexed;
use crate::key_set::KeySet;
use crate::numbers::{joined, numbers_of, start_of};
use crate::tags::ServiceTag;
use kp_base::{Copied, NoMemory, ObjectKey};
use kp_desired::selects;
use kp_types::{Pod, Service};
use std::alloc::Global;

/// The keys of the Services that select a pod. Their selectors are paths, and the pod's labels lead
/// along those of which a selector is known: what the many Services have in common is gone along once.
pub fn selecting(
    alloc: Global,
    services: &Indexed<Service, ServiceTag>,
    pod: &Pod,
) -> Result<KeySet, NoMemory>
    ensures { IfOk result (λ ks. (k : Key) → finite.contains_key ks k
        ≡ selects_if pod.now (finite.get services.now k)) }
{
    let numbers = numbers_of(alloc, pod.labels.as_slice())?;
    let mut paths = Vec::with_capacity(alloc, 1)?;
    paths.push(start_of(&pod.key.namespace))?;
    let mut keys = KeySet::new(alloc);
    for number in numbers.as_slice() {
        go_on(alloc, services, pod, *number, &mut paths, &mut keys)?;
    }
    Ok(keys)
}

/// Goes on with a number from each path so far, where a selector does: puts the keys of the Services
/// whose selectors end there and select a pod beside others.
fn go_on(
    alloc: Global,
    services: &Indexed<Service, ServiceTag>,
    pod: &Pod,
    number: u64,
    paths: &mut Vec<u64>,
    keys: &mut KeySet,
) -> Result<(), NoMemory>
    ensures sound { OnOk result (IsSound services.now pod.now keys.old keys.new) }
    ensures complete { OnOk result (IsComplete services.now pod.now number
        paths.old.items keys.old paths.new.items keys.new) }
{
    for place in 0..paths.len() {
        let next = joined(paths[place], number);
        put_selecting(alloc, services, &ServiceTag::Selector(next), pod, keys)?;
        if services.is_used(&ServiceTag::Prefix(next)) {
            paths.push(next)?;
        }
    }
    Ok(())
}

/// Puts the keys of the Services with a tag that select a pod beside others.
fn put_selecting(
    alloc: Global,
    services: &Indexed<Service, ServiceTag>,
    tag: &ServiceTag,
    pod: &Pod,
    keys: &mut KeySet,
) -> Result<(), NoMemory>
    ensures { OnOk result ((k : Key) → finite.contains_key keys.new k
        ≡ (is_tagged tag_eq.ghosts.eq tags_of tag.now (finite.get services.now k)
        && selects_if pod.now (finite.get services.now k)) || finite.contains_key keys.old k) }
{
    let tagged = services.tagged(alloc, tag)?;
    for key in tagged.as_slice() {
        put_if(alloc, services.get(key), key, pod, keys)?;
    }
    Ok(())
}

/// Puts the key of a Service beside others, if it is there and selects a pod.
fn put_if(
    alloc: Global,
    service: Option<&Service>,
    key: &ObjectKey,
    pod: &Pod,
    keys: &mut KeySet,
) -> Result<(), NoMemory>
    ensures { OnOk result ((k : Key) → finite.contains_key keys.new k
        ≡ (eq_by_cmp key_cmp k key.now && selects_if pod.now (option_copied service.entry))
        || finite.contains_key keys.old k) }
{
    match service {
        Some(service) if selects(service, pod) => keys.put(key.copy(alloc)?),
        _ => Ok(()),
    }
}
