//! Slices that are left over.
ghost use Rattle.std.specs.Prelude.{◌≡◌, ◌++◌, map, IfOk, OnOk};
ghost use Rattle.std.specs.List.{filter, flat_map};
ghost use Rattle.kp_object_defs.specs.SlicesNow as now;
ghost use Rattle.kp_object_defs.specs.SlicesNow.{without_leftovers};
ghost use Rattle.kp_settle_laws.specs.Settled.{AreLeftBy};
ghost use Rattle.kp_store.specs.Touched.{is_touched};
ghost use Rattle.kp_controller.specs.Settling.{left_near};

use crate::replaced::take_all;
use crate::slice_map::SliceMap;
use kp_base::{Copied, Items, NoMemory, ObjectKey};
use kp_store::{Objects, Touched};
use kp_types::Slice;
use std::alloc::Global;

/// Takes out the slices that the controller manages for Services that are absent, each of which is
/// labelled with a touched Service. So unless all were touched, only the slices near to touched
/// Services are looked at.
pub fn remove_touched(
    alloc: Global,
    objects: &Objects,
    touched: &Touched,
    slices: &mut SliceMap,
) -> Result<(), NoMemory>
    requires left { AreLeftBy (is_touched touched.now) objects.now slices.now }
    ensures { OnOk result (slices.new ≡ without_leftovers objects.now slices.old) }
{
    if touched.all {
        return remove_leftovers(alloc, objects, slices);
    }
    slices.own_keys();
    let services = touched.keys.keys(alloc)?;
    let near = keys_left_near(alloc, objects, services.as_slice(), slices)?;
    take_all(alloc, near.as_slice(), slices)
}

/// Takes out the slices that the controller manages for Services that are absent.
fn remove_leftovers(alloc: Global, objects: &Objects, slices: &mut SliceMap) -> Result<(), NoMemory>
    ensures { OnOk result (slices.new ≡ without_leftovers objects.now slices.old) }
{
    let left_over = keys_left_over(alloc, objects, slices.all(alloc)?.as_slice())?;
    take_all(alloc, left_over.as_slice(), slices)
}

/// The keys of the slices near to Services that are left over, one Service after the other.
fn keys_left_near<'k>(
    alloc: Global,
    objects: &Objects,
    services: &[&'k ObjectKey],
    slices: &SliceMap,
) -> Result<Items<ObjectKey>, NoMemory>
    ensures { IfOk result (λ ks. ks
        ≡ flat_map (left_near objects.now slices.now) (map (λ k. k.now) services.now)) }
{
    let mut keys = Vec::new(alloc);
    for service in services {
        add_left_near(alloc, objects, service, slices, &mut keys)?;
    }
    Ok(Items::from_vec(keys))
}

/// Adds the keys of the slices near to a Service that are left over, where the Service is absent.
fn add_left_near(
    alloc: Global,
    objects: &Objects,
    service: &ObjectKey,
    slices: &SliceMap,
    keys: &mut Vec<ObjectKey>,
) -> Result<(), NoMemory>
    ensures { OnOk result (keys.new.items
        ≡ keys.old.items ++ left_near objects.now slices.now service.now) }
{
    match objects.service(service) {
        Some(_) => Ok(()),
        None => {
            let near = slices.near(alloc, service)?;
            add_left_over(alloc, objects, near.as_slice(), keys)
        }
    }
}

/// The keys of the slices that are left over.
fn keys_left_over<'a>(
    alloc: Global,
    objects: &Objects,
    slices: &[&'a Slice],
) -> Result<Items<ObjectKey>, NoMemory>
    ensures { IfOk result (λ ks. ks ≡ map (λ s. s.key)
        (filter (now.is_leftover objects.now) (map (λ s. s.now) slices.now))) }
{
    let mut keys = Vec::new(alloc);
    add_left_over(alloc, objects, slices, &mut keys)?;
    Ok(Items::from_vec(keys))
}

/// Adds the keys of the slices that are left over.
fn add_left_over<'a>(
    alloc: Global,
    objects: &Objects,
    slices: &[&'a Slice],
    keys: &mut Vec<ObjectKey>,
) -> Result<(), NoMemory>
    ensures { OnOk result (keys.new.items ≡ keys.old.items ++ map (λ s. s.key)
        (filter (now.is_leftover objects.now) (map (λ s. s.now) slices.now))) }
{
    for slice in slices {
        if is_leftover(alloc, objects, slice)? {
            keys.push(slice.key.copy(alloc)?)?;
        }
    }
    Ok(())
}

/// Whether the controller manages a slice whose Service is absent.
fn is_leftover(alloc: Global, objects: &Objects, slice: &Slice) -> Result<bool, NoMemory>
    ensures { IfOk result (λ b. b ≡ now.is_leftover objects.now slice.now) }
{
    if !slice.managed {
        return Ok(false);
    }
    match &slice.service {
        Some(name) => {
            let service = ObjectKey {
                namespace: slice.key.namespace.copy(alloc)?,
                name: name.copy(alloc)?,
            };
            Ok(objects.service(&service).is_none())
        }
        None => Ok(false),
    }
}
