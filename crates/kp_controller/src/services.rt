//! The Services that events touched.
ghost use Rattle.std.specs.Prelude.{◌≡◌, ◌++◌, map, IfOk, OnOk, option_copied};
ghost use Rattle.std.specs.List.{filter, filter_map};
ghost use Rattle.std.specs.Option.{option_to_list};
ghost use Rattle.std.specs.FinMap as finite;
ghost use Rattle.kp_object_defs.specs.OwnKeys.{AreUnderOwnKeys};
ghost use Rattle.kp_store.specs.Touched.{is_touched};

use kp_base::{NoMemory, ObjectKey};
use kp_store::{Objects, Touched};
use kp_types::Service;
use std::alloc::Global;

/// The Services that were touched and are there, in order of their keys. Unless all were, only those
/// that were are looked up.
pub fn services_touched<'a>(
    alloc: Global,
    objects: &'a Objects,
    touched: &Touched,
) -> Result<Vec<&'a Service>, NoMemory>
    requires own_keys { AreUnderOwnKeys objects.now }
    ensures { IfOk result (λ ss. map (λ s. s.now) ss.items
        ≡ filter (λ s. is_touched touched.now s.key) (finite.values objects.now.services)) }
{
    if touched.all {
        return objects.all_services(alloc);
    }
    let keys = touched.keys.keys(alloc)?;
    services_at(alloc, objects, keys.as_slice())
}

/// The Services of keys that are there, in this order.
fn services_at<'a, 'k>(
    alloc: Global,
    objects: &'a Objects,
    keys: &[&'k ObjectKey],
) -> Result<Vec<&'a Service>, NoMemory>
    ensures { IfOk result (λ ss. map (λ s. s.now) ss.items
        ≡ filter_map (finite.get objects.now.services) (map (λ k. k.now) keys.now)) }
{
    let mut services = Vec::new(alloc);
    for key in keys {
        add_found(&mut services, objects.service(key))?;
    }
    Ok(services)
}

/// Adds a Service, if there is one.
fn add_found<'a>(
    services: &mut Vec<&'a Service>,
    service: Option<&'a Service>,
) -> Result<(), NoMemory>
    ensures { OnOk result (map (λ s. s.now) services.new.items
        ≡ map (λ s. s.now) services.old.items ++ option_to_list (option_copied service.entry)) }
{
    if let Some(service) = service {
        services.push(service)?;
    }
    Ok(())
}
