//! What the controller does at a sync.
ghost use Rattle.std.specs.Prelude.{◌≡◌, map, IfOk, OnOk};
ghost use Rattle.std.specs.List.{filter, fold};
ghost use Rattle.kp_object_defs.specs.Desired as desired;
ghost use Rattle.kp_object_defs.specs.OwnKeys.{AreUnderOwnKeys};
ghost use Rattle.kp_object_defs.specs.SlicesNow.{after_controller, controller_step};
ghost use Rattle.kp_settle_laws.specs.Settled.{AreLeftBy, AreSettledBut, IsControlledBut};
ghost use Rattle.kp_settle_laws.specs.Settled.{after_each, none};
ghost use Rattle.kp_store.specs.Touched.{is_touched};
ghost use Rattle.kp_types.specs.Setting.{both_families};
ghost use Rattle.kp_controller.specs.Settling.{Settles};

use crate::leftovers::remove_touched;
use crate::managed::pack_service;
use crate::services::services_touched;
use crate::slice_map::SliceMap;
use kp_base::{Config, NoMemory};
use kp_settle_laws::{packing_settles, touched_are_enough};
use kp_store::{Objects, Touched};
use kp_types::{Service, ServiceKind};
use std::alloc::Global;

/// Makes the slices what the controller makes them at a sync that covers these objects (KEP-752;
/// Kubernetes documents on IPv4/IPv6 dual-stack): those of absent Services go, and each Service
/// with a selector is packed, in order of their keys, in IPv4 and then in IPv6. Where the
/// controller is off, all stays. Since all is as the controller left it but for the touched
/// Services, only these are packed, and only slices near to them are looked at for those that are
/// left over; after it all is as the controller leaves it. Without memory the slices are let go.
pub fn control(
    alloc: Global,
    config: &Config,
    objects: &Objects,
    touched: &Touched,
    mut slices: SliceMap,
) -> Result<SliceMap, NoMemory>
    requires own_keys { AreUnderOwnKeys objects.now }
    requires controlled { IsControlledBut (is_touched touched.now) config.now objects.now slices }
    ensures ok { IfOk result (λ made. made
        ≡ controller_step both_families config.now objects.now slices) }
    ensures controlled { IfOk result (IsControlledBut none config.now objects.now) }
{
    settle_if_on(alloc, config, objects, touched, &mut slices)?;
    Ok(slices)
}

/// Does so where the controller is on.
fn settle_if_on(
    alloc: Global,
    config: &Config,
    objects: &Objects,
    touched: &Touched,
    slices: &mut SliceMap,
) -> Result<(), NoMemory>
    requires own_keys { AreUnderOwnKeys objects.now }
    requires controlled { IsControlledBut (is_touched touched.now) config.now objects.now
        slices.now }
    ensures ok { OnOk result (slices.new
        ≡ controller_step both_families config.now objects.now slices.old) }
    ensures controlled { OnOk result (IsControlledBut none config.now objects.now slices.new) }
{
    if config.controller {
        settle(alloc, config, objects, touched, slices)
    } else {
        Ok(())
    }
}

/// Takes out the slices that are left over, and packs the touched Services.
fn settle(
    alloc: Global,
    config: &Config,
    objects: &Objects,
    touched: &Touched,
    slices: &mut SliceMap,
) -> Result<(), NoMemory>
    requires own_keys { AreUnderOwnKeys objects.now }
    requires settled { AreSettledBut (is_touched touched.now) config.now.max_per_slice objects.now
        slices.now }
    requires left { AreLeftBy (is_touched touched.now) objects.now slices.now }
    ensures ok { OnOk result (slices.new
        ≡ after_controller both_families config.now.max_per_slice objects.now slices.old) }
    ensures settled { OnOk result (AreSettledBut none config.now.max_per_slice objects.now
        slices.new) }
    ensures left { OnOk result (AreLeftBy none objects.now slices.new) }
{
    packing_settles();
    touched_are_enough();
    slices.own_keys();
    remove_touched(alloc, objects, touched, slices)?;
    let few = services_touched(alloc, objects, touched)?;
    slices.own_keys();
    pack_services(alloc, config, objects, few.as_slice(), slices)
}

/// Packs Services of the objects, in this order. Those of them with a selector are settled.
fn pack_services<'a>(
    alloc: Global,
    config: &Config,
    objects: &Objects,
    services: &[&'a Service],
    slices: &mut SliceMap,
) -> Result<(), NoMemory>
    requires own { AreUnderOwnKeys objects.now }
    ensures packed { OnOk result (slices.new
        ≡ fold (after_each both_families config.now.max_per_slice objects.now) slices.old
        (filter desired.has_selector (map (λ s. s.now) services.now))) }
    ensures settles { OnOk result (Settles config.now.max_per_slice objects.now
        (map (λ s. s.now) services.now) slices.old slices.new) }
{
    packing_settles();
    for service in services {
        slices.own_keys();
        if has_selector(service) {
            pack_service(alloc, config, objects, service, slices)?;
        }
    }
    Ok(())
}

/// Whether the controller makes slices for a Service.
fn has_selector(service: &Service) -> bool
    ensures { result ≡ desired.has_selector service.now }
{
    !service.selector.as_slice().is_empty() && service.kind != ServiceKind::ExternalName
}
