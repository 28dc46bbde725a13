//! The slices that the controller manages for one Service.
ghost use Rattle.std.specs.Prelude.{◌≡◌, ◌||◌, true, map, not, IfOk, OnOk};
ghost use Rattle.std.specs.List.{filter};
ghost use Rattle.kp_base.specs.declared.address.Family.TheVariants.{V4, V6};
ghost use Rattle.kp_base.specs.declared.address.Family.{Family as AnyFamily};
ghost use Rattle.kp_lemmas.specs.Lists.{is_empty};
ghost use Rattle.kp_object_defs.specs.Desired.{desired_endpoints_of};
ghost use Rattle.kp_object_defs.specs.Desired as desired;
ghost use Rattle.kp_object_defs.specs.Entries as entries;
ghost use Rattle.kp_object_defs.specs.OwnKeys.{AreUnderOwnKeys};
ghost use Rattle.kp_object_defs.specs.PackingLaws as laws;
ghost use Rattle.kp_object_defs.specs.PackingLaws.{IsPackingOf};
ghost use Rattle.kp_object_defs.specs.SlicesNow as now;
ghost use Rattle.kp_object_defs.specs.SlicesNow.{after_packing};
ghost use Rattle.kp_settle_laws.specs.Settled.{IsSettled, after_each};
ghost use Rattle.kp_types.specs.Setting.{both_families};
ghost use Rattle.kp_controller.specs.Clashing as clashing;

use crate::replaced::{keys_gone, put_all, take_all};
use crate::slice_map::SliceMap;
use kp_base::{Config, Copied, Family, Items, NoMemory, ObjectKey, Text, fits_memory};
use kp_desired::has_family;
use kp_object_laws::{slices_now, wanted_endpoints};
use kp_packer::pack;
use kp_settle_laws::packing_settles;
use kp_store::{Objects, wanted_of};
use kp_types::{AddressType, Service, Slice};
use std::alloc::Global;

/// What packing a Service in a family starts from.
pub struct Before {
    pub family: Family,
    /// The Service's managed slices of the family.
    pub managed: Items<Slice>,
    /// The names of slices that a new one of the Service may not have.
    pub near: Items<Text>,
}

impl Drop for Before {
    fn drop(self) {
        let Before {
            family,
            managed,
            near,
        } = self;
    }
}

/// Packs a Service of the objects in both families: its managed slices of each hold the endpoints
/// that it wants there, so it is settled. One look at its slices finds those of both; only where
/// IPv6 has anything to pack its slices are looked at again, since the names of the new ones of
/// IPv4 count.
pub fn pack_service(
    alloc: Global,
    config: &Config,
    objects: &Objects,
    service: &Service,
    slices: &mut SliceMap,
) -> Result<(), NoMemory>
    requires own { AreUnderOwnKeys objects.now }
    ensures packed { OnOk result (slices.new
        ≡ after_each both_families config.now.max_per_slice objects.now slices.old service.now) }
    ensures settled { OnOk result ((family : AnyFamily)
        → IsSettled family config.now.max_per_slice objects.now slices.new service.now) }
{
    packing_settles();
    slices.own_keys();
    let (four, six, near) = managed_now(alloc, &service.key, slices)?;
    let four = Before {
        family: Family::V4,
        managed: four,
        near,
    };
    pack_family(alloc, config, objects, service, &four, slices)?;
    if !is_due(service, Family::V6, six.as_slice()) {
        return Ok(());
    }
    let near = names_near(alloc, &service.key, slices)?;
    let six = Before {
        family: Family::V6,
        managed: six,
        near,
    };
    pack_family(alloc, config, objects, service, &six, slices)?;
    Ok(())
}

/// Whether there may be anything to pack in a family: it is the Service's, or the controller
/// manages slices of it.
fn is_due(service: &Service, family: Family, managed: &[Slice]) -> bool
    ensures { result ≡ (desired.has_family family service.now || not (is_empty managed.now)) }
{
    has_family(service, family) || !managed.is_empty()
}

/// Packs a Service of the objects in a family: its managed slices hold the endpoints that it wants
/// there, so it is settled.
fn pack_family(
    alloc: Global,
    config: &Config,
    objects: &Objects,
    service: &Service,
    before: &Before,
    slices: &mut SliceMap,
) -> Result<(), NoMemory>
    requires own { AreUnderOwnKeys objects.now }
    requires managed { before.now.managed
        ≡ now.managed_slices before.now.family service.now.key slices.now }
    requires near { before.now.near ≡ clashing.names_near service.now.key slices.now }
    ensures packed { OnOk result (slices.new ≡ after_packing config.now.max_per_slice
        objects.now service.now slices.old before.now.family) }
    ensures settled { OnOk result (IsSettled before.now.family config.now.max_per_slice
        objects.now slices.new service.now) }
{
    packing_settles();
    slices.own_keys();
    let packed = packed_now(alloc, config, objects, service, before, slices)?;
    let gone = keys_gone(alloc, before.managed.as_slice(), packed.as_slice())?;
    take_all(alloc, gone.as_slice(), slices)?;
    put_all(alloc, packed, slices)
}

/// What packing a Service in a family makes of its managed slices.
fn packed_now(
    alloc: Global,
    config: &Config,
    objects: &Objects,
    service: &Service,
    before: &Before,
    slices: &SliceMap,
) -> Result<Items<Slice>, NoMemory>
    requires own { AreUnderOwnKeys objects.now }
    requires managed { before.now.managed
        ≡ now.managed_slices before.now.family service.now.key slices.now }
    requires near { before.now.near ≡ clashing.names_near service.now.key slices.now }
    ensures packed { IfOk result (λ packed. packed ≡ (now.packed_now before.now.family
        config.now.max_per_slice objects.now service.now slices.now).slices) }
    ensures packing { IfOk result (λ packed. IsPackingOf config.now.max_per_slice
        (desired_endpoints_of before.now.family objects.now service.now) packed) }
    ensures fits { IfOk result (λ packed.
        (laws.are_managed_for before.now.family service.now.key packed ≡ true)
        × (laws.have_own_names packed ≡ true)) }
{
    let family = before.family;
    let wanted = wanted_of(alloc, objects, service, family)?;
    fits_memory(before.near.as_slice());
    fits_memory(wanted.as_slice());
    slices.own_keys();
    slices_now();
    wanted_endpoints();
    let most = config.max_per_slice;
    let (managed, near) = (&before.managed, &before.near);
    let packed = pack(alloc, &service.key, family, managed, &wanted, most, near)?;
    Ok(packed.slices)
}

/// A Service's managed slices of IPv4 and of IPv6, and the names that a new one of its slices may
/// not have.
fn managed_now(
    alloc: Global,
    service: &ObjectKey,
    slices: &SliceMap,
) -> Result<(Items<Slice>, Items<Slice>, Items<Text>), NoMemory>
    ensures four { IfOk result (λ (four, _, _). four
        ≡ now.managed_slices V4 service.now slices.now) }
    ensures six { IfOk result (λ (_, six, _). six
        ≡ now.managed_slices V6 service.now slices.now) }
    ensures near { IfOk result (λ (_, _, near). near
        ≡ clashing.names_near service.now slices.now) }
{
    let found = slices.near(alloc, service)?;
    let four = managed_among(alloc, service, Family::V4, found.as_slice())?;
    let six = managed_among(alloc, service, Family::V6, found.as_slice())?;
    let near = names_of(alloc, found.as_slice())?;
    Ok((four, six, near))
}

/// The names that a new one of a Service's slices may not have.
fn names_near(
    alloc: Global,
    service: &ObjectKey,
    slices: &SliceMap,
) -> Result<Items<Text>, NoMemory>
    ensures { IfOk result (λ near. near ≡ clashing.names_near service.now slices.now) }
{
    let found = slices.near(alloc, service)?;
    names_of(alloc, found.as_slice())
}

/// The slices among these that the controller manages for a Service in a family.
fn managed_among<'a>(
    alloc: Global,
    service: &ObjectKey,
    family: Family,
    slices: &[&'a Slice],
) -> Result<Items<Slice>, NoMemory>
    ensures { IfOk result (λ ss. ss
        ≡ filter (laws.is_managed_for family service.now) (map (λ s. s.now) slices.now)) }
{
    let mut managed = Vec::new(alloc);
    for slice in slices {
        if is_managed_for(service, family, slice) {
            managed.push(slice.copy(alloc)?)?;
        }
    }
    Ok(Items::from_vec(managed))
}

/// Whether the controller manages a slice for a Service in a family.
fn is_managed_for(service: &ObjectKey, family: Family, slice: &Slice) -> bool
    ensures { result ≡ laws.is_managed_for family service.now slice.now }
{
    // Names differ where namespaces seldom do.
    slice.managed
        && is_type_of(family, slice.family)
        && is_named(&slice.service, &service.name)
        && slice.key.namespace == service.namespace
}

/// Whether slices of an address type have endpoints of a family.
fn is_type_of(family: Family, slices: AddressType) -> bool
    ensures { result ≡ entries.is_type_of family slices }
{
    match family {
        Family::V4 => slices == AddressType::Ipv4,
        Family::V6 => slices == AddressType::Ipv6,
    }
}

/// Whether there is a name, and it is this one.
fn is_named(name: &Option<Text>, wanted: &Text) -> bool
    ensures { result ≡ entries.is_named wanted.now name.now }
{
    match name {
        Some(name) => *name == *wanted,
        None => false,
    }
}

/// The names of slices.
fn names_of<'a>(alloc: Global, slices: &[&'a Slice]) -> Result<Items<Text>, NoMemory>
    ensures { IfOk result (λ ns. ns ≡ map (λ s. s.key.name) (map (λ s. s.now) slices.now)) }
{
    let mut names = Vec::with_capacity(alloc, slices.len())?;
    for slice in slices {
        names.push(slice.key.name.copy(alloc)?)?;
    }
    Ok(Items::from_vec(names))
}
