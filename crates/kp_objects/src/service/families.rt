//! What a Service has of each address family.
ghost use Rattle.std.specs.Prelude.{◌≡◌, ◌++◌, [], ◌∷◌, None, cond, map, unwrap_or, OnOk, IfErr};
ghost use Rattle.std.specs.List.{list_any};
ghost use Rattle.kp_base.specs.declared.address.Family.TheVariants.{V6};
ghost use Rattle.kp_base.specs.Net.{same_family};
ghost use Rattle.kp_json.specs.Answers.{IsWant};
ghost use Rattle.kp_lemmas.specs.Lists.{first_places};
ghost use Rattle.kp_row_defs.specs.Reads.{Reads};
ghost use Rattle.kp_event_defs.specs.FamilyParts as parts;
ghost use Rattle.kp_event_defs.specs.ServiceText as spec;

use crate::family::{addresses_of, first_address, ranges_in};
use kp_base::{Address, Cidr, Family, Items};
use kp_json::FieldFault;
use kp_types::{ClusterAddress, Six};
use std::alloc::Global;

/// The cluster addresses as they are written: those of the list, or else the single one.
pub(crate) fn listed_or(
    alloc: Global,
    listed: Items<Option<Address>>,
    single: Option<Option<Address>>,
) -> Result<Items<Option<Address>>, FieldFault>
    ensures { Reads (λ v. v) result None (spec.listed_or listed single) }
{
    match single {
        Some(single) if listed.as_slice().is_empty() => {
            let mut alone = Vec::new(alloc);
            alone.push(single)?;
            Ok(Items::from_vec(alone))
        }
        _ => Ok(listed),
    }
}

fn is_headless(written: &[Option<Address>]) -> bool
    ensures { result ≡ spec.is_headless written.now }
{
    written.iter().any(|cluster| cluster.is_none())
}

/// The cluster addresses, of which a headless Service has none.
pub(crate) fn cluster_addresses(
    alloc: Global,
    written: &[Option<Address>],
) -> Result<Items<Address>, FieldFault>
    ensures { Reads (λ v. v) result None (spec.cluster_addresses written.now) }
{
    if is_headless(written) {
        return Ok(Items::new(alloc));
    }
    let addresses: Vec<Address> = written
        .iter()
        .copied()
        .filter_map(|cluster| cluster)
        .collect(alloc)?;
    Ok(Items::from_vec(addresses))
}

/// The IPv4 cluster address.
pub(crate) fn cluster_of(written: &[Option<Address>], addresses: &[Address]) -> ClusterAddress
    requires { addresses.now ≡ spec.cluster_addresses written.now }
    ensures { result ≡ spec.cluster_of written.now }
{
    if is_headless(written) {
        return ClusterAddress::Headless;
    }
    match first_address(addresses, Family::V4) {
        Some(address) => ClusterAddress::At(address),
        None => ClusterAddress::Absent,
    }
}

/// The families: those that are listed, or else those of the cluster addresses, or else IPv4.
pub(crate) fn families_of(
    alloc: Global,
    listed: &[Family],
    addresses: &[Address],
) -> Result<Items<Family>, FieldFault>
    ensures { Reads (λ v. v) result None (spec.families_of listed.now addresses.now) }
{
    if !listed.is_empty() {
        return once_each(alloc, listed);
    }
    if addresses.is_empty() {
        return once_each(alloc, &[Family::V4]);
    }
    let families = families_among(alloc, addresses)?;
    once_each(alloc, families.as_slice())
}

/// The families of addresses.
fn families_among(alloc: Global, addresses: &[Address]) -> Result<Items<Family>, FieldFault>
    ensures { Reads (λ v. v) result None (map (λ a. a.family) addresses.now) }
{
    let mut families = Vec::new(alloc);
    for address in addresses {
        families.push(address.family())?;
    }
    Ok(Items::from_vec(families))
}

/// Families once each, in order of their first place.
fn once_each(alloc: Global, families: &[Family]) -> Result<Items<Family>, FieldFault>
    ensures { Reads (λ v. v) result None (first_places same_family families.now) }
{
    let mut found = Vec::new(alloc);
    for family in families {
        add_once(&mut found, *family)?;
    }
    Ok(Items::from_vec(found))
}

/// Adds a family that isn't there yet.
fn add_once(found: &mut Vec<Family>, family: Family) -> Result<(), FieldFault>
    ensures ok { OnOk result (found.new.items
        ≡ cond (list_any (same_family family) found.old.items) found.old.items
        (found.old.items ++ family ∷ [])) }
    ensures err { IfErr result IsWant }
{
    if !has_family(found, family) {
        found.push(family)?;
    }
    Ok(())
}

fn has_family(families: &[Family], family: Family) -> bool
    ensures { result ≡ list_any (same_family family) families.now }
{
    families.iter().any(|other| family == *other)
}

/// What a Service has of the family IPv6.
pub(crate) fn six_of_parts(
    alloc: Global,
    clusters: &[Address],
    external: &[Address],
    balancer: &[Address],
    ranges: &Option<Items<Cidr>>,
) -> Result<Six, FieldFault>
    ensures { Reads (λ v. v) result None
        (spec.six_of_parts clusters.now external.now balancer.now ranges.now) }
{
    let external = addresses_of(alloc, external, Family::V6)?;
    let balancer = addresses_of(alloc, balancer, Family::V6)?;
    let ranges = v6_ranges(alloc, ranges)?;
    Ok(Six {
        cluster: first_address(clusters, Family::V6),
        external,
        balancer,
        ranges,
    })
}

/// The IPv6 ranges.
fn v6_ranges(alloc: Global, ranges: &Option<Items<Cidr>>) -> Result<Items<Cidr>, FieldFault>
    ensures { Reads (λ v. v) result None (parts.ranges_in V6 (unwrap_or ranges.now [])) }
{
    match ranges {
        None => Ok(Items::new(alloc)),
        Some(ranges) => ranges_in(alloc, ranges.as_slice(), Family::V6),
    }
}
