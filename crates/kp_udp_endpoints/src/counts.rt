//! How many lists have each endpoint.
ghost use Rattle.std.specs.Prelude.{◌≡◌, ◌++◌, ◌+◌, ◌^◌, ◌<◌, ◌≤◌, ◌==◌, List, length, vec_capacity, vec_len, IfOk, OnErr, OnOk};
ghost use Rattle.std.specs.FinMap.{from_entries};
ghost use Rattle.indexmap.specs.IndexMap.{spare};
ghost use Rattle.kp_base.specs.Keys.{endpoint_cmp};
ghost use Rattle.kp_base.specs.declared.config.Config.{Config as ConfigParts};
ghost use Rattle.kp_base.specs.declared.key.Endpoint.{Endpoint as EndpointParts};
ghost use Rattle.kp_object_defs.specs.Objects as cluster;
ghost use Rattle.kp_udp_endpoints.specs.Counts as spec;

use crate::changed::Changed;
use indexmap::IndexMap;
use kp_base::{Config, Endpoint, Family, NoMemory};
use kp_history_defs::DirtyPort;
use kp_store::Objects;
use std::alloc::Global;
use std::marker::Model;

/// How many lists of UDP ports have each endpoint, in all families of a node. Contracts see a finite
/// map.
pub struct EndpointCounts {
    counts: IndexMap<Endpoint, u64>,
    // How many were ever counted: no count is greater.
    added: u64,
}

impl Drop for EndpointCounts {
    fn drop(self) {
        let EndpointCounts { counts, added: _ } = self;
    }
}

impl Model for EndpointCounts {
    ghost use Rattle.std.specs.Coded.{coded_ℕ};
    ghost use Rattle.std.specs.FinMap as finite;
    ghost use Rattle.kp_base.specs.Keys.{endpoint_cmp};
    ghost use Rattle.kp_base.specs.contracts.key.Endpoint as endpoint_row;
    ghost use Rattle.kp_udp_endpoints.specs.Counts.{AreSound, Counts};

    ghost Value = { Counts };

    ghost coded = { finite.code endpoint_row.the_row.coded coded_ℕ };

    ghost view = { λ c. finite.from_entries {R = endpoint_cmp} c.counts.entries };

    ghost invariant = { λ c. AreSound (finite.from_entries {R = endpoint_cmp} c.counts.entries)
        c.added };
}

impl EndpointCounts {
    /// The counts without any object.
    pub fn new(alloc: Global) -> EndpointCounts
        ensures counted { (config : ConfigParts)
            → spec.AreCounted config cluster.no_objects result }
        ensures none { spec.NoneIsZero result }
    {
        EndpointCounts {
            counts: IndexMap::new(alloc),
            added: 0,
        }
    }

    /// Follows a sync by the ports of which each family knows something else than before it: what
    /// was known of them is told with each, and what is known now is asked of the objects. Tells the
    /// endpoints that fell to none, each once. Without memory all stays.
    pub fn follow(
        &mut self,
        alloc: Global,
        config: &Config,
        objects: &Objects,
        four: &[DirtyPort],
        six: &[DirtyPort],
    ) -> Result<Vec<Endpoint>, NoMemory>
        ensures counted { (before : cluster.Objects)
            → spec.IsFollowed config.now before objects.now four.now six.now self.old
            → OnOk result (spec.AreCounted config.now objects.now self.new) }
        ensures fallen { (before : cluster.Objects)
            → spec.IsFollowed config.now before objects.now four.now six.now self.old
            → IfOk result (λ fallen.
            spec.HaveFallen config.now before objects.now fallen.items) }
        ensures once { IfOk result (λ fallen. spec.AreDistinct fallen.items) }
        ensures none { OnOk result (spec.NoneIsZero self.new) }
        ensures stays { OnErr result (self.new ≡ self.old) }
    {
        kp_object_laws::ports_by_key();
        kp_history_laws::infos_by_name();
        let mut changed = Changed::new(alloc);
        changed.push_ports(alloc, Family::V4, config, objects, four)?;
        changed.push_ports(alloc, Family::V6, config, objects, six)?;
        let fallen = self.change(alloc, changed.came.as_slice(), changed.went.as_slice())?;
        Ok(fallen)
    }

    /// Counts endpoints that came and others that went, one for each time that it is given. Tells
    /// those that fell to none. There is room for all before any is counted.
    fn change(
        &mut self,
        alloc: Global,
        came: &[Endpoint],
        went: &[Endpoint],
    ) -> Result<Vec<Endpoint>, NoMemory>
        ensures counts { OnOk result (self.new
            ≡ spec.without_gone went.now (spec.with_new came.now self.old)) }
        ensures fallen { IfOk result (λ fallen. fallen.items
            ≡ spec.fallen_of went.now (spec.with_new came.now self.old)) }
        ensures none { OnOk result (spec.NoneIsZero self.new) }
        ensures stays { OnErr result (self.new ≡ self.old) }
    {
        let Some(added) = self.added.checked_add(came.len() as u64) else {
            return Err(NoMemory::beyond_counts());
        };
        let mut fallen = Vec::with_capacity(alloc, went.len())?;
        self.counts.reserve(came.len())?;
        self.added = added;
        add_all(&mut self.counts, came);
        take_all(&mut self.counts, went, &mut fallen);
        Ok(fallen)
    }
}

/// Counts endpoints, for which there is room.
fn add_all(counts: &mut IndexMap<Endpoint, u64>, endpoints: &[Endpoint])
    requires room { length endpoints.now ≤ spare counts.old }
    requires low { (e : EndpointParts) → spec.count_of (from_entries {R = endpoint_cmp}
        counts.old.entries) e + length endpoints.now < 2 ^ 64 }
    ensures { from_entries {R = endpoint_cmp} counts.new.entries
        ≡ spec.with_new endpoints.now (from_entries counts.old.entries) }
{
    for endpoint in endpoints {
        add(counts, endpoint);
    }
}

/// Takes endpoints from the counts, and adds those that fell to none, for which there is room.
fn take_all(
    counts: &mut IndexMap<Endpoint, u64>,
    endpoints: &[Endpoint],
    fallen: &mut Vec<Endpoint>,
)
    requires room { vec_len fallen.old + length endpoints.now ≤ vec_capacity fallen.old }
    ensures counts { from_entries {R = endpoint_cmp} counts.new.entries
        ≡ spec.without_gone endpoints.now (from_entries counts.old.entries) }
    ensures fallen { fallen.new.items ≡ fallen.old.items
        ++ spec.fallen_of endpoints.now (from_entries counts.old.entries) }
{
    for endpoint in endpoints {
        if take(counts, endpoint) {
            fallen.push_reserved(*endpoint);
        }
    }
}

/// One more of an endpoint, for which there is room.
fn add(counts: &mut IndexMap<Endpoint, u64>, endpoint: &Endpoint)
    requires room { 0 < spare counts.old }
    requires low { spec.count_of (from_entries counts.old.entries) endpoint.now + 1 < 2 ^ 64 }
    ensures counts { from_entries {R = endpoint_cmp} counts.new.entries
        ≡ spec.one_more (from_entries counts.old.entries) endpoint.now }
    ensures room { spare counts.old ≤ spare counts.new + 1 }
{
    let count = count_in(counts, endpoint);
    let _ = counts.insert(*endpoint, count + 1);
}

/// One fewer of an endpoint, and whether it was the last: what falls to none has no count.
fn take(counts: &mut IndexMap<Endpoint, u64>, endpoint: &Endpoint) -> bool
    ensures counts { from_entries {R = endpoint_cmp} counts.new.entries
        ≡ spec.one_fewer (from_entries counts.old.entries) endpoint.now }
    ensures last { result ≡ (spec.count_of (from_entries counts.old.entries) endpoint.now == 1) }
{
    let count = count_in(counts, endpoint);
    if count <= 1 {
        counts.swap_remove(endpoint);
        count == 1
    } else {
        let _ = counts.insert(*endpoint, count - 1);
        false
    }
}

/// How many there are of an endpoint.
fn count_in(counts: &IndexMap<Endpoint, u64>, endpoint: &Endpoint) -> u64
    ensures { result ≡ spec.count_of (from_entries counts.now.entries) endpoint.now }
{
    match counts.get(endpoint) {
        Some(count) => *count,
        None => 0,
    }
}
