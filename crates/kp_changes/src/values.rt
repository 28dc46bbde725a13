//! The values of a door.
ghost use Rattle.std.specs.Prelude.{◌≡◌, option_copied};
ghost use Rattle.std.specs.Cmp.Lexicographic.{pointwise};
ghost use Rattle.kp_base.specs.contracts.key.EndpointPartialEq.TheImpl as endpoint_eq;
ghost use Rattle.kp_object_defs.specs.Lists.{list_by_policy};
ghost use Rattle.kp_change_defs.specs.DoorValues as spec;

use kp_base::{Cidr, Endpoint};
use kp_change_defs::DoorState;
use kp_decide::Door;
use kp_types::{DoorKind, Lists, Policy, PortInfo};
use std::marker::Model;

/// What a door offers, whatever packet comes. What is known of its port lends its lists.
#[derive(Drop)]
pub struct DoorValues<'a> {
    pub state: DoorState,
    pub list: &'a [Endpoint],
    pub inside: &'a [Endpoint],
    pub policy: Policy,
    pub affinity: Option<u32>,
    pub sources: Option<&'a [Cidr]>,
}

impl<'a> Model for DoorValues<'a> {
    ghost use Rattle.std.specs.Prelude.{option_copied};
    ghost use Rattle.kp_change_defs.specs.DoorValues as spec;
    ghost use Rattle.kp_changes.specs.Stored.{values_code};

    ghost Value = { spec.DoorValues };

    ghost coded = { values_code };

    ghost view = { λ v. record {
      state = v.state;
      list = v.list.now;
      inside = v.inside.now;
      policy = v.policy;
      affinity = v.affinity;
      sources = option_copied v.sources;
    } };
}

/// The values of a door that isn't there.
pub fn absent<'a>() -> DoorValues<'a>
    ensures { result ≡ spec.absent }
{
    DoorValues {
        state: DoorState::Absent,
        list: &[],
        inside: &[],
        policy: Policy::Cluster,
        affinity: None,
        sources: None,
    }
}

/// The values of a door.
pub fn values_of<'a>(door: &Door<'a>) -> DoorValues<'a>
    ensures { result ≡ spec.values_of door.now }
{
    let (kind, info) = (door.kind, door.info);
    let state = state_at(kind, info);
    DoorValues {
        state,
        list: unless_closed(state, list_at(kind, info)),
        inside: unless_closed(state, inside_at(kind, info)),
        policy: policy_at(kind, info),
        affinity: info.affinity,
        sources: sources_at(kind, info),
    }
}

/// The policy that chooses a door's list.
fn policy_at(kind: DoorKind, info: &PortInfo) -> Policy
    ensures { result ≡ spec.policy_at kind info.now }
{
    match kind {
        DoorKind::Cluster => info.internal,
        DoorKind::External | DoorKind::Balancer | DoorKind::Node => info.outer,
    }
}

/// A door's list.
fn list_at(kind: DoorKind, info: &PortInfo) -> &[Endpoint]
    ensures { result.now ≡ spec.list_at kind info.now }
{
    list_of(policy_at(kind, info), &info.lists)
}

/// The list for sources of the cluster and of the node.
fn inside_at(kind: DoorKind, info: &PortInfo) -> &[Endpoint]
    ensures { result.now ≡ spec.inside_at kind info.now }
{
    match kind {
        DoorKind::Cluster => list_of(info.internal, &info.lists),
        DoorKind::External | DoorKind::Balancer | DoorKind::Node => info.lists.cluster.as_slice(),
    }
}

/// The list of a policy.
fn list_of(policy: Policy, lists: &Lists) -> &[Endpoint]
    ensures { result.now ≡ list_by_policy policy lists.now }
{
    match policy {
        Policy::Cluster => lists.cluster.as_slice(),
        Policy::Local => lists.local.as_slice(),
    }
}

/// The source ranges, which count at load-balancer addresses.
fn sources_at(kind: DoorKind, info: &PortInfo) -> Option<&[Cidr]>
    ensures { option_copied result ≡ spec.sources_at kind info.now }
{
    match (kind, &info.ranges) {
        (DoorKind::Balancer, Some(ranges)) => Some(ranges.as_slice()),
        _ => None,
    }
}

/// The state of a door: where there are endpoints and nobody is admitted it is closed.
fn state_at(kind: DoorKind, info: &PortInfo) -> DoorState
    ensures { result ≡ spec.state_at kind info.now }
{
    if info.lists.has_any && admits_nobody(sources_at(kind, info)) {
        DoorState::Closed
    } else {
        state_of(list_at(kind, info), info.lists.has_any)
    }
}

/// Whether sources are restricted to none at all.
fn admits_nobody(sources: Option<&[Cidr]>) -> bool
    ensures { result ≡ spec.admits_nobody (option_copied sources.entry) }
{
    match sources {
        Some(ranges) => ranges.is_empty(),
        None => false,
    }
}

/// The state of a door by its list, and by whether its port has any endpoint.
fn state_of(list: &[Endpoint], has_any: bool) -> DoorState
    ensures { result ≡ spec.state_of_list list.now has_any }
{
    if !list.is_empty() {
        DoorState::Open
    } else if has_any {
        DoorState::NoLocalEndpoints
    } else {
        DoorState::NoEndpoints
    }
}

/// A list where the door isn't closed.
fn unless_closed(state: DoorState, list: &[Endpoint]) -> &[Endpoint]
    ensures { result.now ≡ spec.unless_closed state list.now }
{
    match state {
        DoorState::Closed => &[],
        _ => list,
    }
}

/// Whether two doors have the same values.
pub fn same_values(a: &DoorValues<'_>, b: &DoorValues<'_>) -> bool
    ensures { result ≡ spec.same_values a.now b.now }
{
    a.state == b.state
        && same_lists(a, b)
        && a.policy == b.policy
        && a.affinity == b.affinity
        && same_sources(a.sources, b.sources)
}

/// Whether two doors have the same lists.
fn same_lists(a: &DoorValues<'_>, b: &DoorValues<'_>) -> bool
    ensures { result ≡ spec.same_lists a.now b.now }
{
    is_one_list(a.list, b.list) && is_one_list(a.inside, b.inside)
}

/// Whether two lists are one.
pub fn is_one_list(a: &[Endpoint], b: &[Endpoint]) -> bool
    ensures { result ≡ pointwise endpoint_eq.ghosts.eq a.now b.now }
{
    a == b
}

/// Whether two restrictions are one.
pub fn same_sources(a: Option<&[Cidr]>, b: Option<&[Cidr]>) -> bool
    ensures { result ≡ spec.same_sources (option_copied a.entry) (option_copied b.entry) }
{
    match (a, b) {
        (None, None) => true,
        (Some(a), Some(b)) => a == b,
        _ => false,
    }
}
