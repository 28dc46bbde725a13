//! What differs at a door: its state, its lists of endpoints, how it chooses and whom it admits.
ghost use Rattle.std.specs.Prelude.{◌≡◌, ◌++◌, IfOk, OnErr, OnOk, codes, length};
ghost use Rattle.std.specs.Prelude.{string_bytes};
ghost use Rattle.std.specs.List.{flat_map};
ghost use Rattle.kp_print.specs.Fronts.{HasFront};
ghost use Rattle.kp_change_defs.specs.ValueText as spec;
ghost use Rattle.kp_changes.specs.Counted as counted;

use crate::change::DoorChange;
use crate::told::push_value;
use crate::values::{DoorValues, is_one_list};
use kp_base::{Endpoint, NoMemory};
use kp_chains::add_others;
use kp_change_defs::DoorState;
use kp_print::{push, push_endpoint, push_labelled};
use std::alloc::Global;

/// Adds the state before and, where it differs, the state after.
pub fn push_states(
    text: &mut String,
    before: &DoorValues<'_>,
    after: &DoorValues<'_>,
) -> Result<(), NoMemory>
    ensures added { OnOk result (string_bytes text.new
        ≡ string_bytes text.old ++ spec.states_text before.now after.now) }
    ensures front { OnErr result (HasFront text.new text.old) }
{
    push_state(text, before)?;
    push_state_unless(text, same_state(before, after), after)
}

/// Adds the state after, unless it is the same.
fn push_state_unless(text: &mut String, same: bool, after: &DoorValues<'_>) -> Result<(), NoMemory>
    ensures added { OnOk result (string_bytes text.new
        ≡ string_bytes text.old ++ spec.unless same (spec.now_text (spec.state_of after.now))) }
    ensures front { OnErr result (HasFront text.new text.old) }
{
    if same {
        return Ok(());
    }
    push(text, ", now ")?;
    push_state(text, after)
}

/// Whether two states, with their numbers of endpoints, are one.
fn same_state(a: &DoorValues<'_>, b: &DoorValues<'_>) -> bool
    ensures { result ≡ spec.same_state a.now b.now }
{
    a.state == b.state && a.list.len() == b.list.len()
}

/// Adds the state of a door with these values.
fn push_state(text: &mut String, values: &DoorValues<'_>) -> Result<(), NoMemory>
    ensures added { OnOk result (string_bytes text.new
        ≡ string_bytes text.old ++ spec.state_of values.now) }
    ensures front { OnErr result (HasFront text.new text.old) }
{
    match values.state {
        DoorState::Absent => push(text, "absent"),
        DoorState::Open => push_labelled(text, "open ", values.list.len() as u64),
        DoorState::NoLocalEndpoints => push(text, "no local endpoints"),
        DoorState::NoEndpoints => push(text, "no endpoints"),
        DoorState::Closed => push(text, "closed"),
    }
}

/// Adds the endpoints that came into a list, and those that went.
pub fn push_list(
    alloc: Global,
    text: &mut String,
    before: &DoorValues<'_>,
    after: &DoorValues<'_>,
) -> Result<(), NoMemory>
    ensures added { OnOk result (string_bytes text.new
        ≡ string_bytes text.old ++ spec.list_text before.now after.now) }
    ensures front { OnErr result (HasFront text.new text.old) }
{
    push_beyond(alloc, text, "new", before.list, after.list)?;
    push_beyond(alloc, text, "gone", after.list, before.list)
}

/// Adds the endpoints of a list that another one lacks, under a word.
fn push_beyond(
    alloc: Global,
    text: &mut String,
    word: &str,
    others: &[Endpoint],
    endpoints: &[Endpoint],
) -> Result<(), NoMemory>
    ensures added { OnOk result (string_bytes text.new ≡ string_bytes text.old
        ++ spec.endpoints_text word.now (spec.beyond others.now endpoints.now)) }
    ensures front { OnErr result (HasFront text.new text.old) }
{
    let beyond = beyond(alloc, others, endpoints)?;
    push_endpoints(text, word, beyond.as_slice())
}

/// The endpoints of a list that another one lacks.
fn beyond(
    alloc: Global,
    others: &[Endpoint],
    endpoints: &[Endpoint],
) -> Result<Vec<Endpoint>, NoMemory>
    ensures { IfOk result (λ es. es.items ≡ spec.beyond others.now endpoints.now) }
{
    let mut beyond = Vec::new(alloc);
    add_others(alloc, &mut beyond, others, endpoints)?;
    Ok(beyond)
}

/// Adds endpoints under a word, where there are some.
fn push_endpoints(text: &mut String, word: &str, endpoints: &[Endpoint]) -> Result<(), NoMemory>
    ensures added { OnOk result (string_bytes text.new
        ≡ string_bytes text.old ++ spec.endpoints_text word.now endpoints.now) }
    ensures front { OnErr result (HasFront text.new text.old) }
{
    let Some((first, rest)) = endpoints.split_first() else {
        return Ok(());
    };
    push(text, "; ")?;
    push(text, word)?;
    push(text, " ")?;
    push_endpoint(text, first)?;
    push_more_endpoints(text, rest)
}

fn push_more_endpoints(text: &mut String, endpoints: &[Endpoint]) -> Result<(), NoMemory>
    ensures added { OnOk result (string_bytes text.new
        ≡ string_bytes text.old ++ flat_map spec.next_endpoint_text endpoints.now) }
    ensures front { OnErr result (HasFront text.new text.old) }
{
    for endpoint in endpoints {
        push(text, ", ")?;
        push_endpoint(text, endpoint)?;
    }
    Ok(())
}

/// Adds the policy, the affinity and the sources, where they differ.
pub fn push_values(text: &mut String, change: &DoorChange<'_>) -> Result<(), NoMemory>
    ensures added { OnOk result (string_bytes text.new
        ≡ string_bytes text.old ++ spec.values_text change.now) }
    ensures front { OnErr result (HasFront text.new text.old) }
{
    let (before, after) = (&change.before, &change.after);
    let comes = comes(change);
    push_value(text, comes, &before.policy, &after.policy)?;
    push_value(text, comes, &before.affinity, &after.affinity)?;
    push_value(text, comes, &before.sources, &after.sources)
}

/// Whether a door comes: there was none.
pub fn comes(change: &DoorChange<'_>) -> bool
    ensures { result ≡ spec.comes change.now }
{
    change.before.state == DoorState::Absent
}

/// Whether a door goes: there is none any more.
pub fn goes(change: &DoorChange<'_>) -> bool
    ensures { result ≡ spec.goes change.now }
{
    change.after.state == DoorState::Absent
}

/// Adds the list for sources inside, where in either record it is another one.
pub fn push_inside(
    alloc: Global,
    text: &mut String,
    change: &DoorChange<'_>,
) -> Result<(), NoMemory>
    ensures added { OnOk result (string_bytes text.new
        ≡ string_bytes text.old ++ spec.inside_text change.now) }
    ensures front { OnErr result (HasFront text.new text.old) }
{
    let is_one = has_one_list(&change.before) && has_one_list(&change.after);
    push_inside_unless(alloc, text, is_one, change)
}

/// Whether sources inside have the same list.
fn has_one_list(values: &DoorValues<'_>) -> bool
    ensures { result ≡ spec.is_one_list values.now }
{
    is_one_list(values.inside, values.list)
}

/// Adds the list for sources inside, unless it is the other one in both records.
fn push_inside_unless(
    alloc: Global,
    text: &mut String,
    is_one: bool,
    change: &DoorChange<'_>,
) -> Result<(), NoMemory>
    ensures added { OnOk result (string_bytes text.new ≡ string_bytes text.old
        ++ spec.unless is_one (codes "; " ++ spec.inside_counts_text change.now
        ++ spec.endpoints_text (codes "inside new")
        (spec.beyond change.now.before.inside change.now.after.inside)
        ++ spec.endpoints_text (codes "inside gone")
        (spec.beyond change.now.after.inside change.now.before.inside))) }
    ensures front { OnErr result (HasFront text.new text.old) }
{
    if is_one {
        return Ok(());
    }
    let (before, after) = (change.before.inside, change.after.inside);
    push_inside_lists(alloc, text, comes(change), before, after)
}

/// Adds how many endpoints sources inside have, those that came into their list, and those that
/// went.
fn push_inside_lists(
    alloc: Global,
    text: &mut String,
    comes: bool,
    before: &[Endpoint],
    after: &[Endpoint],
) -> Result<(), NoMemory>
    ensures added { OnOk result (string_bytes text.new ≡ string_bytes text.old
        ++ (codes "; " ++ counted.inside_counts comes (length before.now) (length after.now)
        ++ spec.endpoints_text (codes "inside new") (spec.beyond before.now after.now)
        ++ spec.endpoints_text (codes "inside gone") (spec.beyond after.now before.now))) }
    ensures front { OnErr result (HasFront text.new text.old) }
{
    push(text, "; ")?;
    push_inside_counts(text, comes, before.len(), after.len())?;
    push_beyond(alloc, text, "inside new", before, after)?;
    push_beyond(alloc, text, "inside gone", after, before)
}

/// Adds how many endpoints sources inside have after, by itself at a door that comes, or else where
/// it differs.
fn push_inside_counts(
    text: &mut String,
    comes: bool,
    before: usize,
    after: usize,
) -> Result<(), NoMemory>
    ensures added { OnOk result (string_bytes text.new ≡ string_bytes text.old
        ++ counted.inside_counts comes before after) }
    ensures front { OnErr result (HasFront text.new text.old) }
{
    if comes {
        return push_inside_count(text, after);
    }
    push_inside_count(text, before)?;
    push_count_unless(text, before == after, after)
}

/// Adds how many there are after, unless there are as many.
fn push_count_unless(text: &mut String, same: bool, count: usize) -> Result<(), NoMemory>
    ensures added { OnOk result (string_bytes text.new ≡ string_bytes text.old
        ++ spec.unless same (spec.now_text (counted.inside_count count))) }
    ensures front { OnErr result (HasFront text.new text.old) }
{
    if same {
        return Ok(());
    }
    push(text, ", now ")?;
    push_inside_count(text, count)
}

fn push_inside_count(text: &mut String, count: usize) -> Result<(), NoMemory>
    ensures added { OnOk result (string_bytes text.new
        ≡ string_bytes text.old ++ counted.inside_count count) }
    ensures front { OnErr result (HasFront text.new text.old) }
{
    push_labelled(text, "inside open ", count as u64)
}
