//! Endpoints that stand by a table.
ghost use Rattle.std.specs.Prelude.{◌≡◌, ℕ, ◌++◌, List, not};
ghost use Rattle.std.specs.List.{filter, filter_map, list_any};
ghost use Rattle.std.specs.Option.{option_to_list};
ghost use Rattle.kp_base.specs.declared.key.Endpoint.{Endpoint as EndpointParts};
ghost use Rattle.kp_conntrack.specs.Buckets.{endpoint_place};
ghost use Rattle.kp_conntrack.specs.Laid.{IsIndexed, IsLaid, entries_in, kept_rows};
ghost use Rattle.kp_conntrack.specs.Marked.{AreMarkedBy, AreMarkedToo, HasRows, goes};
ghost use Rattle.kp_conntrack.specs.Standing as spec;
ghost use Rattle.kp_track_defs.specs.Kept.{is_sent_to};
ghost use Rattle.kp_track_defs.specs.Stands.{is_endpoint};
ghost use Rattle.kp_track_defs.specs.Tracking.{loses};

use crate::buckets::{ROWS, endpoint_bucket};
use crate::index::Index;
use crate::marks::Marks;
use crate::rows::{KEPT, free_if};
use crate::sought::OfEndpoint;
use kp_base::{Endpoint, Proto};
use kp_links::{Links, Test};
use kp_rules::Table;
use kp_track_defs::Entry;
use kp_types::{ChainAt, Match, Rule, TableName, Target};

/// Whether a table translates destinations.
fn is_nat(table: TableName) -> bool
    ensures { result ≡ spec.is_nat table }
{
    match table {
        TableName::Nat => true,
        TableName::Nat6 => true,
        TableName::Filter => false,
        TableName::Filter6 => false,
    }
}

/// Whether a match asks for UDP, with a port or without.
fn is_udp(asked: &Match) -> bool
    ensures { result ≡ spec.is_udp asked.now }
{
    match asked {
        Match::Proto { proto } => *proto == Proto::Udp,
        Match::Port { proto, port: _ } => *proto == Proto::Udp,
        _ => false,
    }
}

/// Whether one of these matches asks for UDP.
fn asks_udp(matches: &[Match]) -> bool
    ensures { result ≡ list_any spec.is_udp matches.now }
{
    matches.iter().any(|asked| is_udp(asked))
}

/// Where a rule sends packets of UDP to.
fn udp_target(rule: &Rule) -> Option<Endpoint>
    ensures { result ≡ spec.udp_target rule.now }
{
    if !asks_udp(rule.matches.as_slice()) {
        return None;
    }
    match &rule.target {
        Target::Dnat(endpoint) => Some(*endpoint),
        _ => None,
    }
}

/// Marks the rows of UDP that were sent to an endpoint.
fn mark_sent_to(rows: &[Entry], endpoints: &Links, endpoint: &Endpoint, marks: &mut Marks)
    requires { HasRows rows.now endpoints.now }
    ensures { (kept : List ℕ) → IsIndexed rows.now kept endpoint_place endpoints.now
        → AreMarkedToo (is_sent_to endpoint.now) rows.now kept marks.old marks.new }
{
    let sought = OfEndpoint { rows, endpoint };
    let bucket = endpoint_bucket(endpoint);
    let mut next = endpoints.front(bucket);
    for _turn in 0..ROWS {
        let Some(row) = next else {
            return;
        };
        next = endpoints.after(bucket, row);
        marks.mark(row, sought.passes(row));
    }
}

/// Marks the rows of UDP that were sent to where a rule sends packets of UDP.
fn mark_target(rows: &[Entry], endpoints: &Links, rule: &Rule, marks: &mut Marks)
    requires { HasRows rows.now endpoints.now }
    ensures { (kept : List ℕ) (others : List EndpointParts)
        → IsIndexed rows.now kept endpoint_place endpoints.now
        → AreMarkedBy rows.now kept others marks.old
        → AreMarkedBy rows.now kept (others ++ option_to_list (spec.udp_target rule.now))
        marks.new }
{
    if let Some(endpoint) = udp_target(rule) {
        mark_sent_to(rows, endpoints, &endpoint, marks);
    }
}

/// Marks those that were sent to where these rules do.
fn mark_targets(rows: &[Entry], endpoints: &Links, rules: &[Rule], marks: &mut Marks)
    requires { HasRows rows.now endpoints.now }
    ensures { (kept : List ℕ) (others : List EndpointParts)
        → IsIndexed rows.now kept endpoint_place endpoints.now
        → AreMarkedBy rows.now kept others marks.old
        → AreMarkedBy rows.now kept (others ++ filter_map spec.udp_target rules.now) marks.new }
{
    for rule in rules {
        mark_target(rows, endpoints, rule, marks);
    }
}

/// Marks those that were sent to where the chain at this place of a table does.
fn mark_targets_at(
    rows: &[Entry],
    endpoints: &Links,
    table: &Table,
    at: &ChainAt,
    marks: &mut Marks,
)
    requires { HasRows rows.now endpoints.now }
    ensures { (kept : List ℕ) (others : List EndpointParts)
        → IsIndexed rows.now kept endpoint_place endpoints.now
        → AreMarkedBy rows.now kept others marks.old
        → AreMarkedBy rows.now kept (others ++ spec.udp_targets_at table.now.chains at.now)
        marks.new }
{
    if !is_nat(at.table) {
        return;
    }
    if let Some(rules) = table.chain(at) {
        mark_targets(rows, endpoints, rules.as_slice(), marks);
    }
}

/// Marks the rows of UDP whose endpoint stands by a table, and no others.
pub(crate) fn mark_standing(rows: &[Entry], endpoints: &Links, table: &Table, marks: &mut Marks)
    requires { HasRows rows.now endpoints.now }
    ensures { (kept : List ℕ) → IsIndexed rows.now kept endpoint_place endpoints.now
        → AreMarkedBy rows.now kept (spec.udp_targets table.now.chains) marks.new }
{
    marks.clear();
    for at in table.places() {
        mark_targets_at(rows, endpoints, table, at, marks);
    }
}

/// Whether an entry of UDP goes, by the mark of its row.
fn is_lost(entry: &Entry, marked: bool) -> bool
    ensures { result ≡ goes marked entry.now }
{
    entry.connection.proto == Proto::Udp && !marked
}

/// Frees the rows of UDP that aren't marked.
pub(crate) fn drop_unmarked(rows: &[Entry], order: &mut Links, index: &mut Index, marks: &Marks)
    requires { (moment : ℕ) × IsLaid rows.now order.old index.old moment }
    ensures laid { (moment : ℕ) → IsLaid rows.now order.old index.old moment
        → IsLaid rows.now order.new index.new moment }
    ensures entries { (endpoints : List EndpointParts)
        → AreMarkedBy rows.now (kept_rows order.old) endpoints marks.now
        → entries_in rows.now order.new
        ≡ filter (λ e. not (loses (λ f. list_any (is_endpoint f) endpoints) e))
        (entries_in rows.now order.old) }
{
    let mut next = order.front(KEPT);
    for _turn in 0..ROWS {
        let Some(row) = next else {
            return;
        };
        next = order.after(KEPT, row);
        let lost = is_lost(&rows[row as usize], marks.has(row));
        free_if(lost, row, order, index);
    }
}
