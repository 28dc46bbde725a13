//! The chains of a port's endpoints.
ghost use Rattle.std.specs.Prelude.{◌≡◌, ◌++◌, ◌∷◌, [], List, cond, false, map, not, IfOk, OnErr, OnOk};
ghost use Rattle.std.specs.List.{filter};
ghost use Rattle.kp_table_defs.specs.Keys as keys;
ghost use Rattle.kp_table_defs.specs.Layout as layout;
ghost use Rattle.kp_chains.specs.Named as spec;
ghost use Rattle.kp_chains.specs.Named.{endpoint_row, has};
ghost use Rattle.kp_chains.specs.Rows.{row_of, rows_of_texts};
ghost use Rattle.kp_types.specs.Rules.{rule_of};
ghost use Rattle.kp_types.specs.declared.rule.Match.TheVariants as match;
ghost use Rattle.kp_types.specs.declared.rule.Target.TheVariants as target;
ghost use Rattle.kp_base.specs.declared.key.Endpoint.{Endpoint};

use crate::named::NamedEndpoint;
use crate::rules::{mark, rule1, rule2};
use kp_base::{Cidr, Endpoint, Family, Items, NoMemory};
use kp_types::{ChainAt, ChainText, Match, PortInfo, Rule, TableName, Target};
use std::alloc::Global;
use std::collections::BTreeSet;

/// Adds the chains of endpoints.
pub fn add_endpoint_chains(
    alloc: Global,
    family: Family,
    rows: &mut Vec<ChainText>,
    info: &PortInfo,
    endpoints: &[NamedEndpoint],
) -> Result<(), NoMemory>
    ensures { OnOk result (rows_of_texts rows.new.items
        ≡ rows_of_texts rows.old.items ++ map (endpoint_row family info.now) endpoints.now) }
{
    for endpoint in endpoints {
        rows.push(endpoint_chain(alloc, family, info, endpoint)?)?;
    }
    Ok(())
}

/// Adds the chains of endpoints that aren't among those of the port's cluster list.
pub fn add_other_chains(
    alloc: Global,
    family: Family,
    rows: &mut Vec<ChainText>,
    info: &PortInfo,
    endpoints: &[NamedEndpoint],
) -> Result<(), NoMemory>
    ensures { OnOk result (rows_of_texts rows.new.items ≡ rows_of_texts rows.old.items
        ++ map (endpoint_row family info.now)
        (spec.not_among info.now.lists.cluster endpoints.now)) }
{
    if endpoints.is_empty() {
        return Ok(());
    }
    let others = set_of(alloc, info.lists.cluster.as_slice())?;
    for endpoint in endpoints {
        add_unless_among(alloc, family, rows, info, &others, endpoint)?;
    }
    Ok(())
}

/// Adds the chain of an endpoint that isn't among others.
fn add_unless_among(
    alloc: Global,
    family: Family,
    rows: &mut Vec<ChainText>,
    info: &PortInfo,
    others: &BTreeSet<Endpoint>,
    endpoint: &NamedEndpoint,
) -> Result<(), NoMemory>
    ensures { OnOk result (rows_of_texts rows.new.items ≡ rows_of_texts rows.old.items
        ++ cond (has others.now endpoint.now.endpoint) [] (endpoint_row family info.now endpoint.now
        ∷ [])) }
{
    if others.contains(&endpoint.endpoint) {
        return Ok(());
    }
    rows.push(endpoint_chain(alloc, family, info, endpoint)?)?;
    Ok(())
}

/// The endpoints of either list, once each.
pub fn all_endpoints(alloc: Global, info: &PortInfo) -> Result<Vec<Endpoint>, NoMemory>
    ensures { IfOk result (λ es. es.items ≡ keys.all_endpoints info.now) }
{
    let cluster = info.lists.cluster.as_slice();
    let mut all = copied(alloc, cluster)?;
    add_others(alloc, &mut all, cluster, info.lists.local.as_slice())?;
    Ok(all)
}

fn copied(alloc: Global, endpoints: &[Endpoint]) -> Result<Vec<Endpoint>, NoMemory>
    ensures { IfOk result (λ es. es.items ≡ endpoints.now) }
{
    Ok(endpoints.iter().copied().collect(alloc)?)
}

/// Adds the endpoints that aren't among others. Without memory some of them may be added.
pub fn add_others(
    alloc: Global,
    all: &mut Vec<Endpoint>,
    others: &[Endpoint],
    endpoints: &[Endpoint],
) -> Result<(), NoMemory>
    ensures added { OnOk result (all.new.items ≡ all.old.items
        ++ filter (λ e. not (keys.has_endpoint others.now e)) endpoints.now) }
    ensures front { OnErr result
        ((some : List Endpoint) × (all.new.items ≡ all.old.items ++ some)) }
{
    if endpoints.is_empty() {
        return Ok(());
    }
    let others = set_of(alloc, others)?;
    for endpoint in endpoints {
        push_unless_among(all, &others, endpoint)?;
    }
    Ok(())
}

/// Adds an endpoint that isn't among others.
fn push_unless_among(
    all: &mut Vec<Endpoint>,
    others: &BTreeSet<Endpoint>,
    endpoint: &Endpoint,
) -> Result<(), NoMemory>
    ensures added { OnOk result (all.new.items ≡ all.old.items
        ++ cond (has others.now endpoint.now) [] (endpoint.now ∷ [])) }
    ensures kept { OnErr result (all.new.items ≡ all.old.items) }
{
    if others.contains(endpoint) {
        return Ok(());
    }
    all.push(*endpoint)?;
    Ok(())
}

/// The set of endpoints.
fn set_of(alloc: Global, endpoints: &[Endpoint]) -> Result<BTreeSet<Endpoint>, NoMemory>
    ensures { IfOk result (λ s. (e : Endpoint) → has s e
        ≡ keys.has_endpoint endpoints.now e) }
{
    let mut set = BTreeSet::new(alloc);
    for endpoint in endpoints {
        set.insert(*endpoint)?;
    }
    Ok(set)
}

/// The chain of an endpoint.
fn endpoint_chain(
    alloc: Global,
    family: Family,
    info: &PortInfo,
    endpoint: &NamedEndpoint,
) -> Result<ChainText, NoMemory>
    ensures { IfOk result (λ row. row_of row ≡ endpoint_row family info.now endpoint.now) }
{
    Ok(ChainText {
        at: ChainAt {
            table: TableName::nat_of(family),
            chain: endpoint.chain.same(),
        },
        rules: endpoint_rules(alloc, info, endpoint)?,
    })
}

/// The rules of an endpoint's chain: what it sends to itself is marked, and all is translated. Most
/// of a table is such rules, so they get no more memory than the two take.
fn endpoint_rules(
    alloc: Global,
    info: &PortInfo,
    endpoint: &NamedEndpoint,
) -> Result<Items<Rule>, NoMemory>
    ensures { IfOk result (λ rules. rules ≡ spec.endpoint_rules info.now endpoint.now) }
{
    let range = Cidr::single(endpoint.endpoint.address);
    let mut rules = Vec::with_capacity(alloc, 2)?;
    rules.push(rule1(Match::Src { range, not: false }, mark()))?;
    rules.push(translation(info, endpoint))?;
    Ok(Items::from_vec(rules))
}

/// The rule that translates to an endpoint, and under session affinity remembers the source.
fn translation(info: &PortInfo, endpoint: &NamedEndpoint) -> Rule
    ensures { result ≡ rule_of
        (match.Proto info.now.key.proto ∷ layout.set_seen endpoint.now.chain info.now.affinity)
        (target.Dnat endpoint.now.endpoint) }
{
    let proto = Match::Proto {
        proto: info.key.proto,
    };
    let target = Target::Dnat(endpoint.endpoint);
    match info.affinity {
        None => rule1(proto, target),
        Some(_) => {
            let list = endpoint.chain.same();
            rule2(proto, Match::SetSeen { list }, target)
        }
    }
}
