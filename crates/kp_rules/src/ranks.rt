//! Ranks of chains, and whether all jumps of a table go to chains of greater rank.
ghost use Rattle.std.specs.Prelude.{◌≡◌, bytes_eq};
ghost use Rattle.std.specs.FinMap as finite;
ghost use Rattle.std.specs.List.{list_all, starts_with};
ghost use Rattle.std.specs.Map.{lookup};
ghost use Rattle.std.specs.Prelude.{nat_eq};
ghost use Rattle.kp_table_defs.specs.Ranks as Ranks;
ghost use Rattle.kp_rules.specs.Ranked as Ranked;

use crate::table::Table;
use kp_types::{ChainAt, Rule, TableName, Target};

/// Whether the chains of a table have ranks, and their jumps go to chains of greater rank.
pub fn are_ranked(table: &Table) -> bool
    ensures { result ≡ list_all (Ranked.is_ranked_at table.now.chains)
        (finite.keys table.now.chains) }
{
    table.places().iter().all(|at| is_ranked_at(table, at))
}

/// Whether the chain at a place is so, if there is one.
fn is_ranked_at(table: &Table, at: &ChainAt) -> bool
    ensures { result ≡ Ranked.is_ranked_at table.now.chains at.now }
{
    let Some(rules) = table.chain(at) else {
        return true;
    };
    match rank_of(at) {
        None => false,
        Some(rank) => jumps_go_on(table, at.table, rank, rules.as_slice()),
    }
}

/// Whether each jump of these rules goes to a chain of greater rank than theirs.
fn jumps_go_on(table: &Table, name: TableName, rank: u8, rules: &[Rule]) -> bool
    ensures { result
        ≡ list_all (λ r. Ranks.goes_on table.now.chains name rank r.target) rules.now }
{
    for rule in rules {
        if !goes_on(table, name, rank, &rule.target) {
            return false;
        }
    }
    true
}

/// The same of one target.
fn goes_on(table: &Table, name: TableName, rank: u8, target: &Target) -> bool
    ensures { result ≡ Ranks.goes_on table.now.chains name rank target.now }
{
    match target {
        Target::Jump(chain) => {
            let to = ChainAt {
                table: name,
                chain: chain.same(),
            };
            is_reached(table, rank, &to)
        }
        Target::Return => true,
        Target::Accept => true,
        Target::Drop => true,
        Target::Reject => true,
        Target::SetMark => true,
        Target::FlipMark => true,
        Target::Dnat(_) => true,
        Target::Masquerade => true,
    }
}

/// Whether there is a chain at a place, of greater rank than this.
fn is_reached(table: &Table, rank: u8, to: &ChainAt) -> bool
    ensures { result ≡ Ranks.is_reached table.now.chains rank to.now }
{
    table.chain(to).is_some()
        && match rank_of(to) {
            None => false,
            Some(other) => rank < other,
        }
}

/// The rank of a chain, if it has one.
fn rank_of(at: &ChainAt) -> Option<u8>
    ensures { result ≡ Ranks.rank_of at.now }
{
    let name = at.chain.as_str();
    if is_built_in(at.table, name) {
        return Some(0);
    }
    match shared_rank(name) {
        None => prefix_rank(name.as_bytes()),
        Some(rank) => Some(rank),
    }
}

/// Whether a table has a built-in chain of this name (iptables(8)): PREROUTING, INPUT, OUTPUT and
/// POSTROUTING in nat; INPUT, FORWARD and OUTPUT in filter.
pub fn is_built_in(table: TableName, name: &str) -> bool
    ensures { result ≡ Ranks.is_built_in table name.now }
{
    match table {
        TableName::Nat | TableName::Nat6 => {
            name == "PREROUTING" || name == "INPUT" || name == "OUTPUT" || name == "POSTROUTING"
        }
        TableName::Filter | TableName::Filter6 => {
            name == "INPUT" || name == "FORWARD" || name == "OUTPUT"
        }
    }
}

/// The rank of a shared chain.
fn shared_rank(name: &str) -> Option<u8>
    ensures { result ≡ lookup (bytes_eq name.now) Ranks.shared_ranks }
{
    if name == "KUBE-SERVICES"
        || name == "KUBE-EXTERNAL-SERVICES"
        || name == "KUBE-PROXY-FIREWALL"
        || name == "KUBE-FORWARD"
        || name == "KUBE-POSTROUTING"
    {
        Some(1)
    } else if name == "KUBE-NODEPORTS" {
        Some(2)
    } else if name == "KUBE-MARK-MASQ" {
        Some(7)
    } else {
        None
    }
}

/// The rank of a chain of a port or an endpoint, by what its name begins with.
fn prefix_rank(name: &[u8]) -> Option<u8>
    ensures { result ≡ lookup (starts_with nat_eq name.now) Ranks.prefix_ranks }
{
    if name.starts_with(b"KUBE-FW-") {
        Some(3)
    } else if name.starts_with(b"KUBE-EXT-") {
        Some(4)
    } else if name.starts_with(b"KUBE-SVC-") || name.starts_with(b"KUBE-SVL-") {
        Some(5)
    } else if name.starts_with(b"KUBE-SEP-") {
        Some(6)
    } else {
        None
    }
}
