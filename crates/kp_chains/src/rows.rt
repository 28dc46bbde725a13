//! Rows of the shared chains.
ghost use Rattle.std.specs.Prelude.{◌≡◌, ◌++◌, ◌∷◌, [], true, IfOk, OnOk};
ghost use Rattle.kp_base.specs.Net.{loopback_range};
ghost use Rattle.kp_types.specs.Chains.{is_chain_name};
ghost use Rattle.kp_types.specs.declared.rule.Match.TheVariants as match;
ghost use Rattle.kp_table_defs.specs.Layout as layout;
ghost use Rattle.kp_chains.specs.Rows.{rows_of_texts};

use crate::rules::jump;
use kp_base::{Address, Cidr, Family, Items, NoMemory};
use kp_types::{ChainAt, ChainName, ChainText, Match, Rule, TableName};
use std::alloc::Global;

/// Adds a chain with its rules.
pub fn add_row(
    rows: &mut Vec<ChainText>,
    table: TableName,
    chain: &str,
    rules: Items<Rule>,
) -> Result<(), NoMemory>
    requires { is_chain_name chain.now ≡ true }
    ensures { OnOk result (rows_of_texts rows.new.items
        ≡ rows_of_texts rows.old.items ++ layout.row table chain.now rules ∷ []) }
{
    let chain = ChainName::new(chain);
    rows.push(ChainText {
        at: ChainAt { table, chain },
        rules,
    })?;
    Ok(())
}

/// The list of one rule.
pub fn one(alloc: Global, rule: Rule) -> Result<Items<Rule>, NoMemory>
    ensures { IfOk result (λ rs. rs ≡ rule ∷ []) }
{
    let mut rules = Vec::new(alloc);
    rules.push(rule)?;
    Ok(Items::from_vec(rules))
}

/// The list of a jump for all packets.
pub fn one_jump(alloc: Global, chain: &str) -> Result<Items<Rule>, NoMemory>
    requires { is_chain_name chain.now ≡ true }
    ensures { IfOk result (λ rs. rs ≡ layout.jump_to chain.now ∷ []) }
{
    one(alloc, jump(ChainName::new(chain)))
}

/// The list of two jumps for all packets.
pub fn two_jumps(alloc: Global, first: &str, second: &str) -> Result<Items<Rule>, NoMemory>
    requires first { is_chain_name first.now ≡ true }
    requires second { is_chain_name second.now ≡ true }
    ensures { IfOk result (λ rs. rs
        ≡ layout.jump_to first.now ∷ layout.jump_to second.now ∷ []) }
{
    let mut rules = Vec::new(alloc);
    rules.push(jump(ChainName::new(first)))?;
    rules.push(jump(ChainName::new(second)))?;
    Ok(Items::from_vec(rules))
}

/// The packets to addresses of a family other than loopback.
pub fn outside_loopback(family: Family) -> Match
    ensures { result ≡ match.Dst (loopback_range family) true }
{
    Match::Dst {
        range: loopback(family),
        not: true,
    }
}

/// 127.0.0.0/8 and ::1/128.
fn loopback(family: Family) -> Cidr
    ensures { result ≡ loopback_range family }
{
    match family {
        Family::V4 => Cidr::parse(b"127.0.0.0/8").unwrap(),
        Family::V6 => Cidr::single(Address::v6(1)),
    }
}
