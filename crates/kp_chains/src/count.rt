//! Counting of the rules that are made.
ghost use Rattle.std.specs.Prelude.{◌≡◌, ◌+◌, length};
ghost use Rattle.kp_chains.specs.Blocks.{block_count};
ghost use Rattle.kp_chains.specs.Rows.{rows_of_texts, rule_count};

use crate::blocks::Blocks;
use kp_base::Steps;
use kp_types::{ChainText, Rule};
use std::sync::ledger::Ledger;

/// Takes a step for each rule.
pub fn count_rules<L: Ledger>(steps: &mut Steps<L>, rules: &[Rule])
    ensures { steps.new ≡ steps.old + length rules.now }
{
    for _rule in rules {
        steps.tick();
    }
}

/// Takes a step for each rule of chains.
pub fn count_chains<L: Ledger>(steps: &mut Steps<L>, chains: &[ChainText])
    ensures { steps.new ≡ steps.old + rule_count (rows_of_texts chains.now) }
{
    for chain in chains {
        count_rules(steps, chain.rules.as_slice());
    }
}

/// Takes a step for each rule of blocks.
pub fn count_blocks<L: Ledger>(steps: &mut Steps<L>, blocks: &Blocks)
    ensures { steps.new ≡ steps.old + block_count blocks.now }
{
    count_rules(steps, blocks.services.as_slice());
    count_rules(steps, blocks.node_ports.as_slice());
    count_rules(steps, blocks.firewall.as_slice());
    count_rules(steps, blocks.external.as_slice());
    count_rules(steps, blocks.refusals.as_slice());
}
