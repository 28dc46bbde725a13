//! All rules that one port makes.
ghost use Rattle.std.specs.Prelude.{◌≡◌, ◌+◌, IfOk, OnOk, OnErr};
ghost use Rattle.kp_choice_defs.specs.Settings.{setting_of};
ghost use Rattle.kp_table_defs.specs.Layout as layout;
ghost use Rattle.kp_chains.specs.Blocks.{block_count, blocks_of};
ghost use Rattle.kp_chains.specs.Rows.{rows_of_texts, rule_count};

use crate::blocks::{Blocks, all_blocks};
use crate::chains::all_chains;
use crate::count::{count_blocks, count_chains};
use kp_base::{Config, Family, NoMemory, Steps};
use kp_types::{ChainText, PortInfo};
use std::alloc::Global;
use std::sync::ledger::Ledger;

/// The chains of one port, and its rules in the shared chains. A step is taken for each rule;
/// without memory none is.
pub fn info_rules<L: Ledger>(
    alloc: Global,
    family: Family,
    config: &Config,
    info: &PortInfo,
    steps: &mut Steps<L>,
) -> Result<(Vec<ChainText>, Blocks), NoMemory>
    ensures chains { IfOk result (λ (rows, _). rows_of_texts rows.items
        ≡ layout.port_rows (setting_of family config.now) info.now) }
    ensures blocks { IfOk result (λ (_, b). b ≡ blocks_of (setting_of family config.now) info.now) }
    ensures steps { OnOk result (steps.new
        ≡ steps.old + (rule_count (layout.port_rows (setting_of family config.now) info.now)
        + block_count (blocks_of (setting_of family config.now) info.now))) }
    ensures no_step { OnErr result (steps.new ≡ steps.old) }
{
    let rows = all_chains(alloc, family, config, info)?;
    let blocks = all_blocks(alloc, family, config, info)?;
    count_chains(steps, rows.as_slice());
    count_blocks(steps, &blocks);
    Ok((rows, blocks))
}
