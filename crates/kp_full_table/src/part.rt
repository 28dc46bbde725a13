//! What ports contribute to the full table: their own chains, and their rules in the shared chains.
ghost use Rattle.std.specs.Prelude.{◌≡◌, ◌∷◌, ◌++◌, ◌+◌, [], List, IfOk, OnOk, OnErr};
ghost use Rattle.kp_choice_defs.specs.Settings.{setting_of};
ghost use Rattle.kp_types.specs.Setting.{Setting};
ghost use Rattle.kp_object_defs.specs.PortInfo as Info;
ghost use Rattle.kp_full_table.specs.Parts as spec;
ghost use Rattle.kp_full_table.specs.Parts.{IsPartOf, port_rule_count};

use kp_base::{Config, Family, Items, NoMemory, Steps};
use kp_chains::{Blocks, info_rules};
use kp_types::{ChainText, PortInfo};
use std::alloc::Global;
use std::sync::ledger::Ledger;

/// What one or more ports contribute: their own chains, and their rules in the shared chains.
#[derive(Drop)]
pub struct Part {
    pub chains: Items<ChainText>,
    pub blocks: Blocks,
}

/// What one port contributes in a family. A step is taken for each of its rules; without memory
/// none is.
pub fn part_of_port<L: Ledger>(
    alloc: Global,
    family: Family,
    config: &Config,
    info: &PortInfo,
    steps: &mut Steps<L>,
) -> Result<Part, NoMemory>
    ensures part { IfOk result (IsPartOf (setting_of family config.now) (info.now ∷ [])) }
    ensures steps { OnOk result (steps.new
        ≡ steps.old + port_rule_count (setting_of family config.now) info.now) }
    ensures no_step { OnErr result (steps.new ≡ steps.old) }
{
    let (chains, blocks) = info_rules(alloc, family, config, info, steps)?;
    Ok(Part {
        chains: Items::from_vec(chains),
        blocks,
    })
}

/// What no port contributes.
pub fn no_part(alloc: Global) -> Part
    ensures { (setting : Setting) → IsPartOf setting [] result }
{
    Part {
        chains: Items::new(alloc),
        blocks: Blocks {
            services: Items::new(alloc),
            node_ports: Items::new(alloc),
            firewall: Items::new(alloc),
            external: Items::new(alloc),
            refusals: Items::new(alloc),
        },
    }
}

/// What ports contribute, and then others.
pub fn joined(part: Part, more: Part) -> Result<Part, NoMemory>
    ensures { (setting : Setting) (xs ys : List Info.PortInfo) → IsPartOf setting xs part
        → IsPartOf setting ys more → IfOk result (IsPartOf setting (xs ++ ys)) }
{
    Ok(Part {
        chains: appended(part.chains, more.chains)?,
        blocks: joined_blocks(part.blocks, more.blocks)?,
    })
}

fn joined_blocks(blocks: Blocks, more: Blocks) -> Result<Blocks, NoMemory>
    ensures { IfOk result (λ b. b ≡ spec.joined_blocks blocks more) }
{
    Ok(Blocks {
        services: appended(blocks.services, more.services)?,
        node_ports: appended(blocks.node_ports, more.node_ports)?,
        firewall: appended(blocks.firewall, more.firewall)?,
        external: appended(blocks.external, more.external)?,
        refusals: appended(blocks.refusals, more.refusals)?,
    })
}

/// The elements of a list and then those of another.
fn appended<T: Drop>(items: Items<T>, more: Items<T>) -> Result<Items<T>, NoMemory>
    ensures { IfOk result (λ all. all ≡ items ++ more) }
{
    let mut all = items.into_vec();
    all.append(&mut more.into_vec())?;
    Ok(Items::from_vec(all))
}
