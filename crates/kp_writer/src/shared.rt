//! Which shared chains are touched by changed ports.
ghost use Rattle.std.specs.Prelude.{◌≡◌, true, map};
ghost use Rattle.std.specs.FinMap as finite;
ghost use Rattle.std.specs.List.{find};
ghost use Rattle.std.specs.Option.{option_copied};
ghost use Rattle.kp_base.specs.declared.config.Config.{Config};
ghost use Rattle.kp_choice_defs.specs.Settings.{setting_of};
ghost use Rattle.kp_types.specs.Chains.{is_chain_name};
ghost use Rattle.kp_types.specs.Places.{filter_of, nat_of};
ghost use Rattle.kp_writer.specs.Shared as spec;
ghost use Rattle.kp_writer.specs.Written.{AreBlocksOf, AreOldBlocks, newest_in, written_in};

use crate::known::Known;
use crate::old::written_block;
use kp_base::{Family, Items, PortKey};
use kp_blocks::Blocks;
use kp_tracker::Tracker;
use kp_types::{ChainAt, ChainName, ChainText, Rule, TableName};

/// Which of the shared chains have a block that changed.
#[derive(Drop)]
pub struct Touched {
    pub services: bool,
    pub node_ports: bool,
    pub firewall: bool,
    pub external: bool,
    pub refusals: bool,
}

/// Which shared chains of a family the changes of ports touch. Nothing is made: the blocks of what
/// was written and of what is known now are at hand.
pub fn touched_by(
    family: Family,
    ports: &Tracker<PortKey, Known>,
    blocks: &Blocks,
    aside: &Blocks,
    keys: &[&PortKey],
) -> Touched
    ensures { (config : Config) → AreBlocksOf (setting_of family config)
        (newest_in ports.now) blocks.now
        → AreOldBlocks (setting_of family config)
        (written_in ports.now) (newest_in ports.now) aside.now
        → result ≡ spec.touched_by (setting_of family config) (map (λ k. (
          finite.get (written_in ports.now) k.now,
          finite.get (newest_in ports.now) k.now,
        )) keys.now) }
{
    let mut touched = untouched();
    for key in keys {
        let before = rules_of(written_block(ports, blocks, aside, key));
        touched = touch(family, touched, before, rules_of(blocks.block(key)));
    }
    touched
}

/// No chain is touched.
fn untouched() -> Touched
    ensures { result ≡ spec.untouched }
{
    Touched {
        services: false,
        node_ports: false,
        firewall: false,
        external: false,
        refusals: false,
    }
}

/// A port's block: none of its chains where the port has none.
fn rules_of<'a>(block: Option<&'a Items<ChainText>>) -> &'a [ChainText]
    ensures { result.now ≡ spec.block_found (option_copied block.entry) }
{
    match block {
        None => &[],
        Some(block) => block.as_slice(),
    }
}

/// Which chains are touched, with those where a port's rules after differ from those before.
fn touch(family: Family, touched: Touched, before: &[ChainText], after: &[ChainText]) -> Touched
    ensures { result ≡ spec.touch touched
        (spec.blocks_in family before.now) (spec.blocks_in family after.now) }
{
    Touched {
        services: touched.services || nat_differs(family, before, after, "KUBE-SERVICES"),
        node_ports: touched.node_ports || nat_differs(family, before, after, "KUBE-NODEPORTS"),
        firewall: touched.firewall || filter_differs(family, before, after, "KUBE-PROXY-FIREWALL"),
        external: touched.external
            || filter_differs(family, before, after, "KUBE-EXTERNAL-SERVICES"),
        refusals: touched.refusals || filter_differs(family, before, after, "KUBE-SERVICES"),
    }
}

/// Whether two blocks have different rules in a chain of a family's nat.
fn nat_differs(family: Family, before: &[ChainText], after: &[ChainText], chain: &str) -> bool
    requires { is_chain_name chain.now ≡ true }
    ensures { result ≡ spec.differ
        (spec.chain_rules (record { table = nat_of family; chain = chain.now }) before.now)
        (spec.chain_rules (record { table = nat_of family; chain = chain.now }) after.now) }
{
    differs(before, after, TableName::nat_of(family), chain)
}

/// The same in a chain of its filter.
fn filter_differs(family: Family, before: &[ChainText], after: &[ChainText], chain: &str) -> bool
    requires { is_chain_name chain.now ≡ true }
    ensures { result ≡ spec.differ
        (spec.chain_rules (record { table = filter_of family; chain = chain.now }) before.now)
        (spec.chain_rules (record { table = filter_of family; chain = chain.now }) after.now) }
{
    differs(before, after, TableName::filter_of(family), chain)
}

/// Whether two blocks have different rules in a chain.
fn differs(before: &[ChainText], after: &[ChainText], table: TableName, chain: &str) -> bool
    requires { is_chain_name chain.now ≡ true }
    ensures { result ≡ spec.differ
        (spec.chain_rules (record { table = table; chain = chain.now }) before.now)
        (spec.chain_rules (record { table = table; chain = chain.now }) after.now) }
{
    let at = ChainAt {
        table,
        chain: ChainName::new(chain),
    };
    differ(chain_rules(before, &at), chain_rules(after, &at))
}

/// The rules that a block has in a chain.
fn chain_rules<'a>(block: &'a [ChainText], at: &ChainAt) -> &'a [Rule]
    ensures { result.now ≡ spec.chain_rules at.now block.now }
{
    match chain_at(block, at) {
        None => &[],
        Some(chain) => chain.rules.as_slice(),
    }
}

/// The chain at a place that a block has rules in, if it has some there.
fn chain_at<'a>(block: &'a [ChainText], at: &ChainAt) -> Option<&'a ChainText>
    ensures { option_copied result ≡ find (spec.stands_at at.now) block.now }
{
    block.iter().find(|chain| chain.at == *at)
}

/// Whether rules differ.
fn differ(before: &[Rule], after: &[Rule]) -> bool
    ensures { result ≡ spec.differ before.now after.now }
{
    before != after
}
