//! Blocks of rules by port, and shared chains joined from them.
ghost use Rattle.std.specs.Prelude.{◌≡◌, ◌++◌, true, is_some, map, IfOk, OnOk, OnErr};
ghost use Rattle.std.specs.BTreeMap.{IsOrdered, values};
ghost use Rattle.std.specs.FinMap as finite;
ghost use Rattle.std.specs.List.{filter, flat_map};
ghost use Rattle.std.specs.Map.Iter.{deref_pair};
ghost use Rattle.std.specs.Option.{option_copied};
ghost use Rattle.kp_base.specs.Keys.{port_key_cmp};
ghost use Rattle.kp_base.specs.contracts.key.PortKeyOrd.TheImpl as order;
ghost use Rattle.kp_blocks.specs.Joined as spec;

use crate::fixed::{fixed_rules, place_of_ports};
use kp_base::{Copied, Family, Items, NoMemory, ObjectKey, PortKey, Proto, Text};
use kp_types::{ChainAt, ChainText, Rule};
use std::alloc::Global;
use std::collections::BTreeMap;
use std::marker::Model;

/// The rules of each port in the shared chains. Contracts see a finite map from ports to blocks.
pub struct Blocks {
    ports: BTreeMap<PortKey, Items<ChainText>>,
}

impl Drop for Blocks {
    fn drop(self) {
        let Blocks { ports } = self;
    }
}

impl Model for Blocks {
    ghost use Rattle.std.specs.FinMap as finite;
    ghost use Rattle.kp_base.specs.Keys.{port_key_cmp};
    ghost use Rattle.kp_blocks.specs.Joined.{BlocksByPort, blocks_code};

    ghost Value = { BlocksByPort };

    ghost coded = { blocks_code };

    ghost view = { λ b. finite.from_entries {R = port_key_cmp} b.ports.entries };
}

impl Blocks {
    /// No port has rules.
    pub fn new(alloc: Global) -> Blocks
        ensures { result ≡ finite.empty }
    {
        Blocks {
            ports: BTreeMap::new(alloc),
        }
    }

    /// Keeps a port's block in place of the one that it had. Where memory is out, all stays.
    pub fn put(
        &mut self,
        alloc: Global,
        port: &PortKey,
        block: Items<ChainText>,
    ) -> Result<(), NoMemory>
        ensures ok { OnOk result (self.new ≡ finite.insert self.old port.now block) }
        ensures err { OnErr result (self.new ≡ self.old) }
    {
        self.ports.insert(port.copy(alloc)?, block)?;
        Ok(())
    }

    /// Keeps a port's block, and hands out the one that it had. Where memory is out, all stays.
    pub fn swap(
        &mut self,
        port: PortKey,
        block: Items<ChainText>,
    ) -> Result<Option<Items<ChainText>>, NoMemory>
        ensures ok { OnOk result (self.new ≡ finite.insert self.old port block) }
        ensures had { IfOk result (λ had. had ≡ finite.get self.old port) }
        ensures err { OnErr result (self.new ≡ self.old) }
    {
        Ok(self.ports.insert(port, block)?)
    }

    /// Takes a swap back: the port has again what it had. It takes no memory.
    pub fn put_back(&mut self, port: PortKey, had: Option<Items<ChainText>>)
        requires { is_some (finite.get self.old port) ≡ true }
        ensures { (m : spec.BlocksByPort) (block : spec.Block)
            → self.old ≡ finite.insert m port block → had ≡ finite.get m port → self.new ≡ m }
    {
        match had {
            None => {
                self.ports.remove(&port);
            }
            Some(block) => put_present(&mut self.ports, port, block),
        }
    }

    /// Lets a port's block go, if it has one. It takes no memory.
    pub fn drop_port(&mut self, port: &PortKey)
        ensures { self.new ≡ finite.remove self.old port.now }
    {
        self.ports.remove(port);
    }

    /// A port's block, if it has one.
    pub fn block(&self, port: &PortKey) -> Option<&Items<ChainText>>
        ensures { option_copied result ≡ finite.get self.now port.now }
    {
        self.ports.get(port)
    }

    /// The ports that have a block, in order.
    pub fn ports(&self, alloc: Global) -> Result<Vec<&PortKey>, NoMemory>
        ensures { IfOk result (λ ports. map (λ k. k.now) ports.items ≡ finite.keys self.now) }
    {
        Ok(self.ports.keys().collect(alloc)?)
    }

    /// The ports of a Service that have a block, in order. Of the others at most one is looked at.
    pub fn ports_of(&self, alloc: Global, service: &ObjectKey) -> Result<Vec<&PortKey>, NoMemory>
        ensures { IfOk result (λ ports. map (λ k. k.now) ports.items
            ≡ filter (spec.is_port_of service.now) (finite.keys self.now)) }
    {
        let first = first_of(alloc, service)?;
        Ok(
            self.ports
                .range(first..)
                .map(|(port, _)| port)
                .take_while(|port| *service == port.object)
                .collect(alloc)?,
        )
    }

    /// The rules of a chain in a family's tables: its fixed rules but the last jump to
    /// KUBE-NODEPORTS, the blocks' rules in order of ports, and that jump, where the chain has it.
    pub fn joined(
        &self,
        alloc: Global,
        family: Family,
        at: &ChainAt,
    ) -> Result<Items<Rule>, NoMemory>
        ensures { IfOk result (λ rules. rules ≡ spec.joined_rules family self.now at.now) }
    {
        let fixed = fixed_rules(alloc, family, at)?;
        let (before, after) = fixed.as_slice().split_at(place_of_ports(fixed.as_slice()));
        let mut rules = Vec::new(alloc);
        add_rules(&mut rules, before)?;
        self.add_all(&mut rules, at)?;
        add_rules(&mut rules, after)?;
        Ok(Items::from_vec(rules))
    }

    /// Adds the rules of all ports in a chain, in order of the ports.
    fn add_all(&self, rules: &mut Vec<Rule>, at: &ChainAt) -> Result<(), NoMemory>
        ensures { OnOk result (rules.new.items ≡ rules.old.items
            ++ flat_map (spec.block_rules at.now) (finite.values self.now)) }
    {
        add_blocks(rules, at, &self.ports)
    }
}

/// The least name that a port of a Service may have.
fn first_of(alloc: Global, service: &ObjectKey) -> Result<PortKey, NoMemory>
    ensures { IfOk result (λ first. first ≡ spec.first_port_of service.now) }
{
    Ok(PortKey {
        object: service.copy(alloc)?,
        port_name: Text::of(alloc, "")?,
        proto: Proto::Sctp,
    })
}

/// Puts the block of a port that has one already. It takes no memory.
fn put_present(
    ports: &mut BTreeMap<PortKey, Items<ChainText>>,
    port: PortKey,
    block: Items<ChainText>,
)
    requires { is_some (finite.get (finite.from_entries {R = port_key_cmp} ports.old.entries) port)
        ≡ true }
    ensures { finite.from_entries {R = port_key_cmp} ports.new.entries
        ≡ finite.insert (finite.from_entries ports.old.entries) port block }
{
    let _ = ports.insert(port, block);
}

/// Adds the rules of blocks in a chain. They stand in order of their ports.
fn add_blocks(
    rules: &mut Vec<Rule>,
    at: &ChainAt,
    ports: &BTreeMap<PortKey, Items<ChainText>>,
) -> Result<(), NoMemory>
    ensures rules { OnOk result (rules.new.items ≡ rules.old.items
        ++ flat_map (spec.block_rules at.now) (values ports.now)) }
    ensures in_order { IsOrdered order.ghosts.cmp ports.now }
{
    for block in ports.values() {
        add_block(rules, at, block.as_slice())?;
    }
    Ok(())
}

/// Adds a block's rules in a chain.
fn add_block(rules: &mut Vec<Rule>, at: &ChainAt, block: &[ChainText]) -> Result<(), NoMemory>
    ensures { OnOk result (rules.new.items
        ≡ rules.old.items ++ spec.block_rules at.now block.now) }
{
    for chain in block {
        add_chain(rules, at, chain)?;
    }
    Ok(())
}

/// Adds a chain's rules, where it stands at a place.
fn add_chain(rules: &mut Vec<Rule>, at: &ChainAt, chain: &ChainText) -> Result<(), NoMemory>
    ensures { OnOk result (rules.new.items ≡ rules.old.items ++ spec.rules_at at.now chain.now) }
{
    if chain.at == *at {
        add_rules(rules, chain.rules.as_slice())
    } else {
        Ok(())
    }
}

/// Adds copies of rules.
fn add_rules(rules: &mut Vec<Rule>, more: &[Rule]) -> Result<(), NoMemory>
    ensures { OnOk result (rules.new.items ≡ rules.old.items ++ more.now) }
{
    for rule in more {
        rules.push(rule.same())?;
    }
    Ok(())
}

/// A copy has the same blocks.
impl Copied for Blocks {
    fn copy(&self, alloc: Global) -> Result<Blocks, NoMemory> {
        blocks_of(alloc, self.ports.iter().collect(alloc)?)
    }
}

/// The blocks of ports. Of two of one port the first counts, so it is put last.
#[tactic(auto, using(crate::proofs::PutBehind::put_into_none))]
fn blocks_of(
    alloc: Global,
    mut ports: Vec<(&PortKey, &Items<ChainText>)>,
) -> Result<Blocks, NoMemory>
    ensures { IfOk result (λ blocks. blocks ≡ finite.from_entries
        (map deref_pair ports.entry.items)) }
{
    let mut blocks = Blocks::new(alloc);
    while let Some((port, block)) = ports.pop() {
        blocks.put(alloc, port, block.copy(alloc)?)?;
    }
    Ok(blocks)
}
