//! Chains by place, in a hash table.
ghost use Rattle.std.specs.Prelude.{◌≡◌, ◌+◌, ◌<◌, ◌≤◌, Some, IfOk, IfSome, OnOk};
ghost use Rattle.std.specs.FinMap as finite;
ghost use Rattle.std.specs.Option.{option_copied};
ghost use Rattle.kp_types.specs.Places.{chain_cmp};
ghost use Rattle.kp_types.specs.contracts.chain.ChainAtPartialEq.TheImpl as same;

use crate::chain::Chain;
use crate::hooks::Hooks;
use crate::new_chain::NewChain;
use crate::slots::Slots;
use indexmap::IndexMap;
use kp_base::{Copied, NoMemory};
use kp_types::{ChainAt, ChainName, TableName, Target};
use std::alloc::Global;
use std::marker::Model;

/// Chains by place. Contracts see a finite map, and how many new chains can be written with no
/// more memory.
pub struct ChainMap {
    rules: IndexMap<ChainAt, Chain>,
    slots: Slots,
    hooks: Hooks,
}

impl Drop for ChainMap {
    fn drop(self) {
        let ChainMap {
            rules,
            slots,
            hooks,
        } = self;
    }
}

impl Model for ChainMap {
    ghost use Rattle.std.specs.FinMap as finite;
    ghost use Rattle.indexmap.specs.IndexMap.{spare};
    ghost use Rattle.kp_types.specs.Places.{chain_cmp};
    ghost use Rattle.kp_rules.specs.Roomy.{RoomyChains, roomy_code};

    ghost Value = { RoomyChains };

    ghost coded = { roomy_code };

    ghost view = { λ m. record {
      chains = finite.from_entries {R = chain_cmp} m.rules.entries;
      room = spare m.rules;
    } };
}

impl ChainMap {
    /// No chains.
    pub fn new(alloc: Global) -> ChainMap
        ensures { result.chains ≡ finite.empty }
    {
        ChainMap {
            rules: IndexMap::new(alloc),
            slots: Slots::new(alloc),
            hooks: Hooks::none(),
        }
    }

    /// A chain.
    pub fn get(&self, at: &ChainAt) -> Option<&Chain>
        ensures { option_copied result ≡ finite.get self.now.chains at.now }
    {
        self.rules.get(at)
    }

    /// A chain, of which no name is hashed where it is a built-in one.
    pub fn hook(&self, at: &ChainAt) -> Option<&Chain>
        ensures { option_copied result ≡ finite.get self.now.chains at.now }
    {
        self.reached(self.hooks.slot(at), at.table, &at.chain)
    }

    /// The chain of a table with this name, looked for in a slot before the name is hashed.
    pub fn reached(
        &self,
        slot: Option<usize>,
        table: TableName,
        chain: &ChainName,
    ) -> Option<&Chain>
        ensures { option_copied result
            ≡ finite.get self.now.chains (record { table = table; chain = chain.now }) }
    {
        match self.in_slot(slot, table, chain) {
            None => self.named(table, chain),
            Some(found) => Some(found),
        }
    }

    /// The chain in a slot, where it has this name.
    fn in_slot(&self, slot: Option<usize>, table: TableName, chain: &ChainName) -> Option<&Chain>
        ensures { IfSome result (λ c. Some c.now
            ≡ finite.get self.now.chains (record { table = table; chain = chain.now })) }
    {
        let index = self.slots.index(slot?)?;
        let (at, found) = self.rules.get_index(index)?;
        if is_at(at, table, chain) {
            Some(found)
        } else {
            None
        }
    }

    /// The chain of a table with this name.
    fn named(&self, table: TableName, chain: &ChainName) -> Option<&Chain>
        ensures { option_copied result
            ≡ finite.get self.now.chains (record { table = table; chain = chain.now }) }
    {
        let at = ChainAt {
            table,
            chain: chain.same(),
        };
        self.get(&at)
    }

    /// Makes room for this many new chains.
    pub fn reserve(&mut self, additional: usize) -> Result<(), NoMemory>
        ensures room { OnOk result (additional ≤ self.new.room) }
        ensures chains { self.new.chains ≡ self.old.chains }
    {
        self.rules.reserve(additional)?;
        self.slots.reserve(additional)?;
        Ok(())
    }

    /// The same chains once more.
    pub fn copy(&self, alloc: Global) -> Result<ChainMap, NoMemory>
        ensures { IfOk result (λ copy. copy.chains ≡ self.now.chains) }
    {
        chains_of(alloc, &self.rules)
    }

    /// Writes a chain. It takes no memory.
    pub fn write(&mut self, chain: NewChain)
        requires { 0 < self.old.room }
        ensures chains { self.new.chains ≡ finite.insert self.old.chains chain.at chain.rules }
        ensures room { self.old.room ≤ self.new.room + 1 }
    {
        let slot = self.slot_for(&chain.at);
        let NewChain { at, rules } = chain;
        let _ = self.rules.insert(at, rules.in_slot(slot));
    }

    /// The slot for a chain that is to be written: its own, where it stands already.
    fn slot_for(&mut self, at: &ChainAt) -> Option<usize>
        ensures { self.new ≡ self.old }
    {
        if let Some(chain) = self.rules.get(at) {
            return chain.slot();
        }
        let slot = self.slots.take(self.rules.len());
        self.hooks.set_slot(at, slot);
        slot
    }

    /// Removes a chain, if it is there.
    pub fn remove(&mut self, at: &ChainAt)
        ensures chains { self.new.chains ≡ finite.remove self.old.chains at.now }
        ensures room { self.old.room ≤ self.new.room }
    {
        if let Some((index, _, gone)) = self.rules.swap_remove_full(at) {
            self.leave_slot(gone.slot(), index);
        }
    }

    /// Takes in that a chain left its slot, and that its index is another's by now.
    fn leave_slot(&mut self, slot: Option<usize>, index: usize)
        ensures { self.new ≡ self.old }
    {
        self.slots.free(slot);
        if let Some((_, chain)) = self.rules.get_index(index) {
            self.slots.set(chain.slot(), index);
        }
    }

    /// Finds where the jumps of a chain lead by now, so that no walk hashes a name at them. It
    /// takes no memory.
    pub fn link(&mut self, at: &ChainAt)
        ensures { self.new ≡ self.old }
    {
        if let Some(index) = self.rules.get_index_of(at) {
            self.link_index(index);
        }
    }

    /// The same of the chain at an index.
    fn link_index(&mut self, index: usize)
        ensures { self.new ≡ self.old }
    {
        for place in 0..self.rules_at(index) {
            let slot = self.slot_of_jump(index, place);
            self.set_jump(index, place, slot);
        }
    }

    /// How many rules the chain at an index has.
    fn rules_at(&self, index: usize) -> usize {
        match self.rules.get_index(index) {
            None => 0,
            Some((_, chain)) => chain.rules().len(),
        }
    }

    /// The slot of the chain that a rule jumps to.
    fn slot_of_jump(&self, index: usize, place: usize) -> Option<usize> {
        let (at, chain) = self.rules.get_index(index)?;
        let rule = chain.rules().get(place)?;
        let Target::Jump(name) = &rule.target else {
            return None;
        };
        let to = ChainAt {
            table: at.table,
            chain: name.same(),
        };
        self.rules.get(&to)?.slot()
    }

    /// Writes down the slot that a rule jumps to.
    fn set_jump(&mut self, index: usize, place: usize, slot: Option<usize>)
        ensures { self.new ≡ self.old }
    {
        let Some(chain) = self.rules.get_index_mut(index) else {
            return;
        };
        chain.set_jump(place, slot);
    }

    /// Finds where the jumps of all chains lead.
    pub fn link_all(&mut self)
        ensures { self.new ≡ self.old }
    {
        for index in 0..self.rules.len() {
            self.link_index(index);
        }
    }
}

/// Whether a place is that of the chain of a table with this name.
fn is_at(at: &ChainAt, table: TableName, chain: &ChainName) -> bool
    ensures { result ≡ same.ghosts.eq at.now (record { table = table; chain = chain.now }) }
{
    at.table == table && at.chain == *chain
}

/// The chains of these entries.
fn chains_of(alloc: Global, entries: &IndexMap<ChainAt, Chain>) -> Result<ChainMap, NoMemory>
    ensures { IfOk result (λ chains. chains.chains
        ≡ finite.from_entries {R = chain_cmp} entries.now.entries) }
{
    let mut chains = ChainMap::new(alloc);
    chains.reserve(entries.len())?;
    for i in (0..entries.len()).rev() {
        if let Some((at, rules)) = entries.get_index(i) {
            chains.write(NewChain::new(alloc, at.same(), rules.shared().copy(alloc)?)?);
        }
    }
    chains.link_all();
    Ok(chains)
}
