//! The chains of one node's tables, and how often they were edited.
ghost use Rattle.std.specs.Prelude.{◌≡◌, length, slice_get, IfOk, OnOk, OnErr};
ghost use Rattle.std.specs.FinMap as finite;
ghost use Rattle.std.specs.Option.{option_copied, option_and_then};
ghost use Rattle.kp_table_defs.specs.Edits.{table_after_batch};
ghost use Rattle.kp_table_defs.specs.Ranks as Ranks;
ghost use Rattle.kp_rules.specs.Destinations.{next_for};

use crate::chain::Chain;
use crate::chain_map::ChainMap;
use crate::destination::Destination;
use crate::new_chain::NewChain;
use crate::places::{add_written, copied, remove_empty};
use crate::ranks::are_ranked;
use crate::ready::{link_made, make_all, ready_edits};
use kp_base::{Address, Copied, Items, NoMemory, PortNo, Proto, Shared};
use kp_types::{Batch, ChainAt, ChainName, Rule, TableName};
use std::alloc::Global;
use std::collections::BTreeSet;
use std::marker::Model;

/// The tables: a finite map from places to lists of rules, and how many batches were applied.
pub struct Table {
    alloc: Global,
    chains: ChainMap,
    places: BTreeSet<ChainAt>,
    syncs: u64,
}

impl Drop for Table {
    fn drop(self) {
        let Table {
            alloc,
            chains,
            places,
            syncs,
        } = self;
    }
}

impl Model for Table {
    ghost use Rattle.kp_table_defs.specs.Rebuild.{TableParts};
    ghost use Rattle.kp_rules.specs.Roomy.{table_code};
    ghost use Rattle.kp_rules.specs.Placed.{ArePlaces};

    ghost Value = { TableParts };

    ghost coded = { table_code };

    ghost view = { λ t. record { chains = t.chains.chains; syncs = t.syncs } };

    ghost invariant = { λ t. ArePlaces t.places t.chains.chains };
}

impl Copied for Table {
    fn copy(&self, alloc: Global) -> Result<Table, NoMemory> {
        Ok(Table {
            alloc,
            chains: self.chains.copy(alloc)?,
            places: copied(alloc, &self.places)?,
            syncs: self.syncs,
        })
    }
}

impl Table {
    /// The table without chains, with a count of 0.
    pub fn bare(alloc: Global) -> Result<Table, NoMemory>
        ensures { IfOk result (λ t. t ≡ record { chains = finite.empty; syncs = 0 }) }
    {
        Ok(Table {
            alloc,
            chains: ChainMap::new(alloc),
            places: BTreeSet::new(alloc),
            syncs: 0,
        })
    }

    /// How many batches were applied. The count stands still at its type's end.
    pub fn syncs(&self) -> u64
        ensures { result ≡ self.now.syncs }
    {
        self.syncs
    }

    /// The rules of a chain, if there is one at this place.
    pub fn chain(&self, at: &ChainAt) -> Option<&Shared<Rule>>
        ensures { option_copied result ≡ finite.get self.now.chains at.now }
    {
        match self.chains.get(at) {
            None => None,
            Some(chain) => Some(chain.shared()),
        }
    }

    /// The chain at this place, as a walk reads it. No name is hashed for a built-in chain.
    pub fn walked(&self, at: &ChainAt) -> Option<&Chain>
        ensures { option_copied result ≡ finite.get self.now.chains at.now }
    {
        self.chains.hook(at)
    }

    /// The chain of a table with this name, to which the rule at a place of another chain jumps.
    /// Where the other knows in which slot it stands, no name is hashed.
    pub fn jumped(
        &self,
        from: &Chain,
        place: u64,
        table: TableName,
        chain: &ChainName,
    ) -> Option<&Chain>
        ensures { option_copied result
            ≡ finite.get self.now.chains (record { table = table; chain = chain.now }) }
    {
        self.chains.reached(from.jump(place), table, chain)
    }

    /// The least place, from 0, at or after `from` of a rule of the chain at this place that may
    /// match packets to this address and port: one whose first two matches ask for them, or for no
    /// one address and a port. `None` where there is no such rule, or no such chain. It takes no
    /// memory.
    pub fn next_for(
        &self,
        at: &ChainAt,
        from: u64,
        proto: &Proto,
        target: &Address,
        port: &PortNo,
    ) -> Option<u64>
        ensures { result ≡ option_and_then (λ rules. next_for
            (record { address = target.now; proto = proto.now; port = port.now }) rules from)
            (finite.get self.now.chains at.now) }
    {
        let to = Destination {
            address: *target,
            proto: *proto,
            port: *port,
        };
        match self.chains.get(at) {
            None => None,
            Some(chain) => chain.next_for(from, &to),
        }
    }

    /// How many places have a chain.
    pub fn count(&self) -> u64
        ensures { result ≡ length (finite.keys self.now.chains) }
    {
        self.places.len() as u64
    }

    /// The place at an index, from 0, among those that have a chain. It goes through those before
    /// it: who wants all takes `places`.
    pub fn place(&self, i: u64) -> Option<&ChainAt>
        ensures { option_copied result ≡ slice_get (finite.keys self.now.chains) i }
    {
        self.places.iter().nth(i as usize)
    }

    /// Whether each chain has a rank and each jump goes to a chain of its table that there is and
    /// that has a greater rank. It looks at each rule.
    pub fn is_ranked(&self) -> bool
        ensures { result ≡ Ranks.is_ranked self.now.chains }
    {
        are_ranked(self)
    }

    /// The places that have a chain, in order: those of IPv4 first, nat before filter, and then by
    /// the bytes of the name.
    pub fn places(&self) -> &BTreeSet<ChainAt>
        ensures { result.now.keys ≡ finite.keys self.now.chains }
    {
        &self.places
    }

    /// Writes a chain, in place of its old rules where there is one, and leaves the count. Until a
    /// batch writes it or the table is linked, a walk looks for what it jumps to by name.
    pub fn put(&mut self, at: ChainAt, rules: Items<Rule>) -> Result<(), NoMemory>
        ensures ok { OnOk result (self.new
            ≡ record self.old { chains = finite.insert self.old.chains at rules }) }
        ensures err { OnErr result (self.new ≡ self.old) }
    {
        let rules = Shared::of(self.alloc, rules)?;
        let chain = NewChain::new(self.alloc, at, rules)?;
        self.chains.reserve(1)?;
        self.places.insert(chain.at.same())?;
        self.chains.write(chain);
        Ok(())
    }

    /// Sets how many batches were applied.
    pub fn set_syncs(&mut self, syncs: u64)
        ensures { self.new ≡ record self.old { syncs = syncs } }
    {
        self.syncs = syncs;
    }

    /// Finds where all jumps of the table lead, so that no walk hashes a name at them. It looks at
    /// each rule, and takes no memory.
    pub fn link(&mut self)
        ensures { self.new ≡ self.old }
    {
        self.chains.link_all();
    }

    /// Makes the edits of a batch, in their order, and counts it.
    pub fn apply(&mut self, batch: &Batch) -> Result<(), NoMemory>
        ensures ok { OnOk result (self.new ≡ table_after_batch self.old batch.now.edits) }
        ensures err { OnErr result (self.new ≡ self.old) }
    {
        let edits = batch.edits.as_slice();
        let ready = ready_edits(self.alloc, edits)?;
        self.chains.reserve(edits.len())?;
        if let Err(full) = add_written(&mut self.places, edits) {
            remove_empty(&mut self.places, edits, &self.chains);
            return Err(full);
        }
        make_all(ready, &mut self.chains);
        remove_empty(&mut self.places, edits, &self.chains);
        link_made(edits, self.syncs, &mut self.chains);
        self.syncs = self.syncs.saturating_add(1);
        Ok(())
    }
}
