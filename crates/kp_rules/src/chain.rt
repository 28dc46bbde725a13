//! A chain's rules, with what finds those that may match a packet.
ghost use Rattle.std.specs.Prelude.{◌≡◌, map, IfOk};
ghost use Rattle.kp_rules.specs.Destinations as Destinations;
ghost use Rattle.kp_rules.specs.Limits as Limits;

use crate::destination::Destination;
use crate::index::{
    KeyedPlace, earlier, element, keyed_places, next_keyed, next_other, other_places,
};
use crate::limits::limits_of;
use crate::slots::set;
use kp_base::{NoMemory, Shared};
use kp_types::Rule;
use std::alloc::Global;
use std::marker::Model;

/// The rules of a chain, as a walk reads them. Contracts see the list of rules. Beside them stand
/// hints: the chain's own slot, and for each rule the slot of the chain that it jumps to.
pub struct Chain {
    rules: Shared<Rule>,
    keyed: Vec<KeyedPlace>,
    others: Vec<u64>,
    limits: Vec<Option<u32>>,
    jumps: Vec<Option<usize>>,
    slot: Option<usize>,
}

impl Drop for Chain {
    fn drop(self) {
        let Chain {
            rules,
            keyed,
            others,
            limits,
            jumps,
            slot,
        } = self;
    }
}

impl Model for Chain {
    ghost use Rattle.std.specs.Prelude.{List};
    ghost use Rattle.std.specs.Coded.{coded_list};
    ghost use Rattle.kp_types.specs.declared.rule.Rule.{Rule};
    ghost use Rattle.kp_types.specs.contracts.rule.Rule as rule_row;
    ghost use Rattle.kp_rules.specs.Walking.{IsReady};

    ghost Value = { List Rule };

    ghost coded = { coded_list rule_row.the_row.coded };

    ghost view = { λ c. c.rules };

    ghost invariant = { λ c. IsReady c.rules c.keyed.items c.others.items c.limits.items };
}

impl Chain {
    /// The chain of these rules.
    pub(crate) fn of(alloc: Global, rules: Shared<Rule>) -> Result<Chain, NoMemory>
        ensures { IfOk result (λ chain. chain ≡ rules) }
    {
        let keyed = keyed_places(alloc, rules.as_slice())?;
        let others = other_places(alloc, rules.as_slice())?;
        let limits = limits_of(alloc, rules.as_slice())?;
        let jumps = no_jumps(alloc, rules.as_slice())?;
        Ok(Chain {
            rules,
            keyed,
            others,
            limits,
            jumps,
            slot: None,
        })
    }

    /// The rules as a list that can be shared.
    pub(crate) fn shared(&self) -> &Shared<Rule>
        ensures { result.now ≡ self.now }
    {
        &self.rules
    }

    /// The rules.
    pub fn rules(&self) -> &[Rule]
        ensures { result.now ≡ self.now }
    {
        self.rules.as_slice()
    }

    /// The least place, from 0, at or after `from` of a rule that may match packets to this
    /// destination: one that asks for it, or for none. It takes no memory.
    pub fn next_for(&self, from: u64, to: &Destination) -> Option<u64>
        ensures { result ≡ Destinations.next_for to.now self.now from }
    {
        earlier(
            next_other(self.others.as_slice(), from),
            next_keyed(self.keyed.as_slice(), from, to),
        )
    }

    /// For each rule the limit of its draw, where a draw is its only match: it matches exactly at
    /// draws below it. A walk needs not read such a rule's matches.
    pub fn limits(&self) -> &[Option<u32>]
        ensures { result.now ≡ map Limits.limit_of self.now }
    {
        self.limits.as_slice()
    }

    /// The slot of the chain.
    pub(crate) fn slot(&self) -> Option<usize> {
        self.slot
    }

    /// The same chain in a slot.
    pub(crate) fn in_slot(self, slot: Option<usize>) -> Chain
        ensures { result ≡ self }
    {
        let mut chain = self;
        chain.slot = slot;
        chain
    }

    /// The slot that the rule at this place jumps to.
    pub(crate) fn jump(&self, place: u64) -> Option<usize> {
        match element(self.jumps.as_slice(), place as usize) {
            None => None,
            Some(slot) => *slot,
        }
    }

    /// Writes down the slot that the rule at this place jumps to.
    pub(crate) fn set_jump(&mut self, place: usize, slot: Option<usize>)
        ensures { self.new ≡ self.old }
    {
        set(&mut self.jumps, place, slot);
    }
}

/// For each rule, that it isn't known where it jumps to.
fn no_jumps(alloc: Global, rules: &[Rule]) -> Result<Vec<Option<usize>>, NoMemory> {
    Ok(rules.iter().map(|_| None).collect(alloc)?)
}
