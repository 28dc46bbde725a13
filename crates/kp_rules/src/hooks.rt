//! Where the chains of hooks stand.
use crate::slots::set;
use kp_types::{ChainAt, TableName};

/// No built-in chain has a longer name (POSTROUTING).
const MOST_LETTERS: usize = 11;

/// The slots of the built-in chains, so that no walk hashes a name at a hook. The built-in chains
/// of a table have names of different lengths, so a slot is found by the length of the name. Slots
/// are hints: who follows one tests the name of the chain that it leads to.
#[derive(Drop)]
pub struct Hooks {
    nat: [Option<usize>; MOST_LETTERS + 1],
    filter: [Option<usize>; MOST_LETTERS + 1],
    nat6: [Option<usize>; MOST_LETTERS + 1],
    filter6: [Option<usize>; MOST_LETTERS + 1],
}

impl Hooks {
    /// No slots.
    pub fn none() -> Hooks {
        Hooks {
            nat: [None; MOST_LETTERS + 1],
            filter: [None; MOST_LETTERS + 1],
            nat6: [None; MOST_LETTERS + 1],
            filter6: [None; MOST_LETTERS + 1],
        }
    }

    /// The slot of a chain, if its name is no longer than those of built-in chains.
    pub fn slot(&self, at: &ChainAt) -> Option<usize> {
        let slots = match at.table {
            TableName::Nat => &self.nat,
            TableName::Filter => &self.filter,
            TableName::Nat6 => &self.nat6,
            TableName::Filter6 => &self.filter6,
        };
        slots.get(at.chain.as_str().len()).copied()?
    }

    /// Writes down the slot of a chain. That of a longer name is left out.
    pub fn set_slot(&mut self, at: &ChainAt, slot: Option<usize>) {
        let letters = at.chain.as_str().len();
        match at.table {
            TableName::Nat => set(&mut self.nat, letters, slot),
            TableName::Filter => set(&mut self.filter, letters, slot),
            TableName::Nat6 => set(&mut self.nat6, letters, slot),
            TableName::Filter6 => set(&mut self.filter6, letters, slot),
        }
    }
}
