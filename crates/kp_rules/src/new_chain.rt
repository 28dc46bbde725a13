//! A chain that is to be written.
ghost use Rattle.std.specs.Prelude.{◌≡◌, IfOk};

use crate::chain::Chain;
use kp_base::{NoMemory, Shared};
use kp_types::{ChainAt, Rule};
use std::alloc::Global;

/// A chain to be written, and where.
#[derive(Drop)]
pub struct NewChain {
    pub at: ChainAt,
    pub rules: Chain,
}

impl NewChain {
    /// A chain with these rules.
    pub fn new(alloc: Global, at: ChainAt, rules: Shared<Rule>) -> Result<NewChain, NoMemory>
        ensures at { IfOk result (λ c. c.at ≡ at) }
        ensures rules { IfOk result (λ c. c.rules ≡ rules) }
    {
        let rules = Chain::of(alloc, rules)?;
        Ok(NewChain { at, rules })
    }
}
