//! Edits that have all memory that making them takes, so that many can be made or none.
ghost use Rattle.std.specs.Prelude.{◌≡◌, ◌+◌, ◌<◌, ◌≤◌, map, length, fold, IfOk};
ghost use Rattle.kp_table_defs.specs.Edits.{chains_after_edit};
ghost use Rattle.kp_rules.specs.Ready.{edit_of};

use crate::chain_map::ChainMap;
use crate::new_chain::NewChain;
use kp_base::{Copied, NoMemory};
use kp_types::{ChainAt, Edit};
use std::alloc::Global;

/// An edit with its memory.
#[derive(Drop)]
pub enum ReadyEdit {
    Write(NewChain),
    Remove(ChainAt),
}

impl ReadyEdit {
    /// A copy of an edit, with its memory.
    fn of(alloc: Global, edit: &Edit) -> Result<ReadyEdit, NoMemory>
        ensures { IfOk result (λ r. edit_of r ≡ edit.now) }
    {
        match edit {
            Edit::Write { at, rules } => {
                let chain = NewChain::new(alloc, at.same(), rules.copy(alloc)?)?;
                Ok(ReadyEdit::Write(chain))
            }
            Edit::Remove { at } => Ok(ReadyEdit::Remove(at.same())),
        }
    }

    /// Makes the edit.
    fn make(self, chains: &mut ChainMap)
        requires { 0 < chains.old.room }
        ensures chains { chains.new.chains ≡ chains_after_edit chains.old.chains (edit_of self) }
        ensures room { chains.old.room ≤ chains.new.room + 1 }
    {
        match self {
            ReadyEdit::Write(chain) => chains.write(chain),
            ReadyEdit::Remove(at) => chains.remove(&at),
        }
    }
}

/// Copies of edits, with their memory.
pub fn ready_edits(alloc: Global, edits: &[Edit]) -> Result<Vec<ReadyEdit>, NoMemory>
    ensures { IfOk result (λ r. map edit_of r.items ≡ edits.now) }
{
    let mut ready = Vec::new(alloc);
    for edit in edits {
        ready.push(ReadyEdit::of(alloc, edit)?)?;
    }
    Ok(ready)
}

/// Makes all edits, in their order.
pub fn make_all(edits: Vec<ReadyEdit>, chains: &mut ChainMap)
    requires { length edits.items ≤ chains.old.room }
    ensures { chains.new.chains
        ≡ fold chains_after_edit chains.old.chains (map edit_of edits.items) }
{
    for edit in edits {
        edit.make(chains);
    }
}

/// Finds where the jumps of the chains lead that these edits write, or of all chains where no batch
/// came before them, since the built-in chains stand already.
pub fn link_made(edits: &[Edit], syncs: u64, chains: &mut ChainMap)
    ensures { chains.new ≡ chains.old }
{
    if syncs == 0 {
        chains.link_all();
    } else {
        link_written(edits, chains);
    }
}

/// Finds where the jumps of the chains lead that these edits write.
fn link_written(edits: &[Edit], chains: &mut ChainMap)
    ensures { chains.new ≡ chains.old }
{
    for edit in edits {
        if let Edit::Write { at, .. } = edit {
            chains.link(at);
        }
    }
}
