//! How recent lists are looked at: they are only read, or changed as decisions leave them.
ghost use Rattle.std.specs.Prelude.{◌≡◌, Bool, true, cond, IsOk, OnErr, OnOk};
ghost use Rattle.kp_choice_defs.specs.Recent as recent;
ghost use Rattle.kp_choice_defs.specs.Recent.{RecentParts, reaped, set_at};
ghost use Rattle.kp_decide.specs.Looked.{has_source};

use kp_base::{Address, NoMemory};
use kp_recent::RecentLists;
use kp_types::ChainName;

/// Recent lists that decisions look at.
pub trait Looks {
    /// The lists.
    ghost lists: { Self → RecentParts };

    /// They are changed as decisions leave them.
    ghost changes: { Bool };

    /// Whether they are changed as decisions leave them.
    fn are_changed(&self) -> bool
        ensures { result ≡ changes };

    /// Whether the source is in the list, with an age of at most so many seconds. Lists that are
    /// changed lose older sources of its part.
    fn look(&mut self, list: &ChainName, source: &Address, now: u64, seconds: u32) -> bool
        ensures live { result
            ≡ recent.is_live (lists self.old) list.now source.now now seconds }
        ensures lists { lists self.new ≡ cond changes
            (reaped (lists self.old) list.now source.now now seconds) (lists self.old) };

    /// Sets the source in the list, where lists are changed. Without memory nothing changes. A
    /// source that the list has needs none.
    fn set(&mut self, list: &ChainName, source: &Address, now: u64) -> Result<(), NoMemory>
        ensures ok { OnOk result (lists self.new ≡ cond changes
            (set_at (lists self.old) list.now source.now now) (lists self.old)) }
        ensures err { OnErr result (lists self.new ≡ lists self.old) }
        ensures known { has_source (lists self.old) list.now source.now ≡ true → IsOk result };
}

/// Lists that stay as they are.
#[derive(Drop)]
pub struct OnlyRead<'a> {
    pub lists: &'a RecentLists,
}

impl<'a> Looks for OnlyRead<'a> {
    ghost use Rattle.std.specs.Prelude.{false};

    ghost lists = { λ r. r.lists.now };

    ghost changes = { false };

    fn are_changed(&self) -> bool {
        false
    }

    fn look(&mut self, list: &ChainName, source: &Address, now: u64, seconds: u32) -> bool {
        self.lists.is_live(list, source, now, seconds)
    }

    fn set(&mut self, _list: &ChainName, _source: &Address, _now: u64) -> Result<(), NoMemory> {
        Ok(())
    }
}

impl Looks for RecentLists {
    ghost use Rattle.std.specs.Prelude.{true};

    ghost lists = { λ r. r };

    ghost changes = { true };

    fn are_changed(&self) -> bool {
        true
    }

    fn look(&mut self, list: &ChainName, source: &Address, now: u64, seconds: u32) -> bool {
        RecentLists::look(self, list, source, now, seconds)
    }

    fn set(&mut self, list: &ChainName, source: &Address, now: u64) -> Result<(), NoMemory> {
        RecentLists::set(self, list, source, now)
    }
}
