//! How far a packet has come through the rules of a hook.
ghost use Rattle.std.specs.Prelude.{◌≡◌, ◌+◌, ◌-◌, ◌^◌, min};

use kp_types::Ending;

/// What changes on a packet's way through the rules of a hook: the mark, and how many draws were
/// used. Where a rule ended the traversal, `ending` is what it did; until then it says nothing.
#[derive(Clone, Copy, Debug, PartialEq, Eq)]
pub(crate) struct Progress {
    pub(crate) marked: bool,
    pub(crate) used: u32,
    pub(crate) ending: Ending,
}

impl Progress {
    /// A draw counts as used whether or not its test holds. The count stands still at its type's
    /// end.
    pub(crate) fn use_draw(&mut self)
        ensures { self.new ≡ record self.old { used = min (self.old.used + 1) (2 ^ 32 - 1) } }
    {
        self.used = self.used.saturating_add(1);
    }
}
