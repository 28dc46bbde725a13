//! What workers do.
ghost use Rattle.std.specs.Prelude.{◌≡◌, ◌++◌, OnErr, OnOk, string_bytes};
ghost use Rattle.kp_print.specs.Fronts.{HasFront};

use kp_base::NoMemory;
use kp_recent::RecentLists;

/// Work on items, each of which looks at one part of the recent lists.
pub trait Work<T> {
    ghost use Rattle.std.specs.Prelude.{ℕ, List};
    ghost use Rattle.kp_choice_defs.specs.Recent.{RecentParts};

    /// The part that an item looks at, or any where it looks at none.
    ghost part: { Self → T → ℕ };

    /// What an item is answered, and the recent lists after it.
    ghost step: { Self → T → RecentParts → List ℕ × RecentParts };

    /// The part that an item looks at, or any where it looks at none.
    fn part(&self, item: &T) -> usize
        ensures { result ≡ part self.now item.now };

    /// Adds what an item is answered. Without memory the lists may be anything of their size, and
    /// some of the answer may stand in the text.
    fn step(&self, item: &T, lists: &mut RecentLists, text: &mut String) -> Result<(), NoMemory>
        ensures text { OnOk result (string_bytes text.new
            ≡ string_bytes text.old ++ (step self.now item.now lists.old).0) }
        ensures lists { OnOk result (lists.new ≡ (step self.now item.now lists.old).1) }
        ensures size { lists.new.size ≡ lists.old.size }
        ensures front { OnErr result (HasFront text.new text.old) };
}
