//! Who keeps the trail of a walk.
ghost use Rattle.std.specs.Prelude.{◌≡◌, ◌<◌, ◌≤◌, ◌+◌, ◌∷◌, ◌++◌, [], length};
ghost use Rattle.std.specs.Prelude.{ℕ, Bool, true, false, List};
ghost use Rattle.kp_walker.specs.Shorn.{path_if, trail_if};

use arrayvec::ArrayVec;
use kp_types::{ChainName, Pass, Trail};
use std::mem;

/// What a walk tells of its way: the chains on the way to the rule that ended the traversal of a
/// hook, and the ways of the hooks before.
pub(crate) trait Recorder: Drop {
    /// Whether it keeps what it is told.
    ghost keeps: { Bool };

    /// The way through the hook so far.
    ghost way: { Self → List (List ℕ) };

    /// The ways of the hooks that are over.
    ghost trail: { Self → List (List (List ℕ)) };

    /// A chain comes before those on the way.
    fn come_from(&mut self, chain: &ChainName)
        requires room { length (way self.old) < 8 }
        ensures way { way self.new ≡ path_if keeps (chain.now ∷ way self.old) }
        ensures room { length (way self.new) ≤ length (way self.old) + 1 }
        ensures trail { trail self.new ≡ trail self.old };

    /// A rule ended the traversal of the hook.
    fn end_hook(&mut self)
        requires room { length (trail self.old) < 4 }
        ensures way { way self.new ≡ [] }
        ensures trail { trail self.new ≡ trail_if keeps (trail self.old ++ way self.old ∷ []) }
        ensures room { length (trail self.new) ≤ length (trail self.old) + 1 };
}

/// Keeps the trail.
#[derive(Drop)]
pub(crate) struct TrailRecorder {
    way: Pass,
    trail: Trail,
}

impl TrailRecorder {
    ghost use Rattle.kp_walker.specs.Answers.{names_of};

    /// Nothing was told yet.
    pub(crate) fn new() -> TrailRecorder
        ensures way { result.way.chains.items ≡ [] }
        ensures trail { result.trail.passes.items ≡ [] }
    {
        TrailRecorder {
            way: Pass::default(),
            trail: Trail {
                passes: ArrayVec::new(),
            },
        }
    }

    /// The trail.
    pub(crate) fn trail(self) -> Trail
        ensures { result ≡ self.trail }
    {
        self.trail
    }
}

impl Recorder for TrailRecorder {
    ghost use Rattle.kp_walker.specs.Answers.{names_of};

    ghost keeps = { true };

    ghost way = { λ r. r.way.chains.items };

    ghost trail = { λ r. names_of r.trail };

    fn come_from(&mut self, chain: &ChainName) {
        self.way.chains.insert(0, chain.same());
    }

    fn end_hook(&mut self) {
        let way = mem::replace(&mut self.way, Pass::default());
        self.trail.passes.push(way);
    }
}

/// Keeps nothing.
#[derive(Drop)]
pub(crate) struct NoRecorder;

impl Recorder for NoRecorder {
    ghost keeps = { false };

    ghost way = { λ r. [] };

    ghost trail = { λ r. [] };

    fn come_from(&mut self, _chain: &ChainName) {}

    fn end_hook(&mut self) {}
}
