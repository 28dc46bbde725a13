//! How a walk goes on.
ghost use Rattle.std.specs.Prelude.{◌≡◌, ℕ, ◌+◌};
ghost use Rattle.kp_choice_defs.specs.Recent.{RecentParts};
ghost use Rattle.kp_table_defs.specs.Walk as walk;

use crate::recorder::Recorder;
use kp_types::ChainName;

/// How a walk goes on behind a rule, rules or a chain. What changed on the way stands in the
/// packet's progress, so that nothing is copied at the end of a chain.
#[derive(Clone, Copy, Debug, PartialEq, Eq)]
pub(crate) enum Flow {
    /// The walk goes on.
    Next,
    /// The chain is left.
    Left,
    /// A rule ended the traversal of the hook.
    Ended,
    /// A jump went to no chain, or too deep.
    Stuck,
}

impl Flow {
    ghost use Rattle.kp_walker.specs.Flow.{outcome_of, IsThrough};
    ghost use Rattle.kp_walker.specs.Shorn.{shorn};
    ghost use Rattle.kp_walker.specs.declared.header.Header.{Header};
    ghost use Rattle.kp_walker.specs.declared.progress.Progress.{Progress};

    /// The flow behind a jump to the chain. Where a traversal was ended, the chain comes before
    /// those on the way.
    pub(crate) fn returned_from<R: Recorder>(self, chain: &ChainName, recorder: &mut R) -> Flow
        requires way { IsThrough self 7 (R.way recorder.old) }
        ensures outcome { (header : Header) (progress : Progress) (lists : RecentParts) →
            outcome_of header result progress (R.way recorder.new) lists ≡ shorn R.keeps
            (walk.returned_from chain.now
            (outcome_of header self progress (R.way recorder.old) lists)) }
        ensures way { (n : ℕ) → IsThrough self n (R.way recorder.old)
            → IsThrough result (n + 1) (R.way recorder.new) }
        ensures trail { R.trail recorder.new ≡ R.trail recorder.old }
    {
        match self {
            Flow::Next | Flow::Left => Flow::Next,
            Flow::Ended => {
                recorder.come_from(chain);
                Flow::Ended
            }
            Flow::Stuck => Flow::Stuck,
        }
    }
}
