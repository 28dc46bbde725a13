//! Laws of tracked connections. Each is the contract of a function that does nothing.
ghost use Rattle.kp_track_defs.specs.TrackLaws as laws;

/// An opener that isn't live stays so: moments never fall, and who is dead owns nothing.
pub fn dead_openers()
    ensures dead { laws.DeadStayDead }
    ensures moments { laws.MomentsNeverFall }
{}

/// At most one live opener has a connection, and at most 65,536 are live.
pub fn live_openers()
    ensures one { laws.OneOwner }
    ensures few { laws.FewLive }
{}

/// A tracker that keeps the live openers alone answers as the list of all does.
pub fn kept_openers()
    ensures answers { laws.KeptAnswers }
    ensures keeps { laws.KeptKeeps }
    ensures owns { laws.KeptOwns }
    ensures opens { laws.KeptOpens }
    ensures passes { laws.KeptPasses }
    ensures syncs { laws.KeptSyncs }
    ensures clears { laws.KeptClears }
{}
