//! What holds of live runs.
ghost use Rattle.kp_run_defs.specs.CountedRuns.{LegalRunsAreCounted};
ghost use Rattle.kp_run_defs.specs.LegalRuns.{LastTableIsFull};

/// Where a legal run ends without a clash, its last table is the full one of every event.
pub fn last_tables_are_full()
    ensures { LastTableIsFull }
{}

/// Each legal run of an input keeps the looser rules, by counts. A sync shows at least as many
/// records as its stream has accepted syncs, a refused line names the clash of some first events,
/// and there are as many records as accepted syncs.
pub fn legal_runs_are_counted()
    ensures { LegalRunsAreCounted }
{}
