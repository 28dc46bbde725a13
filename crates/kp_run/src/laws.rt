//! What holds of replays and of live runs.
ghost use Rattle.kp_run.specs.Complete.{UnhinderedRunsEndByLines};
ghost use Rattle.kp_run.specs.LastTables.{LastLiveTable};
ghost use Rattle.kp_run.specs.Sums.{CountsAlongReplay};

/// Lines that are counted lead where their replay leads.
pub fn sums_along_replay()
    ensures { CountsAlongReplay }
{}

/// A live run in which nothing is refused ends with the full table of all its events.
pub fn last_live_tables_are_full()
    ensures { LastLiveTable }
{}

/// A run whose words ask for something, of which no read and no write fails and whose input isn't
/// too long, ends by its lines, or for want of memory.
pub fn unhindered_runs_end_by_their_lines()
    ensures { UnhinderedRunsEndByLines }
{}
