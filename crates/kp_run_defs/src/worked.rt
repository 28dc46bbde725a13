//! Live runs, worked out by their definitions. Each example is a clause of a function that does
//! nothing.
ghost use Rattle.kp_run_defs.specs.WorkedLive as live;

/// How lines are read for live: refusals in their order, and the streams.
pub fn worked_reading()
    ensures not_live { live.NotForLive }
    ensures streams { live.StreamsInOrder }
    ensures streams_first { live.StreamsBeforeJournal }
    ensures journal { live.JournalIsFull }
    ensures no_stream { live.RefusedMakesNone }
{}

/// A run of two streams that the rules allow.
pub fn a_legal_run()
    ensures { live.Legal }
{}

/// Runs whose journal isn't what the streams feed.
pub fn broken_journals()
    ensures lost { live.LostEvent }
    ensures twice { live.EventTwice }
    ensures turned { live.EventsTurned }
    ensures of_no_stream { live.EventOfNoStream }
{}

/// Runs whose records don't cover the journal, or are too few.
pub fn broken_records()
    ensures too_much { live.CoversTooMuch }
    ensures too_little { live.CoversTooLittle }
    ensures no_last { live.NoLastRecord }
    ensures one_for_two { live.OneRecordForTwo }
{}

/// Runs with a line that shows what its stream couldn't have seen.
pub fn broken_lines()
    ensures sync_twice { live.SyncTwice }
    ensures sync_of_none { live.SyncOfNoRecord }
    ensures packet_of_none { live.PacketOfNoRecord }
    ensures packet_goes_back { live.PacketGoesBack }
    ensures packet_before_sync { live.PacketBeforeSync }
{}

/// Runs with a refusal that no objects give.
pub fn broken_refusals()
    ensures made_up { live.MadeUpClash }
    ensures packet { live.RefusedPacket }
{}
