//! Live runs, worked out from their lines to the text that they print; and draws and walks beside
//! those of `kp_worked`. Each example is a clause of a function that does nothing.
#![tactic(auto)]

ghost use Rattle.kp_worked_runs.specs.Clashes as clashes;
ghost use Rattle.kp_worked_runs.specs.Destinations as destinations;
ghost use Rattle.kp_worked_runs.specs.Draws as draws;
ghost use Rattle.kp_worked_runs.specs.Faults as faults;
ghost use Rattle.kp_worked_runs.specs.Inputs as inputs;
ghost use Rattle.kp_worked_runs.specs.Readings as readings;
ghost use Rattle.kp_worked_runs.specs.Runs as runs;

/// The run of the empty input.
pub fn worked_empty_input()
    ensures legal { runs.EmptyIsLegal }
    ensures prints { runs.EmptyPrints }
{}

/// A run with a line that isn't for live.
pub fn worked_not_for_live()
    ensures reads { runs.ShowingReads }
    ensures legal { runs.ShowingIsLegal }
    ensures prints { runs.ShowingPrints }
{}

/// A run with a sync and a packet.
pub fn worked_sync()
    ensures reads { runs.SyncedReads }
    ensures legal { runs.SyncedIsLegal }
    ensures prints { runs.SyncedPrints }
{}

/// A run whose packets are answered between syncs.
pub fn worked_answers_between_syncs()
    ensures legal { runs.MovedIsLegal }
    ensures prints { runs.MovedPrints }
{}

/// A run that ends in a clash, and one whose record has it.
pub fn worked_clash_at_end()
    ensures legal { runs.RefusedIsLegal }
    ensures prints { runs.RefusedPrints }
    ensures broken { runs.RecordHasClash }
{}

/// Runs with a sync that is refused: at the end, and before the clash has passed. No sync is
/// refused by the two chains the other way round, and no record has the clash.
pub fn worked_refused_syncs()
    ensures at_end { clashes.RefusedAtEnd }
    ensures turned { clashes.TurnedIsBroken }
    ensures before { clashes.RefusedBefore }
    ensures prints { clashes.RefusedBeforePrints }
    ensures broken { clashes.FirstRecordHasClash }
{}

/// A clash that has passed refuses a stream that was shown no record, but not one that was shown a
/// record of more events.
pub fn worked_late_refusals()
    ensures first { clashes.RefusedByFirst }
    ensures fewer { clashes.RefusedByFewer }
{}

/// A run of two streams whose text has each part but a refused sync.
pub fn worked_whole_text()
    ensures legal { runs.WholeIsLegal }
    ensures prints { runs.WholePrints }
{}

/// Runs whose only fault is a number, an event, or what a packet or a sync of a stream shows behind
/// others; and what packets may show.
pub fn worked_single_faults()
    ensures number { faults.WrongNumber }
    ensures event { faults.WrongEvent }
    ensures legal { faults.PacketsMayShow }
    ensures packet { faults.PacketForgets }
    ensures sync { faults.SyncForgets }
    ensures ahead { faults.PacketIsAhead }
{}

/// A sync's record has the events that its stream fed, and no other sync's.
pub fn worked_records_of_syncs()
    ensures has { faults.SyncHasEvent }
    ensures lacks { faults.SyncLacksEvent }
    ensures apart { faults.SyncsAreApart }
    ensures shared { faults.SyncsShareRecord }
{}

/// 64 streams are taken and no more.
pub fn worked_most_streams()
    ensures taken { readings.LastIsTaken }
    ensures full { readings.SixtyFour }
    ensures too_many { readings.OneMore }
    ensures not_live { readings.NotLiveFirst }
{}

/// A journal of two events: a line without room counts none of its events.
pub fn worked_small_journal()
    ensures reads { readings.SmallReads }
    ensures at_once { readings.SmallAtOnce }
{}

/// The numbers of blank lines, of those that are too long, and of those after them.
pub fn worked_line_numbers()
    ensures blank { readings.BlankBefore }
    ensures between { readings.BlankBetween }
    ensures too_long { readings.TooLong }
    ensures longest { readings.Longest }
{}

/// Whether a run refused anything: a line, a sync, the sync at its end, or nothing.
pub fn worked_statuses()
    ensures line { clashes.LineIsRefused }
    ensures sync { clashes.SyncIsRefused }
    ensures at_end { clashes.EndIsRefused }
    ensures none { clashes.NothingIsRefused }
{}

/// A probability between two that can be printed, and draws that are listed.
pub fn worked_draws()
    ensures fraction { draws.Fraction }
    ensures whole { draws.WholeFraction }
    ensures threshold { draws.Threshold }
    ensures first { draws.First }
    ensures second { draws.Second }
    ensures behind { draws.Behind }
{}

/// Walks of packets that the first rule of KUBE-SERVICES isn't for.
pub fn worked_destinations()
    ensures port { destinations.OtherPort }
    ensures protocol { destinations.OtherProtocol }
    ensures address { destinations.OtherAddress }
    ensures own { destinations.OwnAddress }
{}

/// The lines of the runs, as they are typed.
pub fn worked_lines()
    ensures sync { inputs.SyncReads }
    ensures show { inputs.ShowReads }
    ensures web { inputs.WebReads }
    ensures slice { inputs.SliceReads }
    ensures other_slice { inputs.OtherSliceReads }
    ensures sent { inputs.SentReads }
    ensures config { inputs.ConfigReads }
    ensures plain { inputs.PlainReads }
    ensures not_for_live { inputs.ShowingTyped }
    ensures clash_at_end { inputs.RefusedTyped }
{}
