//! Ways to end a run.
ghost use Rattle.std.specs.Prelude.{◌≡◌, OnOk};
ghost use Rattle.kp_io.specs.Ends.{Input, Output};
ghost use Rattle.kp_run.specs.Outcome as outcome;
ghost use Rattle.kp_run.specs.Stand.{Closes, EndsOrStops, HandsOn, WritesOrStops};
ghost use Rattle.kp_run.specs.Texts.{Texts};
ghost use Rattle.kp_run.specs.declared.status.Status.TheVariants as status;

use crate::status::Status;
use kp_base::NoMemory;
use kp_io::{Sink, write_whole};
use kp_report::usage_text;

/// Why a replay stopped before the end of its input.
#[derive(Clone, Copy, Debug, PartialEq, Eq)]
pub(crate) enum Stop {
    NoMemory(NoMemory),
    Write,
    Read,
    InputTooLong,
}

/// Writes a text whole, or a front of it.
pub(crate) fn write_text<K: Sink>(sink: &mut K, text: &[u8]) -> Result<(), Stop>
    ensures { WritesOrStops result text.now (K.output sink.old) (K.output sink.new) }
{
    match write_whole(sink, text) {
        Ok(()) => Ok(()),
        Err(_) => Err(Stop::Write),
    }
}

/// Hands on what the sink keeps back.
pub(crate) fn hand_on<K: Sink>(sink: &mut K) -> Result<(), Stop>
    ensures out { OnOk result ((K.output sink.new).kept_back ≡ 0) }
    ensures hands { HandsOn result (K.output sink.old) (K.output sink.new) }
{
    match sink.hand_on() {
        Ok(()) => Ok(()),
        Err(_) => Err(Stop::Write),
    }
}

/// The status of an input that was read to its end.
pub(crate) fn if_refused(refused: bool) -> Status
    ensures { result ≡ outcome.status_if refused }
{
    if refused {
        Status::LinesRefused
    } else {
        Status::Done
    }
}

/// Hands on what the sink keeps back, where memory ran out. The status tells that, or a fault of
/// the sink.
pub(crate) fn handed_on<K: Sink>(sink: &mut K, refused: NoMemory) -> Status
    ensures { Closes result (status.NoMemory refused) ((K.output sink.new).kept_back ≡ 0)
        (K.output sink.old) (K.output sink.new) }
{
    match sink.hand_on() {
        Ok(()) => Status::NoMemory(refused),
        Err(_) => Status::WriteFault,
    }
}

/// Flushes the sink. The status is the one given, or a fault of the sink.
pub(crate) fn flushed<K: Sink>(sink: &mut K, status: Status) -> Status
    ensures { Closes result status (outcome.IsOut (K.output sink.new))
        (K.output sink.old) (K.output sink.new) }
{
    match sink.flush() {
        Ok(()) => status,
        Err(_) => Status::WriteFault,
    }
}

/// Ends a replay that has come to the end of its input, of which this is whether a line was
/// refused, or was stopped.
pub(crate) fn ended<K: Sink>(sink: &mut K, refused: bool, all: Result<(), Stop>) -> Status
    ensures { (t : Texts) (from : Input) (to : Output) (input : Input)
        → EndsOrStops t refused all from to input (K.output sink.old)
        → outcome.EndsOf t result from to input (K.output sink.new) }
{
    match all {
        Ok(()) => flushed(sink, if_refused(refused)),
        Err(Stop::NoMemory(wanted)) => handed_on(sink, wanted),
        Err(Stop::Write) => Status::WriteFault,
        Err(Stop::Read) => flushed(sink, Status::ReadFault),
        Err(Stop::InputTooLong) => flushed(sink, Status::InputTooLong),
    }
}

/// Writes the usage line.
pub fn usage<K: Sink>(sink: &mut K) -> Status
    ensures { outcome.EndsUsage result (K.output sink.old) (K.output sink.new) }
{
    match write_whole(sink, usage_text().as_bytes()) {
        Ok(()) => flushed(sink, Status::Usage),
        Err(_) => Status::WriteFault,
    }
}
