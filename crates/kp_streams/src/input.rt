//! The input of a live run, read to its end before anything is run.
ghost use Rattle.std.specs.Prelude.{◌≡◌, Err, IfOk, IfSome, OnOk};
ghost use Rattle.std.specs.Io.KnownBytes.{IsAtEnd};
ghost use Rattle.kp_io.specs.Reader.{fresh_reader};
ghost use Rattle.kp_run_defs.specs.LiveLines.{nothing_read};
ghost use Rattle.kp_streams.specs.WholeInput.{HasInputCause, IsTooLong, LosesFront, ReadsWhole};
ghost use Rattle.kp_streams.specs.Streams.{reading_in};
ghost use Rattle.kp_streams.specs.declared.input.InputFault.TheVariants as fault;

use crate::lines::StreamLines;
use kp_base::NoMemory;
use kp_io::{LineFault, LineReader, NextLine, Source};
use std::alloc::Global;

/// Why an input wasn't read to its end.
#[derive(Clone, Copy, Debug, PartialEq, Eq)]
pub enum InputFault {
    /// There is no memory for what is kept of it.
    NoMemory(NoMemory),
    /// A read of the source failed.
    ReadFault,
    /// It has more than 4,294,967,296 bytes.
    InputTooLong,
}

impl From<NoMemory> for InputFault {
    ghost from_gives = { λ refused e. e ≡ fault.NoMemory refused };

    fn from(refused: NoMemory) -> InputFault {
        InputFault::NoMemory(refused)
    }
}

/// Reads the lines of a source to its end. A line that is too long is refused, and reading goes on
/// behind it. Whatever it answers, the source has lost what was read, and no more.
#[tactic(auto, using(crate::proofs::ReadLines::lost_none))]
pub fn read_input<S: Source>(alloc: Global, source: &mut S) -> Result<StreamLines, InputFault>
    ensures whole { IfOk result (λ s. IfSome (S.input source.old).left (ReadsWhole (reading_in s))) }
    ensures ended { OnOk result (IsAtEnd (S.input source.new).left) }
    ensures left { LosesFront (S.input source.old).left (S.input source.new).left }
    ensures cause { HasInputCause result (S.input source.old).faults (S.input source.new).faults }
    ensures long { result ≡ Err fault.InputTooLong → IsTooLong (S.input source.old).left }
{
    let (mut lines, mut reader) = begin(alloc)?;
    match take_lines(alloc, &mut lines, &mut reader, source) {
        Ok(()) => Ok(lines),
        Err(fault) => Err(fault),
    }
}

/// No lines, and a reader that has taken nothing.
fn begin(alloc: Global) -> Result<(StreamLines, LineReader), NoMemory>
    ensures { IfOk result (λ b. (reading_in b.0 ≡ nothing_read) × (b.1 ≡ fresh_reader)) }
{
    let reader = LineReader::new(alloc)?;
    let lines = StreamLines::new(alloc)?;
    Ok((lines, reader))
}

/// Takes the lines of a source to its end.
fn take_lines<S: Source>(
    alloc: Global,
    lines: &mut StreamLines,
    reader: &mut LineReader,
    source: &mut S,
) -> Result<(), InputFault>
    requires fresh { reader.old ≡ fresh_reader }
    requires start { reading_in lines.old ≡ nothing_read }
    ensures whole { OnOk result (IfSome (S.input source.old).left (ReadsWhole (reading_in lines.new))) }
    ensures ended { OnOk result (IsAtEnd (S.input source.new).left) }
    ensures left { LosesFront (S.input source.old).left (S.input source.new).left }
    ensures cause { HasInputCause result (S.input source.old).faults (S.input source.new).faults }
    ensures long { result ≡ Err fault.InputTooLong → IsTooLong (S.input source.old).left }
{
    'lines: loop {
        match reader.next_line(source) {
            Ok(NextLine::Line { number: _ }) => lines.take_line(alloc, Some(reader.bytes()))?,
            Err(LineFault::TooLongLine { number: _ }) => lines.take_line(alloc, None)?,
            Ok(NextLine::End { lines: _ }) => return Ok(()),
            Err(LineFault::ReadFault) => return Err(InputFault::ReadFault),
            Err(LineFault::InputTooLong) => return Err(InputFault::InputTooLong),
            Err(LineFault::NoMemory(refused)) => return Err(InputFault::NoMemory(refused)),
        }
    }
}
