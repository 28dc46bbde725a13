//! What a reader of lines answers.
ghost use Rattle.std.specs.Prelude.{◌≡◌};
ghost use Rattle.kp_io.specs.declared.next_line.LineFault.TheVariants as fault;

use crate::source::Failed;
use kp_base::NoMemory;

/// An answer that isn't a fault.
#[derive(Clone, Copy, Debug, PartialEq, Eq)]
pub enum NextLine {
    /// The next line, with its number from 1.
    Line { number: u64 },
    /// The source has ended, after so many lines.
    End { lines: u64 },
}

/// The most bytes that the input may have.
pub const INPUT_LIMIT: u64 = 4_294_967_296;

/// The most bytes that a line may have, without its line feed.
pub const LINE_LIMIT: usize = 16_777_216;

/// Why a reader gave no line, and not the end.
#[derive(Clone, Copy, Debug, PartialEq, Eq)]
pub enum LineFault {
    /// The line of this number has more bytes than the limit. It was skipped to its end, and the
    /// next call goes on with the next line.
    TooLongLine { number: u64 },
    /// A read of the source failed. What was taken is kept, and the next call goes on.
    ReadFault,
    /// More bytes than the limit were taken.
    InputTooLong,
    /// There is no memory for the line. What was taken is kept, and the next call goes on.
    NoMemory(NoMemory),
}

impl From<Failed> for LineFault {
    ghost from_gives = { λ _ e. e ≡ fault.ReadFault };

    fn from(_failed: Failed) -> LineFault {
        LineFault::ReadFault
    }
}

impl From<NoMemory> for LineFault {
    ghost from_gives = { λ refused e. e ≡ fault.NoMemory refused };

    fn from(refused: NoMemory) -> LineFault {
        LineFault::NoMemory(refused)
    }
}
