//! How a run ends.
ghost use Rattle.std.specs.Prelude.{◌≡◌};
ghost use Rattle.kp_run.specs.Codes.{code_of};

use kp_base::NoMemory;

/// How a run ends; the program's exit status is the place from 0.
#[derive(Clone, Copy, Debug, PartialEq, Eq)]
pub enum Status {
    /// The input was read to its end, and no line was refused.
    Done,
    /// There was no memory. What was written is a prefix of the text.
    NoMemory(NoMemory),
    /// The words don't fit. The usage line was written.
    Usage,
    /// The input was read to its end, and a line was refused.
    LinesRefused,
    /// A read failed.
    ReadFault,
    /// A write or the flush failed.
    WriteFault,
    /// More than 4,294,967,296 bytes were read.
    InputTooLong,
}

impl Status {
    /// The exit status.
    pub fn code(self) -> u8
        ensures { result ≡ code_of self }
    {
        match self {
            Status::Done => 0,
            Status::NoMemory(_) => 1,
            Status::Usage => 2,
            Status::LinesRefused => 3,
            Status::ReadFault => 4,
            Status::WriteFault => 5,
            Status::InputTooLong => 6,
        }
    }
}
