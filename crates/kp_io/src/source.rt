//! Where bytes come from.
ghost use Rattle.kp_io.specs.Ends.{Input, AfterRead};

/// A read, a write or a flush failed.
#[derive(Clone, Copy, Debug, PartialEq, Eq)]
pub struct Failed;

/// A stream of bytes from outside.
pub trait Source {
    /// What it shows: the bytes that are left, where it tells them, how often a read has failed,
    /// and how often it was asked to read.
    ghost input: { Self → Input };

    /// Puts bytes at the front of the buffer, and answers how many. Into a buffer that isn't empty
    /// it puts none only at the end. A read that fails takes nothing.
    fn read(&mut self, buf: &mut [u8]) -> Result<usize, Failed>
        ensures { AfterRead result buf.new (input self.old) (input self.new) };
}
