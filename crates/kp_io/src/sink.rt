//! Where bytes go.
ghost use Rattle.kp_io.specs.Ends.{Output, AfterWrite, AfterHandOn, AfterFlush, WritesWhole};

use crate::source::Failed;

/// A stream of bytes to the outside.
pub trait Sink {
    /// What it shows: the bytes that were written and how many of them were flushed, where it
    /// tells them, how many of them it keeps back, to hand them on together with others, and how
    /// often a call has failed.
    ghost output: { Self → Output };

    /// Takes bytes from the front of the piece, and answers how many. It takes at least one of a
    /// piece that isn't empty, or fails and takes none.
    fn write(&mut self, bytes: &[u8]) -> Result<usize, Failed>
        ensures { AfterWrite result bytes.now (output self.old) (output self.new) };

    /// Hands on what it keeps back.
    fn hand_on(&mut self) -> Result<(), Failed>
        ensures { AfterHandOn result (output self.old) (output self.new) };

    /// Hands on what was written so far, and has it handed on from there.
    fn flush(&mut self) -> Result<(), Failed>
        ensures { AfterFlush result (output self.old) (output self.new) };
}

/// Writes all of the bytes, or fails after a part of them.
pub fn write_whole<K: Sink>(sink: &mut K, bytes: &[u8]) -> Result<(), Failed>
    ensures { WritesWhole result bytes.now (K.output sink.old) (K.output sink.new) }
{
    let mut done = 0;
    while done < bytes.len() {
        let (_, rest) = bytes.split_at(done);
        done += sink.write(rest)?;
    }
    Ok(())
}
