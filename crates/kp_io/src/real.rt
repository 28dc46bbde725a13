//! The real ends: std's readers and writers. What they give and take is the outside, of which
//! nothing is told; their failures are counted.
ghost use Rattle.std.specs.Prelude.{◌≡◌, ◌≢◌, ◌≤◌, ◌⊎◌, Ok, true, false, length, IfErr, IfOk, IsErr};
ghost use Rattle.std.specs.Io.{ReadsAtMost};
ghost use Rattle.std.specs.Io.KnownBytes.{Keeps, ReadConsumes, WriteAppends};
ghost use Rattle.std.specs.IoError.{error_kind};
ghost use Rattle.kp_io.specs.Ends.{AfterWrite, AfterHandOn, AfterFlush};
ghost use Rattle.kp_io.specs.Faults.{Rose};
ghost use Rattle.kp_io.specs.Real.{shown_reader, shown_writer};

use crate::sink::Sink;
use crate::source::{Failed, Source};
use std::io;
use std::io::{Error, ErrorKind, Read, Write};
use std::marker::Model;

/// How often a call that a signal interrupts is tried again before that is a failure: for ever, as
/// far as anyone waits.
const TRIES: u64 = u64::MAX;

/// A source over a reader of std. It tells what its reader tells: of a file or a terminal, nothing.
#[derive(Drop)]
pub struct RealSource<R> {
    reader: R,
    asked: u64,
    faults: u64,
}

impl<R> Model for RealSource<R> {
    ghost use Rattle.kp_io.specs.Real.{CountedReader};

    ghost Value = { CountedReader R };

    ghost view = { λ s. record { inner = s.reader; asked = s.asked; faults = s.faults } };
}

impl<R: Read> RealSource<R> {
    /// A source that gives what the reader gives.
    pub fn new(reader: R) -> RealSource<R>
        ensures reader { result.inner ≡ reader }
        ensures asked { result.asked ≡ 0 }
        ensures faults { result.faults ≡ 0 }
    {
        RealSource {
            reader,
            asked: 0,
            faults: 0,
        }
    }
}

impl<R: Read> Source for RealSource<R> {
    ghost input = { λ s. shown_reader (R.remaining s.inner) s };

    fn read(&mut self, buf: &mut [u8]) -> Result<usize, Failed> {
        self.asked = self.asked.saturating_add(1);
        match read_again(&mut self.reader, buf) {
            Ok(count) => Ok(count),
            Err(_) => {
                self.faults = self.faults.saturating_add(1);
                Err(Failed)
            }
        }
    }
}

/// Reads, and again where a signal interrupts the read, which is no failure.
fn read_again<R: Read>(reader: &mut R, buf: &mut [u8]) -> io::Result<usize>
    ensures bound { ReadsAtMost result buf.new }
    ensures bytes { ReadConsumes (R.remaining reader.old) (R.remaining reader.new) result buf.new }
    ensures retried { IfErr result (λ e. error_kind e ≢ ErrorKind.Interrupted) }
{
    for _ in 0..TRIES {
        match reader.read(buf) {
            Err(error) if error.kind() == ErrorKind::Interrupted => {}
            answer => return answer,
        }
    }
    Err(Error::from(ErrorKind::TimedOut))
}

/// Writes, and again where a signal interrupts the write, which is no failure.
fn write_again<W: Write>(writer: &mut W, bytes: &[u8]) -> io::Result<usize>
    ensures bound { IfOk result (λ n. n ≤ length bytes.now) }
    ensures bytes { WriteAppends (W.contents writer.old) (W.contents writer.new) result bytes.now }
    ensures retried { IfErr result (λ e. error_kind e ≢ ErrorKind.Interrupted) }
{
    for _ in 0..TRIES {
        match writer.write(bytes) {
            Err(fault) if fault.kind() == ErrorKind::Interrupted => {}
            answer => return answer,
        }
    }
    Err(Error::from(ErrorKind::TimedOut))
}

/// A sink over a writer of std, of whose content it tells nothing. It keeps no bytes back, and it
/// keeps whether nobody reads them any more.
#[derive(Drop)]
pub struct RealSink<W> {
    writer: W,
    faults: u64,
    closed: bool,
}

impl<W> Model for RealSink<W> {
    ghost use Rattle.kp_io.specs.Real.{Counted};

    ghost Value = { Counted W };

    ghost view = { λ s. record { inner = s.writer; faults = s.faults; closed = s.closed } };
}

impl<W: Write> RealSink<W> {
    /// A sink that hands on what is written to the writer.
    pub fn new(writer: W) -> RealSink<W>
        ensures writer { result.inner ≡ writer }
        ensures faults { result.faults ≡ 0 }
        ensures closed { result.closed ≡ false }
    {
        RealSink {
            writer,
            faults: 0,
            closed: false,
        }
    }

    /// Whether a write has failed since nobody reads the bytes any more, as when the other end of a
    /// pipe was closed.
    pub fn is_closed(&self) -> bool
        ensures { result ≡ self.now.closed }
    {
        self.closed
    }

    /// Counts a failure of this kind.
    fn fail(&mut self, kind: ErrorKind) -> Failed
        ensures inner { self.new.inner ≡ self.old.inner }
        ensures rose { Rose self.old.faults self.new.faults }
        ensures later { self.old.faults ≤ self.new.faults }
        ensures closed { self.new.closed ≡ true
            → (self.old.closed ≡ true) ⊎ (kind ≡ ErrorKind.BrokenPipe) }
    {
        self.faults = self.faults.saturating_add(1);
        if kind == ErrorKind::BrokenPipe {
            self.closed = true;
        }
        Failed
    }
}

impl<W: Write> Sink for RealSink<W> {
    ghost output = { shown_writer };

    fn write(&mut self, bytes: &[u8]) -> Result<usize, Failed>
        ensures writes { AfterWrite result bytes.now (shown_writer self.old) (shown_writer self.new) }
        ensures passed { WriteAppends (W.contents self.old.inner) (W.contents self.new.inner)
            result bytes.now }
        ensures closed { self.new.closed ≡ true → (self.old.closed ≡ true) ⊎ IsErr result }
    {
        match write_again(&mut self.writer, bytes) {
            Ok(0) if !bytes.is_empty() => Err(self.fail(ErrorKind::WriteZero)),
            Ok(count) => Ok(count),
            Err(error) => Err(self.fail(error.kind())),
        }
    }

    fn hand_on(&mut self) -> Result<(), Failed>
        ensures hands_on { AfterHandOn result (shown_writer self.old) (shown_writer self.new) }
        ensures sure { result ≡ Ok tt }
        ensures same { self.new ≡ self.old }
    {
        Ok(())
    }

    fn flush(&mut self) -> Result<(), Failed>
        ensures flushes { AfterFlush result (shown_writer self.old) (shown_writer self.new) }
        ensures passed { Keeps (W.contents self.old.inner) (W.contents self.new.inner) }
        ensures closed { self.new.closed ≡ true → (self.old.closed ≡ true) ⊎ IsErr result }
    {
        match self.writer.flush() {
            Ok(()) => Ok(()),
            Err(error) => Err(self.fail(error.kind())),
        }
    }
}
