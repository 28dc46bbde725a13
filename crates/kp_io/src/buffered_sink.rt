//! A sink that keeps small writes together.
ghost use Rattle.std.specs.Prelude.{◌≡◌, ◌<◌, [], length, IfOk, OnOk, OnErr};
ghost use Rattle.kp_io.specs.Buffered.{fresh_buffer, shown_behind, written_behind};
ghost use Rattle.kp_io.specs.Faults.{HasCause};
ghost use Rattle.kp_io.specs.Told.{Grows};

use crate::chunk::BUFFER_SIZE;
use crate::sink::Sink;
use crate::source::Failed;
use kp_base::NoMemory;
use std::alloc::Global;
use std::marker::Model;

/// A sink before another one. It keeps up to 65,536 bytes, and hands them on in one piece once no
/// more fit, or where it is told to.
#[derive(Drop)]
pub struct BufferedSink<K> {
    sink: K,
    kept: Vec<u8>,
}

impl<K> Model for BufferedSink<K> {
    ghost use Rattle.std.specs.Prelude.{◌≤◌, vec_len, vec_capacity};
    ghost use Rattle.kp_io.specs.Buffered.{Buffered};
    ghost use Rattle.kp_io.specs.declared.chunk.TheConstants.{BUFFER_SIZE};

    ghost Value = { Buffered K };

    ghost view = { λ s. record { sink = s.sink; kept = s.kept.items } };

    ghost invariant = { λ s.
        (vec_len s.kept ≤ BUFFER_SIZE) × (BUFFER_SIZE ≤ vec_capacity s.kept) };
}

impl<K: Sink + Drop> BufferedSink<K> {
    /// A sink that keeps nothing yet.
    pub fn new(alloc: Global, sink: K) -> Result<BufferedSink<K>, NoMemory>
        ensures { IfOk result (λ s. s ≡ fresh_buffer sink) }
    {
        let kept = Vec::with_capacity(alloc, BUFFER_SIZE)?;
        Ok(BufferedSink { sink, kept })
    }
}

impl<K: Sink> BufferedSink<K> {
    /// The sink that comes next.
    pub fn sink(&self) -> &K
        ensures { result.now ≡ self.now.sink }
    {
        &self.sink
    }

    /// Hands on bytes from the front in one write. Where that fails, nothing was handed on.
    fn write_on(&mut self) -> Result<(), Failed>
        requires some { 0 < length self.old.kept }
        ensures fewer { OnOk result (length self.new.kept < length self.old.kept) }
        ensures kept { Grows (written_behind self.old.kept (K.output self.old.sink).written)
            (written_behind self.new.kept (K.output self.new.sink).written) [] }
        ensures cause { HasCause (K.output self.old.sink).faults (K.output self.new.sink).faults result }
        ensures err { OnErr result ((self.new.kept ≡ self.old.kept)
            × ((K.output self.new.sink).written ≡ (K.output self.old.sink).written)) }
    {
        let count = self.sink.write(&self.kept)?;
        // A whole write is by far the most common, and moves nothing.
        if count == self.kept.len() {
            self.kept.clear();
        } else {
            self.kept.rotate_left(count);
            self.kept.truncate(self.kept.len() - count);
        }
        Ok(())
    }

    /// Hands on all that is kept.
    fn write_all_on(&mut self) -> Result<(), Failed>
        ensures out { OnOk result (self.new.kept ≡ []) }
        ensures kept { Grows (written_behind self.old.kept (K.output self.old.sink).written)
            (written_behind self.new.kept (K.output self.new.sink).written) [] }
        ensures unasked { self.old.kept ≡ [] → self.new ≡ self.old }
        ensures cause { HasCause (K.output self.old.sink).faults (K.output self.new.sink).faults result }
    {
        while !self.kept.is_empty() {
            self.write_on()?;
        }
        Ok(())
    }
}

impl<K: Sink> Sink for BufferedSink<K> {
    ghost output = { λ s. shown_behind s.kept (K.output s.sink) };

    fn write(&mut self, bytes: &[u8]) -> Result<usize, Failed> {
        if self.kept.len() == BUFFER_SIZE {
            self.write_on()?;
        }
        let count = bytes.len().min(BUFFER_SIZE - self.kept.len());
        let (taken, _) = bytes.split_at(count);
        self.kept.extend_from_slice(taken).unwrap();
        Ok(count)
    }

    fn hand_on(&mut self) -> Result<(), Failed> {
        self.write_all_on()?;
        self.sink.hand_on()
    }

    fn flush(&mut self) -> Result<(), Failed> {
        self.write_all_on()?;
        self.sink.flush()
    }
}
