//! A sink in memory that never fails.
ghost use Rattle.std.specs.Prelude.{◌≡◌, ◌≤◌, Ok, min, length, IfOk};
ghost use Rattle.kp_io.specs.Ends.{AfterWrite, AfterHandOn, AfterFlush};
ghost use Rattle.kp_io.specs.Memory.{shown_sink, fresh_sink, KeepsTelling};

use crate::sink::Sink;
use crate::source::Failed;
use kp_base::NoMemory;
use std::alloc::Global;
use std::marker::Model;

/// A sink that keeps what is written in memory, and takes at most so many bytes in a write. It has
/// room for so many bytes from the start. Where it is refused memory for more, it takes the bytes
/// all the same, and from then on tells no content.
#[derive(Drop)]
pub struct SureSink {
    kept: Vec<u8>,
    complete: bool,
    flushed: usize,
    piece: u64,
    room: usize,
}

impl Model for SureSink {
    ghost use Rattle.std.specs.Prelude.{◌≤◌, vec_len, vec_capacity};
    ghost use Rattle.kp_io.specs.Memory.{SinkParts};

    ghost Value = { SinkParts };

    ghost view = { λ s. record {
      kept = s.kept.items;
      complete = s.complete;
      flushed = s.flushed;
      piece = s.piece;
      room = s.room;
    } };

    ghost invariant = { λ s.
        (s.flushed ≤ vec_len s.kept) × (1 ≤ s.piece) × (s.room ≤ vec_capacity s.kept) };
}

impl SureSink {
    /// A sink that nothing was written to, with room for so many bytes.
    pub fn new(alloc: Global, piece: u64, room: usize) -> Result<SureSink, NoMemory>
        requires { 1 ≤ piece }
        ensures { IfOk result (λ sink. sink ≡ fresh_sink piece room) }
    {
        Ok(SureSink {
            kept: Vec::with_capacity(alloc, room)?,
            complete: true,
            flushed: 0,
            piece,
            room,
        })
    }

    /// The bytes that were written, where the sink tells its content.
    pub fn written(&self) -> &[u8]
        ensures { result.now ≡ self.now.kept }
    {
        &self.kept
    }
}

impl Sink for SureSink {
    ghost output = { λ s. shown_sink s 0 };

    fn write(&mut self, bytes: &[u8]) -> Result<usize, Failed>
        ensures writes { AfterWrite result bytes.now (shown_sink self.old 0) (shown_sink self.new 0) }
        ensures sure { result ≡ Ok (min self.old.piece (length bytes.now)) }
        ensures tells { KeepsTelling self.old self.new (min self.old.piece (length bytes.now)) }
        ensures piece { (self.new.piece ≡ self.old.piece) × (self.new.room ≡ self.old.room) }
    {
        let count = bytes.len().min(self.piece as usize);
        let (taken, _) = bytes.split_at(count);
        if self.kept.extend_from_slice(taken).is_err() {
            self.complete = false;
        }
        Ok(count)
    }

    fn hand_on(&mut self) -> Result<(), Failed>
        ensures hands_on { AfterHandOn result (shown_sink self.old 0) (shown_sink self.new 0) }
        ensures sure { result ≡ Ok tt }
        ensures same { self.new ≡ self.old }
    {
        Ok(())
    }

    fn flush(&mut self) -> Result<(), Failed>
        ensures flushes { AfterFlush result (shown_sink self.old 0) (shown_sink self.new 0) }
        ensures sure { result ≡ Ok tt }
        ensures same { (self.new.kept ≡ self.old.kept) × (self.new.complete ≡ self.old.complete) }
        ensures piece { (self.new.piece ≡ self.old.piece) × (self.new.room ≡ self.old.room) }
    {
        self.flushed = self.kept.len();
        Ok(())
    }
}
