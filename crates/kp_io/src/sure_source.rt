//! A source in memory that never fails.
ghost use Rattle.std.specs.Prelude.{◌≡◌, ◌≤◌, Ok, min, length};
ghost use Rattle.kp_io.specs.Ends.{AfterRead};
ghost use Rattle.kp_io.specs.Memory.{shown_left};

use crate::source::{Failed, Source};
use kp_base::Items;
use std::marker::Model;

/// Bytes in memory, of which a read gives at most so many.
#[derive(Drop)]
pub struct SureSource {
    bytes: Items<u8>,
    position: usize,
    piece: u64,
    asked: u64,
}

impl Model for SureSource {
    ghost use Rattle.std.specs.Prelude.{◌≤◌, length, drop};
    ghost use Rattle.kp_io.specs.Memory.{SourceParts};

    ghost Value = { SourceParts };

    ghost view = { λ s. record {
      left = drop s.position s.bytes;
      piece = s.piece;
      asked = s.asked;
    } };

    ghost invariant = { λ s. (s.position ≤ length s.bytes) × (1 ≤ s.piece) };
}

impl SureSource {
    /// A source of these bytes.
    pub fn new(bytes: Items<u8>, piece: u64) -> SureSource
        requires { 1 ≤ piece }
        ensures left { result.left ≡ bytes }
        ensures piece { result.piece ≡ piece }
        ensures asked { result.asked ≡ 0 }
    {
        SureSource {
            bytes,
            position: 0,
            piece,
            asked: 0,
        }
    }
}

impl Source for SureSource {
    ghost input = { λ s. shown_left s.left 0 s.asked };

    fn read(&mut self, buf: &mut [u8]) -> Result<usize, Failed>
        ensures reads { AfterRead result buf.new (shown_left self.old.left 0 self.old.asked)
            (shown_left self.new.left 0 self.new.asked) }
        ensures sure { result
            ≡ Ok (min self.old.piece (min (length buf.old) (length self.old.left))) }
        ensures piece { self.new.piece ≡ self.old.piece }
    {
        self.asked = self.asked.saturating_add(1);
        let (_, left) = self.bytes.as_slice().split_at(self.position);
        let count = left.len().min(buf.len()).min(self.piece as usize);
        let (given, _) = left.split_at(count);
        let (front, _) = buf.split_at_mut(count);
        front.copy_from_slice(given);
        self.position += count;
        Ok(count)
    }
}
