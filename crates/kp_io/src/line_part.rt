//! What was gathered of a line.
ghost use Rattle.std.specs.Prelude.{◌≡◌, ◌<◌, ◌≤◌, [], true, false, not, length, OnOk, OnErr};
ghost use Rattle.std.specs.List.{list_any};
ghost use Rattle.kp_io.specs.Lines.{is_line_feed};

use crate::next_line::LINE_LIMIT;
use kp_base::NoMemory;
use std::alloc::Global;
use std::marker::Model;
use std::mem;

/// The bytes of a line that were read so far, or none of a line that is too long.
#[derive(Drop)]
pub(crate) struct LinePart {
    bytes: Vec<u8>,
    skipping: bool,
}

impl Model for LinePart {
    ghost use Rattle.kp_io.specs.Gather as spec;

    ghost Value = { spec.LinePart };

    ghost view = { λ p. record { bytes = p.bytes.items; skipping = p.skipping } };
}

impl LinePart {
    ghost use Rattle.kp_io.specs.Gather.{no_part, longer, part_size, IsPart};

    /// Nothing of a line.
    pub(crate) fn new(alloc: Global) -> LinePart
        ensures { result ≡ no_part }
    {
        LinePart {
            bytes: Vec::new(alloc),
            skipping: false,
        }
    }

    /// Whether nothing was gathered.
    pub(crate) fn is_empty(&self) -> bool
        ensures empty { result ≡ true → self.now ≡ no_part }
        ensures some { result ≡ false → 0 < part_size self.now }
    {
        !self.skipping && self.bytes.is_empty()
    }

    /// Adds bytes of the same line, or drops all of them once they are too many.
    pub(crate) fn add(&mut self, bytes: &[u8]) -> Result<(), NoMemory>
        requires { length self.old.bytes ≤ LINE_LIMIT }
        ensures ok { OnOk result (self.new ≡ longer self.old bytes.now) }
        ensures err { OnErr result (self.new ≡ self.old) }
    {
        if self.skipping || bytes.len() > LINE_LIMIT - self.bytes.len() {
            self.bytes.clear();
            self.skipping = true;
            return Ok(());
        }
        self.bytes.extend_from_slice(bytes)?;
        Ok(())
    }

    /// Drops what was gathered, and says how many bytes these were.
    pub(crate) fn pass(&mut self) -> usize
        requires { self.old.skipping ≡ false }
        ensures count { result ≡ length self.old.bytes }
        ensures next { self.new ≡ no_part }
    {
        let count = self.bytes.len();
        self.bytes.clear();
        count
    }

    /// Hands the line out in the place of no bytes, and begins the next one. Says whether the line
    /// may have so many bytes.
    pub(crate) fn hand_out(&mut self, line: &mut Vec<u8>) -> bool
        requires { line.old.items ≡ [] }
        ensures short { result ≡ not self.old.skipping }
        ensures line { line.new.items ≡ self.old.bytes }
        ensures next { IsPart self.old → self.new ≡ no_part }
    {
        let short = !self.skipping;
        self.skipping = false;
        mem::swap(&mut self.bytes, line);
        short
    }
}
