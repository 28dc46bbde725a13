//! A reader of lines.
ghost use Rattle.std.specs.Prelude.{◌≡◌, ◌<◌, ◌≤◌, ℕ, List, Option, Ok, true, false, IfOk};
ghost use Rattle.std.specs.Prelude.{length, take, count_by};
ghost use Rattle.std.specs.Io.KnownBytes.{IsAtEnd};

use crate::chunk::{BUFFER_SIZE, Chunk};
use crate::gather::gather_line;
use crate::line_part::LinePart;
use crate::next_line::{INPUT_LIMIT, LINE_LIMIT, LineFault, NextLine};
use crate::source::Source;
use kp_base::NoMemory;
use std::alloc::Global;
use std::marker::Model;

/// A reader of lines. It takes bytes from a source as it needs them, and how the source cuts them
/// makes no difference.
#[derive(Drop)]
pub struct LineReader {
    chunk: Chunk,
    part: LinePart,
    line: Vec<u8>,
    room: usize,
    number: u64,
    taken: u64,
    ended: bool,
}

// What is held is what was gathered of a line, in which there is no line feed, and the rest of the
// last read. Each line took at least one byte.
impl Model for LineReader {
    ghost use Rattle.std.specs.Prelude.{◌≡◌, ◌+◌, ◌≤◌, ◌<◌, ◌++◌, true, [], length};
    ghost use Rattle.kp_io.specs.Gather.{IsPart, part_size, no_part};
    ghost use Rattle.kp_io.specs.Reader.{ReaderState, IsShortLine};
    ghost use Rattle.kp_io.specs.declared.next_line.TheConstants.{INPUT_LIMIT};

    ghost Value = { ReaderState };

    ghost view = { λ r. record {
      held = r.part.bytes ++ r.chunk;
      skipping = r.part.skipping;
      line = r.line.items;
      room = r.room;
      number = r.number;
      taken = r.taken;
      ended = r.ended;
    } };

    ghost invariant = { λ r.
        IsPart r.part
        × IsShortLine r.line.items
        × (0 < r.room)
        × (length r.chunk ≤ r.room)
        × (r.number + part_size r.part + length r.chunk ≤ r.taken)
        × (r.taken ≤ INPUT_LIMIT + 1)
        × (INPUT_LIMIT < r.taken → (r.taken ≡ INPUT_LIMIT + 1) × (length r.chunk ≡ 1))
        × (r.ended ≡ true → (r.part ≡ no_part) × (r.chunk ≡ []) × (r.taken ≤ INPUT_LIMIT)) };
}

impl LineReader {
    ghost use Rattle.kp_io.specs.Lines.{IsFront, IsWhole, ended_lines, is_line_feed};
    ghost use Rattle.kp_io.specs.Reader.{fresh_reader, fresh_with, passed};
    ghost use Rattle.kp_io.specs.Reader.{to_come, answers_unasked, GivesShort};
    ghost use Rattle.kp_io.specs.Reader.{Answers, Counts, IsShortLine, IsBounded, TakesInput};
    ghost use Rattle.kp_io.specs.Reader.{TakesFeeds, HandsOutBefore, HasReadCause, AsksUntilFeed};

    /// A reader that has taken nothing.
    pub fn new(alloc: Global) -> Result<LineReader, NoMemory>
        ensures { IfOk result (λ r. r ≡ fresh_reader) }
    {
        LineReader::with_room(alloc, BUFFER_SIZE)
    }

    /// A reader that has taken nothing, and asks for at most so many bytes at a time.
    pub fn with_room(alloc: Global, room: usize) -> Result<LineReader, NoMemory>
        requires { 0 < room }
        ensures { IfOk result (λ r. r ≡ fresh_with room) }
    {
        Ok(LineReader {
            chunk: Chunk::new(alloc, room)?,
            part: LinePart::new(alloc),
            line: Vec::new(alloc),
            room,
            number: 0,
            taken: 0,
            ended: false,
        })
    }

    /// The next line of the source. Each call is to be given the same source.
    pub fn next_line<S: Source>(&mut self, source: &mut S) -> Result<NextLine, LineFault>
        ensures answer { Answers result self.new.line
            (to_come self.old (S.input source.old).left) (to_come self.new (S.input source.new).left) }
        ensures counts { Counts result self.old self.new }
        ensures line { IsShortLine self.new.line }
        ensures again { self.old.ended ≡ true → result ≡ Ok (NextLine.End self.old.number) }
        ensures input { TakesInput result self.old.taken self.new.taken
            (S.input source.old).left (S.input source.new).left }
        ensures bounded { IsBounded self.new }
        ensures room { self.new.room ≡ self.old.room }
        ensures feeds { self.new.ended ≡ false
            → TakesFeeds self.old self.new (S.input source.old).left (S.input source.new).left }
        ensures handed { HandsOutBefore result self.new.held self.new.taken }
        ensures ended { self.old.ended ≡ false → self.new.ended ≡ true
            → IsAtEnd (S.input source.new).left }
        ensures unasked { answers_unasked self.old ≡ true → source.new ≡ source.old }
        ensures asked { AsksUntilFeed S.input source.old source.new }
        ensures cause { HasReadCause result (S.input source.old).faults (S.input source.new).faults }
    {
        self.line.clear();
        if self.taken > INPUT_LIMIT {
            return Err(LineFault::InputTooLong);
        }
        if self.ended {
            return Ok(NextLine::End { lines: self.number });
        }
        let whole = gather_line(
            &mut self.part,
            &mut self.chunk,
            self.room,
            &mut self.taken,
            source,
        )?;
        self.ended = !whole;
        if !whole && self.part.is_empty() {
            return Ok(NextLine::End { lines: self.number });
        }
        let number = self.number + 1;
        self.number = number;
        if self.part.hand_out(&mut self.line) {
            Ok(NextLine::Line { number })
        } else {
            Err(LineFault::TooLongLine { number })
        }
    }

    /// Whether the next call answers from what is held and known: it asks the source for nothing.
    pub fn answers_unasked(&self) -> bool
        ensures { result ≡ answers_unasked self.now }
    {
        self.chunk.has_feed() || self.ended || self.taken > INPUT_LIMIT
    }

    /// The whole lines that are held, each with its line feed, where nothing of a line was gathered
    /// before them. They may be used as they stand and passed over.
    pub fn held_lines(&self) -> &[u8]
        ensures front { IsFront result.now self.now.held }
        ensures whole { IsWhole result.now }
        ensures room { length result.now ≤ self.now.room }
        ensures open { 0 < length result.now
            → (self.now.skipping ≡ false) × (self.now.taken ≤ INPUT_LIMIT) }
    {
        if self.part.is_empty() && self.taken <= INPUT_LIMIT {
            self.chunk.whole_lines()
        } else {
            &[]
        }
    }

    /// Passes over whole lines, so many bytes and so many lines, as if they had been handed out.
    pub fn pass_lines(&mut self, bytes: usize, lines: u64)
        requires held { bytes ≤ length self.old.held }
        requires whole { IsWhole (take bytes self.old.held) }
        requires lines { lines ≡ count_by is_line_feed (take bytes self.old.held) }
        requires short { bytes ≤ LINE_LIMIT }
        requires open { self.old.skipping ≡ false }
        requires input { self.old.taken ≤ INPUT_LIMIT }
        ensures passed { self.new ≡ passed bytes lines self.old }
        ensures come { (left : Option (List ℕ)) → GivesShort
            (ended_lines (take bytes self.old.held)) (to_come self.old left)
            (to_come self.new left) }
        ensures feeds { (left : Option (List ℕ)) → TakesFeeds self.old self.new left left }
        ensures bounded { IsBounded self.new }
    {
        if bytes > 0 {
            let gathered = self.part.pass();
            self.chunk.advance(bytes - gathered);
        }
        self.line.clear();
        self.number += lines;
    }

    /// The last line without its line feed, where the last answer was a line. Else no bytes.
    pub fn bytes(&self) -> &[u8]
        ensures { result.now ≡ self.now.line }
    {
        &self.line
    }
}
