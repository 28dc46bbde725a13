//! The buffer that a reader hands to its source.
ghost use Rattle.std.specs.Prelude.{◌≡◌, ◌<◌, ◌≤◌, ℕ, [], length, take, drop, IfOk, OnErr};
ghost use Rattle.std.specs.Io.KnownBytes.{Consumes, IsAtEnd};
ghost use Rattle.std.specs.List.{list_any, position};
ghost use Rattle.kp_io.specs.Faults.{HasCause, one_more};
ghost use Rattle.kp_io.specs.Lines.{IsFront, IsWhole, is_line_feed};

use crate::source::{Failed, Source};
use kp_base::NoMemory;
use memchr::memchr;
use std::alloc::Global;
use std::marker::Model;

/// How many bytes are read or written at a time, where nothing else is asked for.
pub const BUFFER_SIZE: usize = 65536;

/// The bytes of the last read that were not used yet, which contracts see as their list. Where the
/// first line feed of them stands is kept, so that no byte is looked at twice.
#[derive(Drop)]
pub(crate) struct Chunk {
    buffer: Vec<u8>,
    start: usize,
    end: usize,
    feed: Option<usize>,
    /// Where the whole lines of the last read end, which is looked for once.
    lines_end: usize,
}

impl Model for Chunk {
    ghost use Rattle.std.specs.Prelude.{ℕ, ◌-◌, ◌<◌, ◌≤◌, ◌≡◌, List, take, drop, vec_len};
    ghost use Rattle.std.specs.List.{position};
    ghost use Rattle.kp_io.specs.Lines.{IsWhole, is_line_feed};

    ghost Value = { List ℕ };

    ghost view = { λ c. take (c.end - c.start) (drop c.start c.buffer.items) };

    ghost invariant = { λ c.
        (c.start ≤ c.end) × (c.end ≤ vec_len c.buffer) × (0 < vec_len c.buffer)
        × (c.feed ≡ position is_line_feed (take (c.end - c.start) (drop c.start c.buffer.items)))
        × (c.lines_end ≤ c.end)
        × IsWhole (take (c.lines_end - c.start) (drop c.start c.buffer.items)) };
}

impl Chunk {
    /// A chunk of no bytes, which has room for so many.
    pub(crate) fn new(alloc: Global, room: usize) -> Result<Chunk, NoMemory>
        requires { 0 < room }
        ensures { IfOk result (λ c. c ≡ []) }
    {
        Ok(Chunk {
            buffer: Vec::from_elem(alloc, 0, room)?,
            start: 0,
            end: 0,
            feed: None,
            lines_end: 0,
        })
    }

    /// The bytes.
    pub(crate) fn as_slice(&self) -> &[u8]
        ensures { result.now ≡ self.now }
    {
        &self.buffer[self.start..self.end]
    }

    /// Where the first line feed stands, if there is one.
    pub(crate) fn line_feed(&self) -> Option<usize>
        ensures { result ≡ position is_line_feed self.now }
    {
        self.feed
    }

    /// Whether there is a line feed.
    pub(crate) fn has_feed(&self) -> bool
        ensures { result ≡ list_any is_line_feed self.now }
    {
        self.feed.is_some()
    }

    /// The bytes up to the last line feed.
    pub(crate) fn whole_lines(&self) -> &[u8]
        ensures front { IsFront result.now self.now }
        ensures whole { IsWhole result.now }
    {
        let bytes = self.as_slice();
        let (lines, _) = bytes.split_at(self.lines_end.saturating_sub(self.start));
        lines
    }

    /// Uses the first bytes.
    pub(crate) fn advance(&mut self, count: usize)
        requires { count ≤ length self.old }
        ensures { self.new ≡ drop count self.old }
    {
        self.start += count;
        self.feed = line_feed_at(&self.buffer[self.start..self.end]);
    }

    /// Takes the next bytes from the source, where all of the last ones were used, and says how
    /// many. It asks for at most so many.
    pub(crate) fn fill<S: Source>(&mut self, most: usize, source: &mut S) -> Result<usize, Failed>
        requires empty { self.old ≡ [] }
        requires some { 0 < most }
        ensures count { IfOk result (λ n. (n ≡ length self.new) × (n ≤ most)) }
        ensures bytes { Consumes (S.input source.old).left (S.input source.new).left self.new }
        ensures ended { IfOk result (λ n. n ≡ 0 → IsAtEnd (S.input source.new).left) }
        ensures err { OnErr result (self.new ≡ []) }
        ensures cause { HasCause (S.input source.old).faults (S.input source.new).faults result }
        ensures asked { (S.input source.new).asked ≡ one_more (S.input source.old).asked }
    {
        self.start = 0;
        self.end = 0;
        self.feed = None;
        self.lines_end = 0;
        let most = most.min(self.buffer.len());
        let (room, _) = self.buffer.split_at_mut(most);
        self.end = source.read(room)?;
        self.feed = line_feed_at(&self.buffer[..self.end]);
        self.lines_end = end_of_lines(&self.buffer[..self.end]);
        Ok(self.end)
    }
}

/// Where the first line feed stands, from 0, if there is one.
pub fn line_feed_at(bytes: &[u8]) -> Option<usize>
    ensures { result ≡ position is_line_feed bytes.now }
{
    memchr(b'\n', bytes)
}

/// How many bytes there are up to the last line feed.
fn end_of_lines(bytes: &[u8]) -> usize
    ensures within { result ≤ length bytes.now }
    ensures whole { IsWhole (take result bytes.now) }
{
    let mut end = bytes.len();
    while end > 0 {
        if bytes[end - 1] == b'\n' {
            return end;
        }
        end -= 1;
    }
    0
}
