//! Marks of the sources on a shelf. With session affinity a packet looks at the list of each
//! endpoint, and mostly at lists that lack its source: these looks end at the marks.
ghost use Rattle.std.specs.Prelude.{◌≡◌, ◌<◌, ◌+◌, ◌*◌, ◌/◌, ℕ, true, false, get_or, List};
ghost use Rattle.kp_choice_defs.specs.Recent.{Sighting};
ghost use Rattle.kp_recent.specs.Marked.{AreMarked, HasBit, IsMarked, IsSince, column_of, row_of};
ghost use Rattle.kp_recent.specs.Moments.{has_recent, recent};

use kp_base::{Address, NoMemory};
use kp_types::ChainName;
use std::alloc::Global;

/// How many rows the bits have, each for some sources.
const ROWS: usize = 256;

/// The words of a row. Each bit of them is a column, for some lists.
const WORDS: usize = 16;

/// How many columns have a moment together.
const COLUMNS: usize = 8;

/// Bits of all sources in all lists of a shelf, and maybe of some that are gone, and moments before
/// which none of them was set. Without words and moments no look ends here.
#[derive(Drop)]
pub(crate) struct Marks {
    bits: Vec<u64>,
    since: Vec<u64>,
}

impl Marks {
    /// No words and no moments.
    pub(crate) fn none(alloc: Global) -> Marks
        ensures { (list : List ℕ) (s : Sighting) → IsMarked result list s }
    {
        Marks {
            bits: Vec::new(alloc),
            since: Vec::new(alloc),
        }
    }

    /// Those of no source.
    pub(crate) fn new(alloc: Global) -> Result<Marks, NoMemory> {
        let mut bits = Vec::new(alloc);
        bits.resize(ROWS * WORDS, 0)?;
        let mut since = Vec::new(alloc);
        since.resize(WORDS * 64 / COLUMNS, u64::MAX)?;
        Ok(Marks { bits, since })
    }

    /// Whether a look at the list ends here: it lacks the source, and no source of it is too old.
    pub(crate) fn end_look(
        &self,
        list: &ChainName,
        source: &Address,
        now: u64,
        seconds: u32,
    ) -> bool
        ensures lacks { (ss : List Sighting) → AreMarked self.now list.now ss → result ≡ true
            → has_recent now seconds source.now ss ≡ false }
        ensures young { (ss : List Sighting) → AreMarked self.now list.now ss → result ≡ true
            → recent now seconds ss ≡ ss }
    {
        let column = column(list);
        self.lack(column, source) && self.are_young(column, now, seconds)
    }

    /// Whether the lists of a column lack the source.
    fn lack(&self, column: usize, source: &Address) -> bool
        requires { column < 1024 }
        ensures { (list : List ℕ) (ss : List Sighting) (now seconds : ℕ) → column ≡ column_of list
            → AreMarked self.now list ss → result ≡ true
            → has_recent now seconds source.now ss ≡ false }
    {
        match self.bits.get(word_of(source, column)) {
            Some(word) => *word >> (column % 64) & 1 == 0,
            None => false,
        }
    }

    /// Whether no source of the lists of a column is too old.
    fn are_young(&self, column: usize, now: u64, seconds: u32) -> bool
        ensures { (list : List ℕ) (ss : List Sighting) → column ≡ column_of list
            → AreMarked self.now list ss → result ≡ true → recent now seconds ss ≡ ss }
    {
        match self.since.get(column / COLUMNS) {
            Some(since) => now.saturating_sub(*since) <= seconds as u64,
            None => false,
        }
    }

    /// Marks a source that is set in a list at this moment.
    pub(crate) fn set(&mut self, list: &ChainName, source: &Address, now: u64)
        ensures own { IsMarked self.new list.now (record { source = source.now; moment = now }) }
        ensures others { (list : List ℕ) (s : Sighting) → IsMarked self.old list s
            → IsMarked self.new list s }
    {
        let column = column(list);
        set_bit(&mut self.bits, word_of(source, column), column % 64);
        lower(&mut self.since, column / COLUMNS, now);
    }
}

/// Sets a bit of the word at a place, if there is one.
fn set_bit(words: &mut Vec<u64>, place: usize, bit: usize)
    requires { bit < 64 }
    ensures own { HasBit words.new.items place bit }
    ensures others { (at b : ℕ) → HasBit words.old.items at b → HasBit words.new.items at b }
{
    if place < words.len() {
        words[place] = words[place] | 1 << bit;
    }
}

/// Lowers the moment at a place to this one, if there is a later one.
fn lower(moments: &mut Vec<u64>, place: usize, now: u64)
    ensures own { IsSince moments.new.items place now }
    ensures others { (at moment : ℕ) → IsSince moments.old.items at moment
        → IsSince moments.new.items at moment }
{
    if place < moments.len() {
        moments[place] = moments[place].min(now);
    }
}

/// The place of the word that has a source's row and a column.
fn word_of(source: &Address, column: usize) -> usize
    requires { column < 1024 }
    ensures { result ≡ row_of source.now * 16 + column / 64 }
{
    row(source) * WORDS + column / 64
}

/// The row of a source. The lowest four bits of its address are those of its shelf.
fn row(source: &Address) -> usize
    ensures value { result ≡ row_of source.now }
    ensures low { result < 256 }
{
    (source.number() / 16 % 256) as usize
}

/// The column of a list, by the last bytes of its name, which are those of a hash.
fn column(list: &ChainName) -> usize
    ensures value { result ≡ column_of list.now }
    ensures low { result < 1024 }
{
    let bytes = list.as_str().as_bytes();
    let len = bytes.len();
    let last = byte_at(bytes, len.saturating_sub(1));
    let before = byte_at(bytes, len.saturating_sub(2));
    let first = byte_at(bytes, len.saturating_sub(3));
    (last + 31 * before + 961 * first) % 1024
}

/// The byte at a place, or 0.
fn byte_at(bytes: &[u8], place: usize) -> usize
    ensures value { result ≡ get_or bytes.now place 0 }
    ensures low { result < 256 }
{
    match bytes.get(place) {
        Some(byte) => *byte as usize,
        None => 0,
    }
}
