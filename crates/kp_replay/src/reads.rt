//! Lines that are read beside each other.
ghost use Rattle.std.specs.Prelude.{◌≡◌, ◌<◌, ◌≤◌, ◌+◌, ◌^◌, [], ℕ, length, map, get_or};
ghost use Rattle.std.specs.Prelude.{slice_index_or, OnOk};
ghost use Rattle.kp_replay.specs.Groups.{AreReadAs, IsReadAs};

use kp_base::NoMemory;
use kp_script::{Said, Scratch, said_by};
use std::alloc::Global;
use std::thread;
use std::thread::Threads;

/// The number of a line, and what it says that isn't the first, unless there was no memory to read
/// it.
#[derive(Drop)]
pub(crate) struct Read {
    pub(crate) number: u64,
    pub(crate) said: Result<Said, NoMemory>,
}

/// Lines as they were read that are answered at once, and those that are read meanwhile. Their
/// memory serves later lines.
#[derive(Drop)]
pub struct Reads {
    pub(crate) current: Vec<Read>,
    pub(crate) next: Vec<Read>,
}

impl Reads {
    /// None.
    pub fn new(alloc: Global) -> Reads {
        Reads {
            current: Vec::new(alloc),
            next: Vec::new(alloc),
        }
    }
}

/// Reads lines, of which the first has this number, in the place of others: in pieces of at most so
/// many lines, each in a thread of its own.
pub(crate) fn read_lines<R: Threads + Sync>(
    rt: &R,
    alloc: Global,
    number: u64,
    lines: &[&[u8]],
    most: usize,
    reads: &mut Vec<Read>,
) -> Result<(), NoMemory>
    requires some { 0 < most }
    requires few { number + length lines.now < 2 ^ 64 }
    ensures { OnOk result (AreReadAs number (map (λ line. line.now) lines.now) reads.new.items) }
{
    // What stands in the place of a line until it is read.
    reads.resize_with(
        lines.len(),
        || Read {
            number: 0,
            said: Ok(Said::Nothing),
        },
    )?;
    read_all(rt, alloc, number, lines, most, reads.as_mut_slice());
    Ok(())
}

/// Reads lines in the place of as many others.
fn read_all<R: Threads + Sync>(
    rt: &R,
    alloc: Global,
    number: u64,
    lines: &[&[u8]],
    most: usize,
    reads: &mut [Read],
)
    requires some { 0 < most }
    requires few { number + length lines.now < 2 ^ 64 }
    requires long { length reads.old ≡ length lines.now }
    ensures { AreReadAs number (map (λ line. line.now) lines.now) reads.new }
{
    thread::for_each_chunk_mut(
        rt,
        reads,
        most,
        &|start: usize, piece: &mut [Read]|
            requires few { number + length lines.now < 2 ^ 64 }
            requires within { start + length piece.now ≤ length lines.now }
            ensures long { length piece.exit.now ≡ length piece.entry.now }
            ensures each { (k : ℕ) (d : Read) → k < length piece.entry.now → IsReadAs
                (number + (start + k)) (get_or (map (λ line. line.now) lines.entry.now) (start + k) [])
                (slice_index_or piece.exit.now k d) }
        { read_piece(alloc, number, lines, start, piece) },
    );
}

/// Reads the lines from a place on, in the place of others, with memory that is kept from line to
/// line.
fn read_piece(alloc: Global, number: u64, lines: &[&[u8]], start: usize, reads: &mut [Read])
    requires few { number + length lines.now < 2 ^ 64 }
    requires within { start + length reads.old ≤ length lines.now }
    ensures long { length reads.new ≡ length reads.old }
    ensures each { (k : ℕ) (d : Read) → k < length reads.old → IsReadAs
        (number + (start + k)) (get_or (map (λ line. line.now) lines.now) (start + k) [])
        (slice_index_or reads.new k d) }
{
    let mut scratch = Scratch::new(alloc);
    for k in 0..reads.len() {
        let place = start + k;
        let read = read_line(alloc, number + place as u64, lines[place], &mut scratch);
        put(&mut reads[k], read);
    }
}

/// Puts a line in the place of another.
fn put(place: &mut Read, read: Read)
    ensures { place.new ≡ read }
{
    *place = read;
}

/// Reads a line.
fn read_line(alloc: Global, number: u64, bytes: &[u8], scratch: &mut Scratch) -> Read
    ensures { IsReadAs number bytes.now result }
{
    let said = said_by(alloc, Some(bytes), false, scratch);
    Read { number, said }
}
