//! The search for the end of a line, from one read of the source to the next.
ghost use Rattle.std.specs.Prelude.{◌≡◌, ◌+◌, ◌≤◌, ◌<◌, ℕ, [], Ok, Err, true, false, length};
ghost use Rattle.std.specs.Prelude.{IfOk, OnOk, OnErr, IsErrOf};
ghost use Rattle.std.specs.List.{list_any, before_first, after_first};
ghost use Rattle.std.specs.Io.KnownBytes.{IsAtEnd};
ghost use Rattle.kp_io.specs.Lines.{is_line_feed};
ghost use Rattle.kp_io.specs.Told.{FromTold};
ghost use Rattle.kp_io.specs.Gather.{longer, part_size, told_from, feeds_of, IsPart, Gathers};
ghost use Rattle.kp_io.specs.Reader.{feeds_up_to, TakesInput, HasReadCause, AsksUntilFeed};
ghost use Rattle.kp_io.specs.declared.next_line.LineFault.TheVariants.{ReadFault, TooLongLine};

use crate::chunk::Chunk;
use crate::line_part::LinePart;
use crate::next_line::{INPUT_LIMIT, LineFault};
use crate::source::Source;
use kp_base::NoMemory;

/// Moves the bytes before the chunk's first line feed behind those that were gathered, and takes
/// the line feed away. Says whether there is one; else all bytes move.
fn gather(part: &mut LinePart, chunk: &mut Chunk) -> Result<bool, NoMemory>
    requires { IsPart part.old }
    ensures whole { IfOk result (λ whole. whole ≡ list_any is_line_feed chunk.old) }
    ensures part { OnOk result (part.new ≡ longer part.old (before_first is_line_feed chunk.old)) }
    ensures rest { OnOk result (chunk.new ≡ after_first is_line_feed chunk.old) }
    ensures err { OnErr result ((part.new ≡ part.old) × (chunk.new ≡ chunk.old)) }
{
    let bytes = chunk.as_slice();
    match chunk.line_feed() {
        Some(at) => {
            let (line, _) = bytes.split_at(at);
            part.add(line)?;
            chunk.advance(at + 1);
            Ok(true)
        }
        None => {
            let count = bytes.len();
            part.add(bytes)?;
            chunk.advance(count);
            Ok(false)
        }
    }
}

/// How many bytes a reader asks for that has room for so many and took so many: no more than it may
/// take, and then one more, which tells that there are too many.
fn bytes_to_ask(room: usize, taken: u64) -> usize
    requires room { 0 < room }
    requires taken { taken ≤ INPUT_LIMIT }
    ensures some { 0 < result }
    ensures room { result ≤ room }
    ensures limit { taken < INPUT_LIMIT → taken + result ≤ INPUT_LIMIT }
    ensures over { taken + result ≤ INPUT_LIMIT + 1 }
{
    if taken == INPUT_LIMIT {
        return 1;
    }
    room.min((INPUT_LIMIT - taken) as usize)
}

/// Gathers bytes up to the next line feed, and reads, at most so many at a time, while there is
/// none. Says whether there was one before the source ended.
pub(crate) fn gather_line<S: Source>(
    part: &mut LinePart,
    chunk: &mut Chunk,
    room: usize,
    taken: &mut u64,
    source: &mut S,
) -> Result<bool, LineFault>
    requires part { IsPart part.old }
    requires room { 0 < room }
    requires taken { taken.old ≤ INPUT_LIMIT }
    requires chunk { length chunk.old ≤ room }
    ensures part { IsPart part.new }
    ensures chunk { length chunk.new ≤ room }
    ensures gathers { Gathers result part.new chunk.new
        (told_from part.old chunk.old (S.input source.old).left) (S.input source.new).left }
    ensures size { feeds_of result + part_size part.new + length chunk.new + taken.old
        ≤ part_size part.old + length chunk.old + taken.new }
    ensures feeds { FromTold (λ xs ys. feeds_up_to INPUT_LIMIT chunk.old taken.old xs
        ≡ feeds_up_to INPUT_LIMIT chunk.new taken.new ys + feeds_of result)
        (S.input source.old).left (S.input source.new).left }
    ensures input { TakesInput result taken.old taken.new (S.input source.old).left (S.input source.new).left }
    ensures over { INPUT_LIMIT < taken.new
        → (taken.new ≡ INPUT_LIMIT + 1) × (length chunk.new ≡ 1) }
    ensures cause { HasReadCause result (S.input source.old).faults (S.input source.new).faults }
    ensures read { IsErrOf result ReadFault → chunk.new ≡ [] }
    ensures other { (number : ℕ) → result ≡ Err (TooLongLine number) → ⊥ }
    ensures unasked { list_any is_line_feed chunk.old ≡ true → source.new ≡ source.old }
    ensures asked { AsksUntilFeed S.input source.old source.new }
    ensures ended { result ≡ Ok false → IsAtEnd (S.input source.new).left × (chunk.new ≡ []) }
{
    loop {
        if gather(part, chunk)? {
            return Ok(true);
        }
        let count = chunk.fill(bytes_to_ask(room, *taken), source)?;
        if count == 0 {
            return Ok(false);
        }
        *taken += count as u64;
        if *taken > INPUT_LIMIT {
            return Err(LineFault::InputTooLong);
        }
    }
}
