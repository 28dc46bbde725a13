//! Packet lines that are read and answered, without a table.
use kp_io::{INPUT_LIMIT, LineReader, NextLine, Sink, Source, write_whole};
use kp_report::push_answer;
use kp_script::{Op, Scratch, line_with};
use kp_types::Verdict;
use std::alloc::Global;

/// Reads the lines of a source as a replay does, and writes the same answer to each so often.
/// `None` where a line isn't a packet's or something fails, and else how many lines there were.
pub fn answered<S: Source, K: Sink>(
    alloc: Global,
    times: u32,
    reader: &mut LineReader,
    source: &mut S,
    sink: &mut K,
) -> Option<u64> {
    let mut scratch = Scratch::new(alloc);
    let mut text = String::new(alloc);
    for _ in 0..INPUT_LIMIT {
        match reader.next_line(source).ok()? {
            NextLine::Line { number } => {
                for _ in 0..times {
                    answer(alloc, number, reader.bytes(), &mut scratch, &mut text)?;
                    write_whole(sink, text.as_bytes()).ok()?;
                }
            }
            NextLine::End { lines } => {
                sink.flush().ok()?;
                return Some(lines);
            }
        }
    }
    None
}

/// Reads a line, and makes the answer's text of it.
fn answer(
    alloc: Global,
    number: u64,
    bytes: &[u8],
    scratch: &mut Scratch,
    text: &mut String,
) -> Option<()> {
    let line = line_with(alloc, bytes, false, scratch).ok()?;
    let Op::Packet(_) = line.op else {
        return None;
    };
    text.clear();
    push_answer(text, number, 1, &Verdict::Rejected).ok()
}
