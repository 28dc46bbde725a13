//! What standard input has for a layer.
use kp_events::event_of;
use kp_io::{INPUT_LIMIT, LineReader, NextLine, Source};
use kp_json::read_tree;
use kp_restore::{Table, read_table};
use kp_script::{Op, line_of};
use kp_types::{Event, Packet};
use std::alloc::Global;

/// The first line of a source, as a packet's.
pub fn packet_in<S: Source>(
    alloc: Global,
    reader: &mut LineReader,
    source: &mut S,
) -> Option<Packet> {
    reader.next_line(source).ok()?;
    let line = line_of(alloc, reader.bytes(), false).ok()?;
    packet_of(line.op)
}

/// The packet of a packet line.
fn packet_of(op: Op) -> Option<Packet> {
    let Op::Packet(line) = op else {
        return None;
    };
    Some(line.packet)
}

/// The next lines of a source up to a blank one or its end, each with a line feed.
pub fn block_in<S: Source>(
    alloc: Global,
    reader: &mut LineReader,
    source: &mut S,
) -> Option<Vec<u8>> {
    let mut block = Vec::new(alloc);
    for _ in 0..INPUT_LIMIT {
        let NextLine::Line { .. } = reader.next_line(source).ok()? else {
            return Some(block);
        };
        if reader.bytes().is_empty() {
            return Some(block);
        }
        block.extend_from_slice(reader.bytes()).ok()?;
        block.push(b'\n').ok()?;
    }
    None
}

/// The table that has this text, of which each jump knows where it leads, as after a sync.
pub fn table_of(alloc: Global, text: &[u8]) -> Option<Table> {
    let mut table = read_table(alloc, text).ok()?;
    table.link();
    Some(table)
}

/// The events of these lines, of which the last has a line feed too.
pub fn events(alloc: Global, lines: &[u8]) -> Option<Vec<Event>> {
    let mut events = Vec::new(alloc);
    for line in lines.split(|byte| *byte == b'\n') {
        add_events(alloc, line, &mut events)?;
    }
    Some(events)
}

/// Adds the events of a line. Behind the last line feed there are none.
fn add_events(alloc: Global, line: &[u8], events: &mut Vec<Event>) -> Option<()> {
    if line.is_empty() {
        return Some(());
    }
    let tree = read_tree(alloc, line).ok()?;
    let more = event_of(alloc, &tree.root()).ok()?;
    events.append(&mut more.into_vec()).ok()
}
