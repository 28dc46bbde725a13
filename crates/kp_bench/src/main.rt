//! Makes calls of single libraries so often, so that they can be timed from outside: a figure is
//! the difference of two numbers of times.
#![tactic(auto)]

mod draws;
mod input;
mod lines;
mod mapping;
mod storing;
mod walking;

use crate::input::{block_in, events, packet_in, table_of};
use crate::lines::answered;
use crate::mapping::mapped;
use crate::storing::{changed, decided, read, stored};
use crate::walking::{applied, looked_up, walked};
use kp_io::{LineReader, RealSink, RealSource, Sink, Source};
use kp_store::Objects;
use kp_types::Packet;
use std::alloc::Global;
use std::io::BufWriter;
use std::process::ExitCode;
use std::{env, io};

/// Takes a layer, whose calls are made on what standard input has, and how often. Says on standard
/// error what they counted.
fn main(rt: HostRuntime) -> io::Result<ExitCode> {
    match counted(&rt)? {
        Some(count) => {
            eprintln!(rt; "{count}")?;
            Ok(ExitCode::SUCCESS)
        }
        None => {
            eprintln!(rt;
                "usage: kp_bench lines|read|store|pod|decide|look|walk|next|apply TIMES <INPUT"
            )?;
            Ok(ExitCode::FAILURE)
        }
    }
}

/// What the calls counted over standard input and output.
fn counted(rt: &HostRuntime) -> io::Result<Option<u64>> {
    let alloc = rt.alloc();
    let words: Vec<String> = env::args(rt)?.collect(alloc)?;
    let mut source = RealSource::new(rt.reader());
    let mut sink = RealSink::new(BufWriter::new(alloc, io::writer(rt))?);
    Ok(counted_by(alloc, words.as_slice(), &mut source, &mut sink))
}

/// What the calls counted, by the program's words, of which the first is its name.
fn counted_by<S: Source, K: Sink>(
    alloc: Global,
    words: &[String],
    source: &mut S,
    sink: &mut K,
) -> Option<u64> {
    let [_, layer, times] = words else {
        return None;
    };
    let times = times.parse::<u32>().ok()?;
    let mut reader = LineReader::new(alloc).ok()?;
    match layer.as_str() {
        "lines" => answered(alloc, times, &mut reader, source, sink),
        "decide" | "look" | "walk" | "next" => on_packet(alloc, layer, times, &mut reader, source),
        "apply" => on_batch(alloc, times, &mut reader, source),
        _ => on_objects(alloc, layer, times, &mut reader, source),
    }
}

/// The layers that a packet goes through: the objects of the block decide it, or the map of them,
/// or it walks the table of the block.
fn on_packet<S: Source>(
    alloc: Global,
    layer: &str,
    times: u32,
    reader: &mut LineReader,
    source: &mut S,
) -> Option<u64> {
    let packet = packet_in(alloc, reader, source)?;
    let block = block_in(alloc, reader, source)?;
    match layer {
        "decide" | "look" => by_objects(alloc, layer, &packet, block.as_slice(), times),
        _ => by_table(alloc, layer, &packet, block.as_slice(), times),
    }
}

/// The layers of a packet and the objects of a block.
fn by_objects(
    alloc: Global,
    layer: &str,
    packet: &Packet,
    block: &[u8],
    times: u32,
) -> Option<u64> {
    let events = events(alloc, block)?;
    match layer {
        "decide" => {
            let objects = Objects::from_events(alloc, events.as_slice()).ok()?;
            decided(alloc, &objects, packet, times)
        }
        _ => mapped(alloc, events.as_slice(), packet, times),
    }
}

/// The layers of a packet and the table of a block.
fn by_table(alloc: Global, layer: &str, packet: &Packet, block: &[u8], times: u32) -> Option<u64> {
    let table = table_of(alloc, block)?;
    match layer {
        "walk" => walked(alloc, &table, packet, times),
        _ => looked_up(&table, packet, times),
    }
}

/// The layer of batches: a table's text, and a batch for it.
fn on_batch<S: Source>(
    alloc: Global,
    times: u32,
    reader: &mut LineReader,
    source: &mut S,
) -> Option<u64> {
    let text = block_in(alloc, reader, source)?;
    let mut table = table_of(alloc, text.as_slice())?;
    let batch = block_in(alloc, reader, source)?;
    applied(alloc, &mut table, batch.as_slice(), times)
}

/// The layers of objects.
fn on_objects<S: Source>(
    alloc: Global,
    layer: &str,
    times: u32,
    reader: &mut LineReader,
    source: &mut S,
) -> Option<u64> {
    let lines = block_in(alloc, reader, source)?;
    match layer {
        "read" => read(alloc, lines.as_slice(), times),
        _ => of_events(alloc, layer, lines.as_slice(), times),
    }
}

/// The layers of a store.
fn of_events(alloc: Global, layer: &str, lines: &[u8], times: u32) -> Option<u64> {
    let events = events(alloc, lines)?;
    match layer {
        "store" => stored(alloc, events.as_slice(), times),
        "pod" => changed(alloc, events.as_slice(), times),
        _ => None,
    }
}
