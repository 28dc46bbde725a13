//! The parts of the text of a live run, in order.
ghost use Rattle.std.specs.Prelude.{◌≡◌, ◌++◌, ◌∷◌, ◌||◌, [], ℕ, List, false, length, get_or};
ghost use Rattle.std.specs.Prelude.{IfOk, Ok};
ghost use Rattle.std.specs.List.{flat_map};
ghost use Rattle.kp_run_defs.specs.LiveText as spec;
ghost use Rattle.kp_streams.specs.Streams.{reading_in};
ghost use Rattle.kp_text_defs.specs.declared.line_refusal.LineRefusal.TheVariants.{ChainClash};
ghost use Rattle.kp_text_defs.specs.Live.{event_text, final_text, record_text};
ghost use Rattle.kp_text_defs.specs.Printed.{packet_text};
ghost use Rattle.kp_text_defs.specs.Refusals.{refusal_text};
ghost use Rattle.kp_live.specs.Runs as runs;
ghost use Rattle.kp_live.specs.Runs.{Telling};
ghost use Rattle.kp_live.specs.Told.{Told, HoldsOn};
ghost use Rattle.kp_live.specs.Written.{Prints, said_of};

use crate::answers::{Answer, Answers, ToldOn, is_answered};
use crate::fault::LiveFault;
use crate::output::{write, write_made};
use crate::refusals::kept_clash;
use crate::tables::print_tables;
use kp_base::{Config, Copied, Items, NoMemory, Text};
use kp_hub::{Fed, Finished, RecordNote, Refusal, Sharing};
use kp_io::Sink;
use kp_report::{push_answer, push_event, push_final, push_record, push_refusal};
use kp_script::LineRefusal;
use kp_streams::{RefusedLine, StreamLine, StreamLines};
use kp_types::{Clash, Verdict, table_families};
use std::alloc::Global;

/// Writes the text of a run whose streams were answered so, and answers whether a line or the sync
/// that ends the run was refused.
pub(crate) fn print<J: Sharing, K: Sink>(
    alloc: Global,
    lines: &StreamLines,
    answers: &[Answers],
    done: &Finished<J>,
    sink: &mut K,
) -> Result<bool, LiveFault>
    ensures printed { (told : ℕ → List Told) → runs.AreOf told answers.now
        → Prints result (runs.head_text (reading_in lines.now) done.now.journal done.now.notes
        ++ (runs.telling done.now.refusals told (reading_in lines.now).lines).text
        ++ runs.end_text (reading_in lines.now).config (length done.now.notes) done.now.clash
        done.now.table)
        (K.output sink.old) (K.output sink.new) }
    ensures refused { (told : ℕ → List Told) → runs.AreOf told answers.now
        → IfOk result (λ refused. refused ≡ runs.prints_refusal (reading_in lines.now)
        (runs.telling done.now.refusals told (reading_in lines.now).lines).denied
        done.now.clash) }
{
    match print_head(alloc, lines, done, sink) {
        Ok(()) => {}
        Err(fault) => return Err(fault),
    }
    match print_answers(
        alloc,
        lines.lines(),
        answers,
        done.refusals.as_slice(),
        sink,
    ) {
        Ok(denied) => said(
            print_end(alloc, lines.config(), done, sink),
            has_refusal(lines, denied, &done.clash),
        ),
        Err(fault) => Err(fault),
    }
}

/// Whether something that is written is a refusal.
fn has_refusal(lines: &StreamLines, denied: bool, clash: &Option<Clash>) -> bool
    ensures { result ≡ runs.prints_refusal (reading_in lines.now) denied clash.now }
{
    !lines.refused().is_empty() || (denied || clash.is_some())
}

/// Writes what stands before the answers: the lines that were refused while they were read, the
/// journal and the records.
fn print_head<J: Sharing, K: Sink>(
    alloc: Global,
    lines: &StreamLines,
    done: &Finished<J>,
    sink: &mut K,
) -> Result<(), LiveFault>
    ensures { Prints result
        (runs.head_text (reading_in lines.now) done.now.journal done.now.notes)
        (K.output sink.old) (K.output sink.new) }
{
    let mut text = String::new(alloc);
    match print_refused(alloc, lines.refused(), &mut text, sink) {
        Ok(()) => {}
        Err(fault) => return Err(fault),
    }
    match print_journal(lines.streams(), done.journal.as_slice(), &mut text, sink) {
        Ok(()) => {}
        Err(fault) => return Err(fault),
    }
    print_records(done.notes.as_slice(), &mut text, sink)
}

/// Writes the lines that were refused while they were read.
fn print_refused<K: Sink>(
    alloc: Global,
    refused: &[RefusedLine],
    text: &mut String,
    sink: &mut K,
) -> Result<(), LiveFault>
    ensures { Prints result (flat_map spec.refused_text refused.now)
        (K.output sink.old) (K.output sink.new) }
{
    for line in refused {
        match print_refusal(alloc, line.number, &line.why, text, sink) {
            Ok(()) => {}
            Err(fault) => return Err(fault),
        }
    }
    Ok(())
}

/// Writes why the line of this number is refused.
fn print_refusal<K: Sink>(
    alloc: Global,
    number: u64,
    why: &LineRefusal,
    text: &mut String,
    sink: &mut K,
) -> Result<(), LiveFault>
    ensures { Prints result (refusal_text number why.now)
        (K.output sink.old) (K.output sink.new) }
{
    text.clear();
    let made = push_refusal(alloc, text, number, why);
    write_made(made, text.as_bytes(), sink)
}

/// Writes the events of the journal, each with its stream.
fn print_journal<K: Sink>(
    streams: &[Text],
    journal: &[Fed],
    text: &mut String,
    sink: &mut K,
) -> Result<(), LiveFault>
    ensures { Prints result (spec.journal_text streams.now 1 journal.now)
        (K.output sink.old) (K.output sink.new) }
{
    for at in 0..journal.len() {
        match print_event(streams, at as u64 + 1, &journal[at], text, sink) {
            Ok(()) => {}
            Err(fault) => return Err(fault),
        }
    }
    Ok(())
}

/// Writes the event of the journal at a place, from 1.
fn print_event<K: Sink>(
    streams: &[Text],
    place: u64,
    fed: &Fed,
    text: &mut String,
    sink: &mut K,
) -> Result<(), LiveFault>
    ensures { Prints result (event_text place (get_or streams.now fed.now.feeder []) fed.now.number
        fed.now.event) (K.output sink.old) (K.output sink.new) }
{
    text.clear();
    let made = push_event(
        text,
        place,
        name_of(streams, fed.feeder),
        fed.number,
        &fed.event,
    );
    write_made(made, text.as_bytes(), sink)
}

/// The name of the stream at a place.
fn name_of(streams: &[Text], place: u32) -> &str
    ensures { result.now ≡ get_or streams.now place [] }
{
    match streams.get(place as usize) {
        Some(name) => name.as_str(),
        None => "",
    }
}

/// Writes the records.
fn print_records<K: Sink>(
    notes: &[RecordNote],
    text: &mut String,
    sink: &mut K,
) -> Result<(), LiveFault>
    ensures { Prints result (runs.notes_text 0 notes.now)
        (K.output sink.old) (K.output sink.new) }
{
    for at in 0..notes.len() {
        match print_record(at as u64 + 1, &notes[at], text, sink) {
            Ok(()) => {}
            Err(fault) => return Err(fault),
        }
    }
    Ok(())
}

/// Writes the record of this number.
fn print_record<K: Sink>(
    number: u64,
    note: &RecordNote,
    text: &mut String,
    sink: &mut K,
) -> Result<(), LiveFault>
    ensures { Prints result (record_text number note.now.events note.now.written note.now.removed)
        (K.output sink.old) (K.output sink.new) }
{
    text.clear();
    let made = push_record(text, number, note.events, note.written, note.removed);
    write_made(made, text.as_bytes(), sink)
}

/// Writes what lines were answered, in their order, and answers whether a sync was refused.
fn print_answers<K: Sink>(
    alloc: Global,
    lines: &[StreamLine],
    answers: &[Answers],
    refusals: &[Refusal],
    sink: &mut K,
) -> Result<bool, LiveFault>
    ensures printed { (told : ℕ → List Told) → runs.AreOf told answers.now
        → Prints result (runs.telling refusals.now told lines.now).text
        (K.output sink.old) (K.output sink.new) }
    ensures denied { (told : ℕ → List Told) → runs.AreOf told answers.now
        → IfOk result (λ denied. denied ≡ (runs.telling refusals.now told lines.now).denied) }
{
    match told_from(alloc, answers) {
        Ok(told) => {
            let mut told = told;
            print_lines(alloc, lines, told.as_mut_slice(), refusals, sink)
        }
        Err(refused) => Err(LiveFault::NoMemory(refused)),
    }
}

/// Writes what lines were answered, of which these are the answers of each stream, and answers
/// whether a sync was refused.
fn print_lines<K: Sink>(
    alloc: Global,
    lines: &[StreamLine],
    told: &mut [ToldOn<'_>],
    refusals: &[Refusal],
    sink: &mut K,
) -> Result<bool, LiveFault>
    ensures printed { (all : ℕ → List Told) → runs.AreLeft all told.old
        → Prints result (runs.telling refusals.now all lines.now).text
        (K.output sink.old) (K.output sink.new) }
    ensures denied { (all : ℕ → List Told) → runs.AreLeft all told.old
        → IfOk result (λ denied. denied ≡ (runs.telling refusals.now all lines.now).denied) }
{
    let mut text = String::new(alloc);
    let mut denied = false;
    for line in lines {
        match print_line(alloc, line, told, refusals, &mut text, sink) {
            Ok(more) => denied = either(denied, more),
            Err(fault) => return Err(fault),
        }
    }
    Ok(denied)
}

/// Whether one of the two is so.
fn either(a: bool, b: bool) -> bool
    ensures { result ≡ (a || b) }
{
    a || b
}

/// The answers of each stream, to be told from the first on.
fn told_from(alloc: Global, answers: &[Answers]) -> Result<Vec<ToldOn<'_>>, NoMemory>
    ensures { IfOk result (λ left. (told : ℕ → List Told) → runs.AreOf told answers.now
        → runs.AreLeft told left.items) }
{
    let mut told = Vec::new(alloc);
    for own in answers {
        told.push(own.unfold())?;
    }
    Ok(told)
}

/// Writes what a line was answered, where it syncs or sends a packet, and answers whether it was a
/// sync that was refused.
fn print_line<K: Sink>(
    alloc: Global,
    line: &StreamLine,
    told: &mut [ToldOn<'_>],
    refusals: &[Refusal],
    text: &mut String,
    sink: &mut K,
) -> Result<bool, LiveFault>
    ensures left { (t : Telling) → runs.AreLeft t.left told.old
        → IfOk result (λ denied. runs.AreLeft (runs.after_line refusals.now t line.now).left
        told.new × ((t.denied || denied) ≡ (runs.after_line refusals.now t line.now).denied)) }
    ensures printed { (t : Telling) → runs.AreLeft t.left told.old → (bytes : List ℕ)
        × ((runs.after_line refusals.now t line.now).text ≡ t.text ++ bytes)
        × Prints result bytes (K.output sink.old) (K.output sink.new) }
{
    let place = line.stream as usize;
    if !is_answered(&line.work) || place >= told.len() {
        return Ok(false);
    }
    print_next(alloc, line.number, &mut told[place], refusals, text, sink)
}

/// Writes the next answer of a stream, which is that of the line of this number, and answers
/// whether it is a sync that was refused.
fn print_next<K: Sink>(
    alloc: Global,
    number: u64,
    told: &mut ToldOn<'_>,
    refusals: &[Refusal],
    text: &mut String,
    sink: &mut K,
) -> Result<bool, LiveFault>
    ensures next { (t : Told) (rest : List Told) → HoldsOn told.old (t ∷ rest)
        → HoldsOn told.new rest × IfOk result (λ denied. denied ≡ runs.is_denial t)
        × Prints result (runs.told_text refusals.now number t)
        (K.output sink.old) (K.output sink.new) }
    ensures none { HoldsOn told.old []
        → HoldsOn told.new [] × (result ≡ Ok false) × (sink.new ≡ sink.old) }
{
    match told.next() {
        Some(Answer::Text(bytes)) => said(write(sink, bytes), false),
        Some(Answer::Decision(sync, verdict)) => {
            said(print_verdict(number, sync, &verdict, text, sink), false)
        }
        Some(Answer::Refusal(clash)) => {
            let clash = kept_clash(refusals, clash, &mut told.found);
            said(print_denied(alloc, number, clash, sink), true)
        }
        None => Ok(false),
    }
}

/// Whether what was written is a refusal.
fn said(written: Result<(), LiveFault>, refusal: bool) -> Result<bool, LiveFault>
    ensures { result ≡ said_of written refusal }
{
    match written {
        Ok(()) => Ok(refusal),
        Err(fault) => Err(fault),
    }
}

/// Writes what becomes of the packet of the line of this number, by the sync of that number.
fn print_verdict<K: Sink>(
    number: u64,
    sync: u64,
    verdict: &Verdict,
    text: &mut String,
    sink: &mut K,
) -> Result<(), LiveFault>
    ensures { Prints result (packet_text number sync verdict.now)
        (K.output sink.old) (K.output sink.new) }
{
    text.clear();
    let made = push_answer(text, number, sync, verdict);
    write_made(made, text.as_bytes(), sink)
}

/// Writes that the sync of the line of this number was refused.
fn print_denied<K: Sink>(
    alloc: Global,
    number: u64,
    clash: &Clash,
    sink: &mut K,
) -> Result<(), LiveFault>
    ensures { Prints result (refusal_text number (ChainClash clash.now))
        (K.output sink.old) (K.output sink.new) }
{
    let mut text = String::new(alloc);
    match clash.copy(alloc) {
        Ok(clash) => print_clash(alloc, number, clash, &mut text, sink),
        Err(refused) => Err(LiveFault::NoMemory(refused)),
    }
}

/// Writes that a line is refused for this clash.
fn print_clash<K: Sink>(
    alloc: Global,
    number: u64,
    clash: Clash,
    text: &mut String,
    sink: &mut K,
) -> Result<(), LiveFault>
    ensures { Prints result (refusal_text number (ChainClash clash))
        (K.output sink.old) (K.output sink.new) }
{
    let why = LineRefusal::ChainClash(clash);
    print_refusal(alloc, number, &why, text, sink)
}

/// Writes how the run ended, and its last tables.
fn print_end<J: Sharing, K: Sink>(
    alloc: Global,
    config: &Config,
    done: &Finished<J>,
    sink: &mut K,
) -> Result<(), LiveFault>
    ensures { Prints result
        (runs.end_text config.now (length done.now.notes) done.now.clash done.now.table)
        (K.output sink.old) (K.output sink.new) }
{
    match print_final(alloc, &done.notes, &done.clash, sink) {
        Ok(()) => print_tables(alloc, table_families(config), &done.table, sink),
        Err(fault) => Err(fault),
    }
}

/// Writes how the run ended.
fn print_final<K: Sink>(
    alloc: Global,
    notes: &Items<RecordNote>,
    clash: &Option<Clash>,
    sink: &mut K,
) -> Result<(), LiveFault>
    ensures { Prints result (final_text (length notes.now) clash.now)
        (K.output sink.old) (K.output sink.new) }
{
    let mut text = String::new(alloc);
    let records = notes.as_slice().len() as u64;
    let made = push_final(&mut text, records, clash.as_ref());
    write_made(made, text.as_bytes(), sink)
}
