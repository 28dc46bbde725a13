//! Groups of lines, which are read and answered beside each other.
ghost use Rattle.std.specs.Prelude.{◌≡◌, ◌<◌, ◌≤◌, ◌+◌, ◌^◌, ◌||◌, false, true, not, length, map};
ghost use Rattle.std.specs.Prelude.{take, string_bytes, OnErr, OnOk};
ghost use Rattle.std.specs.List.{list_any};
ghost use Rattle.kp_replay.specs.Groups.{AreAside, is_aside, is_packet, is_refused};
ghost use Rattle.kp_workers.specs.Texts.{BeginsWith};

use crate::ahead::answer_ahead;
use crate::answering::Answering;
use crate::reads::{Read, Reads, read_lines};
use crate::replay::Replay;
use kp_base::NoMemory;
use kp_gate::Gate;
use kp_mode::{Replaying, snapshot_of};
use kp_script::{Op, Said};
use std::alloc::Global;
use std::mem::swap;
use std::thread::Threads;

/// The fewest lines that are answered beside each other.
const FEWEST: usize = 512;

/// The most lines that are answered at once, while as many of the next ones are read.
const AT_ONCE: usize = 4096;

impl Replay {
    ghost use Rattle.kp_replay.specs.Groups.{lines_from, read_line, reads_line, says_later};
    ghost use Rattle.kp_replay.specs.Groups.{AreAside, AreLater, AreReadAs, WereRead, was_read};
    ghost use Rattle.kp_replay.specs.Steps.{standing_of, LosesNothing, Takes, Took};

    /// Whether a line was read that isn't blank.
    pub fn has_begun(&self) -> bool
        ensures { (standing_of self.now).fresh ≡ not result }
    {
        !self.fresh
    }

    /// Takes lines, of which the first has this number, as one after the other. They are read beside
    /// each other, in memory that serves the next group too, and so are packets answered up to the
    /// first line that asks for something else, while the next lines are read. Without memory no
    /// event and no record is lost, and some of what they print may stand in the text.
    pub fn take_group<R: Threads + Sync, G: Gate<R> + Sync>(
        &mut self,
        rt: &R,
        alloc: Global,
        gate: &G,
        number: u64,
        lines: &[&[u8]],
        reads: &mut Reads,
        text: &mut Vec<u8>,
    ) -> Result<(), NoMemory>
        requires begun { (standing_of self.old).fresh ≡ false }
        requires few { number + length lines.now < 2 ^ 64 }
        ensures takes { OnOk result (Takes
            (lines_from number (map (λ line. line.now) lines.now) (standing_of self.old))
            (standing_of self.new) text.old.items text.new.items) }
        ensures kept { OnErr result (LosesNothing (standing_of self.old) (standing_of self.new)) }
        ensures front { OnErr result (BeginsWith text.new.items text.old.items) }
    {
        if lines.len() < FEWEST {
            self.take_lines(alloc, number, lines, text)
        } else {
            self.take_beside(rt, alloc, gate, number, lines, reads, text)
        }
    }

    /// Takes lines beside each other: while some are answered, the next ones are read.
    fn take_beside<R: Threads + Sync, G: Gate<R> + Sync>(
        &mut self,
        rt: &R,
        alloc: Global,
        gate: &G,
        number: u64,
        lines: &[&[u8]],
        reads: &mut Reads,
        text: &mut Vec<u8>,
    ) -> Result<(), NoMemory>
        requires begun { (standing_of self.old).fresh ≡ false }
        requires few { number + length lines.now < 2 ^ 64 }
        ensures takes { OnOk result (Takes
            (lines_from number (map (λ line. line.now) lines.now) (standing_of self.old))
            (standing_of self.new) text.old.items text.new.items) }
        ensures kept { OnErr result (LosesNothing (standing_of self.old) (standing_of self.new)) }
        ensures front { OnErr result (BeginsWith text.new.items text.old.items) }
    {
        let (first, mut rest) = lines.split_at(AT_ONCE.min(lines.len()));
        let most = first.len().div_ceil(self.lists.workers()).max(1);
        read_lines(rt, alloc, number, first, most, &mut reads.current)?;
        let mut next = number + first.len() as u64;
        while !rest.is_empty() {
            let (ahead, later) = rest.split_at(AT_ONCE.min(rest.len()));
            self.take_ahead(rt, alloc, gate, next, ahead, reads, text)?;
            next += ahead.len() as u64;
            rest = later;
        }
        self.take_ahead(rt, alloc, gate, next, rest, reads, text)
    }

    /// Takes lines that were read, of which those at the front that ask for packets or are refused
    /// are answered beside each other. Meanwhile the next ones are read, of which the first has this
    /// number.
    fn take_ahead<R: Threads + Sync, G: Gate<R> + Sync>(
        &mut self,
        rt: &R,
        alloc: Global,
        gate: &G,
        number: u64,
        ahead: &[&[u8]],
        reads: &mut Reads,
        text: &mut Vec<u8>,
    ) -> Result<(), NoMemory>
        requires few { number + length ahead.now < 2 ^ 64 }
        requires later { AreLater reads.old.current.items }
        ensures takes { OnOk result (Takes
            (reads_line reads.old.current.items (standing_of self.old))
            (standing_of self.new) text.old.items text.new.items) }
        ensures read { OnOk result (WereRead reads.old.current.items) }
        ensures next { OnOk result
            (AreReadAs number (map (λ line. line.now) ahead.now) reads.new.current.items) }
        ensures kept { OnErr result (LosesNothing (standing_of self.old) (standing_of self.new)) }
        ensures front { OnErr result (BeginsWith text.new.items text.old.items) }
    {
        let others = reads
            .current
            .split_off(aside_len(reads.current.as_slice()))?;
        let front = reads.current.as_slice();
        self.answer_reads(rt, alloc, gate, front, number, ahead, &mut reads.next, text)?;
        self.take_reads(alloc, others, text)?;
        swap(&mut reads.current, &mut reads.next);
        Ok(())
    }

    /// Takes lines one after the other.
    fn take_lines(
        &mut self,
        alloc: Global,
        number: u64,
        lines: &[&[u8]],
        text: &mut Vec<u8>,
    ) -> Result<(), NoMemory>
        requires begun { (standing_of self.old).fresh ≡ false }
        requires few { number + length lines.now < 2 ^ 64 }
        ensures takes { OnOk result (Takes
            (lines_from number (map (λ line. line.now) lines.now) (standing_of self.old))
            (standing_of self.new) text.old.items text.new.items) }
        ensures kept { OnErr result (LosesNothing (standing_of self.old) (standing_of self.new)) }
        ensures front { OnErr result (BeginsWith text.new.items text.old.items) }
    {
        let mut printed = String::new(alloc);
        let mut next = number;
        for line in lines {
            self.take_line(alloc, next, Some(line), &mut printed)?;
            next += 1;
        }
        text.extend_from_slice(printed.as_bytes())?;
        Ok(())
    }

    /// Answers lines that ask for packets or are refused, beside each other. Meanwhile the next ones
    /// are read, of which the first has this number.
    fn answer_reads<R: Threads + Sync, G: Gate<R> + Sync>(
        &mut self,
        rt: &R,
        alloc: Global,
        gate: &G,
        reads: &[Read],
        number: u64,
        ahead: &[&[u8]],
        next: &mut Vec<Read>,
        text: &mut Vec<u8>,
    ) -> Result<(), NoMemory>
        requires few { number + length ahead.now < 2 ^ 64 }
        requires aside { AreAside reads.now }
        ensures takes { OnOk result (Takes (reads_line reads.now (standing_of self.old))
            (standing_of self.new) text.old.items text.new.items) }
        ensures next { OnOk result
            (AreReadAs number (map (λ line. line.now) ahead.now) next.new.items) }
        ensures kept { LosesNothing (standing_of self.old) (standing_of self.new) }
        ensures front { OnErr result (BeginsWith text.new.items text.old.items) }
    {
        self.refused |= any_refused(reads);
        let work = Answering {
            alloc,
            snapshot: snapshot_of(&self.plane),
        };
        answer_ahead(
            rt,
            alloc,
            gate,
            &work,
            reads,
            number,
            ahead,
            next,
            &mut self.lists,
            text,
        )
    }

    /// Does what lines ask for, one after the other.
    fn take_reads(
        &mut self,
        alloc: Global,
        reads: Vec<Read>,
        text: &mut Vec<u8>,
    ) -> Result<(), NoMemory>
        requires { AreLater reads.items }
        ensures takes { OnOk result (Takes (reads_line reads.items (standing_of self.old))
            (standing_of self.new) text.old.items text.new.items) }
        ensures read { OnOk result (WereRead reads.items) }
        ensures kept { OnErr result (LosesNothing (standing_of self.old) (standing_of self.new)) }
        ensures front { OnErr result (BeginsWith text.new.items text.old.items) }
    {
        let mut printed = String::new(alloc);
        for read in reads {
            self.take_read(alloc, read, &mut printed)?;
        }
        text.extend_from_slice(printed.as_bytes())?;
        Ok(())
    }

    /// Does what a line asks for.
    fn take_read(&mut self, alloc: Global, read: Read, text: &mut String) -> Result<(), NoMemory>
        requires { says_later read.said ≡ true }
        ensures took { Took result (read_line read (standing_of self.old))
            (standing_of self.old) (standing_of self.new) (string_bytes text.old) (string_bytes text.new) }
        ensures read { OnOk result (was_read read.said ≡ true) }
    {
        let Read { number, said } = read;
        match said? {
            Said::Nothing => Ok(()),
            Said::Asks(line) => self.take_op_in(alloc, number, line.op, &mut Replaying, text),
            Said::Refuses(refusal) => self.refuse(alloc, number, &refusal, text),
        }
    }
}

/// Whether a line is refused.
fn any_refused(reads: &[Read]) -> bool
    ensures { result ≡ list_any is_refused reads.now }
{
    reads
        .iter()
        .any(|read: &Read| matches!(read.said, Ok(Said::Refuses(_))))
}

/// Whether a line may be answered beside others: it changes nothing but the recent lists.
fn is_aside(read: &Read) -> bool
    ensures { result ≡ is_aside read.now }
{
    match &read.said {
        Ok(Said::Nothing | Said::Refuses(_)) => true,
        Ok(Said::Asks(line)) => is_packet(&line.op),
        Err(_) => false,
    }
}

fn is_packet(op: &Op) -> bool
    ensures { result ≡ is_packet op.now }
{
    match op {
        Op::Packet(_) => true,
        Op::Config(_) | Op::Events(_) | Op::Sync | Op::Explain(_) | Op::Show(_) => false,
    }
}

/// How many lines at the front may be answered beside each other.
fn aside_len(reads: &[Read]) -> usize
    ensures within { result ≤ length reads.now }
    ensures front { AreAside (take result reads.now) }
{
    let mut count = 0;
    for read in reads {
        if !is_aside(read) {
            return count;
        }
        count += 1;
    }
    count
}
