//! Lines that are read one by one, and the streams that they belong to.
ghost use Rattle.std.specs.Prelude.{◌≡◌, ◌+◌, ◌-◌, ◌<◌, ◌≤◌, ◌^◌, cond, false, length, nat_lt};
ghost use Rattle.std.specs.Prelude.{IfOk, None, OnErr, OnOk, Some};
ghost use Rattle.std.specs.Option.{option_copied};
ghost use Rattle.kp_run_defs.specs.LiveLines as spec;
ghost use Rattle.kp_run_defs.specs.LiveLines.{after_given};
ghost use Rattle.kp_streams.specs.Streams.{reading_in};
ghost use Rattle.kp_text_defs.specs.declared.line_refusal.LineRefusal.TheVariants.{NotLive};
ghost use Rattle.kp_text_defs.specs.StreamNames.{stream_name};

use crate::names::StreamNames;
use kp_base::{Config, Items, NoMemory, Text};
use kp_run_defs::{RefusedLine, StreamLine, Work};
use kp_script::{LineRefusal, Op, Said, Scratch, ScriptLine, default_config, said_by};
use std::alloc::Global;

/// How far lines have been read: the configuration, the streams and their lines, and the lines that
/// were refused.
pub struct StreamLines {
    number: u64,
    /// Whether no line but blank ones was read.
    fresh: bool,
    config: Config,
    streams: StreamNames,
    /// How many events were accepted.
    accepted: u64,
    lines: Vec<StreamLine>,
    refused: Items<RefusedLine>,
    /// What lines are read with, one after another.
    scratch: Scratch,
}

/// One call on each way out of what owns the lines.
impl Drop for StreamLines {
    fn drop(self) {
        let StreamLines {
            number,
            fresh,
            config,
            streams,
            accepted,
            lines,
            refused,
            scratch,
        } = self;
    }
}

impl StreamLines {
    /// Before the first line.
    pub fn new(alloc: Global) -> Result<StreamLines, NoMemory>
        ensures { IfOk result (λ s. reading_in s ≡ spec.nothing_read) }
    {
        Ok(StreamLines {
            number: 0,
            fresh: true,
            config: default_config(alloc)?,
            streams: StreamNames::new(alloc),
            accepted: 0,
            lines: Vec::new(alloc),
            refused: Items::new(alloc),
            scratch: Scratch::new(alloc),
        })
    }

    /// The configuration.
    pub fn config(&self) -> &Config
        ensures { result.now ≡ (reading_in self.now).config }
    {
        &self.config
    }

    /// The names of the streams, in the order of their first lines.
    pub fn streams(&self) -> &[Text]
        ensures names { result.now ≡ (reading_in self.now).streams }
        ensures few { length result.now ≤ spec.stream_limit }
    {
        self.streams.as_slice()
    }

    /// The lines of all streams, in the order of the input.
    pub fn lines(&self) -> &[StreamLine]
        ensures { result.now ≡ (reading_in self.now).lines }
    {
        self.lines.as_slice()
    }

    /// The lines that were refused, in the order of the input.
    pub fn refused(&self) -> &[RefusedLine]
        ensures { result.now ≡ (reading_in self.now).refused }
    {
        self.refused.as_slice()
    }

    /// Reads one more line, of which nothing is given where it is too long. Where memory is out the
    /// line wasn't read, and all stays.
    pub fn take_line(&mut self, alloc: Global, given: Option<&[u8]>) -> Result<(), NoMemory>
        requires { (reading_in self.old).number < 2 ^ 64 - 1 }
        ensures ok { OnOk result (reading_in self.new
            ≡ after_given (reading_in self.old) (option_copied given.entry)) }
        ensures err { OnErr result (reading_in self.new ≡ reading_in self.old) }
    {
        let said = said_by(alloc, given, self.fresh, &mut self.scratch)?;
        let (number, fresh) = (self.number, self.fresh);
        match self.take_said(alloc, said) {
            Ok(()) => Ok(()),
            Err(refused) => {
                self.number = number;
                self.fresh = fresh;
                Err(refused)
            }
        }
    }

    /// Does what the next line says. Where memory is out it is counted all the same, and may not be
    /// the first any more.
    fn take_said(&mut self, alloc: Global, said: Said) -> Result<(), NoMemory>
        requires { (reading_in self.old).number < 2 ^ 64 - 1 }
        ensures ok { OnOk result (reading_in self.new
            ≡ spec.after_said (reading_in self.old) said) }
        ensures err { OnErr result (reading_in self.new ≡ record (reading_in self.old) {
          number = self.new.number;
          fresh = self.new.fresh;
        }) }
    {
        self.number += 1;
        match said {
            Said::Nothing => Ok(()),
            Said::Asks(line) => {
                self.fresh = false;
                self.add_line(alloc, line)
            }
            Said::Refuses(why) => {
                self.fresh = false;
                self.refuse(why)
            }
        }
    }

    /// Refuses the line.
    fn refuse(&mut self, why: LineRefusal) -> Result<(), NoMemory>
        ensures ok { OnOk result
            (reading_in self.new ≡ spec.refuse_line why (reading_in self.old)) }
        ensures err { OnErr result (reading_in self.new ≡ reading_in self.old) }
    {
        let number = self.number;
        match self.refused.push(RefusedLine { number, why }) {
            Ok(()) => Ok(()),
            Err((refused, _)) => Err(refused),
        }
    }

    /// Adds a line that reads, or refuses what isn't for live.
    fn add_line(&mut self, alloc: Global, line: ScriptLine) -> Result<(), NoMemory>
        ensures ok { OnOk result (reading_in self.new
            ≡ spec.add_op (stream_name line.by) line.op (reading_in self.old)) }
        ensures err { OnErr result (reading_in self.new ≡ reading_in self.old) }
    {
        let name = line.by;
        match line.op {
            Op::Config(config) => {
                self.config = config;
                Ok(())
            }
            Op::Events(events) => self.add_work(alloc, name.name(), Work::Feeds(events)),
            Op::Sync => self.add_work(alloc, name.name(), Work::Syncs),
            Op::Packet(packet) => self.add_work(alloc, name.name(), Work::Sends(packet)),
            Op::Explain(_) => self.refuse_op(alloc, "explain"),
            Op::Show(_) => self.refuse_op(alloc, "show"),
        }
    }

    /// Refuses a command that isn't for live.
    fn refuse_op(&mut self, alloc: Global, name: &str) -> Result<(), NoMemory>
        ensures ok { OnOk result (reading_in self.new
            ≡ spec.refuse_line (NotLive name.now) (reading_in self.old)) }
        ensures err { OnErr result (reading_in self.new ≡ reading_in self.old) }
    {
        let op = Text::of(alloc, name)?;
        self.refuse(LineRefusal::NotLive { op })
    }

    /// Adds work of the stream of this name, or refuses the line.
    fn add_work(&mut self, alloc: Global, name: &str, work: Work) -> Result<(), NoMemory>
        ensures ok { OnOk result (reading_in self.new
            ≡ spec.add_work name.now work (reading_in self.old)) }
        ensures err { OnErr result (reading_in self.new ≡ reading_in self.old) }
    {
        let place = self.streams.place_of(name);
        if place.is_none() && self.streams.is_full() {
            return self.refuse(LineRefusal::StreamsFull);
        }
        match sum_within(self.config.max_events, self.accepted, count_of(&work)) {
            Some(accepted) => self.accept(alloc, name, place, work, accepted),
            None => self.refuse(LineRefusal::JournalFull {
                count: self.accepted,
            }),
        }
    }

    /// Accepts work of the stream that has this name and place, with so many events by then. A
    /// stream without a place is the next one.
    fn accept(
        &mut self,
        alloc: Global,
        name: &str,
        place: Option<u32>,
        work: Work,
        accepted: u64,
    ) -> Result<(), NoMemory>
        requires few { place ≡ None → length (reading_in self.old).streams < spec.stream_limit }
        requires events { accepted ≡ (reading_in self.old).accepted
            + length (spec.events_fed work) }
        ensures ok { OnOk result (reading_in self.new
            ≡ spec.accept_at place name.now work (reading_in self.old)) }
        ensures err { OnErr result (reading_in self.new ≡ reading_in self.old) }
    {
        // The room is taken before a stream is added, so that all stays where there is none.
        self.lines.reserve(1)?;
        let stream = match place {
            Some(place) => place,
            None => self.streams.add(alloc, name)?,
        };
        self.accepted = accepted;
        let number = self.number;
        self.lines.push_reserved(StreamLine {
            number,
            stream,
            work,
        });
        Ok(())
    }
}

/// How many events work feeds.
fn count_of(work: &Work) -> u64
    ensures { result ≡ length (spec.events_fed work.now) }
{
    match work {
        Work::Feeds(events) => events.as_slice().len() as u64,
        Work::Syncs | Work::Sends(_) => 0,
    }
}

/// How many events there are with some more, unless that is more than the most.
fn sum_within(most: u64, accepted: u64, more: u64) -> Option<u64>
    ensures { result
        ≡ cond (nat_lt most (accepted + more)) None (Some (accepted + more)) }
{
    let sum = accepted.checked_add(more)?;
    if sum > most { None } else { Some(sum) }
}
