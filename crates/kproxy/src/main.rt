//! kproxy: what the proxy of a Kubernetes node writes, and where a packet goes.
#![tactic(auto)]

ghost use Rattle.std.specs.Prelude.{◌≡◌, map, string_bytes, true, IfOk};
ghost use Rattle.std.specs.Process.{exit_status};
ghost use Rattle.kp_words.specs.Words.{mode_of};
ghost use Rattle.kp_run.specs.Codes.{code_of};
ghost use Rattle.kp_run.specs.Outcome.{reads_source};
ghost use Rattle.kp_run.specs.declared.status.Status.TheVariants.{Usage};

use kp_base::NoMemory;
use kp_gate::OpenGate;
use kp_io::{BufferedSink, RealSink, RealSource};
use kp_run::{Status, run, run_alone};
use std::io::ErrorKind;
use std::process::ExitCode;
use std::sync::Wait;
use std::thread::Threads;
use std::{env, io};

/// How a run ended, and whether nobody read its output any more.
#[derive(Drop)]
struct Ended {
    status: Status,
    closed: bool,
}

fn main(rt: HostRuntime) -> ExitCode {
    let ended = match run_here(&rt, &rt) {
        Ok(ended) => ended,
        Err(refused) => Ended {
            status: Status::NoMemory(refused),
            closed: false,
        },
    };
    if let Some(why) = complaint(&ended) {
        // Where standard error takes nothing, the status alone tells it.
        let _ = eprintln!(rt; "kproxy: {why}");
    }
    exit_of(ended.status)
}

/// The exit status that tells how a run ended.
fn exit_of(status: Status) -> ExitCode
    ensures { exit_status result ≡ code_of status }
{
    ExitCode::from(status.code())
}

/// Runs the program over standard input and output. The runtime comes twice, since only where it is
/// handed in by itself may threads be started by it.
fn run_here<R: Threads + Wait + Sync>(rt: &HostRuntime, threads: &R) -> Result<Ended, NoMemory> {
    let words = words_of(rt)?;
    run_on(rt, threads, words.as_slice())
}

/// Runs the program on its words over standard input and output.
fn run_on<R: Threads + Wait + Sync>(
    rt: &HostRuntime,
    threads: &R,
    words: &[String],
) -> Result<Ended, NoMemory>
    ensures { IfOk result (λ ended. reads_source (mode_of (map string_bytes words.now)) ≡ true
        → ended.status ≡ Usage → ⊥) }
{
    let alloc = rt.alloc();
    let mut source = RealSource::new(rt.reader());
    let mut sink = BufferedSink::new(alloc, RealSink::new(io::writer(rt)))?;
    let status = match run_alone(alloc, words, &mut source, &mut sink) {
        Some(status) => status,
        None => run(threads, alloc, words, &mut source, &mut sink, &OpenGate),
    };
    Ok(Ended {
        status,
        closed: sink.sink().is_closed(),
    })
}

/// The program's words, or none where one of them isn't UTF-8: neither fits.
fn words_of(rt: &HostRuntime) -> Result<Vec<String>, NoMemory> {
    let alloc = rt.alloc();
    match env::args(rt) {
        Ok(words) => Ok(words.collect(alloc)?),
        Err(error) if error.kind() == ErrorKind::InvalidData => Ok(Vec::new(alloc)),
        // Nothing else keeps the words from the program than want of memory.
        Err(_) => Err(NoMemory::told_by_library()),
    }
}

/// What is said on standard error of a run that ended before all was read and written. Nothing is
/// said where the reader of the output has gone, which is its own choice.
fn complaint(ended: &Ended) -> Option<&'static str> {
    match ended.status {
        Status::Done | Status::Usage | Status::LinesRefused => None,
        Status::NoMemory(_) => Some("out of memory"),
        Status::ReadFault => Some("the input can't be read"),
        Status::WriteFault if ended.closed => None,
        Status::WriteFault => Some("the output can't be written"),
        Status::InputTooLong => Some("the input is longer than 4294967296 bytes"),
    }
}
