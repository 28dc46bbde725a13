//! What the program does.
ghost use Rattle.std.specs.Prelude.{◌≡◌, IfOk, map, option_map, string_bytes};
ghost use Rattle.kp_words.specs.Words as spec;
ghost use Rattle.kp_words.specs.Command as command;

use crate::command::{has_form, matches_of};
use crate::number::number_of;
use kp_base::NoMemory;
use std::alloc::Global;

/// What the program does, with the numbers of its words.
#[derive(Clone, Copy, Debug, PartialEq, Eq)]
pub enum Mode {
    /// It answers the lines of its input, in order, with so many workers.
    Replay { workers: u64 },
    /// It answers them, and tells what each sync changed.
    Changes,
    /// It answers them, and tells what health probes of the node would see after each sync.
    Health,
    /// It answers them as a node does that keeps connections.
    Track,
    /// It answers them by a map of verdicts in place of the tables.
    Vmap,
    /// It answers them, and tells all paths behind each explanation.
    Paths,
    /// It runs the streams of its input side by side.
    Live,
    /// It generates a script from a seed, with so many Services and pods, and prints what came of
    /// it.
    Gen { seed: u64, services: u64, pods: u64 },
}

/// The mode that the words say, of which the first is the program's name, or none where they don't
/// fit.
pub fn read_words(alloc: Global, words: &[String]) -> Result<Option<Mode>, NoMemory>
    ensures { IfOk result (λ mode. mode ≡ spec.mode_of (map string_bytes words.now)) }
{
    if !has_form(words) {
        return Ok(None);
    }
    match matches_of(alloc, words) {
        Ok(matches) => Ok(mode_of_matches(matches.get_str("workers"), matches.get_strs("others"))),
        // Words of such a form are refused for want of memory alone, and the error doesn't hold the
        // refusal.
        Err(_) => Err(NoMemory::told_by_library()),
    }
}

/// The mode of the option's value and of the other words.
fn mode_of_matches(workers: Option<&str>, others: Option<&[&str]>) -> Option<Mode>
    ensures { result ≡ command.mode_of_matches (option_map (λ s. s.now) workers.entry)
        (option_map (λ s. map (λ word. word.now) s.now) others.entry) }
{
    match (workers, others?) {
        (None, [name]) => named_mode(name),
        (Some(value), [name]) if *name == "replay" => replay_with(value),
        (None, [name, a, b, c]) if *name == "gen" => gen_of(a, b, c),
        _ => None,
    }
}

/// A mode that is its name alone.
fn named_mode(name: &str) -> Option<Mode>
    ensures { result ≡ spec.named_mode name.now }
{
    match name {
        "replay" => Some(Mode::Replay { workers: 1 }),
        "changes" => Some(Mode::Changes),
        "health" => Some(Mode::Health),
        "track" => Some(Mode::Track),
        "vmap" => Some(Mode::Vmap),
        "paths" => Some(Mode::Paths),
        "live" => Some(Mode::Live),
        _ => None,
    }
}

/// `replay` with so many workers.
fn replay_with(value: &str) -> Option<Mode>
    ensures { result ≡ spec.replay_with value.now }
{
    let workers = number_of(1, 64, value)?;
    Some(Mode::Replay { workers })
}

/// `gen`, by its three numbers.
fn gen_of(seed: &str, services: &str, pods: &str) -> Option<Mode>
    ensures { result ≡ spec.gen_of seed.now services.now pods.now }
{
    let seed = number_of(0, u64::MAX, seed)?;
    let services = number_of(1, 10_000, services)?;
    let pods = number_of(0, 60_000, pods)?;
    Some(Mode::Gen {
        seed,
        services,
        pods,
    })
}
