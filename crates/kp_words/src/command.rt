//! The command that tells the option from the other words.
ghost use Rattle.std.specs.Prelude.{◌≡◌, IfErr, IfOk, codes, map, option_map, string_bytes, true};
ghost use Rattle.clap.specs.Words.{first_value, found_of, kind_of, matched_of, raw_values};
ghost use Rattle.clap.specs.declared.error.kind.ErrorKind.TheVariants.{OutOfMemory};
ghost use Rattle.kp_words.specs.Command as command;
ghost use Rattle.kp_words.specs.Words.{mode_of};

use clap::{Arg, ArgAction, ArgMatches, Command, Error};
use std::alloc::Global;

/// Whether the words have a form that the command is given: plain ones alone, or one with the
/// option behind it or before it.
pub(crate) fn has_form(words: &[String]) -> bool
    ensures { result ≡ command.has_form (map string_bytes words.now) }
{
    match words {
        [_, a] => is_plain(a),
        [_, a, b] => has_option(a, b),
        [_, a, b, c] => has_value(a, b, c),
        [_, a, b, c, d] => are_plain(a, b, c, d),
        _ => false,
    }
}

/// Whether one of the words is plain, and the other the option with its value.
fn has_option(a: &str, b: &str) -> bool
    ensures { result ≡ command.has_option a.now b.now }
{
    (is_plain(a) && is_option(b)) || (is_option(a) && is_plain(b))
}

/// Whether one of the words is plain, with the option and its value behind it or before it.
fn has_value(a: &str, b: &str, c: &str) -> bool
    ensures { result ≡ command.has_value a.now b.now c.now }
{
    is_plain(c) && ((is_plain(a) && b == "--workers") || (a == "--workers" && is_plain(b)))
}

/// Whether all four words are plain.
fn are_plain(a: &str, b: &str, c: &str, d: &str) -> bool
    ensures { result ≡ command.are_plain a.now b.now c.now d.now }
{
    (is_plain(a) && is_plain(b)) && (is_plain(c) && is_plain(d))
}

/// Whether no dash begins the word.
fn is_plain(word: &str) -> bool
    ensures { result ≡ command.is_plain word.now }
{
    !word.starts_with("-")
}

/// Whether the word is the option with its value in one word.
fn is_option(word: &str) -> bool
    ensures { result ≡ command.is_option word.now }
{
    word.starts_with("--workers=")
}

/// What the command finds in words of such a form. It fails for want of memory alone.
pub(crate) fn matches_of<'a>(alloc: Global, words: &'a [String]) -> Result<ArgMatches<'a>, Error>
    requires { command.has_form (map string_bytes words.now) ≡ true }
    ensures ok { IfOk result (λ m. command.mode_of_matches
        (first_value (found_of m) (codes "workers"))
        (option_map raw_values (matched_of (found_of m) (codes "others")))
        ≡ mode_of (map string_bytes words.now)) }
    ensures err { IfErr result (λ e. kind_of e ≡ OutOfMemory) }
{
    let workers = Arg::new(alloc, "workers").long("workers");
    let others = Arg::new(alloc, "others").action(ArgAction::Append);
    Command::new(alloc, "kproxy")
        .disable_help_flag(true)
        .arg(workers)?
        .arg(others)?
        .try_get_matches_from(words)
}
