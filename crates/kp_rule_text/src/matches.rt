//! Matches are read.
ghost use Rattle.std.specs.Prelude.{◌≡◌, option_map};
ghost use Rattle.kp_rule_text.specs.Reading as spec;

use crate::split::strip;
use crate::word::{name_word, port_word, probability_word, range_word, seconds_word};
use kp_base::{Family, Proto, split_once};
use kp_types::{ChainName, Match};

/// The match at the front, and what stands behind it and its space.
pub(crate) fn next_match(family: Family, text: &[u8]) -> Option<(Match, &[u8])>
    ensures { option_map (λ p. (p.0, p.1.now)) result ≡ spec.match_of family text.now }
{
    if let Some(rest) = strip(text, b"-m ") {
        return module_match(rest);
    }
    if let Some(rest) = strip(text, b"-p ") {
        return proto_match(rest);
    }
    if let Some(rest) = strip(text, b"! ") {
        return address_match(family, true, rest);
    }
    address_match(family, false, text)
}

/// A source or a destination of a family.
fn address_match(family: Family, not: bool, text: &[u8]) -> Option<(Match, &[u8])>
    ensures { option_map (λ p. (p.0, p.1.now)) result ≡ spec.address_match family not text.now }
{
    if let Some(rest) = strip(text, b"-s ") {
        let (word, rest) = split_once(rest, b' ')?;
        let range = range_word(family, word)?;
        return Some((Match::Src { range, not }, rest));
    }
    let rest = strip(text, b"-d ")?;
    let (word, rest) = split_once(rest, b' ')?;
    let range = range_word(family, word)?;
    Some((Match::Dst { range, not }, rest))
}

/// A protocol, with or without a port.
fn proto_match(text: &[u8]) -> Option<(Match, &[u8])>
    ensures { option_map (λ p. (p.0, p.1.now)) result ≡ spec.proto_match text.now }
{
    if let Some(rest) = strip(text, b"tcp ") {
        return port_match(Proto::Tcp, rest);
    }
    if let Some(rest) = strip(text, b"udp ") {
        return port_match(Proto::Udp, rest);
    }
    port_match(Proto::Sctp, strip(text, b"sctp ")?)
}

/// What stands between a protocol and its port.
fn port_words(proto: Proto) -> &'static [u8]
    ensures { result.now ≡ spec.port_words proto }
{
    match proto {
        Proto::Tcp => b"-m tcp --dport ",
        Proto::Udp => b"-m udp --dport ",
        Proto::Sctp => b"-m sctp --dport ",
    }
}

/// What stands behind a protocol's name.
fn port_match(proto: Proto, text: &[u8]) -> Option<(Match, &[u8])>
    ensures { option_map (λ p. (p.0, p.1.now)) result ≡ spec.port_match proto text.now }
{
    if let Some(rest) = strip(text, port_words(proto)) {
        let (word, rest) = split_once(rest, b' ')?;
        let port = port_word(word)?;
        return Some((Match::Port { proto, port }, rest));
    }
    Some((Match::Proto { proto }, text))
}

/// What stands behind `-m`.
fn module_match(text: &[u8]) -> Option<(Match, &[u8])>
    ensures { option_map (λ p. (p.0, p.1.now)) result ≡ spec.module_match text.now }
{
    if let Some(rest) = strip(text, b"addrtype ") {
        return local_match(rest);
    }
    if let Some(rest) = strip(text, b"mark ") {
        return mark_match(rest);
    }
    if let Some(rest) = strip(text, b"recent --name ") {
        return recent_match(rest);
    }
    let rest = strip(text, b"statistic --mode random --probability ")?;
    let (word, rest) = split_once(rest, b' ')?;
    let p = probability_word(word)?;
    Some((Match::Statistic { p }, rest))
}

fn local_match(text: &[u8]) -> Option<(Match, &[u8])>
    ensures { option_map (λ p. (p.0, p.1.now)) result ≡ spec.local_match text.now }
{
    if let Some(rest) = strip(text, b"--src-type LOCAL ") {
        return Some((Match::SrcLocal, rest));
    }
    let rest = strip(text, b"--dst-type LOCAL ")?;
    Some((Match::DstLocal, rest))
}

fn mark_match(text: &[u8]) -> Option<(Match, &[u8])>
    ensures { option_map (λ p. (p.0, p.1.now)) result ≡ spec.mark_match text.now }
{
    if let Some(rest) = strip(text, b"--mark 0x4000/0x4000 ") {
        return Some((Match::Marked { not: false }, rest));
    }
    let rest = strip(text, b"! --mark 0x4000/0x4000 ")?;
    Some((Match::Marked { not: true }, rest))
}

fn recent_match(text: &[u8]) -> Option<(Match, &[u8])>
    ensures { option_map (λ p. (p.0, p.1.now)) result ≡ spec.recent_match text.now }
{
    let (word, rest) = split_once(text, b' ')?;
    let list = name_word(word)?;
    list_match(list, rest)
}

/// What stands behind a list's name.
fn list_match(list: ChainName, text: &[u8]) -> Option<(Match, &[u8])>
    ensures { option_map (λ p. (p.0, p.1.now)) result ≡ spec.list_match list text.now }
{
    if let Some(rest) = strip(text, b"--set ") {
        return Some((Match::SetSeen { list }, rest));
    }
    let rest = strip(text, b"--rcheck --seconds ")?;
    let (word, rest) = split_once(rest, b' ')?;
    let seconds = seconds_word(word)?;
    let rest = strip(rest, b"--reap ")?;
    Some((Match::Seen { list, seconds }, rest))
}
