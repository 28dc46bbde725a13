//! Rules are printed.
ghost use Rattle.std.specs.Prelude.{◌≡◌, [], ◌∷◌, ◌++◌, OnErr, OnOk, string_bytes, codes};
ghost use Rattle.std.specs.List.{flat_map};
ghost use Rattle.kp_types.specs.declared.rule.Match.TheVariants as match;
ghost use Rattle.kp_types.specs.declared.rule.Target.TheVariants as target;
ghost use Rattle.kp_restore_defs.specs.RuleText as spec;
ghost use Rattle.kp_print.specs.Fronts.{HasFront};
ghost use Rattle.kp_rule_text.specs.Lines as lines;
ghost use Rattle.kp_rule_text.specs.Reading as reading;

use kp_base::{Cidr, Endpoint, NoMemory, PortNo, Proto};
use kp_draws::probability_text;
use kp_print::{push, push_address, push_endpoint, push_labelled};
use kp_types::{ChainName, Match, Rule, Target};

/// Adds the line of a rule of a chain, without its end. The words are those of iptables(8) and
/// iptables-extensions(8), with one space between them; addresses have their prefix length.
pub fn push_rule(line: &mut String, chain: &ChainName, rule: &Rule) -> Result<(), NoMemory>
    ensures added { OnOk result (string_bytes line.new
        ≡ string_bytes line.old ++ spec.rule_line chain.now rule.now) }
    ensures front { OnErr result (HasFront line.new line.old) }
{
    push(line, "-A ")?;
    push(line, chain.as_str())?;
    push(line, " ")?;
    push_matches(line, rule.matches.as_slice())?;
    push_target(line, &rule.target)
}

/// Adds matches, each with a space behind it.
fn push_matches(line: &mut String, matches: &[Match]) -> Result<(), NoMemory>
    ensures added { OnOk result (string_bytes line.new
        ≡ string_bytes line.old ++ flat_map lines.match_text matches.now) }
    ensures front { OnErr result (HasFront line.new line.old) }
{
    for matched in matches {
        push_match(line, matched)?;
    }
    Ok(())
}

/// Adds a match, with a space behind it.
fn push_match(line: &mut String, matched: &Match) -> Result<(), NoMemory>
    ensures added { OnOk result (string_bytes line.new
        ≡ string_bytes line.old ++ lines.match_text matched.now) }
    ensures front { OnErr result (HasFront line.new line.old) }
{
    match matched {
        Match::Src { range, not } => push_range(line, *not, "-s", range),
        Match::Dst { range, not } => push_range(line, *not, "-d", range),
        Match::Proto { proto } => push(line, proto_words(*proto)),
        Match::Port { proto, port } => push_port(line, *proto, *port),
        Match::SrcLocal => push(line, "-m addrtype --src-type LOCAL "),
        Match::DstLocal => push(line, "-m addrtype --dst-type LOCAL "),
        Match::Marked { not } => push_mark(line, *not),
        Match::Statistic { p } => push_statistic(line, *p),
        Match::Seen { list, seconds } => push_seen(line, list, *seconds),
        Match::SetSeen { list } => push_set(line, list),
    }
}

/// Adds a match of a source or a destination.
fn push_range(line: &mut String, not: bool, option: &str, range: &Cidr) -> Result<(), NoMemory>
    ensures added { OnOk result (string_bytes line.new ≡ string_bytes line.old
        ++ lines.spaced (spec.not_words not ++ option.now ∷ spec.range_text range.now ∷ [])) }
    ensures front { OnErr result (HasFront line.new line.old) }
{
    push_not(line, not)?;
    push(line, option)?;
    push(line, " ")?;
    push_prefix(line, range)?;
    push(line, " ")
}

/// Adds a range: its first address and its prefix length.
fn push_prefix(line: &mut String, range: &Cidr) -> Result<(), NoMemory>
    ensures added { OnOk result (string_bytes line.new
        ≡ string_bytes line.old ++ spec.range_text range.now) }
    ensures front { OnErr result (HasFront line.new line.old) }
{
    push_address(line, &range.base())?;
    push_labelled(line, "/", range.bits() as u64)
}

/// Adds the word before a match that is negated.
fn push_not(line: &mut String, not: bool) -> Result<(), NoMemory>
    ensures added { OnOk result (string_bytes line.new
        ≡ string_bytes line.old ++ lines.spaced (spec.not_words not)) }
    ensures front { OnErr result (HasFront line.new line.old) }
{
    if not {
        push(line, "! ")?;
    }
    Ok(())
}

/// A match of a protocol.
fn proto_words(proto: Proto) -> &'static str
    ensures { result.now ≡ lines.match_text (match.Proto proto) }
{
    match proto {
        Proto::Tcp => "-p tcp ",
        Proto::Udp => "-p udp ",
        Proto::Sctp => "-p sctp ",
    }
}

/// What stands before a port.
fn port_words(proto: Proto) -> &'static str
    ensures { result.now ≡ lines.match_text (match.Proto proto) ++ reading.port_words proto }
{
    match proto {
        Proto::Tcp => "-p tcp -m tcp --dport ",
        Proto::Udp => "-p udp -m udp --dport ",
        Proto::Sctp => "-p sctp -m sctp --dport ",
    }
}

fn push_port(line: &mut String, proto: Proto, port: PortNo) -> Result<(), NoMemory>
    ensures added { OnOk result (string_bytes line.new
        ≡ string_bytes line.old ++ lines.match_text (match.Port proto port)) }
    ensures front { OnErr result (HasFront line.new line.old) }
{
    push_labelled(line, port_words(proto), port.get() as u64)?;
    push(line, " ")
}

fn push_mark(line: &mut String, not: bool) -> Result<(), NoMemory>
    ensures added { OnOk result (string_bytes line.new
        ≡ string_bytes line.old ++ lines.match_text (match.Marked not)) }
    ensures front { OnErr result (HasFront line.new line.old) }
{
    push(line, "-m mark ")?;
    push_not(line, not)?;
    push(line, "--mark 0x4000/0x4000 ")
}

fn push_statistic(line: &mut String, p: u64) -> Result<(), NoMemory>
    ensures added { OnOk result (string_bytes line.new
        ≡ string_bytes line.old ++ lines.match_text (match.Statistic p)) }
    ensures front { OnErr result (HasFront line.new line.old) }
{
    push(line, "-m statistic --mode random --probability ")?;
    push(line, probability_text(p).as_str())?;
    push(line, " ")
}

fn push_seen(line: &mut String, list: &ChainName, seconds: u32) -> Result<(), NoMemory>
    ensures added { OnOk result (string_bytes line.new
        ≡ string_bytes line.old ++ lines.match_text (match.Seen list.now seconds)) }
    ensures front { OnErr result (HasFront line.new line.old) }
{
    push(line, "-m recent --name ")?;
    push(line, list.as_str())?;
    push_labelled(line, " --rcheck --seconds ", seconds as u64)?;
    push(line, " --reap ")
}

fn push_set(line: &mut String, list: &ChainName) -> Result<(), NoMemory>
    ensures added { OnOk result (string_bytes line.new
        ≡ string_bytes line.old ++ lines.match_text (match.SetSeen list.now)) }
    ensures front { OnErr result (HasFront line.new line.old) }
{
    push(line, "-m recent --name ")?;
    push(line, list.as_str())?;
    push(line, " --set ")
}

/// Adds a target, which ends the line.
fn push_target(line: &mut String, target: &Target) -> Result<(), NoMemory>
    ensures added { OnOk result (string_bytes line.new
        ≡ string_bytes line.old ++ lines.target_text target.now) }
    ensures front { OnErr result (HasFront line.new line.old) }
{
    match target {
        Target::Jump(chain) => push_jump(line, chain.as_str()),
        Target::Return => push_jump(line, "RETURN"),
        Target::Accept => push_jump(line, "ACCEPT"),
        Target::Drop => push_jump(line, "DROP"),
        Target::Reject => push_jump(line, "REJECT"),
        Target::SetMark => push_jump(line, "MARK --or-mark 0x4000"),
        Target::FlipMark => push_jump(line, "MARK --xor-mark 0x4000"),
        Target::Dnat(endpoint) => push_dnat(line, endpoint),
        Target::Masquerade => push_jump(line, "MASQUERADE"),
    }
}

/// Adds a target of these words.
fn push_jump(line: &mut String, words: &str) -> Result<(), NoMemory>
    ensures added { OnOk result (string_bytes line.new
        ≡ string_bytes line.old ++ (codes "-j " ++ words.now)) }
    ensures front { OnErr result (HasFront line.new line.old) }
{
    push(line, "-j ")?;
    push(line, words)
}

/// Adds the target that changes the destination.
fn push_dnat(line: &mut String, endpoint: &Endpoint) -> Result<(), NoMemory>
    ensures added { OnOk result (string_bytes line.new
        ≡ string_bytes line.old ++ lines.target_text (target.Dnat endpoint.now)) }
    ensures front { OnErr result (HasFront line.new line.old) }
{
    push_jump(line, "DNAT --to-destination ")?;
    push_endpoint(line, endpoint)
}
