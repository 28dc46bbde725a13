//! Rules, made of their matches and their target.
ghost use Rattle.std.specs.Prelude.{◌≡◌, ◌∷◌, ◌++◌, [], false, map, OnOk};
ghost use Rattle.kp_base.specs.Net.{single_range};
ghost use Rattle.kp_types.specs.Rules.{rule_of};
ghost use Rattle.kp_types.specs.declared.rule.Match.TheVariants as match;
ghost use Rattle.kp_types.specs.declared.rule.Target.TheVariants as target;
ghost use Rattle.kp_table_defs.specs.Layout as layout;

use arrayvec::ArrayVec;
use kp_base::{Address, Cidr, NoMemory};
use kp_types::{ChainName, Match, PortInfo, Rule, Target};

/// A rule for all packets.
pub fn rule0(target: Target) -> Rule
    ensures { result ≡ rule_of [] target }
{
    Rule::of(ArrayVec::new(), target)
}

/// A rule with one match.
pub fn rule1(first: Match, target: Target) -> Rule
    ensures { result ≡ rule_of (first ∷ []) target }
{
    let mut matches = ArrayVec::new();
    matches.push(first);
    Rule::of(matches, target)
}

/// A rule with two matches.
pub fn rule2(first: Match, second: Match, target: Target) -> Rule
    ensures { result ≡ rule_of (first ∷ second ∷ []) target }
{
    let mut matches = ArrayVec::new();
    matches.push(first);
    matches.push(second);
    Rule::of(matches, target)
}

/// A rule with three matches.
pub fn rule3(first: Match, second: Match, third: Match, target: Target) -> Rule
    ensures { result ≡ rule_of (first ∷ second ∷ third ∷ []) target }
{
    let mut matches = ArrayVec::new();
    matches.push(first);
    matches.push(second);
    matches.push(third);
    Rule::of(matches, target)
}

/// A jump for all packets.
pub fn jump(chain: ChainName) -> Rule
    ensures { result ≡ layout.jump_to chain }
{
    rule0(Target::Jump(chain))
}

/// The jump to the chain that marks packets for masquerading.
pub fn mark() -> Target
    ensures { result ≡ target.Jump layout.mark_masq }
{
    Target::Jump(ChainName::new("KUBE-MARK-MASQ"))
}

/// The packets to an address.
pub fn to_address(address: &Address) -> Match
    ensures { result ≡ match.Dst (single_range address.now) false }
{
    Match::Dst {
        range: Cidr::single(*address),
        not: false,
    }
}

/// The packets to the port's number.
pub fn to_port(info: &PortInfo) -> Match
    ensures { result ≡ match.Port info.now.key.proto info.now.number }
{
    Match::Port {
        proto: info.key.proto,
        port: info.number,
    }
}

/// A rule for the packets to an address of a port.
pub fn rule_at(info: &PortInfo, target: Target, address: &Address) -> Rule
    ensures { result ≡ layout.rule_at info.now target address.now }
{
    rule2(to_address(address), to_port(info), target)
}

/// Adds such a rule for each of some addresses.
pub fn add_rules_at(
    rules: &mut Vec<Rule>,
    info: &PortInfo,
    target: &Target,
    addresses: &[Address],
) -> Result<(), NoMemory>
    ensures { OnOk result (rules.new.items
        ≡ rules.old.items ++ map (layout.rule_at info.now target.now) addresses.now) }
{
    for address in addresses {
        rules.push(rule_at(info, target.same(), address))?;
    }
    Ok(())
}
