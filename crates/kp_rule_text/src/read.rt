//! Lines of rules are read.
ghost use Rattle.std.specs.Prelude.{◌≡◌, true, None, IfSome, option_map, List, ℕ};
ghost use Rattle.kp_types.specs.Chains.{is_chain_name};
ghost use Rattle.kp_types.specs.declared.rule.Rule as declared;
ghost use Rattle.kp_restore_defs.specs.RuleText.{rule_line, is_canonical_rule};
ghost use Rattle.kp_rule_text.specs.Reading as spec;

use crate::matches::next_match;
use crate::split::strip;
use crate::target::read_target;
use crate::word::name_word;
use arrayvec::ArrayVec;
use kp_base::{Family, split_once};
use kp_types::{ChainName, Match, Rule};

/// The chain and the rule whose line this is, if it is one: the words are those of iptables(8) and
/// iptables-extensions(8), with one space between them; addresses are of the family and have their
/// prefix length, those of IPv6 as RFC 5952 has them, numbers have no leading zeros, and there are
/// at most four matches. It takes no memory.
pub fn read_rule(family: Family, line: &[u8]) -> Option<(ChainName, Rule)>
    ensures chain { IfSome result (λ r. is_chain_name r.0 ≡ true) }
    ensures rule { IfSome result (λ r. is_canonical_rule family r.1 ≡ true) }
    ensures line { IfSome result (λ r. rule_line r.0 r.1 ≡ line.now) }
    ensures none { result ≡ None → (chain : List ℕ) (rule : declared.Rule)
        → is_chain_name chain ≡ true
        → is_canonical_rule family rule ≡ true → rule_line chain rule ≡ line.now → ⊥ }
{
    rule_of_line(family, line)
}

/// The chain and the rule of a line.
fn rule_of_line(family: Family, line: &[u8]) -> Option<(ChainName, Rule)>
    ensures { result ≡ spec.rule_of_line family line.now }
{
    let text = strip(line, b"-A ")?;
    let (word, rest) = split_once(text, b' ')?;
    let chain = name_word(word)?;
    let (matches, rest) = read_matches(family, rest);
    let target = read_target(family, rest)?;
    Some((chain, Rule::of(matches, target)))
}

/// The matches at the front, up to four, and what stands behind them.
fn read_matches(family: Family, text: &[u8]) -> (ArrayVec<Match, 4>, &[u8])
    ensures { (result.0.items, result.1.now) ≡ spec.matches_of family 4 text.now }
{
    let mut matches = ArrayVec::new();
    let mut rest = text;
    for _ in 0..4u8 {
        let Some((matched, behind)) = next_match(family, rest) else {
            return (matches, rest);
        };
        matches.push(matched);
        rest = behind;
    }
    (matches, rest)
}
