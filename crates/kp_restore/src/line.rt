//! The lines of restore text, each without its line feed (iptables-restore(8)).
ghost use Rattle.std.specs.Prelude.{◌≡◌, ◌++◌, List, ℕ, true, None, IfSome};
ghost use Rattle.kp_types.specs.Chains.{is_chain_name};
ghost use Rattle.kp_types.specs.declared.rule.Rule as rule_row;
ghost use Rattle.kp_restore_defs.specs.RuleText.{is_canonical_rule, rule_line};
ghost use Rattle.kp_restore.specs.declared.line.Line as line_row;
ghost use Rattle.kp_restore.specs.Lines.{is_canonical_line, line_text, IsFixed};

use kp_base::Family;
use kp_restore_text::{filter_of, nat_of};
use kp_rule_text::read_rule;
use kp_types::{ChainName, Rule, TableName};

/// A line of restore text.
#[derive(Drop)]
pub(crate) enum Line {
    /// `*table`: the first line of a section.
    Section(TableName),
    /// `:chain ACCEPT [0:0]`: a built-in chain.
    BuiltIn(ChainName),
    /// `:chain - [0:0]`: another chain.
    Declared(ChainName),
    /// `-A chain ..`: a rule of a chain.
    Ruled(ChainName, Rule),
    /// `-X chain`: a chain that is removed.
    Removed(ChainName),
    /// `COMMIT`: the last line of a section.
    Commit,
}

/// The line that these bytes write in a family's text, if they do.
pub(crate) fn read_line(family: Family, bytes: &[u8]) -> Option<Line>
    ensures canonical { IfSome result (λ line. is_canonical_line family line ≡ true) }
    ensures line { IfSome result (λ line. line_text line ≡ bytes.now) }
    ensures none { result ≡ None → (line : line_row.Line) → is_canonical_line family line ≡ true
        → line_text line ≡ bytes.now → ⊥ }
{
    if let Some((chain, rule)) = read_rule(family, bytes) {
        return Some(Line::Ruled(chain, rule));
    }
    if let Some(chain) = chain_between(bytes, b":", b" - [0:0]") {
        return Some(Line::Declared(chain));
    }
    if let Some(chain) = chain_between(bytes, b":", b" ACCEPT [0:0]") {
        return Some(Line::BuiltIn(chain));
    }
    if let Some(chain) = chain_between(bytes, b"-X ", b"") {
        return Some(Line::Removed(chain));
    }
    read_fixed(family, bytes)
}

/// The chain's name that stands between two texts, if one does.
fn chain_between(bytes: &[u8], front: &[u8], back: &[u8]) -> Option<ChainName>
    ensures name { IfSome result (λ chain. is_chain_name chain ≡ true) }
    ensures text { IfSome result (λ chain. front.now ++ (chain ++ back.now) ≡ bytes.now) }
    ensures none { result ≡ None → (chain : List ℕ) → is_chain_name chain ≡ true
        → front.now ++ (chain ++ back.now) ≡ bytes.now → ⊥ }
{
    ChainName::of(bytes.strip_prefix(front)?.strip_suffix(back)?)
}

/// The line with no name in it that these bytes write in a family's text, if they do.
fn read_fixed(family: Family, bytes: &[u8]) -> Option<Line>
    ensures canonical { IfSome result (λ line. is_canonical_line family line ≡ true) }
    ensures line { IfSome result (λ line. line_text line ≡ bytes.now) }
    ensures none { result ≡ None → (line : line_row.Line) → IsFixed line
        → line_text line ≡ bytes.now → ⊥ }
{
    if bytes == b"COMMIT".as_slice() {
        Some(Line::Commit)
    } else if bytes == b"*nat".as_slice() {
        Some(Line::Section(nat_of(family)))
    } else if bytes == b"*filter".as_slice() {
        Some(Line::Section(filter_of(family)))
    } else {
        None
    }
}
