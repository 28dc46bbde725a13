//! Targets are read.
ghost use Rattle.std.specs.Prelude.{◌≡◌};
ghost use Rattle.kp_rule_text.specs.Reading as spec;

use crate::split::strip;
use crate::word::{endpoint_word, name_word};
use kp_base::Family;
use kp_types::Target;

/// The target that a text is.
pub(crate) fn read_target(family: Family, text: &[u8]) -> Option<Target>
    ensures { result ≡ spec.target_of family text.now }
{
    let rest = strip(text, b"-j ")?;
    if let Some(target) = plain_target(rest) {
        return Some(target);
    }
    other_target(family, rest)
}

/// A target with nothing more.
fn plain_target(text: &[u8]) -> Option<Target>
    ensures { result ≡ spec.plain_target text.now }
{
    if text == b"RETURN".as_slice() {
        Some(Target::Return)
    } else if text == b"ACCEPT".as_slice() {
        Some(Target::Accept)
    } else if text == b"DROP".as_slice() {
        Some(Target::Drop)
    } else if text == b"REJECT".as_slice() {
        Some(Target::Reject)
    } else if text == b"MASQUERADE".as_slice() {
        Some(Target::Masquerade)
    } else if text == b"MARK --or-mark 0x4000".as_slice() {
        Some(Target::SetMark)
    } else if text == b"MARK --xor-mark 0x4000".as_slice() {
        Some(Target::FlipMark)
    } else {
        None
    }
}

/// A chain's name, or a destination.
fn other_target(family: Family, text: &[u8]) -> Option<Target>
    ensures { result ≡ spec.other_target family text.now }
{
    if let Some(word) = strip(text, b"DNAT --to-destination ") {
        return Some(Target::Dnat(endpoint_word(family, word)?));
    }
    Some(Target::Jump(name_word(text)?))
}
