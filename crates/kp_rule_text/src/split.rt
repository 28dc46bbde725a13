//! Texts that are cut at the front.
ghost use Rattle.std.specs.Prelude.{◌≡◌, option_map};
ghost use Rattle.kp_rule_text.specs.WordReading as spec;

/// What stands behind a text at the front, if it stands there.
pub(crate) fn strip<'a>(text: &'a [u8], front: &[u8]) -> Option<&'a [u8]>
    ensures { option_map (λ rest. rest.now) result ≡ spec.strip front.now text.now }
{
    text.strip_prefix(front)
}
