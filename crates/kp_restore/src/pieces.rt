//! Texts that are cut behind each line feed.
ghost use Rattle.std.specs.Prelude.{◌≡◌, ◌∷◌, ◌++◌, ◌==◌, true, None, IfSome, position};
ghost use Rattle.std.specs.List.{list_all};
ghost use Rattle.kp_restore_text.specs.Pieces.{no_line_feed};

/// The first line, without its line feed, and what stands behind it, if a line is ended.
pub(crate) fn first_line(bytes: &[u8]) -> Option<(&[u8], &[u8])>
    ensures parts { IfSome result (λ p. bytes.now ≡ p.0.now ++ 10 ∷ p.1.now) }
    ensures line { IfSome result (λ p. no_line_feed p.0.now ≡ true) }
    ensures none { result ≡ None → no_line_feed bytes.now ≡ true }
{
    let at = line_feed(bytes)?;
    let (line, rest) = bytes.split_at(at);
    let (_, behind) = rest.split_at(1);
    Some((line, behind))
}

/// The first place of a line feed.
fn line_feed(bytes: &[u8]) -> Option<usize>
    ensures { result ≡ position (λ b. b == 10) bytes.now }
{
    bytes.iter().position(|b| *b == b'\n')
}
