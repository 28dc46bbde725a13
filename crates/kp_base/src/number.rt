//! Decimal numbers of one byte, as they stand in dotted addresses and range lengths.
ghost use Rattle.std.specs.Prelude.{◌≡◌};
ghost use Rattle.kp_base.specs.Dotted as spec;

/// The number from 0 to `most` that the text writes in digits, with no leading zero.
pub fn decimal_up_to(most: u8, text: &[u8]) -> Option<u8>
    ensures { result ≡ spec.decimal_up_to most text.now }
{
    if text.is_empty() || has_leading_zero(text) {
        return None;
    }
    let mut number = 0u32;
    for byte in text {
        if !byte.is_ascii_digit() {
            return None;
        }
        number = number * 10 + (*byte - b'0') as u32;
        if number > most as u32 {
            return None;
        }
    }
    Some(number as u8)
}

/// Whether the text begins with a zero and has more behind it.
fn has_leading_zero(text: &[u8]) -> bool
    ensures { result ≡ spec.has_leading_zero text.now }
{
    text.len() > 1 && text[0] == b'0'
}
