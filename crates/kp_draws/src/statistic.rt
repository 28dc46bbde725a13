//! Probabilities, as a statistic rule prints them and as it compares them with a draw.
ghost use Rattle.std.specs.Prelude.{◌≡◌, ◌^◌, ◌<◌, ◌≤◌};
ghost use Rattle.kp_choice_defs.specs.Draws.{digit_at, probability_of, probability_text_of, threshold_of};

use arrayvec::ArrayString;

/// The probability of a certain match.
const CERTAIN: u64 = 10_000_000_000;

/// The places of the digits behind the dot.
const DECIMALS: [u32; 10] = [9, 8, 7, 6, 5, 4, 3, 2, 1, 0];

/// The probability 1/n, in parts of 10^10. A half rounds to the even number.
pub fn probability(n: u64) -> u64
    requires { 0 < n }
    ensures { result ≡ probability_of n }
{
    let quotient = CERTAIN / n;
    let twice_rest = 2 * (CERTAIN % n);
    if twice_rest < n || (twice_rest == n && quotient % 2 == 0) {
        quotient
    } else {
        quotient + 1
    }
}

/// The number that a draw must be below for a rule of this probability to match. A half rounds up.
pub fn threshold(p: u64) -> u32
    requires { p ≤ 10 ^ 10 }
    ensures { result ≡ threshold_of p }
{
    // 2^32 and 10^10 without their common factor 2^10, so that the sum stays below 2^64
    let rounded = (p * 4_194_304 + 9_765_625) / 19_531_250;
    rounded as u32
}

/// The probability as a rule prints it: a digit, a dot and ten digits. Digits above the first are
/// left out, which no probability has.
pub fn probability_text(p: u64) -> ArrayString<12>
    ensures { result.bytes ≡ probability_text_of p }
{
    let mut text = ArrayString::new();
    text.push(digit(p, 10));
    text.push('.');
    for place in DECIMALS {
        text.push(digit(p, place));
    }
    text
}

/// The digit at the place of this power of ten.
fn digit(p: u64, place: u32) -> char
    requires { place ≤ 10 }
    ensures value { result ≡ digit_at p place }
    ensures ascii { result < 128 }
{
    let digit = p / 10u64.pow(place) % 10;
    (b'0' + digit as u8) as char
}
