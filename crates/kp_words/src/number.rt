//! Numbers in the words.
ghost use Rattle.std.specs.Prelude.{◌≡◌, true};
ghost use Rattle.std.specs.List.{list_all};
ghost use Rattle.std.specs.Str.Parse.{digits_value};
ghost use Rattle.kp_words.specs.Words as spec;

/// The number of a word, where it is one between these two.
pub(crate) fn number_of(least: u64, most: u64, word: &str) -> Option<u64>
    ensures { result ≡ spec.number_of least most word.now }
{
    if is_number(word.as_bytes()) {
        number_within(least, most, word)
    } else {
        None
    }
}

fn number_within(least: u64, most: u64, word: &str) -> Option<u64>
    requires { spec.is_number word.now ≡ true }
    ensures { result ≡ spec.within least most (digits_value 10 word.now) }
{
    match word.parse::<u64>() {
        Ok(number) => within(least, most, number),
        Err(_) => None,
    }
}

fn within(least: u64, most: u64, number: u64) -> Option<u64>
    ensures { result ≡ spec.within least most number }
{
    if least <= number && number <= most {
        Some(number)
    } else {
        None
    }
}

/// Whether these are 1 to 20 decimal digits.
fn is_number(word: &[u8]) -> bool
    ensures { result ≡ spec.is_number word.now }
{
    is_number_length(word.len()) && are_digits(word)
}

fn is_number_length(length: usize) -> bool
    ensures { result ≡ spec.is_number_length length }
{
    1 <= length && length <= 20
}

fn are_digits(word: &[u8]) -> bool
    ensures { result ≡ list_all spec.is_digit word.now }
{
    word.iter().all(|byte| is_digit(*byte))
}

fn is_digit(byte: u8) -> bool
    ensures { result ≡ spec.is_digit byte }
{
    b'0' <= byte && byte <= b'9'
}
