//! Base 32 of RFC 4648.
ghost use Rattle.std.specs.Prelude.{◌≡◌, ◌++◌, ◌+◌, ◌<◌, ◌≤◌, ◌^◌, length, take};
ghost use Rattle.arrayvec.specs.ArrayString.{array_string_len};
ghost use Rattle.kp_choice_defs.specs.Names as spec;
ghost use Rattle.kp_names.specs.Quantum.{quantum_at, quantum_text_at};

use arrayvec::ArrayString;

/// The character for five bits.
fn base32_digit(bits: u8) -> char
    requires { bits < 32 }
    ensures value { result ≡ spec.base32_digit bits }
    ensures ascii { result < 128 }
{
    if bits < 26 {
        (b'A' + bits) as char
    } else {
        (b'2' + (bits - 26)) as char
    }
}

/// The number that five bytes are, the first the highest.
fn quantum(bytes: &[u8], at: usize) -> u64
    requires { at + 5 ≤ length bytes.now }
    ensures value { result ≡ quantum_at bytes.now at }
    ensures low { result < 2 ^ 40 }
{
    let high = (bytes[at] as u64 * 256 + bytes[at + 1] as u64) * 256 + bytes[at + 2] as u64;
    (high * 256 + bytes[at + 3] as u64) * 256 + bytes[at + 4] as u64
}

/// Appends the first characters of five bytes.
pub fn push_quantum(text: &mut ArrayString<28>, bytes: &[u8], at: usize, count: u8)
    requires bytes { at + 5 ≤ length bytes.now }
    requires count { count ≤ 8 }
    requires room { array_string_len text.old + count ≤ 28 }
    ensures { text.new.bytes ≡ text.old.bytes ++ take count (quantum_text_at bytes.now at) }
{
    let number = quantum(bytes, at);
    for place in 0..count {
        let bits = number / 32u64.pow(7 - place as u32) % 32;
        text.push(base32_digit(bits as u8));
    }
}
