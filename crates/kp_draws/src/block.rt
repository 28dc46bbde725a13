//! Words of ChaCha8 (RFC 8439, 2.3), each from the one block that has it. A generator makes four
//! blocks at a time, of which a draw would take a single word.
ghost use Rattle.std.specs.Prelude.{◌≡◌, ◌%◌, ◌/◌, ◌^◌};
ghost use Rattle.rand_chacha.specs.Block as block;
ghost use Rattle.rand_chacha.specs.ChaCha as spec;

use rand_core::utils::read_u32;

/// The double rounds of ChaCha8.
const DOUBLE_ROUNDS: u32 = 4;

/// The key of a seed of 32 bytes.
pub(crate) fn key_of(seed: &[u8; 32]) -> [u32; 8]
    ensures { result ≡ spec.key_of seed.now }
{
    [
        read_u32(seed, 0),
        read_u32(seed, 1),
        read_u32(seed, 2),
        read_u32(seed, 3),
        read_u32(seed, 4),
        read_u32(seed, 5),
        read_u32(seed, 6),
        read_u32(seed, 7),
    ]
}

/// The word at a place of a key's stream.
pub(crate) fn word_at(key: &[u32; 8], stream: u64, place: u32) -> u32
    ensures { result ≡ spec.word_at 4 key.now stream place }
{
    let first = initial_state(key, (place / 16) as u64, stream);
    let mut words = first;
    for _round in 0..DOUBLE_ROUNDS {
        words = diagonal_round(column_round(words));
    }
    let k = (place % 16) as usize;
    words[k].wrapping_add(first[k])
}

/// The constants, the key, the block's number and the stream's.
fn initial_state(key: &[u32; 8], counter: u64, nonce: u64) -> [u32; 16]
    ensures { result ≡ block.initial_state key.now counter nonce }
{
    [
        0x6170_7865,
        0x3320_646e,
        0x7962_2d32,
        0x6b20_6574,
        key[0],
        key[1],
        key[2],
        key[3],
        key[4],
        key[5],
        key[6],
        key[7],
        low(counter),
        high(counter),
        low(nonce),
        high(nonce),
    ]
}

fn low(x: u64) -> u32
    ensures { result ≡ x % 2 ^ 32 }
{
    (x & 0xffff_ffff) as u32
}

fn high(x: u64) -> u32
    ensures { result ≡ x / 2 ^ 32 }
{
    (x >> 32) as u32
}

/// The quarter round on each column of four rows of four words.
fn column_round(words: [u32; 16]) -> [u32; 16]
    ensures { result ≡ block.column_round words }
{
    let [
        a0,
        a1,
        a2,
        a3,
        b0,
        b1,
        b2,
        b3,
        c0,
        c1,
        c2,
        c3,
        d0,
        d1,
        d2,
        d3,
    ] = words;
    let (a0, b0, c0, d0) = quarter_round(a0, b0, c0, d0);
    let (a1, b1, c1, d1) = quarter_round(a1, b1, c1, d1);
    let (a2, b2, c2, d2) = quarter_round(a2, b2, c2, d2);
    let (a3, b3, c3, d3) = quarter_round(a3, b3, c3, d3);
    [
        a0, a1, a2, a3, b0, b1, b2, b3, c0, c1, c2, c3, d0, d1, d2, d3,
    ]
}

/// The quarter round on each diagonal.
fn diagonal_round(words: [u32; 16]) -> [u32; 16]
    ensures { result ≡ block.diagonal_round words }
{
    let [
        a0,
        a1,
        a2,
        a3,
        b0,
        b1,
        b2,
        b3,
        c0,
        c1,
        c2,
        c3,
        d0,
        d1,
        d2,
        d3,
    ] = words;
    let (a0, b1, c2, d3) = quarter_round(a0, b1, c2, d3);
    let (a1, b2, c3, d0) = quarter_round(a1, b2, c3, d0);
    let (a2, b3, c0, d1) = quarter_round(a2, b3, c0, d1);
    let (a3, b0, c1, d2) = quarter_round(a3, b0, c1, d2);
    [
        a0, a1, a2, a3, b0, b1, b2, b3, c0, c1, c2, c3, d0, d1, d2, d3,
    ]
}

fn quarter_round(a: u32, b: u32, c: u32, d: u32) -> (u32, u32, u32, u32)
    ensures { result ≡ block.quarter_round a b c d }
{
    let a1 = a.wrapping_add(b);
    let d1 = (d ^ a1).rotate_left(16);
    let c1 = c.wrapping_add(d1);
    let b1 = (b ^ c1).rotate_left(12);
    let a2 = a1.wrapping_add(b1);
    let d2 = (d1 ^ a2).rotate_left(8);
    let c2 = c1.wrapping_add(d2);
    let b2 = (b1 ^ c2).rotate_left(7);
    (a2, b2, c2, d2)
}
