//! Words of ChaCha with 8 rounds, as draws of a seed.
use kp_draws::{DrawSource, draw_of_seed};
use std::test::*;

// The first two are of the key stream of ChaCha8 at an all-zero key and nonce. The others were
// computed by the quarter rounds of RFC 8439, 2.1, which give that document's own vector at 20
// rounds.
#[test]
fn draws_of_a_seed_are_words_of_chacha8(rt: HostRuntime) {
    assert_eq!(rt; draw_of_seed(0, 0, 0), 0x2fef_003e >> 1);
    assert_eq!(rt; draw_of_seed(0, 0, 1), 0xd640_5f89 >> 1);
    assert_eq!(rt; draw_of_seed(0x0102_0304_0506_0708, 3, 33), 708_865_263);
    assert_eq!(rt; draw_of_seed(u64::MAX, u64::MAX, u32::MAX), 1_257_760_904);
    let source = DrawSource::new(|number: u64, k: u32| draw_of_seed(7, number, k));
    assert_eq!(rt; source.draw(5, 40), 89_294_461);
}
