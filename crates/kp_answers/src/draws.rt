//! The draws of a line's packet.
ghost use Rattle.std.specs.Prelude.{◌≡◌, ◌<◌, ◌^◌};
ghost use Rattle.kp_run_defs.specs.AnswerText.{draws_at};

use kp_draws::{draw_of_list, draw_of_seed};
use kp_text_defs::{Draws, PacketLine};

/// The draw at a place for the packet of the line of this number: that of the line's list, or that
/// of its seed, of which each line has a stream of its own.
pub fn draw_at(line: &PacketLine, number: u64, k: u32) -> u32
    ensures value { result ≡ draws_at number line.now.draws k }
    ensures low { result < 2 ^ 31 }
{
    match &line.draws {
        Draws::List(draws) => draw_of_list(draws.as_slice(), k),
        Draws::Seed(seed) => draw_of_seed(*seed, number, k),
    }
}
