//! The draws of packets that are timed.
ghost use Rattle.std.specs.Prelude.{◌≡◌};

/// The same for each packet and place, so that a figure has none of what draws cost.
pub fn draw(_number: u64, _k: u32) -> u32
    ensures { result ≡ 7 }
{
    7
}
