//! Lists of small whole numbers.
ghost use Rattle.std.specs.Prelude.{◌<◌, ◌^◌, All};

use kp_base::Items;

/// Whole numbers of 31 bits.
#[derive(Drop)]
pub struct LowNumbers {
    pub numbers: Items<u32>,
    pub ghost low: { All (λ n. n < 2 ^ 31) numbers },
}
