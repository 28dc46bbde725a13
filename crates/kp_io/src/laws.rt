//! The limits, as numbers.
ghost use Rattle.std.specs.Prelude.{◌≡◌};
ghost use Rattle.kp_io.specs.declared.chunk.TheConstants.{BUFFER_SIZE};
ghost use Rattle.kp_io.specs.declared.next_line.TheConstants.{INPUT_LIMIT, LINE_LIMIT};

/// The input may have 4,294,967,296 bytes and a line 16,777,216, and a reader holds one buffer of
/// 65,536 besides its line.
pub fn limits_are_numbers()
    ensures input { INPUT_LIMIT ≡ 4294967296 }
    ensures line { LINE_LIMIT ≡ 16777216 }
    ensures buffer { BUFFER_SIZE ≡ 65536 }
{}
