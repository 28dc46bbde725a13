//! Texts of pieces.
ghost use Rattle.std.specs.Prelude.{◌≡◌, ◌++◌, OnErr, OnOk, string_bytes};
ghost use Rattle.std.specs.List.{flat_map};
ghost use Rattle.kp_print.specs.Fronts.{HasFront};

use kp_base::NoMemory;

/// Adds pieces, one behind the other.
pub(crate) fn push_all(text: &mut String, pieces: &[&str]) -> Result<(), NoMemory>
    ensures added { OnOk result (string_bytes text.new
        ≡ string_bytes text.old ++ flat_map (λ piece. piece.now) pieces.now) }
    ensures front { OnErr result (HasFront text.new text.old) }
{
    for piece in pieces {
        text.push_str(piece)?;
    }
    Ok(())
}
