//! What is written, piece by piece.
ghost use Rattle.std.specs.Prelude.{ℕ, List, OnOk, OnErr};
ghost use Rattle.kp_live.specs.Written.{Prints};

use crate::fault::LiveFault;
use kp_base::NoMemory;
use kp_io::{Sink, write_whole};

/// Writes a piece.
pub(crate) fn write<K: Sink>(sink: &mut K, bytes: &[u8]) -> Result<(), LiveFault>
    ensures { Prints result bytes.now (K.output sink.old) (K.output sink.new) }
{
    match write_whole(sink, bytes) {
        Ok(()) => Ok(()),
        Err(_) => Err(LiveFault::WriteFault),
    }
}

/// Writes a text, if there was the memory to make it.
pub(crate) fn write_made<K: Sink>(
    made: Result<(), NoMemory>,
    bytes: &[u8],
    sink: &mut K,
) -> Result<(), LiveFault>
    ensures made { OnOk made (Prints result bytes.now (K.output sink.old) (K.output sink.new)) }
    ensures unmade { OnErr made
        ((text : List ℕ) → Prints result text (K.output sink.old) (K.output sink.new)) }
{
    match made {
        Ok(()) => write(sink, bytes),
        Err(refused) => Err(LiveFault::NoMemory(refused)),
    }
}
