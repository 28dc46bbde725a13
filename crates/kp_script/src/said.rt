//! What lines say.
ghost use Rattle.std.specs.Prelude.{◌≡◌, IfOk};
ghost use Rattle.std.specs.Option.{option_copied};
ghost use Rattle.kp_text_defs.specs.SaidLines.{is_blank, is_blank_byte, said, said_of};
ghost use Rattle.kp_text_defs.specs.ScriptLines.{line_of};

use crate::fault::ScriptFault;
use crate::script::line_with;
use kp_base::NoMemory;
use kp_packet_lines::Scratch;
use kp_text_defs::{LineRefusal, Said};
use std::alloc::Global;

/// What a line says, of which nothing is given where it is longer than 16,777,216 bytes. It may be
/// the first of a script or a later one. The scratch is memory that is kept from line to line, as
/// `line_with` uses it.
pub fn said_by(
    alloc: Global,
    given: Option<&[u8]>,
    first: bool,
    scratch: &mut Scratch,
) -> Result<Said, NoMemory>
    ensures { IfOk result (λ says. says ≡ said (option_copied given.entry) first) }
{
    match given {
        None => Ok(Said::Refuses(LineRefusal::TooLongLine)),
        Some(bytes) if is_blank(bytes) => Ok(Said::Nothing),
        Some(bytes) => said_of(alloc, bytes, first, scratch),
    }
}

/// What a line says that is neither too long nor blank.
fn said_of(
    alloc: Global,
    bytes: &[u8],
    first: bool,
    scratch: &mut Scratch,
) -> Result<Said, NoMemory>
    ensures { IfOk result (λ says. says ≡ said_of (line_of bytes.now first)) }
{
    match line_with(alloc, bytes, first, scratch) {
        Ok(line) => Ok(Said::Asks(line)),
        Err(ScriptFault::Refused(refusal)) => Ok(Said::Refuses(refusal)),
        Err(ScriptFault::NoMemory(refused)) => Err(refused),
    }
}

/// Whether a line has only spaces, tabs and carriage returns.
fn is_blank(bytes: &[u8]) -> bool
    ensures { result ≡ is_blank bytes.now }
{
    bytes.iter().all(|byte: &u8| is_blank_byte(*byte))
}

fn is_blank_byte(byte: u8) -> bool
    ensures { result ≡ is_blank_byte byte }
{
    byte == b' ' || byte == b'\t' || byte == b'\r'
}
