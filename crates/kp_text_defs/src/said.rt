//! What lines say.
use crate::line_refusal::LineRefusal;
use crate::script::ScriptLine;

/// What a line says.
#[derive(Drop)]
pub enum Said {
    /// The line is blank: it has spaces, tabs and carriage returns alone.
    Nothing,
    /// It was read, and asks for something.
    Asks(ScriptLine),
    /// It is refused, for this reason.
    Refuses(LineRefusal),
}
