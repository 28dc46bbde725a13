//! Refusals of script lines.
use kp_base::Text;
use kp_json::BadField;
use kp_types::Clash;

/// Why a line is refused.
#[derive(Drop)]
pub enum LineRefusal {
    /// The bytes are no JSON text, or nest deeper than 127 levels.
    BadJson,
    /// The value is no object, or an object that is no event.
    NotEvent,
    /// An object of another kind, or of another version of its kind.
    UnsupportedKind { kind: Text },
    /// A member is refused.
    Bad(BadField),
    /// The command has this other name.
    UnknownOp { op: Text },
    /// A configuration stands behind the first line.
    ConfigLate,
    /// The line is longer than 16,777,216 bytes.
    TooLongLine,
    /// The line's events don't fit behind those accepted so far.
    JournalFull { count: u64 },
    /// Two chains that the tables need have one name.
    ChainClash(Clash),
    /// The command isn't there while streams run side by side.
    NotLive { op: Text },
    /// The line begins a 65th stream.
    StreamsFull,
}
