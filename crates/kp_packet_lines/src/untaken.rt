//! Why a line, or a member of it, is not taken.
ghost use Rattle.std.specs.Prelude.{Some};
ghost use Rattle.kp_json.specs.Answers.{fault_at};
ghost use Rattle.kp_packet_lines.specs.Taken.{Refuses};

use kp_json::{BadField, PathText, Why};
use std::alloc::Global;

/// Why a line is not taken.
#[derive(Drop)]
pub enum Untaken {
    /// This member is the first that is at fault.
    Refused(BadField),
    /// The line is left to the reader of all lines.
    Unread,
}

/// The fault of the member of this name, unless memory runs out.
pub(crate) fn refused(alloc: Global, why: Why, name: &str) -> Untaken
    ensures { Refuses result (Some (fault_at why name.now)) }
{
    match PathText::of(alloc, name) {
        Ok(path) => Untaken::Refused(BadField {
            why,
            path,
            count: 0,
        }),
        Err(_) => Untaken::Unread,
    }
}
