//! How the traversal of a hook ends.
ghost use Rattle.std.specs.Prelude.{◌≡◌};

use kp_base::Endpoint;

/// What the rule that ended the traversal of a hook did.
#[derive(Clone, Copy, Debug, PartialEq, Eq)]
pub enum Ending {
    Accept,
    Drop,
    Reject,
    Dnat(Endpoint),
    Masquerade,
}
