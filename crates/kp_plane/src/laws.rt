//! Why the walk of a plane's table is the decision on its objects, and that a plane may go from
//! thread to thread.
ghost use Rattle.kp_walk_laws.specs.Laws.{ProductDecides};

use crate::plane::Plane;

/// Walking the full table of any objects without a clash gives each packet the verdict that the
/// objects give it, and leaves the recent lists that they leave, whatever its draws.
pub fn walk_decides()
    ensures { ProductDecides }
{
    kp_walk_laws::product_decides();
}

/// A plane may be sent to a thread, so that a lock may hold one.
pub fn planes_are_sent() {
    is_sent::<Plane>();
}

/// Takes a type whose values may be sent.
fn is_sent<T: Send>() {}
