//! What each family has that a node has tables of.
use kp_base::Family;

/// Something of each family that a node has tables of: of IPv4, and of IPv6 with dual stack.
#[derive(Drop)]
pub(crate) struct PerFamily<T> {
    pub(crate) four: T,
    pub(crate) six: Option<T>,
}

impl<T> PerFamily<T> {
    ghost use Rattle.std.specs.Prelude.{◌≡◌};
    ghost use Rattle.std.specs.Option.{option_copied};
    ghost use Rattle.kp_plane.specs.Families.{of_family};

    /// That of a family, if the node has tables of it.
    pub(crate) fn get(&self, family: Family) -> Option<&T>
        ensures { option_copied result ≡ of_family family self.now }
    {
        match family {
            Family::V4 => Some(&self.four),
            Family::V6 => self.six.as_ref(),
        }
    }
}
