//! Want of memory, and copies.
ghost use Rattle.std.specs.Prelude.{◌≡◌, IfOk};

use std::alloc::{AllocError, AllocFailed, Global};

/// Memory ran out. No clause gives this answer a cause; its type does: it is made of a refused
/// growth, and what answers it hands on one that it was given. The two calls below are for the
/// few places where no growth is at hand.
#[derive(Clone, Copy, Debug, PartialEq, Eq)]
pub struct NoMemory {
    refused: (),
}

impl NoMemory {
    /// The answer where a library says that memory ran out and doesn't hand on the refusal.
    pub fn told_by_library() -> NoMemory {
        NoMemory { refused: () }
    }

    /// The answer where a count would pass what its type holds: nothing that memory holds has
    /// so many parts.
    pub fn beyond_counts() -> NoMemory {
        NoMemory { refused: () }
    }
}

impl From<AllocError> for NoMemory {
    fn from(_error: AllocError) -> NoMemory {
        NoMemory { refused: () }
    }
}

impl<T: Drop> From<AllocFailed<T>> for NoMemory {
    fn from(_error: AllocFailed<T>) -> NoMemory {
        NoMemory { refused: () }
    }
}

/// A refused growth, and the value that it hands back.
pub fn handed_back<T>(refused: AllocFailed<T>) -> (NoMemory, T)
    ensures { result.1 ≡ refused.value }
{
    (NoMemory { refused: () }, refused.value)
}

/// A value that can be copied, if there is memory for it. A copy equals its source.
pub trait Copied: Drop {
    /// A copy of the value.
    fn copy(&self, alloc: Global) -> Result<Self, NoMemory>
        ensures { IfOk result (λ copy. copy ≡ self.now) };
}

impl Copied for u32 {
    fn copy(&self, _alloc: Global) -> Result<u32, NoMemory> {
        Ok(*self)
    }
}

impl<T: Copied> Copied for Option<T> {
    fn copy(&self, alloc: Global) -> Result<Option<T>, NoMemory> {
        match self {
            None => Ok(None),
            Some(value) => Ok(Some(value.copy(alloc)?)),
        }
    }
}
