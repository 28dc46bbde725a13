//! Places of keys that have one name.

/// The places of the first key with a name, and of the first after it that is another key.
#[derive(Clone, Copy)]
pub struct Namesakes {
    pub first: usize,
    pub other: Option<usize>,
}
