//! The names of streams.
ghost use Rattle.std.specs.Prelude.{◌≡◌, ◌<◌, ◌≤◌, ◌++◌, [], ◌∷◌, length};
ghost use Rattle.std.specs.Prelude.{not, nat_lt, IfOk, OnErr, OnOk};
ghost use Rattle.kp_run_defs.specs.LiveLines.{stream_at, stream_limit};

use kp_base::{Items, NoMemory, Text};
use std::alloc::Global;
use std::marker::Model;

/// As many streams as there may be.
const STREAM_LIMIT: usize = 64;

/// The names of at most 64 streams, in the order of their first lines.
#[derive(Drop)]
pub(crate) struct StreamNames {
    names: Items<Text>,
}

impl Model for StreamNames {
    ghost use Rattle.std.specs.Prelude.{ℕ, List, ◌≤◌, length};
    ghost use Rattle.kp_run_defs.specs.LiveLines.{stream_limit};

    ghost Value = { List (List ℕ) };

    ghost view = { λ s. s.names };

    ghost invariant = { λ s. length s.names ≤ stream_limit };
}

impl StreamNames {
    /// No stream.
    pub(crate) fn new(alloc: Global) -> StreamNames
        ensures { result ≡ [] }
    {
        StreamNames {
            names: Items::new(alloc),
        }
    }

    /// The names.
    pub(crate) fn as_slice(&self) -> &[Text]
        ensures names { result.now ≡ self.now }
        ensures few { length result.now ≤ stream_limit }
    {
        self.names.as_slice()
    }

    /// The place of the stream of this name, if there is one.
    pub(crate) fn place_of(&self, name: &str) -> Option<u32>
        ensures { result ≡ stream_at self.now name.now }
    {
        match position_of(self.names.as_slice(), name) {
            Some(place) => Some(place as u32),
            None => None,
        }
    }

    /// Whether there is no place for one more.
    pub(crate) fn is_full(&self) -> bool
        ensures { result ≡ not (nat_lt (length self.now) stream_limit) }
    {
        self.names.as_slice().len() >= STREAM_LIMIT
    }

    /// Adds a stream of this name, and answers its place.
    pub(crate) fn add(&mut self, alloc: Global, name: &str) -> Result<u32, NoMemory>
        requires { length self.old < stream_limit }
        ensures added { OnOk result (self.new ≡ self.old ++ name.now ∷ []) }
        ensures kept { OnErr result (self.new ≡ self.old) }
        ensures place { IfOk result (λ place. place ≡ length self.old) }
    {
        let place = self.names.as_slice().len() as u32;
        let name = Text::of(alloc, name)?;
        match self.names.push(name) {
            Ok(()) => Ok(place),
            Err((refused, _)) => Err(refused),
        }
    }
}

/// The place of a name in a list.
fn position_of(names: &[Text], name: &str) -> Option<usize>
    ensures { result ≡ stream_at names.now name.now }
{
    names.iter().position(|other| other.as_str() == name)
}
