//! Trees of JSON texts.
ghost use Rattle.std.specs.Prelude.{◌≡◌, [], IfOk};
ghost use Rattle.serde_json.specs.Data.{Data};
ghost use Rattle.kp_json.specs.Trees.{ReadsAs};
ghost use Rattle.kp_json.specs.Views.{data_of, place_of};

use crate::fault::JsonFault;
use crate::path::Way;
use crate::spot::Spot;
use kp_base::NoMemory;
use serde_json::Value;
use std::alloc::Global;

/// The tree of a JSON text. Contracts see the data that it holds.
#[derive(Drop)]
pub struct Tree {
    value: Value,
}

/// Reads a JSON text of at most 127 levels.
pub fn read_tree(alloc: Global, bytes: &[u8]) -> Result<Tree, JsonFault>
    ensures ok { IfOk result (λ t. ReadsAs bytes.now (data_of t)) }
    ensures bad { result ≡ Err JsonFault.BadJson → (d : Data) → ReadsAs bytes.now d → ⊥ }
{
    // The error says that it was memory, and doesn't hold the refusal.
    match Value::from_slice(alloc, bytes) {
        Ok(value) => Ok(Tree { value }),
        Err(error) if error.is_memory() => Err(JsonFault::NoMemory(NoMemory::told_by_library())),
        Err(_) => Err(JsonFault::BadJson),
    }
}

impl Tree {
    /// The position of the whole value.
    pub fn root(&self) -> Spot<'_>
        ensures { place_of result ≡ record { value = data_of self.now; path = [] } }
    {
        Spot::new(&self.value, Way::Root)
    }
}
