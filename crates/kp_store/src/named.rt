//! What objects are found by.
ghost use Rattle.std.specs.Prelude.{◌≡◌, IfOk, Option, Some, option_copied};
ghost use Rattle.std.specs.Ordering.{eq_by_cmp};
ghost use Rattle.kp_base.specs.Keys.{key_cmp};
ghost use Rattle.kp_base.specs.declared.key.ObjectKey.{ObjectKey};
ghost use Rattle.kp_store.specs.Named.{is_name};

use kp_base::{Copied, NoMemory, ObjectKey, Text};
use std::alloc::Global;
use std::hash::Hash;

/// What an object of some kind is found by: its key, or a name that stands for a key.
pub trait Name: Eq + Hash + Copied {
    /// The key that a name stands for.
    ghost key_of: { Self → ObjectKey };

    /// The name that stands for a key, if one does.
    ghost name_of: { ObjectKey → Option Self };

    /// The name that stands for a key, if one does.
    fn of(key: &ObjectKey) -> Option<&Self>
        ensures { option_copied result ≡ name_of key.now };

    /// The key that the name stands for.
    fn key(&self, alloc: Global) -> Result<ObjectKey, NoMemory>
        ensures { IfOk result (λ k. k ≡ key_of self.now) };

    ghost own: { (name : Self) → name_of (key_of name) ≡ Some name };

    ghost one: { (key : ObjectKey) (name : Self) →
        eq_by_cmp key_cmp key (key_of name) ≡ is_name Self.eq (name_of key) name };
}

/// An object of a namespace is found by its key.
impl Name for ObjectKey {
    ghost use Rattle.std.specs.Prelude.{Some, refl};
    ghost use Rattle.std.proofs.Common.{sym};
    ghost use Rattle.kp_base.proofs.KeyOrder.{key_ties};

    ghost key_of = { λ key. key };

    ghost name_of = { λ key. Some key };

    ghost own = { λ name. refl };

    ghost one = { λ key name. sym (key_ties key name) };

    fn of(key: &ObjectKey) -> Option<&ObjectKey> {
        Some(key)
    }

    fn key(&self, alloc: Global) -> Result<ObjectKey, NoMemory> {
        self.copy(alloc)
    }
}

/// A node, which is in no namespace, is found by its name.
impl Name for Text {
    ghost use Rattle.std.specs.Prelude.{refl};
    ghost use Rattle.kp_object_defs.specs.Objects.{node_key};
    ghost use Rattle.kp_store.specs.Named.{node_name};
    ghost use Rattle.kp_store.specs.NodeNames.{node_ties};

    ghost key_of = { node_key };

    ghost name_of = { node_name };

    ghost own = { λ name. refl };

    ghost one = { node_ties };

    fn of(key: &ObjectKey) -> Option<&Text> {
        if key.namespace.as_str().is_empty() {
            Some(&key.name)
        } else {
            None
        }
    }

    fn key(&self, alloc: Global) -> Result<ObjectKey, NoMemory> {
        let namespace = Text::of(alloc, "")?;
        let name = self.copy(alloc)?;
        Ok(ObjectKey { namespace, name })
    }
}
