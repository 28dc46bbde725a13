//! What may be tracked.
ghost use Rattle.std.specs.Prelude.{◌≡◌, ◌↔◌, Bool, true};
ghost use Rattle.std.specs.declared.cmp.Ordering.{Ordering};
ghost use Rattle.std.specs.Ordering.{eq_by_cmp};
ghost use Rattle.std.specs.Cmp.{IsTotalOrder};
ghost use Rattle.std.specs.FinMap.{IsAntisymmetric};

use kp_base::PortKey;
use kp_history_defs::same_info;
use kp_types::PortInfo;
use std::hash::Hash;

/// A key by which values are tracked.
pub trait Key: Ord + Hash + Drop {
    /// The order that contracts speak of.
    ghost order: { Self → Self → Ordering };

    /// It is total,
    ghost is_total: { IsTotalOrder order };

    /// only equal keys tie,
    ghost is_exact: { IsAntisymmetric order };

    /// maps sort by it,
    ghost sorts: { (a b : Self) → Self.cmp a b ≡ order a b };

    /// and what ties is equal.
    ghost ties: { (a b : Self) → Self.eq a b ≡ eq_by_cmp order a b };
}

/// The ports of Services.
impl Key for PortKey {
    ghost use Rattle.kp_base.specs.Keys.{port_key_cmp};
    ghost use Rattle.kp_base.proofs.KeyOrder.{port_key_total, port_key_exact};
    ghost use Rattle.kp_base.proofs.KeyOrder.{port_key_matches, port_key_ties};

    ghost order = { port_key_cmp };

    ghost is_total = { port_key_total };

    ghost is_exact = { port_key_exact };

    ghost sorts = { port_key_matches };

    ghost ties = { port_key_ties };
}

/// A value that is tracked.
pub trait Told: Drop {
    /// Whether two values are alike.
    ghost same: { Self → Self → Bool };

    /// Alike are exactly equal values.
    ghost tells: { (a b : Self) → (same a b ≡ true) ↔ (a ≡ b) };

    /// Whether the value is another.
    fn is_same(&self, other: &Self) -> bool
        ensures { result ≡ same self.now other.now };
}

/// What is known of ports.
impl Told for PortInfo {
    ghost use Rattle.kp_history_defs.specs.DirtyPorts.{same_info};
    ghost use Rattle.kp_info_laws.proofs.Infos.{infos_are_told};

    ghost same = { same_info };

    ghost tells = { infos_are_told };

    fn is_same(&self, other: &PortInfo) -> bool {
        same_info(self, other)
    }
}
