//! When two entries of slices say the same.
ghost use Rattle.std.specs.Prelude.{◌≡◌, ◌&&◌, bytes_eq};
ghost use Rattle.std.specs.Cmp.Lexicographic.{pointwise};
ghost use Rattle.kp_object_defs.specs.Packing as spec;
ghost use Rattle.kp_object_defs.specs.Packing.{same_flag, same_object, same_option};
ghost use Rattle.kp_packer.specs.Views.{shown};

use kp_types::SliceEndpoint;

/// Whether two entries say the same.
pub fn same_entry(a: &SliceEndpoint, b: &SliceEndpoint) -> bool
    ensures { result ≡ spec.same_entry a.now b.now }
{
    a.address == b.address && same_conditions(a, b) && same_place(a, b)
}

/// Whether two entries have the same conditions.
fn same_conditions(a: &SliceEndpoint, b: &SliceEndpoint) -> bool
    ensures { result ≡ (same_flag a.now.ready b.now.ready
        && (same_flag a.now.serving b.now.serving
        && same_flag a.now.terminating b.now.terminating)) }
{
    a.ready == b.ready && (a.serving == b.serving && a.terminating == b.terminating)
}

/// Whether two entries have the same node, zone, hints and pod.
fn same_place(a: &SliceEndpoint, b: &SliceEndpoint) -> bool
    ensures { result ≡ (same_option bytes_eq a.now.node b.now.node
        && (same_option bytes_eq a.now.zone b.now.zone
        && (pointwise bytes_eq a.now.hints b.now.hints
        && same_option same_object a.now.pod b.now.pod))) }
{
    a.node == b.node
        && (a.zone == b.zone && (a.hints.as_slice() == b.hints.as_slice() && a.pod == b.pod))
}

/// Whether the entries of two lists say the same, one by one.
pub fn same_entries(before: &[SliceEndpoint], now: &[&SliceEndpoint]) -> bool
    ensures { result ≡ pointwise spec.same_entry before.now (shown now.now) }
{
    if before.len() != now.len() {
        return false;
    }
    for place in 0..now.len() {
        if !same_entry(&before[place], now[place]) {
            return false;
        }
    }
    true
}
