//! Which pods a Service selects.
ghost use Rattle.std.specs.Prelude.{◌≡◌, ◌≤◌, ◌<◌, length, is_some, IfSome};
ghost use Rattle.std.specs.List.{list_all, list_any, position};
ghost use Rattle.kp_desired.specs.Labels.{is_label};
ghost use Rattle.kp_object_defs.specs.Desired as spec;

use kp_base::Pair;
use kp_types::{Pod, Service, ServiceKind};

/// Whether a Service selects a pod of its namespace. An empty selector selects none, nor does a
/// Service that is only another name.
pub fn selects(service: &Service, pod: &Pod) -> bool
    ensures { result ≡ spec.selects service.now pod.now }
{
    has_selector(service)
        && service.key.namespace == pod.key.namespace
        && has_labels(pod.labels.as_slice(), service.selector.as_slice())
}

/// Whether the controller makes slices for a Service.
fn has_selector(service: &Service) -> bool
    ensures { result ≡ spec.has_selector service.now }
{
    !service.selector.as_slice().is_empty() && service.kind != ServiceKind::ExternalName
}

/// Whether each term is among labels. Labels and selectors are read in byte order, so that the
/// look-up of a term starts behind the label of the term before.
fn has_labels(labels: &[Pair], terms: &[Pair]) -> bool
    ensures { result ≡ list_all (λ t. list_any (is_label t) labels.now) terms.now }
{
    let mut start = 0;
    for term in terms {
        match position_from(labels, start, term) {
            Some(index) => start = index + 1,
            None => return false,
        }
    }
    true
}

/// The index of a label, which is looked for from a start on and then before it.
fn position_from(labels: &[Pair], start: usize, term: &Pair) -> Option<usize>
    requires { start ≤ length labels.now }
    ensures found { is_some result ≡ list_any (is_label term.now) labels.now }
    ensures index { IfSome result (λ i. i < length labels.now) }
{
    let (before, after) = labels.split_at(start);
    match position_of(after, term) {
        Some(index) => Some(start + index),
        None => position_of(before, term),
    }
}

fn position_of(labels: &[Pair], term: &Pair) -> Option<usize>
    ensures { result ≡ position (is_label term.now) labels.now }
{
    labels
        .iter()
        .position(|label| label.key == term.key && label.value == term.value)
}
