//! Pods, and their deletes.
ghost use Rattle.std.specs.Prelude.{◌≡◌, ◌<◌, ◌++◌, OnErr, OnOk, string_bytes};
ghost use Rattle.kp_gen_defs.specs.Script as spec;
ghost use Rattle.kp_print.specs.Fronts.{HasFront};

use crate::pieces::push_all;
use itoa::Buffer;
use kp_base::{Address, NoMemory};
use kp_gen_defs::ScriptPlan;
use kp_print::{AddressText, address_text};
use rand_chacha::ChaCha8Rng;
use rand_core::SeedableRng;
use rand_core::utils::NextWord;

/// The address of the first Pod, 10.244.0.1.
const FIRST_POD: u32 = 0x0af4_0001;

/// Adds a Pod, of which the words of the seed choose the Service, the Node, and whether it is
/// ready.
pub(crate) fn push_pod(text: &mut String, plan: ScriptPlan, place: u64) -> Result<(), NoMemory>
    requires some { 0 < plan.services }
    requires few { place < 60000 }
    ensures added { OnOk result (string_bytes text.new
        ≡ string_bytes text.old ++ spec.pod_line plan place) }
    ensures front { OnErr result (HasFront text.new text.old) }
{
    let service = word(plan.seed, 3 * place) as u64 % plan.services;
    let node = word(plan.seed, 3 * place + 1) as u64 % 3;
    let ready = word(plan.seed, 3 * place + 2) % 8 != 0;
    push_placed_pod(text, place, service, node, ready)
}

/// The word of a seed at a place of its stream 0.
fn word(seed: u64, place: u64) -> u32
    ensures { result ≡ spec.word_of seed place }
{
    let mut key = [0; 32];
    key[..8].copy_from_slice(&seed.to_le_bytes());
    let mut words = ChaCha8Rng::from_seed(key);
    words.set_word_pos(place as u128);
    words.next_word()
}

/// Adds a Pod of a Service on a Node.
fn push_placed_pod(
    text: &mut String,
    place: u64,
    service: u64,
    node: u64,
    ready: bool,
) -> Result<(), NoMemory>
    requires few { place < 60000 }
    requires node { node < 3 }
    ensures added { OnOk result (string_bytes text.new
        ≡ string_bytes text.old ++ spec.placed_pod_line place service node ready) }
    ensures front { OnErr result (HasFront text.new text.old) }
{
    let address = pod_address(place);
    let mut digits = Buffer::new();
    let mut service_digits = Buffer::new();
    let mut node_digits = Buffer::new();
    push_all(
        text,
        &[
            r#"{"apiVersion":"v1","kind":"Pod","metadata":{"name":"p"#,
            digits.format(place),
            r#"","labels":{"app":"s"#,
            service_digits.format(service),
            r#""}},"spec":{"nodeName":"n"#,
            node_digits.format(1 + node),
            r#""},"status":{"phase":"Running","podIP":""#,
            address.as_str(),
            r#"","conditions":[{"type":"Ready","status":""#,
            status_word(ready),
            r#""}]}}"#,
        ],
    )
}

/// The address of a Pod.
fn pod_address(place: u64) -> AddressText
    requires { place < 60000 }
    ensures { result.bytes ≡ spec.pod_address place }
{
    address_text(&Address::v4(FIRST_POD + place as u32))
}

fn status_word(holds: bool) -> &'static str
    ensures { result.now ≡ spec.status_text holds }
{
    if holds { "True" } else { "False" }
}

/// Adds the delete of a Pod, as a watch tells it.
pub(crate) fn push_delete(text: &mut String, place: u64) -> Result<(), NoMemory>
    ensures added { OnOk result (string_bytes text.new
        ≡ string_bytes text.old ++ spec.delete_line place) }
    ensures front { OnErr result (HasFront text.new text.old) }
{
    let mut digits = Buffer::new();
    push_all(
        text,
        &[
            r#"{"type":"DELETED","object":{"apiVersion":"v1","kind":"Pod","metadata":{"name":"p"#,
            digits.format(place),
            r#""}}}"#,
        ],
    )
}
