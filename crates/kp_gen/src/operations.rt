//! The configuration, syncs and packets.
ghost use Rattle.std.specs.Prelude.{◌≡◌, ◌*◌, ◌<◌, ◌≤◌, ◌++◌, OnErr, OnOk, string_bytes};
ghost use Rattle.kp_gen_defs.specs.Script as spec;
ghost use Rattle.kp_print.specs.Fronts.{HasFront};

use crate::objects::service_address;
use crate::pieces::push_all;
use itoa::Buffer;
use kp_base::NoMemory;
use kp_gen_defs::ScriptPlan;
use kp_print::push;

/// Adds the configuration.
pub(crate) fn push_config(text: &mut String) -> Result<(), NoMemory>
    ensures added { OnOk result (string_bytes text.new ≡ string_bytes text.old ++ spec.config_line) }
    ensures front { OnErr result (HasFront text.new text.old) }
{
    push(
        text,
        r#"{"op":"config","node":"n1","nodeAddresses":["10.0.0.1"],"clusterCIDR":"10.244.0.0/16"}"#,
    )
}

/// Adds a sync.
pub(crate) fn push_sync(text: &mut String) -> Result<(), NoMemory>
    ensures added { OnOk result (string_bytes text.new ≡ string_bytes text.old ++ spec.sync_line) }
    ensures front { OnErr result (HasFront text.new text.old) }
{
    push(text, r#"{"op":"sync"}"#)
}

/// Adds the packet at a place, of four to each Service, from a moment on.
pub(crate) fn push_packet(
    text: &mut String,
    plan: ScriptPlan,
    since: u64,
    place: u64,
) -> Result<(), NoMemory>
    requires near { since ≤ 20000 }
    requires within { place < 4 * plan.services }
    requires few { plan.services ≤ 10000 }
    ensures added { OnOk result (string_bytes text.new
        ≡ string_bytes text.old ++ spec.packet_line plan since place) }
    ensures front { OnErr result (HasFront text.new text.old) }
{
    push_client(text, plan.seed, place / 4, place % 4, since + place % 4)
}

/// Adds a packet from a client to a Service, at a moment in seconds.
fn push_client(
    text: &mut String,
    seed: u64,
    service: u64,
    client: u64,
    now: u64,
) -> Result<(), NoMemory>
    requires few { service < 10000 }
    requires four { client < 4 }
    ensures added { OnOk result (string_bytes text.new
        ≡ string_bytes text.old ++ spec.client_line seed service client now) }
    ensures front { OnErr result (HasFront text.new text.old) }
{
    let address = service_address(service);
    let mut client_digits = Buffer::new();
    let mut seed_digits = Buffer::new();
    let mut now_digits = Buffer::new();
    push_all(
        text,
        &[
            r#"{"op":"packet","src":"10.244.255."#,
            client_digits.format(1 + client),
            r#"","dst":""#,
            address.as_str(),
            r#"","dport":80,"seed":"#,
            seed_digits.format(seed),
            r#","now":"#,
            now_digits.format(now),
            "}",
        ],
    )
}
