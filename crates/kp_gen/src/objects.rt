//! Nodes and Services.
ghost use Rattle.std.specs.Prelude.{◌≡◌, ◌<◌, ◌++◌, OnErr, OnOk, string_bytes};
ghost use Rattle.kp_gen_defs.specs.Script as spec;
ghost use Rattle.kp_print.specs.Fronts.{HasFront};

use crate::pieces::push_all;
use itoa::Buffer;
use kp_base::{Address, NoMemory};
use kp_print::{AddressText, address_text};

/// The cluster address of the first Service, 10.96.0.1.
const FIRST_SERVICE: u32 = 0x0a60_0001;

/// Adds a Node.
pub(crate) fn push_node(text: &mut String, place: u64) -> Result<(), NoMemory>
    requires { place < 3 }
    ensures added { OnOk result (string_bytes text.new
        ≡ string_bytes text.old ++ spec.node_line place) }
    ensures front { OnErr result (HasFront text.new text.old) }
{
    let mut digits = Buffer::new();
    push_all(
        text,
        &[
            r#"{"apiVersion":"v1","kind":"Node","metadata":{"name":"n"#,
            digits.format(1 + place),
            r#"","labels":{"topology.kubernetes.io/zone":""#,
            zone(place),
            r#""}}}"#,
        ],
    )
}

/// The zone of a Node.
fn zone(place: u64) -> &'static str
    ensures { result.now ≡ spec.zone_text place }
{
    match place {
        0 => "a",
        1 => "b",
        _ => "c",
    }
}

/// Adds a Service.
pub(crate) fn push_service(text: &mut String, place: u64) -> Result<(), NoMemory>
    requires { place < 10000 }
    ensures added { OnOk result (string_bytes text.new
        ≡ string_bytes text.old ++ spec.service_line place) }
    ensures front { OnErr result (HasFront text.new text.old) }
{
    let address = service_address(place);
    let mut buffer = Buffer::new();
    let digits = buffer.format(place);
    push_all(
        text,
        &[
            r#"{"apiVersion":"v1","kind":"Service","metadata":{"name":"s"#,
            digits,
            r#""},"spec":{"clusterIP":""#,
            address.as_str(),
            r#"","ports":[{"port":80,"targetPort":8080}],"selector":{"app":"s"#,
            digits,
            r#""}"#,
            service_policy(place % 4),
            "}}",
        ],
    )
}

/// The cluster address of a Service.
pub(crate) fn service_address(place: u64) -> AddressText
    requires { place < 10000 }
    ensures { result.bytes ≡ spec.service_address place }
{
    address_text(&Address::v4(FIRST_SERVICE + place as u32))
}

/// What the second, third and fourth of four Services have beside their ports.
fn service_policy(place: u64) -> &'static str
    ensures { result.now ≡ spec.service_policy place }
{
    match place {
        1 => r#","sessionAffinity":"ClientIP""#,
        2 => r#","internalTrafficPolicy":"Local""#,
        3 => r#","trafficDistribution":"PreferClose""#,
        _ => "",
    }
}
