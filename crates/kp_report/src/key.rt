//! Objects, Service ports and chains by their names, and texts in quotes.
ghost use Rattle.std.specs.Prelude.{◌≡◌, ◌++◌, OnErr, OnOk, string_bytes};
ghost use Rattle.kp_choice_defs.specs.Names.{port_name_text};
ghost use Rattle.kp_text_defs.specs.Keys as spec;
ghost use Rattle.kp_types.specs.declared.chain.ChainKey.TheVariants.{Sep};
ghost use Rattle.kp_print.specs.Fronts.{HasFront};

use kp_base::{Endpoint, NoMemory, ObjectKey, PortKey, Proto};
use kp_print::{push, push_endpoint};
use kp_types::ChainKey;
use serde_json::Value;
use std::alloc::Global;

/// Adds a text as a JSON string (RFC 8259, 7), as `serde_json` writes it.
pub fn push_quoted(alloc: Global, text: &mut String, quoted: &str) -> Result<(), NoMemory>
    ensures added { OnOk result (string_bytes text.new
        ≡ string_bytes text.old ++ spec.json_text quoted.now) }
    ensures front { OnErr result (HasFront text.new text.old) }
{
    let value = Value::String(String::from_str(alloc, quoted)?);
    push(text, value.to_string(alloc)?.as_str())
}

/// A protocol as the Kubernetes API writes it.
pub(crate) fn proto_word(proto: Proto) -> &'static str
    ensures { result.now ≡ spec.proto_text proto }
{
    match proto {
        Proto::Sctp => "SCTP",
        Proto::Tcp => "TCP",
        Proto::Udp => "UDP",
    }
}

/// Adds an object: `namespace/name`.
pub fn push_object(text: &mut String, key: &ObjectKey) -> Result<(), NoMemory>
    ensures added { OnOk result (string_bytes text.new
        ≡ string_bytes text.old ++ spec.object_text key.now) }
    ensures front { OnErr result (HasFront text.new text.old) }
{
    push(text, key.namespace.as_str())?;
    push(text, "/")?;
    push(text, key.name.as_str())
}

/// Adds a Service port.
pub fn push_port(text: &mut String, port: &PortKey) -> Result<(), NoMemory>
    ensures added { OnOk result (string_bytes text.new
        ≡ string_bytes text.old ++ spec.port_text port.now) }
    ensures front { OnErr result (HasFront text.new text.old) }
{
    push_object(text, &port.object)?;
    push_port_name(text, port.port_name.as_str())?;
    push(text, "/")?;
    push(text, proto_word(port.proto))
}

/// Adds a colon and the name of a port, if it has one.
fn push_port_name(text: &mut String, name: &str) -> Result<(), NoMemory>
    ensures added { OnOk result (string_bytes text.new
        ≡ string_bytes text.old ++ port_name_text name.now) }
    ensures front { OnErr result (HasFront text.new text.old) }
{
    if name.is_empty() {
        return Ok(());
    }
    push(text, ":")?;
    push(text, name)
}

/// Adds what a chain is for.
pub(crate) fn push_chain_key(text: &mut String, key: &ChainKey) -> Result<(), NoMemory>
    ensures added { OnOk result (string_bytes text.new
        ≡ string_bytes text.old ++ spec.chain_key_text key.now) }
    ensures front { OnErr result (HasFront text.new text.old) }
{
    match key {
        ChainKey::Port { kind: _, port } => push_port(text, port),
        ChainKey::Sep { port, endpoint } => push_endpoint_key(text, port, endpoint),
    }
}

fn push_endpoint_key(text: &mut String, port: &PortKey, endpoint: &Endpoint) -> Result<(), NoMemory>
    ensures added { OnOk result (string_bytes text.new
        ≡ string_bytes text.old ++ spec.chain_key_text (Sep port.now endpoint.now)) }
    ensures front { OnErr result (HasFront text.new text.old) }
{
    push_port(text, port)?;
    push(text, " ")?;
    push_endpoint(text, endpoint)
}
