//! The texts that names of chains are hashes of.
ghost use Rattle.std.specs.Prelude.{◌≡◌, ℕ, List, ◌++◌};
ghost use Rattle.sha2.specs.Hashers.{Holds256};
ghost use Rattle.kp_choice_defs.specs.AddressText.{endpoint_text as text_of_endpoint};
ghost use Rattle.kp_choice_defs.specs.Names as spec;
ghost use Rattle.kp_choice_defs.specs.Names.{port_text};

use kp_base::{Endpoint, PortKey, Proto};
use kp_print::endpoint_text;
use sha2::{Digest, Sha256};

/// A protocol in lower case.
pub fn proto_text(proto: Proto) -> &'static str
    ensures { result.now ≡ spec.proto_text proto }
{
    match proto {
        Proto::Sctp => "sctp",
        Proto::Tcp => "tcp",
        Proto::Udp => "udp",
    }
}

/// Adds a Service port's text to what is hashed.
pub fn feed_port(hasher: &mut Sha256, port: &PortKey)
    ensures { (m : List ℕ) → Holds256 hasher.old m
        → Holds256 hasher.new (m ++ port_text port.now) }
{
    hasher.update(port.object.namespace.as_str().as_bytes());
    hasher.update(b"/");
    hasher.update(port.object.name.as_str().as_bytes());
    feed_port_name(hasher, port.port_name.as_str());
    hasher.update(proto_text(port.proto).as_bytes());
}

/// Adds a colon and the name of a port, if it has one.
fn feed_port_name(hasher: &mut Sha256, name: &str)
    ensures { (m : List ℕ) → Holds256 hasher.old m
        → Holds256 hasher.new (m ++ spec.port_name_text name.now) }
{
    if !name.is_empty() {
        hasher.update(b":");
        hasher.update(name.as_bytes());
    }
}

/// Adds an endpoint's text to what is hashed.
pub fn feed_endpoint(hasher: &mut Sha256, endpoint: &Endpoint)
    ensures { (m : List ℕ) → Holds256 hasher.old m
        → Holds256 hasher.new (m ++ text_of_endpoint endpoint.now) }
{
    hasher.update(endpoint_text(endpoint).as_str().as_bytes());
}
