//! Names of chains.
ghost use Rattle.std.specs.Prelude.{◌≡◌, ◌≤◌, ◌++◌, true, take};
ghost use Rattle.kp_choice_defs.specs.Names as spec;
ghost use Rattle.kp_choice_defs.specs.Names.{base32};
ghost use Rattle.kp_names.specs.Prefix.{is_name_prefix};

use crate::base32::push_quantum;
use crate::text::{feed_endpoint, feed_port};
use arrayvec::ArrayString;
use kp_base::{Endpoint, PortKey};
use kp_types::{ChainKey, ChainName, PortChain};
use sha2::{Digest, Sha256};
use std::marker::Model;

/// Names chains with so many characters of a hash.
#[derive(Clone, Copy, Debug, PartialEq, Eq)]
pub struct Namer {
    length: u8,
}

impl Model for Namer {
    ghost use Rattle.std.specs.Prelude.{ℕ, ◌≤◌};

    ghost Value = { ℕ };

    ghost view = { λ n. n.length };

    ghost invariant = { λ n. n.length ≤ 16 };

    ghost inverse = { λ n. record { length = n } };
}

impl Namer {
    /// A namer that takes so many characters, 0 to 16. kube-proxy takes 16.
    pub fn new(length: u8) -> Namer
        requires { length ≤ 16 }
        ensures { result ≡ length }
    {
        Namer { length }
    }

    /// The name of a Service port's chain of this kind: its prefix, and the first characters of
    /// the base 32 (RFC 4648) of the SHA-256 of `namespace/name:port` and the protocol in lower
    /// case. It takes no memory.
    pub fn port_chain_name(&self, kind: PortChain, port: &PortKey) -> ChainName
        ensures { result ≡ spec.port_chain_name self.now kind port.now }
    {
        let mut hasher = Sha256::new();
        feed_port(&mut hasher, port);
        name(prefix(kind), &hasher.finalize(), self.length)
    }

    /// The name of the chain of an endpoint of a Service port. The text that is hashed ends in
    /// `address:port`. It takes no memory.
    pub fn endpoint_chain_name(&self, port: &PortKey, endpoint: &Endpoint) -> ChainName
        ensures { result ≡ spec.endpoint_chain_name self.now port.now endpoint.now }
    {
        let mut hasher = Sha256::new();
        feed_port(&mut hasher, port);
        feed_endpoint(&mut hasher, endpoint);
        name("KUBE-SEP-", &hasher.finalize(), self.length)
    }

    /// The name of the chain that is for this key.
    pub fn chain_name(&self, key: &ChainKey) -> ChainName
        ensures { result ≡ spec.chain_name self.now key.now }
    {
        match key {
            ChainKey::Port { kind, port } => self.port_chain_name(*kind, port),
            ChainKey::Sep { port, endpoint } => self.endpoint_chain_name(port, endpoint),
        }
    }
}

/// What the name of a Service port's chain of this kind begins with.
fn prefix(kind: PortChain) -> &'static str
    ensures value { result.now ≡ spec.port_chain_prefix kind }
    ensures fit { is_name_prefix result.now ≡ true }
{
    match kind {
        PortChain::Svc => "KUBE-SVC-",
        PortChain::Svl => "KUBE-SVL-",
        PortChain::Ext => "KUBE-EXT-",
        PortChain::Fw => "KUBE-FW-",
    }
}

/// The name of a prefix and the first characters of a digest.
fn name(prefix: &str, digest: &[u8; 32], length: u8) -> ChainName
    requires fit { is_name_prefix prefix.now ≡ true }
    requires length { length ≤ 16 }
    ensures { result ≡ prefix.now ++ take length (base32 digest.now) }
{
    let mut text = ArrayString::new();
    text.push_str(prefix);
    let first = length.min(8);
    push_quantum(&mut text, digest, 0, first);
    push_quantum(&mut text, digest, 5, length - first);
    ChainName::new(text.as_str())
}
