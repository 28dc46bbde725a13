//! Names of chains, and what chains are for.
ghost use Rattle.std.specs.Prelude.{◌≡◌, true, IsSome, IfSome, ◌↔◌, IfOk, bytes_eq, Some, refl};
ghost use Rattle.std.specs.Ordering.{nat_cmp};
ghost use Rattle.std.specs.Cmp as Cmp;
ghost use Rattle.std.specs.Cmp.Lexicographic.{slice_cmp, nat_list_eq_equiv, nat_list_cmp_total, texts_ties, texts_po};
ghost use Rattle.std.specs.Cmp.Rules.{hashing};
ghost use Rattle.std.proofs.Common.{rules};
ghost use Rattle.std.specs.Hash as fed;
ghost use Rattle.std.specs.List.{list_all, list_any};
ghost use Rattle.kp_types.specs.Chains as Chains;
ghost use Rattle.kp_types.specs.Chains.{is_chain_name};
ghost use Rattle.kp_types.specs.Places as spec;
ghost use Rattle.kp_types.specs.Places.{family_of_table};

use arrayvec::ArrayString;
use kp_base::{Copied, Endpoint, Family, NoMemory, PortKey};
use std::alloc::Global;
use std::cmp::Ordering;
use std::hash::{Hash, Hasher};
use std::marker::Model;
use std::str;

/// A table of iptables or of ip6tables. The tables of IPv4 stand before those of IPv6, and the nat
/// table before the filter table.
#[derive(Clone, Copy, Debug, PartialEq, Eq, PartialOrd, Ord, Hash)]
pub enum TableName {
    Nat,
    Filter,
    Nat6,
    Filter6,
}

impl TableName {
    /// The family of the packets that pass the table.
    pub fn family(self) -> Family
        ensures { result ≡ family_of_table self }
    {
        match self {
            TableName::Nat | TableName::Filter => Family::V4,
            TableName::Nat6 | TableName::Filter6 => Family::V6,
        }
    }

    /// The nat table of a family.
    pub fn nat_of(family: Family) -> TableName
        ensures { result ≡ spec.nat_of family }
    {
        match family {
            Family::V4 => TableName::Nat,
            Family::V6 => TableName::Nat6,
        }
    }

    /// The filter table of a family.
    pub fn filter_of(family: Family) -> TableName
        ensures { result ≡ spec.filter_of family }
    {
        match family {
            Family::V4 => TableName::Filter,
            Family::V6 => TableName::Filter6,
        }
    }
}

/// The name of a chain or of a recent list: 1 to 28 letters, digits and dashes, and no word of a
/// target. Contracts see its bytes.
#[derive(Drop)]
pub struct ChainName {
    text: ArrayString<28>,
}

impl Model for ChainName {
    ghost use Rattle.std.specs.Prelude.{List, ℕ, ◌≡◌, true};
    ghost use Rattle.kp_types.specs.Chains.{is_chain_name};

    ghost Value = { List ℕ };

    ghost view = { λ n. n.text.bytes };

    ghost invariant = { λ n. is_chain_name n.text.bytes ≡ true };
}

impl ChainName {
    /// The name with this text.
    pub fn new(text: &str) -> ChainName
        requires { is_chain_name text.now ≡ true }
        ensures { result ≡ text.now }
    {
        let mut name = ArrayString::new();
        name.push_str(text);
        ChainName { text: name }
    }

    /// The name as a text.
    pub fn as_str(&self) -> &str
        ensures text { result.now ≡ self.now }
        ensures name { is_chain_name result.now ≡ true }
    {
        self.text.as_str()
    }

    /// The same name once more. It takes no memory.
    pub fn same(&self) -> ChainName
        ensures { result ≡ self.now }
    {
        ChainName { text: self.text }
    }
}

impl ChainName {
    /// The name that these bytes write, if they do.
    pub fn of(text: &[u8]) -> Option<ChainName>
        ensures valid { IsSome result ↔ (is_chain_name text.now ≡ true) }
        ensures value { IfSome result (λ n. n ≡ text.now) }
    {
        match str::from_utf8(text) {
            Ok(text) if is_name_of_chain(text) => Some(ChainName::new(text)),
            Ok(_) => None,
            Err(_) => None,
        }
    }
}

impl Copied for ChainName {
    fn copy(&self, _alloc: Global) -> Result<ChainName, NoMemory> {
        Ok(self.same())
    }
}

/// The default is a name like any other, for vectors that hold their room from the start.
impl Default for ChainName {
    fn default() -> ChainName {
        ChainName::new("INPUT")
    }
}

impl PartialEq for ChainName {
    ghost eq = { bytes_eq };

    ghost laws = { Cmp.partial_equiv_from_equiv nat_list_eq_equiv };

    fn eq(&self, other: &ChainName) -> bool {
        self.as_str() == other.as_str()
    }
}

impl Eq for ChainName {
    ghost laws = { nat_list_eq_equiv };
}

impl PartialOrd for ChainName {
    ghost partial_cmp = { λ x y. Some (slice_cmp nat_cmp x y) };

    ghost laws = { texts_po };

    fn partial_cmp(&self, other: &ChainName) -> Option<Ordering> {
        Some(self.as_str().cmp(&other.as_str()))
    }
}

impl Ord for ChainName {
    ghost cmp = { slice_cmp nat_cmp };

    ghost total = { nat_list_cmp_total };

    ghost matches_partial_cmp = { λ x y. refl };

    ghost matches_eq = { texts_ties };

    fn cmp(&self, other: &ChainName) -> Ordering {
        self.as_str().cmp(&other.as_str())
    }
}

impl Hash for ChainName {
    ghost hash_input = { fed.str };

    ghost respects_eq = { Prim.search (hashing, rules) };

    fn hash<H: Hasher>(&self, state: &mut H) {
        self.as_str().hash(state)
    }
}

/// Where a chain stands: its table and its name.
#[derive(PartialEq, Eq, PartialOrd, Ord, Hash, Drop)]
pub struct ChainAt {
    pub table: TableName,
    pub chain: ChainName,
}

impl ChainAt {
    /// The same place once more. It takes no memory.
    pub fn same(&self) -> ChainAt
        ensures { result ≡ self.now }
    {
        ChainAt {
            table: self.table,
            chain: self.chain.same(),
        }
    }
}

impl Copied for ChainAt {
    fn copy(&self, _alloc: Global) -> Result<ChainAt, NoMemory> {
        Ok(self.same())
    }
}

/// The kinds of chains that one Service port has.
#[derive(Clone, Copy, Debug, PartialEq, Eq, PartialOrd, Ord, Hash)]
pub enum PortChain {
    /// `KUBE-SVC-`: a choice among the cluster endpoints.
    Svc,
    /// `KUBE-SVL-`: a choice among the local endpoints.
    Svl,
    /// `KUBE-EXT-`: what comes in from outside the cluster.
    Ext,
    /// `KUBE-FW-`: the source ranges of a load balancer.
    Fw,
}

/// What a chain is for: a Service port, or an endpoint of one (`KUBE-SEP-`).
#[derive(PartialEq, Eq, PartialOrd, Ord, Hash)]
pub enum ChainKey {
    Port { kind: PortChain, port: PortKey },
    Sep { port: PortKey, endpoint: Endpoint },
}

impl Drop for ChainKey {
    fn drop(self) {
        match self {
            ChainKey::Port { kind: _, port: _ } => {}
            ChainKey::Sep {
                port: _,
                endpoint: _,
            } => {}
        }
    }
}

impl Copied for ChainKey {
    fn copy(&self, alloc: Global) -> Result<ChainKey, NoMemory> {
        match self {
            ChainKey::Port { kind, port } => Ok(ChainKey::Port {
                kind: *kind,
                port: port.copy(alloc)?,
            }),
            ChainKey::Sep { port, endpoint } => Ok(ChainKey::Sep {
                port: port.copy(alloc)?,
                endpoint: *endpoint,
            }),
        }
    }
}

/// Two different chains that are needed and have one name.
pub struct Clash {
    pub name: ChainName,
    pub first: ChainKey,
    pub second: ChainKey,
}

impl Drop for Clash {
    fn drop(self) {
        let Clash {
            name,
            first,
            second,
        } = self;
    }
}

impl Copied for Clash {
    fn copy(&self, alloc: Global) -> Result<Clash, NoMemory> {
        Ok(Clash {
            name: self.name.same(),
            first: self.first.copy(alloc)?,
            second: self.second.copy(alloc)?,
        })
    }
}

/// Whether these bytes are a chain's name.
fn is_name_of_chain(text: &str) -> bool
    ensures { result ≡ is_chain_name text.now }
{
    if text.is_empty() || text.len() > 28 || !are_chain_bytes(text.as_bytes()) {
        return false;
    }
    !is_target_word(text)
}

fn is_chain_byte(byte: u8) -> bool
    ensures { result ≡ Chains.is_chain_byte byte }
{
    byte.is_ascii_lowercase() || byte.is_ascii_uppercase() || byte.is_ascii_digit() || byte == b'-'
}

fn are_chain_bytes(text: &[u8]) -> bool
    ensures { result ≡ list_all Chains.is_chain_byte text.now }
{
    text.iter().all(|byte| is_chain_byte(*byte))
}

fn is_target_word(text: &str) -> bool
    ensures { result ≡ list_any (bytes_eq text.now) Chains.target_words }
{
    text == "RETURN"
        || text == "ACCEPT"
        || text == "DROP"
        || text == "REJECT"
        || text == "MARK"
        || text == "DNAT"
        || text == "MASQUERADE"
}
