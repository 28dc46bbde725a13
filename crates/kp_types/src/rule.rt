//! Rules of iptables, and edits of a table.
ghost use Rattle.std.specs.Prelude.{◌≡◌, IfOk};
ghost use Rattle.kp_types.specs.Edits.{place_of, is_edit_in, edits_of_family};

use crate::chain::{ChainAt, ChainName};
use arrayvec::ArrayVec;
use kp_base::{Cidr, Copied, Endpoint, Family, Items, NoMemory, PortNo, Proto, Shared};
use std::alloc::Global;

/// One match of a rule (iptables(8), iptables-extensions(8)).
#[derive(Default, PartialEq, Eq, Drop)]
pub enum Match {
    /// `-s range`, or `! -s range`.
    Src { range: Cidr, not: bool },
    /// `-d range`, or `! -d range`.
    Dst { range: Cidr, not: bool },
    /// `-p proto`.
    Proto { proto: Proto },
    /// `-p proto -m proto --dport port`.
    Port { proto: Proto, port: PortNo },
    /// `-m addrtype --src-type LOCAL`.
    #[default]
    SrcLocal,
    /// `-m addrtype --dst-type LOCAL`.
    DstLocal,
    /// `-m mark --mark 0x4000/0x4000`, or its negation.
    Marked { not: bool },
    /// `-m statistic --mode random`, with a probability of `p` parts in 10^10.
    Statistic { p: u64 },
    /// `-m recent --rcheck --reap`: the source is in the list, set within the last seconds.
    Seen { list: ChainName, seconds: u32 },
    /// `-m recent --set`: puts the source into the list, and always matches.
    SetSeen { list: ChainName },
}

/// What a rule does with a packet that it matches.
#[derive(PartialEq, Eq, Drop)]
pub enum Target {
    Jump(ChainName),
    Return,
    Accept,
    Drop,
    Reject,
    /// Sets the mark for masquerading, 0x4000.
    SetMark,
    /// Turns that mark over.
    FlipMark,
    Dnat(Endpoint),
    Masquerade,
}

/// A rule: its matches, tried from the left, and its target.
#[derive(PartialEq, Eq, Drop)]
pub struct Rule {
    pub matches: ArrayVec<Match, 4>,
    pub target: Target,
}

/// A change of one chain: its rules are written, in place of the old ones, or it is removed. A
/// table that makes the change shares the rules.
pub enum Edit {
    Write { at: ChainAt, rules: Shared<Rule> },
    Remove { at: ChainAt },
}

impl Drop for Edit {
    fn drop(self) {
        match self {
            Edit::Write { at: _, rules: _ } => {}
            Edit::Remove { at: _ } => {}
        }
    }
}

/// Edits that are made together, in their order.
pub struct Batch {
    pub edits: Items<Edit>,
}

impl Drop for Batch {
    fn drop(self) {
        let Batch { edits } = self;
    }
}

impl Edit {
    /// The chain that is changed.
    pub fn place(&self) -> &ChainAt
        ensures { result.now ≡ place_of self.now }
    {
        match self {
            Edit::Write { at, rules: _ } => at,
            Edit::Remove { at } => at,
        }
    }

    /// Whether a table of this family is changed.
    pub fn is_in(&self, family: Family) -> bool
        ensures { result ≡ is_edit_in family self.now }
    {
        self.place().table.family() == family
    }
}

impl Batch {
    /// The edits of the tables of one family, in their order.
    pub fn of_family(&self, alloc: Global, family: Family) -> Result<Batch, NoMemory>
        ensures { IfOk result (λ b. b.edits ≡ edits_of_family family self.now.edits) }
    {
        let mut edits = Vec::new(alloc);
        for edit in self.edits.as_slice() {
            if edit.is_in(family) {
                edits.push(edit.copy(alloc)?)?;
            }
        }
        Ok(Batch {
            edits: Items::from_vec(edits),
        })
    }
}

/// A chain's place and rules.
#[derive(Drop)]
pub struct ChainText {
    pub at: ChainAt,
    pub rules: Items<Rule>,
}

impl Match {
    /// The same match once more. It takes no memory.
    pub fn same(&self) -> Match
        ensures { result ≡ self.now }
    {
        match self {
            Match::Src { range, not } => Match::Src {
                range: *range,
                not: *not,
            },
            Match::Dst { range, not } => Match::Dst {
                range: *range,
                not: *not,
            },
            Match::Proto { proto } => Match::Proto { proto: *proto },
            Match::Port { proto, port } => Match::Port {
                proto: *proto,
                port: *port,
            },
            Match::SrcLocal => Match::SrcLocal,
            Match::DstLocal => Match::DstLocal,
            Match::Marked { not } => Match::Marked { not: *not },
            Match::Statistic { p } => Match::Statistic { p: *p },
            Match::Seen { list, seconds } => Match::Seen {
                list: list.same(),
                seconds: *seconds,
            },
            Match::SetSeen { list } => Match::SetSeen { list: list.same() },
        }
    }
}

impl Target {
    /// The same target once more. It takes no memory.
    pub fn same(&self) -> Target
        ensures { result ≡ self.now }
    {
        match self {
            Target::Jump(chain) => Target::Jump(chain.same()),
            Target::Return => Target::Return,
            Target::Accept => Target::Accept,
            Target::Drop => Target::Drop,
            Target::Reject => Target::Reject,
            Target::SetMark => Target::SetMark,
            Target::FlipMark => Target::FlipMark,
            Target::Dnat(endpoint) => Target::Dnat(*endpoint),
            Target::Masquerade => Target::Masquerade,
        }
    }
}

impl Rule {
    ghost use Rattle.kp_types.specs.Rules.{rule_of};

    /// The rule with these matches, of which there are at most four, and this target.
    pub fn of(matches: ArrayVec<Match, 4>, target: Target) -> Rule
        ensures { result ≡ rule_of matches.items target }
    {
        Rule { matches, target }
    }

    /// The same rule once more. It takes no memory.
    pub fn same(&self) -> Rule
        ensures { result ≡ self.now }
    {
        let mut matches = ArrayVec::new();
        for matched in self.matches.as_slice() {
            matches.push(matched.same());
        }
        Rule {
            matches,
            target: self.target.same(),
        }
    }
}

impl Copied for Rule {
    fn copy(&self, _alloc: Global) -> Result<Rule, NoMemory> {
        Ok(self.same())
    }
}

impl Copied for Edit {
    fn copy(&self, alloc: Global) -> Result<Edit, NoMemory> {
        match self {
            Edit::Write { at, rules } => Ok(Edit::Write {
                at: at.same(),
                rules: rules.copy(alloc)?,
            }),
            Edit::Remove { at } => Ok(Edit::Remove { at: at.same() }),
        }
    }
}

impl Copied for Batch {
    fn copy(&self, alloc: Global) -> Result<Batch, NoMemory> {
        Ok(Batch {
            edits: self.edits.copy(alloc)?,
        })
    }
}

impl Copied for ChainText {
    fn copy(&self, alloc: Global) -> Result<ChainText, NoMemory> {
        Ok(ChainText {
            at: self.at.same(),
            rules: self.rules.copy(alloc)?,
        })
    }
}
