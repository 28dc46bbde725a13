//! What is read of a text so far.
use crate::left::Left;
use crate::section::{Row, Section};
use kp_base::Items;
use kp_rules::Table;
use kp_types::{ChainName, Rule, TableName};

/// What the last line told of its chain.
#[derive(Clone, Copy, Drop)]
pub(crate) enum Pass {
    /// A rule.
    Ruling,
    /// That it is removed.
    Removing,
}

/// What a line tells of a declared chain.
#[derive(Drop)]
pub(crate) enum Change {
    /// It has one more rule.
    Adds(Rule),
    /// It is removed.
    Goes,
}

/// The declarations of a section so far: the built-in chains that are still owed, the name of the
/// last chain, the chains that a jump may go to, and all chains in order.
#[derive(Drop)]
pub(crate) struct Heading {
    pub table: TableName,
    pub owed: Left<ChainName>,
    pub last: Option<ChainName>,
    pub declared: Table,
    pub rows: Items<Row>,
}

/// A section whose declarations are over. The last line spoke of the first of the chains that are
/// left.
#[derive(Drop)]
pub(crate) struct Body {
    pub table: TableName,
    pub pass: Pass,
    pub declared: Table,
    pub passed: Items<Row>,
    pub left: Left<Row>,
}

/// Where the text is.
#[derive(Drop)]
pub(crate) enum Phase {
    /// No section is open; the last one was of this table.
    Between { last: Option<TableName> },
    Heading(Heading),
    Body(Body),
}

/// What is read of a text so far: the sections that are over, and where the text is.
#[derive(Drop)]
pub(crate) struct SoFar {
    pub done: Items<Section>,
    pub phase: Phase,
}
