//! The sections of restore text.
use crate::left::Left;
use kp_base::Items;
use kp_types::{ChainName, Rule, TableName};

/// What a text has: whole tables, or the changes of a batch.
#[derive(Clone, Copy, Debug, PartialEq, Eq)]
pub(crate) enum Form {
    Whole,
    Changes,
}

/// A declared chain, its rules so far, and whether it is removed.
#[derive(Drop)]
pub(crate) struct Row {
    pub chain: ChainName,
    pub rules: Items<Rule>,
    pub removed: bool,
}

/// A section that is read.
#[derive(Drop)]
pub(crate) struct Section {
    pub table: TableName,
    pub rows: Left<Row>,
}
