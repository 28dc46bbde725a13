//! What a further line makes of what is read so far.
ghost use Rattle.std.specs.Prelude.{◌≡◌, ◌∷◌, ◌++◌, [], IfOk, OnOk};
ghost use Rattle.kp_restore_defs.specs.TableText as TableText;
ghost use Rattle.kp_restore.specs.Sections as sections;
ghost use Rattle.kp_restore.specs.Steps as spec;

use crate::built_in::owed;
use crate::left::Left;
use crate::line::Line;
use crate::lists::with_last;
use crate::section::{Form, Row, Section};
use crate::so_far::{Body, Change, Heading, Pass, Phase, SoFar};
use kp_base::{Items, NoMemory};
use kp_rules::{Table, is_built_in};
use kp_types::{ChainAt, ChainName, Rule, TableName, Target};
use std::alloc::Global;

/// Nothing is read.
pub(crate) fn start(alloc: Global) -> SoFar
    ensures { result ≡ spec.start }
{
    SoFar {
        done: Items::new(alloc),
        phase: Phase::Between { last: None },
    }
}

/// What is read with one more line, or nothing where no text has the line here.
pub(crate) fn step(
    alloc: Global,
    form: Form,
    so_far: SoFar,
    line: Line,
) -> Result<Option<SoFar>, NoMemory>
    ensures { IfOk result (λ next. next ≡ spec.step form so_far line) }
{
    let SoFar { done, phase } = so_far;
    match phase {
        Phase::Between { last } => opened(alloc, form, done, last, line),
        Phase::Heading(heading) => heading_line(alloc, form, done, heading, line),
        Phase::Body(body) => body_line(form, done, body, line),
    }
}

/// The first line of a section.
fn opened(
    alloc: Global,
    form: Form,
    done: Items<Section>,
    last: Option<TableName>,
    line: Line,
) -> Result<Option<SoFar>, NoMemory>
    ensures { IfOk result (λ next. next ≡ spec.opened form done last line) }
{
    match line {
        Line::Section(table) if may_open(form, last, table) => {
            let heading = Heading {
                table,
                owed: owed(alloc, form, table)?,
                last: None,
                declared: Table::bare(alloc)?,
                rows: Items::new(alloc),
            };
            Ok(Some(SoFar {
                done,
                phase: Phase::Heading(heading),
            }))
        }
        _ => Ok(None),
    }
}

/// Whether a section may stand behind the last one: the filter table's behind the nat table's.
/// Whole tables begin with nat.
fn may_open(form: Form, last: Option<TableName>, table: TableName) -> bool
    ensures { result ≡ sections.may_open form last table }
{
    match (form, last, table) {
        (_, Some(TableName::Nat), TableName::Filter) => true,
        (_, Some(TableName::Nat6), TableName::Filter6) => true,
        (_, Some(_), _) => false,
        (Form::Changes, None, _) => true,
        (Form::Whole, None, TableName::Nat | TableName::Nat6) => true,
        (Form::Whole, None, TableName::Filter | TableName::Filter6) => false,
    }
}

/// A line among the declarations.
fn heading_line(
    alloc: Global,
    form: Form,
    done: Items<Section>,
    mut heading: Heading,
    line: Line,
) -> Result<Option<SoFar>, NoMemory>
    ensures { IfOk result (λ next. next
        ≡ spec.heading_line form done heading heading.owed line) }
{
    match heading.owed.pop() {
        Some(next) => built_in_line(alloc, form, done, heading, &next, line),
        None => other_line(alloc, form, done, heading, line),
    }
}

/// A line where this built-in chain is owed.
fn built_in_line(
    alloc: Global,
    form: Form,
    done: Items<Section>,
    heading: Heading,
    next: &ChainName,
    line: Line,
) -> Result<Option<SoFar>, NoMemory>
    ensures { IfOk result (λ r. r
        ≡ spec.heading_line form done heading (next.now ∷ heading.owed) line) }
{
    match line {
        Line::BuiltIn(chain) if chain == *next => {
            Ok(Some(declared(alloc, form, done, heading, chain)?))
        }
        _ => Ok(None),
    }
}

/// A line behind the built-in chains.
fn other_line(
    alloc: Global,
    form: Form,
    done: Items<Section>,
    heading: Heading,
    line: Line,
) -> Result<Option<SoFar>, NoMemory>
    requires { heading.owed ≡ [] }
    ensures { IfOk result (λ next. next ≡ spec.heading_line form done heading [] line) }
{
    match line {
        Line::Declared(chain) if may_follow(heading.table, &heading.last, &chain) => {
            Ok(Some(declared(alloc, form, done, heading, chain)?))
        }
        Line::Ruled(chain, rule) => {
            let body = body_of(alloc, heading)?;
            sought(form, done, body, &chain, Change::Adds(rule))
        }
        Line::Removed(chain) => {
            let body = body_of(alloc, heading)?;
            sought(form, done, body, &chain, Change::Goes)
        }
        Line::Commit => {
            let rows = Left::of(alloc, heading.rows)?;
            committed(done, heading.table, rows)
        }
        _ => Ok(None),
    }
}

/// Whether a chain that isn't built in may be declared behind the last one.
fn may_follow(table: TableName, last: &Option<ChainName>, chain: &ChainName) -> bool
    ensures { result ≡ sections.may_follow table last.now chain.now }
{
    if is_built_in(table, chain.as_str()) {
        return false;
    }
    match last {
        None => true,
        Some(last) => is_built_in(table, last.as_str()) || *last < *chain,
    }
}

/// A chain is declared, with no rules.
fn declared(
    alloc: Global,
    form: Form,
    done: Items<Section>,
    heading: Heading,
    chain: ChainName,
) -> Result<SoFar, NoMemory>
    ensures { IfOk result (λ next. next ≡ spec.declared form done heading heading.owed chain) }
{
    let Heading {
        table,
        owed,
        declared,
        rows,
        ..
    } = heading;
    let declared = known(alloc, form, table, &chain, declared)?;
    let row = Row {
        chain: chain.same(),
        rules: Items::new(alloc),
        removed: false,
    };
    let rows = with_last(rows, row)?;
    let heading = Heading {
        table,
        owed,
        last: Some(chain),
        declared,
        rows,
    };
    Ok(SoFar {
        done,
        phase: Phase::Heading(heading),
    })
}

/// Keeps which chains are declared, where jumps are looked up.
fn known(
    alloc: Global,
    form: Form,
    table: TableName,
    chain: &ChainName,
    mut declared: Table,
) -> Result<Table, NoMemory>
    ensures { IfOk result (λ t. t ≡ spec.known form table chain.now declared) }
{
    match form {
        Form::Whole => {
            let at = ChainAt {
                table,
                chain: chain.same(),
            };
            declared.put(at, Items::new(alloc))?;
            Ok(declared)
        }
        Form::Changes => Ok(declared),
    }
}

/// The section behind its declarations, with all chains left.
fn body_of(alloc: Global, heading: Heading) -> Result<Body, NoMemory>
    ensures { IfOk result (λ body. body ≡ record {
      table = heading.table;
      pass = Pass.Ruling;
      declared = heading.declared;
      passed = [];
      left = heading.rows;
    }) }
{
    let Heading {
        table,
        declared,
        rows,
        ..
    } = heading;
    Ok(Body {
        table,
        pass: Pass::Ruling,
        declared,
        passed: Items::new(alloc),
        left: Left::of(alloc, rows)?,
    })
}

/// A line behind the declarations.
fn body_line(
    form: Form,
    done: Items<Section>,
    body: Body,
    line: Line,
) -> Result<Option<SoFar>, NoMemory>
    ensures { IfOk result (λ next. next ≡ spec.body_line form done body.table body.pass
        body.declared body.passed body.left line) }
{
    match (line, body.pass) {
        (Line::Ruled(chain, rule), Pass::Ruling) => {
            sought(form, done, body, &chain, Change::Adds(rule))
        }
        (Line::Removed(chain), Pass::Ruling) => {
            let body = rewound(body)?;
            sought(form, done, body, &chain, Change::Goes)
        }
        (Line::Removed(chain), Pass::Removing) => sought(form, done, body, &chain, Change::Goes),
        (Line::Commit, _) => {
            let body = rewound(body)?;
            committed(done, body.table, body.left)
        }
        _ => Ok(None),
    }
}

/// The section with all chains left.
fn rewound(body: Body) -> Result<Body, NoMemory>
    ensures { IfOk result (λ all. all ≡ record body {
      passed = [];
      left = body.passed ++ body.left;
    }) }
{
    let Body {
        table,
        pass,
        declared,
        passed,
        left,
    } = body;
    let (passed, left) = left.rewound(passed)?;
    Ok(Body {
        table,
        pass,
        declared,
        passed,
        left,
    })
}

/// The change of a chain that is left.
fn sought(
    form: Form,
    done: Items<Section>,
    body: Body,
    chain: &ChainName,
    change: Change,
) -> Result<Option<SoFar>, NoMemory>
    ensures { IfOk result (λ next. next ≡ spec.sought form done body.table body.declared
        body.passed body.left chain.now change) }
{
    let Body {
        table,
        declared,
        passed,
        mut left,
        ..
    } = body;
    let mut passed = passed.into_vec();
    while let Some(row) = left.pop() {
        if row.chain == *chain {
            if !may_change(form, &declared, table, &row, &change) {
                return Ok(None);
            }
            let pass = pass_of(&change);
            left.put(changed(row, change)?)?;
            let body = Body {
                table,
                pass,
                declared,
                passed: Items::from_vec(passed),
                left,
            };
            return Ok(Some(SoFar {
                done,
                phase: Phase::Body(body),
            }));
        }
        passed.push(row)?;
    }
    Ok(None)
}

/// What the line tells of its chain.
fn pass_of(change: &Change) -> Pass
    ensures { result ≡ spec.pass_of change.now }
{
    match change {
        Change::Adds(_) => Pass::Ruling,
        Change::Goes => Pass::Removing,
    }
}

/// Whether a chain may be changed so.
fn may_change(form: Form, declared: &Table, table: TableName, row: &Row, change: &Change) -> bool
    ensures { result ≡ spec.may_change form declared.now table row.now change.now }
{
    match (form, change) {
        (Form::Whole, Change::Adds(rule)) => jumps_to_declared(declared, table, &rule.target),
        (Form::Whole, Change::Goes) => false,
        (Form::Changes, Change::Adds(_)) => true,
        (Form::Changes, Change::Goes) => row.rules.as_slice().is_empty() && !row.removed,
    }
}

/// Whether a jump goes to a chain of the table that there is.
fn jumps_to_declared(declared: &Table, table: TableName, target: &Target) -> bool
    ensures { result ≡ TableText.jumps_to_declared declared.now.chains table target.now }
{
    match target {
        Target::Jump(chain) => {
            let at = ChainAt {
                table,
                chain: chain.same(),
            };
            declared.chain(&at).is_some()
        }
        _ => true,
    }
}

/// The chain with the change.
fn changed(row: Row, change: Change) -> Result<Row, NoMemory>
    ensures { IfOk result (λ next. next ≡ spec.changed row change) }
{
    let Row {
        chain,
        rules,
        removed,
    } = row;
    match change {
        Change::Adds(rule) => Ok(Row {
            chain,
            rules: with_last(rules, rule)?,
            removed,
        }),
        Change::Goes => Ok(Row {
            chain,
            rules,
            removed: true,
        }),
    }
}

/// The end of a section, which has at least one chain.
fn committed(
    done: Items<Section>,
    table: TableName,
    rows: Left<Row>,
) -> Result<Option<SoFar>, NoMemory>
    ensures { IfOk result (λ next. next ≡ spec.committed done table rows) }
{
    if rows.is_empty() {
        return Ok(None);
    }
    let done = with_last(done, Section { table, rows })?;
    Ok(Some(SoFar {
        done,
        phase: Phase::Between { last: Some(table) },
    }))
}
