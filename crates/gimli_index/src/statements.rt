//! The statements of a lookup: where code of lines begins.

ghost use Rattle.std.specs.Prelude.{◌≡◌, ◌<◌, ◌++◌, ◌∷◌, ℕ, List, [], false, length, slice_get};
ghost use Rattle.std.specs.Prelude.{◌&&◌, nat_eq, slice_index_or, IfErr, IfOk, OnOk, Some, None};
ghost use Rattle.gimli_index.specs.Contents.{path_at};
ghost use Rattle.gimli_index.specs.Found.{is_one_path};
ghost use Rattle.gimli_lookup.specs.ProgramPaths.{texts_seen, Texts};
ghost use Rattle.gimli_index.specs.Refused.{AreFound};
ghost use Rattle.gimli_index.specs.inside.Begun.{begun, begun_in_unit, begun_in_units, given_in};
ghost use Rattle.gimli_index.specs.inside.Begun.{goes_on, statements_in, AreInside, IsGiven};
ghost use Rattle.gimli_index.specs.inside.Begun.{GoesOnTo};
ghost use Rattle.gimli_index.specs.inside.Table.{AreSources, IsTableFault, Keeps, with_table};
ghost use Rattle.gimli_line.specs.declared.run.row.LineRow.{LineRow};
ghost use Rattle.gimli_lookup.specs.Section.{KeptUnit};
ghost use Rattle.gimli_lookup.specs.Section.{rows_of};

use crate::contents::{Source, Statement};
use crate::error::MakeError;
use crate::origin::Origin;
use crate::source_table::{SourceTable, line_of};
use gimli_core::Reader;
use gimli_line::LineRow;
use gimli_lookup::{CoveringRows, SequenceRows};

/// A line of a source, whose statement was given.
#[derive(Clone, Copy)]
struct Given {
    source: u32,
    line: u32,
}

/// Whether two sources have a path at one place.
fn is_one_span(a: Source, b: Source) -> bool
    ensures { result ≡ (nat_eq a.reason 0 && nat_eq b.reason 0 && nat_eq a.first b.first
        && nat_eq a.size b.size) }
{
    if a.reason != 0 {
        return false;
    }
    if b.reason != 0 {
        return false;
    }
    if a.first != b.first {
        return false;
    }
    a.size == b.size
}

/// Whether two sources have one path.
fn have_one_path(table: &SourceTable, first: u32, second: u32) -> bool
    requires first { first < length table.now.sources }
    requires second { second < length table.now.sources }
    ensures { (t : Texts) (units : List KeptUnit) (limit : ℕ) → AreSources t units limit table.now
        → result ≡ is_one_path (path_at (with_table table.now) first)
        (path_at (with_table table.now) second) }
{
    let sources = table.sources();
    is_one_span(sources[first as usize], sources[second as usize])
}

/// Whether a run whose statement was given goes on at a line of a source.
fn goes_on(table: &SourceTable, given: Option<Given>, source: u32, line: u32) -> bool
    requires source { source < length table.now.sources }
    requires given { IsGiven table.now given }
    ensures { (t : Texts) (units : List KeptUnit) (limit : ℕ) → AreSources t units limit table.now
        → result ≡ goes_on (given_in table.now given) (path_at (with_table table.now) source) line }
{
    match given {
        Some(given) => given.line == line && have_one_path(table, given.source, source),
        None => false,
    }
}

/// Takes in a row of a sequence, and returns what was given of the run that it stands in. Requires
/// a row of a unit.
#[inline(always)]
fn take_row<R: Reader>(
    origin: &Origin<'_, R>,
    rows: &CoveringRows,
    given: Option<Given>,
    table: &mut SourceTable,
    statements: &mut Vec<Statement>,
) -> Result<Option<Given>, MakeError>
    requires unit { rows.now.unit < length origin.now.lookup.now }
    requires found { rows.now.row.end_sequence ≡ false → AreFound origin.now.lookup.now rows.now }
    requires given { IsGiven table.old given }
    requires inside { AreInside table.old statements.old.items }
    requires are { AreSources
        (texts_seen R.seen origin.now.paths.now)
        origin.now.lookup.now origin.now.limit table.old }
    ensures are { OnOk result (AreSources
        (texts_seen R.seen origin.now.paths.now)
        origin.now.lookup.now origin.now.limit table.new) }
    ensures keeps { OnOk result (Keeps table.old table.new) }
    ensures given { IfOk result (IsGiven table.new) }
    ensures inside { OnOk result (AreInside table.new statements.new.items) }
    ensures said { IfOk result (λ next. (u : KeptUnit)
        → slice_get origin.now.lookup.now rows.now.unit ≡ Some u → (rest : List LineRow) → GoesOnTo
        (texts_seen R.seen origin.now.paths.now) u.unit
        table.old statements.old.items given (rows.now.row ∷ rest)
        table.new statements.new.items next rest) }
    ensures err { IfErr result (IsTableFault
        (texts_seen R.seen origin.now.paths.now)
        origin.now.lookup.now origin.now.limit) }
{
    let row = &rows.row;
    if row.end_sequence() {
        return Ok(None);
    }
    let line = line_of(row)?;
    if line == 0 {
        return Ok(None);
    }
    let source = table.source_of(origin, rows)?;
    if goes_on(table, given, source, line) {
        return Ok(given);
    }
    if !row.is_stmt() {
        return Ok(None);
    }
    statements.push(Statement {
        source,
        line,
        address: row.address(),
    })?;
    Ok(Some(Given { source, line }))
}

/// Takes in the rows of a sequence. Requires a sequence of a unit.
fn take_rows<R: Reader>(
    origin: &Origin<'_, R>,
    unit: usize,
    rows: SequenceRows<'_>,
    table: &mut SourceTable,
    statements: &mut Vec<Statement>,
) -> Result<(), MakeError>
    requires unit { unit < length origin.now.lookup.now }
    requires sequence { (k : ℕ) × ((d : KeptUnit)
        → slice_get (slice_index_or origin.now.lookup.now unit d).sequences k
        ≡ Some (rows_of rows)) }
    requires inside { AreInside table.old statements.old.items }
    requires are { AreSources
        (texts_seen R.seen origin.now.paths.now)
        origin.now.lookup.now origin.now.limit table.old }
    ensures are { OnOk result (AreSources
        (texts_seen R.seen origin.now.paths.now)
        origin.now.lookup.now origin.now.limit table.new) }
    ensures keeps { OnOk result (Keeps table.old table.new) }
    ensures inside { OnOk result (AreInside table.new statements.new.items) }
    ensures said { OnOk result ((u : KeptUnit) → slice_get origin.now.lookup.now unit ≡ Some u
        → statements_in table.new statements.new.items
        ≡ statements_in table.old statements.old.items
        ++ begun (texts_seen R.seen origin.now.paths.now) u.unit None
        (rows_of rows.entry)) }
    ensures err { IfErr result (IsTableFault
        (texts_seen R.seen origin.now.paths.now)
        origin.now.lookup.now origin.now.limit) }
{
    let mut given = None;
    for index in 0..rows.len() {
        let row = rows.row(index);
        let found = CoveringRows {
            unit,
            row,
            next: row,
        };
        given = take_row(origin, &found, given, table, statements)?;
    }
    Ok(())
}

/// Takes in the sequences of the unit at an index. Requires an index of a unit.
fn take_unit<R: Reader>(
    origin: &Origin<'_, R>,
    unit: usize,
    table: &mut SourceTable,
    statements: &mut Vec<Statement>,
) -> Result<(), MakeError>
    requires unit { unit < length origin.now.lookup.now }
    requires inside { AreInside table.old statements.old.items }
    requires are { AreSources
        (texts_seen R.seen origin.now.paths.now)
        origin.now.lookup.now origin.now.limit table.old }
    ensures are { OnOk result (AreSources
        (texts_seen R.seen origin.now.paths.now)
        origin.now.lookup.now origin.now.limit table.new) }
    ensures keeps { OnOk result (Keeps table.old table.new) }
    ensures inside { OnOk result (AreInside table.new statements.new.items) }
    ensures said { OnOk result ((u : KeptUnit) → slice_get origin.now.lookup.now unit ≡ Some u
        → statements_in table.new statements.new.items
        ≡ statements_in table.old statements.old.items ++ begun_in_unit
        (texts_seen R.seen origin.now.paths.now) u) }
    ensures err { IfErr result (IsTableFault
        (texts_seen R.seen origin.now.paths.now)
        origin.now.lookup.now origin.now.limit) }
{
    for index in 0..origin.lookup.sequence_count(unit) {
        if let Some(rows) = origin.lookup.sequence(unit, index) {
            take_rows(origin, unit, rows, table, statements)?;
        }
    }
    Ok(())
}

/// The statements of a lookup, whose sources the table takes in.
pub(crate) fn statements_of<R: Reader>(
    origin: &Origin<'_, R>,
    table: &mut SourceTable,
) -> Result<Vec<Statement>, MakeError>
    requires { AreSources (texts_seen R.seen origin.now.paths.now)
        origin.now.lookup.now origin.now.limit table.old }
    ensures are { OnOk result (AreSources
        (texts_seen R.seen origin.now.paths.now)
        origin.now.lookup.now origin.now.limit table.new) }
    ensures keeps { OnOk result (Keeps table.old table.new) }
    ensures inside { IfOk result (λ statements. AreInside table.new statements.items) }
    ensures said { IfOk result (λ statements. statements_in table.new statements.items
        ≡ begun_in_units (texts_seen R.seen origin.now.paths.now)
        origin.now.lookup.now) }
    ensures err { IfErr result (IsTableFault
        (texts_seen R.seen origin.now.paths.now)
        origin.now.lookup.now origin.now.limit) }
{
    let mut statements = Vec::new(origin.alloc);
    for unit in 0..origin.lookup.units().len() {
        take_unit(origin, unit, table, &mut statements)?;
    }
    Ok(statements)
}
