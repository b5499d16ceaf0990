//! The sources of an index in the making.

ghost use Rattle.std.specs.Prelude.{◌≡◌, ◌≢◌, ◌<◌, ◌≤◌, ◌^◌, Some, length, slice_get, All, IfErr};
ghost use Rattle.std.specs.Prelude.{IfOk};
ghost use Rattle.std.specs.Prelude.{IfSome, MatchOption, OnOk};
ghost use Rattle.gimli_index.specs.Contents.{HasColumn};
ghost use Rattle.gimli_index.specs.Found.{found_place};
ghost use Rattle.gimli_lookup.specs.ProgramPaths.{texts_seen};
ghost use Rattle.gimli_index.specs.Refused.{AreFound};
ghost use Rattle.gimli_index.specs.declared.error.MakeError.TheVariants.{ColumnTooLarge};
ghost use Rattle.gimli_index.specs.declared.error.MakeError.TheVariants.{LineTooLarge};
ghost use Rattle.gimli_index.specs.inside.Table.{AreSources, IsInside, IsTableFault, Keeps, key_of};
ghost use Rattle.gimli_index.specs.inside.Table.{no_table, place_in};

use crate::contents::{COLUMNS, MOST, Source, SourceLine};
use crate::error::MakeError;
use crate::origin::Origin;
use crate::path_bytes::PathBytes;
use crate::source_hints::SourceHints;
use crate::source_keys::{SourceKey, SourceKeys};
use gimli_core::{Reader, ReaderOffset};
use gimli_line::LineRow;
use gimli_lookup::{CoveringRows, SectionLookup};
use std::alloc::{AllocError, Global};
use std::marker::Model;

/// The sources so far.
#[derive(Drop)]
pub(crate) struct SourceTable {
    keys: SourceKeys,
    sources: Vec<Source>,
    paths: PathBytes,
    hints: SourceHints,
}

impl Model for SourceTable {
    ghost use Rattle.gimli_index.specs.inside.Table.{Table};

    ghost Value = { Table };

    ghost view = { λ a. record {
      keys = a.keys;
      sources = a.sources.items;
      paths = a.paths;
    } };
}

/// A line in 32 bits.
#[inline(always)]
pub(crate) fn line_of(row: &LineRow) -> Result<u32, MakeError>
    ensures ok { IfOk result (λ line. line ≡ row.now.line) }
    ensures err { IfErr result (λ e. (e ≡ LineTooLarge) × (2 ^ 32 ≤ row.now.line)) }
{
    let line = match row.line() {
        Some(line) => line.get(),
        None => 0,
    };
    match u32::try_from(line) {
        Ok(line) => Ok(line),
        Err(_) => Err(MakeError::LineTooLarge),
    }
}

/// A column in 30 bits.
#[inline(always)]
fn column_of(row: &LineRow) -> Result<u32, MakeError>
    ensures ok { IfOk result (λ column. column ≡ row.now.column) }
    ensures few { IfOk result (λ column. column < 2 ^ 30) }
    ensures err { IfErr result (λ e. (e ≡ ColumnTooLarge) × (2 ^ 30 ≤ row.now.column)) }
{
    let column = row.column().number();
    if column < u64::from(COLUMNS) {
        Ok(column as u32)
    } else {
        Err(MakeError::ColumnTooLarge)
    }
}

/// The file of a row.
#[inline(always)]
fn key_of(rows: &CoveringRows) -> SourceKey
    ensures { result ≡ key_of rows.now }
{
    SourceKey {
        unit: rows.unit,
        file: rows.row.file_index(),
    }
}

impl SourceTable {
    /// No sources yet.
    pub(crate) fn new<R: Reader>(
        alloc: Global,
        lookup: &SectionLookup<R>,
    ) -> Result<SourceTable, AllocError>
        ensures { IfOk result (λ table. table ≡ no_table) }
    {
        let hints = SourceHints::new(alloc, lookup)?;
        Ok(SourceTable {
            keys: SourceKeys::new(alloc),
            sources: Vec::new(alloc),
            paths: PathBytes::new(alloc),
            hints,
        })
    }

    /// The sources.
    pub(crate) fn sources(&self) -> &[Source]
        ensures { result.now ≡ self.now.sources }
    {
        self.sources.as_slice()
    }

    /// The bytes of the paths.
    pub(crate) fn paths(&self) -> &[u8]
        ensures { result.now ≡ self.now.paths.bytes }
    {
        self.paths.as_slice()
    }

    /// The number of the source of a file, where it is known at once.
    #[inline(always)]
    fn known_number(&self, key: SourceKey) -> Option<u32>
        ensures { IfSome result (λ number. slice_get self.now.keys number ≡ Some key) }
    {
        let number = self.hints.get(key.unit, key.file)?;
        let known = self.keys.get(number as usize)?;
        if known == key { Some(number) } else { None }
    }

    /// The number of the source of a file, if it has one.
    #[inline(always)]
    fn number_of(&self, key: SourceKey) -> Option<u32>
        requires { length self.now.keys < 2 ^ 32 }
        ensures { MatchOption result (All (λ k. k ≢ key) self.now.keys)
            (λ number. slice_get self.now.keys number ≡ Some key) }
    {
        if let Some(number) = self.known_number(key) {
            return Some(number);
        }
        let number = self.keys.find(key)?;
        Some(number as u32)
    }

    /// Appends the source of a row's file. Requires an index of a unit. Takes the rows by value, so
    /// that a caller that knows their source needn't have them in memory.
    #[inline(never)]
    fn add<R: Reader>(
        &mut self,
        origin: &Origin<'_, R>,
        rows: CoveringRows,
    ) -> Result<u32, MakeError>
        requires unit { rows.unit < length origin.now.lookup.now }
        requires found { AreFound origin.now.lookup.now rows }
        requires absent { All (λ k. k ≢ key_of rows) self.old.keys }
        requires are { AreSources
            (texts_seen R.seen origin.now.paths.now)
            origin.now.lookup.now origin.now.limit self.old }
        ensures are { OnOk result (AreSources
            (texts_seen R.seen origin.now.paths.now)
            origin.now.lookup.now origin.now.limit self.new) }
        ensures keeps { OnOk result (Keeps self.old self.new) }
        ensures number { IfOk result
            (λ number. slice_get self.new.keys number ≡ Some (key_of rows)) }
        ensures err { IfErr result (IsTableFault
            (texts_seen R.seen origin.now.paths.now)
            origin.now.lookup.now origin.now.limit) }
    {
        let number = self.sources.len();
        if number >= MOST {
            return Err(MakeError::TooManySources);
        }
        let unit = &origin.lookup.units()[rows.unit];
        let path = origin.path_of(unit, &rows.row)?;
        let offset = unit.offset().0.into_u64();
        let source = self.paths.source(origin.alloc, origin.limit, offset, path)?;
        let key = key_of(&rows);
        self.sources.push(source)?;
        self.keys.add(key)?;
        self.hints.set(key.unit, key.file, number as u32);
        Ok(number as u32)
    }

    /// The number of the source of a row's file, which is appended where there is none. Requires an
    /// index of a unit.
    #[inline(always)]
    pub(crate) fn source_of<R: Reader>(
        &mut self,
        origin: &Origin<'_, R>,
        rows: &CoveringRows,
    ) -> Result<u32, MakeError>
        requires unit { rows.now.unit < length origin.now.lookup.now }
        requires found { AreFound origin.now.lookup.now rows.now }
        requires are { AreSources
            (texts_seen R.seen origin.now.paths.now)
            origin.now.lookup.now origin.now.limit self.old }
        ensures are { OnOk result (AreSources
            (texts_seen R.seen origin.now.paths.now)
            origin.now.lookup.now origin.now.limit self.new) }
        ensures keeps { OnOk result (Keeps self.old self.new) }
        ensures number { IfOk result
            (λ number. slice_get self.new.keys number ≡ Some (key_of rows.now)) }
        ensures err { IfErr result (IsTableFault
            (texts_seen R.seen origin.now.paths.now)
            origin.now.lookup.now origin.now.limit) }
    {
        match self.number_of(key_of(rows)) {
            Some(number) => Ok(number),
            None => self.add(origin, *rows),
        }
    }

    /// The place of what a lookup finds. Requires an index of a unit.
    #[inline(always)]
    pub(crate) fn place_of<R: Reader>(
        &mut self,
        origin: &Origin<'_, R>,
        found: Option<CoveringRows>,
    ) -> Result<Option<SourceLine>, MakeError>
        requires unit { IfSome found (λ f. f.unit < length origin.now.lookup.now) }
        requires found { IfSome found (AreFound origin.now.lookup.now) }
        requires are { AreSources
            (texts_seen R.seen origin.now.paths.now)
            origin.now.lookup.now origin.now.limit self.old }
        ensures are { OnOk result (AreSources
            (texts_seen R.seen origin.now.paths.now)
            origin.now.lookup.now origin.now.limit self.new) }
        ensures keeps { OnOk result (Keeps self.old self.new) }
        ensures inside { IfOk result (IsInside self.new) }
        ensures place { IfOk result (λ place. place_in self.new place ≡ found_place
            (texts_seen R.seen origin.now.paths.now)
            origin.now.lookup.now found) }
        ensures column { IfOk result HasColumn }
        ensures err { IfErr result (IsTableFault
            (texts_seen R.seen origin.now.paths.now)
            origin.now.lookup.now origin.now.limit) }
    {
        let Some(rows) = found else {
            return Ok(None);
        };
        let line = line_of(&rows.row)?;
        let column = column_of(&rows.row)?;
        let source = self.source_of(origin, &rows)?;
        Ok(Some(SourceLine {
            source,
            line,
            column,
            is_stmt: rows.row.is_stmt(),
            prologue_end: rows.row.prologue_end(),
        }))
    }
}
