//! Rows kept in few bytes each, for callers that hold all rows of a unit: most have small numbers.

ghost use Rattle.std.specs.Prelude.{◌↔◌, IsTrue};
ghost use Rattle.gimli_line.specs.inside.run.Rows.{IsNarrow};

use crate::header::tables::push;
use crate::run::row::LineRow;
use gimli_core::{Error, Result};
use std::alloc::Global;
use std::marker::Model;

/// A row whose op_index fits into 8 bits, and whose other numbers, but for the address, fit
/// into 32.
#[derive(Clone, Copy, Debug)]
struct NarrowRow {
    address: u64,
    file: u32,
    line: u32,
    column: u32,
    isa: u32,
    discriminator: u32,
    op_index: u8,
    tombstone: bool,
    is_stmt: bool,
    basic_block: bool,
    end_sequence: bool,
    prologue_end: bool,
    epilogue_begin: bool,
}

/// Whether all numbers of a row fit a narrow one. Five of them are tested at once: a number that
/// has the bits of all five is below 2^32 where each of the five is.
fn is_narrow(row: &LineRow) -> bool
    ensures { IsTrue result ↔ IsNarrow row.now }
{
    let numbers = row.file | row.line | row.column | row.isa | row.discriminator;
    row.op_index < 1 << 8 && numbers < 1 << 32
}

impl NarrowRow {
    ghost use Rattle.std.specs.Prelude.{◌≡◌};
    ghost use Rattle.gimli_line.specs.run.Row.{row_of_narrow};
    ghost use Rattle.gimli_line.specs.inside.run.Rows.{IsNarrow};

    /// A row in narrow numbers. Requires that they fit.
    fn new(row: &LineRow) -> NarrowRow
        requires { IsNarrow row.now }
        ensures { row_of_narrow result ≡ row.now }
    {
        NarrowRow {
            address: row.address,
            file: row.file as u32,
            line: row.line as u32,
            column: row.column as u32,
            isa: row.isa as u32,
            discriminator: row.discriminator as u32,
            op_index: row.op_index as u8,
            tombstone: row.tombstone,
            is_stmt: row.is_stmt,
            basic_block: row.basic_block,
            end_sequence: row.end_sequence,
            prologue_end: row.prologue_end,
            epilogue_begin: row.epilogue_begin,
        }
    }

    /// The row.
    fn row(&self) -> LineRow
        ensures { result ≡ row_of_narrow self.now }
    {
        LineRow {
            tombstone: self.tombstone,
            address: self.address,
            op_index: u64::from(self.op_index),
            file: u64::from(self.file),
            line: u64::from(self.line),
            column: u64::from(self.column),
            is_stmt: self.is_stmt,
            basic_block: self.basic_block,
            end_sequence: self.end_sequence,
            prologue_end: self.prologue_end,
            epilogue_begin: self.epilogue_begin,
            isa: u64::from(self.isa),
            discriminator: u64::from(self.discriminator),
        }
    }
}

/// A row as it is kept.
#[derive(Debug, Drop)]
enum StoredRow {
    Narrow(NarrowRow),
    /// A row with a number that doesn't fit, in memory of its own.
    Wide(Box<LineRow>),
}

const _: () = prove!(size_of::<StoredRow>() <= 48);

impl StoredRow {
    ghost use Rattle.std.specs.Prelude.{◌≡◌};
    ghost use Rattle.gimli_line.specs.run.Row.{row_of_stored};

    /// The row.
    fn row(&self) -> LineRow
        ensures { result ≡ row_of_stored self.now }
    {
        match self {
            StoredRow::Narrow(narrow) => narrow.row(),
            StoredRow::Wide(row) => **row,
        }
    }

    /// The address of the row.
    fn address(&self) -> u64
        ensures { result ≡ (row_of_stored self.now).address }
    {
        match self {
            StoredRow::Narrow(narrow) => narrow.address,
            StoredRow::Wide(row) => row.address,
        }
    }
}

/// Rows in their order, each in 48 bytes. A row that has a number of 2^32 or more, its address
/// aside, or an op_index of 2^8 or more, takes memory of its own in addition.
///
/// <!-- part of crates/gimli_lookup/src/sequence_cut.rt -->
/// ```rust
/// if stands(row, self.lowest) {
///     self.rows.push(row)?;
/// } else {
///     self.end_part()?;
/// }
/// ```
#[derive(Debug, Drop)]
pub struct RowList {
    rows: Vec<StoredRow>,
}

impl Model for RowList {
    ghost use Rattle.std.specs.Prelude.{List, map};
    ghost use Rattle.gimli_line.specs.declared.run.row.LineRow.{LineRow};
    ghost use Rattle.gimli_line.specs.run.Row.{row_of_stored};

    ghost Value = { List LineRow };

    ghost view = { λ a. map row_of_stored a.rows.items };
}

impl RowList {
    ghost use Rattle.std.specs.Prelude.{◌≡◌, ◌<◌, ◌↔◌, [], ◌∷◌, ◌++◌, length, slice_get};
    ghost use Rattle.std.specs.Prelude.{slice_index_or, IfErr, IfOk, IsTrue, OnErr, OnOk};
    ghost use Rattle.gimli_line.specs.declared.run.row.LineRow.{LineRow};

    /// No rows. Takes no memory.
    pub fn new(alloc: Global) -> RowList
        ensures { result ≡ [] }
    {
        RowList {
            rows: Vec::new(alloc),
        }
    }

    /// Appends a row. Fails only with `OutOfMemory`; the list is then as it was.
    #[inline(always)]
    pub fn push(&mut self, row: &LineRow) -> Result<()>
        ensures ok { OnOk result (self.new ≡ self.old ++ row.now ∷ []) }
        ensures err { IfErr result (λ e. e ≡ Error.OutOfMemory) }
        ensures kept { OnErr result (self.new ≡ self.old) }
    {
        if is_narrow(row) {
            return push(&mut self.rows, StoredRow::Narrow(NarrowRow::new(row)));
        }
        self.push_wide(row)
    }

    /// Appends a row in memory of its own. Fails only with `OutOfMemory`; the list is then as it
    /// was.
    #[inline(never)]
    fn push_wide(&mut self, row: &LineRow) -> Result<()>
        ensures ok { OnOk result (self.new ≡ self.old ++ row.now ∷ []) }
        ensures err { IfErr result (λ e. e ≡ Error.OutOfMemory) }
        ensures kept { OnErr result (self.new ≡ self.old) }
    {
        match Box::new(*self.rows.allocator(), *row) {
            Ok(wide) => push(&mut self.rows, StoredRow::Wide(wide)),
            Err(_) => Err(Error::OutOfMemory),
        }
    }

    /// Moves the rows into a list of their own, which has no more room than they need. This list is
    /// empty then, and keeps its room for the rows to come. Fails only with `OutOfMemory`; this
    /// list is then as it was.
    pub fn take(&mut self) -> Result<RowList>
        ensures ok { IfOk result (λ rows. rows ≡ self.old) }
        ensures emptied { OnOk result (self.new ≡ []) }
        ensures err { IfErr result (λ e. e ≡ Error.OutOfMemory) }
        ensures kept { OnErr result (self.new ≡ self.old) }
    {
        let mut rows = Vec::new(*self.rows.allocator());
        match rows.append(&mut self.rows) {
            Ok(()) => Ok(RowList { rows }),
            Err(_) => Err(Error::OutOfMemory),
        }
    }

    /// Removes the rows, and keeps their room.
    pub fn clear(&mut self)
        ensures { self.new ≡ [] }
    {
        self.rows.clear();
    }

    /// How many rows there are.
    pub fn len(&self) -> usize
        ensures { result ≡ length self.now }
    {
        self.rows.len()
    }

    /// Whether there are no rows.
    pub fn is_empty(&self) -> bool
        ensures { IsTrue result ↔ (self.now ≡ []) }
    {
        self.rows.is_empty()
    }

    /// The row at an index, from 0 on; None past the end.
    pub fn get(&self, index: usize) -> Option<LineRow>
        ensures { result ≡ slice_get self.now index }
    {
        self.rows.get(index).map(StoredRow::row)
    }

    /// The address of the row at an index, in bytes. Requires an index of a row.
    pub fn address(&self, index: usize) -> u64
        requires { index < length self.now }
        ensures { (d : LineRow) → result ≡ (slice_index_or self.now index d).address }
    {
        self.rows[index].address()
    }
}
