//! The rows of a program, kept so that those that cover an address are found.

ghost use Rattle.std.specs.Prelude.{◌≡◌, ◌≢◌, ◌≤◌, ◌+◌, ◌*◌, length, map, nat_eq, sum_by, Any};
ghost use Rattle.std.specs.Prelude.{IfErr, IfOk};
ghost use Rattle.gimli_line.specs.header.Orders.{source_of, KeepsSource};
ghost use Rattle.gimli_line.specs.run.Events.{row};
ghost use Rattle.gimli_line.specs.run.Sequences.{sequence_of, AreSequences, HasFirstFault};
ghost use Rattle.gimli_line.specs.run.Sequences.{HaveRuns};
ghost use Rattle.gimli_lookup.specs.FirstPair.{first_pair_of};
ghost use Rattle.gimli_lookup.specs.Run.{AreRowsThroughLastEnd};
ghost use Rattle.gimli_lookup.specs.Run.{AreRowsOfSequences};
ghost use Rattle.gimli_lookup.specs.Covering.{covering_probes};
ghost use Rattle.gimli_lookup.specs.Probes.{binary_digits};
ghost use Rattle.gimli_lookup.specs.Scan.{most_probes, scan_probes, IsLookedInto};
ghost use Rattle.gimli_lookup.specs.Statements.{addresses_of, AreAddressesFrom};

use crate::kept_rows::KeptRows;
use crate::scan::{self, ScanTable};
use crate::statements::{self, Addresses};
use gimli_core::{Error, Reader, Result};
use gimli_line::{
    CompleteLineProgram, IncompleteLineProgram, LineProgramHeader, LineRow, LineSequence, RowList,
};
use std::alloc::Global;
use std::marker::Model;

/// Keeps the rows of each sequence. Fails only with `OutOfMemory`.
fn keep_each(alloc: Global, rows: Vec<RowList>) -> Result<Vec<KeptRows>>
    ensures ok { IfOk result (λ kept. kept.items ≡ rows.items) }
    ensures err { IfErr result (λ e. e ≡ Error.OutOfMemory) }
{
    let Ok(mut kept) = Vec::with_capacity(alloc, rows.len()) else {
        return Err(Error::OutOfMemory);
    };
    for of_sequence in rows {
        if kept.reserve(1).is_err() {
            return Err(Error::OutOfMemory);
        }
        kept.push_reserved(KeptRows::new(of_sequence));
    }
    Ok(kept)
}

/// The rows of a line program, kept so that those that cover an address are found.
#[derive(Drop)]
#[derive_where(Debug; R, R::Offset)]
pub struct Lookup<R: Reader> {
    program: CompleteLineProgram<R>,
    sequences: Vec<LineSequence<R>>,
    rows: Vec<KeptRows>,
    table: ScanTable,
}

impl<R: Reader> Model for Lookup<R> {
    ghost use Rattle.std.specs.Prelude.{map};
    ghost use Rattle.gimli_line.specs.header.Orders.{source_of};
    ghost use Rattle.gimli_line.specs.run.Sequences.{sequence_of};
    ghost use Rattle.gimli_lookup.specs.Run.{Kept};
    ghost use Rattle.gimli_lookup.specs.Scan.{IsScanTableOf};

    ghost Value = { Kept };

    ghost view = { λ a. record {
      header = a.program.meaning;
      source = source_of R.seen R.Offset.number a.program;
      parts = map sequence_of a.sequences.items;
      rows = a.rows.items;
    } };

    ghost invariant = { λ a. IsScanTableOf a.table a.rows.items };
}

impl<R: Reader> Lookup<R> {
    /// Runs the whole program, and keeps the rows of each of its sequences. Rows after the last end
    /// row are in no sequence. Refused as `sequences` is: by the first fault of the run, wherever
    /// it stands; or by `OutOfMemory`.
    pub fn new(program: IncompleteLineProgram<R>) -> Result<Lookup<R>>
        ensures sequences { IfOk result (λ lookup.
            AreSequences program.layout program.meaning lookup.header lookup.parts) }
        ensures each { IfOk result (λ lookup.
            HaveRuns lookup.header lookup.parts (map (map row) lookup.rows)) }
        ensures joined { IfOk result (λ lookup.
            AreRowsThroughLastEnd program.layout program.meaning lookup.rows) }
        ensures cut { IfOk result (λ lookup.
            AreRowsOfSequences program.layout program.meaning lookup.rows) }
        ensures source { IfOk result (λ lookup. KeepsSource (λ order. program.layout.is_big ≡ order)
            (source_of R.seen R.Offset.number program) lookup.source) }
        ensures err { IfErr result (λ e. e ≢ Error.OutOfMemory
            → HasFirstFault program.layout program.meaning e) }
    {
        let (program, sequences, rows) = program.sequences_with_rows()?;
        let rows = keep_each(*sequences.allocator(), rows)?;
        let table = ScanTable::new(*sequences.allocator(), rows.as_slice())?;
        Ok(Lookup {
            program,
            sequences,
            rows,
            table,
        })
    }

    /// The header of the program, with all files.
    pub fn header(&self) -> &LineProgramHeader<R>
        ensures header { result.now.meaning ≡ self.now.header }
        ensures source { source_of R.seen R.Offset.number result.now ≡ self.now.source }
    {
        self.program.header()
    }

    /// The sequences of the program, in its order.
    pub fn sequences(&self) -> &[LineSequence<R>]
        ensures { map sequence_of result.now ≡ self.now.parts }
    {
        self.sequences.as_slice()
    }

    /// The rows that cover the address `a`: the first pair of adjacent rows of one sequence where
    /// the first row has an address at most `a`, and the second has an address above `a`. None
    /// where there are none. Takes no memory.
    pub fn find(&self, a: u64) -> Option<(LineRow, LineRow)>
        ensures { result ≡ first_pair_of a self.now.rows }
    {
        self.find_indexed_counted(a).0
    }

    /// What `find` returns, and the number of probes that it takes: of stored addresses that are
    /// looked at. A sequence whose addresses never go down is found by halves, however many there
    /// are and however they overlap, and then its rows by halves; the others are searched row by
    /// row.
    pub fn find_indexed_counted(&self, a: u64) -> (Option<(LineRow, LineRow)>, u64)
        ensures pair { result.0 ≡ first_pair_of a self.now.rows }
        ensures at_least { Any IsLookedInto self.now.rows → 1 ≤ result.1 }
        ensures at_most { result.1 ≤ binary_digits (2 * length self.now.rows)
            + covering_probes a self.now.rows + sum_by scan_probes self.now.rows }
    {
        let (found, count) = self.table.find(self.rows.as_slice(), a);
        match found {
            Some(found) => (Some((found.row, found.next)), count),
            None => (None, count),
        }
    }

    /// What `find` returns, found by going over the sequences one after the other, and the number
    /// of probes that this takes: of times that the address of a row is read. In a sequence whose
    /// addresses never go down the rows are searched by halves, in any other one by one.
    pub fn find_counted(&self, a: u64) -> (Option<(LineRow, LineRow)>, u64)
        ensures pair { result.0 ≡ first_pair_of a self.now.rows }
        ensures at_least { Any (λ rows. 2 ≤ length rows) self.now.rows → 1 ≤ result.1 }
        ensures at_most { result.1 ≤ sum_by most_probes self.now.rows }
    {
        let mut probes = 0;
        for rows in &self.rows {
            if let Some(pair) = scan::find(rows, a, &mut probes) {
                return (Some(pair), probes);
            }
        }
        (None, probes)
    }

    /// The addresses for a breakpoint at a line of a file, by the file's index in the header: from
    /// each run of adjacent rows of that line in a sequence, the address of the first row with
    /// `is_stmt` (DWARF 5, section 6.2.2); in ascending order, each once. If the line has none,
    /// those of the next line that has; None if no line from it on has any. Fails only with
    /// `OutOfMemory`.
    pub fn addresses_of_file(&self, file: u64, line: u64) -> Result<Option<Addresses>>
        ensures ok { IfOk result
            (AreAddressesFrom (addresses_of (nat_eq file) self.now.rows) line) }
        ensures err { IfErr result (λ e. e ≡ Error.OutOfMemory) }
    {
        statements::addresses_from(*self.rows.allocator(), &self.rows, &[file], line)
    }
}
