//! The rows of a unit, cut as they come into sequences, and these into their parts that stand.

ghost use Rattle.std.specs.Prelude.{◌≡◌, [], take, IfErr, OnOk};
ghost use Rattle.gimli_lookup.specs.UnitRun.{stands};

use crate::kept_rows::KeptRows;
use gimli_core::{Error, Result};
use gimli_line::{LineRow, RowList};
use std::alloc::Global;
use std::marker::Model;

/// Whether a row is neither under a tombstone nor below an address.
pub(crate) fn stands(row: &LineRow, lowest: u64) -> bool
    ensures { result ≡ stands lowest row.now }
{
    !row.is_under_tombstone() && lowest <= row.address()
}

/// The parts so far, of rows that stand side by side in one sequence.
#[derive(Drop)]
pub(crate) struct SequenceCut {
    /// The address below which no row stands.
    lowest: u64,
    /// The parts of the sequences that have ended, and then those of the open one.
    parts: Vec<KeptRows>,
    /// How many of them are of sequences that have ended.
    ended: usize,
    /// The rows of the part that is open.
    rows: RowList,
}

impl Model for SequenceCut {
    ghost use Rattle.gimli_lookup.specs.inside.SequenceCut.{SequenceCut};

    ghost Value = { SequenceCut };

    ghost view = { λ a. record {
      lowest = a.lowest;
      parts = a.parts.items;
      ended = a.ended;
      rows = a.rows;
    } };
}

impl SequenceCut {
    ghost use Rattle.gimli_lookup.specs.inside.SequenceCut.{no_rows, with_end, with_part, with_row};

    /// No rows yet.
    pub(crate) fn new(alloc: Global, lowest: u64) -> Self
        ensures { result ≡ no_rows lowest }
    {
        SequenceCut {
            lowest,
            parts: Vec::new(alloc),
            ended: 0,
            rows: RowList::new(alloc),
        }
    }

    /// Takes in the next row that the program makes. Fails only with `OutOfMemory`.
    #[inline(always)]
    pub(crate) fn row(&mut self, row: &LineRow) -> Result<()>
        ensures ok { OnOk result (self.new ≡ with_row row.now self.old) }
        ensures err { IfErr result (λ e. e ≡ Error.OutOfMemory) }
    {
        if stands(row, self.lowest) {
            self.rows.push(row)?;
        } else {
            self.end_part()?;
        }
        if row.end_sequence() {
            self.end_sequence()?;
        }
        Ok(())
    }

    /// Ends the part that is open. Fails only with `OutOfMemory`.
    fn end_part(&mut self) -> Result<()>
        ensures ok { OnOk result (self.new ≡ with_part self.old) }
        ensures err { IfErr result (λ e. e ≡ Error.OutOfMemory) }
    {
        if self.rows.is_empty() {
            return Ok(());
        }
        let rows = self.rows.take()?;
        if self.parts.reserve(1).is_err() {
            return Err(Error::OutOfMemory);
        }
        self.parts.push_reserved(KeptRows::new(rows));
        Ok(())
    }

    /// Ends the sequence that is open. Fails only with `OutOfMemory`.
    fn end_sequence(&mut self) -> Result<()>
        ensures ok { OnOk result (self.new ≡ with_end self.old) }
        ensures err { IfErr result (λ e. e ≡ Error.OutOfMemory) }
    {
        self.end_part()?;
        self.ended = self.parts.len();
        Ok(())
    }

    /// The parts of the sequences that have ended.
    pub(crate) fn into_parts(self) -> Vec<KeptRows>
        ensures { result.items ≡ take self.ended self.parts }
    {
        let mut parts = self.parts;
        parts.truncate(self.ended);
        parts
    }
}
