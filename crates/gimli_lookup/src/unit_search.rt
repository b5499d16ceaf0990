//! The search for the first rows round each of some addresses, while the rows of a unit come. No
//! other rows are kept.

ghost use Rattle.std.specs.Prelude.{◌≡◌, ◌≤◌, ℕ, List, take, All, IfErr, IfOk, IsTrue, MatchOption};
ghost use Rattle.std.specs.Prelude.{OnOk};
ghost use Rattle.gimli_line.specs.declared.run.row.LineRow.{LineRow};
ghost use Rattle.gimli_line.specs.header.Orders.{source_of};
ghost use Rattle.gimli_line.specs.run.Rows.{whole_run, KeepsRun};
ghost use Rattle.gimli_lookup.specs.Section.{header_of};
ghost use Rattle.gimli_lookup.specs.UnitRun.{IsKept};
ghost use Rattle.gimli_lookup.specs.inside.SequenceCut.{AreTaken};
ghost use Rattle.gimli_lookup.specs.inside.SequenceCut.{SequenceCut, with_row, with_place};
ghost use Rattle.gimli_lookup.specs.inside.SequenceCut.{with_open, with_part, with_end};
ghost use Rattle.gimli_lookup.specs.inside.UnitSearch.{first_covering, no_pairs, pair_with};
ghost use Rattle.gimli_lookup.specs.inside.UnitSearch.{AreKeptBehind, IsFoundOf, Sees};

use crate::covering_pairs::{clear_from, keep_pair};
use crate::section_lookup::CoveringRows;
use crate::sequence_cut::stands;
use crate::unit_run::as_fault;
use gimli_core::{Error, Reader, ReaderOffset, Result};
use gimli_line::{IncompleteLineProgram, LineRow, OneShotLineRows};
use std::alloc::Global;
use std::marker::Model;

/// How far a search in the rows of a unit has come.
#[derive(Drop)]
pub(crate) struct UnitSearch {
    /// The index of the unit.
    unit: usize,
    /// The address below which no row stands.
    lowest: u64,
    /// Pairs of the sequences that have ended, and then those of the open one.
    pairs: Vec<CoveringRows>,
    /// How many of them are of sequences that have ended.
    ended: usize,
    /// The last row of the part that is open.
    last: Option<LineRow>,
    /// No address is asked for from that row on up to this one.
    clear: u64,
}

impl Model for UnitSearch {
    ghost use Rattle.gimli_lookup.specs.inside.UnitSearch.{UnitSearch};

    ghost Value = { UnitSearch };

    ghost view = { λ a. record {
      unit = a.unit;
      lowest = a.lowest;
      pairs = a.pairs.items;
      ended = a.ended;
      last = a.last;
      clear = a.clear;
    } };
}

impl UnitSearch {
    /// Before the first row of the unit of an index.
    fn new(alloc: Global, unit: usize, lowest: u64) -> Self
        ensures { result ≡ no_pairs unit lowest }
    {
        UnitSearch {
            unit,
            lowest,
            pairs: Vec::new(alloc),
            ended: 0,
            last: None,
            clear: 0,
        }
    }

    /// Takes in the next row that the program makes. Fails only with `OutOfMemory`.
    #[inline(always)]
    fn row(&mut self, row: &LineRow, addresses: &[u64]) -> Result<()>
        ensures ok { OnOk result ((unit : ℕ) (cut : SequenceCut)
            → Sees unit addresses.now cut self.old
            → Sees unit addresses.now (with_row row.now cut) self.new) }
        ensures err { IfErr result (λ e. e ≡ Error.OutOfMemory) }
    {
        self.place(row, addresses)?;
        if !row.end_sequence() {
            return Ok(());
        }
        self.end_sequence();
        Ok(())
    }

    /// Takes in a row that goes to the part that is open, or ends it. Fails only with
    /// `OutOfMemory`.
    #[inline(always)]
    fn place(&mut self, row: &LineRow, addresses: &[u64]) -> Result<()>
        ensures ok { OnOk result ((unit : ℕ) (cut : SequenceCut)
            → Sees unit addresses.now cut self.old
            → Sees unit addresses.now (with_place row.now cut) self.new) }
        ensures err { IfErr result (λ e. e ≡ Error.OutOfMemory) }
    {
        if stands(row, self.lowest) {
            return self.add(row, addresses);
        }
        self.end_part();
        Ok(())
    }

    /// Takes in a row of the part that is open, or of a new one. Fails only with `OutOfMemory`.
    #[inline(always)]
    fn add(&mut self, row: &LineRow, addresses: &[u64]) -> Result<()>
        ensures ok { OnOk result ((unit : ℕ) (cut : SequenceCut)
            → Sees unit addresses.now cut self.old
            → Sees unit addresses.now (with_open row.now cut) self.new) }
        ensures err { IfErr result (λ e. e ≡ Error.OutOfMemory) }
    {
        if !self.is_clear_to(row) {
            return self.add_pair(row, addresses);
        }
        self.last = Some(*row);
        Ok(())
    }

    /// Does what `add` does, and keeps the pair of the last row and this one, if one of the
    /// addresses needs it. Fails only with `OutOfMemory`.
    fn add_pair(&mut self, row: &LineRow, addresses: &[u64]) -> Result<()>
        ensures ok { OnOk result ((unit : ℕ) (cut : SequenceCut)
            → Sees unit addresses.now cut self.old
            → Sees unit addresses.now (with_open row.now cut) self.new) }
        ensures err { IfErr result (λ e. e ≡ Error.OutOfMemory) }
    {
        self.keep_pair_with(row, addresses)?;
        self.clear = clear_from(addresses, row.address());
        self.last = Some(*row);
        Ok(())
    }

    /// Whether a row goes on from the last one past no address that is asked for.
    #[inline(always)]
    fn is_clear_to(&self, row: &LineRow) -> bool
        ensures { IsTrue result → MatchOption self.now.last ⊥
            (λ last. (last.address ≤ row.now.address) × (row.now.address ≤ self.now.clear)) }
    {
        match &self.last {
            Some(last) => last.address() <= row.address() && row.address() <= self.clear,
            None => false,
        }
    }

    /// Keeps the pair of the last row and the next one, if one of the addresses needs it. Fails
    /// only with `OutOfMemory`.
    fn keep_pair_with(&mut self, row: &LineRow, addresses: &[u64]) -> Result<()>
        ensures ok { OnOk result (AreKeptBehind addresses.now self.old.pairs
            (pair_with self.old.unit self.old.last row.now) self.new.pairs) }
        ensures same { self.new ≡ record self.old { pairs = self.new.pairs } }
        ensures err { IfErr result (λ e. e ≡ Error.OutOfMemory) }
    {
        let Some(last) = self.last else {
            return Ok(());
        };
        let pair = CoveringRows {
            unit: self.unit,
            row: last,
            next: *row,
        };
        keep_pair(addresses, &mut self.pairs, pair)
    }

    /// Ends the part that is open.
    #[inline(always)]
    fn end_part(&mut self)
        ensures { (unit : ℕ) (addresses : List ℕ) (cut : SequenceCut)
            → Sees unit addresses cut self.old → Sees unit addresses (with_part cut) self.new }
    {
        self.last = None;
    }

    /// Ends the sequence that is open.
    fn end_sequence(&mut self)
        ensures { (unit : ℕ) (addresses : List ℕ) (cut : SequenceCut)
            → Sees unit addresses cut self.old → Sees unit addresses (with_end cut) self.new }
    {
        self.end_part();
        self.ended = self.pairs.len();
    }

    /// The pairs of the sequences that have ended.
    fn into_pairs(self) -> Vec<CoveringRows>
        ensures { result.items ≡ take self.ended self.pairs }
    {
        let mut pairs = self.pairs;
        pairs.truncate(self.ended);
        pairs
    }
}

/// Takes in the rows to come, those under a tombstone too, up to the first fault, which it returns.
/// Fails only with `OutOfMemory`.
fn search_rows<R: Reader>(
    run: &mut OneShotLineRows<R>,
    search: &mut UnitSearch,
    addresses: &[u64],
) -> Result<Option<Error>>
    ensures ok { IfOk result (λ fault. (unit : ℕ) (from : SequenceCut)
        → Sees unit addresses.now from search.old → (to : SequenceCut)
        × AreTaken run.old run.new fault from to × Sees unit addresses.now to search.new) }
    ensures err { IfErr result (λ e. e ≡ Error.OutOfMemory) }
{
    'rows: loop {
        match run.next_any_row() {
            Ok(Some((_, row))) => search.row(row, addresses)?,
            Ok(None) => return Ok(None),
            Err(e) => return as_fault(e),
        }
    }
}

/// What a search in a unit finds: where its run stands after its last row before the first fault,
/// this fault, and pairs of rows.
#[derive(Drop)]
pub(crate) struct UnitFound<R: Reader> {
    pub(crate) run: OneShotLineRows<R>,
    pub(crate) fault: Option<Error>,
    pub(crate) pairs: Vec<CoveringRows>,
}

/// Runs a program up to its first fault, and keeps for each address the first rows that cover it,
/// of the sequences that have ended before. Fails only with `OutOfMemory`.
pub(crate) fn search_unit<R: Reader>(
    alloc: Global,
    program: IncompleteLineProgram<R>,
    unit: usize,
    lowest: u64,
    addresses: &[u64],
) -> Result<UnitFound<R>>
    ensures found { IfOk result (λ found. (parts : List (List LineRow))
        × IsKept program.layout lowest program.meaning (header_of found.run) found.fault parts
        × All (λ a. IsFoundOf unit parts a (first_covering a found.pairs.items)) addresses.now) }
    ensures run { IfOk result (λ found. KeepsRun
        (whole_run program.meaning (source_of R.seen R.Offset.number program)) found.run) }
    ensures err { IfErr result (λ e. e ≡ Error.OutOfMemory) }
{
    let mut run = program.rows();
    let mut search = UnitSearch::new(alloc, unit, lowest);
    let fault = search_rows(&mut run, &mut search, addresses)?;
    Ok(UnitFound {
        run,
        fault,
        pairs: search.into_pairs(),
    })
}
