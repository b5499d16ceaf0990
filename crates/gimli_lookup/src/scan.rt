//! Sequences whose addresses go down, which only a lookup over one program may have: they are
//! searched row by row.

ghost use Rattle.std.specs.Prelude.{◌≡◌, ◌≤◌, ◌<◌, ◌+◌, ◌*◌, ◌^◌, length, sum_by, take};
ghost use Rattle.std.specs.Prelude.{All, Any, IfErr, IfOk, MatchOption};
ghost use Rattle.gimli_lookup.specs.inside.FirstPair.{HasNoPair, IsFirstPairOf};
ghost use Rattle.gimli_lookup.specs.inside.FirstPair.{IsFirstPairIn};
ghost use Rattle.gimli_lookup.specs.Covering.{covering_probes};
ghost use Rattle.gimli_lookup.specs.Probes.{binary_digits};
ghost use Rattle.gimli_lookup.specs.Scan.{indexes_out_of_order, most_probes, scan_probes};
ghost use Rattle.gimli_lookup.specs.Scan.{IsLookedInto, IsScanTableOf};
ghost use Rattle.gimli_lookup.specs.inside.Steps.{HaveNoUnorderedPair, IsFirstUnorderedPair};

use crate::kept_rows::KeptRows;
use crate::search::find_by_halves;
use crate::step_table::{Found, StepTable, sequence_at};
use gimli_core::{Error, Result};
use gimli_line::LineRow;
use std::alloc::Global;

/// Which of some sequences is the first that covers an address. Sequences whose addresses go down
/// are listed apart, and are searched row by row.
#[derive(Debug, Drop)]
pub(crate) struct ScanTable {
    table: StepTable,
    unordered: Vec<usize>,
}

/// The first rows that cover `a`, found row by row.
pub(crate) fn find_by_scan(rows: &KeptRows, a: u64, probes: &mut u64) -> Option<(LineRow, LineRow)>
    requires count { probes.old + length rows.now < 2 ^ 64 }
    ensures pair { MatchOption result (HasNoPair a rows.now)
        (λ pair. IsFirstPairOf a rows.now pair.0 pair.1) }
    ensures grows { probes.old ≤ probes.new }
    ensures at_least { 0 < length rows.now → probes.old < probes.new }
    ensures at_most { probes.new ≤ probes.old + length rows.now }
{
    let mut is_from = false;
    for index in 0..rows.len() {
        let address = rows.address(index, probes);
        if is_from && a < address {
            return Some(rows.pair(index));
        }
        is_from = address <= a;
    }
    None
}

/// The first rows of a sequence that cover `a`; None where there are none. Counts its probes.
pub(crate) fn find(rows: &KeptRows, a: u64, probes: &mut u64) -> Option<(LineRow, LineRow)>
    requires count { probes.old + length rows.now < 2 ^ 64 }
    ensures pair { MatchOption result (HasNoPair a rows.now)
        (λ pair. IsFirstPairOf a rows.now pair.0 pair.1) }
    ensures grows { probes.old ≤ probes.new }
    ensures at_least { 0 < length rows.now → probes.old < probes.new }
    ensures at_most { probes.new ≤ probes.old + most_probes rows.now }
{
    if rows.never_go_down() {
        find_by_halves(rows, a, probes)
    } else {
        find_by_scan(rows, a, probes)
    }
}

/// The indices of the sequences whose addresses go down. Fails only with `OutOfMemory`.
fn unordered_indexes(alloc: Global, sequences: &[KeptRows]) -> Result<Vec<usize>>
    ensures ok { IfOk result (λ indexes. indexes.items ≡ indexes_out_of_order 0 sequences.now) }
    ensures err { IfErr result (λ e. e ≡ Error.OutOfMemory) }
{
    let mut indexes = Vec::new(alloc);
    for index in 0..sequences.len() {
        let rows = &sequences[index];
        if !rows.never_go_down() && indexes.push(index).is_err() {
            return Err(Error::OutOfMemory);
        }
    }
    Ok(indexes)
}

/// The first rows that cover `a`, of the sequences whose addresses go down and that stand before
/// `end`; None where there are none. Each is searched row by row.
#[inline(always)]
fn find_unordered(
    indexes: &[usize],
    sequences: &[KeptRows],
    end: usize,
    a: u64,
    probes: &mut u64,
) -> Option<Found>
    requires indexes { indexes.now ≡ indexes_out_of_order 0 sequences.now }
    requires end { end ≤ length sequences.now }
    requires count { probes.old + sum_by length sequences.now < 2 ^ 64 }
    ensures found { MatchOption result (HaveNoUnorderedPair a (take end sequences.now))
        (λ found. IsFirstUnorderedPair a end sequences.now found.sequence found.row found.next) }
    ensures grows { probes.old ≤ probes.new }
    ensures at_least { end ≡ length sequences.now → 0 < sum_by scan_probes sequences.now
        → probes.old < probes.new }
    ensures at_most { probes.new ≤ probes.old + sum_by scan_probes sequences.now }
{
    for index in indexes {
        if end <= *index {
            return None;
        }
        if let Some((row, next)) = find_by_scan(&sequences[*index], a, probes) {
            return Some(Found {
                sequence: *index,
                row,
                next,
            });
        }
    }
    None
}

impl ScanTable {
    /// The table of these sequences. Fails only with `OutOfMemory`.
    pub(crate) fn new(alloc: Global, sequences: &[KeptRows]) -> Result<ScanTable>
        ensures ok { IfOk result (λ table. IsScanTableOf table sequences.now) }
        ensures err { IfErr result (λ e. e ≡ Error.OutOfMemory) }
    {
        let table = StepTable::new(alloc, sequences)?;
        let unordered = unordered_indexes(alloc, sequences)?;
        Ok(ScanTable { table, unordered })
    }

    /// The first rows that cover `a` of the first of these sequences that has some, with its index;
    /// None where no sequence has any. And the number of probes: of stored addresses that were
    /// looked at, of steps and of rows. Requires the sequences that the table was made of.
    #[inline(always)]
    pub(crate) fn find(&self, sequences: &[KeptRows], a: u64) -> (Option<Found>, u64)
        requires { IsScanTableOf self.now sequences.now }
        ensures found { MatchOption result.0 (All (HasNoPair a) sequences.now)
            (λ found. IsFirstPairIn a sequences.now found.sequence found.row found.next) }
        ensures at_least { Any IsLookedInto sequences.now → 1 ≤ result.1 }
        ensures at_most { result.1 ≤ binary_digits (2 * length sequences.now)
            + covering_probes a sequences.now + sum_by scan_probes sequences.now }
    {
        let unordered = self.unordered.as_slice();
        let mut probes = 0;
        let Some(sequence) = sequence_at(self.table.steps.as_slice(), a, &mut probes) else {
            let found = find_unordered(unordered, sequences, sequences.len(), a, &mut probes);
            return (found, probes);
        };
        if let Some(found) = find_unordered(unordered, sequences, sequence, a, &mut probes) {
            return (Some(found), probes);
        }
        let Some((row, next)) = find_by_halves(&sequences[sequence], a, &mut probes) else {
            return (None, probes);
        };
        let found = Found {
            sequence,
            row,
            next,
        };
        (Some(found), probes)
    }
}
