//! The search for the rows of one sequence that cover an address.

ghost use Rattle.std.specs.Prelude.{◌≡◌, ◌≤◌, ◌<◌, ◌+◌, ◌^◌, ℕ, true, length, slice_index_or};
ghost use Rattle.std.specs.Prelude.{MatchOption};
ghost use Rattle.gimli_line.specs.declared.run.row.LineRow.{LineRow};
ghost use Rattle.gimli_lookup.specs.inside.FirstPair.{HasNoPair, IsFirstPairOf};
ghost use Rattle.gimli_lookup.specs.Probes.{never_go_down, binary_digits};

use crate::kept_rows::KeptRows;
use gimli_line::LineRow;

/// The index of the first row whose address is above `a`, or the number of rows where there is
/// none. Requires addresses that never go down.
pub(crate) fn first_above(rows: &KeptRows, a: u64, probes: &mut u64) -> usize
    requires order { never_go_down rows.now ≡ true }
    requires count { probes.old + length rows.now < 2 ^ 64 }
    ensures index { result ≤ length rows.now }
    ensures before { (k : ℕ) (d : LineRow) → k < result
        → (slice_index_or rows.now k d).address ≤ a }
    ensures after { (k : ℕ) (d : LineRow) → result ≤ k → k < length rows.now
        → a < (slice_index_or rows.now k d).address }
    ensures grows { probes.old ≤ probes.new }
    ensures at_least { 0 < length rows.now → probes.old < probes.new }
    ensures at_most { probes.new ≤ probes.old + binary_digits (length rows.now) }
{
    let mut low = 0;
    let mut high = rows.len();
    while low < high {
        let middle = low + (high - low) / 2;
        if rows.address(middle, probes) <= a {
            low = middle + 1;
        } else {
            high = middle;
        }
    }
    low
}

/// The first rows that cover `a`, found by halves. Requires addresses that never go down. In line,
/// so that the rows are copied once.
#[inline(always)]
pub(crate) fn find_by_halves(
    rows: &KeptRows,
    a: u64,
    probes: &mut u64,
) -> Option<(LineRow, LineRow)>
    requires order { never_go_down rows.now ≡ true }
    requires count { probes.old + length rows.now < 2 ^ 64 }
    ensures pair { MatchOption result (HasNoPair a rows.now)
        (λ pair. IsFirstPairOf a rows.now pair.0 pair.1) }
    ensures grows { probes.old ≤ probes.new }
    ensures at_least { 0 < length rows.now → probes.old < probes.new }
    ensures at_most { probes.new ≤ probes.old + binary_digits (length rows.now) }
{
    let index = first_above(rows, a, probes);
    if index == 0 || index == rows.len() {
        return None;
    }
    Some(rows.pair(index))
}
