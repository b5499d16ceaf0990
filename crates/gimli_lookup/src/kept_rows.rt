//! The rows of a sequence, which count each reading of an address.

ghost use Rattle.std.specs.Prelude.{◌≡◌, ◌<◌, ◌+◌, ◌-◌, ◌^◌, length, option_map, slice_get};
ghost use Rattle.std.specs.Prelude.{slice_index_or, Some};
ghost use Rattle.gimli_line.specs.declared.run.row.LineRow.{LineRow};
ghost use Rattle.gimli_lookup.specs.Covering.{range};
ghost use Rattle.gimli_lookup.specs.Probes.{never_go_down};

use gimli_line::{LineRow, RowList};
use std::marker::Model;

/// Whether no row has an address below the one before it.
fn addresses_never_go_down(rows: &RowList) -> bool
    ensures { result ≡ never_go_down rows.now }
{
    let mut lowest = 0;
    for index in 0..rows.len() {
        let address = rows.address(index);
        if address < lowest {
            return false;
        }
        lowest = address;
    }
    true
}

/// The rows of one sequence, in order. A search reads addresses by `address` alone, which counts
/// each as a probe; `pair` returns the two rows that it found, and counts nothing.
#[derive(Debug, Drop)]
pub(crate) struct KeptRows {
    rows: RowList,
    is_in_order: bool,
}

impl Model for KeptRows {
    ghost use Rattle.std.specs.Prelude.{◌≡◌, List};
    ghost use Rattle.gimli_line.specs.declared.run.row.LineRow.{LineRow};
    ghost use Rattle.gimli_lookup.specs.Probes.{never_go_down};

    ghost Value = { List LineRow };

    ghost view = { λ a. a.rows };

    ghost invariant = { λ a. a.is_in_order ≡ never_go_down a.rows };
}

impl KeptRows {
    /// These rows.
    pub(crate) fn new(rows: RowList) -> Self
        ensures { result ≡ rows }
    {
        let is_in_order = addresses_never_go_down(&rows);
        KeptRows { rows, is_in_order }
    }

    /// Whether no row has an address below the one before it.
    pub(crate) fn never_go_down(&self) -> bool
        ensures { result ≡ never_go_down self.now }
    {
        self.is_in_order
    }

    /// How many rows there are.
    pub(crate) fn len(&self) -> usize
        ensures { result ≡ length self.now }
    {
        self.rows.len()
    }

    /// The address of the row at an index, which is a probe. Requires an index of a row, and that
    /// the count can grow.
    pub(crate) fn address(&self, index: usize, probes: &mut u64) -> u64
        requires index { index < length self.now }
        requires count { probes.old + 1 < 2 ^ 64 }
        ensures address { (d : LineRow) → result ≡ (slice_index_or self.now index d).address }
        ensures counted { probes.new ≡ probes.old + 1 }
    {
        *probes += 1;
        self.rows.address(index)
    }

    /// The row at an index, which is no probe. Requires an index of a row.
    #[inline(always)]
    pub(crate) fn row(&self, index: usize) -> LineRow
        requires { index < length self.now }
        ensures { slice_get self.now index ≡ Some result }
    {
        self.rows.get(index).unwrap()
    }

    /// The row before an index, and the one at it. Requires an index of a row that isn't the first.
    #[inline(always)]
    pub(crate) fn pair(&self, index: usize) -> (LineRow, LineRow)
        requires first { 0 < index }
        requires index { index < length self.now }
        ensures first { slice_get self.now (index - 1) ≡ Some result.0 }
        ensures second { slice_get self.now index ≡ Some result.1 }
    {
        let first = self.rows.get(index - 1).unwrap();
        let second = self.rows.get(index).unwrap();
        (first, second)
    }

    /// The address of the first row, and that of the last one; None where there are no rows. Counts
    /// no probe.
    pub(crate) fn range(&self) -> Option<(u64, u64)>
        ensures first { option_map (λ range. range.0) result
            ≡ option_map (λ row. row.address) (slice_get self.now 0) }
        ensures last { option_map (λ range. range.1) result
            ≡ option_map (λ row. row.address) (slice_get self.now (length self.now - 1)) }
        ensures ends { result ≡ range self.now }
    {
        let last = self.rows.len().checked_sub(1)?;
        Some((self.rows.address(0), self.rows.address(last)))
    }
}
