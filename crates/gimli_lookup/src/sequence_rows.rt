//! The rows that a lookup keeps of a section, one after the other.

ghost use Rattle.std.specs.Prelude.{◌≡◌, ◌<◌, Some, length, option_map, slice_get, slice_index_or};
ghost use Rattle.gimli_lookup.specs.Covering.{range};
ghost use Rattle.gimli_lookup.specs.Probes.{never_go_down};
ghost use Rattle.gimli_lookup.specs.Section.{KeptUnit};
ghost use Rattle.gimli_lookup.specs.Section.{rows_of};

use crate::kept_rows::KeptRows;
use crate::section_lookup::SectionLookup;
use gimli_core::Reader;
use gimli_line::LineRow;

/// The rows that are kept of a sequence, in order: of one part of it, whose rows stand side by
/// side.
#[derive(Clone, Copy)]
pub struct SequenceRows<'a> {
    rows: &'a KeptRows,
}

impl<'a> SequenceRows<'a> {
    /// How many there are.
    pub fn len(&self) -> usize
        ensures { result ≡ length (rows_of self.now) }
    {
        self.rows.len()
    }

    /// The row at an index. Requires an index of a row.
    #[inline(always)]
    pub fn row(&self, index: usize) -> LineRow
        requires { index < length (rows_of self.now) }
        ensures { slice_get (rows_of self.now) index ≡ Some result }
    {
        self.rows.row(index)
    }

    /// Whether no row has an address below the one before it. This is stored, so no row is looked
    /// at.
    pub fn never_go_down(&self) -> bool
        ensures { result ≡ never_go_down (rows_of self.now) }
    {
        self.rows.never_go_down()
    }

    /// The address of the first row, and that of the last one; None where there are no rows.
    pub fn range(&self) -> Option<(u64, u64)>
        ensures { result ≡ range (rows_of self.now) }
    {
        self.rows.range()
    }
}

impl<R: Reader> SectionLookup<R> {
    /// How many sequences are kept of a unit, or parts of them. Requires an index of a unit.
    pub fn sequence_count(&self, unit: usize) -> usize
        requires { unit < length self.now }
        ensures { (d : KeptUnit) → result ≡ length (slice_index_or self.now unit d).sequences }
    {
        self.sequences_of(unit).len()
    }

    /// The rows of the sequence at an index among those that are kept of a unit; None where it has
    /// no such sequence. Requires an index of a unit.
    pub fn sequence(&self, unit: usize, index: usize) -> Option<SequenceRows<'_>>
        requires { unit < length self.now }
        ensures { (d : KeptUnit) → option_map rows_of result
            ≡ slice_get (slice_index_or self.now unit d).sequences index }
    {
        let rows = self.sequences_of(unit).get(index)?;
        Some(SequenceRows { rows })
    }
}
