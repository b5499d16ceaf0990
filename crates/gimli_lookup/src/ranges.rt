//! The ranges of addresses at which a lookup finds the same, in order.

ghost use Rattle.std.specs.Prelude.{◌≡◌, ◌<◌, Some, None, IfSome, MatchOption};
ghost use Rattle.gimli_lookup.specs.Ranges.{AreFoundIn};

use crate::section_lookup::{CoveringRows, SectionLookup};
use crate::walk::Stand;
use gimli_core::{Reader, ReaderOffset};
use std::marker::Model;

/// A range of addresses at each of which a [`SectionLookup`] finds the same.
///
/// <!-- part of crates/gimli_index/src/made.rt -->
/// ```rust
/// 'ranges: while let Some(range) = ranges.next_range() {
///     let place = table.place_of(origin, range.rows)?;
///     let entry = Entry {
///         address: range.start,
///         place,
///     };
/// ```
#[derive(Clone, Copy, Debug)]
pub struct CoveredRange {
    /// The first address.
    pub start: u64,
    /// The first address of the next range. None in the last one, which has all addresses that are
    /// left.
    pub end: Option<u64>,
    /// The rows that are found. None where no rows cover the addresses.
    pub rows: Option<CoveringRows>,
}

/// The ranges of a [`SectionLookup`], from the address 0 on, each from the end of the one before
/// it.
///
/// <!-- part of crates/gimli_index/src/made.rt -->
/// ```rust
/// let mut ranges = origin.lookup.ranges();
/// take_ranges(origin, &mut ranges, table, &mut entries)?;
/// Ok(entries)
/// ```
#[derive(Drop)]
pub struct Ranges<'a, R: Reader> {
    lookup: &'a SectionLookup<R>,
    from: Option<u64>,
    stand: Stand,
}

impl<'a, R: Reader> Model for Ranges<'a, R> {
    ghost use Rattle.gimli_lookup.specs.Ranges.{RangesLeft};

    ghost Value = { RangesLeft };

    ghost view = { λ a. record {
      units = a.lookup.now;
      from = a.from;
    } };
}

impl<'a, R: Reader> Ranges<'a, R> {
    /// The next range. None after the last one. All calls together look at each row a few times,
    /// and search a sequence by halves if the search before was in another one.
    pub fn next_range(&mut self) -> Option<CoveredRange>
        ensures start { MatchOption result (self.old.from ≡ None)
            (λ range. self.old.from ≡ Some range.start) }
        ensures end { IfSome result (λ range. IfSome range.end (λ end. range.start < end)) }
        ensures found { IfSome result (AreFoundIn self.old.units) }
        ensures left { IfSome result (λ range. self.new.from ≡ range.end) }
        ensures units { self.new.units ≡ self.old.units }
    {
        let start = self.from?;
        let range = self.lookup.range_from(start, &mut self.stand);
        self.from = range.end;
        Some(range)
    }
}

impl<R: Reader> SectionLookup<R> {
    ghost use Rattle.gimli_lookup.specs.Ranges.{RangesLeft};

    /// The ranges of addresses at which [`find`](SectionLookup::find) returns the same, from the
    /// address 0 on: one after the other, up to the highest address. Two side by side may have the
    /// same rows.
    pub fn ranges(&self) -> Ranges<'_, R>
        ensures { result ≡ record { units = self.now; from = Some 0 } }
    {
        Ranges {
            lookup: self,
            from: Some(0),
            stand: Stand::default(),
        }
    }
}
