//! The ranges of addresses of an index.

ghost use Rattle.std.specs.Prelude.{◌≡◌, ◌<◌, ◌+◌, drop, false, MatchOption, [], ◌∷◌};
ghost use Rattle.gimli_index.specs.Meaning.{start_at, starts_of};
ghost use Rattle.gimli_index.specs.Ranges.{first_start, is_empty, range_of, ranges_left, ranges_of};
ghost use Rattle.gimli_index.specs.Views.{index_of};

use crate::line_index::LineIndex;
use crate::place::Place;

/// Addresses of which an index says one thing.
#[derive(Clone, Copy, Debug)]
pub struct PlaceRange<'a> {
    /// The first address.
    pub start: u64,
    /// The first address after them. None in the last range, which has all addresses that are left.
    pub end: Option<u64>,
    /// Where their code comes from; None where nothing is known of it.
    pub place: Option<Place<'a>>,
}

/// The ranges of an index, in ascending order: an iterator.
#[derive(Clone, Copy, Debug)]
pub struct PlaceRanges<'a> {
    index: LineIndex<'a>,
    /// The index of the next start.
    next: usize,
}

impl<'a> LineIndex<'a> {
    ghost use Rattle.gimli_index.specs.Views.{index_of};

    /// The ranges of addresses of which the index says one thing, from the first start on: one
    /// after the other, up to the highest address. A gap is a range without a place. A start that
    /// covers no address has no range.
    pub fn ranges(&self) -> PlaceRanges<'a>
        ensures { ranges_left result ≡ ranges_of (starts_of (index_of self.now)) }
    {
        PlaceRanges {
            index: *self,
            next: 0,
        }
    }

    /// The address of the start at an index, if there is such a start.
    pub(crate) fn address_from(&self, index: usize) -> Option<u64>
        ensures { result ≡ first_start (drop index (starts_of (index_of self.now))) }
    {
        if index < self.starts {
            Some(self.address_at(index))
        } else {
            None
        }
    }

    /// Whether the start at an index covers no address, since the next one has its address.
    fn is_empty_at(&self, index: usize) -> bool
        requires { index < self.now.starts }
        ensures { result ≡ is_empty (start_at (index_of self.now) index)
            (drop (index + 1) (starts_of (index_of self.now))) }
    {
        match self.address_from(index + 1) {
            Some(next) => self.address_at(index) == next,
            None => false,
        }
    }
}

impl<'a> PlaceRanges<'a> {
    /// The index of the first start from an index on whose address isn't that of the next one.
    fn long_from(&self, from: usize) -> usize
        ensures same { ranges_of (drop result (starts_of (index_of self.now.index)))
            ≡ ranges_of (drop from (starts_of (index_of self.now.index))) }
        ensures long { result < self.now.index.starts
            → is_empty (start_at (index_of self.now.index) result)
            (drop (result + 1) (starts_of (index_of self.now.index))) ≡ false }
    {
        for index in from..self.index.starts {
            if !self.index.is_empty_at(index) {
                return index;
            }
        }
        self.index.starts
    }

    /// The next range.
    fn next_range(&mut self) -> Option<PlaceRange<'a>>
        ensures { MatchOption result
            ((ranges_left self.old ≡ []) × (ranges_left self.new ≡ []))
            (λ range. ranges_left self.old ≡ range_of range ∷ ranges_left self.new) }
    {
        let index = self.long_from(self.next);
        self.next = index;
        if index >= self.index.starts {
            return None;
        }
        self.next = index + 1;
        Some(PlaceRange {
            start: self.index.address_at(index),
            end: self.index.address_from(index + 1),
            place: self.index.entry_place(index),
        })
    }
}

impl<'a> Iterator for PlaceRanges<'a> {
    ghost use Rattle.std.specs.Iterator.{YieldsFirstBy, item_count};
    ghost use Rattle.gimli_index.specs.Ranges.{range_of, ranges_left};

    type Item = PlaceRange<'a>;

    ghost next_gives = { YieldsFirstBy (λ range. range_of range) (λ ranges. ranges_left ranges) };

    ghost remaining = { item_count (λ ranges. ranges_left ranges) };

    fn next(&mut self) -> Option<PlaceRange<'a>> {
        self.next_range()
    }
}
