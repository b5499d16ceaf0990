//! Where code comes from, with its path as a part of the bytes.

ghost use Rattle.std.specs.Prelude.{◌≡◌, ◌+◌, ◌*◌, ◌<◌, ◌≤◌, drop, length, option_map, IfOk};
ghost use Rattle.std.specs.Prelude.{IfSome, Some, slice_get};
ghost use Rattle.gimli_core.specs.Reading.{result_map};
ghost use Rattle.gimli_index.specs.Meaning.{entry_place, path_of, place_at, starts_of};
ghost use Rattle.gimli_index.specs.Meaning.{AreAscending};
ghost use Rattle.gimli_index.specs.Ranges.{first_start};
ghost use Rattle.gimli_index.specs.Spans.{identity_begin, paths_begin, path_at, place_among};
ghost use Rattle.gimli_index.specs.Spans.{start_among, HoldsAround, IsRangeOf};

use crate::line_index::{
    ENTRY_SIZE, LineIndex, column_in, ends_prologue_in, is_statement_in, is_zero_at,
};
use crate::number::{long, word};
use crate::place::NoPath;

/// Bytes of the part of paths.
#[derive(Clone, Copy, Debug, PartialEq, Eq)]
pub struct Span {
    /// How many bytes of the part come before them.
    pub first: usize,
    /// How many they are.
    pub size: usize,
}

/// Where code comes from, with its path as a part of the bytes: a [`Place`](crate::Place) that
/// borrows nothing.
#[derive(Clone, Copy, Debug)]
pub struct PlaceSpan {
    /// Where the whole path of the file stands, or why there is none.
    pub path: Result<Span, NoPath>,
    /// The line, 0 where none is known.
    pub line: u32,
    /// The column, 0 for the left edge.
    pub column: u32,
    /// Whether the code is a recommended place for a breakpoint (DWARF 5, section 6.2.2).
    pub is_stmt: bool,
    /// Whether the prologue of a function ends here.
    pub prologue_end: bool,
    /// The offset in `.debug_line` of the unit that says so.
    pub unit: u64,
    /// The address of the start from which on all this holds: the last one that isn't above the
    /// address that was asked for.
    pub first: u64,
    /// The address of the first start above it, up to which all this holds; None where there is
    /// none, and it holds up to the greatest address.
    pub end: Option<u64>,
}

/// What holds from an address on, up to that of the next start, with the path as a part of the
/// bytes: a [`Start`](crate::Start) that borrows nothing.
#[derive(Clone, Copy, Debug)]
pub struct StartSpan {
    /// The first address.
    pub first: u64,
    /// The address of the next start; None where this is the last one.
    pub end: Option<u64>,
    /// Where the code from there on comes from; None where nothing is known of it.
    pub place: Option<PlaceSpan>,
}

impl<'a> LineIndex<'a> {
    ghost use Rattle.gimli_index.specs.Views.{index_of};

    /// Where the part of paths begins, from the first byte of the index on.
    pub fn paths_offset(&self) -> usize
        ensures { result ≡ paths_begin (index_of self.now) }
    {
        self.paths_offset
    }

    /// Where the identity begins, from the first byte of the index on.
    pub fn identity_offset(&self) -> usize
        ensures { result ≡ identity_begin (index_of self.now) }
    {
        self.identity_offset
    }

    /// Where the path of the source that these bytes begin with is.
    fn path_span(&self, source: &[u8]) -> Result<Span, NoPath>
        requires { 24 ≤ length source.now }
        ensures path { result_map (path_at self.now.path_bytes.now) result
            ≡ path_of self.now.path_bytes.now source.now }
        ensures ended { IfOk result
            (λ s. slice_get self.now.path_bytes.now (s.first + s.size) ≡ Some 0) }
    {
        let reason = word(source, 16);
        if reason != 0 {
            return Err(NoPath::Reason(reason));
        }
        let first = word(source, 8) as usize;
        let size = word(source, 12) as usize;
        if !is_zero_at(self.path_bytes, first + size) {
            return Err(NoPath::Outside);
        }
        Ok(Span { first, size })
    }

    /// The first address from the start at an index on, and that of the next start.
    fn range_at(&self, index: usize) -> (u64, Option<u64>)
        requires { index < self.now.starts }
        ensures { IsRangeOf (index_of self.now) index result.0 result.1 }
    {
        let next = index + 1;
        let end = if next < self.starts {
            Some(self.address_at(next))
        } else {
            None
        };
        (self.address_at(index), end)
    }

    /// What the entry at an index says.
    #[inline(always)]
    fn entry_span(&self, index: usize) -> Option<PlaceSpan>
        requires { index < self.now.starts }
        ensures place { option_map (place_among self.now.path_bytes.now) result
            ≡ entry_place (index_of self.now) (drop (12 * index) self.now.entry_bytes.now) }
        ensures range { IfSome result (λ p. IsRangeOf (index_of self.now) index p.first p.end) }
        ensures ended { IfSome result (λ p. IfOk p.path
            (λ s. slice_get self.now.path_bytes.now (s.first + s.size) ≡ Some 0)) }
    {
        let entry = &self.entry_bytes[ENTRY_SIZE * index..];
        let number = word(entry, 0) as usize;
        if number >= self.sources {
            return None;
        }
        let source = self.source(number);
        let (first, end) = self.range_at(index);
        let path = self.path_span(source);
        let column = word(entry, 8);
        Some(PlaceSpan {
            path,
            line: word(entry, 4),
            column: column_in(column),
            is_stmt: is_statement_in(column),
            prologue_end: ends_prologue_in(column),
            unit: long(source, 0),
            first,
            end,
        })
    }

    /// What [`find`](LineIndex::find) says, with the path as a part of the bytes: for callers that
    /// hold the bytes and hand out no borrow of them. The path begins at
    /// [`paths_offset`](LineIndex::paths_offset) and `first`.
    #[inline(always)]
    pub fn find_span(&self, address: u64) -> Option<PlaceSpan>
        ensures place { let starts = starts_of (index_of self.now) in AreAscending starts →
            option_map (place_among self.now.path_bytes.now) result ≡ place_at address starts }
        ensures range { let starts = starts_of (index_of self.now) in AreAscending starts →
            IfSome result (λ p. HoldsAround starts address p.first p.end) }
        ensures ended { IfSome result (λ p. IfOk p.path
            (λ s. slice_get self.now.path_bytes.now (s.first + s.size) ≡ Some 0)) }
    {
        let number = address.checked_sub(self.base)?;
        let index = self.starts_up_to(number).checked_sub(1)?;
        self.entry_span(index)
    }

    /// What [`get`](LineIndex::get) says, with the path as a part of the bytes, and where the next
    /// start is.
    pub fn get_span(&self, index: usize) -> Option<StartSpan>
        ensures start { option_map (start_among self.now.path_bytes.now) result
            ≡ slice_get (starts_of (index_of self.now)) index }
        ensures end { IfSome result
            (λ s. s.end ≡ first_start (drop (index + 1) (starts_of (index_of self.now)))) }
        ensures around { IfSome result
            (λ s. IfSome s.place (λ p. (p.first ≡ s.first) × (p.end ≡ s.end))) }
        ensures ended { IfSome result (λ s. IfSome s.place (λ p. IfOk p.path
            (λ s. slice_get self.now.path_bytes.now (s.first + s.size) ≡ Some 0))) }
    {
        if index >= self.starts {
            return None;
        }
        Some(StartSpan {
            first: self.address_at(index),
            end: self.address_from(index + 1),
            place: self.entry_span(index),
        })
    }
}
