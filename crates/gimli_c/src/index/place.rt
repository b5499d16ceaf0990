//! What an index says of an address.

ghost use Rattle.std.specs.Prelude.{◌≡◌, ◌+◌, ◌<◌, ◌^◌, ℕ, List, Some, slice_get, IfOk};
ghost use Rattle.gimli_core.specs.Reading.{result_map};
ghost use Rattle.gimli_index.specs.Spans.{identity_begin, path_at, place_among, StandsIn};
ghost use Rattle.gimli_index.specs.Views.{index_of};
ghost use Rattle.gimli_c.specs.Indexed.{end_seen, unknown_place, SeesPath, SeesPlace};

use gimli_index::{LineIndex, NoPath, PlaceSpan, Span};

/// Where code comes from, by an index.
#[repr(C)]
#[derive(Clone, Copy)]
pub struct GimliPlace {
    /// The address that is asked for.
    pub address: u64,
    /// The offset in `.debug_line` of the unit that says so: the `DW_AT_stmt_list` of its
    /// compilation.
    pub unit: u64,
    /// The first address of those around it of which all this holds.
    pub first: u64,
    /// The address after the last one of them; 0 where they go on up to the greatest address.
    pub end: u64,
    /// Where the path begins, from the first byte of the index on; 0 where there is none.
    pub path: usize,
    /// How many bytes the path has, without the zero byte that follows it.
    pub path_size: usize,
    /// The line, from 1 on; 0 where none is known.
    pub line: u32,
    /// The column, from 1 on; 0 for the left edge of the line.
    pub column: u32,
    /// 0 where the path is there, else the number of why not.
    pub no_path: u32,
    /// Whether the index says something of the address.
    pub known: bool,
    /// Whether the code is a recommended place for a breakpoint (DWARF 5, section 6.2.2).
    pub is_stmt: bool,
    /// Whether a breakpoint at the entry of a function belongs here, after its prologue (DWARF 5,
    /// section 6.2.2).
    pub prologue_end: bool,
}

/// Why a place has no path: the index is damaged.
pub const NO_PATH_OUTSIDE: u32 = 0xffff_ffff;

/// Addresses of which an index says nothing: all else is 0.
pub(crate) fn unknown_place(address: u64, first: u64, end: u64) -> GimliPlace
    ensures { result ≡ unknown_place address first end }
{
    GimliPlace {
        address,
        unit: 0,
        first,
        end,
        path: 0,
        path_size: 0,
        line: 0,
        column: 0,
        no_path: 0,
        known: false,
        is_stmt: false,
        prologue_end: false,
    }
}

/// Where the path of a place begins in the bytes that an index stands in, its size, and 0; or zeros
/// and the number of why there is none.
fn path_seen(index: &LineIndex<'_>, path: Result<Span, NoPath>) -> (usize, usize, u32)
    requires ended { IfOk path
        (λ s. slice_get (index_of index.now).path_bytes (s.first + s.size) ≡ Some 0) }
    requires fits { identity_begin (index_of index.now) < 2 ^ 64 }
    ensures { (bytes : List ℕ) → StandsIn bytes (index_of index.now) → SeesPath bytes
        (result_map (path_at (index_of index.now).path_bytes) path) result.0 result.1 result.2 }
{
    match path {
        Ok(span) => (index.paths_offset() + span.first, span.size, 0),
        Err(NoPath::Reason(reason)) => (0, 0, reason),
        Err(NoPath::Outside) => (0, 0, NO_PATH_OUTSIDE),
    }
}

/// A place of an index that stands in some bytes, as C sees it.
pub(crate) fn place_seen(index: &LineIndex<'_>, address: u64, place: PlaceSpan) -> GimliPlace
    requires ended { IfOk place.path
        (λ s. slice_get (index_of index.now).path_bytes (s.first + s.size) ≡ Some 0) }
    requires fits { identity_begin (index_of index.now) < 2 ^ 64 }
    ensures range { (result.first ≡ place.first) × (result.end ≡ end_seen place.end) }
    ensures seen { (bytes : List ℕ) → StandsIn bytes (index_of index.now) → SeesPlace bytes address
        (place_among (index_of index.now).path_bytes place) result }
{
    let (path, path_size, no_path) = path_seen(index, place.path);
    GimliPlace {
        address,
        unit: place.unit,
        first: place.first,
        end: place.end.unwrap_or(0),
        path,
        path_size,
        line: place.line,
        column: place.column,
        no_path,
        known: true,
        is_stmt: place.is_stmt,
        prologue_end: place.prologue_end,
    }
}
