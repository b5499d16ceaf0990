//! The index, as it lies in its bytes.

ghost use Rattle.std.specs.Prelude.{◌≡◌, ◌*◌, ◌<◌, ◌≤◌, ◌+◌, ◌^◌, ◌↔◌, []};
ghost use Rattle.std.specs.Prelude.{ℕ, length, drop, slice_get};
ghost use Rattle.std.specs.Prelude.{option_map, IfOk, IsTrue, Some, true};
ghost use Rattle.gimli_core.specs.Reading.{result_map};
ghost use Rattle.gimli_index.specs.Header.{size_of, highest_base, statement_size};
ghost use Rattle.gimli_index.specs.Parts.{index_at, parts_at};
ghost use Rattle.gimli_index.specs.Meaning.{entry_place, path_in, path_of, place_at, place_from};
ghost use Rattle.gimli_index.specs.Meaning.{source_at, start_at, start_number, starts_of};
ghost use Rattle.gimli_index.specs.Meaning.{AreAscending, column_in, ends_prologue_in};
ghost use Rattle.gimli_index.specs.Meaning.{is_statement_in, is_zero_at};
ghost use Rattle.gimli_index.specs.Spans.{StandsIn};
ghost use Rattle.gimli_index.specs.inside.Numbers.{CountIsBetween};

use crate::contents::{COLUMNS, PROLOGUE_END, STATEMENT};
use crate::error::IndexError;
use crate::header::{HEADER_SIZE, Header, StartSize};
use crate::number::{long, word};
use crate::place::{NoPath, Place, Start};

/// The bytes of an entry: the number of its source, the line and the column.
pub(crate) const ENTRY_SIZE: usize = 12;

/// The bytes of a source: the offset of its unit, where its path is, and why there is none.
pub(crate) const SOURCE_SIZE: usize = 24;

/// A search looks at a guess first, and then at a start that is one in this many of all starts
/// away.
const NEAR: usize = 512;

/// An index of the lines of a program, as it lies in its bytes. Any number of threads may ask one.
///
/// <!-- part of crates/uses/src/line_index.rt -->
/// ```rust
/// let index = LineIndex::open(&bytes)?;
/// index.check()?;
/// ```
#[derive(Clone, Copy, Debug)]
pub struct LineIndex<'a> {
    address_size: u16,
    pub(crate) start_size: StartSize,
    pub(crate) base: u64,
    pub(crate) starts: usize,
    pub(crate) sources: usize,
    /// How many statements there are.
    pub(crate) statements: usize,
    source_bytes: &'a [u8],
    start_bytes: &'a [u8],
    pub(crate) entry_bytes: &'a [u8],
    pub(crate) statement_bytes: &'a [u8],
    pub(crate) path_bytes: &'a [u8],
    identity: &'a [u8],
    pub(crate) paths_offset: usize,
    pub(crate) identity_offset: usize,
    ghost identity_there: { identity_offset ≡ paths_offset + length path_bytes.now },
    ghost paths_there: { paths_offset
        ≡ 48 + 24 * sources + size_of start_size * starts + 12 * starts
        + statement_size start_size * statements },
    ghost low: { base ≤ highest_base start_size },
    ghost all_sources: { length source_bytes.now ≡ 24 * sources },
    ghost all_starts: { length start_bytes.now ≡ size_of start_size * starts },
    ghost all_entries: { length entry_bytes.now ≡ 12 * starts },
    ghost all_statements: { length statement_bytes.now
        ≡ statement_size start_size * statements },
}

/// The column of its word.
pub(crate) fn column_in(word: u32) -> u32
    ensures { result ≡ column_in word }
{
    word % COLUMNS
}

/// Whether the word of a column says that the prologue of a function ends there.
pub(crate) fn ends_prologue_in(word: u32) -> bool
    ensures { result ≡ ends_prologue_in word }
{
    PROLOGUE_END <= word % STATEMENT
}

/// Whether the word of a column says that the code is a statement.
pub(crate) fn is_statement_in(word: u32) -> bool
    ensures { result ≡ is_statement_in word }
{
    STATEMENT <= word
}

/// Guesses how many of `count` numbers that are spread evenly over a whole are in its first part;
/// fewer than all. Where the product passes 64 bits, the guess is a bad one.
#[inline(always)]
fn even_share(part: u64, whole: u64, count: usize) -> usize
    requires whole { 0 < whole }
    requires count { 0 < count }
    ensures { result < count }
{
    let share = part.wrapping_mul(count as u64) / whole;
    (share as usize).min(count - 1)
}

/// Whether a zero byte stands at an offset.
#[inline(always)]
pub(crate) fn is_zero_at(bytes: &[u8], offset: usize) -> bool
    ensures zero { result ≡ is_zero_at bytes.now offset }
    ensures there { result ≡ true → slice_get bytes.now offset ≡ Some 0 }
{
    match bytes.get(offset) {
        Some(byte) => *byte == 0,
        None => false,
    }
}

/// The path in these bytes of the part of paths, which a zero byte follows.
pub(crate) fn path_in(paths: &[u8], first: u32, size: u32) -> Result<&[u8], NoPath>
    ensures { result_map (λ path. path.now) result ≡ path_in paths.now first size }
{
    let first = first as usize;
    let end = first + size as usize;
    if !is_zero_at(paths, end) {
        return Err(NoPath::Outside);
    }
    Ok(&paths[first..end])
}

/// The path of the source that these bytes begin with.
pub(crate) fn path_of<'a>(paths: &'a [u8], source: &[u8]) -> Result<&'a [u8], NoPath>
    requires { 24 ≤ length source.now }
    ensures { result_map (λ path. path.now) result ≡ path_of paths.now source.now }
{
    match word(source, 16) {
        0 => path_in(paths, word(source, 8), word(source, 12)),
        reason => Err(NoPath::Reason(reason)),
    }
}

impl<'a> LineIndex<'a> {
    ghost use Rattle.gimli_index.specs.Views.{index_of, place_of, start_of};

    /// The index that bytes begin with. Takes no memory, and looks at the header alone.
    ///
    /// Refuses bytes that don't begin as an index does (`NotIndex`), an unknown version
    /// (`Version`), a size of addresses or starts that can't be (`AddressSize`, `StartSize`), a
    /// base that is too high for addresses of 64 bits (`Base`), and an index that ends before its
    /// header or its parts do (`HeaderCut`, `Cut`). Bytes after the index aren't looked at.
    #[inline(always)]
    pub fn open(bytes: &'a [u8]) -> Result<LineIndex<'a>, IndexError>
        ensures index { result_map index_of result ≡ index_at bytes.now }
        ensures stands { IfOk result (λ index. StandsIn bytes.now (index_of index)) }
    {
        let header = Header::parse(bytes)?;
        LineIndex::parts(bytes, header)
    }

    /// The index of a header.
    #[inline(always)]
    fn parts(bytes: &'a [u8], header: Header) -> Result<LineIndex<'a>, IndexError>
        requires { header.base ≤ highest_base header.start_size }
        ensures index { result_map index_of result ≡ parts_at bytes.now header }
        ensures stands { IfOk result (λ index. StandsIn bytes.now (index_of index)) }
    {
        let starts = HEADER_SIZE + SOURCE_SIZE * header.sources as usize;
        let entries = starts + header.start_size.bytes_of(header.starts);
        let statements = entries + ENTRY_SIZE * header.starts as usize;
        let paths = statements + header.start_size.bytes_of_statements(header.statements);
        let identity = paths + header.paths as usize;
        let end = identity + header.identity as usize;
        if bytes.len() < end {
            return Err(IndexError::Cut);
        }
        Ok(LineIndex {
            address_size: header.address_size,
            start_size: header.start_size,
            base: header.base,
            starts: header.starts as usize,
            sources: header.sources as usize,
            statements: header.statements as usize,
            source_bytes: &bytes[HEADER_SIZE..starts],
            start_bytes: &bytes[starts..entries],
            entry_bytes: &bytes[entries..statements],
            statement_bytes: &bytes[statements..paths],
            path_bytes: &bytes[paths..identity],
            identity: &bytes[identity..end],
            paths_offset: paths,
            identity_offset: identity,
        })
    }

    /// The bytes of an address: 1, 2, 4 or 8.
    pub fn address_size(&self) -> u16
        ensures { result ≡ (index_of self.now).address_size }
    {
        self.address_size
    }

    /// What the index was made of, by the name that its maker chose: a build id or a checksum.
    pub fn identity(&self) -> &'a [u8]
        ensures { result.now ≡ (index_of self.now).identity }
    {
        self.identity
    }

    /// How many starts there are.
    pub fn len(&self) -> usize
        ensures { result ≡ length (starts_of (index_of self.now)) }
    {
        self.starts
    }

    /// Whether there are none.
    pub fn is_empty(&self) -> bool
        ensures { IsTrue result ↔ (starts_of (index_of self.now) ≡ []) }
    {
        self.starts == 0
    }

    /// How far above the base the start at an index is.
    pub(crate) fn start_number(&self, index: usize) -> u64
        requires { index < self.now.starts }
        ensures number { result ≡ start_number (index_of self.now) index }
        ensures low { result + highest_base self.now.start_size < 2 ^ 64 }
    {
        match self.start_size {
            StartSize::Four => u64::from(word(self.start_bytes, 4 * index)),
            StartSize::Eight => long(self.start_bytes, 8 * index),
        }
    }

    /// The address of the start at an index.
    pub(crate) fn address_at(&self, index: usize) -> u64
        requires { index < self.now.starts }
        ensures { result ≡ (start_at (index_of self.now) index).address }
    {
        self.base + self.start_number(index)
    }

    /// The bytes from a source on.
    pub(crate) fn source(&self, index: usize) -> &'a [u8]
        requires { index < self.now.sources }
        ensures bytes { result.now ≡ source_at (index_of self.now) index }
        ensures whole { 24 ≤ length result.now }
    {
        &self.source_bytes[SOURCE_SIZE * index..]
    }

    /// What the entry at an index says.
    pub(crate) fn entry_place(&self, index: usize) -> Option<Place<'a>>
        requires { index < self.now.starts }
        ensures { option_map place_of result
            ≡ entry_place (index_of self.now) (drop (12 * index) self.now.entry_bytes.now) }
    {
        let entry = &self.entry_bytes[ENTRY_SIZE * index..];
        let source = word(entry, 0) as usize;
        if source >= self.sources {
            return None;
        }
        Some(self.place_from(entry, self.source(source)))
    }

    /// The place of an entry and its source.
    fn place_from(&self, entry: &[u8], source: &[u8]) -> Place<'a>
        requires entry { 12 ≤ length entry.now }
        requires source { 24 ≤ length source.now }
        ensures { place_of result ≡ place_from self.now.path_bytes.now entry.now source.now }
    {
        let column = word(entry, 8);
        Place {
            path: path_of(self.path_bytes, source),
            line: word(entry, 4),
            column: column_in(column),
            is_stmt: is_statement_in(column),
            prologue_end: ends_prologue_in(column),
            unit: long(source, 0),
        }
    }

    /// What holds from the start at an index on, up to the next start; None where there is no such
    /// start. The indices count from 0.
    pub fn get(&self, index: usize) -> Option<Start<'a>>
        ensures { option_map start_of result ≡ slice_get (starts_of (index_of self.now)) index }
    {
        if index >= self.starts {
            return None;
        }
        Some(Start {
            address: self.address_at(index),
            place: self.entry_place(index),
        })
    }

    /// Two bounds on how many starts aren't above a number, if starts ascend: those given, or
    /// closer ones, by a look at the start at an index between them.
    #[inline(always)]
    fn narrowed(&self, number: u64, low: usize, high: usize, at: usize) -> (usize, usize)
        requires between { CountIsBetween (index_of self.now) number low high }
        requires above { low ≤ at }
        ensures { CountIsBetween (index_of self.now) number result.0 result.1 }
    {
        if high <= at {
            (low, high)
        } else if self.start_number(at) <= number {
            (at + 1, high)
        } else {
            (low, at)
        }
    }

    /// Two bounds on how many starts aren't above a number, if starts ascend. They are close to
    /// each other where the starts are spread evenly.
    #[inline(always)]
    fn count_between(&self, number: u64) -> (usize, usize)
        ensures { CountIsBetween (index_of self.now) number result.0 result.1 }
    {
        let Some(last) = self.starts.checked_sub(1) else {
            return (0, 0);
        };
        let whole = self.start_number(last);
        if whole <= number {
            return (self.starts, self.starts);
        }
        let guess = even_share(number, whole, self.starts);
        let near = self.starts / NEAR;
        if self.start_number(guess) <= number {
            self.narrowed(number, guess + 1, self.starts, guess + 1 + near)
        } else {
            self.narrowed(number, 0, guess, guess.saturating_sub(near + 1))
        }
    }

    /// How many starts are at most this far above the base, if they ascend.
    #[inline(always)]
    pub(crate) fn starts_up_to(&self, number: u64) -> usize
        ensures { CountIsBetween (index_of self.now) number result result }
    {
        let (mut low, mut high) = self.count_between(number);
        while low < high {
            let middle = (low + high) / 2;
            if self.start_number(middle) <= number {
                low = middle + 1;
            } else {
                high = middle;
            }
        }
        low
    }

    /// Where the code at an address comes from; None where the index says nothing of it.
    ///
    /// Takes no memory, changes nothing, and looks at no more than b + 3 starts, if their number
    /// has b binary digits. It returns on any bytes. What it returns is known if the starts ascend:
    /// [`check`](LineIndex::check) tests this, and it holds for each index that this crate made.
    pub fn find(&self, address: u64) -> Option<Place<'a>>
        ensures { let starts = starts_of (index_of self.now) in
            AreAscending starts → option_map place_of result ≡ place_at address starts }
    {
        let number = address.checked_sub(self.base)?;
        let index = self.starts_up_to(number).checked_sub(1)?;
        self.entry_place(index)
    }
}
