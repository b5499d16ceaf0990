//! What an index is made of.

ghost use Rattle.std.specs.Prelude.{◌≡◌, ◌≢◌, ◌≤◌, ◌<◌, ◌+◌, ◌-◌, ◌^◌, ◌++◌, true, false, length};
ghost use Rattle.std.specs.Prelude.{ℕ, List, [], map, min};
ghost use Rattle.std.specs.List.{Contains};
ghost use Rattle.std.specs.Option.{option_map_or};
ghost use Rattle.std.specs.Prelude.{◌↔◌, flat_map, All, IfErr, IsTrue, OnOk};
ghost use Rattle.gimli_core.specs.Numbers.{is_address_size};
ghost use Rattle.gimli_index.specs.Contents.{entry_bytes, header_bytes, index_bytes, le_bytes};
ghost use Rattle.gimli_index.specs.Contents.{line_bytes, place_bytes, source_bytes, source_path};
ghost use Rattle.gimli_index.specs.Contents.{start_bytes, statement_bytes};
ghost use Rattle.gimli_index.specs.Contents.{Fits, FitsCounts, FitsLine, FitsPlace, FitsSource};
ghost use Rattle.gimli_index.specs.Contents.{FitsStatement};
ghost use Rattle.gimli_index.specs.Contents.{IsNear, HasColumn, column_word};
ghost use Rattle.gimli_index.specs.Header.{magic, size_of};
ghost use Rattle.gimli_index.specs.Made.{all_addresses, base_for, greatest, least, size_for};
ghost use Rattle.gimli_index.specs.inside.Ranks.{least_of};
ghost use Rattle.gimli_index.specs.Order.{path_number};
ghost use Rattle.gimli_index.specs.Made.{EntriesAscend, IsMakeFault, IsWritten};
ghost use Rattle.gimli_index.specs.declared.error.MakeError.TheVariants.{OutOfMemory};
ghost use Rattle.gimli_index.specs.declared.header.StartSize.TheVariants.{Four};

use crate::error::MakeError;
use crate::header::{HEADER_SIZE, MAGIC, StartSize, VERSION};
use crate::line_index::{ENTRY_SIZE, SOURCE_SIZE};
use std::alloc::{AllocError, Global};

/// The number of a source that none has: that of a gap.
pub(crate) const NO_SOURCE: u32 = 0xffff_ffff;

/// The most that 32 bits count.
pub(crate) const MOST: usize = 0xffff_ffff;

/// The bit of the word of a column that says that the code is a statement.
pub(crate) const STATEMENT: u32 = 0x8000_0000;

/// The bit of the word of a column that says that the prologue ends there.
pub(crate) const PROLOGUE_END: u32 = 0x4000_0000;

/// One above the columns.
pub(crate) const COLUMNS: u32 = 0x4000_0000;

/// A file of a unit, which entries name by its index.
#[derive(Clone, Copy, Debug, PartialEq, Eq)]
pub struct Source {
    /// The offset in `.debug_line` of the unit.
    pub unit: u64,
    /// Where the whole path of the file begins among the bytes of all paths.
    pub first: u32,
    /// The bytes of the path, without the zero byte that follows it.
    pub size: u32,
    /// 0 where the path is known, else the number of the reason why it isn't
    /// (`docs/reference/INDEX.md`, "Sources").
    pub reason: u32,
}

/// A line of a source.
#[derive(Clone, Copy, Debug, PartialEq, Eq)]
pub struct SourceLine {
    /// The index of the source.
    pub source: u32,
    /// The line, 0 where none is known.
    pub line: u32,
    /// The column, 0 for the left edge, below `2^30`.
    pub column: u32,
    /// Whether the code is a recommended place for a breakpoint (DWARF 5, section 6.2.2).
    pub is_stmt: bool,
    /// Whether the prologue of a function ends here (DWARF 5, section 6.2.2).
    pub prologue_end: bool,
}

/// What holds from an address on, up to that of the next entry.
#[derive(Clone, Copy, Debug, PartialEq, Eq)]
pub struct Entry {
    /// The first address.
    pub address: u64,
    /// Where the code comes from; None where nothing is known of it.
    pub place: Option<SourceLine>,
}

/// An address at which code of a line begins: one for a breakpoint (DWARF 5, section 6.2.2).
#[derive(Clone, Copy, Debug, PartialEq, Eq)]
pub struct Statement {
    /// The index of the source.
    pub source: u32,
    /// The line, 0 where none is known.
    pub line: u32,
    /// The address.
    pub address: u64,
}

/// What an index is made of.
#[derive(Clone, Copy, Debug)]
pub struct Contents<'a> {
    /// The bytes of an address.
    pub address_size: u16,
    /// The files that the entries and the statements name.
    pub sources: &'a [Source],
    /// The entries, none with a lower address than the one before it. Where several have one
    /// address, the last of them holds from there on.
    pub entries: &'a [Entry],
    /// The statements, in any order. The index has one for each address of a line of a path.
    pub statements: &'a [Statement],
    /// The bytes of all paths, one path after the other, each with a zero byte after it.
    pub paths: &'a [u8],
    /// What the index is made of, by a name of the caller's choice: a build id or a checksum.
    pub identity: &'a [u8],
}

/// Appends a number of two bytes.
fn put_uhalf(out: &mut Vec<u8>, n: u16) -> Result<(), AllocError>
    ensures { OnOk result (out.new.items ≡ out.old.items ++ le_bytes 2 n) }
{
    out.extend_from_slice(&n.to_le_bytes())
}

/// Appends a number of four bytes.
fn put_word(out: &mut Vec<u8>, n: u32) -> Result<(), AllocError>
    ensures { OnOk result (out.new.items ≡ out.old.items ++ le_bytes 4 n) }
{
    out.extend_from_slice(&n.to_le_bytes())
}

/// Appends a number of eight bytes.
fn put_long(out: &mut Vec<u8>, n: u64) -> Result<(), AllocError>
    ensures { OnOk result (out.new.items ≡ out.old.items ++ le_bytes 8 n) }
{
    out.extend_from_slice(&n.to_le_bytes())
}

/// Appends two numbers of four bytes.
fn put_words(out: &mut Vec<u8>, first: u32, second: u32) -> Result<(), AllocError>
    ensures { OnOk result
        (out.new.items ≡ out.old.items ++ (le_bytes 4 first ++ le_bytes 4 second)) }
{
    put_word(out, first)?;
    put_word(out, second)
}

/// Appends a source, with the number of its name.
fn put_source(out: &mut Vec<u8>, source: Source, name: u32) -> Result<(), AllocError>
    ensures bytes { (paths : List ℕ) → name ≡ path_number (source_path paths source)
        → OnOk result (out.new.items ≡ out.old.items ++ source_bytes paths source) }
    ensures fits { FitsSource source }
{
    put_long(out, source.unit)?;
    put_words(out, source.first, source.size)?;
    put_words(out, source.reason, name)
}

/// The column of a line, whether it is a statement, and whether the prologue ends there, as one
/// word.
fn column_word(line: SourceLine) -> u32
    requires { line.column < 2 ^ 30 }
    ensures { result ≡ column_word line }
{
    let is_stmt = if line.is_stmt { STATEMENT } else { 0 };
    let prologue_end = if line.prologue_end { PROLOGUE_END } else { 0 };
    line.column + is_stmt + prologue_end
}

/// Appends a line.
fn put_line(out: &mut Vec<u8>, line: SourceLine) -> Result<(), AllocError>
    requires { line.column < 2 ^ 30 }
    ensures bytes { OnOk result (out.new.items ≡ out.old.items ++ line_bytes line) }
    ensures fits { FitsLine line }
{
    let [a, b, c, d] = line.source.to_le_bytes();
    let [e, f, g, h] = line.line.to_le_bytes();
    let [i, j, k, l] = column_word(line).to_le_bytes();
    out.extend_from_slice(&[a, b, c, d, e, f, g, h, i, j, k, l])
}

/// Appends a line, or a gap.
fn put_place(out: &mut Vec<u8>, place: Option<SourceLine>) -> Result<(), AllocError>
    requires { HasColumn place }
    ensures bytes { OnOk result (out.new.items ≡ out.old.items ++ place_bytes place) }
    ensures fits { FitsPlace place }
{
    match place {
        Some(line) => put_line(out, line),
        None => {
            put_word(out, NO_SOURCE)?;
            put_long(out, 0)
        }
    }
}

/// Appends all sources, with the numbers of their names.
fn put_sources(out: &mut Vec<u8>, sources: &[Source], names: &[u32]) -> Result<(), AllocError>
    requires { length names.now ≡ length sources.now }
    ensures bytes { (paths : List ℕ)
        → names.now ≡ map (λ s. path_number (source_path paths s)) sources.now
        → OnOk result (out.new.items ≡ out.old.items ++ flat_map (source_bytes paths) sources.now) }
    ensures fits { OnOk result (All FitsSource sources.now) }
{
    for index in 0..sources.len() {
        put_source(out, sources[index], names[index])?;
    }
    Ok(())
}

/// Appends how far an address is above the base. Requires a base that isn't above it, and that is
/// near it where starts have 4 bytes.
fn put_address(
    out: &mut Vec<u8>,
    size: StartSize,
    base: u64,
    address: u64,
) -> Result<(), AllocError>
    requires base { base ≤ address }
    requires near { size ≡ Four → address < base + 2 ^ 32 }
    ensures bytes { OnOk result
        (out.new.items ≡ out.old.items ++ le_bytes (size_of size) (address - base)) }
    ensures near { IsNear size base address }
{
    match size {
        StartSize::Four => put_word(out, (address - base) as u32),
        StartSize::Eight => put_long(out, address - base),
    }
}

/// Appends all starts.
fn put_starts(
    out: &mut Vec<u8>,
    size: StartSize,
    base: u64,
    entries: &[Entry],
) -> Result<(), AllocError>
    requires base { All (λ e. base ≤ e.address) entries.now }
    requires near { size ≡ Four → All (λ e. e.address < base + 2 ^ 32) entries.now }
    ensures bytes { OnOk result
        (out.new.items ≡ out.old.items ++ flat_map (start_bytes size base) entries.now) }
    ensures near { OnOk result (All (λ e. IsNear size base e.address) entries.now) }
{
    for entry in entries {
        put_address(out, size, base, entry.address)?;
    }
    Ok(())
}

/// Appends what all entries say.
fn put_entries(out: &mut Vec<u8>, entries: &[Entry]) -> Result<(), AllocError>
    requires { All (λ e. HasColumn e.place) entries.now }
    ensures bytes { OnOk result
        (out.new.items ≡ out.old.items ++ flat_map entry_bytes entries.now) }
    ensures fits { OnOk result (All (λ e. FitsPlace e.place) entries.now) }
{
    for entry in entries {
        put_place(out, entry.place)?;
    }
    Ok(())
}

/// Appends a statement.
fn put_statement(
    out: &mut Vec<u8>,
    size: StartSize,
    base: u64,
    statement: Statement,
) -> Result<(), AllocError>
    requires base { base ≤ statement.address }
    requires near { size ≡ Four → statement.address < base + 2 ^ 32 }
    ensures bytes { OnOk result
        (out.new.items ≡ out.old.items ++ statement_bytes size base statement) }
    ensures fits { FitsStatement size base statement }
{
    put_words(out, statement.source, statement.line)?;
    put_address(out, size, base, statement.address)
}

/// Appends all statements.
fn put_statements(
    out: &mut Vec<u8>,
    size: StartSize,
    base: u64,
    statements: &[Statement],
) -> Result<(), AllocError>
    requires base { All (λ s. base ≤ s.address) statements.now }
    requires near { size ≡ Four → All (λ s. s.address < base + 2 ^ 32) statements.now }
    ensures bytes { OnOk result
        (out.new.items ≡ out.old.items ++ flat_map (statement_bytes size base) statements.now) }
    ensures fits { OnOk result (All (FitsStatement size base) statements.now) }
{
    for statement in statements {
        put_statement(out, size, base, *statement)?;
    }
    Ok(())
}

/// Whether the column of a place has 30 bits.
fn has_column(place: Option<SourceLine>) -> bool
    ensures { IsTrue result ↔ HasColumn place }
{
    match place {
        Some(line) => line.column < COLUMNS,
        None => true,
    }
}

/// Whether the columns of all entries have 30 bits.
fn have_columns(entries: &[Entry]) -> bool
    ensures yes { result ≡ true → All (λ e. HasColumn e.place) entries.now }
    ensures no { result ≡ false → All (λ e. HasColumn e.place) entries.now → ⊥ }
{
    for entry in entries {
        if !has_column(entry.place) {
            return false;
        }
    }
    true
}

/// Whether no entry has a lower address than the one before it.
fn entries_ascend(entries: &[Entry]) -> bool
    ensures yes { result ≡ true → EntriesAscend entries.now }
    ensures no { result ≡ false → EntriesAscend entries.now → ⊥ }
{
    for index in 1..entries.len() {
        if entries[index].address < entries[index - 1].address {
            return false;
        }
    }
    true
}

/// The lesser of a number, if there is one, and another.
fn lesser(found: Option<u64>, number: u64) -> u64
    ensures { result ≡ option_map_or (λ n. min n number) found number }
{
    match found {
        Some(least) => least.min(number),
        None => number,
    }
}

/// The least of the addresses of entries, if there are any.
fn least_of_entries(entries: &[Entry]) -> Option<u64>
    ensures { result ≡ least_of (map (λ e. e.address) entries.now) }
{
    let mut found: Option<u64> = None;
    for entry in entries {
        found = Some(lesser(found, entry.address));
    }
    found
}

/// The least of the addresses of entries and statements; 0 where there are none.
fn least_address(entries: &[Entry], statements: &[Statement]) -> u64
    ensures { result ≡ least (all_addresses entries.now statements.now) }
{
    let mut found = least_of_entries(entries);
    for statement in statements {
        found = Some(lesser(found, statement.address));
    }
    found.unwrap_or(0)
}

/// The greatest of the addresses of entries; 0 where there are none.
fn greatest_of_entries(entries: &[Entry]) -> u64
    ensures { result ≡ greatest (map (λ e. e.address) entries.now) }
{
    let mut found: u64 = 0;
    for entry in entries {
        found = found.max(entry.address);
    }
    found
}

/// The greatest of the addresses of entries and statements; 0 where there are none.
fn greatest_address(entries: &[Entry], statements: &[Statement]) -> u64
    ensures { result ≡ greatest (all_addresses entries.now statements.now) }
{
    let mut found = greatest_of_entries(entries);
    for statement in statements {
        found = found.max(statement.address);
    }
    found
}

/// The bytes of starts between these addresses.
fn size_for(first: u64, last: u64) -> StartSize
    ensures { result ≡ size_for first last }
{
    if last.saturating_sub(first) < 0x1_0000_0000 {
        StartSize::Four
    } else {
        StartSize::Eight
    }
}

/// The bytes of a start.
fn bytes_of_start(size: StartSize) -> u16
    ensures { result ≡ size_of size }
{
    match size {
        StartSize::Four => 4,
        StartSize::Eight => 8,
    }
}

/// The base of starts, of which the first is at this address.
fn base_for(size: StartSize, first: u64) -> u64
    ensures { result ≡ base_for size first }
{
    first.min(size.highest_base())
}

/// Appends the magic and the version.
fn put_magic(out: &mut Vec<u8>) -> Result<(), AllocError>
    ensures { OnOk result (out.new.items ≡ out.old.items ++ (magic ++ le_bytes 4 2)) }
{
    out.extend_from_slice(&MAGIC)?;
    put_word(out, VERSION)
}

/// Appends the sizes of an address and of a start, and the base.
fn put_sizes(
    out: &mut Vec<u8>,
    address_size: u16,
    size: StartSize,
    base: u64,
) -> Result<(), AllocError>
    ensures { OnOk result (out.new.items ≡ out.old.items
        ++ (le_bytes 2 address_size ++ le_bytes 2 (size_of size) ++ le_bytes 8 base)) }
{
    put_uhalf(out, address_size)?;
    put_uhalf(out, bytes_of_start(size))?;
    put_long(out, base)
}

impl Contents<'_> {
    ghost use Rattle.gimli_index.specs.Made.{contents_of};

    /// Appends the bytes of the index of these contents, as `docs/reference/INDEX.md` has them: the
    /// statements in order, each address of a line of a path once.
    ///
    /// Refuses entries of which one is below the one before it (`NotAscending`), more entries,
    /// statements, sources or bytes of paths or of the identity than 32 bits count
    /// (`TooManyEntries`, `TooManyStatements`, `TooManySources`, `PathsTooLarge`,
    /// `IdentityTooLarge`), and columns of more than 30 bits (`ColumnTooLarge`), before it appends
    /// anything. If it fails with `OutOfMemory`, a part of the bytes may be appended. Requires an
    /// address size of 1, 2, 4 or 8 bytes.
    pub fn write(&self, alloc: Global, out: &mut Vec<u8>) -> Result<(), MakeError>
        requires { IsTrue (is_address_size self.now.address_size) }
        ensures written { OnOk result (IsWritten self.now out.old.items out.new.items) }
        ensures ascending { OnOk result (EntriesAscend self.now.entries.now) }
        ensures err { IfErr result (IsMakeFault (contents_of self.now self.now.statements.now)) }
        ensures kept { IfErr result (λ e. e ≢ OutOfMemory → out.new.items ≡ out.old.items) }
    {
        self.check()?;
        let names = self.names(alloc)?;
        let statements = self.ordered(alloc, &names)?;
        self.write_parts(&names, &statements, out)?;
        Ok(())
    }

    /// Appends the bytes, by the numbers of the names of the sources and by statements in order.
    pub(crate) fn write_parts(
        &self,
        names: &[u32],
        statements: &[Statement],
        out: &mut Vec<u8>,
    ) -> Result<(), AllocError>
        requires counts { FitsCounts (contents_of self.now statements.now) }
        requires size { IsTrue (is_address_size self.now.address_size) }
        requires columns { All (λ e. HasColumn e.place) self.now.entries.now }
        requires names { names.now
            ≡ map (λ s. path_number (source_path self.now.paths.now s)) self.now.sources.now }
        requires within { All (Contains self.now.statements.now) statements.now }
        ensures bytes { OnOk result
            (out.new.items ≡ out.old.items ++ index_bytes (contents_of self.now statements.now)) }
        ensures fits { OnOk result (Fits (contents_of self.now statements.now)) }
    {
        let first = least_address(self.entries, self.statements);
        let size = size_for(first, greatest_address(self.entries, self.statements));
        let base = base_for(size, first);
        out.reserve_exact(self.size(size, statements.len()))?;
        self.put_header(out, size, base, statements.len())?;
        put_sources(out, self.sources, names)?;
        put_starts(out, size, base, self.entries)?;
        put_entries(out, self.entries)?;
        put_statements(out, size, base, statements)?;
        out.extend_from_slice(self.paths)?;
        out.extend_from_slice(self.identity)?;
        Ok(())
    }

    /// Refuses contents that make no index.
    pub(crate) fn check(&self) -> Result<(), MakeError>
        ensures counts { OnOk result (FitsCounts (contents_of self.now self.now.statements.now)) }
        ensures ascending { OnOk result (EntriesAscend self.now.entries.now) }
        ensures columns { OnOk result (All (λ e. HasColumn e.place) self.now.entries.now) }
        ensures err { IfErr result (IsMakeFault (contents_of self.now self.now.statements.now)) }
    {
        self.check_sizes()?;
        if !entries_ascend(self.entries) {
            return Err(MakeError::NotAscending);
        }
        if !have_columns(self.entries) {
            return Err(MakeError::ColumnTooLarge);
        }
        Ok(())
    }

    /// Refuses what 32 bits don't count.
    fn check_sizes(&self) -> Result<(), MakeError>
        ensures ok { OnOk result (FitsCounts (contents_of self.now self.now.statements.now)) }
        ensures err { IfErr result (IsMakeFault (contents_of self.now self.now.statements.now)) }
    {
        if self.entries.len() > MOST {
            return Err(MakeError::TooManyEntries);
        }
        if self.statements.len() > MOST {
            return Err(MakeError::TooManyStatements);
        }
        if self.sources.len() > MOST {
            return Err(MakeError::TooManySources);
        }
        if self.paths.len() > MOST {
            return Err(MakeError::PathsTooLarge);
        }
        if self.identity.len() > MOST {
            return Err(MakeError::IdentityTooLarge);
        }
        Ok(())
    }

    /// How many bytes the index has, with so many statements. Nothing rests on it.
    fn size(&self, size: StartSize, statements: usize) -> usize
        requires counts { FitsCounts (contents_of self.now []) }
        requires statements { statements < 2 ^ 32 }
    {
        let starts = size.bytes_of(self.entries.len() as u32) + ENTRY_SIZE * self.entries.len();
        let ordered = size.bytes_of_statements(statements as u32);
        let others = SOURCE_SIZE * self.sources.len() + ordered;
        HEADER_SIZE + starts + others + self.paths.len() + self.identity.len()
    }

    /// Appends the header, with so many statements.
    fn put_header(
        &self,
        out: &mut Vec<u8>,
        size: StartSize,
        base: u64,
        statements: usize,
    ) -> Result<(), AllocError>
        requires counts { FitsCounts (contents_of self.now []) }
        requires statements { statements < 2 ^ 32 }
        requires size { size ≡ (contents_of self.now []).start_size }
        requires base { base ≡ (contents_of self.now []).base }
        ensures { OnOk result ((ordered : List Statement) → statements ≡ length ordered
            → out.new.items ≡ out.old.items ++ header_bytes (contents_of self.now ordered)) }
    {
        put_magic(out)?;
        put_sizes(out, self.address_size, size, base)?;
        put_words(out, self.entries.len() as u32, self.sources.len() as u32)?;
        put_words(out, self.paths.len() as u32, self.identity.len() as u32)?;
        put_words(out, statements as u32, 0)?;
        Ok(())
    }
}
