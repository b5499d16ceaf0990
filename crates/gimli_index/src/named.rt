//! The sources that the entries and the statements of an index name, and contents without the
//! others.

ghost use Rattle.std.specs.Prelude.{◌≡◌, ◌≢◌, ◌≤◌, ◌<◌, ◌+◌, ◌^◌, ◌==◌, ◌++◌, ◌∷◌, [], length, map};
ghost use Rattle.std.specs.Prelude.{if◌then◌else◌, replicate, slice_get, All, IfErr, IfOk, IfSome};
ghost use Rattle.std.specs.Prelude.{IsTrue, OnOk, false, true, Some, ℕ, option_map};
ghost use Rattle.gimli_core.specs.Numbers.{is_address_size};
ghost use Rattle.gimli_index.specs.Contents.{index_bytes, source_path, Fits, FitsCounts, HasColumn};
ghost use Rattle.gimli_index.specs.Made.{contents_of, EntriesAscend, HasOrder, IsMakeFault};
ghost use Rattle.gimli_index.specs.Made.{SayTheSameLines};
ghost use Rattle.gimli_index.specs.Named.{number_in};
ghost use Rattle.gimli_index.specs.Order.{path_number};
ghost use Rattle.std.specs.List.{Contains};
ghost use Rattle.gimli_index.specs.declared.contents.Entry.{Entry};
ghost use Rattle.gimli_index.specs.declared.contents.Statement.{Statement};
ghost use Rattle.gimli_index.specs.declared.error.MakeError.TheVariants.{OutOfMemory};
ghost use Rattle.gimli_index.specs.inside.Kept.{are_named, entries_name, kept, numbers_from};
ghost use Rattle.gimli_index.specs.inside.Kept.{entry_by, line_by, number_by, statement_by};
ghost use Rattle.gimli_index.specs.inside.Kept.{statements_name, IsKeptWritten, IsNamedWritten};
ghost use Rattle.gimli_lookup.specs.RowFiles.{AreMarked};

use crate::contents::{Contents, Entry, NO_SOURCE, Source, SourceLine, Statement};
use crate::error::MakeError;
use std::alloc::{AllocError, Global};

/// Marks a number; one past the marks isn't marked.
fn mark(number: usize, named: &mut [bool])
    ensures { AreMarked (λ n. number == n) named.old named.new }
{
    if number < named.len() {
        named[number] = true;
    }
}

/// The number of the source of a place.
fn number_in(place: Option<SourceLine>) -> u32
    ensures { result ≡ number_in place }
{
    match place {
        Some(line) => line.source,
        None => NO_SOURCE,
    }
}

/// Marks the sources that entries name.
fn mark_entries(entries: &[Entry], named: &mut [bool])
    ensures { AreMarked (entries_name entries.now) named.old named.new }
{
    for entry in entries {
        mark(number_in(entry.place) as usize, named);
    }
}

/// Marks the sources that statements name.
fn mark_statements(statements: &[Statement], named: &mut [bool])
    ensures { AreMarked (statements_name statements.now) named.old named.new }
{
    for statement in statements {
        mark(statement.source as usize, named);
    }
}

/// Marks the sources that entries or statements name.
fn mark_all(entries: &[Entry], statements: &[Statement], named: &mut [bool])
    ensures { AreMarked (are_named entries.now statements.now) named.old named.new }
{
    mark_entries(entries, named);
    mark_statements(statements, named);
}

/// So many marks, none of them set.
fn no_marks(alloc: Global, count: usize) -> Result<Vec<bool>, AllocError>
    ensures { IfOk result (λ marks. marks.items ≡ replicate count false) }
{
    let mut marks = Vec::with_capacity(alloc, count)?;
    for _ in 0..count {
        marks.push(false)?;
    }
    Ok(marks)
}

/// Which of so many sources the entries or the statements name.
fn named_by(
    alloc: Global,
    count: usize,
    entries: &[Entry],
    statements: &[Statement],
) -> Result<Vec<bool>, AllocError>
    ensures { IfOk result (λ named. AreMarked (are_named entries.now statements.now)
        (replicate count false) named.items) }
{
    let mut named = no_marks(alloc, count)?;
    mark_all(entries, statements, named.as_mut_slice());
    Ok(named)
}

/// Whether all marks are set.
fn are_all(named: &[bool]) -> bool
    ensures { result ≡ true → All (λ mark. mark ≡ true) named.now }
{
    for mark in named {
        if !*mark {
            return false;
        }
    }
    true
}

/// The number after one that has this mark.
fn after(number: u32, mark: bool) -> u32
    requires { number < 0xffff_ffff }
    ensures is { result ≡ (if mark then number + 1 else number) }
    ensures most { result ≤ number + 1 }
{
    if mark { number + 1 } else { number }
}

/// The numbers of the sources whose marks are set, among these alone.
fn numbers_of(alloc: Global, named: &[bool]) -> Result<Vec<u32>, AllocError>
    requires { length named.now < 2 ^ 32 }
    ensures { IfOk result (λ numbers. numbers.items ≡ numbers_from 0 named.now) }
{
    let mut numbers = Vec::with_capacity(alloc, named.len())?;
    let mut next: u32 = 0;
    for mark in named {
        numbers.push(next)?;
        next = after(next, *mark);
    }
    Ok(numbers)
}

/// Appends a source whose mark is set.
fn push_if(some: &mut Vec<Source>, source: Source, mark: bool) -> Result<(), AllocError>
    ensures { OnOk result
        (some.new.items ≡ some.old.items ++ (if mark then source ∷ [] else [])) }
{
    if !mark {
        return Ok(());
    }
    some.push(source)?;
    Ok(())
}

/// The sources whose marks are set.
fn kept_sources(
    alloc: Global,
    sources: &[Source],
    named: &[bool],
) -> Result<Vec<Source>, AllocError>
    requires { length named.now ≡ length sources.now }
    ensures { IfOk result (λ some. some.items ≡ kept named.now sources.now) }
{
    let mut some = Vec::new(alloc);
    for index in 0..sources.len() {
        push_if(&mut some, sources[index], named[index])?;
    }
    Ok(some)
}

/// The number that replaces another one.
fn number_by(numbers: &[u32], number: u32) -> u32
    ensures { result ≡ number_by numbers.now number }
{
    match numbers.get(number as usize) {
        Some(other) => *other,
        None => number,
    }
}

/// A line, with the new number of its source.
fn line_by(numbers: &[u32], line: SourceLine) -> SourceLine
    ensures { result ≡ line_by numbers.now line }
{
    SourceLine {
        source: number_by(numbers, line.source),
        line: line.line,
        column: line.column,
        is_stmt: line.is_stmt,
        prologue_end: line.prologue_end,
    }
}

/// A place, with the new number of its source.
fn place_by(numbers: &[u32], place: Option<SourceLine>) -> Option<SourceLine>
    ensures { result ≡ option_map (line_by numbers.now) place }
{
    match place {
        Some(line) => Some(line_by(numbers, line)),
        None => None,
    }
}

/// Entries with the new numbers of their sources.
fn entries_by(alloc: Global, entries: &[Entry], numbers: &[u32]) -> Result<Vec<Entry>, AllocError>
    ensures { IfOk result (λ made. made.items ≡ map (entry_by numbers.now) entries.now) }
{
    let mut made = Vec::with_capacity(alloc, entries.len())?;
    for entry in entries {
        made.push(Entry {
            address: entry.address,
            place: place_by(numbers, entry.place),
        })?;
    }
    Ok(made)
}

/// Statements with the new numbers of their sources.
fn statements_by(
    alloc: Global,
    statements: &[Statement],
    numbers: &[u32],
) -> Result<Vec<Statement>, AllocError>
    ensures { IfOk result (λ made. made.items ≡ map (statement_by numbers.now) statements.now) }
{
    let mut made = Vec::with_capacity(alloc, statements.len())?;
    for statement in statements {
        made.push(Statement {
            source: number_by(numbers, statement.source),
            line: statement.line,
            address: statement.address,
        })?;
    }
    Ok(made)
}

impl Contents<'_> {
    /// Appends the bytes, with the statements as they come.
    fn write_all(&self, alloc: Global, out: &mut Vec<u8>) -> Result<(), AllocError>
        requires counts { FitsCounts (contents_of self.now self.now.statements.now) }
        requires size { IsTrue (is_address_size self.now.address_size) }
        requires columns { All (λ e. HasColumn e.place) self.now.entries.now }
        ensures bytes { OnOk result (out.new.items
            ≡ out.old.items ++ index_bytes (contents_of self.now self.now.statements.now)) }
        ensures fits { OnOk result (Fits (contents_of self.now self.now.statements.now)) }
    {
        let names = self.names(alloc)?;
        self.write_parts(&names, self.statements, out)
    }

    /// Appends the bytes, with these statements and with the sources alone whose marks are set.
    fn write_kept(
        &self,
        alloc: Global,
        named: &[bool],
        statements: &[Statement],
        out: &mut Vec<u8>,
    ) -> Result<(), AllocError>
        requires counts { FitsCounts (contents_of self.now statements.now) }
        requires size { IsTrue (is_address_size self.now.address_size) }
        requires columns { All (λ e. HasColumn e.place) self.now.entries.now }
        requires marks { length named.now ≡ length self.now.sources.now }
        ensures { OnOk result
            (IsKeptWritten self.now statements.now named.now out.old.items out.new.items) }
    {
        let numbers = numbers_of(alloc, named)?;
        let sources = kept_sources(alloc, self.sources, named)?;
        let entries = entries_by(alloc, self.entries, numbers.as_slice())?;
        let lines = statements_by(alloc, statements, numbers.as_slice())?;
        Contents {
            address_size: self.address_size,
            sources: sources.as_slice(),
            entries: entries.as_slice(),
            statements: lines.as_slice(),
            paths: self.paths,
            identity: self.identity,
        }
        .write_all(alloc, out)
    }

    /// Appends the bytes, with these statements: all sources, or those alone whose marks are set.
    fn write_by(
        &self,
        alloc: Global,
        names: &[u32],
        named: &[bool],
        statements: &[Statement],
        out: &mut Vec<u8>,
    ) -> Result<(), AllocError>
        requires counts { FitsCounts (contents_of self.now statements.now) }
        requires size { IsTrue (is_address_size self.now.address_size) }
        requires ascending { EntriesAscend self.now.entries.now }
        requires columns { All (λ e. HasColumn e.place) self.now.entries.now }
        requires names { names.now
            ≡ map (λ s. path_number (source_path self.now.paths.now s)) self.now.sources.now }
        requires within { All (Contains self.now.statements.now) statements.now }
        requires ordered { HasOrder (contents_of self.now statements.now) }
        requires same { SayTheSameLines (contents_of self.now [])
            self.now.statements.now statements.now }
        requires marked { AreMarked (are_named self.now.entries.now statements.now)
            (replicate (length self.now.sources.now) false) named.now }
        requires entries { (i : ℕ) (e : Entry) → slice_get self.now.entries.now i ≡ Some e
            → IfSome e.place (λ l. l.source < length self.now.sources.now) }
        requires statements { (i : ℕ) (s : Statement) → slice_get self.now.statements.now i ≡ Some s
            → s.source < length self.now.sources.now }
        ensures { OnOk result (IsNamedWritten self.now out.old.items out.new.items) }
    {
        if are_all(named) {
            return self.write_parts(names, statements, out);
        }
        self.write_kept(alloc, named, statements, out)
    }

    /// Appends the bytes of the index of these contents as [`write`](Self::write) does, but without
    /// the sources that no entry and no statement names.
    pub(crate) fn write_named(&self, alloc: Global, out: &mut Vec<u8>) -> Result<(), MakeError>
        requires size { IsTrue (is_address_size self.now.address_size) }
        requires entries { (i : ℕ) (e : Entry) → slice_get self.now.entries.now i ≡ Some e
            → IfSome e.place (λ l. l.source < length self.now.sources.now) }
        requires statements { (i : ℕ) (s : Statement) → slice_get self.now.statements.now i ≡ Some s
            → s.source < length self.now.sources.now }
        ensures written { OnOk result (IsNamedWritten self.now out.old.items out.new.items) }
        ensures err { IfErr result (IsMakeFault (contents_of self.now self.now.statements.now)) }
        ensures kept { IfErr result (λ e. e ≢ OutOfMemory → out.new.items ≡ out.old.items) }
    {
        self.check()?;
        let names = self.names(alloc)?;
        let statements = self.ordered(alloc, names.as_slice())?;
        let named = named_by(
            alloc,
            self.sources.len(),
            self.entries,
            statements.as_slice(),
        )?;
        self.write_by(
            alloc,
            names.as_slice(),
            named.as_slice(),
            statements.as_slice(),
            out,
        )?;
        Ok(())
    }
}
