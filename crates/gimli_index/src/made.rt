//! The index of a lookup.

ghost use Rattle.std.specs.Prelude.{◌≡◌, ◌≢◌, ◌≤◌, ◌++◌, ℕ, List, [], true, false, length};
ghost use Rattle.std.specs.Prelude.{flat_map, map};
ghost use Rattle.std.specs.Prelude.{slice_get, take, All, IfErr, IfOk, IsTrue, None, OnOk};
ghost use Rattle.gimli_core.specs.Numbers.{is_address_size};
ghost use Rattle.gimli_index.specs.Found.{code_of, given_by, IsAppended, IsIndexAppended};
ghost use Rattle.gimli_lookup.specs.ProgramPaths.{texts_seen};
ghost use Rattle.gimli_index.specs.Meaning.{Start};
ghost use Rattle.gimli_index.specs.Refused.{IsIndexFault};
ghost use Rattle.gimli_index.specs.declared.error.MakeError.TheVariants.{OutOfMemory};
ghost use Rattle.gimli_index.specs.inside.Table.{AreSources, Entered, IsPushed, IsTableFault};
ghost use Rattle.gimli_index.specs.inside.Table.{SayTheSame};
ghost use Rattle.gimli_index.specs.inside.Turns.{end_after, row_start, rows_of_turns};
ghost use Rattle.gimli_index.specs.inside.Turns.{starts_of_turn, turn_rows, IsTurn, Walked};
ghost use Rattle.gimli_lookup.specs.Probes.{never_go_below, never_go_down};
ghost use Rattle.gimli_lookup.specs.Section.{KeptUnit};
ghost use Rattle.gimli_lookup.specs.Section.{rows_of};

use crate::contents::{Contents, Entry, Source, SourceLine};
use crate::error::MakeError;
use crate::origin::Origin;
use crate::source_table::SourceTable;
use crate::statements::statements_of;
use crate::turns::{Turn, are_in_turn, turns_of};
use gimli_core::Reader;
use gimli_lookup::{CoveringRows, Program, Ranges, SequenceRows};
use std::alloc::{AllocError, Global};

/// Whether two numbers are of sources that are the same.
#[inline(always)]
fn is_same_source(sources: &[Source], first: u32, second: u32) -> bool
    ensures yes { result ≡ true → slice_get sources.now first ≡ slice_get sources.now second }
    ensures no { result ≡ false → slice_get sources.now first ≡ slice_get sources.now second → ⊥ }
{
    if first == second {
        return true;
    }
    match (sources.get(first as usize), sources.get(second as usize)) {
        (Some(first), Some(second)) => *first == *second,
        (None, None) => true,
        _ => false,
    }
}

/// Whether two places are the same.
#[inline(always)]
fn is_same(sources: &[Source], first: Option<SourceLine>, second: Option<SourceLine>) -> bool
    ensures yes { result ≡ true → SayTheSame sources.now first second }
    ensures no { result ≡ false → SayTheSame sources.now first second → ⊥ }
{
    match (first, second) {
        (None, None) => true,
        (Some(a), Some(b)) => {
            a.line == b.line
                && a.column == b.column
                && a.is_stmt == b.is_stmt
                && a.prologue_end == b.prologue_end
                && is_same_source(sources, a.source, b.source)
        }
        _ => false,
    }
}

/// Appends an entry, unless the last one says the same.
#[inline(always)]
fn push(entries: &mut Vec<Entry>, sources: &[Source], entry: Entry) -> Result<(), MakeError>
    ensures pushed { OnOk result (IsPushed sources.now entries.old.items entries.new.items entry) }
    ensures err { IfErr result (λ e. e ≡ OutOfMemory) }
{
    let before = match entries.last() {
        Some(last) => last.place,
        None => None,
    };
    if is_same(sources, before, entry.place) {
        return Ok(());
    }
    entries.push(entry)?;
    Ok(())
}

/// Takes in the ranges that are left, and their sources.
fn take_ranges<R: Reader>(
    origin: &Origin<'_, R>,
    ranges: &mut Ranges<'_, R>,
    table: &mut SourceTable,
    entries: &mut Vec<Entry>,
) -> Result<(), MakeError>
    requires units { ranges.old.units ≡ origin.now.lookup.now }
    requires entered { Entered
        (texts_seen R.seen origin.now.paths.now)
        origin.now.lookup.now origin.now.limit table.old entries.old.items ranges.old.from }
    ensures entered { OnOk result (Entered
        (texts_seen R.seen origin.now.paths.now)
        origin.now.lookup.now origin.now.limit table.new entries.new.items None) }
    ensures err { IfErr result (IsTableFault
        (texts_seen R.seen origin.now.paths.now)
        origin.now.lookup.now origin.now.limit) }
{
    'ranges: while let Some(range) = ranges.next_range() {
        let place = table.place_of(origin, range.rows)?;
        let entry = Entry {
            address: range.start,
            place,
        };
        push(entries, table.sources(), entry)?;
    }
    Ok(())
}

/// How many rows of a sequence there are, without the end row.
fn count_of_code(rows: SequenceRows<'_>) -> usize
    ensures count { result ≤ length (rows_of rows.entry) }
    ensures code { take result (rows_of rows.entry) ≡ code_of (rows_of rows.entry) }
{
    let Some(last) = rows.len().checked_sub(1) else {
        return 0;
    };
    if rows.row(last).end_sequence() {
        last
    } else {
        last + 1
    }
}

/// Takes in each row of a sequence, without its end.
fn take_rows<R: Reader>(
    origin: &Origin<'_, R>,
    turn: Turn<'_>,
    table: &mut SourceTable,
    entries: &mut Vec<Entry>,
) -> Result<(), MakeError>
    requires turn { IsTurn origin.now.lookup.now turn }
    requires are { AreSources
        (texts_seen R.seen origin.now.paths.now)
        origin.now.lookup.now origin.now.limit table.old }
    ensures are { OnOk result (AreSources
        (texts_seen R.seen origin.now.paths.now)
        origin.now.lookup.now origin.now.limit table.new) }
    ensures walked { OnOk result ((d : KeptUnit) (said : List Start) (end : ℕ) → Walked
        (texts_seen R.seen origin.now.paths.now)
        origin.now.lookup.now origin.now.limit table.old entries.old.items said end
        → never_go_below end (rows_of turn.entry.rows) ≡ true → Walked
        (texts_seen R.seen origin.now.paths.now)
        origin.now.lookup.now origin.now.limit table.new entries.new.items
        (said
        ++ map (row_start (texts_seen R.seen origin.now.paths.now)
        (turn_rows origin.now.lookup.now d turn.entry).unit) (code_of (rows_of turn.entry.rows)))
        (end_after end (code_of (rows_of turn.entry.rows)))) }
    ensures err { IfErr result (IsTableFault
        (texts_seen R.seen origin.now.paths.now)
        origin.now.lookup.now origin.now.limit) }
{
    for index in 0..count_of_code(turn.rows) {
        let row = turn.rows.row(index);
        let rows = CoveringRows {
            unit: turn.unit,
            row,
            next: row,
        };
        let place = table.place_of(origin, Some(rows))?;
        let entry = Entry {
            address: row.address(),
            place,
        };
        push(entries, table.sources(), entry)?;
    }
    Ok(())
}

/// Takes in a sequence, with its end.
fn take_turn<R: Reader>(
    origin: &Origin<'_, R>,
    turn: Turn<'_>,
    table: &mut SourceTable,
    entries: &mut Vec<Entry>,
) -> Result<(), MakeError>
    requires turn { IsTurn origin.now.lookup.now turn }
    requires are { AreSources
        (texts_seen R.seen origin.now.paths.now)
        origin.now.lookup.now origin.now.limit table.old }
    ensures are { OnOk result (AreSources
        (texts_seen R.seen origin.now.paths.now)
        origin.now.lookup.now origin.now.limit table.new) }
    ensures walked { OnOk result ((d : KeptUnit) (said : List Start) (end : ℕ) → Walked
        (texts_seen R.seen origin.now.paths.now)
        origin.now.lookup.now origin.now.limit table.old entries.old.items said end
        → never_go_below end (rows_of turn.entry.rows) ≡ true → Walked
        (texts_seen R.seen origin.now.paths.now)
        origin.now.lookup.now origin.now.limit table.new entries.new.items
        (said
        ++ starts_of_turn (texts_seen R.seen origin.now.paths.now)
        (turn_rows origin.now.lookup.now d turn.entry))
        (end_after end (rows_of turn.entry.rows))) }
    ensures err { IfErr result (IsTableFault
        (texts_seen R.seen origin.now.paths.now)
        origin.now.lookup.now origin.now.limit) }
{
    let Some((_, last)) = turn.rows.range() else {
        return Ok(());
    };
    take_rows(origin, turn, table, entries)?;
    let end = Entry {
        address: last,
        place: None,
    };
    push(entries, table.sources(), end)
}

/// Takes in sequences, one after the other.
fn take_turns<R: Reader>(
    origin: &Origin<'_, R>,
    turns: &[Turn<'_>],
    table: &mut SourceTable,
    entries: &mut Vec<Entry>,
) -> Result<(), MakeError>
    requires turns { All (IsTurn origin.now.lookup.now) turns.now }
    requires are { AreSources
        (texts_seen R.seen origin.now.paths.now)
        origin.now.lookup.now origin.now.limit table.old }
    ensures walked { OnOk result ((d : KeptUnit) → Walked
        (texts_seen R.seen origin.now.paths.now)
        origin.now.lookup.now origin.now.limit table.old entries.old.items [] 0
        → never_go_down (rows_of_turns turns.now) ≡ true → Walked
        (texts_seen R.seen origin.now.paths.now)
        origin.now.lookup.now origin.now.limit table.new entries.new.items
        (flat_map
        (starts_of_turn (texts_seen R.seen origin.now.paths.now))
        (map (turn_rows origin.now.lookup.now d) turns.now))
        (end_after 0 (rows_of_turns turns.now))) }
    ensures err { IfErr result (IsTableFault
        (texts_seen R.seen origin.now.paths.now)
        origin.now.lookup.now origin.now.limit) }
{
    for turn in turns {
        take_turn(origin, *turn, table, entries)?;
    }
    Ok(())
}

/// No entries, with room for one for each row of these sequences.
fn entries_for(alloc: Global, turns: &[Turn<'_>]) -> Result<Vec<Entry>, AllocError>
    ensures { IfOk result (λ entries. entries.items ≡ []) }
{
    let mut count: usize = 0;
    for turn in turns {
        count = count.saturating_add(turn.rows.len());
    }
    Vec::with_capacity(alloc, count)
}

/// The entries of a lookup, whose sources the table takes in.
fn entries_of<R: Reader>(
    origin: &Origin<'_, R>,
    table: &mut SourceTable,
) -> Result<Vec<Entry>, MakeError>
    requires { AreSources (texts_seen R.seen origin.now.paths.now)
        origin.now.lookup.now origin.now.limit table.old }
    ensures entered { IfOk result (λ entries. Entered
        (texts_seen R.seen origin.now.paths.now)
        origin.now.lookup.now origin.now.limit table.new entries.items None) }
    ensures err { IfErr result (IsTableFault
        (texts_seen R.seen origin.now.paths.now)
        origin.now.lookup.now origin.now.limit) }
{
    let turns = turns_of(origin.alloc, origin.lookup)?;
    let mut entries = entries_for(origin.alloc, &turns)?;
    if are_in_turn(&turns) {
        take_turns(origin, &turns, table, &mut entries)?;
        return Ok(entries);
    }
    let mut ranges = origin.lookup.ranges();
    take_ranges(origin, &mut ranges, table, &mut entries)?;
    Ok(entries)
}

/// Appends the bytes of the index of a lookup, whose sources a table takes in.
fn write_entries<R: Reader>(
    origin: &Origin<'_, R>,
    table: &mut SourceTable,
    address_size: u16,
    identity: &[u8],
    out: &mut Vec<u8>,
) -> Result<(), MakeError>
    requires size { IsTrue (is_address_size address_size) }
    requires sources { AreSources
        (texts_seen R.seen origin.now.paths.now)
        origin.now.lookup.now origin.now.limit table.old }
    ensures bytes { OnOk result
        (IsAppended (given_by (texts_seen R.seen origin.now.paths.now) origin.now.lookup.now
        address_size identity.now) origin.now.limit out.old.items out.new.items) }
    ensures err { IfErr result
        (IsIndexFault (given_by (texts_seen R.seen origin.now.paths.now) origin.now.lookup.now
        address_size identity.now) origin.now.limit) }
    ensures kept { IfErr result (λ e. e ≢ OutOfMemory → out.new.items ≡ out.old.items) }
{
    let entries = entries_of(origin, table)?;
    let statements = statements_of(origin, table)?;
    Contents {
        address_size,
        sources: table.sources(),
        entries: entries.as_slice(),
        statements: statements.as_slice(),
        paths: table.paths(),
        identity,
    }
    .write_named(origin.alloc, out)
}

/// Appends the bytes of the index of a program: what [`Program::place`] says of each address, with
/// the whole path of the place. The identity names what the index is made of: a build id or a
/// checksum.
///
/// [`LineIndex::addresses_of`](crate::LineIndex::addresses_of) gives the addresses of a line that
/// the rows give, whichever of their sequences overlap. The sources are those that an entry or a
/// statement names, each the file of a row of code.
///
/// Adjacent starts of one place are one. A source whose path isn't known has the number of the
/// reason (`docs/reference/INDEX.md`, "Sources"). Refuses lines, columns, and more entries,
/// statements, sources or bytes of paths or of the identity than 32 bits count, by name, and
/// appends nothing then; else it fails only with `OutOfMemory`, where a part of the bytes may be
/// appended. Requires an address size of 1, 2, 4 or 8 bytes.
///
/// `limit` is the most bytes that all paths may have, each once with its zero byte: more are
/// refused (`PathsTooLarge`) before there is memory for them. A directory stands in the path of
/// each of its files, so the paths of a small section may be long. `usize::MAX` leaves the limit of
/// 32 bits.
pub fn write_index<R: Reader>(
    program: &Program<R>,
    address_size: u16,
    identity: &[u8],
    limit: usize,
    out: &mut Vec<u8>,
) -> Result<(), MakeError>
    requires { IsTrue (is_address_size address_size) }
    ensures bytes { OnOk result (IsAppended (given_by (texts_seen R.seen program.now.paths)
        program.now.lookup address_size identity.now) limit out.old.items out.new.items) }
    ensures index { OnOk result (IsIndexAppended (given_by (texts_seen R.seen program.now.paths)
        program.now.lookup address_size identity.now) out.old.items out.new.items) }
    ensures err { IfErr result (IsIndexFault (given_by (texts_seen R.seen program.now.paths)
        program.now.lookup address_size identity.now) limit) }
    ensures kept { IfErr result (λ e. e ≢ OutOfMemory → out.new.items ≡ out.old.items) }
{
    let origin = Origin {
        alloc: program.allocator(),
        lookup: program.lookup(),
        paths: program.paths(),
        limit,
    };
    let mut table = SourceTable::new(origin.alloc, origin.lookup)?;
    write_entries(&origin, &mut table, address_size, identity, out)
}
