//! From lines to addresses: where code of a line begins.

ghost use Rattle.std.specs.Prelude.{◌≡◌, ◌<◌, ◌++◌, ◌==◌, ◌||◌, ℕ, Bool, true, false, List, IfErr};
ghost use Rattle.std.specs.Prelude.{IfOk, OnOk, MatchOption, [], ◌∷◌};
ghost use Rattle.gimli_line.specs.declared.run.row.LineRow.{LineRow};
ghost use Rattle.gimli_lookup.specs.Statements.{is_of_line, addresses_in, addresses_of};
ghost use Rattle.gimli_lookup.specs.Statements.{ascending_once, AreAddressesFrom};
ghost use Rattle.gimli_lookup.specs.inside.Statements.{is_among, AreCollectedFrom};
ghost use Rattle.gimli_lookup.specs.inside.Statements.{is_statement, has_statement};
ghost use Rattle.gimli_lookup.specs.inside.Statements.{have_statement, IsFirstWith};

use crate::kept_rows::KeptRows;
use gimli_core::{Error, Result};
use gimli_line::LineRow;
use std::alloc::Global;

/// A line, and the addresses at which its code begins.
#[derive(Debug, Drop)]
pub struct Addresses {
    /// The line.
    pub line: u64,
    /// The addresses, in ascending order, each once.
    pub addresses: Vec<u64>,
}

/// The line of a row in one of these files.
fn line_in(row: &LineRow, files: &[u64]) -> Option<u64>
    ensures { MatchOption result ((l : ℕ) → is_of_line (is_among files.now) l row.now ≡ false)
        (λ line. (l : ℕ) → is_of_line (is_among files.now) l row.now ≡ (line == l)) }
{
    if row.end_sequence() || !files.contains(&row.file_index()) {
        return None;
    }
    match row.line() {
        Some(line) => Some(line.get()),
        None => None,
    }
}

/// Whether a row is of a line of one of these files.
fn is_of_line(row: &LineRow, files: &[u64], line: u64) -> bool
    ensures { result ≡ is_of_line (is_among files.now) line row.now }
{
    match line_in(row, files) {
        Some(own) => own == line,
        None => false,
    }
}

/// Appends a number. Fails only with `OutOfMemory`.
pub(crate) fn append(numbers: &mut Vec<u64>, n: u64) -> Result<()>
    ensures ok { OnOk result (numbers.new.items ≡ numbers.old.items ++ n ∷ []) }
    ensures err { IfErr result (λ e. e ≡ Error.OutOfMemory) }
{
    if numbers.push(n).is_err() {
        return Err(Error::OutOfMemory);
    }
    Ok(())
}

/// Appends the addresses of a line in the rows of one sequence. Fails only with `OutOfMemory`.
fn append_in(rows: &KeptRows, files: &[u64], line: u64, addresses: &mut Vec<u64>) -> Result<()>
    ensures ok { OnOk result (addresses.new.items
        ≡ addresses.old.items ++ addresses_in (is_among files.now) line rows.now) }
    ensures err { IfErr result (λ e. e ≡ Error.OutOfMemory) }
{
    let mut has_address = false;
    for index in 0..rows.len() {
        let row = rows.row(index);
        if !is_of_line(&row, files, line) {
            has_address = false;
        } else if row.is_stmt() && !has_address {
            append(addresses, row.address())?;
            has_address = true;
        }
    }
    Ok(())
}

/// Appends the addresses of a line in sequences. Fails only with `OutOfMemory`.
pub(crate) fn append_of(
    sequences: &[KeptRows],
    files: &[u64],
    line: u64,
    addresses: &mut Vec<u64>,
) -> Result<()>
    ensures ok { OnOk result (addresses.new.items
        ≡ addresses.old.items ++ addresses_of (is_among files.now) sequences.now line) }
    ensures err { IfErr result (λ e. e ≡ Error.OutOfMemory) }
{
    for rows in sequences {
        append_in(rows, files, line, addresses)?;
    }
    Ok(())
}

/// The lesser of two lines, where there is one.
pub(crate) fn lesser(first: Option<u64>, second: Option<u64>) -> Option<u64>
    ensures { (has with : ℕ → Bool) (asked : ℕ) → IsFirstWith has asked first
        → IsFirstWith with asked second → IsFirstWith (λ l. has l || with l) asked result }
{
    match (first, second) {
        (Some(a), Some(b)) => Some(a.min(b)),
        (Some(a), None) => Some(a),
        (None, b) => b,
    }
}

/// The line of a row, if it is a statement of a line from the asked one on.
fn statement_line(row: &LineRow, files: &[u64], asked: u64) -> Option<u64>
    ensures { IsFirstWith (λ l. is_statement (is_among files.now) l row.now) asked result }
{
    if !row.is_stmt() {
        return None;
    }
    match line_in(row, files) {
        Some(line) if line >= asked => Some(line),
        _ => None,
    }
}

/// The least line from the asked one on of which the rows of one sequence have a statement.
fn first_line_in(rows: &KeptRows, files: &[u64], asked: u64) -> Option<u64>
    ensures { IsFirstWith (λ l. has_statement (is_among files.now) l rows.now) asked result }
{
    let mut first = None;
    for index in 0..rows.len() {
        first = lesser(first, statement_line(&rows.row(index), files, asked));
    }
    first
}

/// The least line from the asked one on of which sequences have a statement.
pub(crate) fn first_line_of(sequences: &[KeptRows], files: &[u64], asked: u64) -> Option<u64>
    ensures { IsFirstWith (λ l. have_statement (is_among files.now) l sequences.now) asked result }
{
    let mut first = None;
    for rows in sequences {
        first = lesser(first, first_line_in(rows, files, asked));
    }
    first
}

/// Collects the addresses of the first line from the asked one on that has any in sequences. None
/// where no line has any; where there are no files, no row is looked at. Fails only with
/// `OutOfMemory`.
pub(crate) fn collect_from(
    alloc: Global,
    sequences: &[KeptRows],
    files: &[u64],
    asked: u64,
) -> Result<Option<Addresses>>
    ensures ok { IfOk result
        (AreCollectedFrom (addresses_of (is_among files.now) sequences.now) asked) }
    ensures err { IfErr result (λ e. e ≡ Error.OutOfMemory) }
{
    if files.is_empty() {
        return Ok(None);
    }
    let Some(line) = first_line_of(sequences, files, asked) else {
        return Ok(None);
    };
    let mut addresses = Vec::new(alloc);
    append_of(sequences, files, line, &mut addresses)?;
    Ok(Some(Addresses { line, addresses }))
}

/// Joins what was collected from one line on in two parts of a section: the lesser of the two
/// lines, with its addresses in both parts. Fails only with `OutOfMemory`.
pub(crate) fn join_addresses(
    first: Option<Addresses>,
    second: Option<Addresses>,
) -> Result<Option<Addresses>>
    ensures ok { (before after : ℕ → List ℕ) (asked : ℕ) → AreCollectedFrom before asked first
        → AreCollectedFrom after asked second
        → IfOk result (AreCollectedFrom (λ line. before line ++ after line) asked) }
    ensures err { IfErr result (λ e. e ≡ Error.OutOfMemory) }
{
    match (first, second) {
        (Some(mut a), Some(b)) => {
            if a.line < b.line {
                return Ok(Some(a));
            }
            if b.line < a.line {
                return Ok(Some(b));
            }
            if a.addresses.extend_from_slice(&b.addresses).is_err() {
                return Err(Error::OutOfMemory);
            }
            Ok(Some(a))
        }
        (Some(a), None) => Ok(Some(a)),
        (None, b) => Ok(b),
    }
}

/// Puts numbers in ascending order, and keeps each once.
fn put_in_order(numbers: &mut Vec<u64>)
    ensures { numbers.new.items ≡ ascending_once numbers.old.items }
{
    numbers.sort_unstable();
    numbers.dedup();
}

/// Puts the addresses that were collected in ascending order, and keeps each once.
pub(crate) fn in_order(collected: Option<Addresses>) -> Option<Addresses>
    ensures { (addresses : ℕ → List ℕ) (asked : ℕ) → AreCollectedFrom addresses asked collected
        → AreAddressesFrom addresses asked result }
{
    match collected {
        Some(mut found) => {
            put_in_order(&mut found.addresses);
            Some(found)
        }
        None => None,
    }
}

/// The addresses of the first line from the asked one on that has any in sequences, in ascending
/// order, each once. None where no line has any. Fails only with `OutOfMemory`.
pub(crate) fn addresses_from(
    alloc: Global,
    sequences: &[KeptRows],
    files: &[u64],
    asked: u64,
) -> Result<Option<Addresses>>
    ensures ok { IfOk result
        (AreAddressesFrom (addresses_of (is_among files.now) sequences.now) asked) }
    ensures err { IfErr result (λ e. e ≡ Error.OutOfMemory) }
{
    Ok(in_order(collect_from(alloc, sequences, files, asked)?))
}
