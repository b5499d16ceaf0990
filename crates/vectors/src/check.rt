//! Rows that are run and compared with what is expected of them.

use crate::run::run_command;
use rows::{Attempts, RowCommand, TestRow, is_expected};
use std::alloc::Global;
use std::io;
use std::io::Write;

/// Runs rows, and prints each command whose output isn't the expected one. Returns how many rows
/// aren't as stated.
pub fn check_rows<O: Write>(
    alloc: Global,
    rows: &[TestRow<'_>],
    attempts: Attempts,
    out: &mut O,
) -> io::Result<usize> {
    let mut not = 0usize;
    for row in rows {
        if !check_row(alloc, row, attempts, out)? {
            not = not.saturating_add(1);
        }
    }
    Ok(not)
}

/// Runs the commands of a row, and prints each whose output isn't the expected one, or is it where
/// it must differ. Returns whether there is none.
fn check_row<O: Write>(
    alloc: Global,
    row: &TestRow<'_>,
    attempts: Attempts,
    out: &mut O,
) -> io::Result<bool> {
    let mut is_as_stated = true;
    for command in &row.commands {
        let got = run_command(alloc, command, attempts)?;
        if is_expected(&row.expected, &got) == row.must_differ {
            is_as_stated = false;
            print_command(row, command, &got, out)?;
        }
    }
    Ok(is_as_stated)
}

/// Prints a command of a row, what is expected of it and what it gave. Its words are printed where
/// the row has other commands too.
fn print_command<O: Write>(
    row: &TestRow<'_>,
    command: &RowCommand<'_>,
    got: &[u8],
    out: &mut O,
) -> io::Result<()> {
    let name = row.name;
    writeln!(out, "== {name}")?;
    if row.commands.len() > 1 {
        let words = command.words;
        writeln!(out, "> {words}")?;
    }
    let rule = if row.must_differ {
        "must differ from"
    } else {
        "expected"
    };
    writeln!(out, "{rule}")?;
    out.write_all(&row.expected)?;
    writeln!(out, "got")?;
    out.write_all(got)
}
