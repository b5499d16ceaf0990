//! Lines of text.

ghost use Rattle.std.specs.Prelude.{◌≡◌, IfErr};

use crate::refusal::Refusal;
use gimli_core::Reader;
use gimli_line::{IncompleteLineProgram, LineProgram, LineRows};
use line_text::RowLine;
use std::fmt;
use std::io::Write;

/// Prints the rows of a program. The first fault stops it, after the rows before it.
pub(crate) fn print_program<R: Reader, O: Write>(
    program: IncompleteLineProgram<R>,
    out: &mut O,
) -> Result<(), Refusal> {
    print_rows(program.rows(), out)
}

/// Prints the rows that are still to come. The first fault stops it, after the rows before it.
pub(crate) fn print_rows<R: Reader, P: LineProgram<R> + Drop, O: Write>(
    rows: LineRows<R, P>,
    out: &mut O,
) -> Result<(), Refusal> {
    let mut rows = rows;
    'rows: loop {
        let row = match rows.next_row() {
            Ok(Some((_, row))) => *row,
            Ok(None) => return Ok(()),
            Err(e) => return Err(Refusal::of_unit(e, Refusal::Rows)),
        };
        print_line(RowLine(row), out)?;
    }
}

/// Prints a line of text.
pub(crate) fn print_line<T: fmt::Display + Drop, O: Write>(
    line: T,
    out: &mut O,
) -> Result<(), Refusal>
    ensures refusal { IfErr result (λ r. r ≡ Refusal.Output) }
{
    match writeln!(out, "{line}") {
        Ok(()) => Ok(()),
        Err(_) => Err(Refusal::Output),
    }
}

/// Writes the bytes of a line.
pub(crate) fn write_line<O: Write>(bytes: &[u8], out: &mut O) -> Result<(), Refusal>
    ensures refusal { IfErr result (λ r. r ≡ Refusal.Output) }
{
    match out.write_all(bytes) {
        Ok(()) => Ok(()),
        Err(_) => Err(Refusal::Output),
    }
}

/// Flushes the output of a command that has printed all, and returns what became of the command.
pub(crate) fn finish<O: Write>(outcome: Result<(), Refusal>, out: &mut O) -> Result<(), Refusal> {
    match out.flush() {
        Ok(()) => outcome,
        Err(_) => Err(Refusal::Output),
    }
}
