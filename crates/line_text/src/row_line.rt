//! The lines of rows and of sequences.

use gimli_line::LineRow;
use std::fmt;

/// The line of a row: its address in sixteen hexadecimal digits, its numbers, and its flags.
#[derive(Clone, Copy)]
pub struct RowLine(pub LineRow);

impl fmt::Display for RowLine {
    fn fmt<W: fmt::Write>(&self, f: &mut fmt::Formatter<W>) -> fmt::Result {
        let row = self.0;
        let address = row.address();
        let op_index = row.op_index();
        let file = row.file_index();
        let line = line_number(&row);
        let column = row.column().number();
        let isa = row.isa();
        let discriminator = row.discriminator();
        let flags = [
            (row.is_stmt(), "s"),
            (row.basic_block(), "b"),
            (row.end_sequence(), "e"),
            (row.prologue_end(), "p"),
            (row.epilogue_begin(), "q"),
        ];
        let flags = Words(&flags, "-");
        write!(
            f,
            "{address:016x} {op_index} {file} {line} {column} {isa} {discriminator} {flags}"
        )
    }
}

/// The line of a sequence: its addresses in sixteen hexadecimal digits each, and how many rows it
/// gives.
#[derive(Clone, Copy)]
pub struct SequenceLine {
    /// The address of its first row; 0 where the end row is the only one.
    pub start: u64,
    /// The address of its end row.
    pub end: u64,
    /// The number of its rows.
    pub rows: u64,
}

impl fmt::Display for SequenceLine {
    fn fmt<W: fmt::Write>(&self, f: &mut fmt::Formatter<W>) -> fmt::Result {
        let start = self.start;
        let end = self.end;
        let rows = self.rows;
        write!(f, "sequence {start:016x} {end:016x} {rows}")
    }
}

/// The line of a row, 0 for none.
fn line_number(row: &LineRow) -> u64 {
    match row.line() {
        Some(line) => line.get(),
        None => 0,
    }
}

/// The words of the flags that are set, or another word where none is.
#[derive(Clone, Copy)]
pub struct Words<'f>(pub &'f [(bool, &'static str)], pub &'static str);

impl fmt::Display for Words<'_> {
    fn fmt<W: fmt::Write>(&self, f: &mut fmt::Formatter<W>) -> fmt::Result {
        let mut none = self.1;
        for (holds, word) in self.0 {
            if *holds {
                f.write_str(word)?;
                none = "";
            }
        }
        f.write_str(none)
    }
}
