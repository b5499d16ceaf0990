//! The tables of texts of a program that is built, and how its rows and what is read back are
//! printed.

use gimli_core::LittleEndian;
use gimli_write::{
    ConvertError, DebugLineStr, DebugStr, EndianVec, LineRow, LineStringId, LineStringTable,
    Result, RoundTrip, RoundTripFile, StringId, StringTable,
};
use rows::Lines;
use rows::Piece::{Digits, Flags, Number, Row, Text, Word};
use std::alloc::Global;

/// The tables of texts.
#[derive(Drop)]
pub(crate) struct Tables {
    /// The texts of the section `.debug_str`.
    pub strings: StringTable,
    /// The texts of the section `.debug_line_str`.
    pub line_strings: LineStringTable,
}

impl Tables {
    /// Tables without a text.
    pub fn new(alloc: Global) -> Tables {
        Tables {
            strings: StringTable::default(alloc),
            line_strings: LineStringTable::default(alloc),
        }
    }

    /// Adds the text `old` to both.
    pub fn add_old(&mut self) -> Result<()> {
        self.strings.add(b"old")?;
        self.line_strings.add(b"old")?;
        Ok(())
    }

    /// Whether the first text of both is `old`.
    pub fn begin_old(&self) -> bool {
        let strings = &self.strings;
        let line_strings = &self.line_strings;
        strings.count() != 0
            && line_strings.count() != 0
            && strings.get(StringId(0)) == b"old".as_slice()
            && line_strings.get(LineStringId(0)) == b"old".as_slice()
    }

    /// The bytes of both, those of `.debug_line_str` first.
    pub fn bytes(&self, alloc: Global) -> Result<[Vec<u8>; 2]> {
        let mut strings = DebugStr::from(EndianVec::new(alloc, LittleEndian));
        let mut line_strings = DebugLineStr::from(EndianVec::new(alloc, LittleEndian));
        self.strings.write(&mut strings)?;
        self.line_strings.write(&mut line_strings)?;
        Ok([line_strings.0.into_vec(), strings.0.into_vec()])
    }
}

/// Prints a row as a script has it, with its file by its index in the program, from 0 on.
pub(crate) fn print_row(row: LineRow, lines: &mut Lines) {
    let flags = [
        (row.is_statement, "s"),
        (row.basic_block, "b"),
        (row.prologue_end, "p"),
        (row.epilogue_begin, "q"),
    ];
    let numbers = [
        Number(row.address_offset),
        Number(row.op_index),
        // From version 5 on the numbers of files begin at 0.
        Number(row.file.raw(5)),
        Number(row.line),
        Number(row.column),
        Number(row.discriminator),
        Flags(&flags, "-"),
        Number(row.isa),
    ];
    lines.print("row % % % % % % % %\n", &numbers);
}

/// Prints what is read of a unit.
pub(crate) fn print_answer(answer: &RoundTrip, lines: &mut Lines) {
    for (index, directory) in answer.directories.iter().enumerate() {
        lines.print("directory % %\n", &[Number(index as u64), Text(directory)]);
    }
    for (index, file) in answer.files.iter().enumerate() {
        print_file(index as u64, file, lines);
    }
    for row in &answer.rows {
        lines.print("%\n", &[Row(*row)]);
    }
}

/// Prints a file that is read.
fn print_file(index: u64, file: &RoundTripFile, lines: &mut Lines) {
    let parts = [
        Number(index),
        Text(&file.path),
        Number(file.directory_index),
        Number(file.timestamp),
        Number(file.size),
        Digits(&file.md5),
        file.source.as_deref().map_or(Word("-"), Text),
    ];
    lines.print("file % % dir % time % size % md5 % source %\n", &parts);
}

/// Prints why a conversion or a unit that is read back is refused: the variant, and for a refusal
/// of reading or writing the variant of that.
pub(crate) fn put_refused(error: ConvertError, lines: &mut Lines) {
    match error {
        ConvertError::Read(error) => lines.put_refusal("refused Read ", error),
        ConvertError::Write(error) => lines.put_error("refused Write ", error),
        error => lines.put_error("refused ", error),
    }
}
