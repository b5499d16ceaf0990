//! A unit up to version 4, written in version 5; a section whose rows are rewritten; or a unit that
//! is converted by its own encodings. After the word `then` another command may follow; it also
//! runs where the one before it is refused.
#![tactic(auto)]

mod rewrite;
mod same_rows;

use crate::same_rows::same_rows;
use anyhow::{Result, bail};
use gimli_core::{DebugLineOffset, Encoding, EndianSlice, LittleEndian, Reader};
use gimli_line::{DebugLine, IncompleteLineProgram, LineRow};
use gimli_write::{
    Address, ConvertError, ConvertResult, EndianVec, Error, FileId, LineProgram, LineStringTable,
    RoundTrip, StringTable, convert_program, keeps_numbers, round_trip, written_number,
};
use std::alloc::Global;
use std::fmt::Write;
use std::fs;

fn main(rt: HostRuntime) -> Result<()> {
    let words: Vec<String> = std::env::args(&rt)?.skip(1).collect(rt.alloc())?;
    start(&rt, &words)
}

/// Runs each conversion, and says why where one is refused.
fn start(rt: &HostRuntime, words: &[String]) -> Result<()> {
    for words in words.split(|word| word.as_str() == "then") {
        let mut text = String::new(rt.alloc());
        match run(rt, words, &mut text) {
            Ok(()) => print!(rt; "{text}")?,
            Err(refusal) => println!(rt; "refused: {refusal}")?,
        }
    }
    Ok(())
}

/// Adds what a command prints.
fn run(rt: &HostRuntime, words: &[String], text: &mut String) -> Result<()> {
    if let [word, lines, offset] = words {
        if word.as_str() == "same" {
            let section = fs::read(rt, lines.as_str())?;
            let offset = offset.parse::<usize>()?;
            return Ok(print_same(rt.alloc(), &section, offset, text)?);
        }
    }
    let [word, lines] = words else {
        return print_unit(rt, words, text);
    };
    if word.as_str() != "rewrite" {
        return print_unit(rt, words, text);
    }
    let section = fs::read(rt, lines.as_str())?;
    let mut lines = Vec::new(rt.alloc());
    rewrite::rewrite(rt.alloc(), &section, &mut lines)?;
    for byte in &lines {
        write!(text, "{byte:02x}")?;
    }
    Ok(writeln!(text)?)
}

/// Reads a section from a file, and prints the rows that are read of a unit after it was converted.
/// The directory is `DW_AT_comp_dir` of its entry in `.debug_info`, and the name `DW_AT_name`.
fn print_unit(rt: &HostRuntime, words: &[String], text: &mut String) -> Result<()> {
    let [lines, offset, known @ ..] = words else {
        bail!("usage: LINES OFFSET [DIRECTORY [NAME]]");
    };
    let offset = offset.parse::<usize>()?;
    let section = fs::read(rt, lines.as_str())?;
    Ok(print_converted(rt.alloc(), &section, offset, known, text)?)
}

/// Adds a line for each row that is read of the unit at an offset after it was converted. Up to
/// version 4 all texts of a unit stand in its header, so the sections of texts have no bytes.
fn print_converted<'i>(
    alloc: Global,
    section: &'i [u8],
    offset: usize,
    known: &'i [String],
    text: &mut String,
) -> ConvertResult<()> {
    let known = [reader_of(known.first()), reader_of(known.get(1))];
    let section = DebugLine::new(section, LittleEndian);
    let empty = EndianSlice::new(b"", LittleEndian);
    print_converted_of(alloc, &section, DebugLineOffset(offset), known, empty, text)
}

/// The same for any reader. `known` are the directory and the name.
fn print_converted_of<R: Reader>(
    alloc: Global,
    section: &DebugLine<R>,
    offset: DebugLineOffset<R::Offset>,
    known: [Option<R>; 2],
    empty: R,
    text: &mut String,
) -> ConvertResult<()> {
    let [directory, name] = known;
    let source = section.program(alloc, offset, 8, directory, None)?;
    let converted = convert(alloc, source, name, empty, text)?;
    print_rows(&converted.rows, text)
}

/// Adds a line for each row that is read of the unit at an offset after it was converted by its own
/// encodings. It is of version 4 at most, so that all of its texts stand in its header.
fn print_same(
    alloc: Global,
    section: &[u8],
    offset: usize,
    text: &mut String,
) -> ConvertResult<()> {
    let section = DebugLine::new(section, LittleEndian);
    let empty = EndianSlice::new(b"", LittleEndian);
    print_same_of(alloc, &section, DebugLineOffset(offset), empty, text)
}

/// The same for any reader.
fn print_same_of<R: Reader>(
    alloc: Global,
    section: &DebugLine<R>,
    offset: DebugLineOffset<R::Offset>,
    empty: R,
    text: &mut String,
) -> ConvertResult<()> {
    let source = section.program(alloc, offset, 8, None, None)?;
    let converted = convert_same(alloc, source, empty)?;
    print_rows(&converted.rows, text)
}

/// What is read of a unit after it was converted by its own encodings and written.
fn convert_same<R: Reader>(
    alloc: Global,
    source: IncompleteLineProgram<R>,
    empty: R,
) -> ConvertResult<RoundTrip> {
    let mut strings = StringTable::default(alloc);
    let mut line_strings = LineStringTable::default(alloc);
    convert_same_with(alloc, source, empty, &mut line_strings, &mut strings)
}

/// Converts with the tables of texts that a program has.
fn convert_same_with<R: Reader>(
    alloc: Global,
    source: IncompleteLineProgram<R>,
    empty: R,
    line_strings: &mut LineStringTable,
    strings: &mut StringTable,
) -> ConvertResult<RoundTrip> {
    let mut lines = gimli_write::DebugLine::from(EndianVec::new(alloc, LittleEndian));
    let (back, _files) = same_rows(empty, empty, source, &mut lines, line_strings, strings)?;
    Ok(back)
}

/// Adds a line for each row.
fn print_rows(rows: &[LineRow], text: &mut String) -> ConvertResult<()> {
    for row in rows {
        let line = row.line().map_or(0, |line| line.get());
        let end = if row.end_sequence() { " end" } else { "" };
        writeln!(text, "{:#x} line {line}{end}", row.address())?;
    }
    Ok(())
}

/// A reader of a word.
fn reader_of(word: Option<&String>) -> Option<EndianSlice<'_, LittleEndian>> {
    let word = word?;
    Some(EndianSlice::new(word.as_bytes(), LittleEndian))
}

/// What is read of a unit after it was converted and written, each address as it is. Refused
/// without a directory and a name, which tables from version 5 on have.
fn convert<R: Reader>(
    alloc: Global,
    source: IncompleteLineProgram<R>,
    name: Option<R>,
    empty: R,
    text: &mut String,
) -> ConvertResult<RoundTrip> {
    let mut strings = StringTable::default(alloc);
    let mut line_strings = LineStringTable::default(alloc);
    convert_with(
        alloc,
        source,
        name,
        empty,
        &mut line_strings,
        &mut strings,
        text,
    )
}

/// Converts with the tables of texts that a program has.
fn convert_with<R: Reader>(
    alloc: Global,
    source: IncompleteLineProgram<R>,
    name: Option<R>,
    empty: R,
    line_strings: &mut LineStringTable,
    strings: &mut StringTable,
    text: &mut String,
) -> ConvertResult<RoundTrip> {
    let from = source.header().encoding();
    let encoding = Encoding { version: 5, ..from };
    let (program, files) = convert_program(
        empty,
        empty,
        source,
        name,
        Some(encoding),
        None,
        line_strings,
        strings,
        |address| Some(Address::Constant(address)),
    )?;
    print_and_read_back(
        alloc,
        &program,
        &files,
        from.version,
        line_strings,
        strings,
        text,
    )
}

/// Adds what became of the numbers of files, and returns what is read of a program.
fn print_and_read_back(
    alloc: Global,
    program: &LineProgram,
    files: &[FileId],
    version: u16,
    line_strings: &mut LineStringTable,
    strings: &mut StringTable,
    text: &mut String,
) -> ConvertResult<RoundTrip> {
    print_numbers(program, files, version, text)?;
    read_back(alloc, program, line_strings, strings)
}

/// Adds whether each file of a source of this version has its old number, and the new number of
/// file 1.
fn print_numbers(
    program: &LineProgram,
    files: &[FileId],
    version: u16,
    text: &mut String,
) -> ConvertResult<()> {
    let kept = keeps_numbers(program, files, version);
    let number = written_number(program, files, version, 1).map_or(u64::MAX, |number| number);
    Ok(writeln!(text, "numbers are kept: {kept}; file 1 is file {number}")?)
}

/// What is read of a program after it was written.
fn read_back(
    alloc: Global,
    program: &LineProgram,
    line_strings: &mut LineStringTable,
    strings: &mut StringTable,
) -> ConvertResult<RoundTrip> {
    if !program.can_write(line_strings, strings) {
        return Err(ConvertError::Write(Error::InvalidRange));
    }
    let mut lines = gimli_write::DebugLine::from(EndianVec::new(alloc, LittleEndian));
    let of = program.encoding();
    round_trip(program, &mut lines, of, line_strings, strings)
}
