//! The cost of many files, directories or rows: `build KIND VERSION COUNT` builds a program
//! of this version with COUNT of a kind, and writes it into an `EndianVec`.
//!
//! The kinds are `rows`, and `files` and `directories` with names in the unit. With `_in_line_str`
//! or `_in_str` after these two, the names stand in `.debug_line_str` or `.debug_str`. Standard
//! output has the length of the section and a sum of its bytes. Two more words do other work:
//!
//! - `build traps VERSION COUNT` builds COUNT rows and counts their traps.
//! - `build first_refusal COUNT` asks what `write` refuses first of a program of version 5 with
//!   COUNT files.

ghost use Rattle.std.specs.Prelude.{◌≡◌, false};
ghost use Rattle.gimli_build.specs.LineText.{line_text, IsNotEmpty};

use crate::{parse, print_sum};
use gimli_build::{LineProgram, LineString, Refusal, Symbols};
use gimli_bytes::{DebugLine, EndianVec, Error, LineStringTable, Result, StringTable};
use gimli_core::{Encoding, Format, LineEncoding, LittleEndian};
use linetool_commands::{begin_at, end_at, put_row};
use std::alloc::Global;
use std::io;
use std::io::ErrorKind;

/// What a program has many of.
#[derive(Clone, Copy)]
enum Kind {
    Files,
    Directories,
    Rows,
}

/// Where names stand.
#[derive(Clone, Copy)]
enum Place {
    Unit,
    LineStr,
    Str,
}

/// The names of files and directories.
#[derive(Drop)]
struct Names {
    place: Place,
    line_strings: LineStringTable,
    strings: StringTable,
}

impl Names {
    /// No names yet.
    fn new(alloc: Global, place: Place) -> Names {
        Names {
            place,
            line_strings: LineStringTable::default(alloc),
            strings: StringTable::default(alloc),
        }
    }

    /// A letter and eight digits.
    fn name(&mut self, alloc: Global, letter: char, number: u64) -> Result<LineString> {
        let text = format!(in alloc; "{letter}{number:08}")?;
        if text.as_bytes().contains(&0) {
            return Err(Error::InvalidRange);
        }
        Ok(match self.place {
            Place::Unit => LineString::String(text.into_bytes()),
            Place::LineStr => LineString::LineStringRef(self.line_strings.add(text.as_bytes())?),
            Place::Str => LineString::StringRef(self.strings.add(text.as_bytes())?),
        })
    }
}

/// The kind of a word, and where its names stand.
fn kind_of(word: &str) -> io::Result<(Kind, Place)> {
    match word {
        "files" => Ok((Kind::Files, Place::Unit)),
        "files_in_line_str" => Ok((Kind::Files, Place::LineStr)),
        "files_in_str" => Ok((Kind::Files, Place::Str)),
        "directories" => Ok((Kind::Directories, Place::Unit)),
        "directories_in_line_str" => Ok((Kind::Directories, Place::LineStr)),
        "directories_in_str" => Ok((Kind::Directories, Place::Str)),
        "rows" => Ok((Kind::Rows, Place::Unit)),
        _ => Err(io::Error::from(ErrorKind::InvalidInput)),
    }
}

/// The version that a word says.
fn version_of(word: &str) -> io::Result<u16> {
    match u16::try_from(parse(word)?) {
        Ok(version) => Ok(version),
        Err(_) => Err(io::Error::from(ErrorKind::InvalidInput)),
    }
}

/// Builds and writes a program, and prints what it was.
pub fn run(rt: &HostRuntime, kind: &str, version: &str, count: &str) -> io::Result<()> {
    let version = version_of(version)?;
    let count = parse(count)?;
    let (kind, place) = kind_of(kind)?;
    let mut names = Names::new(rt.alloc(), place);
    match build_and_write(rt.alloc(), kind, version, count, &mut names) {
        Ok(section) => print_sum(rt, &section),
        Err(_) => Err(io::Error::from(ErrorKind::InvalidData)),
    }
}

/// Builds a program of so many rows, none of a file that it has, and prints how many traps it has.
pub fn ask_traps(rt: &HostRuntime, version: &str, count: &str) -> io::Result<()> {
    let version = version_of(version)?;
    let count = parse(count)?;
    match count_of_traps(rt.alloc(), version, count) {
        Ok(traps) => println!(rt; "traps {traps}"),
        Err(_) => Err(io::Error::from(ErrorKind::InvalidData)),
    }
}

/// How many traps a program of so many rows has.
fn count_of_traps(alloc: Global, version: u16, count: u64) -> Result<usize> {
    let mut program = program_in_unit(alloc, version)?;
    traps_of(&mut program, count)
}

/// A program whose names stand in the unit.
fn program_in_unit(alloc: Global, version: u16) -> Result<LineProgram> {
    let mut names = Names::new(alloc, Place::Unit);
    program_of(alloc, version, &mut names)
}

/// How many traps a program has after so many rows.
fn traps_of(program: &mut LineProgram, count: u64) -> Result<usize> {
    add_rows(program, count)?;
    if program.is_none() {
        return Err(Error::InvalidRange);
    }
    let mut traps: usize = 0;
    for _ in program.traps() {
        traps = traps.saturating_add(1);
    }
    Ok(traps)
}

/// Builds a program of version 5 with so many files, whose names stand in `.debug_line_str`, and
/// prints what `write` refuses of it first.
pub fn ask_first_refusal(rt: &HostRuntime, count: &str) -> io::Result<()> {
    let count = parse(count)?;
    match first_refusal(rt.alloc(), count) {
        Ok(None) => println!(rt; "nothing is refused"),
        Ok(Some(refusal)) => println!(rt; "refused: {}", refusal.error()),
        Err(_) => Err(io::Error::from(ErrorKind::InvalidData)),
    }
}

/// What is refused first of a program with so many files.
fn first_refusal(alloc: Global, count: u64) -> Result<Option<Refusal>> {
    let mut names = Names::new(alloc, Place::LineStr);
    first_refusal_with(alloc, count, &mut names)
}

/// The same with the names that the program has.
fn first_refusal_with(alloc: Global, count: u64, names: &mut Names) -> Result<Option<Refusal>> {
    let mut program = program_of(alloc, 5, names)?;
    first_refusal_of(alloc, &mut program, count, names)
}

/// What is refused first of a program to which so many files are added.
fn first_refusal_of(
    alloc: Global,
    program: &mut LineProgram,
    count: u64,
    names: &mut Names,
) -> Result<Option<Refusal>> {
    add_files(alloc, program, count, names)?;
    let (texts, strings) = (&names.line_strings, &names.strings);
    if !program.can_write(texts, strings) {
        return Err(Error::InvalidRange);
    }
    Ok(program.first_refusal(program.encoding(), texts, strings, Symbols::Refused))
}

/// The section of a program with so many of a kind.
fn build_and_write(
    alloc: Global,
    kind: Kind,
    version: u16,
    count: u64,
    names: &mut Names,
) -> Result<Vec<u8>> {
    let mut program = program_of(alloc, version, names)?;
    fill_and_write(alloc, &mut program, kind, count, names)
}

/// Adds so many of a kind to a program, and returns its section.
fn fill_and_write(
    alloc: Global,
    program: &mut LineProgram,
    kind: Kind,
    count: u64,
    names: &mut Names,
) -> Result<Vec<u8>> {
    match kind {
        Kind::Files => add_files(alloc, program, count, names)?,
        Kind::Directories => add_directories(alloc, program, count, names)?,
        Kind::Rows => add_rows(program, count)?,
    }
    write(alloc, program, names)
}

/// A program of one directory and, in version 5, one file.
fn program_of(alloc: Global, version: u16, names: &mut Names) -> Result<LineProgram> {
    let encoding = Encoding {
        address_size: 8,
        format: Format::Dwarf32,
        version,
    };
    let lines = LineEncoding::default();
    let directory = names.name(alloc, 'w', 0)?;
    let file = names.name(alloc, 'a', 0)?;
    if !LineProgram::accepts(encoding, lines) || !directory.has_no_zero() || !file.has_no_zero() {
        return Err(Error::InvalidRange);
    }
    LineProgram::new(alloc, encoding, lines, directory, None, file, None)
}

/// Adds so many files in directory 0.
fn add_files(
    alloc: Global,
    program: &mut LineProgram,
    count: u64,
    names: &mut Names,
) -> Result<()> {
    for number in 0..count {
        let name = names.name(alloc, 'f', number)?;
        if program.is_none() || !name.has_no_zero() || is_empty(&name) {
            return Err(Error::InvalidRange);
        }
        let directory = program.default_directory();
        program.add_file(name, directory, None)?;
    }
    Ok(())
}

/// Adds so many directories.
fn add_directories(
    alloc: Global,
    program: &mut LineProgram,
    count: u64,
    names: &mut Names,
) -> Result<()> {
    for number in 0..count {
        let name = names.name(alloc, 'd', number)?;
        if program.is_none() || !name.has_no_zero() || is_empty(&name) {
            return Err(Error::InvalidRange);
        }
        program.add_directory(name)?;
    }
    Ok(())
}

/// Whether a name that stands in the unit has no bytes.
fn is_empty(name: &LineString) -> bool
    ensures { result ≡ false → IsNotEmpty (line_text name.now) }
{
    match name {
        LineString::String(text) => text.is_empty(),
        _ => false,
    }
}

/// Adds a sequence of so many rows, each an address and a line further on.
fn add_rows(program: &mut LineProgram, count: u64) -> Result<()> {
    begin_at(program, 0x1000)?;
    for number in 0..count {
        let row = program.row();
        row.address_offset = number;
        row.line = 1 + number;
        put_row(program)?;
    }
    end_at(program, count)
}

/// The section of a program.
fn write(alloc: Global, program: &LineProgram, names: &mut Names) -> Result<Vec<u8>> {
    if !program.can_write(&names.line_strings, &names.strings) {
        return Err(Error::InvalidRange);
    }
    let mut section = DebugLine::from(EndianVec::new(alloc, LittleEndian));
    let encoding = program.encoding();
    let line_strings = &mut names.line_strings;
    program.write(&mut section, encoding, line_strings, &mut names.strings)?;
    Ok(section.0.into_vec())
}
