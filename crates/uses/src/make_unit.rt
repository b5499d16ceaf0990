//! A unit of version 5 with two files in two directories, whose texts stand in `.debug_line_str`:
//! built, and written.
#![tactic(auto)]

use gimli_core::{Encoding, Format, LineEncoding, LittleEndian};
use gimli_write::{
    Address, DebugLine, DebugLineStr, EndianVec, Error, FileId, FileInfo, LineProgram, LineString,
    LineStringTable, Refusal, Result, StringTable, Symbols, Trap, Writer,
};
use std::alloc::Global;
use std::fmt::Write;

/// Prints the bytes of a unit, and those of its texts.
pub fn start(alloc: Global, text: &mut String) -> Result<()> {
    let mut lines = DebugLine::from(EndianVec::new(alloc, LittleEndian));
    let mut texts = DebugLineStr::from(EndianVec::new(alloc, LittleEndian));
    print_unit(alloc, &mut lines, &mut texts, text)
}

/// Writes the unit to empty sections, and prints their bytes.
fn print_unit(
    alloc: Global,
    lines: &mut DebugLine<EndianVec<LittleEndian>>,
    texts: &mut DebugLineStr<EndianVec<LittleEndian>>,
    text: &mut String,
) -> Result<()> {
    write_at_0x1000(alloc, lines, texts)?;
    print_bytes(".debug_line", lines.0.slice(), text)?;
    print_bytes(".debug_line_str", texts.0.slice(), text)
}

/// Adds a line with the name of a section and its bytes, in hexadecimal digits.
pub fn print_bytes(name: &str, bytes: &[u8], text: &mut String) -> Result<()> {
    write!(text, "{name} ")?;
    for byte in bytes {
        write!(text, "{byte:02x}")?;
    }
    Ok(writeln!(text)?)
}

/// Two functions of ten bytes, one after the other.
const AT_0X1000: [Address; 2] = [Address::Constant(0x1000), Address::Constant(0x100a)];

/// Appends the unit of these two functions, and its texts.
pub fn write_at_0x1000(
    alloc: Global,
    lines: &mut DebugLine<EndianVec<LittleEndian>>,
    texts: &mut DebugLineStr<EndianVec<LittleEndian>>,
) -> Result<()> {
    write_unit(alloc, AT_0X1000, lines, texts)
}

/// Appends the unit of two functions of ten bytes at these addresses, and its texts.
pub fn write_unit<W: Writer, T: Writer>(
    alloc: Global,
    functions: [Address; 2],
    lines: &mut DebugLine<W>,
    texts: &mut DebugLineStr<T>,
) -> Result<()> {
    let mut line_strings = LineStringTable::default(alloc);
    write_built(alloc, functions, lines, texts, &mut line_strings)
}

/// Builds the unit, whose texts go to this table, and appends it.
fn write_built<W: Writer, T: Writer>(
    alloc: Global,
    functions: [Address; 2],
    lines: &mut DebugLine<W>,
    texts: &mut DebugLineStr<T>,
    line_strings: &mut LineStringTable,
) -> Result<()> {
    let mut program = with_source(alloc, line_strings)?;
    write_program(alloc, &mut program, functions, lines, texts, line_strings)
}

/// Fills a program of one file, and appends it.
fn write_program<W: Writer, T: Writer>(
    alloc: Global,
    program: &mut LineProgram,
    functions: [Address; 2],
    lines: &mut DebugLine<W>,
    texts: &mut DebugLineStr<T>,
    line_strings: &mut LineStringTable,
) -> Result<()> {
    add_functions(program, functions, line_strings)?;
    let mut strings = StringTable::default(alloc);
    write_filled(program, lines, texts, line_strings, &mut strings)
}

/// Adds to a program of one file the lines 3 and 4 of `a.c` for the first function, and the lines 8
/// and 9 of `inc/a.h` for the second.
fn add_functions(
    program: &mut LineProgram,
    functions: [Address; 2],
    line_strings: &mut LineStringTable,
) -> Result<()> {
    let source = with_digest(program, line_strings)?;
    let header = add_header(program, line_strings)?;
    add_function(program, source, functions[0], [3, 4])?;
    add_function(program, header, functions[1], [8, 9])
}

/// Appends a program and its texts. These come last, since `write` may add one.
fn write_filled<W: Writer, T: Writer>(
    program: &LineProgram,
    lines: &mut DebugLine<W>,
    texts: &mut DebugLineStr<T>,
    line_strings: &mut LineStringTable,
    strings: &mut StringTable,
) -> Result<()> {
    if !program.can_write(line_strings, strings) {
        return Err(Error::InvalidRange);
    }
    program.write(lines, program.encoding(), line_strings, strings)?;
    line_strings.write(texts)?;
    Ok(())
}

/// A program of the file `a.c` in the directory `/w`.
fn with_source(alloc: Global, line_strings: &mut LineStringTable) -> Result<LineProgram> {
    let encoding = Encoding {
        address_size: 8,
        format: Format::Dwarf32,
        version: 5,
    };
    let directory = LineString::new(b"/w", encoding, line_strings)?;
    let path = LineString::new(b"a.c", encoding, line_strings)?;
    let lines = LineEncoding::default();
    let program = LineProgram::new(alloc, encoding, lines, directory, None, path, None)?;
    Ok(program)
}

/// Gives the source file the MD5 digest of `abc`, and returns its id: a file that is already there
/// takes what is handed of it.
fn with_digest(program: &mut LineProgram, line_strings: &mut LineStringTable) -> Result<FileId> {
    let path = line_strings.add(b"a.c")?;
    let directory = program.default_directory();
    let info = FileInfo {
        timestamp: 0,
        size: 0,
        md5: *b"\x90\x01\x50\x98\x3c\xd2\x4f\xb0\xd6\x96\x3f\x7d\x28\xe1\x7f\x72",
        source: None,
    };
    program.try_add_file(LineString::LineStringRef(path), directory, Some(info))
}

/// Adds the file `a.h` in the directory `inc`, with the MD5 digest of an empty file.
fn add_header(program: &mut LineProgram, line_strings: &mut LineStringTable) -> Result<FileId> {
    let include = line_strings.add(b"inc")?;
    let path = line_strings.add(b"a.h")?;
    let directory = program.try_add_directory(LineString::LineStringRef(include))?;
    let info = FileInfo {
        timestamp: 0,
        size: 0,
        md5: *b"\xd4\x1d\x8c\xd9\x8f\0\xb2\x04\xe9\x80\x09\x98\xec\xf8\x42\x7e",
        source: None,
    };
    let file = program.try_add_file(LineString::LineStringRef(path), directory, Some(info))?;
    program.file_has_md5 = true;
    Ok(file)
}

/// Adds a function of ten bytes: a line of a file; another one after four bytes, where the prologue
/// ends; and for the last byte that one again, as another block and no statement.
fn add_function(
    program: &mut LineProgram,
    file: FileId,
    address: Address,
    lines: [u64; 2],
) -> Result<()> {
    program.try_set_address(address)?;
    add_row(program, file, 0, lines[0])?;
    program.row().prologue_end = true;
    add_row(program, file, 4, lines[1])?;
    let row = program.row();
    row.is_statement = false;
    row.discriminator = 2;
    add_row(program, file, 9, lines[1])?;
    program.try_end_sequence(10)
}

/// Prints what `write` refuses of a program: a file whose path isn't in a table, as that of the
/// first one is, and a symbol as address.
pub fn start_refused(alloc: Global, text: &mut String) -> Result<()> {
    let mut line_strings = LineStringTable::default(alloc);
    print_refused(alloc, &mut line_strings, text)
}

/// Makes the program, whose texts go to this table, and prints what is refused of it.
fn print_refused(
    alloc: Global,
    line_strings: &mut LineStringTable,
    text: &mut String,
) -> Result<()> {
    let mut program = with_source(alloc, line_strings)?;
    print_refused_of(alloc, &mut program, line_strings, text)
}

/// Adds what `write` refuses, and prints it: a symbol as address, by a writer that refuses symbols
/// and by one that takes them, and a file in front of it.
fn print_refused_of(
    alloc: Global,
    program: &mut LineProgram,
    line_strings: &LineStringTable,
    text: &mut String,
) -> Result<()> {
    let strings = StringTable::default(alloc);
    add_symbol(program)?;
    print_first(program, line_strings, &strings, Symbols::Refused, text)?;
    print_first(program, line_strings, &strings, Symbols::Taken, text)?;
    add_other_file(alloc, program)?;
    print_first(program, line_strings, &strings, Symbols::Refused, text)?;
    print_open_rows(program, text)
}

/// Adds the lines 3 and 4 to a program whose sequence doesn't end, and prints what readers drop of
/// them.
fn print_open_rows(program: &mut LineProgram, text: &mut String) -> Result<()> {
    add_rows(program, program.default_file(), &[(0, 3), (4, 4)])?;
    print_traps(program, text)
}

/// Adds rows of a file, each with its offset in bytes and its line.
fn add_rows(program: &mut LineProgram, file: FileId, rows: &[(u64, u64)]) -> Result<()> {
    for (offset, line) in rows {
        add_row(program, file, *offset, *line)?;
    }
    Ok(())
}

/// Adds a line for each item that `write` takes, and readers drop or misread.
fn print_traps(program: &LineProgram, text: &mut String) -> Result<()> {
    if program.is_none() {
        return Err(Error::InvalidRange);
    }
    for (item, trap) in program.traps() {
        let why = match trap {
            Trap::OpenSequence => "no end after it",
            Trap::AddressOverflow => "its address is too wide",
            Trap::MissingFile => "its file isn't there",
            Trap::LaterOpcode => "readers of this version skip a part of it",
            Trap::UnsetAddress => "no address was set before it",
        };
        writeln!(text, "item {item}: {why}")?;
    }
    Ok(())
}

/// Adds to a program an address that is a symbol.
fn add_symbol(program: &mut LineProgram) -> Result<()> {
    let (symbol, addend) = (1, 0);
    program.try_set_address(Address::Symbol { symbol, addend })
}

/// Adds to a program the file `b.c`, whose path is in the program itself.
fn add_other_file(alloc: Global, program: &mut LineProgram) -> Result<()> {
    let path = LineString::String(b"b.c".to_vec(alloc)?);
    program.try_add_file(path, program.default_directory(), None)?;
    Ok(())
}

/// Adds a line for the first part of a program that is refused.
fn print_first(
    program: &LineProgram,
    line_strings: &LineStringTable,
    strings: &StringTable,
    symbols: Symbols,
    text: &mut String,
) -> Result<()> {
    if !program.can_write(line_strings, strings) {
        return Err(Error::InvalidRange);
    }
    let encoding = program.encoding();
    let refusal = program.first_refusal(encoding, line_strings, strings, symbols);
    match refusal {
        None => Ok(writeln!(text, "nothing")?),
        Some(Refusal::Header(error)) => Ok(writeln!(text, "header: {error}")?),
        Some(Refusal::Directory(number, error)) => {
            Ok(writeln!(text, "directory {number}: {error}")?)
        }
        Some(Refusal::File(number, error)) => Ok(writeln!(text, "file {number}: {error}")?),
        Some(Refusal::Item(number, error)) => Ok(writeln!(text, "item {number}: {error}")?),
    }
}

/// Adds a row, if it can follow the one before it.
fn add_row(program: &mut LineProgram, file: FileId, offset: u64, line: u64) -> Result<()> {
    let row = program.row();
    row.file = file;
    row.address_offset = offset;
    row.line = line;
    program.try_generate_row()
}
