//! A rewriter of the rows of a linked program, after which nothing else in it has to change. Each
//! unit keeps its place and its header: so files keep their numbers, also those that come twice,
//! which a builder's table can't hold, and texts keep their offsets.
#![tactic(auto)]

use gimli_core::{DebugLineOffset, Error, Format, LittleEndian, Reader, Result};
use gimli_line::{IncompleteLineProgram, LineProgramHeader, LineRow, LineUnits, OneShotLineRows};
use gimli_write::{
    Address, ConvertError, ConvertResult, DebugLine, EndianVec, FileId, LineProgram, LineString,
    LineStringTable, StringTable, Writer,
};
use std::alloc::Global;

/// How many operands the opcodes of a builder have (DWARF 5, section 6.2.5.2).
const OPERANDS: &[u8] = &[0, 1, 1, 1, 1, 0, 0, 0, 1, 0, 0, 1];

/// Appends each unit of a section, with its rows written anew.
pub fn rewrite(alloc: Global, section: &[u8], lines: &mut Vec<u8>) -> ConvertResult<()> {
    let reader = gimli_line::DebugLine::new(section, LittleEndian);
    add_units(alloc, reader.units(alloc, 8), section, lines)
}

/// Appends the units that are still to come.
fn add_units<R: Reader<Offset = usize>>(
    alloc: Global,
    units: LineUnits<R>,
    section: &[u8],
    lines: &mut Vec<u8>,
) -> ConvertResult<()> {
    let mut units = units;
    'units: loop {
        let unit = match units.next() {
            Ok(Some(unit)) => unit,
            Ok(None) => return Ok(()),
            Err(refusal) => return Err(ConvertError::Read(refusal)),
        };
        let source = unit.program.map_err(ConvertError::Read)?;
        add_unit(alloc, source, section, lines)?;
    }
}

/// Appends a unit: the header as it is, and its rows, which take as many bytes as before.
fn add_unit<R: Reader<Offset = usize>>(
    alloc: Global,
    source: IncompleteLineProgram<R>,
    section: &[u8],
    lines: &mut Vec<u8>,
) -> ConvertResult<()> {
    let end = add_header(source.header(), section, lines)?;
    add_rows_anew(alloc, source, lines)?;
    pad(lines, end)
}

/// Appends what stands before the rows of a unit, and returns where the unit ends.
fn add_header<R: Reader<Offset = usize>>(
    header: &LineProgramHeader<R>,
    section: &[u8],
    lines: &mut Vec<u8>,
) -> ConvertResult<usize> {
    let Some(end) = header.next_unit_offset() else {
        return Err(ConvertError::InvalidLineRef);
    };
    let rows = header.raw_program_buf().len();
    let Some(bytes) = section.get(lines.len()..end.0.saturating_sub(rows)) else {
        return Err(ConvertError::InvalidLineRef);
    };
    lines.extend_from_slice(bytes)?;
    Ok(end.0)
}

/// Fills a unit up to its end. DW_LNS_set_basic_block has no effect if no row comes after it.
fn pad(lines: &mut Vec<u8>, end: usize) -> ConvertResult<()> {
    if lines.len() > end {
        return Err(ConvertError::UnsupportedUnitType);
    }
    Ok(lines.resize(end, 7)?)
}

/// Appends the instructions of the rows of a source, as they are written with its encodings.
fn add_rows_anew<R: Reader>(
    alloc: Global,
    source: IncompleteLineProgram<R>,
    lines: &mut Vec<u8>,
) -> ConvertResult<()> {
    let mut program = started(alloc, source.header())?;
    add_built(alloc, source, &mut program, lines)
}

/// Builds the rows of a source in a program without rows, and appends their instructions.
fn add_built<R: Reader>(
    alloc: Global,
    source: IncompleteLineProgram<R>,
    program: &mut LineProgram,
    lines: &mut Vec<u8>,
) -> ConvertResult<()> {
    build(alloc, source, program)?;
    add_program(alloc, program, lines)
}

/// A program without rows, by the encodings of a source. Its texts are thrown away.
fn started<R: Reader>(alloc: Global, header: &LineProgramHeader<R>) -> ConvertResult<LineProgram> {
    check_operands(header.standard_opcode_lengths())?;
    let encoding = header.encoding();
    let line_encoding = header.line_encoding();
    if encoding.format != Format::Dwarf32 || !LineProgram::accepts(encoding, line_encoding) {
        return Err(ConvertError::UnsupportedUnitType);
    }
    let directory = LineString::String(Vec::new(alloc));
    let path = LineString::String(Vec::new(alloc));
    let program = LineProgram::new(alloc, encoding, line_encoding, directory, None, path, None);
    program.map_err(ConvertError::Write)
}

/// Refuses opcodes with other operands than those of a builder.
fn check_operands<R: Reader>(operands: &R) -> ConvertResult<()> {
    let operands = operands.to_slice().map_err(ConvertError::Read)?;
    if operands.as_slice() != OPERANDS {
        return Err(ConvertError::UnsupportedLineInstruction);
    }
    Ok(())
}

/// Adds the files and the rows of a source to a program.
fn build<R: Reader>(
    alloc: Global,
    source: IncompleteLineProgram<R>,
    program: &mut LineProgram,
) -> ConvertResult<()> {
    let files = add_files(alloc, program, source.header().file_names().len())?;
    let rows = rows_of(alloc, source.rows()).map_err(ConvertError::Read)?;
    add_rows(program, &files, &rows)
}

/// Adds so many files, with names of their own, so that each has the number that it has in the
/// source.
fn add_files(alloc: Global, program: &mut LineProgram, count: usize) -> ConvertResult<Vec<FileId>> {
    let mut files = Vec::new(alloc);
    for number in 0..count {
        files.push(add_file(alloc, program, number)?)?;
    }
    Ok(files)
}

/// Adds a file with a name of its own.
fn add_file(alloc: Global, program: &mut LineProgram, number: usize) -> ConvertResult<FileId> {
    let path = LineString::String(name_of(alloc, program.version(), number)?);
    let file = program.try_add_file(path, program.default_directory(), None);
    file.map_err(ConvertError::Write)
}

/// The name of the file of a number. The first one of version 5 has the path that the program
/// began with.
fn name_of(alloc: Global, version: u16, number: usize) -> ConvertResult<Vec<u8>> {
    if version > 4 && number == 0 {
        return Ok(Vec::new(alloc));
    }
    Ok(format!(in alloc; "{number}")?.into_bytes())
}

/// The rows of a source.
fn rows_of<R: Reader>(alloc: Global, rows: OneShotLineRows<R>) -> Result<Vec<LineRow>> {
    let mut rows = rows;
    let mut list = Vec::new(alloc);
    'rows: loop {
        let row = match rows.next_row()? {
            Some((_header, row)) => *row,
            None => return Ok(list),
        };
        if list.push(row).is_err() {
            return Err(Error::OutOfMemory);
        }
    }
}

/// Adds the rows of a source, whose files have these ids.
fn add_rows(program: &mut LineProgram, files: &[FileId], rows: &[LineRow]) -> ConvertResult<()> {
    let mut base = 0;
    for row in rows {
        if !program.in_sequence() {
            base = row.address();
            begin(program, base)?;
        }
        add_row(program, files, row.address().saturating_sub(base), row)?;
    }
    Ok(())
}

/// Begins a sequence at an address.
fn begin(program: &mut LineProgram, address: u64) -> ConvertResult<()> {
    let start = Some(Address::Constant(address));
    program
        .try_begin_sequence(start)
        .map_err(ConvertError::Write)
}

/// Adds a row or an end, so many bytes after the start of its sequence.
fn add_row(
    program: &mut LineProgram,
    files: &[FileId],
    offset: u64,
    row: &LineRow,
) -> ConvertResult<()> {
    if row.end_sequence() {
        program.row().op_index = row.op_index();
        return program
            .try_end_sequence(offset)
            .map_err(ConvertError::Write);
    }
    let first = u64::from(program.version() <= 4);
    let index = usize::try_from(row.file_index().wrapping_sub(first));
    let Some(file) = index.ok().and_then(|index| files.get(index)) else {
        return Err(ConvertError::InvalidFileIndex);
    };
    *program.row() = built_row(row, *file, offset);
    program.try_generate_row().map_err(ConvertError::Write)
}

/// A row of a source as it is built.
fn built_row(row: &LineRow, file: FileId, address_offset: u64) -> gimli_write::LineRow {
    gimli_write::LineRow {
        address_offset,
        op_index: row.op_index(),
        file,
        line: row.line().map_or(0, |line| line.get()),
        column: row.column().number(),
        discriminator: row.discriminator(),
        is_statement: row.is_stmt(),
        basic_block: row.basic_block(),
        prologue_end: row.prologue_end(),
        epilogue_begin: row.epilogue_begin(),
        isa: row.isa(),
    }
}

/// Appends the instructions of a program, as they stand in a unit.
fn add_program(alloc: Global, program: &LineProgram, lines: &mut Vec<u8>) -> ConvertResult<()> {
    let mut unit = DebugLine::from(EndianVec::new(alloc, LittleEndian));
    write_alone(alloc, program, &mut unit)?;
    let section = gimli_line::DebugLine::new(unit.0.slice(), LittleEndian);
    add_instructions(alloc, &section, lines)
}

/// Writes a program whose texts all stand in it.
fn write_alone<W: Writer>(
    alloc: Global,
    program: &LineProgram,
    unit: &mut DebugLine<W>,
) -> ConvertResult<()> {
    let mut line_strings = LineStringTable::default(alloc);
    let mut strings = StringTable::default(alloc);
    write_with(program, unit, &mut line_strings, &mut strings)
}

/// Writes a program with the tables of texts that it has.
fn write_with<W: Writer>(
    program: &LineProgram,
    unit: &mut DebugLine<W>,
    line_strings: &mut LineStringTable,
    strings: &mut StringTable,
) -> ConvertResult<()> {
    if !program.can_write(line_strings, strings) {
        return Err(ConvertError::UnsupportedUnitType);
    }
    match program.write(unit, program.encoding(), line_strings, strings) {
        Ok(_) => Ok(()),
        Err(e) => Err(ConvertError::Write(e)),
    }
}

/// Appends the instructions of the first unit of a section.
fn add_instructions<R: Reader<Offset = usize>>(
    alloc: Global,
    section: &gimli_line::DebugLine<R>,
    lines: &mut Vec<u8>,
) -> ConvertResult<()> {
    let unit = section.program(alloc, DebugLineOffset(0), 8, None, None);
    let instructions = unit.map_err(ConvertError::Read)?.header().raw_program_buf();
    let bytes = instructions.to_slice().map_err(ConvertError::Read)?;
    Ok(lines.extend_from_slice(bytes.as_slice())?)
}
