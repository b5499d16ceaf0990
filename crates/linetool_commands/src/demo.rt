//! A unit that is built, written, and read again.

use crate::print::{finish, print_program};
use crate::refusal::Refusal;
use crate::section::program_at;
use gimli_core::{Encoding, Endianity, Format, LineEncoding, LittleEndian, Reader, RunTimeEndian};
use gimli_line::IncompleteLineProgram;
use gimli_write::{
    Address, DebugLine, EndianVec, Error, LineProgram, LineString, LineStringTable, PieceVec,
    StringTable, Writer,
};
use line_text::{AddressSize, UnitLocation, print_bytes};
use std::alloc::Global;
use std::io::Write;

/// Where the unit stands among its bytes.
const LOCATION: UnitLocation = UnitLocation {
    order: RunTimeEndian::Little,
    address_size: AddressSize::Four,
    offset: 0,
};

/// Prints the bytes of the unit, and what is read of it.
pub fn print_demo<O: Write>(alloc: Global, out: &mut O) -> Result<(), Refusal> {
    let mut section = DebugLine::from(EndianVec::new(alloc, LittleEndian));
    write_demo(alloc, &mut section)?;
    let outcome = print_written(alloc, section.0.slice(), out);
    finish(outcome, out)
}

/// Prints the pieces of the unit, of sixteen bytes each but the last, and what is read of them.
pub fn print_demo_pieces<O: Write>(alloc: Global, out: &mut O) -> Result<(), Refusal> {
    let mut section = DebugLine::from(PieceVec::<_, 16>::new(alloc, LittleEndian));
    write_demo(alloc, &mut section)?;
    let outcome = print_pieces(alloc, section.0, out);
    finish(outcome, out)
}

/// Writes the unit into a section.
fn write_demo<W: Writer>(alloc: Global, section: &mut DebugLine<W>) -> Result<(), Refusal> {
    match demo_program(alloc) {
        Ok(program) => write_program(alloc, &program, section),
        Err(e) => Err(Refusal::of_writing(e)),
    }
}

/// Writes a program with tables of its own.
fn write_program<W: Writer>(
    alloc: Global,
    program: &LineProgram,
    section: &mut DebugLine<W>,
) -> Result<(), Refusal> {
    let mut strings = StringTable::default(alloc);
    let mut line_strings = LineStringTable::default(alloc);
    let outcome = if program.can_write(&line_strings, &strings) {
        let encoding = program.encoding();
        program.write(section, encoding, &mut line_strings, &mut strings)
    } else {
        Err(Error::InvalidRange)
    };
    match outcome {
        Ok(_) => Ok(()),
        Err(e) => Err(Refusal::of_writing(e)),
    }
}

/// Prints the bytes of the unit, and its rows. Nothing is printed where the unit is refused.
fn print_written<O: Write>(alloc: Global, bytes: &[u8], out: &mut O) -> Result<(), Refusal> {
    print_unit(program_at(alloc, bytes, LOCATION)?, bytes, out)
}

/// Prints bytes, and the rows of the program that is read of them.
fn print_unit<R: Reader, O: Write>(
    program: IncompleteLineProgram<R>,
    bytes: &[u8],
    out: &mut O,
) -> Result<(), Refusal> {
    match print_bytes(bytes, out) {
        Ok(()) => print_program(program, out),
        Err(_) => Err(Refusal::Output),
    }
}

/// Prints pieces, each on a line, and the rows of the unit that their bytes are together.
fn print_pieces<E: Endianity, const N: usize, O: Write>(
    alloc: Global,
    section: PieceVec<E, N>,
    out: &mut O,
) -> Result<(), Refusal> {
    print_each_piece(&section, out)?;
    match section.into_vec() {
        Ok(bytes) => print_program(program_at(alloc, bytes.as_slice(), LOCATION)?, out),
        Err(_) => Err(Refusal::Memory),
    }
}

/// Prints pieces, each on a line.
fn print_each_piece<E: Endianity, const N: usize, O: Write>(
    section: &PieceVec<E, N>,
    out: &mut O,
) -> Result<(), Refusal> {
    for piece in section.pieces() {
        if print_bytes(piece, out).is_err() {
            return Err(Refusal::Output);
        }
    }
    Ok(())
}

/// The program of the unit: a file, and a sequence of a row at the address, a row 4 bytes and 2
/// lines further on, and an end 4 bytes later.
fn demo_program(alloc: Global) -> Result<LineProgram, Error> {
    let mut program = one_file_program(alloc, AddressSize::Four)?;
    put_rows(&mut program)?;
    Ok(program)
}

/// A program of version 4 without rows: the working directory `/w`, and the file `a.c`.
pub fn one_file_program(alloc: Global, address_size: AddressSize) -> Result<LineProgram, Error> {
    let encoding = Encoding {
        address_size: address_size.bytes(),
        format: Format::Dwarf32,
        version: 4,
    };
    let lines = LineEncoding::default();
    let directory = LineString::String(b"/w".to_vec(alloc)?);
    let file = LineString::String(b"a.c".to_vec(alloc)?);
    let name = LineString::String(b"a.c".to_vec(alloc)?);
    let mut program = LineProgram::new(alloc, encoding, lines, directory, None, name, None)?;
    let directory = program.default_directory();
    program.add_file(file, directory, None)?;
    Ok(program)
}

/// Adds the sequence.
fn put_rows(program: &mut LineProgram) -> Result<(), Error> {
    begin_at(program, 0x1000)?;
    put_row(program)?;
    let row = program.row();
    row.address_offset = 4;
    row.line = 3;
    put_row(program)?;
    end_at(program, 8)
}

/// Sets the address of the next row.
pub fn begin_at(program: &mut LineProgram, address: u64) -> Result<(), Error> {
    if program.is_none() {
        return Err(Error::InvalidRange);
    }
    program.set_address(Address::Constant(address))
}

/// Adds the current row, if it can follow.
pub fn put_row(program: &mut LineProgram) -> Result<(), Error> {
    if program.is_none() || !program.can_generate_row() {
        return Err(Error::InvalidRange);
    }
    program.generate_row()
}

/// Ends the sequence, if it can end there.
pub fn end_at(program: &mut LineProgram, address_offset: u64) -> Result<(), Error> {
    if program.is_none() || !program.can_end_sequence(address_offset) {
        return Err(Error::InvalidRange);
    }
    program.end_sequence(address_offset)
}
