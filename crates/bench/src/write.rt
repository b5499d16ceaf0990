//! The cost of building and writing: `write SEQUENCES` builds a program of so many sequences of
//! 1,000 rows (version 4, 32-bit format), writes it into an `EndianVec`, and drops it; seven times.
//!
//! Standard output has the length of each section and a sum of its bytes.

use crate::{parse, print_sum};
use gimli_build::LineProgram;
use gimli_bytes::{DebugLine, EndianVec, LineStringTable, Result, StringTable};
use gimli_core::LittleEndian;
use line_text::AddressSize;
use linetool_commands::{begin_at, end_at, one_file_program, put_row};
use std::alloc::Global;
use std::io;
use std::io::ErrorKind;

/// How often a program is built and written.
const TIMES: u64 = 7;

/// How many rows a sequence has.
const ROWS: u64 = 1000;

/// Builds and writes programs of so many sequences, and prints what each was.
pub fn run(rt: &HostRuntime, sequences: &str) -> io::Result<()> {
    let sequences = parse(sequences)?;
    for _ in 0..TIMES {
        match build_and_write(rt.alloc(), sequences) {
            Ok(section) => print_sum(rt, &section)?,
            Err(_) => return Err(io::Error::from(ErrorKind::OutOfMemory)),
        }
    }
    Ok(())
}

/// The section of a program of so many sequences.
fn build_and_write(alloc: Global, sequences: u64) -> Result<Vec<u8>> {
    let program = build(alloc, sequences)?;
    write(alloc, &program)
}

/// The section of a program.
fn write(alloc: Global, program: &LineProgram) -> Result<Vec<u8>> {
    let mut strings = StringTable::default(alloc);
    let mut line_strings = LineStringTable::default(alloc);
    write_with(alloc, program, &mut line_strings, &mut strings)
}

/// The section of a program with the tables of texts that it has.
fn write_with(
    alloc: Global,
    program: &LineProgram,
    line_strings: &mut LineStringTable,
    strings: &mut StringTable,
) -> Result<Vec<u8>> {
    let mut section = DebugLine::from(EndianVec::new(alloc, LittleEndian));
    if program.can_write(line_strings, strings) {
        program.write(&mut section, program.encoding(), line_strings, strings)?;
    }
    Ok(section.0.into_vec())
}

/// A program of so many sequences.
fn build(alloc: Global, sequences: u64) -> Result<LineProgram> {
    let mut program = one_file_program(alloc, AddressSize::Eight)?;
    let mut seed: u64 = 1;
    for i in 0..sequences {
        seed = put_sequence(&mut program, i, seed)?;
    }
    Ok(program)
}

/// Builds a sequence, and returns the seed of the next one.
fn put_sequence(program: &mut LineProgram, i: u64, seed: u64) -> Result<u64> {
    let mut seed = seed;
    begin_at(program, i.wrapping_mul(0x10000))?;
    for _ in 0..ROWS {
        seed = seed
            .wrapping_mul(6364136223846793005)
            .wrapping_add(1442695040888963407);
        move_on(program, seed);
        put_row(program)?;
    }
    let end = program.row().address_offset.wrapping_add(4);
    end_at(program, end)?;
    Ok(seed)
}

/// Moves the current row on by what the bits of the seed say.
fn move_on(program: &mut LineProgram, seed: u64) {
    let row = program.row();
    row.address_offset = row.address_offset.wrapping_add((seed >> 33) & 15);
    row.line = 1 + ((seed >> 40) & 63) + ((seed >> 50) & 7);
    if (seed >> 60) & 1 == 1 {
        row.column = (seed >> 56) & 15;
    }
    row.is_statement = (seed >> 62) & 1 == 1;
}
