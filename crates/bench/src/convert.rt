//! The cost of a conversion: `convert FILE OFFSET TIMES` reads the unit at OFFSET of a section,
//! converts it with its own encodings, each address mapped to itself, and writes it into an
//! `EndianVec`; so many times. Texts stand in the unit itself, as up to version 4.
//!
//! Standard output has the length of each section that was written, and a sum of its bytes.

use crate::order::{CONVERT, OrderOf};
use crate::{parse, print_sum};
use gimli_core::{DebugLineOffset, EndianSlice, Reader};
use gimli_line::{DebugLine, IncompleteLineProgram};
use gimli_write::conversion_laws::converted_programs_can_be_written;
use gimli_write::{
    Address, ConvertResult, EndianVec, LineStringTable, StringTable, convert_program,
};
use std::alloc::Global;
use std::io::ErrorKind;
use std::{fs, io};

/// Converts the unit at an offset so many times, and prints what was written each time.
pub fn run(rt: &HostRuntime, path: &str, offset: &str, times: &str) -> io::Result<()> {
    let offset = DebugLineOffset(parse(offset)? as usize);
    let times = parse(times)?;
    let section = fs::read(rt, path)?;
    for _ in 0..times {
        match converted_unit(rt.alloc(), &section, offset) {
            Ok(bytes) => print_sum(rt, &bytes)?,
            Err(_) => return Err(io::Error::from(ErrorKind::InvalidData)),
        }
    }
    Ok(())
}

/// The unit at an offset, as it is written after its conversion.
fn converted_unit(
    alloc: Global,
    section: &[u8],
    offset: DebugLineOffset,
) -> ConvertResult<Vec<u8>> {
    let section = DebugLine::new(section, OrderOf::<CONVERT>);
    let program = section.program(alloc, offset, 8, None, None)?;
    convert_and_write(alloc, program, EndianSlice::new(b"", OrderOf::<CONVERT>))
}

/// A program, as it is written after its conversion. `no_texts` is a reader of no bytes, which
/// stands for both sections of texts.
fn convert_and_write<R: Reader>(
    alloc: Global,
    from_program: IncompleteLineProgram<R>,
    no_texts: R,
) -> ConvertResult<Vec<u8>> {
    let mut strings = StringTable::default(alloc);
    let mut line_strings = LineStringTable::default(alloc);
    convert_and_write_with(
        alloc,
        from_program,
        no_texts,
        &mut line_strings,
        &mut strings,
    )
}

/// The same with tables of texts.
fn convert_and_write_with<R: Reader>(
    alloc: Global,
    from_program: IncompleteLineProgram<R>,
    no_texts: R,
    line_strings: &mut LineStringTable,
    strings: &mut StringTable,
) -> ConvertResult<Vec<u8>> {
    converted_programs_can_be_written();
    let (program, _files) = convert_program(
        no_texts,
        no_texts,
        from_program,
        None,
        None,
        None,
        line_strings,
        strings,
        |address| Some(Address::Constant(address)),
    )?;
    let mut unit = gimli_write::DebugLine::from(EndianVec::new(alloc, OrderOf::<CONVERT>));
    program.write(&mut unit, program.encoding(), line_strings, strings)?;
    Ok(unit.0.into_vec())
}
