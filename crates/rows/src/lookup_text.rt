//! Units of a section, lookups over it, and the paths and the rows of a unit.

use crate::command::Asked;
use crate::lines::Lines;
use crate::lines::Piece::{Address, Number, Row, Text};
use crate::words::parse_number;
use gimli_core::{Error, Reader, ReaderOffset};
use gimli_line::{LineProgram, LineProgramHeader, LineRows};
use gimli_lookup::{PathError, Paths, Program};

/// Prints the line of a unit: its version, and the first fault of its run; without a version, why
/// the unit is refused.
fn print_unit(offset: u64, version: Option<u16>, fault: Option<Error>, lines: &mut Lines) {
    lines.print("unit %", &[Number(offset)]);
    let mut word = " error ";
    if let Some(version) = version {
        lines.print(" version %", &[Number(u64::from(version))]);
        word = " fault ";
    }
    match fault {
        Some(fault) => lines.put_refusal(word, fault),
        None => lines.print("\n", &[]),
    }
}

/// Prints the units of a section.
pub(crate) fn print_units<R: Reader>(asked: &Asked<'_, R>, lines: &mut Lines) {
    let section = asked.section;
    let mut units = section.units(asked.alloc, asked.address_size.bytes());
    for _ in 0..u64::MAX {
        let unit = match units.next() {
            Ok(Some(unit)) => unit,
            Ok(None) => return,
            Err(_) => return lines.refuse(),
        };
        let offset = unit.offset.0.into_u64();
        match &unit.program {
            Ok(program) => print_unit(offset, Some(program.header().version()), None, lines),
            Err(error) => print_unit(offset, None, Some(*error), lines),
        }
    }
}

/// Prints what is looked up in a section: where the code of a line of a file begins, or of the next
/// line that has any; or the units, and for each address the rows that cover it.
pub(crate) fn print_lookup<R: Reader>(asked: &Asked<'_, R>, is_line: bool, lines: &mut Lines) {
    let size = asked.address_size.bytes();
    match Program::new(asked.alloc, &asked.section, asked.texts, size, asked.offset) {
        Ok(program) if is_line => print_addresses(asked, &program, lines),
        Ok(program) => print_places(&program, asked.addresses, lines),
        Err(_) => lines.refuse(),
    }
}

/// Prints units, and the rows that cover addresses.
fn print_places<R: Reader>(program: &Program<R>, words: &[&str], lines: &mut Lines) {
    for unit in program.lookup().units() {
        let version = unit.header().map(|header| header.version());
        print_unit(unit.offset().0.into_u64(), version, unit.fault(), lines);
    }
    for word in words {
        print_place(program, parse_number(word).unwrap_or(0), lines);
    }
}

/// Prints the rows that cover an address.
fn print_place<R: Reader>(program: &Program<R>, address: u64, lines: &mut Lines) {
    match program.place(address) {
        Some(place) => {
            let found = place.rows;
            lines.print("% unit %\n", &[Address(address), Number(found.unit as u64)]);
            lines.print("%\n%\n", &[Row(found.row), Row(found.next)]);
        }
        None => lines.print("% none\n", &[Address(address)]),
    }
}

/// Prints a line, and the addresses at which its code begins.
fn print_addresses<R: Reader>(asked: &Asked<'_, R>, program: &Program<R>, lines: &mut Lines) {
    match program.addresses_of(asked.path, asked.line) {
        Ok(Some(found)) => {
            lines.print("line %\n", &[Number(found.line)]);
            for address in &found.addresses {
                lines.print("%\n", &[Address(*address)]);
            }
        }
        Ok(None) => lines.print("none\n", &[]),
        Err(_) => lines.refuse(),
    }
}

/// Prints the paths of the files of a header, or why they aren't known.
pub(crate) fn print_paths<R: Reader>(
    asked: &Asked<'_, R>,
    header: &LineProgramHeader<R>,
    lines: &mut Lines,
) {
    let paths = Paths::new(header, asked.texts, Some(asked.path));
    let last = header.file_names().len() as u64;
    for index in 0..=last {
        let Some(file) = header.file(index) else {
            continue;
        };
        lines.print("file % ", &[Number(index)]);
        match paths.of_file(asked.alloc, file) {
            Ok(path) => lines.print("%\n", &[Text(&path)]),
            Err(PathError::OutOfMemory) => lines.refuse(),
            Err(error) => lines.put_error("error ", error),
        }
    }
}

/// Prints the number of the call that memory was refused to, where the state after it isn't as it
/// must be.
pub(crate) fn watch_rows<R: Reader, P: LineProgram<R> + Drop>(
    mut rows: LineRows<R, P>,
    lines: &mut Lines,
) {
    for call in 1..u64::MAX {
        let files = rows.header().file_names().len();
        match rows.next_row() {
            Ok(Some(_)) => {}
            Err(Error::OutOfMemory) => {
                if !stands(rows, files) {
                    lines.print("state %\n", &[Number(call)]);
                }
                return;
            }
            _ => return,
        }
    }
}

/// Whether there are so many files after a refused call, and no row.
fn stands<R: Reader, P: LineProgram<R> + Drop>(mut rows: LineRows<R, P>, files: usize) -> bool {
    for _ in 0..3 {
        if rows.header().file_names().len() != files || !matches!(rows.next_row(), Ok(None)) {
            return false;
        }
    }
    true
}
