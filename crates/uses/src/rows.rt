//! All units of a section, and their rows.
#![tactic(auto)]

use anyhow::bail;
use gimli_core::{EndianSlice, Error, LittleEndian, Reader, ReaderOffset, Result};
use gimli_line::{DebugLine, LineRow, LineUnit, OneShotLineRows};
use std::alloc::{AllocError, Global};
use std::fmt::Write;
use std::fs;

/// Reads a section from a file, and prints its units.
pub fn start(rt: &HostRuntime, words: &[String], text: &mut String) -> anyhow::Result<()> {
    let [lines] = words else {
        bail!("usage: rows LINES");
    };
    let section = fs::read(rt, lines.as_str())?;
    let reader = EndianSlice::new(&section, LittleEndian);
    Ok(print_units(rt.alloc(), reader, text)?)
}

/// Adds a line for each unit of a section, and one for each of its rows. A unit that can't be read
/// says why, and the next one follows. Refused by the first fault of a program, and where memory is
/// missing.
pub fn print_units<R: Reader>(alloc: Global, section: R, text: &mut String) -> Result<()> {
    let mut units = DebugLine::from(section).units(alloc, 8);
    'units: while let Some(unit) = units.next()? {
        print_unit(unit, text)?;
    }
    Ok(())
}

/// Adds the lines of a unit.
fn print_unit<R: Reader>(unit: LineUnit<R>, text: &mut String) -> Result<()> {
    let offset = unit.offset.0.into_u64();
    match unit.program {
        Ok(program) => {
            let version = program.header().version();
            told(writeln!(text, "unit {offset}, version {version}"))?;
            print_rows(program.rows(), text)
        }
        Err(refusal) => told(writeln!(text, "unit {offset}: {refusal}")),
    }
}

/// Adds a line for each row of a run. Refused by its first fault, and where memory is missing.
fn print_rows<R: Reader>(rows: OneShotLineRows<R>, text: &mut String) -> Result<()> {
    let mut rows = rows;
    'rows: loop {
        let row = match rows.next_row()? {
            Some((_header, row)) => *row,
            None => return Ok(()),
        };
        told(print_row(&row, text))?;
    }
}

/// Adds the line of a row.
pub fn print_row(row: &LineRow, text: &mut String) -> std::result::Result<(), AllocError> {
    let address = row.address();
    let file = row.file_index();
    let line = row.line().map_or(0, |line| line.get());
    let end = if row.end_sequence() { " end" } else { "" };
    writeln!(text, "{address:#x} file {file} line {line}{end}")
}

/// The outcome of adding to a text, as a result of the library.
pub fn told(outcome: std::result::Result<(), AllocError>) -> Result<()> {
    match outcome {
        Ok(()) => Ok(()),
        Err(_) => Err(Error::OutOfMemory),
    }
}
