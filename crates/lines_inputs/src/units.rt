//! The units of a section, one after the other, how far a command is among them, and the rows of a
//! unit with their fields as they are printed.

ghost use Rattle.std.specs.Prelude.{◌≡◌};

use crate::input::Input;
use gimli_core::{DebugLineOffset, Error, Reader, ReaderOffset};
use gimli_line::{
    IncompleteLineProgram, LineProgramHeader, LineRow, LineUnit, LineUnits, OneShotLineRows,
};
use lines_words::{Output, UnitChoice};
use std::alloc::{AllocError, Global};
use std::fmt;

/// The length of a section from which on a person waits for it, in bytes.
const LONG: u64 = 1 << 25;

/// Where a command prints its lines while it runs.
#[derive(Clone, Copy)]
pub enum Printing {
    /// On standard output all along, so that what is printed shows how far the command is, where
    /// that is a terminal.
    Steady,
    /// Few lines, or none before the end.
    Rare,
}

/// Shows that a command reads a whole section before it prints anything, where a person waits for
/// it at a terminal.
pub fn show_reading(length: u64, output: &mut Output<'_>) {
    if output.screen.is_err && length >= LONG {
        let megabytes = length >> 20;
        output.show(format_args!("lines: reading {megabytes} MB"));
    }
}

/// The offset of a unit in its section.
fn offset_of<R: Reader>(unit: &LineUnit<R>) -> u64 {
    unit.offset.0.into_u64()
}

/// The chosen units of a section, one after the other.
#[derive(Drop)]
pub struct Walk<R: Reader> {
    units: LineUnits<R>,
    choice: UnitChoice,
    is_found: bool,
    /// The length of the section in bytes.
    length: u64,
    /// Whether to show how far the command is.
    is_told: bool,
    /// The hundredths of the section that were shown last.
    told: Option<u64>,
}

impl<R: Reader> Walk<R> {
    /// The units from the start of the section on.
    pub fn new(
        alloc: Global,
        input: &Input<R>,
        choice: UnitChoice,
        printing: Printing,
        output: &mut Output<'_>,
    ) -> Walk<R> {
        let screen = output.screen;
        let is_seen = matches!(printing, Printing::Steady) && screen.is_out;
        let length = input.length();
        let size = input.notation.address_size.bytes();
        let mut walk = Walk {
            units: input.lines.units(alloc, size),
            choice,
            is_found: matches!(choice, UnitChoice::All),
            length,
            is_told: screen.is_err && length >= LONG && !is_seen,
            told: None,
        };
        walk.show(0, output);
        walk
    }

    /// The next chosen unit; None at the end. That no unit was the chosen one is reported there.
    pub fn next_unit(
        &mut self,
        output: &mut Output<'_>,
    ) -> Result<Option<LineUnit<R>>, AllocError> {
        for _ in 0..u64::MAX {
            match self.units.next() {
                Ok(Some(unit)) => {
                    let offset = offset_of(&unit);
                    self.show(offset, output);
                    if self.choice.includes(offset) {
                        self.is_found = true;
                        return Ok(Some(unit));
                    }
                }
                Ok(None) => break,
                Err(_) => return Err(AllocError),
            }
        }
        self.end(output);
        Ok(None)
    }

    /// The rows of the next chosen unit that has a program. A refused header is reported.
    pub fn next_rows(
        &mut self,
        output: &mut Output<'_>,
    ) -> Result<Option<UnitRows<R>>, AllocError> {
        for _ in 0..u64::MAX {
            let Some(unit) = self.next_unit(output)? else {
                break;
            };
            let offset = offset_of(&unit);
            match unit.program {
                Ok(program) => return Ok(Some(UnitRows::new(offset, program))),
                Err(refusal) => output.tell_of_unit(offset, refusal),
            }
        }
        Ok(None)
    }

    /// Shows how far a command is when it begins with the unit at an offset, if that has changed.
    fn show(&mut self, offset: u64, output: &mut Output<'_>) {
        let hundredth = (self.length / 100).max(1);
        let percent = (offset / hundredth).min(99);
        if self.is_told && self.told != Some(percent) {
            let megabytes = self.length >> 20;
            output.show(format_args!("lines: {percent}% of {megabytes} MB"));
            self.told = Some(percent);
        }
    }

    /// Clears what was shown, and reports that no unit was the chosen one.
    fn end(&mut self, output: &mut Output<'_>) {
        output.clear();
        match self.choice {
            UnitChoice::At(offset) if !self.is_found => output.tell(format_args!(
                "no unit begins at 0x{offset:x}; the command units prints where they do"
            )),
            _ => {}
        }
    }
}

/// How many rows there were, as sentences have it.
#[derive(Clone, Copy)]
pub struct RowCount(pub u64);

impl fmt::Display for RowCount {
    fn fmt<W: fmt::Write>(&self, f: &mut fmt::Formatter<W>) -> fmt::Result {
        match self.0 {
            1 => f.write_str("1 row"),
            count => write!(f, "{count} rows"),
        }
    }
}

/// The rows that a program gives up to its end or its first fault.
#[derive(Drop)]
pub struct UnitRows<R: Reader> {
    /// The offset of the unit.
    pub offset: u64,
    /// How many rows there were, ends among them.
    pub count: u64,
    /// How many of them end a sequence.
    pub ends: u64,
    rows: OneShotLineRows<R>,
    fault: Option<Error>,
}

impl<R: Reader> UnitRows<R> {
    /// The rows of the program of the unit at an offset.
    fn new(offset: u64, program: IncompleteLineProgram<R>) -> UnitRows<R> {
        UnitRows {
            offset,
            count: 0,
            ends: 0,
            rows: program.rows(),
            fault: None,
        }
    }

    /// The rows of the unit at an offset of a program, to be read once more. None where it has
    /// none.
    pub fn at(
        alloc: Global,
        input: &Input<R>,
        offset: u64,
    ) -> Result<Option<UnitRows<R>>, AllocError> {
        let Ok(place) = R::Offset::from_u64(offset) else {
            return Ok(None);
        };
        let size = input.notation.address_size.bytes();
        let place = DebugLineOffset(place);
        match input.lines.program(alloc, place, size, None, None) {
            Ok(program) => Ok(Some(UnitRows::new(offset, program))),
            Err(Error::OutOfMemory) => Err(AllocError),
            Err(_) => Ok(None),
        }
    }

    /// The header, with the files that are defined so far.
    pub fn header(&self) -> &LineProgramHeader<R> {
        self.rows.header()
    }

    /// Runs through rows until the header has the file of an index, if it ever has.
    pub fn run_to_file(&mut self, index: u64) -> Result<(), AllocError> {
        for _ in 0..u64::MAX {
            if self.header().file(index).is_some() || self.next_row()?.is_none() {
                break;
            }
        }
        Ok(())
    }

    /// The next row; None at the end, and at a fault, which is kept.
    pub fn next_row(&mut self) -> Result<Option<LineRow>, AllocError> {
        match self.rows.next_row() {
            Ok(Some((_, row))) => {
                let row = *row;
                self.count = self.count.saturating_add(1);
                self.ends = self.ends.saturating_add(u64::from(row.end_sequence()));
                Ok(Some(row))
            }
            Ok(None) => Ok(None),
            Err(Error::OutOfMemory) => Err(AllocError),
            Err(fault) => {
                self.fault = Some(fault);
                Ok(None)
            }
        }
    }

    /// Runs through all rows.
    pub fn run(&mut self) -> Result<(), AllocError> {
        for _ in 0..u64::MAX {
            if self.next_row()?.is_none() {
                break;
            }
        }
        Ok(())
    }

    /// Reports the fault, where there was one.
    pub fn tell_fault(&self, output: &mut Output<'_>) {
        if let Some(fault) = self.fault {
            let rows = RowCount(self.count);
            output.tell_of_unit(self.offset, format_args!("after {rows}: {fault}"));
        }
    }
}

/// The line of a row, 0 where there is none.
pub fn line_of(row: &LineRow) -> u64
    ensures { result ≡ row.now.line }
{
    match row.line() {
        Some(line) => line.get(),
        None => 0,
    }
}

/// The column of a row, 0 for the left edge.
pub fn column_of(row: &LineRow) -> u64
    ensures { result ≡ row.now.column }
{
    row.column().number()
}

/// Each flag of a row, with its name and its letter.
pub fn flags_of(row: &LineRow) -> [(bool, &'static str, char); 5] {
    [
        (row.is_stmt(), "is_stmt", 's'),
        (row.basic_block(), "basic_block", 'b'),
        (row.end_sequence(), "end_sequence", 'e'),
        (row.prologue_end(), "prologue_end", 'p'),
        (row.epilogue_begin(), "epilogue_begin", 'q'),
    ]
}

/// The flags of a row, as letters, each in a place of its own, with a hyphen in place of each flag
/// that isn't set.
#[derive(Clone, Copy)]
pub struct FlagLetters(pub LineRow);

impl fmt::Display for FlagLetters {
    fn fmt<W: fmt::Write>(&self, f: &mut fmt::Formatter<W>) -> fmt::Result {
        for (holds, _, letter) in flags_of(&self.0) {
            f.write_char(if holds { letter } else { '-' })?;
        }
        Ok(())
    }
}
