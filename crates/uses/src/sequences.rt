//! The rows of each unit of a section, read from its sequences one by one.
#![tactic(auto)]

ghost use Rattle.std.specs.Prelude.{◌≡◌, ◌≢◌, ◌++◌, List, map, flat_map, All, IfErr, IfOk, OnOk};
ghost use Rattle.gimli_line.specs.run.Events.{row, Event, Events, through_last_end};
ghost use Rattle.gimli_line.specs.run.Rows.{events_left, GivesRowsAlone};
ghost use Rattle.gimli_line.specs.run.Sequences.{events_of, sequence_of, HasFirstFault, HaveRuns};
ghost use Rattle.gimli_line.specs.run.Sequences.{ResumesToRows};

use crate::rows::{print_row, told};
use anyhow::bail;
use gimli_core::{EndianSlice, Error, LittleEndian, Reader, Result};
use gimli_line::{
    CompleteLineProgram, DebugLine, IncompleteLineProgram, LineRow, LineSequence, ResumedLineRows,
};
use std::alloc::Global;
use std::fs;

/// Reads a section from a file, and prints the rows of its units through their last end rows.
pub fn start(rt: &HostRuntime, words: &[String], text: &mut String) -> anyhow::Result<()> {
    let [lines] = words else {
        bail!("usage: sequences LINES");
    };
    let section = fs::read(rt, lines.as_str())?;
    let reader = EndianSlice::new(&section, LittleEndian);
    Ok(print_units(rt.alloc(), reader, text)?)
}

/// Adds a line for each row of the sequences of each unit of a section. Units that can't be read
/// are skipped. Refused by the first fault of a program, and where memory is missing.
fn print_units<R: Reader>(alloc: Global, section: R, text: &mut String) -> Result<()> {
    let mut units = DebugLine::from(section).units(alloc, 8);
    'units: while let Some(unit) = units.next()? {
        if let Ok(program) = unit.program {
            print_rows(&rows_of_sequences(alloc, program)?, text)?;
        }
    }
    Ok(())
}

/// Adds a line for each row.
fn print_rows(rows: &[LineRow], text: &mut String) -> Result<()> {
    for row in rows {
        told(print_row(row, text))?;
    }
    Ok(())
}

/// The rows of a program, each sequence run by itself: those of the single run through its last end
/// row. Refused by the first fault of the run, wherever it stands, or by `OutOfMemory`.
pub fn rows_of_sequences<R: Reader>(
    alloc: Global,
    program: IncompleteLineProgram<R>,
) -> Result<Vec<LineRow>>
    ensures ok { IfOk result (λ rows. (run : List Event)
        × Events program.layout program.meaning program.meaning.program run
        × (map row rows.items ≡ through_last_end run)) }
    ensures err { IfErr result (λ e. e ≢ Error.OutOfMemory
        → HasFirstFault program.layout program.meaning e) }
{
    let (program, sequences) = program.sequences()?;
    rows_of_each(alloc, &program, &sequences)
}

/// The rows of these sequences, one run after the other. Requires that each of them gives rows
/// alone. Refused by `OutOfMemory` alone.
fn rows_of_each<R: Reader>(
    alloc: Global,
    program: &CompleteLineProgram<R>,
    sequences: &[LineSequence<R>],
) -> Result<Vec<LineRow>>
    requires { All (ResumesToRows program.now.meaning) (map sequence_of sequences.now) }
    ensures ok { IfOk result (λ rows. (runs : List (List Event))
        → HaveRuns program.now.meaning (map sequence_of sequences.now) runs
        → map row rows.items ≡ flat_map (λ run. run) runs) }
    ensures err { IfErr result (λ e. e ≡ Error.OutOfMemory) }
{
    let mut rows = Vec::new(alloc);
    for sequence in sequences {
        add_rows(program.resume_from(sequence), &mut rows)?;
    }
    Ok(rows)
}

/// Adds the rows of a sequence that are still to come. Requires that its run has no fault. Refused
/// by `OutOfMemory` alone.
fn add_rows<R: Reader>(rows: ResumedLineRows<'_, R>, list: &mut Vec<LineRow>) -> Result<()>
    requires { GivesRowsAlone rows }
    ensures ok { OnOk result (map row list.new.items
        ≡ map row list.old.items ++ events_of (events_left rows.entry)) }
    ensures err { IfErr result (λ e. e ≡ Error.OutOfMemory) }
{
    let mut rows = rows;
    'rows: loop {
        let row = match rows.next_row()? {
            Some((_header, row)) => *row,
            None => return Ok(()),
        };
        if list.push(row).is_err() {
            return Err(Error::OutOfMemory);
        }
    }
}
