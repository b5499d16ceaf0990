//! What the program does, over its words, a reader in place of the file, and writers in place of
//! standard output and standard error.

ghost use Rattle.std.specs.Prelude.{◌≡◌, ◌≤◌, Err, IsNone, map};
ghost use Rattle.linetool_commands.specs.Words.{IsCommand, ReadsFile};

use crate::count::count_rows;
use crate::demo::{print_demo, print_demo_pieces};
use crate::find::print_pair;
use crate::print::{finish, print_line, print_program, print_rows};
use crate::refusal::Refusal;
use crate::section::{program_at, read_section};
use crate::units::print_units;
use crate::words::Command;
use gimli_core::Reader;
use gimli_line::{CompleteLineProgram, IncompleteLineProgram, LineSequence};
use line_text::{SequenceLine, UnitLocation};
use std::alloc::Global;
use std::io::{Read, Write};

/// The status where the words are no command.
const USAGE: u8 = 2;

/// Does what the words after the program's name ask for, and returns the status of the program.
/// `file` is the opened file that the second word names, where there is one.
pub fn run<F: Read + Drop, O: Write, E: Write>(
    alloc: Global,
    words: &[&str],
    file: Option<F>,
    out: &mut O,
    err: &mut E,
) -> u8
    ensures usage { ((command : Command) → IsCommand (map (λ word. word.now) words.now) command → ⊥)
        → result ≡ 2 }
    ensures command { (command : Command) → IsCommand (map (λ word. word.now) words.now) command
        → result ≤ 1 }
    ensures no_file { (command : Command) → IsCommand (map (λ word. word.now) words.now) command
        → ReadsFile command → IsNone file → result ≡ 1 }
{
    let Some(command) = Command::parse(words) else {
        // Where standard error can't be written to, the status still says it.
        let _ = err.write_all(b"usage\n");
        return USAGE;
    };
    match perform(alloc, command, file, out) {
        Ok(()) => 0,
        Err(refusal) => refusal.report(err),
    }
}

/// Does what a command asks for.
fn perform<F: Read + Drop, O: Write>(
    alloc: Global,
    command: Command,
    file: Option<F>,
    out: &mut O,
) -> Result<(), Refusal>
    ensures no_file { ReadsFile command → IsNone file → result ≡ Err Refusal.File }
{
    match command {
        Command::Demo => print_demo(alloc, out),
        Command::DemoPieces => print_demo_pieces(alloc, out),
        Command::Rows(location) => print_unit(alloc, file, location, Printed::Rows, out),
        Command::Sequences(location) => print_unit(alloc, file, location, Printed::Sequences, out),
        Command::Units(numbers) => print_units(alloc, file, numbers, out),
        Command::Find(query) => {
            print_unit(
                alloc,
                file,
                query.location,
                Printed::Pair(query.address),
                out,
            )
        }
    }
}

/// What is printed of a unit.
#[derive(Clone, Copy)]
enum Printed {
    /// Its rows.
    Rows,
    /// Its sequences, each with its rows.
    Sequences,
    /// The two rows that cover an address.
    Pair(u64),
}

/// Prints a part of a unit of a file.
fn print_unit<F: Read + Drop, O: Write>(
    alloc: Global,
    file: Option<F>,
    location: UnitLocation,
    part: Printed,
    out: &mut O,
) -> Result<(), Refusal>
    ensures no_file { IsNone file → result ≡ Err Refusal.File }
{
    let section = read_section(alloc, file)?;
    print_unit_of(alloc, &section, location, part, out)
}

/// Prints a part of a unit of a section.
fn print_unit_of<O: Write>(
    alloc: Global,
    section: &[u8],
    location: UnitLocation,
    part: Printed,
    out: &mut O,
) -> Result<(), Refusal> {
    print_part(program_at(alloc, section, location)?, part, out)
}

/// Prints a part of a program, and flushes what was printed.
fn print_part<R: Reader, O: Write>(
    program: IncompleteLineProgram<R>,
    part: Printed,
    out: &mut O,
) -> Result<(), Refusal> {
    let outcome = match part {
        Printed::Rows => print_program(program, out),
        Printed::Sequences => print_sequences(program, out),
        Printed::Pair(address) => print_pair(program, address, out),
    };
    finish(outcome, out)
}

/// Prints the sequences of a program. Nothing is printed where it can't be cut.
fn print_sequences<R: Reader, O: Write>(
    program: IncompleteLineProgram<R>,
    out: &mut O,
) -> Result<(), Refusal> {
    match program.sequences() {
        Ok((program, sequences)) => print_each(&program, &sequences, out),
        Err(e) => Err(Refusal::of_unit(e, Refusal::Rows)),
    }
}

/// Prints sequences one after the other, each with its rows.
fn print_each<R: Reader, O: Write>(
    program: &CompleteLineProgram<R>,
    sequences: &[LineSequence<R>],
    out: &mut O,
) -> Result<(), Refusal> {
    for sequence in sequences {
        let line = SequenceLine {
            start: sequence.start,
            end: sequence.end,
            rows: count_rows(program.resume_from(sequence))?,
        };
        print_line(line, out)?;
        print_rows(program.resume_from(sequence), out)?;
    }
    Ok(())
}
