//! The cost of reading: `read FILE TIMES` runs the rows of all units of a section, so many times,
//! and `read FILE TIMES sequences` splits all units into their sequences.
//!
//! Standard output has the counts and a checksum, over every register or over the bounds of the
//! sequences.

use crate::order::{OrderOf, READ};
use crate::parse;
use gimli_core::{DebugLineOffset, Reader};
use gimli_line::{DebugLine, IncompleteLineProgram, LineRow};
use std::alloc::Global;
use std::{fs, io};

/// What is counted in a unit.
#[derive(Clone, Copy)]
pub enum What {
    Rows,
    Sequences,
}

/// Makes so many passes over a section of a file, and prints what each counted.
pub fn run(rt: &HostRuntime, path: &str, times: &str, what: What) -> io::Result<()> {
    let times = parse(times)?;
    let section = fs::read(rt, path)?;
    let name = match what {
        What::Rows => "rows",
        What::Sequences => "sequences",
    };
    for _ in 0..times {
        let line = DebugLine::new(&section, OrderOf::<READ>);
        let total = pass(rt.alloc(), &line, section.len(), what);
        println!(rt;
            "units {} {name} {} sum {}",
            total.units, total.count, total.sum
        )?;
    }
    Ok(())
}

/// One pass over all units of a section of this length.
fn pass<R: Reader<Offset = usize>>(
    alloc: Global,
    section: &DebugLine<R>,
    end: usize,
    what: What,
) -> Total {
    let mut total = Total::default();
    let mut offset: usize = 0;
    for _ in 0..u64::MAX {
        if offset >= end {
            return total;
        }
        let Some(length) = unit(alloc, section, offset, what, &mut total) else {
            return total;
        };
        offset = offset.saturating_add(length).saturating_add(4);
    }
    total
}

/// What was counted so far: units, rows or sequences, and the checksum.
#[derive(Default, Drop)]
struct Total {
    units: u64,
    count: u64,
    sum: u64,
}

impl Total {
    /// Counts a row or a sequence, and takes a word into the checksum.
    fn add(&mut self, word: u64) {
        self.count = self.count.wrapping_add(1);
        self.sum = self.sum.rotate_left(1).wrapping_add(word);
    }

    /// Counts a row, with each of its registers.
    fn add_row(&mut self, row: &LineRow) {
        let flags = u64::from(row.is_stmt())
            | u64::from(row.basic_block()) << 1
            | u64::from(row.end_sequence()) << 2
            | u64::from(row.prologue_end()) << 3
            | u64::from(row.epilogue_begin()) << 4;
        let line = match row.line() {
            Some(line) => line.get(),
            None => 0,
        };
        let column = row.column().number();
        let word = row.address()
            ^ line.rotate_left(20)
            ^ row.file_index().rotate_left(40)
            ^ column.rotate_left(50)
            ^ row.op_index().rotate_left(56)
            ^ row.isa().rotate_left(12)
            ^ row.discriminator().rotate_left(32)
            ^ flags.rotate_left(59);
        self.add(word);
    }
}

/// Counts in the unit at an offset, and returns its length without the length field.
fn unit<R: Reader<Offset = usize>>(
    alloc: Global,
    section: &DebugLine<R>,
    offset: usize,
    what: What,
    total: &mut Total,
) -> Option<usize> {
    let offset = DebugLineOffset(offset);
    let program = section.program(alloc, offset, 8, None, None).ok()?;
    let length = program.header().unit_length();
    match what {
        What::Rows => add_rows(program, total),
        What::Sequences => add_sequences(program, total),
    }
    total.units = total.units.wrapping_add(1);
    Some(length)
}

/// Counts the rows of a program.
fn add_rows<R: Reader>(program: IncompleteLineProgram<R>, total: &mut Total) {
    let mut rows = program.rows();
    for _ in 0..u64::MAX {
        match rows.next_row() {
            Ok(Some((_, row))) => total.add_row(row),
            Ok(None) | Err(_) => return,
        }
    }
}

/// Counts the sequences of a program.
fn add_sequences<R: Reader>(program: IncompleteLineProgram<R>, total: &mut Total) {
    if let Ok((_, sequences)) = program.sequences() {
        for sequence in &sequences {
            total.add(sequence.start ^ sequence.end.rotate_left(32));
        }
    }
}
