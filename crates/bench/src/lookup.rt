//! The cost of lookups: `lookup FILE OFFSET WORK TIMES` does some work so many times on the unit at
//! OFFSET of a section, and prints what it counted and a sum over it.
//!
//! | WORK | Does | Counts | Sums |
//! |---|---|---|---|
//! | `sequences` | cuts the program | sequences | where they end |
//! | `new` | makes a lookup | sequences | where they end |
//! | `find` | finds 10,000 addresses in one lookup | those found, probes | addresses of rows |
//! | `section` | makes a lookup of the whole section | units | their offsets |
//! | `section_find` | as `find`, over the whole section | as `find` | as `find` |

use crate::order::{LOOKUP, OrderOf};
use crate::parse;
use gimli_core::{DebugLineOffset, Error, Reader, ReaderOffset, Result};
use gimli_line::{DebugLine, IncompleteLineProgram, LineSequence};
use gimli_lookup::{Lookup, SectionLookup};
use std::alloc::Global;
use std::io::ErrorKind;
use std::{fs, io};

/// How many addresses are found each time.
const ADDRESSES: u64 = 10_000;

/// What was counted.
#[derive(Clone, Copy, Default)]
pub struct Tally {
    pub count: u64,
    pub probes: u64,
    pub sum: u64,
}

impl Tally {
    /// Counts one more, with this number.
    pub fn add(&mut self, number: u64) {
        self.count = self.count.wrapping_add(1);
        self.sum = self.sum.wrapping_add(number);
    }
}

/// Does some work so many times on the unit at an offset, and prints what the last time counted.
pub fn run(rt: &HostRuntime, path: &str, offset: &str, work: &str, times: &str) -> io::Result<()> {
    let offset = DebugLineOffset(parse(offset)? as usize);
    let times = parse(times)?;
    let section = fs::read(rt, path)?;
    let line = DebugLine::new(&section, OrderOf::<LOOKUP>);
    match do_work(rt.alloc(), &line, offset, work, times) {
        Ok(tally) => println!(rt;
            "count {} probes {} sum {}",
            tally.count, tally.probes, tally.sum
        ),
        Err(_) => Err(io::Error::from(ErrorKind::InvalidData)),
    }
}

/// Does the work that the word names so many times, and returns what the last time counted.
fn do_work<R: Reader>(
    alloc: Global,
    section: &DebugLine<R>,
    offset: DebugLineOffset<R::Offset>,
    work: &str,
    times: u64,
) -> Result<Tally> {
    match work {
        "find" => {
            let lookup = Lookup::new(section.program(alloc, offset, 8, None, None)?)?;
            return Ok(find_times(&lookup, times));
        }
        "section_find" => {
            let lookup = SectionLookup::new(section, alloc, 8, 0)?;
            return Ok(find_times_in_section(&lookup, times));
        }
        _ => {}
    }
    let mut tally = Tally::default();
    for _ in 0..times {
        tally = match work {
            "section" => tally_of_section(alloc, section)?,
            _ => tally_of(section.program(alloc, offset, 8, None, None)?, work)?,
        };
    }
    Ok(tally)
}

/// Makes a lookup over a section, and counts its units.
fn tally_of_section<R: Reader>(alloc: Global, section: &DebugLine<R>) -> Result<Tally> {
    let lookup = SectionLookup::new(section, alloc, 8, 0)?;
    let mut tally = Tally::default();
    for unit in lookup.units() {
        tally.add(unit.offset().0.into_u64());
    }
    Ok(tally)
}

/// Does the work on a program once.
fn tally_of<R: Reader>(program: IncompleteLineProgram<R>, work: &str) -> Result<Tally> {
    let mut tally = Tally::default();
    match work {
        "sequences" => {
            let (_, sequences) = program.sequences()?;
            add_ends(&sequences, &mut tally);
        }
        "new" => {
            let lookup = Lookup::new(program)?;
            add_ends(lookup.sequences(), &mut tally);
        }
        _ => return Err(Error::UnsupportedOffset),
    }
    Ok(tally)
}

/// Adds where sequences end.
fn add_ends<R: Reader>(sequences: &[LineSequence<R>], tally: &mut Tally) {
    for sequence in sequences {
        tally.add(sequence.end);
    }
}

/// The addresses from the lowest start of a sequence on, and how many there are to the highest end.
fn span<R: Reader>(sequences: &[LineSequence<R>]) -> (u64, u64) {
    let mut lowest = u64::MAX;
    let mut highest = 0;
    for sequence in sequences {
        lowest = lowest.min(sequence.start);
        highest = highest.max(sequence.end);
    }
    (lowest, highest.saturating_sub(lowest))
}

/// An address so far from the lowest one.
fn address(lowest: u64, length: u64, place: u64) -> u64 {
    lowest.wrapping_add(length.wrapping_mul(place) / ADDRESSES)
}

/// Finds addresses at even distances so many times. One more pass counts the probes.
fn find_times<R: Reader>(lookup: &Lookup<R>, times: u64) -> Tally {
    let (lowest, length) = span(lookup.sequences());
    let mut tally = Tally::default();
    for _ in 0..times {
        tally = find_all(lookup, lowest, length);
    }
    for place in 0..ADDRESSES {
        let (_, count) = lookup.find_indexed_counted(address(lowest, length, place));
        tally.probes = tally.probes.wrapping_add(count);
    }
    tally
}

/// Finds each address.
fn find_all<R: Reader>(lookup: &Lookup<R>, lowest: u64, length: u64) -> Tally {
    let mut tally = Tally::default();
    for place in 0..ADDRESSES {
        if let Some((row, _)) = lookup.find(address(lowest, length, place)) {
            tally.add(row.address());
        }
    }
    tally
}

/// The addresses from the lowest one that rows cover on, and how many there are to the highest.
fn span_of_section<R: Reader>(lookup: &SectionLookup<R>) -> (u64, u64) {
    let mut ranges = lookup.ranges();
    let mut lowest = u64::MAX;
    let mut highest = 0;
    for _ in 0..u64::MAX {
        match ranges.next_range() {
            Some(range) if range.rows.is_some() => {
                lowest = lowest.min(range.start);
                highest = range.end.unwrap_or(u64::MAX);
            }
            Some(_) => {}
            None => break,
        }
    }
    (lowest, u64::saturating_sub(highest, lowest))
}

/// The same as `find_times` over a section.
fn find_times_in_section<R: Reader>(lookup: &SectionLookup<R>, times: u64) -> Tally {
    let (lowest, length) = span_of_section(lookup);
    let mut tally = Tally::default();
    for _ in 0..times {
        tally = find_all_in_section(lookup, lowest, length);
    }
    for place in 0..ADDRESSES {
        let (_, count) = lookup.find_counted(address(lowest, length, place));
        tally.probes = tally.probes.wrapping_add(count);
    }
    tally
}

/// Finds each address in a section.
fn find_all_in_section<R: Reader>(lookup: &SectionLookup<R>, lowest: u64, length: u64) -> Tally {
    let mut tally = Tally::default();
    for place in 0..ADDRESSES {
        if let Some(found) = lookup.find(address(lowest, length, place)) {
            tally.add(found.row.address());
        }
    }
    tally
}
