//! The cost of an index that is bytes: `index FILE WORK TIMES` does some work so many times on a
//! section, and prints what it counted and a sum over it.
//!
//! | WORK | Does | Counts | Sums |
//! |---|---|---|---|
//! | `make` | makes the index of one program | starts | bytes |
//! | `open` | opens one index, with bytes after it | starts | |
//! | `find` | finds 10,000 addresses at random | those found | lines and sizes of paths |

use crate::lookup::Tally;
use crate::order::{INDEX, OrderOf};
use crate::parse;
use gimli_core::{EndianSlice, Reader};
use gimli_index::{LineIndex, write_index};
use gimli_line::DebugLine;
use gimli_lookup::{Program, StringSections};
use std::alloc::Global;
use std::io::ErrorKind;
use std::{fs, io};

/// How many addresses are found each time.
const ADDRESSES: u64 = 10_000;

/// Does some work so many times on a section, and prints what the last time counted.
pub fn run(rt: &HostRuntime, path: &str, work: &str, times: &str) -> io::Result<()> {
    let times = parse(times)?;
    let section = fs::read(rt, path)?;
    let line = DebugLine::new(&section, OrderOf::<INDEX>);
    let none = EndianSlice::new(&[], OrderOf::<INDEX>);
    match do_work(rt.alloc(), &line, none, work, times) {
        Some(tally) => println!(rt; "count {} sum {}", tally.count, tally.sum),
        None => Err(io::Error::from(ErrorKind::InvalidData)),
    }
}

/// Does the work so many times. `none` is a reader of no bytes: the strings stand in the section.
/// None where the section or memory refuses it.
fn do_work<R: Reader>(
    alloc: Global,
    section: &DebugLine<R>,
    none: R,
    work: &str,
    times: u64,
) -> Option<Tally> {
    let strings = StringSections {
        debug_line_str: none,
        debug_str: none,
    };
    let program = Program::new(alloc, section, strings, 8, 0).ok()?;
    let mut bytes = index_of(&program)?;
    bytes.extend_from_slice(&[0; 8]).ok()?;
    match work {
        "make" => indexes(&program, times),
        "open" => Some(openings(&bytes, times)),
        _ => Some(findings(&bytes, times)),
    }
}

/// The index of a program.
fn index_of<R: Reader>(program: &Program<R>) -> Option<Vec<u8>> {
    let mut bytes = Vec::new(program.allocator());
    write_index(program, 8, b"", usize::MAX, &mut bytes).ok()?;
    Some(bytes)
}

/// Makes the index of a program so many times.
fn indexes<R: Reader>(program: &Program<R>, times: u64) -> Option<Tally> {
    let mut tally = Tally::default();
    for _ in 0..times {
        let bytes = index_of(program)?;
        tally.sum = bytes.len() as u64;
        tally.count = opening(&bytes).map_or(0, |index| index.len() as u64);
    }
    Some(tally)
}

/// Opens an index.
#[inline(never)]
fn opening(bytes: &[u8]) -> Option<LineIndex<'_>> {
    LineIndex::open(bytes).ok()
}

/// Opens an index so many times, with one to eight bytes after it.
fn openings(bytes: &[u8], times: u64) -> Tally {
    let mut tally = Tally::default();
    for time in 0..times {
        let end = bytes.len().saturating_sub((time % 8) as usize);
        if let Some(index) = opening(&bytes[..end]) {
            tally.count = tally.count.wrapping_add(index.len() as u64);
        }
    }
    tally
}

/// Finds addresses so many times.
fn findings(bytes: &[u8], times: u64) -> Tally {
    let mut tally = Tally::default();
    let Ok(index) = LineIndex::open(bytes) else {
        return tally;
    };
    let last = index.len().saturating_sub(1);
    let (Some(first), Some(last)) = (index.get(0), index.get(last)) else {
        return tally;
    };
    let length = last.address.saturating_sub(first.address);
    for _ in 0..times {
        tally = find_all(&index, first.address, length);
    }
    tally
}

/// Finds addresses at random, from the lowest one on.
fn find_all(index: &LineIndex<'_>, lowest: u64, length: u64) -> Tally {
    let mut tally = Tally::default();
    let mut random: u64 = 1;
    for _ in 0..ADDRESSES {
        random = random
            .wrapping_mul(6_364_136_223_846_793_005)
            .wrapping_add(1_442_695_040_888_963_407);
        let address = lowest.wrapping_add((random >> 11).checked_rem(length).unwrap_or(0));
        if let Some(place) = index.find(address) {
            let size = place.path.map_or(0, |path| path.len());
            tally.add(u64::from(place.line).wrapping_add(size as u64));
        }
    }
    tally
}
