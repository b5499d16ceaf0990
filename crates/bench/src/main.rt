//! The program `bench`: does some work a given number of times, so that its instructions can be
//! counted.
//!
//! - `read FILE TIMES [sequences]` runs the rows of all units of a section, or cuts these units
//!   into their sequences.
//! - `write SEQUENCES` builds a program of so many sequences and writes it, seven times.
//! - `build KIND VERSION COUNT` builds a program with COUNT files, directories or rows, and writes
//!   it.
//! - `convert FILE OFFSET TIMES` reads a unit, converts it and writes it.
//! - `lookup FILE OFFSET WORK TIMES` does one work of a lookup on a unit, or on a section.
//! - `index FILE WORK TIMES` does one work of an index that is bytes on a section.
//! - `stored` does each of these once, on the files of the stored run.
//!
//! Sections are in little-endian order, with addresses of eight bytes. Standard output has what was
//! counted and a sum over it, so that no work is left out. To count the instructions of a work,
//! subtract those of fewer times from those of more: the rest drops out.
#![tactic(auto)]

mod build;
mod convert;
mod index;
mod lookup;
mod order;
mod read;
mod write;

use std::io::ErrorKind;
use std::process::ExitCode;
use std::{env, io};

fn main(rt: HostRuntime) -> ExitCode {
    match start(&rt) {
        Ok(()) => ExitCode::from(0),
        Err(_) => ExitCode::from(1),
    }
}

/// Does the work that the words after the program's name ask for; for `stored` each kind of work,
/// on the files of the stored run.
fn start(rt: &HostRuntime) -> io::Result<()> {
    let arguments: Vec<String> = env::args(rt)?.collect(rt.alloc())?;
    let mut words = Vec::new(rt.alloc());
    for word in arguments.iter().skip(1) {
        words.push(word.as_str())?;
    }
    match words.as_slice() {
        ["stored"] => {}
        words => return perform(rt, words),
    }
    perform(rt, &["read", "two_units.section", "2"])?;
    perform(rt, &["write", "2"])?;
    perform(rt, &["build", "files_in_line_str", "5", "3"])?;
    perform(rt, &["build", "directories", "4", "3"])?;
    perform(rt, &["build", "rows", "2", "3"])?;
    perform(rt, &["build", "traps", "5", "3"])?;
    perform(rt, &["build", "first_refusal", "3"])?;
    perform(rt, &["convert", "unit.section", "0", "2"])?;
    perform(rt, &["lookup", "demo.section", "0", "find", "1"])?;
    perform(rt, &["index", "demo.section", "find", "1"])
}

/// Does the work that words ask for.
fn perform(rt: &HostRuntime, words: &[&str]) -> io::Result<()> {
    match words {
        ["read", path, times] => read::run(rt, path, times, read::What::Rows),
        ["read", path, times, "sequences"] => read::run(rt, path, times, read::What::Sequences),
        ["write", sequences] => write::run(rt, sequences),
        ["build", "traps", version, count] => build::ask_traps(rt, version, count),
        ["build", "first_refusal", count] => build::ask_first_refusal(rt, count),
        ["build", kind, version, count] => build::run(rt, kind, version, count),
        ["convert", path, offset, times] => convert::run(rt, path, offset, times),
        ["index", path, work, times] => index::run(rt, path, work, times),
        ["lookup", path, offset, work, times] => lookup::run(rt, path, offset, work, times),
        _ => Err(io::Error::from(ErrorKind::InvalidInput)),
    }
}

/// How many times, how many sequences, or the offset of a unit.
fn parse(word: &str) -> io::Result<u64> {
    match word.parse::<u64>() {
        Ok(number) => Ok(number),
        Err(_) => Err(io::Error::from(ErrorKind::InvalidInput)),
    }
}

/// Prints the length of a section that was written, and a sum in which each byte and its place
/// count.
fn print_sum(rt: &HostRuntime, section: &[u8]) -> io::Result<()> {
    let mut sum: u64 = 0;
    for byte in section {
        sum = sum.rotate_left(1).wrapping_add(u64::from(*byte));
    }
    println!(rt; "bytes {} sum {sum}", section.len())
}
