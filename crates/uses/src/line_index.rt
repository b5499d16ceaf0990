//! The index of the lines of a program: made, opened, checked, and queried.
#![tactic(auto)]

use crate::where_is::program_of;
use anyhow::{Result, bail};
use gimli_index::{LineIndex, Place, write_index};
use std::alloc::Global;
use std::fmt::Write;
use std::fs;

/// Makes the index of an ELF file, and prints what it says: the addresses at which the code of a
/// line begins, and where the code at an address, of hexadecimal digits, comes from.
pub fn start(rt: &HostRuntime, words: &[String], text: &mut String) -> Result<()> {
    let [file, path, line, address] = words else {
        bail!("usage: line_index FILE PATH LINE ADDRESS");
    };
    let line = line.as_str().parse::<u64>()?;
    let address = u64::from_str_radix(address.as_str(), 16)?;
    let file = fs::read(rt, file.as_str())?;
    let bytes = map_of(rt.alloc(), &file)?;
    let index = LineIndex::open(&bytes)?;
    index.check()?;
    print_line(index, path.as_str(), line, text)?;
    print_place(rt.alloc(), index.find(address), text)
}

/// The bytes of the index of an ELF file whose addresses have 8 bytes.
fn map_of(alloc: Global, file: &[u8]) -> Result<Vec<u8>> {
    let program = program_of(alloc, file)?;
    let mut bytes = Vec::new(alloc);
    write_index(&program, 8, b"", usize::MAX, &mut bytes)?;
    Ok(bytes)
}

/// Adds the addresses at which the code of a line begins, or of the next line that has any.
fn print_line(index: LineIndex<'_>, path: &str, line: u64, text: &mut String) -> Result<()> {
    let Some(found) = index.addresses_of(path.as_bytes(), line) else {
        return Ok(writeln!(text, "no code from line {line} on")?);
    };
    let line = found.line();
    for address in found {
        writeln!(text, "line {line} begins at {address:#x}")?;
    }
    Ok(())
}

/// Adds a place, and whether it is a statement.
fn print_place(alloc: Global, place: Option<Place<'_>>, text: &mut String) -> Result<()> {
    let Some(place) = place else {
        return Ok(writeln!(text, "??")?);
    };
    let path = String::from_utf8_lossy(alloc, place.path.unwrap_or(b"?"))?;
    let line = place.line;
    let column = place.column;
    let statement = if place.is_stmt { " statement" } else { "" };
    Ok(writeln!(text, "{path}:{line}:{column}{statement}")?)
}
