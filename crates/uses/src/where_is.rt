//! From the addresses of a program to `path:line:column`.
#![tactic(auto)]

ghost use Rattle.std.specs.Prelude.{◌≡◌, IfOk, option_map};
ghost use Rattle.gimli_lookup.specs.FirstPair.{first_pair_of};
ghost use Rattle.gimli_lookup.specs.Section.{all_sequences};

use anyhow::bail;
use elf_sections::{Elf, ElfError};
use gimli_compilation::{CompilationSections, Compilations};
use gimli_core::{EndianSlice, LittleEndian, Reader};
use gimli_line::{DebugLine, LineRow};
use gimli_lookup::laws::found_among_all;
use gimli_lookup::{PathError, Program, StringSections};
use std::alloc::Global;
use std::fmt::Write;
use std::fs;

type Result<T, E = ElfError> = std::result::Result<T, E>;

/// Reads an ELF file, and prints a line for each address, which is given in hexadecimal digits.
pub fn start(rt: &HostRuntime, words: &[String], text: &mut String) -> anyhow::Result<()> {
    let [file, addresses @ ..] = words else {
        bail!("usage: where_is FILE ADDRESS..");
    };
    let file = fs::read(rt, file.as_str())?;
    let program = program_of(rt.alloc(), &file)?;
    print_places(rt.alloc(), &program, addresses, text)
}

/// Adds a line for each address.
fn print_places<R: Reader>(
    alloc: Global,
    program: &Program<R>,
    addresses: &[String],
    text: &mut String,
) -> anyhow::Result<()> {
    for address in addresses {
        let address = u64::from_str_radix(address.as_str(), 16)?;
        print_place(alloc, program, address, text)?;
    }
    Ok(())
}

/// What is kept of an ELF file whose addresses have 8 bytes. Addresses below the lowest one of its
/// code are those of code that a linker dropped.
pub fn program_of<'a>(
    alloc: Global,
    file: &'a [u8],
) -> Result<Program<EndianSlice<'a, LittleEndian>>> {
    let elf = Elf::parse(file)?;
    let lines = DebugLine::from(section(&elf, b".debug_line")?);
    let strings = StringSections {
        debug_line_str: section(&elf, b".debug_line_str")?,
        debug_str: section(&elf, b".debug_str")?,
    };
    let lowest = elf.lowest_code_address().unwrap_or(0);
    let Ok(mut program) = Program::new(alloc, &lines, strings, 8, lowest) else {
        return Err(ElfError::OutOfMemory);
    };
    if program.needs_compilations() {
        program.set_compilations(compilations_of(alloc, elf)?);
    }
    Ok(program)
}

/// The directories of the compilations of an ELF file.
fn compilations_of<'a>(
    alloc: Global,
    elf: Elf<'a>,
) -> Result<Compilations<EndianSlice<'a, LittleEndian>>> {
    let sections = CompilationSections {
        debug_info: section(&elf, b".debug_info")?,
        debug_abbrev: section(&elf, b".debug_abbrev")?,
        debug_str: section(&elf, b".debug_str")?,
        debug_line_str: section(&elf, b".debug_line_str")?,
        debug_str_offsets: section(&elf, b".debug_str_offsets")?,
    };
    Compilations::new(alloc, &sections).map_err(|_| ElfError::OutOfMemory)
}

/// A section of an ELF file; no bytes where it has none of this name.
fn section<'a>(elf: &Elf<'a>, name: &[u8]) -> Result<EndianSlice<'a, LittleEndian>> {
    let bytes = elf.section(name)?.unwrap_or(&[]);
    Ok(EndianSlice::new(bytes, LittleEndian))
}

/// Adds the line of an address.
fn print_place<R: Reader>(
    alloc: Global,
    program: &Program<R>,
    address: u64,
    text: &mut String,
) -> Result<(), PathError> {
    let Some((path, row)) = source_at(alloc, program, address)? else {
        return Ok(writeln!(text, "{address:#x} ??")?);
    };
    print_source(alloc, address, &path, &row, text)
}

/// Adds the line of an address that a row covers.
fn print_source(
    alloc: Global,
    address: u64,
    path: &[u8],
    row: &LineRow,
    text: &mut String,
) -> Result<(), PathError> {
    let path = String::from_utf8_lossy(alloc, path)?;
    let line = row.line().map_or(0, |line| line.get());
    let column = row.column().number();
    Ok(writeln!(text, "{address:#x} {path}:{line}:{column}")?)
}

/// Where the code at an address comes from: the row that covers it, and the whole path of its file.
/// None where no row covers it. Refused where its file has no path.
fn source_at<R: Reader>(
    alloc: Global,
    program: &Program<R>,
    address: u64,
) -> Result<Option<(Vec<u8>, LineRow)>, PathError>
    ensures { IfOk result (λ source. option_map (λ source. source.1) source
        ≡ option_map (λ pair. pair.0) (first_pair_of address (all_sequences program.now.lookup))) }
{
    found_among_all();
    let Some(place) = program.place(address) else {
        return Ok(None);
    };
    let path = place.path(alloc)?;
    Ok(Some((path, place.rows.row)))
}
