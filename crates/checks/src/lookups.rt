//! Lookups over a reader of one's own, and copies and lookups of many of each thing. There is
//! memory for them, so a refusal by `OutOfMemory` would be wrong; no contract says so.

ghost use Rattle.std.specs.Prelude.{◌<◌, IsTrue, length};

use crate::readers::NarrowReader;
use crate::units::{many_entries, program, slice};
use crate::{Found, first_false};
use gimli_core::{EndianSlice, Endianity, Error, LittleEndian, Reader, Result};
use gimli_line::{DebugLine, IncompleteLineProgram, LineProgramHeader};
use gimli_lookup::{Addresses, Lookup, ProgramPaths, SectionLookup, StringSections};
use std::alloc::Global;

// ---- a unit over a reader of one's own

/// A unit of version 4 with the file `a.c`: the rows 0x1000, of line 1, and 0x1004, of line 3, and
/// an end at 0x1008.
pub(crate) const DEMO: &[u8] =
    b"\x2f\0\0\0\x04\0\x1b\0\0\0\x01\x01\x01\xfb\x0e\x0d\0\x01\x01\x01\x01\0\0\0\x01\0\0\x01\0\
      a.c\0\0\0\0\0\0\x05\x02\0\x10\0\0\x01\x4c\x02\x04\0\x01\x01";

/// The address of the row that covers an address in a section.
fn covering<R: Reader>(alloc: Global, section: &DebugLine<R>, address: u64) -> Result<Option<u64>> {
    let found = SectionLookup::new(section, alloc, 4, 0)?.find(address);
    Ok(found.map(|found| found.row.address()))
}

/// Whether a row is found over offsets of 32 bits.
pub fn narrow_unit(alloc: Global) -> Found {
    let owned = DebugLine::from(Vec::from_slice(alloc, DEMO)?);
    let section = owned.borrow(|bytes| NarrowReader::new(bytes));
    let found = covering(alloc, &section, 0x1005)?;
    Ok(first_false(&[found == Some(0x1004)]))
}

/// Units of version 5 and the 64-bit format: one with the greatest offset of a text that 32 bits
/// hold, and one with an index that they don't.
const WIDE: [&[u8]; 2] = [
    b"\xff\xff\xff\xff\x22\0\0\0\0\0\0\0\x05\0\x04\0\x16\0\0\0\0\0\0\0\x01\x01\x01\0\x01\x01\
        \x01\x01\x0e\x01\xff\xff\xff\xff\0\0\0\0\x01\x01\x08\0",
    b"\xff\xff\xff\xff\x1f\0\0\0\0\0\0\0\x05\0\x04\0\x13\0\0\0\0\0\0\0\x01\x01\x01\0\x01\x01\
        \x01\x01\x1a\x01\x80\x80\x80\x80\x10\x01\x01\x08\0",
];

/// Why a unit is refused.
fn refusal<R: Reader>(alloc: Global, unit: R) -> Option<Error> {
    program(alloc, unit, None).err()
}

/// The first unit that is refused otherwise.
pub fn wide_numbers(alloc: Global) -> Found {
    let refusals = WIDE.map(|unit| refusal(alloc, NarrowReader::new(unit)));
    Ok(first_false(&[refusals == [None, Some(Error::UnsupportedOffset)]]))
}

// ---- many of each thing

/// How many entries a unit has of each kind: past each power of two that a length could stop at.
const MANY: usize = 70_000;

/// The last address of the sequence of many rows.
const LAST: u64 = 70_016;

/// How many directories and files a header has.
fn counts<R: Reader>(header: &LineProgramHeader<R>) -> (usize, usize) {
    let directories = header.include_directories().len();
    (directories, header.file_names().len())
}

/// The first of these that isn't copied with all of them: a run of a copy of a program, a complete
/// program and its header.
fn copied<R: Reader>(program: IncompleteLineProgram<R>) -> Result<Option<usize>> {
    let run = program.clone().and_then(|copy| copy.rows().clone());
    let run = run.map(|copy| counts(copy.header()));
    let (complete, _) = program.sequences()?;
    let program = complete.clone().map(|copy| counts(copy.header()));
    let header = complete.header().clone().map(|copy| counts(&copy));
    Ok(first_false(&[
        run == Ok((MANY, MANY)),
        program == Ok((MANY, 2 * MANY)),
        header == Ok((MANY, 2 * MANY)),
    ]))
}

/// Whether line 1 begins at each second row of the first and the last sequence, whose addresses are
/// the same, and at the first row of each other, which is at 0x10: each address is given once.
fn are_all(found: Result<Option<Addresses>>) -> bool {
    match found {
        Ok(Some(found)) => found.line == 1 && found.addresses.len() == MANY / 2 + 1,
        _ => false,
    }
}

/// What a lookup of one program, or its file, has otherwise.
fn of_program<R: Reader>(program: IncompleteLineProgram<R>) -> Result<Option<usize>> {
    let file = program.header().file_names().first();
    let details = file.map(|file| (file.last_modification(), file.length()));
    let lookup = Lookup::new(program)?;
    let found = lookup.find(LAST).map(|(row, _)| row.address());
    Ok(first_false(&[
        found == Some(LAST) && details == Some((7, 9)),
        lookup.sequences().len() == MANY + 2,
        are_all(lookup.addresses_of_file(1, 1)),
    ]))
}

/// Whether a lookup has a unit.
fn has_unit<R: Reader>(lookup: &SectionLookup<R>) -> bool
    ensures { IsTrue result → 0 < length lookup.now }
{
    let count = lookup.units().len();
    0 < count
}

/// Whether line 1 is found in a lookup of a section, by the number of its file and by its path. The
/// reader has no bytes.
fn finds_line<R: Reader>(lookup: &SectionLookup<R>, empty: R) -> [bool; 2] {
    let strings = StringSections {
        debug_line_str: empty,
        debug_str: empty,
    };
    let of_file = has_unit(lookup) && are_all(lookup.addresses_of_file(0, 1, 1));
    let of_path = match ProgramPaths::new(strings) {
        Ok(paths) => are_all(lookup.addresses_of(&paths, b"\x01\x01\x01/\x01\x01\x01", 1)),
        Err(_) => false,
    };
    [of_file, of_path]
}

/// What a lookup of a section has otherwise, from a line to addresses, or without its headers.
fn of_section<E: Endianity>(lookup: SectionLookup<EndianSlice<'_, E>>, order: E) -> Option<usize> {
    let [of_file, of_path] = finds_line(&lookup, EndianSlice::new(&[], order));
    let found = match lookup.without_headers() {
        Ok(bare) => bare.find(LAST).map(|found| found.row.address()),
        Err(_) => None,
    };
    first_false(&[of_file, of_path, found == Some(LAST)])
}

/// What copies of a unit have otherwise, or a lookup of its program.
fn of_programs<R: Reader>(alloc: Global, unit: R) -> Result<Option<usize>> {
    let failed = copied(program(alloc, unit, None)?)?;
    Ok(failed.or(of_program(program(alloc, unit, None)?)?))
}

/// What copies of a unit of many entries have otherwise, or a lookup of its program or of its
/// section.
pub fn many(alloc: Global) -> Found {
    let unit = many_entries(alloc, MANY, [3_080_050, 770_020])?;
    let failed = of_programs(alloc, slice(&unit))?;
    let lookup = SectionLookup::new(&DebugLine::from(slice(&unit)), alloc, 4, 0)?;
    Ok(failed.or(of_section(lookup, LittleEndian)))
}
