//! Places of a program, and the lines of its files, before and after directories are set; and which
//! of these the paths of found rows need.

use crate::lookups::DEMO;
use crate::units::slice;
use crate::{Found, first_false};
use gimli_compilation::{CompilationSections, Compilations};
use gimli_core::{EndianSlice, LittleEndian, Reader, Result};
use gimli_line::DebugLine;
use gimli_lookup::{Program, StringSections, find_in_section};
use std::alloc::Global;

/// A unit of `.debug_info` whose line program is at 0 and whose directory is `/w`.
const INFO: &[u8] = b"\x0f\0\0\0\x04\0\0\0\0\0\x04\x01\0\0\0\0/w\0";

/// Its declaration in `.debug_abbrev`.
const ABBREV: &[u8] = b"\x01\x11\0\x10\x17\x1b\x08\0\0\0";

/// A unit of version 5 whose directory 0 is `/w`, without rows.
const WITH_DIRECTORY: &[u8] =
    b"\x19\0\0\0\x05\0\x04\0\x11\0\0\0\x01\x01\x01\0\x01\x01\x01\x01\x08\x01/w\0\x01\x01\x08\0";

/// A unit of version 5 whose directory 0 is `/w`, with rows of the file `/w/a.c` from 0x2000 to
/// 0x2008.
const WITH_ROWS: &[u8] =
    b"\x2e\0\0\0\x05\0\x04\0\x19\0\0\0\x01\x01\x01\0\x01\x01\x01\x01\x08\x01/w\0\x01\x01\x08\x02\
      b.c\0a.c\0\0\x05\x02\0\x20\0\0\x01\x05\x05\0\x01\x01";

/// A program whose strings stand in its section.
fn program_of<'a>(
    alloc: Global,
    section: &'a [u8],
) -> Result<Program<EndianSlice<'a, LittleEndian>>> {
    let strings = StringSections {
        debug_line_str: slice(&[]),
        debug_str: slice(&[]),
    };
    Program::new(alloc, &DebugLine::from(slice(section)), strings, 4, 0)
}

/// The directories of `INFO`.
fn directories<'a>(alloc: Global) -> Result<Compilations<EndianSlice<'a, LittleEndian>>> {
    let sections = CompilationSections {
        debug_info: slice(INFO),
        debug_abbrev: slice(ABBREV),
        debug_str: slice(&[]),
        debug_line_str: slice(&[]),
        debug_str_offsets: slice(&[]),
    };
    Compilations::new(alloc, &sections)
}

/// Whether 0x1005 is in line 3 of a file of version 4 that has this path, and line 1 of it begins
/// at 0x1000.
fn has_path<R: Reader>(alloc: Global, program: &Program<R>, path: &[u8]) -> bool {
    let Some(place) = program.place(0x1005) else {
        return false;
    };
    let Ok(whole) = place.path(alloc) else {
        return false;
    };
    let Ok(Some(begin)) = program.addresses_of(path, 1) else {
        return false;
    };
    place.rows.row.line().map_or(0, |line| line.get()) == 3
        && place.header().map(|header| header.version()) == Some(4)
        && whole.as_slice() == path
        && begin.addresses.as_slice() == [0x1000].as_slice()
}

/// What is wrong with a program that needs the directory of a compilation, before and after that is
/// set.
fn first_wrong<R: Reader>(
    alloc: Global,
    program: &mut Program<R>,
    directories: Compilations<R>,
) -> Option<usize> {
    let needs = program.needs_compilations();
    let before = has_path(alloc, program, b"a.c");
    program.set_compilations(directories);
    first_false(&[
        needs,
        before,
        has_path(alloc, program, b"/w/a.c"),
        !has_path(alloc, program, b"a.c"),
        program.place(0x1008).is_none(),
        program.paths().directory_of(1).is_none(),
    ])
}

/// What `first_wrong` finds if the directory is `/w`.
fn first_wrong_with_directory(
    alloc: Global,
    program: &mut Program<EndianSlice<'_, LittleEndian>>,
) -> Found {
    Ok(first_wrong(alloc, program, directories(alloc)?))
}

/// What is otherwise of a program that needs no directory, or of one that needs it.
pub fn late_directories(alloc: Global) -> Found {
    if program_of(alloc, WITH_DIRECTORY)?.needs_compilations() {
        return Ok(Some(6));
    }
    let mut program = program_of(alloc, DEMO)?;
    first_wrong_with_directory(alloc, &mut program)
}

/// Whether the path of an address needs the directory of its compilation. None where it is covered
/// by no rows.
fn needs_at<R: Reader>(program: &Program<R>, address: u64) -> Option<bool> {
    let place = program.place(address)?;
    Some(place.needs_compilation())
}

/// Whether some path of what one run finds at addresses needs the directory of its compilation,
/// and whether the path of what is found at the last of them does.
fn need_in_run<R: Reader>(
    alloc: Global,
    section: &DebugLine<R>,
    program: &Program<R>,
    addresses: &[u64],
) -> Result<[bool; 2]> {
    let found = find_in_section(section, alloc, 4, 0, addresses)?;
    let paths = program.paths();
    let last = match found.rows.last() {
        Some(Some(rows)) => paths.found_needs(&found.units, rows),
        _ => false,
    };
    Ok([found.need_compilations(paths), last])
}

/// What is otherwise of the paths of a program of two units: those at 0x2000 need no directory, and
/// those at 0x1000 do.
fn first_wrong_need(alloc: Global, section: &[u8]) -> Found {
    let lines = DebugLine::from(slice(section));
    let program = program_of(alloc, section)?;
    let of_first = need_in_run(alloc, &lines, &program, &[0x2005, 0x3000, 0x2007])?;
    let of_both = need_in_run(alloc, &lines, &program, &[0x3000, 0x2005, 0x1005])?;
    Ok(first_false(&[
        program.needs_compilations(),
        needs_at(&program, 0x2005) == Some(false),
        needs_at(&program, 0x1005) == Some(true),
        needs_at(&program, 0x3000).is_none(),
        of_first == [false, false],
        of_both == [true, true],
    ]))
}

/// What is otherwise of the directories that found rows need.
pub fn found_needs(alloc: Global) -> Found {
    let mut section = Vec::from_slice(alloc, WITH_ROWS)?;
    section.extend_from_slice(DEMO)?;
    first_wrong_need(alloc, &section)
}
