//! Which sections whole paths need. Few programs need `.debug_info`, which is most of a file's
//! debug information, or `.debug_str`.

use gimli_core::{DW_FORM_strp, EndianSlice, Reader, RunTimeEndian};
use gimli_line::{DebugLine, FileEntryFormat, IncompleteLineProgram, LineProgramHeader, LineUnits};
use gimli_lookup::{StringSections, some_need_directory};
use std::alloc::Global;

/// The order of bytes, by whether the most significant one comes first.
fn order(is_big_endian: bool) -> RunTimeEndian {
    if is_big_endian {
        RunTimeEndian::Big
    } else {
        RunTimeEndian::Little
    }
}

/// Whether something of a table is in `.debug_str`.
fn name_strings(formats: &[FileEntryFormat]) -> bool {
    formats.iter().any(|format| format.form == DW_FORM_strp)
}

/// Whether the tables of a header name texts of `.debug_str` (DWARF 5, section 7.5.5:
/// `DW_FORM_strp`), so that the paths of its files need that section.
pub fn needs_strings<R: Reader>(header: &LineProgramHeader<R>) -> bool {
    name_strings(header.directory_entry_format()) || name_strings(header.file_name_entry_format())
}

/// Whether the tables of a unit name texts of `.debug_str`. One that can't be read names none.
fn is_named<R: Reader>(program: gimli_core::Result<IncompleteLineProgram<R>>) -> bool {
    match program {
        Ok(program) => needs_strings(program.header()),
        Err(_) => false,
    }
}

/// Whether the tables of some of these units name texts of `.debug_str`, or memory is missing.
fn some_is_named<R: Reader>(mut units: LineUnits<R>) -> bool {
    for _ in 0..u64::MAX {
        match units.next() {
            Ok(Some(unit)) => {
                if is_named(unit.program) {
                    return true;
                }
            }
            Ok(None) => return false,
            Err(_) => return true,
        }
    }
    true
}

/// Line programs, and what they are read with.
#[derive(Clone, Copy)]
pub struct LinePrograms<'a> {
    /// Makes memory for the headers.
    pub alloc: Global,
    /// The section `.debug_line`.
    pub lines: &'a [u8],
    /// The section `.debug_line_str`.
    pub line_str: &'a [u8],
    /// Whether the most significant byte comes first.
    pub is_big_endian: bool,
    /// Whether addresses have 8 bytes, and not 4.
    pub is_64_bit: bool,
}

impl<'a> LinePrograms<'a> {
    /// Whether paths need `.debug_str`: a header names strings there. Also true if memory is
    /// missing.
    pub fn need_strings(self) -> bool {
        some_is_named(self.units())
    }

    /// Whether paths need the units of `.debug_info`: some header has no directory of its
    /// compilation, as `Paths::needs_directory` says. Also true if memory is missing.
    pub fn need_units(self, strings: &'a [u8]) -> bool {
        let sections = StringSections {
            debug_line_str: EndianSlice::new(self.line_str, order(self.is_big_endian)),
            debug_str: EndianSlice::new(strings, order(self.is_big_endian)),
        };
        some_need_directory(self.units(), &sections).unwrap_or(true)
    }

    /// The units.
    fn units(self) -> LineUnits<EndianSlice<'a, RunTimeEndian>> {
        let address_size = if self.is_64_bit { 8 } else { 4 };
        let section = DebugLine::new(self.lines, order(self.is_big_endian));
        section.units(self.alloc, address_size)
    }
}
