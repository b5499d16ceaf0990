//! The section that a command reads, and the programs of its units.

ghost use Rattle.std.specs.Prelude.{◌≡◌, Err, IsNone};

use crate::refusal::Refusal;
use gimli_core::{DebugLineOffset, EndianSlice, Reader, RunTimeEndian};
use gimli_line::{DebugLine, IncompleteLineProgram};
use line_text::{AddressSize, UnitLocation};
use std::alloc::Global;
use std::io::Read;

/// The bytes of the file.
pub(crate) fn read_section<F: Read + Drop>(
    alloc: Global,
    file: Option<F>,
) -> Result<Vec<u8>, Refusal>
    ensures no_file { IsNone file → result ≡ Err Refusal.File }
{
    let mut section = Vec::new(alloc);
    match file.ok_or(Refusal::File)?.read_to_end(&mut section) {
        Ok(_) => Ok(section),
        Err(e) => Err(Refusal::of_reading(&e)),
    }
}

/// The program of a unit, without a directory or a name from outside.
pub(crate) fn program_at<'i>(
    alloc: Global,
    section: &'i [u8],
    location: UnitLocation,
) -> Result<IncompleteLineProgram<EndianSlice<'i, RunTimeEndian>>, Refusal> {
    let section = DebugLine::new(section, location.order);
    let offset = DebugLineOffset(location.offset);
    program_of(alloc, &section, offset, location.address_size)
}

/// The same for any reader.
fn program_of<R: Reader>(
    alloc: Global,
    section: &DebugLine<R>,
    offset: DebugLineOffset<R::Offset>,
    address_size: AddressSize,
) -> Result<IncompleteLineProgram<R>, Refusal> {
    section
        .program(alloc, offset, address_size.bytes(), None, None)
        .map_err(|e| Refusal::of_unit(e, Refusal::Header))
}
