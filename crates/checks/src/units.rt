//! Units to be read, each a header and a program after it, and their programs.

ghost use Rattle.std.specs.Prelude.{◌≢◌, All};

use gimli_core::{DebugLineOffset, EndianSlice, LittleEndian, Reader, ReaderOffset, Result};
use gimli_line::{DebugLine, IncompleteLineProgram};
use gimli_write::ConvertResult;
use std::alloc::Global;

/// A reader of bytes.
pub fn slice(bytes: &[u8]) -> EndianSlice<'_, LittleEndian> {
    EndianSlice::new(bytes, LittleEndian)
}

/// A unit of version 4 with the file `a.c`: an address of 0x10 with a row, an address of 0x1020
/// with a row, and an end 4 bytes after it.
pub const TWO_ADDRESSES: &[u8] =
    b"\x38\0\0\0\x04\0\x1b\0\0\0\x01\x01\x01\xfb\x0e\x0d\0\x01\x01\x01\x01\0\0\0\x01\0\0\x01\0\
      a.c\0\0\0\0\0\0\x05\x02\x10\0\0\0\x01\x02\x04\0\x05\x02\x20\x10\0\0\x01\x02\x04\0\x01\x01";

/// The program at the front of a section, with addresses of four bytes.
pub fn program<R: Reader>(
    alloc: Global,
    section: R,
    directory: Option<R>,
) -> Result<IncompleteLineProgram<R>> {
    let offset = DebugLineOffset(R::Offset::from_u8(0));
    DebugLine::from(section).program(alloc, offset, 4, directory, None)
}

/// The string of a number, a different one for each number.
pub fn text_of(number: usize) -> [u8; 3]
    ensures { All (λ b. b ≢ 0) result }
{
    [digit(number), digit(number / 128), digit(number / 16384)]
}

fn digit(number: usize) -> u8
    ensures { result ≢ 0 }
{
    (number % 128) as u8 + 1
}

/// Appends an entry for each number, with its text between these bytes.
fn put_each(unit: &mut Vec<u8>, count: usize, before: &[u8], after: &[u8]) -> ConvertResult<()> {
    for number in 0..count {
        unit.extend_from_slice(before)?;
        unit.extend_from_slice(&text_of(number))?;
        unit.extend_from_slice(after)?;
    }
    Ok(())
}

/// A file that is defined, after its name, and a sequence: an address of 0x10 with a row, an
/// address of 0x20 with a row, and an end.
const AFTER_NAME: &[u8] =
    b"\0\x02\0\0\0\x05\x02\x10\0\0\0\x01\0\x05\x02\x20\0\0\0\x01\x02\x04\0\x01\x01";

/// Appends a sequence of so many rows, at 0x11 and each address after it, by turns of line 2 and of
/// line 1.
fn put_rows(unit: &mut Vec<u8>, count: usize) -> ConvertResult<()> {
    unit.extend_from_slice(b"\0\x05\x02\x10\0\0\0")?;
    for _ in 0..count / 2 {
        unit.extend_from_slice(b"\x21\x1f")?;
    }
    unit.extend_from_slice(b"\x02\x01\0\x01\x01")?;
    Ok(())
}

/// A unit of version 4 with so many directories, files of the first one, whose times are 7 and
/// sizes 9, rows of a sequence, sequences with a file of the second one, and rows of a sequence.
/// The lengths are those of the unit, 50 and 44 for each of the `count`, and of its header, 20 and
/// 11 for each.
pub fn many_entries(alloc: Global, count: usize, lengths: [u32; 2]) -> ConvertResult<Vec<u8>> {
    let mut unit = Vec::from_slice(alloc, &lengths[0].to_le_bytes())?;
    unit.extend_from_slice(b"\x04\0")?;
    unit.extend_from_slice(&lengths[1].to_le_bytes())?;
    unit.extend_from_slice(b"\x01\x01\x01\xfb\x0e\x0d\0\x01\x01\x01\x01\0\0\0\x01\0\0\x01")?;
    put_each(&mut unit, count, b"", b"\0")?;
    unit.push(0)?;
    put_each(&mut unit, count, b"", b"\0\x01\x07\x09")?;
    unit.push(0)?;
    put_rows(&mut unit, count)?;
    put_each(&mut unit, count, b"\0\x08\x03", AFTER_NAME)?;
    put_rows(&mut unit, count)?;
    Ok(unit)
}
