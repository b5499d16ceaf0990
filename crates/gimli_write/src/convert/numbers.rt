//! The numbers that the files of a source have once it is converted.

ghost use Rattle.std.specs.Prelude.{IsTrue, ◌≡◌, ◌↔◌, nat_le, nat_eq, ◌&&◌, ◌||◌};
ghost use Rattle.gimli_build.specs.FileNumber.{file_number};
ghost use Rattle.gimli_write.specs.convert.SourceTables.{written_number, AreNumbersKept};

use crate::convert::tables::file_at;
use gimli_build::{FileId, LineProgram};

/// The number that a file of the source has in the rows of the program that was built of it, by the
/// ids that a conversion returns: `None` where the source, which is of this version, has no file of
/// its number. `DW_AT_decl_file` and `DW_AT_call_file` of the unit's entries have to be changed to
/// it (DWARF 5, section 2.14).
pub fn written_number(
    program: &LineProgram,
    files: &[FileId],
    source_version: u16,
    number: u64,
) -> Option<u64>
    ensures { result
        ≡ written_number source_version program.now.encoding.version files.now number }
{
    if source_version <= 4 && number == 0 {
        return None;
    }
    let id = file_at(files, number)?;
    Some(id.raw(program.version()))
}

/// Whether each file of the source has its old number in the program: then what names files by
/// number may stay as it is.
pub fn keeps_numbers(program: &LineProgram, files: &[FileId], source_version: u16) -> bool
    ensures { IsTrue result
        ↔ AreNumbersKept source_version program.now.encoding.version files.now }
{
    let version = program.version();
    for (number, id) in files.iter().enumerate() {
        if !is_kept(source_version, version, number as u64, *id) {
            return false;
        }
    }
    true
}

/// Whether a file of this id has its old number, or is the one at 0 up to version 4, which no
/// number names.
fn is_kept(source_version: u16, version: u16, number: u64, id: FileId) -> bool
    ensures { result ≡ ((nat_le source_version 4 && nat_eq number 0)
        || nat_eq (file_number version id) number) }
{
    source_version <= 4 && number == 0 || id.raw(version) == number
}
