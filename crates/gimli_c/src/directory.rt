//! The directories of a unit.

ghost use Rattle.std.specs.Prelude.{◌≡◌, IfNone, IfSome, None, false, option_map};
ghost use Rattle.gimli_core.specs.Numbers.{is_address_size};
ghost use Rattle.gimli_line.specs.header.Header.{directory_of};
ghost use Rattle.gimli_c.specs.FileSeen.{CopiesDirectoryText};
ghost use Rattle.gimli_c.specs.inside.Told.{TellsDirectory};
ghost use Rattle.gimli_c.specs.Location.{location};

use crate::file::{GimliText, bytes_of, put_bytes, text_here};
use crate::location::program_at;
use crate::status::{NO_SUCH_DIRECTORY, UNSUPPORTED_ADDRESS_SIZE};
use gimli_core::Reader;
use gimli_line::LineProgramHeader;
use std::alloc::Global;

/// Reads the directory of a number. Each status is that of `gimli_line_read_directory` in
/// `include/gimli_line.h`.
#[unsafe(no_mangle)]
pub extern "C" fn gimli_line_proved_read_directory(
    alloc: Global,
    section: &[u8],
    is_big: bool,
    address_size: u8,
    offset: usize,
    number: u64,
    directory: &mut GimliText,
    bytes: &mut [u8],
) -> u32
    ensures directory { CopiesDirectoryText (location section.now is_big address_size offset)
        number result directory.old directory.new bytes.old bytes.new }
    ensures size { is_address_size address_size ≡ false → result ≡ UNSUPPORTED_ADDRESS_SIZE }
{
    let program = match program_at(alloc, section, is_big, address_size, offset) {
        Ok(program) => program,
        Err(status) => return status,
    };
    let (told, text) = match directory_told(program.header(), number) {
        Some(told) => told,
        None => return NO_SUCH_DIRECTORY,
    };
    *directory = told;
    let mut size = 0;
    put_bytes(bytes_of(text), bytes, &mut size)
}

/// Where the directory of a number of a header stands, and its text where that is the section
/// itself.
fn directory_told<R: Reader>(
    header: &LineProgramHeader<R>,
    number: u64,
) -> Option<(GimliText, Option<R>)>
    ensures some { IfSome result (λ told.
        TellsDirectory header.now.meaning number told.0
        (option_map (λ r. (R.seen r).bytes) told.1)) }
    ensures none { IfNone result (directory_of header.now.meaning number ≡ None) }
{
    let value = header.directory(number)?;
    Some((GimliText::new(Some(value)), text_here(Some(value))))
}
