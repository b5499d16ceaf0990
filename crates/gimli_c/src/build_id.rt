//! What an ELF file says of its debug file: its build id and its debug link.

ghost use Rattle.std.specs.Prelude.{◌≡◌, ◌≢◌};
ghost use Rattle.gimli_c.specs.BuildId.{CopiesBuildId};
ghost use Rattle.gimli_c.specs.DebugLink.{CopiesLinkName, HasLinkChecksum};

use crate::elf::elf_in;
use crate::file::put_bytes;
use crate::status::{BAD_SECTION, NO_SECTION, OK};

/// Copies the build ID of an ELF file. Each status is that of `gimli_line_build_id` in
/// `include/gimli_line.h`. Takes no memory.
#[unsafe(no_mangle)]
pub extern "C" fn gimli_line_proved_elf_build_id(
    file: &[u8],
    id: &mut [u8],
    size: &mut usize,
) -> u32
    ensures { CopiesBuildId file.now result id.old id.new size.old size.new }
{
    let elf = match elf_in(file) {
        Ok(elf) => elf,
        Err(status) => return status,
    };
    match elf.build_id() {
        Ok(Some(found)) => put_bytes(found, id, size),
        Ok(None) => NO_SECTION,
        Err(_) => BAD_SECTION,
    }
}

/// Copies the name of an ELF file's debug link, and stores the checksum of the file of that name.
/// Each status is that of `gimli_line_debug_link` in `include/gimli_line.h`. Takes no memory.
#[unsafe(no_mangle)]
pub extern "C" fn gimli_line_proved_elf_debug_link(
    file: &[u8],
    name: &mut [u8],
    size: &mut usize,
    checksum: &mut u32,
) -> u32
    ensures name { CopiesLinkName file.now result name.old name.new size.old size.new }
    ensures checksum { result ≡ OK → HasLinkChecksum file.now checksum.new }
    ensures no_checksum { result ≢ OK → checksum.new ≡ checksum.old }
{
    let elf = match elf_in(file) {
        Ok(elf) => elf,
        Err(status) => return status,
    };
    let link = match elf.debug_link() {
        Ok(Some(link)) => link,
        Ok(None) => return NO_SECTION,
        Err(_) => return BAD_SECTION,
    };
    let status = put_bytes(link.name, name, size);
    if status != OK {
        return status;
    }
    *checksum = link.checksum;
    status
}
