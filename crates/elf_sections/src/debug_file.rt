//! What a file says of the file with its debug information.

ghost use Rattle.std.specs.Prelude.{◌≡◌, ◌<◌, length, nat_eq, IfSome};
ghost use Rattle.std.specs.List.{position};
ghost use Rattle.std.specs.Option.{option_map, option_copied};
ghost use Rattle.gimli_core.specs.Reading.{result_map};
ghost use Rattle.elf_sections.specs.Elf.{file_of};
ghost use Rattle.elf_sections.specs.DebugFile.{link_of, link_in, build_id_of, debug_link_of};

use crate::elf::Elf;
use crate::error::ElfError;
use crate::layout::Layout;
use crate::note::{build_id_in, padded};

/// The name of the file with a program's debug information (`.gnu_debuglink`).
///
/// <!-- part of crates/debug_files/src/program_file.rt -->
/// ```rust
/// let Some(link) = sections.debug_link(&section) else {
///     return Ok(None);
/// };
/// match str::from_utf8(link.name) {
///     Ok(name) => Ok(Some(Link {
/// ```
#[derive(Clone, Copy, Debug, PartialEq, Eq)]
pub struct DebugLink<'a> {
    /// The name of the file, without a zero byte.
    pub name: &'a [u8],
    /// The [`crc32`](crate::crc32) of the bytes of that file.
    pub checksum: u32,
}

/// Where the first zero byte is.
pub(crate) fn name_end(section: &[u8]) -> Option<usize>
    ensures first { result ≡ position (λ b. nat_eq b 0) section.now }
    ensures within { IfSome result (λ end. end < length section.now) }
{
    section.iter().position(|byte| *byte == 0)
}

/// The link of a section; None where it is cut.
pub(crate) fn link_in<'a>(layout: Layout, section: &'a [u8]) -> Option<DebugLink<'a>>
    ensures { option_map link_of result ≡ link_in layout section.now }
{
    let end = name_end(section)?;
    let offset = padded(end + 1);
    if section.len() < offset + 4 {
        return None;
    }
    Some(DebugLink {
        name: &section[..end],
        checksum: layout.word(section, offset),
    })
}

impl<'a> Elf<'a> {
    /// The build id, a name for the program's bytes that stays when it is stripped: the descriptor
    /// of the first note of `.note.gnu.build-id` that has the name `GNU` and the type
    /// `NT_GNU_BUILD_ID`.
    ///
    /// None where there is no such section or no such note in it. A note that the section's end
    /// cuts is ignored, as is what comes after it. Refused as [`Elf::section`] is.
    pub fn build_id(&self) -> Result<Option<&'a [u8]>, ElfError>
        ensures { result_map option_copied result ≡ build_id_of (file_of self.now) }
    {
        match self.section(b".note.gnu.build-id")? {
            Some(section) => Ok(build_id_in(self.layout, section)),
            None => Ok(None),
        }
    }

    /// The name and the checksum of the file with the program's debug information, as the section
    /// `.gnu_debuglink` has them.
    ///
    /// None where there is no such section, no zero byte ends the name, or the section ends before
    /// the checksum does. The bytes between the name and the checksum are ignored, and the name may
    /// be empty. Refused as [`Elf::section`] is.
    pub fn debug_link(&self) -> Result<Option<DebugLink<'a>>, ElfError>
        ensures { result_map (option_map link_of) result ≡ debug_link_of (file_of self.now) }
    {
        match self.section(b".gnu_debuglink")? {
            Some(section) => Ok(link_in(self.layout, section)),
            None => Ok(None),
        }
    }
}
