//! Parts of a file.

ghost use Rattle.std.specs.Prelude.{◌≡◌};
ghost use Rattle.elf_sections.specs.FileRange.{range_in, stored_range, header_range};

use crate::error::ElfError;
use crate::section_header::{COMPRESSED, NOBITS, SectionHeader};

/// A part of a file, which has no bytes where the size is 0.
///
/// <!-- part of crates/debug_files/src/outline.rt -->
/// ```rust
/// let start = FileRange {
///     offset: 0,
///     size: length.min(FileHeader::SIZE as u64),
/// };
/// let start = bytes_of(alloc, file, start)?;
/// ```
#[derive(Clone, Copy, Debug, PartialEq, Eq)]
pub struct FileRange {
    /// How many bytes of the file come before it.
    pub offset: u64,
    /// How many bytes it has.
    pub size: u64,
}

impl FileRange {
    /// No bytes.
    pub const NONE: FileRange = FileRange { offset: 0, size: 0 };
}

/// A part of a file of a length; None where the file ends before it does.
pub(crate) fn range_in(offset: u64, size: u64, length: u64) -> Option<FileRange>
    ensures { result ≡ range_in offset size length }
{
    match offset.checked_add(size) {
        Some(end) if end <= length => Some(FileRange { offset, size }),
        _ => None,
    }
}

impl SectionHeader {
    /// Where the section's bytes are in its file, which has a length.
    pub(crate) fn range(&self, length: u64) -> Result<FileRange, ElfError>
        ensures { result ≡ header_range length self.now }
    {
        if self.has_flag(COMPRESSED) {
            return Err(ElfError::Compressed);
        }
        self.stored_range(length)
    }

    /// The same of a section that may be compressed.
    pub(crate) fn stored_range(&self, length: u64) -> Result<FileRange, ElfError>
        ensures { result ≡ stored_range length self.now }
    {
        if self.kind == NOBITS {
            return Ok(FileRange::NONE);
        }
        match range_in(self.offset, self.size, length) {
            Some(range) => Ok(range),
            None => Err(ElfError::SectionCut),
        }
    }
}
