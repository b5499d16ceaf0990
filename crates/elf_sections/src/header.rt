//! The header of a file.

ghost use Rattle.std.specs.Prelude.{◌≡◌};
ghost use Rattle.elf_sections.specs.Header.{header_at};

use crate::error::ElfError;
use crate::layout::Layout;

/// The fields of a file's header that its sections are found by.
#[derive(Clone, Copy, Debug)]
pub(crate) struct Header {
    /// What the file is for (`e_type`).
    pub(crate) kind: u16,
    /// The machine that it is for (`e_machine`).
    pub(crate) machine: u16,
    /// The offset of the section table, in bytes, 0 where there is none (`e_shoff`).
    pub(crate) table_offset: u64,
    /// The bytes of an entry of the section table (`e_shentsize`).
    pub(crate) entry_size: u16,
    /// The number of entries, 0 where section 0 says it (`e_shnum`).
    pub(crate) count: u16,
    /// The index of the section of names, `SHN_XINDEX` where section 0 says it (`e_shstrndx`).
    pub(crate) names_index: u16,
}

impl Header {
    /// The header that a file begins with.
    pub(crate) fn parse(layout: Layout, bytes: &[u8]) -> Result<Header, ElfError>
        ensures { result ≡ header_at layout bytes.now }
    {
        let address = usize::from(layout.address_size());
        if bytes.len() < 40 + 3 * address {
            return Err(ElfError::HeaderCut);
        }
        Ok(Header {
            kind: layout.half(bytes, 16),
            machine: layout.half(bytes, 18),
            table_offset: layout.address(bytes, 24 + 2 * address),
            entry_size: layout.half(bytes, 34 + 3 * address),
            count: layout.half(bytes, 36 + 3 * address),
            names_index: layout.half(bytes, 38 + 3 * address),
        })
    }
}
