//! The header of a section, and the bytes that it stands for.

ghost use Rattle.std.specs.Prelude.{◌≡◌, ◌≤◌, length, nat_eq};
ghost use Rattle.gimli_core.specs.Reading.{result_map};
ghost use Rattle.elf_sections.specs.SectionHeader.{section_header_size, section_header, is_active};
ghost use Rattle.elf_sections.specs.SectionHeader.{has_flag, is_code, stored_bytes, section_bytes};
ghost use Rattle.elf_sections.specs.SectionHeader.{end_of, code_end_of};
ghost use Rattle.elf_sections.specs.Relocation.{form_of, relocates};

use crate::error::ElfError;
use crate::layout::Layout;
use crate::relocation::Form;

/// An inactive header, which is no section's (`SHT_NULL`).
const NULL: u32 = 0;
/// A symbol table (`SHT_SYMTAB`).
const SYMTAB: u32 = 2;
/// Relocations with addends (`SHT_RELA`).
const RELA: u32 = 4;
/// A section without bytes in the file (`SHT_NOBITS`).
pub(crate) const NOBITS: u32 = 8;
/// Relocations without addends (`SHT_REL`).
const REL: u32 = 9;
/// The section is in memory when the program runs (`SHF_ALLOC`).
const ALLOC: u64 = 2;
/// The section holds code (`SHF_EXECINSTR`).
const EXECINSTR: u64 = 4;
/// The section is compressed (`SHF_COMPRESSED`).
pub(crate) const COMPRESSED: u64 = 0x800;

/// The header of a section.
#[derive(Clone, Copy, Debug)]
pub(crate) struct SectionHeader {
    /// The offset of its name in the section of names (`sh_name`).
    pub(crate) name: u32,
    /// What the section holds (`sh_type`).
    pub(crate) kind: u32,
    /// `sh_flags`.
    pub(crate) flags: u64,
    /// Where it begins in memory (`sh_addr`).
    pub(crate) address: u64,
    /// The offset of its bytes in the file (`sh_offset`).
    pub(crate) offset: u64,
    /// Its bytes (`sh_size`).
    pub(crate) size: u64,
    /// The index of another section (`sh_link`).
    pub(crate) link: u32,
    /// The index of the section that its relocations are of (`sh_info`).
    pub(crate) info: u32,
    /// The bytes of each of its entries (`sh_entsize`).
    pub(crate) entry_size: u64,
}

impl SectionHeader {
    /// The section header that bytes begin with.
    pub(crate) fn parse(layout: Layout, bytes: &[u8]) -> SectionHeader
        requires { section_header_size layout.class ≤ length bytes.now }
        ensures { result ≡ section_header layout bytes.now }
    {
        let address = usize::from(layout.address_size());
        SectionHeader {
            name: layout.word(bytes, 0),
            kind: layout.word(bytes, 4),
            flags: layout.address(bytes, 8),
            address: layout.address(bytes, 8 + address),
            offset: layout.address(bytes, 8 + 2 * address),
            size: layout.address(bytes, 8 + 3 * address),
            link: layout.word(bytes, 8 + 4 * address),
            info: layout.word(bytes, 12 + 4 * address),
            entry_size: layout.address(bytes, 16 + 5 * address),
        }
    }

    /// Whether this is a section's header.
    pub(crate) fn is_active(&self) -> bool
        ensures { result ≡ is_active self.now }
    {
        self.kind != NULL
    }

    /// Whether the flags have this bit.
    pub(crate) fn has_flag(&self, bit: u64) -> bool
        ensures { result ≡ has_flag self.now bit }
    {
        self.flags & bit != 0
    }

    /// Whether the section is code that is in memory when the program runs.
    pub(crate) fn is_code(&self) -> bool
        ensures { result ≡ is_code self.now }
    {
        self.has_flag(ALLOC) && self.has_flag(EXECINSTR) && self.size != 0
    }

    /// The address after the section, or the greatest one where it would end past that.
    pub(crate) fn end(&self) -> u64
        ensures { result ≡ end_of self.now }
    {
        self.address.saturating_add(self.size)
    }

    /// The same of a section of code; 0 for any other header.
    pub(crate) fn code_end(&self) -> u64
        ensures { result ≡ code_end_of self.now }
    {
        if self.is_active() && self.is_code() {
            self.end()
        } else {
            0
        }
    }

    /// Whether the section is in memory when the program runs.
    pub(crate) fn is_in_memory(&self) -> bool
        ensures { result ≡ has_flag self.now 2 }
    {
        self.has_flag(ALLOC)
    }

    /// Whether the section has symbols, for linking.
    pub(crate) fn is_symbol_table(&self) -> bool
        ensures { result ≡ nat_eq self.now.kind 2 }
    {
        self.kind == SYMTAB
    }

    /// Whether the section has relocations of the section of an index.
    pub(crate) fn relocates(&self, index: usize) -> bool
        ensures { result ≡ relocates index self.now }
    {
        (self.kind == RELA || self.kind == REL) && self.info as usize == index
    }

    /// How the entries of a section of relocations are noted.
    pub(crate) fn form(&self) -> Form
        ensures { result ≡ form_of self.now }
    {
        if self.kind == RELA {
            Form::Rela
        } else {
            Form::Rel
        }
    }

    /// Whether the section is compressed.
    pub(crate) fn is_compressed(&self) -> bool
        ensures { result ≡ has_flag self.now 0x800 }
    {
        self.has_flag(COMPRESSED)
    }

    /// The section's bytes in its file, if it isn't compressed.
    pub(crate) fn bytes_in<'a>(&self, file: &'a [u8]) -> Result<&'a [u8], ElfError>
        ensures { result_map (λ bytes. bytes.now) result ≡ section_bytes file.now self.now }
    {
        if self.is_compressed() {
            return Err(ElfError::Compressed);
        }
        self.stored_in(file)
    }

    /// The section's bytes in its file, as they stand.
    pub(crate) fn stored_in<'a>(&self, file: &'a [u8]) -> Result<&'a [u8], ElfError>
        ensures { result_map (λ bytes. bytes.now) result ≡ stored_bytes file.now self.now }
    {
        if self.kind == NOBITS {
            return Ok(&[]);
        }
        match self.offset.checked_add(self.size) {
            Some(end) if end <= file.len() as u64 => {
                Ok(&file[self.offset as usize..end as usize])
            }
            _ => Err(ElfError::SectionCut),
        }
    }
}
