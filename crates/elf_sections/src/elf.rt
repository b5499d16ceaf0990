//! A file and its sections.

ghost use Rattle.std.specs.Prelude.{◌≡◌, ◌≢◌, nat_eq, map, IfOk, IfErr, MatchOption, [], None};
ghost use Rattle.std.specs.Option.{option_copied, option_map};
ghost use Rattle.gimli_core.specs.Order.{is_big_endian};
ghost use Rattle.gimli_core.specs.Reading.{result_map};
ghost use Rattle.elf_sections.specs.Layout.{address_size};
ghost use Rattle.elf_sections.specs.SectionHeader.{code_end_of};
ghost use Rattle.elf_sections.specs.Gives.{Gives, RefusesLarge};
ghost use Rattle.elf_sections.specs.Compression.{data_of, old_data_of, old_name};
ghost use Rattle.elf_sections.specs.declared.error.ElfError.TheVariants.{OutOfMemory};
ghost use Rattle.elf_sections.specs.Relocating.{index_of, data_index, applied_at, relocated_at};
ghost use Rattle.elf_sections.specs.File.{file_at, section_at, section_data_at, section_named};
ghost use Rattle.elf_sections.specs.File.{old_data_in, code_addresses, code_ends};
ghost use Rattle.elf_sections.specs.File.{IsLeast, IsGreatest};

use crate::compression::{old_name, uncompressed, uncompressed_old};
use crate::error::ElfError;
use crate::header::Header;
use crate::layout::Layout;
use crate::place::SectionPlace;
use crate::relocating::Relocator;
use crate::section_bytes::SectionBytes;
use crate::section_header::SectionHeader;
use crate::section_table::SectionTable;
use gimli_core::Endianity;
use std::alloc::{AllocError, Global};

/// An object file whose sections aren't linked yet (`ET_REL`).
const REL: u16 = 1;

/// What the names of sections that have an older form begin with.
const DEBUG: &[u8] = b".debug_";

/// An ELF file, whose sections are looked up by their names.
///
/// <!-- part of crates/uses/src/where_is.rt -->
/// ```rust
/// fn section<'a>(elf: &Elf<'a>, name: &[u8]) -> Result<EndianSlice<'a, LittleEndian>> {
///     let bytes = elf.section(name)?.unwrap_or(&[]);
///     Ok(EndianSlice::new(bytes, LittleEndian))
/// }
/// ```
#[derive(Clone, Copy, Debug)]
pub struct Elf<'a> {
    pub(crate) bytes: &'a [u8],
    pub(crate) layout: Layout,
    kind: u16,
    pub(crate) machine: u16,
    pub(crate) table: SectionTable<'a>,
    names: &'a [u8],
}

impl<'a> Elf<'a> {
    ghost use Rattle.elf_sections.specs.Elf.{file_of};
    ghost use Rattle.elf_sections.specs.SectionBytes.{bytes_of};

    /// Reads the header of a file, finds its section table and the names of its sections.
    ///
    /// A file without a section table (`e_shoff` is 0) has no sections, and one without names
    /// (`e_shstrndx` is 0) has none that is found. Refuses a file that isn't ELF or whose class,
    /// order or version is unknown (`NotElf`, `Class`, `ByteOrder`, `Version`), one that ends
    /// before its header or its section table does (`HeaderCut`, `SectionTableCut`), one whose
    /// section headers are too short (`SectionHeaderSize`), and one that doesn't hold the names
    /// (`NamesCut`). It looks at the bytes of no other section.
    pub fn parse(bytes: &'a [u8]) -> Result<Elf<'a>, ElfError>
        ensures { result_map file_of result ≡ file_at bytes.now }
    {
        let layout = Layout::parse(bytes)?;
        let header = Header::parse(layout, bytes)?;
        let table = SectionTable::parse(layout, &header, bytes)?;
        let names = table.names(bytes)?;
        Ok(Elf {
            bytes,
            layout,
            kind: header.kind,
            machine: header.machine,
            table,
            names,
        })
    }

    /// Whether the most significant byte of a number comes first (`EI_DATA`).
    pub fn is_big_endian(&self) -> bool
        ensures { result ≡ is_big_endian (file_of self.now).layout.order }
    {
        self.layout.order.is_big_endian()
    }

    /// The bytes of an address: 4 or 8 (`EI_CLASS`).
    pub fn address_size(&self) -> u8
        ensures { result ≡ address_size (file_of self.now).layout.class }
    {
        self.layout.address_size()
    }

    /// Whether this is an object file that isn't linked (`e_type` is `ET_REL`): its sections have
    /// no addresses yet, and the addresses in them are still to be relocated.
    pub fn is_relocatable(&self) -> bool
        ensures { result ≡ nat_eq (file_of self.now).kind 1 }
    {
        self.kind == REL
    }

    /// The bytes of the first section of this name; None where there is none.
    ///
    /// A section without bytes in the file (`SHT_NOBITS`) is empty. Refuses one that is compressed
    /// (`Compressed`, by `SHF_COMPRESSED`), and one whose bytes aren't all in the file
    /// (`SectionCut`).
    pub fn section(&self, name: &[u8]) -> Result<Option<&'a [u8]>, ElfError>
        ensures { result_map option_copied result ≡ section_at (file_of self.now) name.now }
    {
        match self.table.find(self.names, name) {
            Some(header) => {
                let bytes = header.bytes_in(self.bytes)?;
                Ok(Some(bytes))
            }
            None => Ok(None),
        }
    }

    /// What the first section of this name holds; None where there is none.
    ///
    /// A compressed section (`SHF_COMPRESSED`) is decompressed to the size that its header says.
    /// Where no section has the name, and it begins with `.debug_`, this returns what the section
    /// of the older form holds, `.zdebug_line` for `.debug_line`. Refuses a section whose
    /// bytes aren't all in the file (`SectionCut`), one that ends within its header of compression
    /// (`CompressionHeaderCut`), another way of compression than zlib's (`Zstd`,
    /// `UnknownCompression`), a section of the older form without its first bytes (`NotZlib`) or
    /// with `SHF_COMPRESSED` (`Compressed`), a compressed one whose header says more bytes than the
    /// limit, before memory is taken for them (`SectionTooLarge`), and one that doesn't hold what
    /// its header says (`Decompression`). Fails with `OutOfMemory` where there is no memory for
    /// what it makes.
    pub fn section_data(
        &self,
        alloc: Global,
        name: &[u8],
        limit: u64,
    ) -> Result<Option<SectionBytes<'a>>, ElfError>
        ensures gives { Gives (option_map bytes_of) result
            (section_data_at (file_of self.now) limit name.now) }

        // A section of the name itself that would be larger than the limit is refused for that, and
        // never for missing memory.
        ensures large { section_named (file_of self.now) name.now ≢ None
            → RefusesLarge result (section_data_at (file_of self.now) limit name.now) }
    {
        if let Some(header) = self.table.find(self.names, name) {
            let data = self.data_of(alloc, limit, &header)?;
            return Ok(Some(data));
        }
        if name.starts_with(DEBUG) {
            return self.old_section_data(alloc, limit, name);
        }
        Ok(None)
    }

    /// What the first section of this name holds, relocated; None where there is none.
    ///
    /// In an object file (`ET_REL`) the relocations of the section (`SHT_REL`, `SHT_RELA`) are
    /// applied to what `section_data` returns, in order; in any other file none are. `place` says
    /// which addresses count. It takes memory for a copy of the section. Refuses what
    /// `section_data` refuses, relocations that together have more bytes than the file
    /// (`RelocationsTooLarge`), a machine or a kind of relocations that isn't known
    /// (`UnknownMachine`, `UnknownRelocation`), entries of relocations or symbols that are too
    /// short (`EntrySize`), relocations without a symbol table (`NoSymbols`), and one whose symbol
    /// or place isn't there (`SymbolOutside`, `RelocationOutside`). With `SectionPlace::Only` it
    /// also refuses a symbol whose section's index is kept elsewhere (`SymbolSection`). Sections of
    /// relocations and symbols are refused as `section` refuses sections.
    pub fn relocated(
        &self,
        alloc: Global,
        name: &[u8],
        place: SectionPlace,
        limit: u64,
    ) -> Result<Option<SectionBytes<'a>>, ElfError>
        ensures { Gives (option_map bytes_of) result
            (relocated_at (file_of self.now) place limit name.now) }
    {
        let Some(section) = self.section_data(alloc, name, limit)? else {
            return Ok(None);
        };
        if !self.is_relocatable() {
            return Ok(Some(section));
        }
        let relocated = self.applied(alloc, name, place, section)?;
        Ok(Some(relocated))
    }

    /// What a section of a name holds, once its relocations are applied.
    fn applied(
        &self,
        alloc: Global,
        name: &[u8],
        place: SectionPlace,
        section: SectionBytes<'a>,
    ) -> Result<SectionBytes<'a>, ElfError>
        ensures { let file = file_of self.now in Gives bytes_of result
            (applied_at file place (bytes_of section.entry) (data_index file name.now)) }
    {
        let Some(index) = self.data_index(alloc, name)? else {
            return Ok(section);
        };
        let relocator = Relocator { elf: *self, place };
        let made = relocator.relocated(alloc, index, section)?;
        Ok(SectionBytes::Made(made))
    }

    /// The index of the first section of this name; None where there is none.
    pub fn section_index(&self, name: &[u8]) -> Option<usize>
        ensures { result ≡ index_of (file_of self.now) name.now }
    {
        self.table.index_of(self.names, name)
    }

    /// The index of the section that the data of a name are in.
    fn data_index(&self, alloc: Global, name: &[u8]) -> Result<Option<usize>, ElfError>
        ensures ok { IfOk result (λ index. index ≡ data_index (file_of self.now) name.now) }
        ensures err { IfErr result (λ e. e ≡ OutOfMemory) }
    {
        if let Some(index) = self.section_index(name) {
            return Ok(Some(index));
        }
        if !name.starts_with(DEBUG) {
            return Ok(None);
        }
        let old = old_name(alloc, name)?;
        let found = self.section_index(old.as_slice());
        Ok(found)
    }

    /// What a section holds.
    fn data_of(
        &self,
        alloc: Global,
        limit: u64,
        header: &SectionHeader,
    ) -> Result<SectionBytes<'a>, ElfError>
        ensures gives { let file = file_of self.now in
            Gives bytes_of result (data_of limit file.layout file.bytes header.now) }
        ensures large { let file = file_of self.now in
            RefusesLarge result (data_of limit file.layout file.bytes header.now) }
    {
        let bytes = header.stored_in(self.bytes)?;
        if header.is_compressed() {
            let made = uncompressed(alloc, limit, self.layout, bytes)?;
            return Ok(SectionBytes::Made(made));
        }
        Ok(SectionBytes::Lent(bytes))
    }

    /// What the section of the older form of a name holds.
    fn old_section_data(
        &self,
        alloc: Global,
        limit: u64,
        name: &[u8],
    ) -> Result<Option<SectionBytes<'a>>, ElfError>
        ensures { let file = file_of self.now in Gives (option_map bytes_of) result
            (old_data_in limit file.bytes (section_named file (old_name name.now))) }
    {
        let Some(header) = self.old_header(alloc, name)? else {
            return Ok(None);
        };
        let data = self.old_data_of(alloc, limit, &header)?;
        Ok(Some(data))
    }

    /// The header of the section of the older form of a name.
    fn old_header(&self, alloc: Global, name: &[u8]) -> Result<Option<SectionHeader>, ElfError>
        ensures ok { IfOk result (λ found. found ≡
            section_named (file_of self.now) (old_name name.now)) }
        ensures err { IfErr result (λ e. e ≡ OutOfMemory) }
    {
        let old = old_name(alloc, name)?;
        let found = self.table.find(self.names, old.as_slice());
        Ok(found)
    }

    /// What a section of the older form holds.
    fn old_data_of(
        &self,
        alloc: Global,
        limit: u64,
        header: &SectionHeader,
    ) -> Result<SectionBytes<'a>, ElfError>
        ensures { Gives bytes_of result (old_data_of limit (file_of self.now).bytes header.now) }
    {
        let bytes = header.bytes_in(self.bytes)?;
        let made = uncompressed_old(alloc, limit, bytes)?;
        Ok(SectionBytes::Made(made))
    }

    /// The lowest address of code (`sh_addr`), among the sections that are in memory when the
    /// program runs, hold code and aren't empty (`SHF_ALLOC`, `SHF_EXECINSTR`, `sh_size`). None
    /// where there is no such section.
    pub fn lowest_code_address(&self) -> Option<u64>
        ensures { let addresses = code_addresses (file_of self.now) in
            MatchOption result (addresses ≡ []) (IsLeast addresses) }
    {
        match self.table.code_bounds() {
            Some(bounds) => Some(bounds.lowest),
            None => None,
        }
    }

    /// The end of code: the address after the last of the same sections, or the greatest one where
    /// that would end past it. None where there is no such section.
    pub fn code_end(&self) -> Option<u64>
        ensures { let ends = code_ends (file_of self.now) in
            MatchOption result (ends ≡ []) (IsGreatest ends) }
    {
        match self.table.code_bounds() {
            Some(bounds) => Some(bounds.end),
            None => None,
        }
    }

    /// The end of each section of code, by its index, as `code_end` counts it; 0 for any other.
    pub fn code_ends(&self, alloc: Global) -> Result<Vec<u64>, AllocError>
        ensures { IfOk result
            (λ ends. ends.items ≡ map code_end_of (file_of self.now).headers) }
    {
        self.table.code_ends(alloc)
    }
}
