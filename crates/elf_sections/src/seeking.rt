//! What a program reads of a file to know its sections, where it doesn't read the file whole.
//!
//! It reads the beginning of the file ([`FileHeader::SIZE`] bytes, or all where there are fewer)
//! for a [`FileHeader`]; then the bytes of `first_entry` for a [`FileTable`]; then those of its
//! `range`, and those of its `names`, for a [`SectionList`]; and at last those of the sections that
//! it wants.

ghost use Rattle.std.specs.Prelude.{◌≡◌, ◌≤◌, ◌*◌, nat_eq, ℕ, List, MatchOption, []};
ghost use Rattle.std.specs.Prelude.{map, IfOk};
ghost use Rattle.std.specs.Option.{option_map, option_copied};
ghost use Rattle.gimli_core.specs.Order.{is_big_endian};
ghost use Rattle.gimli_core.specs.Reading.{result_map};
ghost use Rattle.elf_sections.specs.Layout.{address_size};
ghost use Rattle.elf_sections.specs.SectionHeader.{section_header_size, code_end_of};
ghost use Rattle.elf_sections.specs.File.{IsLeast, IsGreatest};
ghost use Rattle.elf_sections.specs.Notes.{build_id_in};
ghost use Rattle.elf_sections.specs.DebugFile.{link_of, link_in};
ghost use Rattle.elf_sections.specs.SectionTable.{table_of};
ghost use Rattle.elf_sections.specs.FileRange.{range_in};
ghost use Rattle.elf_sections.specs.Seeking.{header_by, first_range, table_by, no_table, table_in};
ghost use Rattle.elf_sections.specs.Seeking.{names_range, list_by, range_named, listed_code};
ghost use Rattle.elf_sections.specs.Seeking.{listed_ends};
ghost use Rattle.elf_sections.specs.Seeking.{listed, listed_at, section_in, read_at};

use crate::debug_file::{DebugLink, link_in};
use crate::error::ElfError;
use crate::file_range::{FileRange, range_in};
use crate::header::Header;
use crate::layout::Layout;
use crate::note::build_id_in;
use crate::section_header::SectionHeader;
use crate::section_table::{SectionTable, count_of, names_index_of};
use gimli_core::Endianity;
use std::alloc::{AllocError, Global};

/// An object file whose sections aren't linked yet (`ET_REL`).
const REL: u16 = 1;

/// The header of a file, and the file's length.
///
/// <!-- part of crates/debug_files/src/outline.rt -->
/// ```rust
/// let start = bytes_of(alloc, file, start)?;
/// let header = FileHeader::parse(&start, length)?;
/// let first = bytes_of(alloc, file, header.first_entry()?)?;
/// let table = header.table(&first)?;
/// ```
#[derive(Clone, Copy, Debug)]
pub struct FileHeader {
    layout: Layout,
    header: Header,
    length: u64,
}

/// Where the section table of a file is, and what is known of it before it is read.
///
/// <!-- part of crates/debug_files/src/outline.rt -->
/// ```rust
/// let table = header.table(&first)?;
/// let entries = bytes_of(alloc, file, table.range())?;
/// let names = bytes_of(alloc, file, table.names(&entries)?)?;
/// ```
#[derive(Clone, Copy, Debug)]
pub struct FileTable {
    layout: Layout,
    kind: u16,
    length: u64,
    range: FileRange,
    /// The bytes of an entry.
    entry_size: usize,
    /// The number of entries.
    count: u64,
    /// The index of the section of names.
    names_index: u64,
    ghost wide: { section_header_size layout.class ≤ entry_size },
}

/// The sections of a file, by its section table and their names.
#[derive(Clone, Copy, Debug)]
pub struct SectionList<'a> {
    pub(crate) layout: Layout,
    kind: u16,
    pub(crate) length: u64,
    pub(crate) table: SectionTable<'a>,
    pub(crate) names: &'a [u8],
}

impl FileHeader {
    ghost use Rattle.elf_sections.specs.SeekingViews.{place_of};

    /// The most bytes that the header of a file has.
    pub const SIZE: usize = 64;

    /// The header of a file, by the bytes that it begins with, `SIZE` or all where there are fewer,
    /// and by its length in bytes. Refused as [`Elf::parse`](crate::Elf::parse) refuses a header.
    pub fn parse(start: &[u8], length: u64) -> Result<FileHeader, ElfError>
        ensures { result ≡ header_by length start.now }
    {
        let layout = Layout::parse(start)?;
        let header = Header::parse(layout, start)?;
        Ok(FileHeader {
            layout,
            header,
            length,
        })
    }

    /// Where the first entry of the section table is; no bytes where there is no table. Refuses
    /// entries that are too short (`SectionHeaderSize`), and one that isn't whole in the file
    /// (`SectionTableCut`).
    pub fn first_entry(&self) -> Result<FileRange, ElfError>
        ensures { result ≡ first_range self.now }
    {
        if self.header.table_offset == 0 {
            return Ok(FileRange::NONE);
        }
        let smallest = self.layout.section_header_size();
        if usize::from(self.header.entry_size) < smallest {
            return Err(ElfError::SectionHeaderSize(self.header.entry_size));
        }
        match range_in(self.header.table_offset, smallest as u64, self.length) {
            Some(range) => Ok(range),
            None => Err(ElfError::SectionTableCut),
        }
    }

    /// The section table, by the bytes of its first entry, which may hold what the header doesn't:
    /// the number of entries and the index of the names. Refused as `first_entry` is, and where the
    /// table isn't whole in the file, or the bytes are fewer than the entry's (`SectionTableCut`).
    pub fn table(&self, first: &[u8]) -> Result<FileTable, ElfError>
        ensures { result_map place_of result ≡ table_by self.now first.now }
    {
        self.first_entry()?;
        if self.header.table_offset == 0 {
            return Ok(FileTable::empty(self));
        }
        if first.len() < self.layout.section_header_size() {
            return Err(ElfError::SectionTableCut);
        }
        let entry = SectionHeader::parse(self.layout, first);
        let count = count_of(&self.header, &entry);
        match self.entries(count) {
            Some(range) => Ok(FileTable {
                layout: self.layout,
                kind: self.header.kind,
                length: self.length,
                range,
                entry_size: usize::from(self.header.entry_size),
                count,
                names_index: names_index_of(&self.header, &entry),
            }),
            None => Err(ElfError::SectionTableCut),
        }
    }

    /// Where so many entries are, if the file holds them.
    fn entries(&self, count: u64) -> Option<FileRange>
        ensures { result ≡ range_in self.now.header.table_offset
            (count * self.now.header.entry_size) self.now.length }
    {
        let length = self.length;
        match count.checked_mul(u64::from(self.header.entry_size)) {
            Some(size) => range_in(self.header.table_offset, size, length),
            None => None,
        }
    }
}

impl FileTable {
    ghost use Rattle.elf_sections.specs.SeekingViews.{place_of};

    /// A table without entries.
    fn empty(header: &FileHeader) -> FileTable
        ensures { place_of result ≡ no_table header.now }
    {
        FileTable {
            layout: header.layout,
            kind: header.header.kind,
            length: header.length,
            range: FileRange::NONE,
            entry_size: header.layout.section_header_size(),
            count: 0,
            names_index: 0,
        }
    }

    /// Where the entries are, which the further calls take.
    pub fn range(&self) -> FileRange
        ensures { result ≡ (place_of self.now).range }
    {
        self.range
    }

    /// The table of these entries.
    fn section_table<'a>(&self, entries: &'a [u8]) -> Result<SectionTable<'a>, ElfError>
        ensures { result_map table_of result ≡ table_in (place_of self.now) entries.now }
    {
        let count = self.count as usize;
        match count.checked_mul(self.entry_size) {
            Some(size) if size <= entries.len() => Ok(SectionTable::of_entries(
                self.layout,
                entries,
                self.entry_size,
                count,
                self.names_index,
            )),
            _ => Err(ElfError::SectionTableCut),
        }
    }

    /// Where the names of the sections are; no bytes where the sections have none. Refused where
    /// the file doesn't hold them (`NamesCut`), and where there are fewer bytes than the entries
    /// have (`SectionTableCut`).
    pub fn names(&self, entries: &[u8]) -> Result<FileRange, ElfError>
        ensures { result ≡ names_range (place_of self.now) entries.now }
    {
        let table = self.section_table(entries)?;
        table.names_range(self.length)
    }
}

impl<'a> SectionList<'a> {
    ghost use Rattle.elf_sections.specs.SeekingViews.{place_of, list_of};

    /// The sections, by the bytes of the table's entries and those of the names. Refused where
    /// there are fewer bytes than the entries have (`SectionTableCut`).
    pub fn new(
        table: &FileTable,
        entries: &'a [u8],
        names: &'a [u8],
    ) -> Result<SectionList<'a>, ElfError>
        ensures list { result_map list_of result
            ≡ list_by (place_of table.now) entries.entry.now names.entry.now }

        // Where the parts are those of a file, the sections are the file's.
        ensures whole { (bytes : List ℕ)
            → listed bytes ≡ list_by (place_of table.now) entries.entry.now names.entry.now
            → result_map list_of result ≡ listed_at bytes }
    {
        SectionList::of_parts(table, entries, names)
    }

    /// The sections, by these parts.
    fn of_parts(
        table: &FileTable,
        entries: &'a [u8],
        names: &'a [u8],
    ) -> Result<SectionList<'a>, ElfError>
        ensures { result_map list_of result
            ≡ list_by (place_of table.now) entries.entry.now names.entry.now }
    {
        let sections = table.section_table(entries)?;
        Ok(SectionList {
            layout: table.layout,
            kind: table.kind,
            length: table.length,
            table: sections,
            names,
        })
    }

    /// Where the bytes of the first section of a name are; None where there is none. Refused as
    /// [`Elf::section`](crate::Elf::section) is.
    pub fn range(&self, name: &[u8]) -> Result<Option<FileRange>, ElfError>
        ensures range { result ≡ range_named (list_of self.now) name.now }

        // Where the sections are those of a file, the bytes there are the section's.
        ensures whole { (bytes : List ℕ) → listed bytes ≡ Ok (list_of self.now)
            → section_in bytes name.now ≡ read_at bytes result }
    {
        self.range_named(name)
    }

    /// Where the bytes of the first section of a name are, by its header.
    fn range_named(&self, name: &[u8]) -> Result<Option<FileRange>, ElfError>
        ensures { result ≡ range_named (list_of self.now) name.now }
    {
        match self.table.find(self.names, name) {
            Some(header) => {
                let range = header.range(self.length)?;
                Ok(Some(range))
            }
            None => Ok(None),
        }
    }

    /// Whether the most significant byte of a number comes first (`EI_DATA`).
    pub fn is_big_endian(&self) -> bool
        ensures { result ≡ is_big_endian (list_of self.now).layout.order }
    {
        self.layout.order.is_big_endian()
    }

    /// The bytes of an address: 4 or 8 (`EI_CLASS`).
    pub fn address_size(&self) -> u8
        ensures { result ≡ address_size (list_of self.now).layout.class }
    {
        self.layout.address_size()
    }

    /// Whether this is an object file that isn't linked (`e_type` is `ET_REL`).
    pub fn is_relocatable(&self) -> bool
        ensures { result ≡ nat_eq (list_of self.now).kind 1 }
    {
        self.kind == REL
    }

    /// The lowest address of code, as [`Elf::lowest_code_address`](crate::Elf::lowest_code_address)
    /// returns it.
    pub fn lowest_code_address(&self) -> Option<u64>
        ensures { let addresses = listed_code (list_of self.now) in
            MatchOption result (addresses ≡ []) (IsLeast addresses) }
    {
        match self.table.code_bounds() {
            Some(bounds) => Some(bounds.lowest),
            None => None,
        }
    }

    /// The end of code, as [`Elf::code_end`](crate::Elf::code_end) returns it.
    pub fn code_end(&self) -> Option<u64>
        ensures { let ends = listed_ends (list_of self.now) in
            MatchOption result (ends ≡ []) (IsGreatest ends) }
    {
        match self.table.code_bounds() {
            Some(bounds) => Some(bounds.end),
            None => None,
        }
    }

    /// The end of each section, as [`Elf::code_ends`](crate::Elf::code_ends) returns it.
    pub fn code_ends(&self, alloc: Global) -> Result<Vec<u64>, AllocError>
        ensures { IfOk result
            (λ ends. ends.items ≡ map code_end_of (list_of self.now).headers) }
    {
        self.table.code_ends(alloc)
    }

    /// The build id in the bytes of the section `.note.gnu.build-id`, as
    /// [`Elf::build_id`](crate::Elf::build_id) returns it.
    pub fn build_id<'s>(&self, section: &'s [u8]) -> Option<&'s [u8]>
        ensures { option_copied result ≡ build_id_in (list_of self.now).layout section.now }
    {
        build_id_in(self.layout, section)
    }

    /// The link in the bytes of the section `.gnu_debuglink`, as
    /// [`Elf::debug_link`](crate::Elf::debug_link) returns it.
    pub fn debug_link<'s>(&self, section: &'s [u8]) -> Option<DebugLink<'s>>
        ensures { option_map link_of result ≡ link_in (list_of self.now).layout section.now }
    {
        link_in(self.layout, section)
    }
}
