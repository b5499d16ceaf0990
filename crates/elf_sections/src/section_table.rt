//! The section table of a file.

ghost use Rattle.std.specs.Prelude.{◌≡◌, ◌≤◌, ◌<◌, ◌*◌, drop, length, ◌&&◌, slice_get, find};
ghost use Rattle.std.specs.Prelude.{filter, map, MatchOption, [], IfOk};
ghost use Rattle.std.specs.List.{position_from};
ghost use Rattle.gimli_core.specs.Reading.{result_map};
ghost use Rattle.elf_sections.specs.SectionHeader.{section_header_size, section_header, is_active};
ghost use Rattle.elf_sections.specs.SectionHeader.{is_code, end_of, code_end_of};
ghost use Rattle.elf_sections.specs.Seeking.{names_in_table};
ghost use Rattle.elf_sections.specs.Table.{section_headers, table_at, names_at, is_name_at};
ghost use Rattle.elf_sections.specs.Table.{count_of, names_index_of};

use crate::code_bounds::{CodeBounds, widened};
use crate::error::ElfError;
use crate::file_range::FileRange;
use crate::header::Header;
use crate::layout::Layout;
use crate::section_header::SectionHeader;
use std::alloc::{AllocError, Global};

/// An index that stands for no section of names (`SHN_UNDEF`).
const UNDEF: u64 = 0;
/// An index that section 0 holds instead (`SHN_XINDEX`).
const XINDEX: u16 = 0xffff;

/// The section headers of a file.
#[derive(Clone, Copy, Debug)]
pub(crate) struct SectionTable<'a> {
    layout: Layout,
    /// The bytes of the file from the table on.
    entries: &'a [u8],
    /// The bytes of an entry.
    entry_size: usize,
    /// The number of entries.
    count: usize,
    /// The index of the section of names.
    names_index: u64,
    ghost wide: { section_header_size layout.class ≤ entry_size },
    ghost whole: { count * entry_size ≤ length entries.now },
}

/// How many section headers a file has.
pub(crate) fn count_of(header: &Header, first: &SectionHeader) -> u64
    ensures { result ≡ count_of header.now first.now }
{
    match header.count {
        0 => first.size,
        count => u64::from(count),
    }
}

/// The index of the section of names.
pub(crate) fn names_index_of(header: &Header, first: &SectionHeader) -> u64
    ensures { result ≡ names_index_of header.now first.now }
{
    match header.names_index {
        XINDEX => u64::from(first.link),
        index => u64::from(index),
    }
}

/// Whether a text, which a zero byte ends, stands at an offset of the names.
pub(crate) fn is_name_at(names: &[u8], offset: u32, name: &[u8]) -> bool
    ensures { result ≡ is_name_at names.now offset name.now }
{
    let Some(text) = names.get(offset as usize..) else {
        return false;
    };
    if name.contains(&0) || !text.starts_with(name) {
        return false;
    }
    match &text[name.len()..] {
        [end, ..] => *end == 0,
        [] => false,
    }
}

impl<'a> SectionTable<'a> {
    ghost use Rattle.elf_sections.specs.SectionTable.{table_of};
    ghost use Rattle.elf_sections.specs.File.{IsLeast, IsGreatest};

    /// The section table that a file's header names.
    pub(crate) fn parse(
        layout: Layout,
        header: &Header,
        bytes: &'a [u8],
    ) -> Result<SectionTable<'a>, ElfError>
        ensures { result_map table_of result ≡ table_at layout header.now bytes.now }
    {
        if header.table_offset == 0 {
            return Ok(SectionTable::empty(layout));
        }
        let smallest = layout.section_header_size();
        let entry_size = usize::from(header.entry_size);
        if entry_size < smallest {
            return Err(ElfError::SectionHeaderSize(header.entry_size));
        }
        let Some(entries) = bytes.get(header.table_offset as usize..) else {
            return Err(ElfError::SectionTableCut);
        };
        if entries.len() < smallest {
            return Err(ElfError::SectionTableCut);
        }
        let first = SectionHeader::parse(layout, entries);
        let count = count_of(header, &first) as usize;
        match count.checked_mul(entry_size) {
            Some(size) if size <= entries.len() => Ok(SectionTable {
                layout,
                entries,
                entry_size,
                count,
                names_index: names_index_of(header, &first),
            }),
            _ => Err(ElfError::SectionTableCut),
        }
    }

    /// A table of no headers.
    fn empty(layout: Layout) -> SectionTable<'a>
        ensures headers { (table_of result).headers ≡ [] }
        ensures names_index { (table_of result).names_index ≡ 0 }
    {
        SectionTable {
            layout,
            entries: &[],
            entry_size: layout.section_header_size(),
            count: 0,
            names_index: UNDEF,
        }
    }

    /// How many headers there are.
    pub(crate) fn len(&self) -> usize
        ensures { result ≡ self.now.count }
    {
        self.count
    }

    /// The section header of an index; None where there is none.
    pub(crate) fn get(&self, index: usize) -> Option<SectionHeader>
        ensures { result ≡ slice_get (table_of self.now).headers index }
    {
        if index < self.count {
            Some(self.header(index))
        } else {
            None
        }
    }

    /// The table of so many entries, each of so many bytes.
    pub(crate) fn of_entries(
        layout: Layout,
        entries: &'a [u8],
        entry_size: usize,
        count: usize,
        names_index: u64,
    ) -> SectionTable<'a>
        requires wide { section_header_size layout.class ≤ entry_size }
        requires whole { count * entry_size ≤ length entries.now }
        ensures headers { (table_of result).headers
            ≡ section_headers layout entry_size count entries.entry.now }
        ensures names_index { (table_of result).names_index ≡ names_index }
    {
        SectionTable {
            layout,
            entries,
            entry_size,
            count,
            names_index,
        }
    }

    /// The section header of an index.
    pub(crate) fn header(&self, index: usize) -> SectionHeader
        requires { index < self.now.count }
        ensures { result ≡ section_header self.now.layout
            (drop (index * self.now.entry_size) self.now.entries.now) }
    {
        SectionHeader::parse(self.layout, &self.entries[index * self.entry_size..])
    }

    /// The names of the sections.
    pub(crate) fn names(&self, file: &'a [u8]) -> Result<&'a [u8], ElfError>
        ensures { result_map (λ names. names.now) result ≡ names_at file.now (table_of self.now) }
    {
        if self.names_index == UNDEF {
            return Ok(&[]);
        }
        let index = self.names_index as usize;
        if self.count <= index {
            return Err(ElfError::NamesCut);
        }
        match self.header(index).bytes_in(file) {
            Ok(names) => Ok(names),
            Err(_) => Err(ElfError::NamesCut),
        }
    }

    /// Where the names of the sections are in a file of a length.
    pub(crate) fn names_range(&self, length: u64) -> Result<FileRange, ElfError>
        ensures { result ≡ names_in_table length (table_of self.now) }
    {
        if self.names_index == UNDEF {
            return Ok(FileRange::NONE);
        }
        let index = self.names_index as usize;
        if self.count <= index {
            return Err(ElfError::NamesCut);
        }
        match self.header(index).range(length) {
            Ok(range) => Ok(range),
            Err(_) => Err(ElfError::NamesCut),
        }
    }

    /// The header of the first section of a name.
    pub(crate) fn find(&self, names: &[u8], name: &[u8]) -> Option<SectionHeader>
        ensures { result ≡ find (λ header. is_name_at names.now header.name name.now)
            (filter is_active (table_of self.now).headers) }
    {
        for index in 0..self.count {
            let header = self.header(index);
            if header.is_active() && is_name_at(names, header.name, name) {
                return Some(header);
            }
        }
        None
    }

    /// The index of the first section of a name.
    pub(crate) fn index_of(&self, names: &[u8], name: &[u8]) -> Option<usize>
        ensures { result ≡ position_from (λ header. is_active header
            && is_name_at names.now header.name name.now) 0 (table_of self.now).headers }
    {
        for index in 0..self.count {
            let found = self.header(index);
            if found.is_active() && is_name_at(names, found.name, name) {
                return Some(index);
            }
        }
        None
    }

    /// Where the sections of code are.
    pub(crate) fn code_bounds(&self) -> Option<CodeBounds>
        ensures lowest { let addresses = map (λ header. header.address) (filter is_code
            (filter is_active (table_of self.now).headers)) in
            MatchOption result (addresses ≡ []) (λ bounds. IsLeast addresses bounds.lowest) }
        ensures end { let ends = map end_of (filter is_code
            (filter is_active (table_of self.now).headers)) in
            MatchOption result (ends ≡ []) (λ bounds. IsGreatest ends bounds.end) }
    {
        let mut bounds = None;
        for index in 0..self.count {
            let header = self.header(index);
            if header.is_active() && header.is_code() {
                bounds = Some(widened(bounds, &header));
            }
        }
        bounds
    }

    /// The end of each section of code, by its index; 0 for any other section.
    pub(crate) fn code_ends(&self, alloc: Global) -> Result<Vec<u64>, AllocError>
        ensures { IfOk result (λ ends. ends.items ≡ map code_end_of (table_of self.now).headers) }
    {
        let mut ends = Vec::new(alloc);
        for index in 0..self.count {
            ends.push(self.header(index).code_end())?;
        }
        Ok(ends)
    }
}
