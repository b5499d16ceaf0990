//! The sections of code of an object file, one after the other: so each byte of code has an address
//! of its own, although the object isn't linked.

use elf_sections::{ElfError, FileHeader, FileRange, SymbolTable};
use gimli_core::{Endianity, RunTimeEndian};
use std::alloc::{AllocError, Global};

/// Where the first section starts. Below it, no number is an address in a section of code.
const FIRST: u64 = 1 << 24;

/// How many bytes are left free after each section, so that its end is no address of the next one.
const GAP: u64 = 16;

/// A section of code, where it is placed.
#[derive(Clone, Copy)]
struct PlacedSection {
    start: u64,
    end: u64,
    /// Where its name is among those of sections.
    name: u32,
}

/// Where the sections of code of an object file are placed.
#[derive(Drop)]
pub(crate) struct CodeLayout {
    /// Where each section starts, by its index; 0 of one without code.
    starts: Vec<u64>,
    /// Those of code, in ascending order.
    placed: Vec<PlacedSection>,
    /// The names of sections.
    names: Vec<u8>,
}

impl CodeLayout {
    /// No section is placed.
    pub(crate) fn none(alloc: Global) -> CodeLayout {
        CodeLayout {
            starts: Vec::new(alloc),
            placed: Vec::new(alloc),
            names: Vec::new(alloc),
        }
    }

    /// An address below which no section is placed.
    pub(crate) fn lowest(&self) -> u64 {
        FIRST
    }

    /// Places the sections of an object file, of which those of code have these sizes, by their
    /// indices. False where they would end past the greatest address.
    pub(crate) fn place_all(
        &mut self,
        sections: &SectionNames<'_>,
        sizes: &[u64],
        greatest: u64,
    ) -> Result<bool, AllocError> {
        self.names.extend_from_slice(sections.names)?;
        let mut next = FIRST;
        for (index, size) in sizes.iter().enumerate() {
            let start = if *size == 0 { 0 } else { next };
            self.starts.push(start)?;
            if *size > 0 {
                let end = next.saturating_add(*size);
                let name = sections.offset_of(index, sizes.len());
                self.placed.push(PlacedSection { start, end, name })?;
                next = end.saturating_add(GAP);
            }
        }
        Ok(next <= greatest)
    }

    /// Where the section of an index starts; 0 where it isn't placed.
    pub(crate) fn start_of(&self, index: u16) -> u64 {
        *self.starts.get(usize::from(index)).unwrap_or(&0)
    }

    /// The name of the section that has an address, or ends there, and the offset in it; None if no
    /// section is placed there.
    pub(crate) fn place_of(&self, address: u64) -> Option<(&[u8], u64)> {
        let after = self
            .placed
            .partition_point(|section| section.start <= address);
        let section = self.placed.get(after.checked_sub(1)?)?;
        if section.end < address {
            return None;
        }
        let names = SymbolTable::new(false, 8, &[], &self.names);
        let name = names.name(section.name).unwrap_or(b"");
        Some((name, address.checked_sub(section.start)?))
    }
}

/// The section headers of a file, for the names in them.
#[derive(Clone, Copy)]
pub(crate) struct SectionNames<'f> {
    order: RunTimeEndian,
    entries: &'f [u8],
    names: &'f [u8],
}

impl<'f> SectionNames<'f> {
    /// Those of a file.
    pub(crate) fn new(order: RunTimeEndian, file: &'f [u8]) -> Result<SectionNames<'f>, ElfError> {
        let header = FileHeader::parse(file, file.len() as u64)?;
        let table = header.table(bytes_in(file, header.first_entry()?))?;
        let entries = bytes_in(file, table.range());
        let names = bytes_in(file, table.names(entries)?);
        Ok(SectionNames {
            order,
            entries,
            names,
        })
    }

    /// The offset of the name of the section at `index` among the names of `count` sections
    /// (`sh_name`, the first four bytes of a header); 0 if it can't be known.
    fn offset_of(&self, index: usize, count: usize) -> u32 {
        let size = self.entries.len() / count.max(1);
        let entry = index
            .checked_mul(size)
            .and_then(|at| self.entries.get(at..));
        word_at(self.order, entry.unwrap_or(&[]), 0).unwrap_or(0)
    }
}

/// The bytes of a part of a file; none where it isn't in the file.
fn bytes_in(file: &[u8], range: FileRange) -> &[u8] {
    let (Ok(start), Ok(size)) = (usize::try_from(range.offset), usize::try_from(range.size)) else {
        return &[];
    };
    file.get(start..start.saturating_add(size)).unwrap_or(&[])
}

/// The number of four bytes.
pub(crate) fn word_at(order: RunTimeEndian, bytes: &[u8], at: usize) -> Option<u32> {
    let word = bytes.get(at..)?;
    if word.len() < 4 {
        return None;
    }
    Some(order.read_u32(word))
}
