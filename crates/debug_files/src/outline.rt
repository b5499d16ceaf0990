//! What is read of a file: its sections, without the rest.

ghost use Rattle.std.specs.Prelude.{◌≡◌, IfOk, MatchOption, Ok, None, vec_len};
ghost use Rattle.gimli_core.specs.Reading.{result_map};
ghost use Rattle.elf_sections.specs.SeekingViews.{list_of};
ghost use Rattle.debug_files.specs.Outlines.{outlined, section_in, Holds};

use crate::refusal::Refusal;
use elf_sections::{ElfError, FileHeader, FileRange, FileTable, SectionList, crc32_more};
use std::alloc::Global;
use std::io;
use std::io::{Read, Seek, SeekFrom};

/// The bytes of a file that are read at once for its checksum.
const PIECE: usize = 65536;

/// What the sections of a file are known by: its section table, and their names.
#[derive(Drop)]
pub struct Outline {
    table: FileTable,
    entries: Vec<u8>,
    names: Vec<u8>,
}

/// The bytes of a part of a file.
fn bytes_of<F: Read + Seek>(alloc: Global, file: &mut F, range: FileRange) -> io::Result<Vec<u8>>
    ensures { IfOk result (λ bytes. vec_len bytes ≡ range.size) }
{
    let mut bytes = vec![in alloc; 0u8; range.size as usize]?;
    if !bytes.is_empty() {
        file.seek(SeekFrom::Start(range.offset))?;
        file.read_exact(&mut bytes)?;
    }
    Ok(bytes)
}

impl Outline {
    /// Reads the header of a file, its section table and the names of its sections. It takes memory
    /// for these alone. Refused as [`elf_sections::Elf::parse`] refuses the file, and where the
    /// file can't be read or sought in, or changes meanwhile.
    pub fn read<F: Read + Seek>(alloc: Global, file: &mut F) -> Result<Outline, Refusal> {
        let length = file.seek(SeekFrom::End(0))?;
        let start = FileRange {
            offset: 0,
            size: length.min(FileHeader::SIZE as u64),
        };
        let start = bytes_of(alloc, file, start)?;
        let header = FileHeader::parse(&start, length)?;
        let first = bytes_of(alloc, file, header.first_entry()?)?;
        let table = header.table(&first)?;
        let entries = bytes_of(alloc, file, table.range())?;
        let names = bytes_of(alloc, file, table.names(&entries)?)?;
        Ok(Outline {
            table,
            entries,
            names,
        })
    }

    /// The sections of the file.
    pub fn sections(&self) -> Result<SectionList<'_>, ElfError>
        ensures { result_map list_of result ≡ outlined self.now }
    {
        SectionList::new(&self.table, &self.entries, &self.names)
    }

    /// What the first section of a name holds, uncompressed; None where there is none. It reads the
    /// bytes of that section alone. Refused as [`elf_sections::Elf::section_data`] refuses it by
    /// the limit, in bytes, and where the file can't be read.
    pub fn section<F: Read + Seek>(
        &self,
        alloc: Global,
        file: &mut F,
        name: &[u8],
        limit: u64,
    ) -> Result<Option<Vec<u8>>, Refusal>
        // None means that no section has the name; else the result is what the section's bytes
        // hold, as they were read.
        ensures { IfOk result (λ found.
            MatchOption found (section_in self.now name.now ≡ Ok None)
            (λ held. Holds self.now limit name.now held.items)) }
    {
        let sections = self.sections()?;
        let Some(section) = sections.stored(alloc, name)? else {
            return Ok(None);
        };
        let bytes = bytes_of(alloc, file, section.range())?;
        let held = section.section_data(alloc, bytes, limit)?;
        Ok(Some(held))
    }
}

/// All bytes of a file.
pub(crate) fn whole<F: Read + Seek>(alloc: Global, file: &mut F) -> io::Result<Vec<u8>> {
    let size = file.seek(SeekFrom::End(0))?;
    bytes_of(alloc, file, FileRange { offset: 0, size })
}

/// The checksum of a file, as [`elf_sections::crc32`] of all its bytes, which are read in pieces.
pub fn checksum<F: Read + Seek>(alloc: Global, file: &mut F) -> io::Result<u32> {
    file.seek(SeekFrom::Start(0))?;
    let mut piece = vec![in alloc; 0u8; PIECE]?;
    let mut sum = 0;
    for _ in 0..u64::MAX {
        let count = file.read(&mut piece)?;
        if count == 0 {
            break;
        }
        sum = crc32_more(sum, &piece[..count]);
    }
    Ok(sum)
}
