//! A file whose sections are read one by one.

ghost use Rattle.std.specs.Prelude.{◌≡◌, IfOk, MatchOption, Ok, None, codes};
ghost use Rattle.debug_files.specs.Outlines.{section_in, Holds};

use crate::directories::LinePrograms;
use crate::missing::Missing;
use crate::outline::{Outline, checksum, whole};
use crate::source::{FoundSections, PathSections, UnitSections, Wanted};
use elf_sections::usual_limit;
use std::alloc::Global;
use std::fs;
use std::fs::File;
use std::io::{Read, Seek};
use std::rt::Files;

/// The name and the checksum of a debug file.
#[derive(Drop)]
pub(crate) struct Link {
    pub(crate) name: String,
    pub(crate) checksum: u32,
}

/// A file that is open, and what its sections are known by.
///
/// <!-- part of crates/lines_inputs/src/late_sections.rt -->
/// ```rust
/// self.units.get_or_try_init(|| file.units(alloc))
/// ```
#[derive(Drop)]
pub struct ProgramFile<F> {
    file: F,
    outline: Outline,
    /// The most bytes that a section of it may have, once it is decompressed.
    limit: u64,
}

impl<F: Read + Seek> ProgramFile<F> {
    /// Whether it is an object file, which isn't linked.
    pub(crate) fn is_relocatable(&self) -> Result<bool, Missing> {
        let sections = self.outline.sections()?;
        Ok(sections.is_relocatable())
    }

    /// The lowest address of code, 0 where none is known.
    pub(crate) fn lowest(&self) -> Result<u64, Missing> {
        let sections = self.outline.sections()?;
        Ok(sections.lowest_code_address().unwrap_or(0))
    }

    /// The end of code, the greatest address where none is known.
    pub(crate) fn code_end(&self) -> Result<u64, Missing> {
        let sections = self.outline.sections()?;
        Ok(sections.code_end().unwrap_or(u64::MAX))
    }

    /// All its bytes.
    pub(crate) fn whole(&mut self, alloc: Global) -> Result<Vec<u8>, Missing> {
        let bytes = whole(alloc, &mut self.file)?;
        Ok(bytes)
    }

    /// The sections that a command reads; None where there are no line programs.
    pub(crate) fn source(
        &mut self,
        alloc: Global,
        wanted: Wanted,
    ) -> Result<Option<FoundSections>, Missing>
        ensures { let outline = self.old.outline in let name = codes ".debug_line" in
            IfOk result (λ found. MatchOption found (section_in outline name ≡ Ok None)
            (λ source. Holds outline self.old.limit name source.lines.items)) }
    {
        let Some(lines) = self.section(alloc, b".debug_line")? else {
            return Ok(None);
        };
        let paths = match wanted {
            Wanted::Lines => PathSections::none(alloc),
            _ => self.path_sections(alloc, &lines, wanted)?,
        };
        let (symbols, symbol_names) = self.wanted_symbols(alloc, wanted)?;
        let lowest = self.lowest()?;
        let code_end = self.code_end()?;
        let sections = self.outline.sections()?;
        let code_ends = match wanted.has_symbols() {
            true => sections.code_ends(alloc)?,
            false => Vec::new(alloc),
        };
        Ok(Some(FoundSections {
            is_big_endian: sections.is_big_endian(),
            address_size: sections.address_size(),
            lowest,
            code_end,
            limit: self.limit,
            lines,
            paths,
            symbols,
            symbol_names,
            code_ends,
        }))
    }

    /// The texts that line programs name, and where whole paths are wanted and need them, the
    /// sections of units; of these only `.debug_line_str` where the others are read later.
    fn path_sections(
        &mut self,
        alloc: Global,
        lines: &[u8],
        wanted: Wanted,
    ) -> Result<PathSections, Missing> {
        let line_str = self.texts(alloc, b".debug_line_str")?;
        match wanted {
            Wanted::Rows | Wanted::RowsAndSymbols => {
                Ok(PathSections::of_texts(alloc, line_str, Vec::new(alloc)))
            }
            _ => self.needed_sections(alloc, lines, line_str, wanted),
        }
    }

    /// `.debug_line_str` and the other strings that line programs name, and where whole paths are
    /// wanted and need them, the sections of units.
    fn needed_sections(
        &mut self,
        alloc: Global,
        lines: &[u8],
        line_str: Vec<u8>,
        wanted: Wanted,
    ) -> Result<PathSections, Missing> {
        let sections = self.outline.sections()?;
        let programs = LinePrograms {
            alloc,
            lines,
            line_str: &line_str,
            is_big_endian: sections.is_big_endian(),
            is_64_bit: sections.address_size() == 8,
        };
        let mut strings = Vec::new(alloc);
        let has_strings = programs.need_strings();
        if has_strings {
            strings = self.strings(alloc)?;
        }
        if wanted == Wanted::Names || !programs.need_units(&strings) {
            return Ok(PathSections::of_texts(alloc, line_str, strings));
        }
        if !has_strings {
            strings = self.strings(alloc)?;
        }
        let units = self.units(alloc)?;
        Ok(PathSections {
            line_str,
            strings,
            info: units.info,
            abbreviations: units.abbreviations,
            string_offsets: units.string_offsets,
        })
    }

    /// The texts (`.debug_str`); no bytes where there is no such section. Refused where it can't be
    /// read, or the limit forbids it.
    pub fn strings(&mut self, alloc: Global) -> Result<Vec<u8>, Missing> {
        self.texts(alloc, b".debug_str")
    }

    /// The sections that say where compilations ran. Refused only where memory is missing for one
    /// of them, or the limit forbids it, or the file can't be read.
    pub fn units(&mut self, alloc: Global) -> Result<UnitSections, Missing> {
        Ok(UnitSections {
            info: self.readable(alloc, b".debug_info")?,
            abbreviations: self.readable(alloc, b".debug_abbrev")?,
            string_offsets: self.readable(alloc, b".debug_str_offsets")?,
        })
    }

    /// The symbols, and their names, where these are wanted.
    fn wanted_symbols(
        &mut self,
        alloc: Global,
        wanted: Wanted,
    ) -> Result<(Vec<u8>, Vec<u8>), Missing> {
        if wanted.has_symbols() {
            self.symbol_sections(alloc)
        } else {
            Ok((Vec::new(alloc), Vec::new(alloc)))
        }
    }

    /// The symbols, and their names: all of them, or else those for linking when it runs.
    fn symbol_sections(&mut self, alloc: Global) -> Result<(Vec<u8>, Vec<u8>), Missing> {
        let symbols = self.readable(alloc, b".symtab")?;
        if symbols.is_empty() {
            let symbols = self.readable(alloc, b".dynsym")?;
            let names = self.readable(alloc, b".dynstr")?;
            return Ok((symbols, names));
        }
        let names = self.readable(alloc, b".strtab")?;
        Ok((symbols, names))
    }

    /// The bytes of a section.
    fn section(&mut self, alloc: Global, name: &[u8]) -> Result<Option<Vec<u8>>, Missing>
        ensures outline { self.new.outline ≡ self.old.outline }
        ensures held { let outline = self.old.outline in
            IfOk result (λ found. MatchOption found (section_in outline name.now ≡ Ok None)
            (λ held. Holds outline self.old.limit name.now held.items)) }
    {
        let bytes = self
            .outline
            .section(alloc, &mut self.file, name, self.limit)?;
        Ok(bytes)
    }

    /// The bytes of a section of texts, none where there is no such section.
    fn texts(&mut self, alloc: Global, name: &[u8]) -> Result<Vec<u8>, Missing> {
        match self.section(alloc, name)? {
            Some(bytes) => Ok(bytes),
            None => Ok(Vec::new(alloc)),
        }
    }

    /// The bytes of a section of units. No bytes if there is no such section, or if it can't be
    /// read: paths then stay as the line programs have them. Refused if memory is missing, or if
    /// the limit forbids it.
    fn readable(&mut self, alloc: Global, name: &[u8]) -> Result<Vec<u8>, Missing> {
        match self.texts(alloc, name) {
            Ok(bytes) => Ok(bytes),
            Err(Missing::Elf(error)) if !error.is_for_memory() => Ok(Vec::new(alloc)),
            Err(missing) => Err(missing),
        }
    }

    /// Its build id.
    pub(crate) fn build_id(&mut self, alloc: Global) -> Result<Option<Vec<u8>>, Missing> {
        let Some(section) = self.section(alloc, b".note.gnu.build-id")? else {
            return Ok(None);
        };
        let sections = self.outline.sections()?;
        match sections.build_id(&section) {
            Some(id) => Ok(Some(Vec::from_slice(alloc, id)?)),
            None => Ok(None),
        }
    }

    /// The name and the checksum of its debug file. Skips a name that isn't UTF-8.
    pub(crate) fn debug_link(&mut self, alloc: Global) -> Result<Option<Link>, Missing> {
        let Some(section) = self.section(alloc, b".gnu_debuglink")? else {
            return Ok(None);
        };
        let sections = self.outline.sections()?;
        let Some(link) = sections.debug_link(&section) else {
            return Ok(None);
        };
        match str::from_utf8(link.name) {
            Ok(name) => Ok(Some(Link {
                name: String::from_str(alloc, name)?,
                checksum: link.checksum,
            })),
            Err(_) => Ok(None),
        }
    }

    /// The checksum of all its bytes.
    pub(crate) fn checksum(&mut self, alloc: Global) -> Result<u32, Missing> {
        let sum = checksum(alloc, &mut self.file)?;
        Ok(sum)
    }
}

/// Opens a file, and reads what its sections are known by. The usual limit goes by its size.
pub(crate) fn open<R: Files + AllocGlobal>(
    rt: &R,
    path: &str,
    limit: Option<u64>,
) -> Result<ProgramFile<R::File>, Missing> {
    // Checked before the file is opened: opening a pipe may take for ever.
    let found = fs::metadata(rt, path)?;
    if !found.is_file() {
        return Err(Missing::NotRegular);
    }
    let mut file = File::open(rt, path)?;
    check_start(&mut file)?;
    let outline = Outline::read(rt.alloc(), &mut file)?;
    Ok(ProgramFile {
        file,
        outline,
        limit: limit.unwrap_or(usual_limit(found.len())),
    })
}

/// Refuses a file that by its first bytes is an archive, or the memory of a program that ended.
fn check_start<F: Read>(file: &mut F) -> Result<(), Missing> {
    let mut start = [0; 18];
    let count = file.read(&mut start)?;
    if is_archive(&start) {
        return Err(Missing::Archive);
    }
    if count == start.len() && is_core(start) {
        return Err(Missing::Core);
    }
    Ok(())
}

/// Whether a file begins as an archive of object files does, whose members are in it, or as a thin
/// one, whose members are files by themselves.
pub fn is_archive(file: &[u8]) -> bool {
    file.starts_with(b"!<arch>\n") || file.starts_with(b"!<thin>\n")
}

/// Whether a file begins as the memory of a program that ended does (System V ABI, chapter 4:
/// `e_type` is `ET_CORE`, 4, in the order of bytes that `EI_DATA` says).
fn is_core(start: [u8; 18]) -> bool {
    match start {
        [0x7f, b'E', b'L', b'F', _, 2, ..] => start[16..] == [0, 4],
        [0x7f, b'E', b'L', b'F', ..] => start[16..] == [4, 0],
        _ => false,
    }
}
