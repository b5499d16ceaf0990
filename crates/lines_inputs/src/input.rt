//! The sections of a program, lent by its file or made anew, and why they can't be read.

ghost use Rattle.std.specs.Prelude.{◌≡◌, Bool, ℕ, List, IfErr, IfOk, Ok, OnOk, Some, true};
ghost use Rattle.std.specs.Option.{option_map};
ghost use Rattle.elf_sections.specs.Elf.{file_of};
ghost use Rattle.elf_sections.specs.Gives.{Gives};
ghost use Rattle.elf_sections.specs.Relocating.{relocated_at};
ghost use Rattle.elf_sections.specs.SectionBytes.{bytes_of};
ghost use Rattle.elf_sections.specs.Fault.{is_for_memory};
ghost use Rattle.lines_inputs.specs.Lines.{HasLines, lines_name};

use crate::code_layout::{CodeLayout, SectionNames};
use crate::functions::Functions;
use crate::moved_lines::Relocations;
use debug_files::{LinePrograms, is_archive};
use elf_sections::{Elf, ElfError, SectionBytes, SectionPlace, SymbolTable};
use gimli_compilation::CompilationSections;
use gimli_core::{EndianSlice, Endianity, Reader, ReaderOffset, Section};
use gimli_line::DebugLine;
use gimli_lookup::StringSections;
use line_text::Slice;
use lines_words::{Files, InputKind, Notation, Output, UnitFiles};
use std::alloc::{AllocError, Global};
use std::fmt;

/// Why an object file is refused where an index is made.
const NOT_LINKED: &str = "an object file, whose addresses are not known before it is linked; \
    the commands where, at and source take it by its sections and functions";

/// Why a file of split DWARF is refused by a command that needs rows (DWARF 5, section 7.3.2).
const SPLIT: &str = "a file of split DWARF (.dwo, .dwp), which has no rows of code; name the \
    program that it was split from";

/// The sections of a program that a command reads.
#[derive(Clone, Copy)]
pub struct Input<R> {
    /// The line programs.
    pub lines: DebugLine<R>,
    /// The sections of texts.
    pub strings: StringSections<R>,
    /// The sections that say where compilations ran.
    pub compilations: CompilationSections<R>,
    /// How they are read, and where code is.
    pub notation: Notation,
    /// Whether code has its addresses. In an object file each section stands at 0.
    pub is_linked: bool,
    /// Whether it is a file of split DWARF, which names files and has no rows.
    pub is_split: bool,
}

impl<R: Reader> Input<R> {
    /// The length of the section of line programs in bytes.
    pub fn length(&self) -> u64 {
        self.lines.reader().len().into_u64()
    }

    /// The number of bytes of all its sections, decompressed.
    pub fn all_bytes(&self) -> u64 {
        let sections = [
            self.lines.reader(),
            &self.strings.debug_line_str,
            &self.strings.debug_str,
            &self.compilations.debug_info,
            &self.compilations.debug_abbrev,
            &self.compilations.debug_str_offsets,
        ];
        let mut all = 0u64;
        for section in sections {
            all = all.saturating_add(section.len().into_u64());
        }
        all
    }

    /// This program with these strings instead of its `.debug_str`.
    pub(crate) fn with_strings(&self, debug_str: R) -> Input<R> {
        let debug_line_str = self.strings.debug_line_str;
        Input {
            strings: StringSections {
                debug_line_str,
                debug_str,
            },
            compilations: CompilationSections {
                debug_str,
                ..self.compilations
            },
            ..*self
        }
    }

    /// This program with these sections instead of its own that say where compilations ran.
    pub(crate) fn with_units(
        &self,
        debug_info: R,
        debug_abbrev: R,
        debug_str_offsets: R,
    ) -> Input<R> {
        Input {
            compilations: CompilationSections {
                debug_info,
                debug_abbrev,
                debug_str_offsets,
                ..self.compilations
            },
            ..*self
        }
    }

    /// Why a command that needs addresses refuses it, where it isn't linked.
    pub fn refusal(&self) -> &'static str {
        if self.is_split { SPLIT } else { NOT_LINKED }
    }
}

/// The sections of a program that commands read, and how they are read. An [`Input`] borrows from
/// it.
#[derive(Drop)]
pub struct InputSections<'i> {
    notation: Notation,
    /// The line programs.
    lines: SectionBytes<'i>,
    /// The sections beside them.
    others: OtherSections<'i>,
    /// Whether it is no object file.
    is_linked: bool,
    /// Whether it is a file of split DWARF.
    is_split: bool,
    /// Which addresses count in an object file.
    place: SectionPlace,
    /// Where its sections of code are placed, where they are.
    layout: CodeLayout,
}

/// The sections of units; no bytes where none is needed.
#[derive(Drop)]
struct UnitSections<'i> {
    info: SectionBytes<'i>,
    abbreviations: SectionBytes<'i>,
    string_offsets: SectionBytes<'i>,
}

impl<'i> UnitSections<'i> {
    /// Sections by themselves.
    fn lent(files: UnitFiles<'i>) -> UnitSections<'i> {
        UnitSections {
            info: SectionBytes::Lent(files.info),
            abbreviations: SectionBytes::Lent(files.abbreviations),
            string_offsets: SectionBytes::Lent(files.string_offsets),
        }
    }

    /// The sections of an ELF file. One that is missing or can't be read counts as empty: paths
    /// stay as the line programs have them.
    fn of_elf(source: SectionSource<'i>) -> Result<UnitSections<'i>, ElfError> {
        Ok(UnitSections {
            info: source.readable(b".debug_info")?,
            abbreviations: source.readable(b".debug_abbrev")?,
            string_offsets: source.readable(b".debug_str_offsets")?,
        })
    }
}

/// The sections that paths are made of.
#[derive(Drop)]
struct PathInputs<'i> {
    line_str: SectionBytes<'i>,
    strings: SectionBytes<'i>,
    units: UnitSections<'i>,
}

impl<'i> PathInputs<'i> {
    /// Sections by themselves.
    fn lent(files: Files<'i>) -> PathInputs<'i> {
        PathInputs {
            line_str: SectionBytes::Lent(files.line_str),
            strings: SectionBytes::Lent(files.strings),
            units: UnitSections::lent(files.units),
        }
    }

    /// The sections of an ELF file with these line programs. A section of texts that is named apart
    /// from it takes the place of its own. The units are read, and so is `.debug_str`, only if some
    /// line program needs them.
    fn of_elf(source: SectionSource<'i>, lines: &[u8]) -> Result<PathInputs<'i>, ElfError> {
        let line_str = source.texts(b".debug_line_str", source.files.line_str)?;
        let programs = LinePrograms {
            alloc: source.alloc,
            lines,
            line_str: line_str.as_slice(),
            is_big_endian: source.elf.is_big_endian(),
            is_64_bit: source.elf.address_size() == 8,
        };
        let mut strings = SectionBytes::Lent(source.files.strings);
        if programs.need_strings() {
            strings = source.texts(b".debug_str", source.files.strings)?;
        }
        let mut units = UnitSections::lent(UnitFiles::default());
        if programs.need_units(strings.as_slice()) {
            strings = source.texts(b".debug_str", source.files.strings)?;
            units = UnitSections::of_elf(source)?;
        }
        Ok(PathInputs {
            line_str,
            strings,
            units,
        })
    }
}

/// The sections other than the line programs, as `Files` has them.
#[derive(Drop)]
struct OtherSections<'i> {
    paths: PathInputs<'i>,
    symbols: SectionBytes<'i>,
    symbol_names: SectionBytes<'i>,
    code_ends: Vec<u64>,
}

impl<'i> OtherSections<'i> {
    /// Sections by themselves.
    fn lent(alloc: Global, files: Files<'i>) -> Result<OtherSections<'i>, ElfError> {
        Ok(OtherSections {
            paths: PathInputs::lent(files),
            symbols: SectionBytes::Lent(files.symbols),
            symbol_names: SectionBytes::Lent(files.symbol_names),
            code_ends: Vec::from_slice(alloc, files.code_ends)?,
        })
    }

    /// The sections of an ELF file, of symbols all, or else those for linking when it runs. If they
    /// are missing or can't be read, code has no names. A section above the limit is refused.
    fn of_elf(source: SectionSource<'i>, lines: &[u8]) -> Result<OtherSections<'i>, ElfError> {
        let mut symbols = source.readable(b".symtab")?;
        let has_all = !symbols.as_slice().is_empty();
        if !has_all {
            symbols = source.readable(b".dynsym")?;
        }
        Ok(OtherSections {
            symbols,
            symbol_names: source.readable(if has_all { b".strtab" } else { b".dynstr" })?,
            paths: PathInputs::of_elf(source, lines)?,
            code_ends: source.elf.code_ends(source.alloc)?,
        })
    }
}

impl OtherSections<'_> {
    /// The symbols, as the numbers of their file are read.
    fn symbol_table(&self, notation: Notation) -> SymbolTable<'_> {
        SymbolTable::new(
            notation.order.is_big_endian(),
            notation.address_size.bytes(),
            self.symbols.as_slice(),
            self.symbol_names.as_slice(),
        )
    }
}

impl<'i> InputSections<'i> {
    /// The sections of files; in an object file each section stands at 0. Refused as `InputError`
    /// says.
    pub fn new(
        alloc: Global,
        kind: InputKind,
        files: Files<'i>,
    ) -> Result<InputSections<'i>, InputError>
        ensures elf { kind ≡ InputKind.Elf → OnOk result
            (HasLines files.entry.limit files.entry.file.now) }
    {
        match kind {
            InputKind::Elf if is_archive(files.file) => Err(InputError::Archive),
            InputKind::Elf => {
                let elf = Elf::parse(files.file)?;
                let program = InputSections::of_elf(alloc, files, elf, SectionPlace::AllAtZero)?;
                Ok(program)
            }
            InputKind::Raw(notation) => Ok(InputSections {
                notation,
                lines: SectionBytes::Lent(files.file),
                others: OtherSections::lent(alloc, files)?,
                is_linked: true,
                is_split: false,
                place: SectionPlace::AllAtZero,
                layout: CodeLayout::none(alloc),
            }),
        }
    }

    /// The sections of an object file, where the addresses in one section alone count. None where
    /// no section has the name.
    pub fn of_section(
        alloc: Global,
        files: Files<'i>,
        name: &[u8],
    ) -> Result<Option<InputSections<'i>>, InputError> {
        let elf = Elf::parse(files.file)?;
        let Some(index) = elf.section_index(name) else {
            return Ok(None);
        };
        let program = InputSections::of_elf(alloc, files, elf, SectionPlace::Only(index))?;
        Ok(Some(program))
    }

    /// The sections of an object file, where the addresses in the section that has the first
    /// function of a name count. None where there is no such function.
    pub fn of_function(
        alloc: Global,
        files: Files<'i>,
        name: &[u8],
    ) -> Result<Option<InputSections<'i>>, InputError> {
        let elf = Elf::parse(files.file)?;
        let all = InputSections::of_elf(alloc, files, elf, SectionPlace::AllAtZero)?;
        let functions = all.functions(alloc).map_err(ElfError::from)?;
        let Some(section) = functions.section_of(name) else {
            return Ok(None);
        };
        let place = SectionPlace::Only(usize::from(section));
        let program = InputSections::of_elf(alloc, files, elf, place)?;
        Ok(Some(program))
    }

    /// The sections of an ELF file. Those of an object file stand at a place.
    fn of_elf(
        alloc: Global,
        files: Files<'i>,
        elf: Elf<'i>,
        place: SectionPlace,
    ) -> Result<InputSections<'i>, InputError>
        ensures { OnOk result ((is_split : Bool) × (section : List ℕ)
            × (relocated_at (file_of elf.entry) place files.entry.limit (lines_name is_split)
            ≡ Ok (Some section))) }
    {
        let source = SectionSource {
            alloc,
            files,
            elf,
            place,
        };
        let (lines, is_split) = source.lines()?;
        let is_linked = !elf.is_relocatable();
        let lowest = elf.lowest_code_address().filter(|_| is_linked);
        let lowest = lowest.unwrap_or(0);
        let code_end = elf.code_end().filter(|_| is_linked);
        let code_end = code_end.unwrap_or(u64::MAX);
        let others = OtherSections::of_elf(source, lines.as_slice())?;
        Ok(InputSections {
            notation: Notation::new(elf.is_big_endian(), elf.address_size(), lowest, code_end),
            lines,
            others,
            is_linked,
            is_split,
            place,
            layout: CodeLayout::none(alloc),
        })
    }

    /// The sections of an object file, of which those of code are placed one after the other, so
    /// that each has addresses of its own. None if an address would be too great.
    pub fn laid_out(
        alloc: Global,
        files: Files<'i>,
    ) -> Result<Option<InputSections<'i>>, InputError> {
        let elf = Elf::parse(files.file)?;
        let mut program = InputSections::of_elf(alloc, files, elf, SectionPlace::AllAtZero)?;
        match program.lay_out(elf, files.file) {
            Ok(true) => Ok(Some(program)),
            Ok(false) => Ok(None),
            Err(error) => Err(InputError::Elf(error)),
        }
    }

    /// Places the sections of code of an object file, and moves the addresses in line programs
    /// there. False if an address would be too great.
    fn lay_out(&mut self, elf: Elf<'i>, file: &'i [u8]) -> Result<bool, ElfError> {
        let order = self.notation.order;
        let is_64_bit = self.notation.address_size.bytes() == 8;
        let greatest = if is_64_bit {
            u64::MAX
        } else {
            u64::from(u32::MAX)
        };
        let sections = SectionNames::new(order, file)?;
        let sizes = &self.others.code_ends;
        if !self.layout.place_all(&sections, sizes, greatest)? {
            return Ok(false);
        }
        self.notation.lowest = self.layout.lowest();
        self.move_lines(elf, file, is_64_bit)?;
        Ok(true)
    }

    /// Moves the addresses in line programs to where sections are placed.
    fn move_lines(
        &mut self,
        elf: Elf<'i>,
        file: &'i [u8],
        is_64_bit: bool,
    ) -> Result<(), ElfError> {
        let with_addends = elf.section(b".rela.debug_line")?.unwrap_or(&[]);
        let others = elf.section(b".rel.debug_line")?.unwrap_or(&[]);
        let relocations = Relocations {
            order: self.notation.order,
            is_64_bit,
            file,
            symbols: self.others.symbol_table(self.notation),
            layout: &self.layout,
        };
        if let SectionBytes::Made(lines) = &mut self.lines {
            relocations.move_addresses(with_addends, true, lines);
            relocations.move_addresses(others, false, lines);
        }
        Ok(())
    }

    /// The bytes of the line programs.
    pub fn lines(&self) -> &[u8]
        ensures { result.now ≡ bytes_of self.now.lines }
    {
        self.lines.as_slice()
    }

    /// The functions; in an object file those of the section whose addresses count, or of all that
    /// are placed.
    pub fn functions(&self, alloc: Global) -> Result<Functions<'_>, AllocError> {
        let section = match self.place {
            SectionPlace::Only(index) => u16::try_from(index).ok(),
            SectionPlace::AllAtZero => None,
        };
        let names = self.others.symbol_names.as_slice();
        Functions::new(
            alloc,
            self.others.symbol_table(self.notation),
            names,
            &self.layout,
            section,
            &self.others.code_ends,
        )
    }

    /// The sections as commands read them.
    pub fn input(&self) -> Input<Slice<'_>> {
        let order = self.notation.order;
        let paths = &self.others.paths;
        let debug_line_str = EndianSlice::new(paths.line_str.as_slice(), order);
        let debug_str = EndianSlice::new(paths.strings.as_slice(), order);
        Input {
            lines: DebugLine::new(self.lines.as_slice(), order),
            strings: StringSections {
                debug_line_str,
                debug_str,
            },
            compilations: CompilationSections {
                debug_info: EndianSlice::new(paths.units.info.as_slice(), order),
                debug_abbrev: EndianSlice::new(paths.units.abbreviations.as_slice(), order),
                debug_str,
                debug_line_str,
                debug_str_offsets: EndianSlice::new(paths.units.string_offsets.as_slice(), order),
            },
            notation: self.notation,
            is_linked: self.is_linked,
            is_split: self.is_split,
        }
    }
}

/// An ELF file whose sections are read.
#[derive(Clone, Copy)]
struct SectionSource<'i> {
    /// Makes memory for what isn't lent by the file.
    alloc: Global,
    /// The file, and sections of texts that are named apart from it.
    files: Files<'i>,
    /// The file, as it is read.
    elf: Elf<'i>,
    /// Which addresses count where it is an object file.
    place: SectionPlace,
}

impl<'i> SectionSource<'i> {
    /// The section of line programs, and whether it is that of a file of split DWARF, which counts
    /// where there is no other. Refused where there is none.
    fn lines(self) -> Result<(SectionBytes<'i>, bool), InputError>
        ensures { IfOk result (λ found. relocated_at (file_of self.entry.elf) self.entry.place
            self.entry.files.limit (lines_name found.1) ≡ Ok (Some (bytes_of found.0))) }
    {
        if let Some(section) = self.section(b".debug_line")? {
            return Ok((section, false));
        }
        match self.section(b".debug_line.dwo")? {
            Some(section) => Ok((section, true)),
            None => Err(InputError::no_lines(self.elf, self.files.file)),
        }
    }

    /// The section of a name; the bytes of `other` if the file has none, or if `other` isn't empty.
    fn texts(self, name: &[u8], other: &'i [u8]) -> Result<SectionBytes<'i>, ElfError> {
        if !other.is_empty() {
            return Ok(SectionBytes::Lent(other));
        }
        let section = self.section(name)?;
        Ok(section.unwrap_or(SectionBytes::Lent(other)))
    }

    /// The section of a name; no bytes where it is missing or can't be read. Fails only where
    /// memory is missing, or the limit forbids it.
    fn readable(self, name: &[u8]) -> Result<SectionBytes<'i>, ElfError>
        ensures err { IfErr result (λ e. is_for_memory e ≡ true) }
    {
        match self.section(name) {
            Ok(Some(section)) => Ok(section),
            Err(error) if error.is_for_memory() => Err(error),
            _ => Ok(SectionBytes::Lent(&[])),
        }
    }

    /// The section of a name, decompressed and relocated; None where there is none.
    fn section(self, name: &[u8]) -> Result<Option<SectionBytes<'i>>, ElfError>
        ensures { Gives (option_map bytes_of) result (relocated_at (file_of self.entry.elf)
            self.entry.place self.entry.files.limit name.now) }
    {
        self.elf
            .relocated(self.alloc, name, self.place, self.files.limit)
    }
}

/// Why the sections of a file can't be read.
#[derive(Clone, Copy)]
pub enum InputError {
    /// The file isn't an ELF file that can be read, or a section can't be. Of these, `OutOfMemory`
    /// is no fault of the file.
    Elf(ElfError),
    /// The file has no section `.debug_line`.
    NoLines,
    /// The file is one of split DWARF, without names of files either.
    Split,
    /// The file is the memory of a program that ended.
    Core,
    /// The file is an archive of object files.
    Archive,
}

impl InputError {
    /// Why a file has no section of line programs, by its other sections, and by its first bytes
    /// (System V ABI, chapter 4: `ET_CORE` is 4).
    fn no_lines(elf: Elf<'_>, file: &[u8]) -> InputError {
        match (elf.is_big_endian(), file.get(16..18)) {
            _ if elf.section_index(b".debug_abbrev.dwo").is_some() => InputError::Split,
            (true, Some([0, 4])) | (false, Some([4, 0])) => InputError::Core,
            _ => InputError::NoLines,
        }
    }
}

impl fmt::Display for InputError {
    fn fmt<W: fmt::Write>(&self, f: &mut fmt::Formatter<W>) -> fmt::Result {
        match self {
            InputError::Elf(ElfError::NotElf) => f.write_str(
                "not an ELF file; for a raw section say --raw little or --raw big, and \
                --address-size",
            ),
            InputError::Elf(error) => {
                let rest = match error {
                    ElfError::SectionTooLarge(_) => "; --memory-limit sets it",
                    _ => "",
                };
                write!(f, "{error}{rest}")
            }
            InputError::NoLines => f.write_str(
                "there is no section .debug_line; compile and link with -g, and of a stripped \
                 program name the file with its debug information",
            ),
            InputError::Split => f.write_str(SPLIT),
            InputError::Core => f.write_str(
                "a core file, which has no line programs; name the program that it is of",
            ),
            InputError::Archive => f.write_str(
                "an archive of object files; extract the member that you mean (ar x), or of a \
                 thin archive name its file",
            ),
        }
    }
}

impl From<ElfError> for InputError {
    fn from(error: ElfError) -> InputError {
        InputError::Elf(error)
    }
}

/// Reports why sections can't be read. Missing memory is no fault of them.
pub fn tell_refusal(refusal: InputError, output: &mut Output<'_>) -> Result<(), AllocError> {
    match refusal {
        InputError::Elf(ElfError::OutOfMemory) => Err(AllocError),
        refusal => {
            output.tell(refusal);
            Ok(())
        }
    }
}
