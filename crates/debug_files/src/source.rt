//! The sections of a program that a command reads.

use std::alloc::Global;

/// Which sections are read.
///
/// <!-- part of crates/lines/src/inputs.rt -->
/// ```rust
/// match (reads_later(request), command.prints_functions()) {
///     (true, true) => Wanted::RowsAndSymbols,
///     (true, false) => Wanted::Rows,
///     (false, true) => Wanted::Symbols,
/// ```
#[derive(Clone, Copy, Debug, PartialEq, Eq)]
pub enum Wanted {
    /// The line programs alone.
    Lines,
    /// The texts of directories and files, too.
    Names,
    /// The line programs and `.debug_line_str`. The others that whole paths need are read later, by
    /// `ProgramFile::strings` and `ProgramFile::units`.
    Rows,
    /// What `Rows` reads, and the sections that the names of code need.
    RowsAndSymbols,
    /// Those that whole paths need, too.
    Paths,
    /// Those that whole paths and the names of code need, too.
    Symbols,
}

impl Wanted {
    /// Whether the symbols are read.
    pub(crate) fn has_symbols(self) -> bool {
        matches!(self, Wanted::Symbols | Wanted::RowsAndSymbols)
    }
}

/// What the sections of a program are read from.
///
/// <!-- part of crates/lines/src/inputs.rt -->
/// ```rust
/// let kind = match &found {
///     Found::Whole(_) => request.kind,
///     Found::Sections(of) => InputKind::Raw(notation_of(of)),
/// };
/// ```
#[derive(Drop)]
pub enum Found {
    /// The sections, of a program that is linked.
    Sections(FoundSections),
    /// All bytes of an object file, whose sections are still to be relocated.
    Whole(Vec<u8>),
}

/// The sections that a command reads, and how.
///
/// <!-- part of crates/lines/src/inputs.rt -->
/// ```rust
/// Notation::new(of.is_big_endian, of.address_size, of.lowest, of.code_end)
/// ```
#[derive(Drop)]
pub struct FoundSections {
    /// Whether the most significant byte of a number comes first.
    pub is_big_endian: bool,
    /// The bytes of an address: 4 or 8.
    pub address_size: u8,
    /// The lowest address of code, 0 where none is known.
    pub lowest: u64,
    /// The end of code, the greatest address where none is known.
    pub code_end: u64,
    /// The most bytes that a section may have, once it is decompressed.
    pub limit: u64,
    /// The line programs (`.debug_line`).
    pub lines: Vec<u8>,
    /// The sections that whole paths need.
    pub paths: PathSections,
    /// The symbols (`.symtab`, or else `.dynsym`); no bytes where there are none.
    pub symbols: Vec<u8>,
    /// The names of these (`.strtab`, `.dynstr`).
    pub symbol_names: Vec<u8>,
    /// The end of the code of each section, by the index that symbols have; 0 of one without code.
    pub code_ends: Vec<u64>,
}

/// The sections that whole paths need; no bytes where there is none. Those of units aren't read
/// where each line program has the directory of its compilation itself, as in version 5, and
/// `.debug_str` isn't where neither a line program nor a unit needs it ([`LinePrograms`]).
///
/// <!-- part of crates/lines/src/inputs.rt -->
/// ```rust
/// units: UnitFiles {
///     info: &source.paths.info,
///     abbreviations: &source.paths.abbreviations,
///     string_offsets: &source.paths.string_offsets,
/// },
/// ```
#[derive(Drop)]
pub struct PathSections {
    /// The texts of version 5 (`.debug_line_str`).
    pub line_str: Vec<u8>,
    /// The texts (`.debug_str`).
    pub strings: Vec<u8>,
    /// The units (`.debug_info`).
    pub info: Vec<u8>,
    /// Their abbreviations (`.debug_abbrev`).
    pub abbreviations: Vec<u8>,
    /// The offsets of texts (`.debug_str_offsets`).
    pub string_offsets: Vec<u8>,
}

/// The sections that say where compilations ran; no bytes where there is none, or one that can't be
/// read: paths then stay as the line programs have them.
#[derive(Drop)]
pub struct UnitSections {
    /// The units (`.debug_info`).
    pub info: Vec<u8>,
    /// Their abbreviations (`.debug_abbrev`).
    pub abbreviations: Vec<u8>,
    /// The offsets of texts (`.debug_str_offsets`).
    pub string_offsets: Vec<u8>,
}

impl UnitSections {
    /// No bytes.
    pub fn none(alloc: Global) -> UnitSections {
        UnitSections {
            info: Vec::new(alloc),
            abbreviations: Vec::new(alloc),
            string_offsets: Vec::new(alloc),
        }
    }
}

impl PathSections {
    /// No bytes.
    pub(crate) fn none(alloc: Global) -> PathSections {
        PathSections::of_texts(alloc, Vec::new(alloc), Vec::new(alloc))
    }

    /// Texts alone.
    pub(crate) fn of_texts(alloc: Global, line_str: Vec<u8>, strings: Vec<u8>) -> PathSections {
        PathSections {
            line_str,
            strings,
            info: Vec::new(alloc),
            abbreviations: Vec::new(alloc),
            string_offsets: Vec::new(alloc),
        }
    }
}
