//! What the words of the program ask for.

ghost use Rattle.std.specs.Prelude.{◌≡◌, ◌⊎◌, ◌↔◌, IsTrue};

use crate::kinds::CheckChoice;
use gimli_core::RunTimeEndian;
use line_text::AddressSize;
use std::alloc::{AllocError, Global};

/// What the words ask for: a command over a file, and how it is done. What a command doesn't take
/// is as if it weren't given.
#[derive(Drop)]
pub struct Request<'w> {
    /// What is done.
    pub command: Command<'w>,
    /// The file, as it was named; empty where none is.
    pub file: &'w str,
    /// How the file is read.
    pub kind: InputKind,
    /// The file with the section `.debug_line_str`, for a raw section.
    pub line_str: Option<&'w str>,
    /// The file with the section `.debug_str`, for a raw section.
    pub strings: Option<&'w str>,
    /// The most bytes of a compressed section once it is decompressed; None where it goes by the
    /// size of its file.
    pub memory_limit: Option<u64>,
    /// The directory where debug files are looked for; None where it is the usual one.
    pub debug_directory: Option<&'w str>,
    /// Where source files are.
    pub source: SourceFiles<'w>,
    /// The addresses that are asked for; where none is given, they come from standard input.
    pub addresses: Vec<CodeAddress<'w>>,
    /// What is subtracted from each address.
    pub bias: u64,
    /// How the output is written.
    pub form: Form,
    /// How much of a path is printed.
    pub paths: PathForm<'w>,
    /// Whether each address is printed before its answer.
    pub has_address: bool,
    /// Whether the name of the function is printed too.
    pub has_function: bool,
    /// Whether an address goes past the prologue where it is the beginning of a function.
    pub is_after_prologue: bool,
    /// Whether the line of source is printed too.
    pub has_source: bool,
    /// Whether columns are printed after lines.
    pub has_column: bool,
    /// Whether the addresses of each row are printed, and not its first one alone.
    pub has_range: bool,
    /// How many lines of source are printed before a place and after it.
    pub context: u64,
    /// Which units are printed.
    pub units: UnitChoice,
    /// What a check reports.
    pub check: CheckChoice,
}

/// Where the source files are that paths name.
#[derive(Clone, Copy)]
pub struct SourceFiles<'w> {
    /// The file that is read instead of all others.
    pub file: Option<&'w str>,
    /// A directory, and the one that replaces it. The command `diff` compares paths so.
    pub map: Option<(&'w str, &'w str)>,
    /// The directory below which relative paths are.
    pub directory: Option<&'w str>,
}

impl SourceFiles<'_> {
    /// The name of the file that is read for a path, unless one is read instead of all others.
    pub fn name_of(&self, alloc: Global, path: &str) -> Result<String, AllocError> {
        let name = self.mapped(alloc, path)?;
        match self.directory {
            Some(directory) if !name.starts_with('/') => format!(in alloc; "{directory}/{name}"),
            _ => Ok(name),
        }
    }

    /// A path whose directory is replaced, if it begins with the one that is mapped.
    fn mapped(&self, alloc: Global, path: &str) -> Result<String, AllocError> {
        let Some((old, new)) = self.map else {
            return String::from_str(alloc, path);
        };
        match path.strip_prefix(old) {
            Some(rest) if rest.is_empty() || rest.starts_with('/') || old.ends_with('/') => {
                format!(in alloc; "{new}{rest}")
            }
            _ => String::from_str(alloc, path),
        }
    }
}

/// What is done over a file.
#[derive(Clone, Copy)]
pub enum Command<'w> {
    /// Prints the places of addresses in the source. Names of functions may be printed or asked
    /// for.
    Where { has_names: bool },
    /// The same by an index, the file of which is named.
    Ask(&'w str),
    /// The same for lines of standard input, each of which names what it asks.
    AskLines(LineNames<'w>),
    /// Writes the index of the lines, into a file that may be named.
    Index(Option<&'w str>),
    /// Prints the addresses to break at for a place.
    At(SourcePlace<'w>),
    /// Prints the source of a place, with its addresses.
    Source(SourcePlace<'w>),
    /// Prints a line for each unit.
    Units,
    /// Prints the directories and files of units.
    Files,
    /// Prints the rows of units.
    Rows(Form),
    /// Prints what is wrong, lost, odd or usual.
    Check,
    /// Prints what the bytes of the section are spent on.
    Stat,
    /// Prints which lines have other code in a new program, a file that is named.
    Diff(&'w str),
}

impl Command<'_> {
    /// Whether paths are printed: the texts are read for these alone.
    pub fn prints_paths(&self) -> bool {
        !matches!(self, Command::Units | Command::Ask(_))
    }

    /// Whether whole paths are printed: the sections of units are read for these alone. The command
    /// `rows` prints the last part of each for people.
    pub fn prints_whole_paths(&self) -> bool {
        self.prints_paths() && !matches!(self, Command::Rows(Form::Text))
    }

    /// Whether names of functions are printed or asked for: symbols are read for these alone.
    pub fn prints_functions(&self) -> bool {
        matches!(
            self,
            Command::Where { has_names: true }
                | Command::AskLines(LineNames::Files)
                | Command::At(_)
                | Command::Source(_)
        )
    }
}

/// What a line names before an address.
#[derive(Clone, Copy)]
pub enum LineNames<'w> {
    /// A build id; the indexes are in this folder.
    BuildIds(&'w str),
    /// A file.
    Files,
}

/// Where code stands.
#[derive(Clone, Copy)]
pub enum CodeAddress<'w> {
    /// At an address of a program that is linked.
    Linked(u64),
    /// At an offset in a section of an object file, by the section's name.
    InSection { section: &'w str, offset: u64 },
}

/// A place in the source.
#[derive(Clone, Copy)]
pub enum SourcePlace<'w> {
    /// A line of the files whose whole path ends with the components of another.
    Line { path: &'w str, line: u64 },
    /// The code of the function of a name.
    Function(&'w str),
}

/// How much of a path is printed.
#[derive(Clone, Copy)]
pub enum PathForm<'w> {
    /// The whole path.
    Whole,
    /// The last component.
    LastPart,
    /// What stands after a directory, where the file is in it.
    From(&'w str),
}

/// How the output is written.
#[derive(Clone, Copy)]
pub enum Form {
    /// For people, with the last part of each path in rows.
    Text,
    /// For people, with whole paths.
    WholePaths,
    /// A JSON object a line.
    Json,
}

/// Which units of a section are meant.
#[derive(Clone, Copy)]
pub enum UnitChoice {
    /// Each unit.
    All,
    /// The unit at an offset.
    At(u64),
}

impl UnitChoice {
    /// Whether the unit at an offset is meant.
    pub fn includes(self, offset: u64) -> bool
        ensures { IsTrue result ↔ ((self ≡ UnitChoice.All) ⊎ (self ≡ UnitChoice.At offset)) }
    {
        match self {
            UnitChoice::All => true,
            UnitChoice::At(chosen) => chosen == offset,
        }
    }
}

/// How the bytes of a file are read.
#[derive(Clone, Copy)]
pub enum InputKind {
    /// An ELF file, which gives its byte order and its address size.
    Elf,
    /// Sections by themselves: `.debug_line`, and those that it goes with.
    Raw(Notation),
}

/// How the numbers of a section are read.
#[derive(Clone, Copy)]
pub struct Notation {
    /// The byte order.
    pub order: RunTimeEndian,
    /// How wide an address is, where the unit doesn't say.
    pub address_size: AddressSize,
    /// An address below which there is no code, 0 where none is known.
    pub lowest: u64,
    /// An address from which on there is no code, the greatest one where none is known.
    pub code_end: u64,
}

/// The bytes of the files that a request names: a file, and of a raw section those that it goes
/// with. No bytes stand for one that isn't known.
#[derive(Clone, Copy, Default)]
pub struct Files<'i> {
    /// The file.
    pub file: &'i [u8],
    /// The most bytes of a compressed section of it, once it is decompressed.
    pub limit: u64,
    /// The section `.debug_line_str`.
    pub line_str: &'i [u8],
    /// The section `.debug_str`.
    pub strings: &'i [u8],
    /// The sections that say where compilations ran.
    pub units: UnitFiles<'i>,
    /// The section `.symtab`, or else `.dynsym`.
    pub symbols: &'i [u8],
    /// The names of these, `.strtab` or `.dynstr`.
    pub symbol_names: &'i [u8],
    /// The end of the code of each section, by the index that symbols have; 0 of one without code.
    pub code_ends: &'i [u64],
}

/// The sections that say where compilations ran; no bytes where none is known.
#[derive(Clone, Copy, Default)]
pub struct UnitFiles<'i> {
    /// `.debug_info`
    pub info: &'i [u8],
    /// `.debug_abbrev`
    pub abbreviations: &'i [u8],
    /// `.debug_str_offsets`
    pub string_offsets: &'i [u8],
}

impl Notation {
    /// How the numbers of a program are read, whose addresses have 4 bytes or 8.
    pub fn new(is_big_endian: bool, address_size: u8, lowest: u64, code_end: u64) -> Notation {
        let order = match is_big_endian {
            true => RunTimeEndian::Big,
            false => RunTimeEndian::Little,
        };
        let address_size = match address_size {
            4 => AddressSize::Four,
            _ => AddressSize::Eight,
        };
        Notation {
            order,
            address_size,
            lowest,
            code_end,
        }
    }
}
