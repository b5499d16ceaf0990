//! Why a file, or one of its sections, isn't read.

ghost use Rattle.std.specs.Prelude.{◌≡◌};
ghost use Rattle.elf_sections.specs.declared.error.ElfError.TheVariants.{OutOfMemory};
ghost use Rattle.elf_sections.specs.Fault.{fault_of, is_for_memory};

use std::alloc::AllocError;
use std::fmt;

/// Why a file isn't read as an ELF file, or a section of it isn't returned.
#[derive(Clone, Copy, Debug, PartialEq, Eq)]
pub enum ElfError {
    /// The file doesn't begin with the bytes 7f 45 4c 46 (`EI_MAG0` to `EI_MAG3`).
    NotElf,
    /// The class (`EI_CLASS`) is neither 1, for 32 bits, nor 2, for 64 bits.
    Class(u8),
    /// The order of bytes (`EI_DATA`) is neither 1, the least significant one first, nor 2, the
    /// most significant one first.
    ByteOrder(u8),
    /// The version (`EI_VERSION`) isn't 1.
    Version(u8),
    /// The file ends before its header does.
    HeaderCut,
    /// The entries of the section table (`e_shentsize`) are shorter than a section header of the
    /// class. It holds their size in bytes.
    SectionHeaderSize(u16),
    /// The file ends before its section table does, or the table begins past its end.
    SectionTableCut,
    /// The file doesn't hold the names of its sections: the section table has no header of that
    /// index (`e_shstrndx`), that section's bytes aren't all in the file, or it is compressed.
    NamesCut,
    /// The bytes of the section aren't all in the file.
    SectionCut,
    /// The section is compressed (`SHF_COMPRESSED`).
    Compressed,
    /// The section ends before its header of compression does, of 12 bytes, or of 24 in a file of
    /// 64 bits.
    CompressionHeaderCut,
    /// The section is compressed in a way (`ch_type`) that is unknown.
    UnknownCompression(u32),
    /// The section is compressed by Zstandard (`ELFCOMPRESS_ZSTD`).
    Zstd,
    /// A section `.zdebug_` doesn't begin with the bytes of `ZLIB`.
    NotZlib,
    /// What the section holds would be larger than the caller's limit. The error holds the size
    /// that the header of compression says, in bytes.
    SectionTooLarge(u64),
    /// The compressed bytes of the section aren't in the zlib format, or don't hold as many bytes
    /// as the header of compression says.
    Decompression(inflate::Error),
    /// There was no memory for what the section holds.
    OutOfMemory,
    /// The relocations of the machine (`e_machine`) are unknown.
    UnknownMachine(u16),
    /// A kind of relocations (`ELF64_R_TYPE`) is unknown.
    UnknownRelocation(u32),
    /// The entries (`sh_entsize`) of a section of relocations, or of its symbol table, are shorter
    /// than an entry of the class. It holds their size in bytes.
    EntrySize(u64),
    /// A section of relocations names no symbol table (`sh_link`, `SHT_SYMTAB`).
    NoSymbols,
    /// A symbol table has no symbol of this index.
    SymbolOutside(u32),
    /// The index of a symbol's section is kept elsewhere (`SHN_XINDEX`).
    SymbolSection,
    /// The place of a relocation isn't in the section.
    RelocationOutside,
    /// The relocations of the section (`SHT_REL`, `SHT_RELA`) have more bytes than the file:
    /// several sections of them share bytes, or one isn't all in the file.
    RelocationsTooLarge,
}

/// Why a section isn't decompressed.
pub(crate) fn fault_of(fault: inflate::Error) -> ElfError
    ensures { result ≡ fault_of fault }
{
    match fault {
        inflate::Error::OutOfMemory => ElfError::OutOfMemory,
        fault => ElfError::Decompression(fault),
    }
}

impl From<AllocError> for ElfError {
    ghost from_gives = { λ _ e. e ≡ OutOfMemory };

    fn from(_error: AllocError) -> ElfError {
        ElfError::OutOfMemory
    }
}

impl ElfError {
    /// Whether memory is missing, or the limit forbids taking it (`OutOfMemory`,
    /// `SectionTooLarge`).
    pub fn is_for_memory(self) -> bool
        ensures { result ≡ is_for_memory self }
    {
        matches!(self, ElfError::OutOfMemory | ElfError::SectionTooLarge(_))
    }

    /// What the error says before the number that it holds, or all of it where it holds none.
    fn text(self) -> &'static str {
        match self {
            ElfError::NotElf => "the file is no ELF file",
            ElfError::Class(_) => "the ELF class ",
            ElfError::ByteOrder(_) => "the ELF byte order ",
            ElfError::Version(_) => "the ELF version ",
            ElfError::HeaderCut => "the file ends before its ELF header does",
            ElfError::SectionHeaderSize(_) => "the entries of the section table have only ",
            ElfError::SectionTableCut => "the file ends before its section table does",
            ElfError::NamesCut => "the file does not hold the names of its sections",
            ElfError::SectionCut => "the file ends before the section does",
            ElfError::Compressed => "the section is compressed",
            ElfError::CompressionHeaderCut => {
                "the section ends before its header of compression does"
            }
            ElfError::UnknownCompression(_) => "the section is compressed in an unknown way, ",
            ElfError::Zstd => {
                "the section is compressed by Zstandard; decompress it first: \
                 objcopy --decompress-debug-sections FILE"
            }
            ElfError::NotZlib => "the compressed section does not begin with ZLIB",
            ElfError::SectionTooLarge(_) => "the compressed section would take ",
            ElfError::Decompression(_) => "the section cannot be decompressed",
            ElfError::OutOfMemory => "out of memory",
            ElfError::UnknownMachine(_) => "the relocations of the machine ",
            ElfError::UnknownRelocation(_) => "the relocation type ",
            ElfError::EntrySize(_) => {
                "the entries of a section of relocations or symbols have only "
            }
            ElfError::NoSymbols => "a section of relocations has no symbol table",
            ElfError::SymbolOutside(_) => "there is no symbol ",
            ElfError::SymbolSection => "the section of a symbol is noted elsewhere",
            ElfError::RelocationOutside => "a relocation is not in its section",
            ElfError::RelocationsTooLarge => {
                "the relocations of the section have more bytes than the file"
            }
        }
    }

    /// What the error says after that number.
    fn rest(self) -> &'static str {
        match self {
            ElfError::Class(_) => " is unknown",
            ElfError::ByteOrder(_) => " is unknown",
            ElfError::Version(_) => " is unknown",
            ElfError::SectionHeaderSize(_) => " bytes",
            ElfError::SectionTooLarge(_) => " bytes, which is more than the limit",
            ElfError::UnknownMachine(_) => " are unknown",
            ElfError::UnknownRelocation(_) => " is unknown",
            ElfError::EntrySize(_) => " bytes",
            _ => "",
        }
    }

    /// The number that the error holds.
    fn number(self) -> Option<u64> {
        match self {
            ElfError::Class(class) => Some(u64::from(class)),
            ElfError::ByteOrder(order) => Some(u64::from(order)),
            ElfError::Version(version) => Some(u64::from(version)),
            ElfError::SectionHeaderSize(size) => Some(u64::from(size)),
            ElfError::UnknownCompression(kind) => Some(u64::from(kind)),
            ElfError::SectionTooLarge(size) => Some(size),
            ElfError::UnknownMachine(machine) => Some(u64::from(machine)),
            ElfError::UnknownRelocation(kind) => Some(u64::from(kind)),
            ElfError::EntrySize(size) => Some(size),
            ElfError::SymbolOutside(index) => Some(u64::from(index)),
            _ => None,
        }
    }
}

impl fmt::Display for ElfError {
    fn fmt<W: fmt::Write>(&self, f: &mut fmt::Formatter<W>) -> fmt::Result {
        if let ElfError::Decompression(fault) = self {
            return write!(f, "{fault}");
        }
        let text = self.text();
        match self.number() {
            Some(number) => write!(f, "{text}{number}{}", self.rest()),
            None => write!(f, "{text}"),
        }
    }
}

impl std::error::Error for ElfError {}
