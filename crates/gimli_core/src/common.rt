//! Formats, encodings, sections, and offsets into these.

ghost use Rattle.std.specs.Prelude.{◌≡◌, true, pos, negsuc, IsTrue};
ghost use Rattle.gimli_core.specs.Numbers.{initial_length_size, word_size};

/// Whether the words of a unit, such as its lengths and its offsets into sections, have 32 or 64
/// bits.
///
/// <!-- part of crates/uses/src/make_unit.rt -->
/// ```rust
/// let encoding = Encoding {
///     address_size: 8,
///     format: Format::Dwarf32,
///     version: 5,
/// };
/// ```
#[derive(Clone, Copy, Debug, PartialEq, Eq)]
pub enum Format {
    /// Words of four bytes.
    Dwarf32,
    /// Words of eight bytes.
    Dwarf64,
}

impl Format {
    /// The number of bytes of a word.
    pub fn word_size(self) -> u8
        ensures { result ≡ word_size self }
    {
        match self {
            Format::Dwarf32 => 4,
            Format::Dwarf64 => 8,
        }
    }

    /// The number of bytes that the length of a unit takes: 4, or in the 64-bit format 12 (DWARF 5,
    /// section 7.4).
    pub fn initial_length_size(self) -> u8
        ensures { result ≡ initial_length_size self }
    {
        match self {
            Format::Dwarf32 => 4,
            Format::Dwarf64 => 12,
        }
    }
}

/// How the numbers of a unit are encoded.
#[derive(Clone, Copy, Debug, PartialEq, Eq)]
pub struct Encoding {
    /// The number of bytes of an address.
    pub address_size: u8,
    /// The format of words.
    pub format: Format,
    /// The version of DWARF.
    pub version: u16,
}

/// How the rows of a line program are encoded.
#[derive(Clone, Copy, Debug, PartialEq, Eq)]
pub struct LineEncoding {
    /// The number of bytes of the shortest instruction of the machine.
    pub minimum_instruction_length: u8,
    /// The greatest number of operations in one instruction of the machine.
    pub maximum_operations_per_instruction: u8,
    /// Whether a row begins a statement, unless the program says otherwise.
    pub default_is_stmt: bool,
    /// The least line advance of a special opcode.
    pub line_base: i8,
    /// How many line advances special opcodes have.
    pub line_range: u8,
}

impl Default for LineEncoding {
    ghost is_default = { λ e. e ≡ record {
      minimum_instruction_length = 1;
      maximum_operations_per_instruction = 1;
      default_is_stmt = true;
      line_base = negsuc 4;
      line_range = 14;
    } };

    fn default() -> Self {
        LineEncoding {
            minimum_instruction_length: 1,
            maximum_operations_per_instruction: 1,
            default_is_stmt: true,
            line_base: -5,
            line_range: 14,
        }
    }
}

/// A section of debugging information.
#[derive(Clone, Copy, Debug, PartialEq, Eq)]
pub enum SectionId {
    /// `.debug_info`
    DebugInfo,
    /// `.debug_line`
    DebugLine,
    /// `.debug_str`
    DebugStr,
    /// `.debug_line_str`
    DebugLineStr,
}

/// An offset into the section `.debug_line`, in bytes.
#[derive(Clone, Copy, Debug, PartialEq, Eq)]
pub struct DebugLineOffset<T = usize>(pub T);

/// An offset into the section `.debug_str`, in bytes.
#[derive(Clone, Copy, Debug, PartialEq, Eq)]
pub struct DebugStrOffset<T = usize>(pub T);

/// An offset into the section `.debug_line_str`, in bytes.
#[derive(Clone, Copy, Debug, PartialEq, Eq)]
pub struct DebugLineStrOffset<T = usize>(pub T);

/// An index into the string offsets of a unit.
#[derive(Clone, Copy, Debug, PartialEq, Eq)]
pub struct DebugStrOffsetsIndex<T = usize>(pub T);
