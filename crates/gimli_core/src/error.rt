//! Why reading is refused.

use crate::constants::DwForm;
use std::fmt;

/// Where reading failed: the number of bytes that were left in the reader.
#[derive(Clone, Copy, Debug, PartialEq, Eq)]
pub struct ReaderOffsetId(pub u64);

/// Why bytes could not be read.
#[derive(Clone, Copy, Debug, PartialEq, Eq)]
pub enum Error {
    /// Bytes are missing. It holds the number of bytes that were left in the reader that failed.
    UnexpectedEof(ReaderOffsetId),
    /// An unsigned LEB128 number doesn't fit its width, or is spelled too long.
    BadUnsignedLeb128,
    /// A signed LEB128 number doesn't fit 64 bits, or is spelled too long.
    BadSignedLeb128,
    /// The first word of a length is one of the reserved ones.
    UnknownReservedLength,
    /// The version of a unit is unknown.
    UnknownVersion(u64),
    /// The size of addresses, in bytes, isn't 1, 2, 4 or 8.
    UnsupportedAddressSize(u8),
    /// The size of segment selectors isn't 0.
    UnsupportedSegmentSize(u8),
    /// The minimum instruction length of a line program is 0.
    MinimumInstructionLengthZero,
    /// The maximum number of operations of an instruction is 0.
    MaximumOperationsPerInstructionZero,
    /// The line range of a line program is 0.
    LineRangeZero,
    /// The opcode base of a line program is 0.
    OpcodeBaseZero,
    /// The formats of a table of version 5 don't have exactly one path.
    MissingFileEntryFormatPath,
    /// A value has a form that line programs don't know.
    UnknownForm(DwForm),
    /// An address is above the greatest one of its size.
    AddressOverflow,
    /// The reader's offset type is too narrow for a number.
    UnsupportedOffset,
    /// A value that should be a text is of another kind.
    ExpectedStringAttributeValue,
    /// Not enough memory.
    OutOfMemory,
}

impl Error {
    /// The text of an error, without the number that it may hold.
    fn description(&self) -> &'static str {
        match self {
            Error::UnexpectedEof(_) => "the input ended before the value did",
            Error::BadUnsignedLeb128 => "an unsigned LEB128 number is too large",
            Error::BadSignedLeb128 => "a signed LEB128 number is too large",
            Error::UnknownReservedLength => "a unit length is reserved",
            Error::UnknownVersion(_) => "the version is unknown",
            Error::UnsupportedAddressSize(_) => "the address size is not 1, 2, 4 or 8",
            Error::UnsupportedSegmentSize(_) => "the segment selector size is not 0",
            Error::MinimumInstructionLengthZero => "the minimum instruction length is 0",
            Error::MaximumOperationsPerInstructionZero => {
                "the maximum of operations per instruction is 0"
            }
            Error::LineRangeZero => "the line range is 0",
            Error::OpcodeBaseZero => "the opcode base is 0",
            Error::MissingFileEntryFormatPath => "a table has not exactly one path format",
            Error::UnknownForm(_) => "the form is unknown",
            Error::AddressOverflow => "an address is too large for its size",
            Error::UnsupportedOffset => "a number is too large for the offset type",
            Error::ExpectedStringAttributeValue => "the value is not a string",
            Error::OutOfMemory => "not enough memory",
        }
    }
}

impl fmt::Display for Error {
    fn fmt<W: fmt::Write>(&self, f: &mut fmt::Formatter<W>) -> fmt::Result {
        match *self {
            Error::UnknownVersion(version) => write!(f, "the version {version} is unknown"),
            Error::UnsupportedAddressSize(size) => {
                write!(f, "the address size {size} is not 1, 2, 4 or 8")
            }
            Error::UnsupportedSegmentSize(size) => {
                write!(f, "the segment selector size {size} is not 0")
            }
            Error::UnknownForm(DwForm(form)) => write!(f, "the form {form:#x} is unknown"),
            _ => f.write_str(self.description()),
        }
    }
}

impl std::error::Error for Error {}

/// The result of reading.
pub type Result<T> = std::result::Result<T, Error>;
