//! The refusals of writing.

ghost use Rattle.std.specs.Prelude.{◌≡◌};
ghost use Rattle.gimli_bytes.specs.declared.error.Error.TheVariants.{OutOfMemory};

use gimli_core::DwEhPe;
use std::alloc::{AllocError, AllocFailed};

/// Why something isn't written.
#[derive(Clone, Copy, Debug, PartialEq, Eq, thiserror::Error)]
pub enum Error {
    /// A place past the end of the section.
    #[error("The given offset is out of bounds.")]
    OffsetOutOfBounds,
    /// Bytes that would pass the end of the section.
    #[error("The given length is out of bounds.")]
    LengthOutOfBounds,
    /// A value that an attribute can't have.
    #[error("The attribute value is an invalid for writing.")]
    InvalidAttributeValue,
    /// A number that doesn't fit the size or the form.
    #[error("The value is too large for the encoding form.")]
    ValueTooLarge,
    /// A size, in bytes, that no number has.
    #[error("Unsupported word size: {0}")]
    UnsupportedWordSize(u8),
    /// A version of DWARF that isn't written.
    #[error("Unsupported DWARF version: {0}")]
    UnsupportedVersion(u16),
    /// A length that the 32-bit format reserves.
    #[error("The unit length is too large for the requested DWARF format.")]
    InitialLengthOverflow,
    /// A symbol, where the writer knows of none.
    #[error("The address is invalid.")]
    InvalidAddress,
    /// A reference to a symbol, where the writer knows of none.
    #[error("The reference is invalid.")]
    InvalidReference,
    /// Something that versions below this one can't express.
    #[error("A requested feature requires a DWARF version {0}.")]
    NeedVersion(u16),
    /// Texts of one table that have different forms.
    #[error("Strings in line number program have mismatched forms.")]
    LineStringFormMismatch,
    /// A range that is empty or otherwise invalid, such as one that overlaps a relocation's place.
    #[error("The range is empty or otherwise invalid.")]
    InvalidRange,
    /// A line program of another encoding than its unit can hold.
    #[error("The line number program encoding is incompatible with the unit encoding.")]
    IncompatibleLineProgramEncoding,
    /// An offset of code that a frame instruction can't express.
    #[error("Could not encode code offset ({0}) for a frame instruction.")]
    InvalidFrameCodeOffset(u32),
    /// An offset of data that a frame instruction can't express.
    #[error("Could not encode data offset ({0}) for a frame instruction.")]
    InvalidFrameDataOffset(i32),
    /// A pointer encoding that isn't written.
    #[error("Unsupported eh_frame pointer encoding ({0}).")]
    UnsupportedPointerEncoding(DwEhPe),
    /// A reference in an expression of frames.
    #[error("Unsupported reference in CFI expression.")]
    UnsupportedCfiExpressionReference,
    /// A reference to an entry that isn't written yet.
    #[error("Unsupported forward reference in expression.")]
    UnsupportedExpressionForwardReference,
    /// A pair of addresses, where offsets from a base are due.
    #[error("Range or location entry is an address pair, but base address is set.")]
    UnexpectedBaseAddress,
    /// A pair of offsets, where there is no base.
    #[error("Range or location entry is an offset pair, but base address is not set.")]
    MissingBaseAddress,
    /// A growth of memory was refused.
    #[error("Not enough memory.")]
    OutOfMemory,
}

impl<T: Drop> From<AllocFailed<T>> for Error {
    ghost from_gives = { λ _ e. e ≡ OutOfMemory };

    fn from(_error: AllocFailed<T>) -> Error {
        Error::OutOfMemory
    }
}

impl From<AllocError> for Error {
    ghost from_gives = { λ _ e. e ≡ OutOfMemory };

    fn from(_error: AllocError) -> Error {
        Error::OutOfMemory
    }
}

/// What a call of writing returns.
pub type Result<T> = std::result::Result<T, Error>;
