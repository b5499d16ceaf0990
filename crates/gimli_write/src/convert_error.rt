ghost use Rattle.std.specs.Prelude.{◌≡◌, ◌≢◌};
ghost use Rattle.gimli_write.specs.declared.convert_error.ConvertError.TheVariants.{OutOfMemory};

use gimli_bytes::Error;
use gimli_core::Error as ReadError;
use std::alloc::{AllocError, AllocFailed};

/// Why a program isn't converted, or not read again.
#[derive(Clone, Copy, Debug, PartialEq, Eq, thiserror::Error)]
pub enum ConvertError {
    /// A refusal of reading.
    #[error(transparent)]
    Read(#[from] ReadError),
    /// A refusal of writing.
    #[error(transparent)]
    Write(#[from] Error),
    /// An attribute value that isn't written.
    #[error("Writing of this attribute value is not implemented yet.")]
    UnsupportedAttributeValue,
    /// An attribute value that its name or its form can't have.
    #[error("This attribute value is an invalid name/form combination.")]
    InvalidAttributeValue,
    /// An offset in the section `.debug_info` where no entry begins.
    #[error("A `.debug_info` reference does not refer to a valid entry.")]
    InvalidDebugInfoOffset,
    /// An address that is mapped to no other.
    #[error("An address could not be converted.")]
    InvalidAddress,
    /// An instruction that can't be built.
    #[error("Writing this line number instruction is not implemented yet.")]
    UnsupportedLineInstruction,
    /// A text in a form that isn't written.
    #[error("Writing this form of line string is not implemented yet.")]
    UnsupportedLineStringForm,
    /// A sequence without its end.
    #[error("A `DW_LNE_end_sequence` instruction was missing at the end of a sequence.")]
    MissingLineEndSequence,
    /// A unit without a name.
    #[error("The name of the compilation unit is missing.")]
    MissingCompilationName,
    /// A unit without a working directory.
    #[error("The path of the compilation directory is missing.")]
    MissingCompilationDirectory,
    /// A file index that no file has.
    #[error("A `.debug_line` file index is invalid.")]
    InvalidFileIndex,
    /// A directory index that no directory has.
    #[error("A `.debug_line` directory index is invalid.")]
    InvalidDirectoryIndex,
    /// A line base by which rows can't be encoded.
    #[error("A `.debug_line` line base is invalid.")]
    InvalidLineBase,
    /// A reference to no line program.
    #[error("A `.debug_line` reference is invalid.")]
    InvalidLineRef,
    /// A reference to no entry of its unit.
    #[error("A `.debug_info` unit entry reference is invalid.")]
    InvalidUnitRef,
    /// A reference to no entry.
    #[error("A `.debug_info` reference is invalid.")]
    InvalidDebugInfoRef,
    /// An address of a range that counts from none.
    #[error("Invalid relative address in a range list.")]
    InvalidRangeRelativeAddress,
    /// An instruction for frames that isn't written.
    #[error("Writing this CFI instruction is not implemented yet.")]
    UnsupportedCfiInstruction,
    /// A pointer to a pointer.
    #[error("Writing indirect pointers is not implemented yet.")]
    UnsupportedIndirectAddress,
    /// An operation that isn't written.
    #[error("Writing this expression operation is not implemented yet.")]
    UnsupportedOperation,
    /// A branch to no operation.
    #[error("Operation branch target is invalid.")]
    InvalidBranchTarget,
    /// A unit of a kind that isn't written.
    #[error("Writing this unit type is not supported yet.")]
    UnsupportedUnitType,
    /// An allocation failed.
    #[error("Not enough memory.")]
    OutOfMemory,
}

impl<T: Drop> From<AllocFailed<T>> for ConvertError {
    ghost from_gives = { λ _ e. e ≡ OutOfMemory };

    fn from(_error: AllocFailed<T>) -> ConvertError {
        ConvertError::OutOfMemory
    }
}

impl From<AllocError> for ConvertError {
    ghost from_gives = { λ _ e. e ≡ OutOfMemory };

    fn from(_error: AllocError) -> ConvertError {
        ConvertError::OutOfMemory
    }
}

/// A refusal of reading. `OutOfMemory` has one name, whichever half met it.
pub(crate) fn from_read(error: ReadError) -> ConvertError
    ensures memory { error ≡ ReadError.OutOfMemory → result ≡ ConvertError.OutOfMemory }
    ensures other { error ≢ ReadError.OutOfMemory → result ≡ ConvertError.Read error }
{
    match error {
        ReadError::OutOfMemory => ConvertError::OutOfMemory,
        _ => ConvertError::Read(error),
    }
}

/// A refusal of writing. `OutOfMemory` has one name, whichever half met it.
pub(crate) fn from_write(error: Error) -> ConvertError
    ensures memory { error ≡ Error.OutOfMemory → result ≡ ConvertError.OutOfMemory }
    ensures other { error ≢ Error.OutOfMemory → result ≡ ConvertError.Write error }
{
    match error {
        Error::OutOfMemory => ConvertError::OutOfMemory,
        _ => ConvertError::Write(error),
    }
}

/// What a call of conversion returns.
pub type ConvertResult<T> = std::result::Result<T, ConvertError>;
