//! What the errors of writing and converting print, and how one error becomes another. No contract
//! says it: the stored output of the program has the texts, which are gimli's.

use crate::{Found, first_false};
use gimli_core::{DwEhPe, Error as ReadError};
use gimli_write::{ConvertError, Error, Result};
use std::alloc::{AllocError, Global};
use std::fmt::{Display, Write};

/// Errors of writing.
const ERRORS_OF_WRITING: [Error; 21] = [
    Error::OffsetOutOfBounds,
    Error::LengthOutOfBounds,
    Error::InvalidAttributeValue,
    Error::ValueTooLarge,
    Error::UnsupportedWordSize(5),
    Error::UnsupportedVersion(6),
    Error::InitialLengthOverflow,
    Error::InvalidAddress,
    Error::InvalidReference,
    Error::NeedVersion(4),
    Error::LineStringFormMismatch,
    Error::InvalidRange,
    Error::IncompatibleLineProgramEncoding,
    Error::InvalidFrameCodeOffset(70000),
    Error::InvalidFrameDataOffset(-7),
    Error::UnsupportedCfiExpressionReference,
    Error::UnsupportedExpressionForwardReference,
    Error::UnexpectedBaseAddress,
    Error::MissingBaseAddress,
    Error::OutOfMemory,
    Error::UnsupportedPointerEncoding(DwEhPe(0x30)),
];

/// Errors of conversion.
const ERRORS_OF_CONVERSION: [ConvertError; 24] = [
    ConvertError::UnsupportedAttributeValue,
    ConvertError::InvalidAttributeValue,
    ConvertError::InvalidDebugInfoOffset,
    ConvertError::InvalidAddress,
    ConvertError::UnsupportedLineInstruction,
    ConvertError::UnsupportedLineStringForm,
    ConvertError::MissingLineEndSequence,
    ConvertError::MissingCompilationName,
    ConvertError::MissingCompilationDirectory,
    ConvertError::InvalidFileIndex,
    ConvertError::InvalidDirectoryIndex,
    ConvertError::InvalidLineBase,
    ConvertError::InvalidLineRef,
    ConvertError::InvalidUnitRef,
    ConvertError::InvalidDebugInfoRef,
    ConvertError::InvalidRangeRelativeAddress,
    ConvertError::UnsupportedCfiInstruction,
    ConvertError::UnsupportedIndirectAddress,
    ConvertError::UnsupportedOperation,
    ConvertError::InvalidBranchTarget,
    ConvertError::UnsupportedUnitType,
    ConvertError::OutOfMemory,
    ConvertError::Write(Error::NeedVersion(4)),
    ConvertError::Read(ReadError::AddressOverflow),
];

/// What errors print, a line each.
fn print<T: Copy + Display>(errors: &[T], text: &mut String) -> Result<()> {
    for error in errors {
        writeln!(text, "{error}")?;
    }
    Ok(())
}

/// What all of them print.
pub fn texts(alloc: Global) -> Result<String> {
    let mut text = String::new(alloc);
    print(&ERRORS_OF_WRITING, &mut text)?;
    print(&ERRORS_OF_CONVERSION, &mut text)?;
    Ok(text)
}

/// The first refusal that doesn't become the converter's own variant of it, or one of memory
/// `OutOfMemory`.
pub fn turned() -> Found {
    let (read, write) = (ReadError::LineRangeZero, Error::UnsupportedVersion(6));
    Ok(first_false(&[
        ConvertError::from(read) == ConvertError::Read(read),
        ConvertError::from(write) == ConvertError::Write(write),
        ConvertError::from(AllocError) == ConvertError::OutOfMemory,
        Error::from(AllocError) == Error::OutOfMemory,
    ]))
}
