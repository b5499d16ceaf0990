//! Why a path isn't known.

ghost use Rattle.std.specs.Prelude.{◌≡◌};
ghost use Rattle.gimli_lookup.specs.declared.path_error.PathError.TheVariants.{OutOfMemory};

use std::alloc::{AllocError, AllocFailed};
use std::fmt;

/// Why a file has no path.
#[derive(Clone, Copy, Debug, PartialEq, Eq)]
pub enum PathError {
    /// A string by its index into the string offsets (`DW_FORM_strx` and its like), which aren't
    /// among the sections.
    UnsupportedStringIndex,
    /// A string of the supplementary file (`DW_FORM_strp_sup`), which isn't among the sections.
    UnsupportedSupplementaryString,
    /// The section of a string has no byte at the string's offset.
    StringOffsetOutOfBounds,
    /// The section of a string ends before a zero byte ends the string.
    UnterminatedString,
    /// A value that is no string.
    ExpectedStringAttributeValue,
    /// The header has no directory of this index.
    InvalidDirectoryIndex(u64),
    /// The header has no file of this index.
    InvalidFileIndex(u64),
    /// Not enough memory.
    OutOfMemory,
}

impl PathError {
    /// The text of an error, without the index that it may hold.
    fn description(&self) -> &'static str {
        match self {
            PathError::UnsupportedStringIndex => {
                "a string is given by an index into the string offsets"
            }
            PathError::UnsupportedSupplementaryString => {
                "a string stands in the supplementary file"
            }
            PathError::StringOffsetOutOfBounds => {
                "the offset of a string is past the end of its section"
            }
            PathError::UnterminatedString => "a string has no zero byte at its end",
            PathError::ExpectedStringAttributeValue => "the value is not a string",
            PathError::InvalidDirectoryIndex(_) => "the header has no directory",
            PathError::InvalidFileIndex(_) => "the header has no file",
            PathError::OutOfMemory => "not enough memory",
        }
    }

    /// The index that it holds.
    fn index(&self) -> Option<u64> {
        match *self {
            PathError::InvalidDirectoryIndex(index) => Some(index),
            PathError::InvalidFileIndex(index) => Some(index),
            _ => None,
        }
    }
}

impl fmt::Display for PathError {
    fn fmt<W: fmt::Write>(&self, f: &mut fmt::Formatter<W>) -> fmt::Result {
        let description = self.description();
        match self.index() {
            Some(index) => write!(f, "{description} {index}"),
            None => f.write_str(description),
        }
    }
}

impl std::error::Error for PathError {}

impl<T: Drop> From<AllocFailed<T>> for PathError {
    ghost from_gives = { λ _ e. e ≡ OutOfMemory };

    fn from(_error: AllocFailed<T>) -> PathError {
        PathError::OutOfMemory
    }
}

impl From<AllocError> for PathError {
    ghost from_gives = { λ _ e. e ≡ OutOfMemory };

    fn from(_error: AllocError) -> PathError {
        PathError::OutOfMemory
    }
}
