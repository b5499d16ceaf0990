//! Why bytes aren't taken as an index, and why none is made.

ghost use Rattle.std.specs.Prelude.{◌≡◌};
ghost use Rattle.gimli_index.specs.declared.error.MakeError.TheVariants.{OutOfMemory};

use std::alloc::{AllocError, AllocFailed};
use std::fmt;

/// Why bytes aren't taken as an index.
#[derive(Clone, Copy, Debug, PartialEq, Eq)]
pub enum IndexError {
    /// They don't begin as an index does.
    NotIndex,
    /// They end within the header.
    HeaderCut,
    /// The version isn't 2.
    Version(u32),
    /// The size of addresses is none of 1, 2, 4 and 8 bytes.
    AddressSize(u16),
    /// The size of starts is neither 4 nor 8 bytes.
    StartSize(u16),
    /// With this base, starts could be addresses of more than 64 bits.
    Base(u64),
    /// They end before the parts that the header describes do.
    Cut,
    /// The starts don't ascend.
    NotAscending,
    /// The path of a source isn't inside the part of paths, or no zero byte follows it.
    PathOutside,
    /// The statements aren't in order.
    NotInOrder,
}

impl fmt::Display for IndexError {
    fn fmt<W: fmt::Write>(&self, f: &mut fmt::Formatter<W>) -> fmt::Result {
        match self {
            IndexError::NotIndex => write!(f, "this is no index of lines"),
            IndexError::HeaderCut => write!(f, "the index ends within its header"),
            IndexError::Version(version) => {
                write!(f, "the version {version} of the index is unknown")
            }
            IndexError::AddressSize(size) => write!(f, "addresses cannot have {size} bytes"),
            IndexError::StartSize(size) => write!(f, "the starts cannot have {size} bytes"),
            IndexError::Base(base) => write!(f, "the base {base:#x} is too high"),
            IndexError::Cut => write!(f, "the index ends before its parts do"),
            IndexError::NotAscending => write!(f, "the starts of the index do not ascend"),
            IndexError::PathOutside => write!(f, "a path of the index is outside of it"),
            IndexError::NotInOrder => write!(f, "the statements of the index are not in order"),
        }
    }
}

impl std::error::Error for IndexError {}

/// Why no index is made.
#[derive(Clone, Copy, Debug, PartialEq, Eq)]
pub enum MakeError {
    /// An entry is below the one before it.
    NotAscending,
    /// There are `2^32` entries or more.
    TooManyEntries,
    /// There are `2^32` statements or more.
    TooManyStatements,
    /// There are `2^32` sources or more.
    TooManySources,
    /// The paths have more bytes than the limit for them, or `2^32` or more, each with its zero
    /// byte.
    PathsTooLarge,
    /// The identity has `2^32` bytes or more.
    IdentityTooLarge,
    /// A line is `2^32` or above.
    LineTooLarge,
    /// A column is `2^30` or above.
    ColumnTooLarge,
    /// There was no memory for the index.
    OutOfMemory,
}

impl From<AllocError> for MakeError {
    ghost from_gives = { λ _ e. e ≡ OutOfMemory };

    fn from(_error: AllocError) -> MakeError {
        MakeError::OutOfMemory
    }
}

impl<T: Drop> From<AllocFailed<T>> for MakeError {
    ghost from_gives = { λ _ e. e ≡ OutOfMemory };

    fn from(_error: AllocFailed<T>) -> MakeError {
        MakeError::OutOfMemory
    }
}

impl fmt::Display for MakeError {
    fn fmt<W: fmt::Write>(&self, f: &mut fmt::Formatter<W>) -> fmt::Result {
        let description = match self {
            MakeError::NotAscending => "the entries do not ascend",
            MakeError::TooManyEntries => "there are too many entries for an index",
            MakeError::TooManyStatements => "there are too many statements for an index",
            MakeError::TooManySources => "there are too many sources for an index",
            MakeError::PathsTooLarge => "the paths are larger than an index may have",
            MakeError::IdentityTooLarge => "the identity is too large for an index",
            MakeError::LineTooLarge => "a line is too large for an index",
            MakeError::ColumnTooLarge => "a column is too large for an index",
            MakeError::OutOfMemory => "out of memory",
        };
        f.write_str(description)
    }
}

impl std::error::Error for MakeError {}
