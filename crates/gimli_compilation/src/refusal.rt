//! Why a unit gives no compilation.

use gimli_core::Error;
use std::fmt;

/// Why the first entry of a unit can't be read.
#[derive(Clone, Copy, Debug, PartialEq, Eq)]
pub enum Refusal {
    /// Bytes of the unit, of its declarations or of its texts could not be read. Never
    /// `OutOfMemory`.
    Bytes(Error),
    /// The type of the unit is unknown, and with it the layout of its header.
    UnknownUnitType(u8),
    /// The table of declarations of the unit has none with the code of its first entry.
    MissingAbbreviation(u64),
}

impl fmt::Display for Refusal {
    fn fmt<W: fmt::Write>(&self, f: &mut fmt::Formatter<W>) -> fmt::Result {
        match *self {
            Refusal::Bytes(error) => write!(f, "{error}"),
            Refusal::UnknownUnitType(number) => write!(f, "the unit type {number:#x} is unknown"),
            Refusal::MissingAbbreviation(code) => write!(f, "no abbreviation has the code {code}"),
        }
    }
}

impl std::error::Error for Refusal {}
