//! Which part of a program `write` refuses, and why.

ghost use Rattle.std.specs.Prelude.{◌≡◌};

use gimli_bytes::Error;

/// The part of a program that `write` refuses, and the error that it returns for it. See
/// [`LineProgram::first_refusal`](crate::LineProgram::first_refusal).
#[derive(Clone, Copy, Debug, PartialEq, Eq)]
pub enum Refusal {
    /// The header, for what isn't in its tables: the version, the address size, the number of
    /// operations in an instruction, or one of its two lengths (DWARF 5, section 6.2.4, items 1 to
    /// 3, 5 and 7).
    Header(Error),
    /// The directory with this number, from 0 on (items 13 to 16).
    Directory(usize, Error),
    /// The file with this number, from 0 on: its path, its source, or the empty string that stands
    /// for the source that it lacks (items 17 to 20).
    File(usize, Error),
    /// The item with this number, from 0 on, in [`LineProgram::items`](crate::LineProgram::items):
    /// the operand of a set address (section 6.2.5.3, DW_LNE_set_address).
    Item(usize, Error),
}

/// Whether a writer takes symbols as addresses.
#[derive(Clone, Copy, Debug, PartialEq, Eq)]
pub enum Symbols {
    /// It takes them, as a `RelocatableVec` does.
    Taken,
    /// It refuses them by `InvalidAddress`, as an `EndianVec` does.
    Refused,
}

impl Refusal {
    ghost use Rattle.gimli_build.specs.Refused.{error_of};

    /// The error that `write` returns.
    pub fn error(&self) -> Error
        ensures { result ≡ error_of self.now }
    {
        match self {
            Refusal::Header(error) => *error,
            Refusal::Directory(_, error) => *error,
            Refusal::File(_, error) => *error,
            Refusal::Item(_, error) => *error,
        }
    }
}
