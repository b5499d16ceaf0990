//! Why the sections of a file aren't read.

use elf_sections::ElfError;
use std::alloc::AllocError;
use std::{fmt, io};

/// Why the sections of a file aren't read.
#[derive(Debug, Drop)]
pub enum Refusal {
    /// The file, or a section of it, isn't one that can be read.
    Elf(ElfError),
    /// The file can't be read or sought in, or memory is missing.
    Io(io::Error),
}

impl fmt::Display for Refusal {
    fn fmt<W: fmt::Write>(&self, f: &mut fmt::Formatter<W>) -> fmt::Result {
        match self {
            Refusal::Elf(error) => write!(f, "{error}"),
            Refusal::Io(error) => write!(f, "{error}"),
        }
    }
}

impl From<ElfError> for Refusal {
    fn from(error: ElfError) -> Refusal {
        Refusal::Elf(error)
    }
}

impl From<io::Error> for Refusal {
    fn from(error: io::Error) -> Refusal {
        Refusal::Io(error)
    }
}

impl From<AllocError> for Refusal {
    fn from(error: AllocError) -> Refusal {
        Refusal::Io(io::Error::from(error))
    }
}
