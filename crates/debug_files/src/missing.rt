//! Why a file isn't the source of a program's sections.

use crate::refusal::Refusal;
use elf_sections::ElfError;
use std::alloc::AllocError;
use std::{fmt, io};

/// Why a file isn't the source of a program's sections.
///
/// <!-- part of crates/lines/src/inputs.rt -->
/// ```rust
/// match missing {
///     Missing::Elf(error) => report(rt, name, InputError::Elf(*error)),
///     Missing::NoLines => report(rt, name, InputError::NoLines),
/// ```
#[derive(Debug, Drop)]
pub enum Missing {
    /// Its sections can't be read.
    Elf(ElfError),
    /// It can't be read, or memory is missing.
    Io(io::Error),
    /// It isn't a regular file: sections can't be sought in a folder, a pipe or a device.
    NotRegular,
    /// It is an object file, whose addresses aren't known yet.
    NotLinked,
    /// It has no section `.debug_line`.
    NoLines,
    /// It is the memory of a program that ended (`ET_CORE`).
    Core,
    /// It is an archive of object files (`ar`).
    Archive,
    /// Its build id isn't the program's.
    OtherBuildId,
    /// Its checksum isn't the one in the program's link.
    OtherChecksum,
    /// There is no section `.debug_line` in it, nor is there a debug file with one at these places.
    /// The string has a line feed and a line with the reason for each place.
    Everywhere(String),
}

impl fmt::Display for Missing {
    fn fmt<W: fmt::Write>(&self, f: &mut fmt::Formatter<W>) -> fmt::Result {
        match self {
            Missing::Elf(error) => write!(f, "{error}"),
            Missing::Io(error) => write!(f, "{error}"),
            Missing::NotRegular => f.write_str("not a regular file"),
            Missing::NotLinked => f.write_str("an object file, which is not linked"),
            Missing::NoLines => f.write_str("there is no section .debug_line"),
            Missing::Core => f.write_str("a core file, which has no line programs"),
            Missing::Archive => f.write_str("an archive of object files"),
            Missing::OtherBuildId => f.write_str("its build id is not the program's"),
            Missing::OtherChecksum => {
                f.write_str("its checksum is not the one that the program has")
            }
            Missing::Everywhere(places) => write!(
                f,
                "there is no section .debug_line, nor a file with it at:{places}"
            ),
        }
    }
}

impl From<ElfError> for Missing {
    fn from(error: ElfError) -> Missing {
        Missing::Elf(error)
    }
}

impl From<Refusal> for Missing {
    fn from(refusal: Refusal) -> Missing {
        match refusal {
            Refusal::Elf(error) => Missing::Elf(error),
            Refusal::Io(error) => Missing::Io(error),
        }
    }
}

impl From<io::Error> for Missing {
    fn from(error: io::Error) -> Missing {
        Missing::Io(error)
    }
}

impl From<AllocError> for Missing {
    fn from(error: AllocError) -> Missing {
        Missing::Io(io::Error::from(error))
    }
}
