//! The file with a program's debug information: where it may be, and what is read of it. A program
//! that is stripped has its line programs there.
//!
//! [`source_of`] does all of it; [`open_source`] leaves some sections for later, which are read
//! from the open file only if the paths of found rows need them. [`debug_file_paths`] names the
//! places; [`Outline`] reads the section table of a file and the names in it, and
//! [`Outline::section`] reads one section, so that a large file isn't read whole.
#![tactic(auto)]

mod debug_paths;
mod directories;
mod find;
mod missing;
mod outline;
mod program_file;
mod refusal;
mod source;

pub use debug_paths::{DEBUG_DIRECTORY, debug_file_paths};
pub use directories::{LinePrograms, needs_strings};
pub use find::{OpenSource, open_source, source_of};
pub use missing::Missing;
pub use outline::{Outline, checksum};
pub use program_file::{ProgramFile, is_archive};
pub use refusal::Refusal;
pub use source::{Found, FoundSections, PathSections, UnitSections, Wanted};
