//! The rows of line programs that cover an address, the paths of their files, and the addresses of
//! a line, in DWARF versions 2 to 5.
//!
//! [`Program`] is made from the sections of a program, and finds the [`Place`] of an address, with
//! the whole path of its file. It joins two types: [`SectionLookup`] keeps the rows of all units of
//! a section, and [`ProgramPaths`] gives the paths. The same rows lead back from a line of a file
//! to its [`Addresses`]. [`Lookup`] keeps the rows of one unit; [`find_in_run`] returns what a
//! `Lookup` finds at one address, and keeps no rows. [`Paths`] gives the paths of one unit.
#![tactic(auto)]

mod covering_pairs;
mod directories;
mod ended_strings;
mod ends;
mod kept_rows;
pub mod laws;
mod lookup;
mod path_error;
mod path_files;
mod paths;
mod program;
mod program_paths;
mod ranges;
mod row_counts;
mod row_files;
mod run;
mod scan;
mod search;
mod section_addresses;
mod section_lookup;
mod section_search;
mod section_unit;
mod sequence_cut;
mod sequence_rows;
mod statements;
mod step_table;
mod steps;
mod string_sections;
mod unit_run;
mod unit_search;
mod walk;

pub use directories::some_need_directory;
pub use lookup::Lookup;
pub use path_error::PathError;
pub use paths::Paths;
pub use program::{Place, Program};
pub use program_paths::ProgramPaths;
pub use ranges::{CoveredRange, Ranges};
pub use run::find_in_run;
pub use section_lookup::{CoveringRows, SectionLookup};
pub use section_search::{FoundRows, find_in_section};
pub use section_unit::UnitLookup;
pub use sequence_rows::SequenceRows;
pub use statements::Addresses;
pub use string_sections::StringSections;
