//! What the commands of `lines` read, and how they print it: the sections of a program, the names
//! of its code, the paths of its files, its units and their rows; lines of several values; the
//! places of addresses, and lines of source with the addresses of their code.
//!
//! A printed line is a text with a [`Piece`] in the place of each `%`. [`print_fields`] prints it
//! for people, or its pieces as an object of JSON.
#![tactic(auto)]

mod code_layout;
mod files;
mod functions;
mod input;
mod late_sections;
mod locate;
mod lookup;
mod moved_lines;
mod named_code;
mod path_budget;
mod path_sources;
mod piece;
mod place_printer;
mod sentence;
mod source_list;
mod units;

pub use files::{build_id_in, write_file};
pub use functions::Functions;
pub use input::{Input, InputError, InputSections, tell_refusal};
pub use late_sections::LateSections;
pub use locate::{Answered, PlaceRows, Places, SourceLine};
pub use lookup::{Covering, look_up_any, look_up_each, program_of};
pub use named_code::FunctionStarts;
pub use path_budget::PathBudget;
pub use path_sources::{PathFault, PathSources, path_or_fault};
pub use piece::Piece;
pub use place_printer::{Asked, FoundPlace, PlacePrinter, asked_by};
pub use sentence::{add, note, print, print_fields, tell, tell_of_unit};
pub use source_list::{SourceRow, print_below, print_lines};
use std::alloc::AllocError;
pub use units::{
    FlagLetters, Printing, RowCount, UnitRows, Walk, column_of, flags_of, line_of, show_reading,
};

/// What a call returns that fails where memory is missing.
pub type Result<T, E = AllocError> = std::result::Result<T, E>;
