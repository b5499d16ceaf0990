//! Line number programs of DWARF, versions 2 to 5, as they are built and written.
//!
//! A program means lists: its directories, its files, and the set addresses, rows and ends in the
//! order in which they were built. Nothing of their encoding is kept.
//!
//! Four layers, each on those before it: what builder calls build; directories and files as they
//! are written; next to them, rows and ends as they are written; and the unit of both.
#![tactic(auto)]

mod built;
mod bytes;
pub mod laws;
mod rows;
mod tables;
mod unit;

pub use built::files::{DirectoryId, FileId, FileInfo, Files};
pub use built::items::{BuiltItem, BuiltItems};
pub use built::line_program::LineProgram;
pub use built::line_string::LineString;
pub use built::row::LineRow;
pub use built::trap::{Trap, Traps};
pub use unit::{Refusal, Symbols};
