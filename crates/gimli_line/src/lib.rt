//! Line number programs of DWARF, versions 2 to 5, as they are read.
//!
//! In two layers: `header` reads the header of a unit, with its tables; above it, `run` takes the
//! instructions of the program one by one, and gives its rows and its sequences. Begin with
//! [`DebugLine`].
#![tactic(auto)]

mod debug_line;
mod header;
pub mod laws;
mod run;
mod units;

pub use debug_line::DebugLine;
pub use header::file_entry::{FileEntry, FileEntryFormat};
pub use header::program_header::LineProgramHeader;
pub use run::from_bytes::Executed;
pub use run::instruction::{LineInstruction, LineInstructions};
pub use run::program::{CompleteLineProgram, IncompleteLineProgram, LineProgram};
pub use run::row::{ColumnType, LineRow};
pub use run::row_list::RowList;
pub use run::rows::{LineRows, OneShotLineRows, ResumedLineRows};
pub use run::sequences::LineSequence;
pub use units::{LineUnit, LineUnits};
