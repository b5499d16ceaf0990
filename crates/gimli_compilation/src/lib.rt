//! What the first entry of each unit of `.debug_info` says of its compilation: the offset of its
//! line program, its directory and its name. DWARF versions 2 to 5.
//!
//! A unit begins with a header (`header`). Its first entry names a declaration of `.debug_abbrev`
//! (`abbreviation`), which says what forms (`form`) its attributes (`attributes`) have.
//! [`CompilationSections`] holds the sections, and [`CompilationUnits`] walks through the units.
#![tactic(auto)]

mod abbreviation;
mod attributes;
mod compilations;
pub mod constants;
mod form;
mod header;
pub mod laws;
mod refusal;
mod sections;
mod texts;
mod units;

pub use compilations::Compilations;
pub use constants::{DwAt, DwUt};
pub use refusal::Refusal;
pub use sections::{Compilation, CompilationSections};
pub use units::{CompilationUnit, CompilationUnits};
