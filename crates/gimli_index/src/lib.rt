//! An index of the lines of a program, as plain bytes: made once, mapped from a file, shared by
//! threads, and queried without taking memory. `docs/reference/INDEX.md` has its format.
//!
//! [`LineIndex::open`] takes the bytes where they are, in constant time. [`LineIndex::find`]
//! returns where the code at an address comes from, and [`LineIndex::get`] gives what holds from
//! each address on. [`LineIndex::check`] is for bytes that nobody vouches for.
#![tactic(auto)]

mod addresses;
mod check;
mod components;
mod contents;
mod error;
mod files;
mod header;
pub mod laws;
mod line_index;
mod lines;
mod made;
mod named;
mod number;
mod order;
mod ordering;
mod origin;
mod path_bytes;
mod path_end;
mod path_ends;
mod path_set;
mod place;
mod ranges;
mod source_hints;
mod source_keys;
mod source_table;
mod span;
mod statements;
mod turns;

pub use addresses::Addresses;
pub use contents::{Contents, Entry, Source, SourceLine, Statement};
pub use error::{IndexError, MakeError};
pub use files::{SourceFile, SourceFiles};
pub use line_index::LineIndex;
pub use made::write_index;
pub use path_end::PathEnd;
pub use place::{NoPath, Place, Start};
pub use ranges::{PlaceRange, PlaceRanges};
pub use span::{PlaceSpan, Span, StartSpan};
