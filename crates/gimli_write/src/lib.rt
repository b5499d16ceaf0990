//! Line number programs of DWARF, versions 2 to 5, as they are written and read again.
//!
//! This crate has all that a user of the writing half names: writers, sections and tables of
//! strings, the builder, the round trip, and the converter of a program that is read.
#![tactic(auto)]

pub mod conversion_laws;
mod convert;
mod convert_error;
mod read_back;
mod text;

pub use convert::numbers::{keeps_numbers, written_number};
pub use convert::program::{ConvertLineHeader, ConvertLineProgram, convert_program};
pub use convert::read_back::convert_and_read_back;
pub use convert::rows::{ConvertLineRow, ConvertLineSequence, ConvertLineSequenceEnd};
pub use convert::tombstones::no_sequence_ends_under_tombstone;
pub use convert_error::{ConvertError, ConvertResult};
pub use gimli_build::{
    BuiltItem, BuiltItems, DirectoryId, FileId, FileInfo, Files, LineProgram, LineRow, LineString,
    Refusal, Symbols, Trap, Traps, laws,
};
pub use gimli_bytes::{
    Addends, Address, DebugLine, DebugLineStr, DebugStr, EndianVec, Error, InitialLengthOffset,
    Leb128, LineStringId, LineStringTable, PieceVec, Pieces, RelocatableVec, Relocation,
    RelocationTarget, Result, Sink, StringId, StringTable, Writer,
};
pub use read_back::{RoundTrip, RoundTripFile, round_trip};
