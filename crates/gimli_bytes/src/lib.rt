//! Writers of DWARF sections, tables of strings, and the errors of writing.
//!
//! A [`Writer`] means the list of its bytes, an order of bytes, and three facts of the type:
//! whether it keeps exactly its bytes, whether it fails for memory alone, and whether it appends
//! all bytes of a `write` or none. A string table means a list of distinct texts.
#![tactic(auto)]

mod address;
mod endian_vec;
mod error;
pub mod laws;
mod leb128;
mod piece_vec;
mod relocatable_vec;
mod relocation;
mod section;
mod sink;
mod str;
mod writer;

pub use address::Address;
pub use endian_vec::EndianVec;
pub use error::{Error, Result};
pub use leb128::Leb128;
pub use piece_vec::{PieceVec, Pieces};
pub use relocatable_vec::RelocatableVec;
pub use relocation::{Addends, Relocation, RelocationTarget};
pub use section::{DebugLine, DebugLineStr, DebugStr};
pub use sink::Sink;
pub use str::{LineStringId, LineStringTable, StringId, StringTable};
pub use writer::{InitialLengthOffset, Writer};
