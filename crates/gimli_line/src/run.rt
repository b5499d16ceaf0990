//! Runs of line programs: instructions, registers, rows and sequences.

pub(crate) mod from_bytes;
pub(crate) mod instruction;
pub(crate) mod leb128;
pub(crate) mod program;
pub(crate) mod row;
pub(crate) mod row_list;
pub(crate) mod rows;
pub(crate) mod sequences;
