//! Headers of line programs: the types of their parts, and how these are read.

pub(crate) mod file_entry;
pub(crate) mod forms;
pub(crate) mod parameters;
pub(crate) mod parse;
pub(crate) mod program_header;
pub(crate) mod tables;
