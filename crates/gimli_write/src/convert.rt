//! Line programs that are read and built again.

pub(crate) mod conversion;
pub(crate) mod header;
pub(crate) mod numbers;
pub(crate) mod program;
pub(crate) mod read_back;
pub(crate) mod rows;
pub(crate) mod run;
pub(crate) mod tables;
pub(crate) mod texts;
pub(crate) mod tombstones;
