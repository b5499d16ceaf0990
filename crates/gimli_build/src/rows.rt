//! Rows and ends as they are written.

pub(crate) mod encode;
pub(crate) mod instruction;
pub(crate) mod sizes;
