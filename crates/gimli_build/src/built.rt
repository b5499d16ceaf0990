//! What builder calls build: texts, files, rows and items, and the program that has them.

pub(crate) mod files;
pub(crate) mod items;
pub(crate) mod line_program;
pub(crate) mod line_string;
pub(crate) mod row;
mod tested;
pub(crate) mod trap;
