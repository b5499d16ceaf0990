//! Rows as text: what a file of rows says, the words of a command, the lines that it prints, and
//! when an output is the expected one; and the commands that read: headers, instructions, units and
//! lookups over a section. `crates/vectors/ROWS.md` has the language.
#![tactic(auto)]

mod arguments;
mod command;
mod comparison;
mod lines;
mod lookup_text;
mod parts;
mod repeat;
mod row_file;
mod stop;
mod unit_text;
mod words;

pub use arguments::{Arguments, Form, Target};
pub use command::{Command, print};
pub use comparison::is_expected;
pub use lines::{Lines, Piece};
pub use repeat::repeat_lines;
pub use row_file::{CONVERSION_WORDS, Input, RowCommand, TestRow, parse_rows, words_before_parts};
pub use stop::{Attempts, Stop};
pub use words::{parse_number, reader};
