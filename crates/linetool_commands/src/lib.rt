//! The commands of the program `linetool`, over its words, a reader in place of the file, and two
//! writers.
#![tactic(auto)]

mod commands;
mod count;
mod demo;
mod entry;
mod find;
mod print;
mod refusal;
mod section;
mod units;
mod words;

pub use commands::run;
pub use demo::{begin_at, end_at, one_file_program, put_row};
pub use entry::{start, words_after_name};
pub use refusal::Refusal;
pub use words::{Command, Numbers, Query};
