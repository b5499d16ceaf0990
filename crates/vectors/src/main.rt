//! The program `vectors`: runs rows, each a command with its input and the output that is expected
//! of it.
//!
//! - `check FILE..` runs the rows of these files; prints each row whose output isn't the expected
//!   one, and for each file how many are as stated. Status 0 where all are, else 1.
//! - `again FILE..` does the same, with each call that returns `OutOfMemory` made once more; it
//!   prints `state LINE` where writing into an array took memory. Status 0, or 3 where the
//!   program's own memory is refused.
//! - `write` reads builder scripts from standard input, and prints what each gives.
//! - `header FILE little|big SIZE OFFSET DIR NAME` prints a header.
//! - `instructions FILE little|big SIZE OFFSET` prints the instructions of a unit.
//! - `convert FILE little|big SIZE OFFSET DIR NAME COMP TARGET [STR [LINE_STR]]` prints a
//!   conversion, as it is read and as it is built.
//! - `convert_sequences`, with the same words, prints a conversion as it is read, sequence by
//!   sequence.
//!
//! DIR and NAME are handed to the reader, COMP is the name of the unit: texts, or `-` for none.
//! TARGET is `-`, `VERSION,32|64,SIZE`, or that with `,MININST,MAXOPS,STMT,LINEBASE,LINERANGE`. STR
//! and LINE_STR are files with the two sections of texts; in a row they are parts, as `@NAME`.
//!
//! Other words, a bad script and a file that isn't one of rows: status 2, with a line on standard
//! error.
//!
//! `crates/vectors/ROWS.md` has the files of rows, and the commands of a row.
#![tactic(auto)]

mod array_section;
mod builder;
mod built;
mod check;
mod conversion;
mod entry;
mod linetool;
mod run;
mod script;

use entry::start;
use std::process::ExitCode;

fn main(rt: HostRuntime) -> ExitCode {
    ExitCode::from(start(rt.alloc(), &rt, rt.stdin(), rt.stdout(), &mut rt.stderr()))
}
