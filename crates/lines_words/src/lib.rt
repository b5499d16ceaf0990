//! The words of the program `lines`, and the names, numbers and texts that it reads and prints.
//!
//! [`parse`] reads the words, [`Request`] is what they ask for, and [`Output`] keeps what a command
//! prints.
#![tactic(auto)]

mod grammar;
mod kinds;
mod names;
mod numbers;
mod output;
mod path_map;
mod path_text;
mod request;
mod words;

pub use kinds::{CheckChoice, FindingKind, Severity};
pub use names::{bytes_of_word, text_of_word};
pub use numbers::{
    build_id_of, map_path, parse_address, parse_code_address, parse_code_question,
    parse_line_question, parse_offset, parse_place, parse_target,
};
pub use output::{Json, Output, Screen, Style};
pub use path_map::PathMap;
pub use path_text::{
    ColumnMark, JsonBytes, NameText, PathText, ShortName, ShortWord, SourceText, last_part,
    shown_path,
};
pub use request::{
    CodeAddress, Command, Files, Form, InputKind, LineNames, Notation, PathForm, Request,
    SourceFiles, SourcePlace, UnitChoice, UnitFiles,
};
pub use words::{message_of, parse};
