//! The start of the program: its words and its file.

use crate::commands::run;
use crate::refusal::Refusal;
use std::alloc::{AllocError, Global};
use std::env::{Env, FillError};
use std::fs::{File, Files};
use std::io::{BufWriter, Write};
use std::str;

/// The most bytes of one word that Linux hands to a program.
const LONGEST_WORD: usize = 131_072;

/// Does what the words after the program's name ask for, and returns the status of the program.
pub fn start<R: Env + Files, O: Write + Drop, E: Write>(
    alloc: Global,
    rt: &R,
    out: O,
    err: &mut E,
) -> u8 {
    match (words_after_name(alloc, rt), BufWriter::new(alloc, out)) {
        (Ok(text), Ok(mut out)) => match text.split('\0').skip(1).collect::<Vec<&str>>(alloc) {
            Ok(words) => run(alloc, &words, open_file(rt, &words), &mut out, err),
            Err(_) => Refusal::Memory.report(err),
        },
        _ => Refusal::Memory.report(err),
    }
}

/// The words after the program's name, each after a zero byte. One that isn't UTF-8 is taken for an
/// empty word, which is no command, no number and the name of no file.
pub fn words_after_name<R: Env>(alloc: Global, rt: &R) -> Result<String, AllocError> {
    let mut room = Vec::new(alloc);
    room.resize(LONGEST_WORD, 0u8)?;
    let mut text = String::new(alloc);
    for i in 1..usize::MAX {
        let length = match rt.arg(i, &mut room) {
            Ok(length) => length,
            Err(FillError::TooLong) => 0,
            Err(FillError::NotPresent) => break,
        };
        text.push('\0')?;
        text.push_str(str::from_utf8(&room[..length]).unwrap_or(""))?;
    }
    Ok(text)
}

/// The file that the second word names, where a command needs it and it can be opened.
fn open_file<R: Files>(rt: &R, words: &[&str]) -> Option<R::File> {
    match words {
        ["demo", ..] => None,
        [_, path, ..] => File::open(rt, *path).ok(),
        _ => None,
    }
}
