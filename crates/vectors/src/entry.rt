//! What the words of the program ask for, over any files and any outputs.

use crate::check::check_rows;
use crate::run::run;
use linetool_commands::words_after_name;
use rows::{Attempts, CONVERSION_WORDS, Input, Lines, Stop, parse_rows, repeat_lines};
use std::alloc::Global;
use std::env::Env;
use std::fs::{File, Files};
use std::io;
use std::io::{BufWriter, ErrorKind, Read, Write};

/// The status where the words, a script or a file aren't what they must be.
const MALFORMED: u8 = 2;

/// The place of the last word that names no file of texts.
const LAST_WORD: usize = CONVERSION_WORDS + 1;

/// The status where a row isn't as stated.
const NOT_AS_STATED: u8 = 1;

/// Does what the words after the program's name ask for, and returns the status of the program.
pub fn start<R: Env + Files, I: Read + Drop, O: Write + Drop, E: Write>(
    alloc: Global,
    rt: &R,
    input: I,
    out: O,
    err: &mut E,
) -> u8 {
    match perform(alloc, rt, input, out, err) {
        Ok(status) => status,
        Err(e) if e.kind() == ErrorKind::OutOfMemory => tell(err, "memory is refused", 3),
        Err(_) => {
            let text = "a file can't be read, or the output can't be written";
            tell(err, text, MALFORMED)
        }
    }
}

/// Prints a line on standard error, and returns a status.
fn tell<E: Write>(err: &mut E, text: &str, status: u8) -> u8 {
    // Where standard error can't be written to, the status still says it.
    let _ = writeln!(err, "vectors: {text}");
    status
}

/// The same as `start`, where memory may be refused, and files and outputs may fail.
fn perform<R: Env + Files, I: Read + Drop, O: Write + Drop, E: Write>(
    alloc: Global,
    rt: &R,
    input: I,
    out: O,
    err: &mut E,
) -> io::Result<u8> {
    let text = words_after_name(alloc, rt)?;
    let words: Vec<&str> = text.split('\0').skip(1).collect(alloc)?;
    match words.as_slice() {
        ["check", files @ ..] if !files.is_empty() => {
            check_files(alloc, rt, files, Attempts::One, out, err)
        }
        ["again", files @ ..] if !files.is_empty() => {
            let status = check_files(alloc, rt, files, Attempts::Two, out, err)?;
            Ok(if status == NOT_AS_STATED { 0 } else { status })
        }
        ["write"] => {
            let script = io::read_to_string(alloc, input)?;
            print_all(alloc, &words, &Input::Script(script), out, err)
        }
        [
            "header" | "instructions" | "convert" | "convert_sequences",
            file,
            ..
        ] => {
            let section = read_file(alloc, rt, file)?;
            let mut own = Vec::new(alloc);
            let mut texts = Vec::new(alloc);
            for (place, word) in words.iter().enumerate() {
                match place {
                    1 => {}
                    0..=LAST_WORD => own.push(*word)?,
                    _ => texts.push(read_file(alloc, rt, word)?)?,
                }
            }
            print_all(alloc, &own, &Input::Section(section, texts), out, err)
        }
        _ => Ok(tell(err, "no such words", MALFORMED)),
    }
}

/// The bytes of a file.
fn read_file<R: Files>(alloc: Global, rt: &R, path: &str) -> io::Result<Vec<u8>> {
    let mut bytes = Vec::new(alloc);
    File::open(rt, path)?.read_to_end(&mut bytes)?;
    Ok(bytes)
}

/// Prints what a command gives, and returns its status.
fn print_all<O: Write + Drop, E: Write>(
    alloc: Global,
    words: &[&str],
    input: &Input,
    out: O,
    err: &mut E,
) -> io::Result<u8> {
    let mut out = out;
    let mut lines = Lines::new(alloc);
    match run(alloc, words, Attempts::One, input, &mut lines) {
        Err(Stop::Memory) => Err(io::Error::from(ErrorKind::OutOfMemory)),
        Err(_) => Ok(tell(err, "not what the command takes", MALFORMED)),
        Ok(status) => {
            out.write_all(&lines.finish()?)?;
            Ok(status)
        }
    }
}

/// Runs the rows of files, prints how many of each are as stated, and returns the status of the
/// program.
fn check_files<R: Files, O: Write + Drop, E: Write>(
    alloc: Global,
    rt: &R,
    files: &[&str],
    attempts: Attempts,
    out: O,
    err: &mut E,
) -> io::Result<u8> {
    let mut out = BufWriter::new(alloc, out)?;
    let mut status = 0;
    for file in files {
        let text = io::read_to_string(alloc, File::open(rt, *file)?)?;
        let text = repeat_lines(alloc, &text)?;
        match parse_rows(alloc, &text) {
            Ok(rows) => {
                let not = check_rows(alloc, &rows, attempts, &mut out)?;
                let as_stated = rows.len().saturating_sub(not);
                writeln!(out, "{file}: {as_stated} rows as stated, {not} not")?;
                status = if not == 0 { status } else { NOT_AS_STATED };
            }
            Err((_, Stop::Memory)) => return Err(io::Error::from(ErrorKind::OutOfMemory)),
            Err((line, _)) => {
                out.flush()?;
                let _ = writeln!(err, "vectors: {file}:{line}: this can't stand here");
                return Ok(MALFORMED);
            }
        }
    }
    out.flush()?;
    Ok(status)
}
