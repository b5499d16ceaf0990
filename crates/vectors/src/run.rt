//! What a command of a row gives.

use crate::conversion::convert;
use crate::linetool::run_linetool;
use crate::script::{Told, write};
use rows::{Attempts, Command, Input, Lines, Piece, RowCommand, Stop, print, words_before_parts};
use std::alloc::{AllocError, Global};

/// What a command of a row prints: its output, its lines on standard error after `stderr`, and its
/// status, where it isn't 0, after `status`.
pub fn run_command(
    alloc: Global,
    command: &RowCommand<'_>,
    attempts: Attempts,
) -> Result<Vec<u8>, AllocError> {
    let words: Vec<&str> = command.words.split_whitespace().collect(alloc)?;
    let mut lines = Lines::new(alloc);
    let status = match run(alloc, &words, attempts, &command.input, &mut lines) {
        Ok(status) => status,
        Err(Stop::Memory) => return Err(AllocError),
        Err(_) => 2,
    };
    if status != 0 {
        lines.print("status %\n", &[Piece::Number(u64::from(status))]);
    }
    lines.finish()
}

/// Runs a command on what it is given, and returns its status. If a command has texts, the words
/// after its own ones name the parts that hold them.
pub fn run(
    alloc: Global,
    words: &[&str],
    attempts: Attempts,
    input: &Input,
    lines: &mut Lines,
) -> Result<u8, Stop> {
    let name = words.first().copied().unwrap_or("");
    let count = words_before_parts(name).unwrap_or(words.len());
    let (own, parts) = words.split_at(count.min(words.len()));
    match (input, own) {
        (Input::Script(script), [name]) => {
            let told = match *name {
                "traps" => Told::Traps,
                "refusals" => Told::Refusals,
                _ => Told::Written,
            };
            write(alloc, attempts, script, told, lines)
        }
        (Input::Script(_), _) => Err(Stop::Bad),
        (Input::Section(section, named), _) => {
            if parts.iter().any(|word| !word.starts_with('@')) {
                return Err(Stop::Bad);
            }
            let (strings, line_strings) = texts_of(named)?;
            let sections = [section.as_slice(), strings, line_strings];
            run_over(alloc, own, attempts, sections, lines)
        }
    }
}

/// The sections of texts of a row, as far as they are named.
fn texts_of(named: &[Vec<u8>]) -> Result<(&[u8], &[u8]), Stop> {
    match named {
        [] => Ok(([].as_slice(), [].as_slice())),
        [strings] => Ok((strings.as_slice(), [].as_slice())),
        [strings, line_strings] => Ok((strings.as_slice(), line_strings.as_slice())),
        _ => Err(Stop::Bad),
    }
}

/// Runs a command over sections, and returns its status.
fn run_over(
    alloc: Global,
    words: &[&str],
    attempts: Attempts,
    sections: [&[u8]; 3],
    lines: &mut Lines,
) -> Result<u8, Stop> {
    let name = words.first().copied().unwrap_or("");
    let rest = words.get(1..).unwrap_or(&[]);
    let done = match (name, Command::parse(name)) {
        (_, Some(command)) => print(command, alloc, rest, attempts, sections, lines),
        ("convert", _) => convert(true, alloc, rest, attempts, sections, lines),
        ("convert_sequences", _) => convert(false, alloc, rest, attempts, sections, lines),
        _ => return run_linetool(alloc, words, attempts, sections, lines),
    };
    done.and(Ok(0))
}
