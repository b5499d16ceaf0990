//! The program `lines`: what the line tables of a program say.
#![tactic(auto)]

mod commands;
mod indexes;
mod inputs;
mod places;
mod session;

use crate::indexes::{ask, ask_lines, write_index};
use crate::inputs::{compare, inputs_of};
use crate::places::locate;
use crate::session::{REFUSED, Run};
use clap::Error;
use clap::error::ErrorKind as WordsError;
use lines_words::{Command, Request};
use std::env::{Env, FillError};
use std::io::{self, ErrorKind, Write};
use std::process::ExitCode;

/// The most bytes of one word that Linux hands to a program.
const LONGEST_WORD: usize = 131_072;

/// The status for words that are none of the program's.
const USAGE: u8 = 2;

fn main(rt: HostRuntime) -> ExitCode {
    let status = match start(&rt) {
        Ok(status) => status,
        // Where standard output was closed, nothing is reported.
        Err(error) if error.kind() == ErrorKind::BrokenPipe => REFUSED,
        Err(error) => {
            // Where standard error can't be written to, the status still says it.
            let _ = writeln!(rt.stderr(), "lines: {error}");
            REFUSED
        }
    };
    ExitCode::from(status)
}

/// Runs on the words of the program, and returns its status.
fn start(rt: &HostRuntime) -> io::Result<u8> {
    let words = words_of_program(rt)?;
    match lines_words::parse(rt.alloc(), &words) {
        Ok(request) => perform(rt, &request),
        Err(error) => explain(rt, &error),
    }
}

/// The words of the program, each as text, as `text_of_word` has it.
fn words_of_program(rt: &HostRuntime) -> io::Result<Vec<String>> {
    let alloc = rt.alloc();
    let mut room = vec![in alloc; 0u8; LONGEST_WORD]?;
    let mut words = Vec::new(alloc);
    for index in 0..usize::MAX {
        let length = match rt.arg(index, &mut room) {
            Ok(length) => length,
            Err(FillError::TooLong) => return Err(io::Error::from(io::ErrorKind::InvalidInput)),
            Err(FillError::NotPresent) => break,
        };
        words.push(lines_words::text_of_word(alloc, &room[..length])?)?;
    }
    Ok(words)
}

/// Prints the message for words that can't be parsed, or the help, and returns the status.
fn explain(rt: &HostRuntime, error: &Error) -> io::Result<u8> {
    if error.kind() == WordsError::OutOfMemory {
        return Err(io::Error::from(ErrorKind::OutOfMemory));
    }
    let message = lines_words::message_of(rt.alloc(), error)?;
    if error.use_stderr() {
        // Where standard error can't be written to, the status still says it.
        let _ = write!(rt.stderr(), "{message}");
        return Ok(USAGE);
    }
    write!(rt.stdout(), "{message}")?;
    Ok(0)
}

/// Does what a request asks for, and returns the status of the program.
fn perform(rt: &HostRuntime, request: &Request<'_>) -> io::Result<u8> {
    let run = Run { rt, request };
    match request.command {
        Command::Index(out) => write_index(run, out),
        Command::Ask(index) => ask(run, index),
        Command::AskLines(names) => ask_lines(run, names),
        Command::Diff(new) => compare(run, new),
        Command::Where { .. } => locate(run),
        _ => match inputs_of(run, request.file)? {
            Some(inputs) => run.perform(inputs.kind, inputs.files()),
            None => Ok(REFUSED),
        },
    }
}
