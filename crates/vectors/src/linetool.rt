//! The program `linetool`, as a command of a row.

use rows::{Attempts, Command, Lines, Stop, parse_number, print};
use std::alloc::Global;
use std::io;
use std::io::{ErrorKind, Read, Write};

/// A file that is read byte by byte.
#[derive(Clone, Copy)]
struct RowFile<'s> {
    bytes: &'s [u8],
    /// Whether reading fails where the bytes end.
    breaks: bool,
}

impl Read for RowFile<'_> {
    fn read(&mut self, buf: &mut [u8]) -> io::Result<usize> {
        if self.bytes.is_empty() && self.breaks {
            return Err(io::Error::from(ErrorKind::BrokenPipe));
        }
        let count = buf.len().min(self.bytes.len());
        let (bytes, rest) = self.bytes.split_at(count);
        buf[..count].copy_from_slice(bytes);
        self.bytes = rest;
        Ok(count)
    }
}

/// An output that has room for so many bytes more.
#[derive(Drop)]
struct Room {
    out: Vec<u8>,
    left: usize,
}

impl Write for Room {
    fn write(&mut self, bytes: &[u8]) -> io::Result<usize> {
        let count = bytes.len().min(self.left);
        self.out.extend_from_slice(&bytes[..count])?;
        self.left -= count;
        Ok(count)
    }

    fn flush(&mut self) -> io::Result<()> {
        Ok(())
    }
}

/// Runs a command of `linetool`, and returns its status. If memory is refused to it and attempts
/// are two, it runs a second time from the start. A word before the command may limit it: `room N`,
/// where its output takes only N bytes; `missing`, where its file isn't there; or `broken`, where
/// reading the file fails.
pub fn run_linetool(
    alloc: Global,
    words: &[&str],
    attempts: Attempts,
    sections: [&[u8]; 3],
    lines: &mut Lines,
) -> Result<u8, Stop> {
    let [section, _, _] = sections;
    let mut left = usize::MAX;
    let (words, breaks) = match words {
        ["room", room, words @ ..] => {
            left = parse_number(room).ok_or(Stop::Bad)? as usize;
            (words, Some(false))
        }
        ["missing", words @ ..] => (words, None),
        ["broken", words @ ..] => (words, Some(true)),
        words => (words, Some(false)),
    };
    let bytes = section;
    let file = breaks.map(|breaks| RowFile { bytes, breaks });
    let mut own = Vec::new(alloc);
    for word in words {
        own.push(*word)?;
        // A file stands after each name but `demo`.
        if own.len() == 1 && *word != "demo" {
            own.push("FILE")?;
        }
    }
    let status = run_words(alloc, &own, attempts, file, left, lines)?;
    if attempts == Attempts::Two && words.first() == Some(&"rows") {
        let rest = words.get(1..).unwrap_or(&[]);
        // Words that are no location have no rows.
        let _ = print(Command::Watch, alloc, rest, attempts, sections, lines);
    }
    Ok(status)
}

/// Runs the words of `linetool` over a file, and prints what they write to its outputs.
fn run_words(
    alloc: Global,
    words: &[&str],
    attempts: Attempts,
    file: Option<RowFile<'_>>,
    left: usize,
    lines: &mut Lines,
) -> Result<u8, Stop> {
    let mut err = Vec::new(alloc);
    let mut printed = Room {
        out: Vec::new(alloc),
        left,
    };
    let mut status = linetool_commands::run(alloc, words, file, &mut printed, &mut err);
    if attempts == Attempts::Two && err.as_slice() == b"refused: memory\n".as_slice() {
        printed.out.clear();
        err.clear();
        status = linetool_commands::run(alloc, words, file, &mut printed, &mut err);
    }
    // An output with room takes no more only where memory is refused.
    if status != 0 && err.is_empty() && printed.left != 0 {
        return Err(Stop::Memory);
    }
    lines.write(&printed.out);
    for line in err.split_inclusive(|byte| *byte == b'\n') {
        lines.write(b"stderr ");
        lines.write(line);
    }
    Ok(status)
}
