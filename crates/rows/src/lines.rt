//! Lines that are printed one after another.

use gimli_core::Error;
use gimli_line::LineRow;
use line_text::{BytesLine, Digits, RowLine, Text, Words};
use std::alloc::{AllocError, Global};
use std::fmt::Debug;
use std::io::Write;

/// A piece of a line.
#[derive(Clone, Copy)]
pub enum Piece<'a> {
    /// Letters.
    Word(&'a str),
    /// The letters of the flags that are set, or others where none is.
    Flags(&'a [(bool, &'static str)], &'static str),
    /// A number in decimal digits.
    Number(u64),
    /// One that may be below zero.
    Signed(i64),
    /// A number in hexadecimal digits.
    Hex(u64),
    /// An address, in sixteen hexadecimal digits.
    Address(u64),
    /// Bytes in hexadecimal digits, with nothing between.
    Digits(&'a [u8]),
    /// Bytes in hexadecimal digits, with a blank between.
    Bytes(&'a [u8]),
    /// A text as a script has it.
    Text(&'a [u8]),
    /// What the line of a row says.
    Row(LineRow),
}

/// Lines, as bytes. Where memory is refused to one, no later one is printed.
#[derive(Drop)]
pub struct Lines {
    bytes: Vec<u8>,
    is_refused: bool,
}

impl Lines {
    /// No line.
    pub fn new(alloc: Global) -> Lines {
        Lines {
            bytes: Vec::new(alloc),
            is_refused: false,
        }
    }

    /// Prints a text, with a piece in the place of each `%`. Pieces that are left aren't printed.
    pub fn print(&mut self, text: &str, pieces: &[Piece<'_>]) {
        let mut words = text.split('%');
        self.write(words.next().unwrap_or("").as_bytes());
        for (piece, word) in pieces.iter().zip(words) {
            self.add(*piece);
            self.write(word.as_bytes());
        }
    }

    /// Prints a piece.
    fn add(&mut self, piece: Piece<'_>) {
        if self.is_refused {
            return;
        }
        let out = &mut self.bytes;
        let done = match piece {
            Piece::Word(word) => out.write_all(word.as_bytes()),
            Piece::Number(number) => write!(out, "{number}"),
            Piece::Signed(number) => write!(out, "{number}"),
            Piece::Hex(number) => write!(out, "{number:x}"),
            Piece::Address(address) => write!(out, "{address:016x}"),
            Piece::Flags(flags, none) => write!(out, "{}", Words(flags, none)),
            Piece::Digits(bytes) => write!(out, "{}", Digits(bytes)),
            Piece::Bytes(bytes) => write!(out, "{}", BytesLine(bytes)),
            Piece::Text(text) => write!(out, "{}", Text(text)),
            Piece::Row(row) => write!(out, "{}", RowLine(row)),
        };
        self.is_refused = done.is_err();
    }

    /// Prints a value, by its variant and what it holds.
    pub fn put<D: Debug + Copy>(&mut self, value: D) {
        if !self.is_refused {
            self.is_refused = write!(self.bytes, "{value:?}").is_err();
        }
    }

    /// Prints the line of an error after a word: its variant.
    pub fn put_error<E: Debug + Copy>(&mut self, word: &str, error: E) {
        self.write(word.as_bytes());
        self.put(error);
        self.write(b"\n");
    }

    /// Prints the line of a refusal of reading: its variant, with what it holds where that is a
    /// version, a size or a form.
    pub fn put_refusal(&mut self, word: &str, error: Error) {
        let (text, form) = match error {
            Error::UnexpectedEof(_) => ("%UnexpectedEof\n", 0),
            Error::UnknownForm(form) => ("%UnknownForm(%)\n", form.0),
            error => return self.put_error(word, error),
        };
        self.print(text, &[Piece::Word(word), Piece::Number(u64::from(form))]);
    }

    /// Prints bytes as they are.
    pub fn write(&mut self, bytes: &[u8]) {
        if !self.is_refused {
            self.is_refused = self.bytes.extend_from_slice(bytes).is_err();
        }
    }

    /// Keeps that memory is refused to what would be printed.
    pub fn refuse(&mut self) {
        self.is_refused = true;
    }

    /// How many bytes were printed so far.
    pub fn len(&self) -> usize {
        self.bytes.len()
    }

    /// Takes back what was printed after so many bytes.
    pub fn truncate(&mut self, len: usize) {
        self.bytes.truncate(len);
    }

    /// The bytes. Refused where memory was refused to a line.
    pub fn finish(self) -> Result<Vec<u8>, AllocError> {
        if self.is_refused {
            Err(AllocError)
        } else {
            Ok(self.bytes)
        }
    }
}
