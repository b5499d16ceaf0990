//! The values of lines, as they are printed.

use crate::path_sources::PathFault;
use crate::units::RowCount;
use gimli_core::Error;
use line_text::Digits;
use lines_words::{Json, PathText, ShortName, ShortWord, SourceText};
use std::fmt::{self, Display};

/// A value in a line.
#[derive(Clone, Copy)]
pub enum Piece<'p> {
    /// A word.
    Word(&'p str),
    /// A word, padded with blanks to eighteen characters.
    WideWord(&'p str),
    /// A number in decimal digits.
    Number(u64),
    /// A number, with blanks before it up to a width.
    WideNumber(u64, usize),
    /// An address in hexadecimal digits.
    Address(u64),
    /// The offset of a unit, in at least eight hexadecimal digits.
    Unit(u64),
    /// A path, `??` where there is none.
    Path(Option<&'p [u8]>),
    /// An offset in the section of a name.
    InSection(&'p [u8], u64),
    /// A word of the program; only the beginning of a long one.
    Name(&'p str),
    /// A word of standard input or of a program's symbols; only the beginning of a long one.
    Asked(&'p [u8]),
    /// A line of source.
    Source(&'p [u8]),
    /// Bytes in hexadecimal digits.
    Digits(&'p [u8]),
    /// So many rows.
    Rows(u64),
    /// A share of a whole, in percent and as a bar.
    Share(u64, u64),
    /// Why bytes can't be read.
    Error(Error),
    /// Why a path isn't known.
    Fault(PathFault),
}

impl<'p> Piece<'p> {
    /// This piece as a JSON value of a field.
    pub(crate) fn json(self) -> Json<'p> {
        match self {
            Piece::Word(word) | Piece::WideWord(word) => Json::Word(word),
            Piece::Number(number) | Piece::WideNumber(number, _) => Json::Number(number),
            Piece::Address(offset) | Piece::Unit(offset) => Json::Offset(Some(offset)),
            Piece::Path(path) => Json::Bytes(path),
            _ => Json::Count(None),
        }
    }
}

impl Display for Piece<'_> {
    fn fmt<W: fmt::Write>(&self, f: &mut fmt::Formatter<W>) -> fmt::Result {
        match *self {
            Piece::Word(word) => f.write_str(word),
            Piece::WideWord(word) => write!(f, "{word:<18}"),
            Piece::Number(number) => write!(f, "{number}"),
            Piece::WideNumber(number, width) => write_number(number, width, f),
            Piece::Address(address) => write!(f, "0x{address:x}"),
            Piece::Unit(offset) => write!(f, "0x{offset:08x}"),
            Piece::Path(path) => Display::fmt(&PathText(path.unwrap_or(b"??")), f),
            Piece::InSection(name, offset) => write_place(name, offset, f),
            Piece::Name(name) => Display::fmt(&ShortName(name), f),
            Piece::Asked(word) => Display::fmt(&ShortWord(word), f),
            Piece::Source(text) => Display::fmt(&SourceText(text), f),
            Piece::Digits(bytes) => Display::fmt(&Digits(bytes), f),
            Piece::Rows(count) => Display::fmt(&RowCount(count), f),
            Piece::Share(part, whole) => write_share(part, whole, f),
            Piece::Error(error) => Display::fmt(&error, f),
            Piece::Fault(fault) => Display::fmt(&fault, f),
        }
    }
}

/// Writes an offset in a section.
fn write_place<W: fmt::Write>(name: &[u8], offset: u64, f: &mut fmt::Formatter<W>) -> fmt::Result {
    let name = PathText(name);
    write!(f, "{name}+0x{offset:x}")
}

/// Writes a number, with blanks before it.
fn write_number<W: fmt::Write>(
    number: u64,
    width: usize,
    f: &mut fmt::Formatter<W>,
) -> fmt::Result {
    let mut rest = number;
    for _ in 1..width {
        rest /= 10;
        if rest == 0 {
            f.write_char(' ')?;
        }
    }
    write!(f, "{number}")
}

/// Writes a share of a whole.
fn write_share<W: fmt::Write>(part: u64, whole: u64, f: &mut fmt::Formatter<W>) -> fmt::Result {
    let whole = u128::from(whole.max(1));
    let tenths = u128::from(part) * 1000 / whole;
    let percent = tenths / 10;
    let tenth = tenths % 10;
    write!(f, "{percent:>3}.{tenth}%")?;
    let bar = tenths.min(1000) / 50;
    if bar > 0 {
        f.write_str("  ")?;
    }
    for _ in 0..bar {
        f.write_char('#')?;
    }
    Ok(())
}
