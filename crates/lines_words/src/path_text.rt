//! Paths, names and lines of source, as they are printed.

use crate::names::byte_of;
use crate::request::PathForm;
use line_text::Digits;
use std::fmt;
use std::fmt::{Display, Formatter, Write};

/// How the characters of a text are written. A text that isn't UTF-8 consists of bytes where it
/// isn't ASCII.
#[derive(Clone, Copy)]
pub(crate) enum Writing {
    /// As they are; but what could change a terminal, a control character other than this one and a
    /// byte, as `\x` and two hexadecimal digits.
    Shown(char),
    /// As in a string of JSON (RFC 8259, section 7), and a byte as U+FFFD.
    Json,
    /// As blanks that are as wide; tabs stay.
    Blank,
}

impl Writing {
    /// Writes a text.
    pub(crate) fn write_text<W: Write>(self, text: &[u8], f: &mut Formatter<W>) -> fmt::Result {
        match (str::from_utf8(text), self) {
            (Ok(plain), Writing::Shown(_))
                if text.iter().all(|byte| matches!(*byte, b' '..=b'~')) => { f.write_str(plain) }
            (Ok(characters), _) => self.write_characters(characters, f),
            (Err(_), _) => self.write_bytes(text, f),
        }
    }

    /// Writes characters.
    fn write_characters<W: Write>(self, characters: &str, f: &mut Formatter<W>) -> fmt::Result {
        for character in characters.chars() {
            self.write(character, false, f)?;
        }
        Ok(())
    }

    /// Writes the characters of a word, or of lines of words.
    fn write_name<W: Write>(self, name: &str, f: &mut Formatter<W>) -> fmt::Result {
        for character in name.chars() {
            match byte_of(character) {
                Some(byte) => self.write(char::from(byte), true, f)?,
                None => self.write(character, false, f)?,
            }
        }
        Ok(())
    }

    /// Writes bytes of a text that isn't UTF-8.
    fn write_bytes<W: Write>(self, bytes: &[u8], f: &mut Formatter<W>) -> fmt::Result {
        for byte in bytes {
            self.write(char::from(*byte), !byte.is_ascii(), f)?;
        }
        Ok(())
    }

    /// Writes a character, or a byte by the character of its number.
    pub(crate) fn write<W: Write>(
        self,
        character: char,
        is_byte: bool,
        f: &mut Formatter<W>,
    ) -> fmt::Result {
        let is_shown = !is_byte && !character.is_control();
        let number = u32::from(character);
        match self {
            Writing::Json if is_byte => f.write_char('\u{fffd}'),
            Writing::Json => write_in_json(character, f),
            Writing::Blank if is_shown => f.write_char(' '),
            Writing::Blank if character == '\t' => f.write_char('\t'),
            Writing::Blank => f.write_str("    "),
            Writing::Shown(kept) if is_shown || kept == character => f.write_char(character),
            Writing::Shown(_) => write!(f, "\\x{number:02x}"),
        }
    }
}

/// Writes a character of a string of JSON.
fn write_in_json<W: Write>(character: char, f: &mut Formatter<W>) -> fmt::Result {
    let escape = match character {
        '"' => "\\\"",
        '\\' => "\\\\",
        '\n' => "\\n",
        '\r' => "\\r",
        '\t' => "\\t",
        '\u{8}' => "\\b",
        '\u{c}' => "\\f",
        '\0'..='\u{1f}' => {
            let number = u32::from(character);
            return write!(f, "\\u{number:04x}");
        }
        _ => return f.write_char(character),
    };
    f.write_str(escape)
}

/// A path as text. What could change a terminal stands as `\x` and two hexadecimal digits: a
/// control character, and in a path that isn't UTF-8 each byte that isn't ASCII.
#[derive(Clone, Copy)]
pub struct PathText<'p>(pub &'p [u8]);

impl Display for PathText<'_> {
    fn fmt<W: Write>(&self, f: &mut Formatter<W>) -> fmt::Result {
        Writing::Shown(' ').write_text(self.0, f)
    }
}

/// A word as it is printed: a control character, and a byte that is no UTF-8, stands as `\x` and
/// two hexadecimal digits.
#[derive(Clone, Copy)]
pub struct NameText<'n>(pub &'n str);

impl Display for NameText<'_> {
    fn fmt<W: Write>(&self, f: &mut Formatter<W>) -> fmt::Result {
        Writing::Shown(' ').write_name(self.0, f)
    }
}

/// How many bytes of a word are reported at most.
const SHOWN: usize = 200;

/// A word that is reported, as `NameText`; of a long one the beginning, and two dots.
#[derive(Clone, Copy)]
pub struct ShortName<'n>(pub &'n str);

impl Display for ShortName<'_> {
    fn fmt<W: Write>(&self, f: &mut Formatter<W>) -> fmt::Result {
        let end = self.0.floor_char_boundary(SHOWN);
        Display::fmt(&NameText(self.0.get(..end).unwrap_or("")), f)?;
        f.write_str(rest_of(self.0.len(), end))
    }
}

/// A word of standard input that is reported, as `PathText`; of a long one the beginning, and two
/// dots.
#[derive(Clone, Copy)]
pub struct ShortWord<'w>(pub &'w [u8]);

impl Display for ShortWord<'_> {
    fn fmt<W: Write>(&self, f: &mut Formatter<W>) -> fmt::Result {
        let end = match str::from_utf8(self.0) {
            Ok(text) => text.floor_char_boundary(SHOWN),
            Err(_) => self.0.len().min(SHOWN),
        };
        Display::fmt(&PathText(self.0.get(..end).unwrap_or(b"")), f)?;
        f.write_str(rest_of(self.0.len(), end))
    }
}

/// What stands for the rest of a word of a length.
fn rest_of(length: usize, end: usize) -> &'static str {
    if end < length { ".." } else { "" }
}

/// A message that names words, whose lines stay apart.
#[derive(Clone, Copy)]
pub(crate) struct MessageText<'m>(pub(crate) &'m str);

impl Display for MessageText<'_> {
    fn fmt<W: Write>(&self, f: &mut Formatter<W>) -> fmt::Result {
        Writing::Shown('\n').write_name(self.0, f)
    }
}

/// A line of source as it is printed: tabs stay, and anything else that could change a terminal is
/// printed as in a path.
#[derive(Clone, Copy)]
pub struct SourceText<'t>(pub &'t [u8]);

impl Display for SourceText<'_> {
    fn fmt<W: Write>(&self, f: &mut Formatter<W>) -> fmt::Result {
        Writing::Shown('\t').write_text(self.0, f)
    }
}

/// The mark below a column of a line of source. A column counts bytes from 1 on (DWARF 5, section
/// 6.2.2); one after the end is marked there.
#[derive(Clone, Copy)]
pub struct ColumnMark<'t> {
    /// The line.
    pub text: &'t [u8],
    /// The column.
    pub column: u64,
}

impl Display for ColumnMark<'_> {
    fn fmt<W: Write>(&self, f: &mut Formatter<W>) -> fmt::Result {
        let before = usize::try_from(self.column.saturating_sub(1)).unwrap_or(usize::MAX);
        match str::from_utf8(self.text) {
            Ok(text) => {
                let end = text.floor_char_boundary(before);
                Writing::Blank.write_characters(text.get(..end).unwrap_or(text), f)?;
            }
            Err(_) => {
                let bytes = self.text.get(..before).unwrap_or(self.text);
                Writing::Blank.write_bytes(bytes, f)?;
            }
        }
        f.write_char('^')
    }
}

/// Bytes as a string. Where they aren't UTF-8, each that isn't ASCII stands as U+FFFD.
#[derive(Clone, Copy)]
pub(crate) struct JsonText<'t>(pub(crate) &'t [u8]);

impl Display for JsonText<'_> {
    fn fmt<W: Write>(&self, f: &mut Formatter<W>) -> fmt::Result {
        f.write_char('"')?;
        Writing::Json.write_text(self.0, f)?;
        f.write_char('"')
    }
}

/// Bytes as the value of the field of a name, as `Json::Bytes` says.
#[derive(Clone, Copy)]
pub struct JsonBytes<'f> {
    /// The name of the field.
    pub name: &'f str,
    /// The bytes.
    pub bytes: Option<&'f [u8]>,
}

impl Display for JsonBytes<'_> {
    fn fmt<W: Write>(&self, f: &mut Formatter<W>) -> fmt::Result {
        let Some(bytes) = self.bytes else {
            return f.write_str("null");
        };
        let text = JsonText(bytes);
        if str::from_utf8(bytes).is_ok() {
            return write!(f, "{text}");
        }
        let name = self.name;
        let digits = Digits(bytes);
        write!(f, "{text},\"{name}_bytes\":\"{digits}\"")
    }
}

/// What is printed of a path. The directory is the one that paths are printed from; a path is
/// compared with it as both are written, and stays whole where it isn't in the directory.
pub fn shown_path<'p>(path: &'p [u8], form: PathForm<'_>, directory: &[u8]) -> &'p [u8] {
    let start = match form {
        PathForm::Whole => return path,
        PathForm::LastPart => return last_part(path),
        PathForm::From(_) => match path.strip_prefix(directory) {
            Some(rest) => rest,
            None => return path,
        },
    };
    match start.iter().position(|byte| !is_separator(*byte)) {
        Some(place) if place > 0 => start.get(place..).unwrap_or(path),
        _ => path,
    }
}

/// The last part of a path: what stands after its last `/` or backslash.
pub fn last_part(path: &[u8]) -> &[u8] {
    match path.iter().rposition(|byte| is_separator(*byte)) {
        Some(place) => path.get(place.saturating_add(1)..).unwrap_or(path),
        None => path,
    }
}

/// Whether a byte separates the components of a path: `/`, or as in Windows a backslash.
fn is_separator(byte: u8) -> bool {
    byte == b'/' || byte == b'\\'
}
