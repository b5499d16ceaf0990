//! Bytes and texts as they are printed.

use std::io::Write;
use std::{fmt, io};

/// Bytes in two hexadecimal digits each, with a blank between.
#[derive(Clone, Copy)]
pub struct BytesLine<'a>(pub &'a [u8]);

impl fmt::Display for BytesLine<'_> {
    fn fmt<W: fmt::Write>(&self, f: &mut fmt::Formatter<W>) -> fmt::Result {
        let mut first = true;
        for byte in self.0 {
            if !first {
                f.write_char(' ')?;
            }
            write!(f, "{byte:02x}")?;
            first = false;
        }
        Ok(())
    }
}

/// Bytes in two hexadecimal digits each, with nothing between.
#[derive(Clone, Copy)]
pub struct Digits<'a>(pub &'a [u8]);

impl fmt::Display for Digits<'_> {
    fn fmt<W: fmt::Write>(&self, f: &mut fmt::Formatter<W>) -> fmt::Result {
        for byte in self.0 {
            write!(f, "{byte:02x}")?;
        }
        Ok(())
    }
}

/// A text as a script has it: `%` where it is empty, else its bytes, with `%` and two hexadecimal
/// digits for a blank, a `%`, and whatever isn't printable ASCII.
#[derive(Clone, Copy)]
pub struct Text<'a>(pub &'a [u8]);

impl fmt::Display for Text<'_> {
    fn fmt<W: fmt::Write>(&self, f: &mut fmt::Formatter<W>) -> fmt::Result {
        if self.0.is_empty() {
            return f.write_char('%');
        }
        for byte in self.0 {
            match byte {
                b'!'..=b'$' | b'&'..=b'~' => f.write_char(char::from(*byte))?,
                _ => write!(f, "%{byte:02x}")?,
            }
        }
        Ok(())
    }
}

/// Prints bytes, sixteen a line.
pub fn print_bytes<O: Write>(bytes: &[u8], out: &mut O) -> io::Result<()> {
    for bytes in bytes.chunks(16) {
        let line = BytesLine(bytes);
        writeln!(out, "{line}")?;
    }
    Ok(())
}
