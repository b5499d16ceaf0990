//! Words: numbers, texts and bytes.

use crate::stop::Stop;
use gimli_core::{EndianSlice, RunTimeEndian};
use line_text::{Slice, parse_digits};
use std::str;

/// A number in decimal digits, or in hexadecimal ones after `0x`, where it fits.
pub fn parse_number(word: &str) -> Option<u64> {
    match word.strip_prefix("0x") {
        Some(digits) => parse_digits(digits, 16),
        None => parse_digits(word, 10),
    }
}

/// A reader over a text that is handed in.
pub fn reader(text: &Option<Vec<u8>>, order: RunTimeEndian) -> Option<Slice<'_>> {
    text.as_deref().map(|text| EndianSlice::new(text, order))
}

/// Appends a text: `%` and two hexadecimal digits are a byte, and `%` alone is the empty text. A
/// word that is empty, or has other letters after a `%`, is no text.
pub fn push_text(text: &mut Vec<u8>, word: &str) -> Result<(), Stop> {
    match word {
        "" => return Err(Stop::Bad),
        "%" => return Ok(()),
        _ => {}
    }
    let mut parts = word.split('%');
    text.extend_from_slice(parts.next().unwrap_or("").as_bytes())?;
    for part in parts {
        let [high, low, plain @ ..] = part.as_bytes() else {
            return Err(Stop::Bad);
        };
        text.push(parse_byte(&[*high, *low]).ok_or(Stop::Bad)?)?;
        text.extend_from_slice(plain)?;
    }
    Ok(())
}

/// Appends bytes in two hexadecimal digits each, with blanks and line breaks between, where `N*HH`
/// is N times a byte.
pub fn push_bytes(bytes: &mut Vec<u8>, text: &str) -> Result<(), Stop> {
    for word in text.split_whitespace() {
        match word.split_once('*') {
            Some((count, byte)) => push_times(bytes, count, byte.as_bytes())?,
            None => push_digits(bytes, word.as_bytes())?,
        }
    }
    Ok(())
}

/// Appends a byte so many times.
fn push_times(bytes: &mut Vec<u8>, count: &str, byte: &[u8]) -> Result<(), Stop> {
    let (Some(count), Some(byte)) = (parse_number(count), parse_byte(byte)) else {
        return Err(Stop::Bad);
    };
    let length = bytes.len().checked_add(count as usize);
    Ok(bytes.resize(length.ok_or(Stop::Bad)?, byte)?)
}

/// Appends the bytes of a word of digits.
fn push_digits(bytes: &mut Vec<u8>, word: &[u8]) -> Result<(), Stop> {
    for pair in word.chunks(2) {
        bytes.push(parse_byte(pair).ok_or(Stop::Bad)?)?;
    }
    Ok(())
}

/// The byte of two hexadecimal digits.
fn parse_byte(digits: &[u8]) -> Option<u8> {
    match (digits, str::from_utf8(digits)) {
        ([_, _], Ok(digits)) => u8::try_from(parse_digits(digits, 16)?).ok(),
        _ => None,
    }
}
