//! Names of files, which are bytes, in the words of the program, which are text.
//!
//! In the text, a byte of a word that isn't UTF-8 is a character of a private-use area, by its
//! number, and so is each byte of such a character. So each word of bytes has a text of its own.

use std::alloc::{AllocError, Global};

/// The number that a byte counts from in the private area.
const FIRST: u32 = 0x10_fe00;

/// The text that stands for a word.
pub fn text_of_word(alloc: Global, word: &[u8]) -> Result<String, AllocError> {
    let mut text = String::with_capacity(alloc, word.len())?;
    for chunk in word.utf8_chunks() {
        push_text(chunk.valid(), &mut text)?;
        push_bytes(chunk.invalid(), &mut text)?;
    }
    Ok(text)
}

/// The bytes of the word that a text stands for.
pub fn bytes_of_word(alloc: Global, text: &str) -> Result<Vec<u8>, AllocError> {
    let mut bytes = Vec::with_capacity(alloc, text.len())?;
    for character in text.chars() {
        match byte_of(character) {
            Some(byte) => bytes.push(byte)?,
            None => {
                let mut room = [0; 4];
                bytes.extend_from_slice(character.encode_utf8(&mut room).as_bytes())?;
            }
        }
    }
    Ok(bytes)
}

/// Appends characters, each of which stands for itself or for its bytes.
fn push_text(characters: &str, text: &mut String) -> Result<(), AllocError> {
    for character in characters.chars() {
        if byte_of(character).is_some() {
            let mut room = [0; 4];
            push_bytes(character.encode_utf8(&mut room).as_bytes(), text)?;
        } else {
            text.push(character)?;
        }
    }
    Ok(())
}

/// Appends what stands for bytes above 127.
fn push_bytes(bytes: &[u8], text: &mut String) -> Result<(), AllocError> {
    for byte in bytes {
        let stand_in = char::from_u32(FIRST + u32::from(*byte));
        text.push(stand_in.unwrap_or('\u{fffd}'))?;
    }
    Ok(())
}

/// The byte that a character stands for.
pub(crate) fn byte_of(character: char) -> Option<u8> {
    match u32::from(character).checked_sub(FIRST) {
        Some(byte) if byte > 0x7f => u8::try_from(byte).ok(),
        _ => None,
    }
}
