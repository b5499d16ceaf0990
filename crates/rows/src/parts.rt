//! Bytes in hexadecimal, which may name parts that were defined before, and have unit lengths put
//! before them.

use crate::stop::Stop;
use crate::words::push_bytes;
use gimli_core::RunTimeEndian;
use std::alloc::Global;
use std::mem;

/// A part with a name, and its bytes in either order of its unit lengths.
#[derive(Drop)]
struct NamedPart<'t> {
    name: &'t str,
    little: Expansion,
    big: Expansion,
}

/// The parts that were defined so far.
#[derive(Drop)]
pub struct Parts<'t> {
    alloc: Global,
    parts: Vec<NamedPart<'t>>,
}

impl<'t> Parts<'t> {
    /// No part.
    pub fn new(alloc: Global) -> Parts<'t> {
        Parts {
            alloc,
            parts: Vec::new(alloc),
        }
    }

    /// Defines a part by its name and its bytes. Refused where the part before isn't ended.
    pub fn define(&mut self, line: &'t str) -> Result<(), Stop> {
        self.finish()?;
        let (name, text) = line.split_once(char::is_whitespace).unwrap_or((line, ""));
        let little = Expansion::new(self.alloc, RunTimeEndian::Little);
        let big = Expansion::new(self.alloc, RunTimeEndian::Big);
        self.put_part(NamedPart { name, little, big }, text)
    }

    /// Adds bytes to the last part.
    pub fn extend_last(&mut self, text: &str) -> Result<(), Stop> {
        match self.parts.pop() {
            Some(part) => self.put_part(part, text),
            None => Err(Stop::Bad),
        }
    }

    /// Appends bytes to a part, and makes it the last one. The bytes may name the parts before it.
    fn put_part(&mut self, mut part: NamedPart<'t>, text: &str) -> Result<(), Stop> {
        part.little.put_text(self, text)?;
        part.big.put_text(self, text)?;
        self.parts.push(part)?;
        Ok(())
    }

    /// Refused where the last part has a unit that isn't ended.
    pub fn finish(&self) -> Result<(), Stop> {
        match self.parts.last() {
            Some(part) => part.little.finish(),
            None => Ok(()),
        }
    }

    /// The bytes that a text says.
    pub fn expand(&self, text: &str, order: RunTimeEndian) -> Result<Vec<u8>, Stop> {
        let mut expansion = Expansion::new(self.alloc, order);
        expansion.put_text(self, text)?;
        expansion.finish()?;
        Ok(expansion.bytes)
    }

    /// The bytes of the part that was defined last under a name.
    fn bytes_of(&self, name: &str, order: RunTimeEndian) -> Result<&[u8], Stop> {
        match self.parts.iter().rev().find(|part| part.name == name) {
            Some(part) if order == RunTimeEndian::Little => Ok(part.little.bytes.as_slice()),
            Some(part) => Ok(part.big.bytes.as_slice()),
            None => Err(Stop::Bad),
        }
    }
}

/// The bytes of a text as far as it was read.
#[derive(Drop)]
struct Expansion {
    order: RunTimeEndian,
    /// The bytes so far, or within `unit(` those after it.
    bytes: Vec<u8>,
    /// Within `unit(`, the bytes before it.
    before_unit: Option<Vec<u8>>,
}

impl Expansion {
    /// No bytes.
    fn new(alloc: Global, order: RunTimeEndian) -> Expansion {
        Expansion {
            order,
            bytes: Vec::new(alloc),
            before_unit: None,
        }
    }

    /// Refused within a unit.
    fn finish(&self) -> Result<(), Stop> {
        match &self.before_unit {
            Some(_) => Err(Stop::Bad),
            None => Ok(()),
        }
    }

    /// Adds what the words of a text say.
    fn put_text(&mut self, parts: &Parts<'_>, text: &str) -> Result<(), Stop> {
        for word in text.split_whitespace() {
            self.put_word(parts, word)?;
        }
        Ok(())
    }

    /// Adds what a word says: bytes or those of a part, in brackets those of a unit.
    fn put_word(&mut self, parts: &Parts<'_>, word: &str) -> Result<(), Stop> {
        for piece in word.split_inclusive(['(', ')']) {
            if piece == "unit(" {
                self.finish()?;
                self.before_unit = Some(mem::replace(&mut self.bytes, Vec::new(parts.alloc)));
                continue;
            }
            let inner = piece.strip_suffix(')');
            let bytes = inner.unwrap_or(piece);
            match bytes.strip_prefix('@') {
                Some(name) => self
                    .bytes
                    .extend_from_slice(parts.bytes_of(name, self.order)?)?,
                None => push_bytes(&mut self.bytes, bytes)?,
            }
            if inner.is_some() {
                self.close_unit()?;
            }
        }
        Ok(())
    }

    /// Ends a unit: its length goes before its bytes.
    fn close_unit(&mut self) -> Result<(), Stop> {
        let (Some(before), Ok(length)) = (self.before_unit.take(), u32::try_from(self.bytes.len()))
        else {
            return Err(Stop::Bad);
        };
        let length = match self.order {
            RunTimeEndian::Little => length.to_le_bytes(),
            RunTimeEndian::Big => length.to_be_bytes(),
        };
        let bytes = mem::replace(&mut self.bytes, before);
        self.bytes.extend_from_slice(&length)?;
        self.bytes.extend_from_slice(&bytes)?;
        Ok(())
    }
}
