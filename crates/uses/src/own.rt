//! A reader of your own: it implements the required methods, and all others have a body.
#![tactic(auto)]

ghost use Rattle.std.specs.Prelude.{◌≡◌, false, nat_eq, position};

use crate::make_unit::write_at_0x1000;
use crate::rows::print_units;
use gimli_core::{Error as ReadError, LittleEndian, Reader, ReaderOffsetId};
use gimli_write::{DebugLine, DebugLineStr, EndianVec};
use std::alloc::Global;
use std::borrow::CowSlice;

/// Writes a unit, and prints the rows that are read of it.
pub fn start(alloc: Global, text: &mut String) -> anyhow::Result<()> {
    let mut lines = DebugLine::from(EndianVec::new(alloc, LittleEndian));
    let mut texts = DebugLineStr::from(EndianVec::new(alloc, LittleEndian));
    print_written(alloc, &mut lines, &mut texts, text)
}

/// Writes the unit to empty sections, and prints the rows that are read of it.
fn print_written(
    alloc: Global,
    lines: &mut DebugLine<EndianVec<LittleEndian>>,
    texts: &mut DebugLineStr<EndianVec<LittleEndian>>,
    text: &mut String,
) -> anyhow::Result<()> {
    write_at_0x1000(alloc, lines, texts)?;
    let slice = lines.0.slice();
    Ok(print_units(alloc, OwnReader { slice }, text)?)
}

/// Bytes that are read from the front, and as numbers in little-endian order.
#[derive(Clone, Copy)]
struct OwnReader<'i> {
    slice: &'i [u8],
}

impl<'i> OwnReader<'i> {
    /// How many bytes stand before the first such byte.
    fn index_of(&self, byte: u8) -> Option<usize>
        ensures { result ≡ position (λ b. nat_eq b byte) self.now.slice.now }
    {
        self.slice.iter().position(|b| *b == byte)
    }
}

impl<'i> Reader for OwnReader<'i> {
    type Endian = LittleEndian;

    type Offset = usize;

    ghost seen = { λ r. record { bytes = r.slice.now; is_big = false } };

    fn endian(&self) -> LittleEndian {
        LittleEndian
    }

    fn len(&self) -> usize {
        self.slice.len()
    }

    fn empty(&mut self) {
        self.slice = &[];
    }

    fn truncate(&mut self, len: usize) -> gimli_core::Result<()> {
        *self = self.split(len)?;
        Ok(())
    }

    fn offset_from(&self, base: &Self) -> usize {
        base.slice.len() - self.slice.len()
    }

    fn find(&self, byte: u8) -> gimli_core::Result<usize> {
        match self.index_of(byte) {
            Some(len) => Ok(len),
            None => Err(ReadError::UnexpectedEof(ReaderOffsetId(self.slice.len() as u64))),
        }
    }

    fn skip(&mut self, len: usize) -> gimli_core::Result<()> {
        self.split(len)?;
        Ok(())
    }

    fn split(&mut self, len: usize) -> gimli_core::Result<Self> {
        if self.slice.len() < len {
            return Err(ReadError::UnexpectedEof(ReaderOffsetId(self.slice.len() as u64)));
        }
        let (slice, rest) = self.slice.split_at(len);
        self.slice = rest;
        Ok(OwnReader { slice })
    }

    fn to_slice(&self) -> gimli_core::Result<CowSlice<'_, u8>> {
        Ok(CowSlice::Borrowed(self.slice))
    }

    fn read_slice(&mut self, buf: &mut [u8]) -> gimli_core::Result<()> {
        let front = self.split(buf.len())?;
        buf.copy_from_slice(front.slice);
        Ok(())
    }
}
