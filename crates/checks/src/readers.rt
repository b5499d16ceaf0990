//! A reader of one's own, whose offsets have 32 bits. It defines none of the methods that a reader
//! may leave out.

ghost use Rattle.std.specs.Prelude.{◌<◌, ◌^◌, length};
ghost use Rattle.std.proofs.Common.{rules};

use crate::{Found, first_false};
use gimli_core::{EndianSlice, Error, LittleEndian, Reader, ReaderOffset, Result};
use std::borrow::CowSlice;

#[derive(Clone, Copy, PartialEq, Eq, PartialOrd, Ord)]
pub struct Narrow(pub u32);

impl ReaderOffset for Narrow {
    ghost number = { λ n. n.0 };

    ghost limit = { 2 ^ 32 };

    ghost is_wide = { Prim.search rules };

    fn from_u8(offset: u8) -> Narrow {
        Narrow(u32::from(offset))
    }

    fn from_u16(offset: u16) -> Narrow {
        Narrow(u32::from(offset))
    }

    fn from_u32(offset: u32) -> Narrow {
        Narrow(offset)
    }

    fn from_u64(offset: u64) -> Result<Narrow> {
        if offset <= 0xffff_ffff {
            Ok(Narrow(offset as u32))
        } else {
            Err(Error::UnsupportedOffset)
        }
    }

    fn into_u64(self) -> u64 {
        u64::from(self.0)
    }
}

#[derive(Clone, Copy)]
pub struct NarrowReader<'i> {
    left: EndianSlice<'i, LittleEndian>,
    ghost short: { length (⟦<EndianSlice<'static, LittleEndian> as Reader>⟧.seen left).bytes
        < 2 ^ 32 },
}

impl<'i> NarrowReader<'i> {
    /// A reader of the bytes, up to the greatest number of them that it counts.
    pub fn new(slice: &'i [u8]) -> Self {
        let left = EndianSlice::new(&slice[..slice.len().min(0xffff_ffff)], LittleEndian);
        NarrowReader { left }
    }
}

impl<'i> Reader for NarrowReader<'i> {
    type Endian = LittleEndian;

    type Offset = Narrow;

    ghost seen = { λ r. ⟦<EndianSlice<'static, LittleEndian> as Reader>⟧.seen r.left };

    fn endian(&self) -> LittleEndian {
        self.left.endian()
    }

    fn len(&self) -> Narrow {
        Narrow(self.left.len() as u32)
    }

    fn empty(&mut self) {
        self.left.empty();
    }

    fn truncate(&mut self, len: Narrow) -> Result<()> {
        self.left.truncate(len.0 as usize)
    }

    fn offset_from(&self, base: &Self) -> Narrow {
        Narrow(self.left.offset_from(&base.left) as u32)
    }

    fn find(&self, byte: u8) -> Result<Narrow> {
        let len = self.left.find(byte)?;
        Ok(Narrow(len as u32))
    }

    fn skip(&mut self, len: Narrow) -> Result<()> {
        self.left.skip(len.0 as usize)
    }

    fn split(&mut self, len: Narrow) -> Result<Self> {
        let left = self.left.split(len.0 as usize)?;
        Ok(NarrowReader { left })
    }

    fn to_slice(&self) -> Result<CowSlice<'_, u8>> {
        self.left.to_slice()
    }

    fn read_slice(&mut self, buf: &mut [u8]) -> Result<()> {
        self.left.read_slice(buf)
    }
}

/// How many bytes stand before those that are left after a skip.
fn first_left<R: Reader>(reader: R, len: R::Offset) -> Result<u64> {
    let mut after = reader;
    after.skip(len)?;
    Ok(after.offset_from(&reader).into_u64())
}

/// The first reader that counts the bytes otherwise that were skipped.
pub fn skipped() -> Found {
    let bytes = b"\x01\x02\x03";
    Ok(first_false(&[
        first_left(EndianSlice::new(bytes, LittleEndian), 2) == Ok(2),
        first_left(NarrowReader::new(bytes), Narrow(2)) == Ok(2),
    ]))
}
