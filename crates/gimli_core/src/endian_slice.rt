//! The reader over a slice of bytes.

ghost use Rattle.std.specs.Prelude.{◌≡◌, IfOk, IsOkUnless, IsOkAnd, nat_eq, position};
ghost use Rattle.std.specs.Cow.{cow_slice_items, IsBorrowedSlice};
ghost use Rattle.gimli_core.specs.Reading.{eof};

use crate::endianity::Endianity;
use crate::error::{Error, ReaderOffsetId, Result};
use crate::reader::Reader;
use std::borrow::CowSlice;

/// A reader over borrowed bytes. It copies nothing, and takes no memory.
#[derive(Clone, Copy, Debug, Default, PartialEq, Eq)]
pub struct EndianSlice<'i, E: Endianity> {
    slice: &'i [u8],
    endian: E,
}

impl<'i, E: Endianity> EndianSlice<'i, E> {
    /// A reader of these bytes, in this order.
    pub fn new(slice: &'i [u8], endian: E) -> Self
        ensures bytes { (⟦<EndianSlice<'i, E> as Reader>⟧.seen result).bytes ≡ slice.now }
        ensures order { (⟦<EndianSlice<'i, E> as Reader>⟧.seen result).is_big ≡ E.is_big endian }
    {
        EndianSlice { slice, endian }
    }

    /// The bytes left.
    pub fn slice(&self) -> &'i [u8]
        ensures { result.now ≡ (⟦<EndianSlice<'i, E> as Reader>⟧.seen self.now).bytes }
    {
        self.slice
    }

    /// The refusal where bytes are missing.
    fn eof(&self) -> Error
        ensures { result ≡ eof self.now.slice.now }
    {
        Error::UnexpectedEof(ReaderOffsetId(self.slice.len() as u64))
    }

    /// How many bytes come before the first one that equals `byte`.
    fn index_of(&self, byte: u8) -> Option<usize>
        ensures { result ≡ position (λ b. nat_eq b byte) self.now.slice.now }
    {
        self.slice.iter().position(|b| *b == byte)
    }
}

impl<'i, E: Endianity> Reader for EndianSlice<'i, E> {
    type Endian = E;

    type Offset = usize;

    ghost seen = { λ s. record { bytes = s.slice.now; is_big = E.is_big s.endian } };

    fn endian(&self) -> E {
        self.endian
    }

    fn len(&self) -> usize {
        self.slice.len()
    }

    fn empty(&mut self) {
        self.slice = &[];
    }

    fn truncate(&mut self, len: usize) -> Result<()> {
        if self.slice.len() < len {
            return Err(self.eof());
        }
        self.slice = &self.slice[..len];
        Ok(())
    }

    fn offset_from(&self, base: &Self) -> usize {
        base.slice.len() - self.slice.len()
    }

    fn find(&self, byte: u8) -> Result<usize> {
        match self.index_of(byte) {
            Some(len) => Ok(len),
            None => Err(self.eof()),
        }
    }

    fn skip(&mut self, len: usize) -> Result<()> {
        if self.slice.len() < len {
            return Err(self.eof());
        }
        self.slice = &self.slice[len..];
        Ok(())
    }

    fn split(&mut self, len: usize) -> Result<Self> {
        if self.slice.len() < len {
            return Err(self.eof());
        }
        let (front, rest) = self.slice.split_at(len);
        self.slice = rest;
        Ok(EndianSlice {
            slice: front,
            endian: self.endian,
        })
    }

    fn to_slice(&self) -> Result<CowSlice<'_, u8>>
        ensures ok { IfOk result (λ slice. cow_slice_items slice ≡ self.now.slice.now) }
        ensures err { IsOkUnless result Error.OutOfMemory }
        // The bytes are borrowed, so the call never fails.
        ensures lent { IsOkAnd result IsBorrowedSlice }
    {
        Ok(CowSlice::Borrowed(self.slice))
    }

    fn read_slice(&mut self, buf: &mut [u8]) -> Result<()> {
        if self.slice.len() < buf.len() {
            return Err(self.eof());
        }
        let (front, rest) = self.slice.split_at(buf.len());
        buf.copy_from_slice(front);
        self.slice = rest;
        Ok(())
    }

    fn is_empty(&self) -> bool {
        self.slice.is_empty()
    }

    fn read_u8(&mut self) -> Result<u8> {
        match self.slice {
            [] => Err(self.eof()),
            [first, rest @ ..] => {
                self.slice = rest;
                Ok(*first)
            }
        }
    }
}
