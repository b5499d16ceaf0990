//! Sections whose bytes can be had, and a section in an array.

ghost use Rattle.std.specs.Prelude.{◌≤◌, length, take, false};
ghost use Rattle.gimli_core.specs.Order.{is_big_endian};

use gimli_core::{RunTimeEndian, SectionId};
use gimli_write::{Address, EndianVec, Error, PieceVec, Result, Sink, Writer};
use std::alloc::Global;

/// A section whose bytes can be had.
pub(crate) trait Section: Writer + Drop {
    /// The bytes.
    fn into_bytes(self) -> Result<Vec<u8>>;
}

impl Section for EndianVec<RunTimeEndian> {
    fn into_bytes(self) -> Result<Vec<u8>> {
        Ok(self.into_vec())
    }
}

impl<const N: usize> Section for PieceVec<RunTimeEndian, N> {
    fn into_bytes(self) -> Result<Vec<u8>> {
        self.into_vec()
    }
}

/// A section in an array, which takes no memory: what passes its end is refused as
/// `LengthOutOfBounds`. No contract says that it keeps the bytes given to it.
#[derive(Drop)]
pub(crate) struct ArraySection {
    bytes: Vec<u8>,
    len: usize,
    endian: RunTimeEndian,
    ghost fits: { len ≤ length bytes.items },
}

impl ArraySection {
    /// An empty section in an array of so many bytes.
    pub fn new(alloc: Global, count: usize, endian: RunTimeEndian) -> Result<ArraySection> {
        Ok(ArraySection {
            bytes: vec![in alloc; 0; count]?,
            len: 0,
            endian,
        })
    }
}

impl Section for ArraySection {
    fn into_bytes(self) -> Result<Vec<u8>> {
        let ArraySection { mut bytes, len, .. } = self;
        bytes.truncate(len);
        Ok(bytes)
    }
}

impl Sink for ArraySection {
    ghost use Rattle.std.specs.Prelude.{[], true};
    ghost use Rattle.gimli_bytes.specs.Hand.{plain};

    ghost contents = { λ w. take w.len w.bytes.items };

    ghost is_big = { λ w. is_big_endian w.endian };

    ghost keeps_bytes = { false };

    ghost completes = { λ w. false };

    ghost completed = { λ at w. [] };

    ghost hand = { λ at. plain };

    ghost fails_for_memory_alone = { false };

    ghost refuses = { λ w bytes e. Unit {0} };

    ghost unrefused = { λ w. true };

    ghost all_or_none = { false };
}

impl Writer for ArraySection {
    type Endian = RunTimeEndian;

    fn endian(&self) -> RunTimeEndian {
        self.endian
    }

    fn len(&self) -> usize {
        self.len
    }

    fn write(&mut self, bytes: &[u8]) -> Result<()> {
        let len = self.len;
        if bytes.len() > self.bytes.len() - len {
            return Err(Error::LengthOutOfBounds);
        }
        let end = len + bytes.len();
        self.bytes[len..end].copy_from_slice(bytes);
        self.len = end;
        Ok(())
    }

    fn write_at(&mut self, offset: usize, bytes: &[u8]) -> Result<()> {
        let len = self.len;
        if offset > len {
            return Err(Error::OffsetOutOfBounds);
        }
        if bytes.len() > len - offset {
            return Err(Error::LengthOutOfBounds);
        }
        self.bytes[offset..offset + bytes.len()].copy_from_slice(bytes);
        Ok(())
    }

    fn write_address(&mut self, address: Address, size: u8) -> Result<()> {
        match address {
            Address::Constant(val) => self.write_udata(val, size),
            Address::Symbol { .. } => Err(Error::InvalidAddress),
        }
    }

    fn write_offset(&mut self, val: usize, _section: SectionId, size: u8) -> Result<()> {
        self.write_udata(val as u64, size)
    }

    fn write_offset_at(
        &mut self,
        offset: usize,
        val: usize,
        _section: SectionId,
        size: u8,
    ) -> Result<()> {
        self.write_udata_at(offset, val as u64, size)
    }

    fn write_reference(&mut self, _symbol: usize, _size: u8) -> Result<()> {
        Err(Error::InvalidReference)
    }
}
