//! A writer into one vector.

ghost use Rattle.std.specs.Prelude.{◌≡◌, ◌++◌, [], true, length, IfOk, IfErr, IsOk, OnOk, OnErr};

use crate::address::Address;
use crate::error::{Error, Result};
use crate::sink::Sink;
use crate::writer::Writer;
use gimli_core::{Endianity, SectionId};
use std::alloc::{AllocError, Global};
use std::marker::Model;

/// A section in one vector, and the order of its numbers. It keeps exactly its bytes and fails for
/// memory alone, and a refused `write` changes nothing.
#[derive(Debug, Drop)]
pub struct EndianVec<E: Endianity> {
    vec: Vec<u8>,
    endian: E,
}

impl<E: Endianity> Model for EndianVec<E> {
    ghost use Rattle.gimli_bytes.specs.Section.{Section, section_code};

    ghost Value = { Section E };

    ghost coded = { section_code E.code };

    ghost view = { λ v. record { bytes = v.vec.items; endian = v.endian } };
}

impl<E: Endianity> EndianVec<E> {
    /// An empty section.
    pub fn new(alloc: Global, endian: E) -> EndianVec<E>
        ensures { result ≡ record { bytes = []; endian = endian } }
    {
        EndianVec {
            vec: Vec::new(alloc),
            endian,
        }
    }

    /// The bytes.
    pub fn slice(&self) -> &[u8]
        ensures { result.now ≡ self.now.bytes }
    {
        self.vec.as_slice()
    }

    /// The bytes, as the vector that held them.
    pub fn into_vec(self) -> Vec<u8>
        ensures { result.items ≡ self.bytes }
    {
        let EndianVec { vec, .. } = self;
        vec
    }

    /// Takes the bytes out, and leaves the section empty.
    pub fn take(&mut self) -> Vec<u8>
        ensures taken { result.items ≡ self.old.bytes }
        ensures left { self.new ≡ record { bytes = []; endian = self.old.endian } }
    {
        let alloc = *self.vec.allocator();
        std::mem::replace(&mut self.vec, Vec::new(alloc))
    }

    /// Appends bytes. It is a function of its own, so that calls that append few bytes stay small.
    #[inline(never)]
    fn append(&mut self, bytes: &[u8]) -> Result<()>
        ensures ok { OnOk result
            (self.new ≡ record self.old { bytes = self.old.bytes ++ bytes.now }) }
        ensures err { OnErr result (self.new ≡ self.old) }
        ensures memory { IfErr result (λ e. e ≡ Error.OutOfMemory) }
        ensures room { length bytes.now ≡ 0 → IsOk result }
    {
        self.vec.extend_from_slice(bytes)?;
        Ok(())
    }

    /// A copy, which is equal to the section. Fails only with `OutOfMemory`.
    pub fn clone(&self) -> Result<EndianVec<E>>
        ensures ok { IfOk result (λ copy. copy ≡ self.now) }
        ensures memory { IfErr result (λ e. e ≡ Error.OutOfMemory) }
    {
        Ok(Clone::clone(self)?)
    }
}

impl<E: Endianity> Clone for EndianVec<E> {
    ghost use Rattle.std.specs.Prelude.{◌≡◌};

    ghost is_clone = { λ section copy. copy ≡ section };

    fn clone(&self) -> std::result::Result<EndianVec<E>, AllocError> {
        Ok(EndianVec {
            vec: self.vec.clone()?,
            endian: self.endian,
        })
    }
}

impl<E: Endianity> Sink for EndianVec<E> {
    ghost use Rattle.std.specs.Prelude.{◌≡◌, [], false};
    ghost use Rattle.gimli_bytes.specs.Hand.{plain};
    ghost use Rattle.gimli_bytes.specs.declared.error.Error.TheVariants.{OutOfMemory};

    ghost contents = { λ v. v.bytes };

    ghost is_big = { λ v. E.is_big v.endian };

    ghost keeps_bytes = { true };

    ghost completes = { λ w. false };

    ghost completed = { λ at v. [] };

    ghost hand = { λ at. plain };

    ghost fails_for_memory_alone = { true };

    ghost refuses = { λ w bytes e. e ≡ OutOfMemory };

    ghost unrefused = { λ w. true };

    ghost all_or_none = { true };
}

impl<E: Endianity> Writer for EndianVec<E> {
    type Endian = E;

    fn endian(&self) -> E
        ensures { result ≡ self.now.endian }
    {
        self.endian
    }

    fn len(&self) -> usize {
        self.vec.len()
    }

    #[inline(always)]
    fn write(&mut self, bytes: &[u8]) -> Result<()>
        ensures ok { OnOk result
            (self.new ≡ record self.old { bytes = self.old.bytes ++ bytes.now }) }
        ensures err { OnErr result (self.new ≡ self.old) }
        ensures memory { IfErr result (λ e. e ≡ Error.OutOfMemory) }
        ensures room { length bytes.now ≡ 0 → IsOk result }
    {
        match bytes {
            [byte] => {
                self.vec.push(*byte)?;
                Ok(())
            }
            [first, second] => {
                self.vec.reserve(2)?;
                self.vec.push_reserved(*first);
                self.vec.push_reserved(*second);
                Ok(())
            }
            _ => self.append(bytes),
        }
    }

    fn write_at(&mut self, offset: usize, bytes: &[u8]) -> Result<()> {
        let len = self.len();
        if offset > len {
            return Err(Error::OffsetOutOfBounds);
        }
        if bytes.len() > len - offset {
            return Err(Error::LengthOutOfBounds);
        }
        self.vec[offset..offset + bytes.len()].copy_from_slice(bytes);
        Ok(())
    }

    fn write_address(&mut self, address: Address, size: u8) -> Result<()> {
        match address {
            Address::Constant(val) => self.write_udata(val, size),
            Address::Symbol { .. } => Err(Error::InvalidAddress),
        }
    }

    fn write_offset(&mut self, val: usize, _section: SectionId, size: u8) -> Result<()> {
        self.write_udata(val as u64, size)
    }

    fn write_offset_at(
        &mut self,
        offset: usize,
        val: usize,
        _section: SectionId,
        size: u8,
    ) -> Result<()> {
        self.write_udata_at(offset, val as u64, size)
    }

    fn write_reference(&mut self, _symbol: usize, _size: u8) -> Result<()> {
        Err(Error::InvalidReference)
    }
}
