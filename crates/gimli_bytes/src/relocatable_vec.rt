//! A writer into one vector that takes symbols and references, and lists their relocations.

ghost use Rattle.std.specs.Prelude.{◌≡◌, ◌⊎◌, ◌%◌, ◌^◌, [], Bool, Ok, Err, false, true};
ghost use Rattle.std.specs.Prelude.{◌+◌, ◌≤◌, All, IfErr, IsTrue, OnOk, OnErr, length, take};
ghost use Rattle.std.specs.Prelude.{nat_lt};
ghost use Rattle.std.specs.List.{list_any};
ghost use Rattle.gimli_bytes.specs.Number.{udata};
ghost use Rattle.gimli_bytes.specs.Relocations.{number_in_place, addend_in_list, with_place};
ghost use Rattle.gimli_bytes.specs.Relocations.{with_place_at, after_call, IsRefusal, Bytes};
ghost use Rattle.gimli_bytes.specs.Relocations.{AddressOf, OffsetInto, ReferenceTo};
ghost use Rattle.gimli_bytes.specs.Relocations.{BytesAt, OffsetAt, touches};
ghost use Rattle.gimli_bytes.specs.Ascending.{AreAscending};
ghost use Rattle.gimli_bytes.specs.inside.Ascending.{is_past};

use crate::address::Address;
use crate::endian_vec::EndianVec;
use crate::error::{Error, Result};
use crate::relocation::{Addends, Relocation, RelocationTarget};
use crate::sink::Sink;
use crate::writer::Writer;
use gimli_core::{Endianity, SectionId};
use std::alloc::Global;
use std::marker::Model;

/// A section in one vector, and its relocations: a symbol that is written, and an offset into a
/// section, is a place that a linker fills in.
#[derive(Debug, Drop)]
pub struct RelocatableVec<E: Endianity> {
    section: EndianVec<E>,
    relocations: Vec<Relocation>,
    ascends: bool,
    addends: Addends,
}

impl<E: Endianity> Model for RelocatableVec<E> {
    ghost use Rattle.std.specs.Prelude.{IsTrue};
    ghost use Rattle.gimli_bytes.specs.Relocatable.{Relocatable};
    ghost use Rattle.gimli_bytes.specs.Ascending.{AreAscending};

    ghost Value = { Relocatable };

    ghost view = { λ v. record {
      bytes = v.section.bytes;
      is_big = E.is_big v.section.endian;
      relocations = v.relocations.items;
      addends = v.addends;
    } };

    ghost invariant = { λ v. IsTrue v.ascends → AreAscending v.relocations.items };
}

impl<E: Endianity> RelocatableVec<E> {
    /// An empty section without relocations; `addends` says where their addends will be.
    pub fn new(alloc: Global, endian: E, addends: Addends) -> RelocatableVec<E>
        ensures { result ≡ record {
          bytes = [];
          is_big = E.is_big endian;
          relocations = [];
          addends = addends;
        } }
    {
        RelocatableVec {
            section: EndianVec::new(alloc, endian),
            relocations: Vec::new(alloc),
            ascends: true,
            addends,
        }
    }

    /// The bytes, in which no relocation is applied.
    pub fn slice(&self) -> &[u8]
        ensures { result.now ≡ self.now.bytes }
    {
        self.section.slice()
    }

    /// The relocations, in the order in which their places were written.
    pub fn relocations(&self) -> &[Relocation]
        ensures { result.now ≡ self.now.relocations }
    {
        self.relocations.as_slice()
    }

    /// Appends bytes. Fails only with `OutOfMemory`, and then nothing is changed.
    pub fn write(&mut self, bytes: &[u8]) -> Result<()>
        ensures ok { OnOk result (after_call self.old (Bytes bytes.now) ≡ Ok self.new) }
        ensures err { OnErr result (self.new ≡ self.old) }
        ensures cause { IfErr result (IsRefusal self.old (Bytes bytes.now)) }
    {
        self.section.write(bytes)
    }

    /// Writes over the bytes from an offset on. Refused by `InvalidRange` where a place has one of
    /// them, since what a linker puts there depends on what is there.
    pub fn write_at(&mut self, offset: usize, bytes: &[u8]) -> Result<()>
        ensures ok { OnOk result (after_call self.old (BytesAt offset bytes.now) ≡ Ok self.new) }
        ensures err { OnErr result (self.new ≡ self.old) }
        ensures cause { IfErr result (IsRefusal self.old (BytesAt offset bytes.now)) }
    {
        if self.is_touched(offset, bytes.len()) {
            return Err(Error::InvalidRange);
        }
        self.section.write_at(offset, bytes)
    }

    /// Whether a place has one of so many bytes from an offset on.
    fn is_touched(&self, offset: usize, size: usize) -> bool
        ensures { result ≡ list_any (touches offset size) self.now.relocations }
    {
        if self.ascends {
            return is_one_touched(&self.relocations, offset, size);
        }
        self.relocations
            .iter()
            .any(|place| touches(offset, size, place))
    }

    /// Whether the places ascend, and go on to ascend with one at this offset.
    fn ascends_to(&self, offset: usize) -> bool
        ensures { IsTrue result → AreAscending self.now.relocations
            × All (λ r. r.offset + r.size ≤ offset) self.now.relocations }
    {
        self.ascends && are_past(&self.relocations, offset)
    }

    /// Appends an address of `size` bytes. A symbol's is a place with a relocation.
    pub fn write_address(&mut self, address: Address, size: u8) -> Result<()>
        ensures ok { OnOk result (after_call self.old (AddressOf address size) ≡ Ok self.new) }
        ensures err { OnErr result (self.new ≡ self.old) }
        ensures cause { IfErr result (IsRefusal self.old (AddressOf address size)) }
    {
        match address {
            Address::Constant(val) => self.section.write_udata(val, size),
            Address::Symbol { symbol, addend } => {
                self.write_place(RelocationTarget::OfSymbol(symbol), addend, size)
            }
        }
    }

    /// Appends an offset into a section, of `size` bytes: a place with a relocation.
    pub fn write_offset(&mut self, val: usize, section: SectionId, size: u8) -> Result<()>
        ensures ok { OnOk result (after_call self.old (OffsetInto section val size) ≡ Ok self.new) }
        ensures err { OnErr result (self.new ≡ self.old) }
        ensures cause { IfErr result (IsRefusal self.old (OffsetInto section val size)) }
    {
        let addend = (val as u64).cast_signed();
        self.write_place(RelocationTarget::OfSection(section), addend, size)
    }

    /// Appends a reference to a symbol, of `size` bytes: a place with a relocation.
    pub fn write_reference(&mut self, symbol: usize, size: u8) -> Result<()>
        ensures ok { OnOk result (after_call self.old (ReferenceTo symbol size) ≡ Ok self.new) }
        ensures err { OnErr result (self.new ≡ self.old) }
        ensures cause { IfErr result (IsRefusal self.old (ReferenceTo symbol size)) }
    {
        self.write_place(RelocationTarget::OfSymbol(symbol), 0, size)
    }

    /// Writes an offset into a section, of `size` bytes, over the bytes from an offset on: a place
    /// with a relocation. Refused by `InvalidRange` where another place has one of them.
    pub fn write_offset_at(
        &mut self,
        offset: usize,
        val: usize,
        section: SectionId,
        size: u8,
    ) -> Result<()>
        ensures ok { OnOk result
            (after_call self.old (OffsetAt offset section val size) ≡ Ok self.new) }
        ensures err { OnErr result (self.new ≡ self.old) }
        ensures cause { IfErr result (IsRefusal self.old (OffsetAt offset section val size)) }
    {
        let addend = (val as u64).cast_signed();
        self.write_place_at(offset, RelocationTarget::OfSection(section), addend, size)
    }

    /// Appends a place of `size` bytes, and lists its relocation.
    fn write_place(&mut self, target: RelocationTarget, addend: i64, size: u8) -> Result<()>
        ensures ok { OnOk result (with_place self.old target addend size ≡ Ok self.new) }
        ensures err { OnErr result (self.new ≡ self.old) }
        ensures cause { IfErr result (λ e. (e ≡ Error.OutOfMemory)
            ⊎ (with_place self.old target addend size ≡ Err e)) }
    {
        self.relocations.reserve(1)?;
        let offset = self.section.len();
        let ascends = self.ascends_to(offset);
        let word = number_in_place(self.addends, addend, size);
        self.section.write_udata(word, size)?;
        self.relocations.push_reserved(Relocation {
            offset,
            size,
            target,
            addend: addend_in_list(self.addends, addend),
        });
        self.ascends = ascends;
        Ok(())
    }

    /// Writes a place of `size` bytes over those from an offset on, and lists its relocation.
    fn write_place_at(
        &mut self,
        offset: usize,
        target: RelocationTarget,
        addend: i64,
        size: u8,
    ) -> Result<()>
        ensures ok { OnOk result (with_place_at self.old offset target addend size ≡ Ok self.new) }
        ensures len { length self.new.bytes ≡ length self.old.bytes }
        ensures before { take offset self.new.bytes ≡ take offset self.old.bytes }
        ensures ordered { self.new.is_big ≡ self.old.is_big }
        ensures err { OnErr result (self.new ≡ self.old) }
        ensures cause { IfErr result (λ e. (e ≡ Error.OutOfMemory)
            ⊎ (with_place_at self.old offset target addend size ≡ Err e)) }
    {
        self.relocations.reserve(1)?;
        if self.is_touched(offset, usize::from(size)) {
            return Err(Error::InvalidRange);
        }
        let ascends = self.ascends_to(offset);
        let word = number_in_place(self.addends, addend, size);
        self.section.write_udata_at(offset, word, size)?;
        self.relocations.push_reserved(Relocation {
            offset,
            size,
            target,
            addend: addend_in_list(self.addends, addend),
        });
        self.ascends = ascends;
        Ok(())
    }
}

/// Whether one of the places, which ascend, has one of so many bytes from an offset on. A binary
/// search finds the only place to test.
fn is_one_touched(places: &[Relocation], offset: usize, size: usize) -> bool
    requires { AreAscending places.now }
    ensures { result ≡ list_any (touches offset size) places.now }
{
    let first = places.partition_point(|place| is_past(offset, place));
    match places.get(first) {
        Some(place) => touches(offset, size, place),
        None => false,
    }
}

/// Whether all of the places, which ascend, end at an offset or before it.
fn are_past(places: &[Relocation], offset: usize) -> bool
    ensures { IsTrue result → AreAscending places.now
        → All (λ r. r.offset + r.size ≤ offset) places.now }
{
    match places.last() {
        Some(place) => is_past(offset, place),
        None => true,
    }
}

/// Whether the place of a relocation ends at an offset or before it.
fn is_past(offset: usize, place: &Relocation) -> bool
    ensures { result ≡ is_past offset place.now }
{
    !is_before_end(offset, place.offset, usize::from(place.size))
}

/// Whether the place of a relocation has one of so many bytes from an offset on.
fn touches(offset: usize, size: usize, place: &Relocation) -> bool
    ensures { result ≡ touches offset size place.now }
{
    is_before_end(place.offset, offset, size)
        && is_before_end(offset, place.offset, usize::from(place.size))
}

/// Whether a number is before the end of so many bytes from an offset on.
fn is_before_end(number: usize, offset: usize, size: usize) -> bool
    ensures { result ≡ nat_lt number (offset + size) }
{
    number < offset || number - offset < size
}

/// The addend that a relocation has in the list.
fn addend_in_list(addends: Addends, addend: i64) -> i64
    ensures { result ≡ addend_in_list addends addend }
{
    match addends {
        Addends::Listed => addend,
        Addends::InPlace => 0,
    }
}

/// The number that stands at the place of a relocation until it is applied.
fn number_in_place(addends: Addends, addend: i64, size: u8) -> u64
    ensures { (is_big : Bool) →
        udata is_big result size ≡ udata is_big (number_in_place addends addend size) size }
{
    match addends {
        Addends::Listed => 0,
        Addends::InPlace => low_bytes(addend.cast_unsigned(), size),
    }
}

/// The number that the lowest `size` bytes of a word are.
fn low_bytes(word: u64, size: u8) -> u64
    ensures { (is_big : Bool) → udata is_big result size ≡ udata is_big (word % 256 ^ size) size }
{
    match size {
        1 => word % 0x100,
        2 => word % 0x1_0000,
        3 => word % 0x100_0000,
        4 => word % 0x1_0000_0000,
        _ => word,
    }
}

impl<E: Endianity> Sink for RelocatableVec<E> {
    ghost use Rattle.gimli_bytes.specs.Relocations.{applied, are_inside, placed};
    ghost use Rattle.gimli_bytes.specs.Relocations.{IsRelocatableRefusal};

    ghost contents = { λ v. v.bytes };

    ghost is_big = { λ v. v.is_big };

    ghost keeps_bytes = { false };

    ghost completes = { are_inside };

    ghost completed = { applied };

    ghost hand = { placed };

    ghost fails_for_memory_alone = { false };

    ghost refuses = { λ w bytes e. IsRelocatableRefusal e };

    ghost unrefused = { λ w. true };

    ghost all_or_none = { true };
}

impl<E: Endianity> Writer for RelocatableVec<E> {
    type Endian = E;

    fn endian(&self) -> E {
        self.section.endian()
    }

    fn len(&self) -> usize {
        self.section.len()
    }

    fn write(&mut self, bytes: &[u8]) -> Result<()> {
        RelocatableVec::write(self, bytes)
    }

    fn write_at(&mut self, offset: usize, bytes: &[u8]) -> Result<()> {
        RelocatableVec::write_at(self, offset, bytes)
    }

    fn write_address(&mut self, address: Address, size: u8) -> Result<()> {
        RelocatableVec::write_address(self, address, size)
    }

    fn write_offset(&mut self, val: usize, section: SectionId, size: u8) -> Result<()> {
        RelocatableVec::write_offset(self, val, section, size)
    }

    fn write_offset_at(
        &mut self,
        offset: usize,
        val: usize,
        section: SectionId,
        size: u8,
    ) -> Result<()> {
        let addend = (val as u64).cast_signed();
        self.write_place_at(offset, RelocationTarget::OfSection(section), addend, size)
    }

    fn write_reference(&mut self, symbol: usize, size: u8) -> Result<()> {
        RelocatableVec::write_reference(self, symbol, size)
    }
}
