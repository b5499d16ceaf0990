//! A writer into pieces of one size, all full but the last.

ghost use Rattle.std.specs.Prelude.{◌≡◌, ℕ, ◌+◌, ◌<◌, ◌≤◌, ◌^◌, ◌++◌, [], true, IsOk, IfOk, IfErr};
ghost use Rattle.std.specs.Prelude.{OnOk, OnErr, All, length};
ghost use Rattle.std.specs.List.{concat};
ghost use Rattle.std.specs.Int.{div_ceil};
ghost use Rattle.gimli_bytes.specs.Pieces.{ArePieces, NeedsNoPiece};
ghost use Rattle.gimli_bytes.specs.inside.Pieces.{put_over};

use crate::address::Address;
use crate::error::{Error, Result};
use crate::sink::Sink;
use crate::writer::Writer;
use gimli_core::{Endianity, SectionId};
use std::alloc::Global;
use std::marker::Model;

/// The memory of a piece: so many bytes, whether they are in use or not.
#[derive(Debug, Drop)]
struct Piece {
    bytes: Vec<u8>,
}

impl Model for Piece {
    ghost use Rattle.std.specs.Prelude.{ℕ, List};

    ghost Value = { List ℕ };

    ghost view = { λ piece. piece.bytes.items };
}

impl Piece {
    fn new(alloc: Global, size: usize) -> Result<Piece>
        ensures size { IfOk result (λ piece. length piece ≡ size) }
        ensures memory { IfErr result (λ e. e ≡ Error.OutOfMemory) }
    {
        Ok(Piece {
            bytes: vec![in alloc; 0; size]?,
        })
    }

    fn bytes(&self) -> &[u8]
        ensures { result.now ≡ self.now }
    {
        self.bytes.as_slice()
    }

    fn put(&mut self, at: usize, bytes: &[u8])
        requires { at + length bytes.now ≤ length self.old }
        ensures { self.new ≡ put_over self.old at bytes.now }
    {
        self.bytes[at..at + bytes.len()].copy_from_slice(bytes);
    }
}

// So many pieces, each with memory for so many bytes.
fn new_pieces(alloc: Global, count: usize, size: usize) -> Result<Vec<Piece>>
    ensures count { IfOk result (λ pieces. length pieces.items ≡ count) }
    ensures none { count ≡ 0 → IsOk result }
    ensures sizes { IfOk result (λ pieces. All (λ piece. length piece ≡ size) pieces.items) }
    ensures memory { IfErr result (λ e. e ≡ Error.OutOfMemory) }
{
    let mut pieces = Vec::new(alloc);
    for _ in 0..count {
        pieces.push(Piece::new(alloc, size)?)?;
    }
    Ok(pieces)
}

// Writes bytes over those from a place on, in all pieces that they reach.
fn put(pieces: &mut Vec<Piece>, size: usize, at: usize, bytes: &[u8])
    requires size { 1 ≤ size }
    requires sizes { All (λ piece. length piece ≡ size) pieces.old.items }
    requires fits { at + length bytes.now ≤ length (concat pieces.old.items) }
    requires end { at + length bytes.now < 2 ^ 64 }
    ensures sizes { All (λ piece. length piece ≡ size) pieces.new.items }
    ensures count { length pieces.new.items ≡ length pieces.old.items }
    ensures bytes { concat pieces.new.items ≡ put_over (concat pieces.old.items) at bytes.now }
{
    let mut at = at;
    let mut rest = bytes;
    while !rest.is_empty() {
        let piece = &mut pieces[at / size];
        let start = at % size;
        let (now, later) = rest.split_at(rest.len().min(size - start));
        piece.put(start, now);
        at += now.len();
        rest = later;
    }
}

/// A section in pieces of `N` bytes, all full but the last, and the order of its numbers. It keeps
/// exactly its bytes and fails for memory alone, where a length past the greatest `usize` counts as
/// a refused growth. A refused `write` changes nothing.
#[derive(Debug, Drop)]
pub struct PieceVec<E: Endianity, const N: usize> {
    pieces: Vec<Piece>,
    len: usize,
    endian: E,
}

impl<E: Endianity, const N: usize> Model for PieceVec<E, N> {
    ghost use Rattle.std.specs.Prelude.{take};
    ghost use Rattle.std.specs.List.{concat};
    ghost use Rattle.gimli_bytes.specs.Section.{Section, section_code};
    ghost use Rattle.gimli_bytes.specs.Pieces.{HoldPieces};

    ghost Value = { Section E };

    ghost coded = { section_code E.code };

    ghost view = { λ v. record { bytes = take v.len (concat v.pieces.items); endian = v.endian } };

    ghost invariant = { λ v. HoldPieces N v.len v.pieces.items };
}

impl<E: Endianity, const N: usize> PieceVec<E, N> {
    /// An empty section, which has no piece and takes no memory. Requires pieces of at least one
    /// byte.
    pub fn new(alloc: Global, endian: E) -> PieceVec<E, N>
        requires { 1 ≤ N }
        ensures { result ≡ record { bytes = []; endian = endian } }
    {
        PieceVec {
            pieces: Vec::new(alloc),
            len: 0,
            endian,
        }
    }

    /// How many pieces hold the bytes.
    pub fn piece_count(&self) -> usize
        ensures { result ≡ div_ceil (length self.now.bytes) N }
    {
        self.pieces.len()
    }

    /// The pieces, in order.
    pub fn pieces(&self) -> Pieces<'_>
        ensures { ArePieces N self.now.bytes result }
    {
        Pieces {
            pieces: self.pieces.as_slice(),
            len: self.len,
        }
    }

    /// Appends bytes, as the writer's call does. Fails only with `OutOfMemory`, and then nothing is
    /// changed; a length past the greatest `usize` counts as a refused growth. Bytes for which the
    /// last piece has room are not refused, nor is an empty slice.
    pub fn write(&mut self, bytes: &[u8]) -> Result<()>
        ensures ok { OnOk result
            (self.new ≡ record self.old { bytes = self.old.bytes ++ bytes.now }) }
        ensures err { OnErr result (self.new ≡ self.old) }
        ensures room { length self.old.bytes + length bytes.now < 2 ^ 64 → NeedsNoPiece N
            (length self.old.bytes) (length bytes.now) → IsOk result }
        ensures memory { IfErr result (λ e. e ≡ Error.OutOfMemory) }
    {
        if bytes.len() > usize::MAX - self.len {
            return Err(Error::OutOfMemory);
        }
        let len = self.len + bytes.len();
        let alloc = *self.pieces.allocator();
        let mut added = new_pieces(alloc, len.div_ceil(N) - self.pieces.len(), N)?;
        self.pieces.append(&mut added)?;
        put(&mut self.pieces, N, self.len, bytes);
        self.len = len;
        Ok(())
    }

    /// The bytes of all pieces, joined. Fails only with `OutOfMemory`.
    pub fn into_vec(self) -> Result<Vec<u8>>
        ensures ok { IfOk result (λ vec. vec.items ≡ self.bytes) }
        ensures memory { IfErr result (λ e. e ≡ Error.OutOfMemory) }
    {
        let mut vec = Vec::new(*self.pieces.allocator());
        for piece in self.pieces() {
            vec.extend_from_slice(piece)?;
        }
        Ok(vec)
    }
}

impl<E: Endianity, const N: usize> Sink for PieceVec<E, N> {
    ghost use Rattle.std.specs.Prelude.{◌≡◌, [], false};
    ghost use Rattle.gimli_bytes.specs.Hand.{plain};
    ghost use Rattle.gimli_bytes.specs.declared.error.Error.TheVariants.{OutOfMemory};

    ghost contents = { λ v. v.bytes };

    ghost is_big = { λ v. E.is_big v.endian };

    ghost keeps_bytes = { true };

    ghost completes = { λ w. false };

    ghost completed = { λ at v. [] };

    ghost hand = { λ at. plain };

    ghost fails_for_memory_alone = { true };

    ghost refuses = { λ w bytes e. e ≡ OutOfMemory };

    ghost unrefused = { λ w. true };

    ghost all_or_none = { true };
}

impl<E: Endianity, const N: usize> Writer for PieceVec<E, N> {
    type Endian = E;

    fn endian(&self) -> E
        ensures { result ≡ self.now.endian }
    {
        self.endian
    }

    fn len(&self) -> usize {
        self.len
    }

    fn write(&mut self, bytes: &[u8]) -> Result<()> {
        PieceVec::write(self, bytes)
    }

    fn write_at(&mut self, offset: usize, bytes: &[u8]) -> Result<()> {
        if offset > self.len {
            return Err(Error::OffsetOutOfBounds);
        }
        if bytes.len() > self.len - offset {
            return Err(Error::LengthOutOfBounds);
        }
        put(&mut self.pieces, N, offset, bytes);
        Ok(())
    }

    fn write_address(&mut self, address: Address, size: u8) -> Result<()> {
        match address {
            Address::Constant(val) => self.write_udata(val, size),
            Address::Symbol { .. } => Err(Error::InvalidAddress),
        }
    }

    fn write_offset(&mut self, val: usize, _section: SectionId, size: u8) -> Result<()> {
        self.write_udata(val as u64, size)
    }

    fn write_offset_at(
        &mut self,
        offset: usize,
        val: usize,
        _section: SectionId,
        size: u8,
    ) -> Result<()> {
        self.write_udata_at(offset, val as u64, size)
    }

    fn write_reference(&mut self, _symbol: usize, _size: u8) -> Result<()> {
        Err(Error::InvalidReference)
    }
}

/// The pieces of a [`PieceVec`], in order.
#[derive(Debug, Drop)]
pub struct Pieces<'a> {
    pieces: &'a [Piece],
    len: usize,
}

impl<'a> Model for Pieces<'a> {
    ghost use Rattle.std.specs.Prelude.{ℕ, List};
    ghost use Rattle.gimli_bytes.specs.Pieces.{in_use};

    ghost Value = { List (List ℕ) };

    ghost view = { λ p. in_use p.len p.pieces.now };
}

impl<'a> Iterator for Pieces<'a> {
    ghost use Rattle.std.specs.Iterator.{YieldsFirstRef, item_count};

    type Item = &'a [u8];

    ghost next_gives = { YieldsFirstRef (λ pieces. pieces) };

    ghost remaining = { item_count (λ pieces. pieces) };

    fn next(&mut self) -> Option<&'a [u8]> {
        let (first, others) = self.pieces.split_first()?;
        let bytes = first.bytes();
        let count = self.len.min(bytes.len());
        self.pieces = others;
        self.len -= count;
        Some(&bytes[..count])
    }
}
