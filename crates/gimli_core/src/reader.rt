//! What a reader does: numbers, texts, lengths and addresses, taken from the front of bytes.

ghost use Rattle.std.specs.Prelude.{◌≡◌, ℕ, ◌+◌, ◌-◌, ◌≤◌, ◌↔◌, ◌++◌, Bool, List, [], length, take};
ghost use Rattle.std.specs.Prelude.{IsTrue, IfOk, IsOkUnless, OnErr};
ghost use Rattle.std.specs.Cow.{cow_slice_items};
ghost use Rattle.gimli_core.specs.Numbers.{is_address_size};
ghost use Rattle.gimli_core.specs.Layout.{Seen, layout_of};
ghost use Rattle.gimli_core.specs.Seen.{taken, part_taken, on_bytes};
ghost use Rattle.gimli_core.specs.Reading.{result_map, skip_at, truncate_at, find_at};
ghost use Rattle.gimli_core.specs.Production.{Production, some_bytes, text, byte, signed_byte};
ghost use Rattle.gimli_core.specs.Production.{number, unsigned, unsigned_16, signed, offset_word};
ghost use Rattle.gimli_core.specs.Production.{unit_length, address_size};

use crate::common::Format;
use crate::endianity::Endianity;
use crate::error::{Error, Result};
use crate::leb128::{sign_extended, with_group, with_tenth};
use crate::offset::ReaderOffset;
use std::borrow::CowSlice;

/// Bytes that are read from the front, and an order of bytes for the numbers among them.
///
/// A copy reads on independently. Where bytes are missing, the refusal is `UnexpectedEof`. A
/// refused call leaves the reader as it was, unless its description says otherwise.
pub trait Reader: Copy {
    /// The order of bytes.
    type Endian: Endianity;

    /// A number of bytes of this reader.
    type Offset: ReaderOffset;

    /// The bytes left, and the order of bytes of the numbers among them.
    ghost seen: { Self → Seen };

    /// The order of bytes.
    fn endian(&self) -> Self::Endian
        ensures { Self.Endian.is_big result ≡ (seen self.now).is_big };

    /// How many bytes are left.
    fn len(&self) -> Self::Offset
        ensures { Self.Offset.number result ≡ length (seen self.now).bytes };

    /// Skips all bytes.
    fn empty(&mut self)
        ensures { seen self.new ≡ record { bytes = []; is_big = (seen self.old).is_big } };

    /// Keeps only the first `len` bytes.
    fn truncate(&mut self, len: Self::Offset) -> Result<()>
        ensures { (result_map (λ _. tt) result, seen self.new)
            ≡ on_bytes (truncate_at (Self.Offset.number len)) (seen self.old) };

    /// How many bytes come in `base` before those that are left here. Requires that the bytes left
    /// here are a suffix of those left in `base`.
    fn offset_from(&self, base: &Self) -> Self::Offset
        requires { (front : List ℕ) × ((seen base.now).bytes ≡ front ++ (seen self.now).bytes) }
        ensures { Self.Offset.number result + length (seen self.now).bytes
            ≡ length (seen base.now).bytes };

    /// How many bytes come before the first one that equals `byte`. Refused by `UnexpectedEof`
    /// where there is none.
    fn find(&self, byte: u8) -> Result<Self::Offset>
        ensures { result_map Self.Offset.number result ≡ find_at byte (seen self.now).bytes };

    /// Skips the first `len` bytes.
    fn skip(&mut self, len: Self::Offset) -> Result<()>
        ensures { (result_map (λ _. tt) result, seen self.new)
            ≡ on_bytes (skip_at (Self.Offset.number len)) (seen self.old) };

    /// Takes the first `len` bytes, as a reader of their own.
    fn split(&mut self, len: Self::Offset) -> Result<Self>
        ensures { (result_map seen result, seen self.new)
            ≡ part_taken (some_bytes (Self.Offset.number len)) (seen self.old) };

    /// The bytes left: borrowed where they lie in one piece, else copied. Refused only by
    /// `OutOfMemory`, where there is no memory for the copy.
    fn to_slice(&self) -> Result<CowSlice<'_, u8>>
        ensures ok { IfOk result (λ slice. cow_slice_items slice ≡ (seen self.now).bytes) }
        ensures err { IsOkUnless result Error.OutOfMemory };

    /// Fills the buffer with the first bytes. Where there are too few, the buffer stays as it was,
    /// too.
    fn read_slice(&mut self, buf: &mut [u8]) -> Result<()>
        ensures read { (result_map (λ _. buf.new) result, seen self.new)
            ≡ taken (some_bytes (length buf.old)) (seen self.old) }
        ensures refused { OnErr result (buf.new ≡ buf.old) };

    /// Whether no bytes are left.
    fn is_empty(&self) -> bool
        ensures { IsTrue result ↔ ((seen self.now).bytes ≡ []) }
    {
        self.len().into_u64() == 0
    }

    /// Takes sixteen bytes.
    fn read_u8_array_16(&mut self) -> Result<[u8; 16]>
        ensures { (result, seen self.new) ≡ taken (some_bytes 16) (seen self.old) }
    {
        let mut buf = [0; 16];
        self.read_slice(&mut buf)?;
        Ok(buf)
    }

    /// Takes an unsigned number of one byte.
    fn read_u8(&mut self) -> Result<u8>
        ensures { (result, seen self.new) ≡ taken byte (seen self.old) }
    {
        let mut buf = [0; 1];
        self.read_slice(&mut buf)?;
        Ok(buf[0])
    }

    /// Takes a signed number of one byte.
    fn read_i8(&mut self) -> Result<i8>
        ensures { (result, seen self.new) ≡ taken signed_byte (seen self.old) }
    {
        let byte = self.read_u8()?;
        Ok(byte.cast_signed())
    }

    /// Takes an unsigned number of two bytes.
    fn read_u16(&mut self) -> Result<u16>
        ensures { (result, seen self.new)
            ≡ taken (number (seen self.old).is_big 2) (seen self.old) }
    {
        let mut buf = [0; 2];
        self.read_slice(&mut buf)?;
        Ok(self.endian().read_u16(&buf))
    }

    /// Takes an unsigned number of four bytes.
    fn read_u32(&mut self) -> Result<u32>
        ensures { (result, seen self.new)
            ≡ taken (number (seen self.old).is_big 4) (seen self.old) }
    {
        let mut buf = [0; 4];
        self.read_slice(&mut buf)?;
        Ok(self.endian().read_u32(&buf))
    }

    /// Takes an unsigned number of eight bytes.
    fn read_u64(&mut self) -> Result<u64>
        ensures { (result, seen self.new)
            ≡ taken (number (seen self.old).is_big 8) (seen self.old) }
    {
        let mut buf = [0; 8];
        self.read_slice(&mut buf)?;
        Ok(self.endian().read_u64(&buf))
    }

    /// Takes an unsigned number of `n` bytes. Requires that `n` is 8 at most.
    fn read_uint(&mut self, n: usize) -> Result<u64>
        requires { n ≤ 8 }
        ensures { (result, seen self.new)
            ≡ taken (number (seen self.old).is_big n) (seen self.old) }
    {
        let mut buf = [0; 8];
        if self.endian().is_big_endian() {
            self.read_slice(&mut buf[8 - n..])?;
        } else {
            self.read_slice(&mut buf[..n])?;
        }
        Ok(self.endian().read_u64(&buf))
    }

    /// Takes the bytes before the first zero byte, as a reader of their own, and discards the zero
    /// byte. Refused by `UnexpectedEof` where there is none.
    fn read_null_terminated_slice(&mut self) -> Result<Self>
        ensures { (result_map seen result, seen self.new) ≡ part_taken text (seen self.old) }
    {
        let len = self.find(0)?;
        let text = self.split(len)?;
        self.skip(Self::Offset::from_u8(1))?;
        Ok(text)
    }

    /// Takes an unsigned LEB128 number. Refused by `BadUnsignedLeb128` where it doesn't fit 64 bits
    /// or has more than ten bytes. A refused call has taken the bytes that it looked at.
    fn read_uleb128(&mut self) -> Result<u64>
        ensures { (result, seen self.new) ≡ taken unsigned (seen self.old) }
    {
        let mut value = 0;
        for group in 0..9u32 {
            let byte = self.read_u8()?;
            value = with_group(value, byte, group);
            if byte < 128 {
                return Ok(value);
            }
        }
        let last = self.read_u8()?;
        if last > 1 {
            return Err(Error::BadUnsignedLeb128);
        }
        Ok(with_group(value, last, 9))
    }

    /// Takes an unsigned LEB128 number of 16 bits. Refused by `BadUnsignedLeb128` where it doesn't
    /// fit them or has more than three bytes. A refused call has taken the bytes that it looked at.
    #[tactic(auto, unfolding(crate::specs::Reading::uleb_at))]
    fn read_uleb128_u16(&mut self) -> Result<u16>
        ensures { (result, seen self.new) ≡ taken unsigned_16 (seen self.old) }
    {
        let first = self.read_u8()?;
        if first < 128 {
            return Ok(u16::from(first));
        }
        let second = self.read_u8()?;
        let low = u16::from(first % 128) + 128 * u16::from(second % 128);
        if second < 128 {
            return Ok(low);
        }
        let third = self.read_u8()?;
        if third > 3 {
            return Err(Error::BadUnsignedLeb128);
        }
        Ok(low + 128 * 128 * u16::from(third))
    }

    /// Takes a signed LEB128 number. Refused by `BadSignedLeb128` where it doesn't fit 64 bits or
    /// has more than ten bytes. A refused call has taken the bytes that it looked at.
    fn read_sleb128(&mut self) -> Result<i64>
        ensures { (result, seen self.new) ≡ taken signed (seen self.old) }
    {
        let mut value = 0;
        for group in 0..9u32 {
            let byte = self.read_u8()?;
            value = with_group(value, byte, group);
            if byte < 128 {
                return Ok(sign_extended(value, byte, group));
            }
        }
        let last = self.read_u8()?;
        with_tenth(value, last)
    }

    /// Takes the length of a unit, and returns it with its format. Refused by
    /// `UnknownReservedLength` at a reserved first word, and by `UnsupportedOffset` where the
    /// offset type is too narrow. A refused call has taken the first word, if it is there, and also
    /// the length of eight bytes where that is too large.
    #[tactic(auto, unfolding(crate::specs::Production::unit_length))]
    fn read_initial_length(&mut self) -> Result<(Self::Offset, Format)>
        ensures { (
          result_map (λ read. (Self.Offset.number read.0, read.1)) result,
          seen self.new,
        )
            ≡ taken (unit_length (layout_of (seen self.old).is_big Self.Offset.limit))
            (seen self.old) }
    {
        let first = self.read_u32()?;
        if first < 0xffff_fff0 {
            return Ok((Self::Offset::from_u32(first), Format::Dwarf32));
        }
        if first < 0xffff_ffff {
            return Err(Error::UnknownReservedLength);
        }
        let length = self.read_u64()?;
        Ok((Self::Offset::from_u64(length)?, Format::Dwarf64))
    }

    /// Takes the size of an address. Refused by `UnsupportedAddressSize` where it isn't 1, 2, 4 or
    /// 8; the byte is taken then too.
    #[tactic(auto, unfolding(crate::specs::Production::address_size))]
    fn read_address_size(&mut self) -> Result<u8>
        ensures { (result, seen self.new) ≡ taken address_size (seen self.old) }
    {
        let size = self.read_u8()?;
        match size {
            1 | 2 | 4 | 8 => Ok(size),
            _ => Err(Error::UnsupportedAddressSize(size)),
        }
    }

    /// Takes an address of `size` bytes. Requires that `size` is 1, 2, 4 or 8, as
    /// `read_address_size` gives it.
    fn read_address(&mut self, size: u8) -> Result<u64>
        requires { IsTrue (is_address_size size) }
        ensures { (result, seen self.new)
            ≡ taken (number (seen self.old).is_big size) (seen self.old) }
    {
        match size {
            1 => {
                let address = self.read_u8()?;
                Ok(u64::from(address))
            }
            2 => {
                let address = self.read_u16()?;
                Ok(u64::from(address))
            }
            4 => {
                let address = self.read_u32()?;
                Ok(u64::from(address))
            }
            _ => self.read_u64(),
        }
    }

    /// Takes a length of one word of the format. Refused by `UnsupportedOffset` where the offset
    /// type is too narrow; the word is taken then.
    #[tactic(auto, unfolding(crate::specs::Production::offset_word))]
    fn read_length(&mut self, format: Format) -> Result<Self::Offset>
        ensures { (result_map Self.Offset.number result, seen self.new)
            ≡ taken (offset_word (layout_of (seen self.old).is_big Self.Offset.limit) format)
            (seen self.old) }
    {
        match format {
            Format::Dwarf32 => {
                let length = self.read_u32()?;
                Ok(Self::Offset::from_u32(length))
            }
            Format::Dwarf64 => {
                let length = self.read_u64()?;
                Self::Offset::from_u64(length)
            }
        }
    }

    /// Takes an offset of one word of the format. Refused by `UnsupportedOffset` where the offset
    /// type is too narrow; the word is taken then.
    fn read_offset(&mut self, format: Format) -> Result<Self::Offset>
        ensures { (result_map Self.Offset.number result, seen self.new)
            ≡ taken (offset_word (layout_of (seen self.old).is_big Self.Offset.limit) format)
            (seen self.old) }
    {
        self.read_length(format)
    }
}
