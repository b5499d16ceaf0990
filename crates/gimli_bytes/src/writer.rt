//! What a writer of a section does: appends, and writes over bytes that are there.

ghost use Rattle.std.specs.Prelude.{◌≡◌, ◌+◌, ◌≤◌, ◌<◌, Bool, true, false, IsTrue, IfOk, Ok, Err};
ghost use Rattle.std.specs.Prelude.{length};
ghost use Rattle.gimli_core.specs.Numbers.{number_bytes, word_size};
ghost use Rattle.gimli_core.specs.Numbers.{SpellsUleb128, SpellsSleb128, IsShortest};
ghost use Rattle.gimli_bytes.specs.Written.{IsAppend, IsAppendInParts, IsOverwrite};
ghost use Rattle.gimli_bytes.specs.Hand.{Hand, Placement};
ghost use Rattle.gimli_bytes.specs.Number.{udata, sdata, twos_complement, uleb, sleb};
ghost use Rattle.gimli_bytes.specs.Number.{escape_size, open_length, length_word};
ghost use Rattle.gimli_bytes.specs.Number.{pointer_data, pointer_at_end};

use crate::address::Address;
use crate::error::{Error, Result};
use crate::leb128::{Leb128, has_seven_bits, low_bits};
use crate::sink::Sink;
use gimli_core::{DwEhPe, Endianity, Format, SectionId, constants};

/// What a section is written to.
///
/// A writer means the list of its bytes, as its [`Sink`] says. Calls append to it, but for those
/// whose names end in `_at`, which write over bytes that are there. Whatever the writer, a refused
/// append leaves the old bytes as a beginning, a refused `_at` call changes no byte, and no `_at`
/// call changes the length.
pub trait Writer: Sink {
    /// The order of bytes.
    type Endian: Endianity;

    /// The order of bytes.
    fn endian(&self) -> Self::Endian
        ensures { Self.Endian.is_big result ≡ Self.is_big self.now };

    /// The length of the section in bytes, which is also the offset of what is appended next.
    fn len(&self) -> usize
        ensures contents { result ≡ length (Self.contents self.now) }
        ensures completed { (at : Placement) → IsTrue (Self.completes self.now) →
            result ≡ length (Self.completed at self.now) };

    /// Appends bytes. Refused by `OutOfMemory` alone, for a type that `fails_for_memory_alone`.
    fn write(&mut self, bytes: &[u8]) -> Result<()>
        ensures { IsAppend Self.Sink self.old self.new result (λ hand. Ok bytes.now) };

    /// Writes over the bytes from an offset on. Refused by `OffsetOutOfBounds` where the offset
    /// is past the end of the section, else by `LengthOutOfBounds` where the bytes would pass the
    /// end.
    fn write_at(&mut self, offset: usize, bytes: &[u8]) -> Result<()>
        ensures { IsOverwrite Self.Sink self.old self.new result offset (λ hand. Ok bytes.now) };

    /// Appends an address of `size` bytes. A writer without relocations refuses a symbol by
    /// `InvalidAddress`, and writes a constant by `write_udata`. It has no body of its own: one
    /// would promise for every writer what addresses become.
    fn write_address(&mut self, address: Address, size: u8) -> Result<()>
        ensures { IsAppend Self.Sink self.old self.new result
            (λ hand. hand.address (Self.is_big self.old) address size) };

    /// Appends an address in a pointer encoding of `.eh_frame`: as it is, or relative to the end
    /// of the section. A symbol is `InvalidAddress`, an address that is relative to anything else
    /// `UnsupportedPointerEncoding`; the number is refused as by `write_eh_pointer_data`. The bit
    /// 0x80 of the encoding, by which the pointer is the place of the address, isn't looked at.
    fn write_eh_pointer(&mut self, address: Address, eh_pe: DwEhPe, size: u8) -> Result<()>
        ensures { IsAppend Self.Sink self.old self.new result
            (λ hand. pointer_at_end (Self.is_big self.old) (Self.contents self.old) address eh_pe
            size) }
    {
        match address {
            Address::Constant(val) => match eh_pe.application() {
                constants::DW_EH_PE_absptr => self.write_eh_pointer_data(val, eh_pe.format(), size),
                constants::DW_EH_PE_pcrel => {
                    let val = val.wrapping_sub(self.len() as u64);
                    self.write_eh_pointer_data(val, eh_pe.format(), size)
                }
                _ => Err(Error::UnsupportedPointerEncoding(eh_pe)),
            },
            Address::Symbol { .. } => Err(Error::InvalidAddress),
        }
    }

    /// Appends a number in a pointer format of `.eh_frame`; `size` is that of the format
    /// `DW_EH_PE_absptr`. Refused as by `write_udata` and `write_sdata`, and by
    /// `UnsupportedPointerEncoding` for other formats.
    fn write_eh_pointer_data(&mut self, val: u64, format: DwEhPe, size: u8) -> Result<()>
        ensures { IsAppend Self.Sink self.old self.new result
            (λ hand. pointer_data (Self.is_big self.old) val format size) }
    {
        match format {
            constants::DW_EH_PE_absptr => self.write_udata(val, size),
            constants::DW_EH_PE_uleb128 => self.write_uleb128(val),
            constants::DW_EH_PE_udata2 => self.write_udata(val, 2),
            constants::DW_EH_PE_udata4 => self.write_udata(val, 4),
            constants::DW_EH_PE_udata8 => self.write_udata(val, 8),
            constants::DW_EH_PE_sleb128 => self.write_sleb128(val.cast_signed()),
            constants::DW_EH_PE_sdata2 => self.write_sdata(val.cast_signed(), 2),
            constants::DW_EH_PE_sdata4 => self.write_sdata(val.cast_signed(), 4),
            constants::DW_EH_PE_sdata8 => self.write_sdata(val.cast_signed(), 8),
            _ => Err(Error::UnsupportedPointerEncoding(format)),
        }
    }

    /// Appends an offset into a section, of `size` bytes. A writer without relocations writes it
    /// by `write_udata`.
    fn write_offset(&mut self, val: usize, section: SectionId, size: u8) -> Result<()>
        ensures { IsAppend Self.Sink self.old self.new result
            (λ hand. hand.offset (Self.is_big self.old) section val size) };

    /// Writes an offset into a section, of `size` bytes, over the bytes from an offset on. A
    /// writer without relocations does so by `write_udata_at`.
    fn write_offset_at(
        &mut self,
        offset: usize,
        val: usize,
        section: SectionId,
        size: u8,
    ) -> Result<()>
        ensures { IsOverwrite Self.Sink self.old self.new result offset
            (λ hand. hand.offset (Self.is_big self.old) section val size) };

    /// Appends a reference to a symbol, of `size` bytes. A writer that knows of no symbols always
    /// refuses it, by `InvalidReference`.
    fn write_reference(&mut self, symbol: usize, size: u8) -> Result<()>
        ensures { IsAppend Self.Sink self.old self.new result
            (λ hand. hand.reference (Self.is_big self.old) symbol size) };

    /// Appends a byte. Refused as `write` is.
    fn write_u8(&mut self, val: u8) -> Result<()>
        ensures { IsAppend Self.Sink self.old self.new result
            (λ hand. Ok (number_bytes (Self.is_big self.old) 1 val)) }
    {
        self.write(&[val])
    }

    /// Appends a number of two bytes. Refused as `write` is.
    fn write_u16(&mut self, val: u16) -> Result<()>
        ensures { IsAppend Self.Sink self.old self.new result
            (λ hand. Ok (number_bytes (Self.is_big self.old) 2 val)) }
    {
        self.write(&bytes_of_u16(self.endian(), val))
    }

    /// Appends a number of four bytes. Refused as `write` is.
    fn write_u32(&mut self, val: u32) -> Result<()>
        ensures { IsAppend Self.Sink self.old self.new result
            (λ hand. Ok (number_bytes (Self.is_big self.old) 4 val)) }
    {
        self.write(&bytes_of_u32(self.endian(), val))
    }

    /// Appends a number of eight bytes. Refused as `write` is.
    fn write_u64(&mut self, val: u64) -> Result<()>
        ensures { IsAppend Self.Sink self.old self.new result
            (λ hand. Ok (number_bytes (Self.is_big self.old) 8 val)) }
    {
        self.write(&bytes_of_u64(self.endian(), val))
    }

    /// Appends a number of sixteen bytes. Refused as `write` is.
    fn write_u128(&mut self, val: u128) -> Result<()>
        ensures { IsAppend Self.Sink self.old self.new result
            (λ hand. Ok (number_bytes (Self.is_big self.old) 16 val)) }
    {
        self.write(&bytes_of_u128(self.endian(), val))
    }

    /// Writes a byte over that at an offset. Refused as by `write_at`.
    fn write_u8_at(&mut self, offset: usize, val: u8) -> Result<()>
        ensures { IsOverwrite Self.Sink self.old self.new result
            offset (λ hand. Ok (number_bytes (Self.is_big self.old) 1 val)) }
    {
        self.write_at(offset, &[val])
    }

    /// Writes a number over the two bytes from an offset on. Refused as by `write_at`.
    fn write_u16_at(&mut self, offset: usize, val: u16) -> Result<()>
        ensures { IsOverwrite Self.Sink self.old self.new result
            offset (λ hand. Ok (number_bytes (Self.is_big self.old) 2 val)) }
    {
        self.write_at(offset, &bytes_of_u16(self.endian(), val))
    }

    /// Writes a number over the four bytes from an offset on. Refused as by `write_at`.
    fn write_u32_at(&mut self, offset: usize, val: u32) -> Result<()>
        ensures { IsOverwrite Self.Sink self.old self.new result
            offset (λ hand. Ok (number_bytes (Self.is_big self.old) 4 val)) }
    {
        self.write_at(offset, &bytes_of_u32(self.endian(), val))
    }

    /// Writes a number over the eight bytes from an offset on. Refused as by `write_at`.
    fn write_u64_at(&mut self, offset: usize, val: u64) -> Result<()>
        ensures { IsOverwrite Self.Sink self.old self.new result
            offset (λ hand. Ok (number_bytes (Self.is_big self.old) 8 val)) }
    {
        self.write_at(offset, &bytes_of_u64(self.endian(), val))
    }

    /// Writes a number over the sixteen bytes from an offset on. Refused as by `write_at`.
    fn write_u128_at(&mut self, offset: usize, val: u128) -> Result<()>
        ensures { IsOverwrite Self.Sink self.old self.new result
            offset (λ hand. Ok (number_bytes (Self.is_big self.old) 16 val)) }
    {
        self.write_at(offset, &bytes_of_u128(self.endian(), val))
    }

    /// Appends an unsigned number of `size` bytes. Refused by `UnsupportedWordSize` where the
    /// size isn't 1, 2, 3, 4 or 8, and by `ValueTooLarge` where the number doesn't fit it.
    fn write_udata(&mut self, val: u64, size: u8) -> Result<()>
        ensures { IsAppend Self.Sink self.old self.new result (λ hand.
            udata (Self.is_big self.old) val size) }
    {
        match size {
            1 => {
                if val > 0xff {
                    return Err(Error::ValueTooLarge);
                }
                self.write_u8(val as u8)
            }
            2 => {
                if val > 0xffff {
                    return Err(Error::ValueTooLarge);
                }
                self.write_u16(val as u16)
            }
            3 => {
                if val > 0xff_ffff {
                    return Err(Error::ValueTooLarge);
                }
                self.write(&bytes_of_u24(self.endian(), val as u32))
            }
            4 => {
                if val > 0xffff_ffff {
                    return Err(Error::ValueTooLarge);
                }
                self.write_u32(val as u32)
            }
            8 => self.write_u64(val),
            otherwise => Err(Error::UnsupportedWordSize(otherwise)),
        }
    }

    /// Appends a signed number of `size` bytes in two's complement. Refused by
    /// `UnsupportedWordSize` where the size isn't 1, 2, 4 or 8, and by `ValueTooLarge` where the
    /// number doesn't fit it.
    fn write_sdata(&mut self, val: i64, size: u8) -> Result<()>
        ensures { IsAppend Self.Sink self.old self.new result (λ hand.
            sdata (Self.is_big self.old) val size) }
    {
        match size {
            1 => self.write_u8(bits_of_i8(val)?),
            2 => self.write_u16(bits_of_i16(val)?),
            4 => self.write_u32(bits_of_i32(val)?),
            8 => self.write_u64(val.cast_unsigned()),
            otherwise => Err(Error::UnsupportedWordSize(otherwise)),
        }
    }

    /// Writes an unsigned number of `size` bytes over the bytes from an offset on. Refused as by
    /// `write_udata`, and then as by `write_at`.
    fn write_udata_at(&mut self, offset: usize, val: u64, size: u8) -> Result<()>
        ensures { IsOverwrite Self.Sink self.old self.new result
            offset (λ hand. udata (Self.is_big self.old) val size) }
    {
        match size {
            1 => {
                if val > 0xff {
                    return Err(Error::ValueTooLarge);
                }
                self.write_u8_at(offset, val as u8)
            }
            2 => {
                if val > 0xffff {
                    return Err(Error::ValueTooLarge);
                }
                self.write_u16_at(offset, val as u16)
            }
            3 => {
                if val > 0xff_ffff {
                    return Err(Error::ValueTooLarge);
                }
                self.write_at(offset, &bytes_of_u24(self.endian(), val as u32))
            }
            4 => {
                if val > 0xffff_ffff {
                    return Err(Error::ValueTooLarge);
                }
                self.write_u32_at(offset, val as u32)
            }
            8 => self.write_u64_at(offset, val),
            otherwise => Err(Error::UnsupportedWordSize(otherwise)),
        }
    }

    /// Appends an unsigned number as LEB128, in its shortest spelling. Refused as `write` is.
    #[inline(always)]
    fn write_uleb128(&mut self, val: u64) -> Result<()>
        ensures shortest { IsShortest (SpellsUleb128 64) (uleb val) val }
        ensures appends { IsAppend Self.Sink self.old self.new result (λ hand. Ok (uleb val)) }
    {
        if val < 128 {
            return self.write(&[val as u8]);
        }
        self.write(Leb128::unsigned(val).bytes())
    }

    /// Appends a signed number as LEB128, in its shortest spelling. Refused as `write` is.
    #[inline(always)]
    fn write_sleb128(&mut self, val: i64) -> Result<()>
        ensures shortest { IsShortest SpellsSleb128 (sleb val) val }
        ensures appends { IsAppend Self.Sink self.old self.new result (λ hand. Ok (sleb val)) }
    {
        if has_seven_bits(val) {
            return self.write(&[low_bits(val)]);
        }
        self.write(Leb128::signed(val).bytes())
    }

    /// Appends an initial length of 0, and returns where its word stands, for
    /// `write_initial_length_at`. Refused as `write` is, which it may call twice.
    fn write_initial_length(&mut self, format: Format) -> Result<InitialLengthOffset>
        ensures appends { IsAppendInParts Self.Sink self.old self.new result
            (open_length (Self.is_big self.old) format) }
        ensures after { IfOk result (λ word. length (Self.contents self.old) ≤ word.0) }
        ensures place { IsTrue Self.keeps_bytes →
            IfOk result (λ word. word.0 ≡ length (Self.contents self.old) + escape_size format) }
        ensures completed { (at : Placement) → IsTrue (Self.completes self.old) → IfOk result
            (λ word. word.0 ≡ length (Self.completed at self.old) + escape_size format) }
    {
        match format {
            Format::Dwarf32 => {
                let offset = InitialLengthOffset(self.len());
                self.write_u32(0)?;
                Ok(offset)
            }
            Format::Dwarf64 => {
                self.write_u32(0xffff_ffff)?;
                let offset = InitialLengthOffset(self.len());
                self.write_u64(0)?;
                Ok(offset)
            }
        }
    }

    /// Writes a length over the word of an initial length. In the 32-bit format a length from
    /// 0xffff_fff0 to 0xffff_ffff is `InitialLengthOverflow`, a larger one `ValueTooLarge`; the
    /// place is refused as by `write_at`.
    fn write_initial_length_at(
        &mut self,
        offset: InitialLengthOffset,
        val: u64,
        format: Format,
    ) -> Result<()>
        ensures { IsOverwrite Self.Sink self.old self.new result
            offset.0 (λ hand. length_word (Self.is_big self.old) format val) }
    {
        if is_reserved(format, val) {
            return Err(Error::InitialLengthOverflow);
        }
        self.write_udata_at(offset.0, val, format.word_size())
    }
}

/// Where the word of an initial length stands.
#[derive(Clone, Copy, Debug)]
pub struct InitialLengthOffset(pub usize);

/// Whether a length is one that the 32-bit format reserves.
fn is_reserved(format: Format, val: u64) -> bool
    ensures reserved { (is_big : Bool) → result ≡ true →
        length_word is_big format val ≡ Err Error.InitialLengthOverflow }
    ensures other { (is_big : Bool) → result ≡ false →
        length_word is_big format val ≡ udata is_big val (word_size format) }
{
    format == Format::Dwarf32 && (0xffff_fff0..=0xffff_ffff).contains(&val)
}

/// The two bytes of a number in an order.
fn bytes_of_u16<E: Endianity>(endian: E, val: u16) -> [u8; 2]
    ensures { result ≡ number_bytes (E.is_big endian) 2 val }
{
    let mut bytes = [0; 2];
    endian.write_u16(&mut bytes, val);
    bytes
}

/// The three bytes of a number in an order.
fn bytes_of_u24<E: Endianity>(endian: E, val: u32) -> [u8; 3]
    requires { val < 0x100_0000 }
    ensures { result ≡ number_bytes (E.is_big endian) 3 val }
{
    let bytes = bytes_of_u32(endian, val);
    if endian.is_big_endian() {
        [bytes[1], bytes[2], bytes[3]]
    } else {
        [bytes[0], bytes[1], bytes[2]]
    }
}

/// The four bytes of a number in an order.
fn bytes_of_u32<E: Endianity>(endian: E, val: u32) -> [u8; 4]
    ensures { result ≡ number_bytes (E.is_big endian) 4 val }
{
    let mut bytes = [0; 4];
    endian.write_u32(&mut bytes, val);
    bytes
}

/// The eight bytes of a number in an order.
fn bytes_of_u64<E: Endianity>(endian: E, val: u64) -> [u8; 8]
    ensures { result ≡ number_bytes (E.is_big endian) 8 val }
{
    let mut bytes = [0; 8];
    endian.write_u64(&mut bytes, val);
    bytes
}

/// The sixteen bytes of a number in an order.
fn bytes_of_u128<E: Endianity>(endian: E, val: u128) -> [u8; 16]
    ensures { result ≡ number_bytes (E.is_big endian) 16 val }
{
    let mut bytes = [0; 16];
    endian.write_u128(&mut bytes, val);
    bytes
}

/// The bits of a number that eight bits hold with its sign, else `ValueTooLarge`.
fn bits_of_i8(val: i64) -> Result<u8>
    ensures { result ≡ twos_complement 1 val }
{
    match i8::try_from(val) {
        Ok(val) => Ok(val.cast_unsigned()),
        Err(_) => Err(Error::ValueTooLarge),
    }
}

/// The bits of a number that sixteen bits hold with its sign, else `ValueTooLarge`.
fn bits_of_i16(val: i64) -> Result<u16>
    ensures { result ≡ twos_complement 2 val }
{
    match i16::try_from(val) {
        Ok(val) => Ok(val.cast_unsigned()),
        Err(_) => Err(Error::ValueTooLarge),
    }
}

/// The bits of a number that 32 bits hold with its sign, else `ValueTooLarge`.
fn bits_of_i32(val: i64) -> Result<u32>
    ensures { result ≡ twos_complement 4 val }
{
    match i32::try_from(val) {
        Ok(val) => Ok(val.cast_unsigned()),
        Err(_) => Err(Error::ValueTooLarge),
    }
}
