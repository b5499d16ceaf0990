//! Laws of the formats: the functions that the contracts of a reader's calls name agree with the
//! productions of the grammar, in both directions, refusals included.

ghost use Rattle.std.specs.Prelude.{ℕ, Bool, [], ◌≡◌, ◌<◌, ◌^◌};
ghost use Rattle.gimli_core.specs.Numbers.{SpellsNumber, number_bytes};
ghost use Rattle.gimli_core.specs.Equality.{IsExact, ComparesBy, ClonesGiveSame, GivesSame};
ghost use Rattle.gimli_core.specs.Layout.{OrderAndLimit};
ghost use Rattle.gimli_core.specs.Values.{value_by};
ghost use Rattle.gimli_core.specs.declared.common.Format.{Format};
ghost use Rattle.gimli_core.specs.Production.{Reads, byte, signed_byte, some_bytes, number, text};
ghost use Rattle.gimli_core.specs.Production.{unsigned, unsigned_16, signed, address_size};
ghost use Rattle.gimli_core.specs.Production.{offset_word, unit_length};

use crate::attribute_value::AttributeValue;
use crate::common::{
    DebugLineOffset, DebugLineStrOffset, DebugStrOffset, DebugStrOffsetsIndex, Encoding, Format,
    LineEncoding, SectionId,
};
use crate::constants::{DwEhPe, DwForm, DwLnct, DwLne, DwLns};
use crate::endian_slice::EndianSlice;
use crate::endianity::{BigEndian, Endianity, LittleEndian, RunTimeEndian};
use crate::error::{Error, ReaderOffsetId};
use crate::offset::ReaderOffset;
use crate::reader::Reader;

/// `read_uleb128` takes a spelling of its number, and each that is there, whatever follows.
pub fn unsigned_numbers()
    ensures { Reads unsigned }
{}

/// `read_uleb128_u16` takes a spelling of its number, and each that is there, whatever follows.
pub fn unsigned_numbers_16()
    ensures { Reads unsigned_16 }
{}

/// `read_sleb128` takes a spelling of its number, and each that is there, whatever follows.
pub fn signed_numbers()
    ensures { Reads signed }
{}

/// `read_u16` to `read_u64`, `read_uint` and `read_address` take a spelling of their number, and
/// each that is there, whatever follows.
pub fn fixed_numbers()
    ensures { (is_big : Bool) (size : ℕ) → Reads (number is_big size) }
{}

/// `read_null_terminated_slice` takes a text and its zero byte, and each that is there, whatever
/// follows.
pub fn texts()
    ensures { Reads text }
{}

/// `split` and `read_u8_array_16` take so many bytes, and each that are there, whatever follows.
pub fn bytes()
    ensures { (n : ℕ) → Reads (some_bytes n) }
{}

/// `read_u8` takes a byte, and each that is there, whatever follows.
pub fn single_bytes()
    ensures { Reads byte }
{}

/// `read_i8` takes a byte as a signed number, and each that is there, whatever follows.
pub fn signed_bytes()
    ensures { Reads signed_byte }
{}

/// `read_address_size` takes the size of an address, and each that is there, whatever follows.
pub fn address_sizes()
    ensures { Reads address_size }
{}

/// `read_length` and `read_offset` take a word of the format that an offset holds, and each that is
/// there, whatever follows.
pub fn words()
    ensures { (layout : OrderAndLimit) (format : Format) → Reads (offset_word layout format) }
{}

/// `read_initial_length` takes the length of a unit that an offset holds, and each that is there,
/// whatever follows.
pub fn unit_lengths()
    ensures { (layout : OrderAndLimit) → Reads (unit_length layout) }
{}

/// What `Endianity::write_u16` to `write_u128` put into a slice spells the number.
pub fn written_numbers()
    ensures { (is_big : Bool) (size n : ℕ) → n < 256 ^ size
        → SpellsNumber is_big size (number_bytes is_big size n) n }
{}

/// `==` of values holds exactly where they are of one form and agree in what they hold, if this is
/// so of readers and of offsets.
pub fn equal_values_are_same<R: Reader + PartialEq>()
    ensures { IsExact R.eq → IsExact R.Offset.eq → IsExact ⟦<AttributeValue<R> as PartialEq>⟧.eq }
{}

/// `==` of values holds exactly where they are of one form and agree in what they hold, readers in
/// their bytes and order and offsets in their numbers, if this is so of readers and of offsets.
pub fn equal_values_look_same<R: Reader + PartialEq>()
    ensures { ComparesBy R.seen R.eq → ComparesBy R.Offset.number R.Offset.eq →
        ComparesBy (value_by R.seen R.Offset.number)
        ⟦<AttributeValue<R> as PartialEq>⟧.eq }
{}

/// `==` of numbers that have a type of their own holds exactly where the two are the same number.
pub fn equal_numbers_are_same()
    ensures standard_opcodes { IsExact ⟦<DwLns as PartialEq>⟧.eq }
    ensures extended_opcodes { IsExact ⟦<DwLne as PartialEq>⟧.eq }
    ensures content_types { IsExact ⟦<DwLnct as PartialEq>⟧.eq }
    ensures forms { IsExact ⟦<DwForm as PartialEq>⟧.eq }
    ensures pointer_encodings { IsExact ⟦<DwEhPe as PartialEq>⟧.eq }
    ensures places_of_refusals { IsExact ⟦<ReaderOffsetId as PartialEq>⟧.eq }
{}

/// `==` of offsets into a section, and of indices, holds exactly where the two are the same, if
/// this is so of the type of offsets.
pub fn equal_offsets_are_same<T: PartialEq>()
    ensures line_programs { IsExact T.eq → IsExact ⟦<DebugLineOffset<T> as PartialEq>⟧.eq }
    ensures strings { IsExact T.eq → IsExact ⟦<DebugStrOffset<T> as PartialEq>⟧.eq }
    ensures line_strings { IsExact T.eq → IsExact ⟦<DebugLineStrOffset<T> as PartialEq>⟧.eq }
    ensures indices { IsExact T.eq → IsExact ⟦<DebugStrOffsetsIndex<T> as PartialEq>⟧.eq }
{}

/// `==` of lengths that are a `usize` holds exactly where they are the same number.
pub fn equal_lengths_are_same()
    ensures { ComparesBy ⟦<usize as ReaderOffset>⟧.number ⟦<usize as PartialEq>⟧.eq }
{}

/// Each length that is a `usize` is below the limit of these.
pub fn lengths_are_below_limit(length: usize)
    ensures { ⟦<usize as ReaderOffset>⟧.number length < ⟦<usize as ReaderOffset>⟧.limit }
{}

/// `==` of errors holds exactly where they are of one kind and hold the same.
pub fn equal_errors_are_same()
    ensures { IsExact ⟦<Error as PartialEq>⟧.eq }
{}

/// `==` of sections, of formats and of encodings holds exactly where all parts of the two agree.
pub fn equal_encodings_are_same()
    ensures sections { IsExact ⟦<SectionId as PartialEq>⟧.eq }
    ensures formats { IsExact ⟦<Format as PartialEq>⟧.eq }
    ensures encodings { IsExact ⟦<Encoding as PartialEq>⟧.eq }
    ensures encodings_of_rows { IsExact ⟦<LineEncoding as PartialEq>⟧.eq }
{}

/// `==` of orders of bytes holds exactly where the two are the same order.
pub fn equal_orders_are_same()
    ensures little { IsExact ⟦<LittleEndian as PartialEq>⟧.eq }
    ensures big { IsExact ⟦<BigEndian as PartialEq>⟧.eq }
    ensures run_time { IsExact ⟦<RunTimeEndian as PartialEq>⟧.eq }
    ensures little_by_order { ComparesBy ⟦<LittleEndian as Endianity>⟧.is_big
        ⟦<LittleEndian as PartialEq>⟧.eq }
    ensures big_by_order { ComparesBy ⟦<BigEndian as Endianity>⟧.is_big
        ⟦<BigEndian as PartialEq>⟧.eq }
    ensures run_time_by_order { ComparesBy ⟦<RunTimeEndian as Endianity>⟧.is_big
        ⟦<RunTimeEndian as PartialEq>⟧.eq }
{}

/// `==` of readers over slices holds exactly where the two have the same bytes left and the same
/// order, if `==` of orders holds exactly where the two are the same order.
pub fn equal_slices_are_same<'i, E: Endianity>()
    ensures { ComparesBy E.is_big E.eq → ComparesBy ⟦<EndianSlice<'i, E> as Reader>⟧.seen
        ⟦<EndianSlice<'i, E> as PartialEq>⟧.eq }
{}

/// A reader over a slice has no byte left by default, and the order of bytes that its type of
/// orders has by default.
pub fn default_slices_are_empty<'i, E: Endianity + Default>()
    ensures bytes { (reader : _) → ⟦<EndianSlice<'i, E> as Default>⟧.is_default reader
        → (⟦<EndianSlice<'i, E> as Reader>⟧.seen reader).bytes ≡ [] }
    ensures order { (reader : _) (is_big : Bool)
        → ((endian : E) → E.is_default endian → E.is_big endian ≡ is_big)
        → ⟦<EndianSlice<'i, E> as Default>⟧.is_default reader
        → (⟦<EndianSlice<'i, E> as Reader>⟧.seen reader).is_big ≡ is_big }
{}

/// `clone` of errors, sections, formats, encodings and orders of bytes is never refused, and gives
/// the same.
pub fn clones_are_same()
    ensures errors { ClonesGiveSame ⟦<Error as Clone>⟧ }
    ensures sections { ClonesGiveSame ⟦<SectionId as Clone>⟧ }
    ensures formats { ClonesGiveSame ⟦<Format as Clone>⟧ }
    ensures encodings { ClonesGiveSame ⟦<Encoding as Clone>⟧ }
    ensures encodings_of_rows { ClonesGiveSame ⟦<LineEncoding as Clone>⟧ }
    ensures little { ClonesGiveSame ⟦<LittleEndian as Clone>⟧ }
    ensures big { ClonesGiveSame ⟦<BigEndian as Clone>⟧ }
    ensures run_time { ClonesGiveSame ⟦<RunTimeEndian as Clone>⟧ }
{}

/// The same of numbers that have a type of their own.
pub fn clones_of_numbers_are_same()
    ensures standard_opcodes { ClonesGiveSame ⟦<DwLns as Clone>⟧ }
    ensures extended_opcodes { ClonesGiveSame ⟦<DwLne as Clone>⟧ }
    ensures content_types { ClonesGiveSame ⟦<DwLnct as Clone>⟧ }
    ensures forms { ClonesGiveSame ⟦<DwForm as Clone>⟧ }
    ensures pointer_encodings { ClonesGiveSame ⟦<DwEhPe as Clone>⟧ }
    ensures places_of_refusals { ClonesGiveSame ⟦<ReaderOffsetId as Clone>⟧ }
{}

/// The same of readers over slices, if it is so of orders.
pub fn clones_of_slices_are_same<'i, E: Endianity>()
    ensures { GivesSame E.is_clone E.is_infallible
        → ClonesGiveSame ⟦<EndianSlice<'i, E> as Clone>⟧ }
{}

/// The same of offsets into a section, and of indices, if it is so of the type of offsets.
pub fn clones_of_offsets_are_same<T: Clone>()
    ensures line_programs { GivesSame T.is_clone T.is_infallible
        → ClonesGiveSame ⟦<DebugLineOffset<T> as Clone>⟧ }
    ensures strings { GivesSame T.is_clone T.is_infallible
        → ClonesGiveSame ⟦<DebugStrOffset<T> as Clone>⟧ }
    ensures line_strings { GivesSame T.is_clone T.is_infallible
        → ClonesGiveSame ⟦<DebugLineStrOffset<T> as Clone>⟧ }
    ensures indices { GivesSame T.is_clone T.is_infallible
        → ClonesGiveSame ⟦<DebugStrOffsetsIndex<T> as Clone>⟧ }
{}

/// `clone` of a value is never refused, and gives the same.
pub fn clones_of_values_are_same<R: Reader>()
    ensures { ClonesGiveSame ⟦<AttributeValue<R> as Clone>⟧ }
{}
