//! The values of attributes: texts, references to texts, numbers and blocks.

ghost use Rattle.std.specs.Prelude.{◌≡◌};

use crate::common::{DebugLineStrOffset, DebugStrOffset, DebugStrOffsetsIndex};
use crate::offset::ReaderOffset;
use crate::reader::Reader;
use std::alloc::AllocError;

/// The value of a form. Texts and blocks are readers over the section that they stand in.
#[derive(Copy, Debug, PartialEq, Eq)]
pub enum AttributeValue<R, Offset = <R as Reader>::Offset>
where
    R: Reader<Offset = Offset>,
    Offset: ReaderOffset,
{
    /// Bytes without a further meaning.
    Block(R),
    /// A number of one byte.
    Data1(u8),
    /// A number of two bytes.
    Data2(u16),
    /// A number of four bytes.
    Data4(u32),
    /// A number of eight bytes.
    Data8(u64),
    /// An unsigned LEB128 number.
    Udata(u64),
    /// A signed LEB128 number.
    Sdata(i64),
    /// A truth value.
    Flag(bool),
    /// An offset into another section.
    SecOffset(Offset),
    /// A text in place, without its zero byte.
    String(R),
    /// A text in the section `.debug_str`.
    DebugStrRef(DebugStrOffset<Offset>),
    /// A text in the section `.debug_str` of the supplementary file.
    DebugStrRefSup(DebugStrOffset<Offset>),
    /// A text in the section `.debug_line_str`.
    DebugLineStrRef(DebugLineStrOffset<Offset>),
    /// A text by its index into the string offsets of the unit.
    DebugStrOffsetsIndex(DebugStrOffsetsIndex<Offset>),
}

impl<R, Offset> Clone for AttributeValue<R, Offset>
where
    R: Reader<Offset = Offset>,
    Offset: ReaderOffset,
{
    ghost use Rattle.std.specs.Prelude.{⊤};

    ghost is_clone = { λ value copy. copy ≡ value };

    ghost is_infallible = { λ _. ⊤ };

    fn clone(&self) -> Result<Self, AllocError> {
        Ok(*self)
    }
}

impl<R, Offset> AttributeValue<R, Offset>
where
    R: Reader<Offset = Offset>,
    Offset: ReaderOffset,
{
    ghost use Rattle.gimli_core.specs.Values.{udata_value};

    /// The number of an unsigned value, or of a signed one that isn't negative.
    pub fn udata_value(&self) -> Option<u64>
        ensures { result ≡ udata_value self.now }
    {
        match *self {
            AttributeValue::Data1(n) => Some(u64::from(n)),
            AttributeValue::Data2(n) => Some(u64::from(n)),
            AttributeValue::Data4(n) => Some(u64::from(n)),
            AttributeValue::Data8(n) => Some(n),
            AttributeValue::Udata(n) => Some(n),
            AttributeValue::Sdata(n) => { if n < 0 { None } else { Some(n as u64) } }
            _ => None,
        }
    }
}
