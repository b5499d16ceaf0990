//! The texts of a header that is read.

ghost use Rattle.std.specs.Prelude.{◌≡◌, ◌⊎◌, IfOk, IfErr, IsOkUnless, Ok, Err};
ghost use Rattle.gimli_core.specs.Reading.{result_map};
ghost use Rattle.gimli_core.specs.Values.{value_seen};
ghost use Rattle.gimli_write.specs.TextReading.{text_from, text_of};

use crate::convert_error::{ConvertError, ConvertResult, from_read};
use gimli_core::{AttributeValue, Error as ReadError, Reader, ReaderOffset};
use std::alloc::Global;
use std::marker::Model;

/// The sections that hold texts.
#[derive(Debug, Drop)]
pub(crate) struct TextSections<R: Reader> {
    /// The section `.debug_str`.
    pub(crate) strings: R,
    /// The section `.debug_line_str`.
    pub(crate) line_strings: R,
}

impl<R: Reader> Model for TextSections<R> {
    ghost use Rattle.gimli_build.specs.Texts.{Sections};

    ghost Value = { Sections };

    ghost view = { λ a.
        record {
          strings = (R.seen a.strings).bytes;
          line_strings = (R.seen a.line_strings).bytes;
        } };
}

/// The bytes of the text that a value stands for. Refused by `OutOfMemory`, by `UnexpectedEof`
/// where the section ends before the text does, and by `ExpectedStringAttributeValue` for a value
/// that stands for no text of these sections.
pub(crate) fn text<R: Reader>(
    alloc: Global,
    value: AttributeValue<R>,
    sections: &TextSections<R>,
) -> ConvertResult<Vec<u8>>
    ensures ok { IfOk result (λ text.
        text_of sections.now (value_seen R.seen R.Offset.number value) ≡ Ok text.items) }
    ensures err { IfErr result (λ e. (e ≡ ConvertError.OutOfMemory) ⊎ ((fault : ReadError)
        × (e ≡ ConvertError.Read fault)
        × (text_of sections.now (value_seen R.seen R.Offset.number value) ≡ Err fault))) }
{
    match find_text(value, sections) {
        Ok(text) => copy_of(alloc, text),
        Err(e) => Err(from_read(e)),
    }
}

/// The text that a value stands for, where it lies.
fn find_text<R: Reader>(
    value: AttributeValue<R>,
    sections: &TextSections<R>,
) -> gimli_core::Result<R>
    ensures { result_map (λ r. (R.seen r).bytes) result
        ≡ text_of sections.now (value_seen R.seen R.Offset.number value) }
{
    match value {
        AttributeValue::String(text) => Ok(text),
        AttributeValue::DebugStrRef(offset) => text_from(sections.strings, offset.0),
        AttributeValue::DebugLineStrRef(offset) => text_from(sections.line_strings, offset.0),
        _ => Err(ReadError::ExpectedStringAttributeValue),
    }
}

/// The text of a section from an offset on, up to a zero byte.
fn text_from<R: Reader>(section: R, offset: R::Offset) -> gimli_core::Result<R>
    ensures { result_map (λ r. (R.seen r).bytes) result
        ≡ text_from (R.seen section).bytes (R.Offset.number offset) }
{
    let mut section = section;
    section.skip(offset)?;
    section.read_null_terminated_slice()
}

/// The bytes of a text. Refused by `OutOfMemory` alone.
pub(crate) fn copy_of<R: Reader>(alloc: Global, text: R) -> ConvertResult<Vec<u8>>
    ensures ok { IfOk result (λ copy. copy.items ≡ (R.seen text).bytes) }
    ensures err { IsOkUnless result ConvertError.OutOfMemory }
{
    let Ok(bytes) = text.to_slice() else {
        return Err(ConvertError::OutOfMemory);
    };
    Ok(Vec::from_slice(alloc, &bytes)?)
}
