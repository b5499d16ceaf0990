//! The texts of a source that is converted, and those of the program that is built of it.

ghost use Rattle.std.specs.Prelude.{◌≡◌, ◌≢◌, ◌≤◌, ℕ, List, [], All, IfOk, IfErr, IsOkUnless};
ghost use Rattle.std.specs.Prelude.{IfSome, OnOk, Ok};
ghost use Rattle.std.specs.Prelude.{option_map};
ghost use Rattle.std.specs.Option.{option_map_or};
ghost use Rattle.gimli_core.specs.Reading.{result_map};
ghost use Rattle.gimli_core.specs.Values.{value_seen};
ghost use Rattle.gimli_bytes.specs.Texts.{KeepsTexts, texts_in};
ghost use Rattle.gimli_build.specs.LineText.{line_text, made_text, made_table, IsWithin, HasNoZero};
ghost use Rattle.gimli_build.specs.LineText.{IsNotEmpty};
ghost use Rattle.gimli_write.specs.convert.Texts.{IsRefusedBy, if_there, without_zero, source_text};
ghost use Rattle.gimli_write.specs.convert.Texts.{source_path};

use crate::convert_error::{ConvertError, ConvertResult, from_write};
use crate::text::{TextSections, text};
use gimli_build::LineString;
use gimli_bytes::LineStringTable;
use gimli_core::{AttributeValue, Encoding, Reader, ReaderOffset};
use std::alloc::Global;
use std::marker::Model;

/// Bytes that may be a text. Refused as `InvalidAttributeValue` where a zero byte would end it.
pub(crate) fn without_zero(text: Vec<u8>) -> ConvertResult<Vec<u8>>
    ensures text { result_map (λ kept. kept.items) result ≡ without_zero text.items }
    ensures no_zero { IfOk result (λ kept. All (λ b. b ≢ 0) kept.items) }
{
    if text.as_slice().contains(&0) {
        Err(ConvertError::InvalidAttributeValue)
    } else {
        Ok(text)
    }
}

/// The text that a value of the source stands for. Refused as `text` is, as
/// `UnsupportedLineStringForm` for a text of a supplementary file, and as `InvalidAttributeValue`
/// for one with a zero byte.
pub(crate) fn source_text<R: Reader>(
    alloc: Global,
    value: AttributeValue<R>,
    sections: &TextSections<R>,
) -> ConvertResult<Vec<u8>>
    ensures ok { IfOk result (λ text.
        source_text sections.now (value_seen R.seen R.Offset.number value)
        ≡ Ok text.items) }
    ensures err { IfErr result
        (IsRefusedBy (source_text sections.now (value_seen R.seen R.Offset.number value))) }
    ensures no_zero { IfOk result (λ text. All (λ b. b ≢ 0) text.items) }
{
    match value {
        AttributeValue::DebugStrRefSup(_) => Err(ConvertError::UnsupportedLineStringForm),
        _ => without_zero(text(alloc, value, sections)?),
    }
}

/// The same, where there is a value.
pub(crate) fn optional_text<R: Reader>(
    alloc: Global,
    value: Option<AttributeValue<R>>,
    sections: &TextSections<R>,
) -> ConvertResult<Option<Vec<u8>>>
    ensures ok { IfOk result (λ text. if_there (source_text sections.now)
        (option_map (value_seen R.seen R.Offset.number) value)
        ≡ Ok (option_map (λ text. text.items) text)) }
    ensures err { IfErr result (IsRefusedBy
        (if_there (source_text sections.now)
        (option_map (value_seen R.seen R.Offset.number) value))) }
    ensures no_zero { IfOk result (λ text. IfSome text (λ text. All (λ b. b ≢ 0) text.items)) }
{
    match value {
        Some(value) => Ok(Some(source_text(alloc, value, sections)?)),
        None => Ok(None),
    }
}

/// The path of a directory or a file of the source, for a program of this version. Refused as
/// `source_text` is, and up to version 4 as `InvalidAttributeValue` where it is empty, since it
/// would end its table.
pub(crate) fn source_path<R: Reader>(
    alloc: Global,
    version: u16,
    value: AttributeValue<R>,
    sections: &TextSections<R>,
) -> ConvertResult<Vec<u8>>
    ensures ok { IfOk result (λ path.
        source_path version sections.now (value_seen R.seen R.Offset.number value)
        ≡ Ok path.items) }
    ensures err { IfErr result
        (IsRefusedBy
        (source_path version sections.now (value_seen R.seen R.Offset.number value))) }
    ensures no_zero { IfOk result (λ path. All (λ b. b ≢ 0) path.items) }
    ensures not_empty { IfOk result (λ path. version ≤ 4 → path.items ≢ []) }
{
    let path = source_text(alloc, value, sections)?;
    if version <= 4 && path.is_empty() {
        return Err(ConvertError::InvalidAttributeValue);
    }
    Ok(path)
}

/// A text of a program of this encoding. Requires bytes without a zero byte. Refused by
/// `OutOfMemory` alone; then the line strings are as before.
pub(crate) fn program_text(
    text: &[u8],
    encoding: Encoding,
    line_strings: &mut LineStringTable,
) -> ConvertResult<LineString>
    requires { All (λ b. b ≢ 0) text.now }
    ensures ok { IfOk result (λ made.
        line_text made ≡ made_text encoding.version line_strings.old text.now) }
    ensures table { OnOk result
        (line_strings.new ≡ made_table encoding.version line_strings.old text.now) }
    // What a program asks of it.
    ensures within { IfOk result (λ made. (strings : List (List ℕ)) →
        IsWithin (texts_in strings line_strings.new) (line_text made)) }
    ensures no_zero { IfOk result (λ made. HasNoZero (line_text made)) }
    ensures not_empty { encoding.version ≤ 4 → text.now ≢ []
        → IfOk result (λ made. IsNotEmpty (line_text made)) }
    // However it ends.
    ensures stays { KeepsTexts line_strings.old line_strings.new }
    ensures memory { IsOkUnless result ConvertError.OutOfMemory }
{
    match LineString::new(text, encoding, line_strings) {
        Ok(made) => Ok(made),
        Err(e) => Err(from_write(e)),
    }
}

/// The same, where there are bytes.
pub(crate) fn optional_program_text(
    text: &Option<Vec<u8>>,
    encoding: Encoding,
    line_strings: &mut LineStringTable,
) -> ConvertResult<Option<LineString>>
    requires { IfSome text.now (λ text. All (λ b. b ≢ 0) text.items) }
    ensures ok { IfOk result (λ made. option_map line_text made
        ≡ option_map (made_text encoding.version line_strings.old)
        (option_map (λ text. text.items) text.now)) }
    ensures table { OnOk result
        (line_strings.new ≡ option_map_or (made_table encoding.version line_strings.old)
        (option_map (λ text. text.items) text.now) line_strings.old) }
    // What a program asks of it.
    ensures within { IfOk result (λ made. IfSome made (λ made. (strings : List (List ℕ)) →
        IsWithin (texts_in strings line_strings.new) (line_text made))) }
    ensures no_zero { IfOk result (λ made. IfSome made (λ made. HasNoZero (line_text made))) }
    // However it ends.
    ensures stays { KeepsTexts line_strings.old line_strings.new }
    ensures memory { IsOkUnless result ConvertError.OutOfMemory }
{
    match text {
        Some(text) => Ok(Some(program_text(text.as_slice(), encoding, line_strings)?)),
        None => Ok(None),
    }
}
