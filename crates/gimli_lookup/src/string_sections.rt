//! The strings that values of a header stand for.

ghost use Rattle.std.specs.Prelude.{◌≡◌};
ghost use Rattle.gimli_core.specs.Reading.{result_map};
ghost use Rattle.gimli_core.specs.Values.{value_seen};
ghost use Rattle.gimli_lookup.specs.Strings.{has_no_bytes, strings, string_at, string_of};

use crate::path_error::PathError;
use gimli_core::{AttributeValue, Reader};

/// The sections that hold strings (DWARF 5, section 7.26). Pass an empty reader for a section that
/// the program lacks.
///
/// <!-- part of crates/uses/src/where_is.rt -->
/// ```rust
/// let strings = StringSections {
///     debug_line_str: section(&elf, b".debug_line_str")?,
///     debug_str: section(&elf, b".debug_str")?,
/// };
/// ```
#[derive(Clone, Copy, Debug)]
pub struct StringSections<R> {
    /// The section `.debug_line_str`.
    pub debug_line_str: R,
    /// The section `.debug_str`.
    pub debug_str: R,
}

impl<R: Reader> StringSections<R> {
    /// The string that a value stands for, without its zero byte (DWARF 5, section 7.5.5). A string
    /// inside the value itself needs no section. Refused as `PathError` says. Takes no memory.
    pub fn attr_line_string(&self, value: AttributeValue<R>) -> Result<R, PathError>
        ensures { result_map (λ r. (R.seen r).bytes) result
            ≡ string_of (strings R.seen self.now) (value_seen R.seen R.Offset.number value) }
    {
        match value {
            AttributeValue::String(string) => Ok(string),
            AttributeValue::DebugLineStrRef(offset) => string_at(self.debug_line_str, offset.0),
            AttributeValue::DebugStrRef(offset) => string_at(self.debug_str, offset.0),
            AttributeValue::DebugStrRefSup(_) => Err(PathError::UnsupportedSupplementaryString),
            AttributeValue::DebugStrOffsetsIndex(_) => Err(PathError::UnsupportedStringIndex),
            _ => Err(PathError::ExpectedStringAttributeValue),
        }
    }

    /// Whether the string that a value stands for has no bytes. One that can't be read has some.
    /// However long a string is, no more than its first byte is looked at.
    pub(crate) fn is_empty_string(&self, value: AttributeValue<R>) -> bool
        ensures { result ≡ has_no_bytes (string_of (strings R.seen self.now)
            (value_seen R.seen R.Offset.number value)) }
    {
        match value {
            AttributeValue::String(string) => string.is_empty(),
            AttributeValue::DebugLineStrRef(offset) => is_empty_at(self.debug_line_str, offset.0),
            AttributeValue::DebugStrRef(offset) => is_empty_at(self.debug_str, offset.0),
            _ => false,
        }
    }
}

/// Whether the string of a section at an offset has no bytes: its zero byte is the first one there.
fn is_empty_at<R: Reader>(section: R, offset: R::Offset) -> bool
    ensures { result ≡ has_no_bytes (string_at (R.seen section).bytes (R.Offset.number offset)) }
{
    let mut bytes = section;
    if bytes.skip(offset).is_err() {
        return false;
    }
    match bytes.read_u8() {
        Ok(byte) => byte == 0,
        Err(_) => false,
    }
}

/// The string of a section at an offset, up to its zero byte.
fn string_at<R: Reader>(section: R, offset: R::Offset) -> Result<R, PathError>
    ensures { result_map (λ r. (R.seen r).bytes) result
        ≡ string_at (R.seen section).bytes (R.Offset.number offset) }
{
    let mut bytes = section;
    if bytes.skip(offset).is_err() || bytes.is_empty() {
        return Err(PathError::StringOffsetOutOfBounds);
    }
    match bytes.read_null_terminated_slice() {
        Ok(string) => Ok(string),
        Err(_) => Err(PathError::UnterminatedString),
    }
}
