//! Texts of directories and files: in the table itself, or references to `.debug_str` and
//! `.debug_line_str`.

ghost use Rattle.std.specs.Prelude.{◌≡◌, ◌≢◌, ℕ, List, IfOk, IsOkUnless, OnOk, OnErr, All};
ghost use Rattle.std.specs.Prelude.{IsTrue, ◌↔◌};

use gimli_bytes::{Error, LineStringId, LineStringTable, Result, StringId, StringTable};
use gimli_core::{DwForm, Encoding, constants};
use std::alloc::AllocError;

/// A text of a line program: the name of a directory or a file, or a file's source.
#[derive(Debug, PartialEq, Eq, Hash, Drop)]
pub enum LineString {
    /// A text in the line program itself.
    String(Vec<u8>),
    /// A text of the table that is written to `.debug_str`.
    StringRef(StringId),
    /// A text of the table that is written to `.debug_line_str`.
    LineStringRef(LineStringId),
}

impl LineString {
    ghost use Rattle.gimli_build.specs.LineText.{line_text, made_text, made_table, IsWithin};
    ghost use Rattle.gimli_build.specs.LineText.{bytes_in, HasNoZero, IsNotEmpty};
    ghost use Rattle.gimli_bytes.specs.Texts.{KeepsTexts, texts_in};
    ghost use Rattle.gimli_build.specs.Version5Tables.{text_form};

    /// Makes a text of bytes, in the form that is usual for programs of this encoding: up to
    /// version 4 a copy of the bytes, in the later ones a text of the table, to which it is added.
    /// Requires bytes without a zero byte. Fails only with `OutOfMemory`; then the table is as it
    /// was.
    pub fn new(
        text: &[u8],
        encoding: Encoding,
        line_strings: &mut LineStringTable,
    ) -> Result<LineString>
        requires { All (λ b. b ≢ 0) text.now }
        ensures ok { IfOk result (λ made.
            line_text made ≡ made_text encoding.version line_strings.old text.now) }
        ensures table { OnOk result
            (line_strings.new ≡ made_table encoding.version line_strings.old text.now) }
        ensures reads { IfOk result (λ made. (strings : List (List ℕ)) →
            bytes_in (texts_in strings line_strings.new) (line_text made) ≡ text.now) }
        ensures within { IfOk result (λ made. (strings : List (List ℕ)) →
            IsWithin (texts_in strings line_strings.new) (line_text made)) }
        ensures no_zero { IfOk result (λ made. HasNoZero (line_text made)) }
        ensures stays { OnOk result (KeepsTexts line_strings.old line_strings.new) }
        ensures err { OnErr result (line_strings.new ≡ line_strings.old) }
        ensures memory { IsOkUnless result Error.OutOfMemory }
    {
        if encoding.version <= 4 {
            let alloc = *line_strings.allocator();
            Ok(LineString::String(text.to_vec(alloc)?))
        } else {
            Ok(LineString::LineStringRef(line_strings.add(text)?))
        }
    }

    /// Whether `new` takes these bytes: none of them is zero, which would end the text.
    pub fn accepts(text: &[u8]) -> bool
        ensures { IsTrue result ↔ All (λ b. b ≢ 0) text.now }
    {
        has_no_zero(text)
    }

    /// The form that the text is written in, in a program of version 5.
    pub fn form(&self) -> DwForm
        ensures { result.0 ≡ text_form (line_text self.now) }
    {
        match self {
            LineString::String(_) => constants::DW_FORM_string,
            LineString::StringRef(_) => constants::DW_FORM_strp,
            LineString::LineStringRef(_) => constants::DW_FORM_line_strp,
        }
    }

    /// Whether the text is in the program itself, or in these tables.
    pub fn is_within(&self, line_strings: &LineStringTable, strings: &StringTable) -> bool
        ensures { IsTrue result
            ↔ IsWithin (texts_in strings.now line_strings.now) (line_text self.now) }
    {
        match self {
            LineString::String(_) => true,
            LineString::StringRef(id) => id.0 < strings.count(),
            LineString::LineStringRef(id) => id.0 < line_strings.count(),
        }
    }

    /// Whether a text in the program itself has no zero byte, which would end it. A text of a table
    /// has none.
    pub fn has_no_zero(&self) -> bool
        ensures { IsTrue result ↔ HasNoZero (line_text self.now) }
    {
        match self {
            LineString::String(text) => has_no_zero(text.as_slice()),
            _ => true,
        }
    }

    /// Whether a text in the program itself isn't empty. Each text of a table counts as not empty.
    pub(crate) fn is_not_empty(&self) -> bool
        ensures { IsTrue result ↔ IsNotEmpty (line_text self.now) }
    {
        match self {
            LineString::String(text) => !text.is_empty(),
            _ => true,
        }
    }

    /// The bytes of the text. Requires tables that have it, if it isn't in the program itself.
    pub fn get<'a>(
        &'a self,
        strings: &'a StringTable,
        line_strings: &'a LineStringTable,
    ) -> &'a [u8]
        requires { IsWithin (texts_in strings.now line_strings.now) (line_text self.now) }
        ensures { result.now
            ≡ bytes_in (texts_in strings.now line_strings.now) (line_text self.now) }
    {
        match self {
            LineString::String(text) => text.as_slice(),
            LineString::StringRef(id) => strings.get(*id),
            LineString::LineStringRef(id) => line_strings.get(*id),
        }
    }
}

/// Whether none of these bytes is zero.
fn has_no_zero(bytes: &[u8]) -> bool
    ensures { IsTrue result ↔ All (λ b. b ≢ 0) bytes.now }
{
    bytes.iter().all(|byte| *byte != 0)
}

impl Clone for LineString {
    ghost use Rattle.gimli_build.specs.LineText.{line_text};

    ghost is_clone = { λ text copy. line_text copy ≡ line_text text };

    fn clone(&self) -> std::result::Result<LineString, AllocError> {
        match self {
            LineString::String(text) => Ok(LineString::String(text.clone()?)),
            LineString::StringRef(id) => Ok(LineString::StringRef(*id)),
            LineString::LineStringRef(id) => Ok(LineString::LineStringRef(*id)),
        }
    }
}
