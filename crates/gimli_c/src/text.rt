//! Texts that are handed over.

ghost use Rattle.std.specs.Prelude.{◌≡◌, ◌≢◌, ◌≤◌, All, Any, IfNone, IfSome, MatchBool};
ghost use Rattle.gimli_build.specs.LineText.{Inline, line_text, HasNoZero, IsNotEmpty};
ghost use Rattle.gimli_c.specs.Causes.{HasTextFault, StandsAmong};
ghost use Rattle.gimli_c.specs.inside.Causes.{HasNone};
ghost use Rattle.gimli_c.specs.Handed.{IsRefusal, text_handed};

use crate::status::{EMPTY_TEXT, TEXT_OUT_OF_BOUNDS, ZERO_IN_TEXT};
use gimli_build::LineString;
use std::alloc::Global;

/// A text among the bytes of texts that are handed over.
#[repr(C)]
#[derive(Clone, Copy)]
pub struct GimliName {
    /// Where it begins.
    pub first: u64,
    /// How many bytes it has.
    pub size: u64,
}

/// Why a text is refused in a program of this version, by its number; none where it isn't. No text
/// has a zero byte, and up to version 4 none is empty.
pub(crate) fn text_fault(version: u16, texts: &[u8], name: GimliName) -> Option<u32>
    ensures some { IfSome result (HasTextFault version texts.now name) }
    ensures number { IfSome result IsRefusal }
    ensures none { IfNone result (HasNone (HasTextFault version texts.now name)) }
    ensures stands { IfNone result (StandsAmong texts.now name) }
    ensures no_zero { IfNone result (All (λ b. b ≢ 0) (text_handed texts.now name)) }
    ensures not_empty { IfNone result (version ≤ 4 → name.size ≢ 0) }
{
    let count = texts.len() as u64;
    if name.first > count || name.size > count - name.first {
        return Some(TEXT_OUT_OF_BOUNDS);
    }
    if has_zero(&texts[name.first as usize..(name.first + name.size) as usize]) {
        return Some(ZERO_IN_TEXT);
    }
    if version <= 4 && name.size == 0 {
        return Some(EMPTY_TEXT);
    }
    None
}

/// A text of a program of this version; none where memory lacks, or the text is refused.
pub(crate) fn text_of(
    alloc: Global,
    version: u16,
    texts: &[u8],
    name: GimliName,
) -> Option<LineString>
    ensures ok { IfSome result (λ text. line_text text ≡ Inline (text_handed texts.now name)) }
    ensures no_zero { IfSome result (λ text. HasNoZero (line_text text)) }
    ensures not_empty { IfSome result (λ text. version ≤ 4 → IsNotEmpty (line_text text)) }
{
    match text_fault(version, texts, name) {
        Some(_) => return None,
        None => {}
    }
    let bytes = &texts[name.first as usize..(name.first + name.size) as usize];
    match bytes.to_vec(alloc) {
        Ok(copy) => Some(LineString::String(copy)),
        Err(_) => None,
    }
}

/// Whether one of these bytes is zero.
fn has_zero(bytes: &[u8]) -> bool
    ensures { MatchBool result (Any (λ b. b ≡ 0) bytes.now) (All (λ b. b ≢ 0) bytes.now) }
{
    bytes.iter().any(|byte| *byte == 0)
}
