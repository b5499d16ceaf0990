//! The texts of a section, and where they end: each byte of the section is searched for an end
//! once.

ghost use Rattle.std.specs.Prelude.{◌+◌, ◌≡◌, ◌≤◌, ℕ, IfErr, IfOk, IfSome, OnErr, OnOk, Some, drop};
ghost use Rattle.std.specs.Prelude.{if◌then◌else◌, length, nat_eq, take};
ghost use Rattle.std.specs.BTreeMap.{get};
ghost use Rattle.std.specs.Ordering.{nat_cmp};
ghost use Rattle.gimli_core.specs.Reading.{result_map, text_at};
ghost use Rattle.gimli_compilation.specs.inside.TextEnds.{AreEnds, text_size};
ghost use Rattle.gimli_compilation.specs.Unit.{text_production};

use crate::abbreviation::MemoryResult;
use gimli_core::{Error, Reader, ReaderOffset, ReaderOffsetId, Result};
use std::alloc::Global;
use std::collections::BTreeMap;
use std::marker::Model;

/// The bytes of a section from an offset on, where a text begins. Refused by `UnexpectedEof` where
/// the section ends before the offset, and by `UnsupportedOffset` where the offset type is too
/// narrow.
#[tactic(auto, unfolding(crate::specs::Unit::text_production))]
fn text_start<R: Reader>(section: &R, offset: u64) -> Result<R>
    ensures ok { IfOk result (λ input. (text_at (R.seen input).bytes).0
        ≡ ((text_production R.Offset.limit offset).read (R.seen section.now).bytes).0) }
    ensures rest { IfOk result (λ input.
        (R.seen input).bytes ≡ drop offset (R.seen section.now).bytes) }
    ensures err { IfErr result (λ e. Err e
        ≡ ((text_production R.Offset.limit offset).read (R.seen section.now).bytes).0) }
{
    let mut input = *section;
    let offset = R::Offset::from_u64(offset)?;
    input.split(offset)?;
    Ok(input)
}

/// How many bytes stand before the first zero byte.
fn searched_size<R: Reader>(input: &R) -> R::Offset
    ensures { R.Offset.number result ≡ text_size (R.seen input.now).bytes }
{
    match input.find(0) {
        Ok(size) => size,
        Err(_) => input.len(),
    }
}

/// A number of bytes that is known to stand before the first zero byte.
fn known_size<R: Reader>(input: &R, size: u64) -> R::Offset
    requires { size ≡ text_size (R.seen input.now).bytes }
    ensures { R.Offset.number result ≡ text_size (R.seen input.now).bytes }
{
    match R::Offset::from_u64(size) {
        Ok(size) => size,
        Err(_) => searched_size(input),
    }
}

/// The first `count` bytes.
fn front_of<R: Reader>(input: &R, count: u64) -> Result<R>
    ensures bytes { IfOk result (λ front.
        (R.seen front).bytes ≡ take count (R.seen input.now).bytes) }
    ensures within { IfOk result (λ _. count ≤ length (R.seen input.now).bytes) }
{
    let count = R::Offset::from_u64(count)?;
    let mut front = *input;
    front.truncate(count)?;
    Ok(front)
}

/// How many bytes come before the first zero byte, where `size` is this number if none of the first
/// `gap` bytes is zero.
fn size_before<R: Reader>(input: &R, gap: u64, size: u64) -> R::Offset
    requires { size ≡ gap + text_size (drop gap (R.seen input.now).bytes) }
    ensures { R.Offset.number result ≡ text_size (R.seen input.now).bytes }
{
    match front_of(input, gap) {
        Ok(front) => match front.find(0) {
            Ok(size) => size,
            Err(_) => known_size(input, size),
        },
        Err(_) => searched_size(input),
    }
}

/// The text that ends after so many bytes. Refused by `UnexpectedEof` where no zero byte stands
/// there.
fn cut<R: Reader>(input: R, size: R::Offset) -> Result<R>
    requires { R.Offset.number size ≡ text_size (R.seen input).bytes }
    ensures { result_map (λ r. (R.seen r).bytes) result ≡ (text_at (R.seen input).bytes).0 }
{
    let mut rest = input;
    let text = rest.split(size)?;
    if rest.is_empty() {
        return Err(Error::UnexpectedEof(ReaderOffsetId(size.into_u64())));
    }
    Ok(text)
}

/// The first end at an offset or after it, and from where on it is known.
fn next_end(ends: &BTreeMap<u64, u64>, offset: u64) -> Option<(u64, u64)>
    ensures after { IfSome result (λ found. offset ≤ found.0) }
    ensures kept { IfSome result (λ found. get nat_cmp ends.now found.0 ≡ Some found.1) }
{
    match ends.range(offset..).next() {
        Some((end, start)) => Some((*end, *start)),
        None => None,
    }
}

/// Keeps an end, and from where on it is known. Nothing is changed where it fails.
fn keep_end(ends: &mut BTreeMap<u64, u64>, end: u64, start: u64) -> MemoryResult<()>
    ensures ok { OnOk result ((place : ℕ) → get nat_cmp ends.new place
        ≡ (if nat_eq end place then Some start else get nat_cmp ends.old place)) }
    ensures err { OnErr result (ends.new.entries ≡ ends.old.entries) }
{
    ends.insert(end, start)?;
    Ok(())
}

/// A section of texts, and where the texts that were read end.
#[derive(Drop)]
pub(crate) struct Texts<R: Reader> {
    section: R,
    /// For the offset of each end that was found, be it a zero byte or the end of the section: an
    /// offset from which on no zero byte comes before that end.
    ends: BTreeMap<u64, u64>,
}

impl<R: Reader> Model for Texts<R> {
    ghost use Rattle.std.specs.Prelude.{ℕ, List};

    ghost Value = { List ℕ };

    ghost view = { λ a. (R.seen a.section).bytes };

    ghost use Rattle.gimli_compilation.specs.inside.TextEnds.{AreEnds};

    ghost invariant = { λ a. AreEnds (R.seen a.section).bytes a.ends };
}

impl<R: Reader> Texts<R> {
    ghost use Rattle.std.specs.Prelude.{◌≡◌, drop, IfOk};
    ghost use Rattle.gimli_core.specs.Reading.{result_map};
    ghost use Rattle.gimli_compilation.specs.inside.TextEnds.{text_size};
    ghost use Rattle.gimli_compilation.specs.Unit.{text_production};

    /// The texts of a section, of which none was read.
    pub(crate) fn new(alloc: Global, section: &R) -> Self
        ensures { result ≡ (R.seen section.now).bytes }
    {
        Texts {
            section: *section,
            ends: BTreeMap::new(alloc),
        }
    }

    /// The text that begins at an offset of the section. Refused by `UnexpectedEof` where the
    /// section ends before the offset or before the zero byte of the text, and by
    /// `UnsupportedOffset` where the offset type is too narrow.
    pub(crate) fn text(&mut self, offset: u64) -> MemoryResult<Result<R>>
        ensures same { self.new ≡ self.old }
        ensures read { IfOk result (λ text. result_map (λ r. (R.seen r).bytes) text
            ≡ ((text_production R.Offset.limit offset).read self.old).0) }
    {
        let input = match text_start(&self.section, offset) {
            Ok(input) => input,
            Err(error) => return Ok(Err(error)),
        };
        let size = self.size_at(offset, &input)?;
        Ok(cut(input, size))
    }

    /// How many bytes stand before the first zero byte at an offset or after it.
    fn size_at(&mut self, offset: u64, input: &R) -> MemoryResult<R::Offset>
        requires { (R.seen input.now).bytes ≡ drop offset self.old }
        ensures same { self.new ≡ self.old }
        ensures size { IfOk result
            (λ size. R.Offset.number size ≡ text_size (R.seen input.now).bytes) }
    {
        let size = match next_end(&self.ends, offset) {
            Some((end, start)) => {
                if start <= offset {
                    return Ok(known_size(input, end - offset));
                }
                size_before(input, start - offset, end - offset)
            }
            None => searched_size(input),
        };
        if let Some(end) = offset.checked_add(size.into_u64()) {
            keep_end(&mut self.ends, end, offset)?;
        }
        Ok(size)
    }
}
