//! The strings of a section, each found without a second search for an end that is known.

use gimli_core::{Reader, ReaderOffset};
use lines_inputs::Result;
use std::alloc::Global;
use std::collections::BTreeMap;

/// The strings of a section. Several may end with one zero byte, which is searched for once.
#[derive(Drop)]
pub(crate) struct SectionStrings<R: Reader> {
    section: R,
    /// Where bytes begin that aren't zero up to the end that is known for them: their zero byte, or
    /// the end of the section.
    ends: BTreeMap<u64, u64>,
}

/// The bytes of a section from an offset up to another; None where it has none there.
fn part<R: Reader>(section: R, start: u64, end: u64) -> Option<R> {
    let length = end.checked_sub(start)?;
    let mut part = section;
    part.skip(R::Offset::from_u64(start).ok()?).ok()?;
    part.truncate(R::Offset::from_u64(length).ok()?).ok()?;
    Some(part)
}

/// How many bytes stand before the first zero byte; None where there is none.
fn zero_in<R: Reader>(bytes: Option<R>) -> Option<u64> {
    let found = bytes?.find(0).ok()?;
    Some(found.into_u64())
}

impl<R: Reader> SectionStrings<R> {
    /// The strings of a section, of which no end is known.
    pub(crate) fn new(alloc: Global, section: R) -> SectionStrings<R> {
        SectionStrings {
            section,
            ends: BTreeMap::new(alloc),
        }
    }

    /// The string at an offset, without its zero byte; None where the section has none there.
    pub(crate) fn at(&mut self, offset: R::Offset) -> Result<Option<R>> {
        let (start, length) = (offset.into_u64(), self.section.len().into_u64());
        if start >= length {
            return Ok(None);
        }
        let end = self.end_of(start, length)?;
        if end >= length {
            return Ok(None);
        }
        Ok(part(self.section, start, end))
    }

    /// Where the first zero byte is from an offset on, in a section of this length; its length
    /// where there is none.
    fn end_of(&mut self, start: u64, length: u64) -> Result<u64> {
        if let Some(end) = self.known_end(start) {
            return Ok(end);
        }
        let next = self.next_known(start);
        let (limit, known) = next.unwrap_or((length, length));
        let end = match zero_in(part(self.section, start, limit)) {
            Some(distance) => start.saturating_add(distance),
            None => {
                self.ends.remove(&limit);
                known
            }
        };
        self.ends.insert(start, end)?;
        Ok(end)
    }

    /// The end that is known for the bytes at an offset.
    fn known_end(&self, start: u64) -> Option<u64> {
        let (_, end) = self.ends.range(..=start).next_back()?;
        if start <= *end { Some(*end) } else { None }
    }

    /// Where the first bytes whose end is known begin, from an offset on, and that end.
    fn next_known(&self, start: u64) -> Option<(u64, u64)> {
        let (first, end) = self.ends.range(start..).next()?;
        Some((*first, *end))
    }
}
