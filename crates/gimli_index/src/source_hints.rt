//! Which source a file of a unit may have, so that few are looked for in vain.

ghost use Rattle.std.specs.Prelude.{◌≡◌};

use gimli_core::Reader;
use gimli_lookup::{SectionLookup, UnitLookup};
use std::alloc::{AllocError, Global};

/// Says that a file has no source yet.
const NONE: u32 = 0xffff_ffff;

/// For each file of each unit the number of a source. Nothing rests on what it says.
#[derive(Drop)]
pub(crate) struct SourceHints {
    /// Where the files of each unit begin among the numbers.
    firsts: Vec<usize>,
    numbers: Vec<u32>,
}

/// How many files a unit has, and one more for those that it doesn't have.
fn file_count<R: Reader>(unit: &UnitLookup<R>) -> usize {
    match unit.header() {
        Some(header) => header.file_names().len().saturating_add(2),
        None => 1,
    }
}

impl SourceHints {
    /// No source yet for the files of these units.
    pub(crate) fn new<R: Reader>(
        alloc: Global,
        lookup: &SectionLookup<R>,
    ) -> Result<SourceHints, AllocError> {
        let mut firsts = Vec::new(alloc);
        let mut count: usize = 0;
        for unit in lookup.units() {
            firsts.push(count)?;
            count = count.saturating_add(file_count(unit));
        }
        firsts.push(count)?;
        let mut numbers = Vec::new(alloc);
        for _ in 0..count {
            numbers.push(NONE)?;
        }
        Ok(SourceHints { firsts, numbers })
    }

    /// Where the number of a file stands.
    #[inline(always)]
    fn slot(&self, unit: usize, file: u64) -> Option<usize> {
        let first = *self.firsts.get(unit)?;
        let end = *self.firsts.get(unit.checked_add(1)?)?;
        let last = end.checked_sub(1)?;
        Some(first.saturating_add(file as usize).min(last))
    }

    /// The number of the source that a file may have.
    #[inline(always)]
    pub(crate) fn get(&self, unit: usize, file: u64) -> Option<u32> {
        let slot = self.slot(unit, file)?;
        self.numbers.get(slot).copied()
    }

    /// Remembers the number of a file's source.
    pub(crate) fn set(&mut self, unit: usize, file: u64, number: u32) {
        let Some(slot) = self.slot(unit, file) else {
            return;
        };
        if slot < self.numbers.len() {
            self.numbers[slot] = number;
        }
    }
}
