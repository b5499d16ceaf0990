//! How many rows are kept of a unit.

ghost use Rattle.std.specs.Prelude.{◌≡◌, ◌<◌, ◌-◌, ◌^◌, length, min, slice_index_or, sum_by};
ghost use Rattle.gimli_lookup.specs.Section.{KeptUnit};

use crate::kept_rows::KeptRows;
use crate::section_lookup::SectionLookup;
use gimli_core::Reader;

/// How many rows sequences have, up to the greatest number of 64 bits.
fn count_of(sequences: &[KeptRows]) -> u64
    ensures { result ≡ min (sum_by length sequences.now) (2 ^ 64 - 1) }
{
    let mut count: u64 = 0;
    for rows in sequences {
        count = count.saturating_add(rows.len() as u64);
    }
    count
}

impl<R: Reader> SectionLookup<R> {
    /// How many rows are kept of a unit, up to the greatest number of 64 bits: those of its
    /// sequences, with their end rows, but for those that are left out. Requires an index of a
    /// unit.
    pub fn row_count(&self, unit: usize) -> u64
        requires { unit < length self.now }
        ensures { (d : KeptUnit) → result
            ≡ min (sum_by length (slice_index_or self.now unit d).sequences) (2 ^ 64 - 1) }
    {
        count_of(self.sequences_of(unit))
    }
}
