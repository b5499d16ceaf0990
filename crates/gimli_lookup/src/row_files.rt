//! Which files the rows of a unit have.

ghost use Rattle.std.specs.Prelude.{◌≡◌, ◌<◌, ◌==◌, length, slice_index_or};
ghost use Rattle.gimli_lookup.specs.RowFiles.{has_file, have_file, AreMarked};
ghost use Rattle.gimli_lookup.specs.Section.{KeptUnit};

use crate::kept_rows::KeptRows;
use crate::section_lookup::SectionLookup;
use gimli_core::Reader;

/// Marks a number; one past the marks isn't marked.
fn mark(number: u64, marks: &mut [bool])
    ensures { AreMarked (λ n. number == n) marks.old marks.new }
{
    if number < marks.len() as u64 {
        marks[number as usize] = true;
    }
}

/// Marks the files that the rows of one sequence have.
fn mark_in(rows: &KeptRows, marks: &mut [bool])
    ensures { AreMarked (has_file rows.now) marks.old marks.new }
{
    for index in 0..rows.len() {
        let row = rows.row(index);
        mark(row.file_index(), marks);
    }
}

/// Marks the files that the rows of sequences have.
fn mark_of(sequences: &[KeptRows], marks: &mut [bool])
    ensures { AreMarked (have_file sequences.now) marks.old marks.new }
{
    for rows in sequences {
        mark_in(rows, marks);
    }
}

impl<R: Reader> SectionLookup<R> {
    /// Marks the files that the rows of a unit have, by their numbers: of each number below the
    /// length of `marks`, its mark is set where it was set before, or where a row has this file.
    /// Requires an index of a unit.
    pub fn mark_files(&self, unit: usize, marks: &mut [bool])
        requires { unit < length self.now }
        ensures { (d : KeptUnit) → AreMarked
            (have_file (slice_index_or self.now unit d).sequences) marks.old marks.new }
    {
        mark_of(self.sequences_of(unit), marks);
    }
}
