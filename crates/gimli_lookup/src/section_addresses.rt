//! From a line of a path to addresses, over the units of a section.

ghost use Rattle.std.specs.Prelude.{◌≡◌, ◌<◌, ◌==◌, ℕ, IfErr, IfOk, length, nat_eq, slice_index_or};
ghost use Rattle.std.specs.List.{list_any};
ghost use Rattle.gimli_lookup.specs.ProgramPaths.{texts_seen};
ghost use Rattle.gimli_lookup.specs.Section.{KeptUnit};
ghost use Rattle.gimli_lookup.specs.SectionAddresses.{
  unit_has_path,
  unit_addresses,
  addresses_of_path,
};
ghost use Rattle.gimli_lookup.specs.Statements.{addresses_of, AreAddressesFrom};
ghost use Rattle.gimli_lookup.specs.inside.Statements.{is_among, AreCollectedFrom};

use crate::path_files::files_with_path;
use crate::program_paths::ProgramPaths;
use crate::section_lookup::SectionLookup;
use crate::section_unit::UnitLookup;
use crate::statements::{Addresses, addresses_from, collect_from, in_order, join_addresses};
use gimli_core::{Error, Reader, Result};
use std::alloc::Global;

/// The indices of the files of a unit that have a whole path. Fails only with `OutOfMemory`.
fn unit_files<R: Reader>(
    alloc: Global,
    unit: &UnitLookup<R>,
    paths: &ProgramPaths<R>,
    path: &[u8],
) -> Result<Vec<u64>>
    ensures ok { IfOk result (λ files. (i : ℕ) → is_among files.items i
        ≡ unit_has_path (texts_seen R.seen paths.now) path.now unit.now i) }
    ensures err { IfErr result (λ e. e ≡ Error.OutOfMemory) }
{
    match unit.header() {
        Some(header) => files_with_path(alloc, header, paths, path),
        None => Ok(Vec::new(alloc)),
    }
}

impl<R: Reader> SectionLookup<R> {
    /// The addresses for a breakpoint at a line of a file of one unit, by the file's index in the
    /// unit's header: from each run of adjacent rows of that line in a sequence, the address of the
    /// first row with `is_stmt` (DWARF 5, section 6.2.2); in ascending order, each once. If the
    /// line has none, those of the next line that has; None if no line from it on has any. Fails
    /// only with `OutOfMemory`. Requires an index of a unit.
    pub fn addresses_of_file(&self, unit: usize, file: u64, line: u64) -> Result<Option<Addresses>>
        requires { unit < length self.now }
        ensures ok { (d : KeptUnit) → IfOk result (AreAddressesFrom
            (addresses_of (nat_eq file) (slice_index_or self.now unit d).sequences) line) }
        ensures err { IfErr result (λ e. e ≡ Error.OutOfMemory) }
    {
        addresses_from(self.allocator(), self.sequences_of(unit), &[file], line)
    }

    /// The addresses for a breakpoint at a line of several files of one unit, by their numbers: as
    /// `addresses_of_file` gives them, where these count as one file. Fails only with
    /// `OutOfMemory`. Requires an index of a unit.
    pub fn addresses_of_files(
        &self,
        unit: usize,
        files: &[u64],
        line: u64,
    ) -> Result<Option<Addresses>>
        requires { unit < length self.now }
        ensures ok { (d : KeptUnit) → IfOk result (AreAddressesFrom
            (addresses_of (λ file. list_any (λ n. n == file) files.now)
            (slice_index_or self.now unit d).sequences) line) }
        ensures err { IfErr result (λ e. e ≡ Error.OutOfMemory) }
    {
        addresses_from(self.allocator(), self.sequences_of(unit), files, line)
    }

    /// The addresses for a breakpoint at a line of the files that have a whole path, over all
    /// units: as `addresses_of_file` gives them, those of all units together in ascending order,
    /// each once. The line is the first from the asked one on that has an address in any unit.
    /// Skips a file that has no path, and a unit that was refused. Fails only with `OutOfMemory`.
    pub fn addresses_of(
        &self,
        paths: &ProgramPaths<R>,
        path: &[u8],
        line: u64,
    ) -> Result<Option<Addresses>>
        ensures ok { IfOk result (AreAddressesFrom
            (addresses_of_path (texts_seen R.seen paths.now) path.now self.now) line) }
        ensures err { IfErr result (λ e. e ≡ Error.OutOfMemory) }
    {
        let mut found = None;
        for unit in 0..self.units().len() {
            found = join_addresses(found, self.unit_addresses(unit, paths, path, line)?)?;
        }
        Ok(in_order(found))
    }

    /// The unit at an index.
    fn unit_at(&self, unit: usize) -> &UnitLookup<R>
        requires { unit < length self.now }
        ensures { (d : KeptUnit) → result.now ≡ (slice_index_or self.now unit d).unit }
    {
        &self.units()[unit]
    }

    /// Collects those in one unit, before they are put in order.
    fn unit_addresses(
        &self,
        unit: usize,
        paths: &ProgramPaths<R>,
        path: &[u8],
        line: u64,
    ) -> Result<Option<Addresses>>
        requires { unit < length self.now }
        ensures ok { (d : KeptUnit) → IfOk result (AreCollectedFrom (unit_addresses
            (texts_seen R.seen paths.now) path.now (slice_index_or self.now unit d)) line) }
        ensures err { IfErr result (λ e. e ≡ Error.OutOfMemory) }
    {
        let files = unit_files(self.allocator(), self.unit_at(unit), paths, path)?;
        collect_from(self.allocator(), self.sequences_of(unit), &files, line)
    }
}
