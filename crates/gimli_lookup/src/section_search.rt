//! The rows that cover some addresses, found while the units of a section are run once.

ghost use Rattle.std.specs.Prelude.{◌≡◌, None, IfErr, IfOk, IsTrue};
ghost use Rattle.gimli_core.specs.Numbers.{is_address_size};
ghost use Rattle.gimli_line.specs.header.Header.{unit_entry};
ghost use Rattle.gimli_line.specs.run.Unread.{unread_of};
ghost use Rattle.gimli_lookup.specs.Program.{need_at, some_found_need};
ghost use Rattle.gimli_lookup.specs.SectionSearch.{AreFoundInSection};
ghost use Rattle.gimli_lookup.specs.Strings.{strings};

use crate::covering_pairs::first_of_each;
use crate::program_paths::ProgramPaths;
use crate::section_lookup::{CoveringRows, push};
use crate::section_unit::UnitLookup;
use gimli_core::{Error, Reader, ReaderOffset, Result};
use gimli_line::DebugLine;
use std::alloc::Global;

/// What [`find_in_section`] finds.
#[derive(Drop)]
#[derive_where(Debug; R, R::Offset)]
pub struct FoundRows<R: Reader> {
    /// The units of the section, in order. A unit that has none of the found rows, and whose run
    /// has no fault, has no header here.
    pub units: Vec<UnitLookup<R>>,
    /// For each address the first rows that cover it, and the index of their unit. None where no
    /// rows cover it.
    pub rows: Vec<Option<CoveringRows>>,
}

/// Whether the path of what is found at an address needs the directory of its compilation. Where no
/// rows are found, there is no path.
fn needs_compilation<R: Reader>(
    paths: &ProgramPaths<R>,
    units: &[UnitLookup<R>],
    found: &Option<CoveringRows>,
) -> bool
    ensures { result ≡ need_at (strings R.seen paths.now.0) units.now found.now }
{
    match found {
        Some(rows) => paths.found_needs(units, rows),
        None => false,
    }
}

/// Whether one of the paths of what is found at some addresses needs the directory of its
/// compilation.
fn some_need_compilation<R: Reader>(
    paths: &ProgramPaths<R>,
    units: &[UnitLookup<R>],
    rows: &[Option<CoveringRows>],
) -> bool
    ensures { result ≡ some_found_need (strings R.seen paths.now.0) units.now rows.now }
{
    for found in rows {
        if needs_compilation(paths, units, found) {
            return true;
        }
    }
    false
}

impl<R: Reader> FoundRows<R> {
    /// Whether the path of some of the found rows may begin with a directory that is in
    /// `.debug_info`, as `ProgramPaths::found_needs` says of each. If not, `ProgramPaths::of_found`
    /// returns the same for all of them whatever compilations are set. Takes no memory.
    pub fn need_compilations(&self, paths: &ProgramPaths<R>) -> bool
        ensures { result ≡ some_found_need (strings R.seen paths.now.0)
            self.now.units.items self.now.rows.items }
    {
        some_need_compilation(paths, &self.units, &self.rows)
    }
}

/// What `SectionLookup::find` returns at each of some addresses, found while the program of each
/// unit runs once. Use it for few addresses, since it keeps no other rows. Fails only with
/// `OutOfMemory`. Requires an address size of 1, 2, 4 or 8 bytes, which only units up to version 4
/// use.
pub fn find_in_section<R: Reader>(
    section: &DebugLine<R>,
    alloc: Global,
    address_size: u8,
    lowest: u64,
    addresses: &[u64],
) -> Result<FoundRows<R>>
    requires { IsTrue (is_address_size address_size) }
    ensures ok { IfOk result (λ found. AreFoundInSection
        (unread_of R.seen R.Offset.limit section.now)
        (unit_entry R.seen address_size None None) lowest addresses.now
        found.units.items found.rows.items) }
    ensures err { IfErr result (λ e. e ≡ Error.OutOfMemory) }
{
    let mut units = Vec::new(alloc);
    let mut pairs = Vec::new(alloc);
    let mut walk = section.units(alloc, address_size);
    'units: while let Some(next) = walk.next()? {
        let unit = UnitLookup::search(
            alloc,
            next.offset,
            next.program,
            units.len(),
            lowest,
            addresses,
            &mut pairs,
        )?;
        push(&mut units, unit)?;
    }
    let rows = first_of_each(alloc, addresses, &pairs)?;
    Ok(FoundRows { units, rows })
}
