//! A program: from its addresses to places, and from its lines to addresses.

ghost use Rattle.std.specs.Prelude.{◌≡◌, ◌≢◌, [], Err, IfErr, IfOk, IsTrue, MatchOption, None, Ok};
ghost use Rattle.std.specs.Prelude.{IfSome, Some, option_map};
ghost use Rattle.gimli_core.specs.Numbers.{is_address_size};
ghost use Rattle.gimli_line.specs.header.Header.{unit_entry};
ghost use Rattle.gimli_line.specs.run.Unread.{unread_of};
ghost use Rattle.gimli_lookup.specs.Program.{found_needs, header_of_found, listed, some_need};
ghost use Rattle.gimli_lookup.specs.ProgramPaths.{found_path, texts_seen};
ghost use Rattle.gimli_lookup.specs.Section.{found_at};
ghost use Rattle.gimli_lookup.specs.SectionAddresses.{addresses_of_path};
ghost use Rattle.gimli_lookup.specs.SectionUnits.{AreUnitsOf};
ghost use Rattle.gimli_lookup.specs.Statements.{AreAddressesFrom};
ghost use Rattle.gimli_lookup.specs.Strings.{strings};
ghost use Rattle.gimli_lookup.specs.declared.path_error.PathError.TheVariants.{OutOfMemory};

use crate::path_error::PathError;
use crate::program_paths::ProgramPaths;
use crate::section_lookup::{CoveringRows, SectionLookup};
use crate::statements::Addresses;
use crate::string_sections::StringSections;
use gimli_compilation::Compilations;
use gimli_core::{Error, Reader};
use gimli_line::{DebugLine, LineProgramHeader};
use std::alloc::Global;

/// Where the code at an address of a [`Program`] comes from.
///
/// <!-- part of crates/uses/src/where_is.rt -->
/// ```rust
/// let path = place.path(alloc)?;
/// Ok(Some((path, place.rows.row)))
/// ```
#[derive(Drop)]
pub struct Place<'p, R: Reader> {
    program: &'p Program<R>,
    /// The rows that cover the address, and the index of their unit.
    pub rows: CoveringRows,
}

impl<R: Reader> Place<'_, R> {
    /// The header of the unit that the rows are of. None where it isn't known.
    pub fn header(&self) -> Option<&LineProgramHeader<R>>
        ensures { option_map (λ h. record { meaning = h.now.meaning; layout = h.now.layout }) result
            ≡ header_of_found self.now.program.now.lookup self.now.rows }
    {
        let units = self.program.lookup.units();
        units.get(self.rows.unit)?.header()
    }

    /// The whole path of the row's file, which is made by this call alone. Refused as
    /// `ProgramPaths::of_found` is.
    pub fn path(&self, alloc: Global) -> Result<Vec<u8>, PathError>
        ensures ok { let program = self.now.program.now in IfOk result (λ path. found_path
            (texts_seen R.seen program.paths) (listed program.lookup) self.now.rows
            ≡ Ok path.items) }
        ensures err { let program = self.now.program.now in IfErr result (λ e. e ≢ OutOfMemory
            → found_path (texts_seen R.seen program.paths) (listed program.lookup) self.now.rows
            ≡ Err e) }
    {
        let Program { lookup, paths } = self.program;
        paths.of_found(alloc, lookup.units(), &self.rows)
    }

    /// Whether the path may begin with a directory that is in `.debug_info`, as
    /// `ProgramPaths::found_needs` says of the rows. If not, it is the same whatever compilations
    /// are set. Takes no memory.
    pub fn needs_compilation(&self) -> bool
        ensures { let program = self.now.program.now in result ≡ found_needs
            (strings R.seen program.paths.0) (listed program.lookup) self.now.rows }
    {
        let Program { lookup, paths } = self.program;
        paths.found_needs(lookup.units(), &self.rows)
    }
}

/// What is kept of the sections of a program: the rows of its line programs, and what the whole
/// paths of their files are made of (DWARF 5, sections 6.2 and 7.26).
///
/// Up to version 4 the directory of a compilation, which relative paths start from, is in
/// `.debug_info` alone (DWARF 4, section 3.1.1). Ask `needs_compilations` before you read or
/// decompress that section, or `Place::needs_compilation` of the places whose paths you need; if it
/// returns true, pass the directories to `set_compilations`.
///
/// <!-- part of crates/uses/src/where_is.rt -->
/// ```rust
/// let Some(place) = program.place(address) else {
///     return Ok(None);
/// };
/// let path = place.path(alloc)?;
/// ```
#[derive(Drop)]
pub struct Program<R: Reader> {
    lookup: SectionLookup<R>,
    paths: ProgramPaths<R>,
}

impl<R: Reader> Program<R> {
    /// Runs the line programs of a section, as `SectionLookup::new` does. Its paths are made of
    /// these sections of strings; no compilation is known yet. The rows below the address `lowest`
    /// are left out; 0 leaves none out. Fails only with `OutOfMemory`. Requires an address size of
    /// 1, 2, 4 or 8 bytes, which only units up to version 4 use.
    pub fn new(
        alloc: Global,
        section: &DebugLine<R>,
        strings: StringSections<R>,
        address_size: u8,
        lowest: u64,
    ) -> Result<Program<R>, Error>
        requires { IsTrue (is_address_size address_size) }
        ensures units { IfOk result (λ program.
            AreUnitsOf (unread_of R.seen R.Offset.limit section.now)
            (unit_entry R.seen address_size None None) lowest program.lookup) }
        ensures paths { IfOk result (λ program. program.paths ≡ (strings, [])) }
        ensures err { IfErr result (λ e. e ≡ Error.OutOfMemory) }
    {
        let lookup = SectionLookup::new(section, alloc, address_size, lowest)?;
        let Ok(paths) = ProgramPaths::new(strings) else {
            return Err(Error::OutOfMemory);
        };
        Ok(Program { lookup, paths })
    }

    /// Whether the path of some file may begin with a directory that is in `.debug_info`: a unit
    /// has no directory of its compilation, or an empty one. If not, every path is the same
    /// whatever compilations are set. Takes no memory.
    pub fn needs_compilations(&self) -> bool
        ensures { result ≡ some_need (strings R.seen self.now.paths.0) self.now.lookup }
    {
        self.lookup
            .units()
            .iter()
            .any(|unit| self.paths.unit_needs(unit))
    }

    /// From now on, paths use the directories of these compilations.
    pub fn set_compilations(&mut self, compilations: Compilations<R>)
        ensures { self.new ≡ record self.old { paths = (self.old.paths.0, compilations) } }
    {
        self.paths.set_compilations(compilations);
    }

    /// The place of the code at an address: the rows that `SectionLookup::find` finds. None where
    /// no rows cover the address. Takes no memory.
    #[inline(always)]
    pub fn place(&self, address: u64) -> Option<Place<'_, R>>
        ensures rows { option_map (λ place. place.rows) result ≡ found_at address self.now.lookup }
        ensures program { IfSome result (λ place. place.program.now ≡ self.now) }
    {
        let rows = self.lookup.find(address)?;
        Some(Place {
            program: self,
            rows,
        })
    }

    /// The addresses for a breakpoint at a line of the files that have a whole path, as
    /// `SectionLookup::addresses_of` gives them. Fails only with `OutOfMemory`.
    pub fn addresses_of(&self, path: &[u8], line: u64) -> Result<Option<Addresses>, Error>
        ensures ok { IfOk result (AreAddressesFrom (addresses_of_path
            (texts_seen R.seen self.now.paths) path.now self.now.lookup) line) }
        ensures err { IfErr result (λ e. e ≡ Error.OutOfMemory) }
    {
        self.lookup.addresses_of(&self.paths, path, line)
    }

    /// The rows of the line programs, by which the ranges of addresses are found too.
    pub fn lookup(&self) -> &SectionLookup<R>
        ensures { result.now ≡ self.now.lookup }
    {
        &self.lookup
    }

    /// The whole paths of the files.
    pub fn paths(&self) -> &ProgramPaths<R>
        ensures { result.now ≡ self.now.paths }
    {
        &self.paths
    }

    /// The allocator of what is kept.
    pub fn allocator(&self) -> Global {
        self.lookup.allocator()
    }
}
