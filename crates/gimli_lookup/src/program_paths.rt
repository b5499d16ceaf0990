//! The whole paths of the files of a program.

ghost use Rattle.std.specs.Prelude.{◌≡◌, ◌≢◌, [], Err, IfErr, IfOk, Ok};
ghost use Rattle.gimli_compilation.specs.Directories.{directory_for};
ghost use Rattle.gimli_line.specs.header.File.{file_seen};
ghost use Rattle.gimli_lookup.specs.PathFiles.{paths_of};
ghost use Rattle.gimli_lookup.specs.Paths.{file_path, needs_directory, row_path};
ghost use Rattle.gimli_lookup.specs.Program.{found_needs, unit_needs};
ghost use Rattle.gimli_lookup.specs.ProgramPaths.{found_path, texts_seen, unit_paths};
ghost use Rattle.gimli_lookup.specs.Strings.{strings};
ghost use Rattle.gimli_lookup.specs.declared.path_error.PathError.TheVariants.{OutOfMemory};

use crate::ended_strings::EndedStrings;
use crate::path_error::PathError;
use crate::section_lookup::CoveringRows;
use crate::section_unit::UnitLookup;
use crate::string_sections::StringSections;
use gimli_compilation::Compilations;
use gimli_core::{Reader, ReaderOffset};
use gimli_line::{FileEntry, LineProgramHeader, LineRow};
use std::alloc::{AllocError, Global};
use std::marker::Model;

/// The whole paths of the files of a program: what [`Paths`](crate::Paths) gives for the header of
/// each of its units, by the directory of its compilation (`DW_AT_comp_dir`, DWARF 5, section
/// 3.1.1).
///
/// <!-- part of crates/lines_inputs/src/path_sources.rt -->
/// ```rust
/// let mut paths = ProgramPaths::new(strings)?;
/// paths.set_compilations(compilations);
/// ```
#[derive(Drop)]
pub struct ProgramPaths<R: Reader> {
    strings: EndedStrings<R>,
    /// None until `set_compilations` is called.
    compilations: Option<Compilations<R>>,
}

impl<R: Reader> Model for ProgramPaths<R> {
    ghost use Rattle.std.specs.Prelude.{ℕ, List, [], unwrap_or};
    ghost use Rattle.gimli_lookup.specs.declared.string_sections.StringSections.{StringSections};

    ghost Value = { StringSections R × List (ℕ × R) };

    ghost view = { λ a. (a.strings, unwrap_or a.compilations []) };
}

impl<R: Reader> ProgramPaths<R> {
    /// Makes paths from these sections of strings. No compilation is known yet. Strings without an
    /// end cost no more than others, since this call searches each section once for the end of its
    /// last string. Fails only if memory is missing.
    pub fn new(strings: StringSections<R>) -> Result<Self, AllocError>
        ensures { IfOk result (λ paths. paths ≡ (strings, [])) }
    {
        Ok(ProgramPaths {
            strings: EndedStrings::new(strings)?,
            compilations: None,
        })
    }

    /// From now on, paths use the directories of these compilations, instead of any that were set
    /// before.
    pub fn set_compilations(&mut self, compilations: Compilations<R>)
        ensures { self.new ≡ (self.old.0, compilations) }
    {
        self.compilations = Some(compilations);
    }

    /// The directory of the compilation whose line program begins at an offset of `.debug_line`, as
    /// `Compilations::directory_of` gives it.
    pub fn directory_of(&self, line_offset: u64) -> Option<R>
        ensures { result ≡ directory_for self.now.1 line_offset }
    {
        match &self.compilations {
            Some(compilations) => compilations.directory_of(line_offset),
            None => None,
        }
    }

    /// Whether the paths of a header need the directory of its compilation, as
    /// `Paths::needs_directory` says.
    pub(crate) fn need_directory(&self, header: &LineProgramHeader<R>) -> bool
        ensures { result ≡ needs_directory
            (paths_of (strings R.seen self.now.0) header.now.meaning) }
    {
        self.strings.need_directory(header)
    }

    /// Whether the paths of a unit may begin with a directory that is in `.debug_info`: the unit
    /// has no directory of its compilation, or an empty one (DWARF 5, section 6.2.4). A refused
    /// unit has no paths. Takes no memory.
    pub fn unit_needs(&self, unit: &UnitLookup<R>) -> bool
        ensures { result ≡ unit_needs (strings R.seen self.now.0) unit.now }
    {
        match unit.header() {
            Some(header) => self.need_directory(header),
            None => false,
        }
    }

    /// Whether the path of found rows may begin with such a directory, as `unit_needs` says of
    /// their unit. If not, `of_found` returns the same whatever compilations are set. False if
    /// `units` lacks the unit of the rows, or the header of that unit isn't known. Takes no memory.
    pub fn found_needs(&self, units: &[UnitLookup<R>], found: &CoveringRows) -> bool
        ensures { result ≡ found_needs (strings R.seen self.now.0) units.now found.now }
    {
        match units.get(found.unit) {
            Some(unit) => self.unit_needs(unit),
            None => false,
        }
    }

    /// The whole path of a file of a header. Refused as `Paths::of_file` is.
    pub fn of_file(
        &self,
        alloc: Global,
        header: &LineProgramHeader<R>,
        file: &FileEntry<R>,
    ) -> Result<Vec<u8>, PathError>
        ensures ok { let paths = unit_paths (texts_seen R.seen self.now)
            (R.Offset.number header.now.offset.0) header.now.meaning in
            IfOk result (λ path. file_path paths (file_seen R.seen R.Offset.number file.now)
            ≡ Ok path.items) }
        ensures err { let paths = unit_paths (texts_seen R.seen self.now)
            (R.Offset.number header.now.offset.0) header.now.meaning in
            IfErr result (λ e. e ≢ OutOfMemory
            → file_path paths (file_seen R.seen R.Offset.number file.now) ≡ Err e) }
    {
        let offset = header.offset().0.into_u64();
        let Some(directory) = self.directory_of(offset) else {
            return self.strings.of_file(alloc, header, None, file);
        };
        let Ok(directory) = directory.to_slice() else {
            return Err(PathError::OutOfMemory);
        };
        self.strings.of_file(alloc, header, Some(&directory), file)
    }

    /// The whole path of a row's file. Refused as `Paths::of_row` is.
    pub fn of_row(
        &self,
        alloc: Global,
        header: &LineProgramHeader<R>,
        row: &LineRow,
    ) -> Result<Vec<u8>, PathError>
        ensures ok { let paths = unit_paths (texts_seen R.seen self.now)
            (R.Offset.number header.now.offset.0) header.now.meaning in IfOk result (λ path.
            row_path paths row.now ≡ Ok path.items) }
        ensures err { let paths = unit_paths (texts_seen R.seen self.now)
            (R.Offset.number header.now.offset.0) header.now.meaning in
            IfErr result (λ e. e ≢ OutOfMemory → row_path paths row.now ≡ Err e) }
    {
        match row.file(header) {
            Some(file) => self.of_file(alloc, header, file),
            None => Err(PathError::InvalidFileIndex(row.file_index())),
        }
    }

    /// The whole path of the file of rows that are found in these units, as `SectionLookup::units`
    /// and `FoundRows::units` list them. Refused as `of_row` is, and by `InvalidFileIndex` where no
    /// header of the unit is known.
    pub fn of_found(
        &self,
        alloc: Global,
        units: &[UnitLookup<R>],
        found: &CoveringRows,
    ) -> Result<Vec<u8>, PathError>
        ensures ok { IfOk result (λ path.
            found_path (texts_seen R.seen self.now) units.now found.now ≡ Ok path.items) }
        ensures err { IfErr result (λ e. e ≢ OutOfMemory
            → found_path (texts_seen R.seen self.now) units.now found.now ≡ Err e) }
    {
        let Some(unit) = units.get(found.unit) else {
            return Err(PathError::InvalidFileIndex(found.row.file_index()));
        };
        let Some(header) = unit.header() else {
            return Err(PathError::InvalidFileIndex(found.row.file_index()));
        };
        self.of_row(alloc, header, &found.row)
    }
}
