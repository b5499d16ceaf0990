//! The directories and files of a source, as they are added to the program that is built of it.

ghost use Rattle.std.specs.Prelude.{◌≡◌, ◌≢◌, ◌≤◌, ℕ, List, [], false, All, IfOk, IfErr};
ghost use Rattle.std.specs.Prelude.{IsOkUnless, IfSome};
ghost use Rattle.std.specs.Prelude.{OnErr, OnOk, Ok, length, map, slice_get, ◌<◌};
ghost use Rattle.gimli_core.specs.Values.{value_seen};
ghost use Rattle.gimli_line.specs.header.File.{file_seen};
ghost use Rattle.gimli_bytes.specs.Texts.{KeepsTexts};
ghost use Rattle.gimli_build.specs.Calls.{after_begin, after_address, after_row, after_end};
ghost use Rattle.gimli_build.specs.Conditions.{CanGenerateRow, CanEndSequence};
ghost use Rattle.gimli_write.specs.convert.Texts.{IsRefusedBy};
ghost use Rattle.gimli_write.specs.convert.Items.{file_id};
ghost use Rattle.gimli_write.specs.convert.Conversion.{AddsFiles, Asks, CanBuildRow};
ghost use Rattle.gimli_write.specs.convert.KeptTables.{KeepsFiles, StaysWritable};
ghost use Rattle.gimli_write.specs.convert.SourceTables.{tables_with, directory_added, file_added};
ghost use Rattle.gimli_write.specs.convert.SourceTables.{file_parts, with_parts, all_added};
ghost use Rattle.gimli_write.specs.declared.convert_error.ConvertError.TheVariants.{OutOfMemory};

use crate::convert::texts::{optional_program_text, optional_text, program_text, source_path};
use crate::convert_error::{ConvertError, ConvertResult, from_write};
use crate::text::TextSections;
use gimli_build::{DirectoryId, FileId, FileInfo, LineProgram, LineRow};
use gimli_bytes::{Address, LineStringTable};
use gimli_core::{AttributeValue, Reader, ReaderOffset};
use gimli_line::FileEntry;
use std::alloc::Global;
use std::marker::Model;

/// The program that is built, and where it has the directories and files of its source. It isn't a
/// placeholder.
#[derive(Debug, Drop)]
pub(crate) struct SourceTables {
    pub(crate) program: LineProgram,
    /// For each directory of the source, by its index there, its id in the program.
    pub(crate) directories: Vec<DirectoryId>,
    /// For each file, by its number in the source, its id; up to version 4 of the source none has
    /// number 0.
    pub(crate) files: Vec<FileId>,
}

impl Model for SourceTables {
    ghost use Rattle.std.specs.Prelude.{◌≡◌, ◌<◌, false, length, All};
    ghost use Rattle.gimli_write.specs.convert.SourceTables.{SourceTables};

    ghost Value = { SourceTables };

    ghost view = { λ a. record {
      program = a.program;
      directory_ids = a.directories.items;
      file_ids = a.files.items;
    } };

    ghost invariant = { λ a. (a.program.is_none ≡ false)
        × All (λ id. id < length a.program.directories) a.directories.items };
}

/// What a file of the source has, with texts of the program.
#[derive(Drop)]
struct FileParts {
    path: Vec<u8>,
    directory: DirectoryId,
    source: Option<Vec<u8>>,
}

impl Model for FileParts {
    ghost use Rattle.std.specs.Prelude.{option_map};
    ghost use Rattle.gimli_write.specs.convert.SourceTables.{FileParts};

    ghost Value = { FileParts };

    ghost view = { λ a. record {
      path = a.path.items;
      directory = a.directory;
      source = option_map (λ text. text.items) a.source;
    } };
}

impl SourceTables {
    /// Adds a directory after the others. Refused as its path is; the program and the ids are then
    /// as before, unless memory is missing. The line strings keep their texts.
    pub(crate) fn add_directory<R: Reader>(
        &mut self,
        directory: AttributeValue<R>,
        sections: &TextSections<R>,
        line_strings: &mut LineStringTable,
    ) -> ConvertResult<()>
        ensures ok { OnOk result
            (directory_added sections.now (tables_with line_strings.old self.old)
            (value_seen R.seen R.Offset.number directory)
            ≡ Ok (tables_with line_strings.new self.new)) }
        ensures err { IfErr result
            (IsRefusedBy (directory_added sections.now (tables_with line_strings.old self.old)
            (value_seen R.seen R.Offset.number directory))) }
        ensures kept { IfErr result (λ e. e ≢ ConvertError.OutOfMemory → self.new ≡ self.old) }
        ensures stays { KeepsTexts line_strings.old line_strings.new }
    {
        let alloc = *line_strings.allocator();
        let encoding = self.program.encoding();
        let path = source_path(alloc, encoding.version, directory, sections)?;
        let text = program_text(path.as_slice(), encoding, line_strings)?;
        match self.program.add_directory(text) {
            Ok(id) => Ok(self.directories.push(id)?),
            Err(e) => Err(from_write(e)),
        }
    }

    /// What a file of the source has, with texts of the program. Refused as its path and its source
    /// are, and as `InvalidDirectoryIndex` where the source has no directory of its index.
    fn file_parts<R: Reader>(
        &self,
        alloc: Global,
        file: &FileEntry<R>,
        sections: &TextSections<R>,
    ) -> ConvertResult<FileParts>
        ensures ok { IfOk result (λ parts. file_parts self.now.program.encoding.version sections.now
            self.now.directory_ids (file_seen R.seen R.Offset.number file.now) ≡ Ok parts) }
        ensures err { IfErr result
            (IsRefusedBy (file_parts self.now.program.encoding.version sections.now
            self.now.directory_ids (file_seen R.seen R.Offset.number file.now))) }
        // What a program asks of them.
        ensures no_zero { IfOk result (λ parts. All (λ b. b ≢ 0) parts.path) }
        ensures not_empty { IfOk result (λ parts.
            self.now.program.encoding.version ≤ 4 → parts.path ≢ []) }
        ensures source_no_zero { IfOk result (λ parts.
            IfSome parts.source (λ text. All (λ b. b ≢ 0) text)) }
        ensures within { IfOk result (λ parts.
            parts.directory < length self.now.program.directories) }
    {
        let path = source_path(alloc, self.program.version(), file.path_name(), sections)?;
        let directory = match directory_id(self.directories.as_slice(), file.directory_index()) {
            Some(directory) => directory,
            None => return Err(ConvertError::InvalidDirectoryIndex),
        };
        let source = optional_text(alloc, file.source(), sections)?;
        Ok(FileParts {
            path,
            directory,
            source,
        })
    }

    /// Adds a file of these parts after the others. Requires a path and a source that a program can
    /// have, and a directory of the program. Refused by `OutOfMemory` alone. The line strings keep
    /// their texts.
    fn add_parts<R: Reader>(
        &mut self,
        file: &FileEntry<R>,
        parts: &FileParts,
        line_strings: &mut LineStringTable,
    ) -> ConvertResult<()>
        requires no_zero { All (λ b. b ≢ 0) parts.now.path }
        requires not_empty { self.old.program.encoding.version ≤ 4 → parts.now.path ≢ [] }
        requires source_no_zero { IfSome parts.now.source (λ text. All (λ b. b ≢ 0) text) }
        requires within { parts.now.directory < length self.old.program.directories }
        ensures ok { OnOk result (with_parts (tables_with line_strings.old self.old)
            (file_seen R.seen R.Offset.number file.now) parts.now
            ≡ tables_with line_strings.new self.new) }
        ensures memory { IsOkUnless result ConvertError.OutOfMemory }
        // However it ends.
        ensures adds { AddsFiles self.old.program self.new.program }
        ensures keeps { KeepsFiles self.old self.new }
        ensures writable { StaysWritable self.old line_strings.old self.new line_strings.new }
        ensures stays { KeepsTexts line_strings.old line_strings.new }
    {
        let encoding = self.program.encoding();
        let path = program_text(parts.path.as_slice(), encoding, line_strings)?;
        let source = optional_program_text(&parts.source, encoding, line_strings)?;
        let info = FileInfo {
            timestamp: file.timestamp(),
            size: file.size(),
            md5: *file.md5(),
            source,
        };
        match self.program.add_file(path, parts.directory, Some(info)) {
            Ok(id) => Ok(self.files.push(id)?),
            Err(e) => Err(from_write(e)),
        }
    }

    /// Adds a file after the others. Refused as `file_parts` is; the program, the ids and the line
    /// strings are then as before, unless memory is missing. The line strings keep their texts.
    pub(crate) fn add_file<R: Reader>(
        &mut self,
        file: &FileEntry<R>,
        sections: &TextSections<R>,
        line_strings: &mut LineStringTable,
    ) -> ConvertResult<()>
        ensures ok { OnOk result (file_added sections.now (tables_with line_strings.old self.old)
            (file_seen R.seen R.Offset.number file.now)
            ≡ Ok (tables_with line_strings.new self.new)) }
        ensures err { IfErr result
            (IsRefusedBy (file_added sections.now (tables_with line_strings.old self.old)
            (file_seen R.seen R.Offset.number file.now))) }
        ensures kept { IfErr result (λ e. e ≢ ConvertError.OutOfMemory → self.new ≡ self.old) }
        ensures texts { IfErr result (λ e.
            e ≢ ConvertError.OutOfMemory → line_strings.new ≡ line_strings.old) }
        // However it ends.
        ensures adds { AddsFiles self.old.program self.new.program }
        ensures keeps { KeepsFiles self.old self.new }
        ensures writable { StaysWritable self.old line_strings.old self.new line_strings.new }
        ensures stays { KeepsTexts line_strings.old line_strings.new }
    {
        let parts = self.file_parts(*line_strings.allocator(), file, sections)?;
        self.add_parts(file, &parts, line_strings)
    }

    /// The id of the file of a number in the source, which is of this version. Refused as
    /// `InvalidFileIndex` where the source has no file of its number so far.
    pub(crate) fn file_id(&self, source_version: u16, number: u64) -> ConvertResult<FileId>
        ensures { (line_strings : List (List ℕ))
            → result ≡ file_id source_version (tables_with line_strings self.now) number }
    {
        if source_version <= 4 && number == 0 {
            return Err(ConvertError::InvalidFileIndex);
        }
        match file_at(self.files.as_slice(), number) {
            Some(id) => Ok(id),
            None => Err(ConvertError::InvalidFileIndex),
        }
    }

    /// Adds directories in order. Refused as the first one that is refused. The line strings keep
    /// their texts.
    pub(crate) fn add_directories<R: Reader>(
        &mut self,
        directories: &[AttributeValue<R>],
        sections: &TextSections<R>,
        line_strings: &mut LineStringTable,
    ) -> ConvertResult<()>
        ensures ok { OnOk result (all_added (directory_added sections.now)
            (map (value_seen R.seen R.Offset.number) directories.now)
            (tables_with line_strings.old self.old)
            ≡ Ok (tables_with line_strings.new self.new)) }
        ensures err { IfErr result (IsRefusedBy (all_added (directory_added sections.now)
            (map (value_seen R.seen R.Offset.number) directories.now)
            (tables_with line_strings.old self.old))) }
        ensures stays { KeepsTexts line_strings.old line_strings.new }
    {
        for directory in directories {
            self.add_directory(*directory, sections, line_strings)?;
        }
        Ok(())
    }

    /// Adds files in order. Refused as the first one that is refused. The line strings keep their
    /// texts.
    pub(crate) fn add_files<R: Reader>(
        &mut self,
        files: &[FileEntry<R>],
        sections: &TextSections<R>,
        line_strings: &mut LineStringTable,
    ) -> ConvertResult<()>
        ensures ok { OnOk result (all_added (file_added sections.now)
            (map (file_seen R.seen R.Offset.number) files.now)
            (tables_with line_strings.old self.old)
            ≡ Ok (tables_with line_strings.new self.new)) }
        ensures err { IfErr result (IsRefusedBy (all_added (file_added sections.now)
            (map (file_seen R.seen R.Offset.number) files.now)
            (tables_with line_strings.old self.old))) }
        ensures stays { KeepsTexts line_strings.old line_strings.new }
    {
        for file in files {
            self.add_file(file, sections, line_strings)?;
        }
        Ok(())
    }

    /// Begins a sequence. Refused as `UnsupportedLineInstruction` where one has begun, or by
    /// `OutOfMemory`; then nothing changes.
    pub(crate) fn begin_sequence(&mut self, address: Option<Address>) -> ConvertResult<()>
        ensures ok { OnOk result
            (self.new ≡ record self.old { program = after_begin address self.old.program }) }
        ensures asks { Asks (self.old.program.in_sequence ≡ false) result }
        ensures kept { OnErr result (self.new ≡ self.old) }
    {
        if self.program.in_sequence() {
            return Err(ConvertError::UnsupportedLineInstruction);
        }
        match self.program.begin_sequence(address) {
            Ok(()) => Ok(()),
            Err(e) => Err(from_write(e)),
        }
    }

    /// Sets the address. Refused by `OutOfMemory` alone; then nothing changes.
    pub(crate) fn set_address(&mut self, address: Address) -> ConvertResult<()>
        ensures ok { OnOk result
            (self.new ≡ record self.old { program = after_address address self.old.program }) }
        ensures memory { IsOkUnless result ConvertError.OutOfMemory }
        ensures kept { OnErr result (self.new ≡ self.old) }
    {
        match self.program.set_address(address) {
            Ok(()) => Ok(()),
            Err(e) => Err(from_write(e)),
        }
    }

    /// Builds a row. Refused as `UnsupportedLineInstruction` where it can't be generated, or by
    /// `OutOfMemory`; then nothing changes.
    pub(crate) fn generate_row(&mut self, row: LineRow) -> ConvertResult<()>
        ensures ok { OnOk result
            (self.new ≡ record self.old { program = after_row row self.old.program }) }
        ensures asks { Asks (CanBuildRow self.old.program row) result }
        ensures kept { OnErr result (self.new ≡ self.old) }
    {
        let before = *self.program.row();
        let generated = self.generate_or_keep(row);
        if generated.is_err() {
            *self.program.row() = before;
        }
        generated
    }

    /// The same, except that a refused row stays the current one.
    pub(crate) fn generate_or_keep(&mut self, row: LineRow) -> ConvertResult<()>
        ensures ok { OnOk result
            (self.new ≡ record self.old { program = after_row row self.old.program }) }
        ensures asks { Asks (CanBuildRow self.old.program row) result }
        ensures kept { OnErr result (self.new
            ≡ record self.old { program = record self.old.program { row = row } }) }
    {
        let program = &mut self.program;
        *program.row() = row;
        generate_current(program)
    }

    /// Ends a sequence. Refused as `UnsupportedLineInstruction` where it can't end at this offset,
    /// or by `OutOfMemory`; then nothing changes.
    pub(crate) fn end_sequence(&mut self, address_offset: u64) -> ConvertResult<()>
        ensures ok { OnOk result
            (self.new ≡ record self.old { program = after_end address_offset self.old.program }) }
        ensures asks { Asks (CanEndSequence self.old.program address_offset) result }
        ensures kept { OnErr result (self.new ≡ self.old) }
    {
        if !self.program.can_end_sequence(address_offset) {
            return Err(ConvertError::UnsupportedLineInstruction);
        }
        match self.program.end_sequence(address_offset) {
            Ok(()) => Ok(()),
            Err(e) => Err(from_write(e)),
        }
    }

    /// Whether a sequence has begun.
    pub(crate) fn in_sequence(&self) -> bool
        ensures { result ≡ self.now.program.in_sequence }
    {
        self.program.in_sequence()
    }
}

/// The id of the directory with an index in the source. No index wraps.
fn directory_id(ids: &[DirectoryId], index: u64) -> Option<DirectoryId>
    ensures { result ≡ slice_get ids.now index }
{
    let index = usize::try_from(index).ok()?;
    ids.get(index).copied()
}

/// The id of the file of a number in the source. No number wraps.
pub(crate) fn file_at(ids: &[FileId], number: u64) -> Option<FileId>
    ensures { result ≡ slice_get ids.now number }
{
    let number = usize::try_from(number).ok()?;
    ids.get(number).copied()
}

/// Builds the current row. Refused as `UnsupportedLineInstruction` where it can't be generated, or
/// by `OutOfMemory`; then nothing changes.
fn generate_current(program: &mut LineProgram) -> ConvertResult<()>
    requires { program.old.is_none ≡ false }
    ensures ok { OnOk result (program.new ≡ after_row program.old.row program.old) }
    ensures asks { Asks (CanGenerateRow program.old) result }
    ensures kept { OnErr result (program.new ≡ program.old) }
{
    if !program.can_generate_row() {
        return Err(ConvertError::UnsupportedLineInstruction);
    }
    match program.generate_row() {
        Ok(()) => Ok(()),
        Err(e) => Err(from_write(e)),
    }
}
