//! The command `files`: the directories and files of units.

use crate::report::Reading;
use gimli_core::{AttributeValue, Reader, ReaderOffset};
use gimli_line::{FileEntry, LineProgramHeader};
use gimli_lookup::PathError;
use lines_inputs::{PathFault, Piece, Result, UnitRows, add, path_or_fault};
use lines_words::{Json, Output, PathText};

/// How far the directories and files of a unit are printed.
#[derive(Clone, Copy)]
pub(crate) struct FileList {
    /// How many of them were: first its directories, and then its files.
    count: u64,
}

impl FileList {
    /// None was printed.
    pub(crate) fn new() -> FileList {
        FileList { count: 0 }
    }

    /// Prints the heading of a unit that is new, or else some of its directories and files, and
    /// returns whether more follows.
    pub(crate) fn print_unit<R: Reader>(
        &mut self,
        reading: &mut Reading<R>,
        unit: &mut UnitRows<R>,
        is_new: bool,
        output: &mut Output<'_>,
    ) -> Result<bool> {
        if is_new {
            self.count = 0;
            return begin(unit, output);
        }
        self.print_some(reading, unit, output)
    }

    /// Prints directories of a unit, as they are written, and files with their whole paths, until
    /// the output is full. False after the last one.
    fn print_some<R: Reader>(
        &mut self,
        reading: &mut Reading<R>,
        unit: &UnitRows<R>,
        output: &mut Output<'_>,
    ) -> Result<bool> {
        let header = unit.header();
        // Those of the greatest indices are looked for too: tables count from 0 or from 1.
        let directories = (header.include_directories().len() as u64).saturating_add(1);
        let files = (header.file_names().len() as u64).saturating_add(1);
        for number in self.count..directories.saturating_add(files) {
            if output.is_full() || reading.budget.is_spent() {
                return Ok(true);
            }
            self.count = number.saturating_add(1);
            reading.print_entry(unit, number, directories, output)?;
        }
        Ok(false)
    }
}

/// Prints the heading of a unit, and goes on to the files that its program defines before its first
/// fault. The fault is reported.
fn begin<R: Reader>(unit: &mut UnitRows<R>, output: &mut Output<'_>) -> Result<bool> {
    output.print_unit_heading(unit.offset, unit.header().version());
    unit.run()?;
    unit.tell_fault(output);
    Ok(true)
}

impl<R: Reader> Reading<R> {
    /// Prints one of so many directories, or a file after them.
    fn print_entry(
        &mut self,
        unit: &UnitRows<R>,
        number: u64,
        directories: u64,
        output: &mut Output<'_>,
    ) -> Result<()> {
        match number.checked_sub(directories) {
            Some(file) => self.print_file(unit, file, output),
            None => self.print_directory(unit, number, output),
        }
    }

    /// Prints the directory at an index, where there is one.
    fn print_directory(
        &mut self,
        unit: &UnitRows<R>,
        index: u64,
        output: &mut Output<'_>,
    ) -> Result<()> {
        let Some(directory) = unit.header().directory(index) else {
            return Ok(());
        };
        let path = self.written_path(directory);
        if path.is_err() {
            self.budget.count(self.sources.text_length(directory));
        }
        let (path, fault) = path_or_fault(&self.sources, path)?;
        begin_entry(unit.offset, "directory", index, path.as_deref(), output);
        tell_fault(unit.offset, "directory", index, fault, output);
        end_entry(output);
        Ok(())
    }

    /// Prints the file at an index, where there is one.
    fn print_file(
        &mut self,
        unit: &UnitRows<R>,
        index: u64,
        output: &mut Output<'_>,
    ) -> Result<()> {
        let Some(file) = unit.header().file(index) else {
            return Ok(());
        };
        let (path, fault) = self.path_of(unit.header(), index, true)?;
        begin_entry(unit.offset, "file", index, path.as_deref(), output);
        tell_fault(unit.offset, "file", index, fault, output);
        self.add_details(unit.header(), file, output);
        end_entry(output);
        Ok(())
    }

    /// The path of a directory as it is written. Refused as `PathError` says.
    fn written_path(&self, directory: AttributeValue<R>) -> Result<Vec<u8>, PathError> {
        let path = self.sources.strings().attr_line_string(directory)?;
        let Ok(path) = path.to_slice() else {
            return Err(PathError::OutOfMemory);
        };
        Ok(Vec::from_slice(self.alloc, &path)?)
    }

    /// Prints what a header says of a file besides its path. For people a time and a size of 0 are
    /// left out, since they say nothing (DWARF 5, section 6.2.4).
    fn add_details(
        &self,
        header: &LineProgramHeader<R>,
        file: &FileEntry<R>,
        output: &mut Output<'_>,
    ) {
        let md5 = header.file_has_md5().then_some(file.md5().as_slice());
        let source = self.source_length(file);
        if output.is_json() {
            let fields = [
                ("time", Json::Number(file.timestamp())),
                ("size", Json::Number(file.size())),
                ("md5", Json::Digits(md5)),
                ("source_bytes", Json::Count(source)),
            ];
            return output.add_fields(",", &fields);
        }
        add_number("  time %", file.timestamp(), output);
        add_number("  size %", file.size(), output);
        if let Some(md5) = md5 {
            add("  md5 %", &[Piece::Digits(md5)], output);
        }
        if let Some(source) = source {
            add("  source of % bytes", &[Piece::Number(source)], output);
        }
    }

    /// The number of bytes of the source that is held with a file. None where there is none, or it
    /// isn't known.
    fn source_length(&self, file: &FileEntry<R>) -> Option<u64> {
        let source = self
            .sources
            .strings()
            .attr_line_string(file.source()?)
            .ok()?;
        Some(source.len().into_u64())
    }
}

/// Prints a number of a file, unless it is 0.
fn add_number(text: &str, number: u64, output: &mut Output<'_>) {
    if number != 0 {
        add(text, &[Piece::Number(number)], output);
    }
}

/// Prints what stands first in the line of a directory or a file of the unit at an offset.
fn begin_entry(unit: u64, kind: &str, index: u64, path: Option<&[u8]>, output: &mut Output<'_>) {
    if output.is_json() {
        let fields = [
            ("unit", Json::Offset(Some(unit))),
            (kind, Json::Number(index)),
            ("path", Json::Bytes(path)),
        ];
        output.add_fields("{", &fields);
    } else {
        let path = PathText(path.unwrap_or(b"??"));
        output.add(format_args!("{kind} {index}  {path}"));
    }
}

/// Reports why a directory or a file of the unit at an offset has no path.
fn tell_fault(
    unit: u64,
    kind: &str,
    index: u64,
    fault: Option<PathFault>,
    output: &mut Output<'_>,
) {
    if let Some(fault) = fault {
        output.tell_of_unit(unit, format_args!("{kind} {index}: {fault}"));
    }
}

/// Ends the line of a directory or a file.
fn end_entry(output: &mut Output<'_>) {
    let end = if output.is_json() { "}" } else { "" };
    output.print(end);
}
