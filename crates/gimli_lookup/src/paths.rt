//! The whole paths of files: each with the directories that it is relative to.

ghost use Rattle.std.specs.Prelude.{◌≡◌, ◌≢◌, ◌++◌, IfOk, IfErr, OnOk, Ok, Err};
ghost use Rattle.std.specs.Option.{option_copied};
ghost use Rattle.gimli_core.specs.Values.{value_seen};
ghost use Rattle.gimli_line.specs.header.File.{file_seen};
ghost use Rattle.gimli_lookup.specs.declared.path_error.PathError.TheVariants.{OutOfMemory};
ghost use Rattle.gimli_lookup.specs.Strings.{strings, string_of};
ghost use Rattle.gimli_lookup.specs.Paths.{is_separator, begins_with_separator, begins_with_drive};
ghost use Rattle.gimli_lookup.specs.Paths.{is_absolute, separator_after, path_in};

use crate::path_error::PathError;
use crate::string_sections::StringSections;
use gimli_core::{AttributeValue, Reader};
use gimli_line::{FileEntry, LineProgramHeader, LineRow};
use std::alloc::Global;
use std::marker::Model;

/// Whether a byte separates the components of a path: `/`, or a backslash as on Windows.
fn is_separator(byte: u8) -> bool
    ensures { result ≡ is_separator byte }
{
    byte == b'/' || byte == b'\\'
}

/// Whether a path begins with a separator.
fn begins_with_separator(path: &[u8]) -> bool
    ensures { result ≡ begins_with_separator path.now }
{
    match path {
        [byte, ..] => is_separator(*byte),
        [] => false,
    }
}

/// Whether a path begins with a drive and a separator, as `C:\`.
fn begins_with_drive(path: &[u8]) -> bool
    ensures { result ≡ begins_with_drive path.now }
{
    match path {
        [letter, b':', rest @ ..] => letter.is_ascii_alphabetic() && begins_with_separator(rest),
        _ => false,
    }
}

/// Whether a path is absolute, by the rules of POSIX or of Windows.
fn is_absolute(path: &[u8]) -> bool
    ensures { result ≡ is_absolute path.now }
{
    begins_with_separator(path) || begins_with_drive(path)
}

/// Appends a separator where a path needs one after this directory. Fails only with `OutOfMemory`.
fn push_separator(directory: &mut Vec<u8>) -> Result<(), PathError>
    ensures ok { OnOk result (directory.new.items
        ≡ directory.old.items ++ separator_after directory.old.items) }
    ensures err { IfErr result (λ e. e ≡ OutOfMemory) }
{
    match directory.last() {
        Some(byte) if !is_separator(*byte) => directory.push(b'/')?,
        _ => {}
    }
    Ok(())
}

/// A path in a directory. Fails only with `OutOfMemory`.
fn path_in(mut directory: Vec<u8>, path: &[u8]) -> Result<Vec<u8>, PathError>
    ensures ok { IfOk result (λ whole. whole.items ≡ path_in directory.items path.now) }
    ensures err { IfErr result (λ e. e ≡ OutOfMemory) }
{
    push_separator(&mut directory)?;
    directory.extend_from_slice(path)?;
    Ok(directory)
}

/// The bytes of the string that a value stands for.
fn string_bytes<R: Reader>(
    alloc: Global,
    value: AttributeValue<R>,
    sections: &StringSections<R>,
) -> Result<Vec<u8>, PathError>
    ensures ok { IfOk result (λ string. string_of (strings R.seen sections.now)
        (value_seen R.seen R.Offset.number value) ≡ Ok string.items) }
    ensures err { IfErr result (λ e. e ≢ OutOfMemory → string_of (strings R.seen sections.now)
        (value_seen R.seen R.Offset.number value) ≡ Err e) }
{
    let string = sections.attr_line_string(value)?;
    let Ok(bytes) = string.to_slice() else {
        return Err(PathError::OutOfMemory);
    };
    Ok(Vec::from_slice(alloc, &bytes)?)
}

/// The whole paths of the files of a header (DWARF 5, section 6.2.4).
///
/// A path is absolute if it begins with `/`, with a backslash, or with a drive and one of the two,
/// such as `C:\`. A relative path starts from the directory of its file, and a relative directory
/// from the directory of the compilation. That is directory 0 of the header; if the header has
/// none, as up to version 4, or an empty one, it is the directory that the caller passes. If that
/// directory is relative or unknown, the path stays relative.
///
/// [`ProgramPaths`](crate::ProgramPaths) finds the directory of the compilation by itself.
#[derive(Drop)]
#[derive_where(Debug; R, R::Offset)]
pub struct Paths<'a, R: Reader> {
    header: &'a LineProgramHeader<R>,
    sections: StringSections<R>,
    comp_dir: Option<&'a [u8]>,
}

impl<'a, R: Reader> Model for Paths<'a, R> {
    ghost use Rattle.std.specs.Option.{option_copied};
    ghost use Rattle.gimli_lookup.specs.declared.path_error.PathError.TheVariants.{OutOfMemory};
    ghost use Rattle.gimli_lookup.specs.Strings.{strings};
    ghost use Rattle.gimli_lookup.specs.Paths.{Paths};

    ghost Value = { Paths };

    ghost view = { λ a. record {
      sections = strings R.seen a.sections;
      header = a.header.now.meaning;
      comp_dir = option_copied a.comp_dir;
    } };
}

impl<'a, R: Reader> Paths<'a, R> {
    ghost use Rattle.gimli_lookup.specs.Paths.{directory_string, compilation_directory};
    ghost use Rattle.gimli_lookup.specs.Paths.{directory_path, file_path, row_path};
    ghost use Rattle.gimli_lookup.specs.Paths.{needs_directory};

    /// The paths of this header. `comp_dir` is the directory of the compilation (`DW_AT_comp_dir`,
    /// DWARF 5, section 3.1.1). It is used only if `needs_directory` is true: up to version 4, if
    /// no directory was passed when the header was read, and in version 5, if directory 0 is empty.
    pub fn new(
        header: &'a LineProgramHeader<R>,
        sections: StringSections<R>,
        comp_dir: Option<&'a [u8]>,
    ) -> Self
        ensures { result ≡ record {
          sections = strings R.seen sections;
          header = header.now.meaning;
          comp_dir = option_copied comp_dir.entry;
        } }
    {
        Paths {
            header,
            sections,
            comp_dir,
        }
    }

    /// Whether the directory that the caller has is the directory of the compilation, because the
    /// header has none, or an empty one. If not, every path is the same whatever `comp_dir` is. A
    /// directory 0 that can't be read needs no other. Looks at no more than the first byte of
    /// directory 0, and takes no memory.
    pub fn needs_directory(&self) -> bool
        ensures { result ≡ needs_directory self.now }
    {
        match self.header.directory(0) {
            Some(value) => self.sections.is_empty_string(value),
            None => self.header.version() <= 4,
        }
    }

    /// The whole path of a file, as bytes of any kind. Refused as `PathError` says; a directory
    /// that the path isn't relative to isn't read, and so causes no refusal.
    pub fn of_file(&self, alloc: Global, file: &FileEntry<R>) -> Result<Vec<u8>, PathError>
        ensures ok { IfOk result (λ path.
            file_path self.now (file_seen R.seen R.Offset.number file.now) ≡ Ok path.items) }
        ensures err { IfErr result (λ e. e ≢ OutOfMemory
            → file_path self.now (file_seen R.seen R.Offset.number file.now) ≡ Err e) }
    {
        let path = string_bytes(alloc, file.path_name(), &self.sections)?;
        if is_absolute(&path) {
            return Ok(path);
        }
        let directory = self.directory_path(alloc, file.directory_index())?;
        path_in(directory, &path)
    }

    /// The whole path of a row's file. Refused as `of_file` is, and by `InvalidFileIndex` where the
    /// header has no such file.
    pub fn of_row(&self, alloc: Global, row: &LineRow) -> Result<Vec<u8>, PathError>
        ensures ok { IfOk result (λ path. row_path self.now row.now ≡ Ok path.items) }
        ensures err { IfErr result (λ e. e ≢ OutOfMemory → row_path self.now row.now ≡ Err e) }
    {
        match row.file(self.header) {
            Some(file) => self.of_file(alloc, file),
            None => Err(PathError::InvalidFileIndex(row.file_index())),
        }
    }

    /// The whole path of a directory.
    fn directory_path(&self, alloc: Global, index: u64) -> Result<Vec<u8>, PathError>
        ensures ok { IfOk result (λ path. directory_path self.now index ≡ Ok path.items) }
        ensures err { IfErr result (λ e. e ≢ OutOfMemory → directory_path self.now index ≡ Err e) }
    {
        if index == 0 {
            return self.compilation_directory(alloc);
        }
        let directory = self.directory_string(alloc, index)?;
        if is_absolute(&directory) {
            return Ok(directory);
        }
        let base = self.compilation_directory(alloc)?;
        path_in(base, &directory)
    }

    /// The directory of the compilation; no bytes where nobody knows it.
    fn compilation_directory(&self, alloc: Global) -> Result<Vec<u8>, PathError>
        ensures ok { IfOk result (λ path. compilation_directory self.now ≡ Ok path.items) }
        ensures err { IfErr result (λ e. e ≢ OutOfMemory → compilation_directory self.now ≡ Err e) }
    {
        let zero = self.directory_string(alloc, 0)?;
        if zero.is_empty() {
            return Ok(Vec::from_slice(alloc, self.comp_dir.unwrap_or(&[]))?);
        }
        Ok(zero)
    }

    /// The directory of an index, as it is written. Up to version 4 that of index 0 has no bytes,
    /// if none was handed over when the header was read.
    fn directory_string(&self, alloc: Global, index: u64) -> Result<Vec<u8>, PathError>
        ensures ok { IfOk result (λ path. directory_string self.now index ≡ Ok path.items) }
        ensures err { IfErr result (λ e. e ≢ OutOfMemory
            → directory_string self.now index ≡ Err e) }
    {
        match self.header.directory(index) {
            Some(value) => string_bytes(alloc, value, &self.sections),
            None if self.header.version() <= 4 && index == 0 => Ok(Vec::new(alloc)),
            None => Err(PathError::InvalidDirectoryIndex(index)),
        }
    }
}
