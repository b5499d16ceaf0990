//! The tables of a unit up to version 4: names and numbers one after the other, up to a zero byte.

ghost use Rattle.std.specs.Prelude.{◌≡◌, [], ◌++◌, map, drop, All, OnOk, Ok};
ghost use Rattle.gimli_bytes.specs.Number.{uleb};
ghost use Rattle.gimli_build.specs.LineText.{Inline, line_text};
ghost use Rattle.gimli_build.specs.inside.Tables.{FitsFile};
ghost use Rattle.gimli_build.specs.TableFields.{details};
ghost use Rattle.gimli_build.specs.Joined.{result_append, result_concat};
ghost use Rattle.gimli_build.specs.Version4Tables.{name_bytes, directories_bytes, file_bytes};
ghost use Rattle.gimli_build.specs.Version4Tables.{files_bytes};
ghost use Rattle.gimli_build.specs.inside.Writes.{Writes, always};

use crate::built::files::{DirectoryId, FileInfo, FileTable};
use crate::built::line_string::LineString;
use crate::bytes::{write_byte, write_text};
use gimli_bytes::{Error, Result, Writer};

/// Appends the directories and the files.
pub(crate) fn write_version_4_tables<W: Writer>(w: &mut W, tables: &FileTable) -> Result<()>
    ensures writes { Writes W.Sink w.old w.new result
        (always (result_append (directories_bytes tables.now.directories)
        (files_bytes tables.now.files))) }
    ensures fit { OnOk result (All FitsFile tables.now.files) }
{
    write_directories(w, tables.directories())?;
    write_files(w, tables)
}

/// Appends the directories but for the working directory, and what closes them.
fn write_directories<W: Writer>(w: &mut W, directories: &[LineString]) -> Result<()>
    ensures { Writes W.Sink w.old w.new result
        (always (directories_bytes (map line_text directories.now))) }
{
    write_names(w, others(directories))?;
    write_byte(w, 0)
}

/// The directories but for the first.
pub(crate) fn others(directories: &[LineString]) -> &[LineString]
    ensures { result.now ≡ drop 1 directories.now }
{
    match directories.split_first() {
        Some((_, others)) => others,
        None => directories,
    }
}

/// Appends names one after the other.
fn write_names<W: Writer>(w: &mut W, names: &[LineString]) -> Result<()>
    ensures { Writes W.Sink w.old w.new result
        (always (result_concat name_bytes (map line_text names.now))) }
{
    for name in names {
        write_name(w, name)?;
    }
    Ok(())
}

/// Appends a name that is in the program itself, and a zero byte.
fn write_name<W: Writer>(w: &mut W, name: &LineString) -> Result<()>
    ensures { Writes W.Sink w.old w.new result (always (name_bytes (line_text name.now))) }
{
    match name {
        LineString::String(text) => write_text(w, text.as_slice()),
        _ => Err(Error::LineStringFormMismatch),
    }
}

/// Appends the files, and what closes them.
fn write_files<W: Writer>(w: &mut W, tables: &FileTable) -> Result<()>
    ensures writes { Writes W.Sink w.old w.new result (always (files_bytes tables.now.files)) }
    ensures fit { OnOk result (All FitsFile tables.now.files) }
{
    write_each_file(w, tables)?;
    write_byte(w, 0)
}

/// Appends files one after the other.
fn write_each_file<W: Writer>(w: &mut W, tables: &FileTable) -> Result<()>
    ensures writes { Writes W.Sink w.old w.new result
        (always (result_concat file_bytes tables.now.files)) }
    ensures fit { OnOk result (All FitsFile tables.now.files) }
{
    for index in 0..tables.file_count() {
        let (path, directory, info) = tables.file(index);
        write_file(w, path, directory, info)?;
    }
    Ok(())
}

/// Appends a file: its path, its directory, its timestamp and its size.
fn write_file<W: Writer>(
    w: &mut W,
    path: &LineString,
    directory: DirectoryId,
    info: &FileInfo,
) -> Result<()>
    ensures writes { Writes W.Sink w.old w.new result
        (always (file_bytes ((line_text path.now, directory), details info.now))) }
    ensures fit { OnOk result (FitsFile ((line_text path.now, directory), details info.now)) }
{
    write_name(w, path)?;
    write_numbers(w, directory, info)
}

/// Appends a file's directory, its timestamp and its size.
fn write_numbers<W: Writer>(w: &mut W, directory: DirectoryId, info: &FileInfo) -> Result<()>
    ensures writes { Writes W.Sink w.old w.new result
        (always (Ok (uleb directory ++ uleb info.now.timestamp ++ uleb info.now.size))) }
    ensures fit { OnOk result (FitsFile ((Inline [], directory), details info.now)) }
{
    w.write_uleb128(directory.index() as u64)?;
    w.write_uleb128(info.timestamp)?;
    w.write_uleb128(info.size)
}
