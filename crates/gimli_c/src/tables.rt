//! The directories and the files of a unit that is written.

ghost use Rattle.std.specs.Prelude.{◌≡◌, ◌<◌, [], All, IfSome, None, Some, false, length, map};
ghost use Rattle.std.specs.Prelude.{option_map, slice_get};
ghost use Rattle.gimli_bytes.specs.Texts.{no_texts};
ghost use Rattle.gimli_build.specs.Conditions.{Accepts, CanWrite};
ghost use Rattle.gimli_build.specs.Built.{empty_built};
ghost use Rattle.gimli_build.specs.FirstTables.{first_directories, first_files};
ghost use Rattle.gimli_build.specs.LineText.{line_text, Inline};
ghost use Rattle.gimli_build.specs.Tables.{index_of_file, with_file};
ghost use Rattle.gimli_c.specs.Handed.{AddsDirectories, AddsFiles, details_handed, first_ids};
ghost use Rattle.gimli_c.specs.Handed.{key_handed, text_handed};
ghost use Rattle.gimli_c.specs.inside.Handed.{IsInline};
ghost use Rattle.gimli_c.specs.Start.{start_program};

use crate::text::{GimliName, text_of};
use gimli_build::{DirectoryId, FileId, FileInfo, LineProgram, LineString};
use gimli_core::{Encoding, LineEncoding};
use std::alloc::Global;

/// A file that is handed over.
#[repr(C)]
#[derive(Clone, Copy)]
pub struct GimliFileName {
    /// The path, which is full or starts at the directory.
    pub path: GimliName,
    /// The index of the directory: up to version 4 from 1 on, where 0 is the directory of the
    /// compilation; in version 5 from 0 on.
    pub directory: u64,
    /// When the file was last changed, in a measure of the producer's own; 0 where it isn't known.
    pub timestamp: u64,
    /// The size in bytes; 0 where it isn't known.
    pub size: u64,
    /// The MD5 digest; zeros where it isn't known.
    pub md5: [u8; 16],
}

/// A program without rows. In version 5 its first directory and its first file are those that are
/// handed over. Requires encodings that rows can be written by. None where memory lacks, or the
/// tables are refused.
pub(crate) fn empty_built(
    alloc: Global,
    encoding: Encoding,
    lines: LineEncoding,
    texts: &[u8],
    directories: &[GimliName],
    files: &[GimliFileName],
) -> Option<LineProgram>
    requires { Accepts encoding lines }
    ensures can { IfSome result (λ program. CanWrite program no_texts) }
    ensures start { IfSome result (λ program. program
        ≡ start_program encoding lines texts.now directories.now files.now) }
{
    let version = encoding.version;
    if version <= 4 {
        return new_program(alloc, encoding, lines, empty(alloc), None, empty(alloc));
    }
    let working = text_of(alloc, version, texts, *directories.first()?)?;
    let file = files.first()?;
    let own = text_of(alloc, version, texts, name_at(directories, file.directory)?)?;
    let path = text_of(alloc, version, texts, file.path)?;
    new_program(alloc, encoding, lines, working, Some(own), path)
}

/// A program without rows; none where memory lacks. Requires such encodings, and texts without a
/// zero byte.
fn new_program(
    alloc: Global,
    encoding: Encoding,
    lines: LineEncoding,
    working: LineString,
    own: Option<LineString>,
    path: LineString,
) -> Option<LineProgram>
    requires accepts { Accepts encoding lines }
    requires working { IsInline (line_text working) }
    requires own { IfSome own (λ own. IsInline (line_text own)) }
    requires path { IsInline (line_text path) }
    ensures can { IfSome result (λ program. CanWrite program no_texts) }
    ensures program { IfSome result (λ program. program ≡ empty_built false encoding lines
        (first_directories encoding.version (line_text working) (option_map line_text own))
        (first_files encoding.version (line_text working) (option_map line_text own)
        (line_text path) None)) }
{
    match LineProgram::new(alloc, encoding, lines, working, own, path, None) {
        Ok(program) => Some(program),
        Err(_) => None,
    }
}

/// The empty text.
fn empty(alloc: Global) -> LineString
    ensures { line_text result ≡ Inline [] }
{
    LineString::String(Vec::new(alloc))
}

/// The name with an index. No index wraps.
fn name_at(names: &[GimliName], index: u64) -> Option<GimliName>
    ensures { result ≡ slice_get names.now index }
{
    let index = usize::try_from(index).ok()?;
    names.get(index).copied()
}

/// Adds directories in order, and returns the ids of all by their indices; none where memory lacks,
/// or a text is refused. Requires a program that can be written, and leaves one.
pub(crate) fn add_directories(
    alloc: Global,
    program: &mut LineProgram,
    texts: &[u8],
    names: &[GimliName],
) -> Option<Vec<DirectoryId>>
    requires { CanWrite program.old no_texts }
    ensures can { IfSome result (λ _. CanWrite program.new no_texts) }
    ensures within { IfSome result (λ ids.
        All (λ id. id < length program.new.directories) ids.items) }
    ensures ok { IfSome result (λ ids.
        AddsDirectories program.old program.new (map (text_handed texts.now) names.now) ids.items) }
{
    let version = program.version();
    let mut ids = first_ids(alloc, program)?;
    for name in names {
        let text = text_of(alloc, version, texts, *name)?;
        let id = match program.add_directory(text) {
            Ok(id) => id,
            Err(_) => return None,
        };
        if ids.push(id).is_err() {
            return None;
        }
    }
    Some(ids)
}

/// Up to version 4 the id of the directory of the compilation, whose index is 0. Requires a program
/// that can be written. None where memory lacks.
fn first_ids(alloc: Global, program: &LineProgram) -> Option<Vec<DirectoryId>>
    requires { CanWrite program.now no_texts }
    ensures ids { IfSome result (λ ids. ids.items ≡ first_ids program.now.encoding.version) }
    ensures within { IfSome result (λ ids.
        All (λ id. id < length program.now.directories) ids.items) }
{
    let mut ids = Vec::new(alloc);
    if program.version() <= 4 {
        if ids.push(program.default_directory()).is_err() {
            return None;
        }
    }
    Some(ids)
}

/// Adds files in order, and returns their ids; none where memory lacks, or a file is refused. The
/// directories are those of these ids. Requires a program that can be written and has these
/// directories, and leaves one.
pub(crate) fn add_files(
    alloc: Global,
    program: &mut LineProgram,
    texts: &[u8],
    ids: &[DirectoryId],
    files: &[GimliFileName],
) -> Option<Vec<FileId>>
    requires can { CanWrite program.old no_texts }
    requires within { All (λ id. id < length program.old.directories) ids.now }
    ensures can { IfSome result (λ _. CanWrite program.new no_texts) }
    ensures ok { IfSome result (λ file_ids.
        AddsFiles program.old program.new texts.now ids.now files.now file_ids.items) }
{
    let mut file_ids = Vec::new(alloc);
    for file in files {
        let id = add_file(alloc, program, texts, ids, file)?;
        if file_ids.push(id).is_err() {
            return None;
        }
    }
    Some(file_ids)
}

/// Adds a file, and returns its id. Requires what `add_files` does.
fn add_file(
    alloc: Global,
    program: &mut LineProgram,
    texts: &[u8],
    ids: &[DirectoryId],
    file: &GimliFileName,
) -> Option<FileId>
    requires can { CanWrite program.old no_texts }
    requires within { All (λ id. id < length program.old.directories) ids.now }
    ensures can { IfSome result (λ _. CanWrite program.new no_texts) }
    ensures ok { IfSome result (λ _. program.new ≡ record program.old {
      files =
          with_file program.old.files (key_handed texts.now ids.now file.now)
          (Some (details_handed file.now));
    }) }
    ensures id { IfSome result (λ id.
        id ≡ index_of_file program.old.files (key_handed texts.now ids.now file.now)) }
{
    let directory = directory_at(ids, file.directory)?;
    let path = text_of(alloc, program.version(), texts, file.path)?;
    let info = FileInfo {
        timestamp: file.timestamp,
        size: file.size,
        md5: file.md5,
        source: None,
    };
    match program.add_file(path, directory, Some(info)) {
        Ok(id) => Some(id),
        Err(_) => None,
    }
}

/// The id at an index. No index wraps.
fn directory_at(ids: &[DirectoryId], index: u64) -> Option<DirectoryId>
    ensures { result ≡ slice_get ids.now index }
{
    let index = usize::try_from(index).ok()?;
    ids.get(index).copied()
}
