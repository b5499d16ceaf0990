//! The files of a header that have a path.

ghost use Rattle.std.specs.Prelude.{◌≡◌, ◌++◌, [], ◌∷◌, if◌then◌else◌, ℕ, length, IfErr, IfOk};
ghost use Rattle.std.specs.Prelude.{OnOk};
ghost use Rattle.gimli_lookup.specs.PathFiles.{has_path};
ghost use Rattle.gimli_lookup.specs.ProgramPaths.{texts_seen, unit_paths};
ghost use Rattle.gimli_lookup.specs.inside.Statements.{AreBelow};
ghost use Rattle.gimli_lookup.specs.inside.Statements.{is_among};

use crate::path_error::PathError;
use crate::program_paths::ProgramPaths;
use crate::statements::append;
use gimli_core::{Error, Reader, Result};
use gimli_line::LineProgramHeader;
use std::alloc::Global;

/// Whether the file of an index has this whole path. Fails only with `OutOfMemory`.
fn has_path<R: Reader>(
    alloc: Global,
    file: u64,
    header: &LineProgramHeader<R>,
    paths: &ProgramPaths<R>,
    path: &[u8],
) -> Result<bool>
    ensures ok { IfOk result (λ has. has ≡ has_path (unit_paths (texts_seen R.seen paths.now)
        (R.Offset.number header.now.offset.0) header.now.meaning) path.now file) }
    ensures err { IfErr result (λ e. e ≡ Error.OutOfMemory) }
{
    let Some(entry) = header.file(file) else {
        return Ok(false);
    };
    match paths.of_file(alloc, header, entry) {
        Ok(whole) => Ok(whole.as_slice() == path),
        Err(e) => match e {
            PathError::OutOfMemory => Err(Error::OutOfMemory),
            _ => Ok(false),
        },
    }
}

/// Appends the index of a file if it has this whole path. Fails only with `OutOfMemory`.
fn append_with_path<R: Reader>(
    alloc: Global,
    file: u64,
    header: &LineProgramHeader<R>,
    paths: &ProgramPaths<R>,
    path: &[u8],
    files: &mut Vec<u64>,
) -> Result<()>
    ensures ok { let paths = unit_paths (texts_seen R.seen paths.now)
        (R.Offset.number header.now.offset.0) header.now.meaning in
        OnOk result (files.new.items
        ≡ files.old.items ++ (if has_path paths path.now file then file ∷ [] else [])) }
    ensures err { IfErr result (λ e. e ≡ Error.OutOfMemory) }
{
    if has_path(alloc, file, header, paths, path)? {
        append(files, file)?;
    }
    Ok(())
}

/// The indices below an end of the files that have this whole path. Fails only with `OutOfMemory`.
fn files_below<R: Reader>(
    alloc: Global,
    end: u64,
    header: &LineProgramHeader<R>,
    paths: &ProgramPaths<R>,
    path: &[u8],
) -> Result<Vec<u64>>
    ensures ok { IfOk result (λ files. AreBelow (has_path (unit_paths (texts_seen R.seen paths.now)
        (R.Offset.number header.now.offset.0) header.now.meaning) path.now) end files.items) }
    ensures err { IfErr result (λ e. e ≡ Error.OutOfMemory) }
{
    let mut files = Vec::new(alloc);
    for file in 0..end {
        append_with_path(alloc, file, header, paths, path, &mut files)?;
    }
    Ok(files)
}

/// The greatest index that a file may have: that of the last one up to version 4, where the table
/// begins at 1.
fn last_index<R: Reader>(header: &LineProgramHeader<R>) -> u64
    ensures { result ≡ length header.now.meaning.files }
{
    header.file_names().len() as u64
}

/// The indices of the files that have this whole path; one that has no path isn't among them. Fails
/// only with `OutOfMemory`.
pub(crate) fn files_with_path<R: Reader>(
    alloc: Global,
    header: &LineProgramHeader<R>,
    paths: &ProgramPaths<R>,
    path: &[u8],
) -> Result<Vec<u64>>
    ensures ok { IfOk result (λ files. (i : ℕ) → is_among files.items i
        ≡ has_path (unit_paths (texts_seen R.seen paths.now)
        (R.Offset.number header.now.offset.0) header.now.meaning) path.now i) }
    ensures err { IfErr result (λ e. e ≡ Error.OutOfMemory) }
{
    let last = last_index(header);
    let mut files = files_below(alloc, last, header, paths, path)?;
    append_with_path(alloc, last, header, paths, path, &mut files)?;
    Ok(files)
}
