//! Files by their names: what names a program, and a file that is written whole.

use debug_files::{Outline, Refusal};
use elf_sections::{ElfError, usual_limit};
use std::fs::File;
use std::io::ErrorKind;
use std::rt::Files;
use std::{fs, io};

/// The build id of a file that is an ELF file; None where it has none, and where it can't be read,
/// which its reader reports. The limit is that of [`debug_files::source_of`]. Fails where memory is
/// missing.
pub fn build_id_in<R: Files + AllocGlobal>(
    rt: &R,
    name: &str,
    limit: Option<u64>,
) -> io::Result<Option<Vec<u8>>> {
    match read_build_id(rt, name, limit) {
        Ok(id) => Ok(id),
        Err(Refusal::Elf(ElfError::OutOfMemory)) => Err(io::Error::from(ErrorKind::OutOfMemory)),
        Err(Refusal::Io(error)) if error.kind() == ErrorKind::OutOfMemory => Err(error),
        Err(_) => Ok(None),
    }
}

/// The build id of a file.
fn read_build_id<R: Files + AllocGlobal>(
    rt: &R,
    name: &str,
    limit: Option<u64>,
) -> Result<Option<Vec<u8>>, Refusal> {
    // Checked before the file is opened: opening a pipe may take for ever.
    let found = fs::metadata(rt, name)?;
    if !found.is_file() {
        return Ok(None);
    }
    let limit = limit.unwrap_or(usual_limit(found.len()));
    let alloc = rt.alloc();
    let mut file = File::open(rt, name)?;
    let outline = Outline::read(alloc, &mut file)?;
    let note = outline.section(alloc, &mut file, b".note.gnu.build-id", limit)?;
    let Some(section) = note else {
        return Ok(None);
    };
    match outline.sections()?.build_id(&section) {
        Some(id) => Ok(Some(Vec::from_slice(alloc, id)?)),
        None => Ok(None),
    }
}

/// Writes a file whole: it gets its name once all its bytes are written under another one. Anything
/// but a regular file, such as a pipe, is written directly.
pub fn write_file<R: Files + AllocGlobal>(rt: &R, path: &str, bytes: &[u8]) -> io::Result<()> {
    match fs::metadata(rt, path) {
        Ok(found) if !found.is_file() => return fs::write(rt, path, bytes),
        _ => {}
    }
    let part = format!(in rt.alloc(); "{path}.part")?;
    let written = match fs::write(rt, &part, bytes) {
        Ok(()) => fs::rename(rt, &part, path),
        Err(error) => Err(error),
    };
    if written.is_err() {
        // Where it can't be removed, what was written stays under the other name.
        let _ = fs::remove_file(rt, &part);
    }
    written
}
