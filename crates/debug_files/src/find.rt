//! Where the sections of a program are read: in its own file, or in the file with its debug
//! information.

use crate::debug_paths::debug_file_paths;
use crate::missing::Missing;
use crate::program_file::{ProgramFile, open};
use crate::source::{Found, FoundSections, Wanted};
use std::alloc::{AllocError, Global};
use std::fs;
use std::io::{Read, Seek};
use std::rt::Files;

/// Reads the sections of a program by its path. If its own file has no line programs, this looks
/// for its debug file at the paths of [`debug_file_paths`], with [`DEBUG_DIRECTORY`] unless another
/// directory of debug files is given: by the build id, and then by the name in the program's link.
/// It skips a file there with another build id, or another checksum. The bounds of code come from
/// the file with the line programs, or else from the program. An object file is read whole. A
/// compressed section that would have more bytes than the limit is refused; without a limit,
/// [`elf_sections::usual_limit`] of the size of its file is the limit.
pub fn source_of<R: Files + AllocGlobal>(
    rt: &R,
    path: &str,
    directory: &str,
    wanted: Wanted,
    limit: Option<u64>,
) -> Result<Found, Missing> {
    let opened = open_source(rt, path, directory, wanted, limit)?;
    Ok(opened.found)
}

/// The sections of a program by its path, as [`source_of`] finds them, and the file that they are
/// in, from which the sections that were left out can be read later.
pub fn open_source<R: Files + AllocGlobal>(
    rt: &R,
    path: &str,
    directory: &str,
    wanted: Wanted,
    limit: Option<u64>,
) -> Result<OpenSource<R::File>, Missing> {
    let mut program = open(rt, path, limit)?;
    if program.is_relocatable()? {
        let found = Found::Whole(program.whole(rt.alloc())?);
        return Ok(OpenSource { found, file: None });
    }
    if let Some(source) = program.source(rt.alloc(), wanted)? {
        return Ok(opened(source, program));
    }
    let places = Places { path, directory };
    let (mut source, file) = find_apart(rt, places, &mut program, wanted, limit)?;
    if source.lowest == 0 {
        source.lowest = program.lowest()?;
        source.code_end = program.code_end()?;
    }
    Ok(opened(source, file))
}

/// The sections of a program, and the file that they are in.
///
/// <!-- part of crates/lines/src/inputs.rt -->
/// ```rust
/// let inputs = Inputs::new(request, source.found, line_str, strings);
/// Ok(Some(OpenInputs {
///     inputs,
///     file: source.file,
/// }))
/// ```
#[derive(Drop)]
pub struct OpenSource<F> {
    /// The sections that were read.
    pub found: Found,
    /// Their file. None where all of it was read.
    pub file: Option<ProgramFile<F>>,
}

/// The sections of a linked program with their file.
fn opened<F>(source: FoundSections, file: ProgramFile<F>) -> OpenSource<F> {
    OpenSource {
        found: Found::Sections(source),
        file: Some(file),
    }
}

/// Where a debug file is looked for.
#[derive(Clone, Copy)]
struct Places<'p> {
    /// The path of the program.
    path: &'p str,
    /// The directory of debug files.
    directory: &'p str,
}

/// How a debug file is known to be a program's.
#[derive(Clone, Copy)]
enum Sign<'i> {
    /// It has this build id.
    BuildId(&'i [u8]),
    /// The checksum of its bytes is this.
    Checksum(u32),
}

/// What is looked for in a file.
#[derive(Clone, Copy)]
struct Search<'i> {
    sign: Sign<'i>,
    wanted: Wanted,
    limit: Option<u64>,
}

/// The sections in the debug file of a program, and that file.
fn find_apart<R: Files + AllocGlobal>(
    rt: &R,
    places: Places<'_>,
    program: &mut ProgramFile<R::File>,
    wanted: Wanted,
    limit: Option<u64>,
) -> Result<(FoundSections, ProgramFile<R::File>), Missing> {
    let alloc = rt.alloc();
    let directory = places.directory;
    let whole = whole_path(rt, places.path)?;
    let mut reasons = String::new(alloc);
    if let Some(id) = program.build_id(alloc)? {
        let places = debug_file_paths(alloc, directory, &whole, Some(&id), None)?;
        let search = Search {
            sign: Sign::BuildId(&id),
            wanted,
            limit,
        };
        if let Some(source) = try_each(rt, &places, search, &mut reasons)? {
            return Ok(source);
        }
    }
    if let Some(link) = program.debug_link(alloc)? {
        let places = debug_file_paths(alloc, directory, &whole, None, Some(&link.name))?;
        let search = Search {
            sign: Sign::Checksum(link.checksum),
            wanted,
            limit,
        };
        if let Some(source) = try_each(rt, &places, search, &mut reasons)? {
            return Ok(source);
        }
    }
    if reasons.is_empty() {
        Err(Missing::NoLines)
    } else {
        Err(Missing::Everywhere(reasons))
    }
}

/// A path from the root on, without links; as it is where that can't be known.
fn whole_path<R: Files + AllocGlobal>(rt: &R, path: &str) -> Result<String, AllocError> {
    match fs::canonicalize(rt, path) {
        Ok(whole) => String::from_str(rt.alloc(), whole.as_path().as_str()),
        Err(_) => String::from_str(rt.alloc(), path),
    }
}

/// The sections at the first place where there is a debug file with them, and that file. For each
/// place before it, appends to `reasons` a line feed, and a line with the place and why it isn't
/// one.
fn try_each<R: Files + AllocGlobal>(
    rt: &R,
    places: &[String],
    search: Search<'_>,
    reasons: &mut String,
) -> Result<Option<(FoundSections, ProgramFile<R::File>)>, Missing> {
    for place in places {
        match signed_source(rt, place, search) {
            Ok(source) => return Ok(Some(source)),
            Err(missing) => {
                let place = place.escape_debug();
                let line = format!(in rt.alloc(); "\n  {place}: {missing}")?;
                reasons.push_str(&line)?;
            }
        }
    }
    Ok(None)
}

/// The sections of a file that has a sign, and the file.
fn signed_source<R: Files + AllocGlobal>(
    rt: &R,
    place: &str,
    search: Search<'_>,
) -> Result<(FoundSections, ProgramFile<R::File>), Missing> {
    let alloc = rt.alloc();
    let mut file = open(rt, place, search.limit)?;
    check_sign(alloc, &mut file, search.sign)?;
    if file.is_relocatable()? {
        return Err(Missing::NotLinked);
    }
    match file.source(alloc, search.wanted)? {
        Some(source) => Ok((source, file)),
        None => Err(Missing::NoLines),
    }
}

/// Refuses a file without a sign.
fn check_sign<F: Read + Seek>(
    alloc: Global,
    file: &mut ProgramFile<F>,
    sign: Sign<'_>,
) -> Result<(), Missing> {
    match sign {
        Sign::BuildId(id) => match file.build_id(alloc)? {
            Some(own) if own.as_slice() == id => Ok(()),
            _ => Err(Missing::OtherBuildId),
        },
        Sign::Checksum(checksum) => {
            if file.checksum(alloc)? == checksum {
                Ok(())
            } else {
                Err(Missing::OtherChecksum)
            }
        }
    }
}
