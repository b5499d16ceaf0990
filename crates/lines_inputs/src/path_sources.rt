//! The whole paths of files: what a relative path starts from.
//!
//! Up to version 4 the directory of a compilation is only in `.debug_info` (DWARF 4, sections 3.1.1
//! and 6.2.4). In version 5 a header has it as directory 0, and that of `.debug_info` counts only
//! if this one is empty (DWARF 5, the same sections).

ghost use Rattle.std.specs.Prelude.{◌≡◌, IfOk, option_map};
ghost use Rattle.gimli_compilation.specs.Directories.{TellsDirectories, directory_for};
ghost use Rattle.gimli_compilation.specs.Sections.{sections_of};

use crate::input::Input;
use crate::path_budget::PathBudget;
use gimli_compilation::Compilations;
use gimli_core::{AttributeValue, Reader, ReaderOffset};
use gimli_line::{FileEntry, LineProgramHeader};
use gimli_lookup::{PathError, ProgramPaths, StringSections};
use std::alloc::{AllocError, Global};
use std::fmt;

/// What whole paths are made of, besides the header of a unit.
#[derive(Drop)]
pub struct PathSources<R: Reader> {
    /// The sections of texts.
    strings: StringSections<R>,
    /// The paths by these and by the directories of compilations.
    paths: ProgramPaths<R>,
}

impl<R: Reader> PathSources<R> {
    /// Reads the first entry of each unit of `.debug_info` once.
    pub fn new(alloc: Global, input: &Input<R>) -> Result<PathSources<R>, AllocError>
        ensures directories { IfOk result (λ sources.
            TellsDirectories (sections_of R.seen R.Offset.limit input.now.compilations)
            (λ line. option_map (λ r. (R.seen r).bytes) (directory_for sources.paths.1 line))) }
        ensures strings { IfOk result (λ sources. sources.paths.0 ≡ input.now.strings) }
    {
        let strings = input.strings;
        let Ok(compilations) = Compilations::new(alloc, &input.compilations) else {
            return Err(AllocError);
        };
        let mut paths = ProgramPaths::new(strings)?;
        paths.set_compilations(compilations);
        Ok(PathSources { strings, paths })
    }

    /// Why a path isn't known, as it is printed.
    pub fn fault(&self, error: PathError) -> PathFault {
        PathFault {
            error,
            is_without_texts: self.strings.debug_line_str.is_empty(),
        }
    }

    /// The sections of texts.
    pub fn strings(&self) -> &StringSections<R>
        ensures { result.now ≡ self.now.strings }
    {
        &self.strings
    }

    /// The whole paths.
    pub fn paths(&self) -> &ProgramPaths<R>
        ensures { result.now ≡ self.now.paths }
    {
        &self.paths
    }

    /// The whole path of the file of an index, whose bytes are counted; if it isn't known, the
    /// bytes that were read to find that are counted.
    pub fn counted(
        &self,
        alloc: Global,
        header: &LineProgramHeader<R>,
        index: u64,
        budget: &mut PathBudget,
    ) -> Result<Vec<u8>, PathError> {
        let Some(file) = header.file(index) else {
            return Err(PathError::InvalidFileIndex(index));
        };
        let path = self.paths.of_file(alloc, header, file);
        budget.count(match &path {
            Ok(path) => path.len() as u64,
            Err(_) => self.texts_length(header, file),
        });
        path
    }

    /// How many bytes the texts have that the path of a file may be made of.
    fn texts_length(&self, header: &LineProgramHeader<R>, file: &FileEntry<R>) -> u64 {
        let mut length = self.text_length(file.path_name());
        for index in [file.directory_index(), 0] {
            if let Some(directory) = header.directory(index) {
                length = length.saturating_add(self.text_length(directory));
            }
        }
        length
    }

    /// How many bytes the text of a value has; of one without an end, all up to the end of its
    /// section.
    pub fn text_length(&self, value: AttributeValue<R>) -> u64 {
        let error = match self.strings.attr_line_string(value) {
            Ok(text) => return text.len().into_u64(),
            Err(error) => error,
        };
        if error != PathError::UnterminatedString {
            return 0;
        }
        let (section, offset) = match value {
            AttributeValue::DebugLineStrRef(offset) => (&self.strings.debug_line_str, offset.0),
            AttributeValue::DebugStrRef(offset) => (&self.strings.debug_str, offset.0),
            _ => return 0,
        };
        let length = section.len().into_u64();
        length.saturating_sub(offset.into_u64())
    }

    /// The whole path of the file of an index; None if there is no such file, or its path isn't
    /// known.
    pub fn known_path(
        &self,
        alloc: Global,
        header: &LineProgramHeader<R>,
        index: u64,
    ) -> Result<Option<Vec<u8>>, AllocError> {
        let Some(file) = header.file(index) else {
            return Ok(None);
        };
        match self.paths.of_file(alloc, header, file) {
            Ok(path) => Ok(Some(path)),
            Err(PathError::OutOfMemory) => Err(AllocError),
            Err(_) => Ok(None),
        }
    }
}

/// Why a path isn't known, as it is printed.
#[derive(Clone, Copy)]
pub struct PathFault {
    /// Why.
    pub error: PathError,
    /// Whether the section `.debug_line_str` is missing.
    pub is_without_texts: bool,
}

impl fmt::Display for PathFault {
    fn fmt<W: fmt::Write>(&self, f: &mut fmt::Formatter<W>) -> fmt::Result {
        let error = self.error;
        write!(f, "{error}")?;
        if self.is_without_texts && error == PathError::StringOffsetOutOfBounds {
            f.write_str("; name the section .debug_line_str by --line-str")?;
        }
        Ok(())
    }
}

/// A path, or why it isn't known. Missing memory is no such reason.
pub fn path_or_fault<R: Reader>(
    sources: &PathSources<R>,
    path: Result<Vec<u8>, PathError>,
) -> Result<(Option<Vec<u8>>, Option<PathFault>), AllocError> {
    match path {
        Ok(path) => Ok((Some(path), None)),
        Err(PathError::OutOfMemory) => Err(AllocError),
        Err(error) => Ok((None, Some(sources.fault(error)))),
    }
}
