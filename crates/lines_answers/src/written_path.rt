//! Paths in the pieces that they are written in.
//!
//! `gimli_lookup::Paths` puts a whole path together from the name of a file, its directory and the
//! directory of its compilation. Each of them may be as long as the section, and many files may
//! share it, so paths are compared and kept in these pieces here, and put together to be printed.

use crate::components::PathLeft;
use crate::section_strings::SectionStrings;
use gimli_core::{AttributeValue, Reader, ReaderOffset};
use gimli_line::LineProgramHeader;
use lines_inputs::{Input, PathBudget, PathSources, Result};
use std::alloc::{AllocError, Global};
use std::borrow::CowSlice;

/// Whether a byte separates the components of a path.
pub(crate) fn is_separator(byte: u8) -> bool {
    byte == b'/' || byte == b'\\'
}

/// Whether a path isn't relative to any directory, by the rules of POSIX or of Windows.
fn is_absolute<R: Reader>(path: R) -> bool {
    let mut rest = path;
    match rest.read_u8() {
        Ok(b'/' | b'\\') => return true,
        Ok(letter) if letter.is_ascii_alphabetic() => {}
        _ => return false,
    }
    if !matches!(rest.read_u8(), Ok(b':')) {
        return false;
    }
    matches!(rest.read_u8(), Ok(b'/' | b'\\'))
}

/// The bytes of a reader.
pub(crate) fn bytes_in<R: Reader>(reader: &R) -> Result<CowSlice<'_, u8>> {
    match reader.to_slice() {
        Ok(bytes) => Ok(bytes),
        Err(_) => Err(AllocError),
    }
}

/// A path in three pieces, each of which is relative to the one after it: the name of a file, its
/// directory, and the directory of its compilation. A piece that the path doesn't need has no
/// bytes.
#[derive(Clone, Copy)]
pub(crate) struct WrittenPath<R: Reader> {
    pub(crate) name: R,
    pub(crate) directory: R,
    pub(crate) base: R,
}

/// Appends a piece of a path, after a separator where one is needed.
pub(crate) fn append_piece<R: Reader>(path: &mut Vec<u8>, piece: &R) -> Result<()> {
    match path.last() {
        Some(byte) if !is_separator(*byte) => path.push(b'/')?,
        _ => {}
    }
    path.extend_from_slice(&bytes_in(piece)?)
}

impl<R: Reader> WrittenPath<R> {
    /// Writes the whole path to the buffer, instead of what is there.
    pub(crate) fn write_to(&self, path: &mut Vec<u8>) -> Result<()> {
        path.clear();
        append_piece(path, &self.base)?;
        append_piece(path, &self.directory)?;
        append_piece(path, &self.name)
    }

    /// The most bytes that the whole path may have.
    pub(crate) fn most(&self) -> u64 {
        let directories = self
            .base
            .len()
            .into_u64()
            .saturating_add(self.directory.len().into_u64());
        let name = self.name.len().into_u64();
        name.saturating_add(directories).saturating_add(2)
    }

    /// How many bytes the path has without the directory of its compilation.
    pub(crate) fn own_length(&self) -> u64 {
        let name = self.name.len().into_u64();
        name.saturating_add(self.directory.len().into_u64())
    }

    /// Whether these are the last components of the path. The bytes that are read after these and
    /// are no part of them count toward the budget.
    pub(crate) fn ends_with(&self, components: &[&[u8]], budget: &mut PathBudget) -> Result<bool> {
        let name = bytes_in(&self.name)?;
        let directory = bytes_in(&self.directory)?;
        let base = bytes_in(&self.base)?;
        Ok(end_with(&name, &directory, &base, components, budget))
    }
}

/// Whether components are the last ones of a path in pieces.
fn end_with(
    name: &[u8],
    directory: &[u8],
    base: &[u8],
    components: &[&[u8]],
    budget: &mut PathBudget,
) -> bool {
    let mut path = PathLeft::new([name, directory, base]);
    let ends_so = path.ends_with(components);
    budget.count(path.dropped());
    ends_so
}

/// What paths are read from.
#[derive(Drop)]
pub(crate) struct WrittenPaths<R: Reader> {
    sources: PathSources<R>,
    line_strings: SectionStrings<R>,
    strings: SectionStrings<R>,
}

impl<R: Reader> WrittenPaths<R> {
    /// The paths of a program.
    pub(crate) fn new(alloc: Global, input: &Input<R>) -> Result<WrittenPaths<R>> {
        let sources = PathSources::new(alloc, input)?;
        let line_strings = SectionStrings::new(alloc, sources.strings().debug_line_str);
        let strings = SectionStrings::new(alloc, sources.strings().debug_str);
        Ok(WrittenPaths {
            sources,
            line_strings,
            strings,
        })
    }

    /// The string that a value stands for; None where it stands for none.
    fn string(&mut self, value: AttributeValue<R>) -> Result<Option<R>> {
        match value {
            AttributeValue::String(string) => Ok(Some(string)),
            AttributeValue::DebugLineStrRef(offset) => self.line_strings.at(offset.0),
            AttributeValue::DebugStrRef(offset) => self.strings.at(offset.0),
            _ => Ok(None),
        }
    }

    /// The directory at an index, as it is written. None where the header has none; but up to
    /// version 4 the one at index 0 then has no bytes.
    fn directory(
        &mut self,
        header: &LineProgramHeader<R>,
        index: u64,
        nothing: R,
    ) -> Result<Option<R>> {
        match header.directory(index) {
            Some(value) => self.string(value),
            None if header.version() <= 4 && index == 0 => Ok(Some(nothing)),
            None => Ok(None),
        }
    }

    /// The directory of the compilation, without bytes where nobody knows it. None where that of
    /// the header can't be determined.
    fn base(&mut self, header: &LineProgramHeader<R>, nothing: R) -> Result<Option<R>> {
        let Some(zero) = self.directory(header, 0, nothing)? else {
            return Ok(None);
        };
        if !zero.is_empty() {
            return Ok(Some(zero));
        }
        let offset = header.offset().0.into_u64();
        let known = self.sources.paths().directory_of(offset);
        Ok(Some(known.unwrap_or(nothing)))
    }

    /// The path of the file at an index; None where there is none, or it isn't known.
    pub(crate) fn of_file(
        &mut self,
        header: &LineProgramHeader<R>,
        index: u64,
    ) -> Result<Option<WrittenPath<R>>> {
        let Some(file) = header.file(index) else {
            return Ok(None);
        };
        let Some(name) = self.string(file.path_name())? else {
            return Ok(None);
        };
        let mut nothing = name;
        nothing.empty();
        let mut path = WrittenPath {
            name,
            directory: nothing,
            base: nothing,
        };
        if is_absolute(name) {
            return Ok(Some(path));
        }
        let number = file.directory_index();
        if number > 0 {
            let Some(directory) = self.directory(header, number, nothing)? else {
                return Ok(None);
            };
            path.directory = directory;
            if is_absolute(directory) {
                return Ok(Some(path));
            }
        }
        let Some(base) = self.base(header, nothing)? else {
            return Ok(None);
        };
        path.base = base;
        Ok(Some(path))
    }
    /// The whole path of the file at an index; None where there is none, or it isn't known.
    pub(crate) fn whole_path(
        &mut self,
        alloc: Global,
        header: &LineProgramHeader<R>,
        index: u64,
    ) -> Result<Option<Vec<u8>>> {
        let Some(written) = self.of_file(header, index)? else {
            return Ok(None);
        };
        let mut path = Vec::new(alloc);
        written.write_to(&mut path)?;
        Ok(Some(path))
    }
}
