//! Sections of strings whose last zero byte is known: after it, no search looks for another one.
//! Otherwise each string without an end would cost a search through the rest of its section.

ghost use Rattle.std.specs.Prelude.{◌≡◌, ◌≢◌, ◌≤◌, ◌<◌, drop, length, Err, IfErr, IfOk, List, Ok};
ghost use Rattle.std.specs.Prelude.{None, Option, ℕ};
ghost use Rattle.std.specs.List.{AllByRecursion};
ghost use Rattle.std.specs.Option.{option_copied};
ghost use Rattle.gimli_core.specs.Values.{Value, value_seen};
ghost use Rattle.gimli_line.specs.header.File.{file_seen, File};
ghost use Rattle.gimli_line.specs.header.Header.{Header};
ghost use Rattle.gimli_lookup.specs.Paths.{directory_path, directory_string, file_path};
ghost use Rattle.gimli_lookup.specs.Paths.{needs_directory};
ghost use Rattle.gimli_lookup.specs.Strings.{Strings, string_at, string_of, strings};
ghost use Rattle.gimli_lookup.specs.declared.path_error.PathError.TheVariants.{OutOfMemory};
ghost use Rattle.gimli_lookup.specs.declared.path_error.PathError.TheVariants.{
  StringOffsetOutOfBounds,
};
ghost use Rattle.gimli_lookup.specs.declared.path_error.PathError.TheVariants.{UnterminatedString};
ghost use Rattle.gimli_lookup.specs.declared.path_error.PathError.{PathError};
ghost use Rattle.gimli_lookup.specs.inside.Paths.{paths_in, AreEnded, IsEnded};

use crate::laws::strings_are_spelled;
use crate::path_error::PathError;
use crate::paths::Paths;
use crate::string_sections::StringSections;
use gimli_core::{AttributeValue, Reader, ReaderOffset};
use gimli_line::{FileEntry, LineProgramHeader};
use std::alloc::{AllocError, Global};
use std::marker::Model;

/// The sections of strings, and these without the bytes after their last zero bytes.
#[derive(Clone, Copy)]
struct Sections<R> {
    whole: StringSections<R>,
    ended: StringSections<R>,
}

/// The sections of strings.
#[derive(Drop)]
pub(crate) struct EndedStrings<R: Reader> {
    sections: Sections<R>,
}

impl<R: Reader> Model for EndedStrings<R> {
    ghost use Rattle.gimli_lookup.specs.Strings.{strings};
    ghost use Rattle.gimli_lookup.specs.declared.string_sections.StringSections.{StringSections};
    ghost use Rattle.gimli_lookup.specs.inside.Paths.{AreEnded};

    ghost Value = { StringSections R };

    ghost view = { λ a. a.sections.whole };

    ghost invariant = { λ a. AreEnded (strings R.seen a.sections.whole)
        (strings R.seen a.sections.ended) };
}

/// A string that ends before the bytes that are left out is the same in the whole section, and one
/// that doesn't has no end there.
fn strings_end_alike()
    ensures found { (whole ended : List ℕ) (offset : ℕ) (string : List ℕ) → IsEnded whole ended
        → string_at ended offset ≡ Ok string → string_at whole offset ≡ Ok string }
    ensures unended { (whole ended : List ℕ) (offset : ℕ) (e : PathError) → IsEnded whole ended
        → string_at ended offset ≡ Err e → offset < length whole
        → string_at whole offset ≡ Err UnterminatedString }
    ensures out { (section : List ℕ) (offset : ℕ) → length section ≤ offset
        → string_at section offset ≡ Err StringOffsetOutOfBounds }
{
    strings_are_spelled();
}

/// How many bytes stand up to the last zero byte, with it.
fn ended_length(bytes: &[u8]) -> usize
    ensures within { result ≤ length bytes.now }
    ensures rest { AllByRecursion (λ byte. byte ≢ 0) (drop result bytes.now) }
{
    let mut length = bytes.len();
    while length > 0 {
        if bytes[length - 1] == 0 {
            return length;
        }
        length -= 1;
    }
    0
}

/// A section without the bytes after its last zero byte.
fn ended<R: Reader>(section: R) -> Result<R, AllocError>
    ensures ended { IfOk result (λ ended. IsEnded (R.seen section).bytes (R.seen ended).bytes) }
{
    let Ok(bytes) = section.to_slice() else {
        return Err(AllocError);
    };
    let mut ended = section;
    match R::Offset::from_u64(ended_length(&bytes) as u64) {
        Ok(length) if ended.truncate(length).is_ok() => Ok(ended),
        _ => Ok(section),
    }
}

/// Why a section has no string at an offset, if no string ends after it.
fn fault_at<R: Reader>(section: R, offset: R::Offset) -> PathError
    ensures out { length (R.seen section).bytes ≤ R.Offset.number offset
        → result ≡ StringOffsetOutOfBounds }
    ensures within { R.Offset.number offset < length (R.seen section).bytes
        → result ≡ UnterminatedString }
{
    if offset.into_u64() < section.len().into_u64() {
        PathError::UnterminatedString
    } else {
        PathError::StringOffsetOutOfBounds
    }
}

/// A path that the ended sections give is the one that the whole sections give.
fn paths_end_alike()
    ensures { (whole ended : Strings) (h : Header) (known : Option (List ℕ)) (f : File)
        (path : List ℕ) → AreEnded whole ended
        → file_path (paths_in ended h known) f ≡ Ok path
        → file_path (paths_in whole h known) f ≡ Ok path }
{
    strings_end_alike();
}

impl<R: Reader> Sections<R> {
    /// Why there is no string for a value, where the ended sections have this reason.
    fn value_fault(&self, value: AttributeValue<R>, fault: PathError) -> PathError
        requires ended { AreEnded (strings R.seen self.now.whole)
            (strings R.seen self.now.ended) }
        requires fault { string_of (strings R.seen self.now.ended)
            (value_seen R.seen R.Offset.number value) ≡ Err fault }
        ensures { string_of (strings R.seen self.now.whole)
            (value_seen R.seen R.Offset.number value) ≡ Err result }
    {
        strings_end_alike();
        match value {
            AttributeValue::DebugLineStrRef(offset) => {
                fault_at(self.whole.debug_line_str, offset.0)
            }
            AttributeValue::DebugStrRef(offset) => fault_at(self.whole.debug_str, offset.0),
            _ => fault,
        }
    }

    /// Why there is no string for a directory.
    fn directory_fault(
        &self,
        header: &LineProgramHeader<R>,
        index: u64,
        fault: PathError,
    ) -> PathError
        requires ended { AreEnded (strings R.seen self.now.whole)
            (strings R.seen self.now.ended) }
        requires fault { directory_string
            (paths_in (strings R.seen self.now.ended) header.now.meaning None) index
            ≡ Err fault }
        ensures { directory_string
            (paths_in (strings R.seen self.now.whole) header.now.meaning None) index
            ≡ Err result }
    {
        match header.directory(index) {
            Some(value) => self.value_fault(value, fault),
            None => fault,
        }
    }

    /// Why a directory has no whole path.
    fn path_fault(&self, header: &LineProgramHeader<R>, index: u64, fault: PathError) -> PathError
        requires ended { AreEnded (strings R.seen self.now.whole)
            (strings R.seen self.now.ended) }
        requires fault { (known : Option (List ℕ)) × (directory_path
            (paths_in (strings R.seen self.now.ended) header.now.meaning known) index
            ≡ Err fault) }
        ensures { (known : Option (List ℕ)) → directory_path
            (paths_in (strings R.seen self.now.whole) header.now.meaning known) index
            ≡ Err result }
    {
        strings_end_alike();
        match header.directory(index) {
            Some(value) if self.ended.attr_line_string(value).is_err() => {
                self.value_fault(value, fault)
            }
            Some(_) => self.directory_fault(header, 0, fault),
            None => fault,
        }
    }

    /// Why a file has no whole path.
    fn file_fault(
        &self,
        header: &LineProgramHeader<R>,
        file: &FileEntry<R>,
        fault: PathError,
    ) -> PathError
        requires ended { AreEnded (strings R.seen self.now.whole)
            (strings R.seen self.now.ended) }
        requires fault { (known : Option (List ℕ)) × (file_path
            (paths_in (strings R.seen self.now.ended) header.now.meaning known)
            (file_seen R.seen R.Offset.number file.now) ≡ Err fault) }
        ensures { (known : Option (List ℕ)) → file_path
            (paths_in (strings R.seen self.now.whole) header.now.meaning known)
            (file_seen R.seen R.Offset.number file.now) ≡ Err result }
    {
        strings_end_alike();
        let name = file.path_name();
        if self.ended.attr_line_string(name).is_err() {
            return self.value_fault(name, fault);
        }
        self.path_fault(header, file.directory_index(), fault)
    }
}

impl<R: Reader> EndedStrings<R> {
    /// The strings of these sections.
    pub(crate) fn new(whole: StringSections<R>) -> Result<EndedStrings<R>, AllocError>
        ensures { IfOk result (λ ended. ended ≡ whole) }
    {
        let ended = StringSections {
            debug_line_str: ended(whole.debug_line_str)?,
            debug_str: ended(whole.debug_str)?,
        };
        Ok(EndedStrings {
            sections: Sections { whole, ended },
        })
    }

    /// Whether the paths of a header need the directory of its compilation, as
    /// `Paths::needs_directory` says.
    pub(crate) fn need_directory(&self, header: &LineProgramHeader<R>) -> bool
        ensures { result ≡ needs_directory
            (paths_in (strings R.seen self.now) header.now.meaning None) }
    {
        Paths::new(header, self.sections.whole, None).needs_directory()
    }

    /// The whole path of a file, by the directory of its compilation where that is known. Refused
    /// as `Paths::of_file` is.
    pub(crate) fn of_file(
        &self,
        alloc: Global,
        header: &LineProgramHeader<R>,
        known: Option<&[u8]>,
        file: &FileEntry<R>,
    ) -> Result<Vec<u8>, PathError>
        ensures ok { let paths = paths_in (strings R.seen self.now) header.now.meaning
            (option_copied known.entry) in
            IfOk result (λ path. file_path paths (file_seen R.seen R.Offset.number file.now)
            ≡ Ok path.items) }
        ensures err { let paths = paths_in (strings R.seen self.now) header.now.meaning
            (option_copied known.entry) in
            IfErr result (λ e. e ≢ OutOfMemory
            → file_path paths (file_seen R.seen R.Offset.number file.now) ≡ Err e) }
    {
        paths_end_alike();
        let sections = &self.sections;
        match Paths::new(header, sections.ended, known).of_file(alloc, file) {
            Err(e) if e != PathError::OutOfMemory => Err(sections.file_fault(header, file, e)),
            path => path,
        }
    }
}
