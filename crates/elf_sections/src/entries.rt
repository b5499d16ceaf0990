//! Sections of entries of one size.

ghost use Rattle.std.specs.Prelude.{◌≡◌, ◌+◌, ◌*◌, ◌/◌, ◌<◌, ◌≤◌, length, drop, slice_get, IfOk};
ghost use Rattle.std.specs.Prelude.{IfSome};
ghost use Rattle.std.specs.Option.{option_copied};
ghost use Rattle.gimli_core.specs.Reading.{result_map};
ghost use Rattle.elf_sections.specs.Entries.{entries, entries_at};

use crate::error::ElfError;
use crate::section_header::SectionHeader;

/// The entries of a section.
#[derive(Clone, Copy, Debug)]
pub(crate) struct Entries<'a> {
    pub(crate) bytes: &'a [u8],
    /// The bytes of an entry.
    pub(crate) size: usize,
    ghost positive: { 0 < size },
}

impl<'a> Entries<'a> {
    /// The entries of a section of a file, which have so many bytes at least.
    pub(crate) fn parse(
        file: &'a [u8],
        smallest: usize,
        header: &SectionHeader,
    ) -> Result<Entries<'a>, ElfError>
        requires { 0 < smallest }
        ensures read { result_map (λ all. entries all.size all.bytes.now) result
            ≡ entries_at file.now smallest header.now }
        ensures wide { IfOk result (λ all. smallest ≤ all.size) }
    {
        if header.entry_size < smallest as u64 {
            return Err(ElfError::EntrySize(header.entry_size));
        }
        let bytes = header.bytes_in(file)?;
        Ok(Entries {
            bytes,
            size: header.entry_size as usize,
        })
    }

    /// How many entries there are. Bytes after the last whole one are passed over.
    pub(crate) fn count(&self) -> usize
        ensures { result ≡ length self.now.bytes.now / self.now.size }
    {
        self.bytes.len() / self.size
    }

    /// The bytes from the entry of an index on.
    pub(crate) fn at(&self, index: usize) -> &'a [u8]
        requires { index < length self.now.bytes.now / self.now.size }
        ensures value { result.now ≡ drop (index * self.now.size) self.now.bytes.now }
        ensures whole { self.now.size ≤ length result.now }
    {
        &self.bytes[index * self.size..]
    }

    /// The bytes from the entry of an index on; None where there is no such entry.
    pub(crate) fn get(&self, index: usize) -> Option<&'a [u8]>
        ensures value { option_copied result
            ≡ slice_get (entries self.now.size self.now.bytes.now) index }
        ensures whole { IfSome result (λ entry. self.now.size ≤ length entry.now) }
    {
        if index < self.count() {
            Some(self.at(index))
        } else {
            None
        }
    }
}
