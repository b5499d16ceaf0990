//! What sections hold, of a file that isn't read whole.

ghost use Rattle.std.specs.Prelude.{◌≡◌, ◌≢◌, ℕ, List, IfOk, IfErr, Ok, Err};
ghost use Rattle.elf_sections.specs.Compression.{old_name};
ghost use Rattle.elf_sections.specs.Gives.{Gives, RefusesLarge};
ghost use Rattle.elf_sections.specs.Seeking.{listed, header_named};
ghost use Rattle.elf_sections.specs.Stored.{stored_named, stored_data, data_there, data_in};
ghost use Rattle.elf_sections.specs.Stored.{stored_form, old_stored};
ghost use Rattle.elf_sections.specs.declared.error.ElfError.TheVariants.{OutOfMemory};

use crate::compression::{old_name, uncompressed, uncompressed_old};
use crate::error::ElfError;
use crate::file_range::FileRange;
use crate::layout::Layout;
use crate::section_header::SectionHeader;
use crate::seeking::SectionList;
use std::alloc::Global;

/// What the names of sections that have an older form begin with.
const DEBUG: &[u8] = b".debug_";

/// How what a section holds is stored.
#[derive(Clone, Copy, Debug)]
pub(crate) enum StoredForm {
    /// As it is.
    Plain,
    /// Compressed, after a header of compression (`SHF_COMPRESSED`).
    Compressed,
    /// Compressed in the older form (`.zdebug_line`).
    Old,
}

/// A section whose bytes aren't read yet: where they are, and how they are stored.
///
/// <!-- part of crates/debug_files/src/outline.rt -->
/// ```rust
/// let Some(section) = sections.stored(alloc, name)? else {
///     return Ok(None);
/// };
/// let bytes = bytes_of(alloc, file, section.range())?;
/// let held = section.section_data(alloc, bytes, limit)?;
/// ```
#[derive(Clone, Copy, Debug)]
pub struct StoredSection {
    layout: Layout,
    range: FileRange,
    form: StoredForm,
}

impl StoredSection {
    /// Where its bytes are in the file.
    pub fn range(&self) -> FileRange
        ensures { result ≡ self.now.range }
    {
        self.range
    }

    /// What it holds, by the bytes that are at its range. They are returned as they are where they
    /// aren't compressed, whatever the limit is. Refused as
    /// [`Elf::section_data`](crate::Elf::section_data) refuses what a section holds, and by
    /// `OutOfMemory` where there is no memory for what it makes.
    pub fn section_data(
        &self,
        alloc: Global,
        bytes: Vec<u8>,
        limit: u64,
    ) -> Result<Vec<u8>, ElfError>
        ensures gives { Gives (λ made. made.items) result
            (stored_data self.now limit bytes.items) }

        // What would be larger than the limit is refused for that, and never for missing memory.
        ensures large { RefusesLarge result (stored_data self.now limit bytes.items) }
    {
        match self.form {
            StoredForm::Plain => Ok(bytes),
            StoredForm::Compressed => uncompressed(alloc, limit, self.layout, &bytes),
            StoredForm::Old => uncompressed_old(alloc, limit, &bytes),
        }
    }
}

impl SectionList<'_> {
    ghost use Rattle.elf_sections.specs.SeekingViews.{list_of};

    /// Where the data of the first section of a name are, and how they are stored; None where there
    /// is none. Where no section has the name, and it begins with `.debug_`, it is the section of
    /// the older form, `.zdebug_line` for `.debug_line`. Refuses a section whose bytes aren't all
    /// in the file (`SectionCut`), and one of the older form with `SHF_COMPRESSED` (`Compressed`).
    /// It takes memory for the name of the older form, and may fail with `OutOfMemory`.
    pub fn stored(&self, alloc: Global, name: &[u8]) -> Result<Option<StoredSection>, ElfError>
        ensures stored { Gives (λ found. found) result (stored_named (list_of self.now) name.now) }

        // Where the sections are those of a file, the data there are what the section holds.
        ensures whole { (bytes : List ℕ) (limit : ℕ) → listed bytes ≡ Ok (list_of self.now)
            → IfOk result (λ found. data_in bytes limit name.now ≡ data_there limit bytes found) }
        ensures refused { (bytes : List ℕ) (limit : ℕ) → listed bytes ≡ Ok (list_of self.now)
            → IfErr result (λ e. e ≢ OutOfMemory → data_in bytes limit name.now ≡ Err e) }
    {
        self.stored_named(alloc, name)
    }

    /// The same, by the section's header.
    fn stored_named(&self, alloc: Global, name: &[u8]) -> Result<Option<StoredSection>, ElfError>
        ensures { Gives (λ found. found) result (stored_named (list_of self.now) name.now) }
    {
        if let Some(header) = self.table.find(self.names, name) {
            let range = header.stored_range(self.length)?;
            return Ok(Some(self.stored_at(range, header.stored_form())));
        }
        if name.starts_with(DEBUG) {
            return self.old_stored(alloc, name);
        }
        Ok(None)
    }

    /// A section whose bytes are here.
    fn stored_at(&self, range: FileRange, form: StoredForm) -> StoredSection
        ensures layout { result.layout ≡ (list_of self.now).layout }
        ensures range { result.range ≡ range }
        ensures form { result.form ≡ form }
    {
        StoredSection {
            layout: self.layout,
            range,
            form,
        }
    }

    /// The section of the older form of a name.
    fn old_stored(&self, alloc: Global, name: &[u8]) -> Result<Option<StoredSection>, ElfError>
        ensures { let list = list_of self.now in Gives (λ found. found) result
            (old_stored list (header_named list (old_name name.now))) }
    {
        let Some(header) = self.old_header(alloc, name)? else {
            return Ok(None);
        };
        let range = header.range(self.length)?;
        Ok(Some(self.stored_at(range, StoredForm::Old)))
    }

    /// The header of that section.
    fn old_header(&self, alloc: Global, name: &[u8]) -> Result<Option<SectionHeader>, ElfError>
        ensures ok { let list = list_of self.now in
            IfOk result (λ found. found ≡ header_named list (old_name name.now)) }
        ensures err { IfErr result (λ e. e ≡ OutOfMemory) }
    {
        let old = old_name(alloc, name)?;
        let found = self.table.find(self.names, old.as_slice());
        Ok(found)
    }
}

impl SectionHeader {
    /// How what the section holds is stored.
    fn stored_form(&self) -> StoredForm
        ensures { result ≡ stored_form self.now }
    {
        if self.is_compressed() {
            StoredForm::Compressed
        } else {
            StoredForm::Plain
        }
    }
}
