//! The bytes of a section.

ghost use Rattle.std.specs.Prelude.{◌≡◌, IfOk, IfErr};
ghost use Rattle.elf_sections.specs.declared.error.ElfError.TheVariants.{OutOfMemory};

use crate::error::ElfError;
use std::alloc::Global;

/// The bytes of a section: lent by the file, or made anew.
#[derive(Debug, Drop)]
pub enum SectionBytes<'a> {
    /// They stand in the file.
    Lent(&'a [u8]),
    /// They were compressed there, or relocated.
    Made(Vec<u8>),
}

impl SectionBytes<'_> {
    ghost use Rattle.elf_sections.specs.SectionBytes.{bytes_of};

    /// The bytes.
    pub fn as_slice(&self) -> &[u8]
        ensures { result.now ≡ bytes_of self.now }
    {
        match self {
            SectionBytes::Lent(bytes) => bytes,
            SectionBytes::Made(bytes) => bytes.as_slice(),
        }
    }

    /// The bytes, copied where they are lent.
    pub(crate) fn into_vec(self, alloc: Global) -> Result<Vec<u8>, ElfError>
        ensures ok { IfOk result (λ made. made.items ≡ bytes_of self.entry) }
        ensures err { IfErr result (λ e. e ≡ OutOfMemory) }
    {
        match self {
            SectionBytes::Lent(bytes) => {
                let made = Vec::from_slice(alloc, bytes)?;
                Ok(made)
            }
            SectionBytes::Made(made) => Ok(made),
        }
    }
}
