//! Where the code of a file is.

ghost use Rattle.std.specs.Prelude.{◌≡◌};
ghost use Rattle.elf_sections.specs.CodeBounds.{bounds_with};

use crate::section_header::SectionHeader;

/// Where the sections of code are.
#[derive(Clone, Copy)]
pub(crate) struct CodeBounds {
    /// The lowest address of one.
    pub(crate) lowest: u64,
    /// The greatest end of one.
    pub(crate) end: u64,
}

/// The bounds of a section, and of those before it.
pub(crate) fn widened(bounds: Option<CodeBounds>, header: &SectionHeader) -> CodeBounds
    ensures { result ≡ bounds_with bounds header.now }
{
    let (address, end) = (header.address, header.end());
    match bounds {
        Some(CodeBounds { lowest, end: last }) => CodeBounds {
            lowest: lowest.min(address),
            end: last.max(end),
        },
        None => CodeBounds {
            lowest: address,
            end,
        },
    }
}
