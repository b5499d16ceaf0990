//! Relocations: the places of a section that a linker fills in.

use gimli_core::SectionId;

/// What the value of a place is counted from.
#[derive(Clone, Copy, Debug, PartialEq, Eq)]
pub enum RelocationTarget {
    /// A symbol, by the number that [`Address::Symbol`](crate::Address::Symbol) has.
    OfSymbol(usize),
    /// The beginning of a section. Where a linker merges the texts of a section, this has to be the
    /// section's own symbol, and never a label: linkers move each text by itself.
    OfSection(SectionId),
}

/// Where the addends of relocations are (System V ABI, chapter 4, "Relocation").
#[derive(Clone, Copy, Debug, PartialEq, Eq)]
pub enum Addends {
    /// In the list, as in a section `SHT_RELA`. The places are zero.
    Listed,
    /// At the places, as for a section `SHT_REL`. Those in the list are zero.
    InPlace,
}

/// A place that a linker fills in, with the sum of the target's address and the addend.
#[derive(Clone, Copy, Debug, PartialEq, Eq)]
pub struct Relocation {
    /// The offset of the place in the section, in bytes.
    pub offset: usize,
    /// The size of the place, in bytes: 1, 2, 3, 4 or 8.
    pub size: u8,
    /// What the value is counted from.
    pub target: RelocationTarget,
    /// What is added to it; 0 where addends stand at the places.
    pub addend: i64,
}
