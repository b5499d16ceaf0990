//! Where a unit is in a section, and the reader of a section.

use crate::order_and_size::AddressSize;
use gimli_core::{EndianSlice, RunTimeEndian};

/// The reader of a section.
pub type Slice<'i> = EndianSlice<'i, RunTimeEndian>;

/// Where a unit is in a section, and how its numbers are read.
#[derive(Clone, Copy, Debug, PartialEq, Eq)]
pub struct UnitLocation {
    /// The byte order.
    pub order: RunTimeEndian,
    /// How wide an address is.
    pub address_size: AddressSize,
    /// The offset of the unit in the section.
    pub offset: usize,
}
