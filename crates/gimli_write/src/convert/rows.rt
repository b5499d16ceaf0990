//! What the reads of a conversion give: addresses, rows and ends, one by one or by sequences.

use gimli_build::LineRow;
use std::marker::Model;

/// What is read of a source, one by one.
#[derive(Clone, Copy, Debug, PartialEq, Eq)]
pub enum ConvertLineRow {
    /// An address is set. The offsets of the rows and of the end that follow in the sequence count
    /// from it.
    SetAddress(u64),
    /// A row.
    Row(LineRow),
    /// A sequence ends, so many bytes after the address that was last set in it.
    EndSequence(u64),
}

/// Rows of a source whose offsets count from one address, and how they end.
#[derive(Debug, Drop, PartialEq, Eq)]
pub struct ConvertLineSequence {
    /// The address that is set before the rows, if one is.
    pub start: Option<u64>,
    /// How the rows end.
    pub end: ConvertLineSequenceEnd,
    /// The rows in order.
    pub rows: Vec<LineRow>,
}

/// How the rows of a sequence end.
#[derive(Clone, Copy, Debug, PartialEq, Eq)]
pub enum ConvertLineSequenceEnd {
    /// The sequence ends, so many bytes after the address that was last set in it.
    Length(u64),
    /// An address is set after them, from which the offsets of further rows count.
    Address(u64),
}
