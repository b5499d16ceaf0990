//! Where code comes from.

/// Why a place has no path.
#[derive(Clone, Copy, Debug, PartialEq, Eq)]
pub enum NoPath {
    /// It wasn't known when the index was made, for the reason of this number, which isn't 0.
    Reason(u32),
    /// It isn't inside the part of paths, or no zero byte follows it: the index is damaged.
    Outside,
}

/// Where code comes from.
#[derive(Clone, Copy, Debug)]
pub struct Place<'a> {
    /// The whole path of the file, or why there is none.
    pub path: Result<&'a [u8], NoPath>,
    /// The line, 0 where none is known.
    pub line: u32,
    /// The column, 0 for the left edge.
    pub column: u32,
    /// Whether the code is a recommended place for a breakpoint (DWARF 5, section 6.2.2).
    pub is_stmt: bool,
    /// Whether a breakpoint at the entry of a function belongs here, after its prologue (DWARF 5,
    /// section 6.2.2).
    pub prologue_end: bool,
    /// The offset in `.debug_line` of the unit that says so, by which `DW_AT_stmt_list` names it.
    pub unit: u64,
}

/// What holds from an address on, up to that of the next start.
#[derive(Clone, Copy, Debug)]
pub struct Start<'a> {
    /// The first address.
    pub address: u64,
    /// Where the code from there on comes from; None where nothing is known of it.
    pub place: Option<Place<'a>>,
}
