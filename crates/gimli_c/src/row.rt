//! Rows, as plain numbers.

ghost use Rattle.std.specs.Prelude.{◌≡◌, ◌≤◌};
ghost use Rattle.gimli_c.specs.Handed.{has_flag};
ghost use Rattle.gimli_c.specs.Seen.{flag, flags_of, row_seen};

use gimli_line::LineRow;

/// A row of a line program.
#[repr(C)]
#[derive(Clone, Copy)]
pub struct GimliRow {
    /// The address of the machine instruction, in bytes.
    pub address: u64,
    /// Which operation of the machine instruction, from 0 on.
    pub op_index: u64,
    /// The index of the source file: from 1 on up to version 4, from 0 on in version 5.
    pub file: u64,
    /// The line, from 1 on; 0 where the instruction belongs to no line.
    pub line: u64,
    /// The column, from 1 on; 0 for the left edge of the line.
    pub column: u64,
    /// The instruction set, by the machine's own numbers.
    pub isa: u64,
    /// Tells blocks of the same file, line and column apart.
    pub discriminator: u64,
    /// The sum of `IS_STMT`, `BASIC_BLOCK`, `END_SEQUENCE`, `PROLOGUE_END` and `EPILOGUE_BEGIN`,
    /// each where it holds.
    pub flags: u64,
}

/// A good place for a breakpoint.
pub const IS_STMT: u64 = 1;
/// A basic block begins here.
pub const BASIC_BLOCK: u64 = 2;
/// The first byte after a sequence. What else the row says means nothing then.
pub const END_SEQUENCE: u64 = 4;
/// The prologue of a function ends here.
pub const PROLOGUE_END: u64 = 8;
/// The epilogue of a function begins here.
pub const EPILOGUE_BEGIN: u64 = 16;
/// The sum of all flags.
pub(crate) const ALL_FLAGS: u64 = IS_STMT
    + BASIC_BLOCK
    + END_SEQUENCE
    + PROLOGUE_END
    + EPILOGUE_BEGIN;

impl GimliRow {
    /// The numbers of a row.
    pub(crate) fn new(row: &LineRow) -> Self
        ensures { result ≡ row_seen row.now }
    {
        GimliRow {
            address: row.address(),
            op_index: row.op_index(),
            file: row.file_index(),
            line: line_number(row),
            column: row.column().number(),
            isa: row.isa(),
            discriminator: row.discriminator(),
            flags: flags(row),
        }
    }
}

/// The line of a row, 0 for none.
fn line_number(row: &LineRow) -> u64
    ensures { result ≡ row.now.line }
{
    match row.line() {
        Some(line) => line.get(),
        None => 0,
    }
}

/// The flags of a row.
fn flags(row: &LineRow) -> u64
    ensures { result ≡ flags_of row.now }
{
    flag(row.is_stmt(), IS_STMT)
        + flag(row.basic_block(), BASIC_BLOCK)
        + flag(row.end_sequence(), END_SEQUENCE)
        + flag(row.prologue_end(), PROLOGUE_END)
        + flag(row.epilogue_begin(), EPILOGUE_BEGIN)
}

/// A flag, where it holds.
pub(crate) fn flag(holds: bool, bit: u64) -> u64
    ensures flag { result ≡ flag holds bit }
    ensures at_most { result ≤ bit }
{
    if holds { bit } else { 0 }
}

/// Whether a flag is one of these. Requires a bit that isn't 0.
pub(crate) fn has_flag(flags: u64, bit: u64) -> bool
    requires { 1 ≤ bit }
    ensures { result ≡ has_flag bit flags }
{
    flags / bit % 2 == 1
}
