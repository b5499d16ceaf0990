//! A row as it is built: the registers of DWARF 5, 6.2.2, with an offset in place of the address.

ghost use Rattle.std.specs.Prelude.{◌≡◌};
ghost use Rattle.gimli_build.specs.Rows.{initial_row, without_marks, row_after_address};

use crate::built::files::FileId;
use gimli_core::{Encoding, LineEncoding};

/// A row of a line program that is built.
#[derive(Clone, Copy, Debug, PartialEq, Eq)]
pub struct LineRow {
    /// How many bytes the machine instruction is after the address that was last set in the
    /// sequence, or after 0 where none was.
    pub address_offset: u64,
    /// Which operation of the machine instruction, from 0 on.
    pub op_index: u64,
    /// The source file.
    pub file: FileId,
    /// The line, from 1 on; 0 where the instruction belongs to no line.
    pub line: u64,
    /// The column, from 1 on; 0 is the left edge.
    pub column: u64,
    /// Tells blocks of the same file, line and column apart.
    pub discriminator: u64,
    /// Whether this is a good place for a breakpoint.
    pub is_statement: bool,
    /// Whether a basic block begins here.
    pub basic_block: bool,
    /// Whether the prologue of a function ends here.
    pub prologue_end: bool,
    /// Whether the epilogue of a function begins here.
    pub epilogue_begin: bool,
    /// The instruction set of the machine instruction, by the machine's own numbers.
    pub isa: u64,
}

impl LineRow {
    /// The row that each sequence starts with.
    pub(crate) fn initial(encoding: Encoding, line_encoding: LineEncoding) -> LineRow
        ensures { result ≡ initial_row encoding.version line_encoding.default_is_stmt }
    {
        LineRow {
            address_offset: 0,
            op_index: 0,
            file: FileId::initial(encoding.version),
            line: 1,
            column: 0,
            discriminator: 0,
            is_statement: line_encoding.default_is_stmt,
            basic_block: false,
            prologue_end: false,
            epilogue_begin: false,
            isa: 0,
        }
    }

    /// Clears what belongs to one row alone, once the row is built.
    pub(crate) fn clear(&mut self)
        ensures { self.new ≡ without_marks self.old }
    {
        self.discriminator = 0;
        self.basic_block = false;
        self.prologue_end = false;
        self.epilogue_begin = false;
    }

    /// The row after an address is set: in a sequence its offset and op_index count from there.
    pub(crate) fn row_after_address(self, in_sequence: bool) -> LineRow
        ensures { result ≡ row_after_address in_sequence self }
    {
        if in_sequence {
            LineRow {
                address_offset: 0,
                op_index: 0,
                ..self
            }
        } else {
            self
        }
    }
}
