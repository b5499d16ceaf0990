//! Counts of what the bytes of a section are spent on.

ghost use Rattle.std.specs.Prelude.{◌≡◌, ◌≢◌, ◌∷◌, ◌++◌, [], List, IfErr, OnErr, OnOk};
ghost use Rattle.gimli_line.specs.run.InstructionGrammar.{instruction_production};
ghost use Rattle.lines_reports.specs.Pieces.{fields_size, header_pieces, plain_piece, ArePieces};
ghost use Rattle.lines_reports.specs.Pieces.{Piece};
ghost use Rattle.lines_reports.specs.Tally.{share_of, no_share, sum_of, with_piece, Counts};
ghost use Rattle.lines_reports.specs.inside.Progress.{AreCounted};
ghost use Rattle.lines_reports.specs.declared.spent.Spent.{Spent as Kind};

use crate::sizes::instruction_bytes;
use crate::spent::Spent;
use gimli_core::{Error, Format, Reader, ReaderOffset, Result};
use gimli_line::{LineInstructions, LineProgramHeader};

/// What was spent on one thing.
#[derive(Clone, Copy)]
pub struct Share {
    /// How many there are of it.
    pub times: u64,
    /// The bytes that say what it is.
    pub bytes: u64,
    /// The bytes of operands.
    pub operands: u64,
}

impl Share {
    /// Nothing.
    const NONE: Share = Share {
        times: 0,
        bytes: 0,
        operands: 0,
    };

    /// All its bytes.
    pub fn all_bytes(self) -> u64
        ensures { result ≡ sum_of self.bytes self.operands }
    {
        self.bytes.saturating_add(self.operands)
    }

    /// The same and one piece more.
    fn with_piece(self, bytes: u64, operands: u64) -> Share
        ensures { (kind : Kind) → result ≡ with_piece self
            (record { kind = kind; bytes = bytes; operands = operands }) }
    {
        Share {
            times: self.times.saturating_add(1),
            bytes: self.bytes.saturating_add(bytes),
            operands: self.operands.saturating_add(operands),
        }
    }
}

/// What the bytes of units are spent on.
#[derive(Clone, Copy)]
pub struct Tally {
    /// By the numbers of what they are spent on.
    pub shares: [Share; 22],
}

impl Tally {
    /// Nothing was counted.
    pub fn new() -> Tally
        ensures { (kind : Kind) → share_of result kind ≡ no_share }
    {
        Tally {
            shares: [Share::NONE; 22],
        }
    }

    /// What was spent on one thing.
    pub fn share(&self, kind: Spent) -> Share
        ensures { result ≡ share_of self.now kind }
    {
        self.shares[kind.number()]
    }

    /// Counts the bytes of a unit of so many, and returns the fault that ends its program.
    pub fn add_unit<R: Reader>(
        &mut self,
        header: &LineProgramHeader<R>,
        bytes: u64,
    ) -> Option<Error>
        ensures { (pieces : List Piece)
            × ArePieces header.now.layout header.now.meaning header.now.meaning.program pieces
            × Counts self.old (header_pieces header.now.meaning bytes ++ pieces) self.new }
    {
        let fields = header_bytes(header);
        let program = header.raw_program_buf();
        let tables = bytes
            .saturating_sub(fields)
            .saturating_sub(program.len().into_u64());
        self.add(Spent::Header, fields, 0);
        self.add(Spent::Tables, tables, 0);
        self.add_program(header, program)
    }

    /// Counts so many bytes that can't be read.
    pub fn add_unread(&mut self, bytes: u64)
        ensures none { bytes ≡ 0 → self.new ≡ self.old }
        ensures some { bytes ≢ 0
            → Counts self.old (plain_piece Kind.Unread bytes ∷ []) self.new }
    {
        if bytes > 0 {
            self.add(Spent::Unread, bytes, 0);
        }
    }

    /// Counts the instructions of a program up to its end or its first fault, which is returned.
    fn add_program<R: Reader>(&mut self, header: &LineProgramHeader<R>, program: R) -> Option<Error>
        requires { (R.seen program).bytes ≡ header.now.meaning.program }
        ensures { (pieces : List Piece)
            × ArePieces header.now.layout header.now.meaning header.now.meaning.program pieces
            × Counts self.old pieces self.new }
    {
        let mut rest = program;
        let end = self.add_instructions(header, &mut rest);
        self.add_unread(rest.len().into_u64());
        end.err()
    }

    /// Counts the instructions of a program up to its end or its first fault, which is returned,
    /// and takes their bytes off the front.
    fn add_instructions<R: Reader>(
        &mut self,
        header: &LineProgramHeader<R>,
        rest: &mut R,
    ) -> Result<()>
        requires bytes { (R.seen rest.old).bytes ≡ header.now.meaning.program }
        ensures counted { AreCounted header.now.layout header.now.meaning
            header.now.meaning.program self.old (R.seen rest.new).bytes self.new }
        ensures end { OnOk result ((R.seen rest.new).bytes ≡ []) }
        ensures fault { IfErr result ((instruction_production header.now.layout
            header.now.meaning).Fault (R.seen rest.new).bytes) }
        ensures some { OnErr result ((R.seen rest.new).bytes ≢ []) }
    {
        let mut instructions = header.instructions();
        'instructions: while let Some(instruction) = instructions.next_instruction(header)? {
            let bytes = instruction_bytes(rest, instructions.len().into_u64())?;
            self.add(Spent::on(&instruction), bytes.opcode, bytes.operands);
        }
        Ok(())
    }

    /// Counts one piece.
    fn add(&mut self, kind: Spent, bytes: u64, operands: u64)
        ensures { Counts self.old
            (record { kind = kind; bytes = bytes; operands = operands } ∷ []) self.new }
    {
        let number = kind.number();
        self.shares[number] = self.shares[number].with_piece(bytes, operands);
    }
}

/// The bytes of a header before its tables (DWARF 5, section 6.2.4).
fn header_bytes<R: Reader>(header: &LineProgramHeader<R>) -> u64
    ensures { result ≡ fields_size header.now.meaning }
{
    // Its length, its version, and how many bytes of the header follow.
    let lengths = match header.format() {
        Format::Dwarf32 => 10u64,
        Format::Dwarf64 => 22,
    };
    // The sizes of an address and of a selector, and the operations of an instruction.
    let later = match header.version() {
        0..=3 => 0u64,
        4 => 1,
        _ => 3,
    };
    lengths + later + 5 + u64::from(header.opcode_base()).saturating_sub(1)
}
