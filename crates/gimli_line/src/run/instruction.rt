//! The instructions of a line program, one by one (DWARF 5, 6.2.3 and 6.2.5).

ghost use Rattle.std.specs.Prelude.{◌≡◌, ◌-◌, IfOk, IfSome, slice_index};
ghost use Rattle.gimli_core.specs.Layout.{layout_of};
ghost use Rattle.gimli_core.specs.Production.{times, unsigned};
ghost use Rattle.gimli_core.specs.Reading.{result_map};
ghost use Rattle.gimli_core.specs.Seen.{in_order, part_taken, taken};
ghost use Rattle.gimli_line.specs.header.Productions.{bytes_of};
ghost use Rattle.gimli_line.specs.inside.header.Outcome.{without_value};

use crate::header::file_entry::FileEntry;
use crate::header::forms::parse_offset;
use crate::header::program_header::LineProgramHeader;
use gimli_core::{DwLne, DwLns, Reader, ReaderOffset, Result, constants};
use std::alloc::AllocError;
use std::marker::Model;

/// An instruction of a line program.
#[derive(Copy, Debug, PartialEq, Eq)]
pub enum LineInstruction<R, Offset = <R as Reader>::Offset>
where
    R: Reader<Offset = Offset>,
    Offset: ReaderOffset,
{
    /// An opcode from the opcode base on: advances address, op_index and line together, and makes a
    /// row (6.2.5.1).
    Special(u8),
    /// Makes a row.
    Copy,
    /// Advances address and op_index by so many operations.
    AdvancePc(u64),
    /// Advances the line.
    AdvanceLine(i64),
    /// Sets the file, by its index in the header.
    SetFile(u64),
    /// Sets the column; 0 is the left edge of the line.
    SetColumn(u64),
    /// Toggles is_stmt.
    NegateStatement,
    /// The next row begins a basic block.
    SetBasicBlock,
    /// Advances address and op_index as special opcode 255 does.
    ConstAddPc,
    /// Adds so many bytes to the address, and sets op_index to 0.
    FixedAddPc(u16),
    /// The next row ends a function's prologue.
    SetPrologueEnd,
    /// The next row begins a function's epilogue.
    SetEpilogueBegin,
    /// Sets the instruction set.
    SetIsa(u64),
    /// A standard opcode that isn't known, without operands. The header counts the operands of
    /// each, so that a reader can go past those of a later version (6.2.4,
    /// standard_opcode_lengths).
    UnknownStandard0(DwLns),
    /// A standard opcode that isn't known, with one operand.
    UnknownStandard1(DwLns, u64),
    /// A standard opcode that isn't known, with several operands, and the bytes of these.
    UnknownStandardN(DwLns, R),
    /// Makes the last row of a sequence. All registers start anew after it.
    EndSequence,
    /// Sets the address, and op_index to 0; or is a tombstone for the rows to come, where it lies
    /// below the address before it or stands for nothing.
    SetAddress(u64),
    /// Adds a file to the header's files, up to version 4.
    DefineFile(FileEntry<R, Offset>),
    /// Sets the discriminator of the next row.
    SetDiscriminator(u64),
    /// An extended opcode that isn't known, and the bytes after it.
    UnknownExtended(DwLne, R),
}

impl<R, Offset> Clone for LineInstruction<R, Offset>
where
    R: Reader<Offset = Offset>,
    Offset: ReaderOffset,
{
    ghost use Rattle.std.specs.Prelude.{◌≡◌, ⊤};

    ghost is_clone = { λ instruction copy. copy ≡ instruction };

    ghost is_infallible = { λ _. ⊤ };

    fn clone(&self) -> std::result::Result<Self, AllocError> {
        Ok(*self)
    }
}

impl<R, Offset> LineInstruction<R, Offset>
where
    R: Reader<Offset = Offset>,
    Offset: ReaderOffset,
{
    ghost use Rattle.std.specs.Prelude.{◌≡◌, ◌<◌, ℕ, List, IfOk};
    ghost use Rattle.gimli_core.specs.Reading.{result_map};
    ghost use Rattle.gimli_line.specs.run.Instruction.{ins_seen, makes_row, InsHasOrder};
    ghost use Rattle.gimli_line.specs.run.InstructionGrammar.{
      instruction_production,
      extended_production,
      extended_operands,
      standard_production,
      unknown_production,
    };
    ghost use Rattle.gimli_line.specs.run.Machine.{IsAllowed};

    /// Whether it makes a row, under a tombstone or not.
    pub(crate) fn makes_row(&self) -> bool
        ensures { result ≡ makes_row (ins_seen R.seen Offset.number self.now) }
    {
        match self {
            LineInstruction::Special(_) | LineInstruction::Copy | LineInstruction::EndSequence => {
                true
            }
            _ => false,
        }
    }

    /// Takes an instruction.
    pub(crate) fn parse(header: &LineProgramHeader<R, Offset>, input: &mut R) -> Result<Self>
        ensures read { (result_map (ins_seen R.seen Offset.number) result, R.seen input.new)
            ≡ taken (instruction_production (layout_of (R.seen input.old).is_big Offset.limit)
            header.now.meaning) (R.seen input.old) }
        ensures allowed { IfOk result (λ i. IsAllowed header.now.meaning.parameters
            (ins_seen R.seen Offset.number i)) }
        ensures operands { IfOk result (InsHasOrder R.seen (R.seen input.old).is_big) }
    {
        let opcode = input.read_u8()?;
        if opcode == 0 {
            return Self::parse_extended(header, input);
        }
        if opcode >= header.opcode_base() {
            return Ok(LineInstruction::Special(opcode));
        }
        Self::parse_standard(header, DwLns(opcode), input)
    }

    /// Takes what stands after the zero byte of an extended instruction (DWARF 5, 6.2.5.3): a
    /// length, the opcode, and its operands. Surplus bytes within its length are skipped.
    #[tactic(auto, unfolding(crate::specs::run::InstructionGrammar::extended_production))]
    fn parse_extended(header: &LineProgramHeader<R, Offset>, input: &mut R) -> Result<Self>
        ensures read { (result_map (ins_seen R.seen Offset.number) result, R.seen input.new)
            ≡ taken (extended_production (layout_of (R.seen input.old).is_big Offset.limit)
            header.now.meaning) (R.seen input.old) }
        ensures allowed { IfOk result (λ i. IsAllowed header.now.meaning.parameters
            (ins_seen R.seen Offset.number i)) }
        ensures operands { IfOk result (InsHasOrder R.seen (R.seen input.old).is_big) }
    {
        let length = parse_offset(input)?;
        let mut inside = input.split(length)?;
        let opcode = inside.read_u8()?;
        Self::parse_extended_operands(header, DwLne(opcode), inside)
    }

    /// Takes the operands of an extended opcode, from the bytes after it within its instruction.
    #[tactic(auto, unfolding(crate::specs::run::InstructionGrammar::extended_operands))]
    fn parse_extended_operands(
        header: &LineProgramHeader<R, Offset>,
        opcode: DwLne,
        operands: R,
    ) -> Result<Self>
        ensures read { (after : List ℕ)
            → (result_map (ins_seen R.seen Offset.number) result, after)
            ≡ (extended_operands (layout_of (R.seen operands).is_big Offset.limit)
            header.now.meaning
            opcode.0 (R.seen operands).bytes).read after }
        ensures allowed { IfOk result (λ i. IsAllowed header.now.meaning.parameters
            (ins_seen R.seen Offset.number i)) }
        ensures operands { IfOk result (InsHasOrder R.seen (R.seen operands).is_big) }
    {
        let encoding = header.parameters.encoding;
        let mut input = operands;
        match opcode {
            constants::DW_LNE_end_sequence => Ok(LineInstruction::EndSequence),
            constants::DW_LNE_set_address => {
                let address = input.read_address(encoding.address_size)?;
                Ok(LineInstruction::SetAddress(address))
            }
            constants::DW_LNE_define_file if encoding.version <= 4 => {
                let path_name = input.read_null_terminated_slice()?;
                let file = FileEntry::parse(&mut input, path_name)?;
                Ok(LineInstruction::DefineFile(file))
            }
            constants::DW_LNE_set_discriminator => {
                let discriminator = input.read_uleb128()?;
                Ok(LineInstruction::SetDiscriminator(discriminator))
            }
            _ => Ok(LineInstruction::UnknownExtended(opcode, operands)),
        }
    }

    /// Takes the operands of an opcode below the opcode base.
    #[tactic(auto, unfolding(crate::specs::run::InstructionGrammar::standard_production))]
    fn parse_standard(
        header: &LineProgramHeader<R, Offset>,
        opcode: DwLns,
        input: &mut R,
    ) -> Result<Self>
        requires { 0 < opcode.0 }
        ensures read { (result_map (ins_seen R.seen Offset.number) result, R.seen input.new)
            ≡ taken (standard_production (layout_of (R.seen input.old).is_big Offset.limit)
            header.now.meaning
            opcode.0) (R.seen input.old) }
        ensures allowed { IfOk result (λ i. IsAllowed header.now.meaning.parameters
            (ins_seen R.seen Offset.number i)) }
        ensures operands { IfOk result (InsHasOrder R.seen (R.seen input.old).is_big) }
    {
        match opcode {
            constants::DW_LNS_copy => Ok(LineInstruction::Copy),
            constants::DW_LNS_advance_pc => Ok(LineInstruction::AdvancePc(input.read_uleb128()?)),
            constants::DW_LNS_advance_line => {
                Ok(LineInstruction::AdvanceLine(input.read_sleb128()?))
            }
            constants::DW_LNS_set_file => Ok(LineInstruction::SetFile(input.read_uleb128()?)),
            constants::DW_LNS_set_column => Ok(LineInstruction::SetColumn(input.read_uleb128()?)),
            constants::DW_LNS_negate_stmt => Ok(LineInstruction::NegateStatement),
            constants::DW_LNS_set_basic_block => Ok(LineInstruction::SetBasicBlock),
            constants::DW_LNS_const_add_pc => Ok(LineInstruction::ConstAddPc),
            constants::DW_LNS_fixed_advance_pc => {
                Ok(LineInstruction::FixedAddPc(input.read_u16()?))
            }
            constants::DW_LNS_set_prologue_end => Ok(LineInstruction::SetPrologueEnd),
            constants::DW_LNS_set_epilogue_begin => Ok(LineInstruction::SetEpilogueBegin),
            constants::DW_LNS_set_isa => Ok(LineInstruction::SetIsa(input.read_uleb128()?)),
            _ => Self::parse_unknown(header, opcode, input),
        }
    }

    /// Takes as many operands of an opcode as the header counts.
    #[tactic(auto, unfolding(crate::specs::run::InstructionGrammar::unknown_production))]
    fn parse_unknown(
        header: &LineProgramHeader<R, Offset>,
        opcode: DwLns,
        input: &mut R,
    ) -> Result<Self>
        requires { 0 < opcode.0 }
        ensures read { (result_map (ins_seen R.seen Offset.number) result, R.seen input.new)
            ≡ taken (unknown_production (layout_of (R.seen input.old).is_big Offset.limit)
            header.now.meaning
            opcode.0 (slice_index header.now.meaning.operand_counts (opcode.0 - 1)))
            (R.seen input.old) }
        ensures allowed { IfOk result (λ i. IsAllowed header.now.meaning.parameters
            (ins_seen R.seen Offset.number i)) }
        ensures operands { IfOk result (InsHasOrder R.seen (R.seen input.old).is_big) }
    {
        match header.operand_count(opcode) {
            0 => Ok(LineInstruction::UnknownStandard0(opcode)),
            1 => Ok(LineInstruction::UnknownStandard1(opcode, input.read_uleb128()?)),
            count => {
                let operands = parse_operands(input, count)?;
                Ok(LineInstruction::UnknownStandardN(opcode, operands))
            }
        }
    }
}

/// Takes so many LEB128 numbers, as the bytes that spell them.
fn parse_operands<R: Reader>(input: &mut R, count: u8) -> Result<R>
    ensures { (result_map R.seen result, R.seen input.new)
        ≡ part_taken (bytes_of (times count unsigned)) (R.seen input.old) }
{
    let mut operands = *input;
    skip_operands(input, count)?;
    let len = input.offset_from(&operands);
    operands.truncate(len)?;
    Ok(operands)
}

/// Takes so many LEB128 numbers.
fn skip_operands<R: Reader>(input: &mut R, count: u8) -> Result<()>
    ensures { (result, R.seen input.new)
        ≡ in_order (R.seen input.old).is_big
        (without_value ((times count unsigned).read (R.seen input.old).bytes)) }
{
    for _ in 0..count {
        input.read_uleb128()?;
    }
    Ok(())
}

/// The instructions of a program that are still to come.
#[derive(Clone, Debug, Drop)]
pub struct LineInstructions<R: Reader> {
    pub(super) input: R,
}

impl<R: Reader> Model for LineInstructions<R> {
    ghost use Rattle.gimli_line.specs.run.Unread.{Unread};

    ghost Value = { Unread };

    ghost view = { λ a.
        record {
          bytes = (R.seen a.input).bytes;
          layout = record { is_big = (R.seen a.input).is_big; limit = R.Offset.limit };
        } };
}

impl<R: Reader> LineInstructions<R> {
    ghost use Rattle.std.specs.Prelude.{◌≡◌, [], ◌++◌, List, ℕ, length, IfOk, IfErr, option_map};
    ghost use Rattle.gimli_line.specs.run.Instruction.{ins_seen, InsHasOrder};
    ghost use Rattle.std.specs.Prelude.{Ok, None};
    ghost use Rattle.gimli_line.specs.run.InstructionGrammar.{TakesNext, EndsByFault};
    ghost use Rattle.gimli_line.specs.run.Machine.{IsAllowed};
    ghost use Rattle.gimli_line.specs.run.Unread.{unread_of};
    ghost use Rattle.gimli_line.specs.inside.run.Rows.{front_of};

    /// The instructions of these bytes.
    pub(crate) fn new(input: R) -> Self
        ensures { result ≡ unread_of R.seen R.Offset.limit input }
    {
        LineInstructions { input }
    }

    /// The same instructions.
    pub fn clone(&self) -> Self
        ensures { result ≡ self.now }
    {
        LineInstructions { input: self.input }
    }

    /// How many bytes the remaining instructions have.
    pub fn len(&self) -> R::Offset
        ensures { R.Offset.number result ≡ length self.now.bytes }
    {
        self.input.len()
    }

    /// Discards the remaining instructions.
    pub(crate) fn clear(&mut self)
        ensures { self.new ≡ record self.old { bytes = [] } }
    {
        self.input.empty();
    }

    /// The instructions in front of a rest of these.
    pub(crate) fn remove_trailing(&self, rest: &LineInstructions<R>) -> Result<LineInstructions<R>>
        requires { (front : List ℕ) × (self.now.bytes ≡ front ++ rest.now.bytes) }
        ensures { result ≡ Ok (front_of self.now rest.now) }
    {
        let len = rest.input.offset_from(&self.input);
        let mut input = self.input;
        input.truncate(len)?;
        Ok(LineInstructions { input })
    }

    /// Takes the next instruction, by the header of its program; None where no bytes are left.
    /// Refused as the first part of it that isn't there says: `UnexpectedEof`, `BadUnsignedLeb128`,
    /// `BadSignedLeb128`, or `UnsupportedOffset` where a length is too large for the reader's
    /// offsets. After a refusal there are no more instructions.
    pub fn next_instruction(
        &mut self,
        header: &LineProgramHeader<R>,
    ) -> Result<Option<LineInstruction<R>>>
        ensures next { IfOk result (λ next. TakesNext header.now.meaning self.old self.new
            (option_map (ins_seen R.seen R.Offset.number) next)) }
        ensures refusal { IfErr result (EndsByFault header.now.meaning self.old self.new) }
        ensures ended { self.old.bytes ≡ [] → result ≡ Ok None }
        ensures allowed { IfOk result (λ next. IfSome next
            (λ i. IsAllowed header.now.meaning.parameters (ins_seen R.seen R.Offset.number i))) }
        ensures layout { self.new.layout ≡ self.old.layout }
        ensures operands { IfOk result
            (λ next. IfSome next (InsHasOrder R.seen self.old.layout.is_big)) }
    {
        if self.input.is_empty() {
            return Ok(None);
        }
        match LineInstruction::parse(header, &mut self.input) {
            Ok(instruction) => Ok(Some(instruction)),
            Err(e) => {
                self.input.empty();
                Err(e)
            }
        }
    }
}

impl<R, Offset> LineProgramHeader<R, Offset>
where
    R: Reader<Offset = Offset>,
    Offset: ReaderOffset,
{
    ghost use Rattle.std.specs.Prelude.{◌≡◌};
    ghost use Rattle.gimli_line.specs.run.Unread.{whole_program};

    /// The instructions of the program.
    pub fn instructions(&self) -> LineInstructions<R>
        ensures { result ≡ whole_program self.now.meaning self.now.layout }
    {
        LineInstructions::new(self.program_buf)
    }
}
