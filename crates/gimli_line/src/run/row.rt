//! Rows, and what each instruction does to the registers: the state machine of DWARF 5, 6.2.2.

ghost use Rattle.std.specs.Prelude.{◌≡◌, ◌<◌, ◌≤◌, ◌+◌, true, false, IfErr, IsTrue};
ghost use Rattle.std.specs.Prelude.{MatchOption, OnOk, option_map};
ghost use Rattle.std.specs.Int.NonZero.{non_zero_u64_get};
ghost use Rattle.gimli_core.specs.Numbers.{is_address_size};
ghost use Rattle.gimli_core.specs.Reading.{result_map, sized_sum};

use crate::header::file_entry::FileEntry;
use crate::header::parameters::Parameters;
use crate::header::program_header::LineProgramHeader;
use crate::run::instruction::LineInstruction;
use crate::run::program::LineProgram;
use gimli_core::{Error, Reader, ReaderAddress, ReaderOffset, Result};
use std::num::NonZeroU64;

/// A row, or the registers on the way to one (DWARF 5, 6.2.2).
#[derive(Clone, Copy, Debug, PartialEq, Eq)]
pub struct LineRow {
    /// The last set address is a tombstone.
    pub(super) tombstone: bool,
    pub(super) address: u64,
    pub(super) op_index: u64,
    pub(super) file: u64,
    pub(super) line: u64,
    pub(super) column: u64,
    pub(super) is_stmt: bool,
    pub(super) basic_block: bool,
    pub(super) end_sequence: bool,
    pub(super) prologue_end: bool,
    pub(super) epilogue_begin: bool,
    pub(super) isa: u64,
    pub(super) discriminator: u64,
}

/// The column of a row. The left edge is below all columns.
#[derive(Clone, Copy, Debug, PartialEq, Eq, PartialOrd, Ord)]
pub enum ColumnType {
    /// The left edge of the line.
    LeftEdge,
    /// A column, from 1 on.
    Column(NonZeroU64),
}

impl ColumnType {
    ghost use Rattle.gimli_line.specs.run.Row.{column_number};

    /// The number of the column; 0 for the left edge.
    pub fn number(self) -> u64
        ensures { result ≡ column_number self }
    {
        match self {
            ColumnType::LeftEdge => 0,
            ColumnType::Column(column) => column.get(),
        }
    }
}

/// The sum as an address of a size, as `add_sized` gives it; where the size is 8, it only has to
/// fit 64 bits.
#[inline(always)]
fn sum_of_size(address: u64, length: u64, size: u8) -> Result<u64>
    requires { IsTrue (is_address_size size) }
    ensures { result_map (λ sum. sum) result ≡ sized_sum address length size }
{
    let sum = address.wrapping_add(length);
    if address <= sum && size > 4 {
        return Ok(sum);
    }
    address.add_sized(length, size)
}

impl LineRow {
    ghost use Rattle.gimli_line.specs.header.Header.{file_of, own_file_of};
    ghost use Rattle.gimli_line.specs.header.Orders.{KeepsSource};
    ghost use Rattle.gimli_line.specs.run.Instruction.{ins_seen, InsHasOrder};
    ghost use Rattle.gimli_line.specs.header.File.{file_seen};
    ghost use Rattle.gimli_line.specs.run.Machine.{initial, reset_row, rebase_of, IsAllowed};
    ghost use Rattle.gimli_line.specs.run.Machine.{is_refused, step_of, with_register};
    ghost use Rattle.gimli_line.specs.run.OperationPointer.{is_too_large};
    ghost use Rattle.gimli_line.specs.run.Execution.{IsExecution};
    ghost use Rattle.gimli_line.specs.run.Row.{column_number};
    ghost use Rattle.gimli_line.specs.run.Registers.{advanced_line};

    /// The registers at the start of a sequence (DWARF 5, 6.2.2, table 6.4): file and line are 1,
    /// is_stmt is the default of the header, all others are 0 or false.
    pub fn new<R: Reader>(header: &LineProgramHeader<R>) -> Self
        ensures { result ≡ initial header.now.meaning.parameters }
    {
        LineRow {
            tombstone: false,
            address: 0,
            op_index: 0,
            file: 1,
            line: 1,
            column: 0,
            is_stmt: header.default_is_stmt(),
            basic_block: false,
            end_sequence: false,
            prologue_end: false,
            epilogue_begin: false,
            isa: 0,
            discriminator: 0,
        }
    }

    /// The address of the machine instruction, in bytes.
    pub fn address(&self) -> u64
        ensures { result ≡ self.now.address }
    {
        self.address
    }

    /// Which operation of the machine instruction, from 0 on.
    pub fn op_index(&self) -> u64
        ensures { result ≡ self.now.op_index }
    {
        self.op_index
    }

    /// The index of the source file in the header.
    pub fn file_index(&self) -> u64
        ensures { result ≡ self.now.file }
    {
        self.file
    }

    /// The source file; None where the header doesn't have it.
    pub fn file<'header, R: Reader>(
        &self,
        header: &'header LineProgramHeader<R>,
    ) -> Option<&'header FileEntry<R>>
        ensures file { option_map (λ found. file_seen R.seen R.Offset.number found.now) result
            ≡ file_of header.now.meaning self.now.file }
        ensures own { option_map (λ found. found.now) result
            ≡ own_file_of header.now self.now.file }
    {
        header.file(self.file)
    }

    /// The line, from 1 on; None where the instruction belongs to no line.
    pub fn line(&self) -> Option<NonZeroU64>
        ensures { MatchOption result (self.now.line ≡ 0)
            (λ line. non_zero_u64_get line ≡ self.now.line) }
    {
        NonZeroU64::new(self.line)
    }

    /// The column.
    pub fn column(&self) -> ColumnType
        ensures { column_number result ≡ self.now.column }
    {
        match NonZeroU64::new(self.column) {
            Some(column) => ColumnType::Column(column),
            None => ColumnType::LeftEdge,
        }
    }

    /// Whether this is a good place for a breakpoint.
    pub fn is_stmt(&self) -> bool
        ensures { result ≡ self.now.is_stmt }
    {
        self.is_stmt
    }

    /// Whether a basic block begins here.
    pub fn basic_block(&self) -> bool
        ensures { result ≡ self.now.basic_block }
    {
        self.basic_block
    }

    /// Whether this is the first byte after a sequence. Then nothing in the row but its place has a
    /// meaning.
    pub fn end_sequence(&self) -> bool
        ensures { result ≡ self.now.end_sequence }
    {
        self.end_sequence
    }

    /// Whether the prologue of a function ends here.
    pub fn prologue_end(&self) -> bool
        ensures { result ≡ self.now.prologue_end }
    {
        self.prologue_end
    }

    /// Whether the epilogue of a function begins here.
    pub fn epilogue_begin(&self) -> bool
        ensures { result ≡ self.now.epilogue_begin }
    {
        self.epilogue_begin
    }

    /// The instruction set of the machine instruction, by the machine's own numbers.
    pub fn isa(&self) -> u64
        ensures { result ≡ self.now.isa }
    {
        self.isa
    }

    /// Distinguishes blocks that have the same source place.
    pub fn discriminator(&self) -> u64
        ensures { result ≡ self.now.discriminator }
    {
        self.discriminator
    }

    /// Whether the row is under a tombstone.
    /// `LineRows::next_row` skips such rows; `next_any_row` returns them, and `execute` makes them.
    pub fn is_under_tombstone(&self) -> bool
        ensures { result ≡ self.now.tombstone }
    {
        self.tombstone
    }

    /// Executes an instruction, and says whether it makes a row, which may be under a tombstone. A
    /// file that it defines is added to the program. Refused by `AddressOverflow` where the address
    /// would pass the greatest one of its size: the address stays then, and at a fixed advance
    /// op_index does too; else op_index goes on, and the line does at a special opcode. Refused by
    /// `OutOfMemory` where a file can't be added; nothing is changed then. Requires of a special
    /// opcode that it isn't below the opcode base of the program.
    pub fn execute<R: Reader, P: LineProgram<R>>(
        &mut self,
        instruction: LineInstruction<R>,
        program: &mut P,
    ) -> Result<bool>
        requires { IsAllowed (P.meaning program.old).parameters
            (ins_seen R.seen R.Offset.number instruction) }
        ensures executed { IsExecution P.appends (ins_seen R.seen R.Offset.number instruction)
            self.old (P.meaning program.old) (result, self.new, P.meaning program.new) }
        ensures source { KeepsSource (λ order.
            P.appends ≡ true → InsHasOrder R.seen order instruction)
            (P.source program.old) (P.source program.new) }
    {
        let parameters = program.header().parameters;
        if let LineInstruction::DefineFile(file) = instruction {
            program.add_file(file)?;
            return Ok(false);
        }
        self.step(instruction, &parameters)?;
        Ok(instruction.makes_row())
    }

    /// Executes an instruction on the registers alone.
    fn step<R: Reader>(
        &mut self,
        instruction: LineInstruction<R>,
        parameters: &Parameters,
    ) -> Result<()>
        requires { IsAllowed parameters.now (ins_seen R.seen R.Offset.number instruction) }
        ensures step { self.new
            ≡ step_of parameters.now (ins_seen R.seen R.Offset.number instruction) self.old }
        ensures fits { OnOk result
            (is_refused parameters.now (ins_seen R.seen R.Offset.number instruction) self.old
            ≡ false) }
        ensures overflow { IfErr result (λ e. (e ≡ Error.AddressOverflow)
            × (is_refused parameters.now (ins_seen R.seen R.Offset.number instruction) self.old
            ≡ true)) }
    {
        match instruction {
            LineInstruction::Special(opcode) => self.exec_special_opcode(opcode, parameters),
            LineInstruction::AdvancePc(advance) => {
                self.apply_operation_advance(advance, parameters)
            }
            LineInstruction::ConstAddPc => self.exec_const_add_pc(parameters),
            LineInstruction::FixedAddPc(advance) => self.exec_fixed_add_pc(advance, parameters),
            LineInstruction::SetAddress(address) => {
                self.exec_set_address(address, parameters);
                Ok(())
            }
            LineInstruction::Copy
            | LineInstruction::AdvanceLine(_)
            | LineInstruction::SetFile(_)
            | LineInstruction::SetColumn(_)
            | LineInstruction::NegateStatement
            | LineInstruction::SetBasicBlock
            | LineInstruction::SetPrologueEnd
            | LineInstruction::SetEpilogueBegin
            | LineInstruction::SetIsa(_)
            | LineInstruction::EndSequence
            | LineInstruction::DefineFile(_)
            | LineInstruction::SetDiscriminator(_)
            | LineInstruction::UnknownStandard0(_)
            | LineInstruction::UnknownStandard1(_, _)
            | LineInstruction::UnknownStandardN(_, _)
            | LineInstruction::UnknownExtended(_, _) => {
                self.set_register(instruction);
                Ok(())
            }
        }
    }

    /// Executes an instruction that sets a register by its operand alone; any other changes
    /// nothing.
    #[inline(always)]
    pub(super) fn set_register<R: Reader>(&mut self, instruction: LineInstruction<R>)
        ensures { self.new ≡ with_register (ins_seen R.seen R.Offset.number instruction) self.old }
    {
        match instruction {
            LineInstruction::AdvanceLine(advance) => self.apply_line_advance(advance),
            LineInstruction::SetFile(file) => self.file = file,
            LineInstruction::SetColumn(column) => self.column = column,
            LineInstruction::NegateStatement => self.is_stmt = !self.is_stmt,
            LineInstruction::SetBasicBlock => self.basic_block = true,
            LineInstruction::SetPrologueEnd => self.prologue_end = true,
            LineInstruction::SetEpilogueBegin => self.epilogue_begin = true,
            LineInstruction::SetIsa(isa) => self.isa = isa,
            LineInstruction::SetDiscriminator(discriminator) => self.discriminator = discriminator,
            LineInstruction::EndSequence => self.end_sequence = true,
            _ => {}
        }
    }

    /// Makes the registers ready for what follows a row: discriminator, basic_block, prologue_end
    /// and epilogue_begin are cleared (DWARF 5, 6.2.5.1 and `DW_LNS_copy` in 6.2.5.2), and after an
    /// end all start anew (`DW_LNE_end_sequence` in 6.2.5.3).
    pub fn reset<R: Reader>(&mut self, header: &LineProgramHeader<R>)
        ensures { self.new ≡ reset_row header.now.meaning.parameters self.old }
    {
        if self.end_sequence {
            *self = Self::new(header);
        } else {
            self.discriminator = 0;
            self.basic_block = false;
            self.end_sequence = false;
            self.prologue_end = false;
            self.epilogue_begin = false;
        }
    }

    /// Sets the address and op_index to 0, and the row is under no tombstone then, so that
    /// addresses count from a set address. Nothing else changes.
    pub fn rebase(&mut self)
        ensures { self.new ≡ rebase_of self.old }
    {
        self.tombstone = false;
        self.address = 0;
        self.op_index = 0;
    }

    /// Advances the line; one that would go below 0 stops there. The standard says nothing of such
    /// a line: gimli and this port keep the row, and line 0 stands for no line.
    fn apply_line_advance(&mut self, line_advance: i64)
        ensures { self.new ≡ record self.old { line = advanced_line line_advance self.old.line } }
    {
        let mut line = self.line.wrapping_add_signed(line_advance);
        if line_advance < 0 {
            line = self.line.saturating_sub(line_advance.unsigned_abs());
        }
        self.line = line;
    }

    /// Advances address and op_index by so many operations: the operation advance of DWARF 5,
    /// 6.2.5.1. Without several operations in an instruction op_index is 0 and the address moves by
    /// whole instructions.
    pub(super) fn apply_operation_advance(
        &mut self,
        operation_advance: u64,
        parameters: &Parameters,
    ) -> Result<()>
        ensures step { self.new
            ≡ step_of parameters.now (LineInstruction.AdvancePc operation_advance) self.old }
        ensures fits { OnOk result
            (is_refused parameters.now (LineInstruction.AdvancePc operation_advance) self.old
            ≡ false) }
        ensures overflow { IfErr result (λ e. (e ≡ Error.AddressOverflow)
            × (is_refused parameters.now (LineInstruction.AdvancePc operation_advance) self.old
            ≡ true)) }
    {
        if self.tombstone {
            return Ok(());
        }
        let encoding = parameters.line_encoding;
        let minimum = u64::from(encoding.minimum_instruction_length);
        let maximum = u64::from(encoding.maximum_operations_per_instruction);
        let address_advance = if maximum == 1 {
            self.op_index = 0;
            minimum.wrapping_mul(operation_advance)
        } else {
            let operations = self.op_index.wrapping_add(operation_advance);
            self.op_index = operations % maximum;
            minimum.wrapping_mul(operations / maximum)
        };
        self.add_to_address(address_advance, parameters)
    }

    /// Adds to the address.
    fn add_to_address(&mut self, length: u64, parameters: &Parameters) -> Result<()>
        ensures ok { OnOk result ((is_too_large parameters.now
            (record { address = self.old.address + length; op_index = self.old.op_index }) ≡ false)
            × (self.new ≡ record self.old { address = self.old.address + length })) }
        ensures overflow { IfErr result (λ e. (e ≡ Error.AddressOverflow)
            × (is_too_large parameters.now
            (record { address = self.old.address + length; op_index = self.old.op_index }) ≡ true)
            × (self.new ≡ self.old)) }
    {
        self.address = sum_of_size(self.address, length, parameters.encoding.address_size)?;
        Ok(())
    }

    /// Adds bytes to the address, from operation 0 on (`DW_LNS_fixed_advance_pc` in DWARF 5,
    /// 6.2.5.2). The minimum instruction length has no part in this opcode, which is for assemblers
    /// that can't know the lengths of instructions.
    fn exec_fixed_add_pc(&mut self, advance: u16, parameters: &Parameters) -> Result<()>
        ensures step { self.new
            ≡ step_of parameters.now (LineInstruction.FixedAddPc advance) self.old }
        ensures fits { OnOk result
            (is_refused parameters.now (LineInstruction.FixedAddPc advance) self.old ≡ false) }
        ensures overflow { IfErr result (λ e. (e ≡ Error.AddressOverflow)
            × (is_refused parameters.now (LineInstruction.FixedAddPc advance) self.old ≡ true)) }
    {
        if self.tombstone {
            return Ok(());
        }
        self.add_to_address(u64::from(advance), parameters)?;
        self.op_index = 0;
        Ok(())
    }

    /// Advances address and op_index as special opcode 255 does (`DW_LNS_const_add_pc` in DWARF 5,
    /// 6.2.5.2).
    pub(super) fn exec_const_add_pc(&mut self, parameters: &Parameters) -> Result<()>
        ensures step { self.new ≡ step_of parameters.now LineInstruction.ConstAddPc self.old }
        ensures fits { OnOk result
            (is_refused parameters.now LineInstruction.ConstAddPc self.old ≡ false) }
        ensures overflow { IfErr result (λ e. (e ≡ Error.AddressOverflow)
            × (is_refused parameters.now LineInstruction.ConstAddPc self.old ≡ true)) }
    {
        let adjusted_opcode = 255 - parameters.opcode_base;
        let operation_advance = adjusted_opcode / parameters.line_encoding.line_range;
        self.apply_operation_advance(u64::from(operation_advance), parameters)
    }

    /// Advances line, address and op_index at once, by the formula of DWARF 5, 6.2.5.1: the opcode
    /// above the opcode base counts lines from line_base on, and an operation for each line_range
    /// of it.
    #[inline(always)]
    pub(super) fn exec_special_opcode(&mut self, opcode: u8, parameters: &Parameters) -> Result<()>
        requires { parameters.now.opcode_base ≤ opcode }
        ensures some { 0 < opcode }
        ensures step { self.new ≡ step_of parameters.now (LineInstruction.Special opcode) self.old }
        ensures fits { OnOk result
            (is_refused parameters.now (LineInstruction.Special opcode) self.old ≡ false) }
        ensures overflow { IfErr result (λ e. (e ≡ Error.AddressOverflow)
            × (is_refused parameters.now (LineInstruction.Special opcode) self.old ≡ true)) }
    {
        let adjusted_opcode = opcode - parameters.opcode_base;
        let line_range = parameters.line_encoding.line_range;
        let line_base = parameters.line_encoding.line_base;
        self.apply_line_advance(i64::from(line_base) + i64::from(adjusted_opcode % line_range));
        self.apply_operation_advance(u64::from(adjusted_opcode / line_range), parameters)
    }

    /// Sets the address, from operation 0 on; or is a tombstone for what follows, where the address
    /// is below the one before it, or stands for nothing (a tombstone). A linker that drops a
    /// function leaves its rows, and puts a value in the place of their address: all ones, as
    /// LLVM's does and DWARF 6 asks; all ones less one, where all ones has a meaning of its own; or
    /// 0 and what was added to it, as older ones do. Addresses of a sequence only grow (DWARF 5,
    /// 6.2.5), so one that is below the last within a sequence is of a dropped function too.
    pub(super) fn exec_set_address(&mut self, address: u64, parameters: &Parameters)
        ensures { self.new ≡ step_of parameters.now (LineInstruction.SetAddress address) self.old }
    {
        let min_tombstone = u64::min_tombstone(parameters.encoding.address_size);
        self.tombstone = address < self.address || address >= min_tombstone;
        if !self.tombstone {
            self.address = address;
            self.op_index = 0;
        }
    }
}
