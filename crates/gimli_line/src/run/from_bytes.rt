//! Instructions that are executed from their bytes.
//!
//! There are two ways to execute an instruction. `LineInstructions::next_instruction` parses it
//! into a `LineInstruction`, and `LineRow::execute` executes that: this stands for any opcode. A
//! value of that type is large, and its opcode is looked at twice. So the opcodes that nearly all
//! of a program is made of are executed straight from their bytes, by three calls: `execute_common`
//! for special opcodes and the standard ones that are met most, `next_defined_file` for a
//! definition of a file, and `execute_other` for the rest of those that are met at all often. Each
//! gives up, with nothing changed, where an instruction is another one, has an operand of more than
//! two bytes or isn't there as a whole; then it is parsed. Only `row.rt` says what an opcode does;
//! this file says which bytes mean it. What joins the two ways is one definition: by `IsExecuted`
//! the registers are those after the instruction that `instruction_production` reads from these
//! bytes, which is the one that `next_instruction` returns.

ghost use Rattle.std.specs.Prelude.{◌≡◌, ◌<◌, IfErr, IfOk, IfSome, IsNone, IsTrue, Ok};
ghost use Rattle.gimli_core.specs.Layout.{OrderAndLimit, layout_of};
ghost use Rattle.gimli_core.specs.Seen.{taken};
ghost use Rattle.gimli_core.specs.Production.{below_limit, number, unsigned};
ghost use Rattle.gimli_line.specs.declared.run.instruction.LineInstruction.TheVariants.{DefineFile};
ghost use Rattle.gimli_line.specs.header.File.{file_seen, FileHasOrder};
ghost use Rattle.gimli_line.specs.header.Header.{Header};
ghost use Rattle.gimli_line.specs.run.Execution.{is_executed, ExecutesNext, IsExecutedAs};
ghost use Rattle.gimli_line.specs.run.Execution.{RefusesNext};
ghost use Rattle.gimli_line.specs.run.InstructionGrammar.{extended_production};
ghost use Rattle.gimli_line.specs.run.InstructionGrammar.{instruction_production};
ghost use Rattle.gimli_line.specs.run.InstructionGrammar.{standard_production};

use crate::header::file_entry::FileEntry;
use crate::header::parameters::Parameters;
use crate::header::program_header::LineProgramHeader;
use crate::run::instruction::{LineInstruction, LineInstructions};
use crate::run::leb128::{read_short_sleb128, read_short_uleb128};
use crate::run::row::LineRow;
use gimli_core::{DwLne, DwLns, Reader, ReaderOffset, Result, constants};

/// What was done with the next instruction of a program.
///
/// <!-- part of crates/gimli_write/src/convert/run.rt -->
/// ```rust
/// match executed {
///     Executed::No => self.step_parsed(),
///     Executed::Quiet => Ok(SourceStep::More),
/// ```
#[derive(Clone, Copy, Debug, PartialEq, Eq)]
pub enum Executed {
    /// Nothing: it is another instruction, has a long operand, or isn't there as a whole.
    No,
    /// It was executed; it makes no row, and doesn't set the address.
    Quiet,
    /// It was executed, and sets the address to this one, or is a tombstone with it.
    Address(u64),
    /// It was executed, and makes a row, which may be under a tombstone.
    Row,
}

impl Executed {
    /// Whether an instruction was executed.
    #[inline(always)]
    fn is_executed(&self) -> bool
        ensures { result ≡ is_executed self.now }
    {
        match self {
            Executed::No => false,
            _ => true,
        }
    }
}

/// Takes an unsigned LEB128 number of one or two bytes as an offset. None where it is longer, or
/// isn't there as a whole, or the offset type is too narrow.
#[inline(always)]
fn read_short_offset<R: Reader>(input: &mut R) -> Option<R::Offset>
    ensures read { IfSome result (λ offset. (Ok (R.Offset.number offset), (R.seen input.new).bytes)
        ≡ (below_limit (layout_of (R.seen input.old).is_big R.Offset.limit) unsigned).read
        (R.seen input.old).bytes) }
    ensures order { (R.seen input.new).is_big ≡ (R.seen input.old).is_big }
{
    let Some(number) = read_short_uleb128(input) else {
        return None;
    };
    match R::Offset::from_u64(number) {
        Ok(offset) => Some(offset),
        Err(_) => None,
    }
}

/// Takes the operand of a set address.
fn read_set_address<R: Reader>(operands: &mut R, parameters: &Parameters) -> Result<u64>
    ensures { (result, R.seen operands.new)
        ≡ taken (number (R.seen operands.old).is_big parameters.now.encoding.address_size)
        (R.seen operands.old) }
{
    operands.read_address(parameters.encoding.address_size)
}

/// Takes a definition of a file, from the bytes after the zero byte. None at another opcode, or
/// where its length is long or its operands aren't there.
#[inline(always)]
fn read_defined_file<R: Reader>(
    header: &LineProgramHeader<R>,
    input: &mut R,
) -> Option<FileEntry<R>>
    ensures read { IfSome result (λ file.
        (extended_production (layout_of (R.seen input.old).is_big R.Offset.limit)
        header.now.meaning).read (R.seen input.old).bytes
        ≡ (Ok (DefineFile (file_seen R.seen R.Offset.number file)), (R.seen input.new).bytes)) }
    ensures order { (R.seen input.new).is_big ≡ (R.seen input.old).is_big }
    ensures file { IfSome result (FileHasOrder R.seen (R.seen input.old).is_big) }
{
    let Some(length) = read_short_offset(input) else {
        return None;
    };
    let Ok(mut inside) = input.split(length) else {
        return None;
    };
    let Ok(opcode) = inside.read_u8() else {
        return None;
    };
    match DwLne(opcode) {
        constants::DW_LNE_define_file if header.parameters.encoding.version <= 4 => {
            let Ok(path_name) = inside.read_null_terminated_slice() else {
                return None;
            };
            match FileEntry::parse(&mut inside, path_name) {
                Ok(file) => Some(file),
                Err(_) => None,
            }
        }
        _ => None,
    }
}

impl LineRow {
    /// Executes one of the standard opcodes that are met most, from the bytes after it. It doesn't
    /// execute any other opcode, or one whose operand isn't short; no register changes then.
    #[inline(always)]
    fn exec_common_opcode<R: Reader>(&mut self, opcode: DwLns, input: &mut R) -> Executed
        ensures executed { IsTrue (is_executed result) → (n : OrderAndLimit) → (h : Header) →
            IsExecutedAs h.parameters
            ((standard_production n h opcode.0).read (R.seen input.old).bytes)
            (R.seen input.new).bytes self.old self.new result }
        ensures some { IsTrue (is_executed result) → 0 < opcode.0 }
        ensures none { result ≡ Executed.No → self.new ≡ self.old }
        ensures order { (R.seen input.new).is_big ≡ (R.seen input.old).is_big }
    {
        match opcode {
            constants::DW_LNS_copy => return Executed::Row,
            constants::DW_LNS_advance_line => {
                let Some(line_advance) = read_short_sleb128(input) else {
                    return Executed::No;
                };
                self.set_register(LineInstruction::<R>::AdvanceLine(line_advance));
            }
            constants::DW_LNS_set_file => {
                let Some(file) = read_short_uleb128(input) else {
                    return Executed::No;
                };
                self.set_register(LineInstruction::<R>::SetFile(file));
            }
            constants::DW_LNS_set_column => {
                let Some(column) = read_short_uleb128(input) else {
                    return Executed::No;
                };
                self.set_register(LineInstruction::<R>::SetColumn(column));
            }
            constants::DW_LNS_negate_stmt => {
                self.set_register(LineInstruction::<R>::NegateStatement);
            }
            _ => return Executed::No,
        }
        Executed::Quiet
    }

    /// Executes one of the extended opcodes that are met most, from the bytes after the zero byte.
    /// It doesn't execute any other opcode, or one whose length or operand is long or isn't there;
    /// no register changes then.
    fn exec_extended_opcode<R: Reader>(
        &mut self,
        header: &LineProgramHeader<R>,
        input: &mut R,
    ) -> Executed
        ensures executed { IsTrue (is_executed result) → IsExecutedAs header.now.meaning.parameters
            ((extended_production (layout_of (R.seen input.old).is_big R.Offset.limit)
            header.now.meaning).read
            (R.seen input.old).bytes) (R.seen input.new).bytes self.old self.new result }
        ensures none { result ≡ Executed.No → self.new ≡ self.old }
        ensures order { (R.seen input.new).is_big ≡ (R.seen input.old).is_big }
    {
        let Some(length) = read_short_offset(input) else {
            return Executed::No;
        };
        let Ok(mut inside) = input.split(length) else {
            return Executed::No;
        };
        let Ok(opcode) = inside.read_u8() else {
            return Executed::No;
        };
        match DwLne(opcode) {
            constants::DW_LNE_end_sequence => {
                self.set_register(LineInstruction::<R>::EndSequence);
                Executed::Row
            }
            constants::DW_LNE_set_address => {
                let Ok(address) = read_set_address(&mut inside, &header.parameters) else {
                    return Executed::No;
                };
                self.exec_set_address(address, &header.parameters);
                Executed::Address(address)
            }
            constants::DW_LNE_set_discriminator => {
                let Some(discriminator) = read_short_uleb128(&mut inside) else {
                    return Executed::No;
                };
                self.set_register(LineInstruction::<R>::SetDiscriminator(discriminator));
                Executed::Quiet
            }
            _ => Executed::No,
        }
    }
}

impl<R: Reader> LineInstructions<R> {
    /// Executes the next instruction on the registers, from its bytes, where it is one of those
    /// that are met often and has short operands: what [`LineInstructions::next_instruction`] and
    /// [`LineRow::execute`] do of it, in less time. `Executed::No`, and nothing is changed, where
    /// it is another one, defines a file, or isn't there as a whole: it has to be parsed then.
    /// Refused by `AddressOverflow`, as `execute` is (DWARF 5, 6.2.5).
    #[inline(always)]
    pub fn execute_next(
        &mut self,
        header: &LineProgramHeader<R>,
        row: &mut LineRow,
    ) -> Result<Executed>
        ensures ok { IfOk result
            (ExecutesNext header.now.meaning self.old self.new row.old row.new) }
        ensures err { IfErr result
            (RefusesNext header.now.meaning self.old self.new row.old row.new) }
        ensures layout { self.new.layout ≡ self.old.layout }
    {
        let executed = match self.execute_common(header, row) {
            Ok(executed) => executed,
            Err(e) => return Err(e),
        };
        match executed {
            Executed::No => self.execute_other(header, row),
            _ => Ok(executed),
        }
    }

    /// Executes the next instruction on the registers, from its bytes, where it is a special
    /// opcode, a copy, a toggle of is_stmt, or, with a short operand, an advance of the line, a
    /// file or a column. `Executed::No`, and nothing is changed, where it is another one or isn't
    /// there as a whole. Refused by `AddressOverflow`, as `LineRow::execute` is (DWARF 5, 6.2.5.1
    /// and 6.2.5.2).
    #[inline(always)]
    pub(crate) fn execute_common(
        &mut self,
        header: &LineProgramHeader<R>,
        row: &mut LineRow,
    ) -> Result<Executed>
        ensures ok { IfOk result
            (ExecutesNext header.now.meaning self.old self.new row.old row.new) }
        ensures err { IfErr result
            (RefusesNext header.now.meaning self.old self.new row.old row.new) }
        ensures layout { self.new.layout ≡ self.old.layout }
    {
        let mut input = self.input;
        let Ok(opcode) = input.read_u8() else {
            return Ok(Executed::No);
        };
        if opcode >= header.opcode_base() {
            self.input = input;
            match row.exec_special_opcode(opcode, &header.parameters) {
                Err(e) => return Err(e),
                Ok(()) => return Ok(Executed::Row),
            }
        }
        let executed = row.exec_common_opcode(DwLns(opcode), &mut input);
        if executed.is_executed() {
            self.input = input;
        }
        Ok(executed)
    }

    /// Takes the next instruction where it defines a file (DWARF 4, 6.2.5.3). None, and nothing is
    /// changed, where it is another one, or its length is long, or it isn't there as a whole.
    #[inline(always)]
    pub(super) fn next_defined_file(
        &mut self,
        header: &LineProgramHeader<R>,
    ) -> Option<FileEntry<R>>
        ensures read { IfSome result (λ file.
            (instruction_production self.old.layout header.now.meaning).read self.old.bytes
            ≡ (Ok (DefineFile (file_seen R.seen R.Offset.number file)), self.new.bytes)) }
        ensures none { IsNone result → self.new ≡ self.old }
        ensures layout { self.new.layout ≡ self.old.layout }
        ensures order { IfSome result (FileHasOrder R.seen self.old.layout.is_big) }
    {
        let mut input = self.input;
        let Ok(opcode) = input.read_u8() else {
            return None;
        };
        if opcode != 0 {
            return None;
        }
        let Some(file) = read_defined_file(header, &mut input) else {
            return None;
        };
        self.input = input;
        Some(file)
    }

    /// Executes the next instruction on the registers, from its bytes, where it is a set address,
    /// an end, a discriminator, or one of the two other advances of the address by operations.
    /// `Executed::No`, and nothing is changed, where it is another one, has a long operand or isn't
    /// there as a whole. Refused by `AddressOverflow`, as `LineRow::execute` is (DWARF 5, 6.2.5.2
    /// and 6.2.5.3).
    #[inline(always)]
    pub(super) fn execute_other(
        &mut self,
        header: &LineProgramHeader<R>,
        row: &mut LineRow,
    ) -> Result<Executed>
        ensures ok { IfOk result
            (ExecutesNext header.now.meaning self.old self.new row.old row.new) }
        ensures err { IfErr result
            (RefusesNext header.now.meaning self.old self.new row.old row.new) }
        ensures layout { self.new.layout ≡ self.old.layout }
    {
        let mut input = self.input;
        let Ok(opcode) = input.read_u8() else {
            return Ok(Executed::No);
        };
        if opcode == 0 {
            let executed = row.exec_extended_opcode(header, &mut input);
            if executed.is_executed() {
                self.input = input;
            }
            return Ok(executed);
        }
        if opcode >= header.opcode_base() {
            return Ok(Executed::No);
        }
        match DwLns(opcode) {
            constants::DW_LNS_advance_pc => {
                let Some(advance) = read_short_uleb128(&mut input) else {
                    return Ok(Executed::No);
                };
                self.input = input;
                match row.apply_operation_advance(advance, &header.parameters) {
                    Err(e) => return Err(e),
                    Ok(()) => return Ok(Executed::Quiet),
                }
            }
            constants::DW_LNS_const_add_pc => {
                self.input = input;
                match row.exec_const_add_pc(&header.parameters) {
                    Err(e) => return Err(e),
                    Ok(()) => return Ok(Executed::Quiet),
                }
            }
            _ => Ok(Executed::No),
        }
    }
}
