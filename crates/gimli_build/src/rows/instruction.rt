//! Instructions, one at a time.

ghost use Rattle.std.specs.Prelude.{◌≡◌, ◌+◌, ◌∷◌, Ok};
ghost use Rattle.gimli_bytes.specs.Number.{uleb, sleb, low_bits as low_bits_of};
ghost use Rattle.gimli_bytes.specs.Number.{has_seven_bits as holds_seven_bits};
ghost use Rattle.gimli_build.specs.InstructionBytes.{
  instruction_bytes,
  instructions_bytes,
  set_address_bytes,
};
ghost use Rattle.gimli_build.specs.Joined.{when};
ghost use Rattle.gimli_build.specs.inside.ReadAs.{read_as};
ghost use Rattle.gimli_build.specs.inside.Writes.{Writes, always};
ghost use Rattle.gimli_line.specs.declared.run.instruction.LineInstruction.TheVariants.{
  SetDiscriminator,
};

use crate::bytes::write_byte;
use gimli_bytes::{Address, Leb128, Result, Writer};
use gimli_core::{DwLns, constants};

/// An instruction of a row or an end.
#[derive(Clone, Copy)]
pub(crate) enum LineInstruction {
    Special(u8),
    Copy,
    AdvancePc(u64),
    AdvanceLine(i64),
    SetFile(u64),
    SetColumn(u64),
    NegateStatement,
    SetBasicBlock,
    ConstAddPc,
    SetPrologueEnd,
    SetEpilogueBegin,
    SetIsa(u64),
    EndSequence,
    SetDiscriminator(u64),
}

/// Appends an instruction.
#[inline(always)]
pub(crate) fn write_instruction<W: Writer>(w: &mut W, instruction: LineInstruction) -> Result<()>
    ensures { Writes W.Sink w.old w.new result
        (always (Ok (instruction_bytes (read_as instruction)))) }
{
    match instruction {
        LineInstruction::Special(opcode) => write_byte(w, opcode),
        LineInstruction::Copy => write_byte(w, constants::DW_LNS_copy.0),
        LineInstruction::AdvancePc(n) => write_unsigned(w, constants::DW_LNS_advance_pc, n),
        LineInstruction::AdvanceLine(n) => write_signed(w, constants::DW_LNS_advance_line, n),
        LineInstruction::SetFile(n) => write_unsigned(w, constants::DW_LNS_set_file, n),
        LineInstruction::SetColumn(n) => write_unsigned(w, constants::DW_LNS_set_column, n),
        LineInstruction::NegateStatement => write_byte(w, constants::DW_LNS_negate_stmt.0),
        LineInstruction::SetBasicBlock => write_byte(w, constants::DW_LNS_set_basic_block.0),
        LineInstruction::ConstAddPc => write_byte(w, constants::DW_LNS_const_add_pc.0),
        LineInstruction::SetPrologueEnd => write_byte(w, constants::DW_LNS_set_prologue_end.0),
        LineInstruction::SetEpilogueBegin => write_byte(w, constants::DW_LNS_set_epilogue_begin.0),
        LineInstruction::SetIsa(n) => write_unsigned(w, constants::DW_LNS_set_isa, n),
        LineInstruction::EndSequence => w.write(&[0, 1, constants::DW_LNE_end_sequence.0]),
        LineInstruction::SetDiscriminator(n) => write_discriminator(w, n),
    }
}

/// Appends an instruction where it is due.
#[inline(always)]
pub(crate) fn write_if<W: Writer>(w: &mut W, due: bool, instruction: LineInstruction) -> Result<()>
    ensures { Writes W.Sink w.old w.new result
        (always (Ok (instructions_bytes (when due (read_as instruction))))) }
{
    if due {
        write_instruction(w, instruction)?;
    }
    Ok(())
}

/// Appends a set address of `size` bytes: the instruction's opening, and then the address, whose
/// refusal is handed on.
pub(crate) fn write_set_address<W: Writer>(w: &mut W, address: &Address, size: u8) -> Result<()>
    ensures { Writes W.Sink w.old w.new result
        (λ hand. set_address_bytes hand (W.is_big w.old) address.now size) }
{
    write_byte(w, 0)?;
    w.write_uleb128(u64::from(size) + 1)?;
    write_byte(w, constants::DW_LNE_set_address.0)?;
    w.write_address(*address, size)
}

/// Appends a discriminator.
#[inline(always)]
fn write_discriminator<W: Writer>(w: &mut W, discriminator: u64) -> Result<()>
    ensures { Writes W.Sink w.old w.new result
        (always (Ok (instruction_bytes (SetDiscriminator discriminator)))) }
{
    let operand = Leb128::unsigned(discriminator);
    write_byte(w, 0)?;
    w.write_uleb128(operand.bytes().len() as u64 + 1)?;
    write_byte(w, constants::DW_LNE_set_discriminator.0)?;
    w.write(operand.bytes())
}

/// Appends a standard opcode and its unsigned operand.
#[inline(always)]
fn write_unsigned<W: Writer>(w: &mut W, opcode: DwLns, operand: u64) -> Result<()>
    ensures { Writes W.Sink w.old w.new result (always (Ok (opcode.0 ∷ uleb operand))) }
{
    if operand < 128 {
        return w.write(&[opcode.0, operand as u8]);
    }
    write_long_unsigned(w, opcode, operand)
}

/// Appends a standard opcode and its unsigned operand, by a call for each.
#[inline(always)]
fn write_long_unsigned<W: Writer>(w: &mut W, opcode: DwLns, operand: u64) -> Result<()>
    ensures { Writes W.Sink w.old w.new result (always (Ok (opcode.0 ∷ uleb operand))) }
{
    write_byte(w, opcode.0)?;
    w.write_uleb128(operand)
}

/// Appends a standard opcode and its signed operand.
#[inline(always)]
fn write_signed<W: Writer>(w: &mut W, opcode: DwLns, operand: i64) -> Result<()>
    ensures { Writes W.Sink w.old w.new result (always (Ok (opcode.0 ∷ sleb operand))) }
{
    if has_seven_bits(operand) {
        return w.write(&[opcode.0, low_bits(operand)]);
    }
    write_byte(w, opcode.0)?;
    w.write_sleb128(operand)
}

/// The lowest seven bits.
fn low_bits(operand: i64) -> u8
    ensures { result ≡ low_bits_of operand }
{
    operand.rem_euclid(128) as u8
}

/// Whether seven bits hold the number, with its sign.
fn has_seven_bits(operand: i64) -> bool
    ensures { result ≡ holds_seven_bits operand }
{
    -64 <= operand && operand < 64
}
