//! How many bytes an instruction has.

ghost use Rattle.std.specs.Prelude.{◌≡◌, ◌-◌, ◌++◌, ℕ, List, Ok, length};
ghost use Rattle.gimli_core.specs.Layout.{OrderAndLimit};
ghost use Rattle.gimli_line.specs.header.Header.{Header};
ghost use Rattle.gimli_line.specs.run.Instruction.{Ins};
ghost use Rattle.gimli_line.specs.run.InstructionGrammar.{SpellsInstruction};
ghost use Rattle.lines_reports.specs.Pieces.{opcode_size};
ghost use Rattle.lines_reports.specs.inside.Sizes.{bytes_after, opcode_at, size_at};

use gimli_core::{Reader, ReaderOffset, Result};

/// The bytes of an instruction.
#[derive(Clone, Copy)]
pub(crate) struct InstructionBytes {
    /// Those that say which one it is: one, or of an extended instruction the zero, the length and
    /// the opcode (DWARF 5, section 6.2.3).
    pub(crate) opcode: u64,
    /// Those of its operands.
    pub(crate) operands: u64,
}

/// Takes the bytes of an instruction off the front, so that `left` bytes remain, and counts them.
/// Refused only where the bytes aren't those of an instruction.
pub(crate) fn instruction_bytes<R: Reader>(rest: &mut R, left: u64) -> Result<InstructionBytes>
    ensures sizes { (layout : OrderAndLimit) (h : Header) (i : Ins) (front after : List ℕ)
        → (R.seen rest.old).bytes ≡ front ++ after → left ≡ length after
        → SpellsInstruction layout h front i
        → result ≡ Ok (record {
          opcode = opcode_size front;
          operands = length front - opcode_size front;
        }) }
    ensures left { (layout : OrderAndLimit) (h : Header) (i : Ins) (front after : List ℕ)
        → (R.seen rest.old).bytes ≡ front ++ after → left ≡ length after
        → SpellsInstruction layout h front i → (R.seen rest.new).bytes ≡ after }
    ensures order { (R.seen rest.new).is_big ≡ (R.seen rest.old).is_big }
{
    count_bytes(rest, left)
}

/// Takes all but the last `left` bytes off the front, and counts them.
fn count_bytes<R: Reader>(rest: &mut R, left: u64) -> Result<InstructionBytes>
    ensures read { (result, (R.seen rest.new).bytes) ≡ size_at left (R.seen rest.old).bytes }
    ensures order { (R.seen rest.new).is_big ≡ (R.seen rest.old).is_big }
{
    let whole = rest.len().into_u64();
    skip_opcode(rest)?;
    let after_opcode = rest.len().into_u64();
    let operands = after_opcode.saturating_sub(left);
    skip_bytes(operands, rest)?;
    Ok(InstructionBytes {
        opcode: whole.saturating_sub(after_opcode),
        operands,
    })
}

/// Takes off the bytes that say which instruction it is.
fn skip_opcode<R: Reader>(rest: &mut R) -> Result<()>
    ensures read { (result, (R.seen rest.new).bytes) ≡ opcode_at (R.seen rest.old).bytes }
    ensures order { (R.seen rest.new).is_big ≡ (R.seen rest.old).is_big }
{
    if rest.read_u8()? == 0 {
        rest.read_uleb128()?;
        rest.read_u8()?;
    }
    Ok(())
}

/// Takes so many bytes off the front.
fn skip_bytes<R: Reader>(count: u64, rest: &mut R) -> Result<()>
    ensures read { (result, (R.seen rest.new).bytes) ≡ bytes_after count (R.seen rest.old).bytes }
    ensures order { (R.seen rest.new).is_big ≡ (R.seen rest.old).is_big }
{
    for _ in 0..count {
        rest.read_u8()?;
    }
    Ok(())
}
