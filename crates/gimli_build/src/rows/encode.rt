//! Rows and ends as instructions. Each instruction is written at once; none is kept.

ghost use Rattle.std.specs.Prelude.{◌≡◌, ℕ, Bool, false, not, nat_eq, nat_le, if◌then◌else◌, []};
ghost use Rattle.std.specs.Prelude.{◌∷◌};
ghost use Rattle.std.specs.Prelude.{◌++◌, ◌+◌, ◌*◌, ◌<◌, ◌≤◌, ◌^◌, Some, None, IfOk, OnOk, Ok, pos};
ghost use Rattle.std.specs.Prelude.{◌-ℤ◌, unsigned_abs};
ghost use Rattle.gimli_build.specs.Conditions.{CanBuild, AreBuilt};
ghost use Rattle.gimli_build.specs.Items.{next_previous, item_bytes, items_bytes};
ghost use Rattle.gimli_build.specs.Items.{FitsItem, AreFit};
ghost use Rattle.gimli_build.specs.Built.{position_after};
ghost use Rattle.gimli_build.specs.Rows.{initial_row, at_position};
ghost use Rattle.gimli_build.specs.Advance.{CanEncode, IsPosition, CanFollow, operations};
ghost use Rattle.gimli_build.specs.Joined.{when};
ghost use Rattle.gimli_build.specs.Encode.{marks, changes, is_special_advance, line_opcode};
ghost use Rattle.gimli_build.specs.Encode.{line_part, row_maker, operation_part, row_instructions};
ghost use Rattle.gimli_build.specs.InstructionBytes.{instructions_bytes, FitsInstructions};
ghost use Rattle.gimli_build.specs.FileNumber.{file_number};
ghost use Rattle.gimli_build.specs.inside.ReadAs.{read_as};
ghost use Rattle.gimli_build.specs.inside.Writes.{Writes, always};
ghost use Rattle.gimli_line.specs.declared.run.instruction.LineInstruction.TheVariants.{
  AdvancePc,
  EndSequence,
};

use crate::built::items::BuiltItem;
use crate::built::line_program::{instruction_count, is_plain};
use crate::built::row::LineRow;
use crate::rows::instruction::{LineInstruction, write_if, write_instruction, write_set_address};
use gimli_bytes::{Result, Writer};
use gimli_core::{Encoding, LineEncoding};

/// The first special opcode: the twelve standard opcodes that DWARF names are below it.
pub(crate) const OPCODE_BASE: u8 = 13;

/// Appends the instructions of a program's items, each at once. Refused for the first set address
/// that is refused, or as the writer refuses. It isn't inlined, so that the loop has the registers
/// to itself.
#[inline(never)]
pub(crate) fn write_items<W: Writer>(
    w: &mut W,
    encoding: Encoding,
    line_encoding: LineEncoding,
    items: &[BuiltItem],
) -> Result<()>
    requires can { CanEncode line_encoding }
    requires built { AreBuilt line_encoding (0, 0) items.now }
    ensures writes { Writes W.Sink w.old w.new result
        (λ hand. items_bytes hand (W.is_big w.old) encoding line_encoding
        (initial_row encoding.version line_encoding.default_is_stmt) items.now) }
    ensures fit { OnOk result (AreFit encoding.version items.now) }
{
    let initial = LineRow::initial(encoding, line_encoding);
    let mut previous = &initial;
    let mut place = &initial;
    for item in items {
        let next = next_row(&initial, previous, item);
        let next_place = place_after(&initial, item);
        write_item(w, encoding, line_encoding, place, previous, item)?;
        previous = next;
        place = next_place;
    }
    Ok(())
}

/// The row that the next item follows, but for its position: what was built isn't copied.
#[inline(always)]
pub(crate) fn next_row<'a>(
    initial: &'a LineRow,
    previous: &'a LineRow,
    item: &'a BuiltItem,
) -> &'a LineRow
    ensures { (version : ℕ) (is_stmt : Bool) (position : ℕ × ℕ)
        → initial.now ≡ initial_row version is_stmt →
        at_position (position_after item.now) result.now
        ≡ next_previous version is_stmt (at_position position previous.now) item.now }
{
    match item {
        BuiltItem::SetAddress(_) => previous,
        BuiltItem::Row(row) => row,
        BuiltItem::End { .. } => initial,
    }
}

/// The row whose position the next item is compared with: an item's own, else the initial one.
#[inline(always)]
pub(crate) fn place_after<'a>(initial: &'a LineRow, item: &'a BuiltItem) -> &'a LineRow
    ensures { (version : ℕ) (is_stmt : Bool) → initial.now ≡ initial_row version is_stmt →
        (result.now.address_offset, result.now.op_index) ≡ position_after item.now }
{
    match item {
        BuiltItem::Row(row) => row,
        _ => initial,
    }
}

/// Appends the instructions of one item that follows `previous` at the position of `place`. None of
/// its arms is a call out of line (`inline(never)`): the space for the result of such a call would
/// be cleared for each row.
#[inline(always)]
fn write_item<W: Writer>(
    w: &mut W,
    encoding: Encoding,
    line_encoding: LineEncoding,
    place: &LineRow,
    previous: &LineRow,
    item: &BuiltItem,
) -> Result<()>
    requires can { CanEncode line_encoding }
    requires stands { IsPosition line_encoding place.now.address_offset place.now.op_index }
    requires previous_line { previous.now.line < 2 ^ 63 }
    requires built { CanBuild line_encoding (place.now.address_offset, place.now.op_index)
        item.now }
    ensures writes { Writes W.Sink w.old w.new result
        (λ hand. item_bytes hand (W.is_big w.old) encoding line_encoding
        (at_position (place.now.address_offset, place.now.op_index) previous.now) item.now) }
    ensures fit { OnOk result (FitsItem encoding.version item.now) }
{
    match item {
        BuiltItem::Row(row) => write_row(w, encoding, line_encoding, place, previous, row),
        BuiltItem::SetAddress(address) => write_set_address(w, address, encoding.address_size),
        BuiltItem::End {
            address_offset,
            op_index,
        } => {
            let count = operation_advance(&line_encoding, place, *address_offset, *op_index);
            write_end(w, count)
        }
    }
}

/// Appends the instructions of a row that follows `previous` at the position of `place`. At the
/// start of a sequence, and after a set address in one, this position is the initial row's.
#[inline(always)]
pub(crate) fn write_row<W: Writer>(
    w: &mut W,
    encoding: Encoding,
    line_encoding: LineEncoding,
    place: &LineRow,
    previous: &LineRow,
    row: &LineRow,
) -> Result<()>
    requires can { CanEncode line_encoding }
    requires stands { IsPosition line_encoding place.now.address_offset place.now.op_index }
    requires follows { CanFollow line_encoding place.now.address_offset place.now.op_index
        row.now.address_offset row.now.op_index }
    requires previous_line { previous.now.line < 2 ^ 63 }
    requires line { row.now.line < 2 ^ 63 }
    ensures writes { Writes W.Sink w.old w.new result
        (always (Ok (instructions_bytes
        (row_instructions encoding.version line_encoding
        (at_position (place.now.address_offset, place.now.op_index) previous.now) row.now)))) }
    ensures fit { OnOk result (FitsInstructions encoding.version row.now) }
{
    write_marks(w, row)?;
    write_changes(w, encoding.version, previous, row)?;
    let opcode = write_line_advance(w, &line_encoding, line_advance(previous.line, row.line))?;
    let count = operation_advance(&line_encoding, place, row.address_offset, row.op_index);
    write_operation_advance(w, &line_encoding, opcode, count)?;
    Ok(())
}

/// Appends the instructions of an end that is `count` operations after the row before.
pub(crate) fn write_end<W: Writer>(w: &mut W, count: u64) -> Result<()>
    ensures { Writes W.Sink w.old w.new result (always (Ok (instructions_bytes
        (when (not (nat_eq count 0)) (AdvancePc count) ++ EndSequence ∷ [])))) }
{
    write_if(w, count != 0, LineInstruction::AdvancePc(count))?;
    write_instruction(w, LineInstruction::EndSequence)
}

/// Appends the marks of a row: what belongs to this row alone.
#[inline(always)]
fn write_marks<W: Writer>(w: &mut W, row: &LineRow) -> Result<()>
    ensures writes { Writes W.Sink w.old w.new result
        (always (Ok (instructions_bytes (marks row.now)))) }
    ensures fit { OnOk result (row.now.discriminator < 2 ^ 64) }
{
    if has_marks(row) {
        write_some_marks(w, row)
    } else {
        Ok(())
    }
}

/// Whether a row has marks.
fn has_marks(row: &LineRow) -> bool
    ensures none { result ≡ false → marks row.now ≡ [] }
    ensures fit { row.now.discriminator < 2 ^ 64 }
{
    row.discriminator != 0 || row.basic_block | row.prologue_end | row.epilogue_begin
}

/// Appends the marks of a row. It is inlined, so that only this branch has space for what the call
/// returns.
#[inline(always)]
fn write_some_marks<W: Writer>(w: &mut W, row: &LineRow) -> Result<()>
    ensures { Writes W.Sink w.old w.new result
        (always (Ok (instructions_bytes (marks row.now)))) }
{
    write_each_mark(w, row)
}

/// The same. Few rows have marks, so it isn't inlined.
#[inline(never)]
fn write_each_mark<W: Writer>(w: &mut W, row: &LineRow) -> Result<()>
    ensures { Writes W.Sink w.old w.new result
        (always (Ok (instructions_bytes (marks row.now)))) }
{
    let discriminator = LineInstruction::SetDiscriminator(row.discriminator);
    write_if(w, row.discriminator != 0, discriminator)?;
    write_if(w, row.basic_block, LineInstruction::SetBasicBlock)?;
    write_if(w, row.prologue_end, LineInstruction::SetPrologueEnd)?;
    write_if(w, row.epilogue_begin, LineInstruction::SetEpilogueBegin)?;
    Ok(())
}

/// Appends what lasts from row to row, where it differs.
fn write_changes<W: Writer>(
    w: &mut W,
    version: u16,
    previous: &LineRow,
    row: &LineRow,
) -> Result<()>
    ensures writes { Writes W.Sink w.old w.new result
        (always (Ok (instructions_bytes (changes version previous.now row.now)))) }
    ensures fit { OnOk result ((file_number version row.now.file < 2 ^ 64)
        × (row.now.column < 2 ^ 64) × (row.now.isa < 2 ^ 64)) }
{
    write_if(
        w,
        row.is_statement != previous.is_statement,
        LineInstruction::NegateStatement,
    )?;
    let file = LineInstruction::SetFile(row.file.raw(version));
    write_if(w, row.file != previous.file, file)?;
    write_if(
        w,
        row.column != previous.column,
        LineInstruction::SetColumn(row.column),
    )?;
    write_if(w, row.isa != previous.isa, LineInstruction::SetIsa(row.isa))?;
    Ok(())
}

/// Appends the line advance where no special opcode has it, and returns the special opcode that is
/// due for the line.
fn write_line_advance<W: Writer>(
    w: &mut W,
    line_encoding: &LineEncoding,
    advance: i64,
) -> Result<u8>
    requires can { CanEncode line_encoding.now }
    ensures writes { Writes W.Sink w.old w.new result
        (always (Ok (instructions_bytes (line_part line_encoding.now advance)))) }
    ensures opcode { IfOk result (λ s. s ≡ line_opcode line_encoding.now advance) }
{
    if has_special(line_encoding, advance) {
        return Ok(OPCODE_BASE + (advance - i64::from(line_encoding.line_base)) as u8);
    }
    write_instruction(w, LineInstruction::AdvanceLine(advance))?;
    Ok(OPCODE_BASE + line_encoding.line_base.unsigned_abs())
}

/// Whether special opcodes have this line advance.
pub(crate) fn has_special(line_encoding: &LineEncoding, advance: i64) -> bool
    ensures { result ≡ is_special_advance line_encoding.now advance }
{
    let base = i64::from(line_encoding.line_base);
    base <= advance && advance < base + i64::from(line_encoding.line_range)
}

/// Appends what advances by `count` operations and makes the row, where the special opcode `opcode`
/// is due for the line.
fn write_operation_advance<W: Writer>(
    w: &mut W,
    line_encoding: &LineEncoding,
    opcode: u8,
    count: u64,
) -> Result<()>
    requires can { CanEncode line_encoding.now }
    ensures { Writes W.Sink w.old w.new result
        (always (Ok (instructions_bytes (operation_part line_encoding.now opcode count)))) }
{
    let range = u64::from(line_encoding.line_range);
    if let Some(special) = special_opcode(opcode, count, range) {
        return write_instruction(w, maker(line_encoding, special));
    }
    let rest = count.saturating_sub(u64::from(u8::MAX - OPCODE_BASE) / range);
    let (first, last) = match special_opcode(opcode, rest, range) {
        Some(shorter) => (LineInstruction::ConstAddPc, shorter),
        None => (LineInstruction::AdvancePc(count), opcode),
    };
    write_instruction(w, first)?;
    write_instruction(w, maker(line_encoding, last))
}

/// The special opcode that advances by `count` operations more than `opcode` does; none where no
/// byte has it. More than 255 are too many for any line range, so the product stays small.
pub(crate) fn special_opcode(opcode: u8, count: u64, range: u64) -> Option<u8>
    requires some { 1 ≤ range }
    requires few { range ≤ 127 }
    ensures { result
        ≡ (if nat_le (opcode + count * range) 255 then Some (opcode + count * range) else None) }
{
    if count > u64::from(u8::MAX) {
        return None;
    }
    u8::try_from(u64::from(opcode) + count * range).ok()
}

/// The instruction that makes a row for this special opcode: copy where the opcode advances
/// nothing.
fn maker(line_encoding: &LineEncoding, opcode: u8) -> LineInstruction
    requires { CanEncode line_encoding.now }
    ensures { read_as result ≡ row_maker line_encoding.now opcode }
{
    if opcode == OPCODE_BASE + line_encoding.line_base.unsigned_abs() {
        LineInstruction::Copy
    } else {
        LineInstruction::Special(opcode)
    }
}

/// How many operations an offset and an op_index are after the position of `place`. If each byte is
/// an operation, this is the number of bytes.
pub(crate) fn operation_advance(
    line_encoding: &LineEncoding,
    place: &LineRow,
    address_offset: u64,
    op_index: u64,
) -> u64
    requires can { CanEncode line_encoding.now }
    requires stands { IsPosition line_encoding.now place.now.address_offset place.now.op_index }
    requires follows { CanFollow line_encoding.now place.now.address_offset place.now.op_index
        address_offset op_index }
    ensures { result ≡ operations line_encoding.now place.now.address_offset place.now.op_index
        address_offset op_index }
{
    if is_plain(*line_encoding) {
        return address_offset - place.address_offset;
    }
    let operations = u64::from(line_encoding.maximum_operations_per_instruction);
    let instructions = instruction_count(*line_encoding, address_offset - place.address_offset);
    instructions * operations + op_index - place.op_index
}

/// How far a line is after another one.
pub(crate) fn line_advance(from: u64, to: u64) -> i64
    requires from { from < 2 ^ 63 }
    requires to { to < 2 ^ 63 }
    ensures { result ≡ pos to -ℤ pos from }
{
    to as i64 - from as i64
}
