//! How many bytes rows and ends take, without writing them.

ghost use Rattle.std.specs.Prelude.{◌≡◌, ◌<◌, ◌≤◌, ◌^◌, ◌+◌, ◌∷◌, ◌++◌, ◌-◌, [], not, nat_eq};
ghost use Rattle.std.specs.Prelude.{length};
ghost use Rattle.std.specs.Prelude.{min, pos, ◌-ℤ◌, IsTrue};
ghost use Rattle.gimli_core.specs.Numbers.{is_address_size};
ghost use Rattle.gimli_bytes.specs.Number.{uleb, sleb};
ghost use Rattle.gimli_build.specs.Advance.{CanEncode, CanFollow, IsPosition};
ghost use Rattle.gimli_build.specs.Conditions.{CanBuild, AreBuilt};
ghost use Rattle.gimli_build.specs.Joined.{when};
ghost use Rattle.gimli_build.specs.Encode.{marks, changes, line_part, line_opcode, operation_part};
ghost use Rattle.gimli_build.specs.Encode.{row_instructions};
ghost use Rattle.gimli_build.specs.InstructionBytes.{instruction_bytes, instructions_bytes};
ghost use Rattle.gimli_build.specs.Rows.{initial_row, at_position};
ghost use Rattle.gimli_build.specs.inside.ItemSizes.{item_size, items_size};
ghost use Rattle.gimli_build.specs.inside.ReadAs.{read_as};
ghost use Rattle.gimli_line.specs.declared.run.instruction.LineInstruction.TheVariants.{
  AdvancePc,
  EndSequence,
};

use crate::built::items::BuiltItem;
use crate::built::row::LineRow;
use crate::rows::encode::{
    OPCODE_BASE, has_special, line_advance, next_row, operation_advance, place_after,
    special_opcode,
};
use crate::rows::instruction::LineInstruction;
use gimli_bytes::Leb128;
use gimli_core::{Encoding, LineEncoding};

/// How many bytes the instructions of a program's items take, up to the greatest number of 64 bits.
#[inline(never)]
pub(crate) fn items_size(
    encoding: Encoding,
    line_encoding: LineEncoding,
    items: &[BuiltItem],
) -> u64
    requires can { CanEncode line_encoding }
    requires built { AreBuilt line_encoding (0, 0) items.now }
    ensures { result ≡ min (items_size encoding line_encoding
        (initial_row encoding.version line_encoding.default_is_stmt) items.now) (2 ^ 64 - 1) }
{
    let initial = LineRow::initial(encoding, line_encoding);
    let mut previous = &initial;
    let mut place = &initial;
    let mut size: u64 = 0;
    for item in items {
        let next = next_row(&initial, previous, item);
        let next_place = place_after(&initial, item);
        size = size.saturating_add(item_size(encoding, line_encoding, place, previous, item));
        previous = next;
        place = next_place;
    }
    size
}

/// How many bytes an item that follows `previous` at the position of `place` takes.
fn item_size(
    encoding: Encoding,
    line_encoding: LineEncoding,
    place: &LineRow,
    previous: &LineRow,
    item: &BuiltItem,
) -> u64
    requires can { CanEncode line_encoding }
    requires stands { IsPosition line_encoding place.now.address_offset place.now.op_index }
    requires previous_line { previous.now.line < 2 ^ 63 }
    requires built { CanBuild line_encoding (place.now.address_offset, place.now.op_index)
        item.now }
    ensures { result ≡ item_size encoding line_encoding
        (at_position (place.now.address_offset, place.now.op_index) previous.now) item.now }
{
    match item {
        BuiltItem::Row(row) => row_size(encoding, line_encoding, place, previous, row),
        BuiltItem::SetAddress(_) => 3 + u64::from(encoding.address_size),
        BuiltItem::End {
            address_offset,
            op_index,
        } => {
            let count = operation_advance(&line_encoding, place, *address_offset, *op_index);
            end_size(count)
        }
    }
}

/// How many bytes a row that follows `previous` at the position of `place` takes.
fn row_size(
    encoding: Encoding,
    line_encoding: LineEncoding,
    place: &LineRow,
    previous: &LineRow,
    row: &LineRow,
) -> u64
    requires can { CanEncode line_encoding }
    requires stands { IsPosition line_encoding place.now.address_offset place.now.op_index }
    requires follows { CanFollow line_encoding place.now.address_offset place.now.op_index
        row.now.address_offset row.now.op_index }
    requires previous_line { previous.now.line < 2 ^ 63 }
    requires line { row.now.line < 2 ^ 63 }
    ensures { result ≡ length (instructions_bytes
        (row_instructions encoding.version line_encoding
        (at_position (place.now.address_offset, place.now.op_index) previous.now) row.now)) }
{
    let advance = line_advance(previous.line, row.line);
    let count = operation_advance(&line_encoding, place, row.address_offset, row.op_index);
    let opcode = line_opcode(&line_encoding, advance);
    marks_size(row)
        + changes_size(encoding.version, previous, row)
        + line_size(&line_encoding, advance)
        + operation_size(&line_encoding, opcode, count)
}

/// How many bytes an end that is `count` operations after the row before takes.
fn end_size(count: u64) -> u64
    ensures { result ≡ length (instructions_bytes
        (when (not (nat_eq count 0)) (AdvancePc count) ++ EndSequence ∷ [])) }
{
    size_if(count != 0, LineInstruction::AdvancePc(count))
        + instruction_size(LineInstruction::EndSequence)
}

/// How many bytes the marks of a row take: what belongs to this row alone.
fn marks_size(row: &LineRow) -> u64
    ensures size { result ≡ length (instructions_bytes (marks row.now)) }
    ensures short { result ≤ 60 }
{
    let discriminator = LineInstruction::SetDiscriminator(row.discriminator);
    size_if(row.discriminator != 0, discriminator)
        + size_if(row.basic_block, LineInstruction::SetBasicBlock)
        + size_if(row.prologue_end, LineInstruction::SetPrologueEnd)
        + size_if(row.epilogue_begin, LineInstruction::SetEpilogueBegin)
}

/// How many bytes it takes to change what lasts from row to row, where it differs.
fn changes_size(version: u16, previous: &LineRow, row: &LineRow) -> u64
    ensures size { result ≡ length (instructions_bytes (changes version previous.now row.now)) }
    ensures short { result ≤ 60 }
{
    let file = LineInstruction::SetFile(row.file.raw(version));
    size_if(
        row.is_statement != previous.is_statement,
        LineInstruction::NegateStatement,
    ) + size_if(row.file != previous.file, file)
        + size_if(
            row.column != previous.column,
            LineInstruction::SetColumn(row.column),
        )
        + size_if(row.isa != previous.isa, LineInstruction::SetIsa(row.isa))
}

/// How many bytes a line advance takes where no special opcode has it.
fn line_size(line_encoding: &LineEncoding, advance: i64) -> u64
    ensures size { result
        ≡ length (instructions_bytes (line_part line_encoding.now advance)) }
    ensures short { result ≤ 15 }
{
    if has_special(line_encoding, advance) {
        return 0;
    }
    instruction_size(LineInstruction::AdvanceLine(advance))
}

/// The special opcode that is due for a line advance.
fn line_opcode(line_encoding: &LineEncoding, advance: i64) -> u8
    requires can { CanEncode line_encoding.now }
    ensures { result ≡ line_opcode line_encoding.now advance }
{
    if has_special(line_encoding, advance) {
        return OPCODE_BASE + (advance - i64::from(line_encoding.line_base)) as u8;
    }
    OPCODE_BASE + line_encoding.line_base.unsigned_abs()
}

/// How many bytes it takes to advance by `count` operations and make the row, where the special
/// opcode `opcode` is due for the line.
fn operation_size(line_encoding: &LineEncoding, opcode: u8, count: u64) -> u64
    requires can { CanEncode line_encoding.now }
    ensures size { result
        ≡ length (instructions_bytes (operation_part line_encoding.now opcode count)) }
    ensures short { result ≤ 16 }
{
    let range = u64::from(line_encoding.line_range);
    if special_opcode(opcode, count, range).is_some() {
        return 1;
    }
    let rest = count.saturating_sub(u64::from(u8::MAX - OPCODE_BASE) / range);
    match special_opcode(opcode, rest, range) {
        Some(_) => 2,
        None => 1 + instruction_size(LineInstruction::AdvancePc(count)),
    }
}

/// How many bytes an instruction takes where it is due.
fn size_if(due: bool, instruction: LineInstruction) -> u64
    ensures size { result ≡ length (instructions_bytes (when due (read_as instruction))) }
    ensures short { result ≤ 15 }
{
    if due {
        instruction_size(instruction)
    } else {
        0
    }
}

/// How many bytes an instruction takes.
fn instruction_size(instruction: LineInstruction) -> u64
    ensures size { result ≡ length (instruction_bytes (read_as instruction)) }
    ensures short { result ≤ 15 }
{
    match instruction {
        LineInstruction::AdvancePc(n) => 1 + unsigned_size(n),
        LineInstruction::AdvanceLine(n) => 1 + signed_size(n),
        LineInstruction::SetFile(n) => 1 + unsigned_size(n),
        LineInstruction::SetColumn(n) => 1 + unsigned_size(n),
        LineInstruction::SetIsa(n) => 1 + unsigned_size(n),
        LineInstruction::EndSequence => 3,
        LineInstruction::SetDiscriminator(n) => 3 + unsigned_size(n),
        LineInstruction::Special(_) => 1,
        LineInstruction::Copy => 1,
        LineInstruction::NegateStatement => 1,
        LineInstruction::SetBasicBlock => 1,
        LineInstruction::ConstAddPc => 1,
        LineInstruction::SetPrologueEnd => 1,
        LineInstruction::SetEpilogueBegin => 1,
    }
}

/// How many bytes an unsigned number takes as LEB128.
pub(crate) fn unsigned_size(n: u64) -> u64
    ensures size { result ≡ length (uleb n) }
    ensures short { result ≤ 10 }
{
    Leb128::unsigned(n).bytes().len() as u64
}

/// How many bytes a signed number takes as LEB128.
fn signed_size(n: i64) -> u64
    ensures size { result ≡ length (sleb n) }
    ensures short { result ≤ 10 }
{
    Leb128::signed(n).bytes().len() as u64
}
