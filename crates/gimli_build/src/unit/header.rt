//! The header of a unit.

ghost use Rattle.std.specs.Prelude.{All, OnOk};
ghost use Rattle.gimli_build.specs.inside.Tables.{FitsFile};
ghost use Rattle.gimli_build.specs.Unit.{operations_bytes, line_encoding_bytes, tables_bytes};
ghost use Rattle.gimli_build.specs.Unit.{fields_bytes, header_bytes};
ghost use Rattle.gimli_build.specs.inside.Writes.{Writes, always};

use crate::bytes::write_byte;
use crate::rows::encode::OPCODE_BASE;
use crate::tables::unit_input::UnitInput;
use crate::tables::version_4::write_version_4_tables;
use crate::tables::version_5::write_version_5_tables;
use gimli_bytes::{Error, Result, Writer};
use gimli_core::LineEncoding;

/// Appends the header length, and what it counts.
pub(crate) fn write_header<W: Writer>(w: &mut W, input: &UnitInput<'_>) -> Result<()>
    ensures writes { Writes W.Sink w.old w.new result
        (λ hand. header_bytes hand (W.is_big w.old) input.now.program input.now.texts) }
    ensures fit { OnOk result (All FitsFile input.now.program.files) }
{
    let size = input.format().word_size();
    let length = w.len();
    w.write_udata(0, size)?;
    let start = w.len();
    write_fields(w, input)?;
    let count = (w.len() - start) as u64;
    w.write_udata_at(length, count, size)
}

/// Appends what the header length counts.
fn write_fields<W: Writer>(w: &mut W, input: &UnitInput<'_>) -> Result<()>
    ensures writes { Writes W.Sink w.old w.new result
        (λ hand. fields_bytes hand (W.is_big w.old) input.now.program input.now.texts) }
    ensures fit { OnOk result (All FitsFile input.now.program.files) }
{
    let program = input.program();
    write_line_encoding(w, program.version(), program.line_encoding())?;
    w.write(&[OPCODE_BASE, 0, 1, 1, 1, 1, 0, 0, 0, 1, 0, 0, 1])?;
    write_tables(w, input)
}

/// Appends how lines and operations are encoded.
fn write_line_encoding<W: Writer>(
    w: &mut W,
    version: u16,
    line_encoding: LineEncoding,
) -> Result<()>
    ensures { Writes W.Sink w.old w.new result
        (always (line_encoding_bytes version line_encoding)) }
{
    write_byte(w, line_encoding.minimum_instruction_length)?;
    write_operation_count(w, version, line_encoding.maximum_operations_per_instruction)?;
    w.write(&[
        u8::from(line_encoding.default_is_stmt),
        line_encoding.line_base.cast_unsigned(),
        line_encoding.line_range,
    ])
}

/// Appends how many operations an instruction has; before version 4 it is one, and isn't written.
fn write_operation_count<W: Writer>(w: &mut W, version: u16, operations: u8) -> Result<()>
    ensures { Writes W.Sink w.old w.new result (always (operations_bytes version operations)) }
{
    if version >= 4 {
        return write_byte(w, operations);
    }
    if operations != 1 {
        return Err(Error::NeedVersion(4));
    }
    Ok(())
}

/// Appends the directories and the files.
fn write_tables<W: Writer>(w: &mut W, input: &UnitInput<'_>) -> Result<()>
    ensures writes { Writes W.Sink w.old w.new result
        (λ hand. tables_bytes hand (W.is_big w.old) input.now.program input.now.texts) }
    ensures fit { OnOk result (All FitsFile input.now.program.files) }
{
    let program = input.program();
    if program.version() <= 4 {
        return write_version_4_tables(w, program.tables());
    }
    write_version_5_tables(w, input)
}
