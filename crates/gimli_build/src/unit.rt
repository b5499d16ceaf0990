//! The unit of a line program as it is written.

ghost use Rattle.std.specs.Prelude.{◌≡◌, ◌<◌, ◌^◌, length, IsTrue, IfOk, OnOk, Err};
ghost use Rattle.gimli_bytes.specs.Hand.{Placement};
ghost use Rattle.gimli_bytes.specs.Written.{IsOwn};
ghost use Rattle.gimli_bytes.specs.Texts.{texts_in};
ghost use Rattle.gimli_build.specs.Conditions.{CanWrite};
ghost use Rattle.gimli_build.specs.inside.Conditions.{IsBuilt};
ghost use Rattle.gimli_build.specs.Unit.{version_bytes, opening_bytes, inside_bytes};
ghost use Rattle.gimli_build.specs.Unit.{whole_bytes, is_incompatible, unit_bytes};
ghost use Rattle.gimli_build.specs.Linked.{IsReadBack};
ghost use Rattle.gimli_build.specs.WrittenTables.{LeavesTables};
ghost use Rattle.gimli_build.specs.Writes.{WritesOr, OfMemoryOr};
ghost use Rattle.gimli_build.specs.inside.Writes.{Writes, always};

mod header;
mod refusal;
mod refused;
mod writable;

use crate::built::line_program::LineProgram;
use crate::rows::encode::write_items;
use crate::tables::unit_input::UnitInput;
use crate::tables::version_5::add_empty_source;
use gimli_bytes::{DebugLine, Error, LineStringTable, Result, StringTable, Writer};
use gimli_core::{DebugLineOffset, Encoding};
use header::write_header;
pub use refusal::{Refusal, Symbols};

impl LineProgram {
    /// Appends the program's unit, in the program's own version and format, and returns its offset:
    /// the length of the section before. Requires a program that isn't a placeholder, texts that
    /// are in these tables, and sources without a zero byte. From version 5 on the empty text
    /// stands for the source of a file that has none, where sources are written; the table of their
    /// form has it then.
    ///
    /// Refused by `IncompatibleLineProgramEncoding` where the encoding of the unit that the program
    /// is for has another address size, or a version below 5 where the program's is 5 or more;
    /// nothing is appended then, and both tables stay as they are. Refused by `UnsupportedVersion`
    /// below version 2 and above version 5, by `NeedVersion(4)` where an earlier version has more
    /// than one operation in an instruction, by `LineStringFormMismatch` for a text of another form
    /// than the first directory, path or source from version 5 on, and up to version 4 for a path
    /// or a directory that isn't in the program itself, but for the working directory, which isn't
    /// written there; by `ValueTooLarge` for a length or an offset that its word can't hold and an
    /// address that is too wide, by `InvalidAddress` for a symbol, and by `InitialLengthOverflow`
    /// for a unit length that is reserved; by `OutOfMemory`; or as the writer refuses. The section
    /// keeps its old bytes, and new ones may follow them then.
    pub fn write<W: Writer>(
        &self,
        w: &mut DebugLine<W>,
        encoding: Encoding,
        line_strings: &mut LineStringTable,
        strings: &mut StringTable,
    ) -> Result<DebugLineOffset>
        requires { CanWrite self.now (texts_in strings.old line_strings.old) }
        ensures writes { WritesOr W.Sink (OfMemoryOr (IsOwn W.Sink w.old.0)) w.old.0 w.new.0 result
            (λ hand. unit_bytes hand (W.is_big w.old.0) encoding self.now
            (texts_in strings.old line_strings.old)) }
        ensures offset { IfOk result (λ offset. offset.0 ≡ length (W.contents w.old.0)) }
        ensures reads_back { IsReadBack W.Sink self.now (texts_in strings.new line_strings.new)
            w.old.0 w.new.0 result }
        ensures incompatible { IsTrue (is_incompatible encoding self.now.encoding) →
            (result ≡ Err Error.IncompatibleLineProgramEncoding) × (w.new ≡ w.old) }
        ensures tables { LeavesTables self.now encoding (texts_in strings.old line_strings.old)
            (texts_in strings.new line_strings.new) result }
    {
        if is_incompatible(encoding, self.encoding()) {
            return Err(Error::IncompatibleLineProgramEncoding);
        }
        let offset = w.offset();
        let empty = add_empty_source(self, line_strings, strings)?;
        let input = UnitInput::new(self, &empty, line_strings, strings);
        write_whole(&mut w.0, &input)?;
        Ok(offset)
    }
}

/// Whether a unit of one encoding has no line program of the other: addresses have one size, and up
/// to version 4 a file number is never 0.
fn is_incompatible(unit: Encoding, program: Encoding) -> bool
    ensures { result ≡ is_incompatible unit program }
{
    unit.version < 5 && program.version >= 5 || unit.address_size != program.address_size
}

/// Appends the unit length, and what it counts.
fn write_whole<W: Writer>(w: &mut W, input: &UnitInput<'_>) -> Result<()>
    ensures writes { Writes W.Sink w.old w.new result
        (λ hand. whole_bytes hand (W.is_big w.old) input.now.program input.now.texts) }
    ensures built { OnOk result (IsBuilt input.now.program) }
    ensures short { OnOk result (length (W.contents w.new) < 2 ^ 64) }
    ensures completed_short { (at : Placement) → IsTrue (W.completes w.old) → OnOk result
        (length (W.completed at w.new) < 2 ^ 64) }
{
    let format = input.format();
    let length = w.write_initial_length(format)?;
    let start = w.len();
    write_inside(w, input)?;
    let count = (w.len() - start) as u64;
    w.write_initial_length_at(length, count, format)
}

/// Appends what the unit length counts: the version, the header, and the instructions.
fn write_inside<W: Writer>(w: &mut W, input: &UnitInput<'_>) -> Result<()>
    ensures writes { Writes W.Sink w.old w.new result
        (λ hand. inside_bytes hand (W.is_big w.old) input.now.program input.now.texts) }
    ensures built { OnOk result (IsBuilt input.now.program) }
{
    let program = input.program();
    write_opening(w, program.encoding())?;
    write_header(w, input)?;
    write_items(
        w,
        program.encoding(),
        program.line_encoding(),
        program.built_items(),
    )
}

/// Appends the version, and in version 5 the address size and a segment selector size of 0.
fn write_opening<W: Writer>(w: &mut W, encoding: Encoding) -> Result<()>
    ensures { Writes W.Sink w.old w.new result (always (opening_bytes (W.is_big w.old) encoding)) }
{
    write_version(w, encoding.version)?;
    if encoding.version <= 4 {
        return Ok(());
    }
    w.write(&[encoding.address_size, 0])
}

/// Appends the version.
fn write_version<W: Writer>(w: &mut W, version: u16) -> Result<()>
    ensures { Writes W.Sink w.old w.new result (always (version_bytes (W.is_big w.old) version)) }
{
    if !(2..=5).contains(&version) {
        return Err(Error::UnsupportedVersion(version));
    }
    w.write_u16(version)
}
