//! The units of a section, one after the other.

ghost use Rattle.std.specs.Prelude.{◌≡◌, ◌≤◌, ◌++◌, Err, IfErr, IsNone, codes, length};
ghost use Rattle.std.specs.Fmt.{decimal};

use crate::count::count_rows;
use crate::print::{finish, write_line};
use crate::refusal::Refusal;
use crate::section::read_section;
use crate::words::Numbers;
use gimli_core::{Reader, ReaderOffset};
use gimli_line::{DebugLine, LineUnit, LineUnits};
use line_text::ShortLine;
use std::alloc::Global;
use std::io::{Read, Write};

/// The line of a unit: its offset in the section, its version, and how many rows it gives, ends
/// among them.
#[derive(Clone, Copy)]
struct UnitLine {
    offset: u64,
    version: u16,
    rows: u64,
}

impl UnitLine {
    /// Prepends the line. Requires room for it.
    #[inline(always)]
    fn prepend_to(self, line: &mut ShortLine)
        requires { length line.old ≤ 80 }
        ensures { line.new ≡ codes "unit " ++ decimal self.offset ++ codes " version "
            ++ decimal self.version ++ codes " rows " ++ decimal self.rows ++ line.old }
    {
        line.prepend_number(self.rows);
        line.prepend(b" rows ");
        line.prepend_number(u64::from(self.version));
        line.prepend(b" version ");
        line.prepend_number(self.offset);
        line.prepend(b"unit ");
    }

    /// Prints the line, in one piece.
    fn print<O: Write>(self, out: &mut O) -> Result<(), Refusal>
        ensures refusal { IfErr result (λ r. r ≡ Refusal.Output) }
    {
        let mut line = ShortLine::new();
        self.prepend_to(&mut line);
        write_line(line.bytes(), out)
    }
}

/// Prints the line of each unit of a file, from the start of the section to its end. The first
/// fault stops it, before the line of its unit.
pub(crate) fn print_units<F: Read + Drop, O: Write>(
    alloc: Global,
    file: Option<F>,
    numbers: Numbers,
    out: &mut O,
) -> Result<(), Refusal>
    ensures no_file { IsNone file → result ≡ Err Refusal.File }
{
    let section = read_section(alloc, file)?;
    print_units_of(alloc, &section, numbers, out)
}

/// The same for a section.
fn print_units_of<O: Write>(
    alloc: Global,
    section: &[u8],
    numbers: Numbers,
    out: &mut O,
) -> Result<(), Refusal> {
    let section = DebugLine::new(section, numbers.order);
    let units = section.units(alloc, numbers.address_size.bytes());
    let outcome = print_each(units, out);
    finish(outcome, out)
}

/// The same for units of any reader, without flushing the writer.
fn print_each<R: Reader, O: Write>(units: LineUnits<R>, out: &mut O) -> Result<(), Refusal> {
    let mut units = units;
    'units: loop {
        match units.next() {
            Ok(Some(unit)) => unit_line(unit)?.print(out)?,
            Ok(None) => return Ok(()),
            Err(e) => return Err(Refusal::of_unit(e, Refusal::Header)),
        }
    }
}

/// The line of a unit that can be read, and whose rows can.
fn unit_line<R: Reader>(unit: LineUnit<R>) -> Result<UnitLine, Refusal> {
    let offset = unit.offset;
    let program = match unit.program {
        Ok(program) => program,
        Err(e) => return Err(Refusal::of_unit(e, Refusal::Header)),
    };
    let version = program.header().version();
    let rows = count_rows(program.rows())?;
    Ok(UnitLine {
        offset: offset.0.into_u64(),
        version,
        rows,
    })
}
