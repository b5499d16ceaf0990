//! The rows that cover an address.

use crate::print::print_line;
use crate::refusal::Refusal;
use gimli_core::Reader;
use gimli_line::IncompleteLineProgram;
use gimli_lookup::find_in_run;
use line_text::RowLine;
use std::io::Write;

/// Prints the two rows that cover an address of a unit, or that none do. The unit is run once, and
/// nothing is printed where it has a fault, wherever that stands.
pub(crate) fn print_pair<R: Reader, O: Write>(
    program: IncompleteLineProgram<R>,
    address: u64,
    out: &mut O,
) -> Result<(), Refusal> {
    match find_in_run(program, address) {
        Ok(Some((first, second))) => {
            print_line(RowLine(first), out)?;
            print_line(RowLine(second), out)
        }
        Ok(None) => print_line("none", out),
        Err(e) => Err(Refusal::of_unit(e, Refusal::Rows)),
    }
}
