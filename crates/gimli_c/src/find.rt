//! The rows round an address.

ghost use Rattle.gimli_c.specs.Found.{AnswersRow};
ghost use Rattle.gimli_c.specs.Location.{location};

use crate::location::program_at;
use crate::row::GimliRow;
use crate::status::{NO_ROW, OK, error_status};
use gimli_lookup::find_in_run;
use std::alloc::Global;

/// Looks an address up in the unit at an offset. Each status is that of `gimli_line_find_row` in
/// `include/gimli_line.h`.
#[unsafe(no_mangle)]
pub extern "C" fn gimli_line_proved_find_row(
    alloc: Global,
    section: &[u8],
    is_big: bool,
    address_size: u8,
    offset: usize,
    address: u64,
    first: &mut GimliRow,
    second: &mut GimliRow,
) -> u32
    ensures answer { AnswersRow (location section.now is_big address_size offset) address result
        first.old first.new second.old second.new }
{
    let program = match program_at(alloc, section, is_big, address_size, offset) {
        Ok(program) => program,
        Err(status) => return status,
    };
    match find_in_run(program, address) {
        Ok(Some((x, y))) => {
            *first = GimliRow::new(&x);
            *second = GimliRow::new(&y);
            OK
        }
        Ok(None) => NO_ROW,
        Err(e) => error_status(e),
    }
}
