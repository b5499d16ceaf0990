//! The rows of a unit.

ghost use Rattle.std.specs.Prelude.{◌≡◌, ◌≢◌, ◌≤◌, false};
ghost use Rattle.gimli_core.specs.Numbers.{is_address_size};
ghost use Rattle.gimli_line.specs.header.Header.{Header};
ghost use Rattle.gimli_c.specs.Location.{location, HasUnit};
ghost use Rattle.gimli_c.specs.Run.{GivesFirstRowsOrNone, GivesRowsOrNone};

use crate::location::program_at;
use crate::row::GimliRow;
use crate::run::{copy_rows, fault_status, rows_fit};
use crate::status::{OUT_OF_MEMORY, UNSUPPORTED_ADDRESS_SIZE, error_status};
use std::alloc::Global;

/// Runs the program of the unit at an offset, and copies its rows from the `skip`-th on, from 0, as
/// far as there is room. Each status is that of `gimli_line_read_rows` in `include/gimli_line.h`.
#[unsafe(no_mangle)]
pub extern "C" fn gimli_line_proved_read_rows(
    alloc: Global,
    section: &[u8],
    is_big: bool,
    address_size: u8,
    offset: usize,
    skip: u64,
    rows: &mut [GimliRow],
    count: &mut u64,
) -> u32
    ensures rows { result ≢ OUT_OF_MEMORY → GivesRowsOrNone
        (location section.now is_big address_size offset) skip rows.old rows.new count.new result }
    ensures first_rows { result ≡ OUT_OF_MEMORY → GivesFirstRowsOrNone
        (location section.now is_big address_size offset) skip rows.old rows.new }
    ensures no_count { result ≡ OUT_OF_MEMORY → count.new ≡ 0 }
    ensures at_most { (h : Header) → HasUnit (location section.now is_big address_size offset) h
        → count.new ≤ h.unit_length }
    ensures size { is_address_size address_size ≡ false → result ≡ UNSUPPORTED_ADDRESS_SIZE }
{
    *count = 0;
    let program = match program_at(alloc, section, is_big, address_size, offset) {
        Ok(program) => program,
        Err(status) => return status,
    };
    rows_fit(&program);
    let run = match copy_rows(&mut program.rows(), skip, rows) {
        Ok(run) => run,
        Err(e) => return error_status(e),
    };
    *count = run.count;
    fault_status(run.fault)
}
