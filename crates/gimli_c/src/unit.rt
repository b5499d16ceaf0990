//! The unit at an offset.

ghost use Rattle.std.specs.Prelude.{◌≡◌, ◌≢◌, ◌≤◌, false, IfErr, IfOk};
ghost use Rattle.gimli_core.specs.Numbers.{is_address_size};
ghost use Rattle.gimli_c.specs.Location.{location, HasNoUnit};
ghost use Rattle.gimli_c.specs.Unit.{GivesUnit, TellsNext};
ghost use Rattle.gimli_c.specs.inside.Unit.{IsReadUnit};

use crate::location::program_at;
use crate::next_unit::next_unit;
use crate::run::{copy_rows, fault_status, rows_fit, run_on};
use crate::status::{OK, OUT_OF_MEMORY, UNSUPPORTED_ADDRESS_SIZE, error_status};
use gimli_core::{Error, Reader, ReaderOffset, Result};
use gimli_line::IncompleteLineProgram;
use std::alloc::Global;

/// A unit of a section `.debug_line`: its header, and what its program gives.
#[repr(C)]
#[derive(Clone, Copy)]
pub struct GimliUnit {
    /// Its length in bytes, without the length itself.
    pub length: u64,
    /// The offset of what follows it in the section.
    pub next: usize,
    /// How many directories its table has. Up to version 4 they have the indices from 1 on, in
    /// version 5 from 0 on.
    pub directories: u64,
    /// How many files it has, those that its program defines included. Up to version 4 they have
    /// the indices from 1 on, in version 5 from 0 on.
    pub files: u64,
    /// How many rows its program has, before its first fault.
    pub rows: u64,
    /// Its version, from 2 to 5.
    pub version: u32,
    /// The number of bytes of an address: 1, 2, 4 or 8.
    pub address_size: u32,
    /// The number of bytes of an offset: 4 or 8.
    pub offset_size: u32,
    /// The number of its program's first fault; 0 where it has none.
    pub fault: u32,
}

/// Reads the unit at an offset, and runs its program. Each status is that of `gimli_line_read_unit`
/// in `include/gimli_line.h`. `is_big` says that the most significant byte of a number comes first;
/// `address_size`, which is 1, 2, 4 or 8, counts up to version 4.
#[unsafe(no_mangle)]
pub extern "C" fn gimli_line_proved_read_unit(
    alloc: Global,
    section: &[u8],
    is_big: bool,
    address_size: u8,
    offset: usize,
    unit: &mut GimliUnit,
) -> u32
    ensures ok { result ≡ OK
        → GivesUnit (location section.now is_big address_size offset) unit.new }
    ensures refused { result ≢ OK → result ≢ OUT_OF_MEMORY →
        HasNoUnit (location section.now is_big address_size offset) result }
    ensures size { is_address_size address_size ≡ false → result ≡ UNSUPPORTED_ADDRESS_SIZE }
    ensures next { TellsNext (location section.now is_big address_size offset) unit.new.next }
    ensures at_most { result ≡ OK → unit.new.rows ≤ unit.new.length }
    ensures kept { result ≢ OK → unit.new ≡ record unit.old { next = unit.new.next } }
{
    let next = next_unit(section, is_big, offset);
    unit.next = next;
    let program = match program_at(alloc, section, is_big, address_size, offset) {
        Ok(program) => program,
        Err(status) => return status,
    };
    match read_unit(program, next) {
        Ok(read) => {
            *unit = read;
            OK
        }
        Err(e) => error_status(e),
    }
}

/// What is said of the unit of a program, which the next one follows at an offset. Refused by
/// `OutOfMemory` alone.
fn read_unit<R: Reader>(program: IncompleteLineProgram<R>, next: usize) -> Result<GimliUnit>
    ensures ok { IfOk result (λ unit. IsReadUnit next program.meaning program.layout unit) }
    ensures err { IfErr result (λ e. e ≡ Error.OutOfMemory) }
{
    rows_fit(&program);
    let header = program.header();
    let encoding = header.encoding();
    let length = header.unit_length().into_u64();
    let directories = header.include_directories().len() as u64;
    let mut rows = program.rows();
    let run = copy_rows(&mut rows, 0, &mut [])?;
    run_on(&mut rows)?;
    Ok(GimliUnit {
        length,
        next,
        directories,
        files: rows.header().file_names().len() as u64,
        rows: run.count,
        version: u32::from(encoding.version),
        address_size: u32::from(encoding.address_size),
        offset_size: u32::from(encoding.format.word_size()),
        fault: fault_status(run.fault),
    })
}
