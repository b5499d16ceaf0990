//! The run of a program, up to its first fault.

ghost use Rattle.std.specs.Prelude.{List, true, false, ◌≡◌, ◌≢◌, ◌<◌, ◌≤◌, ◌^◌, ◌-◌, ◌∷◌, [], Some};
ghost use Rattle.std.specs.Prelude.{IfErr, IfNone, IfOk, IfSome, OnErr, OnOk, length, set};
ghost use Rattle.gimli_line.specs.run.Events.{row, fault};
ghost use Rattle.gimli_line.specs.run.Rows.{events_left, files_at_end};
ghost use Rattle.gimli_line.specs.header.Header.{file_of};
ghost use Rattle.gimli_line.specs.run.Sequences.{events_of};
ghost use Rattle.gimli_line.specs.run.EventsWithFiles.{EventWithFiles, EventsWithFiles};
ghost use Rattle.gimli_c.specs.Run.{rows_of, Begun, Copied};
ghost use Rattle.gimli_c.specs.inside.Run.{header_with};
ghost use Rattle.gimli_c.specs.Seen.{row_seen};
ghost use Rattle.gimli_c.specs.Status.{fault_status};

use crate::row::GimliRow;
use crate::status::{OK, error_status};
use gimli_core::{Error, Reader, ReaderOffset, Result};
use gimli_line::{IncompleteLineProgram, LineRow, OneShotLineRows, laws};

/// The next row of a run. Refused as `next_row` is.
pub(crate) fn advance<R: Reader>(rows: &mut OneShotLineRows<R>) -> Result<Option<LineRow>>
    ensures row { IfOk result (λ found. IfSome found (λ r.
        events_of (events_left rows.old) ≡ row r ∷ events_of (events_left rows.new))) }
    ensures end { IfOk result (λ found. IfNone found
        ((events_left rows.old ≡ []) × (rows.new.files ≡ files_at_end rows.old))) }
    ensures fault { IfErr result (λ e. e ≢ Error.OutOfMemory →
        events_of (events_left rows.old) ≡ fault e ∷ events_of (events_left rows.new)) }
    ensures fixed { rows.new.fixed ≡ rows.old.fixed }
    ensures files { OnOk result (files_at_end rows.new ≡ files_at_end rows.old) }
    ensures files_after { IfErr result (λ e. e ≢ Error.OutOfMemory →
        files_at_end rows.new ≡ files_at_end rows.old) }
{
    match rows.next_row() {
        Ok(Some((_, row))) => Ok(Some(*row)),
        Ok(None) => Ok(None),
        Err(e) => Err(e),
    }
}

/// How many rows a run has before its first fault, and that fault.
#[derive(Clone, Copy)]
pub(crate) struct Run {
    pub(crate) count: u64,
    pub(crate) fault: Option<Error>,
}

/// Goes over the rows of a run up to its first fault. Those from the `skip`-th on go into `room`,
/// as far as there is some. Requires a number of rows that can be counted. Refused by `OutOfMemory`
/// alone.
pub(crate) fn copy_rows<R: Reader>(
    rows: &mut OneShotLineRows<R>,
    skip: u64,
    room: &mut [GimliRow],
) -> Result<Run>
    requires { length (rows_of (events_of (events_left rows.old))) < 2 ^ 64 }
    ensures ok { IfOk result (λ run.
        Copied (events_of (events_left rows.old)) skip room.old room.new run.count run.fault) }
    ensures fault { IfOk result (λ run. run.fault ≢ Some Error.OutOfMemory) }
    ensures files { OnOk result (files_at_end rows.new ≡ files_at_end rows.old) }
    ensures err { IfErr result (λ e. e ≡ Error.OutOfMemory) }
    ensures begun { OnErr result (Begun (events_of (events_left rows.old)) skip room.old room.new) }
{
    let mut count = 0;
    'rows: loop {
        match advance(rows) {
            Ok(Some(row)) => put_row(room, skip, count, &row),
            Ok(None) => return Ok(Run { count, fault: None }),
            Err(e) => {
                if is_memory(e) {
                    return Err(e);
                }
                return Ok(Run {
                    count,
                    fault: Some(e),
                });
            }
        }
        count += 1;
    }
}

/// Whether memory was refused.
pub(crate) fn is_memory(error: Error) -> bool
    ensures memory { result ≡ true → error ≡ Error.OutOfMemory }
    ensures other { result ≡ false → error ≢ Error.OutOfMemory }
{
    matches!(error, Error::OutOfMemory)
}

/// Puts the row of this number, from 0 on, where it belongs after the first `skip` ones, if there
/// is room for it.
fn put_row(room: &mut [GimliRow], skip: u64, number: u64, row: &LineRow)
    ensures skipped { number < skip → room.new ≡ room.old }
    ensures put { skip ≤ number → room.new ≡ set room.old (number - skip) (row_seen row.now) }
{
    if number < skip {
        return;
    }
    let slot = number - skip;
    if slot < room.len() as u64 {
        room[slot as usize] = GimliRow::new(row);
    }
}

/// A program has fewer rows than a `u64` counts, since it has no fewer bytes.
pub(crate) fn rows_fit<R: Reader>(program: &IncompleteLineProgram<R>)
    ensures { (events : List EventWithFiles)
        → EventsWithFiles program.now.layout true program.now.meaning program.now.meaning.program
        events
        → length (rows_of (events_of events)) < 2 ^ 64 }
{
    laws::rows_are_bounded();
    // For the prover alone: a length is below 2 ^ 64.
    let _bytes = program.header().raw_program_buf().len().into_u64();
}

/// Goes on to the end of a program, past its faults. Refused by `OutOfMemory` alone.
pub(crate) fn run_on<R: Reader>(rows: &mut OneShotLineRows<R>) -> Result<()>
    ensures files { OnOk result (rows.new.files ≡ files_at_end rows.old) }
    ensures fixed { rows.new.fixed ≡ rows.old.fixed }
    ensures err { IfErr result (λ e. e ≡ Error.OutOfMemory) }
{
    'rows: loop {
        match advance(rows) {
            Ok(Some(_)) => {}
            Ok(None) => return Ok(()),
            Err(e) => {
                if is_memory(e) {
                    return Err(e);
                }
            }
        }
    }
}

/// The number of a run: that of its first fault.
pub(crate) fn fault_status(fault: Option<Error>) -> u32
    ensures { result ≡ fault_status fault }
{
    match fault {
        None => OK,
        Some(e) => error_status(e),
    }
}

/// Goes on until the file of an index is among the files: no further where it is, else to the end
/// of the program, past its faults. Refused by `OutOfMemory` alone.
pub(crate) fn run_to_file<R: Reader>(rows: &mut OneShotLineRows<R>, index: u64) -> Result<()>
    ensures file { OnOk result (file_of (header_with rows.new rows.new.files) index
        ≡ file_of (header_with rows.new (files_at_end rows.old)) index) }
    ensures fixed { rows.new.fixed ≡ rows.old.fixed }
    ensures err { IfErr result (λ e. e ≡ Error.OutOfMemory) }
{
    if let Some(_) = rows.header().file(index) {
        return Ok(());
    }
    run_on(rows)
}
