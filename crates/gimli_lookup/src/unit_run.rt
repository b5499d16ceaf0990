//! The run of a unit, up to its first fault.

ghost use Rattle.std.specs.Prelude.{◌≡◌, ◌≢◌, IfErr, IfOk, Some};
ghost use Rattle.gimli_line.specs.header.Orders.{source_of};
ghost use Rattle.gimli_line.specs.run.Rows.{whole_run, KeepsRun};
ghost use Rattle.gimli_lookup.specs.UnitRun.{IsKept};
ghost use Rattle.gimli_lookup.specs.Section.{header_of};
ghost use Rattle.gimli_lookup.specs.inside.SequenceCut.{AreTaken};

use crate::kept_rows::KeptRows;
use crate::sequence_cut::SequenceCut;
use gimli_core::{Error, Reader, ReaderOffset, Result};
use gimli_line::{IncompleteLineProgram, OneShotLineRows};
use std::alloc::Global;

/// What is kept of a run: where it stands after its last row before the first fault, this fault,
/// and the parts of its sequences.
#[derive(Drop)]
pub(crate) struct UnitRun<R: Reader> {
    pub(crate) run: OneShotLineRows<R>,
    pub(crate) fault: Option<Error>,
    pub(crate) parts: Vec<KeptRows>,
}

/// A refusal of a run as its fault, unless memory was missing.
pub(crate) fn as_fault(e: Error) -> Result<Option<Error>>
    ensures ok { IfOk result (λ fault. (fault ≡ Some e) × (e ≢ Error.OutOfMemory)) }
    ensures err { IfErr result (λ e. e ≡ Error.OutOfMemory) }
{
    match e {
        Error::OutOfMemory => Err(e),
        _ => Ok(Some(e)),
    }
}

/// Takes in the rows to come, those under a tombstone too, up to the first fault, which it returns.
/// Fails only with `OutOfMemory`.
fn take_rows<R: Reader>(
    run: &mut OneShotLineRows<R>,
    cut: &mut SequenceCut,
) -> Result<Option<Error>>
    ensures ok { IfOk result (λ fault. AreTaken run.old run.new fault cut.old cut.new) }
    ensures err { IfErr result (λ e. e ≡ Error.OutOfMemory) }
{
    'rows: loop {
        match run.next_any_row() {
            Ok(Some((_, row))) => cut.row(row)?,
            Ok(None) => return Ok(None),
            Err(e) => return as_fault(e),
        }
    }
}

/// Runs a program up to its first fault, and keeps of the sequences that have ended before it the
/// parts that stand: rows side by side that are neither under a tombstone nor below an address.
/// Fails only with `OutOfMemory`.
pub(crate) fn run_unit<R: Reader>(
    alloc: Global,
    program: IncompleteLineProgram<R>,
    lowest: u64,
) -> Result<UnitRun<R>>
    ensures kept { IfOk result (λ unit. IsKept program.layout lowest program.meaning
        (header_of unit.run) unit.fault unit.parts.items) }
    ensures run { IfOk result (λ unit. KeepsRun
        (whole_run program.meaning (source_of R.seen R.Offset.number program)) unit.run) }
    ensures err { IfErr result (λ e. e ≡ Error.OutOfMemory) }
{
    let mut run = program.rows();
    let mut cut = SequenceCut::new(alloc, lowest);
    let fault = take_rows(&mut run, &mut cut)?;
    Ok(UnitRun {
        run,
        fault,
        parts: cut.into_parts(),
    })
}
