//! A unit of a section, as a lookup lists it.

ghost use Rattle.std.specs.Prelude.{◌≡◌, ◌++◌, None, Some, IfErr, IfOk, IfSome, MatchOption, OnOk};
ghost use Rattle.gimli_line.specs.header.Orders.{HasOneOrder};

use crate::covering_pairs::keep_pairs;
use crate::kept_rows::KeptRows;
use crate::section_lookup::CoveringRows;
use crate::unit_run::run_unit;
use crate::unit_search::search_unit;
use gimli_core::{DebugLineOffset, Error, Reader, ReaderOffset, Result};
use gimli_line::{IncompleteLineProgram, LineProgramHeader, OneShotLineRows};
use std::alloc::Global;
use std::marker::Model;
use std::ops::Range;

/// A unit of a section, as a [`SectionLookup`](crate::SectionLookup) lists it.
#[derive(Drop)]
#[derive_where(Debug; R, R::Offset)]
pub struct UnitLookup<R: Reader> {
    offset: DebugLineOffset<R::Offset>,
    /// The run of the program, at its first fault or its end. None where the unit was refused. It
    /// has memory of its own, so that a unit which is refused takes little.
    run: Option<Box<OneShotLineRows<R>>>,
    fault: Option<Error>,
    /// The index of the first sequence among those of all units.
    first: usize,
    /// The index after the last one.
    end: usize,
}

impl<R: Reader> Model for UnitLookup<R> {
    ghost use Rattle.std.specs.Prelude.{◌≡◌, option_map, IfSome};
    ghost use Rattle.gimli_line.specs.run.Rows.{IsOfOneOrder};
    ghost use Rattle.gimli_lookup.specs.Section.{ListedUnit, header_at};

    ghost Value = { ListedUnit };

    ghost view = { λ a. record {
      offset = R.Offset.number a.offset.0;
      header = option_map (λ run. header_at run.value) a.run;
      fault = a.fault;
      first = a.first;
      end = a.end;
    } };

    ghost invariant = { λ a.
        IfSome a.run (λ run.
        IsOfOneOrder run.value × (run.value.source.offset ≡ R.Offset.number a.offset.0)) };
}

impl<R: Reader> UnitLookup<R> {
    ghost use Rattle.gimli_lookup.specs.inside.Section.{IsAdded};
    ghost use Rattle.gimli_lookup.specs.inside.Section.{bare_unit, IsSearched};

    /// What is kept of the program of a unit, or of its refusal: its sequences come after those of
    /// the units before it. Fails only with `OutOfMemory`.
    pub(crate) fn new(
        alloc: Global,
        offset: DebugLineOffset<R::Offset>,
        program: Result<IncompleteLineProgram<R>>,
        lowest: u64,
        sequences: &mut Vec<KeptRows>,
    ) -> Result<Self>
        requires order { IfOk program (HasOneOrder R.seen) }
        requires offset { IfOk program (λ program. program.offset ≡ offset) }
        ensures kept { IfOk result (λ unit.
            IsAdded lowest program unit sequences.old.items sequences.new.items) }
        ensures offset { IfOk result (λ unit. unit.offset ≡ R.Offset.number offset.0) }
        ensures err { IfErr result (λ e. e ≡ Error.OutOfMemory) }
    {
        let first = sequences.len();
        let unit_run = match program {
            Ok(program) => run_unit(alloc, program, lowest)?,
            Err(e) => {
                return Ok(UnitLookup {
                    offset,
                    run: None,
                    fault: Some(e),
                    first,
                    end: first,
                });
            }
        };
        append(unit_run.parts, sequences)?;
        Ok(UnitLookup {
            offset,
            run: Some(boxed(alloc, unit_run.run)?),
            fault: unit_run.fault,
            first,
            end: sequences.len(),
        })
    }

    /// Looks in the program of a unit for the rows that cover addresses, and keeps them behind the
    /// pairs of the units before it. What is listed has the header where a pair was kept, or the
    /// run has a fault. Fails only with `OutOfMemory`.
    pub(crate) fn search(
        alloc: Global,
        offset: DebugLineOffset<R::Offset>,
        program: Result<IncompleteLineProgram<R>>,
        index: usize,
        lowest: u64,
        addresses: &[u64],
        pairs: &mut Vec<CoveringRows>,
    ) -> Result<Self>
        requires order { IfOk program (HasOneOrder R.seen) }
        requires offset { IfOk program (λ program. program.offset ≡ offset) }
        ensures searched { IfOk result (λ listed. IsSearched lowest index addresses.now
            program listed pairs.old.items pairs.new.items) }
        ensures offset { IfOk result (λ listed. listed.offset ≡ R.Offset.number offset.0) }
        ensures err { IfErr result (λ e. e ≡ Error.OutOfMemory) }
    {
        let found = match program {
            Ok(program) => search_unit(alloc, program, index, lowest, addresses)?,
            Err(e) => return Ok(UnitLookup::bare(offset, Some(e))),
        };
        let before = pairs.len();
        keep_pairs(addresses, pairs, &found.pairs)?;
        if pairs.len() == before && found.fault.is_none() {
            return Ok(UnitLookup::bare(offset, None));
        }
        Ok(UnitLookup {
            offset,
            run: Some(boxed(alloc, found.run)?),
            fault: found.fault,
            first: 0,
            end: 0,
        })
    }

    /// A unit without header and sequences.
    fn bare(offset: DebugLineOffset<R::Offset>, fault: Option<Error>) -> Self
        ensures { result ≡ bare_unit (R.Offset.number offset.0) fault }
    {
        UnitLookup {
            offset,
            run: None,
            fault,
            first: 0,
            end: 0,
        }
    }

    /// The offset of the unit in its section.
    pub fn offset(&self) -> DebugLineOffset<R::Offset>
        ensures { R.Offset.number result.0 ≡ self.now.offset }
    {
        self.offset
    }

    /// The header of the unit, with all files that are defined before the first fault. None where
    /// the unit was refused.
    pub fn header(&self) -> Option<&LineProgramHeader<R>>
        ensures header { MatchOption result (self.now.header ≡ None) (λ header. self.now.header
            ≡ Some (record { meaning = header.now.meaning; layout = header.now.layout })) }
        ensures offset { IfSome result (λ header.
            R.Offset.number header.now.offset.0 ≡ self.now.offset) }
        ensures order { IfSome result (λ header. HasOneOrder R.seen header.now) }
    {
        match &self.run {
            Some(run) => Some(run.header()),
            None => None,
        }
    }

    /// The indices of the sequences among those of all units.
    pub(crate) fn indexes(&self) -> Range<usize>
        ensures start { result.start ≡ self.now.first }
        ensures end { result.end ≡ self.now.end }
    {
        self.first..self.end
    }

    /// Why the unit was refused, or the first fault of its run. None where it has none.
    pub fn fault(&self) -> Option<Error>
        ensures { result ≡ self.now.fault }
    {
        self.fault
    }
}

impl<R: Reader<Offset = usize>> UnitLookup<R> {
    ghost use Rattle.gimli_lookup.specs.Section.{without_header};

    /// The unit without its header, as a unit of another reader: only the header borrows bytes of
    /// the section.
    pub(crate) fn without_header<S: Reader<Offset = usize>>(&self) -> UnitLookup<S>
        ensures { result ≡ without_header self.now }
    {
        UnitLookup {
            offset: self.offset,
            run: None,
            fault: self.fault,
            first: self.first,
            end: self.end,
        }
    }
}

/// A run in memory of its own. Fails only with `OutOfMemory`.
fn boxed<R: Reader>(alloc: Global, run: OneShotLineRows<R>) -> Result<Box<OneShotLineRows<R>>>
    ensures ok { IfOk result (λ made. made.value ≡ run) }
    ensures err { IfErr result (λ e. e ≡ Error.OutOfMemory) }
{
    match Box::new(alloc, run) {
        Ok(boxed) => Ok(boxed),
        Err(_) => Err(Error::OutOfMemory),
    }
}

/// Puts sequences after others. Fails only with `OutOfMemory`.
fn append(sequences: Vec<KeptRows>, to: &mut Vec<KeptRows>) -> Result<()>
    ensures ok { OnOk result (to.new.items ≡ to.old.items ++ sequences.items) }
    ensures err { IfErr result (λ e. e ≡ Error.OutOfMemory) }
{
    for rows in sequences {
        if to.push(rows).is_err() {
            return Err(Error::OutOfMemory);
        }
    }
    Ok(())
}
