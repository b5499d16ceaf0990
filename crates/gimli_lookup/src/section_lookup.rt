//! The rows of all units of a section, kept so that those that cover an address are found.

ghost use Rattle.std.specs.Prelude.{◌≡◌, ◌<◌, ◌≤◌, ◌+◌, ◌-◌, ◌*◌, ◌++◌, ◌∷◌, [], ℕ, length, map};
ghost use Rattle.std.specs.Prelude.{drop, take, slice_index_or, All, Any, IfErr, IfOk};
ghost use Rattle.std.specs.Prelude.{IfSome, IsTrue, None, true};
ghost use Rattle.gimli_core.specs.Layout.{layout_of};
ghost use Rattle.gimli_core.specs.Numbers.{is_address_size};
ghost use Rattle.gimli_line.specs.Units.{AreUnits};
ghost use Rattle.gimli_line.specs.header.Header.{unit_entry};
ghost use Rattle.gimli_line.specs.run.Unread.{unread_of};
ghost use Rattle.gimli_lookup.specs.Covering.{covering_probes, CoversSome};
ghost use Rattle.gimli_lookup.specs.Probes.{binary_digits, NoneGoesDown};
ghost use Rattle.gimli_lookup.specs.Ranges.{AreFoundIn};
ghost use Rattle.gimli_lookup.specs.Section.{all_sequences, without_header, unit_without_header};
ghost use Rattle.gimli_lookup.specs.Section.{AreAdjacent, KeptUnit, ListedUnit, found_at};
ghost use Rattle.gimli_lookup.specs.SectionUnits.{IsUnitOf};

use crate::kept_rows::KeptRows;
use crate::ranges::CoveredRange;
use crate::section_unit::UnitLookup;
use crate::step_table::StepTable;
use crate::walk::Stand;
use gimli_core::{EndianSlice, Endianity, Error, Reader, ReaderOffset, Result};
use gimli_line::{DebugLine, LineRow};
use std::alloc::Global;
use std::marker::Model;

/// The sequences from an index up to another. Requires indices in this order, up to the number of
/// sequences.
fn part(sequences: &[KeptRows], from: usize, end: usize) -> &[KeptRows]
    requires order { from ≤ end }
    requires end { end ≤ length sequences.now }
    ensures { result.now ≡ take (end - from) (drop from sequences.now) }
{
    &sequences[from..end]
}

/// The index of the unit that has the sequence at an index, found by halves. Requires units that
/// have the sequences up to some index after it.
fn unit_of<R: Reader>(units: &[UnitLookup<R>], sequence: usize) -> usize
    requires { (end : ℕ) × AreAdjacent 0 units.now end × (sequence < end) }
    ensures unit { result < length units.now }
    ensures first { (d : ListedUnit) → (slice_index_or units.now result d).first ≤ sequence }
    ensures end { (d : ListedUnit) → sequence < (slice_index_or units.now result d).end }
{
    let mut low = 0;
    let mut high = units.len();
    'halves: while high - low > 1 {
        let middle = low + (high - low) / 2;
        if units[middle].indexes().start <= sequence {
            low = middle;
        } else {
            high = middle;
        }
    }
    low
}

/// Whether a unit has the sequence at an index.
fn has_sequence<R: Reader>(unit: &UnitLookup<R>, sequence: usize) -> bool
    ensures first { result ≡ true → unit.now.first ≤ sequence }
    ensures end { result ≡ true → sequence < unit.now.end }
{
    let indexes = unit.indexes();
    indexes.start <= sequence && sequence < indexes.end
}

/// The index of the unit that has the sequence at an index: one that is near, else that which is
/// found by halves. Requires units that have the sequences up to some index after it.
fn unit_near<R: Reader>(units: &[UnitLookup<R>], sequence: usize, near: usize) -> usize
    requires { (end : ℕ) × AreAdjacent 0 units.now end × (sequence < end) }
    ensures unit { result < length units.now }
    ensures first { (d : ListedUnit) → (slice_index_or units.now result d).first ≤ sequence }
    ensures end { (d : ListedUnit) → sequence < (slice_index_or units.now result d).end }
{
    if near < units.len() && has_sequence(&units[near], sequence) {
        return near;
    }
    unit_of(units, sequence)
}

/// Appends a unit. Fails only with `OutOfMemory`.
pub(crate) fn push<R: Reader>(units: &mut Vec<UnitLookup<R>>, unit: UnitLookup<R>) -> Result<()>
    ensures ok { IfOk result (λ _. units.new.items ≡ units.old.items ++ unit ∷ []) }
    ensures err { IfErr result (λ e. e ≡ Error.OutOfMemory) }
{
    if units.push(unit).is_err() {
        return Err(Error::OutOfMemory);
    }
    Ok(())
}

/// The units without their headers. Fails only with `OutOfMemory`.
fn without_headers<R: Reader<Offset = usize>, S: Reader<Offset = usize>>(
    alloc: Global,
    units: &[UnitLookup<R>],
) -> Result<Vec<UnitLookup<S>>>
    ensures ok { IfOk result (λ bare. bare.items ≡ map without_header units.now) }
    ensures err { IfErr result (λ e. e ≡ Error.OutOfMemory) }
{
    let mut bare = Vec::new(alloc);
    for unit in units {
        push(&mut bare, unit.without_header())?;
    }
    Ok(bare)
}

/// The rows that cover an address, and their unit.
#[derive(Clone, Copy, Debug)]
pub struct CoveringRows {
    /// The index of the unit, from 0 on.
    pub unit: usize,
    /// The row that the address belongs to.
    pub row: LineRow,
    /// The row after it, whose address is above. It may be the end row of the sequence, or the last
    /// one before rows that are left out.
    pub next: LineRow,
}

/// The units of a section and the rows of their sequences, kept so that those that cover an address
/// are found.
///
/// [`Program`](crate::Program) has one, with the whole paths of the files.
///
/// <!-- part of crates/checks/src/lookups.rt -->
/// ```rust
/// let found = SectionLookup::new(section, alloc, 4, 0)?.find(address);
/// ```
#[derive(Drop)]
#[derive_where(Debug; R, R::Offset)]
pub struct SectionLookup<R: Reader> {
    units: Vec<UnitLookup<R>>,
    /// The parts of the sequences of all units, one unit after the other. Their addresses never go
    /// down.
    sequences: Vec<KeptRows>,
    table: StepTable,
}

impl<R: Reader> Model for SectionLookup<R> {
    ghost use Rattle.std.specs.Prelude.{List, length, map};
    ghost use Rattle.gimli_lookup.specs.Probes.{NoneGoesDown};
    ghost use Rattle.gimli_lookup.specs.Section.{KeptUnit, with_sequences, AreAdjacent};
    ghost use Rattle.gimli_lookup.specs.Steps.{IsStepTableOf};

    ghost Value = { List KeptUnit };

    ghost view = { λ a. map (with_sequences a.sequences.items) a.units.items };

    ghost invariant = { λ a. AreAdjacent 0 a.units.items (length a.sequences.items)
        × IsStepTableOf a.table a.sequences.items × NoneGoesDown a.sequences.items };
}

impl<R: Reader> SectionLookup<R> {
    /// Runs the program of each unit of a section, and keeps the rows of the sequences that end
    /// before its first fault. A unit that is refused, or whose run has a fault, is listed with its
    /// error.
    ///
    /// A sequence ends where the program ends it, under a tombstone too. Rows under a tombstone are
    /// left out, and so are rows below the address `lowest`, where a linker leaves code that it
    /// drops; if `lowest` is 0, there are none below it. The lookup keeps a sequence in parts: runs
    /// of adjacent rows, with none left out between them. The last row of a part ends what the one
    /// before it covers, and covers nothing.
    ///
    /// Fails only with `OutOfMemory`. Requires an address size of 1, 2, 4 or 8 bytes, which only
    /// units up to version 4 use.
    pub fn new(
        section: &DebugLine<R>,
        alloc: Global,
        address_size: u8,
        lowest: u64,
    ) -> Result<SectionLookup<R>>
        requires { IsTrue (is_address_size address_size) }
        ensures offsets { IfOk result (λ units.
            AreUnits (layout_of (R.seen section.now).is_big R.Offset.limit) 0
            (R.seen section.now).bytes (map (λ u. u.unit.offset) units)) }
        ensures units { IfOk result
            (All (IsUnitOf (unread_of R.seen R.Offset.limit section.now)
            (unit_entry R.seen address_size None None) lowest)) }
        ensures err { IfErr result (λ e. e ≡ Error.OutOfMemory) }
    {
        let mut units = Vec::new(alloc);
        let mut sequences = Vec::new(alloc);
        let mut walk = section.units(alloc, address_size);
        'units: while let Some(next) = walk.next()? {
            let unit = UnitLookup::new(alloc, next.offset, next.program, lowest, &mut sequences)?;
            push(&mut units, unit)?;
        }
        let table = StepTable::new(alloc, sequences.as_slice())?;
        Ok(SectionLookup {
            units,
            sequences,
            table,
        })
    }

    /// The units of the section, in order.
    pub fn units(&self) -> &[UnitLookup<R>]
        ensures { result.now ≡ map (λ u. u.unit) self.now }
    {
        self.units.as_slice()
    }

    /// The rows that cover the address `a`, with their unit: in the order of units and of their
    /// sequences, the first pair of adjacent rows of one part of a sequence where the first row has
    /// an address at most `a`, and the second has an address above `a`. None where there are none.
    /// Takes no memory.
    #[inline(always)]
    pub fn find(&self, a: u64) -> Option<CoveringRows>
        ensures { result ≡ found_at a self.now }
    {
        self.find_counted(a).0
    }

    /// What `find` returns, and the number of probes that it takes: of stored addresses that are
    /// looked at. The sequence that covers the address is found by halves, however many there are
    /// and however they overlap, and then its rows by halves.
    #[inline(always)]
    pub fn find_counted(&self, a: u64) -> (Option<CoveringRows>, u64)
        ensures found { result.0 ≡ found_at a self.now }
        ensures at_least { Any CoversSome (all_sequences self.now) → 1 ≤ result.1 }
        ensures at_most { let sequences = all_sequences self.now in
            result.1 ≤ binary_digits (2 * length sequences) + covering_probes a sequences }
    {
        let (found, probes) = self.table.find(self.sequences.as_slice(), a);
        match found {
            None => (None, probes),
            Some(found) => {
                // Where each unit has one sequence, its own is at the same index.
                let near = found.sequence;
                let rows = CoveringRows {
                    unit: unit_near(self.units.as_slice(), found.sequence, near),
                    row: found.row,
                    next: found.next,
                };
                (Some(rows), probes)
            }
        }
    }

    /// What `find` returns at the address `a`, and up to where it returns the same. The search
    /// begins where the walk is, and moves the walk to `a`.
    pub(crate) fn range_from(&self, a: u64, stand: &mut Stand) -> CoveredRange
        ensures start { result.start ≡ a }
        ensures end { IfSome result.end (λ end. a < end) }
        ensures found { AreFoundIn self.now result }
    {
        let (found, end) = self
            .table
            .find_with_end(self.sequences.as_slice(), a, stand);
        let rows = match found {
            None => None,
            Some(found) => {
                let unit = unit_near(self.units.as_slice(), found.sequence, stand.unit);
                stand.unit = unit;
                Some(CoveringRows {
                    unit,
                    row: found.row,
                    next: found.next,
                })
            }
        };
        CoveredRange {
            start: a,
            end,
            rows,
        }
    }

    /// For the prover alone: what is true of a lookup is known once a field is read.
    pub(crate) fn never_goes_down(&self)
        ensures { NoneGoesDown (all_sequences self.now) }
    {
        let _table = &self.table;
    }

    /// The allocator of what is kept.
    pub(crate) fn allocator(&self) -> Global {
        *self.sequences.allocator()
    }

    /// The sequences of the unit at an index. Requires an index of a unit.
    pub(crate) fn sequences_of(&self, unit: usize) -> &[KeptRows]
        requires { unit < length self.now }
        ensures { (d : KeptUnit) → result.now ≡ (slice_index_or self.now unit d).sequences }
    {
        let indexes = self.units[unit].indexes();
        part(self.sequences.as_slice(), indexes.start, indexes.end)
    }
}

impl<'i, E: Endianity> SectionLookup<EndianSlice<'i, E>> {
    /// This lookup without the headers of its units. The result borrows nothing of the section, so
    /// you may drop the section. Fails only with `OutOfMemory`.
    pub fn without_headers(self) -> Result<SectionLookup<EndianSlice<'static, E>>>
        ensures ok { IfOk result (λ units. units ≡ map unit_without_header self.entry) }
        ensures err { IfErr result (λ e. e ≡ Error.OutOfMemory) }
    {
        let alloc = self.allocator();
        let SectionLookup {
            units,
            sequences,
            table,
        } = self;
        Ok(SectionLookup {
            units: without_headers(alloc, units.as_slice())?,
            sequences,
            table,
        })
    }
}
