//! The sequences of a lookup, one after the other by their addresses.

ghost use Rattle.std.specs.Prelude.{◌≡◌, ◌<◌, ◌^◌, ◌++◌, All, IfOk, IfSome, OnOk};
ghost use Rattle.std.specs.Prelude.{length, map, slice_index_or};
ghost use Rattle.std.specs.List.Sorted.{IsNonDecreasingBy};
ghost use Rattle.gimli_index.specs.inside.Turns.{AreTurns, IsTurn, key_of, rows_in, rows_of_turns};
ghost use Rattle.gimli_index.specs.inside.Turns.{rows_of_units, turn_rows};
ghost use Rattle.gimli_lookup.specs.Covering.{range};
ghost use Rattle.gimli_lookup.specs.Probes.{never_go_down};
ghost use Rattle.gimli_lookup.specs.Section.{KeptUnit};
ghost use Rattle.gimli_lookup.specs.Section.{rows_of};

use gimli_core::Reader;
use gimli_lookup::{SectionLookup, SequenceRows};
use std::alloc::{AllocError, Global};

/// What is kept of a sequence, and its unit.
#[derive(Clone, Copy)]
pub(crate) struct Turn<'a> {
    /// The first address in the high 64 bits, and the last one in the low 64 bits.
    key: u128,
    /// The index of the unit.
    pub(crate) unit: usize,
    pub(crate) rows: SequenceRows<'a>,
}

/// The first address of rows in the high 64 bits, and the last one in the low ones; 0 where there
/// are none.
fn key_of(rows: SequenceRows<'_>) -> u128
    ensures key { result ≡ key_of (rows_of rows.entry) }
    ensures few { IfSome (range (rows_of rows.entry)) (λ ends. ends.1 < 2 ^ 64) }
{
    match rows.range() {
        Some((first, last)) => u128::from(first) * 0x1_0000_0000_0000_0000 + u128::from(last),
        None => 0,
    }
}

/// Appends the sequences of the unit at an index. Requires an index of a unit.
fn push_turns<'a, R: Reader>(
    lookup: &'a SectionLookup<R>,
    unit: usize,
    turns: &mut Vec<Turn<'a>>,
) -> Result<(), AllocError>
    requires { unit < length lookup.now }
    ensures all { OnOk result ((d : KeptUnit) → map (turn_rows lookup.now d) turns.new.items
        ≡ map (turn_rows lookup.now d) turns.old.items
        ++ rows_in (slice_index_or lookup.now unit d)) }
    ensures each { OnOk result
        (All (IsTurn lookup.now) turns.old.items → All (IsTurn lookup.now) turns.new.items) }
{
    for index in 0..lookup.sequence_count(unit) {
        if let Some(rows) = lookup.sequence(unit, index) {
            turns.push(Turn {
                key: key_of(rows),
                unit,
                rows,
            })?;
        }
    }
    Ok(())
}

/// The sequences of all units.
fn all_turns<R: Reader>(
    alloc: Global,
    lookup: &SectionLookup<R>,
) -> Result<Vec<Turn<'_>>, AllocError>
    ensures each { IfOk result (λ turns. All (IsTurn lookup.now) turns.items) }
    ensures all { IfOk result (λ turns. (d : KeptUnit)
        → map (turn_rows lookup.now d) turns.items ≡ rows_of_units lookup.now) }
{
    let mut turns = Vec::new(alloc);
    for unit in 0..lookup.units().len() {
        push_turns(lookup, unit, &mut turns)?;
    }
    Ok(turns)
}

/// The sequences of all units, by their first address, and then by their last one.
pub(crate) fn turns_of<R: Reader>(
    alloc: Global,
    lookup: &SectionLookup<R>,
) -> Result<Vec<Turn<'_>>, AllocError>
    ensures turns { IfOk result (λ turns. AreTurns lookup.now turns.items) }
    ensures order { IfOk result (λ turns. IsNonDecreasingBy (λ turn. turn.key) turns.items) }
{
    let mut turns = all_turns(alloc, lookup)?;
    turns.sort_by_key(|turn| turn.key)?;
    Ok(turns)
}

/// Whether no row of these sequences has an address below that of a row before it.
pub(crate) fn are_in_turn(turns: &[Turn<'_>]) -> bool
    ensures { result ≡ never_go_down (rows_of_turns turns.now) }
{
    let mut end = 0;
    for turn in turns {
        if !turn.rows.never_go_down() {
            return false;
        }
        if let Some((first, last)) = turn.rows.range() {
            if first < end {
                return false;
            }
            end = last;
        }
    }
    true
}
