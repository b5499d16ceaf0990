//! Searches at ascending addresses: each begins where the one before ended.

ghost use Rattle.std.specs.Prelude.{◌≡◌, ◌≤◌, ◌<◌, ◌^◌, ℕ, true, length, slice_index_or};
ghost use Rattle.std.specs.Prelude.{MatchOption};
ghost use Rattle.std.specs.List.Sorted.{IsNonDecreasingBy};
ghost use Rattle.gimli_line.specs.declared.run.row.LineRow.{LineRow};
ghost use Rattle.gimli_lookup.specs.declared.steps.Step.{Step};
ghost use Rattle.gimli_lookup.specs.inside.FirstPair.{HasNoPair, IsFirstPairOf};
ghost use Rattle.gimli_lookup.specs.Probes.{never_go_down};

use crate::kept_rows::KeptRows;
use crate::search::first_above;
use crate::steps::Step;
use gimli_line::LineRow;

/// Where a walk is: what it found at the previous address. A search only begins there, so its
/// result doesn't depend on it.
#[derive(Clone, Copy, Default)]
pub(crate) struct Stand {
    /// How many steps have an address that is at most the one before.
    pub(crate) steps: usize,
    /// The sequence whose rows were searched last.
    sequence: usize,
    /// How many of its rows have an address that is at most the one before.
    rows: usize,
    /// The unit of what was found last.
    pub(crate) unit: usize,
}

/// The address of the step at an index.
fn address_of_step(steps: &[Step], index: usize) -> u64
    requires { index < length steps.now }
    ensures { (d : Step) → result ≡ (slice_index_or steps.now index d).from }
{
    steps[index].from
}

/// The address of the row at an index.
fn address_of_row(rows: &KeptRows, index: usize) -> u64
    requires { index < length rows.now }
    ensures { (d : LineRow) → result ≡ (slice_index_or rows.now index d).address }
{
    let mut probes = 0;
    rows.address(index, &mut probes)
}

/// A number of steps, where their addresses are at most `a`; else 0.
fn known_steps(steps: &[Step], a: u64, near: usize) -> usize
    requires order { IsNonDecreasingBy (λ s. s.from) steps.now }
    ensures index { result ≤ length steps.now }
    ensures before { (k : ℕ) (d : Step) → k < result → (slice_index_or steps.now k d).from ≤ a }
{
    if near == 0 || steps.len() < near || a < address_of_step(steps, near - 1) {
        return 0;
    }
    near
}

/// The number of steps whose address is at most `a`, counted on from `near` where that is possible.
pub(crate) fn steps_from(steps: &[Step], a: u64, near: usize) -> usize
    requires order { IsNonDecreasingBy (λ s. s.from) steps.now }
    ensures index { result ≤ length steps.now }
    ensures before { (k : ℕ) (d : Step) → k < result → (slice_index_or steps.now k d).from ≤ a }
    ensures after { (k : ℕ) (d : Step) → result ≤ k → k < length steps.now
        → a < (slice_index_or steps.now k d).from }
{
    let mut count = known_steps(steps, a, near);
    while count < steps.len() {
        if a < address_of_step(steps, count) {
            return count;
        }
        count += 1;
    }
    count
}

/// A number of rows, where their addresses are at most `a`; else 0.
fn known_rows(rows: &KeptRows, a: u64, near: usize) -> usize
    requires order { never_go_down rows.now ≡ true }
    ensures index { result ≤ length rows.now }
    ensures before { (k : ℕ) (d : LineRow) → k < result
        → (slice_index_or rows.now k d).address ≤ a }
{
    if near == 0 || rows.len() < near || a < address_of_row(rows, near - 1) {
        return 0;
    }
    near
}

/// The number of rows whose address is at most `a`, counted on from `near` where that is possible.
fn rows_from(rows: &KeptRows, a: u64, near: usize) -> usize
    requires order { never_go_down rows.now ≡ true }
    ensures index { result ≤ length rows.now }
    ensures before { (k : ℕ) (d : LineRow) → k < result
        → (slice_index_or rows.now k d).address ≤ a }
    ensures after { (k : ℕ) (d : LineRow) → result ≤ k → k < length rows.now
        → a < (slice_index_or rows.now k d).address }
{
    let mut count = known_rows(rows, a, near);
    while count < rows.len() {
        if a < address_of_row(rows, count) {
            return count;
        }
        count += 1;
    }
    count
}

/// The number of rows of a sequence whose address is at most `a`: found from where the walk is if
/// it searched this sequence last, else by halves.
fn rows_up_to(rows: &KeptRows, a: u64, stand: Stand, sequence: usize) -> usize
    requires order { never_go_down rows.now ≡ true }
    requires count { length rows.now < 2 ^ 64 }
    ensures index { result ≤ length rows.now }
    ensures before { (k : ℕ) (d : LineRow) → k < result
        → (slice_index_or rows.now k d).address ≤ a }
    ensures after { (k : ℕ) (d : LineRow) → result ≤ k → k < length rows.now
        → a < (slice_index_or rows.now k d).address }
{
    if stand.sequence == sequence {
        return rows_from(rows, a, stand.rows);
    }
    let mut probes = 0;
    first_above(rows, a, &mut probes)
}

/// The first rows of the sequence at an index that cover `a`. Requires addresses that never go
/// down.
#[inline(always)]
pub(crate) fn find_from(
    rows: &KeptRows,
    a: u64,
    stand: &mut Stand,
    sequence: usize,
) -> Option<(LineRow, LineRow)>
    requires order { never_go_down rows.now ≡ true }
    requires count { length rows.now < 2 ^ 64 }
    ensures { MatchOption result (HasNoPair a rows.now)
        (λ pair. IsFirstPairOf a rows.now pair.0 pair.1) }
{
    let index = rows_up_to(rows, a, *stand, sequence);
    stand.sequence = sequence;
    stand.rows = index;
    if index == 0 || index == rows.len() {
        return None;
    }
    Some(rows.pair(index))
}
