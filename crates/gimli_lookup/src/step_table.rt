//! A table of steps over sequences: few stored addresses are looked at to find the first sequence
//! that covers an address.

ghost use Rattle.std.specs.Prelude.{◌≡◌, ◌≤◌, ◌<◌, ◌+◌, ◌*◌, ◌^◌, ℕ, true, length};
ghost use Rattle.std.specs.Prelude.{slice_index_or, sum_by, All, Any, IfErr, IfOk, IfSome};
ghost use Rattle.std.specs.Prelude.{MatchOption};
ghost use Rattle.std.specs.List.Sorted.{IsNonDecreasingBy};
ghost use Rattle.gimli_lookup.specs.declared.steps.Step.{Step};
ghost use Rattle.gimli_lookup.specs.inside.FirstPair.{HasNoPair};
ghost use Rattle.gimli_lookup.specs.Ranges.{IsBefore};
ghost use Rattle.gimli_lookup.specs.inside.Steps.{IsFoundIn};
ghost use Rattle.gimli_lookup.specs.inside.FirstPair.{IsFirstPairIn};
ghost use Rattle.gimli_lookup.specs.Covering.{covering_probes, CoversSome};
ghost use Rattle.gimli_lookup.specs.Probes.{binary_digits, NoneGoesDown};
ghost use Rattle.gimli_lookup.specs.Steps.{step_at, IsStepTableOf};

use crate::ends::{nearer, next_step};
use crate::kept_rows::KeptRows;
use crate::steps::{Step, steps_of};
use crate::walk::{Stand, steps_from};
use crate::{search, walk};
use gimli_core::{Error, Result};
use gimli_line::LineRow;
use std::alloc::Global;

/// Rows that cover an address, and the index of their sequence.
#[derive(Clone, Copy)]
pub(crate) struct Found {
    pub(crate) sequence: usize,
    pub(crate) row: LineRow,
    pub(crate) next: LineRow,
}

/// Which of some sequences is the first that covers an address, of those whose addresses never go
/// down.
#[derive(Debug, Drop)]
pub(crate) struct StepTable {
    pub(crate) steps: Vec<Step>,
}

/// Whether the number of rows of all sequences plus 256 fits into 64 bits.
fn are_countable(sequences: &[KeptRows]) -> bool
    ensures { result ≡ true → 2 ^ 8 + sum_by length sequences.now < 2 ^ 64 }
{
    let mut count = 256u64;
    for rows in sequences {
        let Some(sum) = count.checked_add(rows.len() as u64) else {
            return false;
        };
        count = sum;
    }
    true
}

/// The address of a step, which is a probe.
fn address_of_step(steps: &[Step], index: usize, probes: &mut u64) -> u64
    requires index { index < length steps.now }
    requires count { probes.old + 1 < 2 ^ 64 }
    ensures address { (d : Step) → result ≡ (slice_index_or steps.now index d).from }
    ensures counted { probes.new ≡ probes.old + 1 }
{
    *probes += 1;
    steps[index].from
}

/// The number of steps whose address is at most `a`, found by halves.
fn steps_up_to(steps: &[Step], a: u64, probes: &mut u64) -> usize
    requires order { IsNonDecreasingBy (λ s. s.from) steps.now }
    requires count { probes.old + length steps.now < 2 ^ 64 }
    ensures index { result ≤ length steps.now }
    ensures before { (k : ℕ) (d : Step) → k < result → (slice_index_or steps.now k d).from ≤ a }
    ensures after { (k : ℕ) (d : Step) → result ≤ k → k < length steps.now
        → a < (slice_index_or steps.now k d).from }
    ensures grows { probes.old ≤ probes.new }
    ensures at_least { 0 < length steps.now → probes.old < probes.new }
    ensures at_most { probes.new ≤ probes.old + binary_digits (length steps.now) }
{
    let mut low = 0;
    let mut high = steps.len();
    while low < high {
        let middle = low + (high - low) / 2;
        if address_of_step(steps, middle, probes) <= a {
            low = middle + 1;
        } else {
            high = middle;
        }
    }
    low
}

/// What the last of the steps says whose address is at most `a`.
pub(crate) fn sequence_at(steps: &[Step], a: u64, probes: &mut u64) -> Option<usize>
    requires order { IsNonDecreasingBy (λ s. s.from) steps.now }
    requires count { probes.old + length steps.now < 2 ^ 64 }
    ensures value { result ≡ step_at a steps.now }
    ensures grows { probes.old ≤ probes.new }
    ensures at_least { 0 < length steps.now → probes.old < probes.new }
    ensures at_most { probes.new ≤ probes.old + binary_digits (length steps.now) }
{
    let count = steps_up_to(steps, a, probes);
    if count == 0 {
        return None;
    }
    steps[count - 1].sequence
}

/// What the last of so many steps says. Requires the number of steps whose address is at most `a`.
fn last_of_steps(steps: &[Step], a: u64, count: usize) -> Option<usize>
    requires index { count ≤ length steps.now }
    requires before { (k : ℕ) (d : Step) → k < count → (slice_index_or steps.now k d).from ≤ a }
    requires after { (k : ℕ) (d : Step) → count ≤ k → k < length steps.now
        → a < (slice_index_or steps.now k d).from }
    ensures { result ≡ step_at a steps.now }
{
    if count == 0 {
        return None;
    }
    steps[count - 1].sequence
}

impl StepTable {
    /// The table of these sequences. Fails only with `OutOfMemory`.
    pub(crate) fn new(alloc: Global, sequences: &[KeptRows]) -> Result<StepTable>
        ensures ok { IfOk result (λ table. IsStepTableOf table sequences.now) }
        ensures err { IfErr result (λ e. e ≡ Error.OutOfMemory) }
    {
        if !are_countable(sequences) {
            return Err(Error::OutOfMemory);
        }
        let steps = steps_of(alloc, sequences, 0)?;
        Ok(StepTable { steps })
    }

    /// The first rows that cover `a` of the first of these sequences that has some, with its index;
    /// None where no sequence has any. And the number of probes: of stored addresses that were
    /// looked at, of steps and of rows. Requires the sequences that the table was made of, whose
    /// addresses never go down.
    #[inline(always)]
    pub(crate) fn find(&self, sequences: &[KeptRows], a: u64) -> (Option<Found>, u64)
        requires table { IsStepTableOf self.now sequences.now }
        requires order { NoneGoesDown sequences.now }
        ensures found { MatchOption result.0 (All (HasNoPair a) sequences.now)
            (λ found. IsFirstPairIn a sequences.now found.sequence found.row found.next) }
        ensures at_least { Any CoversSome sequences.now → 1 ≤ result.1 }
        ensures at_most { result.1
            ≤ binary_digits (2 * length sequences.now) + covering_probes a sequences.now }
    {
        let mut probes = 0;
        let Some(sequence) = sequence_at(self.steps.as_slice(), a, &mut probes) else {
            return (None, probes);
        };
        let Some((row, next)) = search::find_by_halves(&sequences[sequence], a, &mut probes) else {
            return (None, probes);
        };
        let found = Found {
            sequence,
            row,
            next,
        };
        (Some(found), probes)
    }

    /// What `find` returns, without its probes. Requires the sequences that the table was made of,
    /// whose addresses never go down, and what the steps say at `a`.
    #[inline(always)]
    fn find_from(
        &self,
        sequences: &[KeptRows],
        a: u64,
        sequence: Option<usize>,
        stand: &mut Stand,
    ) -> Option<Found>
        requires table { IsStepTableOf self.now sequences.now }
        requires order { NoneGoesDown sequences.now }
        requires sequence { sequence ≡ step_at a self.now.steps.items }
        ensures { IsFoundIn a sequences.now result }
    {
        let Some(sequence) = sequence else {
            return None;
        };
        let Some((row, next)) = walk::find_from(&sequences[sequence], a, stand, sequence) else {
            return None;
        };
        Some(Found {
            sequence,
            row,
            next,
        })
    }

    /// What `find` returns at `a`, and the address up to which it returns the same; None where it
    /// does so at all addresses from `a` on. The search begins where the walk is, and moves the
    /// walk to `a`. Requires the sequences that the table was made of, whose addresses never go
    /// down.
    #[inline(always)]
    pub(crate) fn find_with_end(
        &self,
        sequences: &[KeptRows],
        a: u64,
        stand: &mut Stand,
    ) -> (Option<Found>, Option<u64>)
        requires table { IsStepTableOf self.now sequences.now }
        requires order { NoneGoesDown sequences.now }
        ensures above { IfSome result.1 (λ end. a < end) }
        ensures found { (b : ℕ) → a ≤ b → IsBefore b result.1 → IsFoundIn b sequences.now result.0 }
    {
        let steps = self.steps.as_slice();
        let count = steps_from(steps, a, stand.steps);
        stand.steps = count;
        let sequence = last_of_steps(steps, a, count);
        let found = self.find_from(sequences, a, sequence, stand);
        let end = self.end_after(sequences, a, count, &found);
        (found, end)
    }

    /// The address up to which a search finds what it finds at `a`. Requires the sequences that the
    /// table was made of, whose addresses never go down, and the number of steps whose address is
    /// at most `a`.
    fn end_after(
        &self,
        sequences: &[KeptRows],
        a: u64,
        count: usize,
        found: &Option<Found>,
    ) -> Option<u64>
        requires table { IsStepTableOf self.now sequences.now }
        requires order { NoneGoesDown sequences.now }
        requires before { (k : ℕ) (d : Step) → k < count
            → (slice_index_or self.now.steps.items k d).from ≤ a }
        requires after { (k : ℕ) (d : Step) → count ≤ k → k < length self.now.steps.items
            → a < (slice_index_or self.now.steps.items k d).from }
        requires found { IsFoundIn a sequences.now found.now }
        ensures above { IfSome result (λ end. a < end) }
        ensures found { (b : ℕ) → a ≤ b → IsBefore b result → IsFoundIn b sequences.now found.now }
    {
        let end = next_step(self.steps.as_slice(), a, count);
        match found {
            Some(found) => nearer(end, Some(found.next.address())),
            None => end,
        }
    }
}
