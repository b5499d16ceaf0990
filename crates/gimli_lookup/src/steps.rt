//! The steps of an index: which sequence is the first that covers an address, from one address on
//! up to the next.

ghost use Rattle.std.specs.Prelude.{◌≡◌, ◌≤◌, ◌<◌, ◌+◌, ◌^◌, ◌++◌, ◌∷◌, [], ℕ, None, true, false};
ghost use Rattle.std.specs.Prelude.{length, slice_index_or, IfErr, IfOk, MatchOption};
ghost use Rattle.std.specs.List.Sorted.{IsNonDecreasingBy};
ghost use Rattle.gimli_lookup.specs.declared.steps.Step.{Step};
ghost use Rattle.gimli_lookup.specs.Steps.{last_step, AreStepsOf};
ghost use Rattle.gimli_lookup.specs.inside.Steps.{AreJoined};

use crate::kept_rows::KeptRows;
use gimli_core::{Error, Result};
use std::alloc::Global;

/// From an address on, the first sequence that covers it; None where there is none.
#[derive(Clone, Copy, Debug)]
pub(crate) struct Step {
    pub(crate) from: u64,
    pub(crate) sequence: Option<usize>,
}

/// The list with a step after its last. Fails only with `OutOfMemory`.
fn push_step(steps: &mut Vec<Step>, step: Step) -> Result<()>
    ensures ok { IfOk result (λ _. steps.new.items ≡ steps.old.items ++ step ∷ []) }
    ensures err { IfErr result (λ e. e ≡ Error.OutOfMemory) }
{
    if steps.reserve(1).is_err() {
        return Err(Error::OutOfMemory);
    }
    steps.push_reserved(step);
    Ok(())
}

/// Whether the next step is the left one of two lists: the one with the lesser address, or of equal
/// ones the left. Requires that some step is left.
fn is_left_next(left: &[Step], of_left: usize, right: &[Step], of_right: usize) -> bool
    requires left { of_left ≤ length left.now }
    requires right { of_right ≤ length right.now }
    requires some { of_left + of_right < length left.now + length right.now }
    ensures left { result ≡ true → of_left < length left.now }
    ensures left_first { result ≡ true → of_right < length right.now → (d : Step)
        → (slice_index_or left.now of_left d).from ≤ (slice_index_or right.now of_right d).from }
    ensures right { result ≡ false → of_right < length right.now }
    ensures right_first { result ≡ false → of_left < length left.now → (d : Step)
        → (slice_index_or right.now of_right d).from ≤ (slice_index_or left.now of_left d).from }
{
    if of_left == left.len() {
        return false;
    }
    of_right == right.len() || left[of_left].from <= right[of_right].from
}

/// Two lists of steps, merged by their addresses. Fails only with `OutOfMemory`.
fn merge(alloc: Global, left: &[Step], right: &[Step]) -> Result<Vec<Step>>
    requires left_order { IsNonDecreasingBy (λ s. s.from) left.now }
    requires right_order { IsNonDecreasingBy (λ s. s.from) right.now }
    requires left_end { last_step left.now ≡ None }
    requires right_end { last_step right.now ≡ None }
    ensures ok { IfOk result (λ steps. AreJoined left.now right.now steps.items) }
    ensures err { IfErr result (λ e. e ≡ Error.OutOfMemory) }
{
    let Ok(mut merged) = Vec::with_capacity(alloc, left.len() + right.len()) else {
        return Err(Error::OutOfMemory);
    };
    let mut from = 0;
    let (mut next_left, mut next_right) = (0, 0);
    let (mut by_left, mut by_right) = (None, None);
    for _ in 0..left.len() + right.len() {
        if is_left_next(left, next_left, right, next_right) {
            from = left[next_left].from;
            by_left = left[next_left].sequence;
            next_left += 1;
        } else {
            from = right[next_right].from;
            by_right = right[next_right].sequence;
            next_right += 1;
        }
        push_step(
            &mut merged,
            Step {
                from,
                sequence: by_left.or(by_right),
            },
        )?;
    }
    Ok(merged)
}

/// Whether no step of the right list has an address below that of a step of the left one.
fn is_after(left: &[Step], right: &[Step]) -> bool
    requires left_order { IsNonDecreasingBy (λ s. s.from) left.now }
    requires right_order { IsNonDecreasingBy (λ s. s.from) right.now }
    ensures { result ≡ true → (i j : ℕ) (d : Step) → i < length left.now → j < length right.now
        → (slice_index_or left.now i d).from ≤ (slice_index_or right.now j d).from }
{
    match (left.last(), right.first()) {
        (Some(last), Some(first)) => last.from <= first.from,
        _ => true,
    }
}

/// Two lists of steps as one; where the right one stands after the left one it is appended. Fails
/// only with `OutOfMemory`.
fn join(alloc: Global, mut left: Vec<Step>, mut right: Vec<Step>) -> Result<Vec<Step>>
    requires left_order { IsNonDecreasingBy (λ s. s.from) left.items }
    requires right_order { IsNonDecreasingBy (λ s. s.from) right.items }
    requires left_end { last_step left.items ≡ None }
    requires right_end { last_step right.items ≡ None }
    ensures ok { IfOk result (λ steps. AreJoined left.items right.items steps.items) }
    ensures err { IfErr result (λ e. e ≡ Error.OutOfMemory) }
{
    if !is_after(left.as_slice(), right.as_slice()) {
        return merge(alloc, left.as_slice(), right.as_slice());
    }
    if left.append(&mut right).is_err() {
        return Err(Error::OutOfMemory);
    }
    Ok(left)
}

/// The steps of one sequence: from its first address on it covers addresses, and from its last on
/// none. It has no steps where it covers no address, or where its addresses go down.
fn steps_of_one(rows: &KeptRows, index: usize) -> Option<(Step, Step)>
    ensures { MatchOption result (AreStepsOf index (rows.now ∷ []) [])
        (λ steps. AreStepsOf index (rows.now ∷ []) (steps.0 ∷ steps.1 ∷ [])) }
{
    if !rows.never_go_down() {
        return None;
    }
    let (first, last) = rows.range()?;
    if last <= first {
        return None;
    }
    let covered = Step {
        from: first,
        sequence: Some(index),
    };
    let uncovered = Step {
        from: last,
        sequence: None,
    };
    Some((covered, uncovered))
}

/// The steps of sequences, of which the first has the index `first`, one after the other; None
/// where the steps of one begin below the end of those before it, which only two sequences or more
/// can do. Fails only with `OutOfMemory`.
fn steps_in_turn(alloc: Global, sequences: &[KeptRows], first: usize) -> Result<Option<Vec<Step>>>
    requires { first + length sequences.now < 2 ^ 64 }
    ensures ok { IfOk result (λ found. MatchOption found (2 ≤ length sequences.now)
        (λ steps. AreStepsOf first sequences.now steps.items)) }
    ensures err { IfErr result (λ e. e ≡ Error.OutOfMemory) }
{
    let Ok(mut steps) = Vec::with_capacity(alloc, sequences.len() * 2) else {
        return Err(Error::OutOfMemory);
    };
    let mut end = 0;
    for index in 0..sequences.len() {
        if let Some((covered, uncovered)) = steps_of_one(&sequences[index], first + index) {
            if covered.from < end {
                return Ok(None);
            }
            end = uncovered.from;
            push_step(&mut steps, covered)?;
            push_step(&mut steps, uncovered)?;
        }
    }
    Ok(Some(steps))
}

/// The steps of sequences, of which the first has the index `first`: one after the other if the
/// sequences don't overlap and are in order, else those of both halves, joined. Fails only with
/// `OutOfMemory`.
pub(crate) fn steps_of(alloc: Global, sequences: &[KeptRows], first: usize) -> Result<Vec<Step>>
    requires { first + length sequences.now < 2 ^ 64 }
    ensures ok { IfOk result (λ steps. AreStepsOf first sequences.now steps.items) }
    ensures err { IfErr result (λ e. e ≡ Error.OutOfMemory) }
{
    if let Some(steps) = steps_in_turn(alloc, sequences, first)? {
        return Ok(steps);
    }
    let middle = sequences.len() / 2;
    let left = steps_of(alloc, &sequences[..middle], first)?;
    let right = steps_of(alloc, &sequences[middle..], first + middle)?;
    join(alloc, left, right)
}
