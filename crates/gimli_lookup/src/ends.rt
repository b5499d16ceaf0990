//! Up to which address a search finds the same.

ghost use Rattle.std.specs.Prelude.{◌<◌, ◌≤◌, ℕ, length, slice_index_or, IfSome};
ghost use Rattle.std.specs.List.Sorted.{IsNonDecreasingBy};
ghost use Rattle.gimli_lookup.specs.declared.steps.Step.{Step};
ghost use Rattle.gimli_lookup.specs.Ranges.{IsBefore};
ghost use Rattle.gimli_lookup.specs.inside.Steps.{IsClear};

use crate::steps::Step;

/// The lower of two addresses, where there are any.
pub(crate) fn nearer(first: Option<u64>, second: Option<u64>) -> Option<u64>
    ensures first { (b : ℕ) → IsBefore b result → IsBefore b first }
    ensures second { (b : ℕ) → IsBefore b result → IsBefore b second }
    ensures above { (a : ℕ) → IfSome first (λ end. a < end) → IfSome second (λ end. a < end)
        → IfSome result (λ end. a < end) }
{
    match (first, second) {
        (Some(a), Some(b)) => Some(a.min(b)),
        (Some(a), None) => Some(a),
        (None, b) => b,
    }
}

/// The address of the step at an index; None where there is no such step. Requires the number of
/// steps whose addresses are at most `a`.
pub(crate) fn next_step(steps: &[Step], a: u64, index: usize) -> Option<u64>
    requires before { (k : ℕ) (d : Step) → k < index → (slice_index_or steps.now k d).from ≤ a }
    requires after { (k : ℕ) (d : Step) → index ≤ k → k < length steps.now
        → a < (slice_index_or steps.now k d).from }
    requires order { IsNonDecreasingBy (λ s. s.from) steps.now }
    ensures above { IfSome result (λ end. a < end) }
    ensures clear { (k : ℕ) (d : Step) → k < length steps.now
        → IsClear a result (slice_index_or steps.now k d).from }
{
    if index >= steps.len() {
        return None;
    }
    Some(steps[index].from)
}
