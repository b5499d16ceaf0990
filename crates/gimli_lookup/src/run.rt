//! The rows that cover an address, found while a program runs once.

ghost use Rattle.std.specs.Prelude.{◌≤◌, ◌<◌, ◌↔◌, ℕ, List, [], ◌∷◌, ◌++◌, IsTrue, IfErr, IfOk};
ghost use Rattle.gimli_line.specs.declared.run.row.LineRow.{LineRow};
ghost use Rattle.gimli_lookup.specs.inside.FirstPair.{HasPassed, Knows};
ghost use Rattle.gimli_lookup.specs.Run.{IsFoundInRun, IsRefusedInRun};
ghost use Rattle.gimli_lookup.specs.inside.FirstPair.{IsFirstFound};

use gimli_core::{Reader, Result};
use gimli_line::{IncompleteLineProgram, LineRow};

/// How far a search for the first rows that cover an address has come.
#[derive(Clone, Copy)]
enum PairSearch {
    /// No pair so far, and no row since the last end row.
    Start,
    /// No pair so far, and the last row of the open sequence.
    After(LineRow),
    /// The first pair, whose sequence is open.
    Open(LineRow, LineRow),
    /// The first pair of the sequences that have ended.
    Ended(LineRow, LineRow),
}

/// Whether an address stands between two rows: at or above the first, and below the second.
fn is_between(first: &LineRow, second: &LineRow, a: u64) -> bool
    ensures { IsTrue result ↔ ((first.now.address ≤ a) × (a < second.now.address)) }
{
    first.address() <= a && a < second.address()
}

impl PairSearch {
    /// What is known after one more row of the open sequence.
    fn with_row(self, row: LineRow, a: u64) -> Self
        ensures { (ended : List (List LineRow)) (unended : List LineRow) →
            Knows a ended unended self → Knows a ended (unended ++ row ∷ []) result }
    {
        match self {
            PairSearch::Start => PairSearch::After(row),
            PairSearch::After(last) => {
                if is_between(&last, &row, a) {
                    PairSearch::Open(last, row)
                } else {
                    PairSearch::After(row)
                }
            }
            PairSearch::Open(first, second) => PairSearch::Open(first, second),
            PairSearch::Ended(first, second) => PairSearch::Ended(first, second),
        }
    }

    /// What is known once the open sequence has ended.
    fn at_end(self) -> Self
        ensures { (a : ℕ) (ended : List (List LineRow)) (unended : List LineRow) →
            Knows a ended unended self → Knows a (ended ++ unended ∷ []) [] result }
    {
        match self {
            PairSearch::Start => PairSearch::Start,
            PairSearch::After(_) => PairSearch::Start,
            PairSearch::Open(first, second) => PairSearch::Ended(first, second),
            PairSearch::Ended(first, second) => PairSearch::Ended(first, second),
        }
    }

    /// The search after the next row of a run.
    fn after(self, row: LineRow, a: u64) -> Self
        ensures { (rows : List LineRow) →
            HasPassed a rows self → HasPassed a (rows ++ row ∷ []) result }
    {
        let search = self.with_row(row, a);
        if row.end_sequence() {
            search.at_end()
        } else {
            search
        }
    }

    /// The first pair of the sequences that have ended.
    fn pair(self) -> Option<(LineRow, LineRow)>
        ensures { (a : ℕ) (ended : List (List LineRow)) (unended : List LineRow) →
            Knows a ended unended self → IsFirstFound a ended result }
    {
        match self {
            PairSearch::Ended(first, second) => Some((first, second)),
            _ => None,
        }
    }
}

/// What `Lookup::find` returns at the address `a`, found while the whole program runs once. Takes
/// memory only for files that the program defines. Refused by the first fault of the run, wherever
/// it is; or by `OutOfMemory`, but never if the program defines no file.
pub fn find_in_run<R: Reader>(
    program: IncompleteLineProgram<R>,
    a: u64,
) -> Result<Option<(LineRow, LineRow)>>
    ensures ok { IfOk result (IsFoundInRun program.layout program.meaning a) }
    ensures err { IfErr result (IsRefusedInRun program.layout program.meaning) }
{
    let mut rows = program.rows();
    let mut search = PairSearch::Start;
    'rows: loop {
        let row = match rows.next_row()? {
            Some((_, row)) => *row,
            None => return Ok(search.pair()),
        };
        search = search.after(row, a);
    }
}
