//! The paths of an index in the making, each once.

ghost use Rattle.std.specs.Prelude.{◌≡◌, ◌≢◌, ◌++◌, ◌∷◌, [], All, Some, MatchOption, OnOk};
ghost use Rattle.std.specs.Prelude.{slice_get};

use std::alloc::{AllocError, Global};
use std::collections::BTreeMap;
use std::marker::Model;

/// Paths, each once, in the order in which they came. A map in the order of the paths finds their
/// numbers: no choice of paths makes it slow, as one could with a hash map.
#[derive(Drop)]
pub(crate) struct PathSet {
    numbers: BTreeMap<Vec<u8>, usize>,
}

impl Model for PathSet {
    ghost use Rattle.std.specs.Prelude.{List, ℕ};
    ghost use Rattle.gimli_index.specs.inside.Numbered.{texts_in_turn, HaveNumbers};

    ghost Value = { List (List ℕ) };

    ghost view = { λ a. texts_in_turn a.numbers.entries };

    ghost invariant = { λ a. HaveNumbers a.numbers.entries };
}

impl PathSet {
    /// No paths.
    pub(crate) fn new(alloc: Global) -> PathSet
        ensures { result ≡ [] }
    {
        PathSet {
            numbers: BTreeMap::new(alloc),
        }
    }

    /// The index of a path.
    pub(crate) fn find(&self, path: &[u8]) -> Option<usize>
        ensures { MatchOption result (All (λ p. p ≢ path.now) self.now)
            (λ index. slice_get self.now index ≡ Some path.now) }
    {
        self.numbers.get(path).copied()
    }

    /// Appends a path that isn't there.
    pub(crate) fn add(&mut self, alloc: Global, path: &[u8]) -> Result<(), AllocError>
        requires { All (λ p. p ≢ path.now) self.old }
        ensures { OnOk result (self.new ≡ self.old ++ path.now ∷ []) }
    {
        let copy = path.to_vec(alloc)?;
        let number = self.numbers.len();
        self.numbers.insert(copy, number)?;
        Ok(())
    }
}
