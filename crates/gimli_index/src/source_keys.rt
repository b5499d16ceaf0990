//! The files that have a source in an index in the making, each once.

ghost use Rattle.std.specs.Prelude.{◌≡◌, ◌≢◌, ◌++◌, ◌∷◌, [], All, Some, MatchOption, OnOk};
ghost use Rattle.std.specs.Prelude.{slice_get};

use std::alloc::{AllocError, Global};
use std::collections::BTreeMap;
use std::marker::Model;

/// What a source is of: a file of a unit, by the index of the unit.
#[derive(Clone, Copy, PartialEq, Eq, PartialOrd, Ord)]
pub(crate) struct SourceKey {
    pub(crate) unit: usize,
    pub(crate) file: u64,
}

/// Files of units, each once, in the order in which they came. A map in the order of the files
/// finds their numbers: no choice of numbers makes it slow, as one could with a hash map.
#[derive(Drop)]
pub(crate) struct SourceKeys {
    keys: Vec<SourceKey>,
    numbers: BTreeMap<SourceKey, usize>,
}

impl Model for SourceKeys {
    ghost use Rattle.std.specs.Prelude.{List};
    ghost use Rattle.gimli_index.specs.declared.source_keys.SourceKey.{SourceKey as Key};
    ghost use Rattle.gimli_index.specs.inside.Numbered.{number_of_key, AreNumbered};

    ghost Value = { List Key };

    ghost view = { λ a. a.keys.items };

    ghost invariant = { λ a. AreNumbered a.keys.items (number_of_key a.numbers.entries) };
}

impl SourceKeys {
    /// No files.
    pub(crate) fn new(alloc: Global) -> SourceKeys
        ensures { result ≡ [] }
    {
        SourceKeys {
            keys: Vec::new(alloc),
            numbers: BTreeMap::new(alloc),
        }
    }

    /// The file at an index.
    #[inline(always)]
    pub(crate) fn get(&self, index: usize) -> Option<SourceKey>
        ensures { result ≡ slice_get self.now index }
    {
        self.keys.get(index).copied()
    }

    /// The index of a file.
    pub(crate) fn find(&self, key: SourceKey) -> Option<usize>
        ensures { MatchOption result (All (λ k. k ≢ key) self.now)
            (λ index. slice_get self.now index ≡ Some key) }
    {
        self.numbers.get(&key).copied()
    }

    /// Appends a file that isn't there.
    pub(crate) fn add(&mut self, key: SourceKey) -> Result<(), AllocError>
        requires { All (λ k. k ≢ key) self.old }
        ensures { OnOk result (self.new ≡ self.old ++ key ∷ []) }
    {
        let number = self.keys.len();
        self.keys.push(key)?;
        if self.numbers.insert(key, number).is_err() {
            self.keys.truncate(number);
            return Err(AllocError);
        }
        Ok(())
    }
}
