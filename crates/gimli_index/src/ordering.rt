//! The statements of an index in the making, put in order.

ghost use Rattle.std.specs.Prelude.{◌≡◌, ◌<◌, ◌≤◌, ◌-◌, ◌^◌, length, map, slice_index_or, All};
ghost use Rattle.std.specs.Prelude.{IfOk, [], true};
ghost use Rattle.std.specs.List.{Contains};
ghost use Rattle.std.specs.Prelude.{slice_get};
ghost use Rattle.gimli_index.specs.Contents.{source_path, statement_in};
ghost use Rattle.gimli_index.specs.Made.{contents_of, HasOrder, SayTheSameLines};
ghost use Rattle.gimli_index.specs.Order.{path_number};
ghost use Rattle.gimli_index.specs.inside.Ranks.{nothing, AreRanked, IsRanked};

use crate::contents::{Contents, Source, Statement};
use crate::line_index::path_in;
use crate::order::{key_of, path_number, rank_of};
use std::alloc::{AllocError, Global};

/// A statement with its rank: the number of its file's name, its line and its address.
#[derive(Clone, Copy)]
struct Ranked {
    rank: u128,
    statement: Statement,
}

/// Whether two sources have the same path, or the same reason why they have none.
fn is_same_path(first: Source, second: Source) -> bool
    ensures { result ≡ true → (first.first ≡ second.first) × (first.size ≡ second.size)
        × (first.reason ≡ second.reason) }
{
    first.first == second.first && first.size == second.size && first.reason == second.reason
}

impl Contents<'_> {
    /// The number of the name of a source.
    pub(crate) fn name_of(&self, source: Source) -> u64
        ensures number { result ≡ path_number (source_path self.now.paths.now source) }
        ensures few { result < 2 ^ 31 }
    {
        if source.reason != 0 {
            return 0;
        }
        path_number(path_in(self.paths, source.first, source.size))
    }

    /// The number of the name of each source.
    pub(crate) fn names(&self, alloc: Global) -> Result<Vec<u32>, AllocError>
        ensures numbers { IfOk result (λ names. names.items
            ≡ map (λ s. path_number (source_path self.now.paths.now s)) self.now.sources.now) }
        ensures few { IfOk result (λ names. All (λ n. n < 2 ^ 31) names.items) }
    {
        let mut names = Vec::with_capacity(alloc, self.sources.len())?;
        for source in self.sources {
            names.push(self.name_of(*source) as u32)?;
        }
        Ok(names)
    }

    /// A statement with its rank, by the numbers of the names of the sources.
    fn ranked(&self, names: &[u32], statement: Statement) -> Ranked
        requires numbers { names.now
            ≡ map (λ s. path_number (source_path self.now.paths.now s)) self.now.sources.now }
        requires few { All (λ n. n < 2 ^ 31) names.now }
        ensures is { IsRanked (contents_of self.now []) result }
        ensures statement { result.statement ≡ statement }
    {
        let name = match names.get(statement.source as usize) {
            Some(name) => u64::from(*name),
            None => 0,
        };
        Ranked {
            rank: rank_of(key_of(name, u64::from(statement.line)), statement.address),
            statement,
        }
    }

    /// The statements with their ranks, as they come.
    fn all_ranked(&self, alloc: Global, names: &[u32]) -> Result<Vec<Ranked>, AllocError>
        requires numbers { names.now
            ≡ map (λ s. path_number (source_path self.now.paths.now s)) self.now.sources.now }
        requires few { All (λ n. n < 2 ^ 31) names.now }
        ensures each { IfOk result (λ all. All (IsRanked (contents_of self.now [])) all.items) }
        ensures all { IfOk result
            (λ all. map (λ (r : Ranked). r.statement) all.items ≡ self.now.statements.now) }
    {
        let mut all = Vec::with_capacity(alloc, self.statements.len())?;
        for statement in self.statements {
            all.push(self.ranked(names, *statement))?;
        }
        Ok(all)
    }

    /// The source of a statement, if it is there.
    fn source_of(&self, statement: Statement) -> Option<Source>
        ensures { result ≡ slice_get self.now.sources.now statement.source }
    {
        match self.sources.get(statement.source as usize) {
            Some(source) => Some(*source),
            None => None,
        }
    }

    /// Whether a statement says what another one says: the same line and address of the same path.
    fn is_repeated(&self, last: Statement, next: Statement) -> bool
        ensures { result ≡ true → statement_in (contents_of self.now []) last
            ≡ statement_in (contents_of self.now []) next }
    {
        if last.line != next.line || last.address != next.address {
            return false;
        }
        let Some(first) = self.source_of(last) else {
            return false;
        };
        let Some(second) = self.source_of(next) else {
            return false;
        };
        is_same_path(first, second)
    }

    /// Whether the statement at an index says what the one before it says.
    fn is_repeated_at(&self, ranked: &[Ranked], index: usize) -> bool
        requires { index < length ranked.now }
        ensures some { result ≡ true → 0 < index }
        ensures same { result ≡ true → statement_in (contents_of self.now [])
            (slice_index_or ranked.now (index - 1) nothing).statement
            ≡ statement_in (contents_of self.now [])
            (slice_index_or ranked.now index nothing).statement }
    {
        if index == 0 {
            return false;
        }
        self.is_repeated(ranked[index - 1].statement, ranked[index].statement)
    }

    /// The statements of ranked ones, without those that say what the one before them says.
    fn distinct(&self, alloc: Global, ranked: &[Ranked]) -> Result<Vec<Statement>, AllocError>
        requires { AreRanked (contents_of self.now []) ranked.now }
        ensures ordered { IfOk result (λ s. HasOrder (contents_of self.now s.items)) }
        ensures same { IfOk result (λ s. SayTheSameLines (contents_of self.now [])
            (map (λ (r : Ranked). r.statement) ranked.now) s.items) }
        ensures few { IfOk result (λ s. length s.items ≤ length ranked.now) }
        ensures within { IfOk result
            (λ s. All (Contains (map (λ (r : Ranked). r.statement) ranked.now)) s.items) }
    {
        let mut distinct = Vec::new(alloc);
        for index in 0..ranked.len() {
            if !self.is_repeated_at(ranked, index) {
                distinct.push(ranked[index].statement)?;
            }
        }
        Ok(distinct)
    }

    /// The statements in order, each that says something once.
    pub(crate) fn ordered(&self, alloc: Global, names: &[u32]) -> Result<Vec<Statement>, AllocError>
        requires numbers { names.now
            ≡ map (λ s. path_number (source_path self.now.paths.now s)) self.now.sources.now }
        requires few { All (λ n. n < 2 ^ 31) names.now }
        ensures ordered { IfOk result (λ s. HasOrder (contents_of self.now s.items)) }
        ensures same { IfOk result (λ s. SayTheSameLines (contents_of self.now [])
            self.now.statements.now s.items) }
        ensures few { IfOk result (λ s. length s.items ≤ length self.now.statements.now) }
        ensures within { IfOk result (λ s. All (Contains self.now.statements.now) s.items) }
    {
        let mut ranked = self.all_ranked(alloc, names)?;
        ranked.sort_by_key(|one| one.rank)?;
        self.distinct(alloc, &ranked)
    }
}
