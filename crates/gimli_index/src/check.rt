//! What an index from elsewhere has to be.

ghost use Rattle.std.specs.Prelude.{◌≡◌, ◌<◌, true, false, OnOk, IfErr};
ghost use Rattle.gimli_index.specs.Order.{IsOrdered};
ghost use Rattle.gimli_index.specs.Sound.{ArePathsInside, IsFaultOf, IsSound};
ghost use Rattle.gimli_index.specs.inside.Numbers.{NumbersAscend};
ghost use Rattle.gimli_index.specs.inside.Order.{AreNamesRight, HasRightName, RanksRise};

use crate::error::IndexError;
use crate::line_index::{LineIndex, path_of};
use crate::order::path_number;
use crate::place::NoPath;

impl<'a> LineIndex<'a> {
    ghost use Rattle.gimli_index.specs.Views.{index_of};

    /// Whether no start is below the one before it.
    fn starts_ascend(&self) -> bool
        ensures yes { result ≡ true → NumbersAscend (index_of self.now) }
        ensures no { result ≡ false → NumbersAscend (index_of self.now) → ⊥ }
    {
        for index in 1..self.starts {
            if self.start_number(index) < self.start_number(index - 1) {
                return false;
            }
        }
        true
    }

    /// Whether each source has a path inside the part of paths with a zero byte after it, or a
    /// reason why it has none.
    fn paths_are_inside(&self) -> bool
        ensures yes { result ≡ true → ArePathsInside (index_of self.now) }
        ensures no { result ≡ false → ArePathsInside (index_of self.now) → ⊥ }
    {
        for index in 0..self.sources {
            if let Err(NoPath::Outside) = path_of(self.path_bytes, self.source(index)) {
                return false;
            }
        }
        true
    }

    /// Whether the number that a source has for its name is right.
    fn has_right_name(&self, source: usize) -> bool
        requires { source < self.now.sources }
        ensures yes { result ≡ true → HasRightName (index_of self.now) source }
        ensures no { result ≡ false → HasRightName (index_of self.now) source → ⊥ }
    {
        self.name_at(source) == path_number(path_of(self.path_bytes, self.source(source)))
    }

    /// Whether the number that each source has for its name is right.
    fn names_are_right(&self) -> bool
        ensures yes { result ≡ true → AreNamesRight (index_of self.now) self.now.sources }
        ensures no { result ≡ false → AreNamesRight (index_of self.now) self.now.sources → ⊥ }
    {
        for source in 0..self.sources {
            if !self.has_right_name(source) {
                return false;
            }
        }
        true
    }

    /// Whether no statement ranks below the one before it.
    fn statements_ascend(&self) -> bool
        ensures yes { result ≡ true → RanksRise (index_of self.now) self.now.statements }
        ensures no { result ≡ false → RanksRise (index_of self.now) self.now.statements → ⊥ }
    {
        for number in 1..self.statements {
            if self.statement_rank(number) < self.statement_rank(number - 1) {
                return false;
            }
        }
        true
    }

    /// Whether the statements are in order.
    fn is_ordered(&self) -> bool
        ensures yes { result ≡ true → IsOrdered (index_of self.now) }
        ensures no { result ≡ false → IsOrdered (index_of self.now) → ⊥ }
    {
        if !self.names_are_right() {
            return false;
        }
        self.statements_ascend()
    }

    /// Checks what [`find`](LineIndex::find) and [`addresses_of`](LineIndex::addresses_of) rest on,
    /// and that each path is inside the index with a zero byte after it: for bytes that nobody
    /// vouches for. It takes no memory, and looks at each start, each source with its path, and
    /// each statement.
    ///
    /// Refuses an index whose starts don't ascend (`NotAscending`), one with a path that isn't
    /// inside it or has no zero byte after it (`PathOutside`), and one whose statements aren't in
    /// order (`NotInOrder`).
    pub fn check(&self) -> Result<(), IndexError>
        ensures ok { OnOk result (IsSound (index_of self.now)) }
        ensures err { IfErr result (IsFaultOf (index_of self.now)) }
    {
        if !self.starts_ascend() {
            return Err(IndexError::NotAscending);
        }
        if !self.paths_are_inside() {
            return Err(IndexError::PathOutside);
        }
        if !self.is_ordered() {
            return Err(IndexError::NotInOrder);
        }
        Ok(())
    }
}
