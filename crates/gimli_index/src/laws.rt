//! Laws of the format.

ghost use Rattle.std.specs.Prelude.{ℕ, List, ◌++◌};
ghost use Rattle.gimli_index.specs.Contents.{Contents, Fits, index_bytes};
ghost use Rattle.gimli_index.specs.Made.{SaysWhat};
ghost use Rattle.gimli_index.specs.Parts.{index_at};

/// The bytes that [`Contents::write`](crate::Contents::write) appends are read as an index that
/// says what the entries say, whatever follows.
pub fn made_is_read()
    ensures { (contents : Contents) (rest : List ℕ) → Fits contents
        → SaysWhat contents (index_at (index_bytes contents ++ rest)) }
{}
