//! Laws of what is counted.

ghost use Rattle.std.specs.Prelude.{◌≡◌, ℕ, List, length, map, sum};
ghost use Rattle.gimli_core.specs.Layout.{OrderAndLimit};
ghost use Rattle.gimli_line.specs.header.Header.{Header};
ghost use Rattle.lines_reports.specs.Pieces.{all_bytes, ArePieces, Piece};

/// The pieces of a program have its bytes together.
pub fn pieces_have_all_bytes()
    ensures { (layout : OrderAndLimit) (h : Header) (bytes : List ℕ) (pieces : List Piece)
        → ArePieces layout h bytes pieces → sum (map all_bytes pieces) ≡ length bytes }
{}
