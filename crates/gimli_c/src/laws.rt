//! Laws of the numbers that calls return.

ghost use Rattle.std.specs.Prelude.{ℕ, ◌≤◌};
ghost use Rattle.gimli_c.specs.Location.{HasNoUnit, Location};
ghost use Rattle.gimli_c.specs.Numbers.{AreNumbered};

/// The constants of `status` are the numbers that C knows by the same names.
pub fn constants_are_numbered()
    ensures { AreNumbered }
{}

/// Where no unit can be read, the number is one from `UNEXPECTED_EOF` to `OUT_OF_MEMORY`. So it is
/// none of those that say something else: `NO_SUCH_FILE`, `NO_SUCH_DIRECTORY`, `UNKNOWN_PATH`,
/// `NO_COMP_DIR` and `NO_ROOM`.
pub fn refused_units_have_first_numbers()
    ensures { (p : Location) (status : ℕ) → HasNoUnit p status → (1 ≤ status) × (status ≤ 17) }
{}
