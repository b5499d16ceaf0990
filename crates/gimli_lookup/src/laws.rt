//! Laws of what a lookup returns, of strings and of paths.

ghost use Rattle.std.specs.Prelude.{◌≡◌, ◌≤◌, ◌↔◌, ℕ, List, length, Ok, Err, Option, IsTrue, false};
ghost use Rattle.std.specs.Prelude.{true, Contains, Some};
ghost use Rattle.std.specs.Prelude.{[], option_map, unwrap_or};
ghost use Rattle.gimli_core.specs.Equality.{ClonesGiveSame, GivesSame, IsExact};
ghost use Rattle.gimli_core.specs.Layout.{OrderAndLimit};
ghost use Rattle.gimli_line.specs.declared.run.row.LineRow.{LineRow};
ghost use Rattle.gimli_line.specs.header.File.{File};
ghost use Rattle.gimli_line.specs.header.Header.{Header, UnitEntry};
ghost use Rattle.gimli_line.specs.run.Unread.{Unread};
ghost use Rattle.gimli_lookup.specs.FirstPair.{first_pair_of};
ghost use Rattle.gimli_lookup.specs.Paths.{Paths, is_absolute, directory_string};
ghost use Rattle.gimli_lookup.specs.Paths.{file_path, compilation_directory, needs_directory};
ghost use Rattle.gimli_lookup.specs.Paths.{with_directory, EndsWithOwnPath, HasAbsoluteRoot};
ghost use Rattle.gimli_lookup.specs.Program.{found_needs, listed, some_found_need, some_need};
ghost use Rattle.gimli_lookup.specs.ProgramPaths.{found_path, Texts};
ghost use Rattle.gimli_lookup.specs.Run.{AreRowsOfSequences, IsFoundInRun};
ghost use Rattle.gimli_lookup.specs.Probes.{NoneGoesDown};
ghost use Rattle.gimli_lookup.specs.Section.{KeptUnit, ListedUnit, all_sequences, found_at};
ghost use Rattle.gimli_lookup.specs.SectionUnits.{AreUnitsOf};
ghost use Rattle.gimli_lookup.specs.declared.section_lookup.CoveringRows.{CoveringRows};
ghost use Rattle.gimli_lookup.specs.declared.path_error.PathError.TheVariants.{
  StringOffsetOutOfBounds,
  UnterminatedString,
};
ghost use Rattle.gimli_lookup.specs.Strings.{Strings, string_at, HasNoStringEnd, IsStringAt};

use crate::path_error::PathError;
use crate::section_lookup::SectionLookup;
use crate::string_sections::StringSections;
use gimli_core::{Reader, laws};
use gimli_line::laws::{one_decoding, one_list_of_units, one_unit_or_refusal};

/// What is found in units is the first pair of the sequences of all of them, one unit after the
/// other.
pub fn found_among_all()
    ensures { (a : ℕ) (units : List KeptUnit) → option_map (λ f. (f.row, f.next)) (found_at a units)
        ≡ first_pair_of a (all_sequences units) }
{}

/// The string at an offset of a section is the one that is spelled there. It is refused exactly
/// where the section has no byte at the offset, or no zero byte from there on.
pub fn strings_are_spelled()
    ensures found { (section : List ℕ) (offset : ℕ) (string : List ℕ) →
        string_at section offset ≡ Ok string → IsStringAt section offset string }
    ensures only { (section : List ℕ) (offset : ℕ) (string : List ℕ) →
        IsStringAt section offset string → string_at section offset ≡ Ok string }
    ensures out_of_bounds { (section : List ℕ) (offset : ℕ) →
        (string_at section offset ≡ Err StringOffsetOutOfBounds) ↔ (length section ≤ offset) }
    ensures unterminated { (section : List ℕ) (offset : ℕ) →
        (string_at section offset ≡ Err UnterminatedString) ↔ HasNoStringEnd section offset }
{
    laws::texts();
}

/// The caller's directory matters exactly if `needs_directory` is true. If it is false, each path
/// is the same with any other directory; if it is true, the caller's directory is that of the
/// compilation.
pub fn directories_are_needed()
    ensures unneeded { (paths : Paths) (f : File) (other : Option (List ℕ)) →
        needs_directory paths ≡ false
        → file_path (with_directory other paths) f ≡ file_path paths f }
    ensures needed { (paths : Paths) → needs_directory paths ≡ true
        → compilation_directory paths ≡ Ok (unwrap_or paths.comp_dir []) }
{}

/// The path of found rows is the same whatever compilations are set, where
/// `ProgramPaths::found_needs` is false. It is false for all rows of a program where
/// `Program::needs_compilations` is, and for each of the rows of which
/// `FoundRows::need_compilations` is.
pub fn compilations_are_needed()
    ensures path { (texts : Texts) (units : List ListedUnit) (found : CoveringRows)
        (other : ℕ → Option (List ℕ)) → found_needs texts.strings units found ≡ false
        → found_path (record texts { directory = other }) units found
        ≡ found_path texts units found }
    ensures section { (texts : Strings) (units : List KeptUnit) (found : CoveringRows)
        → some_need texts units ≡ false → found_needs texts (listed units) found ≡ false }
    ensures each { (texts : Strings) (units : List ListedUnit) (rows : List (Option CoveringRows))
        (found : CoveringRows) → Contains rows (Some found)
        → some_found_need texts units rows ≡ false → found_needs texts units found ≡ false }
{}

/// Whole paths are absolute where the directory of the compilation is, as it is where directory 0
/// is absolute.
pub fn whole_paths_are_absolute()
    ensures whole { (paths : Paths) (f : File) (path : List ℕ) → HasAbsoluteRoot paths
        → file_path paths f ≡ Ok path → IsTrue (is_absolute path) }
    ensures zero { (paths : Paths) (zero : List ℕ) → directory_string paths 0 ≡ Ok zero
        → IsTrue (is_absolute zero) → HasAbsoluteRoot paths }
{}

/// A whole path ends with the path that the table of files has.
pub fn whole_paths_end_with_own()
    ensures { (paths : Paths) (f : File) (path : List ℕ) → file_path paths f ≡ Ok path
        → EndsWithOwnPath paths.sections f path }
{}

/// `==` of refusals holds exactly where they are of one kind and hold the same.
pub fn equal_errors_are_same()
    ensures { IsExact ⟦<PathError as PartialEq>⟧.eq }
{}

/// `clone` of refusals is never refused, and gives the same.
pub fn clones_of_errors_are_same()
    ensures { ClonesGiveSame ⟦<PathError as Clone>⟧ }
{}

/// `clone` of the sections of strings gives the same and is never refused, if that is so of
/// readers.
pub fn clones_of_sections_are_same<R: Clone>()
    ensures { GivesSame R.is_clone R.is_infallible → ClonesGiveSame ⟦<StringSections<R> as Clone>⟧ }
{}
/// A program has one list of the rows of its sequences. So `find_in_run` returns what
/// `Lookup::find` does, over a lookup of the same program.
pub fn one_answer()
    ensures sequences { (layout : OrderAndLimit) (h : Header) (rows other : List (List LineRow)) →
        AreRowsOfSequences layout h rows → AreRowsOfSequences layout h other → rows ≡ other }
    ensures find { (layout : OrderAndLimit) (h : Header) (a : ℕ) (rows : List (List LineRow))
        (found : Option (LineRow × LineRow)) → AreRowsOfSequences layout h rows
        → IsFoundInRun layout h a found → found ≡ first_pair_of a rows }
{
    one_decoding();
}
/// The addresses of the rows that are kept of a sequence never go down: of a section, and of any
/// lookup.
pub fn kept_rows_never_go_down<R: Reader>(lookup: &SectionLookup<R>)
    ensures section { (section : Unread) (entry : UnitEntry) (lowest : ℕ) (units : List KeptUnit) →
        AreUnitsOf section entry lowest units → NoneGoesDown (all_sequences units) }
    ensures lookup { NoneGoesDown (all_sequences lookup.now) }
{
    lookup.never_goes_down();
}
/// The units of a section keep one list of sequences each. So `find_in_section` finds at an address
/// what `SectionLookup::find` does, over a lookup of the same section.
pub fn one_answer_in_section()
    ensures { (section : Unread) (entry : UnitEntry) (lowest a : ℕ) (units others : List KeptUnit) →
        AreUnitsOf section entry lowest units → AreUnitsOf section entry lowest others
        → found_at a units ≡ found_at a others }
{
    one_decoding();
    one_list_of_units();
    one_unit_or_refusal();
}
