//! Laws of conversions: a converted program meets what `write` asks; it says what its source says;
//! and so do the rows that are read back of it. And laws of round trips, of equality and of clones.

ghost use Rattle.std.specs.Prelude.{◌≡◌, ℕ, Bool, List, map, Some};
ghost use Rattle.std.specs.Bool.{Decides};
ghost use Rattle.gimli_core.specs.Equality.{ClonesGiveSame, IsExact};
ghost use Rattle.gimli_core.specs.declared.common.Encoding.{Encoding};
ghost use Rattle.gimli_core.specs.declared.common.LineEncoding.{LineEncoding};
ghost use Rattle.gimli_bytes.specs.Texts.{StringTables, texts_in};
ghost use Rattle.gimli_line.specs.header.File.{File};
ghost use Rattle.gimli_line.specs.declared.run.row.LineRow.{LineRow as ReadRow};
ghost use Rattle.gimli_build.specs.Built.{Built};
ghost use Rattle.gimli_build.specs.Cause.{first_cause};
ghost use Rattle.gimli_build.specs.Conditions.{CanBuild, CanWrite};
ghost use Rattle.gimli_build.specs.FileNumber.{file_number};
ghost use Rattle.gimli_build.specs.Items.{HasFittingAddresses};
ghost use Rattle.gimli_build.specs.declared.built.items.BuiltItem.{BuiltItem};
ghost use Rattle.gimli_write.specs.RoundTrip.{AreBuiltRows};
ghost use Rattle.gimli_write.specs.RoundTrip.{IsRoundTripRefusal, IsCausedRefusal};
ghost use Rattle.gimli_write.specs.declared.convert_error.ConvertError.{ConvertError};
ghost use Rattle.gimli_write.specs.convert.Outcome.{can_build};
ghost use Rattle.gimli_write.specs.convert.Sequences.{sequence_read};
ghost use Rattle.gimli_write.specs.convert.SourceTables.{written_number};
ghost use Rattle.gimli_write.specs.convert.Mapped.{IsFaithful, IsFileId};
ghost use Rattle.gimli_write.specs.convert.Preparation.{encoding_of};
ghost use Rattle.gimli_write.specs.convert.DoneConversions.{DoneConversion, IsToBeFaithful};
ghost use Rattle.gimli_write.specs.convert.DoneConversions.{SourceGives, AreReadAs, UnitReadBack};
ghost use Rattle.gimli_write.specs.convert.DoneConversions.{GivesBack, SourceFilesAre};
ghost use Rattle.gimli_write.specs.convert.DoneConversions.{AreFilesReadBack};
ghost use Rattle.gimli_write.specs.convert.DoneConversions.{IsToBeMoved, AreMoved, GivesMoved};
ghost use Rattle.gimli_write.specs.convert.DoneConversions.{IsToBeShifted};
ghost use Rattle.gimli_write.specs.convert.Moved.{shifted};

use crate::convert::rows::{ConvertLineRow, ConvertLineSequence, ConvertLineSequenceEnd};
use crate::convert_error::ConvertError;

/// A conversion asks of each row and end what the builder's own calls ask.
pub fn conversions_ask_what_the_builder_asks()
    ensures { (e : LineEncoding) (position : ℕ × ℕ) (item : BuiltItem)
        → Decides (can_build e position item) (CanBuild e position item) }
{}

/// A converted program meets what `write` asks, whatever its addresses are mapped to. `write` may
/// refuse it for a cause.
pub fn converted_programs_can_be_written()
    ensures { (d : DoneConversion) (strings : List (List ℕ))
        → CanWrite d.outcome.program (texts_in strings d.outcome.line_strings) }
{}

/// A converted program has the encoding that is handed, else that of its source.
pub fn converted_programs_keep_their_encoding()
    ensures { (d : DoneConversion)
        → d.outcome.program.encoding ≡ encoding_of d.source.header d.source.given }
{}

/// Where each address is mapped to itself, addresses are at least as wide as those of the source,
/// and no sequence of the source that gave a row ends under a tombstone, a converted program says
/// what its source says. No address in it is a tombstone for a row, all of them fit its address
/// size, and each that is set is a number, not a symbol.
pub fn conversions_are_faithful()
    ensures { (d : DoneConversion) (strings : List (List ℕ)) → IsToBeFaithful d
        → IsFaithful d.source strings d.outcome }
{}

/// So the rows that are read back of it say what the rows of the source say, one by one: an end has
/// its address, and any other row all its registers, with the number that its file has now. These
/// are the rows that `round_trip` returns, and those of a unit that `LineProgram::write` wrote,
/// however it is read well.
pub fn converted_rows_are_read_back()
    ensures answered { (d : DoneConversion) (rows back : List ReadRow) → IsToBeFaithful d
        → SourceGives d rows → AreBuiltRows d.outcome.program back → AreReadAs d rows back }
    ensures written { (d : DoneConversion) (rows : List ReadRow) → IsToBeFaithful d
        → SourceGives d rows → (unit : UnitReadBack d.outcome.program) → GivesBack d rows unit }
{}

/// A map may move addresses, as linkers and rewriters do. Where it keeps their order inside each
/// sequence, what it gives fits the address size, and no sequence of the source that gave a row
/// ends under a tombstone, the rows that are read back are those of the source, one by one, each as
/// far after the new set address as it was after the old one.
pub fn moved_rows_are_read_back()
    ensures answered { (d : DoneConversion) (back : List ReadRow) → IsToBeMoved d
        → AreBuiltRows d.outcome.program back → AreMoved d back }
    ensures written { (d : DoneConversion) → IsToBeMoved d
        → (unit : UnitReadBack d.outcome.program) → GivesMoved d unit }
{}

/// So a map that adds a number to each address adds it to the address of each row, where each row
/// follows a set address in its sequence, and the sum is below the two greatest addresses.
pub fn shifted_rows_are_read_back()
    ensures answered { (n : ℕ) (d : DoneConversion) (rows back : List ReadRow) → IsToBeShifted n d
        → SourceGives d rows → AreBuiltRows d.outcome.program back
        → AreReadAs d (map (shifted n) rows) back }
    ensures written { (n : ℕ) (d : DoneConversion) (rows : List ReadRow) → IsToBeShifted n d
        → SourceGives d rows → (unit : UnitReadBack d.outcome.program)
        → GivesBack d (map (shifted n) rows) unit }
{}

/// And the files that it returns have the paths of those of the source, and what is known of them.
/// Each file number of the source has an id, which is the index of its file.
pub fn converted_files_are_read_back()
    ensures { (d : DoneConversion) (strings : List (List ℕ)) (files : List File)
        → SourceFilesAre d files → AreFilesReadBack d strings files }
{}

/// A number of the source is written as that of its id, and no other has one.
pub fn written_numbers_are_of_ids()
    ensures there { (source version n id : ℕ) (file_ids : List ℕ) → IsFileId source file_ids n id
        → written_number source version file_ids n ≡ Some (file_number version id) }
    ensures only { (source version n m : ℕ) (file_ids : List ℕ)
        → written_number source version file_ids n ≡ Some m
        → (id : ℕ) × IsFileId source file_ids n id × (m ≡ file_number version id) }
{}

/// `round_trip` never refuses with `Read` a program whose addresses fit: it reads what it wrote,
/// unless memory is missing.
pub fn fitting_programs_are_read()
    ensures { (is_big : Bool) (encoding : Encoding) (p : Built) (texts : StringTables)
        (old new : List ℕ) (e : ConvertError) → HasFittingAddresses p
        → IsRoundTripRefusal is_big encoding p texts old new e
        → IsCausedRefusal (first_cause is_big encoding p texts) e }
{}

/// `==` is true for two of what `read_row` gives, and for two ends of sequences, exactly where both
/// are of one kind and agree in its parts; and for two sequences exactly where they have the same
/// start or none, the same rows and the same end.
pub fn equal_rows_and_sequences()
    ensures row { (a b : ConvertLineRow)
        → Decides (⟦<ConvertLineRow as PartialEq>⟧.eq a b) (a ≡ b) }
    ensures end { (a b : ConvertLineSequenceEnd)
        → Decides (⟦<ConvertLineSequenceEnd as PartialEq>⟧.eq a b) (a ≡ b) }
    ensures sequence { (a b : ConvertLineSequence) → Decides
        (⟦<ConvertLineSequence as PartialEq>⟧.eq a b) (sequence_read a ≡ sequence_read b) }
{}

/// `==` is true for two refusals exactly where they are of one kind and agree in the refusal of
/// reading or writing that they hold.
pub fn equal_refusals()
    ensures { IsExact ⟦<ConvertError as PartialEq>⟧.eq }
{
    gimli_core::laws::equal_errors_are_same();
    gimli_bytes::laws::equal_errors_are_same();
}

/// `clone` of what `read_row` gives, of the end of a sequence and of a refusal never fails, and
/// returns the same.
pub fn clones_are_same()
    ensures row { ClonesGiveSame ⟦<ConvertLineRow as Clone>⟧ }
    ensures end { ClonesGiveSame ⟦<ConvertLineSequenceEnd as Clone>⟧ }
    ensures refusal { ClonesGiveSame ⟦<ConvertError as Clone>⟧ }
{}
