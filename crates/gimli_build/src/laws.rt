//! Laws of what is written: the instructions of rows and ends, run by the machine of the reading
//! half, give what was built; their bytes spell them; they are few; and they define no file. And
//! laws of equality and of clones.

ghost use Rattle.std.specs.Prelude.{◌≡◌, ℕ, Bool, false, All, ◌≤◌, List, length, map};
ghost use Rattle.std.specs.Prelude.{IfOk, IsTrue, option_map};
ghost use Rattle.std.specs.Bool.{Decides};
ghost use Rattle.gimli_core.specs.Equality.{ClonesGiveSame, IsSameClone};
ghost use Rattle.gimli_core.specs.Layout.{OrderAndLimit};
ghost use Rattle.gimli_core.specs.Numbers.{is_address_size};
ghost use Rattle.gimli_bytes.specs.HashAlike.{HashAlike};
ghost use Rattle.gimli_core.specs.declared.error.Error.{Error};
ghost use Rattle.gimli_core.specs.declared.error.Error.TheVariants.{AddressOverflow};
ghost use Rattle.std.specs.declared.alloc.AllocError.{AllocError};
ghost use Rattle.gimli_bytes.specs.declared.error.Error.{Error as WriteError};
ghost use Rattle.gimli_bytes.specs.declared.error.Error.TheVariants.{OutOfMemory};
ghost use Rattle.gimli_core.specs.declared.common.Encoding.{Encoding};
ghost use Rattle.gimli_core.specs.declared.common.LineEncoding.{LineEncoding};
ghost use Rattle.gimli_line.specs.header.Header.{Header};
ghost use Rattle.gimli_line.specs.header.Orders.{HeaderSource};
ghost use Rattle.gimli_line.specs.run.Instruction.{Ins, defines_file};
ghost use Rattle.gimli_line.specs.run.Events.{Event, row};
ghost use Rattle.gimli_line.specs.run.Passing.{RunState};
ghost use Rattle.gimli_line.specs.run.Passing.{with_reset_row, PassesOver};
ghost use Rattle.gimli_line.specs.run.Rows.{live_events, FaultIs};
ghost use Rattle.gimli_line.specs.run.Machine.{initial};
ghost use Rattle.gimli_line.specs.declared.run.instruction.LineInstruction.TheVariants.{SetAddress};
ghost use Rattle.gimli_build.specs.declared.built.row.LineRow.{LineRow};
ghost use Rattle.gimli_build.specs.declared.built.items.BuiltItem.{BuiltItem};
ghost use Rattle.gimli_build.specs.InstructionBytes.{
  instruction_bytes,
  instructions_bytes,
  IsWritten,
};
ghost use Rattle.gimli_build.specs.ReadRows.{built_rules};
ghost use Rattle.gimli_build.specs.Runs.{Run, run_start, after_items, registers, Follows, AreNext};
ghost use Rattle.gimli_build.specs.Runs.{written_row, written_end, written_items, given_items};
ghost use Rattle.gimli_build.specs.Runs.{Gives};
ghost use Rattle.gimli_build.specs.Items.{program_rows};
ghost use Rattle.gimli_build.specs.Runs.{run_of_program, CanRun};
ghost use Rattle.gimli_build.specs.UnitReader.{UnitReader, Spells, AreSpelled, bytes_of_address};
ghost use Rattle.gimli_build.specs.UnitReader.{bytes_of_items, IsWritableRow, AreWritable};
ghost use Rattle.gimli_build.specs.Sizes.{IsMove, SpecialSuffices, SpecialAndConstantSuffice};
ghost use Rattle.gimli_build.specs.Sizes.{row_size};
ghost use Rattle.gimli_build.specs.Built.{Built};
ghost use Rattle.gimli_build.specs.Conditions.{CanWrite};
ghost use Rattle.gimli_build.specs.Cause.{first_cause, refusal};
ghost use Rattle.gimli_build.specs.Refused.{first_refusal, program_seen, error_of};
ghost use Rattle.gimli_build.specs.declared.unit.refusal.Symbols.{Symbols};
ghost use Rattle.gimli_build.specs.ReadsBack.{DecodesAs, IsFound};
ghost use Rattle.gimli_build.specs.Texts.{Sections};
ghost use Rattle.gimli_build.specs.Runs.{DefinesNoFile, program_started};
ghost use Rattle.gimli_build.specs.declared.built.files.FileInfo.{FileInfo};
ghost use Rattle.gimli_build.specs.declared.built.line_string.LineString.{LineString};
ghost use Rattle.gimli_build.specs.LineText.{LineText, line_text};
ghost use Rattle.gimli_build.specs.TableFields.{details};
ghost use Rattle.gimli_bytes.specs.Hand.{Placement, unplaced, plain};
ghost use Rattle.gimli_bytes.specs.Relocations.{placed, counted};
ghost use Rattle.gimli_bytes.specs.Texts.{StringTables, table_bytes};
ghost use Rattle.gimli_build.specs.Linked.{placed_program, SumsFit, TextsBeginAtZero, HasTable};
ghost use Rattle.gimli_core.specs.declared.common.SectionId.TheVariants.{DebugStr, DebugLineStr};
ghost use Rattle.gimli_build.specs.Unit.{unit_bytes};
ghost use Rattle.gimli_build.specs.Version5Tables.{texts_after};

use crate::built::files::{DirectoryId, FileId, FileInfo};
use crate::built::items::BuiltItem;
use crate::built::line_program::LineProgram;
use crate::built::line_string::LineString;
use crate::built::row::LineRow;
pub use gimli_bytes::laws::{
    clones_are_same, clones_of_addresses_and_ids, clones_of_errors_are_same,
    equal_addresses_and_ids, equal_addresses_and_ids_hash_alike, equal_errors_are_same,
    placed_sums_are_numbers, relocations_give_the_same, sleb_is_shortest, table_bytes_length,
    text_at_offset, uleb_is_shortest, with_text_are_texts,
};
use std::alloc::AllocError;
use std::hash::Hash;

/// Where the address size can hold the addresses of built items, and no set address is a tombstone,
/// their instructions, run from the registers after the row before them, give one row for each row
/// and each end, in order, and no fault, and leave the registers after the items, whatever
/// instructions follow.
pub fn items_run()
    ensures { (here : Run) (items : List BuiltItem) → AreNext here items →
        Gives here (written_items here items) (given_items here items) (after_items items here) }
{}

/// A sequence starts with the registers after its initial row, whose file has the number 1.
pub fn start_is_initial()
    ensures { (encoding : Encoding) (e : LineEncoding) → encoding.version ≤ 5 →
        initial (built_rules encoding e) ≡ registers (run_start encoding e) }
{}

/// The bytes of an instruction of a row or an end spell it, in each unit with the opcode base 13
/// whose reader has offsets that hold the length of the longest.
pub fn instruction_is_spelled()
    ensures { (u : UnitReader) (i : Ins) → IsWritten i → Spells u (instruction_bytes i) i }
{}

/// So do those of a set address, whose size is the unit's.
pub fn set_address_is_spelled()
    ensures { (u : UnitReader) (address : ℕ) →
        IfOk (bytes_of_address u address) (λ bytes. Spells u bytes (SetAddress address)) }
{}

/// The bytes of a row are the spellings of its instructions, one after the other.
pub fn row_is_spelled()
    ensures { (u : UnitReader) (here : Run) (r : LineRow) → IsWritableRow here r →
        AreSpelled u (written_row here r) (instructions_bytes (written_row here r)) }
{}

/// So are those of an end at the offset o and the operation i.
pub fn end_is_spelled()
    ensures { (u : UnitReader) (here : Run) (o i : ℕ) → Follows here o i →
        AreSpelled u (written_end here o i) (instructions_bytes (written_end here o i)) }
{}

/// A row is written as at most eleven instructions.
pub fn rows_are_short()
    ensures { (here : Run) (r : LineRow) → length (written_row here r) ≤ 11 }
{}

/// A row that differs from the one before it in its position and its line alone is one byte, where
/// a special opcode has both its line advance and its operation advance; and two bytes at most,
/// where a special opcode has them with the advance of const_add_pc taken off.
pub fn moving_rows_are_short()
    ensures one { (here : Run) (r : LineRow) →
        IsMove here r → SpecialSuffices here r → row_size here r ≡ 1 }
    ensures two { (here : Run) (r : LineRow) →
        IsMove here r → SpecialAndConstantSuffice here r → row_size here r ≤ 2 }
{}

/// The instructions of a program, run from the registers of a start, give its rows and nothing
/// else, under the same conditions.
pub fn program_runs()
    ensures { (p : Built) → CanRun p → run_of_program p ≡ map row (program_rows p) }
{}

/// The bytes of built items, where they are written, are the spellings of their instructions, one
/// after the other.
pub fn items_are_spelled()
    ensures { (u : UnitReader) (here : Run) (items : List BuiltItem) → AreWritable u here items →
        IfOk (bytes_of_items u here items) (AreSpelled u (written_items here items)) }
{}

/// No instruction of built items defines a file.
pub fn items_define_no_file()
    ensures { (here : Run) (items : List BuiltItem) →
        All (λ i. defines_file i ≡ false) (written_items here items) }
{}

/// So the rows of a written unit take no memory. Where the program of a header is the instructions
/// of a built one, as `ReadsBack` has it, none of these defines a file, nor does any that is left
/// once the run has gone on. Then `next_row` is refused by `AddressOverflow` alone, never by
/// `OutOfMemory`.
pub fn written_rows_take_no_memory()
    ensures start { (source : HeaderSource) (h : Header) (p : Built) → DecodesAs source.layout h p →
        (appends : Bool) → DefinesNoFile (program_started appends h source) }
    ensures goes { (old new : RunState) (events : List Event) → DefinesNoFile old →
        PassesOver old new events → DefinesNoFile new }
    ensures refused { (old new : RunState) (e : Error) → DefinesNoFile old →
        FaultIs live_events (with_reset_row old) new e → e ≡ AddressOverflow }
{}

/// `==` is true for two texts, and for two ids, exactly where they are the same text and the same
/// index; and for what is known of two files where they have the same timestamp, size and digest,
/// and the same text or none as source.
pub fn equal_texts_and_files()
    ensures text { (s t : LineString) →
        Decides (⟦<LineString as PartialEq>⟧.eq s t) (line_text s ≡ line_text t) }
    ensures info { (a b : FileInfo) →
        Decides (⟦<FileInfo as PartialEq>⟧.eq a b) (details a ≡ details b) }
    ensures directory { (i j : ℕ) → Decides (⟦<DirectoryId as PartialEq>⟧.eq i j) (i ≡ j) }
    ensures file { (i j : ℕ) → Decides (⟦<FileId as PartialEq>⟧.eq i j) (i ≡ j) }
{}

/// Equal ids hash alike.
pub fn equal_ids_hash_alike()
    ensures directory { HashAlike ⟦<DirectoryId as PartialEq>⟧.eq
        ⟦<DirectoryId as Hash>⟧.hash_input }
    ensures file { HashAlike ⟦<FileId as PartialEq>⟧.eq ⟦<FileId as Hash>⟧.hash_input }
{}

/// `==` is true for two rows, and for two items, exactly where all their parts agree.
pub fn equal_rows_and_items()
    ensures row { (a b : LineRow) → Decides (⟦<LineRow as PartialEq>⟧.eq a b) (a ≡ b) }
    ensures item { (a b : BuiltItem) → Decides (⟦<BuiltItem as PartialEq>⟧.eq a b) (a ≡ b) }
{}

/// `clone` of an id, a row or an item never fails, and returns the same.
pub fn clones_are_the_same()
    ensures directory { ClonesGiveSame ⟦<DirectoryId as Clone>⟧ }
    ensures file { ClonesGiveSame ⟦<FileId as Clone>⟧ }
    ensures row { ClonesGiveSame ⟦<LineRow as Clone>⟧ }
    ensures item { ClonesGiveSame ⟦<BuiltItem as Clone>⟧ }
{}

/// A copy of a text, of what is known of a file, or of a program says all that its source says: the
/// same text; the same time, size and digest, with the same source or none; and each part of the
/// program. The error that `?` makes of a refused copy is `OutOfMemory`, and no other.
pub fn clones_say_the_same()
    ensures text { (text copy : LineString) →
        ⟦<LineString as Clone>⟧.is_clone text copy → line_text copy ≡ line_text text }
    ensures info { (info copy : FileInfo) →
        ⟦<FileInfo as Clone>⟧.is_clone info copy → details copy ≡ details info }
    ensures program { IsSameClone ⟦<LineProgram as Clone>⟧.is_clone }
    ensures memory { (refused : AllocError) (e : WriteError) →
        ⟦<gimli_bytes::Error as From<AllocError>>⟧.from_gives refused e → e ≡ OutOfMemory }
{}

/// The same text hashes alike, wherever it lies in memory.
pub fn equal_texts_hash_alike()
    ensures { (s t : LineString) → line_text s ≡ line_text t →
        ⟦<LineString as Hash>⟧.hash_input s ≡ ⟦<LineString as Hash>⟧.hash_input t }
{}

/// Where each sum that a linker makes fits its size, a unit whose relocations are applied has the
/// bytes that are written, as numbers, for the same program with its symbols replaced. An offset of
/// a text is what the linker makes of it, and the number itself where its section begins at 0.
pub fn placed_units_are_numbers()
    ensures counted { (at : Placement) (is_big : Bool) (unit : Encoding) (p : Built)
        (handed : StringTables) → SumsFit at p (texts_after p handed) →
        unit_bytes (placed at) is_big unit p handed
        ≡ unit_bytes (counted at) is_big unit (placed_program at p) handed }
    ensures plain { (at : Placement) (is_big : Bool) (unit : Encoding) (p : Built)
        (handed : StringTables) → SumsFit at p (texts_after p handed) → TextsBeginAtZero at →
        unit_bytes (placed at) is_big unit p handed
        ≡ unit_bytes plain is_big unit (placed_program at p) handed }
{}

/// The texts that a program refers to are found, as `reads_back` of `write` asks, in two kinds of
/// sections: those that have the bytes of the tables after others, where references count from the
/// start of these bytes; and those that are just these bytes, by references as they are.
pub fn texts_are_found()
    ensures placed { (at : Placement) (sections : Sections) (texts : StringTables) →
        HasTable sections.strings (at.section DebugStr) texts.strings →
        HasTable sections.line_strings (at.section DebugLineStr) texts.line_strings →
        (t : LineText) → IsFound sections at texts t }
    ensures written { (sections : Sections) (texts : StringTables) →
        sections.strings ≡ table_bytes texts.strings →
        sections.line_strings ≡ table_bytes texts.line_strings →
        (t : LineText) → IsFound sections unplaced texts t }
{}

/// Apart from memory and its writer's own refusals, `write` is refused for the first cause in the
/// order of what is written, where addresses have 1, 2, 4 or 8 bytes, as those of each program do.
pub fn first_cause_is_refusal()
    ensures { (is_big : Bool) (unit : Encoding) (p : Built) (handed : StringTables) →
        IsTrue (is_address_size p.encoding.address_size) →
        first_cause is_big unit p handed ≡ refusal (unit_bytes plain is_big unit p handed) }
{}

/// The error that `first_refusal` returns is that of the first cause for which `write` is refused:
/// of the program itself where symbols are refused; and where they are taken, of the program with
/// the address 0 in place of each symbol. `write` into a vector is refused for that first cause, or
/// for memory.
pub fn first_refusal_is_first_cause()
    ensures { (symbols : Symbols) (is_big : Bool) (unit : Encoding) (p : Built)
        (handed : StringTables) → CanWrite p handed →
        option_map error_of (first_refusal symbols is_big unit p handed)
        ≡ first_cause is_big unit (program_seen symbols p) handed }
{}
