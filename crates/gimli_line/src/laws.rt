//! Laws of the two grammars: a unit has one header or one refusal, a program is decoded in one way.
//! And laws of what a run gives.

ghost use Rattle.std.specs.Prelude.{◌≡◌, ◌≢◌, ◌≤◌, ◌<◌, ◌⊎◌, ◌+◌, ◌^◌, ℕ, Bool, true, List, []};
ghost use Rattle.std.specs.Prelude.{◌∷◌, Option, Some, None, length, nat_eq, option_map};
ghost use Rattle.std.specs.Ordering.{nat_cmp};
ghost use Rattle.gimli_core.specs.Equality.{AreAlwaysCloned, ClonesGiveSame, ComparesBy, IsExact};
ghost use Rattle.gimli_core.specs.Equality.{IsSameClone};
ghost use Rattle.gimli_core.specs.Layout.{OrderAndLimit};
ghost use Rattle.gimli_core.specs.Values.{value_by};
ghost use Rattle.gimli_core.specs.declared.common.Format.{Format};
ghost use Rattle.gimli_core.specs.declared.error.Error.{Error};
ghost use Rattle.gimli_line.specs.header.File.{File, file_by};
ghost use Rattle.gimli_line.specs.header.Header.{Header, UnitEntry};
ghost use Rattle.gimli_line.specs.header.Orders.{HeaderSource};
ghost use Rattle.gimli_line.specs.header.HeaderParts.{ComparesParts, ComparesSeen, entry_count};
ghost use Rattle.gimli_line.specs.header.HeaderParts.{parts_of};
ghost use Rattle.gimli_line.specs.header.HeaderGrammar.{SpellsUnit, HasUnitFault};
ghost use Rattle.gimli_line.specs.header.HeaderGrammar.{HaveCountedEntries};
ghost use Rattle.gimli_line.specs.run.Events.{Event, Events, made_after, events_after, row_at};
ghost use Rattle.gimli_line.specs.run.Events.{files_at};
ghost use Rattle.gimli_line.specs.run.Instruction.{Ins, ins_by, makes_row};
ghost use Rattle.gimli_line.specs.run.Events.{events_of};
ghost use Rattle.gimli_line.specs.run.EventsWithFiles.{EventsWithFiles};
ghost use Rattle.gimli_line.specs.run.InstructionGrammar.{
  Decodes,
  AreDecodedOnce,
  instruction_production,
  IsInstructionRefusal,
};
ghost use Rattle.gimli_line.specs.run.InstructionGrammar.{decoded_at};
ghost use Rattle.gimli_line.specs.run.OperationPointer.{is_under_tombstone, overflows};
ghost use Rattle.gimli_line.specs.run.OperationPointer.{OperationPointer, advanced_by};
ghost use Rattle.gimli_line.specs.run.OperationPointer.{advanced_by_formula};
ghost use Rattle.gimli_line.specs.run.Passing.{RunState};
ghost use Rattle.gimli_line.specs.run.Rows.{events_left, start_of_run};
ghost use Rattle.gimli_line.specs.run.Rows.{GivesEvents, GivesFiles};
ghost use Rattle.gimli_line.specs.run.Unread.{Unread};
ghost use Rattle.gimli_line.specs.run.Machine.{initial, is_refused, made_from};
ghost use Rattle.gimli_line.specs.run.Machine.{registers_after, registers_at};
ghost use Rattle.gimli_line.specs.run.Sequences.{AreOneSequence, NeverBelow};
ghost use Rattle.gimli_line.specs.header.Parameters.{Parameters};
ghost use Rattle.gimli_line.specs.run.Row.{column_number};
ghost use Rattle.gimli_line.specs.Units.{AreUnits, AreUnitsOnce, offset_after};
ghost use Rattle.gimli_line.specs.declared.header.file_entry.FileEntryFormat.{FileEntryFormat};
ghost use Rattle.gimli_line.specs.declared.run.row.ColumnType.{ColumnType as Column};

use crate::debug_line::DebugLine;
use crate::header::file_entry::{FileEntry, FileEntryFormat};
use crate::header::program_header::LineProgramHeader;
use crate::run::instruction::{LineInstruction, LineInstructions};
use crate::run::program::{CompleteLineProgram, IncompleteLineProgram};
use crate::run::row::{ColumnType, LineRow};
use crate::run::sequences::LineSequence;
use gimli_core::laws::{equal_encodings_are_same, equal_values_are_same, equal_values_look_same};
use gimli_core::{AttributeValue, Reader};

/// Bytes begin with a unit, or they have a refusal.
pub fn unit_or_refusal()
    ensures { (layout : OrderAndLimit) (entry : UnitEntry) (bytes : List ℕ) →
        ((h : Header) × SpellsUnit layout entry bytes h)
        ⊎ ((e : Error) × HasUnitFault layout entry bytes e) }
{}

/// They don't have both, and not two headers or two refusals.
pub fn one_unit_or_refusal()
    ensures both { (layout : OrderAndLimit) (entry : UnitEntry) (bytes : List ℕ) →
        (h : Header) (e : Error)
        → SpellsUnit layout entry bytes h → HasUnitFault layout entry bytes e → ⊥ }
    ensures header { (layout : OrderAndLimit) (entry : UnitEntry) (bytes : List ℕ) (h k : Header)
        → SpellsUnit layout entry bytes h → SpellsUnit layout entry bytes k → h ≡ k }
    ensures refusal { (layout : OrderAndLimit) (entry : UnitEntry) (bytes : List ℕ) (e d : Error) →
        HasUnitFault layout entry bytes e → HasUnitFault layout entry bytes d → e ≡ d }
{}

/// The bytes of a section have one list of offsets of units.
pub fn one_list_of_units()
    ensures some { (layout : OrderAndLimit) (offset : ℕ) (bytes : List ℕ) →
        (offsets : List ℕ) × AreUnits layout offset bytes offsets }
    ensures one { (layout : OrderAndLimit) (offset : ℕ) (bytes : List ℕ) →
        AreUnitsOnce layout offset bytes }
{}

/// A unit with a header ends within its section, at the offset of the unit that follows it.
pub fn units_follow_headers()
    ensures end { (layout : OrderAndLimit) (entry : UnitEntry) (offset : ℕ) (bytes : List ℕ)
        (h : Header)
        → SpellsUnit layout entry bytes h → offset_after offset h ≤ offset + length bytes }
    ensures next { (layout : OrderAndLimit) (entry : UnitEntry) (offset next : ℕ)
        (bytes offsets : List ℕ)
        (h : Header) → SpellsUnit layout entry bytes h
        → AreUnits layout offset bytes (offset ∷ next ∷ offsets) → next ≡ offset_after offset h }
{}

/// A program is decoded into instructions, and in one way.
pub fn one_decoding()
    ensures some { (layout : OrderAndLimit) (h : Header) (bytes : List ℕ) →
        (list : List Ins) × (end : Option Error) × Decodes layout h bytes list end }
    ensures one { (layout : OrderAndLimit) (h : Header) (bytes : List ℕ) →
        AreDecodedOnce layout h bytes }
{}

/// A program has no more instructions than bytes.
pub fn instructions_are_bounded()
    ensures { (layout : OrderAndLimit) (h : Header) (bytes : List ℕ) (list : List Ins)
        (end : Option Error) → Decodes layout h bytes list end → length list ≤ length bytes }
{}

/// The entries of a table of version 5 begin with their count, which says how many they are, and at
/// least as many bytes follow it: each entry has at least one byte, since there is some format.
pub fn entries_are_bounded()
    ensures { (layout : OrderAndLimit) (format : Format) (formats : List FileEntryFormat) →
        formats ≢ [] → HaveCountedEntries layout format formats }
{}

/// Both tables of a header together have no more entries than its length counts bytes, whatever
/// they give as their counts. The bytes that the length counts and the program lie within the unit,
/// and the unit within the input.
pub fn tables_are_bounded()
    ensures entries { (layout : OrderAndLimit) (entry : UnitEntry) (bytes : List ℕ) (h : Header) →
        SpellsUnit layout entry bytes h → entry_count h ≤ h.header_length }
    ensures header { (layout : OrderAndLimit) (entry : UnitEntry) (bytes : List ℕ) (h : Header) →
        SpellsUnit layout entry bytes h → h.header_length + length h.program ≤ h.unit_length }
    ensures unit { (layout : OrderAndLimit) (entry : UnitEntry) (bytes : List ℕ) (h : Header) →
        SpellsUnit layout entry bytes h → h.unit_length ≤ length bytes }
{}

/// The machine, run from the registers at the start of a sequence, makes the rows and faults that
/// looking back says, with the files of the header at each. What rows at the start of a sequence
/// give is what looking back says of the bytes that are to come.
pub fn machine_gives_events()
    ensures machine { (appends : Bool) (parameters : Parameters) (files : List File)
        (list : List Ins) (end : Option Error)
        → made_from appends parameters (initial parameters) files list end
        ≡ made_after parameters (files_at appends files) [] list end }
    ensures started { (appends : Bool) (h : Header) (source : HeaderSource) (unread : Unread)
        → GivesEvents appends h unread (start_of_run appends h source unread) }
    ensures files { (appends : Bool) (h : Header) (source : HeaderSource) (unread : Unread)
        → GivesFiles appends h unread (start_of_run appends h source unread) }
{}

/// Between two ends of sequences, whether their rows are under a tombstone or not, and from the
/// start to the first, the addresses of rows never go down.
pub fn addresses_never_go_down()
    ensures { (parameters : Parameters) (past list : List Ins) → AreOneSequence list
        → NeverBelow 0 (events_after parameters past list None) }
{}

/// Columns are compared by their numbers; the left edge, which stands for 0, is below them all.
pub fn columns_are_ordered()
    ensures equal { (a b : Column) →
        ⟦<ColumnType as PartialEq>⟧.eq a b ≡ nat_eq (column_number a) (column_number b) }
    ensures total { (a b : Column) →
        ⟦<ColumnType as Ord>⟧.cmp a b ≡ nat_cmp (column_number a) (column_number b) }
    ensures partial { (a b : Column) → ⟦<ColumnType as PartialOrd>⟧.partial_cmp a b
        ≡ Some (nat_cmp (column_number a) (column_number b)) }
{}

/// A refused instruction is `UnexpectedEof`, `BadUnsignedLeb128` or `BadSignedLeb128`, or it is
/// `UnsupportedOffset`, for offsets of less than 64 bits.
pub fn instruction_refusals()
    ensures { (layout : OrderAndLimit) (h : Header) (bytes : List ℕ) (e : Error) →
        (instruction_production layout h).Fault bytes e → IsInstructionRefusal layout e }
{}

/// Each operation advance is the formula of DWARF 5, 6.2.5.1, also where an instruction has one
/// operation.
pub fn advances_go_by_the_formula()
    ensures { (parameters : Parameters) (n : ℕ) (p : OperationPointer) → n < 2 ^ 64
        → p.op_index < parameters.line_encoding.maximum_operations_per_instruction
        → advanced_by parameters n p ≡ advanced_by_formula parameters n p }
{}

/// `==` of the formats of tables, and of rows, holds exactly where all parts of the two agree.
pub fn equal_parts_are_same()
    ensures formats { IsExact ⟦<FileEntryFormat as PartialEq>⟧.eq }
    ensures rows { IsExact ⟦<LineRow as PartialEq>⟧.eq }
{}

/// `==` of files holds exactly where all their parts agree, if this is so of readers and of
/// offsets. It isn't so of readers over slices, since a slice is also a place in memory: for files
/// over these see `equal_files_look_same`.
pub fn equal_files_are_same<R: Reader + PartialEq>()
    ensures { IsExact R.eq → IsExact R.Offset.eq → IsExact ⟦<FileEntry<R> as PartialEq>⟧.eq }
{
    equal_values_are_same::<R>();
    equal_sources_are_same::<R>();
    equal_digests_are_same();
}

/// The same of the source texts of files.
fn equal_sources_are_same<R: Reader + PartialEq>()
    ensures { IsExact R.eq → IsExact R.Offset.eq
        → IsExact ⟦<Option<AttributeValue<R>> as PartialEq>⟧.eq }
{
    equal_values_are_same::<R>();
}

/// The same of digests.
fn equal_digests_are_same()
    ensures { IsExact ⟦<[u8; 16] as PartialEq>⟧.eq }
{}

/// `==` of files holds exactly where all their parts agree, readers in their bytes and order and
/// offsets in their numbers, if this is so of readers and of offsets. It is so of readers over
/// slices (gimli_core's `equal_slices_are_same`).
pub fn equal_files_look_same<R: Reader + PartialEq>()
    ensures { ComparesBy R.seen R.eq → ComparesBy R.Offset.number R.Offset.eq →
        ComparesBy (file_by R.seen R.Offset.number) ⟦<FileEntry<R> as PartialEq>⟧.eq }
{
    equal_values_look_same::<R>();
    equal_sources_look_same::<R>();
    equal_digests_are_same();
}

/// The same of the source texts of files.
fn equal_sources_look_same<R: Reader + PartialEq>()
    ensures { ComparesBy R.seen R.eq → ComparesBy R.Offset.number R.Offset.eq →
        ComparesBy (option_map (value_by R.seen R.Offset.number))
        ⟦<Option<AttributeValue<R>> as PartialEq>⟧.eq }
{
    equal_values_look_same::<R>();
}

/// `==` of instructions holds exactly where they are of one kind and agree in their operands, if
/// this is so of readers and of offsets. For instructions over slices see
/// `equal_instructions_look_same`.
pub fn equal_instructions_are_same<R: Reader + PartialEq>()
    ensures { IsExact R.eq → IsExact R.Offset.eq → IsExact ⟦<LineInstruction<R> as PartialEq>⟧.eq }
{
    equal_files_are_same::<R>();
}

/// `==` of instructions holds exactly where they are of one kind and agree in their operands,
/// readers in their bytes and order and offsets in their numbers, if this is so of readers and of
/// offsets, as it is of readers over slices.
pub fn equal_instructions_look_same<R: Reader + PartialEq>()
    ensures { ComparesBy R.seen R.eq → ComparesBy R.Offset.number R.Offset.eq →
        ComparesBy (ins_by R.seen R.Offset.number)
        ⟦<LineInstruction<R> as PartialEq>⟧.eq }
{
    equal_files_look_same::<R>();
}

/// `==` of headers holds exactly where all their parts agree, if this is so of readers and of
/// offsets. For headers over slices see `equal_headers_look_same`.
pub fn equal_headers_are_same<R: Reader + PartialEq>()
    ensures { IsExact R.eq → IsExact R.Offset.eq
        → ComparesParts ⟦<LineProgramHeader<R> as PartialEq>⟧.eq }
{
    equal_values_are_same::<R>();
    equal_files_are_same::<R>();
    equal_encodings_are_same();
    equal_parts_are_same();
}

/// `==` of headers holds exactly where all their parts agree, readers in their bytes and order and
/// offsets in their numbers, if this is so of readers and of offsets, as it is of readers over
/// slices.
pub fn equal_headers_look_same<R: Reader + PartialEq>()
    ensures { ComparesBy R.seen R.eq → ComparesBy R.Offset.number R.Offset.eq →
        ComparesSeen R.seen R.Offset.number ⟦<LineProgramHeader<R> as PartialEq>⟧.eq }
{
    equal_values_look_same::<R>();
    equal_files_look_same::<R>();
    equal_encodings_are_same();
    equal_parts_are_same();
}

/// Headers that agree in all their parts say the same, in the same layout.
pub fn same_parts_say_same<R: Reader>(x: &LineProgramHeader<R>, y: &LineProgramHeader<R>)
    ensures meaning { parts_of x.now ≡ parts_of y.now → x.now.meaning ≡ y.now.meaning }
    ensures layout { parts_of x.now ≡ parts_of y.now → x.now.layout ≡ y.now.layout }
{
    // For the prover alone: what is true of a header is known once a field is read.
    let _first = x.parameters;
    let _second = y.parameters;
}

/// `==` of programs holds exactly where their headers agree in all parts, if this is so of readers
/// and of offsets. For programs over slices see `equal_programs_look_same`.
pub fn equal_programs_are_same<R: Reader + PartialEq>()
    ensures incomplete { IsExact R.eq → IsExact R.Offset.eq
        → ComparesParts ⟦<IncompleteLineProgram<R> as PartialEq>⟧.eq }
    ensures complete { IsExact R.eq → IsExact R.Offset.eq
        → ComparesParts ⟦<CompleteLineProgram<R> as PartialEq>⟧.eq }
{
    equal_headers_are_same::<R>();
}

/// `==` of programs holds exactly where all parts of their headers agree, readers in their bytes
/// and order and offsets in their numbers, if this is so of readers and of offsets, as it is of
/// readers over slices.
pub fn equal_programs_look_same<R: Reader + PartialEq>()
    ensures parsed { ComparesBy R.seen R.eq
        → ComparesBy R.Offset.number R.Offset.eq →
        ComparesSeen R.seen R.Offset.number ⟦<IncompleteLineProgram<R> as PartialEq>⟧.eq }
    ensures whole { ComparesBy R.seen R.eq → ComparesBy R.Offset.number R.Offset.eq
        →
        ComparesSeen R.seen R.Offset.number ⟦<CompleteLineProgram<R> as PartialEq>⟧.eq }
{
    equal_headers_look_same::<R>();
}

/// `clone` of a file or of an instruction gives the same, and so does `clone` of a section, of
/// instructions to come or of a sequence, if this is so of readers.
pub fn clones_are_same<R: Reader>()
    ensures files { IsSameClone ⟦<FileEntry<R> as Clone>⟧.is_clone }
    ensures instructions { IsSameClone ⟦<LineInstruction<R> as Clone>⟧.is_clone }
    ensures sections { IsSameClone R.is_clone → IsSameClone ⟦<DebugLine<R> as Clone>⟧.is_clone }
    ensures unread { IsSameClone R.is_clone
        → IsSameClone ⟦<LineInstructions<R> as Clone>⟧.is_clone }
    ensures sequences { IsSameClone R.is_clone
        → IsSameClone ⟦<LineSequence<R> as Clone>⟧.is_clone }
{}

/// `clone` of a file or of an instruction is never refused, nor is that of the others, if this is
/// so of readers.
pub fn clones_are_given<R: Reader>()
    ensures files { AreAlwaysCloned ⟦<FileEntry<R> as Clone>⟧.is_infallible }
    ensures instructions { AreAlwaysCloned ⟦<LineInstruction<R> as Clone>⟧.is_infallible }
    ensures sections { AreAlwaysCloned R.is_infallible
        → AreAlwaysCloned ⟦<DebugLine<R> as Clone>⟧.is_infallible }
    ensures unread { AreAlwaysCloned R.is_infallible
        → AreAlwaysCloned ⟦<LineInstructions<R> as Clone>⟧.is_infallible }
    ensures sequences { AreAlwaysCloned R.is_infallible
        → AreAlwaysCloned ⟦<LineSequence<R> as Clone>⟧.is_infallible }
{}

/// `clone` of rows, of columns and of the formats of tables is never refused, and gives the same.
pub fn clones_of_rows_are_same()
    ensures rows { ClonesGiveSame ⟦<LineRow as Clone>⟧ }
    ensures columns { ClonesGiveSame ⟦<ColumnType as Clone>⟧ }
    ensures formats { ClonesGiveSame ⟦<FileEntryFormat as Clone>⟧ }
{}

/// A run gives no more rows and refusals together than its program has bytes. Rows on their way
/// give no more than there are bytes left.
pub fn rows_are_bounded()
    ensures events { (layout : OrderAndLimit) (h : Header) (bytes : List ℕ) (events : List Event)
        → Events layout h bytes events → length events ≤ length bytes }
    ensures files { (n : OrderAndLimit) (appends : Bool) (h : Header) (bytes : List ℕ) (events : _)
        → EventsWithFiles n appends h bytes events → length events ≤ length bytes }
    ensures left { (rows : RunState) → length (events_left rows) ≤ length rows.unread.bytes }
{}

/// The events that a run gives with the files at each are, without these, the events of its bytes:
/// so it is of what the rows of a program give, and of what a sequence gives that is resumed.
pub fn files_change_no_events()
    ensures { (layout : OrderAndLimit) (appends : Bool) (h : Header) (bytes : List ℕ) (events : _)
        → EventsWithFiles layout appends h bytes events → Events layout h bytes (events_of events) }
{}

/// The default section holds the default contents.
pub fn default_sections_are_default<R: Default>()
    ensures { (section : _) → ⟦<DebugLine<R> as Default>⟧.is_default section
        → R.is_default section }
{}

/// The instructions and the end that are taken of a program one by one are those that it is decoded
/// into.
pub fn instructions_are_taken()
    ensures { (layout : OrderAndLimit) (h : Header) (bytes : List ℕ) →
        Decodes layout h bytes (decoded_at layout h bytes).0 (decoded_at layout h bytes).1 }
{}

/// The registers that the machine has after a past are what looking back says: which instruction is
/// refused, what is under a tombstone, and which row a place makes.
pub fn registers_look_back()
    ensures refused { (parameters : Parameters) (past : List Ins) (i : Ins) →
        is_refused parameters i (registers_after parameters past) ≡ overflows parameters past i }
    ensures tombstone { (parameters : Parameters) (past : List Ins) →
        (registers_after parameters past).tombstone ≡ is_under_tombstone parameters past }
    ensures row { (parameters : Parameters) (past : List Ins) (i : Ins) →
        makes_row i ≡ true → registers_at parameters past i ≡ row_at parameters past i }
{}
