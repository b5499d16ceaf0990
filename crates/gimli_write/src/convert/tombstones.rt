//! Whether a sequence of a program ends under a tombstone.

ghost use Rattle.std.specs.Prelude.{◌≡◌, ◌↔◌, IsTrue};
ghost use Rattle.gimli_line.specs.run.Instruction.{ins_seen, is_end, makes_row};
ghost use Rattle.gimli_line.specs.run.Machine.{IsAllowed, is_refused, next_registers, step_of};
ghost use Rattle.gimli_write.specs.convert.Mapped.{NoSequenceEndsUnderTombstone};
ghost use Rattle.gimli_write.specs.inside.convert.Tombstones.{watched, first_watched, WatchSays};
ghost use Rattle.gimli_write.specs.inside.convert.Tombstones.{gave_after, hides};

use gimli_core::{Reader, Result};
use gimli_line::{
    FileEntry, IncompleteLineProgram, LineInstruction, LineInstructions, LineProgram,
    LineProgramHeader, LineRow,
};

/// A header that is lent, whose list of files stays as it is.
#[derive(Drop)]
struct LentHeader<'a, R: Reader> {
    header: &'a LineProgramHeader<R>,
}

impl<'a, R: Reader> LineProgram<R> for LentHeader<'a, R> {
    ghost use Rattle.std.specs.Prelude.{◌≡◌, true, false, IsOk, OnOk, OnErr, IfErr};
    ghost use Rattle.gimli_core.specs.declared.error.Error.TheVariants.{OutOfMemory};
    ghost use Rattle.gimli_line.specs.header.File.{FileHasOrder};
    ghost use Rattle.gimli_line.specs.header.Orders.{source_of, KeepsSource};

    ghost meaning = { λ p. p.header.now.meaning };

    ghost source = { λ p. source_of R.seen R.Offset.number p.header.now };

    ghost appends = { false };

    fn header(&self) -> &LineProgramHeader<R> {
        self.header
    }

    fn add_file(&mut self, _file: FileEntry<R>) -> Result<()>
        ensures ok { OnOk result (self.new.header.now.meaning ≡ self.old.header.now.meaning) }
        ensures err { OnErr result (self.new.header.now.meaning ≡ self.old.header.now.meaning) }
        ensures memory { IfErr result (λ e. (e ≡ OutOfMemory) × (false ≡ true)) }
        ensures source { KeepsSource (λ order. false ≡ true → FileHasOrder R.seen order _file)
            (source_of R.seen R.Offset.number self.old.header.now)
            (source_of R.seen R.Offset.number self.new.header.now) }
        ensures only { IsOk result }
    {
        Ok(())
    }
}

/// Whether an instruction ends a sequence.
fn ends_sequence<R: Reader>(instruction: &LineInstruction<R>) -> bool
    ensures { result ≡ is_end (ins_seen R.seen R.Offset.number instruction.now) }
{
    match instruction {
        LineInstruction::EndSequence => true,
        _ => false,
    }
}

/// Whether an instruction makes a row, under a tombstone or not.
fn gives_row<R: Reader>(instruction: &LineInstruction<R>) -> bool
    ensures { result ≡ makes_row (ins_seen R.seen R.Offset.number instruction.now) }
{
    match instruction {
        LineInstruction::Special(_) | LineInstruction::Copy | LineInstruction::EndSequence => true,
        _ => false,
    }
}

/// A point of a program.
#[derive(Drop)]
struct Watch<R: Reader> {
    row: LineRow,
    /// Whether the sequence has a row that isn't under a tombstone.
    gave_row: bool,
    instructions: LineInstructions<R>,
}

impl<R: Reader> Watch<R> {
    /// The start of a program.
    fn start(header: &LineProgramHeader<R>) -> Self
        ensures { watched result ≡ first_watched header.now.meaning
            (record { bytes = header.now.meaning.program; layout = header.now.layout }) }
    {
        Watch {
            row: LineRow::new(header),
            gave_row: false,
            instructions: header.instructions(),
        }
    }

    /// Takes the next instruction, and says whether it ends a sequence under a tombstone that gave
    /// a row. None where there is none, or none that can be read.
    fn step(&mut self, header: &LineProgramHeader<R>) -> Option<bool>
        ensures { WatchSays header.now.meaning (watched self.old) (watched self.new) result }
    {
        match self.instructions.next_instruction(header) {
            Err(_) => None,
            Ok(None) => None,
            Ok(Some(instruction)) => Some(self.execute(instruction, header)),
        }
    }

    /// Executes an instruction, and says whether it ends a sequence under a tombstone that gave a
    /// row. An address that would be too large stays, as it does where rows are read.
    fn execute(&mut self, instruction: LineInstruction<R>, header: &LineProgramHeader<R>) -> bool
        requires { IsAllowed header.now.meaning.parameters
            (ins_seen R.seen R.Offset.number instruction) }
        ensures hides { result
            ≡ hides (ins_seen R.seen R.Offset.number instruction) self.old.row self.old.gave_row }
        ensures row { self.new.row ≡ next_registers header.now.meaning.parameters
            (ins_seen R.seen R.Offset.number instruction) self.old.row }
        ensures gave { self.new.gave_row ≡ gave_after
            (ins_seen R.seen R.Offset.number instruction) self.old.row self.old.gave_row }
        ensures unread { self.new.instructions ≡ self.old.instructions }
    {
        let ends = ends_sequence(&instruction);
        let made = gives_row(&instruction);
        let hidden = self.row.is_under_tombstone();
        let hides = ends && hidden && self.gave_row;
        self.gave_row = !ends && (made && !hidden || self.gave_row);
        let refused = execute_on(&mut self.row, instruction, header);
        if refused || made {
            self.row.reset(header);
        }
        hides
    }
}

/// Executes an instruction on registers, and says whether it is refused.
fn execute_on<R: Reader>(
    row: &mut LineRow,
    instruction: LineInstruction<R>,
    header: &LineProgramHeader<R>,
) -> bool
    requires { IsAllowed header.now.meaning.parameters
        (ins_seen R.seen R.Offset.number instruction) }
    ensures refused { result ≡ is_refused header.now.meaning.parameters
        (ins_seen R.seen R.Offset.number instruction) row.old }
    ensures row { row.new ≡ step_of header.now.meaning.parameters
        (ins_seen R.seen R.Offset.number instruction) row.old }
{
    row.execute(instruction, &mut LentHeader { header })
        .is_err()
}

/// Whether no sequence of a program that gave a row ends under a tombstone. A conversion drops what
/// is under one, so such a sequence would lose its end, and the rows of the next would run on in
/// it. This is the condition on the source under which a conversion is faithful (`convert_program`,
/// `convert_and_read_back`). Takes no memory, and never fails: what can't be read of a program has
/// no sequences.
pub fn no_sequence_ends_under_tombstone<R: Reader>(program: &IncompleteLineProgram<R>) -> bool
    ensures { IsTrue result ↔ NoSequenceEndsUnderTombstone program.now.layout program.now.meaning
        program.now.meaning.program }
{
    let header = program.header();
    let mut watch = Watch::start(header);
    'points: loop {
        match watch.step(header) {
            None => return true,
            Some(true) => return false,
            Some(false) => {}
        }
    }
}
