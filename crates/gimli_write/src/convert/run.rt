//! The run over a source: its registers, and where its addresses count from.

ghost use Rattle.std.specs.Prelude.{◌≡◌, if◌then◌else◌, true, false, None, IfErr, IfOk, OnOk};
ghost use Rattle.gimli_core.specs.declared.error.Error.TheVariants.{AddressOverflow};

use crate::convert_error::{ConvertError, ConvertResult};
use gimli_build::{FileId, LineRow as BuiltRow};
use gimli_core::Reader;
use gimli_line::{
    Executed, FileEntry, IncompleteLineProgram, LineInstruction, LineInstructions, LineRow,
};
use std::marker::Model;

/// A row of the source that isn't under a tombstone.
#[derive(Clone, Copy, Debug)]
pub(crate) struct SourceRow {
    /// The address that was set after the row before it, if one was.
    pub(crate) set_address: Option<u64>,
    /// How many bytes it is after the address that was last set in the sequence, or after 0 where
    /// none was.
    pub(crate) address_offset: u64,
    /// The registers.
    pub(crate) row: LineRow,
}

impl SourceRow {
    ghost use Rattle.gimli_write.specs.convert.Items.{row_in};

    /// The row as it is built, with this file.
    pub(crate) fn built_row(&self, file: FileId) -> BuiltRow
        ensures { result ≡ row_in self.now file }
    {
        let row = &self.row;
        BuiltRow {
            address_offset: self.address_offset,
            op_index: row.op_index(),
            file,
            line: match row.line() {
                Some(line) => line.get(),
                None => 0,
            },
            column: row.column().number(),
            discriminator: row.discriminator(),
            is_statement: row.is_stmt(),
            basic_block: row.basic_block(),
            prologue_end: row.prologue_end(),
            epilogue_begin: row.epilogue_begin(),
            isa: row.isa(),
        }
    }
}

/// What one instruction of the source did.
pub(crate) enum SourceStep<R: Reader> {
    /// There was none.
    Done,
    /// It gave nothing.
    More,
    /// It defines a file, which isn't added to the source's own.
    Defines(FileEntry<R>),
    /// It made a row that isn't under a tombstone.
    Made(SourceRow),
}

impl<R: Reader> SourceStep<R> {
    /// The step of an instruction that made a row, which may be under a tombstone.
    fn of_row(row: SourceRow) -> Self
        ensures { result ≡ (if row.row.tombstone then SourceStep.More else SourceStep.Made row) }
    {
        if row.row.is_under_tombstone() {
            SourceStep::More
        } else {
            SourceStep::Made(row)
        }
    }
}

/// The address from which offsets count after a row, which may end its sequence.
fn base_after_row(base: u64, ends: bool) -> u64
    ensures { result ≡ (if ends then 0 else base) }
{
    if ends { 0 } else { base }
}

/// A source, as far as it was read.
#[derive(Drop)]
#[derive_where(Debug; R, R::Offset)]
pub(crate) struct SourceRun<R: Reader> {
    program: IncompleteLineProgram<R>,
    /// The registers, ready for the next instruction.
    row: LineRow,
    instructions: LineInstructions<R>,
    /// The address that was last set in the sequence, under a tombstone or not; else 0.
    base: u64,
    /// The address that was set after the last point that made a row, under a tombstone or not.
    pending: Option<u64>,
}

impl<R: Reader> Model for SourceRun<R> {
    ghost use Rattle.std.specs.Prelude.{◌≡◌, false};
    ghost use Rattle.gimli_write.specs.convert.SourceRun.{SourceRun};

    ghost Value = { SourceRun };

    ghost view = { λ a. record {
      header = a.program.meaning;
      row = a.row;
      base = a.base;
      pending = a.pending;
      unread = a.instructions;
    } };

    ghost invariant = { λ a. a.row.end_sequence ≡ false };
}

impl<R: Reader> SourceRun<R> {
    ghost use Rattle.gimli_line.specs.run.Instruction.{ins_seen, defines_file};
    ghost use Rattle.gimli_line.specs.run.Machine.{IsAllowed, is_refused};
    ghost use Rattle.gimli_build.specs.Texts.{Sections};
    ghost use Rattle.gimli_write.specs.convert.SourceTables.{TablesAndTexts};
    ghost use Rattle.gimli_write.specs.convert.Items.{address_operand, ReadsItems};
    ghost use Rattle.gimli_write.specs.convert.SourceRun.{
      start_of_source,
      state_after,
      reading_left,
    };
    ghost use Rattle.gimli_write.specs.inside.convert.SourceRun.{
      source_row,
      step_made,
      StepsSource,
    };

    /// The source, from its start on.
    pub(crate) fn start(program: IncompleteLineProgram<R>) -> Self
        ensures start { result ≡ start_of_source program.meaning
            (record { bytes = program.meaning.program; layout = program.layout }) }
        ensures reads { (sections : Sections) (first : TablesAndTexts) →
            ReadsItems program.layout sections program.meaning first program.meaning.program
            (reading_left sections result first) }
    {
        let header = program.header();
        let row = LineRow::new(header);
        let instructions = header.instructions();
        SourceRun {
            program,
            row,
            instructions,
            base: 0,
            pending: None,
        }
    }

    /// The version of the source.
    pub(crate) fn version(&self) -> u16
        ensures { result ≡ self.now.header.parameters.encoding.version }
    {
        self.program.header().version()
    }

    /// Takes the next instruction and executes it, unless it defines a file. Refused by `Read`, as
    /// the instruction is, or by `AddressOverflow`. Takes no memory.
    #[inline(always)]
    pub(crate) fn step(&mut self) -> ConvertResult<SourceStep<R>>
        ensures { StepsSource R.seen R.Offset.number self.old self.new result }
    {
        let header = self.program.header();
        let executed = match self.instructions.execute_next(header, &mut self.row) {
            Ok(executed) => executed,
            Err(e) => return Err(ConvertError::Read(e)),
        };
        match executed {
            Executed::No => self.step_parsed(),
            Executed::Quiet => Ok(SourceStep::More),
            Executed::Address(address) => {
                self.base = address;
                self.pending = Some(address);
                Ok(SourceStep::More)
            }
            Executed::Row => {
                let row = self.row;
                self.row.reset(self.program.header());
                Ok(self.made(row))
            }
        }
    }

    /// Does what `step` does, of an instruction as it is parsed.
    fn step_parsed(&mut self) -> ConvertResult<SourceStep<R>>
        ensures { StepsSource R.seen R.Offset.number self.old self.new result }
    {
        let instruction = match self.instructions.next_instruction(self.program.header()) {
            Err(e) => return Err(ConvertError::Read(e)),
            Ok(None) => return Ok(SourceStep::Done),
            Ok(Some(instruction)) => instruction,
        };
        match instruction {
            LineInstruction::DefineFile(file) => Ok(SourceStep::Defines(file)),
            LineInstruction::SetAddress(address) => {
                self.set_address(address);
                Ok(SourceStep::More)
            }
            _ => self.execute(instruction),
        }
    }

    /// Sets the address, which may be a tombstone for what follows.
    fn set_address(&mut self, address: u64)
        ensures { self.new ≡ state_after (LineInstruction.SetAddress address) self.old }
    {
        self.base = address;
        self.pending = Some(address);
        let set_address = LineInstruction::SetAddress(address);
        let _never_refused = self.row.execute(set_address, &mut self.program);
    }

    /// Executes an instruction, which doesn't set an address and defines no file. Refused by
    /// `AddressOverflow`.
    fn execute(&mut self, instruction: LineInstruction<R>) -> ConvertResult<SourceStep<R>>
        requires allowed { IsAllowed self.old.header.parameters
            (ins_seen R.seen R.Offset.number instruction) }
        requires address { address_operand (ins_seen R.seen R.Offset.number instruction) ≡ None }
        requires file { defines_file (ins_seen R.seen R.Offset.number instruction) ≡ false }
        ensures fits { OnOk result (is_refused self.old.header.parameters
            (ins_seen R.seen R.Offset.number instruction) self.old.row ≡ false) }
        ensures step { OnOk result
            (self.new ≡ state_after (ins_seen R.seen R.Offset.number instruction) self.old) }
        ensures made { IfOk result (λ step.
            step ≡ step_made self.old (ins_seen R.seen R.Offset.number instruction)) }
        ensures overflow { IfErr result (λ e. (e ≡ ConvertError.Read AddressOverflow)
            × (is_refused self.old.header.parameters
            (ins_seen R.seen R.Offset.number instruction) self.old.row ≡ true)) }
        ensures header { self.new.header ≡ self.old.header }
        ensures unread { self.new.unread ≡ self.old.unread }
    {
        let made = match self.row.execute(instruction, &mut self.program) {
            Ok(made) => made,
            Err(e) => return Err(ConvertError::Read(e)),
        };
        if !made {
            return Ok(SourceStep::More);
        }
        let row = self.row;
        self.row.reset(self.program.header());
        Ok(self.made(row))
    }

    /// The step of an instruction that made this row, which may be under a tombstone and may end
    /// its sequence; the registers are ready for what follows it.
    #[inline(always)]
    fn made(&mut self, row: LineRow) -> SourceStep<R>
        ensures step { result ≡ (if row.tombstone then SourceStep.More
            else SourceStep.Made (source_row self.old row)) }
        ensures new { self.new ≡ record self.old {
          base = if row.end_sequence then 0 else self.old.base;
          pending = None;
        } }
    {
        let source_row = SourceRow {
            set_address: self.pending,
            address_offset: row.address().saturating_sub(self.base),
            row,
        };
        self.base = base_after_row(self.base, row.end_sequence());
        self.pending = None;
        SourceStep::of_row(source_row)
    }
}
