//! The rows of a program or of one sequence, in order.

use crate::header::program_header::LineProgramHeader;
use crate::run::from_bytes::Executed;
use crate::run::instruction::LineInstructions;
use crate::run::program::{CompleteLineProgram, IncompleteLineProgram, LineProgram};
use crate::run::row::LineRow;
use gimli_core::{Error, Reader, Result};
use std::marker::Model;

/// What was done on the way to a row.
enum RowStep {
    /// Nothing: there was no instruction.
    Done,
    /// A row was made, which may be under a tombstone.
    Made,
    /// Instructions were executed, and no row was made.
    More,
}

/// The rows of a program that are still to come, in order.
#[derive(Clone, Debug, Drop)]
pub struct LineRows<R: Reader, P: LineProgram<R>> {
    program: P,
    row: LineRow,
    instructions: LineInstructions<R>,
}

/// The rows of a program that is run once, from its start to its end.
pub type OneShotLineRows<R> = LineRows<R, IncompleteLineProgram<R>>;

/// The rows of one sequence of a program.
pub type ResumedLineRows<'program, R> = LineRows<R, &'program CompleteLineProgram<R>>;

impl<R: Reader, P: LineProgram<R>> Model for LineRows<R, P> {
    ghost use Rattle.gimli_line.specs.header.Header.{without_files};
    ghost use Rattle.gimli_line.specs.run.Passing.{RunState};

    ghost Value = { RunState };

    ghost view = { λ a. record {
      fixed = without_files (P.meaning a.program);
      files = (P.meaning a.program).files;
      appends = P.appends;
      source = P.source a.program;
      row = a.row;
      unread = a.instructions;
    } };
}

/// Names the memory of `LineRows`, for what a loan gives back.
trait Lent {
    ghost use denote.RattleType.{RattleType};

    ghost lent: { RattleType };
}

impl<R: Reader, P: LineProgram<R>> Lent for LineRows<R, P> {
    ghost use Rattle.gimli_line.specs.contracts.run.rows.LineRows.{the_row};

    ghost lent = { the_row R.row P.row R.Endian.row R.Offset.row R.Reader.own R.Endian.Endianity.own
        R.Endian.PartialEq.own R.Offset.ReaderOffset.own R.Offset.PartialEq.own R.Offset.Ord.own
        R.Offset.PartialOrd.own P.LineProgram.own };
}

impl<R: Reader, P: LineProgram<R>> LineRows<R, P> {
    ghost use Rattle.std.specs.Prelude.{◌≡◌, [], ◌∷◌, None, Ok, IfErr, IfOk, IfSome, IsOk};
    ghost use Rattle.std.specs.Prelude.{MatchBool};
    ghost use Rattle.std.specs.Borrow.{sem};
    ghost use Rattle.std.specs.Io.BufRead.{Rests};
    ghost use Rattle.gimli_line.specs.run.Events.{row as row_event};
    ghost use Rattle.gimli_line.specs.header.Header.{without_files};
    ghost use Rattle.gimli_line.specs.run.Passing.{with_reset_row, PassesOver};
    ghost use Rattle.gimli_line.specs.run.Rows.{start_of_run, GivesRowsAlone};
    ghost use Rattle.gimli_line.specs.run.Rows.{KeepsRun, KeepsHeader, SeesHeader, NextIs, RowIs};
    ghost use Rattle.gimli_line.specs.run.Rows.{EndIs, FaultIs};
    ghost use Rattle.gimli_line.specs.run.Rows.{live_events, live_made};
    ghost use Rattle.gimli_line.specs.inside.run.Rows.{given_row, StepsTo};

    /// The rows of these instructions of a program, from the start of a sequence on.
    pub(crate) fn start(program: P, instructions: LineInstructions<R>) -> Self
        ensures { result
            ≡ start_of_run P.appends (P.meaning program) (P.source program) instructions }
    {
        let row = LineRow::new(program.header());
        LineRows {
            program,
            row,
            instructions,
        }
    }

    /// The header, with the files that were defined so far.
    pub fn header(&self) -> &LineProgramHeader<R>
        ensures header { SeesHeader R.seen R.Offset.number self.now result.now }
        ensures files { result.now.meaning.files ≡ self.now.files }
    {
        self.program.header()
    }

    /// The next row that isn't under a tombstone, with the header as it is there; None where the
    /// program has no more, and the header has all files then. Refused as an instruction is, or by
    /// `OutOfMemory` where it defines a file; after such a refusal it returns None, as after the
    /// end. It is also refused by `AddressOverflow`, and goes on after that. A program whose files
    /// are complete isn't refused for memory.
    #[inline(always)]
    pub fn next_row(&mut self) -> Result<Option<(&LineProgramHeader<R>, &LineRow)>>
        ensures* after { sem 𝓛 (Rests ⟦<LineRows<R, P> as Lent>⟧.lent self.entry
            (λ new. KeepsHeader self.old new × NextIs live_events self.old new result)) }
        ensures ended { self.old.unread.bytes ≡ [] → result ≡ Ok None }
        ensures header { IfOk result (λ found. IfSome found
            (λ next. SeesHeader R.seen R.Offset.number self.old next.0.now)) }
        ensures unrefused { GivesRowsAlone self.old → IsOk result }
    {
        match self.advance() {
            Err(e) => Err(e),
            Ok(false) => Ok(None),
            Ok(true) => Ok(Some(self.current())),
        }
    }

    /// The next row, one under a tombstone too ([`LineRow::is_under_tombstone`]), with the header
    /// as it is there; None where the program makes no more. `next_row` returns those of them that
    /// aren't under a tombstone, whereas this call also returns the end of a sequence whose code a
    /// linker dropped. Refused as `next_row` is.
    pub fn next_any_row(&mut self) -> Result<Option<(&LineProgramHeader<R>, &LineRow)>>
        ensures* after { sem 𝓛 (Rests ⟦<LineRows<R, P> as Lent>⟧.lent self.entry
            (λ new. KeepsHeader self.old new × NextIs live_made self.old new result)) }
        ensures header { IfOk result (λ found. IfSome found
            (λ next. SeesHeader R.seen R.Offset.number self.old next.0.now)) }
    {
        match self.advance_any() {
            Err(e) => Err(e),
            Ok(false) => Ok(None),
            Ok(true) => Ok(Some(self.current())),
        }
    }

    /// The row, as it is.
    pub(crate) fn row(&self) -> &LineRow
        ensures { result.now ≡ self.now.row }
    {
        &self.row
    }

    /// The instructions to come.
    pub(crate) fn instructions(&self) -> &LineInstructions<R>
        ensures { result.now ≡ self.now.unread }
    {
        &self.instructions
    }

    /// The program, with the files that were defined so far.
    pub(crate) fn into_program(self) -> P
        ensures header { without_files (P.meaning result) ≡ self.fixed }
        ensures files { (P.meaning result).files ≡ self.files }
        ensures source { P.source result ≡ self.source }
    {
        self.program
    }

    /// Executes instructions up to the next row that isn't under a tombstone, and says whether
    /// there is one.
    #[inline(always)]
    pub(crate) fn advance(&mut self) -> Result<bool>
        ensures row { IfOk result (λ found. MatchBool found
            (RowIs live_events self.old self.new self.new.row self.new.files)
            (EndIs live_events self.old self.new)) }
        ensures err { IfErr result (FaultIs live_events (with_reset_row self.old) self.new) }
        ensures keeps { KeepsRun self.old self.new }
        ensures passes { IfOk result (λ found. MatchBool found
            (PassesOver (with_reset_row self.old) (with_reset_row self.new)
            (row_event self.new.row ∷ []))
            ((self.new.unread.bytes ≡ []) × PassesOver (with_reset_row self.old) self.new [])) }
    {
        'rows: loop {
            match self.advance_any() {
                Err(e) => return Err(e),
                Ok(false) => return Ok(false),
                Ok(true) => {
                    if !self.row().is_under_tombstone() {
                        return Ok(true);
                    }
                }
            }
        }
    }

    /// Executes instructions up to the next row, one under a tombstone too, and says whether there
    /// is one.
    #[inline(always)]
    fn advance_any(&mut self) -> Result<bool>
        ensures row { IfOk result (λ found. MatchBool found
            (RowIs live_made self.old self.new self.new.row self.new.files)
            (EndIs live_made self.old self.new)) }
        ensures err { IfErr result (FaultIs live_made (with_reset_row self.old) self.new) }
        ensures keeps { KeepsRun self.old self.new }
        ensures passes { IfOk result (λ found. MatchBool found
            (PassesOver (with_reset_row self.old) (with_reset_row self.new)
            (given_row self.new.row))
            ((self.new.unread.bytes ≡ []) × PassesOver (with_reset_row self.old) self.new [])) }
    {
        self.row.reset(self.program.header());
        'instructions: loop {
            match self.execute_some() {
                Err(e) => return Err(e),
                Ok(RowStep::Done) => return Ok(false),
                Ok(RowStep::Made) => return Ok(true),
                Ok(RowStep::More) => {}
            }
        }
    }

    /// Executes the next instruction, and more where it is a common one that makes no row. The
    /// first one is executed before the loop: a row of one instruction needn't set that up.
    #[inline(always)]
    fn execute_some(&mut self) -> Result<RowStep>
        ensures { StepsTo self.old self.new result }
    {
        let mut instructions = self.instructions.clone();
        let header = self.program.header();
        let executed = match instructions.execute_common(header, &mut self.row) {
            Ok(executed) => executed,
            Err(e) => {
                self.instructions = instructions;
                return Err(e);
            }
        };
        match executed {
            Executed::No => self.execute_one(),
            Executed::Row => {
                self.instructions = instructions;
                Ok(RowStep::Made)
            }
            _ => self.execute_more(instructions),
        }
    }

    /// Executes common instructions from their bytes, up to the first that makes a row or is
    /// another one, and that one too. The instructions to come are in a variable of their own
    /// during the loop, so that they stay in the processor's registers.
    #[inline(always)]
    fn execute_more(&mut self, start: LineInstructions<R>) -> Result<RowStep>
        ensures { StepsTo (record self.old { unread = start }) self.new result }
    {
        let mut instructions = start;
        'common: loop {
            let header = self.program.header();
            let executed = match instructions.execute_common(header, &mut self.row) {
                Ok(executed) => executed,
                Err(e) => {
                    self.instructions = instructions;
                    return Err(e);
                }
            };
            match executed {
                Executed::No => break,
                Executed::Row => {
                    self.instructions = instructions;
                    return Ok(RowStep::Made);
                }
                _ => {}
            }
        }
        self.instructions = instructions;
        self.execute_one()
    }

    /// Executes one instruction. In line, so that the room for the answer is cleared here alone,
    /// and not in front of the loop above.
    #[inline(always)]
    fn execute_one(&mut self) -> Result<RowStep>
        ensures { StepsTo self.old self.new result }
    {
        self.execute_uncommon()
    }

    /// Executes one instruction that isn't a common one, from its bytes or as it is parsed.
    fn execute_uncommon(&mut self) -> Result<RowStep>
        ensures { StepsTo self.old self.new result }
    {
        let header = self.program.header();
        let executed = match self.instructions.execute_other(header, &mut self.row) {
            Ok(executed) => executed,
            Err(e) => return Err(e),
        };
        match executed {
            Executed::No => self.define_file(),
            Executed::Row => Ok(RowStep::Made),
            _ => Ok(RowStep::More),
        }
    }

    /// Adds the file that the next instruction defines, from its bytes; an instruction of another
    /// kind is executed as it is parsed.
    fn define_file(&mut self) -> Result<RowStep>
        ensures { StepsTo self.old self.new result }
    {
        let header = self.program.header();
        let Some(file) = self.instructions.next_defined_file(header) else {
            return self.execute_parsed();
        };
        match self.program.add_file(file) {
            Err(e) => {
                self.instructions.clear();
                Err(e)
            }
            Ok(()) => Ok(RowStep::More),
        }
    }

    /// Executes one instruction of any kind, as it is parsed.
    fn execute_parsed(&mut self) -> Result<RowStep>
        ensures { StepsTo self.old self.new result }
    {
        let instruction = match self.instructions.next_instruction(self.program.header()) {
            Err(e) => return Err(e),
            Ok(None) => return Ok(RowStep::Done),
            Ok(Some(instruction)) => instruction,
        };
        let made = match self.row.execute(instruction, &mut self.program) {
            Err(e) => match e {
                Error::OutOfMemory => {
                    self.instructions.clear();
                    return Err(e);
                }
                _ => return Err(e),
            },
            Ok(made) => made,
        };
        if !made {
            return Ok(RowStep::More);
        }
        Ok(RowStep::Made)
    }

    /// The header and the row, as they are.
    fn current(&self) -> (&LineProgramHeader<R>, &LineRow)
        ensures header { SeesHeader R.seen R.Offset.number self.now result.0.now }
        ensures files { result.0.now.meaning.files ≡ self.now.files }
        ensures row { result.1.now ≡ self.now.row }
    {
        (self.program.header(), &self.row)
    }
}

impl<'program, R: Reader> LineRows<R, &'program CompleteLineProgram<R>> {
    ghost use Rattle.std.specs.Prelude.{◌≡◌};

    /// The same rows, still to come.
    pub fn clone(&self) -> Self
        ensures { result ≡ self.now }
    {
        LineRows {
            program: self.program,
            row: self.row,
            instructions: self.instructions.clone(),
        }
    }
}

impl<R: Reader> LineRows<R, IncompleteLineProgram<R>> {
    ghost use Rattle.std.specs.Prelude.{◌≡◌, IfOk, IsOkUnless};

    /// A copy with the same rows to come. Refused by `OutOfMemory` alone.
    pub fn clone(&self) -> Result<Self>
        ensures ok { IfOk result (λ copy. copy ≡ self.now) }
        ensures err { IsOkUnless result Error.OutOfMemory }
    {
        Ok(LineRows {
            program: self.program.clone()?,
            row: self.row,
            instructions: self.instructions.clone(),
        })
    }
}

impl<R: Reader> IncompleteLineProgram<R> {
    ghost use Rattle.std.specs.Prelude.{◌≡◌, true};
    ghost use Rattle.gimli_line.specs.header.Orders.{source_of};
    ghost use Rattle.gimli_line.specs.run.Rows.{events_left, made_left, files_at_end, whole_run};
    ghost use Rattle.gimli_line.specs.run.EventsWithFiles.{Makes, EventsWithFiles, FilesAtEnd};

    /// The rows of the program, from its start to its end.
    pub fn rows(self) -> OneShotLineRows<R>
        ensures events { EventsWithFiles self.layout true self.meaning self.meaning.program
            (events_left result) }
        ensures made { Makes self.layout true self.meaning self.meaning.program
            (made_left result) }
        ensures files { FilesAtEnd self.layout true self.meaning self.meaning.program
            (files_at_end result) }
        ensures start { result ≡ whole_run self.meaning (source_of R.seen R.Offset.number self) }
    {
        let instructions = self.header.instructions();
        LineRows::start(self, instructions)
    }
}
