//! The sequences of a program, and how each is run by itself.

use crate::header::tables::push;
use crate::run::instruction::LineInstructions;
use crate::run::program::{CompleteLineProgram, IncompleteLineProgram};
use crate::run::row::LineRow;
use crate::run::row_list::RowList;
use crate::run::rows::{LineRows, ResumedLineRows};
use gimli_core::{Error, Reader, ReaderOffset, Result};
use std::alloc::Global;
use std::marker::Model;

/// A sequence of a line program: rows of which only the last one is an end row.
#[derive(Clone, Debug, Drop)]
pub struct LineSequence<R: Reader> {
    /// The address of its first row; 0 where the end row is the only one.
    pub start: u64,
    /// The address of its end row, which is that of the first byte after the sequence.
    pub end: u64,
    instructions: LineInstructions<R>,
}

impl<R: Reader> LineSequence<R> {
    ghost use Rattle.std.specs.Prelude.{◌≡◌};

    /// The same sequence.
    pub fn clone(&self) -> Self
        ensures { result ≡ self.now }
    {
        LineSequence {
            start: self.start,
            end: self.end,
            instructions: self.instructions.clone(),
        }
    }
}

/// The sequences found so far, and the one that is open.
#[derive(Drop)]
struct SequenceSplit<R: Reader> {
    sequences: Vec<LineSequence<R>>,
    /// The instructions from the start of the open sequence on.
    instructions: LineInstructions<R>,
    /// The address of the first row of the open sequence.
    start: Option<u64>,
}

impl<R: Reader> Model for SequenceSplit<R> {
    ghost use Rattle.std.specs.Prelude.{map};
    ghost use Rattle.gimli_line.specs.inside.run.SequenceSplit.{SequenceSplit};
    ghost use Rattle.gimli_line.specs.run.Sequences.{sequence_of};

    ghost Value = { SequenceSplit };

    ghost view = { λ a.
        record {
          parts = map sequence_of a.sequences.items;
          unread = a.instructions;
          start = a.start;
        } };
}

impl<R: Reader> SequenceSplit<R> {
    ghost use Rattle.std.specs.Prelude.{◌≡◌, ◌++◌, ℕ, List, [], None, map, IsOkUnless, OnOk};
    ghost use Rattle.gimli_line.specs.inside.run.SequenceSplit.{with_row};
    ghost use Rattle.gimli_line.specs.run.Sequences.{sequence_of};

    /// No sequence yet, and an open one that starts with these instructions.
    fn new(alloc: Global, instructions: LineInstructions<R>) -> Self
        ensures { result ≡ record { parts = []; unread = instructions; start = None } }
    {
        SequenceSplit {
            sequences: Vec::new(alloc),
            instructions,
            start: None,
        }
    }

    /// Takes in the next row, after which a rest of the instructions is left. Refused by
    /// `OutOfMemory` alone.
    fn row(&mut self, row: &LineRow, rest: &LineInstructions<R>) -> Result<()>
        requires { (front : List ℕ) × (self.old.unread.bytes ≡ front ++ rest.now.bytes) }
        ensures ok { OnOk result (self.new ≡ with_row row.now rest.now self.old) }
        ensures err { IsOkUnless result Error.OutOfMemory }
    {
        let start = self.start;
        if !row.end_sequence() {
            self.start = Some(start.unwrap_or(row.address()));
            return Ok(());
        }
        let sequence = LineSequence {
            start: start.unwrap_or(0),
            end: row.address(),
            instructions: self.instructions.remove_trailing(rest)?,
        };
        push(&mut self.sequences, sequence)?;
        self.instructions = rest.clone();
        self.start = None;
        Ok(())
    }

    /// The sequences that were found.
    fn into_sequences(self) -> Vec<LineSequence<R>>
        ensures { map sequence_of result.items ≡ self.parts }
    {
        self.sequences
    }
}

/// The rows of each sequence found so far, and those of the one that is open.
#[derive(Drop)]
struct RowSplit {
    closed: Vec<RowList>,
    unended: RowList,
}

impl Model for RowSplit {
    ghost use Rattle.gimli_line.specs.inside.run.SequenceSplit.{RowSplit};

    ghost Value = { RowSplit };

    ghost view = { λ a. record { closed = a.closed.items; unended = a.unended } };
}

impl RowSplit {
    ghost use Rattle.std.specs.Prelude.{◌≡◌, [], IsOkUnless, OnOk};
    ghost use Rattle.gimli_line.specs.inside.run.SequenceSplit.{with_kept_row};

    /// No rows yet.
    fn new(alloc: Global) -> Self
        ensures { result ≡ record { closed = []; unended = [] } }
    {
        RowSplit {
            closed: Vec::new(alloc),
            unended: RowList::new(alloc),
        }
    }

    /// Keeps the next row. Refused by `OutOfMemory` alone.
    fn keep(&mut self, row: &LineRow) -> Result<()>
        ensures ok { OnOk result (self.new ≡ with_kept_row row.now self.old) }
        ensures err { IsOkUnless result Error.OutOfMemory }
    {
        self.unended.push(row)?;
        if !row.end_sequence() {
            return Ok(());
        }
        let rows = self.unended.take()?;
        push(&mut self.closed, rows)
    }

    /// The rows of each sequence that was found.
    fn into_rows(self) -> Vec<RowList>
        ensures { result.items ≡ self.closed }
    {
        self.closed
    }
}

impl<R: Reader> IncompleteLineProgram<R> {
    ghost use Rattle.std.specs.Prelude.{◌≡◌, ◌≢◌, map, All, IfErr, IfOk};
    ghost use Rattle.gimli_line.specs.run.Events.{row};
    ghost use Rattle.gimli_line.specs.header.Orders.{source_of, KeepsSource};
    ghost use Rattle.gimli_line.specs.run.Sequences.{sequence_of, AreSequences, HasFirstFault};
    ghost use Rattle.gimli_line.specs.run.Sequences.{HaveRuns, ResumesToRows};

    /// Runs the whole program, and splits it into its sequences, so that each can be run by itself.
    /// Rows after the last end row are in no sequence. Refused by the first fault of the run,
    /// wherever it stands, or by `OutOfMemory`.
    pub fn sequences(self) -> Result<(CompleteLineProgram<R>, Vec<LineSequence<R>>)>
        ensures ok { IfOk result (λ found. AreSequences self.layout self.meaning found.0.meaning
            (map sequence_of found.1.items)) }
        ensures source { IfOk result (λ found. KeepsSource (λ order. self.layout.is_big ≡ order)
            (source_of R.seen R.Offset.number self)
            (source_of R.seen R.Offset.number found.0)) }
        ensures unrefused { IfOk result (λ found.
            All (ResumesToRows found.0.meaning) (map sequence_of found.1.items)) }
        ensures err { IfErr result
            (λ e. e ≢ Error.OutOfMemory → HasFirstFault self.layout self.meaning e) }
    {
        let alloc = *self.header.file_names.allocator();
        let mut rows = self.rows();
        let mut split = SequenceSplit::new(alloc, rows.instructions().clone());
        'rows: while rows.advance()? {
            split.row(rows.row(), rows.instructions())?;
        }
        let header = rows.into_program().header;
        Ok((CompleteLineProgram { header }, split.into_sequences()))
    }

    /// What `sequences` returns, and the rows of each of these sequences in a list of its own. They
    /// come from the same run, so that no sequence has to be run again for them. Refused as
    /// `sequences` is.
    pub fn sequences_with_rows(
        self,
    ) -> Result<(CompleteLineProgram<R>, Vec<LineSequence<R>>, Vec<RowList>)>
        ensures ok { IfOk result (λ found.
            AreSequences self.layout self.meaning found.0.meaning (map sequence_of found.1.items)) }
        ensures each { IfOk result (λ found.
            HaveRuns found.0.meaning (map sequence_of found.1.items)
            (map (map row) found.2.items)) }
        ensures source { IfOk result (λ found. KeepsSource (λ order. self.layout.is_big ≡ order)
            (source_of R.seen R.Offset.number self)
            (source_of R.seen R.Offset.number found.0)) }
        ensures unrefused { IfOk result (λ found.
            All (ResumesToRows found.0.meaning) (map sequence_of found.1.items)) }
        ensures err { IfErr result
            (λ e. e ≢ Error.OutOfMemory → HasFirstFault self.layout self.meaning e) }
    {
        let alloc = *self.header.file_names.allocator();
        let mut run = self.rows();
        let mut split = SequenceSplit::new(alloc, run.instructions().clone());
        let mut kept = RowSplit::new(alloc);
        'run: while run.advance()? {
            let row = run.row();
            kept.keep(row)?;
            split.row(row, run.instructions())?;
        }
        let header = run.into_program().header;
        Ok((
            CompleteLineProgram { header },
            split.into_sequences(),
            kept.into_rows(),
        ))
    }
}

impl<R: Reader> CompleteLineProgram<R> {
    ghost use Rattle.std.specs.Prelude.{◌≡◌, false, List};
    ghost use Rattle.gimli_line.specs.header.Orders.{source_of};
    ghost use Rattle.gimli_line.specs.run.Events.{Event, Events};
    ghost use Rattle.gimli_line.specs.run.EventsWithFiles.{EventsWithFiles};
    ghost use Rattle.gimli_line.specs.run.Rows.{events_left, files_at_end, start_of_run};
    ghost use Rattle.gimli_line.specs.run.Rows.{GivesRowsAlone};
    ghost use Rattle.gimli_line.specs.run.Sequences.{events_of, sequence_of, ResumesToRows};

    /// The rows of one of the program's sequences. The header has all files from the start.
    pub fn resume_from<'program>(
        &'program self,
        sequence: &LineSequence<R>,
    ) -> ResumedLineRows<'program, R>
        ensures events { EventsWithFiles sequence.now.instructions.layout false self.now.meaning
            sequence.now.instructions.bytes (events_left result) }
        ensures run { (run : List Event)
            → Events sequence.now.instructions.layout self.now.meaning
            sequence.now.instructions.bytes run → events_of (events_left result) ≡ run }
        ensures files { files_at_end result ≡ self.now.meaning.files }
        ensures start { result ≡ start_of_run false self.now.meaning
            (source_of R.seen R.Offset.number self.now) sequence.now.instructions }
        ensures unrefused { ResumesToRows self.now.meaning (sequence_of sequence.now)
            → GivesRowsAlone result }
    {
        LineRows::start(self, sequence.instructions.clone())
    }
}
