//! What is printed of line programs, piece by piece.

use crate::check::Check;
use crate::file_list::FileList;
use crate::row_list::RowList;
use crate::stat::Stat;
use crate::unit_list::{print_heading, print_unit};
use gimli_core::Reader;
use gimli_line::LineProgramHeader;
use lines_inputs::{
    Input, PathBudget, PathFault, PathSources, Printing, Result, UnitRows, Walk, path_or_fault,
};
use lines_words::{Command, Output, Request, UnitChoice};
use std::alloc::Global;

/// The chosen units of a section, one after the other, and what whole paths are made of.
#[derive(Drop)]
pub(crate) struct Reading<R: Reader> {
    pub(crate) alloc: Global,
    pub(crate) walk: Walk<R>,
    pub(crate) sources: PathSources<R>,
    pub(crate) input: Input<R>,
    /// The bytes of the paths that are made and aren't printed.
    pub(crate) budget: PathBudget,
}

impl<R: Reader> Reading<R> {
    /// The units from the start of the section on.
    pub(crate) fn new(
        alloc: Global,
        input: &Input<R>,
        units: UnitChoice,
        printing: Printing,
        output: &mut Output<'_>,
    ) -> Result<Reading<R>> {
        let sources = PathSources::new(alloc, input)?;
        Ok(Reading {
            alloc,
            walk: Walk::new(alloc, input, units, printing, output),
            sources,
            input: *input,
            budget: PathBudget::new(input, output.memory_limit()),
        })
    }

    /// The whole path of the file at an index, or why it isn't known. Its bytes count toward the
    /// budget, unless it is printed.
    pub(crate) fn path_of(
        &mut self,
        header: &LineProgramHeader<R>,
        index: u64,
        is_printed: bool,
    ) -> Result<(Option<Vec<u8>>, Option<PathFault>)> {
        let before = self.budget;
        let path = self
            .sources
            .counted(self.alloc, header, index, &mut self.budget);
        if is_printed && path.is_ok() {
            self.budget = before;
        }
        path_or_fault(&self.sources, path)
    }

    /// Whether more bytes of paths were made than there may be, which is reported.
    pub(crate) fn is_refused(&self, output: &mut Output<'_>) -> bool {
        if self.budget.is_spent() {
            output.clear();
            output.tell(self.budget);
        }
        self.budget.is_spent()
    }
}

/// What a command prints of line programs.
#[derive(Drop)]
pub struct Report<R: Reader> {
    reading: Reading<R>,
    /// The unit whose rows are read.
    unit: Option<UnitRows<R>>,
    task: Task<R>,
}

/// What is printed, by the commands of these names.
#[derive(Drop)]
enum Task<R: Reader> {
    Units,
    Files(FileList),
    Rows(RowList),
    Check(Check<R>),
    Stat(Stat<R>),
}

impl<R: Reader> Report<R> {
    /// Nothing is printed yet but headings. None where the command prints something else.
    pub fn new(
        alloc: Global,
        input: &Input<R>,
        request: &Request<'_>,
        output: &mut Output<'_>,
    ) -> Result<Option<Report<R>>> {
        let printing = match request.command {
            Command::Units | Command::Files | Command::Rows(_) => Printing::Steady,
            Command::Check | Command::Stat => Printing::Rare,
            _ => return Ok(None),
        };
        let reading = Reading::new(alloc, input, request.units, printing, output)?;
        Ok(Some(Report {
            reading,
            unit: None,
            task: Task::new(alloc, request.command, output),
        }))
    }

    /// Prints the next piece, and returns whether more may follow. None does where more bytes of
    /// paths were made than there may be, which is reported.
    pub fn print_next(&mut self, output: &mut Output<'_>) -> Result<bool> {
        if self.reading.is_refused(output) {
            return Ok(false);
        }
        if let Task::Check(check) = &mut self.task {
            return check.print_next(&mut self.reading, output);
        }
        let is_new = self.unit.is_none();
        if is_new {
            self.unit = self.reading.walk.next_rows(output)?;
        }
        self.print_unit(is_new, output)
    }

    /// Prints the next piece of the unit, and what follows the last one.
    fn print_unit(&mut self, is_new: bool, output: &mut Output<'_>) -> Result<bool> {
        let Some(unit) = &mut self.unit else {
            return self.task.finish(&self.reading, output);
        };
        let task = &mut self.task;
        if !task.print_unit(&mut self.reading, unit, is_new, output)? {
            self.unit = None;
        }
        Ok(true)
    }
}

impl<R: Reader> Task<R> {
    /// What a command prints, of which headings are printed.
    fn new(alloc: Global, command: Command<'_>, output: &mut Output<'_>) -> Task<R> {
        match command {
            Command::Files => Task::Files(FileList::new()),
            Command::Rows(form) => Task::Rows(RowList::new(alloc, form)),
            Command::Check => Task::Check(Check::new(alloc)),
            Command::Stat => Task::Stat(Stat::new(alloc)),
            _ => {
                print_heading(output);
                Task::Units
            }
        }
    }

    /// Prints the next piece of a unit, whose fault is reported, and returns whether more of it
    /// follows.
    fn print_unit(
        &mut self,
        reading: &mut Reading<R>,
        unit: &mut UnitRows<R>,
        is_new: bool,
        output: &mut Output<'_>,
    ) -> Result<bool> {
        match self {
            Task::Rows(list) => list.print_unit(reading, unit, is_new, output),
            Task::Files(list) => list.print_unit(reading, unit, is_new, output),
            Task::Units => print_unit(unit, output),
            Task::Stat(stat) => stat.add_unit(reading, unit, output),
            Task::Check(_) => Ok(false),
        }
    }

    /// Prints what follows the last unit. Nothing follows that.
    fn finish(&mut self, reading: &Reading<R>, output: &mut Output<'_>) -> Result<bool> {
        match self {
            Task::Stat(stat) => stat.finish(reading, output),
            _ => Ok(false),
        }
    }
}
