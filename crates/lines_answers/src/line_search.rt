//! The search for the rows of a line in the files that a path names.

use crate::counted_rows::{CountedRow, CountedRows, WholeRun};
use crate::meant_files::MeantFiles;
use crate::path_rows::{PathRow, PathRows};
use gimli_core::{Error, Reader, ReaderOffset};
use gimli_line::{LineUnit, LineUnits};
use lines_inputs::{Input, Result, column_of, line_of};
use lines_words::Output;
use std::alloc::{AllocError, Global};

/// How many rows count in each unit.
#[derive(Drop)]
pub(crate) struct RowCounts {
    pub(crate) all: Vec<u64>,
    /// The same, 0 for a unit of which no file is meant.
    pub(crate) meant: Vec<u64>,
}

impl RowCounts {
    /// No unit was counted.
    pub(crate) fn new(alloc: Global) -> RowCounts {
        RowCounts {
            all: Vec::new(alloc),
            meant: Vec::new(alloc),
        }
    }

    /// Counts the rows of all units, and adds their files whose paths end with some components,
    /// where files are meant, up to the unit with which more bytes of paths were read than may be.
    /// The fault of each unit is reported.
    pub(crate) fn add_units<R: Reader>(
        &mut self,
        units: &mut LineUnits<R>,
        end: Option<&[&[u8]]>,
        files: &mut MeantFiles<R>,
        output: &mut Output<'_>,
    ) -> Result<()> {
        for index in 0..usize::MAX {
            if files.budget.is_spent() {
                break;
            }
            match units.next() {
                Ok(Some(unit)) => self.add_unit(index, unit, end, files, output)?,
                Ok(None) => break,
                Err(_) => return Err(AllocError),
            }
        }
        Ok(())
    }

    /// Counts the rows of a unit: none where its header is refused, which is reported.
    fn add_unit<R: Reader>(
        &mut self,
        index: usize,
        unit: LineUnit<R>,
        end: Option<&[&[u8]]>,
        files: &mut MeantFiles<R>,
        output: &mut Output<'_>,
    ) -> Result<()> {
        let offset = unit.offset.0.into_u64();
        match unit.program {
            Ok(program) => {
                let run = WholeRun::new(program)?;
                run.tell_fault(offset, output);
                self.add_run(index, &run, end, files)
            }
            Err(Error::OutOfMemory) => Err(AllocError),
            Err(refusal) => {
                output.tell_of_unit(offset, refusal);
                self.push(0, false)
            }
        }
    }

    /// Counts the rows of a run of a unit, and adds its files.
    fn add_run<R: Reader>(
        &mut self,
        index: usize,
        run: &WholeRun<R>,
        end: Option<&[&[u8]]>,
        files: &mut MeantFiles<R>,
    ) -> Result<()> {
        let is_meant = match end {
            Some(end) => files.add_unit(index, run.rows.header(), end)?,
            None => false,
        };
        self.push(run.count, is_meant)
    }

    /// Adds the count of a unit.
    fn push(&mut self, count: u64, is_meant: bool) -> Result<()> {
        self.all.push(count)?;
        self.meant.push(if is_meant { count } else { 0 })?;
        Ok(())
    }
}

/// The rows of a line in files.
#[derive(Drop)]
pub(crate) struct LineRows {
    /// For each path its first line from the asked one on that has a statement.
    pub(crate) lines: Vec<Option<u64>>,
    /// Where the code of that line begins.
    pub(crate) addresses: PathRows,
    /// The columns of its statements, where they are asked for.
    pub(crate) columns: PathRows,
    /// The rows of the asked line that are no statements, of paths in which no row of that line is
    /// one.
    pub(crate) others: PathRows,
}

impl LineRows {
    /// No row was found.
    pub(crate) fn new(alloc: Global) -> LineRows {
        LineRows {
            lines: Vec::new(alloc),
            addresses: PathRows::new(alloc),
            columns: PathRows::new(alloc),
            others: PathRows::new(alloc),
        }
    }

    /// Finds the rows of a line among the rows that count of units.
    pub(crate) fn find<R: Reader>(
        &mut self,
        alloc: Global,
        input: &Input<R>,
        files: &MeantFiles<R>,
        counts: &RowCounts,
        line: u64,
        has_column: bool,
    ) -> Result<()> {
        let mut rows = CountedRows::new(alloc, input, &counts.meant);
        let mut again = CountedRows::new(alloc, input, &counts.meant);
        self.find_among(&mut rows, &mut again, files, line, has_column)
    }

    /// Finds the rows of a line among rows that are run twice.
    fn find_among<R: Reader>(
        &mut self,
        rows: &mut CountedRows<'_, R>,
        again: &mut CountedRows<'_, R>,
        files: &MeantFiles<R>,
        line: u64,
        has_column: bool,
    ) -> Result<()> {
        self.lines.resize(files.paths.len(), None)?;
        self.see_all(rows, files, line)?;
        self.collect(again, files, line, has_column)?;
        self.addresses.put_in_order()?;
        self.columns.put_in_order()?;
        self.others.put_in_order()
    }

    /// Sees the line of each row.
    fn see_all<R: Reader>(
        &mut self,
        rows: &mut CountedRows<'_, R>,
        files: &MeantFiles<R>,
        asked: u64,
    ) -> Result<()> {
        for _ in 0..u64::MAX {
            match rows.next_row()? {
                Some(row) => self.see(files, &row, asked),
                None => break,
            }
        }
        Ok(())
    }

    /// Sees the line of a row, if it is a statement from the asked line on.
    fn see<R: Reader>(&mut self, files: &MeantFiles<R>, counted: &CountedRow, asked: u64) {
        let row = &counted.row;
        if !counted.stands || row.end_sequence() || !row.is_stmt() {
            return;
        }
        let Some(line) = row.line() else {
            return;
        };
        let line = line.get();
        if line < asked {
            return;
        }
        let Some((_, path)) = files.find(counted.unit, row.file_index()) else {
            return;
        };
        if let Some(first) = self.lines.get_mut(path) {
            *first = match *first {
                Some(first) => Some(first.min(line)),
                None => Some(line),
            };
        }
    }

    /// Collects the rows of the lines that were seen.
    fn collect<R: Reader>(
        &mut self,
        rows: &mut CountedRows<'_, R>,
        files: &MeantFiles<R>,
        asked: u64,
        has_column: bool,
    ) -> Result<()> {
        // The group whose rows of the line are adjacent, and have an address already.
        let mut begun: Option<usize> = None;
        for _ in 0..u64::MAX {
            let Some(counted) = rows.next_row()? else {
                break;
            };
            let mut row = None;
            if counted.stands {
                row = self.row_of(files, &counted);
            }
            begun = match row {
                Some(row) => self.add(&counted, row, begun, asked, has_column)?,
                None => None,
            };
        }
        Ok(())
    }

    /// A row of a file that is meant.
    fn row_of<R: Reader>(&self, files: &MeantFiles<R>, counted: &CountedRow) -> Option<PathRow> {
        let (group, path) = files.find(counted.unit, counted.row.file_index())?;
        Some(PathRow {
            path,
            address: counted.row.address(),
            group,
            column: column_of(&counted.row),
        })
    }

    /// Adds a row of a file that is meant, and returns the group whose rows of the line go on after
    /// it and have an address.
    fn add(
        &mut self,
        counted: &CountedRow,
        row: PathRow,
        begun: Option<usize>,
        asked: u64,
        has_column: bool,
    ) -> Result<Option<usize>> {
        let first = self.lines.get(row.path).copied().unwrap_or(None);
        let (line, is_stmt) = (line_of(&counted.row), counted.row.is_stmt());
        if line == asked && !is_stmt && first != Some(asked) {
            self.others.push(row)?;
        }
        if first != Some(line) {
            return Ok(None);
        }
        if is_stmt && has_column {
            self.columns.push(row)?;
        }
        if counted.row.end_sequence() {
            return Ok(None);
        }
        let is_begun = begun == Some(row.group);
        if is_stmt && !is_begun {
            self.addresses.push(row)?;
        }
        Ok(if is_stmt || is_begun {
            Some(row.group)
        } else {
            None
        })
    }
}
