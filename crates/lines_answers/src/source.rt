//! The command `source`: lines of source, with the addresses of their code next to them.

use crate::components::components_of;
use crate::hints::note_hints;
use crate::path_digests::{PathDigests, Sum, sum_of_entry};
use crate::written_path::{WrittenPath, WrittenPaths};
use gimli_core::{Reader, ReaderOffset};
use gimli_line::{FileEntry, LineProgramHeader, LineRow};
use lines_inputs::{
    Functions, Input, PathBudget, Piece, Printing, Result, SourceRow, UnitRows, Walk, line_of,
    note, tell,
};
use lines_words::{Output, SourcePlace, UnitChoice, bytes_of_word};
use std::alloc::{AllocError, Global};
use std::collections::BTreeMap;

/// How many rows are put in order at first.
const FEW: usize = 1024;

/// What is known of a file of a unit.
#[derive(Clone, Copy)]
enum FileNumber {
    /// Nothing yet.
    Unknown,
    /// It has no path, or its rows aren't wanted.
    Unwanted,
    /// The number of its path.
    Wanted(usize),
}

/// The rows of a place, which are found unit by unit.
#[derive(Drop)]
pub struct SourceRows<'w, R: Reader> {
    alloc: Global,
    place: SourcePlace<'w>,
    /// How many lines before the asked one and after it are wanted.
    context: u64,
    /// The components that paths end with, where a line is asked for.
    end: Vec<u8>,
    /// The addresses of the function, where one is asked for.
    code: (u64, u64),
    /// An address below which there is no code.
    lowest: u64,
    walk: Walk<R>,
    written: WrittenPaths<R>,
    digests: PathDigests<R>,
    /// The paths of files, each once; its number is its place here.
    paths: Vec<WrittenPath<R>>,
    /// The numbers of paths, by their bytes.
    numbers: BTreeMap<Sum, usize>,
    /// The numbers of paths in the unit, by what its header says of a file.
    of_unit: BTreeMap<Sum, usize>,
    /// What is known of the files of the unit, by their numbers.
    files: Vec<FileNumber>,
    rows: Vec<SourceRow>,
    /// How many rows were left when they were put in order.
    ordered: usize,
    /// The path that is printed, with capacity for the longest one.
    path: Vec<u8>,
    /// The bytes of paths that are read and aren't printed.
    budget: PathBudget,
}

impl<'w, R: Reader> SourceRows<'w, R> {
    /// No row is found yet. None where no function has the name, which is reported.
    pub fn new(
        alloc: Global,
        input: &Input<R>,
        functions: &Functions<'_>,
        place: SourcePlace<'w>,
        context: u64,
        output: &mut Output<'_>,
    ) -> Result<Option<SourceRows<'w, R>>> {
        let Some((end, code)) = searched_of(alloc, functions, place, output)? else {
            return Ok(None);
        };
        let written = WrittenPaths::new(alloc, input)?;
        Ok(Some(SourceRows {
            alloc,
            place,
            context,
            end,
            code,
            lowest: input.notation.lowest,
            walk: Walk::new(alloc, input, UnitChoice::All, Printing::Rare, output),
            written,
            digests: PathDigests::new(alloc),
            paths: Vec::new(alloc),
            numbers: BTreeMap::new(alloc),
            of_unit: BTreeMap::new(alloc),
            files: Vec::new(alloc),
            rows: Vec::new(alloc),
            ordered: 0,
            path: Vec::new(alloc),
            budget: PathBudget::new(input, output.memory_limit()),
        }))
    }

    /// The path of a number, and its rows; None past the last one. Call it after the last unit.
    pub fn get(&mut self, number: usize) -> Option<(&[u8], &[SourceRow])> {
        let written = *self.paths.get(number)?;
        // There is room for it.
        written.write_to(&mut self.path).ok()?;
        let start = self.rows.partition_point(|row| row.path < number);
        let end = self.rows.partition_point(|row| row.path <= number);
        Some((&self.path, self.rows.get(start..end).unwrap_or(&[])))
    }

    /// Adds the rows of a unit that are wanted, up to the one with which more bytes of paths were
    /// read than may be, and returns whether more may follow. The fault of the unit is reported.
    fn add_unit(&mut self, unit: &mut UnitRows<R>, output: &mut Output<'_>) -> Result<bool> {
        self.of_unit = BTreeMap::new(self.alloc);
        self.files.clear();
        if matches!(self.place, SourcePlace::Line { .. }) {
            self.add_files(unit.header())?;
        }
        self.add_rows(unit)?;
        unit.tell_fault(output);
        Ok(!self.is_refused(output))
    }

    /// Adds the files of a unit that are wanted.
    fn add_files(&mut self, header: &LineProgramHeader<R>) -> Result<()> {
        for index in 0..=header.file_names().len() as u64 {
            if self.budget.is_spent() {
                break;
            }
            self.number_of(header, index)?;
        }
        Ok(())
    }

    /// Adds the rows of a unit that are wanted.
    fn add_rows(&mut self, unit: &mut UnitRows<R>) -> Result<()> {
        for _ in 0..u64::MAX {
            if self.budget.is_spent() {
                break;
            }
            let Some(row) = unit.next_row()? else {
                break;
            };
            if self.is_near(&row) {
                self.add_row(unit.header(), &row)?;
            }
        }
        Ok(())
    }

    /// Whether a row may be wanted.
    fn is_near(&self, row: &LineRow) -> bool {
        let line = line_of(row);
        let address = row.address();
        if row.end_sequence() || address < self.lowest {
            return false;
        }
        match self.place {
            SourcePlace::Line { line: asked, .. } => {
                line > 0 && line.abs_diff(asked) <= self.context
            }
            SourcePlace::Function(_) => self.code.0 <= address && address < self.code.1,
        }
    }

    /// Adds a row, where those of its file are wanted. Duplicates are dropped whenever there are
    /// twice as many rows as before.
    fn add_row(&mut self, header: &LineProgramHeader<R>, row: &LineRow) -> Result<()> {
        let Some(path) = self.number_of(header, row.file_index())? else {
            return Ok(());
        };
        self.rows.push(SourceRow {
            path,
            line: line_of(row),
            address: row.address(),
            is_stmt: row.is_stmt(),
        })?;
        if self.rows.len() / 2 > self.ordered.max(FEW) {
            self.sort()?;
        }
        Ok(())
    }

    /// The number of the path of a file; None where it has none, or its rows aren't wanted. Those
    /// of a unit that were asked for are kept.
    fn number_of(&mut self, header: &LineProgramHeader<R>, index: u64) -> Result<Option<usize>> {
        let Some(file) = header.file(index) else {
            return Ok(None);
        };
        let place = index as usize;
        if place >= self.files.len() {
            self.files
                .resize(place.saturating_add(1), FileNumber::Unknown)?;
        }
        match self.files.get(place) {
            Some(FileNumber::Unwanted) => return Ok(None),
            Some(FileNumber::Wanted(number)) => return Ok(Some(*number)),
            _ => {}
        }
        let number = self.find_number(header, file, index)?;
        if let Some(known) = self.files.get_mut(place) {
            *known = match number {
                Some(number) => FileNumber::Wanted(number),
                None => FileNumber::Unwanted,
            };
        }
        Ok(number)
    }

    /// The number of the path of a file that wasn't asked for, as `number_of` has it.
    fn find_number(
        &mut self,
        header: &LineProgramHeader<R>,
        file: &FileEntry<R>,
        index: u64,
    ) -> Result<Option<usize>> {
        let Some(path) = self.written.of_file(header, index)? else {
            return Ok(None);
        };
        if !self.is_named(&path)? {
            return Ok(None);
        }
        let entry = sum_of_entry(file)?;
        if let Some(number) = self.of_unit.get(&entry).copied() {
            return Ok(Some(number));
        }
        let unit = header.offset().0.into_u64();
        self.digests.begin(unit, &path, &mut self.budget)?;
        let number = self.number_of_path(path)?;
        self.of_unit.insert(entry, number)?;
        Ok(Some(number))
    }

    /// Whether a path ends with the components that are asked for, where a line is.
    fn is_named(&mut self, path: &WrittenPath<R>) -> Result<bool> {
        if !matches!(self.place, SourcePlace::Line { .. }) {
            return Ok(true);
        }
        let components = components_of(self.alloc, &self.end)?;
        path.ends_with(&components, &mut self.budget)
    }

    /// The number of a path in the directory that was begun last, or in none. It is appended where
    /// it is new; where it isn't, its bytes count toward the budget.
    fn number_of_path(&mut self, path: WrittenPath<R>) -> Result<usize> {
        let sum = self.digests.of_bytes(&path)?;
        if let Some(number) = self.numbers.get(&sum).copied() {
            self.budget.count(path.own_length());
            return Ok(number);
        }
        let number = self.paths.len();
        self.paths.push(path)?;
        self.numbers.insert(sum, number)?;
        Ok(number)
    }

    /// Puts the rows in order, each address of a line once: a statement where one of its rows is.
    fn sort(&mut self) -> Result<()> {
        self.rows.sort()?;
        self.rows.dedup_by(|row, before| {
            let place = (before.path, before.line, before.address);
            let is_beside = (row.path, row.line, row.address) == place;
            before.is_stmt |= is_beside && row.is_stmt;
            is_beside
        });
        self.ordered = self.rows.len();
        Ok(())
    }

    /// Makes the buffer large enough for the longest path.
    fn reserve(&mut self) -> Result<()> {
        let mut most = 0;
        for path in &self.paths {
            most = path.most().max(most);
        }
        match usize::try_from(most) {
            Ok(most) => self.path.reserve(most),
            Err(_) => Err(AllocError),
        }
    }

    /// Adds the rows of the next unit, whose fault is reported, and returns whether more may
    /// follow. After the last one the rows are put in order; that no file has the place is
    /// reported. There are none where more bytes of paths were read than may be, which is reported.
    pub fn add_next(&mut self, output: &mut Output<'_>) -> Result<bool> {
        match self.walk.next_rows(output)? {
            Some(mut unit) => self.add_unit(&mut unit, output),
            None => self.finish(output),
        }
    }

    /// Whether more bytes of paths were read than may be, which is reported. Then there are no
    /// paths.
    fn is_refused(&mut self, output: &mut Output<'_>) -> bool {
        let is_refused = self.budget.is_spent();
        if is_refused {
            output.clear();
            output.tell(self.budget);
            self.paths.clear();
        }
        is_refused
    }

    /// Puts the rows in order, makes the buffer large enough for each path, and reports that no
    /// file has the place.
    fn finish(&mut self, output: &mut Output<'_>) -> Result<bool> {
        self.sort()?;
        self.reserve()?;
        if self.paths.is_empty() {
            let (text, name) = match self.place {
                SourcePlace::Line { path, .. } => ("no file's path ends with %", path),
                SourcePlace::Function(name) => ("no rows have the code of %", name),
            };
            tell(text, &[Piece::Name(name)], output);
        }
        Ok(false)
    }
}

/// What is searched for: the end of paths where a line is asked for, and the addresses of a
/// function where one is. None where no function has the name, which is reported.
fn searched_of(
    alloc: Global,
    functions: &Functions<'_>,
    place: SourcePlace<'_>,
    output: &mut Output<'_>,
) -> Result<Option<(Vec<u8>, (u64, u64))>> {
    match place {
        SourcePlace::Line { path, .. } => {
            let end = bytes_of_word(alloc, path)?;
            Ok(Some((end, (0, 0))))
        }
        SourcePlace::Function(name) => {
            let word = bytes_of_word(alloc, name)?;
            let Some(code) = functions.range_of(&word) else {
                tell("no function has the name %", &[Piece::Name(name)], output);
                note_hints(alloc, functions, name, output)?;
                return Ok(None);
            };
            let count = functions.starts_of(alloc, &word)?.len() as u64;
            if count > 1 {
                let pieces = [Piece::Number(count), Piece::Name(name)];
                note("the first of % functions of the name %", &pieces, output);
            }
            Ok(Some((word, code)))
        }
    }
}
