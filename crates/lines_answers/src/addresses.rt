//! The command `at`: the addresses to break at for a line or for a function.

use crate::components::components_of;
use crate::counted_rows::{WholeRun, units_of};
use crate::covering::{Covering, CoveringRow};
use crate::hints::note_hints;
use crate::line_search::{LineRows, RowCounts};
use crate::meant_files::MeantFiles;
use crate::path_rows::column_at;
use crate::written_path::WrittenPaths;
use gimli_core::Reader;
use gimli_line::LineRow;
use lines_inputs::{Functions, Input, PathBudget, Piece, Result, add, column_of, line_of, note};
use lines_words::{Json, Output, Request, SourcePlace, bytes_of_word};
use std::alloc::Global;
use std::collections::BTreeSet;

/// Up to how many functions the rows are looked for without keeping all rows.
const FEW: usize = 8;

/// The addresses to break at for a line, in each file whose whole path ends with the components
/// that are asked for, each path once. Where none of its rows is a statement, these are the
/// addresses of these rows; where it has none, those of the next line that has statements.
#[derive(Drop)]
pub struct Addresses<'s, R: Reader> {
    search: Search<'s, R>,
    rows: LineRows,
    /// The line that is asked for.
    line: u64,
    /// The number of the path whose addresses are printed.
    number: usize,
    /// Which of them come next.
    stage: Stage,
    /// How many rows of the stage were seen.
    seen: usize,
    /// The path; no bytes before it is printed.
    path: Vec<u8>,
    /// The address that was printed last of the rows that are no statements.
    last: Option<u64>,
    /// The addresses of statements that were printed.
    printed: BTreeSet<u64>,
    /// Where the functions that are asked for begin.
    starts: Vec<u64>,
    /// Whether a path had addresses.
    is_found: bool,
}

/// Which addresses of a path come next.
#[derive(Clone, Copy)]
enum Stage {
    /// None: the path isn't begun.
    Path,
    /// Those of the rows of the line that are no statements.
    Others,
    /// Those of the statements of a line.
    Statements(u64),
    /// Where the functions begin.
    Starts,
}

impl<'s, R: Reader> Addresses<'s, R> {
    /// Finds the addresses of a place: those of a line, or where the functions of a name begin.
    /// None where there is none, which is reported; the command ends as refused then.
    pub fn new(
        alloc: Global,
        input: &'s Input<R>,
        functions: &'s Functions<'s>,
        request: &'s Request<'s>,
        place: SourcePlace<'_>,
        output: &mut Output<'_>,
    ) -> Result<Option<Addresses<'s, R>>> {
        let reading = Reading {
            alloc,
            input,
            functions,
            request,
        };
        match place {
            SourcePlace::Line { path, line } => reading.find_line(path, line, output),
            SourcePlace::Function(name) => reading.find_functions(name, output),
        }
    }

    /// Finds the addresses of the line in the files whose path ends so. False where no file has
    /// such a path, and where more bytes of paths were read than may be, which is reported.
    fn find(&mut self, path: &str, output: &mut Output<'_>) -> Result<bool> {
        self.search.add_files(path, output)?;
        if !self.search.has_files(path, output) {
            output.refuse();
            return Ok(false);
        }
        self.search.find_rows(&mut self.rows, self.line, output)?;
        let addresses = self.asked_addresses(output)?;
        self.search.cover(addresses)?;
        Ok(true)
    }

    /// Finds where the functions of a name begin. False where no function has the name, and where
    /// no row covers its code, which is reported.
    fn find_functions(&mut self, name: &str, output: &mut Output<'_>) -> Result<bool> {
        self.search.count_rows(None, output)?;
        self.starts = self.search.reading.starts_of(name)?;
        self.search.cover_starts(&self.starts)?;
        self.stage = Stage::Starts;
        let text = match self.starts.as_slice() {
            [] => "no function has the name %",
            starts if self.search.covers_none(starts) => "no rows have the code of %",
            _ => return Ok(true),
        };
        note(text, &[Piece::Name(name)], output);
        if self.starts.is_empty() {
            self.search.reading.note_hints(name, output)?;
        }
        output.refuse();
        Ok(false)
    }

    /// Prints where the next function begins; false where there is none left. One whose code no row
    /// covers is skipped.
    fn print_start(&mut self, output: &mut Output<'_>) -> Result<bool> {
        let Some(start) = self.starts.get(self.seen).copied() else {
            return Ok(false);
        };
        self.seen = self.seen.saturating_add(1);
        self.is_found |= self.search.print_start(start, output)?;
        Ok(true)
    }

    /// The addresses whose covering rows are looked up.
    fn asked_addresses(&self, output: &Output<'_>) -> Result<Vec<u64>> {
        let mut addresses = Vec::new(self.search.reading.alloc);
        self.add_addresses(&mut addresses, output)?;
        Ok(addresses)
    }

    /// Adds the addresses whose covering rows are looked up: none where those of any address are
    /// known.
    fn add_addresses(&self, addresses: &mut Vec<u64>, output: &Output<'_>) -> Result<()> {
        let request = self.search.reading.request;
        if request.is_after_prologue {
            return Ok(());
        }
        self.rows.others.add_addresses(addresses)?;
        if request.has_range || output.is_json() {
            self.rows.addresses.add_addresses(addresses)?;
        }
        Ok(())
    }

    /// Prints addresses until the output is full, and returns whether more may follow. Where there
    /// was none, the command ends as refused.
    pub fn print_next(&mut self, output: &mut Output<'_>) -> Result<bool> {
        for _ in 0..u64::MAX {
            if output.is_full() {
                return Ok(true);
            }
            match self.stage {
                Stage::Path => {
                    if !self.begin_path() {
                        break;
                    }
                }
                Stage::Others => self.print_other(output)?,
                Stage::Statements(line) => self.print_statement(line, output)?,
                Stage::Starts => {
                    if !self.print_start(output)? {
                        break;
                    }
                }
            }
        }
        if !self.is_found {
            output.refuse();
        }
        Ok(false)
    }

    /// Begins the path of the number; false where there is none.
    fn begin_path(&mut self) -> bool {
        let Some(next) = self.rows.lines.get(self.number).copied() else {
            return false;
        };
        self.seen = 0;
        self.path.clear();
        self.last = None;
        self.printed = BTreeSet::new(self.search.reading.alloc);
        self.stage = match next {
            Some(next) if next == self.line => Stage::Statements(next),
            _ => Stage::Others,
        };
        true
    }

    /// Goes on to the next path.
    fn end_path(&mut self, is_found: bool) {
        self.is_found |= is_found;
        self.number = self.number.saturating_add(1);
        self.stage = Stage::Path;
    }

    /// Puts the path together, unless it was put together before.
    fn make_path(&mut self) -> Result<()> {
        match self.search.files.paths.get(self.number) {
            Some(written) if self.path.is_empty() => written.write_to(&mut self.path),
            _ => Ok(()),
        }
    }

    /// Prints the address of the next row of the line that is no statement. Code of such a row is
    /// sure to be there if the row covers its address.
    fn print_other(&mut self, output: &mut Output<'_>) -> Result<()> {
        let rows = self.rows.others.of_path(self.number);
        let Some(address) = rows.get(self.seen).map(|row| row.address) else {
            return self.end_others(output);
        };
        self.seen = self.seen.saturating_add(1);
        if self.last == Some(address) {
            return Ok(());
        }
        let (number, line) = (self.number, self.line);
        if let Some(column) = self.search.other_column(number, line, address) {
            self.make_path()?;
            let search = &self.search;
            search.print_address(&self.path, line, false, address, Some(column), output);
            self.last = Some(address);
        }
        Ok(())
    }

    /// Goes on after the rows that are no statements: to the next path where one of them has code,
    /// or else to the next line that has statements. That the line has no code is noted.
    fn end_others(&mut self, output: &mut Output<'_>) -> Result<()> {
        if self.last.is_some() {
            self.end_path(true);
            return Ok(());
        }
        self.make_path()?;
        let (asked, path) = (Piece::Number(self.line), Piece::Path(Some(&self.path)));
        match self.rows.lines.get(self.number).copied() {
            Some(Some(next)) => {
                let text = "no code at line % of %; the next is line %";
                note(text, &[asked, path, Piece::Number(next)], output);
                self.seen = 0;
                self.stage = Stage::Statements(next);
            }
            _ => {
                note("no code from line % on in %", &[asked, path], output);
                self.end_path(false);
            }
        }
        Ok(())
    }

    /// Prints the address of the next statement of a line, each address of the path once.
    fn print_statement(&mut self, line: u64, output: &mut Output<'_>) -> Result<()> {
        let rows = self.rows.addresses.of_path(self.number);
        match rows.get(self.seen) {
            Some(row) => {
                let address = row.address;
                self.seen = self.seen.saturating_add(1);
                self.print_breakpoint(line, address, output)
            }
            None => {
                self.end_path(true);
                Ok(())
            }
        }
    }

    /// Prints where to break for a statement at an address, unless that was printed.
    fn print_breakpoint(&mut self, line: u64, address: u64, output: &mut Output<'_>) -> Result<()> {
        let breakpoint = self.search.breakpoint(address);
        if !self.printed.insert(breakpoint)? {
            return Ok(());
        }
        if breakpoint != address && self.search.print_row(breakpoint, output)? {
            return Ok(());
        }
        self.make_path()?;
        let column = column_at(self.rows.columns.of_path(self.number), address);
        self.search
            .print_address(&self.path, line, true, address, column, output);
        Ok(())
    }
}

/// What addresses are searched in.
#[derive(Clone, Copy)]
struct Reading<'s, R: Reader> {
    alloc: Global,
    input: &'s Input<R>,
    functions: &'s Functions<'s>,
    request: &'s Request<'s>,
}

impl<'s, R: Reader> Reading<'s, R> {
    /// A search for addresses, in which no file is meant yet.
    fn search(&self, output: &Output<'_>) -> Result<Search<'s, R>> {
        let (alloc, input) = (self.alloc, self.input);
        let written = WrittenPaths::new(alloc, input)?;
        let budget = PathBudget::new(input, output.memory_limit());
        // A row of another file may follow a prologue, and is printed instead.
        let are_printed = !self.request.is_after_prologue;
        Ok(Search {
            reading: *self,
            files: MeantFiles::new(alloc, written, budget, are_printed),
            counts: RowCounts::new(alloc),
            covering: Covering::nothing(alloc),
            statements: Covering::nothing(alloc),
        })
    }

    /// Prints which names may be meant by a name that no function has.
    fn note_hints(&self, name: &str, output: &mut Output<'_>) -> Result<()> {
        note_hints(self.alloc, self.functions, name, output)
    }

    /// Finds the addresses of a line in the files whose path ends so. None where there is none,
    /// which is reported.
    fn find_line(
        &self,
        path: &str,
        line: u64,
        output: &mut Output<'_>,
    ) -> Result<Option<Addresses<'s, R>>> {
        let mut addresses = self.search(output)?.begin(line);
        let is_found = addresses.find(path, output)?;
        Ok(is_found.then_some(addresses))
    }

    /// Finds where the functions of a name begin. None where there is none, which is reported.
    fn find_functions(
        &self,
        name: &str,
        output: &mut Output<'_>,
    ) -> Result<Option<Addresses<'s, R>>> {
        let mut addresses = self.search(output)?.begin(0);
        let is_found = addresses.find_functions(name, output)?;
        Ok(is_found.then_some(addresses))
    }

    /// Where the code of the functions of a name begins.
    fn starts_of(&self, name: &str) -> Result<Vec<u64>> {
        let word = bytes_of_word(self.alloc, name)?;
        self.functions.starts_of(self.alloc, &word)
    }
}

/// A search for addresses.
#[derive(Drop)]
struct Search<'s, R: Reader> {
    reading: Reading<'s, R>,
    /// The files whose paths are searched for.
    files: MeantFiles<R>,
    counts: RowCounts,
    covering: Covering<R>,
    /// The statements where functions begin, where the rows that cover these don't have them.
    statements: Covering<R>,
}

impl<'s, R: Reader> Search<'s, R> {
    /// The addresses of a line, of which none is found.
    fn begin(self, line: u64) -> Addresses<'s, R> {
        let alloc = self.reading.alloc;
        Addresses {
            search: self,
            rows: LineRows::new(alloc),
            line,
            number: 0,
            stage: Stage::Path,
            seen: 0,
            path: Vec::new(alloc),
            last: None,
            printed: BTreeSet::new(alloc),
            starts: Vec::new(alloc),
            is_found: false,
        }
    }

    /// Counts the rows of all units, and adds the files whose path ends so.
    fn add_files(&mut self, path: &str, output: &mut Output<'_>) -> Result<()> {
        let end = bytes_of_word(self.reading.alloc, path)?;
        self.add_files_of(&end, output)
    }

    /// Counts the rows of all units, and adds the files whose path ends with these bytes.
    fn add_files_of(&mut self, end: &[u8], output: &mut Output<'_>) -> Result<()> {
        let components = components_of(self.reading.alloc, end)?;
        self.count_rows(Some(&components), output)
    }

    /// Counts the rows of all units, and adds the files whose path ends with some components.
    fn count_rows(&mut self, end: Option<&[&[u8]]>, output: &mut Output<'_>) -> Result<()> {
        let mut units = units_of(self.reading.alloc, self.reading.input);
        self.counts
            .add_units(&mut units, end, &mut self.files, output)
    }

    /// Whether files are meant. That there is none whose path ends so, and that more bytes of paths
    /// were read than may be, is reported.
    fn has_files(&self, path: &str, output: &mut Output<'_>) -> bool {
        if self.files.budget.is_spent() {
            output.clear();
            output.tell(self.files.budget);
            return false;
        }
        if self.files.paths.is_empty() {
            note("no file's path ends with %", &[Piece::Name(path)], output);
            return false;
        }
        true
    }

    /// Finds the rows of a line in the files that are meant.
    fn find_rows(&self, rows: &mut LineRows, line: u64, output: &Output<'_>) -> Result<()> {
        let Reading {
            alloc,
            input,
            request,
            ..
        } = self.reading;
        let has_column = request.has_column || output.is_json();
        rows.find(alloc, input, &self.files, &self.counts, line, has_column)
    }

    /// Finds which rows cover addresses: any where those after prologues are asked for.
    fn cover(&mut self, addresses: Vec<u64>) -> Result<()> {
        let Reading {
            alloc,
            input,
            request,
            ..
        } = self.reading;
        let covering = if request.is_after_prologue {
            Covering::of_any(alloc, input)
        } else {
            Covering::of_some(alloc, input, &self.counts.all, addresses)
        };
        self.covering = covering?;
        Ok(())
    }

    /// Finds which rows cover the beginnings of functions: any rows where there are many functions,
    /// since a unit is run again for each row that isn't kept.
    fn cover_starts(&mut self, starts: &[u64]) -> Result<()> {
        let Reading { alloc, input, .. } = self.reading;
        if starts.len() > FEW {
            self.covering = Covering::of_any(alloc, input)?;
        } else {
            self.cover(Vec::from_slice(alloc, starts)?)?;
        }
        match self.covering {
            Covering::Kept(_) => self.find_statements(starts),
            Covering::Found(_) => Ok(()),
        }
    }

    /// Finds the statements at the beginnings of functions, or after their prologues.
    fn find_statements(&mut self, starts: &[u64]) -> Result<()> {
        let Reading { alloc, input, .. } = self.reading;
        let mut addresses = Vec::from_slice(alloc, starts)?;
        for start in starts {
            addresses.push(self.breakpoint(*start))?;
        }
        self.statements = Covering::of_some(alloc, input, &self.counts.all, addresses)?;
        Ok(())
    }

    /// The statement of a sequence at an address where a row of it begins that covers it; None
    /// where there is none, or the row is one itself.
    fn statement_at(&self, address: u64, covering: &CoveringRow) -> Option<LineRow> {
        if covering.row.is_stmt() || covering.row.address() != address {
            return None;
        }
        match covering.statement {
            Some(row) => Some(row),
            None => self.statements.find(address)?.statement,
        }
    }

    /// Whether no row covers any of some addresses.
    fn covers_none(&self, addresses: &[u64]) -> bool {
        for address in addresses {
            if self.covering.find(*address).is_some() {
                return false;
            }
        }
        true
    }

    /// Prints where code begins that starts at an address, and returns whether a row covers it.
    fn print_start(&mut self, start: u64, output: &mut Output<'_>) -> Result<bool> {
        let breakpoint = self.breakpoint(start);
        if self.print_row(breakpoint, output)? {
            return Ok(true);
        }
        self.print_row(start, output)
    }

    /// An address; or if it is the beginning of a function, and this is asked for, the address
    /// after the prologue: the first one whose row is marked as the end of the prologue (DWARF 5,
    /// section 6.2.2), and where none is, that of the second row, as debuggers have it.
    fn breakpoint(&self, address: u64) -> u64 {
        if !self.reading.request.is_after_prologue {
            return address;
        }
        let Some(end) = self.reading.functions.end_from(address) else {
            return address;
        };
        let mut next = address;
        for _ in 0..u64::MAX {
            match self.covering.find(next) {
                Some(found) if next < end && found.row.prologue_end() => return next,
                Some(found) if next < end => next = found.end,
                _ => break,
            }
        }
        let second = self.end_of_row(address);
        if second < end { second } else { address }
    }

    /// Prints an address by the row that covers it, or by a statement of its sequence there; false
    /// where none covers it.
    fn print_row(&mut self, address: u64, output: &mut Output<'_>) -> Result<bool> {
        let Some(mut found) = self.covering.find(address) else {
            return Ok(false);
        };
        if let Some(row) = self.statement_at(address, &found) {
            found.row = row;
        }
        let path = self.path_of(&found)?;
        let path = path.as_deref().unwrap_or(b"??");
        let (line, column) = (line_of(&found.row), Some(column_of(&found.row)));
        self.print_address(path, line, found.row.is_stmt(), address, column, output);
        Ok(true)
    }

    /// The whole path of the file of a row that covers an address; None where it isn't known. Where
    /// no rows are kept, its unit is run again.
    fn path_of(&mut self, found: &CoveringRow) -> Result<Option<Vec<u8>>> {
        let Covering::Kept(lookup) = &self.covering else {
            return self.path_in_run(found);
        };
        let unit = lookup.units().get(found.unit);
        match unit.and_then(|unit| unit.header()) {
            Some(header) => {
                let (alloc, number) = (self.reading.alloc, found.row.file_index());
                self.files.written.whole_path(alloc, header, number)
            }
            None => Ok(None),
        }
    }

    /// The whole path of the file of a row, as `path_of` has it, whose unit is run again.
    fn path_in_run(&mut self, found: &CoveringRow) -> Result<Option<Vec<u8>>> {
        let (alloc, number) = (self.reading.alloc, found.row.file_index());
        match WholeRun::at(alloc, self.reading.input, found.unit)? {
            Some(run) => self
                .files
                .written
                .whole_path(alloc, run.rows.header(), number),
            None => Ok(None),
        }
    }

    /// The column of the row that covers an address, if it begins there, and is one of a line of a
    /// path and no statement.
    fn other_column(&self, number: usize, line: u64, address: u64) -> Option<u64> {
        let CoveringRow { unit, row, .. } = self.covering.find(address)?;
        if row.address() != address || line_of(&row) != line || row.is_stmt() {
            return None;
        }
        let (_, path) = self.files.find(unit, row.file_index())?;
        if path == number {
            Some(column_of(&row))
        } else {
            None
        }
    }

    /// Prints an address of a line.
    fn print_address(
        &self,
        path: &[u8],
        line: u64,
        is_stmt: bool,
        address: u64,
        column: Option<u64>,
        output: &mut Output<'_>,
    ) {
        let (section, start) = match self.reading.functions.place_of(address) {
            Some((name, offset)) => (Some(name), offset),
            None => (None, address),
        };
        let length = self.end_of_row(address).saturating_sub(address);
        let end = start.saturating_add(length);
        if output.is_json() {
            let fields = [
                ("path", Json::Bytes(Some(path))),
                ("line", Json::Number(line)),
                ("column", Json::Number(column.unwrap_or(0))),
                ("range", Json::Range(start, end)),
                ("is_stmt", Json::Holds(is_stmt)),
            ];
            return print_object(section, start, &fields, output);
        }
        let piece = match section {
            Some(name) => Piece::InSection(name, start),
            None => Piece::Address(start),
        };
        add("%", &[piece], output);
        if self.reading.request.has_range {
            add("-%", &[Piece::Address(end)], output);
        }
        let place = [Piece::Path(Some(path)), Piece::Number(line)];
        add("  %:%", &place, output);
        match column {
            Some(column) if self.reading.request.has_column => {
                add(":%", &[Piece::Number(column)], output);
            }
            _ => {}
        }
        output.print(if is_stmt { "" } else { "  not a statement" });
    }

    /// Where the row that covers an address and begins there ends; the address itself where there
    /// is none.
    fn end_of_row(&self, address: u64) -> u64 {
        match self.covering.find(address) {
            Some(found) if found.row.address() == address => found.end,
            _ => address,
        }
    }
}

/// Prints an object of JSON about an address, in an object file with the name of its section.
fn print_object(
    section: Option<&[u8]>,
    address: u64,
    fields: &[(&str, Json<'_>)],
    output: &mut Output<'_>,
) {
    output.add_fields("{", &[("address", Json::Offset(Some(address)))]);
    if let Some(name) = section {
        output.add_fields(",", &[("section", Json::Bytes(Some(name)))]);
    }
    output.add_fields(",", fields);
    output.print("}");
}
