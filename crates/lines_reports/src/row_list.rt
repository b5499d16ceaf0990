//! The command `rows`: the rows of units.

use crate::report::Reading;
use gimli_core::Reader;
use gimli_line::LineRow;
use lines_inputs::{
    FlagLetters, Piece, Result, UnitRows, column_of, flags_of, line_of, tell_of_unit,
};
use lines_words::{Form, Json, JsonBytes, Output, PathText, last_part};
use std::alloc::Global;
use std::collections::BTreeMap;

/// How many rows are printed before they are handed on.
const SOME: u64 = 1024;

/// How many bytes of texts are kept of the files of a unit.
const KEPT: usize = 1 << 20;

/// The bytes that a text takes besides its own.
const BESIDE: usize = 128;

/// How the rows of units are printed.
#[derive(Drop)]
pub(crate) struct RowList {
    form: Form,
    /// The file of the last row.
    file: Option<u64>,
    /// How the path of that file is printed.
    path: String,
    /// How the paths of files of the unit are printed, by their indices, since rows go back to a
    /// file often.
    texts: BTreeMap<u64, String>,
    /// The bytes that these take.
    bytes: usize,
}

impl RowList {
    /// No row was printed.
    pub(crate) fn new(alloc: Global, form: Form) -> RowList {
        RowList {
            form,
            file: None,
            path: String::new(alloc),
            texts: BTreeMap::new(alloc),
            bytes: 0,
        }
    }

    /// Prints the headings of a unit that is new, or else some of its rows, and returns whether
    /// more follows.
    pub(crate) fn print_unit<R: Reader>(
        &mut self,
        reading: &mut Reading<R>,
        unit: &mut UnitRows<R>,
        is_new: bool,
        output: &mut Output<'_>,
    ) -> Result<bool> {
        if is_new {
            self.begin(reading.alloc, unit, output);
            return Ok(true);
        }
        self.print_some(reading, unit, output)
    }

    /// Prints the headings of a unit.
    fn begin<R: Reader>(&mut self, alloc: Global, unit: &UnitRows<R>, output: &mut Output<'_>) {
        output.print_unit_heading(unit.offset, unit.header().version());
        output.print_heading("           address     line  column  discr  isa  flags  file");
        self.file = None;
        self.forget(alloc);
    }

    /// Keeps no text.
    fn forget(&mut self, alloc: Global) {
        self.texts = BTreeMap::new(alloc);
        self.bytes = 0;
    }

    /// Prints some rows of a unit. False after the last one, and after a fault, which is reported.
    fn print_some<R: Reader>(
        &mut self,
        reading: &mut Reading<R>,
        unit: &mut UnitRows<R>,
        output: &mut Output<'_>,
    ) -> Result<bool> {
        for _ in 0..SOME {
            if output.is_full() || reading.budget.is_spent() {
                break;
            }
            if !self.print_next(reading, unit, output)? {
                return Ok(false);
            }
        }
        Ok(true)
    }

    /// Prints the next row of a unit. False where there is none, and at a fault, which is reported.
    fn print_next<R: Reader>(
        &mut self,
        reading: &mut Reading<R>,
        unit: &mut UnitRows<R>,
        output: &mut Output<'_>,
    ) -> Result<bool> {
        match unit.next_row()? {
            Some(row) => self.print_row(&row, reading, unit, output),
            None => {
                unit.tell_fault(output);
                Ok(false)
            }
        }
    }

    /// Prints a row of a unit.
    fn print_row<R: Reader>(
        &mut self,
        row: &LineRow,
        reading: &mut Reading<R>,
        unit: &UnitRows<R>,
        output: &mut Output<'_>,
    ) -> Result<bool> {
        if self.file != Some(row.file_index()) {
            self.turn_to(row.file_index(), reading, unit, output)?;
        }
        self.print(row, unit.offset, output);
        Ok(true)
    }

    /// Prints a row of the unit at an offset, whose file is known.
    fn print(&self, row: &LineRow, unit: u64, output: &mut Output<'_>) {
        match self.form {
            Form::Json => print_json(unit, row, &self.path, output),
            _ => print_text(row, &self.path, output),
        }
    }

    /// Goes on to rows of another file.
    fn turn_to<R: Reader>(
        &mut self,
        file: u64,
        reading: &mut Reading<R>,
        unit: &UnitRows<R>,
        output: &mut Output<'_>,
    ) -> Result<()> {
        self.file = Some(file);
        if let Some(text) = self.texts.get(&file) {
            self.path.clear();
            self.path.push_str(text)?;
            return Ok(());
        }
        self.look_up(file, reading, unit, output)
    }

    /// Keeps how the path of a file is printed. Where it has none, that is reported each time that
    /// rows turn to it.
    fn look_up<R: Reader>(
        &mut self,
        file: u64,
        reading: &mut Reading<R>,
        unit: &UnitRows<R>,
        output: &mut Output<'_>,
    ) -> Result<()> {
        let is_whole = !matches!(self.form, Form::Text);
        let (path, fault) = reading.path_of(unit.header(), file, is_whole)?;
        self.path = path_text(reading.alloc, self.form, path.as_deref())?;
        if let Some(fault) = fault {
            let rows = Piece::Rows(unit.count.saturating_sub(1));
            let pieces = [rows, Piece::Fault(fault)];
            tell_of_unit(unit.offset, "after %: %", &pieces, output);
            return Ok(());
        }
        self.keep(reading.alloc, file)
    }

    /// Keeps the text of a file, unless it is long.
    fn keep(&mut self, alloc: Global, file: u64) -> Result<()> {
        let bytes = self.path.len().saturating_add(BESIDE);
        if bytes > KEPT {
            return Ok(());
        }
        if self.bytes.saturating_add(bytes) > KEPT {
            self.forget(alloc);
        }
        self.bytes = self.bytes.saturating_add(bytes);
        let text = String::from_str(alloc, &self.path)?;
        self.texts.insert(file, text)?;
        Ok(())
    }
}

/// How a path is printed, as a value of JSON, whole or by its last part.
fn path_text(alloc: Global, form: Form, path: Option<&[u8]>) -> Result<String> {
    if let Form::Json = form {
        let (name, bytes) = ("path", path);
        let path = JsonBytes { name, bytes };
        return format!(in alloc; "{path}");
    }
    let path = path.unwrap_or(b"??");
    let path = PathText(match form {
        Form::Text => last_part(path),
        _ => path,
    });
    format!(in alloc; "{path}")
}

/// Prints a row for people.
fn print_text(row: &LineRow, path: &str, output: &mut Output<'_>) {
    let address = row.address();
    let line = line_of(row);
    let column = column_of(row);
    let discriminator = row.discriminator();
    let isa = row.isa();
    let flags = FlagLetters(*row);
    if discriminator == 0 && isa == 0 {
        // Most rows have these values, so two numbers fewer are written.
        return output.print(format_args!(
            "0x{address:016x}  {line:>7}  {column:>6}      0    0  {flags}  {path}"
        ));
    }
    output.print(format_args!(
        "0x{address:016x}  {line:>7}  {column:>6}  {discriminator:>5}  {isa:>3}  {flags}  {path}"
    ));
}

/// Prints a row as a JSON object.
fn print_json(offset: u64, row: &LineRow, path: &str, output: &mut Output<'_>) {
    let flags = flags_of(row);
    let fields = [
        ("unit", Json::Offset(Some(offset))),
        ("address", Json::Offset(Some(row.address()))),
        ("op_index", Json::Number(row.op_index())),
        ("path", Json::Written(path)),
        ("file", Json::Number(row.file_index())),
        ("line", Json::Number(line_of(row))),
        ("column", Json::Number(column_of(row))),
        ("discriminator", Json::Number(row.discriminator())),
        ("isa", Json::Number(row.isa())),
    ];
    output.add_fields("{", &fields);
    output.add_fields(",", &[("flags", Json::Flags(&flags))]);
    output.print("}");
}
