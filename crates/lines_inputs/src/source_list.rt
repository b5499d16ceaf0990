//! How lines of source are printed, with the addresses of their code.

use crate::Result;
use crate::functions::Functions;
use crate::locate::SourceLine;
use crate::piece::Piece;
use crate::sentence::{add, note, print};
use lines_words::{ColumnMark, Json, Output, PathText, SourcePlace, Style};
use std::alloc::Global;

/// Blanks as wide as the greatest address is.
const BLANKS: &str = "                  ";

/// A row of a line of a file.
#[derive(Clone, Copy, PartialEq, Eq, PartialOrd, Ord)]
pub struct SourceRow {
    /// The number of the path.
    pub path: usize,
    /// The line.
    pub line: u64,
    /// The address.
    pub address: u64,
    /// Whether it is a statement.
    pub is_stmt: bool,
}

/// The lines of a file, without their ends.
fn lines_of(alloc: Global, file: &[u8]) -> Result<Vec<&[u8]>> {
    if file.is_empty() {
        return Ok(Vec::new(alloc));
    }
    let whole = file.strip_suffix(b"\n").unwrap_or(file);
    whole.split(|byte| *byte == b'\n').collect(alloc)
}

/// A line of these, counted from 1; None where there is none of the number. The carriage return
/// that Windows writes before a line's end is no part of it.
fn line_at<'f>(lines: &[&'f [u8]], line: u64) -> Option<&'f [u8]> {
    let index = usize::try_from(line.checked_sub(1)?).ok()?;
    let text = *lines.get(index)?;
    Some(text.strip_suffix(b"\r").unwrap_or(text))
}

/// Prints the line of a place in its file, and below it a mark at the column, unless the column is
/// the left edge. Prints nothing where the file has no such line.
pub fn print_below(
    alloc: Global,
    place: &SourceLine,
    file: &[u8],
    output: &mut Output<'_>,
) -> Result<()> {
    let lines = lines_of(alloc, file)?;
    let Some(text) = line_at(&lines, place.line) else {
        return Ok(());
    };
    print("  %", &[Piece::Source(text)], output);
    if place.column > 0 {
        let column = place.column;
        let mark = ColumnMark { text, column };
        output.print(format_args!("  {mark}"));
    }
    Ok(())
}

/// Prints the lines of a file about one that is asked for, or else about its rows. If the file
/// can't be read, prints a note, and the lines without their text. The functions know where the
/// sections of an object file are placed.
pub fn print_lines<'x>(
    alloc: Global,
    path: &[u8],
    file: Option<Vec<u8>>,
    rows: &[SourceRow],
    functions: &'x Functions<'x>,
    place: SourcePlace<'_>,
    context: u64,
    output: &mut Output<'_>,
) -> Result<()> {
    if file.is_none() {
        let path = Piece::Path(Some(path));
        note("the source file % can't be read", &[path], output);
    }
    let file = file.unwrap_or(Vec::new(alloc));
    let lines = lines_of(alloc, &file)?;
    let asked = match place {
        SourcePlace::Line { line, .. } => Some(line),
        SourcePlace::Function(_) => None,
    };
    let ranges = ranges_of(alloc, asked, rows, context)?;
    let listing = SourceListing {
        path,
        lines: &lines,
        asked,
        rows,
        functions,
    };
    listing.print(&ranges, output);
    Ok(())
}

/// The lines that are printed about the one that is asked for, or else about rows, each range by
/// its first line and its last: so many before and after, where ranges that meet are one.
fn ranges_of(
    alloc: Global,
    asked: Option<u64>,
    rows: &[SourceRow],
    context: u64,
) -> Result<Vec<(u64, u64)>> {
    let around = |line: u64| (
        line.saturating_sub(context).max(1),
        line.saturating_add(context),
    );
    let mut ranges: Vec<(u64, u64)> = Vec::new(alloc);
    if let Some(line) = asked {
        ranges.push(around(line))?;
        return Ok(ranges);
    }
    for row in rows.iter().filter(|row| row.line > 0) {
        let (first, last) = around(row.line);
        match ranges.last_mut() {
            Some(before) if first <= before.1.saturating_add(1) => before.1 = last,
            _ => ranges.push((first, last))?,
        }
    }
    Ok(ranges)
}

/// Lines of a file, with their rows.
#[derive(Clone, Copy)]
struct SourceListing<'l> {
    path: &'l [u8],
    /// The lines of the file; none where it can't be read.
    lines: &'l [&'l [u8]],
    /// The line that is asked for.
    asked: Option<u64>,
    /// The rows in the order of their lines.
    rows: &'l [SourceRow],
    functions: &'l Functions<'l>,
}

impl<'l> SourceListing<'l> {
    /// Prints the lines of ranges.
    fn print(self, ranges: &[(u64, u64)], output: &mut Output<'_>) {
        output.print_heading(PathText(self.path));
        for (number, (first, last)) in ranges.iter().enumerate() {
            if number > 0 && !output.is_json() {
                output.print("...");
            }
            self.print_range(*first, *last, output);
        }
    }

    /// Prints the lines of a range: of those past the end of the file only such as may be printed.
    fn print_range(self, first: u64, last: u64, output: &mut Output<'_>) {
        let count = self.lines.len() as u64;
        for line in first..=last.min(count) {
            self.print_line(line, output);
        }
        let mut past = count.saturating_add(1).max(first);
        for _ in 0..u64::MAX {
            match self.next_line(past) {
                Some(line) if line <= last => {
                    self.print_line(line, output);
                    past = line.saturating_add(1);
                }
                _ => break,
            }
            if past > last {
                break;
            }
        }
    }

    /// The first line from a line on that has rows, or is asked for.
    fn next_line(self, from: u64) -> Option<u64> {
        let index = self.rows.partition_point(|row| row.line < from);
        let of_row = self.rows.get(index).map(|row| row.line);
        match self.asked {
            Some(asked) if asked >= from => Some(of_row.map_or(asked, |line| line.min(asked))),
            _ => of_row,
        }
    }

    /// Prints a line that has a text or rows, or is asked for.
    fn print_line(self, line: u64, output: &mut Output<'_>) {
        let text = line_at(self.lines, line);
        let start = self.rows.partition_point(|row| row.line < line);
        let end = self.rows.partition_point(|row| row.line <= line);
        let rows = self.rows.get(start..end).unwrap_or(&[]);
        if text.is_none() && rows.is_empty() && self.asked != Some(line) {
            return;
        }
        if output.is_json() {
            self.print_json(line, text, rows, output);
        } else {
            self.print_text(line, text.unwrap_or(b""), rows, output);
        }
    }

    /// Prints a line next to its first row, and the other rows below it.
    fn print_text(self, line: u64, text: &[u8], rows: &[SourceRow], output: &mut Output<'_>) {
        let is_asked = self.asked == Some(line);
        let (mark, Style { begin, end }) = match is_asked {
            true => (">", output.heading()),
            false => (" ", Style::PLAIN),
        };
        let (begin, mark) = (Piece::Word(begin), Piece::Word(mark));
        add("%%%", &[begin, mark, Piece::WideNumber(line, 6)], output);
        match rows.first() {
            Some(row) => self.add_row(row, output),
            None if !text.is_empty() => output.add("                       "),
            None => {}
        }
        if !text.is_empty() {
            add("  %", &[Piece::Source(text)], output);
        }
        output.print(end);
        for row in rows.iter().skip(1) {
            output.add("       ");
            self.add_row(row, output);
            output.print("");
        }
    }

    /// Prints a line as an object of JSON.
    fn print_json(
        self,
        line: u64,
        text: Option<&'l [u8]>,
        rows: &[SourceRow],
        output: &mut Output<'_>,
    ) {
        let fields = [
            ("path", Json::Bytes(Some(self.path))),
            ("line", Json::Number(line)),
            ("text", Json::Bytes(text)),
            ("rows", Json::Written("[")),
        ];
        output.add_fields("{", &fields);
        let mut first = "";
        for row in rows {
            output.add(first);
            self.add_row_json(row, output);
            first = ",";
        }
        output.print("]}");
    }

    /// Prints the address of a row, and `s` for a statement or else a hyphen.
    fn add_row(self, row: &SourceRow, output: &mut Output<'_>) {
        let letter = if row.is_stmt { "s" } else { "-" };
        let (piece, width) = match self.functions.place_of(row.address) {
            Some((name, offset)) => (
                Piece::InSection(name, offset),
                name.len()
                    .saturating_add(1)
                    .saturating_add(width_of(offset)),
            ),
            None => (Piece::Address(row.address), width_of(row.address)),
        };
        let blanks = BLANKS.get(width..).unwrap_or("");
        add(
            "  %%  %",
            &[piece, Piece::Word(blanks), Piece::Word(letter)],
            output,
        );
    }

    /// Prints a row as an object of JSON.
    fn add_row_json(self, row: &SourceRow, output: &mut Output<'_>) {
        let place = self.functions.place_of(row.address);
        let address = place.map_or(row.address, |(_, offset)| offset);
        output.add_fields("{", &[("address", Json::Offset(Some(address)))]);
        if let Some((name, _)) = place {
            output.add_fields(",", &[("section", Json::Bytes(Some(name)))]);
        }
        output.add_fields(",", &[("is_stmt", Json::Holds(row.is_stmt))]);
        output.add("}");
    }
}

/// How wide an address is, with `0x`.
fn width_of(address: u64) -> usize {
    let mut rest = address;
    let mut width = 3usize;
    for _ in 0..16 {
        rest /= 16;
        if rest > 0 {
            width = width.saturating_add(1);
        }
    }
    width
}
