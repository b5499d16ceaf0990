//! What a check looks at in the rows of a unit.

use crate::findings::Findings;
use crate::report::Reading;
use gimli_core::{Error, Reader};
use gimli_line::LineRow;
use lines_inputs::Piece;
use lines_words::{FindingKind, Notation, Output};

/// The addresses of a sequence, by its rows that are not left out.
#[derive(Clone, Copy, PartialEq, Eq, PartialOrd, Ord)]
pub(crate) struct Sequence {
    /// The least address of its rows.
    pub(crate) start: u64,
    /// The address of its end.
    pub(crate) end: u64,
    /// The offset of its unit.
    pub(crate) unit: u64,
}

/// The rows of a unit up to one of them, without those that are left out.
#[derive(Clone, Copy)]
pub(crate) struct RowCheck {
    /// What was found, in units before this one too.
    pub(crate) findings: Findings,
    /// Where code is.
    notation: Notation,
    /// Whether code has its addresses.
    is_linked: bool,
    /// How many rows there were.
    rows: u64,
    /// How many of them there were since the last end.
    rows_since_end: u64,
    /// The least address of the rows since the last end.
    start: Option<u64>,
}

impl RowCheck {
    /// No row of a unit was looked at.
    pub(crate) fn new<R: Reader>(findings: Findings, reading: &Reading<R>) -> RowCheck {
        RowCheck {
            findings,
            notation: reading.input.notation,
            is_linked: reading.input.is_linked,
            rows: 0,
            rows_since_end: 0,
            start: None,
        }
    }

    /// Prints the fault of the instruction at a byte of the section, which ends the program.
    pub(crate) fn stop(&mut self, byte: u64, fault: Error, output: &mut Output<'_>) {
        let (kind, rows) = (FindingKind::Program, Piece::Rows(self.rows));
        let pieces = [Piece::Address(byte), rows, Piece::Error(fault)];
        self.findings
            .find(kind, Some(byte), "at byte %, after %: %", &pieces, output);
    }

    /// Looks at an address that was set, and is a tombstone for the rows that follow. They are left
    /// out: then code was dropped, or addresses go down from the one before. In an object file each
    /// section begins at 0, so addresses may go down there.
    pub(crate) fn look_at_address(&mut self, address: u64, before: u64, output: &mut Output<'_>) {
        let rows = Piece::Rows(self.rows);
        let (from, to) = (Piece::Address(before), Piece::Address(address));
        if address >= before || address == 0 && self.notation.lowest > 0 {
            let text =
                "after %: the address % stands for dropped code, and what follows is left out";
            self.findings
                .find(FindingKind::Dropped, None, text, &[rows, to], output);
        } else if self.is_linked {
            let text = "after %: the address goes down from % to %, and what follows is left out";
            self.findings.find(FindingKind::GoesDown, None, text, &[rows, from, to], output);
        }
    }

    /// Keeps the least address of the rows of a sequence, and looks at the first one, and at the
    /// file of each.
    pub(crate) fn add_row(&mut self, row: &LineRow, has_file: bool, output: &mut Output<'_>) {
        self.rows = self.rows.saturating_add(1);
        self.rows_since_end = self.rows_since_end.saturating_add(1);
        let number = Piece::Number(self.rows);
        let address = row.address();
        let lowest = self.notation.lowest;
        if self.start.is_none() && address < lowest {
            // Code that is dropped is at address 0 too.
            let kind = if address == 0 {
                FindingKind::Dropped
            } else {
                FindingKind::BelowCode
            };
            let text = "row %: a sequence begins at %, below the lowest address of code, %";
            let pieces = [number, Piece::Address(address), Piece::Address(lowest)];
            self.findings.find(kind, None, text, &pieces, output);
        }
        self.start = Some(self.start.unwrap_or(address).min(address));
        if !has_file {
            let text = "row % at %: the header has no file %";
            let file = Piece::Number(row.file_index());
            let pieces = [number, Piece::Address(address), file];
            self.findings
                .find(FindingKind::NoFile, None, text, &pieces, output);
        }
    }

    /// Looks at a row that ends a sequence, and returns the sequence. One that begins below the
    /// lowest address of code or past the end of code is dead, and one without an address between
    /// its start and its end overlaps nothing.
    pub(crate) fn end_sequence(
        &mut self,
        end: u64,
        is_left_out: bool,
        output: &mut Output<'_>,
    ) -> Option<Sequence> {
        self.rows = self.rows.saturating_add(u64::from(!is_left_out));
        self.rows_since_end = 0;
        let start = self.start.take()?;
        if is_left_out || start >= end || start < self.notation.lowest {
            return None;
        }
        if start >= self.notation.code_end {
            let text = "the sequence from % to % begins past the end of code, %";
            let last = Piece::Address(self.notation.code_end);
            let pieces = [Piece::Address(start), Piece::Address(end), last];
            self.findings
                .find(FindingKind::PastCode, None, text, &pieces, output);
            return None;
        }
        let unit = self.findings.unit;
        Some(Sequence { start, end, unit })
    }

    /// Looks at the end of the program.
    pub(crate) fn finish(&mut self, output: &mut Output<'_>) {
        if self.rows_since_end > 0 {
            let pieces = [Piece::Rows(self.rows_since_end)];
            let text = "no sequence ends after the last %";
            self.findings
                .find(FindingKind::NoEnd, None, text, &pieces, output);
        }
    }
}
