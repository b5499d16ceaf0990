//! What a check looks at in the files of a unit.

use crate::findings::Findings;
use crate::report::Reading;
use gimli_core::Reader;
use gimli_line::LineProgramHeader;
use lines_inputs::{Piece, Result};
use lines_words::{FindingKind, Output};
use sha2::{Digest, Sha256};
use std::alloc::Global;

/// How far the files of a unit were looked at.
#[derive(Drop)]
pub(crate) struct FileCheck {
    /// The index of the next one.
    next: u64,
    /// The SHA-256 of each path, so that it takes no more memory than the file does, and the index
    /// of the file. They are sorted once all are there.
    paths: Vec<([u8; 32], u64)>,
    /// How many of these were looked at.
    looked_at: usize,
}

impl FileCheck {
    /// None was looked at.
    pub(crate) fn new(alloc: Global) -> FileCheck {
        FileCheck {
            next: 0,
            paths: Vec::new(alloc),
            looked_at: 0,
        }
    }

    /// Prints files that have no path, and then those that have the path of a file before them,
    /// until the output is full. False after the last one.
    pub(crate) fn look_at_some<R: Reader>(
        &mut self,
        reading: &mut Reading<R>,
        header: &LineProgramHeader<R>,
        findings: &mut Findings,
        output: &mut Output<'_>,
    ) -> Result<bool> {
        let count = header.file_names().len() as u64;
        for index in self.next..=count {
            if output.is_full() || reading.budget.is_spent() {
                return Ok(true);
            }
            self.next = index.saturating_add(1);
            self.look_at(index, reading, header, findings, output)?;
        }
        if self.looked_at == 0 {
            self.paths.sort()?;
        }
        Ok(self.print_duplicates(findings, output))
    }

    /// Keeps the path of the file at an index, or prints why it has none.
    fn look_at<R: Reader>(
        &mut self,
        index: u64,
        reading: &mut Reading<R>,
        header: &LineProgramHeader<R>,
        findings: &mut Findings,
        output: &mut Output<'_>,
    ) -> Result<()> {
        if header.file(index).is_none() {
            return Ok(());
        }
        let (path, fault) = reading.path_of(header, index, false)?;
        if let Some(path) = path {
            self.paths.push((Sha256::digest(path.as_slice()), index))?;
        }
        if let Some(fault) = fault {
            let pieces = [Piece::Number(index), Piece::Fault(fault)];
            findings.find(FindingKind::NoPath, None, "file %: %", &pieces, output);
        }
        Ok(())
    }

    /// Prints each file whose path is that of the file before it, until the output is full. False
    /// after the last one.
    fn print_duplicates(&mut self, findings: &mut Findings, output: &mut Output<'_>) -> bool {
        for _ in 0..u64::MAX {
            if output.is_full() {
                return true;
            }
            let end = self.looked_at.saturating_add(2);
            match self.paths.get(self.looked_at..end) {
                Some([(path, first), (other, second)]) => {
                    if path == other {
                        print_duplicate(*first, *second, findings, output);
                    }
                }
                _ => break,
            }
            self.looked_at = self.looked_at.saturating_add(1);
        }
        false
    }
}

/// Prints that two files have one path.
fn print_duplicate(first: u64, second: u64, findings: &mut Findings, output: &mut Output<'_>) {
    // File 0 is the file of the compilation, and may be in the table once more.
    let kind = if first == 0 {
        FindingKind::FileZero
    } else {
        FindingKind::SamePath
    };
    let pieces = [Piece::Number(first), Piece::Number(second)];
    let text = "files % and % have the same path";
    findings.find(kind, None, text, &pieces, output);
}
