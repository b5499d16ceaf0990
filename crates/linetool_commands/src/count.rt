//! The number of rows of a program or of a sequence.

use crate::refusal::Refusal;
use gimli_core::Reader;
use gimli_line::{LineProgram, LineRows};

/// Counts the rows that are still to come, ends among them. Refused by the first fault, which is
/// one of rows.
pub(crate) fn count_rows<R: Reader, P: LineProgram<R> + Drop>(
    rows: LineRows<R, P>,
) -> Result<u64, Refusal> {
    let mut rows = rows;
    for count in 0..u64::MAX {
        match rows.next_row() {
            Ok(Some(_)) => {}
            Ok(None) => return Ok(count),
            Err(e) => return Err(Refusal::of_unit(e, Refusal::Rows)),
        }
    }
    Ok(u64::MAX)
}
