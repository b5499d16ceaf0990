//! A conversion whose rows are the source's, and are known to be.

ghost use Rattle.std.specs.Prelude.{IfOk, None};
ghost use Rattle.gimli_write.specs.convert.Mapped.{AreSourceRows};
ghost use Rattle.gimli_write.specs.convert.Sources.{to_convert};

use gimli_core::{Endianity, Reader};
use gimli_line::IncompleteLineProgram;
use gimli_write::{
    Address, ConvertError, ConvertResult, DebugLine, EndianVec, FileId, LineStringTable, RoundTrip,
    StringTable, convert_and_read_back, no_sequence_ends_under_tombstone,
};

/// Converts a program by its own encodings, each address as it is, writes it and reads it back. The
/// rows that are read are those of the source. Refused where a sequence ends under a tombstone, so
/// that rows would be without an end.
pub fn same_rows<R: Reader, E: Endianity>(
    debug_str: R,
    debug_line_str: R,
    source: IncompleteLineProgram<R>,
    lines: &mut DebugLine<EndianVec<E>>,
    line_strings: &mut LineStringTable,
    strings: &mut StringTable,
) -> ConvertResult<(RoundTrip, Vec<FileId>)>
    ensures faithful { IfOk result (λ answer. AreSourceRows
        (to_convert R.seen debug_str debug_line_str source None None None)
        answer.1.items answer.0.rows.items) }
{
    if !no_sequence_ends_under_tombstone(&source) {
        return Err(ConvertError::MissingLineEndSequence);
    }
    convert_and_read_back(
        debug_str,
        debug_line_str,
        source,
        None,
        None,
        None,
        lines,
        line_strings,
        strings,
        |address| Some(Address::Constant(address)),
    )
}
