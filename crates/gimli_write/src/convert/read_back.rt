//! A conversion that is written and read back in one call.

ghost use Rattle.std.specs.Prelude.{IfErr, IfOk};
ghost use Rattle.gimli_bytes.specs.Texts.{KeepsTexts, texts_in};
ghost use Rattle.gimli_bytes.specs.Written.{Begins};
ghost use Rattle.gimli_write.specs.RoundTrip.{answers};
ghost use Rattle.gimli_write.specs.convert.Preparation.{CanBeHanded};
ghost use Rattle.gimli_write.specs.convert.Sources.{to_convert};
ghost use Rattle.gimli_write.specs.convert.SourceReadBack.{ReadsBackSource, IsSourceRefusal};

use crate::convert::program::convert_program;
use crate::convert_error::ConvertResult;
use crate::read_back::{RoundTrip, round_trip};
use gimli_build::FileId;
use gimli_bytes::{Address, DebugLine, EndianVec, LineStringTable, StringTable};
use gimli_core::{Encoding, Endianity, LineEncoding, Reader};
use gimli_line::IncompleteLineProgram;

/// Converts a program, writes it and reads it back: `convert_program`, and then `round_trip` of
/// what it built, by the encoding of that. Returns what is read, and for each file number of the
/// source its id, which is its index among the files that are read; up to version 4 of the source
/// none has number 0.
///
/// The files that are read have the paths of those of the source, and what is known of them. Where
/// each address is mapped to itself, addresses are at least as wide as the source's, and no
/// sequence that gave a row ends under a tombstone, the rows that are read are those of the source,
/// one by one: an end has its address, and any other row all its registers, with the number that
/// its file has now. Where the map moves addresses and keeps their order inside each sequence, the
/// new ones fit, and no sequence that gave a row ends under a tombstone, the rows that are read are
/// these too, but each has its new address: as far after the new set address as it was after the
/// old one.
///
/// Requires encodings that a program may have, where they are handed, and a map that may always be
/// called. Refused as the two calls are. The tables keep their texts, and the section its bytes,
/// also then.
pub fn convert_and_read_back<R: Reader, E: Endianity, F: Fn(u64) -> Option<Address>>(
    debug_str: R,
    debug_line_str: R,
    from_program: IncompleteLineProgram<R>,
    from_comp_name: Option<R>,
    encoding: Option<Encoding>,
    line_encoding: Option<LineEncoding>,
    w: &mut DebugLine<EndianVec<E>>,
    line_strings: &mut LineStringTable,
    strings: &mut StringTable,
    convert_address: F,
) -> ConvertResult<(RoundTrip, Vec<FileId>)>
    requires handed { CanBeHanded encoding line_encoding }
    requires callable { F.IsAlwaysCallable convert_address }
    ensures faithful { IfOk result (λ answer. ReadsBackSource (F.post convert_address)
        (to_convert R.seen debug_str debug_line_str
        from_program from_comp_name encoding line_encoding)
        answer.1.items (answers answer.0)) }
    ensures refusal { IfErr result (IsSourceRefusal (F.post convert_address)
        (to_convert R.seen debug_str debug_line_str
        from_program from_comp_name encoding line_encoding) (E.is_big w.old.0.endian)
        (texts_in strings.old line_strings.old) w.old.0.bytes w.new.0.bytes) }
    ensures keeps { Begins w.old.0.bytes w.new.0.bytes }
    ensures stays { KeepsTexts line_strings.old line_strings.new }
    ensures strings { KeepsTexts strings.old strings.new }
{
    let (program, files) = convert_program(
        debug_str,
        debug_line_str,
        from_program,
        from_comp_name,
        encoding,
        line_encoding,
        line_strings,
        strings,
        convert_address,
    )?;
    let back = round_trip(&program, w, program.encoding(), line_strings, strings)?;
    Ok((back, files))
}
