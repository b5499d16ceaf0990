//! Many of each thing that is written, built or converted. There is memory for them, so a refusal
//! by `OutOfMemory` would be wrong; no contract says so.

ghost use Rattle.std.specs.Prelude.{IfSome, IsTrue};
ghost use Rattle.gimli_core.specs.Numbers.{is_address_size};

use crate::converted::{Texts, VERSION_5, conversion};
use crate::units::{many_entries, program, slice, text_of};
use crate::{Found, first_false};
use gimli_core::{BigEndian, DebugLineOffset, Encoding, Endianity, Reader};
use gimli_line::IncompleteLineProgram;
use gimli_write::Address::Constant;
use gimli_write::ConvertLineRow::{self, EndSequence, Row, SetAddress};
use gimli_write::{
    ConvertLineProgram, ConvertResult, DebugLine, EndianVec, FileInfo, LineProgram, LineString,
    PieceVec, Result, Writer, round_trip,
};
use std::alloc::Global;

/// How many numbers and texts there are.
const MANY: usize = 70_000;

/// How many entries the unit has of each kind.
const ENTRIES: usize = 5_000;

/// Appends so many numbers.
fn fill<W: Writer>(w: &mut W) -> Result<()> {
    for number in 0..MANY {
        w.write_udata(number as u64, 4)?;
    }
    Ok(())
}

/// Whether a string equals its copy, and so do the details of a file with it.
fn is_copied(text: LineString) -> Result<bool> {
    let same = text.clone()? == text;
    let mut info = FileInfo::default();
    info.source = Some(text);
    Ok(same && info.clone()? == info)
}

/// Whether tables of texts take many.
fn are_added(texts: &mut Texts) -> Result<bool> {
    for number in 0..MANY {
        let text = text_of(number);
        if texts.strings.add(&text)?.0 != number || texts.line_strings.add(&text)?.0 != number {
            return Ok(false);
        }
    }
    Ok(true)
}

/// The first of two that fails: a section in one piece, its copy and one in pieces that have all
/// numbers, and a text of them.
fn writers(alloc: Global) -> Result<Option<usize>> {
    let mut section = EndianVec::new(alloc, BigEndian);
    let mut pieces: PieceVec<BigEndian, 16> = PieceVec::new(alloc, BigEndian);
    fill(&mut section)?;
    fill(&mut pieces)?;
    let copy = section.clone()?;
    let joined = pieces.into_vec()?;
    let last = b"\0\x01\x11\x6e\0\x01\x11\x6f";
    let whole = section.len() == 4 * MANY && section.slice().ends_with(last);
    let same = copy.slice() == section.slice() && joined.as_slice() == section.slice();
    Ok(first_false(&[whole && same, is_copied(LineString::String(joined))?]))
}

/// The first of three that fails: writers, texts, and tables.
pub fn writers_and_tables(alloc: Global) -> Found {
    let failed = writers(alloc)?;
    let added = are_added(&mut Texts::new(alloc)) == Ok(true);
    Ok(failed.or(first_false(&[added])))
}

/// How many items the short sequences have.
const ITEMS: usize = 5 * ENTRIES;

/// Hands an item to a builder call of the conversion's own.
fn build_item<R: Reader>(
    conversion: &mut ConvertLineProgram<'_, '_, R>,
    item: ConvertLineRow,
) -> ConvertResult<()> {
    match item {
        SetAddress(at) if conversion.in_sequence() => conversion.set_address(Constant(at)),
        SetAddress(at) => conversion.begin_sequence(Some(Constant(at))),
        Row(row) => conversion.generate_row(row),
        EndSequence(length) => conversion.end_sequence(length),
    }
}

/// Reads the first sequence and returns how many rows it has; builds half of the items after it.
fn build_half<R: Reader>(conversion: &mut ConvertLineProgram<'_, '_, R>) -> ConvertResult<usize> {
    let sequence = conversion.read_sequence()?;
    for _ in 0..ITEMS / 2 {
        if let Some(item) = conversion.read_row()? {
            build_item(conversion, item)?;
        }
    }
    Ok(sequence.map_or(0, |sequence| sequence.rows.len()))
}

/// Whether a program is written behind three bytes, and read back. The working directory comes
/// first; in version 5 the name is one file more than the source has.
fn is_read_back<E: Endianity>(
    program: &LineProgram,
    unit: &mut DebugLine<EndianVec<E>>,
    texts: &mut Texts,
) -> ConvertResult<bool> {
    unit.0.write(b"\xaa\xbb\xcc")?;
    let (lines, strings) = (&mut texts.line_strings, &mut texts.strings);
    if !program.can_write(lines, strings) {
        return Ok(false);
    }
    let answer = round_trip(program, unit, program.encoding(), lines, strings)?;
    let files = 2 * ENTRIES + usize::from(program.version() == 5);
    let counted = (answer.directories.len(), answer.files.len()) == (ENTRIES + 1, files);
    Ok(counted && (answer.rows.len(), answer.offset) == (4 * ENTRIES + 1, DebugLineOffset(3)))
}

/// Whether a program has all its items, and so has its copy, and is read back.
fn is_whole<E: Endianity>(
    program: &LineProgram,
    order: E,
    texts: &mut Texts,
) -> ConvertResult<bool> {
    let copied = program.clone().map(|copy| copy.items().count());
    if copied != Ok(ITEMS + ENTRIES + 2) {
        return Ok(false);
    }
    let section = EndianVec::new(*texts.line_strings.allocator(), order);
    is_read_back(program, &mut DebugLine::from(section), texts)
}

/// The program of a source that is converted in two halves, the second one by `convert`, and
/// whether its first sequence and its files are all there.
fn converted<R: Reader>(
    source: IncompleteLineProgram<R>,
    name: R,
    encoding: Option<Encoding>,
    texts: &mut Texts,
) -> ConvertResult<(LineProgram, bool)>
    requires { IfSome encoding (λ e. IsTrue (is_address_size e.address_size)) }
{
    let mut conversion = conversion(source, Some(name), encoding, texts)?;
    let rows = build_half(&mut conversion)?;
    let (program, files) = conversion.convert(|address| Some(Constant(address)))?;
    Ok((program, (rows, files.len()) == (ENTRIES, 2 * ENTRIES + 1)))
}

/// Whether this is so, and the program is whole.
fn is_converted<R: Reader>(
    source: IncompleteLineProgram<R>,
    name: R,
    encoding: Option<Encoding>,
    texts: &mut Texts,
) -> ConvertResult<bool>
    requires { IfSome encoding (λ e. IsTrue (is_address_size e.address_size)) }
{
    let (program, counted) = converted(source, name, encoding, texts)?;
    is_whole(&program, name.endian(), texts).map(|whole| counted && whole)
}

/// The same of a unit, with tables that are empty.
fn converts<R: Reader>(
    alloc: Global,
    slices: [R; 3],
    encoding: Option<Encoding>,
) -> ConvertResult<bool>
    requires { IfSome encoding (λ e. IsTrue (is_address_size e.address_size)) }
{
    let [unit, directory, name] = slices;
    let source = program(alloc, unit, Some(directory))?;
    is_converted(source, name, encoding, &mut Texts::new(alloc))
}

/// The first encoding in which a unit of many entries isn't converted: its own, and version 5.
pub fn conversions(alloc: Global) -> Found {
    let unit = many_entries(alloc, ENTRIES, [220_050, 55_020])?;
    let slices = [slice(&unit), slice(b"/w"), slice(b"a.c")];
    Ok(first_false(&[
        converts(alloc, slices, None) == Ok(true),
        converts(alloc, slices, Some(VERSION_5)) == Ok(true),
    ]))
}
