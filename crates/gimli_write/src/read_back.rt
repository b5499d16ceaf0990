//! A unit that is written, and read again.

ghost use Rattle.std.specs.Prelude.{◌≡◌, ◌<◌, ◌^◌, false, map, drop, option_map, IsTrue, All};
ghost use Rattle.std.specs.Prelude.{IfOk, IfErr, IsOkUnless, Some, Err};
ghost use Rattle.gimli_core.specs.Numbers.{is_address_size};
ghost use Rattle.gimli_core.specs.Values.{value_seen};
ghost use Rattle.gimli_bytes.specs.Written.{Begins};
ghost use Rattle.gimli_line.specs.header.Header.{Header};
ghost use Rattle.gimli_line.specs.header.File.{file_seen};
ghost use Rattle.gimli_line.specs.run.Events.{Events, row};
ghost use Rattle.gimli_build.specs.LineText.{IsWithin};
ghost use Rattle.gimli_build.specs.Conditions.{CanWrite};
ghost use Rattle.gimli_build.specs.Unit.{is_incompatible};
ghost use Rattle.gimli_bytes.specs.Texts.{byte_count, texts_in};
ghost use Rattle.gimli_build.specs.WrittenTables.{KeepTables};
ghost use Rattle.gimli_build.specs.Texts.{Sections, IsText, IsOptionalText, OneByOne};
ghost use Rattle.gimli_write.specs.inside.TextReading.{HasText, HasOptionalText, HasFileTexts};
ghost use Rattle.gimli_build.specs.ReadsBack.{ReadsBackAs, directories_from_zero};

use crate::convert_error::{ConvertError, ConvertResult, from_read, from_write};
use crate::text::{TextSections, text};
use gimli_build::LineProgram;
use gimli_bytes::{
    DebugLine, DebugLineStr, DebugStr, EndianVec, Error, LineStringTable, StringTable, Writer,
};
use gimli_core::{
    AttributeValue, DebugLineOffset, Encoding, EndianSlice, Endianity, Reader, ReaderOffset,
};
use gimli_line::{FileEntry, IncompleteLineProgram, LineProgramHeader, LineRow};
use std::alloc::Global;
use std::marker::Model;

/// What is read of a unit.
#[derive(Debug, Drop)]
pub struct RoundTrip {
    /// The offset of the unit in its section.
    pub offset: DebugLineOffset,
    /// The directories from index 0 on.
    pub directories: Vec<Vec<u8>>,
    /// The files of the header.
    pub files: Vec<RoundTripFile>,
    /// The rows in order, those included that end a sequence.
    pub rows: Vec<LineRow>,
}

/// What is read of a file.
#[derive(Debug, Drop)]
pub struct RoundTripFile {
    /// The path.
    pub path: Vec<u8>,
    /// The index of the directory.
    pub directory_index: u64,
    /// When the file was last changed; 0 where it isn't known.
    pub timestamp: u64,
    /// The size in bytes; 0 where it isn't known.
    pub size: u64,
    /// The MD5 digest; zeros where it isn't known.
    pub md5: [u8; 16],
    /// The text of the file, where there is one.
    pub source: Option<Vec<u8>>,
}

ghost use Rattle.gimli_write.specs.RoundTrip.{answers, file_answer, IsFileAnswer, AreAnswers};
ghost use Rattle.gimli_write.specs.RoundTrip.{slice_layout, unit_entry_of, sections_of};
ghost use Rattle.gimli_write.specs.RoundTrip.{IsRunRefusal, RefusesUnit, IsRoundTripRefusal};
ghost use Rattle.gimli_build.specs.Items.{HasFittingAddresses};
ghost use Rattle.gimli_write.specs.RoundTrip.{AnswersProgram, IsAsBuilt};
ghost use Rattle.gimli_write.specs.RoundTrip.{IsRoundTrip};
ghost use Rattle.gimli_write.specs.inside.RoundTrip.{HasTexts, unit_entry_with, BeginsUnit};
ghost use Rattle.gimli_write.specs.inside.RoundTrip.{CanRead};

/// The working directory of a program.
fn working_directory<'a>(
    program: &'a LineProgram,
    strings: &'a StringTable,
    line_strings: &'a LineStringTable,
) -> &'a [u8]
    requires program { program.now.is_none ≡ false }
    requires within { All (IsWithin (texts_in strings.now line_strings.now))
        program.now.directories }
    ensures { Some result.now
        ≡ (unit_entry_of program.now (texts_in strings.now line_strings.now)).directory }
{
    let directory = program.default_directory();
    program.get_directory(directory).get(strings, line_strings)
}

/// The directories of a header from index 0 on. Refused by `OutOfMemory` alone.
fn directory_values<R: Reader>(
    alloc: Global,
    header: &LineProgramHeader<R>,
) -> ConvertResult<Vec<AttributeValue<R>>>
    ensures ok { IfOk result (λ values. map (value_seen R.seen R.Offset.number) values.items
        ≡ directories_from_zero header.now.meaning) }
    ensures err { IsOkUnless result ConvertError.OutOfMemory }
{
    let mut directories = Vec::new(alloc);
    if header.version() <= 4 {
        if let Some(directory) = header.directory(0) {
            directories.push(directory)?;
        }
    }
    directories.extend_from_slice(header.include_directories())?;
    Ok(directories)
}

/// The text that a value stands for. Requires a value that stands for one. Refused by `OutOfMemory`
/// alone.
fn text_there<R: Reader>(
    alloc: Global,
    value: AttributeValue<R>,
    sections: &TextSections<R>,
) -> ConvertResult<Vec<u8>>
    requires { HasText sections.now (value_seen R.seen R.Offset.number value) }
    ensures ok { IfOk result (λ text.
        IsText sections.now (value_seen R.seen R.Offset.number value) text.items) }
    ensures err { IsOkUnless result ConvertError.OutOfMemory }
{
    text(alloc, value, sections)
}

/// The texts that values stand for. Requires values that stand for texts. Refused by `OutOfMemory`
/// alone.
fn texts<R: Reader>(
    alloc: Global,
    values: &[AttributeValue<R>],
    sections: &TextSections<R>,
) -> ConvertResult<Vec<Vec<u8>>>
    requires { All (HasText sections.now) (map (value_seen R.seen R.Offset.number) values.now) }
    ensures ok { IfOk result (λ texts. OneByOne (IsText sections.now)
        (map (value_seen R.seen R.Offset.number) values.now)
        (map (λ text. text.items) texts.items)) }
    ensures err { IsOkUnless result ConvertError.OutOfMemory }
{
    let mut texts = Vec::new(alloc);
    for value in values {
        texts.push(text_there(alloc, *value, sections)?)?;
    }
    Ok(texts)
}

/// The text of a file, where there is one. Requires a value that stands for a text. Refused by
/// `OutOfMemory` alone.
fn source_text<R: Reader>(
    alloc: Global,
    source: Option<AttributeValue<R>>,
    sections: &TextSections<R>,
) -> ConvertResult<Option<Vec<u8>>>
    requires { HasOptionalText sections.now
        (option_map (value_seen R.seen R.Offset.number) source) }
    ensures ok { IfOk result (λ text. IsOptionalText sections.now
        (option_map (value_seen R.seen R.Offset.number) source)
        (option_map (λ text. text.items) text)) }
    ensures err { IsOkUnless result ConvertError.OutOfMemory }
{
    match source {
        Some(value) => Ok(Some(text_there(alloc, value, sections)?)),
        None => Ok(None),
    }
}

/// What is read of a file. Requires one whose texts are there. Refused by `OutOfMemory` alone.
fn read_file<R: Reader>(
    alloc: Global,
    file: &FileEntry<R>,
    sections: &TextSections<R>,
) -> ConvertResult<RoundTripFile>
    requires { HasFileTexts sections.now (file_seen R.seen R.Offset.number file.now) }
    ensures ok { IfOk result (λ answer. IsFileAnswer sections.now
        (file_seen R.seen R.Offset.number file.now) (file_answer answer)) }
    ensures err { IsOkUnless result ConvertError.OutOfMemory }
{
    let path = text_there(alloc, file.path_name(), sections)?;
    let source = source_text(alloc, file.source(), sections)?;
    Ok(RoundTripFile {
        path,
        directory_index: file.directory_index(),
        timestamp: file.timestamp(),
        size: file.size(),
        md5: *file.md5(),
        source,
    })
}

/// What is read of files. Requires files whose texts are there. Refused by `OutOfMemory` alone.
fn read_files<R: Reader>(
    alloc: Global,
    files: &[FileEntry<R>],
    sections: &TextSections<R>,
) -> ConvertResult<Vec<RoundTripFile>>
    requires { All (HasFileTexts sections.now) (map (file_seen R.seen R.Offset.number) files.now) }
    ensures ok { IfOk result (λ answers. OneByOne (IsFileAnswer sections.now)
        (map (file_seen R.seen R.Offset.number) files.now) (map file_answer answers.items)) }
    ensures err { IsOkUnless result ConvertError.OutOfMemory }
{
    let mut answers = Vec::new(alloc);
    for file in files {
        answers.push(read_file(alloc, file, sections)?)?;
    }
    Ok(answers)
}

/// The rows of a program. Refused by the first fault of its run, or by `OutOfMemory`.
fn read_rows<R: Reader>(
    alloc: Global,
    program: IncompleteLineProgram<R>,
) -> ConvertResult<Vec<LineRow>>
    ensures ok { IfOk result (λ rows.
        Events program.layout program.meaning program.meaning.program (map row rows.items)) }
    ensures err { IfErr result (IsRunRefusal program.layout program.meaning) }
{
    let mut rows = program.rows();
    let mut answers = Vec::new(alloc);
    'rows: loop {
        let row = match rows.next_row() {
            Ok(Some((_, row))) => *row,
            Ok(None) => return Ok(answers),
            Err(e) => return Err(from_read(e)),
        };
        answers.push(row)?;
    }
}

/// What is read of a program at an offset. Requires texts that are there. Refused by the first
/// fault of its run, or by `OutOfMemory`.
fn read_program<R: Reader>(
    alloc: Global,
    offset: DebugLineOffset,
    program: IncompleteLineProgram<R>,
    sections: &TextSections<R>,
) -> ConvertResult<RoundTrip>
    requires { HasTexts sections.now program.meaning }
    ensures offset { IfOk result (λ answer. answer.offset ≡ offset) }
    ensures ok { IfOk result (λ answer.
        AreAnswers program.layout sections.now program.meaning (answers answer)) }
    ensures err { IfErr result (IsRunRefusal program.layout program.meaning) }
{
    let directories = texts(
        alloc,
        directory_values(alloc, program.header())?.as_slice(),
        sections,
    )?;
    let files = read_files(alloc, program.header().file_names(), sections)?;
    let rows = read_rows(alloc, program)?;
    Ok(RoundTrip {
        offset,
        directories,
        files,
        rows,
    })
}

/// The tables of strings, each as it is written to an empty section.
#[derive(Drop)]
struct StringSections {
    strings: Vec<u8>,
    line_strings: Vec<u8>,
}

impl Model for StringSections {
    ghost use Rattle.gimli_build.specs.Texts.{Sections};

    ghost Value = { Sections };

    ghost view = { λ a. record { strings = a.strings.items; line_strings = a.line_strings.items } };
}

impl StringSections {
    /// Writes the tables. Refused by `OutOfMemory` alone.
    fn new<E: Endianity>(
        alloc: Global,
        endian: E,
        strings: &StringTable,
        line_strings: &LineStringTable,
    ) -> ConvertResult<StringSections>
        ensures ok { IfOk result (λ sections.
            sections ≡ sections_of (texts_in strings.now line_strings.now)) }
        ensures err { IsOkUnless result ConvertError.OutOfMemory }
        ensures held { (byte_count strings.now < 2 ^ 64) × (byte_count line_strings.now < 2 ^ 64) }
    {
        // Neither table has more bytes than a section holds.
        let _counts = (strings.count(), line_strings.count());
        let mut debug_str = DebugStr::from(EndianVec::new(alloc, endian));
        if strings.write(&mut debug_str).is_err() {
            return Err(ConvertError::OutOfMemory);
        }
        let mut debug_line_str = DebugLineStr::from(EndianVec::new(alloc, endian));
        if line_strings.write(&mut debug_line_str).is_err() {
            return Err(ConvertError::OutOfMemory);
        }
        Ok(StringSections {
            strings: debug_str.0.into_vec(),
            line_strings: debug_line_str.0.into_vec(),
        })
    }
}

/// What is read of the unit at an offset of a section. Requires a unit whose texts are there.
/// Refused by the first fault of its run, or by `OutOfMemory`.
fn read_section<'x, E: Endianity>(
    alloc: Global,
    section: &'x [u8],
    endian: E,
    offset: DebugLineOffset,
    address_size: u8,
    directory: &'x [u8],
    sections: &'x StringSections,
) -> ConvertResult<RoundTrip>
    requires size { IsTrue (is_address_size address_size) }
    requires unit { CanRead (slice_layout (E.is_big endian))
        (unit_entry_with address_size directory.now) sections.now
        (drop offset.0 section.now) }
    ensures offset { IfOk result (λ answer. answer.offset ≡ offset) }
    ensures ok { (h : Header)
        → BeginsUnit (slice_layout (E.is_big endian)) (unit_entry_with address_size directory.now)
        (drop offset.0 section.now) h
        → IfOk result (λ answer.
        AreAnswers (slice_layout (E.is_big endian)) sections.now h (answers answer)) }
    ensures err { (h : Header)
        → BeginsUnit (slice_layout (E.is_big endian)) (unit_entry_with address_size directory.now)
        (drop offset.0 section.now) h
        → IfErr result (IsRunRefusal (slice_layout (E.is_big endian)) h) }
{
    let texts = TextSections {
        strings: EndianSlice::new(sections.strings.as_slice(), endian),
        line_strings: EndianSlice::new(sections.line_strings.as_slice(), endian),
    };
    let directory = EndianSlice::new(directory, endian);
    let section = gimli_line::DebugLine::new(section, endian);
    match section.program(alloc, offset, address_size, Some(directory), None) {
        Ok(program) => read_program(alloc, offset, program, &texts),
        Err(e) => Err(from_read(e)),
    }
}

/// What is read of the unit at an offset, which is a program's. Refused by the first fault of its
/// run, or by `OutOfMemory`.
fn read_unit<E: Endianity>(
    program: &LineProgram,
    section: &EndianVec<E>,
    offset: DebugLineOffset,
    line_strings: &LineStringTable,
    strings: &StringTable,
) -> ConvertResult<RoundTrip>
    requires program { program.now.is_none ≡ false }
    requires within { All (IsWithin (texts_in strings.now line_strings.now))
        program.now.directories }
    requires unit { ReadsBackAs (E.is_big section.now.endian) program.now
        (texts_in strings.now line_strings.now)
        (drop offset.0 section.now.bytes) }
    ensures offset { IfOk result (λ answer. answer.offset ≡ offset) }
    ensures ok { IfOk result (AnswersProgram (E.is_big section.now.endian) program.now
        (texts_in strings.now line_strings.now) (drop offset.0 section.now.bytes)) }
    ensures err { IfErr result (RefusesUnit (slice_layout (E.is_big section.now.endian))
        (unit_entry_of program.now (texts_in strings.now line_strings.now))
        (drop offset.0 section.now.bytes)) }
    ensures built { IfOk result (λ answer.
        IsAsBuilt program.now (texts_in strings.now line_strings.now) (answers answer)) }
    ensures never_read { HasFittingAddresses program.now
        → IsOkUnless result ConvertError.OutOfMemory }
{
    let alloc = *line_strings.allocator();
    let endian = section.endian();
    let bytes = section.slice();
    let sections = StringSections::new(alloc, endian, strings, line_strings)?;
    read_section(
        alloc,
        bytes,
        endian,
        offset,
        program.encoding().address_size,
        working_directory(program, strings, line_strings),
        &sections,
    )
}

/// Writes a program's unit, as `LineProgram::write` does, and reads it again: from the offset that
/// was returned, in the same byte order, with the program's address size and its working directory,
/// and with the tables, each written to an empty section. Requires what `write` asks.
///
/// Returns what the unit says, and what the machine of its program gives: the built directories and
/// files; and the built rows and ends, one by one, where each address fits the address size, none
/// is set below the one reached in its sequence, and none that is set is a tombstone.
///
/// Refused by `Write` as `write` is: where the encoding can't have the program's, nothing is
/// appended. Where nothing forbids to write it, the unit is appended, and refused by `Read` for the
/// first fault of its program, which no program with such addresses has. Refused by `OutOfMemory`
/// too. The section keeps its old bytes, and new ones may follow them then.
pub fn round_trip<E: Endianity>(
    program: &LineProgram,
    w: &mut DebugLine<EndianVec<E>>,
    encoding: Encoding,
    line_strings: &mut LineStringTable,
    strings: &mut StringTable,
) -> ConvertResult<RoundTrip>
    requires { CanWrite program.now (texts_in strings.old line_strings.old) }
    ensures keeps { Begins w.old.0.bytes w.new.0.bytes }
    ensures ordered { E.is_big w.new.0.endian ≡ E.is_big w.old.0.endian }
    ensures ok { IfOk result (IsRoundTrip (E.is_big w.old.0.endian) encoding program.now
        (texts_in strings.old line_strings.old) (texts_in strings.new line_strings.new)
        w.old.0.bytes w.new.0.bytes) }
    ensures incompatible { IsTrue (is_incompatible encoding program.now.encoding) →
        (result ≡ Err (ConvertError.Write Error.IncompatibleLineProgramEncoding))
        × (w.new ≡ w.old) }
    ensures refusal { IfErr result
        (IsRoundTripRefusal (E.is_big w.old.0.endian) encoding program.now
        (texts_in strings.old line_strings.old) w.old.0.bytes w.new.0.bytes) }
    ensures tables_kept { KeepTables program.now encoding
        (texts_in strings.old line_strings.old) (texts_in strings.new line_strings.new) }
{
    // For the prover alone: the address size is one that `accepts` takes.
    let _encoding = program.encoding();
    match program.write(w, encoding, line_strings, strings) {
        Ok(offset) => read_unit(program, &w.0, offset, line_strings, strings),
        Err(e) => Err(from_write(e)),
    }
}
