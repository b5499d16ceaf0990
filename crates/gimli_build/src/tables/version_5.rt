//! The tables of a unit of version 5: each stands after the formats of its entries and their
//! number.

ghost use Rattle.std.specs.Prelude.{◌≡◌, ◌<◌, ◌≤◌, ◌^◌, true, [], ◌∷◌, ◌++◌, length, map};
ghost use Rattle.std.specs.Prelude.{if◌then◌else◌, nat_eq, IfOk, IsOkUnless, IfSome, OnOk, OnErr};
ghost use Rattle.std.specs.Prelude.{Ok};
ghost use Rattle.std.specs.Prelude.{Err, Some, None, All, Contains, unwrap_or};
ghost use Rattle.std.specs.Option.{is_none};
ghost use Rattle.std.specs.List.{list_any, flat_map};
ghost use Rattle.gimli_bytes.specs.Number.{uleb};
ghost use Rattle.gimli_bytes.specs.Texts.{AreTexts, byte_count, with_text, texts_in};
ghost use Rattle.gimli_bytes.specs.declared.error.Error.TheVariants.{OutOfMemory};
ghost use Rattle.gimli_build.specs.LineText.{Inline, line_text, IsWithin};
ghost use Rattle.gimli_build.specs.inside.Tables.{FitsFile};
ghost use Rattle.gimli_build.specs.TableFields.{details};
ghost use Rattle.gimli_build.specs.Joined.{result_append, result_concat};
ghost use Rattle.gimli_build.specs.Version5Tables.{first_form, path_texts, sources, needs_empty};
ghost use Rattle.gimli_build.specs.Version5Tables.{empty_text, formats_bytes, file_formats};
ghost use Rattle.gimli_build.specs.Version5Tables.{text_in_form, directory_table_bytes};
ghost use Rattle.gimli_build.specs.Version5Tables.{source_bytes, file_entry_bytes};
ghost use Rattle.gimli_build.specs.Version5Tables.{file_table_bytes};
ghost use Rattle.gimli_build.specs.WrittenTables.{HaveEmptySource};
ghost use Rattle.gimli_build.specs.inside.Tables.{due_formats};
ghost use Rattle.gimli_build.specs.inside.EmptySource.{StandsForNone};
ghost use Rattle.gimli_build.specs.inside.Writes.{Writes, always};

use crate::built::files::{DirectoryId, FileInfo, FileTable};
use crate::built::line_program::LineProgram;
use crate::built::line_string::LineString;
use crate::bytes::{write_byte, write_section_offset, write_text};
use crate::tables::unit_input::UnitInput;
use gimli_bytes::{Error, LineStringTable, Result, StringTable, Writer};
use gimli_core::{DwForm, DwLnct, SectionId, constants};

/// Makes the empty text that stands for the source of a file that has none, where sources are
/// written and a file has none: in the form of the other sources, in whose table it is then. Fails
/// only with `OutOfMemory`; then the tables are as they were.
pub(crate) fn add_empty_source(
    program: &LineProgram,
    line_strings: &mut LineStringTable,
    strings: &mut StringTable,
) -> Result<LineString>
    ensures tables { OnOk result (HaveEmptySource program.now
        (texts_in strings.old line_strings.old) (texts_in strings.new line_strings.new)) }
    ensures empty { IfOk result (λ empty.
        StandsForNone program.now (texts_in strings.new line_strings.new) (line_text empty)) }
    ensures texts { OnOk result (AreTexts strings.new) }
    ensures line_texts { OnOk result (AreTexts line_strings.new) }
    ensures short { OnOk result (byte_count strings.new < 2 ^ 64) }
    ensures line_short { OnOk result (byte_count line_strings.new < 2 ^ 64) }
    ensures strings_kept { OnErr result (strings.new ≡ strings.old) }
    ensures line_strings_kept { OnErr result (line_strings.new ≡ line_strings.old) }
    ensures memory { IsOkUnless result OutOfMemory }
{
    let empty = add_empty(empty_form(program), line_strings, strings)?;
    // For the prover alone: a table has no more bytes than memory (`short`, `line_short`).
    let _counts = (line_strings.count(), strings.count());
    Ok(empty)
}

/// The form of the empty text, which is in the program itself where it isn't needed.
fn empty_form(program: &LineProgram) -> DwForm
    ensures { result.0
        ≡ (if needs_empty program.now then first_form (sources program.now.files) else 0x08) }
{
    if needs_empty(program) {
        source_form(program.tables())
    } else {
        constants::DW_FORM_string
    }
}

/// Makes an empty text of a form, in its table.
fn add_empty(
    form: DwForm,
    line_strings: &mut LineStringTable,
    strings: &mut StringTable,
) -> Result<LineString>
    ensures strings { OnOk result (strings.new
        ≡ (if nat_eq form.0 0x0e then with_text strings.old [] else strings.old)) }
    ensures line_strings { OnOk result (line_strings.new
        ≡ (if nat_eq form.0 0x1f then with_text line_strings.old [] else line_strings.old)) }
    ensures empty { IfOk result (λ empty.
        line_text empty ≡ empty_text form.0 (texts_in strings.old line_strings.old)) }
    ensures within { IfOk result (λ empty.
        IsWithin (texts_in strings.new line_strings.new) (line_text empty)) }
    ensures strings_kept { OnErr result (strings.new ≡ strings.old) }
    ensures line_strings_kept { OnErr result (line_strings.new ≡ line_strings.old) }
    ensures memory { IsOkUnless result OutOfMemory }
{
    match form {
        constants::DW_FORM_strp => Ok(LineString::StringRef(strings.add(&[])?)),
        constants::DW_FORM_line_strp => Ok(LineString::LineStringRef(line_strings.add(&[])?)),
        _ => {
            let alloc = *line_strings.allocator();
            Ok(LineString::String(Vec::new(alloc)))
        }
    }
}

/// Whether sources are written, and a file has none.
fn needs_empty(program: &LineProgram) -> bool
    ensures { result ≡ needs_empty program.now }
{
    program.version() >= 5 && program.file_has_source && lacks_source(program.tables())
}

/// Whether a file has no source.
fn lacks_source(tables: &FileTable) -> bool
    ensures { result ≡ list_any (λ f. is_none f.1.source) tables.now.files }
{
    for index in 0..tables.file_count() {
        let (_, _, info) = tables.file(index);
        if info.source.is_none() {
            return true;
        }
    }
    false
}

/// The form of sources: that of the first.
pub(crate) fn source_form(tables: &FileTable) -> DwForm
    ensures { result.0 ≡ first_form (sources tables.now.files) }
{
    for index in 0..tables.file_count() {
        let (_, _, info) = tables.file(index);
        if let Some(source) = &info.source {
            return source.form();
        }
    }
    constants::DW_FORM_string
}

/// The form of paths: that of the first.
pub(crate) fn path_form(tables: &FileTable) -> DwForm
    ensures { result.0 ≡ first_form (path_texts tables.now.files) }
{
    if tables.file_count() == 0 {
        return constants::DW_FORM_string;
    }
    let (path, _, _) = tables.file(0);
    path.form()
}

/// The form of directories: that of the first.
pub(crate) fn directory_form(directories: &[LineString]) -> DwForm
    ensures { result.0 ≡ first_form (map line_text directories.now) }
{
    match directories.first() {
        Some(directory) => directory.form(),
        None => constants::DW_FORM_string,
    }
}

/// Appends the directories and the files.
pub(crate) fn write_version_5_tables<W: Writer>(w: &mut W, input: &UnitInput<'_>) -> Result<()>
    requires version { 5 ≤ input.now.program.encoding.version }
    ensures writes { Writes W.Sink w.old w.new result
        (λ hand. let program = input.now.program in let format = program.encoding.format in
        result_append (directory_table_bytes hand (W.is_big w.old) format input.now.texts program)
        (file_table_bytes hand (W.is_big w.old) format input.now.texts program)) }
    ensures fit { OnOk result (All FitsFile input.now.program.files) }
{
    write_directory_table(w, input)?;
    write_file_table(w, input)
}

/// Appends the directories.
fn write_directory_table<W: Writer>(w: &mut W, input: &UnitInput<'_>) -> Result<()>
    ensures { Writes W.Sink w.old w.new result
        (λ hand. directory_table_bytes hand (W.is_big w.old) input.now.program.encoding.format
        input.now.texts input.now.program) }
{
    let directories = input.program().tables().directories();
    let form = directory_form(directories);
    let formats = [(true, constants::DW_LNCT_path, form)];
    write_formats(w, 1, &formats, directories.len())?;
    write_texts(w, input, form, directories)
}

/// Appends the number of the formats that are due, these formats, and the number of entries.
fn write_formats<W: Writer>(
    w: &mut W,
    count: u8,
    formats: &[(bool, DwLnct, DwForm)],
    entries: usize,
) -> Result<()>
    requires { count ≡ length (due_formats formats.now) }
    ensures { Writes W.Sink w.old w.new result
        (always (Ok (formats_bytes (due_formats formats.now) ++ uleb entries))) }
{
    write_byte(w, count)?;
    write_due_formats(w, formats)?;
    w.write_uleb128(entries as u64)
}

/// Appends the formats that are due.
fn write_due_formats<W: Writer>(w: &mut W, formats: &[(bool, DwLnct, DwForm)]) -> Result<()>
    ensures { Writes W.Sink w.old w.new result (always (Ok (flat_map
        (λ f. uleb f.0 ++ uleb f.1) (due_formats formats.now)))) }
{
    for index in 0..formats.len() {
        let (due, content, form) = formats[index];
        write_format_if(w, due, content, form)?;
    }
    Ok(())
}

/// Appends a content type and a form, where they are due.
fn write_format_if<W: Writer>(w: &mut W, due: bool, content: DwLnct, form: DwForm) -> Result<()>
    ensures { Writes W.Sink w.old w.new result
        (always (Ok (if due then uleb content.0 ++ uleb form.0 else []))) }
{
    if !due {
        return Ok(());
    }
    write_format(w, content, form)
}

/// Appends a content type and a form.
fn write_format<W: Writer>(w: &mut W, content: DwLnct, form: DwForm) -> Result<()>
    ensures { Writes W.Sink w.old w.new result (always (Ok (uleb content.0 ++ uleb form.0))) }
{
    w.write_uleb128(u64::from(content.0))?;
    w.write_uleb128(u64::from(form.0))
}

/// Appends texts of a form one after the other.
fn write_texts<W: Writer>(
    w: &mut W,
    input: &UnitInput<'_>,
    form: DwForm,
    texts: &[LineString],
) -> Result<()>
    requires { All (IsWithin input.now.texts) (map line_text texts.now) }
    ensures { Writes W.Sink w.old w.new result
        (λ hand. result_concat (text_in_form hand (W.is_big w.old) input.now.program.encoding.format
        input.now.texts form.0) (map line_text texts.now)) }
{
    for text in texts {
        write_line_string(w, input, form, text)?;
    }
    Ok(())
}

/// Appends a text, which has to have this form: itself and a zero byte, or its offset in the
/// section of its table.
fn write_line_string<W: Writer>(
    w: &mut W,
    input: &UnitInput<'_>,
    form: DwForm,
    text: &LineString,
) -> Result<()>
    requires { IsWithin input.now.texts (line_text text.now) }
    ensures { Writes W.Sink w.old w.new result
        (λ hand. text_in_form hand (W.is_big w.old) input.now.program.encoding.format
        input.now.texts
        form.0 (line_text text.now)) }
{
    if text.form() != form {
        return Err(Error::LineStringFormMismatch);
    }
    match text {
        LineString::String(text) => write_text(w, text.as_slice()),
        LineString::StringRef(id) => {
            let offset = input.strings().offset(*id);
            write_section_offset(w, input.format(), offset.0, SectionId::DebugStr)
        }
        LineString::LineStringRef(id) => {
            let offset = input.line_strings().offset(*id);
            write_section_offset(w, input.format(), offset.0, SectionId::DebugLineStr)
        }
    }
}

/// Appends the files.
fn write_file_table<W: Writer>(w: &mut W, input: &UnitInput<'_>) -> Result<()>
    requires version { 5 ≤ input.now.program.encoding.version }
    ensures writes { Writes W.Sink w.old w.new result
        (λ hand. file_table_bytes hand (W.is_big w.old) input.now.program.encoding.format
        input.now.texts input.now.program) }
    ensures fit { OnOk result (All FitsFile input.now.program.files) }
{
    let program = input.program();
    let form = source_form(program.tables());
    let formats = file_formats(program, form);
    let files = program.tables().file_count();
    write_formats(w, format_count(program), &formats, files)?;
    write_file_entries(w, input, form)
}

/// The number of formats of files.
fn format_count(program: &LineProgram) -> u8
    ensures { result ≡ length (file_formats program.now) }
{
    2 + u8::from(program.file_has_timestamp)
        + u8::from(program.file_has_size)
        + u8::from(program.file_has_md5)
        + u8::from(program.file_has_source)
}

/// The formats of files: what a program's flags leave out isn't due.
fn file_formats(program: &LineProgram, source_form: DwForm) -> [(bool, DwLnct, DwForm); 6]
    requires { source_form.0 ≡ first_form (sources program.now.files) }
    ensures { due_formats result ≡ file_formats program.now }
{
    let udata = constants::DW_FORM_udata;
    let data16 = constants::DW_FORM_data16;
    let path_form = path_form(program.tables());
    [
        (true, constants::DW_LNCT_path, path_form),
        (true, constants::DW_LNCT_directory_index, udata),
        (
            program.file_has_timestamp,
            constants::DW_LNCT_timestamp,
            udata,
        ),
        (program.file_has_size, constants::DW_LNCT_size, udata),
        (program.file_has_md5, constants::DW_LNCT_MD5, data16),
        (
            program.file_has_source,
            constants::DW_LNCT_LLVM_source,
            source_form,
        ),
    ]
}

/// Appends files one after the other.
fn write_file_entries<W: Writer>(
    w: &mut W,
    input: &UnitInput<'_>,
    source_form: DwForm,
) -> Result<()>
    requires version { 5 ≤ input.now.program.encoding.version }
    requires source_form { source_form.0 ≡ first_form (sources input.now.program.files) }
    ensures writes { Writes W.Sink w.old w.new result
        (λ hand. let program = input.now.program in
        result_concat (file_entry_bytes hand (W.is_big w.old) program.encoding.format
        input.now.texts program) program.files) }
    ensures fit { OnOk result (All FitsFile input.now.program.files) }
{
    let tables = input.program().tables();
    for index in 0..tables.file_count() {
        let file = tables.file(index);
        write_file_entry(w, input, source_form, file)?;
    }
    Ok(())
}

/// Appends a file: its path, its directory, and what the program's flags say.
fn write_file_entry<W: Writer>(
    w: &mut W,
    input: &UnitInput<'_>,
    source_form: DwForm,
    file: (&LineString, DirectoryId, &FileInfo),
) -> Result<()>
    requires version { 5 ≤ input.now.program.encoding.version }
    requires there { Contains input.now.program.files
        ((line_text file.0.now, file.1), details file.2.now) }
    requires source_form { source_form.0 ≡ first_form (sources input.now.program.files) }
    ensures writes { Writes W.Sink w.old w.new result
        (λ hand. file_entry_bytes hand (W.is_big w.old) input.now.program.encoding.format
        input.now.texts input.now.program
        ((line_text file.entry.0.now, file.entry.1), details file.entry.2.now)) }
    ensures fit { OnOk result
        (FitsFile ((line_text file.entry.0.now, file.entry.1), details file.entry.2.now)) }
{
    let program = input.program();
    write_line_string(w, input, path_form(program.tables()), file.0)?;
    write_details(w, program, file.1, file.2)?;
    write_source(w, input, source_form, file.2)
}

/// Appends a file's directory, timestamp, size and digest, the last three where the program's flags
/// say so.
fn write_details<W: Writer>(
    w: &mut W,
    program: &LineProgram,
    directory: DirectoryId,
    info: &FileInfo,
) -> Result<()>
    ensures writes { Writes W.Sink w.old w.new result
        (always (Ok (uleb directory
        ++ (if program.now.file_has_timestamp then uleb info.now.timestamp else [])
        ++ (if program.now.file_has_size then uleb info.now.size else [])
        ++ (if program.now.file_has_md5 then info.now.md5 else [])))) }
    ensures fit { OnOk result (FitsFile ((Inline [], directory), details info.now)) }
{
    w.write_uleb128(directory.index() as u64)?;
    write_number_if(w, program.file_has_timestamp, info.timestamp)?;
    write_number_if(w, program.file_has_size, info.size)?;
    write_digest_if(w, program.file_has_md5, &info.md5)
}

/// Appends a number as LEB128, where it is due.
fn write_number_if<W: Writer>(w: &mut W, due: bool, number: u64) -> Result<()>
    ensures { Writes W.Sink w.old w.new result (always (Ok (if due then uleb number else []))) }
{
    if !due {
        return Ok(());
    }
    w.write_uleb128(number)
}

/// Appends a digest, where it is due.
fn write_digest_if<W: Writer>(w: &mut W, due: bool, digest: &[u8; 16]) -> Result<()>
    ensures { Writes W.Sink w.old w.new result (always (Ok (if due then digest.now else []))) }
{
    if !due {
        return Ok(());
    }
    w.write(digest)
}

/// Appends a file's source, or the empty text, where the program's flags say so.
fn write_source<W: Writer>(
    w: &mut W,
    input: &UnitInput<'_>,
    form: DwForm,
    info: &FileInfo,
) -> Result<()>
    requires source { IfSome (details info.now).source (IsWithin input.now.texts) }
    requires none { input.now.program.file_has_source ≡ true → (details info.now).source ≡ None
        → needs_empty input.now.program ≡ true }
    requires form { form.0 ≡ first_form (sources input.now.program.files) }
    ensures { Writes W.Sink w.old w.new result
        (λ hand. source_bytes hand (W.is_big w.old) input.now.program.encoding.format
        input.now.texts input.now.program ((Inline [], 0), details info.now)) }
{
    if !input.program().file_has_source {
        return Ok(());
    }
    write_line_string(w, input, form, source_or(info, input.empty()))
}

/// A file's source, or this text where it has none.
fn source_or<'a>(info: &'a FileInfo, empty: &'a LineString) -> &'a LineString
    ensures { line_text result.now ≡ unwrap_or (details info.now).source (line_text empty.now) }
{
    match &info.source {
        Some(source) => source,
        None => empty,
    }
}
