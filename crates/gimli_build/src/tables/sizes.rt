//! How many bytes directories and files take, without writing them. Sums go up to the greatest
//! number of 64 bits.

ghost use Rattle.std.specs.Prelude.{◌≡◌, ◌≤◌, ◌-◌, ◌+◌, ◌^◌, ◌∷◌, ◌++◌, [], if◌then◌else◌, length};
ghost use Rattle.std.specs.Prelude.{map, min, drop, sum_by, unwrap_or};
ghost use Rattle.gimli_core.specs.Numbers.{word_size};
ghost use Rattle.gimli_bytes.specs.Number.{uleb};
ghost use Rattle.gimli_bytes.specs.Texts.{StringTables};
ghost use Rattle.gimli_build.specs.Cause.{text_size, file_size, entry_size, tables_size};
ghost use Rattle.gimli_build.specs.LineText.{line_text};
ghost use Rattle.gimli_build.specs.TableFields.{details};
ghost use Rattle.gimli_build.specs.Version5Tables.{first_form, sources, empty_text, file_formats};
ghost use Rattle.gimli_build.specs.Version5Tables.{directory_formats, formats_bytes};

use crate::built::files::{DirectoryId, FileInfo, FileTable};
use crate::built::line_program::LineProgram;
use crate::built::line_string::LineString;
use crate::rows::sizes::unsigned_size;
use crate::tables::version_4::others;
use crate::tables::version_5::source_form;
use gimli_core::{DwForm, Format, constants};

/// How many bytes the tables of a program take.
pub(crate) fn tables_size(program: &LineProgram) -> u64
    ensures { (texts : StringTables) → result
        ≡ min (tables_size program.now texts) (2 ^ 64 - 1) }
{
    if program.version() <= 4 {
        return old_tables_size(program);
    }
    directory_table_size(program).saturating_add(file_table_size(program))
}

/// How many bytes the tables up to version 4 take.
fn old_tables_size(program: &LineProgram) -> u64
    ensures { result
        ≡ min ((sum_by (text_size program.now.encoding.format) (drop 1 program.now.directories) + 1)
        + (sum_by (file_size program.now.encoding.format) program.now.files + 1)) (2 ^ 64 - 1) }
{
    let tables = program.tables();
    let directories = texts_size(program.format(), others(tables.directories()));
    let files = files_size(program.format(), tables);
    directories.saturating_add(files).saturating_add(2)
}

/// How many bytes files take up to version 4.
fn files_size(format: Format, tables: &FileTable) -> u64
    ensures { result ≡ min (sum_by (file_size format) tables.now.files) (2 ^ 64 - 1) }
{
    let mut size: u64 = 0;
    for index in 0..tables.file_count() {
        let (path, directory, info) = tables.file(index);
        size = size.saturating_add(file_size(format, path, directory, info));
    }
    size
}

/// How many bytes a file takes up to version 4.
fn file_size(format: Format, path: &LineString, directory: DirectoryId, info: &FileInfo) -> u64
    ensures { result ≡ min
        (file_size format ((line_text path.now, directory), details info.now)) (2 ^ 64 - 1) }
{
    let numbers = unsigned_size(directory.index() as u64)
        + unsigned_size(info.timestamp)
        + unsigned_size(info.size);
    text_size(format, path).saturating_add(numbers)
}

/// How many bytes the directories take from version 5 on, with their formats and their number.
fn directory_table_size(program: &LineProgram) -> u64
    ensures { result ≡ min (length (formats_bytes (directory_formats program.now))
        + length (uleb (length program.now.directories))
        + sum_by (text_size program.now.encoding.format) program.now.directories) (2 ^ 64 - 1) }
{
    let directories = program.tables().directories();
    let front = 3 + unsigned_size(directories.len() as u64);
    texts_size(program.format(), directories).saturating_add(front)
}

/// How many bytes the files take from version 5 on, with their formats and their number.
fn file_table_size(program: &LineProgram) -> u64
    ensures { (texts : StringTables) → result
        ≡ min (length (formats_bytes (file_formats program.now))
        + length (uleb (length program.now.files))
        + sum_by (entry_size program.now texts) program.now.files) (2 ^ 64 - 1) }
{
    let front = formats_size(program) + unsigned_size(program.tables().file_count() as u64);
    entries_size(program).saturating_add(front)
}

/// How many bytes the formats of files take, with their number.
fn formats_size(program: &LineProgram) -> u64
    ensures size { result ≡ length (formats_bytes (file_formats program.now)) }
    ensures short { result ≤ 14 }
{
    5 + due_size(program.file_has_timestamp, 2)
        + due_size(program.file_has_size, 2)
        + due_size(program.file_has_md5, 2)
        + due_size(program.file_has_source, 3)
}

/// This many bytes where they are due, else 0.
fn due_size(due: bool, size: u64) -> u64
    ensures size { result ≡ (if due then size else 0) }
    ensures short { result ≤ size }
{
    if due { size } else { 0 }
}

/// How many bytes files take from version 5 on.
fn entries_size(program: &LineProgram) -> u64
    ensures { (texts : StringTables) → result
        ≡ min (sum_by (entry_size program.now texts) program.now.files) (2 ^ 64 - 1) }
{
    let tables = program.tables();
    let form = source_form(tables);
    let mut size: u64 = 0;
    for index in 0..tables.file_count() {
        let file = tables.file(index);
        size = size.saturating_add(entry_size(program, form, file));
    }
    size
}

/// How many bytes a file takes from version 5 on.
fn entry_size(
    program: &LineProgram,
    form: DwForm,
    file: (&LineString, DirectoryId, &FileInfo),
) -> u64
    requires { form.0 ≡ first_form (sources program.now.files) }
    ensures { (texts : StringTables) → result ≡ min
        (entry_size program.now texts
        ((line_text file.entry.0.now, file.entry.1), details file.entry.2.now)) (2 ^ 64 - 1) }
{
    let path = text_size(program.format(), file.0);
    let source = source_size(program, form, file.2);
    let details = details_size(program, file.1, file.2);
    path.saturating_add(source).saturating_add(details)
}

/// How many bytes a file's source takes, or the empty text, where the program's flags say so.
fn source_size(program: &LineProgram, form: DwForm, info: &FileInfo) -> u64
    ensures { (texts : StringTables) → result ≡
        (if program.now.file_has_source
        then text_size program.now.encoding.format
        (unwrap_or (details info.now).source (empty_text form.0 texts)) else 0) }
{
    if !program.file_has_source {
        return 0;
    }
    match &info.source {
        Some(source) => text_size(program.format(), source),
        None => empty_size(program.format(), form),
    }
}

/// How many bytes an empty text of a form takes.
fn empty_size(format: Format, form: DwForm) -> u64
    ensures { (texts : StringTables) → result ≡ text_size format (empty_text form.0 texts) }
{
    match form {
        constants::DW_FORM_strp => u64::from(format.word_size()),
        constants::DW_FORM_line_strp => u64::from(format.word_size()),
        _ => 1,
    }
}

/// How many bytes a file's directory, timestamp, size and digest take, the last three where the
/// program's flags say so.
fn details_size(program: &LineProgram, directory: DirectoryId, info: &FileInfo) -> u64
    ensures size { result ≡ length (uleb directory
        ++ (if program.now.file_has_timestamp then uleb info.now.timestamp else [])
        ++ (if program.now.file_has_size then uleb info.now.size else [])
        ++ (if program.now.file_has_md5 then info.now.md5 else [])) }
    ensures short { result ≤ 46 }
{
    let digest = if program.file_has_md5 { 16 } else { 0 };
    unsigned_size(directory.index() as u64)
        + size_if(program.file_has_timestamp, info.timestamp)
        + size_if(program.file_has_size, info.size)
        + digest
}

/// How many bytes a number takes as LEB128, where it is due.
fn size_if(due: bool, number: u64) -> u64
    ensures size { result ≡ length (if due then uleb number else []) }
    ensures short { result ≤ 10 }
{
    if due { unsigned_size(number) } else { 0 }
}

/// How many bytes texts take.
fn texts_size(format: Format, texts: &[LineString]) -> u64
    ensures { result
        ≡ min (sum_by (text_size format) (map line_text texts.now)) (2 ^ 64 - 1) }
{
    let mut size: u64 = 0;
    for text in texts {
        size = size.saturating_add(text_size(format, text));
    }
    size
}

/// How many bytes a text takes.
fn text_size(format: Format, text: &LineString) -> u64
    ensures { result ≡ text_size format (line_text text.now) }
{
    match text {
        LineString::String(text) => text.len() as u64 + 1,
        _ => u64::from(format.word_size()),
    }
}
