//! What is made of the header of a source, before its program is read.

ghost use Rattle.std.specs.Prelude.{◌≡◌, ◌≢◌, All, IfOk, IfErr, IsOkUnless, IfSome, IsTrue, OnOk};
ghost use Rattle.std.specs.Prelude.{[], Ok, None, Some, false, option_map};
ghost use Rattle.gimli_core.specs.Numbers.{is_address_size};
ghost use Rattle.gimli_core.specs.Values.{value_seen};
ghost use Rattle.gimli_line.specs.header.File.{file_seen};
ghost use Rattle.gimli_line.specs.header.Parameters.{IsLineEncoding};
ghost use Rattle.gimli_bytes.specs.Texts.{KeepsTexts};
ghost use Rattle.gimli_build.specs.Advance.{CanEncode};
ghost use Rattle.gimli_build.specs.Conditions.{Accepts};
ghost use Rattle.gimli_write.specs.convert.Texts.{IsRefusedBy};
ghost use Rattle.gimli_write.specs.convert.SourceTables.{tables_with};
ghost use Rattle.gimli_write.specs.convert.Preparation.{first_path, working_directory};
ghost use Rattle.gimli_write.specs.convert.Preparation.{file_directory};
ghost use Rattle.gimli_write.specs.convert.Preparation.{own_source_file, named_source_file};
ghost use Rattle.gimli_write.specs.convert.Preparation.{source_file};
ghost use Rattle.gimli_write.specs.convert.Preparation.{is_out_of_range, line_encoding_of};
ghost use Rattle.gimli_write.specs.convert.Preparation.{first_texts, start_of_program, first_ids};
ghost use Rattle.gimli_write.specs.convert.Preparation.{with_flags};
ghost use Rattle.gimli_write.specs.convert.Preparation.{handed_of, tables_of_header};
ghost use Rattle.gimli_write.specs.convert.Preparation.{with_first_texts, tables_at_start};
ghost use Rattle.gimli_write.specs.convert.Preparation.{lists_added};

use crate::convert::tables::SourceTables;
use crate::convert::texts::{
    optional_program_text, program_text, source_path, source_text, without_zero,
};
use crate::convert_error::{ConvertError, ConvertResult, from_write};
use crate::text::{TextSections, copy_of};
use gimli_build::{DirectoryId, FileId, LineProgram};
use gimli_bytes::LineStringTable;
use gimli_core::{AttributeValue, Encoding, LineEncoding, Reader, ReaderOffset};
use gimli_line::{FileEntry, LineProgramHeader};
use std::alloc::Global;
use std::marker::Model;

/// The path of the source's directory 0 or file 0, for a program of this version. Up to version 4
/// of the source it is in none of its tables, and is refused as `source_text` is; from version 5
/// on, as `source_path` is.
fn first_path<R: Reader>(
    alloc: Global,
    version: u16,
    header: &LineProgramHeader<R>,
    value: AttributeValue<R>,
    sections: &TextSections<R>,
) -> ConvertResult<Vec<u8>>
    ensures ok { IfOk result (λ path. first_path version sections.now header.now.meaning
        (value_seen R.seen R.Offset.number value) ≡ Ok path.items) }
    ensures err { IfErr result (IsRefusedBy (first_path version sections.now header.now.meaning
        (value_seen R.seen R.Offset.number value))) }
    ensures no_zero { IfOk result (λ path. All (λ b. b ≢ 0) path.items) }
{
    if header.version() >= 5 {
        source_path(alloc, version, value, sections)
    } else {
        source_text(alloc, value, sections)
    }
}

/// The working directory of the program, which is the source's directory 0, refused as `first_path`
/// is. Where there is none it is empty up to version 4, and from version 5 on this is refused as
/// `MissingCompilationDirectory`.
fn working_directory<R: Reader>(
    alloc: Global,
    version: u16,
    header: &LineProgramHeader<R>,
    sections: &TextSections<R>,
) -> ConvertResult<Vec<u8>>
    ensures ok { IfOk result (λ text.
        working_directory version sections.now header.now.meaning ≡ Ok text.items) }
    ensures err { IfErr result
        (IsRefusedBy (working_directory version sections.now header.now.meaning)) }
    ensures no_zero { IfOk result (λ text. All (λ b. b ≢ 0) text.items) }
{
    match header.directory(0) {
        Some(directory) => first_path(alloc, version, header, directory, sections),
        None if version <= 4 => Ok(Vec::new(alloc)),
        None => Err(ConvertError::MissingCompilationDirectory),
    }
}

/// The source file of the program: its path, and its directory unless that is the working
/// directory.
#[derive(Drop)]
struct SourceFile {
    directory: Option<Vec<u8>>,
    path: Vec<u8>,
}

impl Model for SourceFile {
    ghost use Rattle.std.specs.Prelude.{option_map};
    ghost use Rattle.gimli_write.specs.convert.Preparation.{SourceFile};

    ghost Value = { SourceFile };

    ghost view = { λ a. record {
      directory = option_map (λ text. text.items) a.directory;
      path = a.path.items;
    } };
}

/// The directory of a source file; the working directory is the one at index 0. Refused as
/// `InvalidDirectoryIndex` where the source has no directory of its index, and as `source_path` is.
fn file_directory<R: Reader>(
    alloc: Global,
    version: u16,
    header: &LineProgramHeader<R>,
    index: u64,
    sections: &TextSections<R>,
) -> ConvertResult<Option<Vec<u8>>>
    ensures ok { IfOk result (λ text. file_directory version sections.now header.now.meaning index
        ≡ Ok (option_map (λ text. text.items) text)) }
    ensures err { IfErr result
        (IsRefusedBy (file_directory version sections.now header.now.meaning index)) }
    ensures no_zero { IfOk result (λ text. IfSome text (λ text. All (λ b. b ≢ 0) text.items)) }
{
    if index == 0 {
        return Ok(None);
    }
    match header.directory(index) {
        Some(directory) => Ok(Some(source_path(alloc, version, directory, sections)?)),
        None => Err(ConvertError::InvalidDirectoryIndex),
    }
}

/// The source file, made from the source's file 0. Refused as its directory and its path are.
fn own_source_file<R: Reader>(
    alloc: Global,
    version: u16,
    header: &LineProgramHeader<R>,
    file: &FileEntry<R>,
    sections: &TextSections<R>,
) -> ConvertResult<SourceFile>
    ensures ok { IfOk result (λ found. own_source_file version sections.now header.now.meaning
        (file_seen R.seen R.Offset.number file.now) ≡ Ok found) }
    ensures err { IfErr result (IsRefusedBy (own_source_file version sections.now header.now.meaning
        (file_seen R.seen R.Offset.number file.now))) }
    ensures directory_no_zero { IfOk result (λ found.
        IfSome found.directory (λ text. All (λ b. b ≢ 0) text)) }
    ensures path_no_zero { IfOk result (λ found. All (λ b. b ≢ 0) found.path) }
{
    let directory = file_directory(alloc, version, header, file.directory_index(), sections)?;
    let path = first_path(alloc, version, header, file.path_name(), sections)?;
    Ok(SourceFile { directory, path })
}

/// The source file, made from the name that is handed in.
fn named_source_file<R: Reader>(alloc: Global, name: R) -> ConvertResult<SourceFile>
    ensures ok { IfOk result (λ found. named_source_file (R.seen name).bytes ≡ Ok found) }
    ensures err { IfErr result (IsRefusedBy (named_source_file (R.seen name).bytes)) }
    ensures directory { IfOk result (λ found. found.directory ≡ None) }
    ensures path_no_zero { IfOk result (λ found. All (λ b. b ≢ 0) found.path) }
{
    let path = without_zero(copy_of(alloc, name)?)?;
    Ok(SourceFile {
        directory: None,
        path,
    })
}

/// The source file of the program: the one of the name that is handed in, where the source is of
/// version 4 or less, else the source's file 0. Where there is none it is empty up to version 4,
/// and from version 5 on this is refused as `MissingCompilationName`.
fn source_file<R: Reader>(
    alloc: Global,
    version: u16,
    header: &LineProgramHeader<R>,
    from_comp_name: Option<R>,
    sections: &TextSections<R>,
) -> ConvertResult<SourceFile>
    ensures ok { IfOk result (λ found.
        source_file version sections.now header.now.meaning
        (option_map (λ r. (R.seen r).bytes) from_comp_name)
        ≡ Ok found) }
    ensures err { IfErr result (IsRefusedBy
        (source_file version sections.now header.now.meaning
        (option_map (λ r. (R.seen r).bytes) from_comp_name))) }
    ensures directory_no_zero { IfOk result (λ found.
        IfSome found.directory (λ text. All (λ b. b ≢ 0) text)) }
    ensures path_no_zero { IfOk result (λ found. All (λ b. b ≢ 0) found.path) }
{
    if header.version() <= 4 {
        if let Some(name) = from_comp_name {
            return named_source_file(alloc, name);
        }
    }
    match header.file(0) {
        Some(file) => own_source_file(alloc, version, header, file, sections),
        None if version <= 4 => Ok(SourceFile {
            directory: None,
            path: Vec::new(alloc),
        }),
        None => Err(ConvertError::MissingCompilationName),
    }
}

/// Whether lines can't be written by the encoding of a source: no special opcode is sure to advance
/// no line, or no byte holds the one that does.
fn is_out_of_range(line_encoding: LineEncoding) -> bool
    ensures { result ≡ is_out_of_range line_encoding }
{
    i16::from(line_encoding.line_base) + i16::from(line_encoding.line_range) <= 0
        || line_encoding.line_range > 127
}

/// What lines are encoded by: as handed in, else as in the source. Refused as `InvalidLineBase`
/// where the source's line base is above 0, and where the source's encoding is taken and lines
/// can't be written by it.
fn line_encoding_of(own: LineEncoding, handed: Option<LineEncoding>) -> ConvertResult<LineEncoding>
    requires own { IsLineEncoding own }
    requires handed { IfSome handed CanEncode }
    ensures encoding { result ≡ line_encoding_of own handed }
    ensures can { IfOk result CanEncode }
{
    if own.line_base > 0 {
        return Err(ConvertError::InvalidLineBase);
    }
    match handed {
        Some(line_encoding) => Ok(line_encoding),
        None if is_out_of_range(own) => Err(ConvertError::InvalidLineBase),
        None => Ok(own),
    }
}

/// The program, with its first directory and file. Requires texts without zero bytes. Refused by
/// `OutOfMemory` alone. The line strings keep their texts.
fn first_program<R: Reader>(
    encoding: Encoding,
    line_encoding: LineEncoding,
    header: &LineProgramHeader<R>,
    directory: &[u8],
    file: &SourceFile,
    line_strings: &mut LineStringTable,
) -> ConvertResult<LineProgram>
    requires accepts { Accepts encoding line_encoding }
    requires working { All (λ b. b ≢ 0) directory.now }
    requires directory { IfSome file.now.directory (λ text. All (λ b. b ≢ 0) text) }
    requires path { All (λ b. b ≢ 0) file.now.path }
    // What is made of the texts.
    ensures ok { IfOk result (λ program.
        program ≡ start_of_program encoding line_encoding header.now.meaning
        (first_texts encoding.version line_strings.old directory.now file.now)) }
    ensures table { OnOk result (line_strings.new
        ≡ (first_texts encoding.version line_strings.old directory.now file.now).line_strings) }
    // However it ends.
    ensures stays { KeepsTexts line_strings.old line_strings.new }
    ensures memory { IsOkUnless result ConvertError.OutOfMemory }
{
    let alloc = *line_strings.allocator();
    let working_dir = program_text(directory, encoding, line_strings)?;
    let source_dir = optional_program_text(&file.directory, encoding, line_strings)?;
    let source_file = program_text(file.path.as_slice(), encoding, line_strings)?;
    match LineProgram::new(
        alloc,
        encoding,
        line_encoding,
        working_dir,
        source_dir,
        source_file,
        None,
    ) {
        Ok(program) => Ok(with_flags(program, header)),
        Err(e) => Err(from_write(e)),
    }
}

/// The program, which writes of its files what the header has of them.
fn with_flags<R: Reader>(mut program: LineProgram, header: &LineProgramHeader<R>) -> LineProgram
    ensures { result ≡ with_flags header.now.meaning program }
{
    program.file_has_timestamp = header.file_has_timestamp();
    program.file_has_size = header.file_has_size();
    program.file_has_md5 = header.file_has_md5();
    program.file_has_source = header.file_has_source();
    program
}

/// The id at number 0 up to version 4, where no row names it. `gimli_build` makes ids only for
/// files that are added and for the first row of a program, so this is the id in a placeholder's
/// row.
fn unused_file(alloc: Global) -> FileId
    ensures { result ≡ 0 }
{
    let mut program = LineProgram::none(alloc);
    program.row().file
}

/// The program, and no directory or file of its source but those at 0 up to version 4. Refused by
/// `OutOfMemory` alone.
fn first_tables(
    alloc: Global,
    program: LineProgram,
    source_version: u16,
) -> ConvertResult<SourceTables>
    requires { program.is_none ≡ false }
    ensures program { IfOk result (λ tables. tables.program ≡ program) }
    ensures directories { IfOk result (λ tables. tables.directory_ids ≡ first_ids source_version) }
    ensures files { IfOk result (λ tables. tables.file_ids ≡ first_ids source_version) }
    ensures memory { IsOkUnless result ConvertError.OutOfMemory }
{
    let mut tables = SourceTables {
        program,
        directories: Vec::new(alloc),
        files: Vec::new(alloc),
    };
    add_first(alloc, &mut tables, source_version)?;
    Ok(tables)
}

/// Adds what is at number 0 up to version 4. Requires tables without directories and files. Refused
/// by `OutOfMemory` alone.
fn add_first(alloc: Global, tables: &mut SourceTables, source_version: u16) -> ConvertResult<()>
    requires program { tables.old.program.is_none ≡ false }
    requires directories { tables.old.directory_ids ≡ [] }
    requires files { tables.old.file_ids ≡ [] }
    ensures program { OnOk result (tables.new.program ≡ tables.old.program) }
    ensures directories { OnOk result (tables.new.directory_ids ≡ first_ids source_version) }
    ensures files { OnOk result (tables.new.file_ids ≡ first_ids source_version) }
    ensures memory { IsOkUnless result ConvertError.OutOfMemory }
{
    if source_version <= 4 {
        tables.directories.push(tables.program.default_directory())?;
        tables.files.push(unused_file(alloc))?;
    }
    Ok(())
}

/// The tables of a header before its directories and files are added, with the texts of the first
/// of them. Requires texts without zero bytes. Refused as the encoding of lines is, or by
/// `OutOfMemory`. The line strings keep their texts.
fn tables_with_texts<R: Reader>(
    encoding: Encoding,
    line_encoding: Option<LineEncoding>,
    header: &LineProgramHeader<R>,
    directory: &[u8],
    file: &SourceFile,
    line_strings: &mut LineStringTable,
) -> ConvertResult<SourceTables>
    requires address_size { IsTrue (is_address_size encoding.address_size) }
    requires lines { IfSome line_encoding CanEncode }
    requires working { All (λ b. b ≢ 0) directory.now }
    requires directory { IfSome file.now.directory (λ text. All (λ b. b ≢ 0) text) }
    requires path { All (λ b. b ≢ 0) file.now.path }
    ensures ok { IfOk result (λ tables. with_first_texts encoding line_encoding header.now.meaning
        (first_texts encoding.version line_strings.old directory.now file.now)
        ≡ Ok (tables_with line_strings.new tables)) }
    ensures err { IfErr result
        (IsRefusedBy (line_encoding_of header.now.meaning.parameters.line_encoding line_encoding)) }
    ensures stays { KeepsTexts line_strings.old line_strings.new }
{
    let alloc = *line_strings.allocator();
    let lines = line_encoding_of(header.line_encoding(), line_encoding)?;
    let program = first_program(encoding, lines, header, directory, file, line_strings)?;
    first_tables(alloc, program, header.version())
}

/// The tables of a header before its directories and files are added. Refused by the first of these
/// that is refused: the working directory, the source file, the encoding of lines; or by
/// `OutOfMemory`. The line strings keep their texts.
fn tables_at_start<R: Reader>(
    sections: &TextSections<R>,
    header: &LineProgramHeader<R>,
    from_comp_name: Option<R>,
    encoding: Encoding,
    line_encoding: Option<LineEncoding>,
    line_strings: &mut LineStringTable,
) -> ConvertResult<SourceTables>
    requires address_size { IsTrue (is_address_size encoding.address_size) }
    requires lines { IfSome line_encoding CanEncode }
    ensures ok { IfOk result (λ tables. tables_at_start sections.now header.now.meaning
        encoding line_encoding (option_map (λ r. (R.seen r).bytes) from_comp_name) line_strings.old
        ≡ Ok (tables_with line_strings.new tables)) }
    ensures err { IfErr result (IsRefusedBy (tables_at_start sections.now header.now.meaning
        encoding line_encoding (option_map (λ r. (R.seen r).bytes) from_comp_name)
        line_strings.old)) }
    ensures stays { KeepsTexts line_strings.old line_strings.new }
{
    let alloc = *line_strings.allocator();
    let directory = working_directory(alloc, encoding.version, header, sections)?;
    let file = source_file(alloc, encoding.version, header, from_comp_name, sections)?;
    tables_with_texts(
        encoding,
        line_encoding,
        header,
        directory.as_slice(),
        &file,
        line_strings,
    )
}

/// Adds the directories and files of a header. Refused by the first that is refused, or by
/// `OutOfMemory`. The line strings keep their texts.
fn add_directories_and_files<R: Reader>(
    tables: &mut SourceTables,
    sections: &TextSections<R>,
    header: &LineProgramHeader<R>,
    line_strings: &mut LineStringTable,
) -> ConvertResult<()>
    ensures ok { OnOk result (lists_added sections.now header.now.meaning
        (tables_with line_strings.old tables.old) ≡ Ok (tables_with line_strings.new tables.new)) }
    ensures err { IfErr result (IsRefusedBy
        (lists_added sections.now header.now.meaning (tables_with line_strings.old tables.old))) }
    ensures stays { KeepsTexts line_strings.old line_strings.new }
{
    tables.add_directories(header.include_directories(), sections, line_strings)?;
    tables.add_files(header.file_names(), sections, line_strings)
}

/// The program of a header with its directories and files, and where it has those of the source.
/// Requires encodings that a program may have, where they are handed in. Refused by the first of
/// these that is refused: the working directory, the source file, the encoding of lines, the
/// directories, the files; or by `OutOfMemory`. The line strings keep their texts.
pub(crate) fn prepare<R: Reader>(
    sections: &TextSections<R>,
    header: &LineProgramHeader<R>,
    from_comp_name: Option<R>,
    encoding: Option<Encoding>,
    line_encoding: Option<LineEncoding>,
    line_strings: &mut LineStringTable,
) -> ConvertResult<SourceTables>
    requires address_size { IfSome encoding (λ e. IsTrue (is_address_size e.address_size)) }
    requires lines { IfSome line_encoding CanEncode }
    ensures ok { IfOk result (λ tables. tables_of_header sections.now header.now.meaning
        (handed_of encoding line_encoding (option_map (λ r. (R.seen r).bytes) from_comp_name))
        line_strings.old
        ≡ Ok (tables_with line_strings.new tables)) }
    ensures err { IfErr result (IsRefusedBy (tables_of_header sections.now header.now.meaning
        (handed_of encoding line_encoding (option_map (λ r. (R.seen r).bytes) from_comp_name))
        line_strings.old)) }
    ensures stays { KeepsTexts line_strings.old line_strings.new }
{
    let encoding = encoding.unwrap_or(header.encoding());
    let mut tables = tables_at_start(
        sections,
        header,
        from_comp_name,
        encoding,
        line_encoding,
        line_strings,
    )?;
    add_directories_and_files(&mut tables, sections, header, line_strings)?;
    Ok(tables)
}
