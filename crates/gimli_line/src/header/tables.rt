//! The tables of directories and files.

ghost use Rattle.std.specs.Prelude.{◌≡◌, [], ◌∷◌, ◌++◌, map, IsOkUnless, IfOk, OnErr, OnOk};
ghost use Rattle.gimli_core.specs.Production.{times};
ghost use Rattle.gimli_core.specs.Reading.{result_map};
ghost use Rattle.gimli_core.specs.Seen.{in_order, taken};
ghost use Rattle.std.specs.List.{All};
ghost use Rattle.gimli_core.specs.Layout.{layout_of};
ghost use Rattle.gimli_core.specs.Values.{value_seen, ValueHasOrder};
ghost use Rattle.gimli_core.specs.declared.attribute_value.AttributeValue.TheVariants.{String};
ghost use Rattle.gimli_line.specs.inside.header.Outcome.{IsOutcome, IsListOutcome, IsTableOutcome};
ghost use Rattle.gimli_line.specs.inside.header.Outcome.{read_map};
ghost use Rattle.gimli_line.specs.header.File.{file_seen, FileHasOrder};
ghost use Rattle.gimli_line.specs.header.HeaderGrammar.{
  format_production,
  formats_production,
  paths_production,
  files_production,
  path_of,
  file_of_entry,
  entry_production,
  entries_production,
  directory_table,
  file_table,
};

use crate::header::file_entry::{FileEntry, FileEntryFormat};
use crate::header::forms::parse_attribute;
use gimli_core::{
    AttributeValue, DwForm, DwLnct, Encoding, Error, Format, Reader, Result, constants,
};
use std::alloc::Global;

/// Adds an item at the end. Refused by `OutOfMemory` alone; the list is then as it was.
pub(crate) fn push<T: Drop>(list: &mut Vec<T>, item: T) -> Result<()>
    ensures ok { OnOk result (list.new.items ≡ list.old.items ++ item ∷ []) }
    ensures err { IsOkUnless result Error.OutOfMemory }
    ensures kept { OnErr result (list.new.items ≡ list.old.items) }
{
    if list.reserve(1).is_err() {
        return Err(Error::OutOfMemory);
    }
    list.push_reserved(item);
    Ok(())
}

// ---- formats

/// Takes the formats of a table. Refused by `MissingFileEntryFormatPath` where not exactly one of
/// them is a path.
#[tactic(auto, unfolding(crate::specs::header::HeaderGrammar::formats_production))]
pub(crate) fn parse_formats<R: Reader>(alloc: Global, input: &mut R) -> Result<Vec<FileEntryFormat>>
    ensures read { IsOutcome (λ formats. formats.items) result (R.seen input.new).bytes
        (formats_production.read (R.seen input.old).bytes) }
    ensures order { (R.seen input.new).is_big ≡ (R.seen input.old).is_big }
{
    let count = input.read_u8()?;
    let formats = parse_all_formats(alloc, input, count)?;
    let paths = formats
        .iter()
        .filter(|format| format.content_type == constants::DW_LNCT_path)
        .count();
    if paths != 1 {
        return Err(Error::MissingFileEntryFormatPath);
    }
    Ok(formats)
}

/// Takes so many formats.
fn parse_all_formats<R: Reader>(
    alloc: Global,
    input: &mut R,
    count: u8,
) -> Result<Vec<FileEntryFormat>>
    ensures read { IsOutcome (λ formats. formats.items) result (R.seen input.new).bytes
        ((times count format_production).read (R.seen input.old).bytes) }
    ensures order { (R.seen input.new).is_big ≡ (R.seen input.old).is_big }
{
    let mut formats = Vec::new(alloc);
    for _ in 0..count {
        let format = parse_format(input)?;
        push(&mut formats, format)?;
    }
    Ok(formats)
}

/// Takes a format. A content type that is too large becomes the greatest one.
#[tactic(auto, unfolding(crate::specs::header::HeaderGrammar::format_production))]
fn parse_format<R: Reader>(input: &mut R) -> Result<FileEntryFormat>
    ensures { (result, R.seen input.new)
        ≡ taken format_production (R.seen input.old) }
{
    let content_type = input.read_uleb128()?.min(0xffff) as u16;
    let form = input.read_uleb128_u16()?;
    Ok(FileEntryFormat {
        content_type: DwLnct(content_type),
        form: DwForm(form),
    })
}

// ---- tables up to version 4

/// Takes directories up to an empty one.
fn parse_directories<R: Reader>(alloc: Global, input: &mut R) -> Result<Vec<AttributeValue<R>>>
    ensures read { IsListOutcome (value_seen R.seen R.Offset.number) result (R.seen input.new).bytes
        (read_map (map String) (paths_production.read (R.seen input.old).bytes)) }
    ensures order { (R.seen input.new).is_big ≡ (R.seen input.old).is_big }
    ensures parts { IfOk result (λ directories.
        All (ValueHasOrder R.seen (R.seen input.old).is_big) directories.items) }
{
    let mut directories = Vec::new(alloc);
    loop {
        let directory = input.read_null_terminated_slice()?;
        if directory.is_empty() {
            return Ok(directories);
        }
        push(&mut directories, AttributeValue::String(directory))?;
    }
}

/// Takes files up to one with an empty path.
fn parse_files<R: Reader>(alloc: Global, input: &mut R) -> Result<Vec<FileEntry<R>>>
    ensures read { IsListOutcome (file_seen R.seen R.Offset.number) result (R.seen input.new).bytes
        (files_production.read (R.seen input.old).bytes) }
    ensures order { (R.seen input.new).is_big ≡ (R.seen input.old).is_big }
    ensures parts { IfOk result (λ files.
        All (FileHasOrder R.seen (R.seen input.old).is_big) files.items) }
{
    let mut files = Vec::new(alloc);
    loop {
        let path_name = input.read_null_terminated_slice()?;
        if path_name.is_empty() {
            return Ok(files);
        }
        let file = FileEntry::parse(input, path_name)?;
        push(&mut files, file)?;
    }
}

// ---- tables of version 5

/// A reader in place of an empty text.
fn nothing<R: Reader>(input: &R) -> R
    ensures bytes { (R.seen result).bytes ≡ [] }
    ensures order { (R.seen result).is_big ≡ (R.seen input.now).is_big }
{
    let mut nothing = *input;
    nothing.empty();
    nothing
}

/// Takes an entry of a directory as if it were one of a file, and returns its path.
fn parse_directory_v5<R: Reader>(
    input: &mut R,
    format: Format,
    formats: &[FileEntryFormat],
) -> Result<AttributeValue<R>>
    ensures read { (result_map (value_seen R.seen R.Offset.number) result, R.seen input.new)
        ≡ in_order (R.seen input.old).is_big (read_map path_of
        ((entry_production (layout_of (R.seen input.old).is_big R.Offset.limit) format
        formats.now).read (R.seen input.old).bytes)) }
    ensures part { IfOk result (ValueHasOrder R.seen (R.seen input.old).is_big) }
{
    let file = parse_file_v5(input, format, formats)?;
    Ok(file.path_name)
}

/// Takes an entry of a file. Where no format is a path, its path is empty.
fn parse_file_v5<R: Reader>(
    input: &mut R,
    format: Format,
    formats: &[FileEntryFormat],
) -> Result<FileEntry<R>>
    ensures read { (result_map (file_seen R.seen R.Offset.number) result, R.seen input.new)
        ≡ in_order (R.seen input.old).is_big (read_map file_of_entry
        ((entry_production (layout_of (R.seen input.old).is_big R.Offset.limit) format
        formats.now).read (R.seen input.old).bytes)) }
    ensures part { IfOk result (FileHasOrder R.seen (R.seen input.old).is_big) }
{
    let mut file = FileEntry::of_path(nothing(input));
    for entry_format in formats {
        let value = parse_attribute(input, format, entry_format.form)?;
        file.update(entry_format.content_type, value);
    }
    Ok(file)
}

/// Takes a count and so many directories.
#[tactic(auto, unfolding(crate::specs::header::HeaderGrammar::entries_production))]
fn parse_directories_v5<R: Reader>(
    alloc: Global,
    input: &mut R,
    format: Format,
    formats: &[FileEntryFormat],
) -> Result<Vec<AttributeValue<R>>>
    ensures read { IsListOutcome (value_seen R.seen R.Offset.number) result (R.seen input.new).bytes
        (read_map (map path_of)
        ((entries_production (layout_of (R.seen input.old).is_big R.Offset.limit)
        format formats.now).read (R.seen input.old).bytes)) }
    ensures order { (R.seen input.new).is_big ≡ (R.seen input.old).is_big }
    ensures parts { IfOk result (λ directories.
        All (ValueHasOrder R.seen (R.seen input.old).is_big) directories.items) }
{
    let count = input.read_uleb128()?;
    let mut directories = Vec::new(alloc);
    for _ in 0..count {
        let directory = parse_directory_v5(input, format, formats)?;
        push(&mut directories, directory)?;
    }
    Ok(directories)
}

/// Takes a count and so many files.
#[tactic(auto, unfolding(crate::specs::header::HeaderGrammar::entries_production))]
fn parse_files_v5<R: Reader>(
    alloc: Global,
    input: &mut R,
    format: Format,
    formats: &[FileEntryFormat],
) -> Result<Vec<FileEntry<R>>>
    ensures read { IsListOutcome (file_seen R.seen R.Offset.number) result (R.seen input.new).bytes
        (read_map (map file_of_entry) ((entries_production
        (layout_of (R.seen input.old).is_big R.Offset.limit) format formats.now).read
        (R.seen input.old).bytes)) }
    ensures order { (R.seen input.new).is_big ≡ (R.seen input.old).is_big }
    ensures parts { IfOk result (λ files.
        All (FileHasOrder R.seen (R.seen input.old).is_big) files.items) }
{
    let count = input.read_uleb128()?;
    let mut files = Vec::new(alloc);
    for _ in 0..count {
        let file = parse_file_v5(input, format, formats)?;
        push(&mut files, file)?;
    }
    Ok(files)
}

// ---- tables of a version

/// Takes the directories, with their formats.
pub(crate) fn parse_directory_table<R: Reader>(
    alloc: Global,
    input: &mut R,
    encoding: Encoding,
) -> Result<(Vec<FileEntryFormat>, Vec<AttributeValue<R>>)>
    ensures read { IsTableOutcome (value_seen R.seen R.Offset.number) result
        (R.seen input.new).bytes
        ((directory_table (layout_of (R.seen input.old).is_big R.Offset.limit) encoding).read
        (R.seen input.old).bytes) }
    ensures order { (R.seen input.new).is_big ≡ (R.seen input.old).is_big }
    ensures parts { IfOk result (λ table.
        All (ValueHasOrder R.seen (R.seen input.old).is_big) table.1.items) }
{
    if encoding.version <= 4 {
        let directories = parse_directories(alloc, input)?;
        return Ok((Vec::new(alloc), directories));
    }
    let formats = parse_formats(alloc, input)?;
    let directories = parse_directories_v5(alloc, input, encoding.format, &formats)?;
    Ok((formats, directories))
}

/// Takes the files, with their formats.
pub(crate) fn parse_file_table<R: Reader>(
    alloc: Global,
    input: &mut R,
    encoding: Encoding,
) -> Result<(Vec<FileEntryFormat>, Vec<FileEntry<R>>)>
    ensures read { IsTableOutcome (file_seen R.seen R.Offset.number) result (R.seen input.new).bytes
        ((file_table (layout_of (R.seen input.old).is_big R.Offset.limit) encoding).read
        (R.seen input.old).bytes) }
    ensures order { (R.seen input.new).is_big ≡ (R.seen input.old).is_big }
    ensures parts { IfOk result (λ table.
        All (FileHasOrder R.seen (R.seen input.old).is_big) table.1.items) }
{
    if encoding.version <= 4 {
        let files = parse_files(alloc, input)?;
        return Ok((Vec::new(alloc), files));
    }
    let formats = parse_formats(alloc, input)?;
    let files = parse_files_v5(alloc, input, encoding.format, &formats)?;
    Ok((formats, files))
}
