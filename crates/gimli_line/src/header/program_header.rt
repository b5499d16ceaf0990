//! The header of a line program, and its tables by index.

ghost use Rattle.std.specs.Prelude.{◌≡◌, Bool, ◌-◌, ◌^◌, ◌<◌, ◌≤◌, ◌↔◌, ◌||◌, ◌++◌, ◌∷◌, []};
ghost use Rattle.std.specs.Prelude.{IfOk, IfSome, IsNone, IsOkUnless, IsTrue, OnErr, OnOk, map};
ghost use Rattle.std.specs.Prelude.{min, nat_le, option_map, slice_get, slice_index};
ghost use Rattle.gimli_core.specs.Numbers.{is_address_size};
ghost use Rattle.gimli_core.specs.Values.{value_seen};
ghost use Rattle.gimli_line.specs.header.Parameters.{IsLineEncoding};

use crate::header::file_entry::{FileEntry, FileEntryFormat};
use crate::header::parameters::Parameters;
use crate::header::tables::push;
use gimli_core::{
    AttributeValue, DebugLineOffset, DwLnct, DwLns, Encoding, Error, Format, LineEncoding, Reader,
    ReaderOffset, Result, constants,
};
use std::alloc::AllocError;
use std::marker::Model;

/// The header of a line program. Texts, blocks and the program are readers over the section.
#[derive(Debug, PartialEq, Eq, Drop)]
pub struct LineProgramHeader<R, Offset = <R as Reader>::Offset>
where
    R: Reader<Offset = Offset>,
    Offset: ReaderOffset,
{
    pub(crate) parameters: Parameters,
    pub(super) offset: DebugLineOffset<Offset>,
    pub(super) unit_length: Offset,
    pub(super) header_length: Offset,
    /// How many LEB128 operands each standard opcode has, from opcode 1 on.
    pub(super) standard_opcode_lengths: R,
    pub(super) directory_entry_format: Vec<FileEntryFormat>,
    pub(super) include_directories: Vec<AttributeValue<R, Offset>>,
    pub(super) file_name_entry_format: Vec<FileEntryFormat>,
    pub(crate) file_names: Vec<FileEntry<R, Offset>>,
    pub(crate) program_buf: R,
    /// The directory at index 0 up to version 4, as it was handed in.
    pub(super) comp_dir: Option<R>,
    /// The file at index 0 up to version 4, of the name that was handed in.
    pub(super) comp_file: Option<FileEntry<R, Offset>>,
}

impl<R, Offset> Model for LineProgramHeader<R, Offset>
where
    R: Reader<Offset = Offset>,
    Offset: ReaderOffset,
{
    ghost use Rattle.std.specs.Prelude.{◌≡◌, ◌+◌, length, map, option_map};
    ghost use Rattle.gimli_core.specs.Values.{value_seen};
    ghost use Rattle.gimli_line.specs.header.File.{file_seen};
    ghost use Rattle.gimli_line.specs.header.Header.{SeenHeader};

    ghost Value = { SeenHeader R Offset R.Endian };

    ghost view = { λ a. record {
      meaning = record {
        parameters = a.parameters;
        unit_length = Offset.number a.unit_length;
        header_length = Offset.number a.header_length;
        operand_counts = (R.seen a.standard_opcode_lengths).bytes;
        directory_formats = a.directory_entry_format.items;
        directories = map (value_seen R.seen Offset.number) a.include_directories.items;
        file_formats = a.file_name_entry_format.items;
        files = map (file_seen R.seen Offset.number) a.file_names.items;
        program = (R.seen a.program_buf).bytes;
        comp_dir = option_map (λ r. (R.seen r).bytes) a.comp_dir;
        comp_file = option_map (file_seen R.seen Offset.number) a.comp_file;
      };
      layout = record { is_big = (R.seen a.program_buf).is_big; limit = Offset.limit };
      parameters = a.parameters;
      offset = a.offset;
      unit_length = a.unit_length;
      header_length = a.header_length;
      standard_opcode_lengths = a.standard_opcode_lengths;
      directory_entry_format = a.directory_entry_format;
      include_directories = a.include_directories;
      file_name_entry_format = a.file_name_entry_format;
      file_names = a.file_names;
      program_buf = a.program_buf;
      comp_dir = a.comp_dir;
      comp_file = a.comp_file;
    } };

    ghost inverse = { λ v. record {
      parameters = v.parameters;
      offset = v.offset;
      unit_length = v.unit_length;
      header_length = v.header_length;
      standard_opcode_lengths = v.standard_opcode_lengths;
      directory_entry_format = v.directory_entry_format;
      include_directories = v.include_directories;
      file_name_entry_format = v.file_name_entry_format;
      file_names = v.file_names;
      program_buf = v.program_buf;
      comp_dir = v.comp_dir;
      comp_file = v.comp_file;
    } };
}

impl<R, Offset> Clone for LineProgramHeader<R, Offset>
where
    R: Reader<Offset = Offset>,
    Offset: ReaderOffset,
{
    ghost use Rattle.gimli_line.specs.header.HeaderParts.{parts_of};

    ghost is_clone = { λ header copy. parts_of copy ≡ parts_of header };

    fn clone(&self) -> std::result::Result<Self, AllocError> {
        match self.clone() {
            Ok(copy) => Ok(copy),
            Err(_) => Err(AllocError),
        }
    }
}

impl<R, Offset> LineProgramHeader<R, Offset>
where
    R: Reader<Offset = Offset>,
    Offset: ReaderOffset,
{
    ghost use Rattle.gimli_line.specs.header.Header.{directory_of, file_of, own_directory_of};
    ghost use Rattle.gimli_line.specs.header.Header.{own_file_of, has_content, with_file};
    ghost use Rattle.gimli_line.specs.header.HeaderParts.{parts_of};
    ghost use Rattle.gimli_line.specs.header.File.{file_seen, FileHasOrder};
    ghost use Rattle.gimli_line.specs.header.Orders.{source_of, KeepsSource};
    ghost use Rattle.gimli_line.specs.Units.{offset_after};

    /// A copy, which agrees with the header in all its parts and in what it means. Refused by
    /// `OutOfMemory` alone.
    pub fn clone(&self) -> Result<Self>
        ensures parts { IfOk result (λ copy. parts_of copy ≡ parts_of self.now) }
        ensures meaning { IfOk result (λ copy. copy.meaning ≡ self.now.meaning) }
        ensures layout { IfOk result (λ copy. copy.layout ≡ self.now.layout) }
        ensures offset { IfOk result (λ copy. copy.offset ≡ self.now.offset) }
        ensures err { IsOkUnless result Error.OutOfMemory }
    {
        let (directory_entry_format, include_directories) = copied_both(
            &self.directory_entry_format,
            &self.include_directories,
        )?;
        let (file_name_entry_format, file_names) = copied_both(
            &self.file_name_entry_format,
            &self.file_names,
        )?;
        Ok(LineProgramHeader {
            parameters: self.parameters,
            offset: self.offset,
            unit_length: self.unit_length,
            header_length: self.header_length,
            standard_opcode_lengths: self.standard_opcode_lengths,
            directory_entry_format,
            include_directories,
            file_name_entry_format,
            file_names,
            program_buf: self.program_buf,
            comp_dir: self.comp_dir,
            comp_file: self.comp_file,
        })
    }

    /// The offset of the header in the section `.debug_line`, as it was handed in.
    pub fn offset(&self) -> DebugLineOffset<Offset>
        ensures { result ≡ self.now.offset }
    {
        self.offset
    }

    /// The length of the unit in bytes, without the length itself.
    pub fn unit_length(&self) -> Offset
        ensures { Offset.number result ≡ self.now.meaning.unit_length }
    {
        self.unit_length
    }

    /// The offset of what follows the unit in its section: the unit's own, the size of its length,
    /// and as many bytes as that says (DWARF 5, section 7.4). None where it is too large for the
    /// reader's offsets, or for 64 bits.
    pub fn next_unit_offset(&self) -> Option<DebugLineOffset<Offset>>
        ensures some { IfSome result (λ next. Offset.number next.0
            ≡ offset_after (Offset.number self.now.offset.0) self.now.meaning) }
        ensures none { IsNone result ↔ (min Offset.limit (2 ^ 64)
            ≤ offset_after (Offset.number self.now.offset.0) self.now.meaning) }
    {
        let length_size = u64::from(self.format().initial_length_size());
        let offset = self.offset.0.into_u64();
        let length = self.unit_length.into_u64();
        let next = offset.checked_add(length_size)?.checked_add(length)?;
        match Offset::from_u64(next) {
            Ok(next) => Some(DebugLineOffset(next)),
            Err(_) => None,
        }
    }

    /// How the numbers of the unit are encoded; addresses have 1, 2, 4 or 8 bytes.
    pub fn encoding(&self) -> Encoding
        ensures encoding { result ≡ self.now.meaning.parameters.encoding }
        ensures address_size { IsTrue (is_address_size result.address_size) }
    {
        self.parameters.encoding
    }

    /// The version, from 2 to 5.
    pub fn version(&self) -> u16
        ensures { result ≡ self.now.meaning.parameters.encoding.version }
    {
        self.parameters.encoding.version
    }

    /// The length of the header in bytes, from after that length on.
    pub fn header_length(&self) -> Offset
        ensures { Offset.number result ≡ self.now.meaning.header_length }
    {
        self.header_length
    }

    /// The number of bytes of an address.
    pub fn address_size(&self) -> u8
        ensures { result ≡ self.now.meaning.parameters.encoding.address_size }
    {
        self.parameters.encoding.address_size
    }

    /// The format of words.
    pub fn format(&self) -> Format
        ensures { result ≡ self.now.meaning.parameters.encoding.format }
    {
        self.parameters.encoding.format
    }

    /// How rows are encoded; no number that is a divisor is 0.
    pub fn line_encoding(&self) -> LineEncoding
        ensures line_encoding { result ≡ self.now.meaning.parameters.line_encoding }
        ensures allowed { IsLineEncoding result }
    {
        self.parameters.line_encoding
    }

    /// The number of bytes of the shortest instruction of the machine.
    pub fn minimum_instruction_length(&self) -> u8
        ensures { result ≡ self.now.meaning.parameters.line_encoding.minimum_instruction_length }
    {
        self.parameters.line_encoding.minimum_instruction_length
    }

    /// The greatest number of operations in one instruction of the machine.
    pub fn maximum_operations_per_instruction(&self) -> u8
        ensures { result
            ≡ self.now.meaning.parameters.line_encoding.maximum_operations_per_instruction }
    {
        self.parameters
            .line_encoding
            .maximum_operations_per_instruction
    }

    /// Whether a row begins a statement, unless the program says otherwise.
    pub fn default_is_stmt(&self) -> bool
        ensures { result ≡ self.now.meaning.parameters.line_encoding.default_is_stmt }
    {
        self.parameters.line_encoding.default_is_stmt
    }

    /// The least line advance of a special opcode.
    pub fn line_base(&self) -> i8
        ensures { result ≡ self.now.meaning.parameters.line_encoding.line_base }
    {
        self.parameters.line_encoding.line_base
    }

    /// How many line advances special opcodes have.
    pub fn line_range(&self) -> u8
        ensures { result ≡ self.now.meaning.parameters.line_encoding.line_range }
    {
        self.parameters.line_encoding.line_range
    }

    /// The number of the first special opcode.
    pub fn opcode_base(&self) -> u8
        ensures { result ≡ self.now.meaning.parameters.opcode_base }
    {
        self.parameters.opcode_base
    }

    /// How many LEB128 operands each standard opcode has, from opcode 1 on: a byte for each.
    pub fn standard_opcode_lengths(&self) -> &R
        ensures bytes { (R.seen result.now).bytes ≡ self.now.meaning.operand_counts }
        ensures own { result.now ≡ self.now.standard_opcode_lengths }
    {
        &self.standard_opcode_lengths
    }

    /// How many LEB128 operands a standard opcode has; 0 where the header says nothing of it.
    pub(crate) fn operand_count(&self, opcode: DwLns) -> u8
        requires { 0 < opcode.0 }
        ensures { result ≡ slice_index self.now.meaning.operand_counts (opcode.0 - 1) }
    {
        let mut counts = self.standard_opcode_lengths;
        match counts.skip(Offset::from_u8(opcode.0 - 1)) {
            Ok(()) => counts.read_u8().unwrap_or(0),
            Err(_) => 0,
        }
    }

    /// What the table of directories holds of each; nothing up to version 4.
    pub fn directory_entry_format(&self) -> &[FileEntryFormat]
        ensures { result.now ≡ self.now.meaning.directory_formats }
    {
        &self.directory_entry_format
    }

    /// The table of directories. Up to version 4 it begins with directory 1.
    pub fn include_directories(&self) -> &[AttributeValue<R, Offset>]
        ensures directories { map (value_seen R.seen Offset.number) result.now
            ≡ self.now.meaning.directories }
        ensures own { result.now ≡ self.now.include_directories.items }
    {
        &self.include_directories
    }

    /// The directory of an index. Up to version 4 index 0 is the handed directory.
    pub fn directory(&self, directory: u64) -> Option<AttributeValue<R, Offset>>
        ensures directory { option_map (value_seen R.seen Offset.number) result
            ≡ directory_of self.now.meaning directory }
        ensures own { result ≡ own_directory_of self.now directory }
    {
        if self.version() > 4 {
            return entry(&self.include_directories, directory).copied();
        }
        if directory > 0 {
            return entry(&self.include_directories, directory - 1).copied();
        }
        match self.comp_dir {
            Some(path) => Some(AttributeValue::String(path)),
            None => None,
        }
    }

    /// What the table of files holds of each; nothing up to version 4.
    pub fn file_name_entry_format(&self) -> &[FileEntryFormat]
        ensures { result.now ≡ self.now.meaning.file_formats }
    {
        &self.file_name_entry_format
    }

    /// Whether the files have a timestamp. If they don't, it isn't known of any file.
    pub fn file_has_timestamp(&self) -> bool
        ensures { result ≡ (nat_le self.now.meaning.parameters.encoding.version 4
            || has_content 0x0003 self.now.meaning.file_formats) }
    {
        self.version() <= 4 || self.file_has(constants::DW_LNCT_timestamp)
    }

    /// Whether the files have a size. If they don't, it isn't known of any file.
    pub fn file_has_size(&self) -> bool
        ensures { result ≡ (nat_le self.now.meaning.parameters.encoding.version 4
            || has_content 0x0004 self.now.meaning.file_formats) }
    {
        self.version() <= 4 || self.file_has(constants::DW_LNCT_size)
    }

    /// Whether the files have a digest.
    pub fn file_has_md5(&self) -> bool
        ensures { result ≡ has_content 0x0005 self.now.meaning.file_formats }
    {
        self.file_has(constants::DW_LNCT_MD5)
    }

    /// Whether the files have a source text.
    pub fn file_has_source(&self) -> bool
        ensures { result ≡ has_content 0x2001 self.now.meaning.file_formats }
    {
        self.file_has(constants::DW_LNCT_LLVM_source)
    }

    /// Whether the table of files holds such a value.
    fn file_has(&self, content_type: DwLnct) -> bool
        ensures { result ≡ has_content content_type.0 self.now.meaning.file_formats }
    {
        self.file_name_entry_format
            .iter()
            .any(|format| format.content_type == content_type)
    }

    /// The table of files, and after them those that the program has defined so far. Up to version
    /// 4 it begins with file 1.
    pub fn file_names(&self) -> &[FileEntry<R, Offset>]
        ensures files { map (file_seen R.seen Offset.number) result.now ≡ self.now.meaning.files }
        ensures own { result.now ≡ self.now.file_names.items }
    {
        &self.file_names
    }

    /// The file of an index. Up to version 4 index 0 is a file of the handed name.
    pub fn file(&self, file: u64) -> Option<&FileEntry<R, Offset>>
        ensures file { option_map (λ found. file_seen R.seen Offset.number found.now) result
            ≡ file_of self.now.meaning file }
        ensures own { option_map (λ found. found.now) result ≡ own_file_of self.now file }
    {
        if self.version() > 4 {
            return entry(&self.file_names, file);
        }
        if file > 0 {
            return entry(&self.file_names, file - 1);
        }
        self.comp_file.as_ref()
    }

    /// Adds a file after the others. Refused by `OutOfMemory` alone; nothing is changed then.
    pub(crate) fn add_file(&mut self, file: FileEntry<R, Offset>) -> Result<()>
        ensures ok { OnOk result (self.new.meaning
            ≡ with_file (file_seen R.seen Offset.number file) self.old.meaning) }
        ensures err { OnErr result (self.new.meaning ≡ self.old.meaning) }
        ensures memory { IsOkUnless result Error.OutOfMemory }
        ensures source { KeepsSource (λ order. FileHasOrder R.seen order file)
            (source_of R.seen Offset.number self.old)
            (source_of R.seen Offset.number self.new) }
    {
        push(&mut self.file_names, file)
    }

    /// The bytes of the program.
    pub fn raw_program_buf(&self) -> R
        ensures bytes { (R.seen result).bytes ≡ self.now.meaning.program }
        ensures order { (R.seen result).is_big ≡ self.now.layout.is_big }
        ensures own { result ≡ self.now.program_buf }
    {
        self.program_buf
    }
}

impl<R, Offset> FileEntry<R, Offset>
where
    R: Reader<Offset = Offset>,
    Offset: ReaderOffset,
{
    ghost use Rattle.gimli_line.specs.header.Header.{directory_of, own_directory_of};

    /// The file's directory; None where the header doesn't have it.
    pub fn directory(
        &self,
        header: &LineProgramHeader<R, Offset>,
    ) -> Option<AttributeValue<R, Offset>>
        ensures directory { option_map (value_seen R.seen Offset.number) result
            ≡ directory_of header.now.meaning self.now.directory_index }
        ensures own { result ≡ own_directory_of header.now self.now.directory_index }
    {
        header.directory(self.directory_index)
    }
}

/// The entry of an index, from 0 on. No index wraps.
fn entry<T>(entries: &[T], index: u64) -> Option<&T>
    ensures { option_map (λ entry. entry.now) result ≡ slice_get entries.now index }
{
    let index = usize::try_from(index).ok()?;
    entries.get(index)
}

/// Two lists of copies. Refused by `OutOfMemory` alone.
fn copied_both<A: Copy, B: Copy>(first: &Vec<A>, second: &Vec<B>) -> Result<(Vec<A>, Vec<B>)>
    ensures first { IfOk result (λ copies. copies.0.items ≡ first.now.items) }
    ensures second { IfOk result (λ copies. copies.1.items ≡ second.now.items) }
    ensures err { IsOkUnless result Error.OutOfMemory }
{
    Ok((copied(first)?, copied(second)?))
}

/// A list of copies. Refused by `OutOfMemory` alone.
fn copied<T: Copy>(items: &Vec<T>) -> Result<Vec<T>>
    ensures items { IfOk result (λ copy. copy.items ≡ items.now.items) }
    ensures err { IsOkUnless result Error.OutOfMemory }
{
    match Vec::from_slice(*items.allocator(), items) {
        Ok(copy) => Ok(copy),
        Err(_) => Err(Error::OutOfMemory),
    }
}
