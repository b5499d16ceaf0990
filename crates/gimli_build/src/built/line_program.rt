//! A line program that is built: gimli's `LineProgram`, its tables, its rows and its flags.

ghost use Rattle.std.specs.Prelude.{◌≡◌, ◌≢◌, ℕ, ◌+◌, ◌/◌, ◌%◌, ◌<◌, ◌≤◌, true, false, nat_eq, []};
ghost use Rattle.std.specs.Prelude.{length, option_map, slice_get, IfOk, IsOkUnless, OnOk};
ghost use Rattle.std.specs.Prelude.{IfSome, Some, None, IsTrue, ◌↔◌};
ghost use Rattle.gimli_core.specs.Numbers.{is_address_size};
ghost use Rattle.gimli_build.specs.Advance.{CanEncode, IsPosition, CanFollow};

use crate::built::files::{DirectoryId, FileId, FileInfo, FileTable, Files};
use crate::built::items::{BuiltItem, BuiltItems, ItemList};
use crate::built::line_string::LineString;
use crate::built::row::LineRow;
use gimli_bytes::{Address, Error, Result};
use gimli_core::{Encoding, Format, LineEncoding};
use std::alloc::{AllocError, Global};
use std::marker::Model;

/// A line program that is built.
///
/// It keeps what was built as it was given: directories and files, set addresses, rows and ends.
/// Nothing of it is encoded before it is written.
///
/// <!-- part of crates/uses/src/make_unit.rt -->
/// ```rust
/// let directory = LineString::new(b"/w", encoding, line_strings)?;
/// let path = LineString::new(b"a.c", encoding, line_strings)?;
/// let lines = LineEncoding::default();
/// let program = LineProgram::new(alloc, encoding, lines, directory, None, path, None)?;
/// Ok(program)
/// ```
#[derive(Debug, Drop)]
pub struct LineProgram {
    none: bool,
    encoding: Encoding,
    line_encoding: LineEncoding,
    tables: FileTable,
    /// Whether the times of files are written, from version 5 on.
    pub file_has_timestamp: bool,
    /// Whether the sizes of files are written, from version 5 on.
    pub file_has_size: bool,
    /// Whether the digests of files are written, from version 5 on.
    pub file_has_md5: bool,
    /// Whether the sources of files are written, from version 5 on.
    pub file_has_source: bool,
    items: ItemList,
    row: LineRow,
    in_sequence: bool,
}

impl Model for LineProgram {
    ghost use Rattle.gimli_build.specs.Built.{Built};

    ghost Value = { Built };

    ghost use Rattle.gimli_build.specs.BuiltFields.{built_of, IsKept};

    ghost view = { built_of };

    ghost invariant = { IsKept };
}

impl LineProgram {
    ghost use Rattle.gimli_build.specs.LineText.{line_text, HasNoZero};
    ghost use Rattle.gimli_build.specs.Built.{no_program};
    ghost use Rattle.gimli_build.specs.Calls.{new_program};
    ghost use Rattle.gimli_build.specs.FirstTables.{first_tables};
    ghost use Rattle.gimli_build.specs.Conditions.{Accepts};

    /// Whether a program may have these encodings: addresses of 1, 2, 4 or 8 bytes, and numbers by
    /// which rows can be encoded.
    pub fn accepts(encoding: Encoding, line_encoding: LineEncoding) -> bool
        ensures { IsTrue result ↔ Accepts encoding line_encoding }
    {
        is_address_size(encoding.address_size) && can_encode(line_encoding)
    }

    /// A program without a row. The working directory is directory 0. From version 5 on the source
    /// file is file 0, in the directory that is handed for it, else in the working directory; up to
    /// version 4 it is not used. Requires encodings that `accepts` returns true for, and texts
    /// without a zero byte. Fails only with `OutOfMemory`.
    pub fn new(
        alloc: Global,
        encoding: Encoding,
        line_encoding: LineEncoding,
        working_dir: LineString,
        source_dir: Option<LineString>,
        source_file: LineString,
        source_file_info: Option<FileInfo>,
    ) -> Result<LineProgram>
        requires accepts { Accepts encoding line_encoding }
        requires working_dir_ends { HasNoZero (line_text working_dir) }
        requires source_dir_ends { IfSome source_dir (λ dir. HasNoZero (line_text dir)) }
        requires source_file_ends { HasNoZero (line_text source_file) }
        ensures ok { IfOk result (λ program. program ≡ new_program encoding line_encoding
            (first_tables encoding.version working_dir source_dir source_file source_file_info)) }
        ensures memory { IsOkUnless result Error.OutOfMemory }
    {
        let mut tables = FileTable::new(alloc);
        tables.add_first(
            encoding.version,
            working_dir,
            source_dir,
            source_file,
            source_file_info,
        )?;
        Ok(LineProgram {
            none: false,
            encoding,
            line_encoding,
            tables,
            file_has_timestamp: false,
            file_has_size: false,
            file_has_md5: false,
            file_has_source: false,
            items: ItemList::new(alloc),
            row: LineRow::initial(encoding, line_encoding),
            in_sequence: false,
        })
    }

    /// A placeholder where no program is wanted: no call may build on it, and it can't be written.
    pub fn none(alloc: Global) -> LineProgram
        ensures { result ≡ no_program }
    {
        let encoding = Encoding {
            address_size: 0,
            format: Format::Dwarf32,
            version: 2,
        };
        LineProgram {
            none: true,
            encoding,
            line_encoding: LineEncoding::default(),
            tables: FileTable::new(alloc),
            file_has_timestamp: false,
            file_has_size: false,
            file_has_md5: false,
            file_has_source: false,
            items: ItemList::new(alloc),
            row: LineRow::initial(encoding, LineEncoding::default()),
            in_sequence: false,
        }
    }

    /// Whether this was made by `none`.
    pub fn is_none(&self) -> bool
        ensures { result ≡ self.now.is_none }
    {
        self.none
    }

    /// What the numbers of the program are encoded by.
    pub fn encoding(&self) -> Encoding
        ensures encoding { result ≡ self.now.encoding }
        ensures accepted { self.now.is_none ≡ false →
            Accepts self.now.encoding self.now.line_encoding }
    {
        self.encoding
    }

    /// How lines and operations are encoded.
    pub(crate) fn line_encoding(&self) -> LineEncoding
        ensures { result ≡ self.now.line_encoding }
    {
        self.line_encoding
    }

    /// The version of DWARF.
    pub fn version(&self) -> u16
        ensures { result ≡ self.now.encoding.version }
    {
        self.encoding.version
    }

    /// The number of bytes of an address.
    pub fn address_size(&self) -> u8
        ensures { result ≡ self.now.encoding.address_size }
    {
        self.encoding.address_size
    }

    /// The format of words.
    pub fn format(&self) -> Format
        ensures { result ≡ self.now.encoding.format }
    {
        self.encoding.format
    }
}

impl LineProgram {
    ghost use Rattle.std.specs.Borrow.{sem};
    ghost use Rattle.gimli_build.specs.LineText.{line_text, HasNoZero, IsNotEmpty};
    ghost use Rattle.gimli_build.specs.Tables.{index_of_directory, index_of_file, with_indexes};
    ghost use Rattle.gimli_build.specs.Tables.{keys_of, Keeps, AreTables};
    ghost use Rattle.gimli_build.specs.TableFields.{details};
    ghost use Rattle.gimli_build.specs.Calls.{Builds, after_directory, after_file};
    ghost use Rattle.gimli_build.specs.LentRow.{lends_info};

    /// The id of the working directory, 0.
    pub fn default_directory(&self) -> DirectoryId
        ensures id { result ≡ 0 }
        ensures there { self.now.is_none ≡ false → 0 < length self.now.directories }
    {
        // For the prover alone: what is true of every program is known once a field is read
        // (`there`).
        let _items = &self.items;
        DirectoryId::working()
    }

    /// The id of the source file, 0, from version 5 on; up to version 4 that of the first file that
    /// is added.
    pub fn default_file(&self) -> FileId
        ensures id { result ≡ 0 }
        ensures there { self.now.is_none ≡ false → 5 ≤ self.now.encoding.version →
            0 < length self.now.files }
    {
        // For the prover alone: what is true of every program is known once a field is read
        // (`there`).
        let _items = &self.items;
        FileId::source()
    }

    /// Appends a directory, and returns its id; one that is already there keeps its id, and nothing
    /// changes. Requires a program that isn't a placeholder, a text without a zero byte, and up to
    /// version 4 one that isn't empty. Fails only with `OutOfMemory`; then nothing changes either.
    pub fn add_directory(&mut self, directory: LineString) -> Result<DirectoryId>
        requires program { self.old.is_none ≡ false }
        requires text { HasNoZero (line_text directory) }
        requires not_empty { self.old.encoding.version ≤ 4 → IsNotEmpty (line_text directory) }
        ensures builds { Builds (after_directory (line_text directory) self.old)
            self.old result self.new }
        ensures id { IfOk result (λ id.
            id ≡ index_of_directory self.old.directories (line_text directory)) }
        ensures within { IfOk result (λ id. id < length self.new.directories) }
        ensures found { IfOk result (λ id.
            slice_get self.new.directories id ≡ Some (line_text directory)) }
        ensures keeps { OnOk result (Keeps self.old.directories self.new.directories) }
    {
        let id = self.tables.add_directory(directory)?;
        Ok(id)
    }

    /// The directories and the files.
    pub(crate) fn tables(&self) -> &FileTable
        ensures directories { result.now.directories ≡ self.now.directories }
        ensures files { result.now.files ≡ self.now.files }
    {
        &self.tables
    }

    /// The directory of an id. Requires an id below the number of directories.
    pub fn get_directory(&self, id: DirectoryId) -> &LineString
        requires { id < length self.now.directories }
        ensures { slice_get self.now.directories id ≡ Some (line_text result.now) }
    {
        self.tables.get_directory(id)
    }

    /// Appends a file, and returns its id; one that is already there keeps its id, and takes what
    /// is handed of it, if anything is. No other file changes. Requires a program that isn't a
    /// placeholder, a text without a zero byte, up to version 4 one that isn't empty, and the id of
    /// a directory that is there. Fails only with `OutOfMemory`; then nothing changes.
    pub fn add_file(
        &mut self,
        file: LineString,
        directory: DirectoryId,
        info: Option<FileInfo>,
    ) -> Result<FileId>
        requires program { self.old.is_none ≡ false }
        requires text { HasNoZero (line_text file) }
        requires not_empty { self.old.encoding.version ≤ 4 → IsNotEmpty (line_text file) }
        requires within { directory < length self.old.directories }
        ensures builds { Builds (after_file (line_text file, directory) (option_map details info)
            self.old) self.old result self.new }
        ensures id { IfOk result (λ id.
            id ≡ index_of_file self.old.files (line_text file, directory)) }
        ensures within { IfOk result (λ id. id < length self.new.files) }
        ensures found { IfOk result (λ id.
            slice_get (keys_of self.new.files) id ≡ Some (line_text file, directory)) }
        ensures keeps { OnOk result (Keeps (keys_of self.old.files) (keys_of self.new.files)) }
        ensures others { IfOk result (λ id. (i : ℕ) → i < length self.old.files → i ≢ id →
            slice_get self.new.files i ≡ slice_get self.old.files i) }
    {
        let id = self.tables.add_file(file, directory, info)?;
        Ok(id)
    }

    /// The files in order, each with its id, its path and its directory.
    pub fn files(&self) -> Files<'_>
        ensures files { result ≡ with_indexes 0 self.now.files }
        ensures tables { AreTables self.now.directories (keys_of self.now.files) }
    {
        self.tables.files()
    }

    /// The path and the directory of a file. Requires an id below the number of files.
    pub fn get_file(&self, id: FileId) -> (&LineString, DirectoryId)
        requires { id < length self.now.files }
        ensures { option_map (λ f. f.0) (slice_get self.now.files id)
            ≡ Some (line_text result.0.now, result.1) }
    {
        self.tables.get_file(id)
    }

    /// What else is known of a file. Requires an id below the number of files.
    pub fn get_file_info(&self, id: FileId) -> &FileInfo
        requires { id < length self.now.files }
        ensures { option_map (λ f. f.1) (slice_get self.now.files id) ≡ Some (details result.now) }
    {
        self.tables.get_file_info(id)
    }

    /// The same, for the caller to change. Requires an id below the number of files.
    pub fn get_file_info_mut(&mut self, id: FileId) -> &mut FileInfo
        requires { id < length self.old.files }
        ensures* lends { sem 𝓛 (lends_info self.entry id result) }
        ensures value { option_map (λ f. f.1) (slice_get self.old.files id)
            ≡ Some (details result.now) }
    {
        self.tables.get_file_info_mut(id)
    }
}

impl LineProgram {
    ghost use Rattle.std.specs.Borrow.{sem};
    ghost use Rattle.gimli_build.specs.Calls.{after_begin, after_address, after_row, after_end};
    ghost use Rattle.gimli_build.specs.Calls.{Builds};
    ghost use Rattle.gimli_build.specs.Conditions.{CanGenerateRow, CanEndSequence, AreBuilt};
    ghost use Rattle.gimli_build.specs.Conditions.{IsProgram};
    ghost use Rattle.gimli_build.specs.Tables.{keys_of, AreTables};
    ghost use Rattle.gimli_build.specs.LentRow.{lends_row};

    /// Begins a sequence, and sets its address, if one is given. The current row stays. Requires a
    /// program that isn't a placeholder, and that no sequence has begun. Fails only with
    /// `OutOfMemory`; then nothing changes.
    pub fn begin_sequence(&mut self, address: Option<Address>) -> Result<()>
        requires program { self.old.is_none ≡ false }
        requires outside { self.old.in_sequence ≡ false }
        ensures { Builds (after_begin address self.old) self.old result self.new }
    {
        match address {
            Some(address) => self.set_address(address),
            None => {
                self.in_sequence = true;
                Ok(())
            }
        }
    }

    /// Sets the address that offsets count from. In a sequence the offset and op_index of the
    /// current row become 0, and so do those that the next row is compared with; otherwise a
    /// sequence begins, and the current row stays. Requires a program that isn't a placeholder.
    /// Fails only with `OutOfMemory`; then nothing changes.
    pub fn set_address(&mut self, address: Address) -> Result<()>
        requires { self.old.is_none ≡ false }
        ensures { Builds (after_address address self.old) self.old result self.new }
    {
        self.items.push(BuiltItem::SetAddress(address))?;
        self.row = self.row.row_after_address(self.in_sequence);
        self.in_sequence = true;
        Ok(())
    }

    /// The row that is generated next, for the caller to change.
    pub fn row(&mut self) -> &mut LineRow
        ensures* lends { sem 𝓛 (lends_row self.entry result) }
        ensures value { result.now ≡ self.old.row }
    {
        &mut self.row
    }

    /// Whether the current row can be generated: its offset is a whole number of shortest
    /// instructions and its op_index one of their operations, it isn't before the previous row, the
    /// operations between them fit 64 bits, and its line fits 63.
    pub fn can_generate_row(&self) -> bool
        ensures { IsTrue result ↔ CanGenerateRow self.now }
    {
        let (offset, op_index) = self.items.position();
        let row = self.row;
        can_follow(
            self.line_encoding,
            offset,
            op_index,
            row.address_offset,
            row.op_index,
        ) && row.line <= i64::MAX as u64
    }

    /// Builds the current row, and begins a sequence if none has begun. Then its discriminator,
    /// `basic_block`, `prologue_end` and `epilogue_begin` are cleared. Requires a program that
    /// isn't a placeholder, and that `can_generate_row` returns true. Fails only with
    /// `OutOfMemory`; then nothing changes.
    pub fn generate_row(&mut self) -> Result<()>
        requires program { self.old.is_none ≡ false }
        requires can { CanGenerateRow self.old }
        ensures { Builds (after_row self.old.row self.old) self.old result self.new }
    {
        self.items.push(BuiltItem::Row(self.row))?;
        self.row.clear();
        self.in_sequence = true;
        Ok(())
    }

    /// Whether a sequence can end at this offset, in bytes, and the current op_index: under the
    /// conditions of `can_generate_row`, except the one on the line.
    pub fn can_end_sequence(&self, address_offset: u64) -> bool
        ensures { IsTrue result ↔ CanEndSequence self.now address_offset }
    {
        let (offset, op_index) = self.items.position();
        can_follow(
            self.line_encoding,
            offset,
            op_index,
            address_offset,
            self.row.op_index,
        )
    }

    /// Ends a sequence at this offset, in bytes, and the current op_index; the current row becomes
    /// the initial one. Requires a program that isn't a placeholder, and that `can_end_sequence`
    /// returns true. Fails only with `OutOfMemory`; then nothing changes.
    pub fn end_sequence(&mut self, address_offset: u64) -> Result<()>
        requires program { self.old.is_none ≡ false }
        requires can { CanEndSequence self.old address_offset }
        ensures { Builds (after_end address_offset self.old) self.old result self.new }
    {
        let op_index = self.row.op_index;
        self.items.push(BuiltItem::End {
            address_offset,
            op_index,
        })?;
        self.row = LineRow::initial(self.encoding, self.line_encoding);
        self.in_sequence = false;
        Ok(())
    }

    /// Whether a sequence has begun.
    pub fn in_sequence(&self) -> bool
        ensures { result ≡ self.now.in_sequence }
    {
        self.in_sequence
    }

    /// Whether no address was set, no row generated and no sequence ended so far.
    pub fn is_empty(&self) -> bool
        ensures { IsTrue result ↔ (self.now.items ≡ []) }
    {
        self.items.is_empty()
    }

    /// What was built, in order, and what is true of every program.
    pub(crate) fn built_items(&self) -> &[BuiltItem]
        ensures items { result.now ≡ self.now.items }
        ensures program { IsProgram self.now.is_none self.now.encoding self.now.line_encoding
            self.now.directories (keys_of self.now.files) self.now.items }
        ensures tables { AreTables self.now.directories (keys_of self.now.files) }
    {
        // For the prover alone: what is true of the tables is known once they are read (`tables`).
        let _count = self.tables.file_count();
        self.items.as_slice()
    }

    /// What was built, in order.
    pub fn items(&self) -> BuiltItems<'_>
        ensures items { result ≡ self.now.items }
        ensures built { AreBuilt self.now.line_encoding (0, 0) self.now.items }
    {
        BuiltItems::new(self.items.as_slice())
    }
}

impl Clone for LineProgram {
    ghost use Rattle.std.specs.Prelude.{◌≡◌};

    ghost is_clone = { λ program copy. copy ≡ program };

    fn clone(&self) -> std::result::Result<LineProgram, AllocError> {
        Ok(LineProgram {
            none: self.none,
            encoding: self.encoding,
            line_encoding: self.line_encoding,
            tables: self.tables.clone()?,
            file_has_timestamp: self.file_has_timestamp,
            file_has_size: self.file_has_size,
            file_has_md5: self.file_has_md5,
            file_has_source: self.file_has_source,
            items: self.items.clone()?,
            row: self.row,
            in_sequence: self.in_sequence,
        })
    }
}

fn is_address_size(size: u8) -> bool
    ensures { result ≡ is_address_size size }
{
    size == 1 || size == 2 || size == 4 || size == 8
}

/// Whether rows can be encoded by these numbers.
fn can_encode(line_encoding: LineEncoding) -> bool
    ensures { IsTrue result ↔ CanEncode line_encoding }
{
    if line_encoding.line_base > 0 || line_encoding.line_range > 127 {
        return false;
    }
    if i16::from(line_encoding.line_base) + i16::from(line_encoding.line_range) <= 0 {
        return false;
    }
    line_encoding.minimum_instruction_length >= 1
        && line_encoding.maximum_operations_per_instruction >= 1
}

/// Whether a row or an end at an offset and operation can follow a row at another position.
fn can_follow(
    line_encoding: LineEncoding,
    previous_offset: u64,
    previous_op_index: u64,
    offset: u64,
    op_index: u64,
) -> bool
    requires can { CanEncode line_encoding }
    requires stands { IsPosition line_encoding previous_offset previous_op_index }
    ensures { IsTrue result
        ↔ CanFollow line_encoding previous_offset previous_op_index offset op_index }
{
    if is_plain_at(line_encoding, op_index) {
        return previous_offset <= offset;
    }
    let operations = u64::from(line_encoding.maximum_operations_per_instruction);
    if !is_whole(line_encoding, offset) || op_index >= operations || offset < previous_offset {
        return false;
    }
    if offset == previous_offset && op_index < previous_op_index {
        return false;
    }
    operations == 1
        || instruction_count(line_encoding, offset - previous_offset)
            <= (u64::MAX - op_index) / operations
}

/// Whether each byte can begin an instruction, each instruction is one operation, and this is it.
/// One branch tests all three.
fn is_plain_at(line_encoding: LineEncoding, op_index: u64) -> bool
    requires { CanEncode line_encoding }
    ensures { IsTrue result ↔ (line_encoding.minimum_instruction_length ≡ 1)
        × (line_encoding.maximum_operations_per_instruction ≡ 1) × (op_index ≡ 0) }
{
    let length = u64::from(line_encoding.minimum_instruction_length);
    let operations = u64::from(line_encoding.maximum_operations_per_instruction);
    (length + operations - 2).max(op_index) == 0
}

/// Whether each byte can begin an instruction, and each instruction is one operation.
pub(crate) fn is_plain(line_encoding: LineEncoding) -> bool
    ensures { IsTrue result ↔ (line_encoding.minimum_instruction_length ≡ 1)
        × (line_encoding.maximum_operations_per_instruction ≡ 1) }
{
    line_encoding.minimum_instruction_length == 1
        && line_encoding.maximum_operations_per_instruction == 1
}

/// Whether an offset is a whole number of shortest instructions.
fn is_whole(line_encoding: LineEncoding, offset: u64) -> bool
    requires { CanEncode line_encoding }
    ensures { result ≡ nat_eq (offset % line_encoding.minimum_instruction_length) 0 }
{
    let length = line_encoding.minimum_instruction_length;
    length == 1 || offset.is_multiple_of(u64::from(length))
}

/// How many shortest instructions this many bytes are. If each of them is one byte, nothing is
/// divided.
pub(crate) fn instruction_count(line_encoding: LineEncoding, bytes: u64) -> u64
    requires { CanEncode line_encoding }
    ensures { result ≡ bytes / line_encoding.minimum_instruction_length }
{
    let length = line_encoding.minimum_instruction_length;
    if length == 1 {
        return bytes;
    }
    bytes / u64::from(length)
}
