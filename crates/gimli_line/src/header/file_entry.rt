//! Source files, and what a table of version 5 holds of each.

ghost use Rattle.std.specs.Prelude.{◌≡◌};
ghost use Rattle.gimli_core.specs.Reading.{result_map};
ghost use Rattle.gimli_core.specs.Seen.{taken};
ghost use Rattle.gimli_core.specs.Values.{value_seen};
ghost use Rattle.gimli_core.specs.declared.attribute_value.AttributeValue.TheVariants.{String};
ghost use Rattle.gimli_line.specs.header.HeaderGrammar.{digest};

use crate::run::leb128::read_uleb128;
use gimli_core::{AttributeValue, DwForm, DwLnct, Reader, ReaderOffset, Result, constants};
use std::alloc::AllocError;

/// What a table of version 5 holds of each entry: a kind of value, and the form that it has.
#[derive(Clone, Copy, Debug, PartialEq, Eq)]
pub struct FileEntryFormat {
    /// The kind of value.
    pub content_type: DwLnct,
    /// The form that the value has.
    pub form: DwForm,
}

/// A source file.
#[derive(Copy, Debug, PartialEq, Eq)]
pub struct FileEntry<R, Offset = <R as Reader>::Offset>
where
    R: Reader<Offset = Offset>,
    Offset: ReaderOffset,
{
    pub(crate) path_name: AttributeValue<R, Offset>,
    pub(crate) directory_index: u64,
    pub(crate) timestamp: u64,
    pub(crate) size: u64,
    pub(crate) md5: [u8; 16],
    pub(crate) source: Option<AttributeValue<R, Offset>>,
}

impl<R, Offset> Clone for FileEntry<R, Offset>
where
    R: Reader<Offset = Offset>,
    Offset: ReaderOffset,
{
    ghost use Rattle.std.specs.Prelude.{⊤};

    ghost is_clone = { λ file copy. copy ≡ file };

    ghost is_infallible = { λ _. ⊤ };

    fn clone(&self) -> std::result::Result<Self, AllocError> {
        Ok(*self)
    }
}

impl<R, Offset> FileEntry<R, Offset>
where
    R: Reader<Offset = Offset>,
    Offset: ReaderOffset,
{
    ghost use Rattle.std.specs.Prelude.{Bool, IfOk};
    ghost use Rattle.gimli_core.specs.Values.{ValueHasOrder};
    ghost use Rattle.gimli_line.specs.header.File.{file_seen, FileHasOrder};
    ghost use Rattle.gimli_line.specs.header.Header.{plain_file};
    ghost use Rattle.gimli_line.specs.header.HeaderGrammar.{file_production};
    ghost use Rattle.gimli_line.specs.inside.header.EntryReading.{file_with};

    /// A file of which the path alone is known.
    pub(crate) fn of_path(path_name: R) -> Self
        ensures file { file_seen R.seen Offset.number result
            ≡ plain_file (R.seen path_name).bytes 0 0 0 }
        ensures path { result.path_name ≡ String path_name }
        ensures order { FileHasOrder R.seen (R.seen path_name).is_big result }
    {
        FileEntry {
            path_name: AttributeValue::String(path_name),
            directory_index: 0,
            timestamp: 0,
            size: 0,
            md5: [0; 16],
            source: None,
        }
    }

    /// Takes what stands after the path of a file up to version 4.
    #[inline(always)]
    #[tactic(auto, unfolding(crate::specs::header::HeaderGrammar::file_production))]
    pub(crate) fn parse(input: &mut R, path_name: R) -> Result<Self>
        ensures read { (result_map (file_seen R.seen Offset.number) result, R.seen input.new)
            ≡ taken (file_production (R.seen path_name).bytes) (R.seen input.old) }
        ensures file { IfOk result (FileHasOrder R.seen (R.seen path_name).is_big) }
    {
        let directory_index = read_uleb128(input)?;
        let timestamp = read_uleb128(input)?;
        let size = read_uleb128(input)?;
        Ok(FileEntry {
            path_name: AttributeValue::String(path_name),
            directory_index,
            timestamp,
            size,
            md5: [0; 16],
            source: None,
        })
    }

    /// Takes in a value of an entry of version 5. A value that isn't of use for its content type
    /// changes nothing, and neither does an unknown content type.
    pub(crate) fn update(&mut self, content_type: DwLnct, value: AttributeValue<R, Offset>)
        ensures file { file_seen R.seen Offset.number self.new
            ≡ file_with (file_seen R.seen Offset.number self.old) content_type.0
            (value_seen R.seen Offset.number value) }
        ensures order { (order : Bool) → FileHasOrder R.seen order self.old
            → ValueHasOrder R.seen order value
            → FileHasOrder R.seen order self.new }
    {
        match content_type {
            constants::DW_LNCT_path => self.path_name = value,
            constants::DW_LNCT_directory_index => {
                if let Some(index) = value.udata_value() {
                    self.directory_index = index;
                }
            }
            constants::DW_LNCT_timestamp => {
                if let Some(timestamp) = value.udata_value() {
                    self.timestamp = timestamp;
                }
            }
            constants::DW_LNCT_size => {
                if let Some(size) = value.udata_value() {
                    self.size = size;
                }
            }
            constants::DW_LNCT_MD5 => {
                if let Some(md5) = digest_of(value) {
                    self.md5 = md5;
                }
            }
            constants::DW_LNCT_LLVM_source => self.source = Some(value),
            _ => {}
        }
    }

    /// The path, which is full or starts at the file's directory.
    pub fn path_name(&self) -> AttributeValue<R, Offset>
        ensures { result ≡ self.now.path_name }
    {
        self.path_name
    }

    /// The index of the file's directory in the header.
    pub fn directory_index(&self) -> u64
        ensures { result ≡ self.now.directory_index }
    {
        self.directory_index
    }

    /// When the file was last changed, in a measure of the producer's own; 0 where it isn't known.
    pub fn timestamp(&self) -> u64
        ensures { result ≡ self.now.timestamp }
    {
        self.timestamp
    }

    /// The same as `timestamp`, by the name of versions 2 to 4.
    pub fn last_modification(&self) -> u64
        ensures { result ≡ self.now.timestamp }
    {
        self.timestamp
    }

    /// The size in bytes; 0 where it isn't known.
    pub fn size(&self) -> u64
        ensures { result ≡ self.now.size }
    {
        self.size
    }

    /// The same as `size`, by the name of versions 2 to 4.
    pub fn length(&self) -> u64
        ensures { result ≡ self.now.size }
    {
        self.size
    }

    /// The MD5 digest of the file's bytes; zeros where the header's `file_has_md5` is false.
    pub fn md5(&self) -> &[u8; 16]
        ensures { result.now ≡ self.now.md5 }
    {
        &self.md5
    }

    /// The text of the file, where the header's `file_has_source` is true. An empty one may mean
    /// that there is none.
    pub fn source(&self) -> Option<AttributeValue<R, Offset>>
        ensures { result ≡ self.now.source }
    {
        self.source
    }
}

/// The digest of a block of exactly sixteen bytes.
fn digest_of<R, Offset>(value: AttributeValue<R, Offset>) -> Option<[u8; 16]>
where
    R: Reader<Offset = Offset>,
    Offset: ReaderOffset,
    ensures { result ≡ digest (value_seen R.seen Offset.number value) }
{
    match value {
        AttributeValue::Block(mut block) => {
            if block.len().into_u64() != 16 {
                return None;
            }
            match block.read_u8_array_16() {
                Ok(md5) => Some(md5),
                Err(_) => None,
            }
        }
        _ => None,
    }
}
