//! The directories and files that are built: two tables of distinct keys (DWARF 5, 6.2.4, entries
//! 13 to 20).

ghost use Rattle.std.specs.Prelude.{◌≡◌, ℕ, ◌<◌, List, [], length, map, replicate, option_map};
ghost use Rattle.std.specs.Prelude.{IfOk, IsOkUnless, OnOk, OnErr, IfSome, Some, None, slice_get};
ghost use Rattle.std.specs.Prelude.{nat_lt};
ghost use Rattle.gimli_build.specs.FileNumber.{file_number, initial_file};

use crate::built::line_string::LineString;
use gimli_bytes::{Error, Result};
use indexmap::{IndexMap, IndexSet};
use std::alloc::{AllocError, Global};
use std::marker::Model;

/// The index of a directory in its line program, from 0 on.
#[derive(Clone, Copy, Debug, PartialEq, Eq, Hash)]
pub struct DirectoryId(usize);

impl Model for DirectoryId {
    ghost use Rattle.std.specs.Prelude.{ℕ};

    ghost Value = { ℕ };

    ghost view = { λ id. id.0 };

    ghost inverse = { λ n. record { 0 = n } };
}

impl DirectoryId {
    /// The id of the working directory.
    pub(crate) fn working() -> DirectoryId
        ensures { result ≡ 0 }
    {
        DirectoryId(0)
    }

    /// The index.
    pub(crate) fn index(self) -> usize
        ensures { result ≡ self }
    {
        self.0
    }
}

/// The index of a file in its line program, from 0 on.
#[derive(Clone, Copy, Debug, PartialEq, Eq, Hash)]
pub struct FileId(usize);

impl Model for FileId {
    ghost use Rattle.std.specs.Prelude.{ℕ, ◌<◌, ◌-◌, ◌^◌};

    ghost Value = { ℕ };

    ghost view = { λ id. id.0 };

    ghost invariant = { λ id. id.0 < 2 ^ 64 - 1 };

    ghost inverse = { λ n. record { 0 = n } };
}

impl FileId {
    /// The file that rows have until one is set; its number is 1. It is the first file up to
    /// version 4, and the second in version 5. A later version, which is never written, has the
    /// first.
    pub(crate) fn initial(version: u16) -> FileId
        ensures { result ≡ initial_file version }
    {
        FileId(if version == 5 { 1 } else { 0 })
    }

    /// The id of the source file, from version 5 on.
    pub(crate) fn source() -> FileId
        ensures { result ≡ 0 }
    {
        FileId(0)
    }

    /// The file's number in the rows of a program of this version: from 1 on up to version 4, and
    /// from 0 on in the later ones.
    pub fn raw(self, version: u16) -> u64
        ensures { result ≡ file_number version self }
    {
        if version <= 4 {
            self.0 as u64 + 1
        } else {
            self.0 as u64
        }
    }
}

/// What is known of a file besides its path and its directory.
#[derive(Debug, PartialEq, Eq, Drop)]
pub struct FileInfo {
    /// When the file was last changed, in units that the producer chooses; 0 where it isn't known.
    pub timestamp: u64,
    /// The number of bytes of the file; 0 where it isn't known.
    pub size: u64,
    /// The MD5 digest of the file; all zeros where it isn't known.
    pub md5: [u8; 16],
    /// The text of the file itself, if it is to be written.
    pub source: Option<LineString>,
}

impl Default for FileInfo {
    ghost is_default = { λ info.
        info ≡ record { timestamp = 0; size = 0; md5 = replicate 16 0; source = None } };

    fn default() -> FileInfo {
        FileInfo {
            timestamp: 0,
            size: 0,
            md5: [0; 16],
            source: None,
        }
    }
}

impl Clone for FileInfo {
    ghost use Rattle.gimli_build.specs.TableFields.{details};

    ghost is_clone = { λ info copy. details copy ≡ details info };

    fn clone(&self) -> std::result::Result<FileInfo, AllocError> {
        let source = match &self.source {
            Some(source) => Some(source.clone()?),
            None => None,
        };
        Ok(FileInfo {
            timestamp: self.timestamp,
            size: self.size,
            md5: self.md5,
            source,
        })
    }
}

/// The directories and the files of a line program.
#[derive(Debug, Drop)]
pub(crate) struct FileTable {
    directories: IndexSet<LineString>,
    files: IndexMap<(LineString, DirectoryId), FileInfo>,
}

impl Model for FileTable {
    ghost use Rattle.gimli_build.specs.Tables.{Tables, AreTables, keys_of};

    ghost Value = { Tables };

    ghost use Rattle.gimli_build.specs.inside.TableFields.{directories_of, files_of};

    ghost view = { λ t. record {
      directories = directories_of t.directories.keys;
      files = files_of t.files.entries;
    } };

    ghost invariant = { λ t.
        AreTables (directories_of t.directories.keys) (keys_of (files_of t.files.entries)) };
}

impl FileTable {
    ghost use Rattle.std.specs.Borrow.{sem};
    ghost use Rattle.gimli_build.specs.LineText.{line_text, HasNoZero};
    ghost use Rattle.gimli_build.specs.Tables.{AreTables, with_directory, index_of_directory};
    ghost use Rattle.gimli_build.specs.Tables.{with_file, index_of_file, with_indexes, keys_of};
    ghost use Rattle.gimli_build.specs.TableFields.{details};
    ghost use Rattle.gimli_build.specs.FirstTables.{first_tables};
    ghost use Rattle.gimli_build.specs.inside.LentDetails.{lends_details};

    /// No directory and no file.
    pub(crate) fn new(alloc: Global) -> FileTable
        ensures { result ≡ record { directories = []; files = [] } }
    {
        FileTable {
            directories: IndexSet::new(alloc),
            files: IndexMap::new(alloc),
        }
    }

    /// Adds what a new program is handed to empty tables. Fails only with `OutOfMemory`.
    pub(crate) fn add_first(
        &mut self,
        version: u16,
        working_dir: LineString,
        source_dir: Option<LineString>,
        source_file: LineString,
        source_file_info: Option<FileInfo>,
    ) -> Result<()>
        requires empty { self.old ≡ record { directories = []; files = [] } }
        requires working_dir_ends { HasNoZero (line_text working_dir) }
        requires source_dir_ends { IfSome source_dir (λ dir. HasNoZero (line_text dir)) }
        requires source_file_ends { HasNoZero (line_text source_file) }
        ensures ok { OnOk result (self.new
            ≡ first_tables version working_dir source_dir source_file source_file_info) }
        ensures memory { IsOkUnless result Error.OutOfMemory }
    {
        let working_dir = self.add_directory(working_dir)?;
        if version <= 4 {
            return Ok(());
        }
        let directory = match source_dir {
            Some(source_dir) => self.add_directory(source_dir)?,
            None => working_dir,
        };
        self.add_file(source_file, directory, source_file_info)?;
        Ok(())
    }

    /// Appends a directory, and returns its id; one that is already there keeps its id, and nothing
    /// changes. Fails only with `OutOfMemory`; then nothing changes either.
    pub(crate) fn add_directory(&mut self, directory: LineString) -> Result<DirectoryId>
        requires { HasNoZero (line_text directory) }
        ensures ok { OnOk result (self.new ≡ record self.old {
          directories = with_directory self.old.directories (line_text directory);
        }) }
        ensures id { IfOk result (λ id.
            id ≡ index_of_directory self.old.directories (line_text directory)) }
        ensures err { OnErr result (self.new ≡ self.old) }
        ensures memory { IsOkUnless result Error.OutOfMemory }
    {
        let (index, _) = self.directories.insert_full(directory)?;
        Ok(DirectoryId(index))
    }

    /// The directories in order.
    pub(crate) fn directories(&self) -> &[LineString]
        ensures { map line_text result.now ≡ self.now.directories }
    {
        self.directories.as_slice()
    }

    /// The directory of an id.
    pub(crate) fn get_directory(&self, id: DirectoryId) -> &LineString
        requires { id < length self.now.directories }
        ensures { slice_get self.now.directories id ≡ Some (line_text result.now) }
    {
        self.directories.get_index(id.0).unwrap()
    }

    /// Appends a file with what is known of it, and returns its id; one that is already there keeps
    /// its id, and what is known of it is replaced. Fails only with `OutOfMemory`; then nothing
    /// changes.
    fn set_file(
        &mut self,
        path: LineString,
        directory: DirectoryId,
        info: FileInfo,
    ) -> Result<FileId>
        requires text { HasNoZero (line_text path) }
        requires within { directory < length self.old.directories }
        ensures ok { OnOk result (self.new ≡ record self.old {
          files = with_file self.old.files (line_text path, directory) (Some (details info));
        }) }
        ensures id { IfOk result (λ id.
            id ≡ index_of_file self.old.files (line_text path, directory)) }
        ensures err { OnErr result (self.new ≡ self.old) }
        ensures memory { IsOkUnless result Error.OutOfMemory }
    {
        // For the prover alone: the keys are distinct.
        let _count = self.files.len();
        let (index, _) = self.files.insert_full((path, directory), info)?;
        Ok(FileId(index))
    }

    /// Appends a file, and returns its id; one that is already there keeps its id, and nothing
    /// changes. Fails only with `OutOfMemory`; then nothing changes either.
    fn keep_file(&mut self, path: LineString, directory: DirectoryId) -> Result<FileId>
        requires text { HasNoZero (line_text path) }
        requires within { directory < length self.old.directories }
        ensures ok { OnOk result (self.new ≡ record self.old {
          files = with_file self.old.files (line_text path, directory) None;
        }) }
        ensures id { IfOk result (λ id.
            id ≡ index_of_file self.old.files (line_text path, directory)) }
        ensures err { OnErr result (self.new ≡ self.old) }
        ensures memory { IsOkUnless result Error.OutOfMemory }
    {
        // For the prover alone: the keys are distinct.
        let _count = self.files.len();
        let key = (path, directory);
        if let Some(index) = self.files.get_index_of(&key) {
            return Ok(FileId(index));
        }
        let (index, _) = self.files.insert_full(key, FileInfo::default())?;
        Ok(FileId(index))
    }

    /// Appends a file, and returns its id; one that is already there keeps its id, and takes what
    /// is handed of it. Fails only with `OutOfMemory`; then nothing changes.
    pub(crate) fn add_file(
        &mut self,
        path: LineString,
        directory: DirectoryId,
        info: Option<FileInfo>,
    ) -> Result<FileId>
        requires text { HasNoZero (line_text path) }
        requires within { directory < length self.old.directories }
        ensures ok { OnOk result (self.new ≡ record self.old {
          files = with_file self.old.files (line_text path, directory) (option_map details info);
        }) }
        ensures id { IfOk result (λ id.
            id ≡ index_of_file self.old.files (line_text path, directory)) }
        ensures err { OnErr result (self.new ≡ self.old) }
        ensures memory { IsOkUnless result Error.OutOfMemory }
    {
        match info {
            Some(info) => self.set_file(path, directory, info),
            None => self.keep_file(path, directory),
        }
    }

    /// The files in order.
    pub(crate) fn files(&self) -> Files<'_>
        ensures files { result ≡ with_indexes 0 self.now.files }
        ensures tables { AreTables self.now.directories (keys_of self.now.files) }
    {
        // For the prover alone: what is true of the tables is known once a field is read
        // (`tables`).
        let _files = &self.files;
        Files {
            table: self,
            next: 0,
        }
    }

    /// The number of files.
    pub(crate) fn file_count(&self) -> usize
        ensures count { result ≡ length self.now.files }
        ensures tables { AreTables self.now.directories (keys_of self.now.files) }
    {
        self.files.len()
    }

    /// Whether there is a file of an id.
    pub(crate) fn contains(&self, id: FileId) -> bool
        ensures { result ≡ nat_lt id (length self.now.files) }
    {
        id.0 < self.files.len()
    }

    /// The path and the directory of the file of an index, and what else is known of it.
    pub(crate) fn file(&self, index: usize) -> (&LineString, DirectoryId, &FileInfo)
        requires { index < length self.now.files }
        ensures { slice_get self.now.files index
            ≡ Some ((line_text result.0.now, result.1), details result.2.now) }
    {
        let (key, info) = self.files.get_index(index).unwrap();
        (&key.0, key.1, info)
    }

    /// The path and the directory of a file.
    pub(crate) fn get_file(&self, id: FileId) -> (&LineString, DirectoryId)
        requires { id < length self.now.files }
        ensures { option_map (λ f. f.0) (slice_get self.now.files id)
            ≡ Some (line_text result.0.now, result.1) }
    {
        let (key, _) = self.files.get_index(id.0).unwrap();
        (&key.0, key.1)
    }

    /// What else is known of a file.
    pub(crate) fn get_file_info(&self, id: FileId) -> &FileInfo
        requires { id < length self.now.files }
        ensures { option_map (λ f. f.1) (slice_get self.now.files id) ≡ Some (details result.now) }
    {
        self.files.get_index(id.0).unwrap().1
    }

    /// The same, for the caller to change.
    pub(crate) fn get_file_info_mut(&mut self, id: FileId) -> &mut FileInfo
        requires { id < length self.old.files }
        ensures* lends { sem 𝓛 (lends_details self.entry id result) }
        ensures value { option_map (λ f. f.1) (slice_get self.old.files id)
            ≡ Some (details result.now) }
    {
        self.files.get_index_mut(id.0).unwrap()
    }
}

impl Clone for FileTable {
    ghost use Rattle.std.specs.Prelude.{◌≡◌};

    ghost is_clone = { λ table copy. copy ≡ table };

    fn clone(&self) -> std::result::Result<FileTable, AllocError> {
        Ok(FileTable {
            directories: self.directories.clone()?,
            files: self.files.clone()?,
        })
    }
}

/// The files of a line program in order, each with its id, its path and its directory.
#[derive(Debug, Drop)]
pub struct Files<'a> {
    table: &'a FileTable,
    next: usize,
}

impl<'a> Model for Files<'a> {
    ghost use Rattle.std.specs.Prelude.{ℕ, List, drop};
    ghost use Rattle.gimli_build.specs.LineText.{LineText};
    ghost use Rattle.gimli_build.specs.Tables.{with_indexes};

    ghost Value = { List (ℕ × LineText × ℕ) };

    ghost view = { λ files. with_indexes files.next (drop files.next files.table.now.files) };
}

impl<'a> Iterator for Files<'a> {
    ghost use Rattle.std.specs.Iterator.{YieldsFirstBy, item_count};
    ghost use Rattle.gimli_build.specs.TableFields.{file_seen};

    type Item = (FileId, &'a LineString, DirectoryId);

    ghost next_gives = { YieldsFirstBy file_seen (λ files. files) };

    ghost remaining = { item_count (λ files. files) };

    fn next(&mut self) -> Option<(FileId, &'a LineString, DirectoryId)> {
        let table = self.table;
        if self.next >= table.files.len() {
            return None;
        }
        let (key, _) = table.files.get_index(self.next)?;
        let id = FileId(self.next);
        self.next += 1;
        Some((id, &key.0, key.1))
    }
}
