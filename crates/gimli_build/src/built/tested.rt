//! Calls that build as those of the same name without `try_` do, but require nothing: each tests
//! what that call requires, and returns an error if it doesn't hold.

ghost use Rattle.std.specs.Prelude.{◌≡◌, ◌↔◌, false, IsTrue, IfOk, option_map};
ghost use Rattle.gimli_build.specs.Calls.{after_begin, after_address, after_row, after_end, Tries};
ghost use Rattle.gimli_build.specs.Calls.{after_directory, after_file};
ghost use Rattle.gimli_build.specs.Conditions.{CanGenerateRow, CanEndSequence};
ghost use Rattle.gimli_build.specs.Conditions.{CanAdd, CanAddFile};
ghost use Rattle.gimli_build.specs.LineText.{line_text};
ghost use Rattle.gimli_build.specs.TableFields.{details};
ghost use Rattle.gimli_build.specs.Tables.{index_of_directory, index_of_file};

use crate::built::files::{DirectoryId, FileId, FileInfo};
use crate::built::line_program::LineProgram;
use crate::built::line_string::LineString;
use gimli_bytes::{Address, Error, Result};

impl LineProgram {
    /// Whether a directory or a file of this text can be added: the program isn't a placeholder,
    /// the text has no zero byte, and up to version 4 it isn't empty.
    pub fn can_add(&self, text: &LineString) -> bool
        ensures { IsTrue result ↔ CanAdd self.now (line_text text.now) }
    {
        if self.is_none() {
            return false;
        }
        if !text.has_no_zero() {
            return false;
        }
        if self.version() > 4 {
            return true;
        }
        text.is_not_empty()
    }

    /// As [`add_directory`](LineProgram::add_directory); `InvalidRange` if the directory can't be
    /// added (`can_add`). A call that fails changes nothing.
    pub fn try_add_directory(&mut self, directory: LineString) -> Result<DirectoryId>
        ensures tries { Tries (CanAdd self.old (line_text directory))
            (after_directory (line_text directory) self.old) self.old result self.new }
        ensures id { IfOk result (λ id.
            id ≡ index_of_directory self.old.directories (line_text directory)) }
    {
        if !self.can_add(&directory) {
            return Err(Error::InvalidRange);
        }
        match self.add_directory(directory) {
            Ok(id) => Ok(id),
            Err(_) => Err(Error::OutOfMemory),
        }
    }

    /// As [`add_file`](LineProgram::add_file); `InvalidRange` if the file can't be added
    /// (`can_add`), or its directory isn't there. A call that fails changes nothing.
    pub fn try_add_file(
        &mut self,
        file: LineString,
        directory: DirectoryId,
        info: Option<FileInfo>,
    ) -> Result<FileId>
        ensures tries { Tries (CanAddFile self.old (line_text file) directory)
            (after_file (line_text file, directory) (option_map details info) self.old)
            self.old result self.new }
        ensures id { IfOk result (λ id.
            id ≡ index_of_file self.old.files (line_text file, directory)) }
    {
        if !self.can_add(&file) {
            return Err(Error::InvalidRange);
        }
        if directory.index() >= self.tables().directories().len() {
            return Err(Error::InvalidRange);
        }
        match self.add_file(file, directory, info) {
            Ok(id) => Ok(id),
            Err(_) => Err(Error::OutOfMemory),
        }
    }

    /// As [`begin_sequence`](LineProgram::begin_sequence); `InvalidRange` if the program is a
    /// placeholder, or a sequence has begun. A call that fails changes nothing.
    pub fn try_begin_sequence(&mut self, address: Option<Address>) -> Result<()>
        ensures { Tries ((self.old.is_none ≡ false) × (self.old.in_sequence ≡ false))
            (after_begin address self.old) self.old result self.new }
    {
        if self.is_none() {
            return Err(Error::InvalidRange);
        }
        if self.in_sequence() {
            return Err(Error::InvalidRange);
        }
        match self.begin_sequence(address) {
            Ok(()) => Ok(()),
            Err(_) => Err(Error::OutOfMemory),
        }
    }

    /// As [`set_address`](LineProgram::set_address); `InvalidRange` if the program is a
    /// placeholder. A call that fails changes nothing.
    pub fn try_set_address(&mut self, address: Address) -> Result<()>
        ensures { Tries (self.old.is_none ≡ false)
            (after_address address self.old) self.old result self.new }
    {
        if self.is_none() {
            return Err(Error::InvalidRange);
        }
        match self.set_address(address) {
            Ok(()) => Ok(()),
            Err(_) => Err(Error::OutOfMemory),
        }
    }

    /// As [`generate_row`](LineProgram::generate_row); `InvalidRange` if the program is a
    /// placeholder, or its current row can't be generated (`can_generate_row`). A call that fails
    /// changes nothing.
    pub fn try_generate_row(&mut self) -> Result<()>
        ensures { Tries ((self.old.is_none ≡ false) × CanGenerateRow self.old)
            (after_row self.old.row self.old) self.old result self.new }
    {
        if self.is_none() {
            return Err(Error::InvalidRange);
        }
        if !self.can_generate_row() {
            return Err(Error::InvalidRange);
        }
        match self.generate_row() {
            Ok(()) => Ok(()),
            Err(_) => Err(Error::OutOfMemory),
        }
    }

    /// As [`end_sequence`](LineProgram::end_sequence); `InvalidRange` if the program is a
    /// placeholder, or a sequence can't end at this offset (`can_end_sequence`). A call that fails
    /// changes nothing.
    pub fn try_end_sequence(&mut self, address_offset: u64) -> Result<()>
        ensures { Tries ((self.old.is_none ≡ false) × CanEndSequence self.old address_offset)
            (after_end address_offset self.old) self.old result self.new }
    {
        if self.is_none() {
            return Err(Error::InvalidRange);
        }
        if !self.can_end_sequence(address_offset) {
            return Err(Error::InvalidRange);
        }
        match self.end_sequence(address_offset) {
            Ok(()) => Ok(()),
            Err(_) => Err(Error::OutOfMemory),
        }
    }
}
