//! Line programs, before their run and after it.

use crate::header::file_entry::FileEntry;
use crate::header::program_header::LineProgramHeader;
use gimli_core::{Error, Reader, ReaderOffset, Result};
use std::marker::Model;

/// A type that has the header of a line program, and takes the files that the program defines.
pub trait LineProgram<R: Reader> {
    ghost use Rattle.std.specs.Prelude.{◌≡◌, Bool, true, OnOk, OnErr, IfErr};
    ghost use Rattle.gimli_line.specs.header.Header.{Header, with_defined_file};
    ghost use Rattle.gimli_line.specs.header.File.{file_seen, FileHasOrder};
    ghost use Rattle.gimli_line.specs.header.Orders.{HeaderSource, source_of, KeepsSource};

    /// What the header says.
    ghost meaning: { Self → Header };

    /// Where the header comes from.
    ghost source: { Self → HeaderSource };

    /// Whether a file that the program defines is added; if not, the list is complete.
    ghost appends: { Bool };

    /// The header.
    fn header(&self) -> &LineProgramHeader<R>
        ensures meaning { result.now.meaning ≡ meaning self.now }
        ensures source { source_of R.seen R.Offset.number result.now ≡ source self.now };

    /// Adds a file that the program defines, where the list of files isn't complete. Refused by
    /// `OutOfMemory` alone; nothing is changed then.
    fn add_file(&mut self, file: FileEntry<R>) -> Result<()>
        ensures ok { OnOk result (meaning self.new ≡ with_defined_file appends
            (file_seen R.seen R.Offset.number file) (meaning self.old)) }
        ensures err { OnErr result (meaning self.new ≡ meaning self.old) }
        ensures memory { IfErr result (λ e. (e ≡ Error.OutOfMemory) × (appends ≡ true)) }
        ensures source { KeepsSource (λ order. appends ≡ true → FileHasOrder R.seen order file)
            (source self.old) (source self.new) };
}

/// A line program that was not run yet, so that files may still be defined.
#[derive(Clone, Debug, PartialEq, Eq, Drop)]
pub struct IncompleteLineProgram<R, Offset = <R as Reader>::Offset>
where
    R: Reader<Offset = Offset>,
    Offset: ReaderOffset,
{
    pub(crate) header: LineProgramHeader<R, Offset>,
}

impl<R, Offset> Model for IncompleteLineProgram<R, Offset>
where
    R: Reader<Offset = Offset>,
    Offset: ReaderOffset,
{
    ghost use Rattle.gimli_line.specs.header.Header.{SeenHeader};

    ghost Value = { SeenHeader R Offset R.Endian };

    ghost view = { λ a. a.header };

    ghost inverse = { λ v. record { header = v } };
}

impl<R, Offset> IncompleteLineProgram<R, Offset>
where
    R: Reader<Offset = Offset>,
    Offset: ReaderOffset,
{
    ghost use Rattle.std.specs.Prelude.{◌≡◌, IfOk, IsOkUnless};
    ghost use Rattle.gimli_line.specs.header.HeaderParts.{parts_of};

    /// A copy, which agrees with the program in all its parts and in what it means. Refused by
    /// `OutOfMemory` alone.
    pub fn clone(&self) -> Result<Self>
        ensures parts { IfOk result (λ copy. parts_of copy ≡ parts_of self.now) }
        ensures meaning { IfOk result (λ copy. copy.meaning ≡ self.now.meaning) }
        ensures layout { IfOk result (λ copy. copy.layout ≡ self.now.layout) }
        ensures offset { IfOk result (λ copy. copy.offset ≡ self.now.offset) }
        ensures err { IsOkUnless result Error.OutOfMemory }
    {
        Ok(IncompleteLineProgram {
            header: self.header.clone()?,
        })
    }

    /// The header, with the files that were defined so far.
    pub fn header(&self) -> &LineProgramHeader<R, Offset>
        ensures { result.now ≡ self.now }
    {
        &self.header
    }
}

impl<R: Reader> LineProgram<R> for IncompleteLineProgram<R> {
    ghost use Rattle.std.specs.Prelude.{◌≡◌, true, OnOk, OnErr, IfErr};
    ghost use Rattle.gimli_line.specs.header.File.{file_seen, FileHasOrder};
    ghost use Rattle.gimli_line.specs.header.Header.{with_file};
    ghost use Rattle.gimli_line.specs.header.Orders.{source_of, KeepsSource};

    ghost meaning = { λ p. p.meaning };

    ghost source = { λ p. source_of R.seen R.Offset.number p };

    ghost appends = { true };

    fn header(&self) -> &LineProgramHeader<R> {
        &self.header
    }

    fn add_file(&mut self, file: FileEntry<R>) -> Result<()>
        ensures ok { OnOk result (self.new.meaning
            ≡ with_file (file_seen R.seen R.Offset.number file) self.old.meaning) }
        ensures err { OnErr result (self.new.meaning ≡ self.old.meaning) }
        ensures memory { IfErr result (λ e. (e ≡ Error.OutOfMemory) × (true ≡ true)) }
        ensures source { KeepsSource (λ order. true ≡ true → FileHasOrder R.seen order file)
            (source_of R.seen R.Offset.number self.old)
            (source_of R.seen R.Offset.number self.new) }
    {
        self.header.add_file(file)
    }
}

/// A line program of which all files are known, so that its sequences can be run one by one.
#[derive(Clone, Debug, PartialEq, Eq, Drop)]
pub struct CompleteLineProgram<R, Offset = <R as Reader>::Offset>
where
    R: Reader<Offset = Offset>,
    Offset: ReaderOffset,
{
    pub(crate) header: LineProgramHeader<R, Offset>,
}

impl<R, Offset> Model for CompleteLineProgram<R, Offset>
where
    R: Reader<Offset = Offset>,
    Offset: ReaderOffset,
{
    ghost use Rattle.gimli_line.specs.header.Header.{SeenHeader};

    ghost Value = { SeenHeader R Offset R.Endian };

    ghost view = { λ a. a.header };

    ghost inverse = { λ v. record { header = v } };
}

impl<R, Offset> CompleteLineProgram<R, Offset>
where
    R: Reader<Offset = Offset>,
    Offset: ReaderOffset,
{
    ghost use Rattle.std.specs.Prelude.{◌≡◌, IfOk, IsOkUnless};
    ghost use Rattle.gimli_line.specs.header.HeaderParts.{parts_of};

    /// A copy, which agrees with the program in all its parts and in what it means. Refused by
    /// `OutOfMemory` alone.
    pub fn clone(&self) -> Result<Self>
        ensures parts { IfOk result (λ copy. parts_of copy ≡ parts_of self.now) }
        ensures meaning { IfOk result (λ copy. copy.meaning ≡ self.now.meaning) }
        ensures layout { IfOk result (λ copy. copy.layout ≡ self.now.layout) }
        ensures offset { IfOk result (λ copy. copy.offset ≡ self.now.offset) }
        ensures err { IsOkUnless result Error.OutOfMemory }
    {
        Ok(CompleteLineProgram {
            header: self.header.clone()?,
        })
    }

    /// The header, with all files.
    pub fn header(&self) -> &LineProgramHeader<R, Offset>
        ensures { result.now ≡ self.now }
    {
        &self.header
    }
}

impl<'program, R: Reader> LineProgram<R> for &'program CompleteLineProgram<R> {
    ghost use Rattle.std.specs.Prelude.{◌≡◌, true, false, IsOk, OnOk, OnErr, IfErr};
    ghost use Rattle.gimli_line.specs.header.File.{FileHasOrder};
    ghost use Rattle.gimli_line.specs.header.Orders.{source_of, KeepsSource};

    ghost meaning = { λ p. p.now.meaning };

    ghost source = { λ p. source_of R.seen R.Offset.number p.now };

    ghost appends = { false };

    fn header(&self) -> &LineProgramHeader<R> {
        &self.header
    }

    /// Adds nothing: the file is there. Never refused.
    fn add_file(&mut self, _file: FileEntry<R>) -> Result<()>
        ensures ok { OnOk result (self.new.now.meaning ≡ self.old.now.meaning) }
        ensures err { OnErr result (self.new.now.meaning ≡ self.old.now.meaning) }
        ensures memory { IfErr result (λ e. (e ≡ Error.OutOfMemory) × (false ≡ true)) }
        ensures source { KeepsSource (λ order. false ≡ true → FileHasOrder R.seen order _file)
            (source_of R.seen R.Offset.number self.old.now)
            (source_of R.seen R.Offset.number self.new.now) }
        ensures only { IsOk result }
    {
        Ok(())
    }
}
