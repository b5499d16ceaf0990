//! A source that is read, and the program that is built of it.

ghost use Rattle.std.specs.Prelude.{◌≡◌, ◌⊎◌, Option, None, Some, Ok, Err, IfErr, IfOk, OnOk};
ghost use Rattle.gimli_bytes.specs.Texts.{KeepsTexts};
ghost use Rattle.gimli_write.specs.convert.Conversion.{IsWritable, HasWritable};
ghost use Rattle.gimli_write.specs.convert.KeptTables.{StaysWritable};
ghost use Rattle.gimli_write.specs.convert.Reads.{ReadsOn, LeavesTables, RepeatsRefusal};
ghost use Rattle.gimli_write.specs.convert.SourceRun.{start_of_source};
ghost use Rattle.gimli_write.specs.convert.Conversion.{start_of_conversion, tables_of};
ghost use Rattle.gimli_write.specs.convert.Conversion.{version_of_source};
ghost use Rattle.gimli_write.specs.convert.Conversion.{source_left, still_to_read, beside};
ghost use Rattle.gimli_write.specs.convert.Conversion.{with_program};
ghost use Rattle.gimli_write.specs.convert.Conversion.{GivesNext, IsReadRefusal};
ghost use Rattle.gimli_write.specs.convert.Conversion.{RestComesTo, RestConvertsTo};
ghost use Rattle.gimli_write.specs.convert.Conversion.{IsRestRefusal};
ghost use Rattle.gimli_write.specs.inside.convert.Conversion.{TakesRow, HandsRow, LeavesSource};
ghost use Rattle.gimli_write.specs.convert.Sequences.{GathersNext, IsGatherRefusal};
ghost use Rattle.gimli_write.specs.convert.Outcome.{ItemComesTo, without_items};

use crate::convert::rows::{ConvertLineRow, ConvertLineSequence, ConvertLineSequenceEnd};
use crate::convert::run::{SourceRow, SourceRun, SourceStep};
use crate::convert::tables::SourceTables;
use crate::convert_error::{ConvertError, ConvertResult};
use crate::text::TextSections;
use gimli_build::{FileId, LineProgram};
use gimli_bytes::{Address, LineStringTable};
use gimli_core::Reader;
use gimli_line::IncompleteLineProgram;
use std::marker::Model;

/// A source, as far as it was read, and the program that is built of it.
#[derive(Drop)]
#[derive_where(Debug; R, R::Offset)]
pub struct Conversion<R: Reader> {
    sections: TextSections<R>,
    source: SourceRun<R>,
    pub(crate) tables: SourceTables,
    /// An address that is handed out next.
    pub(crate) address: Option<u64>,
    /// A row of the source that is handed out after it, whose own set address was handed out.
    held: Option<SourceRow>,
    /// The refusal of an earlier read.
    pub(crate) failed: Option<ConvertError>,
}

impl<R: Reader> Model for Conversion<R> {
    ghost use Rattle.gimli_write.specs.convert.Conversion.{Conversion};

    ghost Value = { Conversion };

    ghost view = { λ a. record {
      sections = a.sections;
      source = a.source;
      tables = a.tables;
      address = a.address;
      held = a.held;
      failed = a.failed;
    } };
}

impl<R: Reader> Conversion<R> {
    /// Nothing is read yet.
    pub(crate) fn start(
        sections: TextSections<R>,
        program: IncompleteLineProgram<R>,
        tables: SourceTables,
    ) -> Self
        ensures { result ≡ start_of_conversion sections (start_of_source program.meaning
            (record { bytes = program.meaning.program; layout = program.layout })) tables }
    {
        Conversion {
            sections,
            source: SourceRun::start(program),
            tables,
            address: None,
            held: None,
            failed: None,
        }
    }

    /// The program that is built, and for each file number of the source its id there.
    pub(crate) fn into_program(self) -> (LineProgram, Vec<FileId>)
        ensures program { result.0 ≡ self.tables.program }
        ensures files { result.1.items ≡ self.tables.file_ids }
    {
        let tables = self.tables;
        (tables.program, tables.files)
    }

    /// Reads up to the next row, end, or address that one of these follows. Refused as the source
    /// is read, or by `OutOfMemory` where it defines a file; every later read repeats the refusal.
    /// The line strings keep their texts.
    pub(crate) fn read_row(
        &mut self,
        line_strings: &mut LineStringTable,
    ) -> ConvertResult<Option<ConvertLineRow>>
        ensures ok { IfOk result (λ row. GivesNext (beside line_strings.old self.old) row
            (beside line_strings.new self.new)) }
        ensures err { IfErr result (IsReadRefusal (still_to_read self.old line_strings.old)) }
        // Refusals are kept; files and texts stay.
        ensures repeats { RepeatsRefusal (beside line_strings.old self.old) result
            (beside line_strings.new self.new) }
        ensures given { OnOk result (self.new.address ≡ None) }
        ensures reads_on { ReadsOn (beside line_strings.old self.old)
            (beside line_strings.new self.new) }
        ensures leaves { LeavesTables (beside line_strings.old self.old) result
            (beside line_strings.new self.new) }
    {
        if let Some(e) = self.failed {
            return Err(e);
        }
        match self.next_row(line_strings) {
            Ok(row) => Ok(row),
            Err(e) => {
                self.failed = Some(e);
                Err(e)
            }
        }
    }

    /// The same, where no read was refused before.
    fn next_row(
        &mut self,
        line_strings: &mut LineStringTable,
    ) -> ConvertResult<Option<ConvertLineRow>>
        requires { self.old.failed ≡ None }
        ensures ok { IfOk result (λ row. GivesNext (beside line_strings.old self.old) row
            (beside line_strings.new self.new)) }
        ensures err { IfErr result (IsReadRefusal (still_to_read self.old line_strings.old)) }
        ensures well { self.new.failed ≡ None }
        ensures given { OnOk result (self.new.address ≡ None) }
        ensures reads_on { ReadsOn (beside line_strings.old self.old)
            (beside line_strings.new self.new) }
        ensures leaves { LeavesTables (beside line_strings.old self.old) result
            (beside line_strings.new self.new) }
    {
        if let Some(address) = self.address {
            self.address = None;
            return Ok(Some(ConvertLineRow::SetAddress(address)));
        }
        if let Some(row) = self.held {
            self.held = None;
            return Ok(Some(self.row_or_end(&row)?));
        }
        let Some(row) = self.next_source_row(line_strings)? else {
            return Ok(None);
        };
        match row.set_address {
            Some(address) => {
                self.held = Some(row);
                Ok(Some(ConvertLineRow::SetAddress(address)))
            }
            None => Ok(Some(self.row_or_end(&row)?)),
        }
    }

    /// A row or an end of the source, as it is handed out. Refused as `InvalidFileIndex` where the
    /// source has no file of the row's number so far.
    fn row_or_end(&self, row: &SourceRow) -> ConvertResult<ConvertLineRow>
        ensures { HandsRow self.now row.now result }
    {
        if row.row.end_sequence() {
            return Ok(ConvertLineRow::EndSequence(row.address_offset));
        }
        let file = self
            .tables
            .file_id(self.source.version(), row.row.file_index())?;
        Ok(ConvertLineRow::Row(row.built_row(file)))
    }

    /// Executes the source up to the next row that isn't under a tombstone, and adds the files that
    /// it defines.
    fn next_source_row(
        &mut self,
        line_strings: &mut LineStringTable,
    ) -> ConvertResult<Option<SourceRow>>
        ensures ok { IfOk result (λ row. TakesRow (version_of_source self.old)
            (source_left self.old line_strings.old) row
            (tables_of self.new line_strings.new) (source_left self.new line_strings.new)) }
        ensures err { IfErr result (IsReadRefusal (source_left self.old line_strings.old)) }
        // What stays, and what is added.
        ensures version { version_of_source self.new ≡ version_of_source self.old }
        ensures address { self.new.address ≡ self.old.address }
        ensures held { self.new.held ≡ self.old.held }
        ensures failed { self.new.failed ≡ self.old.failed }
        ensures reads_on { ReadsOn (beside line_strings.old self.old)
            (beside line_strings.new self.new) }
        ensures leaves { LeavesSource (beside line_strings.old self.old) result
            (beside line_strings.new self.new) }
    {
        'steps: loop {
            match self.source.step()? {
                SourceStep::Done => return Ok(None),
                SourceStep::More => {}
                SourceStep::Defines(file) => {
                    self.tables.add_file(&file, &self.sections, line_strings)?;
                }
                SourceStep::Made(row) => return Ok(Some(row)),
            }
        }
    }

    /// Reads up to the end of a sequence, or to an address that is set after a row, which the next
    /// read returns first. Refused as `read_row` is, as `MissingLineEndSequence` for rows without
    /// an end, or by `OutOfMemory`; every later read repeats the refusal. The line strings keep
    /// their texts.
    pub(crate) fn read_sequence(
        &mut self,
        line_strings: &mut LineStringTable,
    ) -> ConvertResult<Option<ConvertLineSequence>>
        ensures ok { IfOk result (λ sequence. GathersNext (beside line_strings.old self.old)
            sequence (beside line_strings.new self.new)) }
        ensures err { IfErr result (IsGatherRefusal (beside line_strings.old self.old)) }
        // Refusals are kept; files and texts stay.
        ensures repeats { RepeatsRefusal (beside line_strings.old self.old) result
            (beside line_strings.new self.new) }
        ensures reads_on { ReadsOn (beside line_strings.old self.old)
            (beside line_strings.new self.new) }
        ensures leaves { LeavesTables (beside line_strings.old self.old) result
            (beside line_strings.new self.new) }
    {
        if let Some(e) = self.failed {
            return Err(e);
        }
        match self.gather(line_strings) {
            Ok(sequence) => Ok(sequence),
            Err(e) => {
                self.failed = Some(e);
                Err(e)
            }
        }
    }

    /// The same, where no read was refused before.
    fn gather(
        &mut self,
        line_strings: &mut LineStringTable,
    ) -> ConvertResult<Option<ConvertLineSequence>>
        ensures ok { IfOk result (λ sequence. GathersNext (beside line_strings.old self.old)
            sequence (beside line_strings.new self.new)) }
        ensures err { IfErr result (IsGatherRefusal (beside line_strings.old self.old)) }
        ensures well { OnOk result (self.new.failed ≡ None) }
        ensures reads_on { ReadsOn (beside line_strings.old self.old)
            (beside line_strings.new self.new) }
        ensures leaves { LeavesTables (beside line_strings.old self.old) result
            (beside line_strings.new self.new) }
    {
        let mut start = None;
        let mut rows = Vec::new(*line_strings.allocator());
        'rows: loop {
            match self.read_row(line_strings)? {
                Some(ConvertLineRow::Row(row)) => rows.push(row)?,
                Some(ConvertLineRow::SetAddress(address)) if rows.is_empty() => {
                    start = Some(address);
                }
                Some(ConvertLineRow::SetAddress(address)) => {
                    self.give_back(address);
                    let end = ConvertLineSequenceEnd::Address(address);
                    return Ok(Some(ConvertLineSequence { start, end, rows }));
                }
                Some(ConvertLineRow::EndSequence(length)) => {
                    let end = ConvertLineSequenceEnd::Length(length);
                    return Ok(Some(ConvertLineSequence { start, end, rows }));
                }
                None if rows.is_empty() => return Ok(None),
                None => return Err(ConvertError::MissingLineEndSequence),
            }
        }
    }

    /// Has an address handed out again by the next read.
    fn give_back(&mut self, address: u64)
        ensures { self.new ≡ record self.old { address = Some address } }
    {
        self.address = Some(address);
    }

    /// Builds what was read. Refused as `InvalidAddress` where an address is mapped to none, as
    /// `UnsupportedLineInstruction` where it can't be built, or by `OutOfMemory`.
    fn feed<F: Fn(u64) -> Option<Address>>(
        &mut self,
        row: ConvertLineRow,
        convert_address: &F,
    ) -> ConvertResult<()>
        requires { F.IsAlwaysCallable convert_address.now }
        ensures ok { OnOk result (ItemComesTo (F.post convert_address.now) row
            self.old.tables.program (Ok self.new.tables.program)) }
        ensures err { IfErr result (λ e. (e ≡ ConvertError.OutOfMemory)
            ⊎ ItemComesTo (F.post convert_address.now) row self.old.tables.program (Err e)) }
        ensures kept { OnOk result (self.new ≡ with_program self.new.tables.program self.old) }
        ensures items { OnOk result
            (without_items self.new.tables.program ≡ without_items self.old.tables.program) }
    {
        match row {
            ConvertLineRow::SetAddress(address) => match convert_address(address) {
                Some(address) => self.tables.set_address(address),
                None => Err(ConvertError::InvalidAddress),
            },
            ConvertLineRow::Row(row) => self.tables.generate_or_keep(row),
            ConvertLineRow::EndSequence(address_offset) => self.tables.end_sequence(address_offset),
        }
    }

    /// Whether a sequence has begun in the program that is built.
    fn in_sequence(&self) -> bool
        ensures { result ≡ self.now.tables.program.in_sequence }
    {
        self.tables.in_sequence()
    }

    /// Reads and builds all that is still to be read, as `convert_all` does.
    fn feed_all<F: Fn(u64) -> Option<Address>>(
        &mut self,
        line_strings: &mut LineStringTable,
        convert_address: &F,
    ) -> ConvertResult<()>
        requires { F.IsAlwaysCallable convert_address.now }
        ensures ok { OnOk result (RestComesTo (F.post convert_address.now)
            (beside line_strings.old self.old) (Ok (record {
              program = self.new.tables.program;
              file_ids = self.new.tables.file_ids;
              line_strings = line_strings.new;
            }))) }
        ensures err { IfErr result (λ e. (e ≡ ConvertError.OutOfMemory)
            ⊎ RestComesTo (F.post convert_address.now) (beside line_strings.old self.old) (Err e)) }
        ensures writable { OnOk result
            (StaysWritable self.old.tables line_strings.old self.new.tables line_strings.new) }
        ensures stays { KeepsTexts line_strings.old line_strings.new }
    {
        'rows: loop {
            match self.read_row(line_strings)? {
                Some(row) => self.feed(row, convert_address)?,
                None if self.in_sequence() => return Err(ConvertError::MissingLineEndSequence),
                None => return Ok(()),
            }
        }
    }
}

/// Reads and builds all that is still to be read. Refused by the first of these: an address that is
/// mapped to none, as `InvalidAddress`; what can't be built, as `UnsupportedLineInstruction`; a
/// refusal of reading; a sequence that is left open, as `MissingLineEndSequence`; or by
/// `OutOfMemory`. The line strings keep their texts, and what could be written still can be.
pub(crate) fn convert_all<R: Reader, F: Fn(u64) -> Option<Address>>(
    mut conversion: Conversion<R>,
    line_strings: &mut LineStringTable,
    convert_address: F,
) -> ConvertResult<(LineProgram, Vec<FileId>)>
    requires { F.IsAlwaysCallable convert_address }
    ensures ok { IfOk result (λ answer. RestConvertsTo (F.post convert_address)
        (beside line_strings.old conversion) answer line_strings.new) }
    ensures err { IfErr result
        (IsRestRefusal (F.post convert_address) (beside line_strings.old conversion)) }
    ensures writable { HasWritable (beside line_strings.old conversion)
        → IfOk result (λ answer. IsWritable answer.0 line_strings.new) }
    ensures stays { KeepsTexts line_strings.old line_strings.new }
{
    conversion.feed_all(line_strings, &convert_address)?;
    Ok(conversion.into_program())
}
