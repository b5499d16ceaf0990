//! The conversion of a line program, as its callers see it.

ghost use Rattle.std.specs.Prelude.{◌≡◌, false, IfErr, IsOkUnless, IfOk};
ghost use Rattle.gimli_bytes.specs.Texts.{KeepsTexts, texts_in};
ghost use Rattle.gimli_build.specs.Calls.{after_begin, after_address, after_row, after_end};
ghost use Rattle.gimli_build.specs.Conditions.{CanEndSequence};
ghost use Rattle.gimli_write.specs.declared.convert_error.ConvertError.TheVariants.{OutOfMemory};
ghost use Rattle.gimli_write.specs.convert.Preparation.{CanBeHanded};
ghost use Rattle.gimli_write.specs.convert.LentTables.{lent, SameStringTables, KeepsStringTables};
ghost use Rattle.gimli_write.specs.convert.LentTables.{AddsLineStrings};
ghost use Rattle.gimli_write.specs.convert.Reads.{ReadsOn, LeavesTables, RepeatsRefusal};
ghost use Rattle.gimli_write.specs.convert.Converter.{progress, lent_tables, program_of, Builds};
ghost use Rattle.gimli_write.specs.convert.Sources.{to_convert};
ghost use Rattle.gimli_write.specs.convert.Mapped.{ConvertsWell};
ghost use Rattle.gimli_write.specs.convert.Conversion.{beside, reading_of, Asks, CanBuildRow};
ghost use Rattle.gimli_write.specs.convert.Conversion.{IsWritable, HasWritable};
ghost use Rattle.gimli_write.specs.convert.Conversion.{IsBegun, IsHeaderRefusal};
ghost use Rattle.gimli_write.specs.convert.Conversion.{GivesNext, IsReadRefusal};
ghost use Rattle.gimli_write.specs.convert.Conversion.{IsConvertRefusal, RestConvertsTo};
ghost use Rattle.gimli_write.specs.convert.Conversion.{IsRestRefusal};
ghost use Rattle.gimli_write.specs.convert.Sequences.{GathersNext, IsGatherRefusal};

use crate::convert::conversion::{Conversion, convert_all};
use crate::convert::header::prepare;
use crate::convert::rows::{ConvertLineRow, ConvertLineSequence};
use crate::convert_error::{ConvertError, ConvertResult};
use crate::text::TextSections;
use gimli_build::{FileId, LineProgram, LineRow};
use gimli_bytes::{Address, LineStringTable, StringTable};
use gimli_core::{Encoding, LineEncoding, Reader};
use gimli_line::IncompleteLineProgram;
use std::marker::{Model, PhantomData};

/// A line program that is read and built again.
///
/// It holds the tables of strings until it is dropped. The last type parameter is what owns memory;
/// a caller never writes it.
#[derive(Debug)]
pub struct ConvertLineProgram<'a, 'b, R: Reader, P = Conversion<R>> {
    line_strings: &'a mut LineStringTable,
    strings: &'b mut StringTable,
    conversion: P,
    reader: PhantomData<R>,
}

impl<R: Reader, P: Drop> Drop for ConvertLineProgram<'_, '_, R, P> {
    /// Leaves both tables as they are. A derived `Drop` wouldn't say so to a caller.
    fn drop(self)
        ensures line_strings { self.exit.0.now ≡ (lent_tables self.entry).line_strings.now }
        ensures strings { self.exit.1.0.now ≡ (lent_tables self.entry).strings.now }
    {
        let ConvertLineProgram {
            line_strings: _line_strings,
            strings: _strings,
            conversion: _conversion,
            reader: _reader,
        } = self;
    }
}

/// The header of a source, made into the directories and files of a program that is to be built. It
/// borrows no table.
#[derive(Drop)]
#[derive_where(Debug; R, R::Offset)]
pub struct ConvertLineHeader<R: Reader> {
    conversion: Conversion<R>,
}

impl<R: Reader> Model for ConvertLineHeader<R> {
    ghost use Rattle.gimli_write.specs.convert.Conversion.{Conversion};

    ghost Value = { Conversion };

    ghost view = { λ a. a.conversion };
}

impl<R: Reader> ConvertLineHeader<R> {
    /// The first half of `ConvertLineProgram::new`: all of it that can be refused. The directories
    /// and files of the source are added to the program that is built, by the encodings that are
    /// handed, else by the source's own. Requires encodings that a program may have, where they are
    /// handed. The program that is begun meets what `write` asks. The table keeps its texts, also
    /// where it is refused.
    ///
    /// Refused by the first of these that is, or by `OutOfMemory`: the working directory, as
    /// `MissingCompilationDirectory` where a program from version 5 on would have none; the source
    /// file, as `MissingCompilationName` there, and as `InvalidDirectoryIndex` in a directory that
    /// isn't there; the encoding of lines, as `InvalidLineBase`; the directories; the files, as
    /// `InvalidDirectoryIndex` too. A text is refused as `Read` where it isn't there, as
    /// `UnsupportedLineStringForm` in a supplementary file, and as `InvalidAttributeValue` for a
    /// zero byte, or where it is an empty path of the source's tables and the program is of version
    /// 4 or less.
    pub fn new(
        debug_str: R,
        debug_line_str: R,
        from_program: IncompleteLineProgram<R>,
        from_comp_name: Option<R>,
        encoding: Option<Encoding>,
        line_encoding: Option<LineEncoding>,
        line_strings: &mut LineStringTable,
    ) -> ConvertResult<Self>
        requires { CanBeHanded encoding line_encoding }
        ensures ok { IfOk result (λ header. IsBegun (to_convert R.seen debug_str debug_line_str
            from_program from_comp_name encoding line_encoding) line_strings.old
            (beside line_strings.new header)) }
        ensures err { IfErr result (IsHeaderRefusal (to_convert R.seen debug_str debug_line_str
            from_program from_comp_name encoding line_encoding) line_strings.old) }
        ensures stays { KeepsTexts line_strings.old line_strings.new }
    {
        let sections = TextSections {
            strings: debug_str,
            line_strings: debug_line_str,
        };
        let tables = prepare(
            &sections,
            from_program.header(),
            from_comp_name,
            encoding,
            line_encoding,
            line_strings,
        )?;
        let conversion = Conversion::start(sections, from_program, tables);
        Ok(ConvertLineHeader { conversion })
    }

    /// The second half of `ConvertLineProgram::new`, which is never refused: the conversion of the
    /// program after the header. It holds both tables until it is dropped, and so far they are as
    /// they were. The line strings have to be the table that `new` was handed, since directories
    /// and files name texts by their index there: with another table the program that is built has
    /// other names.
    pub fn converter<'a, 'b>(
        self,
        line_strings: &'a mut LineStringTable,
        strings: &'b mut StringTable,
    ) -> ConvertLineProgram<'a, 'b, R>
        ensures header { (progress result).conversion ≡ self }
        ensures string_tables { SameStringTables (lent line_strings.entry strings.entry)
            (lent_tables result) }
    {
        ConvertLineProgram {
            line_strings,
            strings,
            conversion: self.conversion,
            reader: PhantomData,
        }
    }

    /// The conversion of the program after the header.
    fn into_conversion(self) -> Conversion<R>
        ensures { result ≡ self }
    {
        self.conversion
    }
}

impl<'a, 'b, R: Reader> ConvertLineProgram<'a, 'b, R, Conversion<R>> {
    /// A conversion of a source, over the sections that hold its texts. Its directories and files
    /// are added to the program that is built, by the encodings that are handed, else by the
    /// source's own. The name is that of the source file, where the source is of version 4 or less;
    /// else file 0 is it. Requires encodings that a program may have, where they are handed. The
    /// program that is begun meets what `write` asks. Refused as `ConvertLineHeader::new` is. Where
    /// it isn't refused, the tables keep their texts; where it is, only the clauses of
    /// `ConvertLineHeader::new` say so.
    pub fn new(
        debug_str: R,
        debug_line_str: R,
        from_program: IncompleteLineProgram<R>,
        from_comp_name: Option<R>,
        encoding: Option<Encoding>,
        line_encoding: Option<LineEncoding>,
        line_strings: &'a mut LineStringTable,
        strings: &'b mut StringTable,
    ) -> ConvertResult<Self>
        requires { CanBeHanded encoding line_encoding }
        ensures ok { IfOk result (λ convert. IsBegun (to_convert R.seen debug_str debug_line_str
            from_program from_comp_name encoding line_encoding)
            line_strings.old (progress convert)) }
        ensures err { IfErr result (IsHeaderRefusal (to_convert R.seen debug_str debug_line_str
            from_program from_comp_name encoding line_encoding) line_strings.old) }
        ensures string_tables { IfOk result (λ convert.
            KeepsStringTables (lent line_strings.entry strings.entry) (lent_tables convert)) }
    {
        let header = ConvertLineHeader::new(
            debug_str,
            debug_line_str,
            from_program,
            from_comp_name,
            encoding,
            line_encoding,
            line_strings,
        )?;
        Ok(header.converter(line_strings, strings))
    }

    /// Begins a sequence in the program that is built. Refused as `UnsupportedLineInstruction`
    /// where one has begun, or by `OutOfMemory`; then nothing changes.
    pub fn begin_sequence(&mut self, address: Option<Address>) -> ConvertResult<()>
        ensures builds { Builds (after_begin address (program_of self.old))
            self.old result self.new }
        ensures asks { Asks ((program_of self.old).in_sequence ≡ false) result }
    {
        self.conversion.tables.begin_sequence(address)
    }

    /// Sets the address in the program that is built, where a sequence begins if none has. Refused
    /// by `OutOfMemory` alone; then nothing changes.
    pub fn set_address(&mut self, address: Address) -> ConvertResult<()>
        ensures builds { Builds (after_address address (program_of self.old))
            self.old result self.new }
        ensures memory { IsOkUnless result ConvertError.OutOfMemory }
    {
        self.conversion.tables.set_address(address)
    }

    /// Makes this row the current one of the program that is built, and builds it. Refused as
    /// `UnsupportedLineInstruction` where it can't be generated after the row before it, or by
    /// `OutOfMemory`; then nothing changes, nor does the current row.
    pub fn generate_row(&mut self, row: LineRow) -> ConvertResult<()>
        ensures builds { Builds (after_row row (program_of self.old)) self.old result self.new }
        ensures asks { Asks (CanBuildRow (program_of self.old) row) result }
    {
        self.conversion.tables.generate_row(row)
    }

    /// Ends a sequence of the program that is built, so many bytes after the address that was last
    /// set. Refused as `UnsupportedLineInstruction` where it can't end there, or by `OutOfMemory`;
    /// then nothing changes.
    pub fn end_sequence(&mut self, address_offset: u64) -> ConvertResult<()>
        ensures builds { Builds (after_end address_offset (program_of self.old))
            self.old result self.new }
        ensures asks { Asks (CanEndSequence (program_of self.old) address_offset) result }
    {
        self.conversion.tables.end_sequence(address_offset)
    }

    /// Whether a sequence has begun in the program that is built.
    pub fn in_sequence(&self) -> bool
        ensures { result ≡ (program_of self.now).in_sequence }
    {
        self.conversion.tables.in_sequence()
    }

    /// The program that was built so far, and for each file number of the source its id there; up
    /// to version 4 of the source none has number 0.
    pub fn program(self) -> (LineProgram, Vec<FileId>)
        ensures program { result.0 ≡ program_of self.entry }
        ensures files { result.1.items ≡ (progress self.entry).conversion.tables.file_ids }
        ensures line_strings { self.exit.0.now ≡ (lent_tables self.entry).line_strings.now }
        ensures strings { self.exit.1.0.now ≡ (lent_tables self.entry).strings.now }
    {
        let ConvertLineProgram {
            line_strings: _line_strings,
            strings: _strings,
            conversion,
            reader: _reader,
        } = self;
        conversion.into_program()
    }

    /// Reads up to the next row, end, or address that one of these follows. An address that is a
    /// tombstone, and what is under it, gives nothing. Files that are defined on the way are added
    /// to the program that is built. Refused as `Read` for a fault of the source, and as
    /// `InvalidFileIndex` for a row of no file. A file that is defined is refused as
    /// `InvalidDirectoryIndex` in a directory that isn't there, as `InvalidAttributeValue` for an
    /// empty path where the program is of version 4 or less, or by `OutOfMemory`. Every later read
    /// repeats the refusal. The tables keep their texts. So do files their ids and their numbers in
    /// the source; after a refusal for another cause than memory, and at the end, all files are
    /// there that the source defines before. A program that met what `write` asks still does.
    pub fn read_row(&mut self) -> ConvertResult<Option<ConvertLineRow>>
        ensures ok { IfOk result (λ row. GivesNext (progress self.old) row (progress self.new)) }
        ensures err { IfErr result (IsReadRefusal (reading_of (progress self.old))) }
        // Refusals are kept; files and texts stay.
        ensures repeats { RepeatsRefusal (progress self.old) result (progress self.new) }
        ensures reads_on { ReadsOn (progress self.old) (progress self.new) }
        ensures leaves { LeavesTables (progress self.old) result (progress self.new) }
        ensures string_tables { KeepsStringTables (lent_tables self.old) (lent_tables self.new) }
    {
        self.conversion.read_row(self.line_strings)
    }

    /// Reads up to the end of a sequence, or to an address that is set after a row; the next read
    /// gives that address first. Refused as `read_row` is, as `MissingLineEndSequence` for rows
    /// without an end, or by `OutOfMemory`; every later read repeats the refusal. The tables keep
    /// their texts. So do files their ids and their numbers in the source; after a refusal for
    /// another cause than memory, and at the end, all files are there that the source defines
    /// before. A program that met what `write` asks still does.
    pub fn read_sequence(&mut self) -> ConvertResult<Option<ConvertLineSequence>>
        ensures ok { IfOk result (λ sequence.
            GathersNext (progress self.old) sequence (progress self.new)) }
        ensures err { IfErr result (IsGatherRefusal (progress self.old)) }
        // Refusals are kept; files and texts stay.
        ensures repeats { RepeatsRefusal (progress self.old) result (progress self.new) }
        ensures reads_on { ReadsOn (progress self.old) (progress self.new) }
        ensures leaves { LeavesTables (progress self.old) result (progress self.new) }
        ensures string_tables { KeepsStringTables (lent_tables self.old) (lent_tables self.new) }
    {
        self.conversion.read_sequence(self.line_strings)
    }

    /// Reads and builds all that is still to be read: what `read_row` gives is handed to the
    /// builder, each before the next is read. The map gives for each address of the source the one
    /// that is set in its place. Refused by the first of these: an address that is mapped to none,
    /// as `InvalidAddress`; what can't be built, as `UnsupportedLineInstruction`; a refusal of
    /// reading; a sequence that is left open, as `MissingLineEndSequence`; or by `OutOfMemory`. The
    /// tables keep their texts. Where the program met what `write` asks, the new one does. Requires
    /// a map that may always be called.
    pub fn convert<F: Fn(u64) -> Option<Address>>(
        self,
        convert_address: F,
    ) -> ConvertResult<(LineProgram, Vec<FileId>)>
        requires { F.IsAlwaysCallable convert_address }
        ensures ok { IfOk result (λ answer. RestConvertsTo (F.post convert_address)
            (progress self.entry) answer self.exit.0.now) }
        ensures err { IfErr result (IsRestRefusal (F.post convert_address) (progress self.entry)) }
        // What can be written, and both tables.
        ensures writable { HasWritable (progress self.entry)
            → IfOk result (λ answer. IsWritable answer.0 self.exit.0.now) }
        ensures stays { KeepsTexts (lent_tables self.entry).line_strings.now self.exit.0.now }
        ensures strings { self.exit.1.0.now ≡ (lent_tables self.entry).strings.now }
    {
        let ConvertLineProgram {
            line_strings,
            strings: _strings,
            conversion,
            reader: _reader,
        } = self;
        convert_all(conversion, line_strings, convert_address)
    }
}

/// A conversion that is begun and done in one call: `ConvertLineProgram::new`, and then its
/// `convert`. Requires encodings that a program may have, where they are handed, and a map that may
/// always be called. Refused as these calls are; the tables keep their texts, also then. The
/// program meets what `write` asks. Where each address is mapped to itself, addresses are at least
/// as wide as the source's, and no sequence that gave a row ends under a tombstone, the program
/// says what its source says, and so do the rows that are read back of it.
pub fn convert_program<R: Reader, F: Fn(u64) -> Option<Address>>(
    debug_str: R,
    debug_line_str: R,
    from_program: IncompleteLineProgram<R>,
    from_comp_name: Option<R>,
    encoding: Option<Encoding>,
    line_encoding: Option<LineEncoding>,
    line_strings: &mut LineStringTable,
    strings: &mut StringTable,
    convert_address: F,
) -> ConvertResult<(LineProgram, Vec<FileId>)>
    requires handed { CanBeHanded encoding line_encoding }
    requires callable { F.IsAlwaysCallable convert_address }
    ensures outcome { IfOk result (λ answer. ConvertsWell (F.post convert_address)
        (to_convert R.seen debug_str debug_line_str
        from_program from_comp_name encoding line_encoding)
        line_strings.old answer (texts_in strings.new line_strings.new)) }
    ensures refusal { IfErr result (IsConvertRefusal (F.post convert_address)
        (to_convert R.seen debug_str debug_line_str
        from_program from_comp_name encoding line_encoding) line_strings.old) }
    ensures tables { AddsLineStrings
        (texts_in strings.old line_strings.old) (texts_in strings.new line_strings.new) }
{
    // The program names no text of this table.
    let _strings = strings;
    let header = ConvertLineHeader::new(
        debug_str,
        debug_line_str,
        from_program,
        from_comp_name,
        encoding,
        line_encoding,
        line_strings,
    )?;
    convert_all(header.into_conversion(), line_strings, convert_address)
}
