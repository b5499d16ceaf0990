//! Conversions: what one reads, and what is built of it.

ghost use Rattle.std.specs.Prelude.{◌≡◌, IsErr, IsTrue};
ghost use Rattle.vectors.specs.Taken.{IsTaken};

use crate::built::{Tables, print_row, put_refused};
use crate::script::Script;
use gimli_core::{
    DebugLineOffset, Encoding, EndianSlice, Error, LineEncoding, Reader, ReaderOffset,
    RunTimeEndian,
};
use gimli_line::{DebugLine, IncompleteLineProgram};
use gimli_write::{
    Address, ConvertError, ConvertLineHeader, ConvertLineProgram, ConvertLineRow,
    ConvertLineSequence, ConvertLineSequenceEnd, ConvertResult, FileId, LineProgram,
    LineStringTable,
};
use line_text::AddressSize;
use rows::Piece::{Number, Word};
use rows::{Arguments, Attempts, Lines, Stop, reader};
use std::alloc::Global;

/// Prints a conversion, by the words after its command, of a unit in the sections `.debug_line`,
/// `.debug_str` and `.debug_line_str`: item by item, and after a line `==` what is built of it; or
/// sequence by sequence. Refused where the words are none of it.
pub fn convert(
    by_items: bool,
    alloc: Global,
    words: &[&str],
    attempts: Attempts,
    sections: [&[u8]; 3],
    lines: &mut Lines,
) -> Result<(), Stop>
    ensures { IsErr result → lines.new ≡ lines.old }
{
    let [section, strings, line_strings] = sections;
    let mut words = Arguments::new(alloc, words);
    let order = words.order();
    let address_size = words.address_size();
    let offset = words.number(u64::MAX);
    let directory = words.optional_text(true);
    let name = words.optional_text(true);
    let unit_name = words.optional_text(true);
    let target = Target::parse(alloc, &mut words);
    words.end()?;
    let conversion = Conversion {
        by_items,
        alloc,
        attempts,
        section: DebugLine::new(section, order),
        strings: EndianSlice::new(strings, order),
        line_strings: EndianSlice::new(line_strings, order),
        address_size,
        offset,
        directory: reader(&directory, order),
        name: reader(&name, order),
        unit_name: reader(&unit_name, order),
        target,
    };
    conversion.print_in_script(order, lines);
    Ok(())
}

/// The encodings of the program that is built; where none is handed in it is that of the source.
#[derive(Clone, Copy, Default)]
struct Target {
    encoding: Option<Encoding>,
    line_encoding: Option<LineEncoding>,
}

impl Target {
    /// The target that the next word names: `-` for the source's own, or the version, the format
    /// and the size of an address, and after them what lines are encoded by, if it isn't as in the
    /// source. All are numbers with commas between.
    fn parse(alloc: Global, words: &mut Arguments<'_>) -> Target {
        let mut target = Target::default();
        if words.takes("-") {
            return target;
        }
        match words.word().split(',').collect::<Vec<&str>>(alloc) {
            Ok(numbers) => {
                let mut rest = Arguments::new(alloc, &numbers);
                target.encoding = Some(rest.encoding());
                if !rest.is_empty() {
                    target.line_encoding = Some(rest.line_encoding());
                }
                if let Err(stop) = rest.end() {
                    words.refuse(stop);
                }
            }
            Err(_) => words.refuse(Stop::Memory),
        }
        target
    }

    /// Whether a conversion takes it. Without a line encoding it is tested with the usual one.
    fn is_taken(self) -> bool
        ensures { IsTrue result → IsTaken self }
    {
        match (self.encoding, self.line_encoding) {
            (Some(encoding), Some(lines)) => LineProgram::accepts(encoding, lines),
            (Some(encoding), None) => LineProgram::accepts(encoding, LineEncoding::default()),
            (None, None) => true,
            (None, Some(_)) => false,
        }
    }
}

/// How reading a conversion ends.
#[derive(Clone, Copy)]
struct Ending {
    /// Whether it is begun.
    is_begun: bool,
    /// Why it is refused.
    refusal: Option<ConvertError>,
    /// Whether the state after a refusal for memory is as it must be.
    stands: bool,
}

/// A conversion that is asked for.
#[derive(Drop)]
struct Conversion<R: Reader> {
    /// Whether its items are printed, and what is built of them; else its sequences.
    by_items: bool,
    alloc: Global,
    attempts: Attempts,
    /// The section `.debug_line`, and those of its texts.
    section: DebugLine<R>,
    strings: R,
    line_strings: R,
    address_size: AddressSize,
    /// Where the unit stands.
    offset: u64,
    /// The directory and the name that are handed to the reader, and the name of the unit.
    directory: Option<R>,
    name: Option<R>,
    unit_name: Option<R>,
    /// The encodings of the program that is built.
    target: Target,
}

impl<R: Reader> Conversion<R> {
    /// The program of the unit. If memory is refused and attempts are two, it is made once more.
    fn program(&self) -> gimli_core::Result<IncompleteLineProgram<R>> {
        let offset = DebugLineOffset(R::Offset::from_u64(self.offset)?);
        let (section, size) = (self.section, self.address_size.bytes());
        match section.program(self.alloc, offset, size, self.directory, self.name) {
            Err(Error::OutOfMemory) if self.attempts == Attempts::Two => {
                section.program(self.alloc, offset, size, self.directory, self.name)
            }
            outcome => outcome,
        }
    }

    /// Prints it by a script that reads back what it writes in this byte order.
    fn print_in_script(&self, order: RunTimeEndian, lines: &mut Lines) {
        let mut script = Script::new(self.alloc, self.attempts);
        script.order = order;
        script.reads_back = true;
        self.print(&mut script, lines);
    }

    /// Prints why the unit isn't read, or what is converted of it. Where the target breaks a
    /// condition, no conversion can be asked for.
    fn print(&self, script: &mut Script, lines: &mut Lines) {
        if let Err(error) = self.program() {
            return lines.put_refusal("error ", error);
        }
        if !self.target.is_taken() {
            return lines.print("condition\n", &[]);
        }
        let start = lines.len();
        let mut ending = self.print_read(&mut script.tables, lines);
        let is_refused = matches!(ending.refusal, Some(ConvertError::OutOfMemory));
        if is_refused && self.attempts == Attempts::Two {
            lines.truncate(start);
            lines.print(if ending.stands { "" } else { "state\n" }, &[]);
            ending = self.print_read(&mut script.tables, lines);
        }
        if let Some(error) = ending.refusal {
            put_refused(error, lines);
        }
        if self.by_items && ending.is_begun {
            lines.print("==\n", &[]);
            self.print_built(script, lines);
        }
    }

    /// Prints what one conversion reads, up to its end or to the first refusal, in tables that hold
    /// texts before.
    fn print_read(&self, tables: &mut Tables, lines: &mut Lines) -> Ending
        requires { IsTaken self.now.target }
    {
        let mut ending = Ending {
            is_begun: false,
            refusal: None,
            stands: true,
        };
        if tables.add_old().is_err() {
            lines.refuse();
            return ending;
        }
        match self.begin(&mut tables.line_strings) {
            Ok(header) => ending = print_after_header(self.by_items, header, tables, lines),
            Err(error) => ending.refusal = Some(error),
        }
        ending.stands = ending.stands && tables.begin_old();
        ending
    }

    /// Prints what a second conversion builds; or a third one, where memory is refused to the
    /// second and attempts are two.
    fn print_built(&self, script: &mut Script, lines: &mut Lines)
        requires { IsTaken self.now.target }
    {
        let built = match self.build(script) {
            Err(ConvertError::OutOfMemory) if self.attempts == Attempts::Two => self.build(script),
            built => built,
        };
        match built {
            Ok(files) => {
                lines.print("files", &[]);
                for file in &files {
                    lines.print(" %", &[Number(file.raw(5))]);
                }
                lines.print("\n", &[]);
                let _is_written = script.print_written(lines);
            }
            Err(error) => put_refused(error, lines),
        }
    }

    /// Builds the program of one conversion, in tables without a text, by a closure that keeps each
    /// address, and returns its files.
    fn build(&self, script: &mut Script) -> ConvertResult<Vec<FileId>>
        requires { IsTaken self.now.target }
    {
        script.tables = Tables::new(self.alloc);
        let (program, files) = self.converted(&mut script.tables)?;
        script.set_program(program);
        Ok(files)
    }

    /// The program of one conversion, and its files.
    fn converted(&self, tables: &mut Tables) -> ConvertResult<(LineProgram, Vec<FileId>)>
        requires { IsTaken self.now.target }
    {
        let header = self.begin(&mut tables.line_strings)?;
        let converter = header.converter(&mut tables.line_strings, &mut tables.strings);
        converter.convert(|address| Some(Address::Constant(address)))
    }

    /// Begins a conversion.
    fn begin(&self, line_strings: &mut LineStringTable) -> ConvertResult<ConvertLineHeader<R>>
        requires { IsTaken self.now.target }
    {
        ConvertLineHeader::new(
            self.strings,
            self.line_strings,
            self.program()?,
            self.unit_name,
            self.target.encoding,
            self.target.line_encoding,
            line_strings,
        )
    }
}

/// Prints what is read after a header. After a refusal for memory the next read must be refused for
/// it too.
fn print_after_header<R: Reader>(
    by_items: bool,
    header: ConvertLineHeader<R>,
    tables: &mut Tables,
    lines: &mut Lines,
) -> Ending {
    let mut converter = header.converter(&mut tables.line_strings, &mut tables.strings);
    let refusal = print_each(by_items, &mut converter, lines).err();
    let stands = match refusal {
        Some(_) => matches!(converter.read_row(), Err(ConvertError::OutOfMemory)),
        None => true,
    };
    Ending {
        is_begun: true,
        refusal,
        stands,
    }
}

/// Prints each item or sequence, up to the first refusal.
fn print_each<R: Reader>(
    by_items: bool,
    converter: &mut ConvertLineProgram<'_, '_, R>,
    lines: &mut Lines,
) -> ConvertResult<()> {
    for _turn in 0..u64::MAX {
        let is_printed = if by_items {
            print_item(converter.read_row()?, lines)
        } else {
            print_sequence(converter.read_sequence()?, lines)
        };
        if !is_printed {
            break;
        }
    }
    Ok(())
}

/// Prints an item: an address, a row, or an end; false where there is none.
fn print_item(item: Option<ConvertLineRow>, lines: &mut Lines) -> bool {
    match item {
        Some(ConvertLineRow::Row(row)) => print_row(row, lines),
        Some(ConvertLineRow::SetAddress(address)) => lines.print("set %\n", &[Number(address)]),
        Some(ConvertLineRow::EndSequence(offset)) => lines.print("end %\n", &[Number(offset)]),
        None => return false,
    }
    true
}

/// Prints a sequence: its start, its rows and its end; false where there is none.
fn print_sequence(sequence: Option<ConvertLineSequence>, lines: &mut Lines) -> bool {
    let Some(sequence) = sequence else {
        return false;
    };
    let start = match sequence.start {
        Some(start) => Number(start),
        None => Word("-"),
    };
    lines.print("sequence %\n", &[start]);
    for row in sequence.rows.as_slice() {
        print_row(*row, lines);
    }
    match sequence.end {
        ConvertLineSequenceEnd::Length(length) => lines.print("length %\n", &[Number(length)]),
        ConvertLineSequenceEnd::Address(address) => lines.print("address %\n", &[Number(address)]),
    }
    true
}
