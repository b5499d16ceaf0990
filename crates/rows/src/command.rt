//! Commands over sections: what their words say.

ghost use Rattle.std.specs.Prelude.{◌≡◌, IsErr};

use crate::arguments::Arguments;
use crate::lines::Lines;
use crate::lookup_text::{print_lookup, print_paths, print_units, watch_rows};
use crate::stop::{Attempts, Stop};
use crate::unit_text::{print_header, print_instructions};
use crate::words::reader;
use gimli_core::{DebugLineOffset, EndianSlice, Error, Reader, ReaderOffset};
use gimli_line::{DebugLine, IncompleteLineProgram};
use gimli_lookup::StringSections;
use line_text::{AddressSize, Slice};
use std::alloc::Global;
use std::fmt::Debug;

/// A command over sections, by what it prints.
#[derive(Clone, Copy)]
pub enum Command {
    Header,
    Instructions,
    /// The units of a section, one after the other.
    Walk,
    /// The units, and the rows that cover addresses.
    Places,
    /// Where the code of a line begins.
    Addresses,
    /// The whole paths of the files of a unit.
    Paths,
    /// No command of a row: prints where the state of the rows of a unit isn't as it must be after
    /// memory is refused to them.
    Watch,
}

impl Command {
    /// The command of a name.
    pub fn parse(name: &str) -> Option<Command> {
        match name {
            "header" => Some(Command::Header),
            "instructions" => Some(Command::Instructions),
            "walk" => Some(Command::Walk),
            "places" => Some(Command::Places),
            "addresses" => Some(Command::Addresses),
            "paths" => Some(Command::Paths),
            _ => None,
        }
    }
}

/// A reader that lends the bytes left.
pub(crate) trait Lender: Reader<Offset = usize> + Debug {
    /// The bytes left.
    fn lent_bytes(&self) -> &[u8];
}

impl Lender for Slice<'_> {
    fn lent_bytes(&self) -> &[u8] {
        self.slice()
    }
}

/// What a command asks of a section or of one of its units.
#[derive(Drop)]
pub(crate) struct Asked<'w, R: Reader> {
    pub alloc: Global,
    pub attempts: Attempts,
    /// The section `.debug_line`, and those of its texts.
    pub section: DebugLine<R>,
    pub texts: StringSections<R>,
    pub address_size: AddressSize,
    /// Where the unit stands, or the lowest address of code.
    pub offset: u64,
    /// The directory and the name that are handed to the reader.
    pub directory: Option<R>,
    pub name: Option<R>,
    /// The path that is looked up, or the directory of the compilation, empty for none.
    pub path: &'w [u8],
    /// The line and the addresses that are looked up.
    pub line: u64,
    pub addresses: &'w [&'w str],
}

impl<R: Reader> Asked<'_, R> {
    /// The program of the unit. If memory is refused and attempts are two, it is made once more.
    pub fn program(&self) -> gimli_core::Result<IncompleteLineProgram<R>> {
        let offset = DebugLineOffset(R::Offset::from_u64(self.offset)?);
        let (section, size) = (self.section, self.address_size.bytes());
        match section.program(self.alloc, offset, size, self.directory, self.name) {
            Err(Error::OutOfMemory) if self.attempts == Attempts::Two => {
                section.program(self.alloc, offset, size, self.directory, self.name)
            }
            outcome => outcome,
        }
    }
}

/// Does what a command asks for, by the words after its name, of the sections `.debug_line`,
/// `.debug_str` and `.debug_line_str`. Refused where the words don't fit the command.
pub fn print(
    command: Command,
    alloc: Global,
    words: &[&str],
    attempts: Attempts,
    sections: [&[u8]; 3],
    lines: &mut Lines,
) -> Result<(), Stop>
    ensures { IsErr result → lines.new ≡ lines.old }
{
    let [section, strings, line_strings] = sections;
    let mut words = Arguments::new(alloc, words);
    let order = words.order();
    let address_size = words.address_size();
    let offset = match command {
        Command::Walk => 0,
        _ => words.number(u64::MAX),
    };
    let directory = words.optional_text(matches!(command, Command::Header | Command::Paths));
    let name = words.optional_text(matches!(command, Command::Header));
    let path = words.optional_text(matches!(command, Command::Paths | Command::Addresses));
    let line = match command {
        Command::Addresses => words.number(u64::MAX),
        _ => 0,
    };
    let addresses = words.numbers(matches!(command, Command::Places));
    words.end()?;
    let asked = Asked {
        alloc,
        attempts,
        section: DebugLine::new(section, order),
        texts: StringSections {
            debug_line_str: EndianSlice::new(line_strings, order),
            debug_str: EndianSlice::new(strings, order),
        },
        address_size,
        offset,
        directory: reader(&directory, order),
        name: reader(&name, order),
        path: path.as_deref().unwrap_or(&[]),
        line,
        addresses,
    };
    perform(command, &asked, lines);
    Ok(())
}

/// The same over any reader.
fn perform<R: Lender>(command: Command, asked: &Asked<'_, R>, lines: &mut Lines) {
    let program = match command {
        Command::Walk => return print_units(asked, lines),
        Command::Places => return print_lookup(asked, false, lines),
        Command::Addresses => return print_lookup(asked, true, lines),
        _ => asked.program(),
    };
    match (command, program) {
        (_, Err(error)) => lines.put_refusal("error ", error),
        (Command::Header, Ok(program)) => print_header(program.header(), lines),
        (Command::Instructions, Ok(program)) => print_instructions(program.header(), lines),
        (Command::Paths, Ok(program)) => print_paths(asked, program.header(), lines),
        (_, Ok(program)) => watch_rows(program.rows(), lines),
    }
}
