//! Builder scripts: the calls of programs, and how each is written.

use crate::array_section::{ArraySection, Section};
use crate::built::{Tables, print_answer, put_refused};
use gimli_core::{Encoding, RunTimeEndian};
use gimli_write::{
    ConvertError, ConvertResult, DebugLine, EndianVec, Error, LineProgram, LineString, PieceVec,
    RoundTrip, Symbols, round_trip,
};
use rows::Piece::{Bytes, Number, Word};
use rows::{Arguments, Attempts, Lines, Stop, Target};
use std::alloc::Global;

/// What is printed of a program that is built.
#[derive(Clone, Copy, PartialEq, Eq)]
pub enum Told {
    /// The bytes that are written.
    Written,
    /// Its traps.
    Traps,
    /// What `write` refuses first.
    Refusals,
}

/// Builds the programs of a text's scripts, and prints what is asked of each. Returns the status: 1
/// where a program is refused or a condition isn't met. Of a bad script nothing is printed.
pub fn write(
    alloc: Global,
    attempts: Attempts,
    input: &str,
    told: Told,
    lines: &mut Lines,
) -> Result<u8, Stop> {
    let start = lines.len();
    let mut script = Script::new(alloc, attempts);
    script.told = told;
    let status = script.run(input, lines);
    if status.is_err() {
        lines.truncate(start);
    }
    status
}

/// A program that is built by the calls of a script, its tables, and how it is written.
#[derive(Drop)]
pub(crate) struct Script {
    pub alloc: Global,
    pub attempts: Attempts,
    pub program: LineProgram,
    pub tables: Tables,
    /// The text of each call that added a directory.
    pub directories: Vec<LineString>,
    /// The digest of the program and its tables before the last call of the library.
    pub before: u64,
    /// The byte order.
    pub order: RunTimeEndian,
    /// Whether it is read back.
    pub reads_back: bool,
    /// What is printed of it; it isn't written unless that is its bytes.
    told: Told,
    /// What it is written into.
    target: Target,
    /// What the section holds before.
    prefix: Vec<u8>,
    /// The encoding of the unit, if it isn't the program's.
    unit: Option<Encoding>,
    /// Whether a call begins the program.
    has_program: bool,
    /// Whether a call was refused, or its conditions weren't met: then no more is printed.
    is_ended: bool,
    /// The number of the line.
    number: u64,
    /// The status so far.
    status: u8,
}

/// The bytes of a section, and why not all of it was written.
type Written = (Vec<u8>, Option<Stop>);

impl Script {
    /// A script without a call.
    pub fn new(alloc: Global, attempts: Attempts) -> Script {
        Script {
            alloc,
            attempts,
            program: LineProgram::none(alloc),
            tables: Tables::new(alloc),
            directories: Vec::new(alloc),
            before: 0,
            order: RunTimeEndian::Little,
            reads_back: false,
            told: Told::Written,
            target: Target::Vector,
            prefix: Vec::new(alloc),
            unit: None,
            has_program: false,
            is_ended: false,
            number: 0,
            status: 0,
        }
    }

    /// Runs scripts one after the other, with a line between, and returns the status.
    fn run(&mut self, input: &str, lines: &mut Lines) -> Result<u8, Stop> {
        for line in input.lines() {
            self.number = self.number.saturating_add(1);
            let words = line.split_whitespace();
            let words = words.take_while(|word| !word.starts_with('#'));
            let words: Vec<&str> = words.collect(self.alloc)?;
            self.take(&words, lines)?;
        }
        self.number = self.number.saturating_add(1);
        self.finish(lines)?;
        Ok(self.status)
    }

    /// Takes the words of a line.
    fn take(&mut self, words: &[&str], lines: &mut Lines) -> Result<(), Stop> {
        match words {
            [] => Ok(()),
            ["next"] => self.take_next(lines),
            ["back"] => {
                self.reads_back = true;
                Ok(())
            }
            [name @ ("order" | "writer" | "prefix" | "unit"), rest @ ..] => {
                let mut rest = Arguments::new(self.alloc, rest);
                self.set(name, &mut rest);
                rest.end()
            }
            [name, rest @ ..] => self.take_call(name, Arguments::new(self.alloc, rest), lines),
        }
    }

    /// Ends a script, and begins the next one.
    fn take_next(&mut self, lines: &mut Lines) -> Result<(), Stop> {
        self.finish(lines)?;
        lines.print("--\n", &[]);
        self.begin_anew();
        Ok(())
    }

    /// Forgets the script, but for its place and the status.
    fn begin_anew(&mut self) {
        let (number, status, told) = (self.number, self.status, self.told);
        *self = Script::new(self.alloc, self.attempts);
        self.number = number;
        self.status = status;
        self.told = told;
    }

    /// Sets the program.
    pub fn set_program(&mut self, program: LineProgram) {
        self.program = program;
    }

    /// Sets how the program is written.
    fn set(&mut self, name: &str, words: &mut Arguments<'_>) {
        match name {
            "order" => self.order = words.order(),
            "writer" => self.target = words.target(),
            "prefix" => self.prefix = words.bytes(),
            _ => self.unit = Some(words.encoding()),
        }
    }

    /// Makes a call, and returns how it ends the script, if it does. The call that begins the
    /// program comes once, and before all others except those of the tables.
    fn take_call(
        &mut self,
        name: &str,
        words: Arguments<'_>,
        lines: &mut Lines,
    ) -> Result<(), Stop> {
        let begins = name == "program";
        if begins == self.has_program && name != "str" && name != "line_str" {
            return Err(Stop::Bad);
        }
        self.has_program = self.has_program || begins;
        let mut end = self.perform(name, words).err();
        if self.is_made_again(end) {
            if !self.stands() {
                lines.print("state %\n", &[Number(self.number)]);
            }
            end = self.perform(name, words).err();
        }
        match end {
            Some(Stop::Bad) => return Err(Stop::Bad),
            Some(end) if !self.is_ended => {
                self.is_ended = true;
                self.print_end(end, lines);
            }
            _ => {}
        }
        Ok(())
    }

    /// Whether a call that ends so is made once more. Where memory is refused to the script itself
    /// on its way to a call, that counts as the call's own `OutOfMemory`.
    fn is_made_again(&self, end: Option<Stop>) -> bool {
        let is_refused = matches!(end, Some(Stop::Memory | Stop::Refused(Error::OutOfMemory)));
        is_refused && self.attempts == Attempts::Two
    }

    /// Prints the line of an end that isn't as it should be, and where the conditions were met the
    /// tables.
    fn print_end(&self, end: Stop, lines: &mut Lines) {
        match end {
            Stop::Condition => return lines.print("condition %\n", &[Number(self.number)]),
            Stop::Refused(error) => lines.put_error("error ", error),
            _ => lines.print("error OutOfMemory\n", &[]),
        }
        self.print_tables(lines);
    }

    /// Prints the tables that aren't empty.
    fn print_tables(&self, lines: &mut Lines) {
        match self.table_bytes() {
            Ok([line_strings, strings]) => {
                print_table("line_str", &line_strings, lines);
                print_table("str", &strings, lines);
            }
            Err(_) => lines.refuse(),
        }
    }

    /// The bytes of the tables; by a second call, where memory is refused to the first and attempts
    /// are two.
    fn table_bytes(&self) -> Result<[Vec<u8>; 2], Error> {
        match self.tables.bytes(self.alloc) {
            Err(_) if self.attempts == Attempts::Two => self.tables.bytes(self.alloc),
            bytes => bytes,
        }
    }

    /// Ends a script, and keeps its status: 1 where its program is refused or a condition isn't
    /// met.
    fn finish(&mut self, lines: &mut Lines) -> Result<(), Stop> {
        if !self.has_program {
            return Err(Stop::Bad);
        }
        let is_met = match self.told {
            _ if self.is_ended => false,
            Told::Written => self.print_written(lines),
            Told::Traps => {
                self.print_traps(lines);
                true
            }
            Told::Refusals => self.print_refusals(lines),
        };
        if !is_met {
            self.status = 1;
        }
        Ok(())
    }

    /// Prints what `write` refuses first, of a writer that refuses symbols and of one that takes
    /// them; false where the conditions of `write` aren't met.
    fn print_refusals(&self, lines: &mut Lines) -> bool {
        let encoding = self.unit.unwrap_or(self.program.encoding());
        let program = &self.program;
        let (texts, strings) = (&self.tables.line_strings, &self.tables.strings);
        if !program.can_write(texts, strings) {
            self.print_end(Stop::Condition, lines);
            return false;
        }
        for symbols in [Symbols::Refused, Symbols::Taken] {
            match program.first_refusal(encoding, texts, strings, symbols) {
                Some(refusal) => lines.put_error("", refusal),
                None => lines.print("nothing\n", &[]),
            }
        }
        true
    }

    /// Prints the index of each item that has a trap, and the first of its traps.
    fn print_traps(&self, lines: &mut Lines) {
        if self.program.is_none() {
            return;
        }
        for (index, trap) in self.program.traps() {
            lines.print("% ", &[Number(index as u64)]);
            lines.put_error("", trap);
        }
    }

    /// Writes the program, and prints what that gives; false where it is refused or a condition
    /// isn't met.
    pub fn print_written(&mut self, lines: &mut Lines) -> bool {
        let encoding = self.unit.unwrap_or(self.program.encoding());
        let (bytes, end) = self.written(encoding, lines);
        match end {
            None => {
                for bytes in bytes.chunks(16) {
                    lines.print("%\n", &[Bytes(bytes)]);
                }
                self.print_tables(lines);
            }
            Some(end) => self.print_end(end, lines),
        }
        if matches!(end, Some(Stop::Condition)) {
            return false;
        }
        let is_read = !self.reads_back || self.print_read(encoding, lines);
        end.is_none() && is_read
    }

    /// The section of the program, and how writing into it ends; by a second call where memory is
    /// refused to the first and attempts are two.
    fn written(&mut self, encoding: Encoding, lines: &mut Lines) -> Written {
        let before = self.table_bytes();
        let (bytes, end) = self.written_once(encoding);
        if !self.is_made_again(end) {
            return (bytes, end);
        }
        // The section begins with the old bytes, or, where not all of these were written, they
        // begin with the section. An array takes no memory.
        let begins = bytes.starts_with(&self.prefix) || self.prefix.starts_with(&bytes);
        let stand = match (&before, &self.table_bytes()) {
            (Ok([lines, strings]), Ok([lines_now, strings_now])) => {
                gains_empty(lines, lines_now) && gains_empty(strings, strings_now)
            }
            _ => true,
        };
        let takes_none = matches!(self.target, Target::Array(_));
        let is_own = matches!(end, Some(Stop::Memory));
        if !begins || !stand || takes_none && !is_own {
            lines.print("state %\n", &[Number(self.number)]);
        }
        self.written_once(encoding)
    }

    /// The section of the program, and how writing into it ends.
    fn written_once(&mut self, encoding: Encoding) -> Written {
        let alloc = self.alloc;
        let order = self.order;
        match self.target {
            Target::Vector => self.written_into(encoding, EndianVec::new(alloc, order)),
            Target::Pieces(1) => self.written_into(encoding, PieceVec::<_, 1>::new(alloc, order)),
            Target::Pieces(4) => self.written_into(encoding, PieceVec::<_, 4>::new(alloc, order)),
            Target::Pieces(_) => self.written_into(encoding, PieceVec::<_, 16>::new(alloc, order)),
            Target::Array(count) => match ArraySection::new(alloc, count, order) {
                Ok(section) => self.written_into(encoding, section),
                Err(_) => (Vec::new(alloc), Some(Stop::Memory)),
            },
        }
    }

    /// A section with the program after the bytes that it holds before, and how writing ends.
    fn written_into<W: Section>(&mut self, encoding: Encoding, section: W) -> Written {
        let mut section = DebugLine::from(section);
        let program = &self.program;
        let (lines, strings) = (&mut self.tables.line_strings, &mut self.tables.strings);
        let end = match section.0.write(self.prefix.as_slice()) {
            Ok(()) if program.can_write(lines, strings) => {
                let written = program.write(&mut section, encoding, lines, strings);
                written.err().map(Stop::Refused)
            }
            Ok(()) => Some(Stop::Condition),
            Err(error) => Some(Stop::Refused(error)),
        };
        match section.0.into_bytes() {
            Ok(bytes) => (bytes, end),
            Err(_) => (Vec::new(self.alloc), Some(Stop::Memory)),
        }
    }

    /// Prints what is read back; false where that is refused, or where a condition isn't met.
    fn print_read(&mut self, encoding: Encoding, lines: &mut Lines) -> bool {
        let mut answer = self.read_back(encoding);
        let is_refused = matches!(answer, Some(Err(ConvertError::OutOfMemory)));
        if is_refused && self.attempts == Attempts::Two {
            answer = self.read_back(encoding);
        }
        match &answer {
            Some(Ok(answer)) => print_answer(answer, lines),
            Some(Err(error)) => put_refused(*error, lines),
            None => self.print_end(Stop::Condition, lines),
        }
        matches!(answer, Some(Ok(_)))
    }

    /// What is read of the program's unit, in an empty section; None where it can't be written.
    fn read_back(&mut self, encoding: Encoding) -> Option<ConvertResult<RoundTrip>> {
        let line_strings = &mut self.tables.line_strings;
        let strings = &mut self.tables.strings;
        if !self.program.can_write(line_strings, strings) {
            return None;
        }
        let mut section = DebugLine::from(EndianVec::new(self.alloc, self.order));
        Some(round_trip(&self.program, &mut section, encoding, line_strings, strings))
    }
}

/// Whether a table is as it was when these were its bytes, or has gained the empty text alone.
fn gains_empty(before: &[u8], now: &[u8]) -> bool {
    matches!(now.strip_prefix(before), Some([] | [0]))
}

/// Prints the bytes of a table after a word, if there are any.
fn print_table(word: &str, bytes: &[u8], lines: &mut Lines) {
    if !bytes.is_empty() {
        lines.print("% %\n", &[Word(word), Bytes(bytes)]);
    }
}
