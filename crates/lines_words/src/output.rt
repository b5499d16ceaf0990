//! Where a command prints, and what came of it.

ghost use Rattle.std.specs.Prelude.{◌≡◌, ◌≤◌, ◌↔◌, IfOk, true, false};
ghost use Rattle.lines_words.specs.Findings.{is_denied};

use crate::kinds::{CheckChoice, FindingKind};
use crate::path_text::{JsonBytes, JsonText, NameText};
use crate::request::{Form, Request};
use line_text::Digits;
use std::alloc::Global;
use std::io::{ErrorKind, Write};
use std::{fmt, io};

/// A value of a field of an object of JSON (RFC 8259).
#[derive(Clone, Copy)]
pub enum Json<'v> {
    /// A number.
    Number(u64),
    /// A number, or null where there is none.
    Count(Option<u64>),
    /// An offset or an address, as a string, or null where there is none.
    Offset(Option<u64>),
    /// Two addresses.
    Range(u64, u64),
    /// Whether something holds.
    Holds(bool),
    /// The words of the flags that are set.
    Flags(&'v [(bool, &'static str, char)]),
    /// A word that has nothing to escape.
    Word(&'v str),
    /// A text of bytes, or null where there is none.
    Text(Option<&'v [u8]>),
    /// The same; where it isn't UTF-8, a second field, with `_bytes` after the name, has its bytes
    /// in hexadecimal digits.
    Bytes(Option<&'v [u8]>),
    /// Bytes in hexadecimal digits, or null where there are none.
    Digits(Option<&'v [u8]>),
    /// A value that is written already.
    Written(&'v str),
}

/// From how many bytes on an output is full: a megabyte.
const FULL: usize = 1 << 20;

/// What the outputs are shown on.
#[derive(Clone, Copy)]
pub struct Screen {
    /// Whether standard output is a terminal.
    pub is_out: bool,
    /// Whether standard error is a terminal.
    pub is_err: bool,
    /// Whether terminals are shown colours.
    pub is_coloured: bool,
}

/// What stands before and after a text that is set off on a terminal (ECMA-48, section 8.3.117).
#[derive(Clone, Copy)]
pub struct Style {
    pub begin: &'static str,
    pub end: &'static str,
}

impl Style {
    /// Nothing is set off.
    pub const PLAIN: Style = Style { begin: "", end: "" };

    /// The style that begins with this on a terminal with colours, and plain elsewhere.
    fn new(is_coloured: bool, begin: &'static str) -> Style {
        let end = "\u{1b}[0m";
        if is_coloured {
            Style { begin, end }
        } else {
            Style::PLAIN
        }
    }
}

/// What a command prints on standard output and on standard error, kept until it is handed on: only
/// `hand_on` and `finish` know the writers. It also keeps what came of the command over the file of
/// a name.
#[derive(Drop)]
pub struct Output<'o> {
    request: &'o Request<'o>,
    name: &'o str,
    /// What the outputs are shown on.
    pub screen: Screen,
    out: Vec<u8>,
    err: Vec<u8>,
    /// How far the command is, for standard error.
    progress: Vec<u8>,
    /// Whether that was shown, and not cleared.
    is_shown: bool,
    /// Whether something was reported on standard error, or a check found what is denied.
    is_faulty: bool,
    /// Whether something could not be kept, since memory is missing.
    is_incomplete: bool,
}

impl<'o> Output<'o> {
    /// Nothing was printed yet of what a request asks for.
    pub fn new(alloc: Global, request: &'o Request<'o>, name: &'o str, screen: Screen) -> Self {
        Output {
            request,
            name,
            screen,
            out: Vec::new(alloc),
            err: Vec::new(alloc),
            progress: Vec::new(alloc),
            is_shown: false,
            is_faulty: false,
            is_incomplete: false,
        }
    }

    /// Goes on with the file of another name.
    pub fn turn_to(&mut self, name: &'o str) {
        self.name = name;
    }

    /// Whether so much was printed that it should be handed on before more is.
    pub fn is_full(&self) -> bool {
        self.out.len() >= FULL || self.err.len() >= FULL
    }

    /// The limit of memory that the request names; None where it names none.
    pub fn memory_limit(&self) -> Option<u64> {
        self.request.memory_limit
    }

    /// Whether a JSON object a line is printed.
    pub fn is_json(&self) -> bool {
        matches!(self.request.form, Form::Json)
    }

    /// What a check reports.
    pub fn check(&self) -> CheckChoice {
        self.request.check
    }

    /// Prints a line, as `add` does.
    pub fn print(&mut self, line: impl fmt::Display + Drop) {
        self.add(format_args!("{line}\n"));
    }

    /// Prints a part of a line; nothing where what stands before it could not be kept.
    pub fn add(&mut self, part: impl fmt::Display + Drop) {
        if self.is_incomplete || write!(self.out, "{part}").is_err() {
            self.is_incomplete = true;
        }
    }

    /// How a heading on standard output is set off: bold on a terminal.
    pub fn heading(&self) -> Style {
        Style::new(self.screen.is_out && self.screen.is_coloured, "\u{1b}[1m")
    }

    /// Prints a line of headings, for people.
    pub fn print_heading(&mut self, heading: impl fmt::Display + Drop) {
        if !self.is_json() {
            let Style { begin, end } = self.heading();
            self.print(format_args!("{begin}{heading}{end}"));
        }
    }

    /// Prints the heading of the unit at an offset.
    pub fn print_unit_heading(&mut self, unit: u64, version: u16) {
        self.print_heading(format_args!("unit at 0x{unit:x}, version {version}"));
    }

    /// Prints an object of JSON with these fields.
    pub fn print_object(&mut self, fields: &[(&str, Json<'_>)]) {
        self.add_fields("{", fields);
        self.print("}");
    }

    /// Prints fields of an object of JSON, with a text before the first of them.
    pub fn add_fields(&mut self, first: &str, fields: &[(&str, Json<'_>)]) {
        let mut before = first;
        for (name, value) in fields {
            self.add(format_args!("{before}\"{name}\":"));
            self.add_value(name, *value);
            before = ",";
        }
    }

    /// Prints the value of a field.
    fn add_value(&mut self, name: &str, value: Json<'_>) {
        match value {
            Json::Number(number) | Json::Count(Some(number)) => self.add(number),
            Json::Offset(Some(offset)) => self.add(format_args!("\"0x{offset:x}\"")),
            Json::Range(start, end) => self.add(format_args!("[\"0x{start:x}\",\"0x{end:x}\"]")),
            Json::Holds(holds) => self.add(holds),
            Json::Flags(flags) => self.add_flags(flags),
            Json::Word(word) => self.add(format_args!("\"{word}\"")),
            Json::Text(Some(bytes)) => self.add(JsonText(bytes)),
            Json::Bytes(bytes) => self.add(JsonBytes { name, bytes }),
            Json::Digits(Some(bytes)) => {
                let digits = Digits(bytes);
                self.add(format_args!("\"{digits}\""));
            }
            Json::Written(value) => self.add(value),
            _ => self.add("null"),
        }
    }

    /// Prints the words of the flags that are set.
    fn add_flags(&mut self, flags: &[(bool, &str, char)]) {
        let mut before = "[";
        for (holds, name, _) in flags {
            if *holds {
                self.add(format_args!("{before}\"{name}\""));
                before = ",";
            }
        }
        self.add(if before == "[" { "[]" } else { "]" });
    }

    /// Prints a sentence about the file on standard error, which is no fault of the file.
    pub fn note(&mut self, sentence: impl fmt::Display + Drop) {
        self.note_of(self.name, sentence);
    }

    /// Prints a sentence about a file on standard error: red on a terminal.
    fn note_of(&mut self, name: &str, sentence: impl fmt::Display + Drop) {
        let name = NameText(name);
        let Style { begin, end } = Style::new(
            self.screen.is_err && self.screen.is_coloured,
            "\u{1b}[31m",
        );
        if writeln!(self.err, "lines: {name}: {begin}{sentence}{end}").is_err() {
            self.is_incomplete = true;
        }
    }

    /// Reports a sentence about the file.
    pub fn tell(&mut self, sentence: impl fmt::Display + Drop)
        ensures { self.new.is_faulty ≡ true }
    {
        self.note(sentence);
        self.refuse();
    }

    /// Reports a sentence about another file.
    pub fn tell_of(&mut self, name: &str, sentence: impl fmt::Display + Drop)
        ensures { self.new.is_faulty ≡ true }
    {
        self.note_of(name, sentence);
        self.refuse();
    }

    /// Reports a sentence about the unit at an offset.
    pub fn tell_of_unit(&mut self, unit: u64, sentence: impl fmt::Display + Drop)
        ensures { self.new.is_faulty ≡ true }
    {
        self.tell(format_args!("unit at 0x{unit:x}: {sentence}"));
    }

    /// Ends the command as one that was refused.
    pub fn refuse(&mut self)
        ensures { self.new.is_faulty ≡ true }
    {
        self.is_faulty = true;
    }

    /// Ends the command as one that was refused exactly where a choice denies a kind of findings.
    pub fn judge(&mut self, choice: CheckChoice, kind: FindingKind)
        ensures denied { is_denied choice.allowed choice.denied kind ≡ true
            → self.new.is_faulty ≡ true }
        ensures other { is_denied choice.allowed choice.denied kind ≡ false
            → self.new.is_faulty ≡ self.old.is_faulty }
    {
        if choice.denies(kind) {
            self.is_faulty = true;
        }
    }

    /// Shows how far the command is, in a line of standard error that the next one overwrites.
    pub fn show(&mut self, progress: impl fmt::Display + Drop) {
        self.progress.clear();
        self.is_shown = true;
        if write!(self.progress, "{progress}\r").is_err() {
            self.is_incomplete = true;
        }
    }

    /// Clears what shows how far the command is, where something does.
    pub fn clear(&mut self) {
        if self.is_shown {
            self.show(format_args!("{:40}", ""));
            self.is_shown = false;
        }
    }

    /// Hands on what was printed. Fails where standard output takes no more, and where something
    /// could not be kept.
    pub fn hand_on<O: Write, E: Write>(&mut self, out: &mut O, err: &mut E) -> io::Result<()>
        ensures { self.new.is_faulty ≡ self.old.is_faulty }
    {
        // Where standard error can't be written to, the status still says it.
        let _ = err.write_all(&self.err);
        self.err.clear();
        out.write_all(&self.out)?;
        self.out.clear();
        if !self.progress.is_empty() {
            out.flush()?;
            let _ = err.write_all(&self.progress);
            self.progress.clear();
        }
        if self.is_incomplete {
            return Err(io::Error::from(ErrorKind::OutOfMemory));
        }
        Ok(())
    }

    /// Hands on what was printed, and returns the status of the program: 1 exactly where something
    /// was reported, or a check found what is denied, else 0.
    pub fn finish<O: Write, E: Write>(mut self, out: &mut O, err: &mut E) -> io::Result<u8>
        ensures bound { IfOk result (λ status. status ≤ 1) }
        ensures exact { IfOk result
            (λ status. (status ≡ 1) ↔ (self.entry.is_faulty ≡ true)) }
    {
        self.hand_on(out, err)?;
        out.flush()?;
        Ok(if self.is_faulty { 1 } else { 0 })
    }
}
