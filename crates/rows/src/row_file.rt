//! Files of rows as they are read.

use crate::parts::Parts;
use crate::stop::Stop;
use gimli_core::RunTimeEndian;
use line_text::print_bytes;
use std::alloc::Global;

/// How many words of a conversion stand before its files of texts, or the parts that are their
/// bytes.
pub const CONVERSION_WORDS: usize = 7;

/// A row: commands over one input, and the output that is expected of each of them.
#[derive(Drop)]
pub struct TestRow<'t> {
    pub name: &'t str,
    /// The commands, of which there is one at least.
    pub commands: Vec<RowCommand<'t>>,
    /// The lines of the output.
    pub expected: Vec<u8>,
    /// Whether the output must differ from these lines.
    pub must_differ: bool,
}

/// A command, with what it is given.
#[derive(Drop)]
pub struct RowCommand<'t> {
    /// The command and its other words.
    pub words: &'t str,
    pub input: Input,
}

/// What a command is given.
#[derive(Drop)]
pub enum Input {
    /// The text of a script.
    Script(String),
    /// The bytes of a section, and those of the parts that the words of the command name.
    Section(Vec<u8>, Vec<Vec<u8>>),
}

/// The rows of a file. Refused at the first line that isn't what must stand there; lines count from
/// 1.
pub fn parse_rows<'t>(alloc: Global, text: &'t str) -> Result<Vec<TestRow<'t>>, (usize, Stop)> {
    let mut file = RowsReader {
        alloc,
        rows: Vec::new(alloc),
        parts: Parts::new(alloc),
        text: String::new(alloc),
        place: RowPlace::Head,
    };
    let mut count = 0usize;
    for line in text.lines() {
        count = count.saturating_add(1);
        file.take_line(line).map_err(|stop| (count, stop))?;
    }
    file.end_row().map_err(|stop| (count, stop))?;
    Ok(file.rows)
}

/// What stands at the next line.
#[derive(Clone, Copy)]
enum RowPlace {
    /// A command, or what comes before it.
    Head,
    /// The input of a row, or a further command as long as there is none.
    Input,
    /// The output of a row.
    Output,
}

/// A file of rows as far as it was read. The input of a command is known once it has ended.
#[derive(Drop)]
struct RowsReader<'t> {
    alloc: Global,
    rows: Vec<TestRow<'t>>,
    parts: Parts<'t>,
    /// The lines of the last row's input.
    text: String,
    place: RowPlace,
}

impl<'t> RowsReader<'t> {
    /// Takes a line. Refused where it can't stand there: a part can't in an output, whose lines are
    /// all that a command gives.
    fn take_line(&mut self, line: &'t str) -> Result<(), Stop> {
        if let Some(name) = line.strip_prefix("== ") {
            self.end_row()?;
            return self.begin_row(name.trim());
        }
        match (self.place, line.strip_prefix(":= ")) {
            (RowPlace::Output, Some(_)) => Err(Stop::Bad),
            (RowPlace::Output, None) => self.take_output(line),
            (_, Some(part)) => self.parts.define(part.trim()),
            (RowPlace::Input, None) => self.take_input(line.trim_end()),
            (RowPlace::Head, None) => self.take_head(line.trim()),
        }
    }

    /// Begins a row. Refused where another has its name.
    fn begin_row(&mut self, name: &'t str) -> Result<(), Stop> {
        if name.is_empty() || self.rows.iter().any(|row| row.name == name) {
            return Err(Stop::Bad);
        }
        self.text.clear();
        self.place = RowPlace::Head;
        self.rows.push(TestRow {
            name,
            commands: Vec::new(self.alloc),
            expected: Vec::new(self.alloc),
            must_differ: false,
        })?;
        Ok(())
    }

    /// Takes a line before a command: the command of a row, where a row comes from, or more bytes
    /// of a part.
    fn take_head(&mut self, line: &'t str) -> Result<(), Stop> {
        match line.strip_prefix('>') {
            Some(words) => {
                self.parts.finish()?;
                self.push_command(words)
            }
            None if line.is_empty() || line.starts_with("--") => Ok(()),
            None => self.parts.extend_last(line),
        }
    }

    /// Adds a command to the last row. Refused where there is none.
    fn push_command(&mut self, words: &'t str) -> Result<(), Stop> {
        self.place = RowPlace::Input;
        let row = self.rows.last_mut().ok_or(Stop::Bad)?;
        row.commands.push(RowCommand {
            words: words.trim(),
            input: Input::Section(Vec::new(self.alloc), Vec::new(self.alloc)),
        })?;
        Ok(())
    }

    /// Takes a line after a command: a further command, as long as no input stands there, a line of
    /// the input, or the one that ends it.
    fn take_input(&mut self, line: &'t str) -> Result<(), Stop> {
        match (line.strip_prefix("> "), line) {
            (_, "<") => return self.end_input(false),
            (_, "!!") => return self.end_input(true),
            (Some(words), _) if self.text.is_empty() => return self.push_command(words),
            _ => {}
        }
        self.text.push_str(line)?;
        self.text.push('\n')?;
        Ok(())
    }

    /// Ends the input, and makes of it what each command is given.
    fn end_input(&mut self, must_differ: bool) -> Result<(), Stop> {
        self.place = RowPlace::Output;
        let row = self.rows.last_mut().ok_or(Stop::Bad)?;
        row.must_differ = must_differ;
        for command in &mut row.commands {
            command.input = input_of(self.alloc, &self.parts, command.words, self.text.as_str())?;
        }
        Ok(())
    }

    /// Takes a line of the output, or one that stands for the lines of bytes.
    fn take_output(&mut self, line: &str) -> Result<(), Stop> {
        let row = self.rows.last_mut().ok_or(Stop::Bad)?;
        match (line.strip_prefix(":: "), row.commands.as_slice()) {
            (Some(text), [command, ..]) => {
                let bytes = self.parts.expand(text, order_of(command.words))?;
                print_bytes(&bytes, &mut row.expected)
                    .ok()
                    .ok_or(Stop::Memory)
            }
            _ => {
                row.expected.extend_from_slice(line.as_bytes())?;
                row.expected.push(b'\n')?;
                Ok(())
            }
        }
    }

    /// Ends the row, if there is one. Refused where it has no output, and where a part isn't ended.
    fn end_row(&mut self) -> Result<(), Stop> {
        match self.place {
            RowPlace::Output => self.parts.finish(),
            _ if self.rows.is_empty() => self.parts.finish(),
            _ => Err(Stop::Bad),
        }
    }
}

/// What a command with these words is given: the text as a script, or the bytes that it says, and
/// those of the parts that a command with texts names after its other words.
fn input_of(alloc: Global, parts: &Parts<'_>, words: &str, text: &str) -> Result<Input, Stop> {
    let name = words.split_whitespace().next().unwrap_or("");
    if name == "write" || name == "traps" || name == "refusals" {
        return Ok(Input::Script(String::from_str(alloc, text)?));
    }
    let order = order_of(words);
    let section = parts.expand(text, order)?;
    let mut named = Vec::new(alloc);
    let others = words_before_parts(name).unwrap_or(usize::MAX);
    for word in words.split_whitespace().skip(others) {
        if word.starts_with('@') {
            named.push(parts.expand(word, order)?)?;
        }
    }
    Ok(Input::Section(section, named))
}

/// How many words of a command with texts stand before the parts that hold them, its name included.
/// None where the command has no texts.
pub fn words_before_parts(name: &str) -> Option<usize> {
    match name {
        "convert" | "convert_sequences" => Some(CONVERSION_WORDS + 1),
        "paths" | "addresses" => Some(6),
        _ => None,
    }
}

/// The byte order that the word after a command names; little-endian if none.
fn order_of(words: &str) -> RunTimeEndian {
    match words.split_whitespace().nth(1) {
        Some("big") => RunTimeEndian::Big,
        _ => RunTimeEndian::Little,
    }
}
