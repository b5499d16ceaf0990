//! The calls of a script that build a program. Conditions are tested before each call of the
//! library.

ghost use Rattle.std.specs.Prelude.{◌<◌, length, IsTrue, IfOk, IfSome};
ghost use Rattle.gimli_write.specs.LineText.{line_text, HasNoZero};

use crate::script::Script;
use gimli_core::Encoding;
use gimli_write::{Address, DirectoryId, FileId, FileInfo, LineProgram, LineString};
use rows::{Arguments, Attempts, Form, Stop};
use std::alloc::Global;
use std::fmt;
use std::fmt::Write;

/// The greatest number of a file.
const LAST_FILE: u64 = 999;

/// A digest of what was written to it: it compares the state before a call with the one after it,
/// without taking memory.
#[derive(Drop)]
struct Digest(u64);

impl Write for Digest {
    fn write_str(&mut self, text: &str) -> fmt::Result {
        for byte in text.as_bytes() {
            self.0 = (self.0 ^ u64::from(*byte)).wrapping_mul(0x100_0000_01b3);
        }
        Ok(())
    }
}

impl Script {
    /// A number that is the same for the same program and tables.
    fn digest(&self) -> u64 {
        let mut digest = Digest(0xcbf2_9ce4_8422_2325);
        // A digest takes every text.
        let _ = self.print_all(&mut digest);
        digest.0
    }

    /// Prints each field of the program and of the tables.
    fn print_all<W: Write>(&self, out: &mut W) -> fmt::Result {
        let program = &self.program;
        let strings = &self.tables.strings;
        let line_strings = &self.tables.line_strings;
        write!(out, "{program:?} {strings:?} {line_strings:?}")
    }

    /// Keeps the digest of the state before a call of the library.
    fn keep_before(&mut self) {
        if self.attempts == Attempts::Two {
            self.before = self.digest();
        }
    }

    /// Whether the state is as it was before the last call of the library.
    pub fn stands(&self) -> bool {
        self.digest() == self.before
    }

    /// Makes a call. Returns why it isn't made.
    pub fn perform(&mut self, name: &str, mut words: Arguments<'_>) -> Result<(), Stop> {
        let encoding = self.program.encoding();
        self.keep_before();
        match name {
            "line_str" => drop(self.text(Form::LineStrings, encoding, &mut words)),
            "str" => drop(self.text(Form::Strings, encoding, &mut words)),
            "program" => self.begin_program(&mut words)?,
            "dir" => self.add_directory(encoding, &mut words)?,
            "file" => self.add_file(encoding, &mut words)?,
            name => self.build_item(name, &mut words)?,
        }
        words.end()
    }

    /// Makes a text, and adds it to its table. Where it isn't made, or one before wasn't, it
    /// returns an empty one instead.
    fn text(&mut self, form: Form, encoding: Encoding, words: &mut Arguments<'_>) -> LineString {
        let (form, bytes) = words.text_in(form);
        if matches!(form, Form::Inside) || !words.is_fine() {
            return LineString::String(bytes);
        }
        if !LineString::accepts(&bytes) {
            words.refuse(Stop::Condition);
            return LineString::String(bytes);
        }
        let (strings, lines) = (&mut self.tables.strings, &mut self.tables.line_strings);
        let made = match form {
            Form::Strings => strings.add(&bytes).map(LineString::StringRef),
            Form::LineStrings => lines.add(&bytes).map(LineString::LineStringRef),
            _ => LineString::new(&bytes, encoding, lines),
        };
        match made {
            Ok(text) => {
                self.keep_before();
                return text;
            }
            Err(error) => words.refuse(Stop::Refused(error)),
        }
        LineString::String(bytes)
    }

    /// What is known of a file: its time, and if they are there its size, digest and source.
    fn info(&mut self, encoding: Encoding, words: &mut Arguments<'_>) -> Option<FileInfo> {
        let mut info = FileInfo {
            timestamp: words.optional_number()?,
            size: words.optional_number().unwrap_or(0),
            md5: words.md5(),
            source: None,
        };
        if !words.is_empty() {
            info.source = Some(self.text(Form::Usual, encoding, words));
        }
        Some(info)
    }

    /// Begins the program.
    fn begin_program(&mut self, words: &mut Arguments<'_>) -> Result<(), Stop> {
        let alloc = self.alloc;
        let encoding = words.encoding();
        let lines = words.line_encoding();
        let directory = self.text(Form::Usual, encoding, words);
        let file = self.text(Form::Usual, encoding, words);
        let source_dir = if words.takes("in") {
            Some(self.text(Form::Usual, encoding, words))
        } else {
            None
        };
        let info = self.info(encoding, words);
        words.end()?;
        if !LineProgram::accepts(encoding, lines)
            || !directory.has_no_zero()
            || !file.has_no_zero()
            || !is_optional_name(&source_dir)
        {
            return Err(Stop::Condition);
        }
        let program = LineProgram::new(alloc, encoding, lines, directory, source_dir, file, info)?;
        self.set_program(program);
        Ok(())
    }

    /// Adds a directory, and keeps its text.
    fn add_directory(&mut self, encoding: Encoding, words: &mut Arguments<'_>) -> Result<(), Stop> {
        let text = self.text(Form::Usual, encoding, words);
        words.end()?;
        self.directories.reserve(1)?;
        let kept = text.clone()?;
        add_directory(&mut self.program, text)?;
        self.directories.push_reserved(kept);
        Ok(())
    }

    /// Adds a file to the directory of a number.
    fn add_file(&mut self, encoding: Encoding, words: &mut Arguments<'_>) -> Result<(), Stop> {
        let text = self.text(Form::Usual, encoding, words);
        let number = words.number(u64::MAX);
        let info = self.info(encoding, words);
        words.end()?;
        push_file(&mut self.program, &self.directories, text, number, info)
    }

    /// Builds the item of a call, or sets what is written of files.
    fn build_item(&mut self, name: &str, words: &mut Arguments<'_>) -> Result<(), Stop> {
        let program = &mut self.program;
        let mut address = None;
        let mut offset = 0;
        match name {
            "flags" => set_flags(program, words),
            "begin" => address = words.optional_number().map(Address::Constant),
            "set" => address = Some(words.address()),
            "row" => set_row(self.alloc, program, words),
            "end" => {
                offset = words.number(u64::MAX);
                if let Some(op_index) = words.optional_number() {
                    program.row().op_index = op_index;
                }
            }
            _ => words.refuse(Stop::Bad),
        }
        self.keep_before();
        words.end()?;
        build(&mut self.program, name, address, offset)
    }
}

/// Whether a text that may be absent has no zero byte.
fn is_optional_name(text: &Option<LineString>) -> bool
    ensures { IsTrue result → IfSome text.now (λ text. HasNoZero (line_text text)) }
{
    match text {
        Some(text) => text.has_no_zero(),
        None => true,
    }
}

/// Adds a directory.
fn add_directory(program: &mut LineProgram, text: LineString) -> Result<DirectoryId, Stop>
    ensures { IfOk result (λ id. id < length program.new.directories) }
{
    if !program.can_add(&text) {
        return Err(Stop::Condition);
    }
    Ok(program.add_directory(text)?)
}

/// The id of the directory of a number: the working directory is 0, and the others are those of
/// texts that were added before.
fn directory_id(
    program: &mut LineProgram,
    texts: &[LineString],
    number: u64,
) -> Result<DirectoryId, Stop>
    ensures { IfOk result (λ id. id < length program.new.directories) }
{
    if program.is_none() {
        return Err(Stop::Condition);
    }
    if number == 0 {
        return Ok(program.default_directory());
    }
    let text = texts.get((number - 1) as usize).ok_or(Stop::Condition)?;
    add_directory(program, text.clone()?)
}

/// Adds a file to the directory of a number.
fn push_file(
    program: &mut LineProgram,
    texts: &[LineString],
    text: LineString,
    number: u64,
    info: Option<FileInfo>,
) -> Result<(), Stop> {
    let directory = directory_id(program, texts, number)?;
    if !program.can_add(&text) {
        return Err(Stop::Condition);
    }
    program.add_file(text, directory, info)?;
    Ok(())
}

/// Sets what is written of files.
fn set_flags(program: &mut LineProgram, words: &mut Arguments<'_>) {
    let letters = words.letters("tsmS");
    program.file_has_timestamp = letters.contains('t');
    program.file_has_size = letters.contains('s');
    program.file_has_md5 = letters.contains('m');
    program.file_has_source = letters.contains('S');
}

/// Sets the current row.
fn set_row(alloc: Global, program: &mut LineProgram, words: &mut Arguments<'_>) {
    let offset = words.number(u64::MAX);
    let op_index = words.number(u64::MAX);
    let file = file_id(alloc, program, words);
    let row = program.row();
    row.address_offset = offset;
    row.op_index = op_index;
    row.file = file.unwrap_or(row.file);
    row.line = words.number(u64::MAX);
    row.column = words.number(u64::MAX);
    row.discriminator = words.number(u64::MAX);
    let flags = words.letters("sbpq");
    row.is_statement = flags.contains('s');
    row.basic_block = flags.contains('b');
    row.prologue_end = flags.contains('p');
    row.epilogue_begin = flags.contains('q');
    row.isa = words.number(u64::MAX);
}

/// The id of the file with a number, if need be from a copy of the program that gets enough files.
fn file_id(alloc: Global, program: &LineProgram, words: &mut Arguments<'_>) -> Option<FileId> {
    let number = words.number(LAST_FILE);
    if let Some((id, _, _)) = program.files().nth(number as usize) {
        return Some(id);
    }
    let id = match program.clone() {
        Ok(mut scratch) => scratch_file(alloc, &mut scratch, number),
        Err(_) => None,
    };
    if id.is_none() {
        words.refuse(Stop::Memory);
    }
    id
}

/// Adds files up to one of this number, each with a name of another length, and returns its id.
fn scratch_file(alloc: Global, program: &mut LineProgram, number: u64) -> Option<FileId> {
    for length in 1..2 * (LAST_FILE as usize) {
        let name = LineString::String(vec![in alloc; b'f'; length].ok()?);
        if !program.can_add(&name) {
            return None;
        }
        let directory = program.default_directory();
        let id = program.add_file(name, directory, None).ok()?;
        // From version 5 on the numbers of files begin at 0.
        if id.raw(5) == number {
            return Some(id);
        }
    }
    None
}

/// Builds the item of a call, if that has one.
fn build(
    program: &mut LineProgram,
    name: &str,
    address: Option<Address>,
    offset: u64,
) -> Result<(), Stop> {
    match (name, address) {
        _ if program.is_none() => return Err(Stop::Condition),
        ("begin", _) if !program.in_sequence() => program.begin_sequence(address)?,
        ("set", Some(address)) => program.set_address(address)?,
        ("row", _) if program.can_generate_row() => program.generate_row()?,
        ("end", _) if program.can_end_sequence(offset) => program.end_sequence(offset)?,
        ("flags", _) => {}
        _ => return Err(Stop::Condition),
    }
    Ok(())
}
