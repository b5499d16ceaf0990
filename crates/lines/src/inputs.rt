//! The bytes of the files that a request names.

ghost use Rattle.std.specs.Prelude.{◌≤◌, IfOk};

use crate::session::{REFUSED, Run, Session};
use debug_files::{
    DEBUG_DIRECTORY, Found, FoundSections, Missing, OpenSource, ProgramFile, Wanted,
};
use elf_sections::usual_limit;
use lines_inputs::{InputError, InputSections, tell_refusal};
use lines_words::{Command, Files, InputKind, NameText, Notation, Request, UnitFiles};
use std::fs::File;
use std::io::{Read, Write};
use std::{fmt, fs, io};

/// The name that stands for standard input.
pub(crate) const STANDARD_INPUT: &str = "-";

/// The bytes that an ELF file begins with (System V ABI, chapter 4).
const ELF: &[u8] = b"\x7fELF";

/// How many bytes tell the kind of a file: an archive takes the most.
const START: u64 = 8;

/// The bytes of the files that a request names, and how they are read.
#[derive(Drop)]
pub(crate) struct Inputs {
    pub(crate) kind: InputKind,
    limit: Option<u64>,
    found: Found,
    line_str: Vec<u8>,
    strings: Vec<u8>,
}

/// The bytes of the files that a request names, and the file of their sections, of which others can
/// still be read.
#[derive(Drop)]
pub(crate) struct OpenInputs {
    pub(crate) inputs: Inputs,
    /// None where the file was read whole.
    pub(crate) file: Option<ProgramFile<File>>,
}

/// Reads a file, and those that the request names besides it; None if one of them can't be read,
/// which is reported.
pub(crate) fn inputs_of(run: Run<'_>, name: &str) -> io::Result<Option<Inputs>> {
    match open_inputs(run, name)? {
        Some(opened) => Ok(Some(opened.inputs)),
        None => Ok(None),
    }
}

/// Reads what `inputs_of` reads, and keeps the file itself for the sections that are read later
/// (see `reads_later`).
pub(crate) fn open_inputs(run: Run<'_>, name: &str) -> io::Result<Option<OpenInputs>> {
    let Run { rt, request } = run;
    let source = match request.kind {
        InputKind::Elf if name == STANDARD_INPUT => Some(read_whole(read_elf(rt)?)),
        InputKind::Elf => sections_of(run, name)?,
        InputKind::Raw(_) => read(rt, name)?.map(|bytes| read_whole(bytes)),
    };
    let line_str = read_named(rt, request.line_str)?;
    let strings = read_named(rt, request.strings)?;
    let (Some(source), Some(line_str), Some(strings)) = (source, line_str, strings) else {
        return Ok(None);
    };
    let inputs = Inputs::new(request, source.found, line_str, strings);
    Ok(Some(OpenInputs {
        inputs,
        file: source.file,
    }))
}

/// A file that was read whole.
fn read_whole(bytes: Vec<u8>) -> OpenSource<File> {
    OpenSource {
        found: Found::Whole(bytes),
        file: None,
    }
}

/// Whether the sections that whole paths need are read only once rows are found, and only as far as
/// these need them: if the command asks for places, and names no section of strings to replace the
/// program's own.
pub(crate) fn reads_later(request: &Request<'_>) -> bool {
    let is_where = matches!(request.command, Command::Where { .. });
    is_where && request.line_str.is_none() && request.strings.is_none()
}

/// The sections that a request needs from the beginning.
fn wanted_by(request: &Request<'_>) -> Wanted {
    let command = &request.command;
    match (reads_later(request), command.prints_functions()) {
        (true, true) => Wanted::RowsAndSymbols,
        (true, false) => Wanted::Rows,
        (false, true) => Wanted::Symbols,
        (false, false) if command.prints_whole_paths() => Wanted::Paths,
        (false, false) if command.prints_paths() => Wanted::Names,
        (false, false) => Wanted::Lines,
    }
}

/// The sections of a program that the request needs, of its own file or of its debug file; None
/// where there are none, which is reported.
fn sections_of(run: Run<'_>, name: &str) -> io::Result<Option<OpenSource<File>>> {
    let Run { rt, request } = run;
    if !can_be_opened(rt, name)? {
        return Ok(None);
    }
    let wanted = wanted_by(request);
    let directory = request.debug_directory.unwrap_or(DEBUG_DIRECTORY);
    match debug_files::open_source(rt, name, directory, wanted, request.memory_limit) {
        Ok(source) => Ok(Some(source)),
        Err(missing) => {
            report_missing(rt, name, &missing);
            Ok(None)
        }
    }
}

impl Inputs {
    /// What was read of a file and of those that are named besides it. If sections were found, they
    /// say how they are read.
    fn new(request: &Request<'_>, found: Found, line_str: Vec<u8>, strings: Vec<u8>) -> Inputs {
        let kind = match &found {
            Found::Whole(_) => request.kind,
            Found::Sections(of) => InputKind::Raw(notation_of(of)),
        };
        Inputs {
            kind,
            limit: request.memory_limit,
            found,
            line_str,
            strings,
        }
    }

    /// The bytes of the files. Sections of strings that are named separately replace a program's
    /// own.
    pub(crate) fn files(&self) -> Files<'_> {
        match &self.found {
            Found::Whole(file) => Files {
                file,
                limit: self.limit.unwrap_or(usual_limit(file.len() as u64)),
                line_str: &self.line_str,
                strings: &self.strings,
                ..Files::default()
            },
            Found::Sections(source) => Files {
                file: &source.lines,
                line_str: named_or(&self.line_str, &source.paths.line_str),
                strings: named_or(&self.strings, &source.paths.strings),
                units: UnitFiles {
                    info: &source.paths.info,
                    abbreviations: &source.paths.abbreviations,
                    string_offsets: &source.paths.string_offsets,
                },
                symbols: &source.symbols,
                symbol_names: &source.symbol_names,
                code_ends: &source.code_ends,
                limit: source.limit,
            },
        }
    }

    /// The sections of the program. None where they can't be read, which is reported.
    pub(crate) fn program(
        &self,
        session: &mut Session<'_>,
    ) -> io::Result<Option<InputSections<'_>>> {
        match InputSections::new(session.run.rt.alloc(), self.kind, self.files()) {
            Ok(program) => Ok(Some(program)),
            Err(refusal) => {
                tell_refusal(refusal, &mut session.output)?;
                Ok(None)
            }
        }
    }
}

/// How the numbers of sections are read.
fn notation_of(of: &FoundSections) -> Notation {
    Notation::new(of.is_big_endian, of.address_size, of.lowest, of.code_end)
}

/// A section that is named apart, or else the program's own.
fn named_or<'s>(named: &'s [u8], own: &'s [u8]) -> &'s [u8] {
    if named.is_empty() { own } else { named }
}

/// Reports why a program has no sections that are read.
pub(crate) fn report_missing(rt: &HostRuntime, name: &str, missing: &Missing) {
    match missing {
        Missing::Elf(error) => report(rt, name, InputError::Elf(*error)),
        Missing::NoLines => report(rt, name, InputError::NoLines),
        Missing::Core => report(rt, name, InputError::Core),
        Missing::Archive => report(rt, name, InputError::Archive),
        Missing::NotRegular => {
            let hint = "for a raw section say --raw, and - for standard input";
            report(rt, name, format_args!("{missing}; {hint}"))
        }
        missing => report(rt, name, missing),
    }
}

/// Reports why a file isn't read.
pub(crate) fn report(rt: &HostRuntime, name: &str, reason: impl fmt::Display + Drop) {
    let name = NameText(name);
    // Where standard error can't be written to, the status still says it.
    let _ = writeln!(rt.stderr(), "lines: {name}: {reason}");
}

/// Whether a name can be opened: the kit opens files only by UTF-8 names. Reports a name that can't
/// be opened.
pub(crate) fn can_be_opened(rt: &HostRuntime, name: &str) -> io::Result<bool> {
    let bytes = lines_words::bytes_of_word(rt.alloc(), name)?;
    if bytes.as_slice() == name.as_bytes() {
        return Ok(true);
    }
    let way = "a name that isn't UTF-8 can't be opened; use - and redirect the file with <";
    report(rt, name, way);
    Ok(false)
}

/// The bytes of a file; None where it can't be read, which is reported.
pub(crate) fn read(rt: &HostRuntime, name: &str) -> io::Result<Option<Vec<u8>>> {
    if name == STANDARD_INPUT {
        let mut bytes = Vec::new(rt.alloc());
        rt.stdin().read_to_end(&mut bytes)?;
        return Ok(Some(bytes));
    }
    if !can_be_opened(rt, name)? {
        return Ok(None);
    }
    match fs::read(rt, name) {
        Ok(bytes) => Ok(Some(bytes)),
        Err(error) => {
            report(rt, name, error);
            Ok(None)
        }
    }
}

/// The bytes of standard input; only the first ones if these aren't an ELF file's.
fn read_elf(rt: &HostRuntime) -> io::Result<Vec<u8>> {
    let mut bytes = Vec::new(rt.alloc());
    rt.stdin().take(START).read_to_end(&mut bytes)?;
    if bytes.starts_with(ELF) {
        rt.stdin().read_to_end(&mut bytes)?;
    }
    Ok(bytes)
}

/// The bytes of a file that may be named; none where it isn't.
fn read_named(rt: &HostRuntime, name: Option<&str>) -> io::Result<Option<Vec<u8>>> {
    match name {
        Some(name) => read(rt, name),
        None => Ok(Some(Vec::new(rt.alloc()))),
    }
}

/// Prints how the program that the request names differs from a new one, and returns the status: 0,
/// or 1 where they differ, or something was refused. Fails as `perform` does.
pub(crate) fn compare<'r>(run: Run<'r>, new_name: &'r str) -> io::Result<u8>
    ensures { IfOk result (λ status. status ≤ 1) }
{
    let Some(old) = inputs_of(run, run.request.file)? else {
        return Ok(REFUSED);
    };
    let Some(new) = inputs_of(run, new_name)? else {
        return Ok(REFUSED);
    };
    let mut session = run.over(run.request.file);
    let printed = compare_inputs(&mut session, &old, new_name, &new);
    session.finish(printed)
}

/// Prints how a program differs from a new one, where both can be read.
fn compare_inputs<'r>(
    session: &mut Session<'r>,
    old: &Inputs,
    new_name: &'r str,
    new: &Inputs,
) -> io::Result<()> {
    let Some(old) = old.program(session)? else {
        return Ok(());
    };
    session.output.turn_to(new_name);
    match new.program(session)? {
        Some(new) => session.compare(&old.input(), new_name, &new.input()),
        None => Ok(()),
    }
}
