//! The commands that make an index, or ask one.

ghost use Rattle.std.specs.Prelude.{◌≡◌, ◌≤◌, IfOk, Ok, Some};
ghost use Rattle.std.specs.Option.{option_copied};
ghost use Rattle.gimli_index.specs.Parts.{Index, index_at};
ghost use Rattle.lines_answers.specs.Indexes.{IsStale};

use crate::inputs::{Inputs, STANDARD_INPUT, can_be_opened, inputs_of, read, report};
use crate::session::{Questions, REFUSED, Run, Session};
use gimli_index::LineIndex;
use lines_answers::{
    IndexPlaces, LineAnswers, MadeIndex, index_of_program, open_index, program_identity,
};
use lines_inputs::{FunctionStarts, InputSections, PlacePrinter, build_id_in, write_file};
use lines_words::{Command, InputKind, LineNames};
use std::io::{self, Write};

/// The index of a program by its name. It is named by the build id where there is one, or else by
/// the SHA-256 of the line programs.
fn index_of(run: Run<'_>, name: &str) -> io::Result<MadeIndex>
    ensures { IfOk result (λ made. made.status ≤ 1) }
{
    let build_id = build_id_of(run, name)?;
    match inputs_of(run, name)? {
        Some(inputs) => make_index(run.over(name), &inputs, build_id.as_deref()),
        None => Ok(MadeIndex::none(run.rt.alloc(), REFUSED)),
    }
}

/// The build id of a program by its name, where it is a file, as `build_id_in` has it.
fn build_id_of(run: Run<'_>, name: &str) -> io::Result<Option<Vec<u8>>> {
    match run.request.kind {
        InputKind::Elf if name != STANDARD_INPUT => {
            build_id_in(run.rt, name, run.request.memory_limit)
        }
        _ => Ok(None),
    }
}

/// What names the program of the request in its index; None where it can't be read, which is
/// reported.
fn identity_of(run: Run<'_>) -> io::Result<Option<Vec<u8>>> {
    let name = run.request.file;
    if let Some(id) = build_id_of(run, name)? {
        return Ok(Some(id));
    }
    let Some(inputs) = inputs_of(run, name)? else {
        return Ok(None);
    };
    match program_identity(run.rt.alloc(), inputs.kind, inputs.files()) {
        Ok(identity) => Ok(Some(identity)),
        Err(refusal) => {
            report(run.rt, name, refusal);
            Ok(None)
        }
    }
}

/// Writes the index of the program of the request, and returns the status of the program.
pub(crate) fn write_index(run: Run<'_>, out: Option<&str>) -> io::Result<u8> {
    let Run { rt, request } = run;
    let made = index_of(run, request.file)?;
    let Some(bytes) = &made.bytes else {
        return Ok(made.status);
    };
    let beside = format!(in rt.alloc(); "{}.lines", request.file)?;
    let out = match out {
        Some(out) => out,
        None if request.file == STANDARD_INPUT => STANDARD_INPUT,
        None => beside.as_str(),
    };
    if out == STANDARD_INPUT {
        rt.stdout().write_all(bytes)?;
        return Ok(made.status);
    }
    if !can_be_opened(rt, out)? {
        return Ok(REFUSED);
    }
    match write_file(rt, out, bytes) {
        Ok(()) => Ok(made.status),
        Err(error) => {
            report(rt, out, error);
            Ok(REFUSED)
        }
    }
}

/// Prints the places of addresses by an index, and returns the status of the program.
pub(crate) fn ask(run: Run<'_>, index: &str) -> io::Result<u8> {
    let Some(bytes) = read(run.rt, index)? else {
        return Ok(REFUSED);
    };
    if run.request.file.is_empty() {
        return answer_by(run, index, &bytes, None);
    }
    match identity_of(run)? {
        Some(identity) => answer_by(run, index, &bytes, Some(&identity)),
        None => Ok(REFUSED),
    }
}

/// Prints the places of the addresses that the request names, or of those of standard input, by the
/// bytes of an index of a name, and returns the status: 0, or 1 where something was reported.
/// Refuses an index of another program than the one with this identity, if an identity is known.
fn answer_by(run: Run<'_>, name: &str, index: &[u8], identity: Option<&[u8]>) -> io::Result<u8>
    ensures status { IfOk result (λ status. status ≤ 1) }
    ensures stale { (found : Index) → index_at index.now ≡ Ok found
        → IsStale found (option_copied identity.entry)
        → IfOk result (λ status. status ≡ 1) }
{
    let mut session = run.over(name);
    match open_index(index, identity) {
        Ok(index) => {
            let printed = answer_by_index(&mut session, index);
            session.finish(printed)
        }
        Err(fault) => {
            session.output.tell(fault);
            session.finish(Ok(()))
        }
    }
}

/// Prints the place of each line of standard input, which names what it asks and then an address,
/// and returns the status: 0, or 1 where something was reported. Each line gets one line of answer.
/// The indexes that were asked last are kept; one that can't be asked is reported once.
pub(crate) fn ask_lines(run: Run<'_>, names: LineNames<'_>) -> io::Result<u8>
    ensures { IfOk result (λ status. status ≤ 1) }
{
    let mut session = run.over(match names {
        LineNames::BuildIds(folder) => folder,
        LineNames::Files => STANDARD_INPUT,
    });
    let mut answers = LineAnswers::new(run.rt.alloc(), names, run.request)?;
    let printed = answer_lines(&mut session, &mut answers);
    session.finish(printed)
}

/// The index at a place: of a file that is an index, or of a program.
fn asked_index(run: Run<'_>, place: &str) -> io::Result<MadeIndex> {
    let bytes = match run.request.command {
        Command::AskLines(LineNames::BuildIds(_)) => read(run.rt, place)?,
        _ if place == STANDARD_INPUT => {
            let reason = "standard input has the lines; write ./- for a file of this name";
            report(run.rt, place, reason);
            None
        }
        _ => return index_of(run, place),
    };
    let status = if bytes.is_some() { 0 } else { REFUSED };
    let starts = FunctionStarts::none(run.rt.alloc());
    Ok(MadeIndex {
        bytes,
        starts,
        status,
    })
}

/// The index of a program with this build id. None where it can't be read, which is reported.
fn make_index(mut session: Session<'_>, inputs: &Inputs, id: Option<&[u8]>) -> io::Result<MadeIndex>
    ensures { IfOk result (λ made. made.status ≤ 1) }
{
    let (bytes, starts) = match inputs.program(&mut session)? {
        Some(program) => index_and_starts(&mut session, &program, inputs, id)?,
        None => (None, FunctionStarts::none(session.run.rt.alloc())),
    };
    let status = session.finish(Ok(()))?;
    Ok(MadeIndex {
        bytes,
        starts,
        status,
    })
}

/// The bytes of the index of a program, as `index_program` makes them, and where its functions
/// begin.
fn index_and_starts(
    session: &mut Session<'_>,
    program: &InputSections<'_>,
    inputs: &Inputs,
    id: Option<&[u8]>,
) -> io::Result<(Option<Vec<u8>>, FunctionStarts)> {
    let alloc = session.run.rt.alloc();
    let functions = program.functions(alloc)?;
    let starts = FunctionStarts::new(alloc, &functions)?;
    let bytes = index_program(session, program, inputs, id)?;
    Ok((bytes, starts))
}

/// The bytes of the index of a program that is read; None where there is none, which is reported.
/// Reports the fault of a unit; the rows before the fault are in the index all the same.
fn index_program(
    session: &mut Session<'_>,
    program: &InputSections<'_>,
    inputs: &Inputs,
    id: Option<&[u8]>,
) -> io::Result<Option<Vec<u8>>> {
    let length = program.lines().len() as u64;
    if !session.begin_lookup(length, inputs.files().limit)? {
        return Ok(None);
    }
    let alloc = session.run.rt.alloc();
    let output = &mut session.output;
    let made = index_of_program(alloc, program, inputs.kind, inputs.files(), id, output)?;
    output.clear();
    Ok(made)
}

/// Answers questions by an index.
fn answer_by_index(session: &mut Session<'_>, index: LineIndex<'_>) -> io::Result<()> {
    let Run { rt, request } = session.run;
    let printer = PlacePrinter::new(rt.alloc(), request)?;
    let places = IndexPlaces { index, printer };
    let mut questions = Questions::new(rt, &request.addresses)?;
    for _ in 0..u64::MAX {
        match questions.current()? {
            Some(asked) => places.answer(asked, &mut session.output),
            None => break,
        }
        session.hand_on()?;
        questions.go_on();
    }
    Ok(())
}

/// Answers the lines of standard input.
fn answer_lines(session: &mut Session<'_>, answers: &mut LineAnswers<'_>) -> io::Result<()> {
    let mut lines = Questions::new(session.run.rt, &[])?;
    for _ in 0..u64::MAX {
        let line = lines.read_line()?;
        if line.is_empty() {
            break;
        }
        answer_line(session, line.trim_ascii(), answers)?;
        session.hand_on()?;
    }
    Ok(())
}

/// Prints the answer to a line without its ends.
fn answer_line(
    session: &mut Session<'_>,
    line: &[u8],
    answers: &mut LineAnswers<'_>,
) -> io::Result<()> {
    let Some((name, address)) = answers.question(line, &mut session.output) else {
        return Ok(());
    };
    if let Some(place) = answers.missing(name, &mut session.output)? {
        let made = asked_index(session.run, &place)?;
        answers.keep(name, &place, made, &mut session.output)?;
    }
    answers.answer(name, address, &mut session.output);
    Ok(())
}
