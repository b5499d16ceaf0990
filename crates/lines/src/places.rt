//! The command `where` over a program: rows are found first, and then the sections are read that
//! the paths of these need.

ghost use Rattle.std.specs.Prelude.{◌≤◌, IfOk};

use crate::inputs::{Inputs, OpenInputs, open_inputs, reads_later, report_missing};
use crate::session::{Questions, REFUSED, Run, Session};
use debug_files::{Missing, ProgramFile};
use gimli_core::{EndianSlice, Reader, RunTimeEndian};
use lines_inputs::{Input, InputSections, LateSections, PathSources, PlaceRows};
use std::io;
use std::io::{Read, Seek};

/// A section whose order of bytes is known when the program runs.
type Slice<'s> = EndianSlice<'s, RunTimeEndian>;

/// Prints the places of the addresses that a request asks, and returns the status of the program as
/// `Run::perform` does. Reads an object file whole first, and so any file that sections can't be
/// sought in.
pub(crate) fn locate(run: Run<'_>) -> io::Result<u8>
    ensures { IfOk result (λ status. status ≤ 1) }
{
    match open_inputs(run, run.request.file)? {
        Some(opened) => locate_in(run, opened),
        None => Ok(REFUSED),
    }
}

/// Does what `locate` does, over the bytes of a file, or over its sections.
fn locate_in(run: Run<'_>, opened: OpenInputs) -> io::Result<u8>
    ensures { IfOk result (λ status. status ≤ 1) }
{
    let OpenInputs { inputs, file } = opened;
    if !reads_later(run.request) {
        return run.perform(inputs.kind, inputs.files());
    }
    match file {
        Some(mut file) => locate_by(run, &inputs, &mut file),
        None => run.perform(inputs.kind, inputs.files()),
    }
}

/// Does what `locate` does, over sections of a linked program whose other sections are still in its
/// file. If one of these is needed and can't be read, reports that and prints nothing else.
fn locate_by<F: Read + Seek>(
    run: Run<'_>,
    inputs: &Inputs,
    file: &mut ProgramFile<F>,
) -> io::Result<u8>
    ensures { IfOk result (λ status. status ≤ 1) }
{
    let mut session = run.over(run.request.file);
    match session.locate_in_program(inputs, file) {
        Ok(None) => session.finish(Ok(())),
        Ok(Some(missing)) => {
            report_missing(run.rt, run.request.file, &missing);
            Ok(REFUSED)
        }
        Err(error) => Err(error),
    }
}

impl Session<'_> {
    /// Prints the places of addresses, or reports why none is printed. If a section that paths need
    /// isn't read, returns why, before anything is printed.
    fn locate_in_program<F: Read + Seek>(
        &mut self,
        inputs: &Inputs,
        file: &mut ProgramFile<F>,
    ) -> io::Result<Option<Missing>> {
        let Some(program) = inputs.program(self)? else {
            return Ok(None);
        };
        let length = program.lines().len() as u64;
        if !self.begin_lookup(length, inputs.files().limit)? {
            return Ok(None);
        }
        let late = LateSections::none();
        self.locate_by_rows(&program, &late, file)
    }

    /// Finds rows, and prints the places of addresses by them.
    fn locate_by_rows<'i, F: Read + Seek>(
        &mut self,
        program: &'i InputSections<'_>,
        late: &'i LateSections,
        file: &mut ProgramFile<F>,
    ) -> io::Result<Option<Missing>> {
        let Run { rt, request } = self.run;
        let (alloc, output) = (rt.alloc(), &mut self.output);
        let input = program.input();
        let functions = program.functions(alloc)?;
        let rows = PlaceRows::new(alloc, &input, functions, request, None, output)?;
        self.print_places(rows, &input, late, file)
    }

    /// Prints the places of addresses by rows, once the sections are read that their paths need.
    fn print_places<'i, F: Read + Seek>(
        &mut self,
        rows: PlaceRows<'_, '_, Slice<'i>>,
        input: &Input<Slice<'i>>,
        late: &'i LateSections,
        file: &mut ProgramFile<F>,
    ) -> io::Result<Option<Missing>> {
        match late.read(self.run.rt.alloc(), &rows, input, file) {
            Ok(input) => self.answer_by_rows(rows, &input),
            Err(missing) => Ok(Some(missing)),
        }
    }

    /// Prints the places of addresses by rows of a program, which has all that their paths need.
    fn answer_by_rows<R: Reader>(
        &mut self,
        rows: PlaceRows<'_, '_, R>,
        input: &Input<R>,
    ) -> io::Result<Option<Missing>> {
        let Run { rt, request } = self.run;
        let sources = PathSources::new(rt.alloc(), input)?;
        let mut questions = Questions::new(rt, &request.addresses)?;
        self.output.clear();
        self.answer_all(&rows.places(sources), &mut questions)?;
        Ok(None)
    }
}
