//! What the program does over the bytes of files.

ghost use Rattle.std.specs.Prelude.{◌≡◌, ◌≤◌, IfOk, IfErr};
ghost use Rattle.std.specs.IoError.{error_kind};
ghost use Rattle.lines_inputs.specs.Lines.{HasLines};

use crate::session::{Questions, REFUSED, Run, Session};
use elf_sections::ElfError;
use gimli_core::Reader;
use lines_answers::{Addresses, SourceRows};
use lines_inputs::{
    Answered, Asked, Functions, Input, InputError, InputSections, PlacePrinter, Places, SourceLine,
    SourceRow, print_below, print_lines, tell_refusal,
};
use lines_reports::{Diff, Report};
use lines_words::{
    CodeAddress, Command, Files, InputKind, PathMap, Request, ShortWord, SourcePlace,
};
use std::io::ErrorKind;
use std::{fs, io, str};

impl Run<'_> {
    /// Does what the request asks for over the bytes of files, and returns the status of the
    /// program: 0, or 1 if something was refused (and reported on standard error), or if a check
    /// found something. On a terminal headings and faults are highlighted, and a long command shows
    /// how far it is. Fails if memory is missing, if standard input can't be read, or if standard
    /// output takes no more; what was printed before stays printed.
    pub fn perform(self, kind: InputKind, files: Files<'_>) -> io::Result<u8>
        ensures status { IfOk result (λ status. status ≤ 1) }
        ensures no_lines { kind ≡ InputKind.Elf
            → (HasLines files.entry.limit files.entry.file.now → ⊥)
            → IfOk result (λ status. status ≡ 1) }
        ensures no_lines_fails { kind ≡ InputKind.Elf
            → (HasLines files.entry.limit files.entry.file.now → ⊥)
            → IfErr result (λ e. error_kind e ≡ ErrorKind.OutOfMemory) }
    {
        let mut session = self.over(self.request.file);
        match InputSections::new(self.rt.alloc(), kind, files) {
            Ok(program) => {
                let printed = session.print(&program, &program.input(), files);
                session.finish(printed)
            }
            Err(InputError::Elf(ElfError::OutOfMemory)) => {
                Err(io::Error::from(ErrorKind::OutOfMemory))
            }
            Err(refusal) => {
                session.output.tell(refusal);
                // Where the message can't be written, the status still says it.
                let _ = session.hand_on();
                Ok(REFUSED)
            }
        }
    }
}

impl<'r> Session<'r> {
    /// Prints what the request asks for over a program.
    fn print<R: Reader>(
        &mut self,
        program: &InputSections<'_>,
        input: &Input<R>,
        files: Files<'_>,
    ) -> io::Result<()> {
        let is_object = !input.is_linked && !input.is_split;
        match self.run.request.command {
            Command::Where { .. } if is_object => self.locate_in_sections(files),
            Command::At(_) | Command::Source(_) if is_object => self.print_in_object(files),
            Command::Where { .. } | Command::At(_) | Command::Source(_) if !input.is_linked => {
                self.output.tell(input.refusal());
                Ok(())
            }
            Command::Where { .. } => self.locate_all(program, input, files.limit),
            Command::At(_) | Command::Source(_) => self.print_place(program, input, files.limit),
            _ => self.print_report(input),
        }
    }

    /// Prints the addresses or the source of a place.
    fn print_place<R: Reader>(
        &mut self,
        program: &InputSections<'_>,
        input: &Input<R>,
        limit: u64,
    ) -> io::Result<()> {
        match self.run.request.command {
            Command::At(place) => self.print_addresses(program, input, limit, place),
            Command::Source(place) => self.print_source(program, input, place),
            _ => Ok(()),
        }
    }

    /// Prints the addresses or the source of a place in an object file, whose sections of code are
    /// placed one after the other.
    fn print_in_object(&mut self, files: Files<'_>) -> io::Result<()> {
        match InputSections::laid_out(self.run.rt.alloc(), files) {
            Ok(Some(program)) => self.print_place(&program, &program.input(), files.limit),
            Ok(None) => {
                let text = "its sections of code are larger together than an address can be";
                self.output.tell(text);
                Ok(())
            }
            Err(refusal) => {
                tell_refusal(refusal, &mut self.output)?;
                Ok(())
            }
        }
    }

    /// Prints the places of addresses by the rows of a program.
    fn locate_all<R: Reader>(
        &mut self,
        program: &InputSections<'_>,
        input: &Input<R>,
        limit: u64,
    ) -> io::Result<()> {
        let Run { rt, request } = self.run;
        if self.begin_lookup(input.length(), limit)? {
            let mut questions = Questions::new(rt, &request.addresses)?;
            self.locate(program, input, None, &mut questions)?;
        }
        Ok(())
    }

    /// Prints the lines of a place or of a function.
    fn print_source<R: Reader>(
        &mut self,
        program: &InputSections<'_>,
        input: &Input<R>,
        place: SourcePlace<'_>,
    ) -> io::Result<()> {
        let functions = program.functions(self.run.rt.alloc())?;
        self.print_source_by(input, &functions, place)
    }

    /// Prints the lines of a place or of one of these functions.
    fn print_source_by<'x, R: Reader>(
        &mut self,
        input: &Input<R>,
        functions: &'x Functions<'x>,
        place: SourcePlace<'_>,
    ) -> io::Result<()> {
        let Run { rt, request } = self.run;
        let output = &mut self.output;
        match SourceRows::new(rt.alloc(), input, functions, place, request.context, output)? {
            Some(mut found) => self.print_found(place, functions, &mut found),
            None => Ok(()),
        }
    }

    /// Prints what line programs hold.
    fn print_report<R: Reader>(&mut self, input: &Input<R>) -> io::Result<()> {
        let Run { rt, request } = self.run;
        match Report::new(rt.alloc(), input, request, &mut self.output)? {
            Some(mut report) => self.print_steps(|output| report.print_next(output)),
            None => Ok(()),
        }
    }

    /// Prints how a program differs from a new one of a name.
    pub fn compare<R: Reader>(
        &mut self,
        old: &Input<R>,
        new_name: &'r str,
        new: &Input<R>,
    ) -> io::Result<()> {
        let Run { rt, request } = self.run;
        self.output.turn_to(request.file);
        let map = match request.source.map {
            Some(map) => Some(PathMap::new(rt.alloc(), map)?),
            None => None,
        };
        let mut diff = Diff::new(rt.alloc(), old, new, map, &mut self.output)?;
        self.print_diff(&mut diff, new_name)
    }

    /// Reads both programs, of which the new one has this name, and prints how they differ.
    fn print_diff<R: Reader>(&mut self, diff: &mut Diff<R>, new_name: &'r str) -> io::Result<()> {
        self.print_steps(|output| diff.print_next(output))?;
        self.output.turn_to(new_name);
        diff.begin_new();
        self.print_steps(|output| diff.print_next(output))
    }

    /// Prints the place of each address in an object file. Each section has rows of its own, which
    /// are kept until another section is asked for.
    fn locate_in_sections(&mut self, files: Files<'_>) -> io::Result<()> {
        let Run { rt, request } = self.run;
        let printer = PlacePrinter::new(rt.alloc(), request)?;
        let mut questions = Questions::new(rt, &request.addresses)?;
        self.locate_each(files, &printer, &mut questions)
    }

    /// Prints the place of each address that is asked in an object file.
    fn locate_each(
        &mut self,
        files: Files<'_>,
        printer: &PlacePrinter<'_>,
        questions: &mut Questions<'_>,
    ) -> io::Result<()> {
        for _ in 0..u64::MAX {
            if !self.locate_next(files, printer, questions)? {
                break;
            }
        }
        Ok(())
    }

    /// Prints the place of the address that is asked now, and of those that follow it in its
    /// section. False at the end.
    fn locate_next(
        &mut self,
        files: Files<'_>,
        printer: &PlacePrinter<'_>,
        questions: &mut Questions<'_>,
    ) -> io::Result<bool> {
        match questions.current()? {
            Some(Asked::Address(CodeAddress::InSection { section, .. })) => {
                let name = Vec::from_slice(self.run.rt.alloc(), section.as_bytes())?;
                self.locate_named(files, &name, printer, questions)
            }
            Some(asked) => {
                printer.print_other(asked, &mut self.output);
                self.go_on(questions)
            }
            None => Ok(false),
        }
    }

    /// Prints the places of the current address and of those that follow it in the section or in
    /// the function of a name, or that the current one has no place.
    fn locate_named(
        &mut self,
        files: Files<'_>,
        name: &[u8],
        printer: &PlacePrinter<'_>,
        questions: &mut Questions<'_>,
    ) -> io::Result<bool> {
        if self.locate_in_section(files, name, questions)? {
            return Ok(true);
        }
        printer.print(None, None, None, &mut self.output);
        self.go_on(questions)
    }

    /// Hands on what was printed, and goes on to the next question.
    fn go_on(&mut self, questions: &mut Questions<'_>) -> io::Result<bool> {
        self.hand_on()?;
        questions.go_on();
        Ok(true)
    }

    /// Prints the places of the addresses that follow each other in the section of a name, or in
    /// the section of the first function of it. False where none can be printed, which is reported.
    fn locate_in_section(
        &mut self,
        files: Files<'_>,
        name: &[u8],
        questions: &mut Questions<'_>,
    ) -> io::Result<bool> {
        let alloc = self.run.rt.alloc();
        let (found, section) = match InputSections::of_section(alloc, files, name) {
            Ok(None) => (InputSections::of_function(alloc, files, name), &[][..]),
            found => (found, name),
        };
        match found {
            Ok(Some(program)) => self.locate_in(&program, files.limit, name, section, questions),
            Ok(None) => {
                self.tell_of_none(name);
                Ok(false)
            }
            Err(refusal) => {
                tell_refusal(refusal, &mut self.output)?;
                Ok(false)
            }
        }
    }

    /// Prints the places of the addresses that follow each other in a section of an object file.
    /// False if none can be printed, which is reported: the limit forbids it, or the file has
    /// nothing of the name.
    fn locate_in(
        &mut self,
        program: &InputSections<'_>,
        limit: u64,
        name: &[u8],
        section: &[u8],
        questions: &mut Questions<'_>,
    ) -> io::Result<bool> {
        if !self.begin_lookup(program.lines().len() as u64, limit)? {
            return Ok(false);
        }
        let is_any = self.locate(program, &program.input(), Some(section), questions)?;
        if !is_any {
            self.tell_of_none(name);
        }
        Ok(is_any)
    }

    /// Reports that an object file has nothing of a name.
    fn tell_of_none(&mut self, name: &[u8]) {
        let name = ShortWord(name);
        let text = format_args!("there is no section and no function {name}");
        self.output.tell(text);
    }

    /// Prints the places of addresses by the rows of a program, or of the section of a name.
    /// Returns whether there was an address to answer.
    fn locate<R: Reader>(
        &mut self,
        program: &InputSections<'_>,
        input: &Input<R>,
        section: Option<&[u8]>,
        questions: &mut Questions<'_>,
    ) -> io::Result<bool> {
        let Run { rt, request } = self.run;
        let functions = program.functions(rt.alloc())?;
        let output = &mut self.output;
        let places = Places::new(rt.alloc(), input, functions, request, section, output)?;
        output.clear();
        self.answer_all(&places, questions)
    }

    /// Answers questions up to the first one about another section. Returns whether it answered
    /// any.
    pub(crate) fn answer_all<R: Reader>(
        &mut self,
        places: &Places<'_, '_, R>,
        questions: &mut Questions<'_>,
    ) -> io::Result<bool> {
        let mut is_any = false;
        for _ in 0..u64::MAX {
            if !self.answer_next(places, questions)? {
                break;
            }
            is_any = true;
        }
        Ok(is_any)
    }

    /// Answers the current question. False if there is none, or if it is about another section.
    fn answer_next<R: Reader>(
        &mut self,
        places: &Places<'_, '_, R>,
        questions: &mut Questions<'_>,
    ) -> io::Result<bool> {
        let Some(asked) = questions.current()? else {
            return Ok(false);
        };
        match places.answer(asked, &mut self.output)? {
            Answered::Elsewhere => return Ok(false),
            Answered::Whole => {}
            Answered::Above(place) => self.print_line(&place)?,
        }
        self.go_on(questions)
    }

    /// Prints a line of source below its place, where the source can be read.
    fn print_line(&mut self, place: &SourceLine) -> io::Result<()> {
        if let Some(file) = self.read_source(&place.path)? {
            print_below(self.run.rt.alloc(), place, &file, &mut self.output)?;
        }
        Ok(())
    }

    /// Prints the addresses of a place or of a function.
    fn print_addresses<R: Reader>(
        &mut self,
        program: &InputSections<'_>,
        input: &Input<R>,
        limit: u64,
        place: SourcePlace<'_>,
    ) -> io::Result<()> {
        if !self.begin_lookup(input.length(), limit)? {
            return Ok(());
        }
        let Run { rt, request } = self.run;
        let functions = program.functions(rt.alloc())?;
        self.print_all_addresses(input, &functions, request, place)
    }

    /// Prints the addresses of a place or of one of these functions.
    fn print_all_addresses<'x, R: Reader>(
        &mut self,
        input: &'x Input<R>,
        functions: &'x Functions<'x>,
        request: &'x Request<'x>,
        place: SourcePlace<'_>,
    ) -> io::Result<()> {
        let alloc = self.run.rt.alloc();
        let output = &mut self.output;
        let found = Addresses::new(alloc, input, functions, request, place, output)?;
        output.clear();
        match found {
            Some(mut found) => self.print_steps(|output| found.print_next(output)),
            None => Ok(()),
        }
    }

    /// Finds the rows of a place or of a function, and prints their lines with their addresses.
    fn print_found<'x, R: Reader>(
        &mut self,
        place: SourcePlace<'_>,
        functions: &'x Functions<'x>,
        found: &mut SourceRows<'_, R>,
    ) -> io::Result<()> {
        self.print_steps(|output| found.add_next(output))?;
        for number in 0..usize::MAX {
            match found.get(number) {
                Some((path, rows)) => self.print_lines_of(path, rows, functions, place)?,
                None => break,
            }
        }
        Ok(())
    }

    /// Prints the lines of a source file with the addresses of their rows.
    fn print_lines_of<'x>(
        &mut self,
        path: &[u8],
        rows: &[SourceRow],
        functions: &'x Functions<'x>,
        place: SourcePlace<'_>,
    ) -> io::Result<()> {
        let Run { rt, request } = self.run;
        let file = self.read_source(path)?;
        let (alloc, output) = (rt.alloc(), &mut self.output);
        print_lines(
            alloc,
            path,
            file,
            rows,
            functions,
            place,
            request.context,
            output,
        )?;
        self.hand_on()
    }

    /// The bytes of the source file of a path, from where the request has such files. None where it
    /// can't be read.
    fn read_source(&self, path: &[u8]) -> io::Result<Option<Vec<u8>>> {
        let Run { rt, request } = self.run;
        let source = request.source;
        match (source.file, str::from_utf8(path)) {
            (Some(file), _) => self.read_file(file),
            (None, Ok(path)) => {
                let name = source.name_of(rt.alloc(), path)?;
                self.read_file(name.as_str())
            }
            (None, Err(_)) => Ok(None),
        }
    }

    /// The bytes of a file. None where it can't be read.
    fn read_file(&self, name: &str) -> io::Result<Option<Vec<u8>>> {
        match fs::read(self.run.rt, name) {
            Ok(bytes) => Ok(Some(bytes)),
            Err(error) if error.kind() == ErrorKind::OutOfMemory => Err(error),
            Err(_) => Ok(None),
        }
    }
}
