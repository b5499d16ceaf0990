//! What a command runs with, what it is asked, and what it prints.

ghost use Rattle.std.specs.Prelude.{◌≡◌, ◌≤◌, ◌↔◌, IfOk, true};

use lines_inputs::{Asked, asked_by, show_reading};
use lines_words::{CodeAddress, Output, Request, Screen};
use std::alloc::AllocError;
use std::io::{BufRead, BufReader, IsTerminal};
use std::rt::Stdin;
use std::{env, io};

/// The status where something was refused.
pub const REFUSED: u8 = 1;

/// The most bytes that are kept for a byte of `.debug_line`: 234 were measured, of a table of files
/// of a byte each, and up to 132 of rows.
const MOST_OF_A_BYTE: u64 = 256;

/// How many times the usual limit of a compressed section may be kept, since compilers' sections
/// take less: a section may have four times the bytes of its file.
const USUAL_TIMES: u64 = 4;

/// What a command runs with.
#[derive(Clone, Copy)]
pub struct Run<'r> {
    /// The system.
    pub rt: &'r HostRuntime,
    /// What is asked for.
    pub request: &'r Request<'r>,
}

/// A command over the file of a name.
#[derive(Drop)]
pub struct Session<'r> {
    pub run: Run<'r>,
    /// What it prints.
    pub output: Output<'r>,
}

impl<'r> Run<'r> {
    /// A command over the file of a name, which printed nothing.
    pub fn over(self, name: &'r str) -> Session<'r> {
        let output = Output::new(self.rt.alloc(), self.request, name, screen(self.rt));
        Session { run: self, output }
    }
}

impl<'r> Session<'r> {
    /// Hands on what was printed. Fails where standard output takes no more, and where memory is
    /// missing.
    pub fn hand_on(&mut self) -> io::Result<()> {
        let rt = self.run.rt;
        self.output.hand_on(&mut rt.stdout(), &mut rt.stderr())
    }

    /// Prints step by step, and hands on what each printed. A step returns whether more may follow.
    pub(crate) fn print_steps<F: FnMut(&mut Output<'r>) -> Result<bool, AllocError>>(
        &mut self,
        mut step: F,
    ) -> io::Result<()>
        requires { F.IsAlwaysCallable step }
    {
        self.hand_on()?;
        for _ in 0..u64::MAX {
            let printed = step(&mut self.output);
            self.hand_on()?;
            if !printed? {
                break;
            }
        }
        Ok(())
    }

    /// Whether the rows of a section of so many bytes may be kept; reports it if they may not. The
    /// limit is that of compressed sections, or several times that if it is the usual one. Shows on
    /// a terminal that a whole section is read, if that is long.
    pub fn begin_lookup(&mut self, length: u64, limit: u64) -> io::Result<bool> {
        let limit = self
            .run
            .request
            .memory_limit
            .unwrap_or(limit.saturating_mul(USUAL_TIMES));
        let most = length.saturating_mul(MOST_OF_A_BYTE);
        if most > limit {
            self.output.tell(format_args!(
                "to look among the rows of {length} bytes of .debug_line may take {most} bytes, \
                 which is more than the limit; --memory-limit sets it"
            ));
            return Ok(false);
        }
        show_reading(length, &mut self.output);
        self.hand_on()?;
        Ok(true)
    }

    /// Hands on what was printed, where nothing failed before, and returns the status of the
    /// program: 0, or 1 where something was reported, or a check found what is denied.
    pub fn finish(self, printed: io::Result<()>) -> io::Result<u8>
        ensures bound { IfOk result (λ status. status ≤ 1) }
        ensures exact { IfOk result
            (λ status. (status ≡ 1) ↔ (self.entry.output.is_faulty ≡ true)) }
    {
        printed?;
        let rt = self.run.rt;
        self.output.finish(&mut rt.stdout(), &mut rt.stderr())
    }
}

/// What the outputs are shown on. A terminal is shown colours, unless the variable `NO_COLOR` has a
/// text, or `TERM` says that it knows none.
fn screen(rt: &HostRuntime) -> Screen {
    let is_refused = matches!(env::var(rt, "NO_COLOR"), Ok(text) if !text.is_empty());
    let is_dumb = matches!(env::var(rt, "TERM"), Ok(name) if name.as_str() == "dumb");
    Screen {
        is_out: rt.stdout().is_terminal(),
        is_err: rt.stderr().is_terminal(),
        is_coloured: !is_refused && !is_dumb,
    }
}

/// What the command `where` is asked: the addresses that are named, or where none is, those of
/// standard input, one a line.
#[derive(Drop)]
pub struct Questions<'q> {
    /// The named addresses that are left.
    named: &'q [CodeAddress<'q>],
    /// Where lines are read from, if none is named.
    lines: Option<BufReader<Stdin>>,
    /// The line that was read last, empty at the end.
    line: Vec<u8>,
    /// Whether the line was answered, or none was read.
    is_answered: bool,
}

impl<'q> Questions<'q> {
    /// The questions from the first on.
    pub fn new(rt: &HostRuntime, named: &'q [CodeAddress<'q>]) -> io::Result<Questions<'q>> {
        let lines = match named {
            [] => Some(BufReader::new(rt.alloc(), rt.stdin())?),
            _ => None,
        };
        Ok(Questions {
            named,
            lines,
            line: Vec::new(rt.alloc()),
            is_answered: true,
        })
    }

    /// What is asked now; None at the end.
    pub fn current(&mut self) -> io::Result<Option<Asked<'_>>> {
        if let Some(address) = self.named.first() {
            return Ok(Some(Asked::Address(*address)));
        }
        if self.is_answered {
            self.read_line()?;
        }
        Ok(asked_by(&self.line))
    }

    /// Goes on to the next question.
    pub fn go_on(&mut self) {
        self.is_answered = true;
        if let [_, rest @ ..] = self.named {
            self.named = rest;
        }
    }

    /// The next line, where lines are read; empty at the end.
    pub fn read_line(&mut self) -> io::Result<&[u8]> {
        self.line.clear();
        if let Some(lines) = &mut self.lines {
            lines.read_until(b'\n', &mut self.line)?;
        }
        self.is_answered = false;
        Ok(&self.line)
    }
}
