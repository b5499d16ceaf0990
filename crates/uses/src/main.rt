//! The programs that the CALLING pages quote, each in a file of its own, which says what it does.
//! After the word `then` another command may follow; it also runs where the one before it is
//! refused.
#![tactic(auto)]

mod line_index;
mod make_object;
mod make_unit;
mod own;
mod rows;
mod sequences;
mod where_is;

use anyhow::{Result, bail};

fn main(rt: HostRuntime) -> Result<()> {
    let words: Vec<String> = std::env::args(&rt)?.skip(1).collect(rt.alloc())?;
    start(&rt, &words)
}

/// Runs each command, and says why where one is refused.
fn start(rt: &HostRuntime, words: &[String]) -> Result<()> {
    for command in words.split(|word| word.as_str() == "then") {
        let mut text = String::new(rt.alloc());
        match run(rt, command, &mut text) {
            Ok(()) => print!(rt; "{text}")?,
            Err(refusal) => println!(rt; "refused: {refusal}")?,
        }
    }
    Ok(())
}

/// Adds to a text what a command prints.
fn run(rt: &HostRuntime, command: &[String], text: &mut String) -> Result<()> {
    let [program, words @ ..] = command else {
        bail!("no command");
    };
    match program.as_str() {
        "rows" => rows::start(rt, words, text),
        "sequences" => sequences::start(rt, words, text),
        "where_is" => where_is::start(rt, words, text),
        "line_index" => line_index::start(rt, words, text),
        "make_unit" => Ok(make_unit::start(rt.alloc(), text)?),
        "refused" => Ok(make_unit::start_refused(rt.alloc(), text)?),
        "make_object" => Ok(make_object::start(rt.alloc(), text)?),
        "own" => own::start(rt.alloc(), text),
        _ => bail!("no command {program}"),
    }
}
