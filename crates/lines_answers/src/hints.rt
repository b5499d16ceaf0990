//! What is said of a name that no function has: which names may be meant by it.

use lines_inputs::{Functions, Piece, Result, note};
use lines_words::Output;
use std::alloc::Global;

/// What is said of none, of one, and of up to five.
const TEXTS: [&str; 6] = [
    "",
    "a function has it in its name: %",
    "functions have it in their names: %, %",
    "functions have it in their names: %, %, %",
    "functions have it in their names: %, %, %, %",
    "functions have it in their names: %, %, %, %, %",
];

/// Prints which names may be meant by a name that no function has, where there are any.
pub(crate) fn note_hints(
    alloc: Global,
    functions: &Functions<'_>,
    name: &str,
    output: &mut Output<'_>,
) -> Result<()> {
    let hints = functions.hints(alloc, name)?;
    let mut pieces = Vec::new(alloc);
    for hint in &hints {
        pieces.push(Piece::Asked(hint))?;
    }
    match TEXTS.get(pieces.len()) {
        Some(text) if !pieces.is_empty() => note(text, &pieces, output),
        _ => {}
    }
    Ok(())
}
