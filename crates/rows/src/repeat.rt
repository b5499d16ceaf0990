//! Lines of a file that stand for many.

use crate::stop::Stop;
use crate::words::parse_number;
use line_text::parse_digits;
use std::alloc::{AllocError, Global};
use std::fmt::Write;

/// The text in which a line `:* N TEXT` stands for TEXT so many times. In TEXT `{}` ends a line,
/// and a number in braces goes up each time, by one, or by what follows it after a `+`: `{41}` in
/// its two or sixteen hexadecimal digits, `{#1}` in decimal ones, and `{'41}` as the letter of that
/// number.
pub fn repeat_lines(alloc: Global, text: &str) -> Result<String, AllocError> {
    let mut all = String::new(alloc);
    for line in text.lines() {
        match push_lines(&mut all, line) {
            Ok(()) => {}
            Err(Stop::Memory) => return Err(AllocError),
            Err(_) => all.push_str(line)?,
        }
        all.push('\n')?;
    }
    Ok(all)
}

/// Appends a line that stands for many. Refused where it is none.
fn push_lines(all: &mut String, line: &str) -> Result<(), Stop> {
    let line = line.strip_prefix(":* ").ok_or(Stop::Bad)?;
    let (count, line) = line.split_once(' ').ok_or(Stop::Bad)?;
    for turn in 0..parse_number(count).ok_or(Stop::Bad)? {
        if turn != 0 {
            all.push('\n')?;
        }
        push_line(all, turn, line)?;
    }
    Ok(())
}

/// Appends a text with the numbers of one repetition.
fn push_line(all: &mut String, turn: u64, line: &str) -> Result<(), Stop> {
    for piece in line.split('{') {
        match piece.split_once('}') {
            Some((number, text)) => {
                push_number(all, turn, number)?;
                all.push_str(text)?;
            }
            None => all.push_str(piece)?,
        }
    }
    Ok(())
}

/// Appends a number as it is in one repetition, or the end of a line where there is none.
fn push_number(all: &mut String, turn: u64, number: &str) -> Result<(), Stop> {
    let (start, step) = number.split_once('+').unwrap_or((number, "1"));
    let (sign, digits, radix) = match start.split_at_checked(1) {
        Some(("#", digits)) => ("#", digits, 10),
        Some(("'", digits)) => ("'", digits, 16),
        _ => ("", start, 16),
    };
    let (Some(first), Some(step)) = (parse_digits(digits, radix), parse_digits(step, radix)) else {
        return if number.is_empty() {
            Ok(all.push('\n')?)
        } else {
            Err(Stop::Bad)
        };
    };
    let number = first.wrapping_add(step.wrapping_mul(turn));
    let told = match (sign, digits.len()) {
        ("'", _) => write!(all, "{}", char::from(u8::try_from(number).unwrap_or(b'?'))),
        ("", 2) => write!(all, "{number:02x}"),
        ("", 16) => write!(all, "{number:016x}"),
        _ => write!(all, "{number}"),
    };
    told.ok().ok_or(Stop::Memory)
}
