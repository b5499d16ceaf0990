//! The words of the program, and what they ask for.
//!
//! [`parse`] reads them by `clap`. Words that the program doesn't know, and a request for help or
//! the version, are an error of `clap`, whose text and status are for the user.

use crate::grammar::{command, program};
use crate::kinds::{CheckChoice, add_kinds};
use crate::numbers::{parse_address, parse_code_address, parse_offset, parse_target};
use crate::path_text::{MessageText, ShortName};
use crate::request::{
    CodeAddress, Command, Form, InputKind, LineNames, Notation, PathForm, Request, SourceFiles,
    SourcePlace, UnitChoice,
};
use clap::error::ErrorKind;
use clap::{ArgMatches, Error};
use line_text::{AddressSize, parse_digits, parse_order, parse_size};
use std::alloc::{AllocError, Global};

/// How many lines the command `source` prints before a place and after it, by default.
const CONTEXT: u64 = 3;

/// The most lines that it prints there.
const MOST_CONTEXT: u64 = 100_000;

/// The letters that may stand after a number of bytes, and how many bytes each stands for.
const UNITS: [(char, u64); 3] = [('K', 1 << 10), ('M', 1 << 20), ('G', 1 << 30)];

/// What the value of a name says, as it is read; None where it isn't among the words. A wrong word
/// is the mistake of the function around it.
macro_rules! said {
    ($matches:expr, $name:literal, $read:expr) => {
        match $matches.get_str($name) {
            Some(word) => match $read(word) {
                None => return Err(Mistake::Word(word, $name)),
                value => value,
            },
            None => None,
        }
    };
}

/// What an error says of an unknown option of `where`, since people type those of addr2line.
const OF_ADDR2LINE: &str = "of addr2line's options, where takes -a, -e, -f and -s; a line table \
    has no inlined functions (-i), names stay as symbols have them (-C), and each answer is a line \
    (-p)";

/// What must stand in the place of a wrong word, by the name of that place.
fn wanted_of(name: &str) -> &'static str {
    match name {
        "raw" => "a byte order, little or big",
        "address-size" => "an address size: 1, 2, 4 or 8",
        "bias" => "an address, up to 16 hexadecimal digits with or without 0x",
        "ADDRESS" => {
            "an address, up to 16 hexadecimal digits with or without 0x, or NAME or NAME+OFFSET"
        }
        "PLACE" => "a path, a colon and a line, or the name of a function",
        "context" => "a number of lines up to 100000",
        "memory-limit" => "a number of bytes, decimal and with K, M or G after it or none",
        "map" => "OLD=NEW, two directories",
        "UNIT" => "an offset, decimal or hexadecimal after 0x",
        "deny" | "allow" => "a kind of findings, or fault, lost, odd or usual",
        _ => "a command",
    }
}

/// What words ask for, of which the first is the program's name.
pub fn parse<'w>(alloc: Global, words: &'w [String]) -> Result<Request<'w>, Error> {
    let mut grammar = program(alloc)?;
    let matches = match grammar.try_get_matches_from_mut(words) {
        Ok(matches) => matches,
        Err(error) => return Err(with_hint(alloc, words, error)?),
    };
    match request_of(alloc, &matches) {
        Ok(request) => Ok(request),
        Err(Mistake::Memory) => Err(Error::from(AllocError)),
        Err(Mistake::Word(word, name)) => {
            let word = ShortName(word);
            let wanted = wanted_of(name);
            let mistake = format!(in alloc; "'{word}' is not {wanted}")?;
            let mut command = command(alloc, matches.subcommand_name().unwrap_or(""))?;
            Err(command.error(ErrorKind::ValueValidation, &mistake)?)
        }
    }
}

/// An error in words. For an unknown option of `where` it also says which options of addr2line
/// there are.
fn with_hint(alloc: Global, words: &[String], error: Error) -> Result<Error, AllocError> {
    let is_where = words.get(1).is_some_and(|word| word.as_str() == "where");
    if !is_where || error.kind() != ErrorKind::UnknownArgument {
        return Ok(error);
    }
    let message = format!(in alloc; "{error}")?;
    let first = message.lines().next().unwrap_or("");
    let first = first.strip_prefix("error: ").unwrap_or(first);
    let mistake = format!(in alloc; "{first}; {OF_ADDR2LINE}")?;
    command(alloc, "where")?.error(ErrorKind::UnknownArgument, &mistake)
}

/// What is said of words that ask for nothing, or of help. A control character, and a byte that is
/// no UTF-8, stands as `\x` and two hexadecimal digits.
pub fn message_of(alloc: Global, error: &Error) -> Result<String, AllocError> {
    let message = format!(in alloc; "{error}")?;
    let message = MessageText(&message);
    format!(in alloc; "{message}")
}

/// Why words that the grammar takes ask for nothing.
#[derive(Clone, Copy)]
enum Mistake<'w> {
    /// A word, and the name of its place.
    Word(&'w str, &'static str),
    /// Memory is missing.
    Memory,
}

impl From<AllocError> for Mistake<'_> {
    fn from(_: AllocError) -> Self {
        Mistake::Memory
    }
}

/// What words ask for that the grammar takes.
fn request_of<'w>(alloc: Global, matches: &ArgMatches<'w>) -> Result<Request<'w>, Mistake<'w>> {
    let Some((name, matches)) = matches.subcommand() else {
        return Err(Mistake::Word("", ""));
    };
    let word = matches.get_str("FILE").unwrap_or("");
    let first = first_address(matches, word);
    let file = match matches.get_str("exe") {
        Some(file) => file,
        None if first.is_some() => "",
        None => word,
    };
    Ok(Request {
        kind: kind_of(matches)?,
        bias: said!(matches, "bias", parse_address).unwrap_or(0),
        command: command_of(name, matches)?,
        context: said!(matches, "context", parse_context).unwrap_or(CONTEXT),
        units: match said!(matches, "UNIT", parse_offset) {
            Some(offset) => UnitChoice::At(offset),
            None => UnitChoice::All,
        },
        check: CheckChoice {
            denied: kinds_of(matches, "deny")?,
            allowed: kinds_of(matches, "allow")?,
            is_all: matches.get_flag("all"),
        },
        file,
        line_str: matches.get_str("line-str"),
        strings: matches.get_str("str"),
        memory_limit: said!(matches, "memory-limit", parse_bytes),
        debug_directory: directory_of(matches, "debug-dir"),
        source: SourceFiles {
            file: matches.get_str("source"),
            map: said!(matches, "map", parse_map),
            directory: matches.get_str("source-dir"),
        },
        form: form_of(matches),
        paths: path_form_of(matches),
        has_address: matches.get_flag("addresses"),
        has_function: matches.get_flag("functions"),
        is_after_prologue: matches.get_flag("after-prologue"),
        has_source: matches.get_flag("pretty"),
        has_column: matches.get_flag("columns"),
        has_range: matches.get_flag("range"),
        addresses: addresses_of(alloc, first, matches)?,
    })
}

/// The address that the first word is, where it isn't the file: it may be one next to an index, and
/// is one where the option -e names the file.
fn first_address<'w>(matches: &ArgMatches<'w>, word: &'w str) -> Option<CodeAddress<'w>> {
    if matches.get_str("exe").is_some() {
        return parse_code_address(word);
    }
    let address = matches.get_str("index").and(parse_address(word))?;
    Some(CodeAddress::Linked(address))
}

/// How the file is read. For a raw section, also how wide an address is where its unit doesn't say.
fn kind_of<'w>(matches: &ArgMatches<'w>) -> Result<InputKind, Mistake<'w>> {
    let order = said!(matches, "raw", parse_order);
    let size = said!(matches, "address-size", parse_size);
    Ok(match order {
        Some(order) => InputKind::Raw(Notation {
            order,
            address_size: size.unwrap_or(AddressSize::Eight),
            lowest: 0,
            code_end: u64::MAX,
        }),
        None => InputKind::Elf,
    })
}

/// The command of a name.
fn command_of<'w>(name: &'w str, matches: &ArgMatches<'w>) -> Result<Command<'w>, Mistake<'w>> {
    Ok(match name {
        "where" => where_of(matches),
        "index" => Command::Index(matches.get_str("output")),
        "at" => Command::At(place_of(matches)?),
        "source" => Command::Source(place_of(matches)?),
        "units" => Command::Units,
        "files" => Command::Files,
        "rows" => Command::Rows(form_of(matches)),
        "check" => Command::Check,
        "stat" => Command::Stat,
        "diff" => Command::Diff(matches.get_str("NEW").unwrap_or("")),
        _ => return Err(Mistake::Word(name, "")),
    })
}

/// The place that is named.
fn place_of<'w>(matches: &ArgMatches<'w>) -> Result<SourcePlace<'w>, Mistake<'w>> {
    let place = said!(matches, "PLACE", parse_source_place);
    Ok(place.unwrap_or(SourcePlace::Function("")))
}

/// The command `where`, by what it asks.
fn where_of<'w>(matches: &ArgMatches<'w>) -> Command<'w> {
    match (matches.get_str("index"), matches.get_str("indexes")) {
        (Some(index), _) => Command::Ask(index),
        (None, Some(folder)) => Command::AskLines(LineNames::BuildIds(folder)),
        _ if matches.get_flag("files") => Command::AskLines(LineNames::Files),
        _ => Command::Where {
            has_names: matches.get_flag("functions") || may_name_functions(matches),
        },
    }
}

/// Whether the words of the command `where` may name functions, or those of standard input where
/// there are none.
fn may_name_functions(matches: &ArgMatches<'_>) -> bool {
    let words = matches.get_strs("ADDRESS").unwrap_or(&[]);
    let is_first_a_name = match matches.get_str("exe").and(matches.get_str("FILE")) {
        Some(word) => parse_address(word).is_none(),
        None => words.is_empty(),
    };
    is_first_a_name || words.iter().any(|word| parse_address(word).is_none())
}

/// The addresses that are named, after the first of them.
fn addresses_of<'w>(
    alloc: Global,
    first: Option<CodeAddress<'w>>,
    matches: &ArgMatches<'w>,
) -> Result<Vec<CodeAddress<'w>>, Mistake<'w>> {
    let mut addresses = Vec::new(alloc);
    if let Some(first) = first {
        addresses.push(first).map_err(AllocError::from)?;
    }
    for word in matches.get_strs("ADDRESS").unwrap_or(&[]) {
        let address = parse_code_address(word).ok_or(Mistake::Word(word, "ADDRESS"))?;
        addresses.push(address).map_err(AllocError::from)?;
    }
    Ok(addresses)
}

/// The kinds of findings that the words of an option name.
fn kinds_of<'w>(matches: &ArgMatches<'w>, option: &'static str) -> Result<[bool; 13], Mistake<'w>> {
    let mut kinds = [false; 13];
    for word in matches.get_strs(option).unwrap_or(&[]) {
        if !add_kinds(&mut kinds, word) {
            return Err(Mistake::Word(word, option));
        }
    }
    Ok(kinds)
}

/// The line of a path, or else the function of a name. None for no word.
fn parse_source_place(word: &str) -> Option<SourcePlace<'_>> {
    match parse_target(word) {
        Some((path, line)) => Some(SourcePlace::Line { path, line }),
        None if word.is_empty() => None,
        None => Some(SourcePlace::Function(word)),
    }
}

/// How many lines are printed before a place and after it.
fn parse_context(word: &str) -> Option<u64> {
    parse_digits(word, 10).filter(|lines| *lines <= MOST_CONTEXT)
}

/// A number of bytes: decimal digits, and a unit of 1024 bytes or of a power of them. None for
/// another word, and for one that doesn't fit 64 bits.
fn parse_bytes(word: &str) -> Option<u64> {
    for (letter, unit) in &UNITS {
        if let Some(digits) = word.strip_suffix(*letter) {
            return parse_digits(digits, 10)?.checked_mul(*unit);
        }
    }
    parse_digits(word, 10)
}

/// A directory, `=`, and the one that replaces it.
fn parse_map(word: &str) -> Option<(&str, &str)> {
    match word.split_once('=') {
        Some(("", _)) => None,
        map => map,
    }
}

/// The directory that an option names, without a slash at its end.
fn directory_of<'w>(matches: &ArgMatches<'w>, option: &str) -> Option<&'w str> {
    let directory = matches.get_str(option)?;
    Some(directory.trim_end_matches('/'))
}

/// How much of a path is printed.
fn path_form_of<'w>(matches: &ArgMatches<'w>) -> PathForm<'w> {
    match directory_of(matches, "relative-to") {
        Some(directory) => PathForm::From(directory),
        None if matches.get_flag("basenames") => PathForm::LastPart,
        None => PathForm::Whole,
    }
}

/// How the output is written. Only the command `rows` has whole paths.
fn form_of(matches: &ArgMatches<'_>) -> Form {
    if matches.get_flag("json") {
        Form::Json
    } else if matches.get_flag("whole-paths") {
        Form::WholePaths
    } else {
        Form::Text
    }
}
