//! The commands and options of the program, as `clap` reads them.

use clap::{Arg, ArgAction, Command};
use std::alloc::{AllocError, Global};

/// The version of the program.
const VERSION: &str = "0.1.0";

/// The commands: the name of each and what it does, then a line for each argument that it takes
/// besides its file and `json`, and last what is said at the end. Such a line has a name; a letter,
/// or a hyphen for none; how it is written, which `argument` reads; and help.
const COMMANDS: [&str; 10] = [
    "where Prints path:line:column of each address, ??:0:0 where there is none
ADDRESS - words An address in hexadecimal digits, FUNCTION+OFFSET, FUNCTION, or a line of a \
    backtrace, or in an object file SECTION+OFFSET; without one they are read from standard input
exe e FILE Takes this as FILE, so that every other word is an address
addresses a flag Prints the address before the answer
functions f flag Prints the name of the function that holds the address, before the path
pretty - flag Prints the line of source below each answer, with a mark at the column
source - SOURCE Reads this source file instead of those that paths name
source-dir - DIR Reads source files of relative paths below this directory
map - OLD=NEW Reads source files below the directory OLD in NEW
basenames s flag Prints the last component of each path
relative-to - DIR Prints paths that begin with this directory without it
bias - ADDRESS Subtracts this from each address, for a program that was loaded elsewhere
index - INDEX Looks addresses up in an index, and not in FILE, which may be left out; if FILE is \
    named, the index must have been made of it
indexes - DIR Reads lines of a build ID and an address, and looks each up in DIR/xx/rest.lines
files - flag Reads lines of a file and an address, without FILE
>Example: lines where a.out 401136 0x40113D",
    "index Writes an index of the lines, for where --index and where --indexes
output o OUT Where the index goes; without it to FILE with .lines after it, and - is standard output
>Example: lines index a.out -o a.out.lines",
    "at Prints the addresses to break at for a line, or the next that has code, or for a function
PLACE - needed A line of each file whose path ends so, PATH:LINE, or else the name of a function, \
    as its symbol has it
after-prologue - flag Skips the prologue if an address is the beginning of a function
columns - flag Prints the column after the line
range - flag Prints where the row of each address ends, after its beginning
>Example: lines at a.out src/main.c:12",
    "source Prints the source of a line or of a function, with the addresses of each line
PLACE - needed A line of each file whose path ends so, PATH:LINE, or else the name of a function, \
    as its symbol has it
context C N Prints so many lines before it and after it (default 3)
source - SOURCE Reads this source file instead of those that paths name
source-dir - DIR Reads source files of relative paths below this directory
map - OLD=NEW Reads source files below the directory OLD in NEW
>Example: lines source -C 5 a.out src/main.c:12",
    "units Prints a line for each unit
>Example: lines units a.out",
    "files Prints the directories and files of the units
UNIT - word The offset of a unit, as the command units prints it
>Example: lines files a.out 0x8d",
    "rows Prints the rows of the units
UNIT - word The offset of a unit, as the command units prints it
whole-paths - flag Prints whole paths
>Example: lines rows --whole-paths a.out 0x8d",
    "check Prints what is wrong, lost or odd; the status is 1 for faults and lost rows
deny - KIND Makes the status 1 for these too: a kind, or fault, lost, odd or usual
allow - KIND Only counts these, whatever --deny says: a kind, or fault, lost or odd
all - flag Also prints what is usual or allowed
>Kinds: header, program, no-path, no-file (fault); goes-down, below-code, past-code, \
    no-end (lost); same-path, overlap (odd); file-0, merged, dropped (usual)
Example: lines check --deny odd --allow overlap a.out",
    "stat Prints what the bytes of the line programs are spent on
>Example: lines stat a.out",
    "diff Prints the lines that have other code in a new program; the status is 1 for any
NEW - needed The new program; FILE is the old one
map - OLD=NEW Compares paths below the directory OLD as paths below NEW
>Example: lines diff a.out.old a.out",
];

/// What each command except `index` takes, after all else.
const JSON: &str = "json - flag Prints a JSON object a line";

/// What every command takes first: its file, and how that is read.
const OF_FILE: &str = "\
FILE - needed An ELF file, or with --raw a section .debug_line; - is standard input
raw - little|big FILE is a section .debug_line alone, in this byte order
address-size - N With --raw: the bytes of an address up to version 4: 1, 2, 4 or 8 (default 8)
line-str - FILE The section .debug_line_str
str - FILE The section .debug_str
debug-dir - DIR Looks for debug files in this directory (default /usr/lib/debug)
memory-limit - BYTES Refuses a compressed section of more bytes; K, M or G may follow them \
    (default 256 times the file plus 64M)";

/// The options that conflict with the option of a name.
fn conflicts_of(name: &str) -> &'static [&'static str] {
    match name {
        "pretty" => &["json"],
        "whole-paths" => &["json"],
        "basenames" => &["relative-to"],
        "exe" => &["indexes", "files"],
        "index" => &["functions"],
        "indexes" => &["index", "functions", "raw", "line-str", "str"],
        "files" => &["index", "indexes", "functions"],
        _ => &[],
    }
}

/// What the whole program takes.
pub(crate) fn program<'a>(alloc: Global) -> Result<Command<'a>, AllocError> {
    let mut commands = Vec::new(alloc);
    for text in &COMMANDS {
        commands.push(command_of(alloc, text)?)?;
    }
    Command::new(alloc, "lines")
        .version(VERSION)
        .about("Looks into the line tables (.debug_line) of a program, DWARF versions 2 to 5.")
        .after_help(
            "FILE is an ELF program, library or object file, or with --raw a section that objcopy \
             --dump-section wrote.\nThe status is 0, or 1 where something was refused or found, \
             or 2 for other words.",
        )
        .subcommand_required(true)
        .arg_required_else_help(true)
        .subcommands(commands)?
        .bin_name("lines")
}

/// A command by itself; the whole program where no command has the name.
pub(crate) fn command<'a>(alloc: Global, name: &str) -> Result<Command<'a>, AllocError> {
    for text in &COMMANDS {
        if first_word(text).0 == name {
            let usage = format!(in alloc; "lines {name}")?;
            return command_of(alloc, text)?.bin_name(&usage);
        }
    }
    program(alloc)
}

/// The command of a text.
fn command_of<'a>(alloc: Global, text: &'static str) -> Result<Command<'a>, AllocError> {
    let (text, example) = text.split_once("\n>").unwrap_or((text, ""));
    let (head, rows) = text.split_once('\n').unwrap_or((text, ""));
    let (name, about) = first_word(head);
    let mut arguments = Vec::new(alloc);
    let json = if name == "index" { "" } else { JSON };
    for row in OF_FILE.lines().chain(rows.lines()).chain(json.lines()) {
        arguments.push(argument(alloc, name, row)?)?;
    }
    Command::new(alloc, name)
        .about(about)
        .after_help(example)
        .args(arguments)
}

/// The argument that a line describes. The file of the command `where` may be left out where
/// another argument replaces it.
fn argument<'a>(alloc: Global, command: &str, row: &'static str) -> Result<Arg<'a>, AllocError> {
    let (name, row) = first_word(row);
    let (letter, row) = first_word(row);
    let (shape, help) = first_word(row);
    let word = Arg::new(alloc, name).help(help);
    let word = match shape {
        "word" => word,
        "needed" => word.required(command != "where"),
        "words" => word.action(ArgAction::Append).num_args(0..),
        "flag" => word.action(ArgAction::SetTrue).long(name),
        "KIND" => word.action(ArgAction::Append).long(name).value_name(shape),
        _ => word.action(ArgAction::Set).long(name).value_name(shape),
    };
    let word = match letter.chars().next() {
        Some(letter) if letter != '-' => word.short(letter),
        _ => word,
    };
    match name {
        "FILE" if command == "where" => word
            .required_unless_present_any(&["exe", "index", "indexes", "files"])?
            .conflicts_with_all(&["indexes", "files"]),
        "address-size" => word.requires_arg("raw"),
        "source" | "source-dir" | "map" if command == "where" => word.requires_arg("pretty"),
        _ => word.conflicts_with_all(conflicts_of(name)),
    }
}

/// The first word of a text, and what stands after it.
fn first_word(text: &'static str) -> (&'static str, &'static str) {
    text.split_once(' ').unwrap_or((text, ""))
}
