//! What the command `where` is asked, and how the places of addresses are printed.

ghost use Rattle.std.specs.Prelude.{◌≡◌, ◌↔◌, [], IsNone};

use crate::Result;
use crate::piece::Piece;
use crate::sentence::{add, print, tell};
use lines_words::{
    CodeAddress, Json, Output, PathForm, Request, bytes_of_word, parse_code_address, shown_path,
};
use std::alloc::Global;

/// What is asked.
#[derive(Clone, Copy)]
pub enum Asked<'a> {
    /// The place of an address.
    Address(CodeAddress<'a>),
    /// That of a word that is no address.
    Unknown(&'a [u8]),
    /// Nothing, by a line of blanks alone.
    Nothing,
}

/// What a line asks, with its line feed. None only if there is no line, at the end of the input.
pub fn asked_by(line: &[u8]) -> Option<Asked<'_>>
    ensures { IsNone result ↔ (line.now ≡ []) }
{
    if line.is_empty() {
        return None;
    }
    Some(asked_by_word(line.trim_ascii()))
}

/// What a word asks.
fn asked_by_word(word: &[u8]) -> Asked<'_> {
    if word.is_empty() {
        return Asked::Nothing;
    }
    let text = str::from_utf8(word).unwrap_or("");
    match parse_code_address(text) {
        Some(address) => Asked::Address(address),
        None => Asked::Unknown(word),
    }
}

/// The place of an address.
#[derive(Clone, Copy)]
pub struct FoundPlace<'p> {
    /// The whole path; None where it isn't known.
    pub path: Option<&'p [u8]>,
    /// The line.
    pub line: u64,
    /// The column.
    pub column: u64,
    /// What its JSON object has after these.
    pub more: &'p [(&'p str, Json<'p>)],
}

/// What prints places.
#[derive(Drop)]
pub struct PlacePrinter<'r> {
    /// What is asked for.
    pub request: &'r Request<'r>,
    /// The directory that paths are printed from; empty where none is named.
    directory: Vec<u8>,
}

impl<'r> PlacePrinter<'r> {
    /// Places as a request has them.
    pub fn new(alloc: Global, request: &'r Request<'r>) -> Result<PlacePrinter<'r>> {
        let directory = match request.paths {
            PathForm::From(directory) => bytes_of_word(alloc, directory)?,
            _ => Vec::new(alloc),
        };
        Ok(PlacePrinter { request, directory })
    }

    /// Prints the place of an address, and the name of the function that holds it, where that is
    /// asked for; None for an address that has no place, and for what is no address.
    pub fn print(
        &self,
        address: Option<u64>,
        function: Option<&[u8]>,
        place: Option<FoundPlace<'_>>,
        output: &mut Output<'_>,
    ) {
        let path = place.and_then(|place| place.path);
        let path = path.map(|path| shown_path(path, self.request.paths, &self.directory));
        let (line, column) = place.map_or((0, 0), |place| (place.line, place.column));
        if !output.is_json() {
            if self.request.has_address {
                let address = match address {
                    Some(address) => Piece::Address(address),
                    None => Piece::Word("??"),
                };
                add("%  ", &[address], output);
            }
            if self.request.has_function {
                add("% at ", &[Piece::Path(function)], output);
            }
            let pieces = [
                Piece::Path(path),
                Piece::Number(line),
                Piece::Number(column),
            ];
            return print("%:%:%", &pieces, output);
        }
        let address = Json::Offset(address);
        output.add_fields("{", &[("address", address), ("path", Json::Bytes(path))]);
        if self.request.has_function {
            output.add_fields(",", &[("function", Json::Text(function))]);
        }
        if let Some(place) = place {
            let (line, column) = (Json::Number(line), Json::Number(column));
            output.add_fields(",", &[("line", line), ("column", column)]);
            output.add_fields(",", place.more);
        }
        output.print("}");
    }

    /// Prints that what is asked is no address of this file, which is reported.
    pub fn print_other(&self, asked: Asked<'_>, output: &mut Output<'_>) {
        let address = match asked {
            Asked::Address(CodeAddress::Linked(address)) => Some(address),
            _ => None,
        };
        self.print(address, None, None, output);
        match asked {
            Asked::Address(CodeAddress::Linked(address)) => {
                let text = "% is in no section; in an object file say SECTION+OFFSET, as .text+%";
                let address = Piece::Address(address);
                tell(text, &[address, address], output);
            }
            Asked::Address(CodeAddress::InSection { section, offset }) => {
                let section = Piece::Name(section);
                let text = "%+% is for programs; say an address";
                tell(text, &[section, Piece::Address(offset)], output);
            }
            Asked::Unknown(word) => tell("'%' is no address", &[Piece::Asked(word)], output),
            Asked::Nothing => {}
        }
    }
}
