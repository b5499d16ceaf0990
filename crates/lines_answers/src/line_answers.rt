//! The command `where` over lines of input, each of which names what it asks.

use crate::made_index::MadeIndex;
use crate::opened_index::{open_index, print_place};
use gimli_index::LineIndex;
use lines_inputs::{FunctionStarts, Piece, PlacePrinter, Result, tell};
use lines_words::{
    CodeAddress, LineNames, Output, Request, ShortName, build_id_of, map_path, parse_code_question,
    parse_line_question,
};
use lru::LruCache;
use std::alloc::Global;
use std::collections::BTreeSet;
use std::num::NonZeroUsize;

/// How many indexes are kept.
const KEPT: usize = 16;

/// An index that is kept, and where the functions of its program begin.
#[derive(Drop)]
struct KeptIndex {
    bytes: Vec<u8>,
    starts: FunctionStarts,
}

/// What lines are answered by.
#[derive(Drop)]
pub struct LineAnswers<'n> {
    alloc: Global,
    names: LineNames<'n>,
    printer: PlacePrinter<'n>,
    /// The indexes that were asked last, by what lines name.
    kept: LruCache<String, KeptIndex>,
    /// What lines name that can't be asked.
    refused: BTreeSet<String>,
}

impl<'n> LineAnswers<'n> {
    /// No index is kept.
    pub fn new(
        alloc: Global,
        names: LineNames<'n>,
        request: &'n Request<'n>,
    ) -> Result<LineAnswers<'n>> {
        let most = NonZeroUsize::new(KEPT).unwrap_or(NonZeroUsize::MIN);
        let printer = PlacePrinter::new(alloc, request)?;
        let kept = LruCache::new(alloc, most)?;
        Ok(LineAnswers {
            alloc,
            names,
            printer,
            kept,
            refused: BTreeSet::new(alloc),
        })
    }

    /// What a line without its ends asks for: of a program also code by the name of its function.
    /// None for an empty line, which is printed as an address without a place; and for one that
    /// isn't a name and an address, which is also reported.
    pub fn question<'l>(
        &self,
        line: &'l [u8],
        output: &mut Output<'_>,
    ) -> Option<(&'l str, CodeAddress<'l>)> {
        let text = str::from_utf8(line).unwrap_or("");
        let asked = match self.names {
            LineNames::Files => parse_code_question(text),
            LineNames::BuildIds(_) => linked_question(text),
        };
        if let Some((name, address)) = asked {
            return Some((name.trim_end(), address));
        }
        self.printer.print(None, None, None, output);
        if !line.is_empty() {
            let text = match self.names {
                LineNames::BuildIds(_) => "'%' is not a build id and an address",
                LineNames::Files if str::from_utf8(line).is_err() => {
                    "'%': a name that isn't UTF-8 can't be opened"
                }
                LineNames::Files => "'%' is not a file and an address",
            };
            tell(text, &[Piece::Asked(line)], output);
        }
        None
    }

    /// Where the index is that has to be read for what a line names. None where it is kept, or
    /// can't be asked, which is reported once.
    pub fn missing(&mut self, name: &str, output: &mut Output<'_>) -> Result<Option<String>> {
        if self.kept.contains(name) || self.refused.contains(name) {
            return Ok(None);
        }
        let LineNames::BuildIds(folder) = self.names else {
            return Ok(Some(String::from_str(self.alloc, name)?));
        };
        let id = build_id_of(self.alloc, name)?;
        if let Some([first, rest @ ..]) = id.as_deref() {
            return Ok(Some(map_path(self.alloc, folder, *first, rest)?));
        }
        self.refuse(name)?;
        let text = "'%' is no build id, hexadecimal digits in pairs";
        tell(text, &[Piece::Name(name)], output);
        Ok(None)
    }

    /// Keeps the index of what a line names, which was read at a place. One of a build id has to be
    /// that of its program, or that is reported.
    pub fn keep(
        &mut self,
        name: &str,
        place: &str,
        made: MadeIndex,
        output: &mut Output<'_>,
    ) -> Result<()> {
        let MadeIndex {
            bytes,
            starts,
            status,
        } = made;
        if status != 0 {
            output.refuse();
        }
        let Some(bytes) = bytes else {
            return self.refuse(name);
        };
        if let LineNames::BuildIds(_) = self.names {
            let id = build_id_of(self.alloc, name)?;
            if let Err(fault) = open_index(&bytes, id.as_deref()) {
                output.tell_of(place, fault);
                return self.refuse(name);
            }
        }
        let name = String::from_str(self.alloc, name)?;
        self.kept.put(name, KeptIndex { bytes, starts })?;
        Ok(())
    }

    /// Remembers that something can't be asked.
    fn refuse(&mut self, name: &str) -> Result<()> {
        let name = String::from_str(self.alloc, name)?;
        self.refused.insert(name)?;
        Ok(())
    }

    /// Prints the place of what a line asks. That there is no function of a name is reported.
    pub fn answer(&mut self, name: &str, asked: CodeAddress<'_>, output: &mut Output<'_>) {
        match (self.kept.get(name), asked) {
            (Some(kept), CodeAddress::Linked(address)) => {
                answer_by(&self.printer, kept, address, output);
            }
            (Some(kept), CodeAddress::InSection { section, offset }) => {
                match kept.starts.address_in(section, offset) {
                    Some(own) => {
                        let address = own.saturating_add(self.printer.request.bias);
                        answer_by(&self.printer, kept, address, output);
                    }
                    None => {
                        self.printer.print(None, None, None, output);
                        let section = ShortName(section);
                        let text = format_args!("no function has the name {section}");
                        output.tell_of(name, text);
                    }
                }
            }
            (None, CodeAddress::Linked(address)) => {
                self.printer.print(Some(address), None, None, output);
            }
            (None, _) => self.printer.print(None, None, None, output),
        }
    }
}

/// Prints the place of an address by an index that is kept.
fn answer_by(printer: &PlacePrinter<'_>, kept: &KeptIndex, address: u64, output: &mut Output<'_>) {
    match LineIndex::open(&kept.bytes) {
        Ok(index) => print_place(printer, index, address, output),
        Err(_) => printer.print(Some(address), None, None, output),
    }
}

/// What a line asks for that names an index: an address.
fn linked_question(line: &str) -> Option<(&str, CodeAddress<'_>)> {
    let (name, address) = parse_line_question(line)?;
    Some((name, CodeAddress::Linked(address)))
}
