//! The command `where`: the place in the source of each address.

use crate::Result;
use crate::functions::Functions;
use crate::input::Input;
use crate::lookup::{Covering, look_up_any, look_up_each};
use crate::path_sources::{PathFault, PathSources, path_or_fault};
use crate::piece::Piece;
use crate::place_printer::{Asked, FoundPlace, PlacePrinter};
use crate::sentence::{tell, tell_of_unit};
use crate::units::{column_of, flags_of, line_of};
use gimli_core::{Reader, ReaderOffset};
use gimli_lookup::{CoveringRows, ProgramPaths};
use lines_words::{CodeAddress, Json, Output, Request};
use std::alloc::Global;

/// Up to how many named addresses the functions aren't sorted by their names.
const FEW: usize = 8;

/// What came of a question.
#[derive(Drop)]
pub enum Answered {
    /// It is answered.
    Whole,
    /// It is answered, and a line of source is to be printed below.
    Above(SourceLine),
    /// It is asked of another section.
    Elsewhere,
}

/// A line and a column of a source file.
#[derive(Drop)]
pub struct SourceLine {
    /// The whole path.
    pub path: Vec<u8>,
    /// The line.
    pub line: u64,
    /// The column.
    pub column: u64,
}

/// The rows of all units of a section, or those at a few addresses, before what their paths are
/// made of is read.
///
/// <!-- part of crates/lines/src/places.rt -->
/// ```rust
/// let rows = PlaceRows::new(alloc, &input, functions, request, None, output)?;
/// ```
#[derive(Drop)]
pub struct PlaceRows<'r, 'n, R: Reader> {
    alloc: Global,
    lookup: Covering<R>,
    functions: Functions<'n>,
    printer: PlacePrinter<'r>,
    /// The name of the section, in an object file; no bytes where a function of it was asked for.
    section: Option<&'r [u8]>,
}

impl<'r, 'n, R: Reader> PlaceRows<'r, 'n, R> {
    /// Reads the rows for the named addresses of a linked program, or for any address if none is
    /// named; in an object file, the rows of one section.
    pub fn new(
        alloc: Global,
        input: &Input<R>,
        mut functions: Functions<'n>,
        request: &'r Request<'r>,
        section: Option<&'r [u8]>,
        output: &mut Output<'_>,
    ) -> Result<PlaceRows<'r, 'n, R>> {
        let printer = PlacePrinter::new(alloc, request)?;
        if request.addresses.is_empty() || request.addresses.len() > FEW {
            functions.sort_names(alloc)?;
        }
        let lookup = rows_for(alloc, input, &functions, request, section.is_some(), output)?;
        Ok(PlaceRows {
            alloc,
            lookup,
            functions,
            printer,
            section,
        })
    }

    /// Whether the paths of these rows need `.debug_str`.
    pub fn need_strings(&self) -> bool {
        self.lookup.need_strings()
    }

    /// Whether the paths of these rows need the sections that say where compilations ran, by the
    /// sections of texts of a program. Also true if memory is missing.
    pub fn need_units(&self, input: &Input<R>) -> bool {
        match ProgramPaths::new(input.strings) {
            Ok(paths) => self.lookup.need_compilations(&paths),
            Err(_) => true,
        }
    }

    /// The places of these rows, with what their paths are made of.
    pub fn places(self, sources: PathSources<R>) -> Places<'r, 'n, R> {
        Places {
            rows: self,
            sources,
        }
    }
}

/// The rows of all units of a section, or those at a few addresses, and how their places are
/// printed.
#[derive(Drop)]
pub struct Places<'r, 'n, R: Reader> {
    rows: PlaceRows<'r, 'n, R>,
    sources: PathSources<R>,
}

impl<'r, 'n, R: Reader> Places<'r, 'n, R> {
    /// Reads the rows as `PlaceRows::new` does, and what their paths are made of.
    pub fn new(
        alloc: Global,
        input: &Input<R>,
        functions: Functions<'n>,
        request: &'r Request<'r>,
        section: Option<&'r [u8]>,
        output: &mut Output<'_>,
    ) -> Result<Places<'r, 'n, R>> {
        let rows = PlaceRows::new(alloc, input, functions, request, section, output)?;
        let sources = PathSources::new(alloc, input)?;
        Ok(Places { rows, sources })
    }

    /// Prints the place of what is asked. A word that is no address is reported, and printed as an
    /// address without a place is.
    pub fn answer(&self, asked: Asked<'_>, output: &mut Output<'_>) -> Result<Answered> {
        match (asked, self.rows.section) {
            (Asked::Address(CodeAddress::Linked(address)), None) => {
                self.print_place(address, output)
            }
            (Asked::Address(CodeAddress::InSection { section, offset }), Some(own))
                if section.as_bytes() == own => self.print_place(offset, output),
            (Asked::Address(CodeAddress::InSection { section, offset }), Some(_)) => {
                match self.rows.functions.address_in(section, offset) {
                    Some(own) => self.print_place(own, output),
                    None => Ok(Answered::Elsewhere),
                }
            }
            (_, Some(_)) => Ok(Answered::Elsewhere),
            (Asked::Address(CodeAddress::InSection { section, offset }), None) => {
                self.print_in_function(section, offset, output)
            }
            (asked, None) => {
                self.rows.printer.print_other(asked, output);
                Ok(Answered::Whole)
            }
        }
    }

    /// Prints the place at an offset in a function. That there is no such function is reported.
    fn print_in_function(
        &self,
        name: &str,
        offset: u64,
        output: &mut Output<'_>,
    ) -> Result<Answered> {
        if let Some(own) = self.rows.functions.address_in(name, offset) {
            return self.print_place(own.saturating_add(self.rows.printer.request.bias), output);
        }
        self.rows.printer.print(None, None, None, output);
        tell("no function has the name %", &[Piece::Name(name)], output);
        Ok(Answered::Whole)
    }

    /// Prints the place of an address. In JSON its rows say more: their range is moved by the bias,
    /// as the address is. Why its path isn't known is reported.
    fn print_place(&self, address: u64, output: &mut Output<'_>) -> Result<Answered> {
        let rows = &self.rows;
        let request = rows.printer.request;
        let own = address.checked_sub(request.bias);
        // The search for the end of a name takes as long as the name.
        let function = match own {
            Some(own) if request.has_function => rows.functions.name_at(own),
            _ => None,
        };
        let Some(found) = own.and_then(|own| rows.lookup.find(own)) else {
            rows.printer.print(Some(address), function, None, output);
            return Ok(Answered::Whole);
        };
        let units = rows.lookup.units();
        let path = self.sources.paths().of_found(rows.alloc, units, &found);
        let (path, fault) = path_or_fault(&self.sources, path)?;
        let (line, column) = (line_of(&found.row), column_of(&found.row));
        let start = found.row.address().saturating_add(request.bias);
        let end = found.next.address().saturating_add(request.bias);
        let flags = flags_of(&found.row);
        let place = FoundPlace {
            path: path.as_deref(),
            line,
            column,
            more: &[
                ("range", Json::Range(start, end)),
                ("discriminator", Json::Number(found.row.discriminator())),
                ("flags", Json::Flags(&flags)),
            ],
        };
        rows.printer
            .print(Some(address), function, Some(place), output);
        self.tell_fault(address, &found, fault, output);
        Ok(match path {
            Some(path) if request.has_source => {
                Answered::Above(SourceLine { path, line, column })
            }
            _ => Answered::Whole,
        })
    }

    /// Reports why the path of the rows of an address isn't known, where it isn't.
    fn tell_fault(
        &self,
        address: u64,
        found: &CoveringRows,
        fault: Option<PathFault>,
        output: &mut Output<'_>,
    ) {
        let units = self.rows.lookup.units();
        if let (Some(fault), Some(unit)) = (fault, units.get(found.unit)) {
            let pieces = [Piece::Address(address), Piece::Fault(fault)];
            let offset = unit.offset().0.into_u64();
            tell_of_unit(offset, "at address %: %", &pieces, output);
        }
    }
}

/// The rows for the addresses of a request, as these were before the program was moved by a bias;
/// or the rows for any address.
fn rows_for<R: Reader>(
    alloc: Global,
    input: &Input<R>,
    functions: &Functions<'_>,
    request: &Request<'_>,
    is_any: bool,
    output: &mut Output<'_>,
) -> Result<Covering<R>> {
    if is_any || request.addresses.is_empty() {
        return look_up_any(alloc, input, output);
    }
    let mut unmoved = Vec::new(alloc);
    for address in &request.addresses {
        let own = match *address {
            CodeAddress::Linked(address) => address.checked_sub(request.bias),
            CodeAddress::InSection { section, offset } => functions.address_in(section, offset),
        };
        unmoved.extend(own)?;
    }
    look_up_each(alloc, input, unmoved, output)
}
